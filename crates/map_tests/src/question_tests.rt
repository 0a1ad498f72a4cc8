//! Which calls paths name, what methods do there, and what queries ask of the policy.
use features::{Action as Deed, Name};
use grid::{Between, Grid};
use map_changes::Method;
use map_questions::{
    Action, Asking, AskingFault, Call, Task, TrailTask, call_of, read_asking, task_of,
};
use plane::{Point, Shape};
use refusing::Refusing;
use std::alloc::Allocator;
use std::process::Abort;

/// Paths, and the calls that they name.
const CALLS: [(&str, Option<Call>); 13] = [
    ("/explain", Some(Call::Explain)),
    ("/policy", Some(Call::Policy)),
    ("/trail", Some(Call::Trail)),
    ("/trail/1", Some(Call::Piece(1))),
    ("/trail/18446744073709551615", Some(Call::Piece(u64::MAX))),
    ("/trail/18446744073709551616", None),
    ("/trail/", None),
    ("/trail/1/", None),
    ("/trail/x", None),
    ("/explain/", None),
    ("/Policy", None),
    ("/%70olicy", None),
    ("/", None),
];

#[test]
fn calls_of_paths(rt: HostRuntime) {
    for (path, wanted) in CALLS {
        assert!(rt; call_of(path.as_bytes()) == wanted, "{path}");
    }
}

/// What is done at each call: read, by `POST`, by `PUT`, by `PATCH`, by `DELETE`.
const TASKS: [(Call, [Option<Task>; 5]); 4] = [
    (Call::Explain, [Some(Task::Explain), None, None, None, None]),
    (Call::Policy, [None, None, Some(Task::Govern), None, None]),
    (
        Call::Trail,
        [None, Some(Task::Trail(TrailTask::Roll)), None, None, None],
    ),
    (
        Call::Piece(7),
        [
            Some(Task::Trail(TrailTask::Show(7))),
            None,
            None,
            None,
            Some(Task::Trail(TrailTask::LetGo(7))),
        ],
    ),
];

#[test]
fn tasks_of_methods(rt: HostRuntime) {
    let actions = [
        Action::Read,
        Action::Change(Method::Post),
        Action::Change(Method::Put),
        Action::Change(Method::Patch),
        Action::Change(Method::Delete),
    ];
    for (call, wanted) in TASKS {
        for (at, action) in actions.iter().enumerate() {
            assert!(rt; task_of(*action, call) == wanted[at]);
        }
    }
}

/// A point as a geometry, with the escapes that a client writes.
const POINT: &str =
    "geometry=%7B%22type%22%3A%22Point%22%2C%22coordinates%22%3A%5B7.0000001%2C46.0000002%5D%7D";

/// What stands before and behind the point in a query, and the code of the query's fault, or `ok`.
const QUERIES: [(&str, &str, &str); 17] = [
    ("action=reshape&office=roads&class=mast&", "", "ok"),
    ("", "&class=mast&office=roads&action=read", "ok"),
    ("%61ction=%61dd&office=roads&class=mast&", "", "ok"),
    ("action=delete&office=roads&class=mast&", "&", "ok"),
    ("action=roll&office=roads&class=mast&", "", "U4"),
    ("action=Read&office=roads&class=mast&", "", "U4"),
    ("action=&office=roads&class=mast&", "", "U4"),
    ("office=roads&class=mast&", "", "U4"),
    ("action=read&class=mast&", "", "U4"),
    ("action=read&office=roads&", "", "U4"),
    ("action=read&office=Roads&class=mast&", "", "U4"),
    ("action=read&office=roads&class=m%20t&", "", "U4"),
    ("action=read&action=read&office=roads&class=mast&", "", "U3"),
    ("action=read&office=roads&class=mast&class=&", "", "U3"),
    ("action=read&office=roads&class=mast&", "&geometry=x", "U3"),
    ("action=x&action=y&subject=ines&", "", "U2"),
    ("action=read&office=roads&class=mast&limit=1&", "", "U2"),
];

/// Geometries, and the code of the fault of a question about one, or `ok`.
const GEOMETRIES: [(&str, &str); 9] = [
    (
        r#"{"type":"LineString","coordinates":[[7,46],[7.0000001,46]]}"#,
        "ok",
    ),
    (
        r#"{"type":"Polygon","coordinates":[[[7,46],[7.0000001,46],[7,46.0000001],[7,46]]]}"#,
        "ok",
    ),
    (
        r#"{"type":"Feature","id":"x","geometry":{"type":"Point","coordinates":[7,46]},"properties":{}}"#,
        "ok",
    ),
    (r#"{"type":"Point","coordinates":[7]}"#, "U4"),
    (r#"{"type":"Point","coordinates":[7,46.00000001]}"#, "U4"),
    (r#"{"type":"Circle","coordinates":[7,46]}"#, "U4"),
    (
        r#"{"type":"LineString","coordinates":[[7,46],[7.0000001,46],[7.0000002,46]]}"#,
        "U4",
    ),
    (
        r#"{"type":"LineString","coordinates":[[7,46],[7,46]]}"#,
        "U4",
    ),
    ("POINT (1 2)", "U4"),
];

/// What a query asks.
fn asked<A: Allocator + Copy>(
    rt: &impl Abort,
    alloc: A,
    query: &[u8],
) -> Result<Asking, AskingFault> {
    let grid = Grid::new(b"7", b"46", 7, Between::Refuse).expect(rt, "a grid");
    read_asking(alloc, &grid, query)
}

/// The code of a fault, or `ok`.
fn code_of(outcome: &Result<Asking, AskingFault>) -> &'static str {
    match outcome {
        Ok(_) => "ok",
        Err(fault) => (*fault).code(),
    }
}

#[test]
fn first_fault_of_each_query(rt: HostRuntime) {
    for (before, behind, wanted) in QUERIES {
        let Ok(query) = format!(in rt.alloc(); "{before}{POINT}{behind}") else {
            panic!(rt; "no memory");
        };
        let code = code_of(&asked(&rt, rt.alloc(), query.as_bytes()));
        assert_eq!(rt; code, wanted, "{before}..{behind}");
    }
}

#[test]
fn first_fault_of_each_geometry(rt: HostRuntime) {
    for (geometry, wanted) in GEOMETRIES {
        let Ok(query) = format!(in rt.alloc();
            "action=read&office=roads&class=mast&geometry={geometry}"
        ) else {
            panic!(rt; "no memory");
        };
        let code = code_of(&asked(&rt, rt.alloc(), query.as_bytes()));
        assert_eq!(rt; code, wanted, "{geometry}");
    }
}

#[test]
fn what_is_asked(rt: HostRuntime) {
    let query =
        "action=reshape&office=roads&class=mast&geometry=%7B%22type%22:%22Point%22,%22coordinates%22:[7.0000001,46.0000002]%7D";
    let Ok(asking) = asked(&rt, rt.alloc(), query.as_bytes()) else {
        panic!(rt; "a fault");
    };
    assert!(rt; asking.action == Deed::Reshape);
    assert!(rt; Some(asking.office) == Name::new(b"roads"));
    assert!(rt; Some(asking.class) == Name::new(b"mast"));
    assert!(rt; Shape::point(Point { x: 1, y: 2 }) == Ok(asking.shape));
}

/// Each allocation of a reading is refused in turn; then the query is read.
#[test]
fn questions_without_memory(rt: HostRuntime) {
    let query =
        "action=read&office=roads&class=mast&geometry=%7B%22type%22:%22Point%22,%22coordinates%22:[7,46]%7D";
    let heap = Refusing::new(rt.alloc(), 0);
    let mut at = 0u64;
    for number in 1..100u64 {
        heap.refuse(number);
        match asked(&rt, &heap, query.as_bytes()) {
            Ok(_) => break,
            Err(fault) => {
                assert_eq!(rt; fault.code(), "memory");
                at = number;
            }
        }
    }
    assert!(rt; at > 1 && at < 99);
}
