//! Configurations: what is read from a text or a file, and the first fault of a faulty one.
use configuration::{
    CONFIG_LIMIT, Config, ConfigFault, FileFault, ReadFault, read_config, read_config_file,
};
use failing_streams::LongReader;
use program::built_in_config;
use refusing::Refusing;
use std::alloc::{AllocError, Allocator, Global};
use std::process::Abort;
use std::test::Fail;

/// A configuration of two subjects, with its keys in another order than the documented one.
const TWO: &str = r#"{"policies":{"root":{"policy":"p","combine":"deny-overrides","rules":[]}},
 "subjects":[{"role":"editor","office":"north","name":"ines"},
  {"name":"ada","office":"hq","role":"chief","steward":true}]}"#;

/// The code of a text's fault; `ok` for a configuration.
fn code_of(heap: Global, text: &str) -> &'static str {
    let Err(fault) = read_config(heap, heap, text.as_bytes()) else {
        return "ok";
    };
    fault.code()
}

/// Checks that each text has this code.
fn have_code(rt: &impl Abort, heap: Global, code: &str, texts: &[&str]) {
    for text in texts {
        assert_eq!(rt; code_of(heap, text), code, "{text}");
    }
}

#[test]
fn texts_that_are_read(rt: HostRuntime) {
    have_code(
        &rt,
        rt.alloc(),
        "ok",
        &[
            TWO,
            r#" {"subjects":[{"name":"a","office":"b","role":"c","steward":false}],"policies":{"root":{"policy":"p","combine":"deny-overrides","rules":[]}}} "#,
            // of equal keys the last one counts
            r#"{"subjects":1,"subjects":[{"name":"a","office":"b","role":"c"}],"policies":{"root":{"policy":"p","combine":"deny-overrides","rules":[]}}}"#,
        ],
    );
}

/// Checks the configuration of the two subjects.
fn says<A: Allocator>(rt: &impl Abort, config: &Config<A>) {
    let subjects = config.subjects.as_slice();
    assert_eq!(rt; subjects.len(), 2);
    assert_eq!(rt; subjects[0].name.as_bytes(), b"ines".as_slice());
    assert_eq!(rt; subjects[0].office.as_bytes(), b"north".as_slice());
    assert_eq!(rt; subjects[0].role.as_bytes(), b"editor".as_slice());
    assert!(rt; !subjects[0].steward);
    assert!(rt; subjects[1].steward);
    assert_eq!(rt; config.document.zone_count(), 0);
}

#[test]
fn subjects_and_document(rt: HostRuntime) {
    match read_config(rt.alloc(), rt.alloc(), TWO.as_bytes()) {
        Ok(config) => says(&rt, &config),
        Err(fault) => assert!(rt; false, "{fault}"),
    }
}

/// A configuration of two subjects that says all that may be said of HTTP.
const HTTP: &str = r#"{"policies":{"root":{"policy":"p","combine":"deny-overrides","rules":[]}},
 "collections":["mast","road-2"],"public":"https://maps.agency.example/map","anonymous":"ada","metrics":"ines",
 "keys":[{"sha256":"00112233445566778899AABBccddeeff0102030405060708090a0b0c0d0e0f10","subject":"ines"},
  {"subject":"ada","sha256":"ffffffffffffffffffffffffffffffffffffffffffffffffffffffffffffffff"}],"trusted-field":false,
 "subjects":[{"role":"editor","office":"north","name":"ines"},
  {"name":"ada","office":"hq","role":"chief","steward":true}]}"#;

/// Checks what is said of HTTP.
fn says_of_http<A: Allocator>(rt: &impl Abort, config: &Config<A>) {
    let anonymous = config
        .web
        .anonymous
        .map(|name| name.as_bytes() == b"ada".as_slice());
    assert_eq!(rt; anonymous, Some(true));
    let metrics = config
        .web
        .metrics
        .map(|name| name.as_bytes() == b"ines".as_slice());
    assert_eq!(rt; metrics, Some(true));
    let public = match &config.web.public {
        Some(public) => public.as_str(),
        None => "",
    };
    assert_eq!(rt; public, "https://maps.agency.example/map");
    assert_eq!(rt; config.web.collections.len(), 2);
    assert_eq!(rt; config.web.collections[0].as_bytes(), b"mast".as_slice());
    assert_eq!(rt; config.web.collections[1].as_bytes(), b"road-2".as_slice());
}

/// The digest of the first key.
const FIRST_DIGEST: [u8; 32] = [
    0x00, 0x11, 0x22, 0x33, 0x44, 0x55, 0x66, 0x77, 0x88, 0x99, 0xaa, 0xbb, 0xcc, 0xdd, 0xee, 0xff,
    1, 2, 3, 4, 5, 6, 7, 8, 9, 10, 11, 12, 13, 14, 15, 16,
];

/// Checks the keys.
fn says_of_keys<A: Allocator>(rt: &impl Abort, config: &Config<A>) {
    let keys = config.web.keys.as_slice();
    assert_eq!(rt; keys.len(), 2);
    assert_eq!(rt; keys[0].subject.as_bytes(), b"ines".as_slice());
    assert!(rt; keys[0].digest == FIRST_DIGEST);
    assert_eq!(rt; keys[1].subject.as_bytes(), b"ada".as_slice());
    assert!(rt; keys[1].digest == [0xff; 32]);
    assert!(rt; !config.web.trusted_field);
}

#[test]
fn said_of_http(rt: HostRuntime) {
    match read_config(rt.alloc(), rt.alloc(), HTTP.as_bytes()) {
        Ok(config) => {
            says_of_http(&rt, &config);
            says_of_keys(&rt, &config);
        }
        Err(fault) => assert!(rt; false, "{fault}"),
    }
    match read_config(rt.alloc(), rt.alloc(), TWO.as_bytes()) {
        Ok(config) => {
            assert!(rt; config.web.anonymous.is_none());
            assert!(rt; config.web.metrics.is_none());
            assert!(rt; config.web.public.is_none());
            assert_eq!(rt; config.web.collections.len(), 0);
            assert_eq!(rt; config.web.keys.len(), 0);
            assert!(rt; !config.web.trusted_field);
        }
        Err(fault) => assert!(rt; false, "{fault}"),
    }
}

/// The policies are looked at before what is said of HTTP, and the grid, too.
#[test]
fn http_comes_last(rt: HostRuntime) {
    have_code(
        &rt,
        rt.alloc(),
        "D2",
        &[
            r#"{"anonymous":1,"subjects":[{"name":"a","office":"b","role":"c"}],"policies":{}}"#,
            r#"{"public":1,"grid":1,"subjects":[{"name":"a","office":"b","role":"c"}],"policies":{}}"#,
        ],
    );
    have_code(
        &rt,
        rt.alloc(),
        "N1",
        &[r#"{"collections":1,"subjects":[],"policies":{}}"#],
    );
}

#[test]
fn no_json(rt: HostRuntime) {
    have_code(
        &rt,
        rt.alloc(),
        "B1",
        &["", "{", "{} {}", "{\"subjects\":[]", "{'subjects':[]}"],
    );
    let read = read_config(rt.alloc(), rt.alloc(), b"\"\xff\"");
    assert!(rt; matches!(read, Err(ConfigFault::NotJson)));
}

#[test]
fn wrong_form(rt: HostRuntime) {
    have_code(
        &rt,
        rt.alloc(),
        "B2",
        &[
            "[]",
            "{}",
            "null",
            // no policies, no subjects, and no array of them
            r#"{"subjects":[]}"#,
            r#"{"policies":{}}"#,
            r#"{"subjects":{},"policies":{}}"#,
            // one more key
            r#"{"subjects":[],"policies":{},"zones":[]}"#,
            r#"{"subjects":[{"name":"a","office":"b","role":"c","key":1}],"policies":{}}"#,
        ],
    );
}

#[test]
fn wrong_subjects(rt: HostRuntime) {
    have_code(
        &rt,
        rt.alloc(),
        "B2",
        &[
            r#"{"subjects":["a"],"policies":{}}"#,
            r#"{"subjects":[{"name":"a","office":"b"}],"policies":{}}"#,
            r#"{"subjects":[{"name":"a","role":"c"}],"policies":{}}"#,
            r#"{"subjects":[{"office":"b","role":"c"}],"policies":{}}"#,
            r#"{"subjects":[{"name":"A","office":"b","role":"c"}],"policies":{}}"#,
            r#"{"subjects":[{"name":"a","office":"","role":"c"}],"policies":{}}"#,
            r#"{"subjects":[{"name":"a","office":"b","role":1}],"policies":{}}"#,
            r#"{"subjects":[{"name":"a","office":"b","role":"c","steward":null}],"policies":{}}"#,
            r#"{"subjects":[{"name":"a","office":"b","role":"c","steward":"true"}],"policies":{}}"#,
            // the form of each subject is checked before a name that occurs twice
            r#"{"subjects":[{"name":"a","office":"b","role":"c"},{"name":"a","office":"b","role":"c"},{}],"policies":{}}"#,
        ],
    );
}

#[test]
fn lists_turned_away(rt: HostRuntime) {
    have_code(
        &rt,
        rt.alloc(),
        "N1",
        &[
            r#"{"subjects":[],"policies":{}}"#,
            r#"{"policies":7,"subjects":[]}"#,
        ],
    );
    have_code(
        &rt,
        rt.alloc(),
        "N3",
        &[
            r#"{"subjects":[{"name":"a","office":"b","role":"c"},{"name":"a","office":"d","role":"e"}],"policies":{}}"#,
        ],
    );
}

/// A configuration of one subject `a` and this many more of the same name, without policies.
fn of_many(heap: Global, more: usize) -> Result<String, AllocError> {
    let further = r#",{"name":"a","office":"b","role":"c"}"#.repeat(heap, more)?;
    format!(in heap;
        r#"{{"policies":{{}},"subjects":[{{"name":"a","office":"b","role":"c"}}{further}]}}"#
    )
}

#[test]
fn too_many_subjects(rt: HostRuntime) -> Result<(), Fail> {
    let many = of_many(rt.alloc(), 64)?;
    assert_eq!(rt; code_of(rt.alloc(), many.as_str()), "N2");
    let fit = of_many(rt.alloc(), 63)?;
    assert_eq!(rt; code_of(rt.alloc(), fit.as_str()), "N3");
    Ok(())
}

#[test]
fn policies_at_fault(rt: HostRuntime) {
    have_code(
        &rt,
        rt.alloc(),
        "D2",
        &[
            r#"{"subjects":[{"name":"a","office":"b","role":"c"}],"policies":{}}"#,
            r#"{"subjects":[{"name":"a","office":"b","role":"c"}],"policies":null}"#,
        ],
    );
    have_code(
        &rt,
        rt.alloc(),
        "D3",
        &[r#"{"subjects":[{"name":"a","office":"b","role":"c"}],"policies":{"root":{},"key":1}}"#],
    );
}

#[test]
fn each_allocation_of_a_configuration(rt: HostRuntime) {
    let heap = rt.alloc();
    let memory = Refusing::new(heap, 0);
    let mut refused = 0;
    for at in 1..50 {
        memory.refuse(at);
        let read = read_config(&memory, heap, HTTP.as_bytes());
        if !memory.has_refused() {
            assert!(rt; read.is_ok());
            break;
        }
        refused = at;
        assert!(rt; matches!(read, Err(ConfigFault::Memory(_))), "{at}");
    }
    assert!(rt; refused > 1 && refused < 49, "{refused}");
}

#[test]
fn each_allocation_of_its_file(rt: HostRuntime) {
    let heap = rt.alloc();
    let memory = Refusing::new(heap, 0);
    let mut refused = 0;
    for at in 1..50 {
        memory.refuse(at);
        let read = read_config_file(&memory, heap, &mut TWO.as_bytes());
        if !memory.has_refused() {
            assert!(rt; read.is_ok());
            break;
        }
        refused = at;
        assert!(rt;
            matches!(read, Err(FileFault::Config(ConfigFault::Memory(_)))),
            "{at}"
        );
    }
    assert!(rt; refused > 2 && refused < 49, "{refused}");
}

#[test]
fn the_built_in_one(rt: HostRuntime) {
    match built_in_config(rt.alloc(), rt.alloc()) {
        Ok(config) => assert_eq!(rt; config.subjects.as_slice().len(), 3),
        Err(fault) => assert!(rt; false, "{fault}"),
    }
}

/// The result for a file of this many bytes that are not JSON.
fn file_of(heap: Global, left: usize) -> Result<Config<Global>, FileFault> {
    read_config_file(heap, heap, &mut LongReader { left })
}

#[test]
fn a_file_too_long(rt: HostRuntime) {
    assert_eq!(rt; CONFIG_LIMIT, 16_777_216);
    let fits = file_of(rt.alloc(), CONFIG_LIMIT);
    assert!(rt; matches!(fits, Err(FileFault::Config(ConfigFault::NotJson))));
    let too_long = file_of(rt.alloc(), CONFIG_LIMIT + 1);
    assert!(rt; matches!(too_long, Err(FileFault::CannotRead(ReadFault::TooLong))));
}
