//! Session lines at the ends of counters and limits; and each kind of line that allocates in the
//! world, with each of its allocations refused in turn.
use crate::fakes::{SEVENTEEN_ROWS, SIXTEEN, SIXTEEN_ROWS};
use crate::script_lines::{BEHIND_SIXTEEN, SEATED, check_cases_at};
use crate::worlds::{LIMITS, opened_at};
use refusing::Refusing;
use scripts::run_script;
use std::alloc::{AllocError, Global};
use std::io;
use std::io::Read;
use std::process::Abort;
use std::test::Fail;
use world::{Limits, ROLLED_LIMIT, Starts};

/// Policies that permit or deny by default.
const DEFAULTS: &str = r#"=== what is decided by default, and which rule decides where one does
> c: POLICY {"root":{"combine":"first-applicable","of":[{"combine":"deny-unless-permit","policy":"a","rules":[{"effect":"permit","rule":"mine","when":[{"own":true}]}]},{"combine":"deny-overrides","policy":"b","rules":[{"effect":"deny","rule":"late"}]}],"set":"top"}}
< c: edition 2
> n: EXPLAIN read south mast POINT (0 0)
< n: denied none edition 2
> n: EXPLAIN read north mast POINT (0 0)
< n: permit rule mine edition 2
> n: ADD 1 mast POINT (0 0)
< n: staged
> n: COMMIT
< n: applied 1
> s: DELETE 1 1
< s: staged
> s: COMMIT
< s: denied none change 1
> c: POLICY {"root":{"combine":"deny-overrides","of":[{"combine":"deny-unless-permit","policy":"a","rules":[{"effect":"permit","rule":"mine","when":[{"own":true}]}]},{"combine":"deny-overrides","policy":"b","rules":[{"effect":"deny","rule":"late"}]}],"set":"top"}}
< c: edition 3
> n: EXPLAIN read south mast POINT (0 0)
< n: denied rule late edition 3
> n: EXPLAIN read north mast POINT (0 0)
< n: denied rule late edition 3
> n: DELETE 1 1
< n: staged
> n: COMMIT
< n: denied rule late change 1
> c: POLICY {"root":{"combine":"permit-unless-deny","policy":"w","rules":[]}}
< c: edition 4
> n: EXPLAIN read south mast POINT (0 0)
< n: permit none edition 4
> n: EXPLAIN read north mast POINT (0 0)
< n: permit none edition 4
> s: DELETE 1 1
< s: staged
> s: COMMIT
< s: applied 2
"#;

/// The trail has room for one record.
const ONE_RECORD: &str =
    r#"=== a trail without room: X10 of a search and of a COMMIT, and what comes before it
> n: DELETE 1 1
< n: staged
> n: COMMIT
< n: absent change 1
> n: SEARCH POINT (0 0)
< n: error X10
> n: ADD 1 a POINT (0 0)
< n: staged
> n: COMMIT
< n: error X10
> c: ROLL x
< c: error E2
> c: POLICY {}
< c: error D2
> n: SEARCH POINT (0 0)
< n: error X10
=== a search that finds no place for its record stays open
> n: SEARCH POINT (0 0)
< n: rows 0
> n: OPEN POINT (0 0)
< n: opened
> n: FINISH
< n: error X10
> n: OPEN POINT (0 0)
< n: error E8
> n: FINISH
< n: error X10
> c: ROLL
< c: rolled 1
< c: {"ids":[],"kind":"answered","number":1,"seat":1,"subject":"north","window":"POINT (0 0)"}
> n: FINISH
< n: rows 0
=== a roll makes room for a record again
> n: ADD 1 mast POINT (3 4)
< n: staged
> n: COMMIT
< n: applied 1
> n: SEARCH POINT (3 4)
< n: error X10
> c: ROLL
< c: rolled 1
< c: {"changes":[{"class":"mast","id":1,"shape":"POINT (3 4)","what":"add"}],"kind":"applied","number":1,"seat":1,"subject":"north","version":1}
> n: SEARCH POINT (3 4)
< n: rows 1
< n: 1 1 north mast POINT (3 4)
"#;

/// No more records can be rolled out: only the roll of an empty trail succeeds.
const LAST_ROLL: &str = r#"=== the last record that a roll can take out
> c: ROLL
< c: rolled 0
> n: SEARCH POINT (0 0)
< n: rows 0
> c: ROLL
< c: error X8
"#;

/// The last version was given.
const LAST_VERSION: &str = r#"=== no version is left for a list that would be applied
> n: ADD 1 mast POINT (3 4)
< n: staged
> n: COMMIT
< n: error X8
> n: ABORT
< n: aborted
> n: DELETE 1 1
< n: staged
> n: COMMIT
< n: absent change 1
"#;

/// The last edition is in force.
const LAST_EDITION: &str = r#"=== no edition is left for a policy
> c: POLICY {"root":{"combine":"first-applicable","policy":"p","rules":[{"effect":"permit","rule":"roads","target":[[[{"class":"road"}]]]}]}}
< c: error X8
"#;

/// The last search number was given.
const LAST_SEARCH: &str = r#"=== no number is left for a search
> n: SEARCH POINT (0 0)
< n: error S6
"#;

/// The store has room for one feature.
const ONE_FEATURE: &str = r#"=== there is no room for a second feature
> n: ADD 1 mast POINT (3 4)
< n: staged
> n: COMMIT
< n: applied 1
> n: ADD 2 mast POINT (3 4)
< n: staged
> n: COMMIT
< n: error X11
> n: COMMIT
< n: error X11
> n: ABORT
< n: aborted
"#;

/// The walk of one COMMIT may make one step. The seventeenth point takes three: splitting the root,
/// which is a leaf until then; going down to a leaf; and placing the point.
const ONE_STEP: &str =
    r#"=== parting the root is one step: the walk goes no further, however often it is sent
> n: COMMIT
< n: error S7
> n: COMMIT
< n: error S7
> n: ABORT
< n: aborted
> n: COMMIT
< n: error E7
"#;

/// The walk of one COMMIT and a search may make two steps. A search that the index drops is gone.
const TWO_STEPS: &str =
    r#"=== down to a leaf and placing are two more, made by the second COMMIT; a search of one leaf
> n: COMMIT
< n: error S7
> n: COMMIT
< n: applied 2
> n: SEARCH POINT (1 0)
< n: rows 1
< n: 1 1 north road POINT (1 0)
=== a search for all wants three steps, the root and both leaves
> n: COMMIT
< n: error S7
> n: COMMIT
< n: applied 2
> n: SEARCH POLYGON ((0 -1, 500 -1, 500 1, 0 1, 0 -1))
< n: error S7
> n: OPEN POLYGON ((0 -1, 500 -1, 500 1, 0 1, 0 -1))
< n: opened
> n: STEP 1
< n: more
> n: STEP 1
< n: more
> n: STEP 1
< n: error S7
> n: STEP 1
< n: error E8
> n: FINISH
< n: error E8
=== a STEP that asks for more than is left
> n: COMMIT
< n: error S7
> n: COMMIT
< n: applied 2
> n: SEARCH POLYGON ((0 -1, 500 -1, 500 1, 0 1, 0 -1))
< n: error S7
> n: OPEN POLYGON ((0 -1, 500 -1, 500 1, 0 1, 0 -1))
< n: opened
> n: STEP 2
< n: more
> n: STEP 1000000
< n: error S7
> n: FINISH
< n: error E8
=== the same, of a search that has made none
> n: COMMIT
< n: error S7
> n: COMMIT
< n: applied 2
> n: SEARCH POLYGON ((0 -1, 500 -1, 500 1, 0 1, 0 -1))
< n: error S7
> n: OPEN POLYGON ((0 -1, 500 -1, 500 1, 0 1, 0 -1))
< n: opened
> n: STEP 3
< n: error S7
> n: OPEN POINT (0 0)
< n: opened
=== FINISH asks for all of them
> n: COMMIT
< n: error S7
> n: COMMIT
< n: applied 2
> n: SEARCH POLYGON ((0 -1, 500 -1, 500 1, 0 1, 0 -1))
< n: error S7
> n: OPEN POLYGON ((0 -1, 500 -1, 500 1, 0 1, 0 -1))
< n: opened
> n: FINISH
< n: error S7
> n: STEP 1
< n: error E8
> n: OPEN POINT (0 0)
< n: opened
"#;

/// The walk of one COMMIT may make three steps.
const THREE_STEPS: &str = r#"=== three steps are enough for the seventeenth point
> n: COMMIT
< n: applied 2
"#;

/// The index's counter is at its end. The seventeenth point splits the root; the next sixteen, all
/// at one place, would split a leaf below it.
const LAST_COUNT: &str = r#"=== no number is left to part a leaf below the root
> n: COMMIT
< n: applied 2
> n: ADD 18 a POINT (1 0)
< n: staged
> n: ADD 19 a POINT (1 0)
< n: staged
> n: ADD 20 a POINT (1 0)
< n: staged
> n: ADD 21 a POINT (1 0)
< n: staged
> n: ADD 22 a POINT (1 0)
< n: staged
> n: ADD 23 a POINT (1 0)
< n: staged
> n: ADD 24 a POINT (1 0)
< n: staged
> n: ADD 25 a POINT (1 0)
< n: staged
> n: ADD 26 a POINT (1 0)
< n: staged
> n: ADD 27 a POINT (1 0)
< n: staged
> n: ADD 28 a POINT (1 0)
< n: staged
> n: ADD 29 a POINT (1 0)
< n: staged
> n: ADD 30 a POINT (1 0)
< n: staged
> n: ADD 31 a POINT (1 0)
< n: staged
> n: ADD 32 a POINT (1 0)
< n: staged
> n: ADD 33 a POINT (1 0)
< n: staged
> n: COMMIT
< n: error S6
> n: COMMIT
< n: error S6
> n: SEARCH POLYGON ((0 -1, 500 -1, 500 1, 0 1, 0 -1))
< n: rows 17
< n: 1 1 north road POINT (1 0)
< n: 2 1 north road POINT (2 0)
< n: 3 1 north road POINT (3 0)
< n: 4 1 north road POINT (4 0)
< n: 5 1 north road POINT (5 0)
< n: 6 1 north road POINT (6 0)
< n: 7 1 north road POINT (7 0)
< n: 8 1 north road POINT (8 0)
< n: 9 1 north road POINT (9 0)
< n: 10 1 north road POINT (10 0)
< n: 11 1 north road POINT (11 0)
< n: 12 1 north road POINT (12 0)
< n: 13 1 north road POINT (13 0)
< n: 14 1 north road POINT (14 0)
< n: 15 1 north road POINT (15 0)
< n: 16 1 north road POINT (16 0)
< n: 17 2 north road POINT (17 0)
> n: ABORT
< n: aborted
> n: COMMIT
< n: error E7
> n: ADD 34 a POINT (600 0)
< n: staged
> n: COMMIT
< n: applied 3
"#;

/// Checks cases after three seats are given, in worlds with these limits and the usual first
/// numbers.
fn check_limits(
    rt: &impl Abort,
    heap: Global,
    limits: Limits,
    cases: &str,
) -> Result<(), AllocError> {
    check_cases_at(rt, heap, Starts::FIRST, limits, SEATED, cases)
}

#[test]
fn ends_of_limits(rt: HostRuntime) -> Result<(), Fail> {
    let heap = rt.alloc();
    check_limits(&rt, heap, LIMITS, DEFAULTS)?;
    check_limits(
        &rt,
        heap,
        Limits {
            records: 1,
            ..LIMITS
        },
        ONE_RECORD,
    )?;
    check_limits(
        &rt,
        heap,
        Limits {
            features: 1,
            ..LIMITS
        },
        ONE_FEATURE,
    )?;
    Ok(())
}

#[test]
fn ends_of_numbers(rt: HostRuntime) -> Result<(), Fail> {
    let heap = rt.alloc();
    let first = Starts::FIRST;
    for (starts, cases) in [
        (
            Starts {
                rolled: ROLLED_LIMIT,
                ..first
            },
            LAST_ROLL,
        ),
        (
            Starts {
                version: u64::MAX,
                ..first
            },
            LAST_VERSION,
        ),
        (
            Starts {
                edition: u64::MAX,
                ..first
            },
            LAST_EDITION,
        ),
        (
            Starts {
                search: u64::MAX,
                ..first
            },
            LAST_SEARCH,
        ),
    ] {
        check_cases_at(&rt, heap, starts, LIMITS, SEATED, cases)?;
    }
    Ok(())
}

/// Checks cases after sixteen points are committed and one is staged, in worlds with this limit of
/// steps.
fn check_steps(rt: &impl Abort, heap: Global, steps: u32, cases: &str) -> Result<(), AllocError> {
    let limits = Limits { steps, ..LIMITS };
    check_cases_at(rt, heap, Starts::FIRST, limits, BEHIND_SIXTEEN, cases)
}

#[test]
fn ends_of_steps(rt: HostRuntime) -> Result<(), Fail> {
    let heap = rt.alloc();
    check_steps(&rt, heap, 1, ONE_STEP)?;
    check_steps(&rt, heap, 2, TWO_STEPS)?;
    check_steps(&rt, heap, 3, THREE_STEPS)?;
    let last = Starts {
        counter: u64::MAX,
        ..Starts::FIRST
    };
    check_cases_at(&rt, heap, last, LIMITS, BEHIND_SIXTEEN, LAST_COUNT)?;
    Ok(())
}

/// A kind of line that allocates in the world.
#[derive(Clone, Copy, Drop)]
enum LineKind {
    Hello,
    Search,
    Commit,
    Policy,
    Roll,
    Open,
    Step,
    Finish,
}

/// A script with a line of this kind, which is sent again if an allocation was refused.
impl LineKind {
    /// The first part of the lines before it; `before` has the second.
    fn first(self) -> &'static str {
        match self {
            Self::Hello => "#\n",
            _ => SIXTEEN,
        }
    }

    fn before(self) -> &'static str {
        match self {
            Self::Hello => "#\n",
            Self::Search | Self::Open => "n: COMMIT\n",
            Self::Commit => "n: FLY\n",
            Self::Policy => "n: BYE\nn: HELLO chief\n",
            Self::Roll => "n: BYE\nn: HELLO chief\nn: ROLL\nn: SEARCH POINT (900 0)\n",
            Self::Step => "n: COMMIT\nn: OPEN POLYGON ((0 -1, 500 -1, 500 1, 0 1, 0 -1))\n",
            Self::Finish => {
                "n: COMMIT\nn: OPEN POLYGON ((0 -1, 500 -1, 500 1, 0 1, 0 -1))\nn: STEP 3\n"
            }
        }
    }

    fn line(self) -> &'static str {
        match self {
            Self::Hello => "n: HELLO north\n",
            Self::Search => SEARCH,
            Self::Commit => "n: COMMIT\n",
            Self::Policy => NOTHING,
            Self::Roll => "n: ROLL\n",
            Self::Open => "n: OPEN POLYGON ((0 -1, 500 -1, 500 1, 0 1, 0 -1))\n",
            Self::Step => "n: STEP 3\n",
            Self::Finish => "n: FINISH\n",
        }
    }

    /// The replies to the line if no allocation is refused.
    fn reply(self) -> &'static str {
        match self {
            Self::Hello => "n: hello north\n",
            Self::Search | Self::Finish => SEVENTEEN_ROWS,
            Self::Commit => "n: applied 2\n",
            Self::Policy => "n: edition 2\n",
            Self::Roll => ROLLED,
            Self::Open => "n: opened\n",
            Self::Step => "n: ready\n",
        }
    }

    /// What is read before the line is sent again: after a refused COMMIT, a search that finds
    /// nothing of its list.
    fn between(self) -> &'static str {
        match self {
            Self::Commit => SEARCH,
            _ => "#\n",
        }
    }

    /// The replies to `between`.
    fn found(self) -> &'static str {
        match self {
            Self::Commit => SIXTEEN_ROWS,
            _ => "",
        }
    }
}

const SEARCH: &str = "n: SEARCH POLYGON ((0 -1, 500 -1, 500 1, 0 1, 0 -1))\n";

/// A document that permits nothing.
const NOTHING: &str =
    "n: POLICY {\"root\":{\"combine\":\"first-applicable\",\"policy\":\"p\",\"rules\":[]}}\n";

/// The roll of a trail with one record.
const ROLLED: &str =
    "n: rolled 1\nn: {\"ids\":[],\"kind\":\"answered\",\"number\":2,\"seat\":2,\"subject\":\"chief\",\"window\":\"POINT (900 0)\"}\n";

/// Reads one part of a script at a time. The allocation number `refused`, counted from the
/// beginning of the line, is refused, and none later. The parts after the line are read only if
/// that allocation was reached.
#[derive(Drop)]
struct PartReader<'a> {
    kind: LineKind,
    next: usize,
    memory: &'a Refusing<Global>,
    refused: u64,
    /// Whether that allocation was reached.
    reached: bool,
}

impl Read for PartReader<'_> {
    fn read(&mut self, buf: &mut [u8]) -> io::Result<usize> {
        let part = match self.next {
            0 => self.kind.first(),
            1 => self.kind.before(),
            2 => {
                self.memory.refuse(self.refused);
                self.kind.line()
            }
            3 => {
                self.reached = self.memory.has_refused();
                self.memory.refuse(0);
                if !self.reached {
                    return Ok(0);
                }
                self.kind.between()
            }
            4 => self.kind.line(),
            _ => return Ok(0),
        };
        self.next = self.next.saturating_add(1);
        let part = part.as_bytes();
        let count = part.len().min(buf.len());
        buf[..count].copy_from_slice(&part[..count]);
        Ok(count)
    }
}

/// Refuses one allocation of this line in a new world, checks the replies, and returns whether the
/// allocation was reached.
fn refuse(rt: &impl Abort, heap: Global, at: u64, kind: LineKind) -> Result<bool, AllocError> {
    let memory = Refusing::new(heap, 0);
    let mut world = opened_at(rt, &memory, heap, Starts::FIRST, LIMITS);
    let mut output = Vec::new(heap);
    let mut reader = PartReader {
        kind,
        next: 0,
        memory: &memory,
        refused: at,
        reached: false,
    };
    let end = run_script(&memory, heap, &mut world, &mut reader, &mut output);
    assert!(rt; end.is_ok());
    let refused = if reader.reached { "n: memory\n" } else { "" };
    let found = if reader.reached { kind.found() } else { "" };
    let expected = format!(in heap; "{refused}{found}{}", kind.reply())?;
    assert!(rt;
        output.ends_with(expected.as_bytes()),
        "at {at}: {expected}"
    );
    Ok(reader.reached)
}

/// Each allocation of this line in turn is refused, up to the first that is not reached. The line
/// is answered `memory`, and what follows is answered as usual.
fn refuse_each(rt: &impl Abort, heap: Global, kind: LineKind) -> Result<(), AllocError> {
    for at in 1..60 {
        if !refuse(rt, heap, at, kind)? {
            assert!(rt; at > 1, "nothing was refused");
            return Ok(());
        }
    }
    assert!(rt; false, "each allocation was refused");
    Ok(())
}

#[test]
fn each_allocation_of_a_commit_refused(rt: HostRuntime) -> Result<(), Fail> {
    refuse_each(&rt, rt.alloc(), LineKind::Commit)?;
    Ok(())
}

#[test]
fn each_allocation_of_a_search_refused(rt: HostRuntime) -> Result<(), Fail> {
    refuse_each(&rt, rt.alloc(), LineKind::Search)?;
    refuse_each(&rt, rt.alloc(), LineKind::Open)?;
    refuse_each(&rt, rt.alloc(), LineKind::Step)?;
    refuse_each(&rt, rt.alloc(), LineKind::Finish)?;
    Ok(())
}

#[test]
fn each_allocation_of_a_steward_refused(rt: HostRuntime) -> Result<(), Fail> {
    refuse_each(&rt, rt.alloc(), LineKind::Hello)?;
    refuse_each(&rt, rt.alloc(), LineKind::Policy)?;
    refuse_each(&rt, rt.alloc(), LineKind::Roll)?;
    Ok(())
}
