//! What worked documents decide, by which rule, and how decisions are combined.
use crate::lines::{is_first, parted, point};
use combining::{Decision, Question, Verdict, combine, evaluate, settled};
use features::{Action, Name, Subject};
use plane::Shape;
use policy_text::{Algorithm, Document, read_document};
use std::alloc::{AllocError, Global};
use std::fmt::Display;
use std::process::Abort;
use std::test::Fail;

// In these tables each document is followed by its questions, up to an empty line. A question has
// an action, the role of a subject of the office north, and the owner, the class and the point of a
// feature. Its answer has the number and the name of the deciding rule, if there is one.
const WORKED: &str =
    r#"{"root":{"combine":"deny-overrides","of":[{"combine":"permit-overrides","policy":"soft","rules":[{"effect":"deny","rule":"early"},{"effect":"permit","rule":"grant"}]},{"combine":"deny-overrides","policy":"hard","rules":[{"effect":"deny","rule":"late"}]}],"set":"top"}}
read editor north parcel 2 2 => Deny 3 late
read editor south road 2 2 => Deny 3 late

{"root":{"combine":"deny-overrides","policy":"p","rules":[{"effect":"deny","rule":"no-parcel","target":[[[{"class":"parcel"}]]]},{"effect":"permit","rule":"open"}]}}
read editor north parcel 2 2 => Deny 1 no-parcel
read editor north road 2 2 => Permit 2 open

{"root":{"combine":"first-applicable","policy":"p","rules":[{"effect":"permit","rule":"roads","target":[[[{"class":"road"}]]]}]}}
read editor north parcel 2 2 => NotApplicable
read editor north road 2 2 => Permit 1 roads

{"root":{"combine":"first-applicable","of":[{"combine":"deny-unless-permit","policy":"a","rules":[{"effect":"permit","rule":"mine","when":[{"own":true}]}]},{"combine":"deny-overrides","policy":"b","rules":[{"effect":"deny","rule":"late"}]}],"set":"top"}}
read editor south road 2 2 => Deny
read editor north road 2 2 => Permit 1 mine

{"root":{"combine":"deny-overrides","of":[{"combine":"deny-unless-permit","policy":"a","rules":[{"effect":"permit","rule":"mine","when":[{"own":true}]}]},{"combine":"deny-overrides","policy":"b","rules":[{"effect":"deny","rule":"late"}]}],"set":"top"}}
read editor south road 2 2 => Deny 2 late
read editor north road 2 2 => Deny 2 late

{"root":{"combine":"permit-unless-deny","policy":"w","rules":[]}}
read editor south road 2 2 => Permit
read editor north road 2 2 => Permit

{"root":{"combine":"deny-unless-permit","policy":"w","rules":[]}}
read editor south road 2 2 => Deny
read editor north road 2 2 => Deny
"#;

/// Sets with a target, which holds for a road and fails for a parcel.
const TARGETS: &str =
    r#"{"root":{"set":"top","combine":"deny-overrides","of":[{"set":"roads","combine":"deny-overrides","target":[[[{"class":"road"}]]],"of":[{"policy":"a","combine":"deny-overrides","rules":[{"rule":"go","effect":"permit"},{"rule":"stop","effect":"deny"}]},{"policy":"b","combine":"permit-unless-deny","rules":[{"rule":"drive","effect":"permit"}]}]},{"policy":"others","combine":"deny-overrides","rules":[{"rule":"walk","effect":"permit"}]}]}}
read editor north road 2 2 => Deny 2 stop
read editor north parcel 2 2 => Permit 4 walk

{"root":{"set":"top","combine":"first-applicable","of":[{"set":"roads","combine":"deny-unless-permit","target":[[[{"class":"road"}]]],"of":[]},{"policy":"others","combine":"deny-overrides","rules":[{"rule":"walk","effect":"permit"}]}]}}
read editor north road 2 2 => Deny
read editor north parcel 2 2 => Permit 1 walk

{"root":{"set":"top","combine":"permit-unless-deny","target":[[[{"class":"road"}]]],"of":[{"policy":"p","combine":"deny-overrides","rules":[{"rule":"go","effect":"permit"}]}]}}
read editor north road 2 2 => Permit 1 go
read editor north parcel 2 2 => NotApplicable
"#;

/// `examples/policies/harbour.json`: the harbour is the rectangle from (0, 0) to (40, 30).
const HARBOUR: &str =
    r#"{"root":{"combine":"deny-overrides","of":[{"combine":"deny-overrides","policy":"harbour","rules":[{"effect":"deny","rule":"harbour-is-closed","target":[[[{"action":"add"}],[{"action":"reshape"}],[{"action":"delete"}]]],"when":[{"not":{"role":"harbour-master"}}]}],"target":[[[{"zone":"harbour"}]]]},{"combine":"first-applicable","policy":"offices","rules":[{"effect":"permit","rule":"own-features","when":[{"own":true}]},{"effect":"permit","rule":"all-may-read","target":[[[{"action":"read"}]]]}]}],"set":"agency"},"zones":[{"shape":"POLYGON ((0 0, 40 0, 40 30, 0 30, 0 0))","zone":"harbour"}]}
add editor north road 40 7 => Deny 1 harbour-is-closed
delete editor north road 7 7 => Deny 1 harbour-is-closed
reshape harbour-master north road 7 7 => Permit 2 own-features
reshape harbour-master south road 7 7 => NotApplicable
read editor south road 7 7 => Permit 3 all-may-read
read editor north road 7 7 => Permit 2 own-features
add editor north road 41 7 => Permit 2 own-features
add editor south road 41 7 => NotApplicable
"#;

/// Each action, asked of a rule for each action.
const ACTIONS: &str =
    r#"{"root":{"combine":"deny-overrides","policy":"p","rules":[{"effect":"permit","rule":"r","target":[[[{"action":"read"}]]]}]}}
read editor north road 2 2 => Permit 1 r
add editor north road 2 2 => NotApplicable
reshape editor north road 2 2 => NotApplicable
delete editor north road 2 2 => NotApplicable

{"root":{"combine":"deny-overrides","policy":"p","rules":[{"effect":"permit","rule":"r","target":[[[{"action":"add"}]]]}]}}
read editor north road 2 2 => NotApplicable
add editor north road 2 2 => Permit 1 r
reshape editor north road 2 2 => NotApplicable
delete editor north road 2 2 => NotApplicable

{"root":{"combine":"deny-overrides","policy":"p","rules":[{"effect":"permit","rule":"r","target":[[[{"action":"reshape"}]]]}]}}
read editor north road 2 2 => NotApplicable
add editor north road 2 2 => NotApplicable
reshape editor north road 2 2 => Permit 1 r
delete editor north road 2 2 => NotApplicable

{"root":{"combine":"deny-overrides","policy":"p","rules":[{"effect":"permit","rule":"r","target":[[[{"action":"delete"}]]]}]}}
read editor north road 2 2 => NotApplicable
add editor north road 2 2 => NotApplicable
reshape editor north road 2 2 => NotApplicable
delete editor north road 2 2 => Permit 1 r
"#;

/// Points inside a zone, on its edge, at its corners, and one unit outside.
const ZONES: &str =
    r#"{"root":{"combine":"deny-overrides","policy":"p","rules":[{"effect":"permit","rule":"r","target":[[[{"zone":"square"}]]]}]},"zones":[{"shape":"POLYGON ((0 0, 4 0, 4 4, 0 4, 0 0))","zone":"square"}]}
read editor north road 2 2 => Permit 1 r
read editor north road 4 2 => Permit 1 r
read editor north road 4 4 => Permit 1 r
read editor north road 0 0 => Permit 1 r
read editor north road 5 2 => NotApplicable
read editor north road 2 -1 => NotApplicable
read editor north road 5 5 => NotApplicable
"#;

/// Matches, and whether each holds for the question of `check_rule`.
const MATCHES: &str = r#"{"role":"editor"} => holds
{"role":"north"} => fails
{"office":"north"} => holds
{"office":"south"} => fails
{"class":"road"} => holds
{"class":"roads"} => fails
{"owner":"south"} => holds
{"owner":"north"} => fails
{"action":"read"} => holds
{"action":"add"} => fails
{"zone":"square"} => holds
"#;

/// Targets and conditions, and whether a rule with both applies.
const CONDITIONS: &str = r#" |  => holds
 | {"own":true} => fails
 | {"not":{"own":true}} => holds
 | {"class":"road"},{"own":true} => fails
 | {"class":"road"},{"not":{"own":true}} => holds
[[{"class":"parcel"}],[{"class":"road"}]] |  => holds
[[{"class":"parcel"}],[{"class":"mast"}]] |  => fails
[[{"class":"road"},{"role":"editor"}]] |  => holds
[[{"class":"road"},{"role":"guest"}]] |  => fails
[[{"class":"road"},{"role":"guest"}],[{"owner":"south"}]] |  => holds
[[{"class":"road"}]],[[{"role":"editor"}]] |  => holds
[[{"class":"road"}]],[[{"role":"guest"}]] |  => fails
[[{"class":"road"}]] | {"own":true} => fails
"#;

/// The same, where the subject's office owns the feature.
const OWN_CONDITIONS: &str = r#" | {"own":true} => holds
 | {"not":{"own":true}} => fails
"#;

/// Decisions, and what each algorithm combines them to, in the order of `ALGORITHMS`: the tables of
/// XACML 3.0, C.2, C.4, C.6, C.7 and C.8, without Indeterminate.
const COMBINED: &str = r#" => none none deny permit none
none => none none deny permit none
permit => permit permit permit permit permit
deny => deny deny deny deny deny
permit deny => deny permit permit deny permit
deny permit => deny permit permit deny deny
none permit => permit permit permit permit permit
deny none => deny deny deny deny deny
none none => none none deny permit none
none deny permit => deny permit permit deny deny
permit none deny => deny permit permit deny permit
"#;

const ALGORITHMS: [Algorithm; 5] = [
    Algorithm::DenyOverrides,
    Algorithm::PermitOverrides,
    Algorithm::DenyUnlessPermit,
    Algorithm::PermitUnlessDeny,
    Algorithm::FirstApplicable,
];

fn name(rt: &impl Abort, text: &str) -> Name {
    let name = Name::new(text.as_bytes());
    assert!(rt; name.is_some(), "{text}");
    name.unwrap()
}

fn action(rt: &impl Abort, word: &str) -> Action {
    match word {
        "read" => Action::Read,
        "add" => Action::Add,
        "reshape" => Action::Reshape,
        "delete" => Action::Delete,
        _ => panic!(rt; "no action: {word}"),
    }
}

/// The shape of a point.
fn shape(rt: &impl Abort, text: &str) -> Shape {
    let shape = Shape::point(point(rt, text));
    assert!(rt; shape.is_ok(), "{text}");
    shape.unwrap()
}

/// The question of a text such as `read editor south road 2 2`: action, role, owner, class and
/// point.
fn question(rt: &impl Abort, text: &str) -> Question {
    let (asked, rest) = parted(rt, text, " ");
    let (role, rest) = parted(rt, rest, " ");
    let (owner, rest) = parted(rt, rest, " ");
    let (class, place) = parted(rt, rest, " ");
    Question {
        subject: Subject {
            name: name(rt, "ann"),
            office: name(rt, "north"),
            role: name(rt, role),
            steward: false,
        },
        action: action(rt, asked),
        owner: name(rt, owner),
        class: name(rt, class),
        shape: shape(rt, place),
    }
}

fn document(rt: &impl Abort, heap: Global, text: &str) -> Document<Global> {
    match read_document(heap, heap, text.as_bytes()) {
        Ok(document) => document,
        Err(_) => panic!(rt; "not read: {text}"),
    }
}

/// A verdict in words: its decision, and the number and the name of its rule.
fn shown(
    heap: Global,
    document: &Document<Global>,
    verdict: Verdict,
) -> Result<String, AllocError> {
    let decision = verdict.decision;
    let Some(number) = verdict.rule else {
        return format!(in heap; "{decision:?}");
    };
    match document.rule_name(number) {
        Some(name) => format!(in heap; "{decision:?} {number} {name}"),
        None => format!(in heap; "{decision:?} {number}"),
    }
}

/// Checks the document's verdict on the question of each line.
fn check_answers(
    rt: &impl Abort,
    heap: Global,
    document: &Document<Global>,
    lines: &str,
) -> Result<(), AllocError> {
    for line in lines.lines() {
        let (asked, told) = parted(rt, line, " => ");
        let verdict = evaluate(document, &question(rt, asked));
        assert_eq!(rt; shown(heap, document, verdict)?.as_str(), told, "{line}");
    }
    Ok(())
}

/// Checks each document of a table against the lines that follow it.
fn check_documents(rt: &impl Abort, heap: Global, table: &str) -> Result<(), AllocError> {
    for part in table.split("\n\n") {
        let (text, lines) = parted(rt, part, "\n");
        check_answers(rt, heap, &document(rt, heap, text), lines)?;
    }
    Ok(())
}

#[test]
fn documents_decide(rt: HostRuntime) -> Result<(), Fail> {
    for table in [WORKED, TARGETS, HARBOUR, ACTIONS, ZONES] {
        check_documents(&rt, rt.alloc(), table)?;
    }
    Ok(())
}

#[test]
fn settling_decisions(rt: HostRuntime) -> Result<(), Fail> {
    for (algorithm, permit, deny) in [
        (Algorithm::DenyOverrides, false, true),
        (Algorithm::PermitOverrides, true, false),
        (Algorithm::DenyUnlessPermit, true, false),
        (Algorithm::PermitUnlessDeny, false, true),
        (Algorithm::FirstApplicable, true, true),
    ] {
        assert_eq!(rt; settled(algorithm, Decision::Permit), permit);
        assert_eq!(rt; settled(algorithm, Decision::Deny), deny);
        assert!(rt; !settled(algorithm, Decision::NotApplicable));
    }
    Ok(())
}

/// The text of a document with one rule, which has this target and these conditions, and with one
/// zone, the square from (0, 0) to (4, 4).
fn one_rule(
    heap: Global,
    target: impl Display + Drop,
    when: impl Display + Drop,
) -> Result<String, AllocError> {
    format!(in heap;
        "{}{target}{}{when}{}",
        r#"{"root":{"combine":"deny-overrides","policy":"p","rules":[{"effect":"permit","rule":"r","target":["#,
        r#"],"when":["#,
        r#"]}]},"zones":[{"shape":"POLYGON ((0 0, 4 0, 4 4, 0 4, 0 0))","zone":"square"}]}"#
    )
}

/// Checks whether the one rule of a document applies, and then permits.
fn check_rule(rt: &impl Abort, heap: Global, text: &str, owner: &str, applies: bool) {
    let mut asked = question(rt, "read editor south road 2 2");
    asked.owner = name(rt, owner);
    let verdict = evaluate(&document(rt, heap, text), &asked);
    let expected = if applies {
        (Decision::Permit, Some(1))
    } else {
        (Decision::NotApplicable, None)
    };
    assert_eq!(rt; (verdict.decision, verdict.rule), expected, "{text}");
}

/// Checks a match as a target, as a condition, and as a negated condition, which is the opposite.
fn check_match(rt: &impl Abort, heap: Global, line: &str) -> Result<(), AllocError> {
    let (test, told) = parted(rt, line, " => ");
    let holds = is_first(rt, told, "holds", "fails");
    let text = one_rule(heap, format_args!("[[{test}]]"), "")?;
    check_rule(rt, heap, text.as_str(), "south", holds);
    let text = one_rule(heap, "", test)?;
    check_rule(rt, heap, text.as_str(), "south", holds);
    let text = one_rule(heap, "", format_args!("{{\"not\":{test}}}"))?;
    check_rule(rt, heap, text.as_str(), "south", !holds);
    Ok(())
}

/// Checks whether a rule with the line's target and conditions applies to a feature of this owner.
fn check_condition(
    rt: &impl Abort,
    heap: Global,
    owner: &str,
    line: &str,
) -> Result<(), AllocError> {
    let (given, told) = parted(rt, line, " => ");
    let (target, when) = parted(rt, given, " | ");
    let holds = is_first(rt, told, "holds", "fails");
    let text = one_rule(heap, target, when)?;
    check_rule(rt, heap, text.as_str(), owner, holds);
    Ok(())
}

#[test]
fn matches_and_conditions(rt: HostRuntime) -> Result<(), Fail> {
    let heap = rt.alloc();
    for line in MATCHES.lines() {
        check_match(&rt, heap, line)?;
    }
    for line in CONDITIONS.lines() {
        check_condition(&rt, heap, "south", line)?;
    }
    for line in OWN_CONDITIONS.lines() {
        check_condition(&rt, heap, "north", line)?;
    }
    Ok(())
}

fn decision(rt: &impl Abort, word: &str) -> Decision {
    match word {
        "permit" => Decision::Permit,
        "deny" => Decision::Deny,
        "none" => Decision::NotApplicable,
        _ => panic!(rt; "no decision: {word}"),
    }
}

/// Checks what each algorithm combines the decisions of a line to.
fn check_combined(rt: &impl Abort, line: &str) {
    let (given, told) = parted(rt, line, " => ");
    let mut decisions = [Decision::NotApplicable; 3];
    for (place, word) in decisions.iter_mut().zip(given.split_whitespace()) {
        *place = decision(rt, word);
    }
    let decisions = decisions.get(..given.split_whitespace().count());
    assert!(rt;
        decisions.is_some() && told.split_whitespace().count() == ALGORITHMS.len(),
        "{line}"
    );
    let decisions = decisions.unwrap();
    for (algorithm, word) in ALGORITHMS.iter().zip(told.split_whitespace()) {
        let combined = combine(*algorithm, decisions);
        assert_eq!(rt; combined, decision(rt, word), "{algorithm:?} {line}");
    }
}

#[test]
fn combined_decisions(rt: HostRuntime) -> Result<(), Fail> {
    for line in COMBINED.lines() {
        check_combined(&rt, line);
    }
    Ok(())
}
