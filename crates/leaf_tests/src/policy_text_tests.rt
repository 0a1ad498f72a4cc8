//! Texts of documents: what reading and printing them gives.
use crate::lines::parted;
use features::Name;
use policy_text::{Document, Node, TextFault, print_document, read_document};
use refusing::Refusing;
use std::alloc::{AllocError, Global};
use std::fmt::{self, Display, Formatter, Write};
use std::process::Abort;
use std::test::Fail;
use wkt::shape_text;

/// A set of two policies, with three rules in all.
const TWO_POLICIES: &str =
    r#"{"root":{"combine":"deny-overrides","of":[{"combine":"permit-overrides","policy":"soft","rules":[{"effect":"deny","rule":"early"},{"effect":"permit","rule":"grant"}]},{"combine":"deny-overrides","policy":"hard","rules":[{"effect":"deny","rule":"late"}]}],"set":"top"}}"#;

const NO_PARCEL: &str =
    r#"{"root":{"combine":"deny-overrides","policy":"p","rules":[{"effect":"deny","rule":"no-parcel","target":[[[{"class":"parcel"}]]]},{"effect":"permit","rule":"open"}]}}"#;

const ROADS: &str =
    r#"{"root":{"combine":"first-applicable","policy":"p","rules":[{"effect":"permit","rule":"roads","target":[[[{"class":"road"}]]]}]}}"#;

/// Each kind of part that a document may have, with keys out of order and other spellings of the
/// shapes.
const EACH_KIND: &str = r#"
    {"zones": [{"zone": "harbour", "shape": " polygon ((4 0, 4 4, 0 4, 0 0, 2 0, 4 0)) "},
               {"shape": "point(+1 02.0)", "zone": "post"},
               {"zone": "road", "shape": "LINESTRING(3 1,0 0)"}],
     "root": {"set": "top", "combine": "permit-overrides", "target": [], "of": [
         {"policy": "empty", "combine": "deny-unless-permit", "rules": []},
         {"set": "inner", "of": [], "combine": "permit-unless-deny", "target":
             [[[{"zone": "harbour"}]], [[{"role": "editor"}, {"office": "north"}], [{"action": "add"}]]]},
         {"policy": "rest", "combine": "first-applicable", "target": [[[{"owner": "south"}]]], "rules": [
             {"rule": "one", "effect": "permit", "when":
                 [{"class": "mast"}, {"not": {"zone": "post"}}, {"own": true}, {"not": {"own": true}},
                  {"not": {"action": "delete"}}],
              "target": [[[{"action": "read"}], [{"action": "reshape"}]]]},
             {"rule": "two", "effect": "deny", "when": [], "target": []}]}]}}
"#;

const EACH_KIND_PRINTED: &str =
    r#"{"root":{"combine":"permit-overrides","of":[{"combine":"deny-unless-permit","policy":"empty","rules":[]},{"combine":"permit-unless-deny","of":[],"set":"inner","target":[[[{"zone":"harbour"}]],[[{"role":"editor"},{"office":"north"}],[{"action":"add"}]]]},{"combine":"first-applicable","policy":"rest","rules":[{"effect":"permit","rule":"one","target":[[[{"action":"read"}],[{"action":"reshape"}]]],"when":[{"class":"mast"},{"not":{"zone":"post"}},{"own":true},{"not":{"own":true}},{"not":{"action":"delete"}}]},{"effect":"deny","rule":"two"}],"target":[[[{"owner":"south"}]]]}],"set":"top"},"zones":[{"shape":"POLYGON ((0 0, 4 0, 4 4, 0 4, 0 0))","zone":"harbour"},{"shape":"POINT (1 2)","zone":"post"},{"shape":"LINESTRING (0 0, 3 1)","zone":"road"}]}"#;

// Each pair is the text before and after a part: a node, the rules of a policy, a match of its
// target, an atom of its rule, and the zones.
const NODE: (&str, &str) = (r#"{"root":"#, "}");

const RULES: (&str, &str) = (
    r#"{"root":{"combine":"deny-overrides","policy":"p","rules":["#,
    "]}}",
);

const MATCHES: (&str, &str) = (
    r#"{"root":{"combine":"deny-overrides","policy":"p","rules":[],"target":[[["#,
    "]]]}}",
);

const ATOMS: (&str, &str) = (
    r#"{"root":{"combine":"deny-overrides","policy":"p","rules":[{"effect":"deny","rule":"r","when":["#,
    "]}]}}",
);

const ZONES: (&str, &str) = (
    r#"{"root":{"combine":"deny-overrides","policy":"p","rules":[]},"zones":["#,
    "]}",
);

// The same for the target of a policy, and for the children of the set `s`.
const TARGET: (&str, &str) = (
    r#"{"root":{"combine":"deny-overrides","policy":"p","rules":[],"target":"#,
    "}}",
);

const CHILDREN: (&str, &str) = (
    r#"{"root":{"combine":"deny-overrides","set":"s","of":["#,
    "]}}",
);

// Tables of texts: each line has the result of reading its text, a colon, a space, and the text.
const TEXTS: &str = r#"D1: {
D1: {"root":01}
D2 at : 1
D2 at : []
D2 at : null
D2 at /root: {}
D2 at /root: {"root":1}
D3 at : {"x":1}
D1: {"root":{"combine":"first-applicable","policy":"p","rules":[]}} x
D1: {"root":{"combine":"first-applicable","policy":"p","rules":[]}}x
read: {"root":{"combine":"first-applicable","policy":"p","rules":[]}}
D2 at /root: {"root":1,"zones":[]}
D3 at : {"x":1,"zones":1}
D2 at /zones: {"zones":null}
D2 at /root: {"zones":[1]}
D2 at /zones: {"root":1,"zones":{}}
D2 at /zones/0: {"root":1,"zones":[1]}
D6 at /zones/0/shape z Syntax(8): {"root":1,"zones":[{"shape":"POINT (1)","zone":"z"},1]}"#;

const NODE_TEXTS: &str = r#"D2 at /root: []
D2 at /root: null
D3 at /root: {"combine":"first-applicable","policy":"p","rules":[],"x":1}
D3 at /root: {"combine":"first-applicable","of":[],"policy":"p","rules":[]}
D2 at /root/rules: {"combine":"first-applicable","policy":"p"}
D2 at /root/rules: {"combine":"first-applicable","policy":"p","rules":null}
D2 at /root/policy: {"combine":"first-applicable","rules":[]}
D2 at /root/policy: {"combine":"first-applicable","policy":null,"rules":[]}
D2 at /root/policy: {"combine":"first-applicable","policy":"","rules":[]}
D2 at /root/policy: {"combine":"first-applicable","policy":"P","rules":[]}
D2 at /root/policy: {"combine":"first-applicable","policy":"abcdefghijklmnopqrstuvwxyz-012345","rules":[]}
read: {"combine":"first-applicable","policy":"abcdefghijklmnopqrstuvwxyz-01234","rules":[]}
D2 at /root/combine: {"policy":"p","rules":[]}
D2 at /root/combine: {"combine":"only-one-applicable","policy":"p","rules":[]}
D2 at /root/combine: {"combine":1,"of":[],"set":"s"}
D2 at /root/of: {"combine":"deny-overrides","set":"s"}
D2 at /root/of: {"combine":"deny-overrides","of":{},"set":"s"}
D2 at /root/of/0: {"combine":"deny-overrides","of":[1],"set":"s"}
D4 at /root/of/0/policy s: {"combine":"deny-overrides","of":[{"combine":"deny-overrides","policy":"s","rules":[]}],"set":"s"}
D3 at /root: {"policy":1,"x":1}
D2 at /root/policy: {"combine":1,"policy":1,"rules":1,"target":1}
D2 at /root/combine: {"combine":1,"policy":"p","rules":1,"target":1}
D2 at /root/target: {"combine":"deny-overrides","policy":"p","rules":1,"target":1}
D2 at /root/rules: {"combine":"deny-overrides","policy":"p","rules":1,"target":[1]}
D2 at /root/target/0: {"combine":"deny-overrides","policy":"p","rules":[1],"target":[1]}
D2 at /root/set: {"combine":1,"of":1,"set":1,"target":1}
D2 at /root/combine: {"combine":1,"of":1,"set":"s","target":1}
D2 at /root/target/0: {"combine":"deny-overrides","of":[1],"set":"s","target":[1]}"#;

/// The form of an object is checked before its name, and its name before its contents.
const CHILD_TEXTS: &str = r#"D2 at /root/of/0/rules: {"combine":"deny-overrides","policy":"s"}
D4 at /root/of/0/policy s: {"combine":"deny-overrides","policy":"s","rules":[1],"target":[1]}
D2 at /root/of/0/rules/0: {"combine":"deny-overrides","policy":"p","rules":[1]},1
D2 at /root/of/1: {"combine":"deny-overrides","policy":"p","rules":[]},1
D4 at /root/of/1/set p: {"combine":"deny-overrides","policy":"p","rules":[]},{"combine":"deny-overrides","of":[],"set":"p"}
D3 at /root/of/1: {"combine":"deny-overrides","policy":"p","rules":[]},{"combine":"deny-overrides","of":[],"set":"p","x":1}"#;

const TARGET_TEXTS: &str = r#"D2 at /root/target: null
D2 at /root/target: {}
read: []
D2 at /root/target/0: [1]
D2 at /root/target/0: [[]]
D2 at /root/target/0/0: [[null]]
D2 at /root/target/0/0: [[[]]]
D2 at /root/target/0/1: [[[{"class":"a"}],[]]]
D2 at /root/target/1: [[[{"class":"a"}]],{}]"#;

const RULE_TEXTS: &str = r#"D2 at /root/rules/0: 1
D2 at /root/rules/0/rule: {}
D2 at /root/rules/0/rule: {"effect":"deny"}
D2 at /root/rules/0/rule: {"effect":"deny","rule":"a b"}
D2 at /root/rules/0/effect: {"rule":"r"}
D2 at /root/rules/0/effect: {"effect":"Deny","rule":"r"}
D2 at /root/rules/0/target: {"effect":"deny","rule":"r","target":null}
D2 at /root/rules/0/when: {"effect":"deny","rule":"r","when":null}
D3 at /root/rules/0: {"effect":"deny","rule":"r","of":1}
D4 at /root/rules/0/rule p: {"effect":"deny","rule":"p"}
D4 at /root/rules/1/rule r: {"effect":"deny","rule":"r"},{"effect":"permit","rule":"r"}
D3 at /root/rules/0: {"effect":1,"rule":1,"target":1,"when":1,"x":1}
D2 at /root/rules/0/rule: {"effect":1,"rule":1,"target":1,"when":1}
D2 at /root/rules/0/effect: {"effect":1,"rule":"p","target":1,"when":1}
D2 at /root/rules/0/target: {"effect":"deny","rule":"p","target":1,"when":1}
D2 at /root/rules/0/when: {"effect":"deny","rule":"p","target":[1],"when":1}
D4 at /root/rules/0/rule p: {"effect":"deny","rule":"p","target":[1],"when":[1]}
D2 at /root/rules/0/target/0: {"effect":"deny","rule":"r","target":[1],"when":[1]},1
D2 at /root/rules/0/when/0: {"effect":"deny","rule":"r","when":[1]},1"#;

const MATCH_TEXTS: &str = r#"D2 at /root/target/0/0/0: 1
D2 at /root/target/0/0/0: {}
D2 at /root/target/0/0/0: {"class":"a","role":"b"}
D3 at /root/target/0/0/0: {"class":"a","x":1}
D3 at /root/target/0/0/0: {"own":true}
D3 at /root/target/0/0/0: {"not":{"class":"a"}}
D2 at /root/target/0/0/0/role: {"role":null}
D2 at /root/target/0/0/0/office: {"office":""}
D2 at /root/target/0/0/1/class: {"class":"a"},{"class":"A"}
D2 at /root/target/0/0/0/owner: {"owner":1}
D2 at /root/target/0/0/0/action: {"action":"paint"}
D2 at /root/target/0/0/0/action: {"action":null}
D2 at /root/target/0/0/0/zone: {"zone":"Z"}
D5 at /root/target/0/0/0/zone z: {"zone":"z"}"#;

const ATOM_TEXTS: &str = r#"D2 at /root/rules/0/when/0: null
D2 at /root/rules/0/when/0: {"own":true,"class":"a"}
D2 at /root/rules/0/when/0: {"not":{"own":true},"own":true}
D3 at /root/rules/0/when/1: {"own":true},{"x":true}
D2 at /root/rules/0/when/0/own: {"own":false}
D2 at /root/rules/0/when/0/own: {"own":null}
D2 at /root/rules/0/when/0/not: {"not":true}
D2 at /root/rules/0/when/0/not: {"not":{}}
D2 at /root/rules/0/when/0/not: {"not":{"class":"a","role":"b"}}
D3 at /root/rules/0/when/0/not: {"not":{"not":{"own":true}}}
D2 at /root/rules/0/when/0/not/own: {"not":{"own":false}}
D2 at /root/rules/0/when/0/not/class: {"not":{"class":1}}
D5 at /root/rules/0/when/0/zone z: {"zone":"z"}
D5 at /root/rules/0/when/0/not/zone quay: {"not":{"zone":"quay"}}"#;

const ZONE_TEXTS: &str = r#"D2 at /zones/0: null
D2 at /zones/0/zone: {"shape":"POINT (1 2)"}
D2 at /zones/0/shape: {"zone":"z"}
D2 at /zones/0/shape: {"shape":null,"zone":"z"}
D3 at /zones/0: {"name":"z","zone":"z"}
D6 at /zones/0/shape z Syntax(8): {"shape":"POINT (1)","zone":"z"}
D6 at /zones/0/shape z Bad(SameEnds): {"shape":"LINESTRING (1 1, 1 1)","zone":"z"}
D4 at /zones/1/zone z: {"shape":"POINT (1 2)","zone":"z"},{"shape":"POINT (3 4)","zone":"z"}
D3 at /zones/0: {"shape":1,"zone":1,"x":1}
D2 at /zones/0/zone: {"shape":1,"zone":1}
D6 at /zones/1/shape z Syntax(5): {"shape":"POINT (1 2)","zone":"z"},{"shape":"POINT","zone":"z"}
D2 at /zones/1: {"shape":"POINT (1 2)","zone":"z"},[]"#;

/// Of equal keys the last one counts. An object with the key `set` is a set, whatever its value. An
/// escape is the same text as its character (RFC 8259, section 7), and an unpaired surrogate is no
/// text. A number has to be in the range of a double.
const JSON_TEXTS: &str =
    r#"read: {"root":1,"root":{"combine":"deny-overrides","policy":"p","rules":[]}}
D2 at /root: {"root":{"combine":"deny-overrides","policy":"p","rules":[]},"root":1}
read: {"root":{"combine":"deny-overrides","of":[],"set":1,"set":"s"}}
D2 at /root/set: {"root":{"combine":"deny-overrides","of":[],"set":"s","set":1}}
D2 at /root/set: {"root":{"combine":"deny-overrides","of":[],"set":null}}
D3 at /root: {"root":{"combine":"deny-overrides","policy":"p","rules":[],"set":null}}
read: {"\u0072oot":{"combine":"deny-overrides","policy":"\u0070","rules":[]}}
D1: {"root":"\ud800"}
D1: {"root":"\udc00"}
D2 at /root: {"root":"\ud83d\ude00"}
D1: {"root":1e400}
D1: {"root":-1e400}
D2 at /root: {"root":1e300}
D1: {"root":1,}
D1: {'root':1}"#;

/// A fault in words: its code, its path if it has one, then its name, or its name and the fault of
/// the zone's shape.
fn told(heap: Global, fault: TextFault) -> Result<String, AllocError> {
    let Some(path) = fault.path() else {
        return format!(in heap; "{fault}");
    };
    match fault {
        TextFault::NameTwice(_, name) => format!(in heap; "{fault} at {path} {name}"),
        TextFault::NoZone(_, name) => format!(in heap; "{fault} at {path} {name}"),
        TextFault::BadZone(_, name, shape) => format!(in heap;
            "{fault} at {path} {name} {shape:?}"
        ),
        _ => format!(in heap; "{fault} at {path}"),
    }
}

/// The result of reading a text: `read`, or the fault in words.
fn answer(heap: Global, text: &[u8]) -> Result<String, AllocError> {
    match read_document(heap, heap, text).err() {
        None => String::from_str(heap, "read"),
        Some(fault) => told(heap, fault),
    }
}

/// Checks the result of reading a text.
fn check_answer(rt: &impl Abort, heap: Global, text: &[u8], want: &str) -> Result<(), AllocError> {
    let told = answer(heap, text)?;
    assert_eq!(rt; told.as_str(), want, "{text:?}");
    Ok(())
}

/// Checks the result of reading each text of a table, put between the two texts of `around`.
fn check_answers(
    rt: &impl Abort,
    heap: Global,
    around: (&str, &str),
    table: &str,
) -> Result<(), AllocError> {
    for line in table.lines() {
        let (want, text) = parted(rt, line, ": ");
        let whole = format!(in heap; "{}{text}{}", around.0, around.1)?;
        let told = answer(heap, whole.as_bytes())?;
        assert_eq!(rt; told.as_str(), want, "{text}");
    }
    Ok(())
}

fn read_whole(rt: &impl Abort, heap: Global, text: &str) -> Document<Global> {
    match read_document(heap, heap, text.as_bytes()) {
        Ok(document) => document,
        Err(_) => panic!(rt; "not read: {text}"),
    }
}

/// Of several faults the first is reported, in the order of the grammar and not of the text.
#[test]
fn first_faults(rt: HostRuntime) -> Result<(), Fail> {
    for (around, table) in [
        (("", ""), TEXTS),
        (NODE, NODE_TEXTS),
        (CHILDREN, CHILD_TEXTS),
        (TARGET, TARGET_TEXTS),
        (RULES, RULE_TEXTS),
        (MATCHES, MATCH_TEXTS),
        (ATOMS, ATOM_TEXTS),
        (ZONES, ZONE_TEXTS),
    ] {
        check_answers(&rt, rt.alloc(), around, table)?;
    }
    Ok(())
}

/// `count` items, each with its number between the two parts of `item`, and `mark` between them.
#[derive(Clone, Copy)]
struct Numbered {
    count: usize,
    item: (&'static str, &'static str),
    mark: &'static str,
}

impl Display for Numbered {
    fn fmt<W: Write>(&self, f: &mut Formatter<W>) -> fmt::Result {
        let (before, after) = self.item;
        for number in 0..self.count {
            if number > 0 {
                f.write_str(self.mark)?;
            }
            write!(f, "{before}{number}{after}")?;
        }
        Ok(())
    }
}

/// A text, `count` times.
#[derive(Clone, Copy)]
struct Repeated {
    count: usize,
    text: &'static str,
}

impl Display for Repeated {
    fn fmt<W: Write>(&self, f: &mut Formatter<W>) -> fmt::Result {
        for _ in 0..self.count {
            f.write_str(self.text)?;
        }
        Ok(())
    }
}

#[test]
fn what_json_is(rt: HostRuntime) -> Result<(), Fail> {
    check_answers(&rt, rt.alloc(), ("", ""), JSON_TEXTS)?;
    for (text, want) in [
        ("", "D1"),
        (" ", "D1"),
        ("{\"root\":\"\n\"}", "D1"),
        ("\u{feff}{\"root\":1}", "D1"),
        ("\u{a0}{\"root\":1}", "D1"),
        (" \t\r\n{\"root\":1}\n", "D2 at /root"),
    ] {
        check_answer(&rt, rt.alloc(), text.as_bytes(), want)?;
    }
    Ok(())
}

#[test]
fn bytes_that_are_no_text(rt: HostRuntime) -> Result<(), Fail> {
    for bytes in [
        &b"{\"root\":\"\xff\"}"[..],
        &b"{\"root\":\"\xc0\xaf\"}"[..],
        &b"{\"root\":1}\xff"[..],
        &b"\xff\xfe"[..],
    ] {
        check_answer(&rt, rt.alloc(), bytes, "D1")?;
    }
    Ok(())
}

/// `count` nested arrays, between two texts.
fn nested_arrays(heap: Global, around: (&str, &str), count: usize) -> Result<String, AllocError> {
    let (before, after) = around;
    let opened = Repeated { count, text: "[" };
    let closed = Repeated { count, text: "]" };
    format!(in heap; "{before}{opened}{closed}{after}")
}

/// JSON is read with at most 127 nested arrays and objects.
#[test]
fn depth_of_json(rt: HostRuntime) -> Result<(), Fail> {
    let heap = rt.alloc();
    for (levels, want, below_root) in [
        (126, "D2 at ", "D2 at /root"),
        (127, "D2 at ", "D1"),
        (128, "D1", "D1"),
        (200, "D1", "D1"),
    ] {
        let text = nested_arrays(heap, ("", ""), levels)?;
        check_answer(&rt, heap, text.as_bytes(), want)?;
        let text = nested_arrays(heap, NODE, levels)?;
        check_answer(&rt, heap, text.as_bytes(), below_root)?;
    }
    Ok(())
}

/// How many parts of a kind a document has, each with its number in its name; what follows them;
/// and the result of reading it. The content of a `not` is checked after the `not` is counted, and
/// before its own match is counted.
const LIMITS: &str = r#"512 rules  => read
513 rules  => D8 at /root/rules/512
512 rules ,{"effect":"deny","rule":"r7"} => D4 at /root/rules/512/rule r7
512 rules ,1 => D2 at /root/rules/512
512 rules ,{"effect":"deny","rule":"x","target":[1]} => D8 at /root/rules/512
511 policies  => read
512 policies  => D8 at /root/of/511
511 sets  => read
512 sets  => D8 at /root/of/511
511 policies ,{"combine":"deny-overrides","rules":[],"policy":"s"} => D4 at /root/of/511/policy s
64 zones  => read
65 zones  => D8 at /zones/64
64 zones ,{"shape":"POINT (1 2)","zone":"z7"} => D4 at /zones/64/zone z7
4096 matches  => read
4097 matches  => D8 at /root/target/0/0/4096
4096 matches ,{"zone":"z"} => D5 at /root/target/0/0/4096/zone z
4096 atoms  => read
4096 atoms ,{"own":true} => D8 at /root/rules/0/when/4096
4096 atoms ,{"zone":"z"} => D5 at /root/rules/0/when/4096/zone z
2048 negations  => read
2049 negations  => D8 at /root/rules/0/when/2048
4094 atoms ,{"not":{"own":true}} => read
4095 atoms ,{"not":{"own":true}} => D8 at /root/rules/0/when/4095/not
4095 atoms ,{"not":1} => D2 at /root/rules/0/when/4095/not
4096 atoms ,{"not":1} => D8 at /root/rules/0/when/4096
"#;

/// The texts around the parts of a kind, and those around the number in each part.
fn kind(
    rt: &impl Abort,
    word: &str,
) -> ((&'static str, &'static str), (&'static str, &'static str)) {
    match word {
        "rules" => (RULES, (r#"{"effect":"deny","rule":"r"#, r#""}"#)),
        "policies" => (
            CHILDREN,
            (
                r#"{"combine":"deny-overrides","rules":[],"policy":"n"#,
                r#""}"#,
            ),
        ),
        "sets" => (
            CHILDREN,
            (r#"{"combine":"deny-overrides","of":[],"set":"n"#, r#""}"#),
        ),
        "zones" => (ZONES, (r#"{"shape":"POINT (1 2)","zone":"z"#, r#""}"#)),
        "matches" => (MATCHES, (r#"{"class":"c"#, r#""}"#)),
        "atoms" => (ATOMS, (r#"{"class":"c"#, r#""}"#)),
        "negations" => (ATOMS, (r#"{"not":{"class":"c"#, r#""}}"#)),
        _ => panic!(rt; "no kind: {word}"),
    }
}

fn check_limit(rt: &impl Abort, heap: Global, line: &str) -> Result<(), AllocError> {
    let (given, want) = parted(rt, line, " => ");
    let (count, given) = parted(rt, given, " ");
    let (word, last) = parted(rt, given, " ");
    let count = count.parse::<usize>();
    assert!(rt; count.is_ok(), "{line}");
    let ((before, after), item) = kind(rt, word);
    let parts = Numbered {
        count: count.unwrap(),
        item,
        mark: ",",
    };
    let text = format!(in heap; "{before}{parts}{last}{after}")?;
    let told = answer(heap, text.as_bytes())?;
    assert_eq!(rt; told.as_str(), want, "{line}");
    Ok(())
}

#[test]
fn limits_of_documents(rt: HostRuntime) -> Result<(), Fail> {
    for line in LIMITS.lines() {
        check_limit(&rt, rt.alloc(), line)?;
    }
    Ok(())
}

/// How many sets are nested, the content of the innermost, and the result of reading the document.
const DEPTHS: &str = r#"8  => read
9  => D7 at /root/of/0/of/0/of/0/of/0/of/0/of/0/of/0/of/0
7 {"combine":"deny-overrides","policy":"p","rules":[]} => read
8 {"combine":"deny-overrides","policy":"p","rules":[]} => D7 at /root/of/0/of/0/of/0/of/0/of/0/of/0/of/0/of/0
7 1 => D2 at /root/of/0/of/0/of/0/of/0/of/0/of/0/of/0
8 1 => D7 at /root/of/0/of/0/of/0/of/0/of/0/of/0/of/0/of/0
7 {"combine":"deny-overrides","policy":"p","rules":[{"effect":"deny","rule":"r","target":[[[{"class":1}]]]}]} => D2 at /root/of/0/of/0/of/0/of/0/of/0/of/0/of/0/rules/0/target/0/0/0/class
8 {"combine":"deny-overrides","policy":"p","rules":[{"effect":"deny","rule":"r","target":[[[{"class":1}]]]}]} => D7 at /root/of/0/of/0/of/0/of/0/of/0/of/0/of/0/of/0
"#;

fn check_depth(rt: &impl Abort, heap: Global, line: &str) -> Result<(), AllocError> {
    let (given, want) = parted(rt, line, " => ");
    let (levels, innermost) = parted(rt, given, " ");
    let count = levels.parse::<usize>();
    assert!(rt; count.is_ok(), "{line}");
    let count = count.unwrap();
    let opened = Numbered {
        count,
        item: (r#"{"combine":"deny-overrides","set":"s"#, r#"","of":["#),
        mark: "",
    };
    let closed = Repeated { count, text: "]}" };
    let text = format!(in heap; "{}{opened}{innermost}{closed}{}", NODE.0, NODE.1)?;
    let told = answer(heap, text.as_bytes())?;
    assert_eq!(rt; told.as_str(), want, "{line}");
    Ok(())
}

#[test]
fn depth_of_documents(rt: HostRuntime) -> Result<(), Fail> {
    for line in DEPTHS.lines() {
        check_depth(&rt, rt.alloc(), line)?;
    }
    Ok(())
}

/// Checks the printed form of a document.
fn check_text(
    rt: &impl Abort,
    heap: Global,
    document: &Document<Global>,
    want: &str,
) -> Result<(), AllocError> {
    let printed = print_document(heap, document);
    assert!(rt; printed.is_ok(), "{want}");
    assert_eq!(rt; printed.unwrap().as_str(), want);
    Ok(())
}

/// Checks that the document read from a printed form is equal to this one and printed alike.
fn check_again(
    rt: &impl Abort,
    heap: Global,
    document: &Document<Global>,
    printed: &str,
) -> Result<(), AllocError> {
    let again = read_whole(rt, heap, printed);
    assert!(rt; again == *document, "{printed}");
    check_text(rt, heap, &again, printed)
}

/// Checks that a document's copy is equal to it and printed alike.
fn check_copy(
    rt: &impl Abort,
    heap: Global,
    document: &Document<Global>,
    printed: &str,
) -> Result<(), AllocError> {
    let copy = document.copy(heap);
    assert!(rt; copy.is_ok(), "{printed}");
    let copy = copy.unwrap();
    assert!(rt; copy == *document, "{printed}");
    check_text(rt, heap, &copy, printed)
}

/// Checks the printed form of a text's document, of the document that is read from that form, and
/// of a copy.
fn check_printed(rt: &impl Abort, heap: Global, text: &str, want: &str) -> Result<(), AllocError> {
    let document = read_whole(rt, heap, text);
    check_text(rt, heap, &document, want)?;
    check_again(rt, heap, &document, want)?;
    check_copy(rt, heap, &document, want)
}

#[test]
fn printed_forms(rt: HostRuntime) -> Result<(), Fail> {
    let heap = rt.alloc();
    for (text, printed) in [
        (TWO_POLICIES, TWO_POLICIES),
        (NO_PARCEL, NO_PARCEL),
        (ROADS, ROADS),
        (EACH_KIND, EACH_KIND_PRINTED),
        (
            r#"{"zones":[],"root":{"set":"s","target":[],"of":[{"policy":"p","rules":[{"when":[],"target":[],"rule":"r","effect":"deny"}],"combine":"deny-overrides","target":[]}],"combine":"first-applicable"}}"#,
            r#"{"root":{"combine":"first-applicable","of":[{"combine":"deny-overrides","policy":"p","rules":[{"effect":"deny","rule":"r"}]}],"set":"s"}}"#,
        ),
    ] {
        check_printed(&rt, heap, text, printed)?;
    }
    assert!(rt; read_whole(&rt, heap, NO_PARCEL) != read_whole(&rt, heap, ROADS));
    Ok(())
}

/// Checks the name and the shape of the zone at an index, and that the name finds the shape. An
/// empty name means that there is no zone.
fn check_zone(rt: &impl Abort, document: &Document<Global>, index: usize, name: &str, shape: &str) {
    let want = Name::new(name.as_bytes());
    let Some(zone) = document.zone_at(index) else {
        assert_eq!(rt; want, None, "{index}");
        return;
    };
    assert_eq!(rt; Some(zone.name), want, "{index}");
    assert_eq!(rt; shape_text(&zone.shape).as_str(), shape, "{index}");
    assert_eq!(rt;
        document.zone(zone.name).copied(),
        Some(zone.shape),
        "{index}"
    );
}

#[test]
fn parts_of_documents(rt: HostRuntime) -> Result<(), Fail> {
    let document = read_whole(&rt, rt.alloc(), TWO_POLICIES);
    for (number, want) in [(0, ""), (1, "early"), (2, "grant"), (3, "late"), (4, "")] {
        let want = Name::new(want.as_bytes());
        assert_eq!(rt; document.rule_name(number), want, "{number}");
    }
    check_zone(&rt, &document, 0, "", "");
    Ok(())
}

#[test]
fn zones_of_documents(rt: HostRuntime) -> Result<(), Fail> {
    let document = read_whole(&rt, rt.alloc(), EACH_KIND);
    assert!(rt; matches!(document.root(), Node::Set { .. }));
    assert_eq!(rt; document.zone_count(), 3);
    for (index, want, shape) in [
        (0, "harbour", "POLYGON ((0 0, 4 0, 4 4, 0 4, 0 0))"),
        (1, "post", "POINT (1 2)"),
        (2, "road", "LINESTRING (0 0, 3 1)"),
        (3, "", ""),
    ] {
        check_zone(&rt, &document, index, want, shape);
    }
    if let Some(name) = Name::new(b"quay") {
        assert!(rt; document.zone(name).is_none());
    }
    Ok(())
}

#[test]
fn reads_under_refusals(rt: HostRuntime) -> Result<(), Fail> {
    let heap = rt.alloc();
    let memory = Refusing::new(heap, 0);
    let mut refused = 0;
    for at in 1..200 {
        memory.refuse(at);
        let read = read_document(&memory, heap, EACH_KIND.as_bytes());
        if !memory.has_refused() {
            assert!(rt; read.is_ok());
            break;
        }
        refused = at;
        assert!(rt; matches!(read, Err(TextFault::Memory(_))), "{at}");
    }
    assert!(rt; refused > 10 && refused < 199, "{refused}");
    Ok(())
}

#[test]
fn copies_under_refusals(rt: HostRuntime) -> Result<(), Fail> {
    let heap = rt.alloc();
    let memory = Refusing::new(heap, 0);
    let document = read_whole(&rt, heap, EACH_KIND);
    let mut refused = 0;
    for at in 1..200 {
        memory.refuse(at);
        let copy = document.copy(&memory);
        if !memory.has_refused() {
            assert!(rt; copy.is_ok());
            break;
        }
        refused = at;
        assert!(rt; copy.is_err(), "{at}");
    }
    assert!(rt; refused > 10 && refused < 199, "{refused}");
    assert_eq!(rt;
        print_document(heap, &document)?.as_str(),
        EACH_KIND_PRINTED
    );
    Ok(())
}
