//! `landmap check`: what it writes of a right configuration, and each fault with its place. Also
//! the manual page, completions, and a script from standard input.
use crate::running::{AS_BUILT_IN, FIRST_POINT, Two, check, shows, status_of, words};
use program::run_program;
use std::alloc::{AllocError, Global};
use std::process::Abort;
use std::test::Fail;

/// Looks at the configuration in `a.json`, and checks the status and what both writers have.
fn found(
    rt: &impl Abort,
    host: &HostRuntime,
    text: &str,
    status: u8,
    written: (&str, &str),
) -> Result<(), AllocError> {
    let folder = Two {
        host,
        config: text.as_bytes(),
        script: b"",
        fails_at: 0,
    };
    let texts = ["check", "--config", "a.json"];
    check(rt, host.alloc(), &texts, &folder, status, written)
}

/// Policies with one zone and two rules.
const RIGHT: &str =
    r#"{"subjects":[{"name":"a","office":"o","role":"r"},{"name":"b","office":"o","role":"r","steward":true}],
"policies":{"zones":[{"zone":"z","shape":"POINT (1 2)"}],"root":{"set":"s","combine":"deny-overrides","of":[{"policy":"p","combine":"deny-overrides",
"rules":[{"rule":"q","effect":"permit"},{"rule":"t","effect":"deny","target":[[[{"zone":"z"}]]]}]}]}}}"#;

#[test]
fn right_ones(rt: HostRuntime) -> Result<(), Fail> {
    let two = "subjects 2\nstewards 1\nzones 1\nrules that permit 1\nrules that deny 1\n";
    found(&rt, &rt, RIGHT, 0, (two, ""))?;
    let three = "subjects 3\nstewards 1\nzones 0\nrules that permit 1\nrules that deny 0\n";
    found(&rt, &rt, AS_BUILT_IN, 0, (three, ""))?;
    Ok(())
}

/// What a configuration says of HTTP, with the line that is written of it.
const SAID_OF_HTTP: [(&str, &str); 17] = [
    (r#""collections":[]"#, ""),
    (r#""collections":["mast"]"#, "http: 1 collection\n"),
    (
        r#""collections":["mast","road","parcel"]"#,
        "http: 3 collections\n",
    ),
    (
        r#""anonymous":"a""#,
        "http: 0 collections, requests without a name are a's\n",
    ),
    (
        r#""metrics":"b""#,
        "http: 0 collections, metrics are for b\n",
    ),
    (
        r#""trusted-field":true,"metrics":"b","anonymous":"a""#,
        "http: 0 collections, requests without a name are a's, metrics are for b, the field landmap-subject is trusted\n",
    ),
    (
        r#""public":"http://x""#,
        "http: 0 collections, links begin with http://x\n",
    ),
    (
        r#""public":"https://maps.agency.example:8443/a/b%20c""#,
        "http: 0 collections, links begin with https://maps.agency.example:8443/a/b%20c\n",
    ),
    (
        r#""public":"https://maps.agency.example","collections":["mast","road"],"anonymous":"b""#,
        "http: 2 collections, links begin with https://maps.agency.example, requests without a name are b's\n",
    ),
    (
        r#""grid":{"origin":["0","0"],"decimals":0},"collections":["mast"]"#,
        "grid step 1\ngrid x from -10000000 to 10000000\ngrid y from -10000000 to 10000000\nhttp: 1 collection\n",
    ),
    (r#""keys":[]"#, ""),
    (
        r#""keys":[{"subject":"a","sha256":"0123456789abcdef0123456789abcdef0123456789abcdef0123456789abcdef"}]"#,
        "http: 0 collections, 1 key\n",
    ),
    (
        r#""keys":[{"subject":"a","sha256":"0123456789abcdef0123456789abcdef0123456789abcdef0123456789abcdef"},{"subject":"b","sha256":"0123456789abcdef0123456789abcdef0123456789abcdef0123456789abcdef"},{"sha256":"0123456789ABCDEF0123456789abcdef0123456789abcdef0123456789abcde0","subject":"a"}],"collections":["mast"]"#,
        "http: 1 collection, 3 keys\n",
    ),
    (r#""trusted-field":false"#, ""),
    (
        r#""trusted-field":true"#,
        "http: 0 collections, the field landmap-subject is trusted\n",
    ),
    (
        r#""trusted-field":false,"keys":[{"subject":"b","sha256":"0123456789ABCDEF0123456789abcdef0123456789abcdef0123456789abcde0"}],"anonymous":"b""#,
        "http: 0 collections, 1 key, requests without a name are b's\n",
    ),
    (
        r#""trusted-field":true,"keys":[],"public":"http://x","anonymous":"a""#,
        "http: 0 collections, links begin with http://x, requests without a name are a's, the field landmap-subject is trusted\n",
    ),
];

/// A right configuration of two subjects, with this beside it.
fn with(alloc: Global, more: &str) -> Result<String, AllocError> {
    format!(in alloc;
        "{{\"subjects\":[{{\"name\":\"a\",\"office\":\"o\",\"role\":\"r\"}},{{\"name\":\"b\",\"office\":\"o\",\"role\":\"r\"}}],\"policies\":{{\"root\":{{\"policy\":\"p\",\"combine\":\"deny-overrides\",\"rules\":[]}}}},{more}}}"
    )
}

#[test]
fn said_of_http(rt: HostRuntime) -> Result<(), Fail> {
    let counts = "subjects 2\nstewards 0\nzones 0\nrules that permit 0\nrules that deny 0\n";
    for (more, line) in SAID_OF_HTTP {
        let text = with(rt.alloc(), more)?;
        let told = format!(in rt.alloc(); "{counts}{line}")?;
        found(&rt, &rt, text.as_str(), 0, (told.as_str(), ""))?;
    }
    Ok(())
}

/// What is wrong of what is said of HTTP, with its place.
const WRONG_OF_HTTP: [(&str, &str); 52] = [
    (r#""anonymous":null"#, "/anonymous"),
    (r#""anonymous":"c""#, "/anonymous"),
    (r#""anonymous":"A""#, "/anonymous"),
    (r#""anonymous":"""#, "/anonymous"),
    (r#""anonymous":["a"]"#, "/anonymous"),
    (r#""metrics":true"#, "/metrics"),
    (r#""metrics":"c""#, "/metrics"),
    (r#""metrics":"c","public":1"#, "/metrics"),
    (r#""public":1"#, "/public"),
    (r#""public":"""#, "/public"),
    (r#""public":"maps.agency.example""#, "/public"),
    (r#""public":"ftp://maps.agency.example""#, "/public"),
    (r#""public":"HTTP://maps.agency.example""#, "/public"),
    (r#""public":"https://""#, "/public"),
    (r#""public":"https:///land""#, "/public"),
    (r#""public":"https://:443""#, "/public"),
    (r#""public":"https://x/""#, "/public"),
    (r#""public":"https://x?y""#, "/public"),
    (r#""public":"https://x#y""#, "/public"),
    (r#""public":"https://x y""#, "/public"),
    (r#""public":"https://x\"y""#, "/public"),
    (r#""public":"https://x\\y""#, "/public"),
    (r#""public":"https://<x>""#, "/public"),
    (r#""public":"https://ü""#, "/public"),
    (r#""collections":{}"#, "/collections"),
    (r#""collections":["mast",1]"#, "/collections/1"),
    (r#""collections":["Mast","mast"]"#, "/collections/0"),
    (r#""collections":["mast","features"]"#, "/collections/1"),
    (r#""collections":["features",1]"#, "/collections/0"),
    (r#""collections":["mast","mast",1]"#, "/collections/1"),
    (
        r#""collections":["mast","road","mast",7]"#,
        "/collections/2",
    ),
    (r#""collections":7,"public":7,"anonymous":7"#, "/anonymous"),
    (r#""keys":{}"#, "/keys"),
    (r#""keys":"a""#, "/keys"),
    (
        r#""keys":[{"subject":"a","sha256":"0123456789abcdef0123456789abcdef0123456789abcdef0123456789abcdef"},7]"#,
        "/keys/1",
    ),
    (
        r#""keys":[{"subject":"a","sha256":"0123456789abcdef0123456789abcdef0123456789abcdef0123456789abcdef","name":"a"}]"#,
        "/keys/0",
    ),
    (
        r#""keys":[{"sha256":"0123456789abcdef0123456789abcdef0123456789abcdef0123456789abcdef"}]"#,
        "/keys/0/subject",
    ),
    (r#""keys":[{"subject":"a"}]"#, "/keys/0/sha256"),
    (
        r#""keys":[{"subject":"c","sha256":"0123456789abcdef0123456789abcdef0123456789abcdef0123456789abcdef"}]"#,
        "/keys/0/subject",
    ),
    (
        r#""keys":[{"subject":["a"],"sha256":"0123456789abcdef0123456789abcdef0123456789abcdef0123456789abcdef"}]"#,
        "/keys/0/subject",
    ),
    (r#""keys":[{"subject":"a","sha256":1}]"#, "/keys/0/sha256"),
    (r#""keys":[{"subject":"a","sha256":""}]"#, "/keys/0/sha256"),
    (
        r#""keys":[{"subject":"a","sha256":"0123456789abcdef0123456789abcdef0123456789abcdef0123456789abcde"}]"#,
        "/keys/0/sha256",
    ),
    (
        r#""keys":[{"subject":"a","sha256":"0123456789abcdef0123456789abcdef0123456789abcdef0123456789abcdef00"}]"#,
        "/keys/0/sha256",
    ),
    (
        r#""keys":[{"subject":"a","sha256":"0123456789abcdef0123456789abcdef0123456789abcdef0123456789abcdeg"}]"#,
        "/keys/0/sha256",
    ),
    (
        r#""keys":[{"subject":"a","sha256":"0123456789abcdef0123456789abcdef0123456789abcdef0123456789abcdef"},{"subject":"a","sha256":"0123456789ABCDEF0123456789abcdef0123456789abcdef0123456789abcde0"},{"subject":"a","sha256":"0123456789abcdef0123456789abcdef0123456789abcdef0123456789abcdef"}]"#,
        "/keys/2",
    ),
    (
        r#""keys":[{"subject":"a","sha256":"0123456789abcdef0123456789abcdef0123456789abcdef0123456789abcdef"},{"subject":"a","sha256":"0123456789ABCDEF0123456789ABCDEF0123456789abcdef0123456789abcdef"}]"#,
        "/keys/1",
    ),
    (r#""trusted-field":1"#, "/trusted-field"),
    (r#""trusted-field":"true""#, "/trusted-field"),
    (
        r#""trusted-field":true,"keys":[{"subject":"a","sha256":"0123456789abcdef0123456789abcdef0123456789abcdef0123456789abcdef"}]"#,
        "/trusted-field",
    ),
    (
        r#""trusted-field":1,"keys":1,"collections":1"#,
        "/collections",
    ),
    (r#""trusted-field":1,"keys":1"#, "/keys"),
];

#[test]
fn wrong_of_http(rt: HostRuntime) -> Result<(), Fail> {
    for (more, place) in WRONG_OF_HTTP {
        let text = with(rt.alloc(), more)?;
        let told = format!(in rt.alloc(); "B2 at \"{place}\"\n")?;
        found(&rt, &rt, text.as_str(), 1, (told.as_str(), "landmap: B2\n"))?;
    }
    Ok(())
}

/// A key with this many collections, `c0` and so on.
fn of_collections(alloc: Global, count: usize) -> Result<String, AllocError> {
    let mut text = String::from_str(alloc, "\"collections\":[\"c0\"")?;
    for number in 1..count {
        text.push_str(format!(in alloc; ",\"c{number}\"")?.as_str())?;
    }
    text.push_str("]")?;
    Ok(text)
}

/// 64 collections and 200 bytes are the most.
#[test]
fn the_most_of_http(rt: HostRuntime) -> Result<(), Fail> {
    let alloc = rt.alloc();
    for (count, status) in [(64, 0), (65, 1)] {
        let text = with(alloc, of_collections(alloc, count)?.as_str())?;
        let counts =
            "subjects 2\nstewards 0\nzones 0\nrules that permit 0\nrules that deny 0\nhttp: 64 collections\n";
        let told = if status == 0 {
            (counts, "")
        } else {
            ("B2 at \"/collections\"\n", "landmap: B2\n")
        };
        found(&rt, &rt, text.as_str(), status, told)?;
    }
    for (count, status) in [(200, 0), (201, 1)] {
        let host = "x".repeat(alloc, count)?;
        let text = with(
            alloc,
            format!(in alloc; "\"public\":\"http://{host}\"")?.as_str(),
        )?;
        let counts = format!(in alloc;
            "subjects 2\nstewards 0\nzones 0\nrules that permit 0\nrules that deny 0\nhttp: 0 collections, links begin with http://{host}\n"
        )?;
        let told = if status == 0 {
            (counts.as_str(), "")
        } else {
            ("B2 at \"/public\"\n", "landmap: B2\n")
        };
        found(&rt, &rt, text.as_str(), status, told)?;
    }
    Ok(())
}

/// A list of this many keys of one subject, each with another digest.
fn of_keys(alloc: Global, count: usize) -> Result<String, AllocError> {
    let mut text = String::from_str(alloc, "\"keys\":[")?;
    for number in 0..count {
        let comma = if number == 0 { "" } else { "," };
        let key = format!(in alloc; "{comma}{{\"subject\":\"a\",\"sha256\":\"{number:064x}\"}}")?;
        text.push_str(key.as_str())?;
    }
    text.push_str("]")?;
    Ok(text)
}

/// 1,024 keys are the most.
#[test]
fn the_most_keys(rt: HostRuntime) -> Result<(), Fail> {
    let alloc = rt.alloc();
    let counts =
        "subjects 2\nstewards 0\nzones 0\nrules that permit 0\nrules that deny 0\nhttp: 0 collections, 1024 keys\n";
    let most = with(alloc, of_keys(alloc, 1_024)?.as_str())?;
    found(&rt, &rt, most.as_str(), 0, (counts, ""))?;
    let more = with(alloc, of_keys(alloc, 1_025)?.as_str())?;
    let told = ("B2 at \"/keys\"\n", "landmap: B2\n");
    found(&rt, &rt, more.as_str(), 1, told)?;
    Ok(())
}

/// Texts that are wrong outside the policies, with what is written.
const WRONG: [(&str, &str, &str); 14] = [
    ("", "B1\n", "landmap: B1\n"),
    ("[1,", "B1\n", "landmap: B1\n"),
    ("[]", "B2 at \"\"\n", "landmap: B2\n"),
    (
        r#"{"subjects":[],"policy":1}"#,
        "B2 at \"\"\n",
        "landmap: B2\n",
    ),
    (
        r#"{"subjects":{},"policies":1}"#,
        "B2 at \"/subjects\"\n",
        "landmap: B2\n",
    ),
    (
        r#"{"subjects":[]}"#,
        "B2 at \"/policies\"\n",
        "landmap: B2\n",
    ),
    (
        r#"{"subjects":[{"name":"a","office":"o","role":"r"},7],"policies":1}"#,
        "B2 at \"/subjects/1\"\n",
        "landmap: B2\n",
    ),
    (
        r#"{"subjects":[{"name":"A","office":"o","role":"r"}],"policies":1}"#,
        "B2 at \"/subjects/0/name\"\n",
        "landmap: B2\n",
    ),
    (
        r#"{"subjects":[{"name":"a","office":"o","role":"r","steward":1}],"policies":1}"#,
        "B2 at \"/subjects/0/steward\"\n",
        "landmap: B2\n",
    ),
    (
        r#"{"subjects":[{"name":"a","office":"o","role":"r","key":1}],"policies":1}"#,
        "B2 at \"/subjects/0\"\n",
        "landmap: B2\n",
    ),
    (
        r#"{"subjects":[{"name":"a","office":"o","role":"r"},{"name":"b","role":1}],"policies":1}"#,
        "B2 at \"/subjects/1/office\"\n",
        "landmap: B2\n",
    ),
    (
        r#"{"subjects":[{"name":"a","office":"o","role":"r"},{"name":"b","office":"o","role":"r"},{"name":"b","office":"p","role":"r"},{"name":"a","office":"p","role":"r"}],"policies":1}"#,
        "N3 at \"/subjects/2/name\"\n",
        "landmap: N3\n",
    ),
    (
        r#"{"subjects":[],"policies":1}"#,
        "N1 at \"/subjects\"\n",
        "landmap: N1\n",
    ),
    (
        r#"{"subjects":[{"name":"a","office":"o","role":"r"},{"name":"b","office":"o","role":"r"},{"name":"a","office":"p","role":"r"}],"policies":1}"#,
        "N3 at \"/subjects/2/name\"\n",
        "landmap: N3\n",
    ),
];

#[test]
fn wrong_ones(rt: HostRuntime) -> Result<(), Fail> {
    for (text, output, errors) in WRONG {
        found(&rt, &rt, text, 1, (output, errors))?;
    }
    Ok(())
}

/// Policies that are wrong, with what is written.
const POLICIES: [(&str, &str, &str); 8] = [
    ("1", "D2 at \"/policies\"\n", "landmap: D2\n"),
    (
        r#"{"root":{"policy":"p","combine":"deny-overrides","rules":[{"rule":"q","effect":"maybe"}]}}"#,
        "D2 at \"/policies/root/rules/0/effect\"\n",
        "landmap: D2\n",
    ),
    (
        r#"{"root":{"policy":"p","combine":"deny-overrides","rules":[],"more":1}}"#,
        "D3 at \"/policies/root\"\n",
        "landmap: D3\n",
    ),
    (
        r#"{"zones":[{"zone":"z","shape":"POINT (1 2)"},{"zone":"z","shape":"POINT (1 2)"}],"root":{"policy":"p","combine":"deny-overrides","rules":[]}}"#,
        "D4 at \"/policies/zones/1/zone\"\n",
        "landmap: D4\n",
    ),
    (
        r#"{"root":{"policy":"p","combine":"deny-overrides","rules":[{"rule":"q","effect":"deny"},{"rule":"p","effect":"deny"}]}}"#,
        "D4 at \"/policies/root/rules/1/rule\"\n",
        "landmap: D4\n",
    ),
    (
        r#"{"root":{"policy":"p","combine":"deny-overrides","rules":[{"rule":"q","effect":"deny","when":[{"own":true},{"not":{"zone":"y"}}]}]}}"#,
        "D5 at \"/policies/root/rules/0/when/1/not/zone\"\n",
        "landmap: D5\n",
    ),
    (
        r#"{"root":{"policy":"p","combine":"deny-overrides","target":[[[{"role":"r"}],[{"role":"r"},{"zone":"y"}]]],"rules":[]}}"#,
        "D5 at \"/policies/root/target/0/1/1/zone\"\n",
        "landmap: D5\n",
    ),
    (
        r#"{"zones":[{"zone":"y","shape":"POINT (1 2)"},{"zone":"z","shape":"POINT (1 x)"}],"root":1}"#,
        "D6 at \"/policies/zones/1/shape\", byte 9\n",
        "landmap: D6\n",
    ),
];

#[test]
fn wrong_policies(rt: HostRuntime) -> Result<(), Fail> {
    for (policies, output, errors) in POLICIES {
        let text = format!(in rt.alloc();
            "{{\"subjects\":[{{\"name\":\"a\",\"office\":\"o\",\"role\":\"r\"}}],\"policies\":{policies}}}"
        )?;
        found(&rt, &rt, text.as_str(), 1, (output, errors))?;
    }
    Ok(())
}

/// Nine sets and policies within one another.
#[test]
fn too_deep(rt: HostRuntime) -> Result<(), Fail> {
    let alloc = rt.alloc();
    let mut text = String::from_str(
        alloc,
        r#"{"subjects":[{"name":"a","office":"o","role":"r"}],"policies":{"root":"#,
    )?;
    for level in 0..8 {
        text.push_str(format!(in alloc;
            "{{\"set\":\"s{level}\",\"combine\":\"deny-overrides\",\"of\":["
        )?.as_str())?;
    }
    text.push_str(r#"{"policy":"p","combine":"deny-overrides","rules":[]}"#)?;
    for _ in 0..8 {
        text.push_str("]}")?;
    }
    text.push_str("}}")?;
    let place = "D7 at \"/policies/root/of/0/of/0/of/0/of/0/of/0/of/0/of/0/of/0\"\n";
    found(&rt, &rt, text.as_str(), 1, (place, "landmap: D7\n"))?;
    Ok(())
}

/// Files that cannot be read, and wrong words.
#[test]
fn nothing_found(rt: HostRuntime) -> Result<(), Fail> {
    let folder = Two {
        host: &rt,
        config: b"",
        script: FIRST_POINT.as_bytes(),
        fails_at: 3,
    };
    for (name, line) in [
        ("b.json", "landmap: cannot read b.json\n"),
        ("a.map", "landmap: cannot read a.map\n"),
    ] {
        let texts = ["check", "--config", name];
        check(&rt, rt.alloc(), &texts, &folder, 1, ("", line))?;
    }
    shows(
        &rt,
        &rt,
        &["check"],
        2,
        "error: ",
        &["\nUsage: landmap check --config <FILE>\n"],
    )?;
    Ok(())
}

#[test]
fn help_of_the_further_commands(rt: HostRuntime) -> Result<(), Fail> {
    let check_parts = [
        "\n    B2 at \"/subjects/0/name\"\n",
        "\nExit status:\n  0  ",
        "\n  2  the command line is wrong\n",
    ];
    shows(
        &rt,
        &rt,
        &["check", "--help"],
        0,
        "Tells whether",
        &check_parts,
    )?;
    shows(
        &rt,
        &rt,
        &["man", "--help"],
        0,
        "Prints the manual page",
        &["\nExit status:\n"],
    )?;
    shows(
        &rt,
        &rt,
        &["completions", "--help"],
        0,
        "Prints what a shell",
        &["bash", "zsh", "fish"],
    )?;
    Ok(())
}

/// What is printed with these words has each of these parts.
fn prints(
    rt: &impl Abort,
    host: &HostRuntime,
    texts: &[&str],
    parts: &[&str],
) -> Result<(), AllocError> {
    let alloc = host.alloc();
    let folder = Two {
        host,
        config: b"",
        script: b"",
        fails_at: 0,
    };
    let words = words(alloc, texts)?;
    let mut output = Vec::new(alloc);
    let mut errors = Vec::new(alloc);
    let next = run_program(alloc, words.as_slice(), &folder, &mut output, &mut errors);
    assert_eq!(rt; status_of(rt, &next), 0);
    assert_eq!(rt; errors.len(), 0);
    let text = str::from_utf8(output.as_slice()).unwrap_or("");
    for part in parts {
        assert!(rt; text.contains(*part), "{part}");
    }
    Ok(())
}

#[test]
fn pages(rt: HostRuntime) -> Result<(), Fail> {
    let man = [
        ".TH LANDMAP 1\n.SH NAME\nlandmap \\- A map feature server",
        "\n.SS landmap serve\n.nf\n",
        "\n.TP\n.BI \"\\-\\-idle \" \"SECONDS\"\n",
        "\n.BI \"FILE \" \"\"\n",
        "\n.SH EXAMPLES\n",
    ];
    prints(&rt, &rt, &["man"], &man)?;
    let bash = [
        "compgen -W 'script serve connect check draw export import store secret man completions help --help'",
        "\n        check) options='--config --help' ;;\n",
        "\ncomplete -o filenames -F _landmap landmap\n",
    ];
    prints(&rt, &rt, &["completions", "bash"], &bash)?;
    let zsh = [
        "#compdef landmap\n",
        "\n        'man:Prints the manual page'\n",
        "'--workers:How many clients at a time, 1 to 1024 [default\\: 4]'",
    ];
    prints(&rt, &rt, &["completions", "zsh"], &zsh)?;
    let fish = [
        "complete -c landmap -n __fish_use_subcommand -f -a script -d 'Runs",
        "complete -c landmap -n '__fish_seen_subcommand_from connect' -l socket -d 'Where the server\\'s Unix socket is bound'\n",
    ];
    prints(&rt, &rt, &["completions", "fish"], &fish)?;
    let mistake =
        "error: invalid value 'csh' for '<SHELL>'\n  [possible values: bash, zsh, fish]\n";
    shows(&rt, &rt, &["completions", "csh"], 2, mistake, &[])?;
    Ok(())
}

/// A drawing of a script and its replies, which the folder has under `-`.
#[test]
fn a_drawing(rt: HostRuntime) -> Result<(), Fail> {
    let alloc = rt.alloc();
    let folder = Two {
        host: &rt,
        config: b"",
        script: FIRST_POINT.as_bytes(),
        fails_at: 0,
    };
    let words = words(alloc, &["draw", "a.map"])?;
    let mut output = Vec::new(alloc);
    let mut errors = Vec::new(alloc);
    let next = run_program(alloc, words.as_slice(), &folder, &mut output, &mut errors);
    assert_eq!(rt; status_of(&rt, &next), 0);
    assert_eq!(rt; errors.len(), 0);
    let text = str::from_utf8(output.as_slice()).unwrap_or("");
    assert!(rt; text.contains("<svg"), "the drawing begins");
    assert!(rt; text.ends_with("</svg>\n"), "the drawing ends");
    check(
        &rt,
        alloc,
        &["draw", "b.map"],
        &folder,
        1,
        ("", "landmap: cannot read b.map\n"),
    )?;
    let parts = ["\n  landmap script day.map | landmap draw day.map > day.svg\n"];
    shows(
        &rt,
        &rt,
        &["draw", "--help"],
        0,
        "Draws what a script",
        &parts,
    )?;
    Ok(())
}

/// `-` is handed to the folder, as each other name.
#[test]
fn a_script_from_standard_input(rt: HostRuntime) -> Result<(), Fail> {
    let folder = Two {
        host: &rt,
        config: b"",
        script: b"n: HELLO north\n",
        fails_at: 0,
    };
    check(
        &rt,
        rt.alloc(),
        &["script", "-"],
        &folder,
        0,
        ("n: hello north\n", ""),
    )?;
    Ok(())
}
