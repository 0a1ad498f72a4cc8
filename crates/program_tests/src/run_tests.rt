//! The program's exit statuses, and what it writes.
use crate::running::{
    AS_BUILT_IN, BY_INES, FIRST_POINT, Text, Two, check, shows, status_of, words,
};
use byte_streams::NotOpened;
use configuration::{CONFIG_LIMIT, ConfigFault};
use failing_streams::{FailingWriter, Failure, LongReader};
use program::{Ended, Folder, Next, ProgramFault, built_in_config, run_file, run_program, tell};
use refusing::Refusing;
use std::alloc::{AllocError, Global};
use std::io::Read;
use std::process::Abort;
use std::test::Fail;
use world::FeatureLimit;

/// The replies to `FIRST_POINT`.
const FIRST_REPLIES: &str =
    "n: hello north\nn: staged\nn: applied 1\nn: rows 1\nn: 1 1 north mast POINT (3 4)\nn: rows 0\n";

/// A writer that fails this way.
fn writer(alloc: Global, fails_at: u64, with: Failure) -> FailingWriter {
    FailingWriter {
        taken: Vec::new(alloc),
        most: 10_000,
        fails_at,
        with,
    }
}

#[test]
fn a_script_is_run(rt: HostRuntime) -> Result<(), Fail> {
    let folder = Text {
        host: &rt,
        bytes: FIRST_POINT.as_bytes(),
        fails_at: 0,
    };
    check(
        &rt,
        rt.alloc(),
        &["script", "a.map"],
        &folder,
        0,
        (FIRST_REPLIES, ""),
    )?;
    let folder = Text {
        host: &rt,
        bytes: b"no label\n",
        fails_at: 0,
    };
    check(
        &rt,
        rt.alloc(),
        &["script", "a.map"],
        &folder,
        0,
        ("?: error E9\n", ""),
    )?;
    check(
        &rt,
        rt.alloc(),
        &["script", "b.map"],
        &folder,
        1,
        ("", "landmap: cannot read b.map\n"),
    )?;
    Ok(())
}

/// A script with a session of `ines`, whom only the configuration `BY_INES` has as a subject.
const OF_INES: &str = "n: HELLO north\ni: HELLO ines\ni: EXPLAIN read north mast POINT (3 4)\n";

/// Checks the replies to this script under this configuration.
fn configured(
    rt: &impl Abort,
    host: &HostRuntime,
    config: &str,
    script: &str,
    replies: &str,
) -> Result<(), AllocError> {
    let folder = Two {
        host,
        config: config.as_bytes(),
        script: script.as_bytes(),
        fails_at: 0,
    };
    let words = ["script", "--config", "a.json", "a.map"];
    check(rt, host.alloc(), &words, &folder, 0, (replies, ""))
}

#[test]
fn a_configuration_is_read(rt: HostRuntime) -> Result<(), Fail> {
    configured(
        &rt,
        &rt,
        BY_INES,
        OF_INES,
        "n: error H1\ni: hello ines\ni: denied none edition 1\n",
    )?;
    configured(&rt, &rt, AS_BUILT_IN, FIRST_POINT, FIRST_REPLIES)?;
    Ok(())
}

/// Checks that this configuration has the fault of this code: the run ends with status 1, and
/// nothing is answered.
fn misconfigured(
    rt: &impl Abort,
    host: &HostRuntime,
    config: &str,
    code: &str,
) -> Result<(), AllocError> {
    let folder = Two {
        host,
        config: config.as_bytes(),
        script: OF_INES.as_bytes(),
        fails_at: 0,
    };
    let line = format!(in host.alloc(); "landmap: {code}\n")?;
    let words = ["script", "--config", "a.json", "a.map"];
    check(rt, host.alloc(), &words, &folder, 1, ("", line.as_str()))
}

#[test]
fn a_configuration_at_fault(rt: HostRuntime) -> Result<(), Fail> {
    let cases = [
        ("{", "B1"),
        ("{}", "B2"),
        (
            r#"{"subjects":[{"name":"a","office":"b","role":"c"}],"policies":{},"x":1}"#,
            "B2",
        ),
        (r#"{"subjects":[],"policies":{}}"#, "N1"),
        (
            r#"{"subjects":[{"name":"a","office":"b","role":"c"},{"name":"a","office":"d","role":"e"}],"policies":{}}"#,
            "N3",
        ),
    ];
    for (config, code) in cases {
        misconfigured(&rt, &rt, config, code)?;
    }
    let many = of_subjects(rt.alloc(), 65)?;
    misconfigured(&rt, &rt, many.as_str(), "N2")?;
    Ok(())
}

/// A configuration of this many subjects, with an empty policy document.
fn of_subjects(alloc: Global, count: u32) -> Result<String, AllocError> {
    let mut text = String::from_str(
        alloc,
        r#"{"policies":{},"subjects":[{"name":"first","office":"b","role":"c"}"#,
    )?;
    for at in 1..count {
        write!(text, r#",{{"name":"s{at}","office":"b","role":"c"}}"#)?;
    }
    text.push_str("]}")?;
    Ok(text)
}

/// Checks the code of a configuration of one subject and these faulty policies.
fn ruled(
    rt: &impl Abort,
    host: &HostRuntime,
    policies: &str,
    code: &str,
) -> Result<(), AllocError> {
    let config = format!(in host.alloc();
        r#"{{"subjects":[{{"name":"a","office":"b","role":"c"}}],"policies":{policies}}}"#
    )?;
    misconfigured(rt, host, config.as_str(), code)
}

/// Sets nested nine deep.
const NINE_DEEP: &str =
    r#"{"root":{"set":"s0","combine":"deny-overrides","of":[{"set":"s1","combine":"deny-overrides","of":[{"set":"s2","combine":"deny-overrides","of":[{"set":"s3","combine":"deny-overrides","of":[{"set":"s4","combine":"deny-overrides","of":[{"set":"s5","combine":"deny-overrides","of":[{"set":"s6","combine":"deny-overrides","of":[{"set":"s7","combine":"deny-overrides","of":[{"set":"s8","combine":"deny-overrides","of":[]}]}]}]}]}]}]}]}]}}"#;

/// A policy of this many rules.
fn of_rules(alloc: Global, count: u32) -> Result<String, AllocError> {
    let mut text = String::from_str(
        alloc,
        r#"{"root":{"policy":"p","combine":"deny-overrides","rules":[{"rule":"first","effect":"deny"}"#,
    )?;
    for at in 1..count {
        write!(text, r#",{{"rule":"r{at}","effect":"deny"}}"#)?;
    }
    text.push_str("]}}")?;
    Ok(text)
}

#[test]
fn policies_at_fault(rt: HostRuntime) -> Result<(), Fail> {
    let cases = [
        ("{}", "D2"),
        (
            r#"{"root":{"policy":"p","combine":"deny-overrides","rules":[],"x":1}}"#,
            "D3",
        ),
        (
            r#"{"root":{"policy":"p","combine":"deny-overrides","rules":[{"rule":"p","effect":"deny"}]}}"#,
            "D4",
        ),
        (
            r#"{"root":{"policy":"p","combine":"deny-overrides","target":[[[{"zone":"z"}]]],"rules":[]}}"#,
            "D5",
        ),
        (
            r#"{"zones":[{"zone":"z","shape":"POINT (1)"}],"root":{"policy":"p","combine":"deny-overrides","rules":[]}}"#,
            "D6",
        ),
    ];
    for (policies, code) in cases {
        ruled(&rt, &rt, policies, code)?;
    }
    Ok(())
}

#[test]
fn policies_too_large(rt: HostRuntime) -> Result<(), Fail> {
    ruled(&rt, &rt, NINE_DEEP, "D7")?;
    let many = of_rules(rt.alloc(), 513)?;
    ruled(&rt, &rt, many.as_str(), "D8")?;
    Ok(())
}

/// Checks that a run ends with status 1 and this line, over the folder of two files, one of them
/// this configuration.
fn ends_with(
    rt: &impl Abort,
    host: &HostRuntime,
    config: &str,
    texts: &[&str],
    line: &str,
) -> Result<(), AllocError> {
    let folder = Two {
        host,
        config: config.as_bytes(),
        script: OF_INES.as_bytes(),
        fails_at: 0,
    };
    check(rt, host.alloc(), texts, &folder, 1, ("", line))
}

#[test]
fn files_are_opened_in_turn(rt: HostRuntime) -> Result<(), Fail> {
    let cases: [(&str, &[&str], &str); 5] = [
        (
            "{}",
            &["script", "--config", "b.json", "b.map"],
            "landmap: cannot read b.json\n",
        ),
        (
            "{}",
            &["script", "--config", "a.json", "b.map"],
            "landmap: B2\n",
        ),
        (
            "{}",
            &["script", "--config=a.json", "a.map"],
            "landmap: B2\n",
        ),
        (
            AS_BUILT_IN,
            &["script", "--config", "a.json", "b.map"],
            "landmap: cannot read b.map\n",
        ),
        ("{}", &["script", "b.map"], "landmap: cannot read b.map\n"),
    ];
    for (config, texts, line) in cases {
        ends_with(&rt, &rt, config, texts, line)?;
    }
    Ok(())
}

/// A folder whose files are all one byte longer than a configuration may be.
#[derive(Drop)]
struct TooLong;

impl Folder for TooLong {
    ghost use Rattle.std.specs.Prelude.{None};

    type File = LongReader;

    ghost holds = { λ folder name. None };

    ghost closed = { λ folder name. Unit {0} };

    fn open_file(&self, _name: &str) -> Result<LongReader, NotOpened> {
        Ok(LongReader {
            left: CONFIG_LIMIT + 1,
        })
    }
}

#[test]
fn a_configuration_too_long(rt: HostRuntime) -> Result<(), Fail> {
    check(
        &rt,
        rt.alloc(),
        &["script", "--config", "a.json", "a.map"],
        &TooLong,
        1,
        ("", "landmap: cannot read a.json\n"),
    )?;
    Ok(())
}

#[test]
fn a_read_fails(rt: HostRuntime) -> Result<(), Fail> {
    let folder = Text {
        host: &rt,
        bytes: FIRST_POINT.as_bytes(),
        fails_at: 20,
    };
    check(
        &rt,
        rt.alloc(),
        &["script", "a.map"],
        &folder,
        1,
        ("n: hello north\n", "landmap: V1\n"),
    )?;
    Ok(())
}

/// Each read of the configuration's file fails in turn, also the one that would find its end. The
/// script's file does not exist.
#[test]
fn a_read_of_the_configuration_fails(rt: HostRuntime) -> Result<(), Fail> {
    for at in 0..=AS_BUILT_IN.len() {
        let folder = Text {
            host: &rt,
            bytes: AS_BUILT_IN.as_bytes(),
            fails_at: (at as u64).saturating_add(1),
        };
        check(
            &rt,
            rt.alloc(),
            &["script", "--config", "a.map", "b.map"],
            &folder,
            1,
            ("", "landmap: cannot read a.map\n"),
        )?;
    }
    Ok(())
}

/// The configuration is read, and the first read of the script's file fails: the fault is that of
/// the script.
#[test]
fn a_read_of_the_script_fails(rt: HostRuntime) -> Result<(), Fail> {
    let folder = Two {
        host: &rt,
        config: AS_BUILT_IN.as_bytes(),
        script: FIRST_POINT.as_bytes(),
        fails_at: 1,
    };
    check(
        &rt,
        rt.alloc(),
        &["script", "--config", "a.json", "a.map"],
        &folder,
        1,
        ("", "landmap: V1\n"),
    )?;
    Ok(())
}

/// What a run reports if the allocation of this number is refused, among those for its world and
/// its buffers. It prints nothing.
fn without_memory(rt: &impl Abort, alloc: Global, at: u64) -> Result<Vec<u8>, AllocError> {
    let config = built_in_config(alloc, alloc);
    assert!(rt; config.is_ok(), "the built-in configuration is read");
    let memory = Refusing::new(alloc, at);
    let mut output = Vec::new(alloc);
    let mut errors = Vec::new(alloc);
    let end = run_file(
        &memory,
        alloc,
        config.unwrap(),
        FeatureLimit::usual(),
        &mut FIRST_POINT.as_bytes(),
        &mut output,
    );
    let Err(fault) = &end else {
        panic!(rt; "no allocation was refused")
    };
    assert!(rt; tell(fault, &mut errors).is_ok());
    assert_eq!(rt; output.len(), 0);
    Ok(errors)
}

/// The number of allocations when a world is opened. If one of them is refused, the run ends with
/// X12.
fn openings(rt: &impl Abort, alloc: Global) -> Result<u64, AllocError> {
    for at in 1..20 {
        let told = without_memory(rt, alloc, at)?;
        if told.as_slice() != b"landmap: X12\n".as_slice() {
            return Ok(at.saturating_sub(1));
        }
    }
    panic!(rt; "a world takes twenty allocations")
}

#[test]
fn memory_is_refused(rt: HostRuntime) -> Result<(), Fail> {
    // After the world's own allocations come those of the table of sessions and of the line buffer.
    let opened = openings(&rt, rt.alloc())?;
    assert!(rt; opened > 0);
    for at in 1..3 {
        let told = without_memory(&rt, rt.alloc(), opened.saturating_add(at))?;
        assert_eq!(rt; told.as_slice(), b"landmap: V4\n".as_slice());
    }
    buffer_without_memory(&rt, rt.alloc());
    config_without_memory(&rt, rt.alloc());
    Ok(())
}

/// The fault of a configuration read without memory.
fn refused_config(rt: &impl Abort, alloc: Global) -> ConfigFault {
    let memory = Refusing::new(alloc, 1);
    let made = built_in_config(&memory, alloc);
    let Some(fault) = made.err() else {
        panic!(rt; "no allocation was refused")
    };
    fault
}

/// Out of memory for a configuration is shown as B5.
fn config_without_memory(rt: &impl Abort, alloc: Global) {
    let fault = refused_config(rt, alloc);
    is_told(rt, alloc, &ProgramFault::Config(fault), "landmap: B5\n");
}

/// Out of memory for the output's buffer is shown as V4.
fn buffer_without_memory(rt: &impl Abort, alloc: Global) {
    let ConfigFault::Memory(refused) = refused_config(rt, alloc) else {
        panic!(rt; "a growth was refused")
    };
    is_told(rt, alloc, &ProgramFault::Memory(refused), "landmap: V4\n");
}

#[test]
fn faults_of_a_server(rt: HostRuntime) {
    let alloc = rt.alloc();
    let bind = ProgramFault::CannotBind("m.sock");
    is_told(&rt, alloc, &bind, "landmap: cannot bind m.sock\n");
    is_told(&rt, alloc, &ProgramFault::Server("C1"), "landmap: C1\n");
    let connect = ProgramFault::CannotConnect("m.sock");
    is_told(&rt, alloc, &connect, "landmap: cannot connect m.sock\n");
    let gone = ProgramFault::Talk("the server is gone");
    is_told(&rt, alloc, &gone, "landmap: the server is gone\n");
}

/// Checks the line shown for this fault.
fn is_told(rt: &impl Abort, alloc: Global, fault: &ProgramFault<'_>, line: &str) {
    let mut errors = Vec::new(alloc);
    assert!(rt; tell(fault, &mut errors).is_ok());
    assert_eq!(rt; errors.as_slice(), line.as_bytes());
}

/// Checks that a run whose output fails in this way ends with status 1 and its line, and how the
/// bytes taken by the output begin and end. If these texts are empty, nothing was taken.
fn with_output(
    rt: &impl Abort,
    host: &HostRuntime,
    texts: &[&str],
    with: Failure,
    begins: &str,
    ends: &str,
) -> Result<(), AllocError> {
    let alloc = host.alloc();
    let folder = Text {
        host,
        bytes: FIRST_POINT.as_bytes(),
        fails_at: 0,
    };
    let words = words(alloc, texts)?;
    let mut output = writer(alloc, 1, with);
    let mut errors = Vec::new(alloc);
    let next = run_program(alloc, words.as_slice(), &folder, &mut output, &mut errors);
    assert_eq!(rt; status_of(rt, &next), 1);
    assert_eq!(rt; errors.as_slice(), b"landmap: cannot write\n".as_slice());
    let taken = output.taken.as_slice();
    assert!(rt; taken.starts_with(begins.as_bytes()));
    assert!(rt; taken.ends_with(ends.as_bytes()));
    assert_eq!(rt; taken.is_empty(), begins.is_empty());
    Ok(())
}

/// A script flushes before its first read, and again if that flush failed; help is flushed after
/// its last write.
#[test]
fn the_output_fails(rt: HostRuntime) -> Result<(), Fail> {
    for with in [Failure::Error, Failure::Nothing] {
        with_output(&rt, &rt, &["script", "a.map"], with, "", "")?;
        with_output(&rt, &rt, &["--help"], with, "", "")?;
    }
    with_output(
        &rt,
        &rt,
        &["script", "a.map"],
        Failure::Flush,
        "(flush)",
        "(flush)(flush)",
    )?;
    with_output(
        &rt,
        &rt,
        &["--help"],
        Failure::Flush,
        "A map feature server for land agencies",
        "  2  the command line is wrong\n(flush)",
    )?;
    Ok(())
}

/// Checks that a run whose standard error fails ends with this status, and writes nothing there.
fn with_errors(
    rt: &impl Abort,
    host: &HostRuntime,
    texts: &[&str],
    status: u8,
) -> Result<(), AllocError> {
    let alloc = host.alloc();
    let folder = Text {
        host,
        bytes: FIRST_POINT.as_bytes(),
        fails_at: 0,
    };
    let words = words(alloc, texts)?;
    let mut output = Vec::new(alloc);
    let mut errors = writer(alloc, 1, Failure::Error);
    let next = run_program(alloc, words.as_slice(), &folder, &mut output, &mut errors);
    assert_eq!(rt; status_of(rt, &next), status);
    if let Next::Exit(Ended::Failed(_, told)) = &next {
        assert!(rt; told.is_err());
    }
    assert_eq!(rt; errors.taken.len(), 0);
    Ok(())
}

#[test]
fn standard_error_fails(rt: HostRuntime) -> Result<(), Fail> {
    with_errors(&rt, &rt, &["script", "a.map"], 0)?;
    with_errors(&rt, &rt, &["script", "b.map"], 1)?;
    with_errors(&rt, &rt, &["run"], 2)?;
    Ok(())
}

#[test]
fn help_of_the_program(rt: HostRuntime) -> Result<(), Fail> {
    shows(
        &rt,
        &rt,
        &["--help"],
        0,
        "A map feature server for land agencies",
        &[
            "\n  landmap script day.map\n",
            "\n  landmap script --config agency.json day.map\n",
            "\n  landmap serve --socket map.sock\n",
            "\n  landmap connect --socket map.sock\n",
            "\n`landmap script --help` has the lines of a script, and the codes by which a run\nends; `landmap serve --help` has the options of a server, and its codes;\n`landmap connect --help` tells how to talk to a server. `landmap check` looks at\na configuration alone;",
            "\nExit status:\n  0  ",
            "\n  1  a file cannot be read, the configuration is faulty, the socket cannot be\n     bound or connected, or the run or the talk broke off; one line on standard\n     error says which\n",
            "\n  2  the command line is wrong",
        ],
    )?;
    Ok(())
}

#[test]
fn help_of_scripts(rt: HostRuntime) -> Result<(), Fail> {
    shows(
        &rt,
        &rt,
        &["script", "--help"],
        0,
        "Runs the session lines of a file, and writes the replies",
        &[
            "\n  HELLO name, SEARCH shape, ADD id class shape, RESHAPE id version shape,\n",
            "\ndocs/SESSIONS.md tells what each reply and each `error CODE` means.\n",
            "\n    n: SEARCH POINT (3 4)\n",
            "\n    n: 1 1 north mast POINT (3 4)\n",
            "\n  `landmap script --config agency.json first.map` writes the same",
            "\n  0  all lines are answered, even where a reply is `error`\n",
            "\n       N1        it has no subject\n",
            "\n       V4        there was no memory",
            "\n  2  the command line is wrong",
        ],
    )?;
    shows(
        &rt,
        &rt,
        &["script", "-h"],
        0,
        "Runs the session lines of a file, and writes the replies\n\nUsage: landmap script [OPTIONS] <FILE>\n",
        &["--config <FILE>"],
    )?;
    Ok(())
}

#[test]
fn wrong_command_lines(rt: HostRuntime) -> Result<(), Fail> {
    let cases: [(&[&str], &str); 4] = [
        (
            &[],
            "A map feature server for land agencies\n\nUsage: landmap <COMMAND>\n",
        ),
        (&["run"], "error: unrecognized subcommand 'run'\n"),
        (
            &["script"],
            "error: the following required arguments were not provided:\n  <FILE>\n",
        ),
        (
            &["script", "a.map", "b.map"],
            "error: unexpected argument 'b.map' found\n",
        ),
    ];
    for (texts, begins) in cases {
        shows(&rt, &rt, texts, 2, begins, &[])?;
    }
    Ok(())
}
