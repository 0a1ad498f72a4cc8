//! How a command line asks for a talk with a server.
use crate::running::{Text, shows, words};
use program::{Next, run_program};
use std::alloc::AllocError;
use std::process::Abort;
use std::test::Fail;

/// Checks that the words ask for a talk with the server at `m.sock`, write nothing, and open no
/// file.
fn asks(rt: &impl Abort, host: &HostRuntime, texts: &[&str]) -> Result<(), AllocError> {
    let alloc = host.alloc();
    let folder = Text {
        host,
        bytes: b"",
        fails_at: 1,
    };
    let words = words(alloc, texts)?;
    let mut output = Vec::new(alloc);
    let mut errors = Vec::new(alloc);
    let next = run_program(alloc, words.as_slice(), &folder, &mut output, &mut errors);
    let Next::Connect(path) = &next else {
        panic!(rt; "no talk is asked for")
    };
    assert_eq!(rt; *path, "m.sock");
    assert_eq!(rt; output.len(), 0);
    assert_eq!(rt; errors.len(), 0);
    Ok(())
}

#[test]
fn a_talk_is_asked_for(rt: HostRuntime) -> Result<(), Fail> {
    asks(&rt, &rt, &["connect", "--socket", "m.sock"])?;
    asks(&rt, &rt, &["connect", "--socket=m.sock"])?;
    Ok(())
}

#[test]
fn wrong_words(rt: HostRuntime) -> Result<(), Fail> {
    let cases: [(&[&str], &str); 5] = [
        (
            &["connect"],
            "error: the following required arguments were not provided:\n  --socket <PATH>\n",
        ),
        (
            &["connect", "--socket"],
            "error: a value is required for '--socket <PATH>' but none was supplied\n",
        ),
        (
            &["connect", "--socket", "m.sock", "lines.txt"],
            "error: unexpected argument 'lines.txt' found\n",
        ),
        (
            &["connect", "--socket", "m.sock", "--socket", "n.sock"],
            "error: the argument '--socket <PATH>' cannot be used multiple times\n",
        ),
        (
            &["connect", "--connections", "7", "--socket", "m.sock"],
            "error: unexpected argument '--connections' found\n",
        ),
    ];
    for (texts, begins) in cases {
        shows(&rt, &rt, texts, 2, begins, &[])?;
    }
    Ok(())
}

#[test]
fn help_of_talks(rt: HostRuntime) -> Result<(), Fail> {
    shows(
        &rt,
        &rt,
        &["connect", "--help"],
        0,
        "Talks to a server: lines go to it, its replies come back.\n\nConnects to the Unix socket at PATH",
        &[
            "\nUsage: landmap connect --socket <PATH>\n",
            "Where the server's Unix socket is bound\n",
            "`landmap connect --socket map.sock < lines.txt`\n",
            "\n    hello north\n    rows 0\n    bye\n",
            "\n     `landmap: the server is gone`, `landmap: cannot write`, or\n",
            "\n       V1        a read of standard input failed\n",
            "\n  2  the command line is wrong",
        ],
    )?;
    shows(
        &rt,
        &rt,
        &["connect", "-h"],
        0,
        "Talks to a server: lines go to it, its replies come back\n\nUsage: landmap connect --socket <PATH>\n",
        &["--socket <PATH>"],
    )?;
    Ok(())
}
