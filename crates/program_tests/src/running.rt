//! How the tests run the program: command lines, folders, and checks of the result.
use byte_streams::{NotOpened, open_file};
use failing_streams::FailingReader;
use program::{Folder, Next, run_program};
use std::alloc::{AllocError, Global};
use std::process::Abort;

/// The worked script of a point that is added and found again.
pub(crate) const FIRST_POINT: &str =
    "n: HELLO north\nn: ADD 1 mast POINT (3 4)\nn: COMMIT\nn: SEARCH point(3 4)\nn: SEARCH POINT (3 5)\n";

/// A configuration of one subject, whose policies permit nothing.
pub(crate) const BY_INES: &str =
    r#"{"subjects":[{"name":"ines","office":"north","role":"editor"}],"policies":{"root":{"combine":"first-applicable","policy":"start","rules":[]}}}"#;

/// The built-in configuration.
pub(crate) const AS_BUILT_IN: &str =
    r#"{"subjects":[{"name":"north","office":"north","role":"editor"},{"name":"south","office":"south","role":"viewer"},{"name":"chief","office":"hq","role":"chief","steward":true}],"policies":{"root":{"combine":"first-applicable","policy":"start","rules":[{"effect":"permit","rule":"open"}]}}}"#;

/// The host's error for a file that does not exist.
fn absent<'a>(host: &HostRuntime) -> Result<FailingReader<'a>, NotOpened> {
    open_file(host, "no/such/file")?;
    Ok(FailingReader {
        bytes: b"",
        fails_at: 0,
    })
}

/// A folder with one file, `a.map`, of these bytes. Its reads fail as those of `FailingReader`.
#[derive(Drop)]
pub(crate) struct Text<'a> {
    pub(crate) host: &'a HostRuntime,
    pub(crate) bytes: &'a [u8],
    pub(crate) fails_at: u64,
}

impl<'a> Folder for Text<'a> {
    ghost use Rattle.std.specs.Prelude.{None};

    type File = FailingReader<'a>;

    ghost holds = { λ folder name. None };

    ghost closed = { λ folder name. Unit {0} };

    fn open_file(&self, name: &str) -> Result<FailingReader<'a>, NotOpened> {
        if name != "a.map" {
            return absent(self.host);
        }
        Ok(FailingReader {
            bytes: self.bytes,
            fails_at: self.fails_at,
        })
    }
}

/// A folder with two files, `a.json` and `a.map`. One read of `a.map` fails, counted from 1; 0 for
/// none.
#[derive(Drop)]
pub(crate) struct Two<'a> {
    pub(crate) host: &'a HostRuntime,
    pub(crate) config: &'a [u8],
    pub(crate) script: &'a [u8],
    pub(crate) fails_at: u64,
}

impl<'a> Folder for Two<'a> {
    ghost use Rattle.std.specs.Prelude.{None};

    type File = FailingReader<'a>;

    ghost holds = { λ folder name. None };

    ghost closed = { λ folder name. Unit {0} };

    fn open_file(&self, name: &str) -> Result<FailingReader<'a>, NotOpened> {
        let (bytes, fails_at) = match name {
            "a.json" => (self.config, 0),
            "a.map" | "-" => (self.script, self.fails_at),
            _ => return absent(self.host),
        };
        Ok(FailingReader { bytes, fails_at })
    }
}

/// The words of a command line, after the program's name.
pub(crate) fn words(alloc: Global, texts: &[&str]) -> Result<Vec<String>, AllocError> {
    let mut words = Vec::new(alloc);
    words.push(String::from_str(alloc, "landmap")?)?;
    for text in texts {
        words.push(String::from_str(alloc, text)?)?;
    }
    Ok(words)
}

/// The exit status of a run that has ended.
pub(crate) fn status_of(rt: &impl Abort, next: &Next<'_>) -> u8 {
    match next {
        Next::Exit(ended) => ended.status(),
        Next::Serve(_) => panic!(rt; "a server is asked for"),
        Next::Connect(_) => panic!(rt; "a talk is asked for"),
        Next::Keep(_) => panic!(rt; "a script over a store is asked for"),
        Next::Look(_) => panic!(rt; "a look at a store is asked for"),
        Next::Secret(_) => panic!(rt; "a secret is asked for"),
        Next::Transfer(_) => panic!(rt; "an export or an import is asked for"),
    }
}

/// Checks the exit status and the text on both writers of a run with these words over this folder.
pub(crate) fn check<F: Folder>(
    rt: &impl Abort,
    alloc: Global,
    texts: &[&str],
    folder: &F,
    status: u8,
    written: (&str, &str),
) -> Result<(), AllocError> {
    let words = words(alloc, texts)?;
    let mut output = Vec::new(alloc);
    let mut errors = Vec::new(alloc);
    let next = run_program(alloc, words.as_slice(), folder, &mut output, &mut errors);
    assert_eq!(rt; status_of(rt, &next), status);
    assert_eq!(rt; output.as_slice(), written.0.as_bytes());
    assert_eq!(rt; errors.as_slice(), written.1.as_bytes());
    Ok(())
}

/// Checks that clap's text is shown, on the output if the status is 0 and otherwise on standard
/// error, with this beginning and these parts.
pub(crate) fn shows(
    rt: &impl Abort,
    host: &HostRuntime,
    texts: &[&str],
    status: u8,
    begins: &str,
    parts: &[&str],
) -> Result<(), AllocError> {
    let alloc = host.alloc();
    let folder = Text {
        host,
        bytes: FIRST_POINT.as_bytes(),
        fails_at: 0,
    };
    let words = words(alloc, texts)?;
    let mut output = Vec::new(alloc);
    let mut errors = Vec::new(alloc);
    let next = run_program(alloc, words.as_slice(), &folder, &mut output, &mut errors);
    assert_eq!(rt; status_of(rt, &next), status);
    let (shown, other) = if status == 0 {
        (&output, &errors)
    } else {
        (&errors, &output)
    };
    assert!(rt; shown.starts_with(begins.as_bytes()), "{begins}");
    assert_eq!(rt; other.len(), 0);
    has_parts(rt, shown.as_slice(), parts);
    Ok(())
}

/// Checks that a text has each of these parts, and no line longer than 80 columns.
fn has_parts(rt: &impl Abort, text: &[u8], parts: &[&str]) {
    let read = str::from_utf8(text);
    assert!(rt; read.is_ok());
    let text = read.unwrap();
    for part in parts {
        assert!(rt; text.contains(*part), "{part}");
    }
    for line in text.lines() {
        assert!(rt; line.len() <= 80, "{line}");
    }
}
