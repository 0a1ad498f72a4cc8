//! How a command line asks for a secret, and what is printed of one.
use crate::running::{Text, check, words};
use failing_streams::{FailingWriter, Failure};
use features::Name;
use program::{Next, run_program};
use refusing::Refusing;
use secrets::{SecretFault, print_secret};
use std::alloc::{AllocError, Global};
use std::process::Abort;
use std::test::Fail;

/// Checks that the words ask for a secret for this name, write nothing, and open no file.
fn asks(
    rt: &impl Abort,
    host: &HostRuntime,
    texts: &[&str],
    name: &[u8],
) -> Result<(), AllocError> {
    let alloc = host.alloc();
    let folder = Text {
        host,
        bytes: b"",
        fails_at: 1,
    };
    let words = words(alloc, texts)?;
    let mut output = Vec::new(alloc);
    let mut errors = Vec::new(alloc);
    let next = run_program(alloc, words.as_slice(), &folder, &mut output, &mut errors);
    let Next::Secret(subject) = &next else {
        panic!(rt; "no secret is asked for")
    };
    assert_eq!(rt; subject.as_bytes(), name);
    assert_eq!(rt; output.len(), 0);
    assert_eq!(rt; errors.len(), 0);
    Ok(())
}

#[test]
fn a_secret_is_asked_for(rt: HostRuntime) -> Result<(), Fail> {
    asks(&rt, &rt, &["secret", "ines"], b"ines")?;
    asks(&rt, &rt, &["secret", "--", "-a"], b"-a")?;
    let most = "abcdefghijklmnopqrstuvwxyz-01234";
    asks(&rt, &rt, &["secret", most], most.as_bytes())?;
    Ok(())
}

/// What is told of a name that is none.
fn no_name(alloc: Global, text: &str) -> Result<String, AllocError> {
    format!(in alloc;
        "error: invalid value '{text}' for '<NAME>'\n  a name is wanted: 1 to 32 of a-z, 0-9 and -\n\nFor more information, try '--help'.\n"
    )
}

#[test]
fn no_names(rt: HostRuntime) -> Result<(), Fail> {
    let alloc = rt.alloc();
    let folder = Text {
        host: &rt,
        bytes: b"",
        fails_at: 1,
    };
    for text in [
        "",
        "Ines",
        "ines ",
        "a_b",
        "abcdefghijklmnopqrstuvwxyz-012345",
    ] {
        let told = no_name(alloc, text)?;
        check(
            &rt,
            alloc,
            &["secret", text],
            &folder,
            2,
            ("", told.as_str()),
        )?;
    }
    Ok(())
}

/// The secret of 32 bytes, each greater by one than the one before, and its entry; then that of 32
/// bytes of 255. The texts are those of Python's base64 and hashlib.
const SECRETS: [(u8, u8, &str); 2] = [
    (
        0,
        1,
        "AAECAwQFBgcICQoLDA0ODxAREhMUFRYXGBkaGxwdHh8\n{\"subject\": \"ines\", \"sha256\": \"ea866a757e4c38babfa8127cbe9a409d3e1f93a00ff1488ff735fcf917afffd0\"}\n",
    ),
    (
        255,
        0,
        "__________________________________________8\n{\"subject\": \"ines\", \"sha256\": \"225f7e75329dd45aa354975d73987319309393af3a4c6733bc13601a4f1b8796\"}\n",
    ),
];

/// Thirty-two bytes that begin with this one, each greater by so much than the one before.
fn bytes_of(first: u8, step: u8) -> [u8; 32] {
    let mut bytes = [first; 32];
    for index in 1..32 {
        bytes[index] = bytes[index - 1].wrapping_add(step);
    }
    bytes
}

#[test]
fn secrets_are_printed(rt: HostRuntime) -> Result<(), Fail> {
    let Some(ines) = Name::new(b"ines") else {
        panic!(rt; "no name")
    };
    for (first, step, lines) in SECRETS {
        let mut output = Vec::new(rt.alloc());
        let printed = print_secret(rt.alloc(), ines, &bytes_of(first, step), &mut output);
        assert!(rt; printed.is_ok());
        assert_eq!(rt; output.as_slice(), lines.as_bytes());
    }
    Ok(())
}

/// Where memory is refused, nothing is written.
#[test]
fn each_allocation_of_a_secret(rt: HostRuntime) {
    let Some(ines) = Name::new(b"ines") else {
        panic!(rt; "no name")
    };
    let memory = Refusing::new(rt.alloc(), 0);
    let mut refused = 0;
    for at in 1..20 {
        memory.refuse(at);
        let mut output = Vec::new(rt.alloc());
        let printed = print_secret(&memory, ines, &bytes_of(0, 1), &mut output);
        if !memory.has_refused() {
            assert!(rt; printed.is_ok());
            break;
        }
        refused = at;
        assert!(rt; matches!(printed, Err(SecretFault::Memory(_))), "{at}");
        assert_eq!(rt; output.len(), 0);
    }
    assert!(rt; refused > 0 && refused < 19, "{refused}");
}

/// A write that fails, and a flush.
#[test]
fn no_secret_is_written(rt: HostRuntime) {
    let Some(ines) = Name::new(b"ines") else {
        panic!(rt; "no name")
    };
    for (most, fails_at, with) in [
        (100, 1, Failure::Error),
        (10, 3, Failure::Nothing),
        (1_000, 0, Failure::Flush),
    ] {
        let mut output = FailingWriter {
            taken: Vec::new(rt.alloc()),
            most,
            fails_at,
            with,
        };
        let printed = print_secret(rt.alloc(), ines, &bytes_of(0, 1), &mut output);
        assert!(rt; matches!(printed, Err(SecretFault::Write(_))), "{most}");
    }
}
