//! How a command line asks for a server: its options, its configuration, and which fault is
//! reported first.
use crate::running::{BY_INES, Two, check, shows, words};
use command_line::{HttpWord, ServerOptions};
use program::{Next, run_program};
use std::alloc::{AllocError, Global};
use std::net::{IpAddr, Ipv4Addr, Ipv6Addr, SocketAddr};
use std::process::Abort;
use std::test::Fail;

/// The options that `serve --socket m.sock --connections 7` asks for.
const PLAIN: ServerOptions<'static> = ServerOptions {
    socket: "m.sock",
    connections: Some(7),
    workers: 4,
    idle_seconds: None,
    takeover: false,
    until_stdin_ends: false,
};

/// Lines that clap rejects, each with the beginning of its message.
const TURNED_DOWN: [(&str, &str); 29] = [
    (
        "serve",
        "error: the following required arguments were not provided:\n  --socket <PATH>\n",
    ),
    (
        "serve --connections 7",
        "error: the following required arguments were not provided:\n  --socket <PATH>\n",
    ),
    (
        "serve --socket m.sock --connections 0",
        "error: invalid value '0' for '--connections <N>': 0 is not in 1..=1024\n",
    ),
    (
        "serve --socket m.sock --connections 1025",
        "error: invalid value '1025' for '--connections <N>': 1025 is not in 1..=1024\n",
    ),
    (
        "serve --socket m.sock --connections x",
        "error: invalid value 'x' for '--connections <N>': invalid digit found in string\n",
    ),
    (
        "serve --socket m.sock --connections 7 --workers 0",
        "error: invalid value '0' for '--workers <N>': 0 is not in 1..=1024\n",
    ),
    (
        "serve --socket m.sock --connections 7 --workers 1025",
        "error: invalid value '1025' for '--workers <N>': 1025 is not in 1..=1024\n",
    ),
    (
        "serve --socket m.sock --connections 7 --idle 0",
        "error: invalid value '0' for '--idle <SECONDS>': 0 is not in 1..=86400\n",
    ),
    (
        "serve --socket m.sock --connections 7 --idle 86401",
        "error: invalid value '86401' for '--idle <SECONDS>': 86401 is not in 1..=86400\n",
    ),
    (
        "serve --socket m.sock --connections 7 --connections 8",
        "error: the argument '--connections <N>' cannot be used multiple times\n",
    ),
    (
        "serve --socket m.sock --connections 7 --takeover=yes",
        "error: unexpected value 'yes' for '--takeover' found; no more were expected\n",
    ),
    (
        "serve --socket m.sock --connections 7 day.map",
        "error: unexpected argument 'day.map' found\n",
    ),
    (
        "serve --socket m.sock --connections 7 --config",
        "error: a value is required for '--config <FILE>' but none was supplied\n",
    ),
    (
        "serve --socket m.sock --http 127.0.0.1",
        "error: invalid value '127.0.0.1' for '--http <ADDRESS:PORT>'\n  an address and a port are wanted, as 127.0.0.1:8080 or [::1]:8080\n",
    ),
    (
        "serve --socket m.sock --http localhost:8080",
        "error: invalid value 'localhost:8080' for '--http <ADDRESS:PORT>'\n  an address and a port are wanted",
    ),
    (
        "serve --socket m.sock --http 127.0.0.1:65536",
        "error: invalid value '127.0.0.1:65536' for '--http <ADDRESS:PORT>'\n  an address and a port are wanted",
    ),
    (
        "serve --socket m.sock --http ::1:8080",
        "error: invalid value '::1:8080' for '--http <ADDRESS:PORT>'\n  an address and a port are wanted",
    ),
    (
        "serve --socket m.sock --http 10.0.0.1:8080",
        "error: invalid value '10.0.0.1:8080' for '--http <ADDRESS:PORT>'\n  HTTP is answered on this machine alone; put a proxy in front (docs/HTTP.md)\n\nFor more information, try '--help'.\n",
    ),
    (
        "serve --socket m.sock --http 0.0.0.0:8080",
        "error: invalid value '0.0.0.0:8080' for '--http <ADDRESS:PORT>'\n  HTTP is answered on this machine alone",
    ),
    (
        "serve --socket m.sock --http [::]:8080",
        "error: invalid value '[::]:8080' for '--http <ADDRESS:PORT>'\n  HTTP is answered on this machine alone",
    ),
    (
        "serve --socket m.sock --http [::1]:80 --http-socket h.sock",
        "error: the argument '--http <ADDRESS:PORT>' cannot be used with:\n  --http-socket <PATH>\n\nFor more information, try '--help'.\n",
    ),
    (
        "serve --socket m.sock --http x --http-socket h.sock",
        "error: the argument '--http <ADDRESS:PORT>' cannot be used with:\n  --http-socket <PATH>\n",
    ),
    (
        "serve --socket m.sock --http [::1]:80 --connections 7",
        "error: the argument '--connections <N>' cannot be used with:\n  --http <ADDRESS:PORT>\n  --http-socket <PATH>\n\nFor more information, try '--help'.\n",
    ),
    (
        "serve --socket m.sock --connections 7 --http-socket h.sock",
        "error: the argument '--connections <N>' cannot be used with:\n  --http <ADDRESS:PORT>\n  --http-socket <PATH>\n",
    ),
    (
        "serve --socket m.sock --http-socket h.sock --http-workers 0",
        "error: invalid value '0' for '--http-workers <N>': 0 is not in 1..=1024\n",
    ),
    (
        "serve --socket m.sock --http-workers 1025",
        "error: invalid value '1025' for '--http-workers <N>': 1025 is not in 1..=1024\n",
    ),
    (
        "serve --socket m.sock --features 0",
        "error: invalid value '0' for '--features <N>': 0 is not in 1..=4000000\n",
    ),
    (
        "script --features 0 day.map",
        "error: invalid value '0' for '--features <N>': 0 is not in 1..=4000000\n",
    ),
    (
        "script --socket m.sock day.map",
        "error: unexpected argument '--socket' found\n",
    ),
];

/// The words of a line, separated by single spaces.
fn parted<'a>(alloc: Global, line: &'a str) -> Result<Vec<&'a str>, AllocError> {
    line.split(' ').collect(alloc)
}

/// Checks that the words ask for a server with these options and a configuration of this many
/// subjects, and that nothing is written.
fn asks(
    rt: &impl Abort,
    host: &HostRuntime,
    texts: &[&str],
    options: &ServerOptions<'_>,
    subjects: usize,
) -> Result<(), AllocError> {
    let alloc = host.alloc();
    let folder = Two {
        host,
        config: BY_INES.as_bytes(),
        script: b"",
        fails_at: 0,
    };
    let words = words(alloc, texts)?;
    let mut output = Vec::new(alloc);
    let mut errors = Vec::new(alloc);
    let next = run_program(alloc, words.as_slice(), &folder, &mut output, &mut errors);
    let Next::Serve(server) = &next else {
        panic!(rt; "no server is asked for")
    };
    is_same(rt, &server.options, options);
    assert_eq!(rt; server.config.subjects.as_slice().len(), subjects);
    assert_eq!(rt; output.len(), 0);
    assert_eq!(rt; errors.len(), 0);
    Ok(())
}

/// Checks all options.
fn is_same(rt: &impl Abort, options: &ServerOptions<'_>, expected: &ServerOptions<'_>) {
    assert_eq!(rt; options.socket, expected.socket);
    assert_eq!(rt; options.connections, expected.connections);
    assert_eq!(rt; options.workers, expected.workers);
    assert_eq!(rt; options.idle_seconds, expected.idle_seconds);
    assert_eq!(rt; options.takeover, expected.takeover);
    assert_eq!(rt; options.until_stdin_ends, expected.until_stdin_ends);
}

/// Checks the options asked for by `serve --socket m.sock`, followed by this line.
fn gives(
    rt: &impl Abort,
    host: &HostRuntime,
    line: &str,
    options: &ServerOptions<'_>,
) -> Result<(), AllocError> {
    let line = format!(in host.alloc(); "serve --socket m.sock {line}")?;
    let texts = parted(host.alloc(), line.as_str())?;
    asks(rt, host, texts.as_slice(), options, 3)
}

#[test]
fn the_ends_of_numbers(rt: HostRuntime) -> Result<(), Fail> {
    let numbers: [(&str, Option<u16>, u16, Option<u32>); 8] = [
        ("--connections 7", Some(7), 4, None),
        ("--connections 1", Some(1), 4, None),
        ("--connections=1024", Some(1024), 4, None),
        ("--workers 1", None, 1, None),
        ("--connections 7 --workers 1", Some(7), 1, None),
        ("--workers=1024 --connections 7", Some(7), 1024, None),
        ("--connections 7 --idle 1", Some(7), 4, Some(1)),
        ("--idle=86400 --connections +7", Some(7), 4, Some(86_400)),
    ];
    for (line, connections, workers, idle_seconds) in numbers {
        let options = ServerOptions {
            connections,
            workers,
            idle_seconds,
            ..PLAIN
        };
        gives(&rt, &rt, line, &options)?;
    }
    Ok(())
}

#[test]
fn flags(rt: HostRuntime) -> Result<(), Fail> {
    let flags: [(&str, bool, bool); 3] = [
        ("--connections 7 --takeover", true, false),
        ("--until-stdin-ends --connections 7", false, true),
        ("--until-stdin-ends --takeover --connections 7", true, true),
    ];
    for (line, takeover, until_stdin_ends) in flags {
        let options = ServerOptions {
            takeover,
            until_stdin_ends,
            ..PLAIN
        };
        gives(&rt, &rt, line, &options)?;
    }
    Ok(())
}

#[test]
fn no_end(rt: HostRuntime) -> Result<(), Fail> {
    let options = ServerOptions {
        connections: None,
        ..PLAIN
    };
    asks(&rt, &rt, &["serve", "--socket", "m.sock"], &options, 3)?;
    Ok(())
}

/// What a server is asked for of HTTP, and of the number of features.
type Further<'a> = (Option<HttpWord<'a>>, Option<u16>, u32);

/// Checks what `serve --socket m.sock`, followed by this line, asks for of HTTP and of features.
fn asks_further(
    rt: &impl Abort,
    host: &HostRuntime,
    line: &str,
    further: Further<'_>,
) -> Result<(), AllocError> {
    let alloc = host.alloc();
    let folder = Two {
        host,
        config: BY_INES.as_bytes(),
        script: b"",
        fails_at: 0,
    };
    let line = format!(in alloc; "serve --socket m.sock{line}")?;
    let texts = parted(alloc, line.as_str())?;
    let words = words(alloc, texts.as_slice())?;
    let mut output = Vec::new(alloc);
    let mut errors = Vec::new(alloc);
    let next = run_program(alloc, words.as_slice(), &folder, &mut output, &mut errors);
    let Next::Serve(server) = &next else {
        panic!(rt; "no server is asked for: {line}")
    };
    assert_eq!(rt; server.http, further.0, "{line}");
    assert_eq!(rt; server.http_workers, further.1, "{line}");
    assert_eq!(rt; server.features.number, further.2, "{line}");
    assert_eq!(rt; (output.len(), errors.len()), (0, 0), "{line}");
    Ok(())
}

#[test]
fn http_and_features(rt: HostRuntime) -> Result<(), Fail> {
    let here = SocketAddr::new(IpAddr::V4(Ipv4Addr::new(127, 0, 0, 1)), 8080);
    let far = SocketAddr::new(IpAddr::V4(Ipv4Addr::new(127, 255, 0, 9)), 65_535);
    let six = SocketAddr::new(IpAddr::V6(Ipv6Addr::new(0, 0, 0, 0, 0, 0, 0, 1)), 80);
    let socket = HttpWord::Socket("h.sock");
    let lines: [(&str, Further<'_>); 8] = [
        ("", (None, None, 100_000)),
        (" --http-workers 1", (None, Some(1), 100_000)),
        (
            " --http 127.0.0.1:8080",
            (Some(HttpWord::Address(here)), None, 100_000),
        ),
        (
            " --http=127.255.0.9:65535",
            (Some(HttpWord::Address(far)), None, 100_000),
        ),
        (
            " --http [::1]:80 --http-workers=1024",
            (Some(HttpWord::Address(six)), Some(1_024), 100_000),
        ),
        (" --http-socket h.sock", (Some(socket), None, 100_000)),
        (" --features 1 --connections 1", (None, None, 1)),
        (
            " --http-socket=h.sock --features=4000000 --until-stdin-ends",
            (Some(socket), None, 4_000_000),
        ),
    ];
    for (line, further) in lines {
        asks_further(&rt, &rt, line, further)?;
    }
    Ok(())
}

#[test]
fn a_configuration_of_its_own(rt: HostRuntime) -> Result<(), Fail> {
    let line = "serve --config a.json --socket m.sock --connections 7";
    let texts = parted(rt.alloc(), line)?;
    asks(&rt, &rt, texts.as_slice(), &PLAIN, 1)?;
    Ok(())
}

/// Checks that this line is rejected with status 2 and a message with this beginning.
fn turns_down(
    rt: &impl Abort,
    host: &HostRuntime,
    line: &str,
    begins: &str,
) -> Result<(), AllocError> {
    let texts = parted(host.alloc(), line)?;
    shows(rt, host, texts.as_slice(), 2, begins, &[])
}

#[test]
fn wrong_words(rt: HostRuntime) -> Result<(), Fail> {
    for (line, begins) in TURNED_DOWN {
        turns_down(&rt, &rt, line, begins)?;
    }
    Ok(())
}

/// Checks the exit status and the output of this line, over a folder with this configuration.
fn ends_with(
    rt: &impl Abort,
    host: &HostRuntime,
    config: &str,
    line: &str,
    told: &str,
) -> Result<(), AllocError> {
    let folder = Two {
        host,
        config: config.as_bytes(),
        script: b"",
        fails_at: 0,
    };
    let texts = parted(host.alloc(), line)?;
    check(rt, host.alloc(), texts.as_slice(), &folder, 1, ("", told))
}

/// A faulty configuration is reported before the socket is bound; a wrong command line is reported
/// before it.
#[test]
fn the_first_fault(rt: HostRuntime) -> Result<(), Fail> {
    let cases = [
        (
            "{",
            "serve --socket m.sock --connections 7 --config a.json",
            "landmap: B1\n",
        ),
        (
            "{}",
            "serve --socket m.sock --connections 7 --config a.json",
            "landmap: B2\n",
        ),
        (
            "{}",
            "serve --socket m.sock --connections 7 --config b.json",
            "landmap: cannot read b.json\n",
        ),
    ];
    for (config, line, told) in cases {
        ends_with(&rt, &rt, config, line, told)?;
    }
    turns_down(
        &rt,
        &rt,
        "serve --config b.json --connections 7",
        "error: the following required arguments were not provided:\n  --socket <PATH>\n",
    )?;
    Ok(())
}

#[test]
fn help_of_servers(rt: HostRuntime) -> Result<(), Fail> {
    shows(
        &rt,
        &rt,
        &["serve", "--help"],
        0,
        "Serves sessions over a Unix socket.\n\nThe socket is bound at PATH, and `listening PATH` is printed.",
        &[
            "\nprinted, R being the number of records in the audit trail. Without --store\nnothing is stored: ",
            "\nUsage: landmap serve [OPTIONS] --socket <PATH>\n",
            "Ends after so many connections, 1 to 1024\n",
            "How many clients at a time, 1 to 1024 [default: 4]\n",
            "How long a client may be idle, 1 to 86400\n",
            "Takes over a socket that nobody listens on\n",
            "Accepts nobody once standard input ends\n",
            "\n      --http <ADDRESS:PORT>\n          Also answers HTTP at this address of the machine\n",
            "Also answers HTTP on this socket, for a proxy\n",
            "How many of HTTP at a time, 1 to 1023 [default: 8]\n",
            "The most features, 1 to 4000000 [default: 100000]\n",
            "docs/HTTP.md tells what is answered",
            "\n  `landmap serve --socket map.sock` writes\n\n    listening map.sock\n",
            "\n  landmap serve --socket map.sock --connections 100\n    serves a hundred sessions, and ends\n",
            "\n     `landmap: cannot bind PATH`, `landmap: cannot start a worker`,\n",
            "\n     `landmap: cannot write`, `error: ..` where HTTP cannot begin as it is\n",
            "\n     wanted, or `landmap: CODE`, where CODE is\n",
            "\n       C2        a session did not give back its seat\n",
            "\n  2  the command line is wrong",
        ],
    )?;
    shows(
        &rt,
        &rt,
        &["serve", "-h"],
        0,
        "Serves sessions over a Unix socket\n\nUsage: landmap serve [OPTIONS] --socket <PATH>\n",
        &["--idle <SECONDS>", "--until-stdin-ends"],
    )?;
    Ok(())
}
