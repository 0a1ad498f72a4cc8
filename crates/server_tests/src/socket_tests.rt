//! A Unix socket, served.
use crate::clients::{connected, told};
use crate::servers::serving;
use hall::Closed;
use server::{Connections, ServerFault, SocketOptions, Stop, serve_socket};
use std::alloc::Global;
use std::fs::Files;
use std::io::Read;
use std::net::Net;
use std::os::unix::net::UnixListener;
use std::process::Abort;
use std::test::Fail;
use std::{fs, thread};

/// One connection, without an idle limit.
fn one() -> SocketOptions<'static> {
    SocketOptions {
        connections: Connections::UpTo(1),
        idle: None,
        takeover: false,
        stop: None,
        keys: &[],
        web: None,
    }
}

/// Checks that the path is free again.
fn check_removed<R: Files + Abort>(rt: &R, path: &str) {
    assert!(rt;
        fs::symlink_metadata(rt, path).is_err(),
        "{path} is removed"
    );
}

#[test]
fn a_first_point(rt: HostRuntime) -> Result<(), Fail> {
    let heap: Global = rt.alloc();
    let path = "server_first_point.sock";
    let _ = fs::remove_file(&rt, path);
    let serving = serving(&rt, heap);
    let lines =
        "HELLO north\nADD 1 mast POINT (3 4)\nCOMMIT\nSEARCH point(3 4)\nSEARCH POINT (3 5)\nBYE\n";
    let (served, told) = thread::join(
        &rt,
        || serve_socket(&rt, rt, heap, path, serving, one()),
        || told(&rt, heap, path, lines.as_bytes()),
    );
    assert_eq!(rt;
        served,
        Ok(Closed {
            records: 3,
            seats: 1
        })
    );
    let expected =
        "hello north\nstaged\napplied 1\nrows 1\n1 1 north mast POINT (3 4)\nrows 0\nbye\n";
    assert_eq!(rt; told.ok_or("told")?.as_str(), expected);
    check_removed(&rt, path);
    Ok(())
}

/// Everything is permitted for roads; for anything else no rule applies.
const ROADS: &str =
    r#"{"root":{"combine":"first-applicable","policy":"p","rules":[{"effect":"permit","rule":"roads","target":[[[{"class":"road"}]]]}]}}"#;

#[test]
fn policy_then_explain(rt: HostRuntime) -> Result<(), Fail> {
    let heap: Global = rt.alloc();
    let path = "server_explain.sock";
    let _ = fs::remove_file(&rt, path);
    let serving = serving(&rt, heap);
    let lines = format!(in heap;
        "HELLO chief\nPOLICY {ROADS}\nEXPLAIN add north parcel POINT (2 2)\nBYE\n"
    )?;
    let (served, told) = thread::join(
        &rt,
        || serve_socket(&rt, rt, heap, path, serving, one()),
        || told(&rt, heap, path, lines.as_bytes()),
    );
    assert_eq!(rt;
        served,
        Ok(Closed {
            records: 1,
            seats: 1
        })
    );
    assert_eq!(rt;
        told.ok_or("told")?.as_str(),
        "hello chief\nedition 2\ndenied none edition 2\nbye\n"
    );
    check_removed(&rt, path);
    Ok(())
}

#[test]
fn a_path_that_is_taken(rt: HostRuntime) -> Result<(), Fail> {
    let heap: Global = rt.alloc();
    let path = "server_taken.sock";
    let _ = fs::remove_file(&rt, path);
    let listener = UnixListener::bind(&rt, path)?;
    let takes_over = SocketOptions {
        connections: Connections::UpTo(1),
        idle: None,
        takeover: true,
        stop: None,
        keys: &[],
        web: None,
    };
    assert_eq!(rt;
        serve_socket(&rt, rt, heap, path, serving(&rt, heap), one()),
        Err(ServerFault::Bind)
    );
    // Somebody listens there.
    assert_eq!(rt;
        serve_socket(&rt, rt, heap, path, serving(&rt, heap), takes_over),
        Err(ServerFault::Bind)
    );
    drop(listener);
    // Nobody listens any more, but the file still exists.
    assert_eq!(rt;
        serve_socket(&rt, rt, heap, path, serving(&rt, heap), one()),
        Err(ServerFault::Bind)
    );
    fs::remove_file(&rt, path)?;
    Ok(())
}

#[test]
fn a_socket_is_taken_over(rt: HostRuntime) -> Result<(), Fail> {
    let heap: Global = rt.alloc();
    let path = "server_left_behind.sock";
    let _ = fs::remove_file(&rt, path);
    drop(UnixListener::bind(&rt, path)?);
    // Nobody is served, because the server is told so.
    let stop = Stop::new();
    stop.ask();
    let options = SocketOptions {
        connections: Connections::UpTo(9),
        idle: None,
        takeover: true,
        stop: Some(&stop),
        keys: &[],
        web: None,
    };
    assert_eq!(rt;
        serve_socket(&rt, rt, heap, path, serving(&rt, heap), options),
        Ok(Closed {
            records: 0,
            seats: 0
        })
    );
    check_removed(&rt, path);
    Ok(())
}

#[test]
fn a_file_is_not_taken_over(rt: HostRuntime) -> Result<(), Fail> {
    let heap: Global = rt.alloc();
    let path = "server_plain_file";
    fs::write(&rt, path, b"kept")?;
    let options = SocketOptions {
        connections: Connections::UpTo(1),
        idle: None,
        takeover: true,
        stop: None,
        keys: &[],
        web: None,
    };
    assert_eq!(rt;
        serve_socket(&rt, rt, heap, path, serving(&rt, heap), options),
        Err(ServerFault::Bind)
    );
    fs::remove_file(&rt, path)?;
    Ok(())
}

/// Connects and sends nothing until the server ends the connection. Returns whether it did.
fn is_left<R: Net>(rt: &R, path: &str) -> bool {
    let Some(mut stream) = connected(rt, path) else {
        return false;
    };
    let mut chunk = [0; 16];
    matches!(stream.read(&mut chunk), Ok(0))
}

#[test]
fn a_silent_client_is_left(rt: HostRuntime) -> Result<(), Fail> {
    let heap: Global = rt.alloc();
    let path = "server_silent.sock";
    let _ = fs::remove_file(&rt, path);
    let serving = serving(&rt, heap);
    let options = SocketOptions {
        connections: Connections::UpTo(1),
        idle: Some(1),
        takeover: false,
        stop: None,
        keys: &[],
        web: None,
    };
    let (served, left) = thread::join(
        &rt,
        || serve_socket(&rt, rt, heap, path, serving, options),
        || is_left(&rt, path),
    );
    assert_eq!(rt;
        served,
        Ok(Closed {
            records: 0,
            seats: 0
        })
    );
    assert!(rt; left, "the connection ended");
    check_removed(&rt, path);
    Ok(())
}
