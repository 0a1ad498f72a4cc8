//! Requests of HTTP, from their bytes to those of their responses, answered by a session over a
//! world.
use crate::visits_tests::{degrees, filled};
use credentials::Key;
use features::Name;
use http_counters::Counter;
use http_server::{Config, Connection, serve};
use map_calls::Pieces;
use map_metrics::Tally;
use map_pages::Site;
use map_sessions::{Host, Kept};
use scripts::Solo;
use std::alloc::Global;
use std::hash::RandomState;
use std::process::Abort;
use std::sync::{Mutex, Wait};
use std::test::Fail;
use std::time::Clock;

/// Requests, one behind the other on one connection.
const SENT: &str =
    "GET /collections/mast/items?limit=2 HTTP/1.1\r\nHost: m\r\n\r\nGET /collections/mast/items/4 HTTP/1.1\r\nHost: m\r\nIf-None-Match: \"9\", W/\"1\"\r\n\r\nHEAD / HTTP/1.1\r\nHost: m\r\n\r\nGET /map HTTP/1.1\r\nHost: m\r\n\r\nPOST / HTTP/1.1\r\nHost: m\r\nContent-Length: 2\r\n\r\nhmGET /nowhere HTTP/1.1\r\nHost: m\r\nConnection: close\r\n\r\n";

/// What stands in the responses, in this order.
const RECEIVED: [&str; 9] = [
    "HTTP/1.1 200 OK\r\ncontent-type: application/geo+json\r\n",
    "{\"type\":\"FeatureCollection\",\"numberMatched\":3,\"numberReturned\":2,",
    "HTTP/1.1 304 Not Modified\r\netag: \"1\"\r\n",
    "HTTP/1.1 200 OK\r\ncontent-type: application/json\r\n",
    "HTTP/1.1 200 OK\r\ncontent-type: text/html; charset=utf-8\r\nx-content-type-options: nosniff\r\ncontent-length: 15\r\n\r\n<!DOCTYPE html>",
    "HTTP/1.1 405 Method Not Allowed\r\ncontent-type: application/problem+json\r\nallow: GET, HEAD\r\n",
    "{\"type\":\"about:blank\",\"title\":\"Method Not Allowed\",\"status\":405,\"code\":\"method\"}",
    "HTTP/1.1 404 Not Found\r\n",
    "\"code\":\"U1\"}",
];

/// Requests for hosts, on one connection of the server of `http://maps.example/land`.
const SENT_TO_HOSTS: &str =
    "GET / HTTP/1.1\r\nHost: Maps.EXAMPLE\r\n\r\nGET / HTTP/1.1\r\nHost: localhost\r\n\r\nGET / HTTP/1.1\r\nHost: LocalHost:8080\r\n\r\nGET / HTTP/1.1\r\nHost: 127.0.0.1:\r\n\r\nGET / HTTP/1.1\r\nHost: [::1]:8080\r\n\r\nGET http://maps.example/ HTTP/1.1\r\nHost: other\r\n\r\nGET / HTTP/1.1\r\nHost: maps.example:80\r\n\r\nGET / HTTP/1.1\r\nHost: maps.exampl\r\n\r\nGET / HTTP/1.1\r\nHost: maps.example.net\r\n\r\nGET / HTTP/1.1\r\nHost: localhost.net\r\n\r\nGET / HTTP/1.1\r\nHost: 127.0.0.2\r\n\r\nGET / HTTP/1.1\r\nHost:\r\n\r\nPOST / HTTP/1.1\r\nHost: other\r\nContent-Length: 0\r\n\r\nGET http://other/ HTTP/1.1\r\nHost: maps.example\r\n\r\nGET http://localhost:1@other/ HTTP/1.1\r\nHost: maps.example\r\n\r\nGET / HTTP/1.0\r\n\r\n";

const FINE: &str = "HTTP/1.1 200 OK\r\ncontent-type: application/json\r\n";

const MISDIRECTED: &str =
    "{\"type\":\"about:blank\",\"title\":\"Misdirected Request\",\"status\":421,\"code\":\"host\"}";

/// What each of them gets: the first six are for this server.
const RECEIVED_FROM_HOSTS: [&str; 16] = [
    FINE,
    FINE,
    FINE,
    FINE,
    FINE,
    FINE,
    MISDIRECTED,
    MISDIRECTED,
    MISDIRECTED,
    MISDIRECTED,
    MISDIRECTED,
    MISDIRECTED,
    MISDIRECTED,
    MISDIRECTED,
    MISDIRECTED,
    MISDIRECTED,
];

/// How it is said at a server who asks.
#[derive(Clone, Copy)]
pub(crate) struct Door<'a> {
    pub anonymous: Option<Name>,
    pub keys: &'a [Key],
    pub trusted_field: bool,
}

/// Looks whether what a server of this address sends has these parts, in this order; a part that
/// begins a response is in the next one.
pub(crate) fn look<R: Abort + Wait + Clock>(
    rt: &R,
    heap: Global,
    state: RandomState,
    base: &[u8],
    door: &Door,
    sent: &[&str],
    received: &[&str],
) -> Result<(), Fail> {
    let watch = Watch {
        tally: &Tally::new(),
        reader: None,
    };
    look_watched(rt, heap, state, base, door, watch, sent, received)
}

/// What is counted, and who may read it.
#[derive(Clone, Copy)]
pub(crate) struct Watch<'a> {
    pub tally: &'a Tally,
    pub reader: Option<Name>,
}

/// The same, by a server that somebody may watch.
pub(crate) fn look_watched<R: Abort + Wait + Clock>(
    rt: &R,
    heap: Global,
    state: RandomState,
    base: &[u8],
    door: &Door,
    watch: Watch,
    sent: &[&str],
    received: &[&str],
) -> Result<(), Fail> {
    let mut world = filled(rt, heap);
    let classes = [Name::new(b"mast").ok_or("a name")?];
    let grid = degrees(rt);
    let site = Site {
        base,
        grid: &grid,
        classes: &classes,
        map: b"<!DOCTYPE html>",
    };
    let kept = Mutex::new(Kept::new(heap));
    let pieces = Mutex::new(Pieces::new(heap));
    let mut counter = Counter {
        rt,
        heap,
        host: Host {
            site: &site,
            anonymous: door.anonymous,
            keys: door.keys,
            trusted_field: door.trusted_field,
        },
        session: Solo::new(&mut world, heap),
        kept: &kept,
        pieces: &pieces,
        tally: watch.tally,
        reader: watch.reader,
    };
    let mut connection = Connection::new(heap, state, Config::default());
    let mut bytes = Vec::new(heap);
    for request in sent {
        bytes.extend_from_slice(request.as_bytes())?;
    }
    let mut input: &[u8] = bytes.as_slice();
    let mut output = Vec::new(heap);
    serve(&mut connection, &mut counter, &mut input, &mut output)?;
    let mut rest = str::from_utf8(output.as_slice())?;
    for part in received {
        let Some((before, behind)) = rest.split_once(*part) else {
            panic!(rt; "{part} is not in {rest}");
        };
        let is_next = !part.starts_with("HTTP/1.1") || !before.contains("HTTP/1.1");
        assert!(rt; is_next, "{part} is not next in {rest}");
        rest = behind;
    }
    Ok(())
}

#[test]
fn requests_on_one_connection(rt: HostRuntime) -> Result<(), Fail> {
    let state = RandomState::new(&rt)?;
    let door = Door {
        anonymous: Name::new(b"north"),
        keys: &[],
        trusted_field: false,
    };
    look(
        &rt,
        rt.alloc(),
        state,
        b"http://m",
        &door,
        &[SENT],
        &RECEIVED,
    )
}

#[test]
fn hosts_that_are_answered(rt: HostRuntime) -> Result<(), Fail> {
    let state = RandomState::new(&rt)?;
    let door = Door {
        anonymous: Name::new(b"north"),
        keys: &[],
        trusted_field: false,
    };
    look(
        &rt,
        rt.alloc(),
        state,
        b"http://maps.example/land",
        &door,
        &[SENT_TO_HOSTS],
        &RECEIVED_FROM_HOSTS,
    )
}
