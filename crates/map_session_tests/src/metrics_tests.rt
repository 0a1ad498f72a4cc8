//! What a server has counted, and who reads it.
use crate::http_tests::{Door, Watch, look_watched};
use features::Name;
use map_metrics::{BOUNDS, Event, Readings, STATUSES, Tally, bucket_of, metrics_text, place_of};
use std::alloc::Global;
use std::hash::RandomState;
use std::process::Abort;
use std::sync::Wait;
use std::test::Fail;
use std::time::Clock;

/// The readings of a server that has answered two requests, one of them slowly.
const READ: Readings = Readings {
    responses: [2, 0, 0, 0, 0, 0, 0, 0, 0, 0, 0, 0, 0, 0, 0, 0, 0, 0, 7],
    times: [1, 0, 0, 0, 0, 0, 0, 0, 0, 0, 0, 3, 5],
    micros: 12_500_400,
    searches: 10,
    commits: 11,
    held: 12,
    denied: 13,
    policies: 14,
    records: 15,
    memory: 16_384,
};

/// Lines of their text, in this order.
const LINES: [&str; 22] = [
    "# HELP landmap_http_requests_total ",
    "\n# TYPE landmap_http_requests_total counter\n",
    "landmap_http_requests_total{status=\"200\"} 2\n",
    "landmap_http_requests_total{status=\"201\"} 0\n",
    "landmap_http_requests_total{status=\"507\"} 7\n",
    "\n# TYPE landmap_http_request_seconds histogram\n",
    "landmap_http_request_seconds_bucket{le=\"0.0005\"} 1\n",
    "landmap_http_request_seconds_bucket{le=\"0.001\"} 1\n",
    "landmap_http_request_seconds_bucket{le=\"2.5\"} 4\n",
    "landmap_http_request_seconds_bucket{le=\"+Inf\"} 9\n",
    "landmap_http_request_seconds_sum 12500400e-6\n",
    "landmap_http_request_seconds_count 9\n",
    "\nlandmap_searches_total 10\n",
    "\nlandmap_commits_total 11\n",
    "\nlandmap_commits_held_total 12\n",
    "\nlandmap_denied_total 13\n",
    "\nlandmap_policies_total 14\n",
    "\nlandmap_records_total 15\n",
    "\n# TYPE process_resident_memory_bytes gauge\n",
    "process_resident_memory_bytes 16384\n",
    "\n# TYPE landmap_info gauge\n",
    "landmap_info{version=\"0.1.0\"} 1\n",
];

#[test]
fn the_text_of_readings(rt: HostRuntime) -> Result<(), Fail> {
    let Ok(text) = metrics_text(rt.alloc(), &READ) else {
        panic!(rt; "memory");
    };
    let mut rest = str::from_utf8(text.as_slice())?;
    for line in LINES {
        let Some((_, behind)) = rest.split_once(line) else {
            panic!(rt; "{line} is not in {rest}");
        };
        rest = behind;
    }
    assert_eq!(rt; rest, "");
    Ok(())
}

/// Each status has a place of its own, and no other number has one.
#[test]
fn places_of_statuses(rt: HostRuntime) {
    for place in 0..STATUSES.len() {
        assert_eq!(rt; place_of(STATUSES[place].number()), Some(place));
    }
    assert_eq!(rt; place_of(418), None);
}

#[test]
fn buckets_of_times(rt: HostRuntime) {
    assert_eq!(rt; bucket_of(0), 0);
    for place in 0..BOUNDS.len() {
        assert_eq!(rt; bucket_of(BOUNDS[place].micros()), place);
        assert_eq!(rt; bucket_of(BOUNDS[place].micros() + 1), place + 1);
    }
}

#[test]
fn counts_are_read(rt: HostRuntime) {
    let tally = Tally::new();
    tally.count_response(200, 400);
    tally.count_response(404, 600);
    tally.count_response(200, 9_000_000);
    tally.count_response(418, 500);
    let events = [
        Event::Searched,
        Event::Applied,
        Event::Denied,
        Event::Rejected,
        Event::Held,
        Event::Governed,
        Event::Searched,
    ];
    for event in events {
        tally.count_event(event);
    }
    assert_eq!(rt; tally.readings().memory, 0);
    tally.note_memory(8_192);
    tally.note_memory(4_096);
    let read = tally.readings();
    assert_eq!(rt; read.memory, 4_096);
    assert_eq!(rt; read.responses[0], 2);
    assert_eq!(rt; read.responses[7], 1);
    assert_eq!(rt; read.times[0], 2);
    assert_eq!(rt; read.times[1], 1);
    assert_eq!(rt; read.times[12], 1);
    assert_eq!(rt; read.micros, 9_001_500);
    assert_eq!(rt; read.searches, 2);
    assert_eq!(rt; read.commits, 1);
    assert_eq!(rt; read.held, 1);
    assert_eq!(rt; read.denied, 1);
    assert_eq!(rt; read.policies, 1);
    assert_eq!(rt; read.records, 6);
}

/// Requests, the last of which closes the connection.
const SENT: &str =
    "GET /nowhere HTTP/1.1\r\nHost: m\r\n\r\nGET /metrics HTTP/1.1\r\nHost: m\r\nConnection: close\r\n\r\n";

/// The answer to the first one.
const NOWHERE: &str = "HTTP/1.1 404 Not Found\r\n";

/// A server whose requests are those of `north`, looked at by this reader: what stands in its
/// answers.
fn watched<R: Abort + Wait + Clock>(
    rt: &R,
    heap: Global,
    state: RandomState,
    reader: Option<Name>,
    received: &[&str],
) -> Result<(), Fail> {
    let door = Door {
        anonymous: Name::new(b"north"),
        keys: &[],
        trusted_field: false,
    };
    let watch = Watch {
        tally: &Tally::new(),
        reader,
    };
    look_watched(
        rt,
        heap,
        state,
        b"http://m",
        &door,
        watch,
        &[SENT],
        received,
    )
}

#[test]
fn the_reader_gets_the_counts(rt: HostRuntime) -> Result<(), Fail> {
    let received = [
        NOWHERE,
        "HTTP/1.1 200 OK\r\ncontent-type: text/plain; version=0.0.4; charset=utf-8\r\n",
        "landmap_http_requests_total{status=\"200\"} 0\n",
        "landmap_http_requests_total{status=\"404\"} 1\n",
        "landmap_http_request_seconds_bucket{le=\"+Inf\"} 1\n",
        "landmap_http_request_seconds_count 1\n",
    ];
    let state = RandomState::new(&rt)?;
    watched(&rt, rt.alloc(), state, Name::new(b"north"), &received)
}

#[test]
fn others_do_not(rt: HostRuntime) -> Result<(), Fail> {
    let received = [
        NOWHERE,
        "HTTP/1.1 403 Forbidden\r\n",
        "\"status\":403,\"code\":\"metrics\"}",
    ];
    let state = RandomState::new(&rt)?;
    watched(&rt, rt.alloc(), state, Name::new(b"south"), &received)
}

#[test]
fn without_a_reader_there_is_no_page(rt: HostRuntime) -> Result<(), Fail> {
    let received = [NOWHERE, NOWHERE, "\"code\":\"U1\"}"];
    let state = RandomState::new(&rt)?;
    watched(&rt, rt.alloc(), state, None, &received)
}
