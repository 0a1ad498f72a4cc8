//! Replies as `docs/SESSIONS.md` has them, and progress.
use importing::{Reply, progress_text, read_progress, read_reply};
use std::process::Abort;

/// Checks what a reply means.
fn means(rt: &impl Abort, line: &str, reply: Reply) {
    assert_eq!(rt; read_reply(line.as_bytes()), reply, "{line}");
}

#[test]
fn replies(rt: HostRuntime) {
    means(&rt, "staged", Reply::Staged);
    means(&rt, "applied 17", Reply::Applied);
    means(&rt, "held", Reply::Busy);
    means(&rt, "memory", Reply::Busy);
    means(&rt, "error S2", Reply::Busy);
    means(&rt, "error S7", Reply::Busy);
    means(&rt, "denied none change 3", Reply::Denied(3));
    means(
        &rt,
        "denied rule harbour-is-closed change 16",
        Reply::Denied(16),
    );
    means(&rt, "exists change 1", Reply::Exists(1));
    means(&rt, "error X10", Reply::Error);
    means(&rt, "error X5", Reply::Error);
    means(&rt, "", Reply::Unknown);
    means(&rt, "stagedx", Reply::Unknown);
    means(&rt, "exists change", Reply::Unknown);
    means(&rt, "denied rule x", Reply::Unknown);
    means(&rt, "rows 3", Reply::Unknown);
}

#[test]
fn progress(rt: HostRuntime) {
    for rows in [0, 7, 41_200, u64::MAX] {
        let text = progress_text(rows);
        assert_eq!(rt; read_progress(text.as_slice()), Some(rows));
        assert_eq!(rt; read_progress(&text.as_slice()[..text.len() - 1]), None);
    }
    assert_eq!(rt; read_progress(b""), None);
    assert_eq!(rt; read_progress(b"\n"), None);
    assert_eq!(rt; read_progress(b"12x\n"), None);
}
