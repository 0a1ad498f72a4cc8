//! What comes of lists.
use features::Name;
use importing::{Addition, Counts, ListFault, Pause, Peer, Refused, Server};
use plane::{Point, Shape};
use std::alloc::Global;
use std::io::{self, Read, Write};
use std::process::Abort;
use std::test::Fail;

/// A server's bytes, given three at a time.
struct Told<'a>(&'a [u8]);

impl Read for Told<'_> {
    fn read(&mut self, buffer: &mut [u8]) -> io::Result<usize> {
        let count = buffer.len().min(self.0.len()).min(3);
        buffer[..count].copy_from_slice(&self.0[..count]);
        self.0 = &self.0[count..];
        Ok(count)
    }
}

/// What was sent.
struct Sent<'a>(&'a mut Vec<u8>);

impl Write for Sent<'_> {
    fn write(&mut self, bytes: &[u8]) -> io::Result<usize> {
        self.0.extend_from_slice(bytes)?;
        Ok(bytes.len())
    }

    fn flush(&mut self) -> io::Result<()> {
        Ok(())
    }
}

struct NoPause;

impl Pause for NoPause {
    fn pause(&mut self) {}
}

/// Additions of points `ID ID`, of the class mast, with the ids from 1 on.
fn points(alloc: Global, count: i32) -> Result<Vec<Addition>, Fail> {
    let mut list = Vec::new(alloc);
    let class = Name::new(b"mast").ok_or("no name")?;
    for at in 1..=count {
        let shape = Shape::point(Point { x: at, y: at }).map_err(|_| "no shape")?;
        list.push(Addition {
            row: 100 + at as u64,
            id: at as u64,
            class,
            shape,
        })?;
    }
    Ok(list)
}

/// How a list of so many points ended, what was sent, and which ids were refused by which reply.
fn settle_with(
    alloc: Global,
    count: i32,
    replies: &str,
    sent: &mut Vec<u8>,
    refused: &mut Vec<Refused<Global>>,
) -> Result<Result<Counts, ListFault>, Fail> {
    let list = points(alloc, count)?;
    let mut server = Server {
        peer: Peer::new(alloc),
        reader: Told(replies.as_bytes()),
        writer: Sent(sent),
        pause: NoPause,
    };
    let end = server.settle_list(alloc, list.as_slice(), refused);
    let Server {
        peer: _,
        reader: Told(_),
        writer: Sent(_),
        pause: NoPause,
    } = server;
    Ok(end)
}

/// Checks the counts of a list, its lines and the ids that were refused.
fn settles(
    rt: &impl Abort,
    alloc: Global,
    count: i32,
    replies: &str,
    counts: (usize, usize, usize),
    lines: &str,
    ids: &[u64],
) -> Result<(), Fail> {
    let mut sent = Vec::new(alloc);
    let mut refused = Vec::new(alloc);
    match settle_with(alloc, count, replies, &mut sent, &mut refused)? {
        Ok(end) => {
            assert_eq!(rt;
                (end.applied, end.present, end.refused),
                counts,
                "{replies}"
            )
        }
        Err(fault) => assert!(rt; false, "{replies}: {fault}"),
    }
    assert_eq!(rt; sent.as_slice(), lines.as_bytes(), "{replies}");
    assert_eq!(rt; refused.len(), ids.len(), "{replies}");
    for (one, id) in refused.iter().zip(ids) {
        assert_eq!(rt; one.id, *id, "{replies}");
        assert_eq!(rt; one.row, *id + 100, "{replies}");
    }
    Ok(())
}

const ONE: &str = "ADD 1 mast POINT (1 1)\nCOMMIT\n";

const TWO: &str = "ADD 1 mast POINT (1 1)\nADD 2 mast POINT (2 2)\nCOMMIT\n";

#[test]
fn lists_are_settled(rt: HostRuntime) -> Result<(), Fail> {
    settles(&rt, rt.alloc(), 0, "", (0, 0, 0), "", &[])?;
    settles(
        &rt,
        rt.alloc(),
        2,
        "staged\nstaged\napplied 9\n",
        (2, 0, 0),
        TWO,
        &[],
    )?;
    settles(
        &rt,
        rt.alloc(),
        1,
        "staged\nheld\nmemory\napplied 9\n",
        (1, 0, 0),
        "ADD 1 mast POINT (1 1)\nCOMMIT\nCOMMIT\nCOMMIT\n",
        &[],
    )?;
    settles(
        &rt,
        rt.alloc(),
        2,
        "staged\nstaged\ndenied none change 2\nstaged\napplied 9\n",
        (1, 0, 1),
        "ADD 1 mast POINT (1 1)\nADD 2 mast POINT (2 2)\nCOMMIT\nADD 1 mast POINT (1 1)\nCOMMIT\n",
        &[2],
    )?;
    settles(
        &rt,
        rt.alloc(),
        2,
        "error X5\nstaged\ndenied rule a change 1\n",
        (0, 0, 2),
        TWO,
        &[1, 2],
    )?;
    settles(
        &rt,
        rt.alloc(),
        1,
        "error X5\nerror E7\n",
        (0, 0, 1),
        ONE,
        &[1],
    )
}

/// What is there already is looked at.
#[test]
fn ids_that_exist(rt: HostRuntime) -> Result<(), Fail> {
    let lines = "ADD 1 mast POINT (1 1)\nCOMMIT\nSEARCH POINT (1 1)\n";
    let there =
        "staged\nexists change 1\nrows 2\n1 4 north mast POINT (1 1)\n3 4 north mast POINT (1 1)\n";
    settles(&rt, rt.alloc(), 1, there, (0, 1, 0), lines, &[])?;
    let other = "staged\nexists change 1\nrows 1\n1 4 north road POINT (1 1)\n";
    settles(&rt, rt.alloc(), 1, other, (0, 0, 1), lines, &[1])?;
    settles(
        &rt,
        rt.alloc(),
        1,
        "staged\nexists change 1\nrows 0\n",
        (0, 0, 1),
        lines,
        &[1],
    )
}

/// Whether a list of one ends by a fault.
fn ends(alloc: Global, replies: &str) -> Result<Option<ListFault>, Fail> {
    let mut sent = Vec::new(alloc);
    let mut refused = Vec::new(alloc);
    match settle_with(alloc, 1, replies, &mut sent, &mut refused)? {
        Ok(_) => Ok(None),
        Err(fault) => Ok(Some(fault)),
    }
}

#[test]
fn faults(rt: HostRuntime) -> Result<(), Fail> {
    let ended = ends(rt.alloc(), "staged\nappl")?;
    assert!(rt; matches!(ended, Some(ListFault::Ended)));
    let stopped = ends(rt.alloc(), "staged\nerror X10\n")?;
    assert!(rt; matches!(stopped, Some(ListFault::Stopped)));
    let unknown = ends(rt.alloc(), "staged\nwell\n")?;
    assert!(rt; matches!(unknown, Some(ListFault::Stopped)));
    let beyond = ends(rt.alloc(), "staged\ndenied none change 2\n")?;
    assert!(rt; matches!(beyond, Some(ListFault::Stopped)));
    let mut long = String::new(rt.alloc());
    for _ in 0..2_000 {
        long.push_str("x")?;
    }
    let long = ends(rt.alloc(), long.as_str())?;
    assert!(rt; matches!(long, Some(ListFault::TooLong)));
    Ok(())
}
