//! HTTP beside sessions of lines.
use crate::clients::{Talk, connected};
use crate::kept_tests::{Deeds, Unopened, keeping};
use crate::servers::{first_state, serving};
use features::Name;
use grid::{Between, Grid};
use log::Log;
use map_metrics::Tally;
use map_pages::Site;
use server::{
    Connections, Rests, ServerFault, SocketOptions, Stop, StoreFault, Web, WebPlace, serve_kept,
    serve_socket,
};
use std::alloc::Global;
use std::fs::{File, Files};
use std::hash::RandomState;
use std::io::{Print, Read, Write};
use std::net::{Net, TcpListener, TcpStream};
use std::os::unix::net::UnixStream;
use std::process::Abort;
use std::sync::Wait;
use std::test::Fail;
use std::thread::Threads;
use std::time::{Clock, Duration};
use std::{fs, io, str, thread};

/// How many requests a client makes on one connection, each of them 20 milliseconds behind the one
/// before it: in that time halls of three records change several times.
const REQUESTS: u64 = 150;

/// A request for all masts.
const MASTS: &[u8] = b"GET /collections/mast/items HTTP/1.1\r\nHost: localhost\r\n\r\n";

/// What stands in its answer, where there is one mast.
const ONE: &str = "\"numberMatched\":1,";

/// A server whose halls have three records, which answers by HTTP at a path.
fn with_web<'a>(stop: &'a Stop, web: &'a Web<'a>) -> SocketOptions<'a> {
    SocketOptions {
        connections: Connections::Endless(3),
        idle: None,
        takeover: false,
        stop: Some(stop),
        keys: &[],
        web: Some(web),
    }
}

/// HTTP at a path, for `south`, by so many workers.
fn web<'a>(
    place: WebPlace<'a>,
    site: &'a Site<'a>,
    tally: &'a Tally,
    random: RandomState,
    workers: usize,
) -> Web<'a> {
    Web {
        place,
        site,
        anonymous: Name::new(b"south"),
        keys: &[],
        trusted_field: false,
        metrics: None,
        tally,
        random,
        workers,
        patience: 30_000,
    }
}

/// Sends a request, and reads on until its answer has this text. Whether it came.
fn is_told(stream: &UnixStream, request: &[u8], wanted: &str) -> bool {
    let mut stream = stream;
    if stream.write_all(request).is_err() {
        return false;
    }
    let mut bytes = [0; 4_096];
    let mut end = 0;
    for _ in 0..bytes.len() {
        match stream.read(&mut bytes[end..]) {
            Ok(0) | Err(_) => return false,
            Ok(count) => end += count,
        }
        if str::from_utf8(&bytes[..end]).is_ok_and(|text| text.contains(wanted)) {
            return true;
        }
    }
    false
}

/// Adds a mast in a session, and asks for it by HTTP on one connection until halls have changed.
fn ask_on<R: Abort + Net + Clock + Wait>(
    rt: &R,
    heap: Global,
    paths: (&str, &str),
    silent: u32,
    stop: &Stop,
) {
    let (path, web_path) = paths;
    let mut talk = Talk::begin(rt, heap, path).expect(rt, "a connection");
    let added = talk.ask(heap, "HELLO north\nADD 1 mast POINT (3 4)\nCOMMIT\n", 3);
    assert_eq!(rt;
        added.expect(rt, "replies").as_str(),
        "hello north\nstaged\napplied 1\n"
    );
    let mut others = Vec::new(heap);
    for _ in 0..silent {
        let other = connected(rt, web_path).expect(rt, "a connection");
        others.push(other).expect(rt, "memory");
    }
    let stream = connected(rt, web_path).expect(rt, "a connection");
    for _ in 0..REQUESTS {
        assert!(rt; is_told(&stream, MASTS, ONE));
        thread::sleep(rt, Duration::from_millis(20));
    }
    let bye = talk.ask(heap, "BYE\n", 1);
    assert_eq!(rt; bye.expect(rt, "a reply").as_str(), "bye\n");
    stop.ask();
    let _ = UnixStream::connect(rt, path);
}

/// The grid of the tests.
fn degrees(rt: &impl Abort) -> Grid {
    Grid::new(b"7", b"46", 7, Between::Refuse).expect(rt, "a grid")
}

/// Serves lines and HTTP until `ask_on` has ended, with silent clients beside it.
fn serve_beside<H, R>(
    rt: &R,
    own: H,
    heap: Global,
    keys: RandomState,
    paths: (&str, &str),
    workers: usize,
    silent: u32,
)
where
    H: Wait + Copy + Drop + Send + Sync,
    R: Threads
        + Wait
        + Clock
        + Log
        + Files<File = File>
        + Net<Stream = TcpStream, Listener = TcpListener>
        + Print
        + Abort
        + Sync,
{
    let (path, web_path) = paths;
    let _ = fs::remove_file(rt, path);
    let _ = fs::remove_file(rt, web_path);
    let grid = degrees(rt);
    let classes = [Name::new(b"mast").expect(rt, "a name")];
    let site = Site {
        base: b"http://localhost",
        grid: &grid,
        classes: &classes,
        map: b"<!DOCTYPE html>",
    };
    let tally = Tally::new();
    let web = web(WebPlace::Path(web_path), &site, &tally, keys, workers);
    let serving = serving(rt, heap);
    let stop = Stop::new();
    let (served, ()) = thread::join(
        rt,
        || serve_socket(rt, own, heap, path, serving, with_web(&stop, &web)),
        || ask_on(rt, heap, paths, silent, &stop),
    );
    let closed = served.expect(rt, "it ends well");
    assert_eq!(rt; closed.records, REQUESTS + 1);
    assert!(rt; fs::symlink_metadata(rt, path).is_err(), "the path is free");
    assert!(rt;
        fs::symlink_metadata(rt, web_path).is_err(),
        "so is that of HTTP"
    );
}

/// A connection of HTTP goes on behind each change of halls.
#[test]
fn pages_beside_lines(rt: HostRuntime) -> Result<(), Fail> {
    let paths = ("server_web_lines.sock", "server_web_pages.sock");
    serve_beside(&rt, rt, rt.alloc(), RandomState::new(&rt)?, paths, 2, 0);
    Ok(())
}

/// One worker answers, while many clients are silent.
#[test]
fn silent_clients_of_http(rt: HostRuntime) -> Result<(), Fail> {
    let paths = ("server_web_silent_lines.sock", "server_web_silent.sock");
    serve_beside(&rt, rt, rt.alloc(), RandomState::new(&rt)?, paths, 1, 100);
    Ok(())
}

/// Where the place for HTTP is not to be had, nothing is served, and the path is free again.
#[test]
fn no_place_for_http(rt: HostRuntime) -> Result<(), Fail> {
    let heap: Global = rt.alloc();
    let path = "server_web_no_place.sock";
    let _ = fs::remove_file(&rt, path);
    let grid = degrees(&rt);
    let site = Site {
        base: b"http://localhost",
        grid: &grid,
        classes: &[],
        map: b"",
    };
    let place = WebPlace::Path("no_such_folder/web.sock");
    let tally = Tally::new();
    let web = web(place, &site, &tally, RandomState::new(&rt)?, 1);
    let stop = Stop::new();
    let served = serve_socket(
        &rt,
        rt,
        heap,
        path,
        serving(&rt, heap),
        with_web(&stop, &web),
    );
    assert_eq!(rt; served, Err(ServerFault::BindWeb));
    assert!(rt;
        fs::symlink_metadata(&rt, path).is_err(),
        "the path is free"
    );
    Ok(())
}

/// What the pages of a test speak of.
#[derive(Drop)]
struct Pages {
    grid: Grid,
    classes: [Name; 1],
}

impl Pages {
    fn new(rt: &impl Abort) -> Self {
        Pages {
            grid: degrees(rt),
            classes: [Name::new(b"mast").expect(rt, "a name")],
        }
    }

    /// A site with this map.
    fn site<'a>(&'a self, map: &'a [u8]) -> Site<'a> {
        Site {
            base: b"http://localhost",
            grid: &self.grid,
            classes: &self.classes,
            map,
        }
    }
}

/// A connection whose reads wait for ten seconds at most.
fn patient<R: Net + Abort>(rt: &R, path: &str) -> UnixStream {
    let stream = connected(rt, path).expect(rt, "a connection");
    let set = stream.set_read_timeout(Some(Duration::from_secs(10)));
    assert!(rt; set.is_ok());
    stream
}

/// Serves by HTTP, as `web` says, until the clients have ended.
fn serve_clients<H, R, F: FnOnce() + Send>(
    rt: &R,
    own: H,
    heap: Global,
    paths: (&str, &str),
    web: Web<'_>,
    clients: F,
)
where
    H: Wait + Copy + Drop + Send + Sync,
    R: Threads
        + Wait
        + Clock
        + Log
        + Files<File = File>
        + Net<Stream = TcpStream, Listener = TcpListener>
        + Print
        + Abort
        + Sync,
{
    let (path, web_path) = paths;
    let _ = fs::remove_file(rt, path);
    let _ = fs::remove_file(rt, web_path);
    let serving = serving(rt, heap);
    let stop = Stop::new();
    let (served, ()) = thread::join(
        rt,
        || serve_socket(rt, own, heap, path, serving, with_web(&stop, &web)),
        || {
            clients();
            stop.ask();
            let _ = UnixStream::connect(rt, path);
        },
    );
    assert!(rt; served.is_ok());
}

/// A connection on which nothing comes is let go; one whose requests come in time is not, however
/// long it lasts.
#[test]
fn who_says_nothing_is_let_go(rt: HostRuntime) -> Result<(), Fail> {
    let paths = ("server_web_late_lines.sock", "server_web_late.sock");
    let pages = Pages::new(&rt);
    let site = pages.site(b"");
    let tally = Tally::new();
    let random = RandomState::new(&rt)?;
    let web = Web {
        patience: 500,
        ..web(WebPlace::Path(paths.1), &site, &tally, random, 2)
    };
    serve_clients(&rt, rt, rt.alloc(), paths, web, || {
        let silent = patient(&rt, paths.1);
        let busy = patient(&rt, paths.1);
        for _ in 0..10 {
            assert!(&rt; is_told(&busy, MASTS, "HTTP/1.1 200"));
            thread::sleep(&rt, Duration::from_millis(200));
        }
        assert!(&rt;
            io::read_to_string(rt.alloc(), silent).is_ok(),
            "it is let go"
        );
    });
    Ok(())
}

/// A client that sends a request byte by byte is let go once its time is over, although each of its
/// bytes comes in time.
#[test]
fn who_sends_bit_by_bit_is_let_go(rt: HostRuntime) -> Result<(), Fail> {
    let paths = ("server_web_slow_lines.sock", "server_web_slow.sock");
    let pages = Pages::new(&rt);
    let site = pages.site(b"");
    let tally = Tally::new();
    let random = RandomState::new(&rt)?;
    let web = Web {
        patience: 500,
        ..web(WebPlace::Path(paths.1), &site, &tally, random, 2)
    };
    serve_clients(&rt, rt, rt.alloc(), paths, web, || {
        let slow = patient(&rt, paths.1);
        let mut sends = &slow;
        let begun = sends.write_all(b"GET / HTTP/1.1\r\nHost: localhost\r\nx: ");
        assert!(&rt; begun.is_ok());
        let sent = (0..1_000).find(|_| {
            thread::sleep(&rt, Duration::from_millis(5));
            sends.write_all(b"a").is_err()
        });
        assert!(&rt; sent.is_some(), "it is let go");
        let other = patient(&rt, paths.1);
        assert!(&rt; is_told(&other, MASTS, "HTTP/1.1 200"));
    });
    Ok(())
}

/// A client that takes nothing of an answer that is longer than what lies between it and the server
/// is let go, and the one worker answers others.
#[test]
fn who_takes_nothing_is_let_go(rt: HostRuntime) -> Result<(), Fail> {
    let paths = ("server_web_deaf_lines.sock", "server_web_deaf.sock");
    let pages = Pages::new(&rt);
    let map = "landmap ".repeat(rt.alloc(), 500_000).expect(&rt, "a map");
    let site = pages.site(map.as_bytes());
    let tally = Tally::new();
    let random = RandomState::new(&rt)?;
    let web = Web {
        patience: 1_000,
        ..web(WebPlace::Path(paths.1), &site, &tally, random, 1)
    };
    serve_clients(&rt, rt, rt.alloc(), paths, web, || {
        let deaf = patient(&rt, paths.1);
        let mut asks = &deaf;
        let asked = asks.write_all(b"GET /map HTTP/1.1\r\nHost: localhost\r\n\r\n");
        assert!(&rt; asked.is_ok());
        thread::sleep(&rt, Duration::from_millis(200));
        let other = patient(&rt, paths.1);
        assert!(&rt; is_told(&other, MASTS, "HTTP/1.1 200"));
        drop(deaf);
    });
    Ok(())
}

/// A request for all masts, of a subject that a proxy names.
const OF_NORTH: &[u8] =
    b"GET /collections/mast/items HTTP/1.1\r\nHost: localhost\r\nlandmap-subject: north\r\n\r\n";

/// What a proxy says of who asks is believed where that is wanted, and nowhere else.
#[test]
fn a_proxy_says_who_asks(rt: HostRuntime) -> Result<(), Fail> {
    let paths = ("server_web_proxy_lines.sock", "server_web_proxy.sock");
    let pages = Pages::new(&rt);
    let site = pages.site(b"");
    let tally = Tally::new();
    for (trusted_field, wanted) in [(true, "HTTP/1.1 200"), (false, "HTTP/1.1 400")] {
        let random = RandomState::new(&rt)?;
        let web = Web {
            trusted_field,
            ..web(WebPlace::Path(paths.1), &site, &tally, random, 1)
        };
        serve_clients(&rt, rt, rt.alloc(), paths, web, || {
            assert!(&rt; is_told(&patient(&rt, paths.1), OF_NORTH, wanted));
        });
    }
    Ok(())
}

/// A request that adds a mast.
const ADDED: &[u8] =
    b"POST /collections/features/items HTTP/1.1\r\nHost: localhost\r\nContent-Type: application/geo+json\r\nContent-Length: 120\r\n\r\n{\"type\":\"Feature\",\"id\":1,\"geometry\":{\"type\":\"Point\",\"coordinates\":[7.0000010,46.0000020]},\"properties\":{\"class\":\"mast\"}}";

/// Adds a mast by HTTP to a server with a store. Whether it was told that it is there, and whether the
/// server ended well.
fn added_by<H, R>(rt: &R, own: H, heap: Global, deeds: &Deeds, random: RandomState) -> (bool, bool)
where
    H: Wait + Copy + Drop + Send + Sync,
    R: Threads
        + Wait
        + Clock
        + Log
        + Files<File = File>
        + Net<Stream = TcpStream, Listener = TcpListener>
        + Print
        + Abort
        + Sync,
{
    let (path, web_path) = ("server_web_kept_lines.sock", "server_web_kept.sock");
    let _ = fs::remove_file(rt, path);
    let _ = fs::remove_file(rt, web_path);
    let pages = Pages::new(rt);
    let site = pages.site(b"");
    let tally = Tally::new();
    let web = web(WebPlace::Path(web_path), &site, &tally, random, 1);
    let unopened = Unopened::new(Ok(first_state(rt, heap)), deeds);
    let keeping = keeping(rt, Rests::All);
    let stop = Stop::new();
    let (served, told) = thread::join(
        rt,
        || {
            serve_kept(
                rt,
                own,
                heap,
                path,
                keeping,
                with_web(&stop, &web),
                unopened,
            )
        },
        || {
            let told = is_told(&patient(rt, web_path), ADDED, "HTTP/1.1 201");
            stop.ask();
            let _ = UnixStream::connect(rt, path);
            told
        },
    );
    match served {
        Ok(_) => (told, true),
        Err(fault) => {
            assert_eq!(rt; fault, ServerFault::Store(StoreFault::Failed));
            (told, false)
        }
    }
}

/// An answer by HTTP leaves once its record lasts, and not where it does not.
#[test]
fn an_answer_waits_for_its_record(rt: HostRuntime) -> Result<(), Fail> {
    let random = RandomState::new(&rt)?;
    let deeds = Deeds::new(1, 1);
    assert_eq!(&rt; added_by(&rt, rt, rt.alloc(), &deeds, random), (true, true));
    assert_eq!(&rt; deeds.lasting(), 1);
    let deeds = Deeds::new(0, 0);
    assert_eq!(&rt;
        added_by(&rt, rt, rt.alloc(), &deeds, random),
        (false, false)
    );
    Ok(())
}
