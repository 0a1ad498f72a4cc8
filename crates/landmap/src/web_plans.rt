//! What a server answers by HTTP, and where.

use command_line::{DEFAULT_HTTP_WORKERS, HttpWord};
use grid::Grid;
use map_metrics::Tally;
use map_page::PAGE;
use map_pages::Site;
use memory::{NoMemory, NotStored, another, copied, shared, text};
use server::{WORKER_LIMIT, Web, WebPlace};
use std::alloc::Global;
use std::hash::RandomState;
use std::io::Write;
use std::net::SocketAddr;
use std::str;
use std::sync::Arc;

/// Within how many milliseconds a client sends a whole request, and takes some bytes of an answer.
const PATIENCE: u64 = 30_000;

/// How many bytes `http://` and an address have at most.
const BASE_ROOM: usize = 128;

/// Why HTTP is not answered.
#[derive(Debug, Drop)]
pub(crate) enum WebFault {
    /// The configuration has no grid, so coordinates mean no degrees.
    NoGrid,
    /// The configuration does not say what links begin with, and HTTP has no address.
    NoPublic,
    /// A proxy is to say who asks, and there is none before an address.
    NoProxy,
    /// No port is named, so nobody knows where HTTP would be answered.
    NoPort,
    /// There are more workers, of lines and of HTTP together, than a server can have.
    Workers,
    /// The host gives no random numbers.
    NoRandom,
    /// Out of memory.
    Memory(NoMemory),
}

impl WebFault {
    /// What is told of it.
    pub(crate) fn text(&self) -> &'static str {
        match self {
            WebFault::NoGrid => "HTTP needs a grid in the configuration",
            WebFault::NoPublic =>
                "HTTP on a Unix socket needs \"public\" in the configuration: what links begin with",
            WebFault::NoProxy =>
                "\"trusted-field\" is for a proxy before a Unix socket: --http-socket, not --http",
            WebFault::NoPort => "--http needs a port that is not 0",
            WebFault::Workers => "--workers and --http-workers are at most 1024 together",
            WebFault::NoRandom => "HTTP needs random numbers, and the host gives none",
            WebFault::Memory(_) => "out of memory",
        }
    }
}

impl From<NoMemory> for WebFault {
    fn from(no_memory: NoMemory) -> Self {
        WebFault::Memory(no_memory)
    }
}

impl<T: Drop> From<NotStored<T>> for WebFault {
    fn from(failed: NotStored<T>) -> Self {
        WebFault::Memory(failed.into())
    }
}

/// Where HTTP is answered.
#[derive(Debug, Drop)]
enum OwnPlace {
    Address(SocketAddr),
    Path(String),
}

/// What a server answers by HTTP. It does not borrow from the words of the command line.
#[derive(Drop)]
pub(crate) struct WebPlan {
    place: OwnPlace,
    /// The place, as it is told: `http://` and an address, or a path.
    shown: Vec<u8>,
    /// What each link begins with.
    base: Vec<u8>,
    grid: Grid,
    /// What the configuration says.
    said: configuration::Web<Global>,
    random: RandomState,
    workers: usize,
    tally: Arc<Tally>,
}

/// `http://` and an address.
fn address_text(heap: Global, address: SocketAddr) -> Result<Vec<u8>, NoMemory> {
    let mut bytes = [0; BASE_ROOM];
    let mut room = bytes.as_mut_slice();
    let _ = write!(room, "http://{address}");
    let left = room.len();
    let used = BASE_ROOM.saturating_sub(left);
    copied(heap, bytes.get(..used).unwrap_or(b""))
}

/// What each link begins with: what the configuration says, or else the address.
fn base(
    heap: Global,
    said: &configuration::Web<Global>,
    word: HttpWord<'_>,
) -> Result<Vec<u8>, WebFault> {
    match (&said.public, word) {
        (Some(public), _) => Ok(copied(heap, public.as_bytes())?),
        (None, HttpWord::Address(address)) => Ok(address_text(heap, address)?),
        (None, HttpWord::Socket(_)) => Err(WebFault::NoPublic),
    }
}

impl WebPlan {
    /// What is answered at this place, about the features of this configuration, beside so many
    /// workers of lines.
    pub(crate) fn new(
        rt: &HostRuntime,
        word: HttpWord<'_>,
        line_workers: u16,
        workers: Option<u16>,
        grid: Option<Grid>,
        said: configuration::Web<Global>,
    ) -> Result<Self, WebFault> {
        let heap = rt.alloc();
        let Some(grid) = grid else {
            return Err(WebFault::NoGrid);
        };
        if let HttpWord::Address(address) = word {
            if address.port() == 0 {
                return Err(WebFault::NoPort);
            }
            if said.trusted_field {
                return Err(WebFault::NoProxy);
            }
        }
        let workers = usize::from(workers.unwrap_or(DEFAULT_HTTP_WORKERS));
        if usize::from(line_workers) + workers > WORKER_LIMIT {
            return Err(WebFault::Workers);
        }
        let Ok(random) = RandomState::new(rt) else {
            return Err(WebFault::NoRandom);
        };
        Ok(WebPlan {
            base: base(heap, &said, word)?,
            shown: match word {
                HttpWord::Address(address) => address_text(heap, address)?,
                HttpWord::Socket(path) => copied(heap, path.as_bytes())?,
            },
            place: match word {
                HttpWord::Address(address) => OwnPlace::Address(address),
                HttpWord::Socket(path) => OwnPlace::Path(text(heap, path)?),
            },
            grid,
            said,
            random,
            workers,
            tally: shared(heap, Tally::new())?,
        })
    }

    /// What is counted, if somebody may read it.
    pub(crate) fn watched(&self) -> Result<Option<Arc<Tally>>, NoMemory> {
        if self.said.metrics.is_none() {
            return Ok(None);
        }
        Ok(Some(another(&self.tally)?))
    }

    /// Where it is answered, as it is told.
    pub(crate) fn shown(&self) -> &str {
        str::from_utf8(self.shown.as_slice()).unwrap_or("")
    }

    /// Where it is answered.
    fn place(&self) -> WebPlace<'_> {
        match &self.place {
            OwnPlace::Address(address) => WebPlace::Address(*address),
            OwnPlace::Path(path) => WebPlace::Path(path.as_str()),
        }
    }

    /// What the pages speak of.
    pub(crate) fn site(&self) -> Site<'_> {
        Site {
            base: self.base.as_slice(),
            grid: &self.grid,
            classes: self.said.collections.as_slice(),
            map: PAGE.as_bytes(),
        }
    }

    /// How it is answered, by pages that speak of this site.
    pub(crate) fn web<'a>(&'a self, site: &'a Site<'a>) -> Web<'a> {
        Web {
            place: self.place(),
            site,
            anonymous: self.said.anonymous,
            keys: self.said.keys.as_slice(),
            trusted_field: self.said.trusted_field,
            metrics: self.said.metrics,
            tally: &self.tally,
            random: self.random,
            workers: self.workers,
            patience: PATIENCE,
        }
    }
}
