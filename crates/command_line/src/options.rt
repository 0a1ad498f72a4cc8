//! The options of a server.

/// The most connections after which a server can be told to end.
pub const CONNECTION_LIMIT: u16 = 1024;

/// The most workers of a server.
pub const WORKER_LIMIT: u16 = 1024;

/// The workers of a server if the command line gives no number.
pub const DEFAULT_WORKERS: u16 = 4;

/// The greatest idle time, in seconds: a day.
pub const IDLE_LIMIT: u32 = 86_400;

/// The most connections of HTTP that are answered side by side.
pub const HTTP_WORKER_LIMIT: u16 = 1024;

/// The connections of HTTP that are answered side by side if the command line gives no number.
pub const DEFAULT_HTTP_WORKERS: u16 = 8;

/// The most features that `--features` allows.
pub const FEATURE_LIMIT: u32 = 4_000_000;

/// The greatest id that `--first-id` gives.
pub const FIRST_ID_LIMIT: u32 = 4_294_967_295;

/// The options of a server, apart from its configuration.
#[derive(Clone, Copy, Debug, PartialEq, Eq)]
pub struct ServerOptions<'a> {
    /// The path at which the socket is bound.
    pub socket: &'a str,
    /// How many connections are served in total: 1 to `CONNECTION_LIMIT`. `None`: a server without
    /// end.
    pub connections: Option<u16>,
    /// How many connections are served at a time: 1 to `WORKER_LIMIT`.
    pub workers: u16,
    /// The idle time in seconds, 1 to `IDLE_LIMIT`: a session ends after its client has neither
    /// sent nor read for so long. `None`: never.
    pub idle_seconds: Option<u32>,
    /// Whether a socket's file at the path is taken over if nobody listens on it.
    pub takeover: bool,
    /// Whether the server stops accepting at the end of standard input.
    pub until_stdin_ends: bool,
}
