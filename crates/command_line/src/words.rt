//! What the words of a command line ask for.

ghost use Rattle.std.specs.Prelude.{◌≡◌, ◌↔◌, List, Some, codes, map, string_bytes, IfOk, IsTrue};
ghost use Rattle.clap.specs.Words.{IsAmong, Text, first_of, found_of, kind_of, rows_of};
ghost use Rattle.command_line.specs.CommandLine.{refusals};
ghost use Rattle.command_line.specs.Asking.{HasFiles, HasOptions, IsAsked, IsAskedServer, IsAskedShell, IsGiven};

use crate::commands::{NoMemoryForWords, Reading, clap_reading};
use crate::http::{HttpWord, asked_http};
use crate::options::{DEFAULT_WORKERS, ServerOptions};
use crate::secrets::asked_secret;
use crate::shells::{Shell, shell_named};
use crate::stores::{StoreWords, Waits, asked_store, waits_of};
use crate::transfers::{ExportWords, ImportWords, asked_export, asked_import};
use clap::error::ErrorKind;
use clap::{ArgMatches, Error};
use std::alloc::Global;
use std::fmt;

/// Help, or what is wrong with the words: a text to be written as it is.
#[derive(Drop)]
pub enum Shown<'a> {
    /// A text of clap's.
    Told(Error),
    /// There are no completions for the shell of this name.
    NoShell(&'a str),
    /// There is no form of this name.
    NoFormat(&'a str),
    /// An import is to go neither to a server nor into a script.
    NoServer,
    /// `--wait` says neither of its words.
    NoWait(&'a str),
    /// Nothing of this name is done with a store.
    NoAction(&'a str),
    /// This is no name.
    NoName(&'a str),
    /// `--http` gives no address.
    NoAddress(&'a str),
    /// `--http` gives an address that is none of the machine itself.
    FarAddress(&'a str),
    /// HTTP is to be answered at two places.
    TwoPlaces,
    /// HTTP is to be answered by a server that ends after some connections.
    EndOfHttp,
}

impl fmt::Display for Shown<'_> {
    fn fmt<W: fmt::Write>(&self, f: &mut fmt::Formatter<W>) -> fmt::Result {
        match self {
            Shown::Told(text) => write!(f, "{text}"),
            Shown::NoShell(name) => write!(
                f,
                "error: invalid value '{name}' for '<SHELL>'\n  [possible values: bash, zsh, fish]\n\nFor more information, try '--help'.\n"
            ),
            Shown::NoFormat(name) => write!(
                f,
                "error: invalid value '{name}' for '--format <FORMAT>'\n  [possible values: geojson, geojsonseq, csv]\n\nFor more information, try '--help'.\n"
            ),
            Shown::NoServer => f.write_str(
                "error: the following required arguments were not provided:\n  --socket <PATH>, or --script\n\nFor more information, try '--help'.\n",
            ),
            Shown::NoWait(name) => write!(
                f,
                "error: invalid value '{name}' for '--wait <WHAT>'\n  [possible values: all, changes]\n\nFor more information, try '--help'.\n"
            ),
            Shown::NoAction(name) => write!(
                f,
                "error: invalid value '{name}' for '<ACTION>'\n  [possible values: check, list, export]\n\nFor more information, try '--help'.\n"
            ),
            Shown::NoName(text) => write!(
                f,
                "error: invalid value '{text}' for '<NAME>'\n  a name is wanted: 1 to 32 of a-z, 0-9 and -\n\nFor more information, try '--help'.\n"
            ),
            Shown::NoAddress(text) => write!(
                f,
                "error: invalid value '{text}' for '--http <ADDRESS:PORT>'\n  an address and a port are wanted, as 127.0.0.1:8080 or [::1]:8080\n\nFor more information, try '--help'.\n"
            ),
            Shown::FarAddress(text) => write!(
                f,
                "error: invalid value '{text}' for '--http <ADDRESS:PORT>'\n  HTTP is answered on this machine alone; put a proxy in front (docs/HTTP.md)\n\nFor more information, try '--help'.\n"
            ),
            Shown::TwoPlaces => f.write_str(
                "error: the argument '--http <ADDRESS:PORT>' cannot be used with:\n  --http-socket <PATH>\n\nFor more information, try '--help'.\n",
            ),
            Shown::EndOfHttp => f.write_str(
                "error: the argument '--connections <N>' cannot be used with:\n  --http <ADDRESS:PORT>\n  --http-socket <PATH>\n\nFor more information, try '--help'.\n",
            ),
        }
    }
}

/// What the command line asks for.
#[derive(Drop)]
pub enum Asked<'a> {
    /// Run the script of a file.
    Script(ScriptWords<'a>),
    /// Serve a socket.
    Serve(ServeWords<'a>),
    /// Talk with the server at this path.
    Connect(&'a str),
    /// Look at the configuration in this file.
    Check(&'a str),
    /// Draw the script in this file.
    Draw(&'a str),
    /// Write the features of a server.
    Export(ExportWords<'a>),
    /// Add the features of a file to a server.
    Import(ImportWords<'a>),
    /// Look at a store.
    Store(StoreWords<'a>),
    /// Make a secret for the subject of this name, which is one.
    Secret(&'a str),
    /// Print the manual page.
    Man,
    /// Print completions for a shell.
    Completions(Shell),
    /// Show help.
    Help(Shown<'a>),
    /// Nothing: the words are wrong, and this text says why.
    Mistake(Shown<'a>),
}

/// The files that `script` names.
#[derive(Clone, Copy)]
pub struct ScriptWords<'a> {
    /// The script's file.
    pub script: &'a str,
    /// The configuration's file; `None` for the built-in configuration.
    pub config: Option<&'a str>,
    /// The folder of the store; `None` where nothing is kept.
    pub store: Option<&'a str>,
    /// The most features that there may be, 1 to `FEATURE_LIMIT`; `None` for the usual number.
    pub features: Option<u32>,
}

/// What `serve` is given.
#[derive(Clone, Copy)]
pub struct ServeWords<'a> {
    /// The configuration's file; `None` for the built-in configuration.
    pub config: Option<&'a str>,
    /// The folder of the store; `None` where nothing is kept.
    pub store: Option<&'a str>,
    /// For which records replies wait, where there is a store.
    pub waits: Waits,
    /// Where HTTP is answered; `None`: nowhere.
    pub http: Option<HttpWord<'a>>,
    /// How many connections of HTTP are answered side by side, 1 to `HTTP_WORKER_LIMIT`; `None` for
    /// `DEFAULT_HTTP_WORKERS`.
    pub http_workers: Option<u16>,
    /// The most features that there may be, 1 to `FEATURE_LIMIT`; `None` for the usual number.
    pub features: Option<u32>,
    /// All other options.
    pub options: ServerOptions<'a>,
}

/// The arguments of `script`. FILE is required, so it is there.
fn script_words<'a>(given: &ArgMatches<'a>) -> ScriptWords<'a>
    requires { IsGiven (codes "script") (rows_of (found_of given.now)) }
    ensures { HasFiles (λ id. first_of id (rows_of (found_of given.now))) result }
{
    let Some(script) = given.get_str("FILE") else {
        unreachable!()
    };
    ScriptWords {
        script,
        config: given.get_str("config"),
        store: given.get_str("store"),
        features: given.get_one::<u32>("features"),
    }
}

/// The options of a server. `--socket` is required, so it is there.
fn server_options<'a>(given: &ArgMatches<'a>) -> ServerOptions<'a>
    requires { IsGiven (codes "serve") (rows_of (found_of given.now)) }
    ensures { HasOptions (λ id. first_of id (rows_of (found_of given.now))) result }
{
    let Some(socket) = given.get_str("socket") else {
        unreachable!()
    };
    ServerOptions {
        socket,
        connections: given.get_one::<u16>("connections"),
        workers: given.get_one::<u16>("workers").unwrap_or(DEFAULT_WORKERS),
        idle_seconds: given.get_one::<u32>("idle"),
        takeover: given.get_flag("takeover"),
        until_stdin_ends: given.get_flag("until-stdin-ends"),
    }
}

/// The arguments of `serve`, or a mistake, where `--wait` says neither of its words, or where HTTP
/// cannot be answered as the words say.
fn asked_serve<'a>(given: &ArgMatches<'a>) -> Asked<'a>
    requires { IsGiven (codes "serve") (rows_of (found_of given.now)) }
    ensures { IsAskedServer (λ id. first_of id (rows_of (found_of given.now))) result }
{
    let options = server_options(given);
    let wait = given.get_str("wait");
    let Some(waits) = waits_of(wait) else {
        return Asked::Mistake(Shown::NoWait(wait.unwrap_or("")));
    };
    let http = match asked_http(given) {
        Ok(http) => http,
        Err(mistake) => return Asked::Mistake(mistake),
    };
    Asked::Serve(ServeWords {
        config: given.get_str("config"),
        store: given.get_str("store"),
        waits,
        http,
        http_workers: given.get_one::<u16>("http-workers"),
        features: given.get_one::<u32>("features"),
        options,
    })
}

/// The path given to `connect`. It is required, so it is there.
fn connect_path<'a>(given: &ArgMatches<'a>) -> &'a str
    requires { IsGiven (codes "connect") (rows_of (found_of given.now)) }
    ensures { first_of (codes "socket") (rows_of (found_of given.now)) ≡ Some result.now }
{
    let Some(path) = given.get_str("socket") else {
        unreachable!()
    };
    path
}

/// The file given to `check`. It is required, so it is there.
fn check_file<'a>(given: &ArgMatches<'a>) -> &'a str
    requires { IsGiven (codes "check") (rows_of (found_of given.now)) }
    ensures { first_of (codes "config") (rows_of (found_of given.now)) ≡ Some result.now }
{
    let Some(file) = given.get_str("config") else {
        unreachable!()
    };
    file
}

/// The file given to `draw`. It is required, so it is there.
fn draw_script<'a>(given: &ArgMatches<'a>) -> &'a str
    requires { IsGiven (codes "draw") (rows_of (found_of given.now)) }
    ensures { first_of (codes "SCRIPT") (rows_of (found_of given.now)) ≡ Some result.now }
{
    let Some(script) = given.get_str("SCRIPT") else {
        unreachable!()
    };
    script
}

/// The shell given to `completions`, if it has completions. Its name is required, so it is there.
fn completions_shell<'a>(given: &ArgMatches<'a>) -> Asked<'a>
    requires { IsGiven (codes "completions") (rows_of (found_of given.now)) }
    ensures { IsAskedShell (first_of (codes "SHELL") (rows_of (found_of given.now))) result }
{
    let Some(name) = given.get_str("SHELL") else {
        unreachable!()
    };
    match shell_named(name) {
        Some(shell) => Asked::Completions(shell),
        None => Asked::Mistake(Shown::NoShell(name)),
    }
}

/// Whether clap's text is the help that was asked for.
fn is_help(text: &Error) -> bool
    ensures { IsTrue result ↔ (kind_of text.now ≡ ErrorKind.DisplayHelp) }
{
    matches!(text.kind(), ErrorKind::DisplayHelp)
}

/// What words ask for that clap answers with a text.
fn asked_text<'a>(text: Error) -> Asked<'a>
    ensures { (words : List Text) → IsAmong (kind_of text) (refusals words) → IsAsked words result }
{
    if is_help(&text) {
        Asked::Help(Shown::Told(text))
    } else {
        Asked::Mistake(Shown::Told(text))
    }
}

/// Reads the command line; the first word is the program's name. `NoMemoryForWords` if an
/// allocation is refused. If clap accepts the words, they name one of the subcommands, because one
/// is required.
pub fn read_words<'a>(alloc: Global, words: &'a [String]) -> Result<Asked<'a>, NoMemoryForWords>
    ensures { IfOk result (IsAsked (map (λ word. string_bytes word) words.entry.now)) }
{
    let matches = match clap_reading(alloc, words) {
        Ok(Reading::Given(matches)) => matches,
        Ok(Reading::Told(text)) => return Ok(asked_text(text)),
        Err(no_memory) => return Err(no_memory),
    };
    if let Some(given) = matches.subcommand_matches("script") {
        return Ok(Asked::Script(script_words(given)));
    }
    if let Some(given) = matches.subcommand_matches("serve") {
        return Ok(asked_serve(given));
    }
    if let Some(given) = matches.subcommand_matches("connect") {
        return Ok(Asked::Connect(connect_path(given)));
    }
    if let Some(given) = matches.subcommand_matches("check") {
        return Ok(Asked::Check(check_file(given)));
    }
    if let Some(given) = matches.subcommand_matches("draw") {
        return Ok(Asked::Draw(draw_script(given)));
    }
    if let Some(given) = matches.subcommand_matches("export") {
        return Ok(asked_export(given));
    }
    if let Some(given) = matches.subcommand_matches("import") {
        return Ok(asked_import(given));
    }
    if let Some(given) = matches.subcommand_matches("store") {
        return Ok(asked_store(given));
    }
    if let Some(given) = matches.subcommand_matches("secret") {
        return Ok(asked_secret(given));
    }
    if let Some(_given) = matches.subcommand_matches("man") {
        return Ok(Asked::Man);
    }
    let Some(given) = matches.subcommand_matches("completions") else {
        unreachable!()
    };
    Ok(completions_shell(given))
}
