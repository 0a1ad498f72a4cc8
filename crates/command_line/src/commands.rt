//! The host's words, and how clap reads them. Only this module makes a `NoMemoryForWords`.

ghost use Rattle.std.specs.Prelude.{◌≡◌, codes, map, string_bytes, IfOk};
ghost use Rattle.clap.specs.Words.{app_of, new_rule};
ghost use Rattle.command_line.specs.Asking.{IsReading};
ghost use Rattle.command_line.specs.declared.options.TheConstants.{FIRST_ID_LIMIT, HTTP_WORKER_LIMIT};
ghost use Rattle.command_line.specs.CommandLine.{IsArgument, IsCommand, bare_line, check_line, command_line, completions_line, connect_line, draw_line, export_line, features_rule, flag_rule, import_line, man_line, needed, option_rule, script_line, secret_line, serve_line, store_line, up_to};

use crate::help_texts::{
    ABOUT, AS_HELP, CHECK_ABOUT, CHECK_CONFIG_HELP, CHECK_EXAMPLES, CHECK_LONG_ABOUT,
    COMPLETIONS_ABOUT, COMPLETIONS_EXAMPLES, COMPLETIONS_LONG_ABOUT, CONFIG_HELP, CONNECT_ABOUT,
    CONNECT_EXAMPLES, CONNECT_LONG_ABOUT, CONNECT_SOCKET_HELP, CONNECTIONS_HELP, DRAW_ABOUT,
    DRAW_EXAMPLES, DRAW_LONG_ABOUT, DRAW_SCRIPT_HELP, EXAMPLES, EXPORT_ABOUT, EXPORT_CLASS_HELP,
    EXPORT_EXAMPLES, EXPORT_LONG_ABOUT, FEATURES_HELP, FIRST_ID_HELP, FORMAT_HELP, GRID_HELP,
    HTTP_HELP, HTTP_SOCKET_HELP, HTTP_WORKERS_HELP, IDLE_HELP, IMPORT_ABOUT, IMPORT_CLASS_HELP,
    IMPORT_EXAMPLES, IMPORT_FILE_HELP, IMPORT_LONG_ABOUT, IMPORT_SCRIPT_HELP, LONG_ABOUT,
    MAN_ABOUT, MAN_EXAMPLES, MAN_LONG_ABOUT, SCRIPT_ABOUT, SCRIPT_EXAMPLES, SCRIPT_FILE_HELP,
    SCRIPT_LONG_ABOUT, SECRET_ABOUT, SECRET_EXAMPLES, SECRET_LONG_ABOUT, SECRET_NAME_HELP,
    SERVE_ABOUT, SERVE_EXAMPLES, SERVE_LONG_ABOUT, SHELL_HELP, SOCKET_HELP, SPLIT_HELP,
    STORE_ABOUT, STORE_ACTION_HELP, STORE_EXAMPLES, STORE_FEATURES_HELP, STORE_FOLDER_HELP,
    STORE_HELP, STORE_LONG_ABOUT, TAKEOVER_HELP, UNTIL_STDIN_ENDS_HELP, WAIT_HELP, WHOLE_HELP,
    WINDOW_HELP, WORKERS_HELP,
};
use crate::options::{
    CONNECTION_LIMIT, FEATURE_LIMIT, FIRST_ID_LIMIT, HTTP_WORKER_LIMIT, IDLE_LIMIT, WORKER_LIMIT,
};
use clap::error::ErrorKind;
use clap::{Arg, ArgAction, ArgMatches, Command, Error, value_parser};
use std::alloc::{AllocError, Global};
use std::{env, io};

/// Out of memory while the words of the command line were collected or read. Only this module makes
/// one, and only after std or clap has reported it, so no caller can invent one.
#[derive(Debug, Drop, PartialEq, Eq)]
pub struct NoMemoryForWords {
    seal: (),
}

impl NoMemoryForWords {
    /// Call only after std or clap has reported that it is out of memory.
    fn seen() -> Self {
        NoMemoryForWords { seal: () }
    }
}

/// Why the host gives no command line.
#[derive(Debug, Drop, PartialEq, Eq)]
pub enum WordsFault {
    /// A word is not UTF-8.
    NotUtf8,
    /// Out of memory.
    Memory(NoMemoryForWords),
}

/// The words with which the host started the program; the first is its name. `NotUtf8` if a word is
/// not UTF-8, `Memory` if an allocation is refused.
pub fn host_words(rt: &HostRuntime) -> Result<Vec<String>, WordsFault> {
    let words = match env::args(rt) {
        Ok(words) => words,
        Err(error) if error.kind() == io::ErrorKind::OutOfMemory => {
            return Err(WordsFault::Memory(NoMemoryForWords::seen()));
        }
        Err(_) => return Err(WordsFault::NotUtf8),
    };
    match words.collect(rt.alloc()) {
        Ok(words) => Ok(words),
        Err(_) => Err(WordsFault::Memory(NoMemoryForWords::seen())),
    }
}

/// An option with one value, `--NAME VALUE`.
fn option_argument<'a>(alloc: Global, name: &'a str, value_name: &'a str, help: &'a str) -> Arg<'a>
    ensures { IsArgument (option_rule name.entry.now) result }
{
    Arg::new(alloc, name)
        .long(name)
        .value_name(value_name)
        .help(help)
}

/// A flag, `--NAME`.
fn flag_argument<'a>(alloc: Global, name: &'a str, help: &'a str) -> Arg<'a>
    ensures { IsArgument (flag_rule name.entry.now) result }
{
    Arg::new(alloc, name)
        .long(name)
        .action(ArgAction::SetTrue)
        .help(help)
}

/// A required argument with a place of its own.
fn place_argument<'a>(alloc: Global, name: &'a str, help: &'a str) -> Arg<'a>
    ensures { IsArgument (needed (new_rule name.entry.now)) result }
{
    Arg::new(alloc, name).help(help).required(true)
}

/// The argument `--features N`.
fn features_argument<'a>(alloc: Global) -> Arg<'a>
    ensures { IsArgument features_rule result }
{
    let feature_range = value_parser!(u32).range(1..=i64::from(FEATURE_LIMIT));
    option_argument(alloc, "features", "N", FEATURES_HELP).value_parser(feature_range)
}

/// The argument `--http-workers N`.
fn http_workers_argument<'a>(alloc: Global) -> Arg<'a>
    ensures { IsArgument (up_to HTTP_WORKER_LIMIT (option_rule (codes "http-workers"))) result }
{
    let worker_range = value_parser!(u16).range(1..=i64::from(HTTP_WORKER_LIMIT));
    option_argument(alloc, "http-workers", "N", HTTP_WORKERS_HELP).value_parser(worker_range)
}

/// The subcommand that runs a script.
fn script_command<'a>(alloc: Global) -> Result<Command<'a>, AllocError>
    ensures { IfOk result (IsCommand script_line) }
{
    Command::new(alloc, "script")
        .about(SCRIPT_ABOUT)
        .long_about(SCRIPT_LONG_ABOUT)
        .after_long_help(SCRIPT_EXAMPLES)
        .arg(option_argument(alloc, "config", "FILE", CONFIG_HELP))?
        .arg(option_argument(alloc, "store", "DIR", STORE_HELP))?
        .arg(features_argument(alloc))?
        .arg(place_argument(alloc, "FILE", SCRIPT_FILE_HELP))
}

/// The subcommand that serves a socket.
fn serve_command<'a>(alloc: Global) -> Result<Command<'a>, AllocError>
    ensures { IfOk result (IsCommand serve_line) }
{
    let socket = option_argument(alloc, "socket", "PATH", SOCKET_HELP).required(true);
    let connection_range = value_parser!(u16).range(1..=i64::from(CONNECTION_LIMIT));
    let worker_range = value_parser!(u16).range(1..=i64::from(WORKER_LIMIT));
    let idle_range = value_parser!(u32).range(1..=i64::from(IDLE_LIMIT));
    let connections = option_argument(alloc, "connections", "N", CONNECTIONS_HELP);
    let connections = connections.value_parser(connection_range);
    let workers = option_argument(alloc, "workers", "N", WORKERS_HELP).value_parser(worker_range);
    let idle = option_argument(alloc, "idle", "SECONDS", IDLE_HELP).value_parser(idle_range);
    Command::new(alloc, "serve")
        .about(SERVE_ABOUT)
        .long_about(SERVE_LONG_ABOUT)
        .after_long_help(SERVE_EXAMPLES)
        .arg(socket)?
        .arg(option_argument(alloc, "config", "FILE", CONFIG_HELP))?
        .arg(connections)?
        .arg(workers)?
        .arg(idle)?
        .arg(flag_argument(alloc, "takeover", TAKEOVER_HELP))?
        .arg(flag_argument(alloc, "until-stdin-ends", UNTIL_STDIN_ENDS_HELP))?
        .arg(option_argument(alloc, "store", "DIR", STORE_HELP))?
        .arg(option_argument(alloc, "wait", "WHAT", WAIT_HELP))?
        .arg(option_argument(alloc, "http", "ADDRESS:PORT", HTTP_HELP))?
        .arg(option_argument(alloc, "http-socket", "PATH", HTTP_SOCKET_HELP))?
        .arg(http_workers_argument(alloc))?
        .arg(features_argument(alloc))
}

/// The subcommand that talks with a server.
fn connect_command<'a>(alloc: Global) -> Result<Command<'a>, AllocError>
    ensures { IfOk result (IsCommand connect_line) }
{
    Command::new(alloc, "connect")
        .about(CONNECT_ABOUT)
        .long_about(CONNECT_LONG_ABOUT)
        .after_long_help(CONNECT_EXAMPLES)
        .arg(option_argument(alloc, "socket", "PATH", CONNECT_SOCKET_HELP).required(true))
}

/// The subcommand that looks at a configuration.
fn check_command<'a>(alloc: Global) -> Result<Command<'a>, AllocError>
    ensures { IfOk result (IsCommand check_line) }
{
    Command::new(alloc, "check")
        .about(CHECK_ABOUT)
        .long_about(CHECK_LONG_ABOUT)
        .after_long_help(CHECK_EXAMPLES)
        .arg(option_argument(alloc, "config", "FILE", CHECK_CONFIG_HELP).required(true))
}

/// The subcommand that draws a script.
fn draw_command<'a>(alloc: Global) -> Result<Command<'a>, AllocError>
    ensures { IfOk result (IsCommand draw_line) }
{
    let script = Arg::new(alloc, "SCRIPT")
        .help(DRAW_SCRIPT_HELP)
        .required(true);
    Command::new(alloc, "draw")
        .about(DRAW_ABOUT)
        .long_about(DRAW_LONG_ABOUT)
        .after_long_help(DRAW_EXAMPLES)
        .arg(script)
}

/// The subcommand that writes the features of a server.
fn export_command<'a>(alloc: Global) -> Result<Command<'a>, AllocError>
    ensures { IfOk result (IsCommand export_line) }
{
    Command::new(alloc, "export")
        .about(EXPORT_ABOUT)
        .long_about(EXPORT_LONG_ABOUT)
        .after_long_help(EXPORT_EXAMPLES)
        .arg(option_argument(alloc, "socket", "PATH", CONNECT_SOCKET_HELP).required(true))?
        .arg(option_argument(alloc, "as", "NAME", AS_HELP).required(true))?
        .arg(option_argument(alloc, "window", "SHAPE", WINDOW_HELP))?
        .arg(option_argument(alloc, "class", "NAME", EXPORT_CLASS_HELP))?
        .arg(option_argument(alloc, "config", "FILE", GRID_HELP))?
        .arg(option_argument(alloc, "format", "FORMAT", FORMAT_HELP).required(true))
}

/// The argument `--first-id N`.
fn first_id_argument<'a>(alloc: Global) -> Arg<'a>
    ensures { IsArgument (up_to FIRST_ID_LIMIT (option_rule (codes "first-id"))) result }
{
    let id_range = value_parser!(u32).range(1..=i64::from(FIRST_ID_LIMIT));
    option_argument(alloc, "first-id", "N", FIRST_ID_HELP).value_parser(id_range)
}

/// The required argument FILE of an import.
fn file_argument<'a>(alloc: Global) -> Arg<'a>
    ensures { IsArgument (needed (new_rule (codes "FILE"))) result }
{
    Arg::new(alloc, "FILE")
        .help(IMPORT_FILE_HELP)
        .required(true)
}

/// The subcommand that adds the features of a file to a server.
fn import_command<'a>(alloc: Global) -> Result<Command<'a>, AllocError>
    ensures { IfOk result (IsCommand import_line) }
{
    Command::new(alloc, "import")
        .about(IMPORT_ABOUT)
        .long_about(IMPORT_LONG_ABOUT)
        .after_long_help(IMPORT_EXAMPLES)
        .arg(option_argument(alloc, "socket", "PATH", CONNECT_SOCKET_HELP))?
        .arg(option_argument(alloc, "as", "NAME", AS_HELP).required(true))?
        .arg(option_argument(alloc, "class", "NAME", IMPORT_CLASS_HELP))?
        .arg(first_id_argument(alloc))?
        .arg(flag_argument(alloc, "whole", WHOLE_HELP))?
        .arg(flag_argument(alloc, "split", SPLIT_HELP))?
        .arg(option_argument(alloc, "config", "FILE", GRID_HELP))?
        .arg(flag_argument(alloc, "script", IMPORT_SCRIPT_HELP))?
        .arg(file_argument(alloc))
}

/// The subcommand that looks at a store.
fn store_command<'a>(alloc: Global) -> Result<Command<'a>, AllocError>
    ensures { IfOk result (IsCommand store_line) }
{
    Command::new(alloc, "store")
        .about(STORE_ABOUT)
        .long_about(STORE_LONG_ABOUT)
        .after_long_help(STORE_EXAMPLES)
        .arg(place_argument(alloc, "ACTION", STORE_ACTION_HELP))?
        .arg(place_argument(alloc, "DIR", STORE_FOLDER_HELP))?
        .arg(flag_argument(alloc, "features", STORE_FEATURES_HELP))
}

/// The subcommand that makes a secret.
fn secret_command<'a>(alloc: Global) -> Result<Command<'a>, AllocError>
    ensures { IfOk result (IsCommand secret_line) }
{
    let name = Arg::new(alloc, "NAME")
        .help(SECRET_NAME_HELP)
        .required(true);
    Command::new(alloc, "secret")
        .about(SECRET_ABOUT)
        .long_about(SECRET_LONG_ABOUT)
        .after_long_help(SECRET_EXAMPLES)
        .arg(name)
}

/// The subcommand that prints the manual page.
fn man_command<'a>(alloc: Global) -> Command<'a>
    ensures { IsCommand man_line result }
{
    Command::new(alloc, "man")
        .about(MAN_ABOUT)
        .long_about(MAN_LONG_ABOUT)
        .after_long_help(MAN_EXAMPLES)
}

/// The subcommand that prints completions.
fn completions_command<'a>(alloc: Global) -> Result<Command<'a>, AllocError>
    ensures { IfOk result (IsCommand completions_line) }
{
    let shell = Arg::new(alloc, "SHELL").help(SHELL_HELP).required(true);
    Command::new(alloc, "completions")
        .about(COMPLETIONS_ABOUT)
        .long_about(COMPLETIONS_LONG_ABOUT)
        .after_long_help(COMPLETIONS_EXAMPLES)
        .arg(shell)
}

/// The command line, without its subcommands.
fn bare_command<'a>(alloc: Global) -> Command<'a>
    ensures { app_of result ≡ bare_line }
{
    Command::new(alloc, "landmap")
        .about(ABOUT)
        .long_about(LONG_ABOUT)
        .after_long_help(EXAMPLES)
        .subcommand_required(true)
        .arg_required_else_help(true)
}

/// The whole command line.
fn command<'a>(alloc: Global) -> Result<Command<'a>, AllocError>
    ensures { IfOk result (λ command. app_of command ≡ command_line) }
{
    bare_command(alloc)
        .subcommand(script_command(alloc)?)?
        .subcommand(serve_command(alloc)?)?
        .subcommand(connect_command(alloc)?)?
        .subcommand(check_command(alloc)?)?
        .subcommand(draw_command(alloc)?)?
        .subcommand(export_command(alloc)?)?
        .subcommand(import_command(alloc)?)?
        .subcommand(store_command(alloc)?)?
        .subcommand(secret_command(alloc)?)?
        .subcommand(man_command(alloc))?
        .subcommand(completions_command(alloc)?)
}

/// What clap makes of the words of a command line.
pub(crate) enum Reading<'a> {
    /// The words are valid, and give these arguments.
    Given(ArgMatches<'a>),
    /// clap's own text: help, or what is wrong with the words.
    Told(Error),
}

/// Reads the words of a command line with clap; the first word is the program's name.
/// `NoMemoryForWords` if clap runs out of memory.
pub(crate) fn clap_reading<'a>(
    alloc: Global,
    words: &'a [String],
) -> Result<Reading<'a>, NoMemoryForWords>
    ensures { IfOk result (IsReading (map (λ word. string_bytes word) words.entry.now)) }
{
    let Ok(command) = command(alloc) else {
        return Err(NoMemoryForWords::seen());
    };
    match command.try_get_matches_from(words) {
        Ok(matches) => Ok(Reading::Given(matches)),
        Err(error) if error.kind() == ErrorKind::OutOfMemory => Err(NoMemoryForWords::seen()),
        Err(error) => Ok(Reading::Told(error)),
    }
}
