//! What an export and an import are given.

ghost use Rattle.std.specs.Prelude.{codes};
ghost use Rattle.clap.specs.Words.{first_of, found_of, rows_of};
ghost use Rattle.command_line.specs.Asking.{HasImport, IsAskedExport, IsAskedImport, IsGiven};

use crate::formats::{Format, format_named};
use crate::words::{Asked, Shown};
use clap::ArgMatches;

/// What `export` is given.
#[derive(Clone, Copy)]
pub struct ExportWords<'a> {
    /// The path of the server's socket.
    pub socket: &'a str,
    /// The subject whose session it is.
    pub subject: &'a str,
    /// The window, as well-known text; `None` for all that may be read.
    pub window: Option<&'a str>,
    /// The class of the features; `None` for all.
    pub class: Option<&'a str>,
    /// The configuration's file, for its grid; `None` for whole numbers.
    pub config: Option<&'a str>,
    /// The form of the output.
    pub format: Format,
}

/// What `import` is given.
#[derive(Clone, Copy)]
pub struct ImportWords<'a> {
    /// The file of the features.
    pub file: &'a str,
    /// The subject whose session it is.
    pub subject: &'a str,
    /// The path of the server's socket; it is there unless a script is asked for.
    pub socket: Option<&'a str>,
    /// The class of all features; `None` for the class that each has.
    pub class: Option<&'a str>,
    /// The configuration's file, for its grid; `None` for whole numbers.
    pub config: Option<&'a str>,
    /// The id of the first row, 1 to `FIRST_ID_LIMIT`; `None` for the ids that the file has.
    pub first_id: Option<u32>,
    /// Whether a row that is refused ends the import.
    pub whole: bool,
    /// Whether lines and regions are cut into shapes.
    pub split: bool,
    /// Whether session lines are written in place of being sent.
    pub script: bool,
}

/// The arguments of `export`, or a mistake, where there is no form of that name. `--socket`, `--as`
/// and `--format` are required, so they are there.
pub(crate) fn asked_export<'a>(given: &ArgMatches<'a>) -> Asked<'a>
    requires { IsGiven (codes "export") (rows_of (found_of given.now)) }
    ensures { IsAskedExport (λ id. first_of id (rows_of (found_of given.now))) result }
{
    let Some(socket) = given.get_str("socket") else {
        unreachable!()
    };
    let Some(subject) = given.get_str("as") else {
        unreachable!()
    };
    let Some(name) = given.get_str("format") else {
        unreachable!()
    };
    match format_named(name) {
        Some(format) => Asked::Export(ExportWords {
            socket,
            subject,
            window: given.get_str("window"),
            class: given.get_str("class"),
            config: given.get_str("config"),
            format,
        }),
        None => Asked::Mistake(Shown::NoFormat(name)),
    }
}

/// The arguments of `import`. `--as` and FILE are required, so they are there.
fn import_words<'a>(given: &ArgMatches<'a>) -> ImportWords<'a>
    requires { IsGiven (codes "import") (rows_of (found_of given.now)) }
    ensures { HasImport (λ id. first_of id (rows_of (found_of given.now))) result }
{
    let Some(file) = given.get_str("FILE") else {
        unreachable!()
    };
    let Some(subject) = given.get_str("as") else {
        unreachable!()
    };
    ImportWords {
        file,
        subject,
        socket: given.get_str("socket"),
        class: given.get_str("class"),
        config: given.get_str("config"),
        first_id: given.get_one::<u32>("first-id"),
        whole: given.get_flag("whole"),
        split: given.get_flag("split"),
        script: given.get_flag("script"),
    }
}

/// The arguments of `import`, or a mistake, where there is neither a server's socket nor `--script`.
pub(crate) fn asked_import<'a>(given: &ArgMatches<'a>) -> Asked<'a>
    requires { IsGiven (codes "import") (rows_of (found_of given.now)) }
    ensures { IsAskedImport (λ id. first_of id (rows_of (found_of given.now))) result }
{
    let words = import_words(given);
    if words.socket.is_none() && !words.script {
        return Asked::Mistake(Shown::NoServer);
    }
    Asked::Import(words)
}
