//! For whom a secret is asked.

ghost use Rattle.std.specs.Prelude.{◌≡◌, codes, is_some};
ghost use Rattle.clap.specs.Words.{first_of, found_of, rows_of};
ghost use Rattle.features.specs.Names.{name_of};
ghost use Rattle.command_line.specs.Asking.{IsAskedSecret, IsGiven};

use crate::words::{Asked, Shown};
use clap::ArgMatches;
use features::Name;

/// Whether a text is a name.
fn is_name(text: &str) -> bool
    ensures { result ≡ is_some (name_of text.now) }
{
    Name::new(text.as_bytes()).is_some()
}

/// The name given to `secret`, or a mistake, where it is none. It is required, so it is there.
pub(crate) fn asked_secret<'a>(given: &ArgMatches<'a>) -> Asked<'a>
    requires { IsGiven (codes "secret") (rows_of (found_of given.now)) }
    ensures { IsAskedSecret (λ id. first_of id (rows_of (found_of given.now))) result }
{
    let Some(text) = given.get_str("NAME") else {
        unreachable!()
    };
    if is_name(text) {
        Asked::Secret(text)
    } else {
        Asked::Mistake(Shown::NoName(text))
    }
}
