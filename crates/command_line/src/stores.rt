//! What is asked of a store.

ghost use Rattle.std.specs.Prelude.{◌≡◌, Some, codes, option_map};
ghost use Rattle.std.specs.Option.{option_map_or};
ghost use Rattle.clap.specs.Words.{first_of, found_of, rows_of};
ghost use Rattle.command_line.specs.Asking.{IsAskedStore, IsGiven};
ghost use Rattle.command_line.specs.CommandLine.{action_named, waits_named};
ghost use Rattle.command_line.specs.declared.stores.Waits.TheVariants.{All};

use crate::words::{Asked, Shown};
use clap::ArgMatches;

/// For which records a reply of a server with a store waits.
#[derive(Clone, Copy, Debug, PartialEq, Eq)]
pub enum Waits {
    /// For all that there are.
    All,
    /// For those up to the last change of the features or the policy.
    Changes,
}

/// What is done with a store.
#[derive(Clone, Copy, Debug, PartialEq, Eq)]
pub enum StoreAction {
    /// Read all of it, and say whether it is right.
    Check,
    /// Tell what it has, volume by volume.
    List,
    /// Write its records, or its features.
    Export,
}

/// What `store` is given.
#[derive(Clone, Copy)]
pub struct StoreWords<'a> {
    /// What is done.
    pub action: StoreAction,
    /// The store's folder.
    pub folder: &'a str,
    /// Whether features are exported in place of records.
    pub features: bool,
}

/// What `--wait` says by this name: `all` or `changes`.
fn waits_named(name: &str) -> Option<Waits>
    ensures { result ≡ waits_named name.now }
{
    if name == "all" {
        Some(Waits::All)
    } else if name == "changes" {
        Some(Waits::Changes)
    } else {
        None
    }
}

/// What `--wait` says; without it, all.
pub(crate) fn waits_of(given: Option<&str>) -> Option<Waits>
    ensures { result
        ≡ option_map_or waits_named (option_map (λ name. name.now) given.entry) (Some All) }
{
    match given {
        Some(name) => waits_named(name),
        None => Some(Waits::All),
    }
}

/// The action of this name: `check`, `list` or `export`.
pub(crate) fn action_named(name: &str) -> Option<StoreAction>
    ensures { result ≡ action_named name.now }
{
    if name == "check" {
        Some(StoreAction::Check)
    } else if name == "list" {
        Some(StoreAction::List)
    } else if name == "export" {
        Some(StoreAction::Export)
    } else {
        None
    }
}

/// The arguments of `store`, or a mistake, where there is no action of that name. ACTION and DIR are
/// required, so they are there.
pub(crate) fn asked_store<'a>(given: &ArgMatches<'a>) -> Asked<'a>
    requires { IsGiven (codes "store") (rows_of (found_of given.now)) }
    ensures { IsAskedStore (λ id. first_of id (rows_of (found_of given.now))) result }
{
    let Some(name) = given.get_str("ACTION") else {
        unreachable!()
    };
    let Some(folder) = given.get_str("DIR") else {
        unreachable!()
    };
    match action_named(name) {
        Some(action) => Asked::Store(StoreWords {
            action,
            folder,
            features: given.get_flag("features"),
        }),
        None => Asked::Mistake(Shown::NoAction(name)),
    }
}
