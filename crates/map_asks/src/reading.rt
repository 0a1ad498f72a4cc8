//! Reads what a request asks for.

ghost use Rattle.std.specs.Prelude.{◌≡◌};
ghost use Rattle.map_asks.specs.Asking.{ask_of, ask_of_page, plain};

use crate::asks::{Ask, Page};
use crate::faults::AskFault;
use crate::pages::page_of;
use crate::queries::{is_empty, read_items};
use features::Name;
use grid::Grid;

/// An ask of a page that has no parameters.
fn plain(ask: Ask, query: &[u8]) -> Result<Ask, AskFault>
    ensures { result ≡ plain ask query.now }
{
    if is_empty(query) {
        Ok(ask)
    } else {
        Err(AskFault::UnknownParameter)
    }
}

/// What is asked of a page.
fn ask_of_page(grid: &Grid, page: Page, query: &[u8]) -> Result<Ask, AskFault>
    ensures { result ≡ ask_of_page grid.now page query.now }
{
    match page {
        Page::Fixed(fixed) => plain(Ask::Fixed(fixed), query),
        Page::Items(layer) => match read_items(grid, query) {
            Ok(items) => Ok(Ask::Items(layer, items)),
            Err(fault) => Err(fault),
        },
        Page::Item(layer, id) => plain(Ask::Item(layer, id), query),
    }
}

/// What a request for this path with this query asks for, where these classes are collections and
/// the grid says which number a coordinate means. The query is what stands behind the question
/// mark; it is empty where there is none.
///
/// The first fault in this order: `NoPage` for a path that names no page, by which no query counts;
/// then of each parameter in turn `UnknownParameter`, `Twice`, `Value`; then `Apart`. Takes no
/// memory.
#[tactic(auto, unfolding(crate::specs::Asking::ask_of))]
pub fn read_ask(grid: &Grid, classes: &[Name], path: &[u8], query: &[u8]) -> Result<Ask, AskFault>
    ensures { result ≡ ask_of grid.now classes.now path.now query.now }
{
    let Some(page) = page_of(classes, path) else {
        return Err(AskFault::NoPage);
    };
    ask_of_page(grid, page, query)
}
