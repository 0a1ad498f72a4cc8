//! What may be changed at a page.

ghost use Rattle.std.specs.Prelude.{◌≡◌};
ghost use Rattle.map_changes.specs.Paths.{methods_of};

use features::Name;
use map_asks::{Layer, Page, page_of};

/// The methods that a page has.
#[derive(Clone, Copy, Debug, PartialEq, Eq)]
pub enum Methods {
    /// It is only read: `GET` and `HEAD`.
    Read,
    /// Features are added to it: `POST` too.
    Add,
    /// It is a feature that may be changed: `PUT`, `PATCH` and `DELETE` too.
    Edit,
}

/// The methods that the page of a path has; those of a page that is only read where there is none.
pub fn methods_of(classes: &[Name], path: &[u8]) -> Methods
    ensures { result ≡ methods_of classes.now path.now }
{
    match page_of(classes, path) {
        Some(Page::Items(_)) => Methods::Add,
        Some(Page::Item(Layer::All, _)) => Methods::Edit,
        _ => Methods::Read,
    }
}
