//! What a method changes at a page.

ghost use Rattle.std.specs.Prelude.{◌≡◌};
ghost use Rattle.map_changes.specs.Targets.{added_at, changed_at, target_at, target_of};

use crate::edits::Method;
use crate::faults::ChangeFault;
use features::Name;
use map_asks::{Layer, Page, page_of};

/// What a request changes.
#[derive(Clone, Copy, Debug)]
pub(crate) enum Target {
    /// A feature is added in this collection.
    Added(Layer),
    /// The feature of this id gets another shape.
    Reshaped(u64),
    /// The feature of this id is removed.
    Deleted(u64),
}

/// The collection to which a page adds.
fn added_at(page: Page) -> Option<Layer>
    ensures { result ≡ added_at page }
{
    match page {
        Page::Items(layer) => Some(layer),
        _ => None,
    }
}

/// The id of the feature that a page changes.
fn changed_at(page: Page) -> Option<u64>
    ensures { result ≡ changed_at page }
{
    match page {
        Page::Item(Layer::All, id) => Some(id),
        _ => None,
    }
}

/// What a method changes at a page; `None` where the page has not this method.
fn target_at(method: Method, page: Page) -> Option<Target>
    ensures { result ≡ target_at method page }
{
    match method {
        Method::Post => Some(Target::Added(added_at(page)?)),
        Method::Put => Some(Target::Reshaped(changed_at(page)?)),
        Method::Patch => Some(Target::Reshaped(changed_at(page)?)),
        Method::Delete => Some(Target::Deleted(changed_at(page)?)),
    }
}

/// What a method changes at a path, where these classes are collections.
#[tactic(auto, unfolding(crate::specs::Targets::target_of))]
pub(crate) fn target_of(
    classes: &[Name],
    method: Method,
    path: &[u8],
) -> Result<Target, ChangeFault>
    ensures { result ≡ target_of classes.now method path.now }
{
    let Some(page) = page_of(classes, path) else {
        return Err(ChangeFault::NoPage);
    };
    match target_at(method, page) {
        Some(target) => Ok(target),
        None => Err(ChangeFault::Method),
    }
}
