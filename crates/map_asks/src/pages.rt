//! The page that a path names.

ghost use Rattle.std.specs.Prelude.{◌≡◌};
ghost use Rattle.map_asks.specs.Pages.{is_one_of, layer_named, page_of_layer, collection_page, page_of};

use crate::asks::{FixedPage, Layer, Page};
use crate::cuts::cut;
use features::Name;
use line_words::read_number;

/// Whether a class is among these.
fn is_one_of(classes: &[Name], class: &Name) -> bool
    ensures { result ≡ is_one_of classes.now class.now }
{
    classes.iter().any(|other| *other == *class)
}

/// The collection of this name.
fn layer_named(classes: &[Name], name: &[u8]) -> Option<Layer>
    ensures { result ≡ layer_named classes.now name.now }
{
    if name == b"features".as_slice() {
        return Some(Layer::All);
    }
    let class = Name::new(name)?;
    if is_one_of(classes, &class) {
        Some(Layer::Class(class))
    } else {
        None
    }
}

/// The page of a collection that the rest of a path names.
fn page_of_layer(layer: Layer, rest: &[u8]) -> Option<Page>
    ensures { result ≡ page_of_layer layer rest.now }
{
    if rest.is_empty() {
        return Some(Page::Fixed(FixedPage::Collection(layer)));
    }
    if rest == b"/items".as_slice() {
        return Some(Page::Items(layer));
    }
    if rest.starts_with(b"/items/") {
        let id = read_number(&rest[7..])?;
        return Some(Page::Item(layer, id));
    }
    None
}

/// The page that a path names behind `/collections/`.
#[tactic(auto, unfolding(crate::specs::Pages::collection_page))]
fn collection_page(classes: &[Name], text: &[u8]) -> Option<Page>
    ensures { result ≡ collection_page classes.now text.now }
{
    let (name, rest) = cut(b'/', text);
    let layer = layer_named(classes, name)?;
    page_of_layer(layer, rest)
}

/// The page that a path names, where these classes are collections. Nothing in a path is decoded:
/// no page has a name with an escape.
#[tactic(auto, unfolding(crate::specs::Pages::page_of))]
pub fn page_of(classes: &[Name], path: &[u8]) -> Option<Page>
    ensures { result ≡ page_of classes.now path.now }
{
    if path == b"/".as_slice() {
        Some(Page::Fixed(FixedPage::Landing))
    } else if path == b"/api".as_slice() {
        Some(Page::Fixed(FixedPage::Api))
    } else if path == b"/conformance".as_slice() {
        Some(Page::Fixed(FixedPage::Conformance))
    } else if path == b"/collections".as_slice() {
        Some(Page::Fixed(FixedPage::Collections))
    } else if path == b"/map".as_slice() {
        Some(Page::Fixed(FixedPage::Map))
    } else if path.starts_with(b"/collections/") {
        collection_page(classes, &path[13..])
    } else {
        None
    }
}
