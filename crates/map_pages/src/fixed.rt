//! The pages that are the same whatever the map has.

ghost use Rattle.std.specs.Prelude.{◌≡◌, ◌++◌, IfOk, OnOk};
ghost use Rattle.map_answers.specs.Answers.{answer_data, found};
ghost use Rattle.map_pages.specs.Fixed.{fixed_text, media_of};

use crate::api::put_api;
use crate::collections::{put_collection, put_collections};
use crate::landing::{put_conformance, put_landing};
use features::Name;
use grid::Grid;
use map_answers::{Answer, MediaType, Status, put};
use map_asks::FixedPage;
use memory::NoMemory;
use std::alloc::Allocator;

/// What the pages of a server speak of.
#[derive(Clone, Copy, Debug)]
pub struct Site<'a> {
    /// What each link begins with: the address of the server, without a slash at its end.
    pub base: &'a [u8],
    /// The grid of all coordinates.
    pub grid: &'a Grid,
    /// The classes that are collections, beside the collection of all features.
    pub classes: &'a [Name],
    /// The page that shows the map in a browser, as HTML.
    pub map: &'a [u8],
}

/// What a page is.
fn media_of(page: &FixedPage) -> MediaType
    ensures { result ≡ media_of page.now }
{
    match page {
        FixedPage::Landing => MediaType::Json,
        FixedPage::Api => MediaType::OpenApi,
        FixedPage::Conformance => MediaType::Json,
        FixedPage::Collections => MediaType::Json,
        FixedPage::Collection(_) => MediaType::Json,
        FixedPage::Map => MediaType::Html,
    }
}

/// Appends the text of a page.
fn put_fixed<A: Allocator + Copy>(
    text: &mut Vec<u8, A>,
    alloc: A,
    site: &Site,
    page: &FixedPage,
) -> Result<(), NoMemory>
    ensures { OnOk result (text.new.items ≡ text.old.items
        ++ fixed_text site.now.base.now site.now.grid.now site.now.classes.now site.now.map.now page.now) }
{
    match page {
        FixedPage::Landing => put_landing(text, alloc, site.base),
        FixedPage::Api => put_api(text, site.base),
        FixedPage::Conformance => put_conformance(text),
        FixedPage::Collections => put_collections(text, alloc, site.base, site.grid, site.classes),
        FixedPage::Collection(layer) => put_collection(text, alloc, site.base, site.grid, layer),
        FixedPage::Map => put(text, site.map),
    }
}

/// A page that is the same whatever the map has.
pub fn fixed_answer<A: Allocator + Copy>(
    alloc: A,
    site: &Site,
    page: &FixedPage,
) -> Result<Answer<A>, NoMemory>
    ensures { IfOk result (λ answer. answer_data answer ≡ found (media_of page.now)
        (fixed_text site.now.base.now site.now.grid.now site.now.classes.now site.now.map.now page.now)) }
{
    let mut body = Vec::new(alloc);
    put_fixed(&mut body, alloc, site, page)?;
    Ok(Answer {
        status: Status::Success,
        media: media_of(page),
        version: None,
        location: None,
        retry_after: None,
        body,
    })
}
