//! Pages of features, as FeatureCollections.

ghost use Rattle.std.specs.Prelude.{◌≡◌, ◌++◌, IfOk, OnOk, length};
ghost use Rattle.std.specs.List.{flat_map};
ghost use Rattle.map_answers.specs.Answers.{answer_data, found};
ghost use Rattle.map_answers.specs.Collections.{features_part, features_text, following_feature, matched_part, next_text, page_data, page_text, returned_part, self_part};

use crate::answers::{Answer, MediaType};
use crate::links::{next_address, put_link};
use crate::rows::{next_after, page};
use crate::statuses::Status;
use crate::texts::{put, put_number};
use features::Feature;
use geojson::feature_text;
use grid::Grid;
use map_asks::Layer;
use memory::NoMemory;
use std::alloc::Allocator;

/// A page of the features of a collection.
#[derive(Clone, Copy, Debug)]
pub struct FeaturePage<'a> {
    /// What each link begins with: the address of the server, without a slash at its end.
    pub base: &'a [u8],
    /// The address of this page.
    pub address: &'a [u8],
    /// The collection.
    pub layer: Layer,
    /// All that was asked for of the collection, by rising id.
    pub rows: &'a [Feature],
    /// The number under which the rows are kept for further pages, if they are.
    pub kept: Option<u64>,
    /// The page has what is behind this id.
    pub after: Option<u64>,
    /// The most features of the page.
    pub limit: u64,
}

/// Appends a feature behind another one.
fn put_following<A: Allocator>(
    text: &mut Vec<u8, A>,
    grid: &Grid,
    row: &Feature,
) -> Result<(), NoMemory>
    ensures { OnOk result
        (text.new.items ≡ text.old.items ++ following_feature grid.now row.now) }
{
    put(text, b",")?;
    put(text, feature_text(grid, row).as_slice())
}

/// Appends features behind another one.
fn put_all_following<A: Allocator>(
    text: &mut Vec<u8, A>,
    grid: &Grid,
    rows: &[Feature],
) -> Result<(), NoMemory>
    ensures { OnOk result
        (text.new.items ≡ text.old.items ++ flat_map (following_feature grid.now) rows.now) }
{
    for row in rows {
        put_following(text, grid, row)?;
    }
    Ok(())
}

/// Appends features with commas between them.
fn put_features<A: Allocator>(
    text: &mut Vec<u8, A>,
    grid: &Grid,
    rows: &[Feature],
) -> Result<(), NoMemory>
    ensures { OnOk result
        (text.new.items ≡ text.old.items ++ features_text grid.now rows.now) }
{
    match rows {
        [] => Ok(()),
        [first, rest @ ..] => {
            put(text, feature_text(grid, first).as_slice())?;
            put_all_following(text, grid, rest)
        }
    }
}

/// Appends the link to the next page, if there is one.
fn put_next<A: Allocator + Copy>(
    text: &mut Vec<u8, A>,
    alloc: A,
    page: &FeaturePage,
) -> Result<(), NoMemory>
    ensures { OnOk result
        (text.new.items ≡ text.old.items
        ++ next_text page.now.base.now page.now.layer page.now.kept page.now.after page.now.limit
        page.now.rows.now) }
{
    let Some(kept) = page.kept else {
        return Ok(());
    };
    let Some(after) = next_after(page.rows, page.after, page.limit) else {
        return Ok(());
    };
    let address = next_address(alloc, page.base, &page.layer, kept, after, page.limit)?;
    put(text, b",")?;
    put_link(text, "next", MediaType::GeoJson, address.as_slice())
}

#[tactic(auto, unfolding(crate::specs::Collections::matched_part))]
fn put_matched<A: Allocator>(text: &mut Vec<u8, A>, count: usize) -> Result<(), NoMemory>
    ensures { OnOk result (text.new.items ≡ text.old.items ++ matched_part count) }
{
    put(text, b"{\"type\":\"FeatureCollection\",\"numberMatched\":")?;
    put_number(text, count as u64)
}

#[tactic(auto, unfolding(crate::specs::Collections::returned_part))]
fn put_returned<A: Allocator>(text: &mut Vec<u8, A>, count: usize) -> Result<(), NoMemory>
    ensures { OnOk result (text.new.items ≡ text.old.items ++ returned_part count) }
{
    put(text, b",\"numberReturned\":")?;
    put_number(text, count as u64)
}

/// Appends the beginning of the links, and the first one: to what is at this address.
#[tactic(auto, unfolding(crate::specs::Collections::self_part))]
pub(crate) fn put_self<A: Allocator>(text: &mut Vec<u8, A>, address: &[u8]) -> Result<(), NoMemory>
    ensures { OnOk result (text.new.items ≡ text.old.items ++ self_part address.now) }
{
    put(text, b",\"links\":[")?;
    put_link(text, "self", MediaType::GeoJson, address)
}

#[tactic(auto, unfolding(crate::specs::Collections::features_part))]
fn put_listed<A: Allocator>(
    text: &mut Vec<u8, A>,
    grid: &Grid,
    rows: &[Feature],
) -> Result<(), NoMemory>
    ensures { OnOk result (text.new.items ≡ text.old.items ++ features_part grid.now rows.now) }
{
    put(text, b"],\"features\":[")?;
    put_features(text, grid, rows)?;
    put(text, b"]}")
}

/// Appends the text of a page.
fn put_page<A: Allocator + Copy>(
    text: &mut Vec<u8, A>,
    alloc: A,
    grid: &Grid,
    asked: &FeaturePage,
) -> Result<(), NoMemory>
    ensures { OnOk result
        (text.new.items ≡ text.old.items ++ page_text grid.now (page_data asked.now)) }
{
    let rows = page(asked.rows, asked.after, asked.limit);
    put_matched(text, asked.rows.len())?;
    put_returned(text, rows.len())?;
    put_self(text, asked.address)?;
    put_next(text, alloc, asked)?;
    put_listed(text, grid, rows)
}

/// A page of features, as a FeatureCollection (RFC 7946, 3.3) with links and numbers.
pub fn page_answer<A: Allocator + Copy>(
    alloc: A,
    grid: &Grid,
    asked: &FeaturePage,
) -> Result<Answer<A>, NoMemory>
    ensures { IfOk result
        (λ answer. answer_data answer ≡ found MediaType.GeoJson (page_text grid.now (page_data asked.now))) }
{
    let mut body = Vec::new(alloc);
    put_page(&mut body, alloc, grid, asked)?;
    Ok(Answer {
        status: Status::Success,
        media: MediaType::GeoJson,
        version: None,
        location: None,
        retry_after: None,
        body,
    })
}
