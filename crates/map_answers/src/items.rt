//! Single features.

ghost use Rattle.std.specs.Prelude.{◌≡◌, ◌≤◌, ◌++◌, IfOk, OnOk, length};
ghost use Rattle.map_answers.specs.Answers.{answer_data};
ghost use Rattle.map_answers.specs.Items.{collection_part, feature_data, item_text, opened};
ghost use Rattle.geojson.specs.Texts.{feature_text};

use crate::answers::{Answer, MediaType};
use crate::collections::put_self;
use crate::links::{collection_address, put_link};
use crate::matching::is_known;
use crate::statuses::Status;
use crate::texts::put;
use features::Feature;
use geojson::feature_text;
use grid::Grid;
use map_asks::Layer;
use memory::NoMemory;
use std::alloc::Allocator;

/// A text without its last byte.
fn opened(text: &[u8]) -> &[u8]
    ensures { result.now ≡ opened text.now }
{
    &text[..text.len().saturating_sub(1)]
}

/// Appends the text of a feature, up to the brace that closes it.
fn put_opened<A: Allocator>(
    text: &mut Vec<u8, A>,
    grid: &Grid,
    feature: &Feature,
) -> Result<(), NoMemory>
    ensures { OnOk result
        (text.new.items ≡ text.old.items ++ opened (feature_text grid.now feature.now)) }
{
    put(text, opened(feature_text(grid, feature).as_slice()))
}

/// Appends the link to a collection, behind another one.
#[tactic(auto, unfolding(crate::specs::Items::collection_part))]
fn put_collection_link<A: Allocator>(
    text: &mut Vec<u8, A>,
    alloc: A,
    base: &[u8],
    layer: &Layer,
) -> Result<(), NoMemory>
    ensures { OnOk result (text.new.items ≡ text.old.items ++ collection_part base.now layer.now) }
{
    let address = collection_address(alloc, base, layer)?;
    put(text, b",")?;
    put_link(text, "collection", MediaType::Json, address.as_slice())
}

/// Appends the text of a feature with its links.
fn put_item<A: Allocator + Copy>(
    text: &mut Vec<u8, A>,
    alloc: A,
    grid: &Grid,
    site: &ItemSite,
    feature: &Feature,
) -> Result<(), NoMemory>
    ensures { OnOk result (text.new.items ≡ text.old.items
        ++ item_text grid.now site.now.base.now site.now.address.now site.now.layer feature.now) }
{
    put_opened(text, grid, feature)?;
    put_self(text, site.address)?;
    put_collection_link(text, alloc, site.base, &site.layer)?;
    put(text, b"]}")
}

/// Where a feature is.
#[derive(Clone, Copy, Debug)]
pub struct ItemSite<'a> {
    /// What each link begins with: the address of the server, without a slash at its end.
    pub base: &'a [u8],
    /// The address of the feature.
    pub address: &'a [u8],
    /// Its collection.
    pub layer: Layer,
}

/// The feature, with its version as its entity tag. `known` is the field `if-none-match`, empty
/// where there is none: if it has that tag, only that nothing has changed is told.
pub fn feature_answer<A: Allocator + Copy>(
    alloc: A,
    grid: &Grid,
    site: &ItemSite,
    known: &[u8],
    feature: &Feature,
) -> Result<Answer<A>, NoMemory>
    ensures { IfOk result (λ answer. answer_data answer
        ≡ feature_data known.now feature.now
        (item_text grid.now site.now.base.now site.now.address.now site.now.layer feature.now)) }
{
    let mut body = Vec::new(alloc);
    let status = if is_known(known, feature.version) {
        Status::NotModified
    } else {
        put_item(&mut body, alloc, grid, site, feature)?;
        Status::Success
    };
    Ok(Answer {
        status,
        media: MediaType::GeoJson,
        version: Some(feature.version),
        location: None,
        retry_after: None,
        body,
    })
}
