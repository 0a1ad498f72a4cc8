//! Links.

ghost use Rattle.std.specs.Prelude.{◌≡◌, ◌++◌, IfOk, OnOk, codes};
ghost use Rattle.map_answers.specs.Links.{after_part, collection_address, collections_path, href_part, item_address, item_part, kept_part, layer_name, limit_part, link_text, next_address, relation_part, type_part};

use crate::answers::MediaType;
use crate::texts::{put, put_number, put_string};
use map_asks::Layer;
use memory::NoMemory;
use std::alloc::Allocator;

/// The name of a collection.
pub fn layer_name(layer: &Layer) -> &[u8]
    ensures { result.now ≡ layer_name layer.now }
{
    match layer {
        Layer::All => b"features",
        Layer::Class(class) => class.as_bytes(),
    }
}

#[tactic(auto, unfolding(crate::specs::Links::relation_part))]
fn put_relation<A: Allocator>(text: &mut Vec<u8, A>, relation: &str) -> Result<(), NoMemory>
    ensures { OnOk result (text.new.items ≡ text.old.items ++ relation_part relation.now) }
{
    put(text, b"{\"rel\":")?;
    put_string(text, relation.as_bytes())
}

#[tactic(auto, unfolding(crate::specs::Links::type_part))]
fn put_type<A: Allocator>(text: &mut Vec<u8, A>, media: MediaType) -> Result<(), NoMemory>
    ensures { OnOk result (text.new.items ≡ text.old.items ++ type_part media) }
{
    put(text, b",\"type\":")?;
    put_string(text, media.text().as_bytes())
}

#[tactic(auto, unfolding(crate::specs::Links::href_part))]
fn put_href<A: Allocator>(text: &mut Vec<u8, A>, address: &[u8]) -> Result<(), NoMemory>
    ensures { OnOk result (text.new.items ≡ text.old.items ++ href_part address.now) }
{
    put(text, b",\"href\":")?;
    put_string(text, address)
}

/// Appends a link to this address: its relation, the type of what is there, and the address.
#[tactic(auto, unfolding(crate::specs::Links::link_text))]
pub fn put_link<A: Allocator>(
    text: &mut Vec<u8, A>,
    relation: &str,
    media: MediaType,
    address: &[u8],
) -> Result<(), NoMemory>
    ensures { OnOk result
        (text.new.items ≡ text.old.items ++ link_text relation.now media address.now) }
{
    put_relation(text, relation)?;
    put_type(text, media)?;
    put_href(text, address)?;
    put(text, b"}")
}

#[tactic(auto, unfolding(crate::specs::Links::collections_path))]
fn put_collections_path<A: Allocator>(text: &mut Vec<u8, A>) -> Result<(), NoMemory>
    ensures { OnOk result (text.new.items ≡ text.old.items ++ collections_path) }
{
    put(text, b"/collections/")
}

#[tactic(auto, unfolding(crate::specs::Links::kept_part))]
fn put_kept<A: Allocator>(text: &mut Vec<u8, A>, kept: u64) -> Result<(), NoMemory>
    ensures { OnOk result (text.new.items ≡ text.old.items ++ kept_part kept) }
{
    put(text, b"/items?kept=")?;
    put_number(text, kept)
}

#[tactic(auto, unfolding(crate::specs::Links::after_part))]
fn put_after<A: Allocator>(text: &mut Vec<u8, A>, after: u64) -> Result<(), NoMemory>
    ensures { OnOk result (text.new.items ≡ text.old.items ++ after_part after) }
{
    put(text, b"&after=")?;
    put_number(text, after)
}

#[tactic(auto, unfolding(crate::specs::Links::limit_part))]
fn put_limit<A: Allocator>(text: &mut Vec<u8, A>, limit: u64) -> Result<(), NoMemory>
    ensures { OnOk result (text.new.items ≡ text.old.items ++ limit_part limit) }
{
    put(text, b"&limit=")?;
    put_number(text, limit)
}

/// The address of a collection, where links begin with this base.
pub fn collection_address<A: Allocator>(
    alloc: A,
    base: &[u8],
    layer: &Layer,
) -> Result<Vec<u8, A>, NoMemory>
    ensures { IfOk result (λ made. made.items ≡ collection_address base.now layer.now) }
{
    let mut address = Vec::new(alloc);
    put(&mut address, base)?;
    put_collections_path(&mut address)?;
    put(&mut address, layer_name(layer))?;
    Ok(address)
}

#[tactic(auto, unfolding(crate::specs::Links::item_part))]
fn put_item_part<A: Allocator>(text: &mut Vec<u8, A>, id: u64) -> Result<(), NoMemory>
    ensures { OnOk result (text.new.items ≡ text.old.items ++ item_part id) }
{
    put(text, b"/items/")?;
    put_number(text, id)
}

/// The address of a feature of a collection, where links begin with this base.
pub fn item_address<A: Allocator>(
    alloc: A,
    base: &[u8],
    layer: &Layer,
    id: u64,
) -> Result<Vec<u8, A>, NoMemory>
    ensures { IfOk result (λ made. made.items ≡ item_address base.now layer.now id) }
{
    let mut address = collection_address(alloc, base, layer)?;
    put_item_part(&mut address, id)?;
    Ok(address)
}

/// The address of a further page: of the kept answer of this number what is behind an id.
pub(crate) fn next_address<A: Allocator>(
    alloc: A,
    base: &[u8],
    layer: &Layer,
    kept: u64,
    after: u64,
    limit: u64,
) -> Result<Vec<u8, A>, NoMemory>
    ensures { IfOk result
        (λ made. made.items ≡ next_address base.now layer.now kept after limit) }
{
    let mut address = collection_address(alloc, base, layer)?;
    put_kept(&mut address, kept)?;
    put_after(&mut address, after)?;
    put_limit(&mut address, limit)?;
    Ok(address)
}
