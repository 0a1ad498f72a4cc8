//! The collections.

ghost use Rattle.std.specs.Prelude.{◌≡◌, ◌++◌, IfOk, OnOk};
ghost use Rattle.std.specs.List.{flat_map};
ghost use Rattle.map_pages.specs.Collections.{collection_text, collections_text, crs_part, described_text, extent_part, following_collection, id_part, items_address, items_part, list_part, self_part, title_part};

use crate::extents::put_extent;
use crate::landing::address_of;
use features::Name;
use grid::Grid;
use map_answers::{MediaType, collection_address, layer_name, put, put_link, put_string};
use map_asks::Layer;
use memory::NoMemory;
use std::alloc::Allocator;

#[tactic(auto, unfolding(crate::specs::Collections::items_address))]
fn items_address<A: Allocator>(alloc: A, base: &[u8], layer: &Layer) -> Result<Vec<u8, A>, NoMemory>
    ensures { IfOk result (λ made. made.items ≡ items_address base.now layer.now) }
{
    let mut address = collection_address(alloc, base, layer)?;
    put(&mut address, b"/items")?;
    Ok(address)
}

#[tactic(auto, unfolding(crate::specs::Collections::id_part))]
fn put_id<A: Allocator>(text: &mut Vec<u8, A>, layer: &Layer) -> Result<(), NoMemory>
    ensures { OnOk result (text.new.items ≡ text.old.items ++ id_part layer.now) }
{
    put(text, b"{\"id\":")?;
    put_string(text, layer_name(layer))
}

#[tactic(auto, unfolding(crate::specs::Collections::title_part))]
fn put_title<A: Allocator>(text: &mut Vec<u8, A>, layer: &Layer) -> Result<(), NoMemory>
    ensures { OnOk result (text.new.items ≡ text.old.items ++ title_part layer.now) }
{
    put(text, b",\"title\":")?;
    put_string(text, layer_name(layer))
}

#[tactic(auto, unfolding(crate::specs::Collections::extent_part))]
fn put_extent_part<A: Allocator>(text: &mut Vec<u8, A>, grid: &Grid) -> Result<(), NoMemory>
    ensures { OnOk result (text.new.items ≡ text.old.items ++ extent_part grid.now) }
{
    put(text, b",\"itemType\":\"feature\",\"extent\":")?;
    put_extent(text, grid)
}

#[tactic(auto, unfolding(crate::specs::Collections::crs_part))]
fn put_crs_part<A: Allocator>(text: &mut Vec<u8, A>) -> Result<(), NoMemory>
    ensures { OnOk result (text.new.items ≡ text.old.items ++ crs_part) }
{
    put(
        text,
        b",\"crs\":[\"http://www.opengis.net/def/crs/OGC/1.3/CRS84\"],\"links\":[",
    )
}

/// Appends what a collection is, up to its links.
fn put_described<A: Allocator>(
    text: &mut Vec<u8, A>,
    grid: &Grid,
    layer: &Layer,
) -> Result<(), NoMemory>
    ensures { OnOk result (text.new.items ≡ text.old.items ++ described_text grid.now layer.now) }
{
    put_id(text, layer)?;
    put_title(text, layer)?;
    put_extent_part(text, grid)?;
    put_crs_part(text)
}

/// Appends the link of a collection to itself.
#[tactic(auto, unfolding(crate::specs::Collections::self_part))]
fn put_self<A: Allocator>(
    text: &mut Vec<u8, A>,
    alloc: A,
    base: &[u8],
    layer: &Layer,
) -> Result<(), NoMemory>
    ensures { OnOk result (text.new.items ≡ text.old.items ++ self_part base.now layer.now) }
{
    let address = collection_address(alloc, base, layer)?;
    put_link(text, "self", MediaType::Json, address.as_slice())
}

/// Appends the link of a collection to its features, behind another one.
#[tactic(auto, unfolding(crate::specs::Collections::items_part))]
fn put_items<A: Allocator>(
    text: &mut Vec<u8, A>,
    alloc: A,
    base: &[u8],
    layer: &Layer,
) -> Result<(), NoMemory>
    ensures { OnOk result (text.new.items ≡ text.old.items ++ items_part base.now layer.now) }
{
    let address = items_address(alloc, base, layer)?;
    put(text, b",")?;
    put_link(text, "items", MediaType::GeoJson, address.as_slice())
}

/// Appends a collection (OGC API - Features, Part 1, 7.14).
pub(crate) fn put_collection<A: Allocator + Copy>(
    text: &mut Vec<u8, A>,
    alloc: A,
    base: &[u8],
    grid: &Grid,
    layer: &Layer,
) -> Result<(), NoMemory>
    ensures { OnOk result (text.new.items ≡ text.old.items
        ++ collection_text base.now grid.now layer.now) }
{
    put_described(text, grid, layer)?;
    put_self(text, alloc, base, layer)?;
    put_items(text, alloc, base, layer)?;
    put(text, b"]}")
}

/// Appends the collection of a class, behind another one.
fn put_following<A: Allocator + Copy>(
    text: &mut Vec<u8, A>,
    alloc: A,
    base: &[u8],
    grid: &Grid,
    class: Name,
) -> Result<(), NoMemory>
    ensures { OnOk result (text.new.items ≡ text.old.items
        ++ following_collection base.now grid.now class) }
{
    put(text, b",")?;
    put_collection(text, alloc, base, grid, &Layer::Class(class))
}

/// Appends the collections of classes, behind another one.
fn put_all_following<A: Allocator + Copy>(
    text: &mut Vec<u8, A>,
    alloc: A,
    base: &[u8],
    grid: &Grid,
    classes: &[Name],
) -> Result<(), NoMemory>
    ensures { OnOk result (text.new.items ≡ text.old.items
        ++ flat_map (following_collection base.now grid.now) classes.now) }
{
    for class in classes {
        put_following(text, alloc, base, grid, *class)?;
    }
    Ok(())
}

/// Appends the head of the list, and the link to itself.
#[tactic(auto, unfolding(crate::specs::Collections::list_part))]
fn put_list_part<A: Allocator + Copy>(
    text: &mut Vec<u8, A>,
    alloc: A,
    base: &[u8],
) -> Result<(), NoMemory>
    ensures { OnOk result (text.new.items ≡ text.old.items ++ list_part base.now) }
{
    let address = address_of(alloc, base, b"/collections")?;
    put(text, b"{\"links\":[")?;
    put_link(text, "self", MediaType::Json, address.as_slice())?;
    put(text, b"],\"collections\":[")
}

/// Appends the list of collections (7.13): that of all features, and then those of classes.
pub(crate) fn put_collections<A: Allocator + Copy>(
    text: &mut Vec<u8, A>,
    alloc: A,
    base: &[u8],
    grid: &Grid,
    classes: &[Name],
) -> Result<(), NoMemory>
    ensures { OnOk result (text.new.items ≡ text.old.items
        ++ collections_text base.now grid.now classes.now) }
{
    put_list_part(text, alloc, base)?;
    put_collection(text, alloc, base, grid, &Layer::All)?;
    put_all_following(text, alloc, base, grid, classes)?;
    put(text, b"]}")
}
