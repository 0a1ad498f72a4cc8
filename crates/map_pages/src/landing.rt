//! The landing page, and which parts of the standard are kept.

ghost use Rattle.std.specs.Prelude.{◌≡◌, ◌++◌, IfOk, OnOk, codes};
ghost use Rattle.map_answers.specs.Links.{link_text};
ghost use Rattle.map_pages.specs.Landing.{api_part, conformance_part, conformance_text, data_part, landing_text, map_part, root_part};

use map_answers::{MediaType, put, put_link};
use memory::NoMemory;
use std::alloc::Allocator;

/// An address: a base, and a path behind it.
pub(crate) fn address_of<A: Allocator>(
    alloc: A,
    base: &[u8],
    path: &[u8],
) -> Result<Vec<u8, A>, NoMemory>
    ensures { IfOk result (λ made. made.items ≡ base.now ++ path.now) }
{
    let mut address = Vec::new(alloc);
    put(&mut address, base)?;
    put(&mut address, path)?;
    Ok(address)
}

/// Appends a link to what is at this path.
fn put_path_link<A: Allocator>(
    text: &mut Vec<u8, A>,
    alloc: A,
    base: &[u8],
    relation: &str,
    media: MediaType,
    path: &[u8],
) -> Result<(), NoMemory>
    ensures { OnOk result (text.new.items ≡ text.old.items
        ++ link_text relation.now media (base.now ++ path.now)) }
{
    let address = address_of(alloc, base, path)?;
    put_link(text, relation, media, address.as_slice())
}

/// Appends the head of the landing page, and the link to itself.
fn put_root_part<A: Allocator + Copy>(
    text: &mut Vec<u8, A>,
    alloc: A,
    base: &[u8],
) -> Result<(), NoMemory>
    ensures { OnOk result (text.new.items ≡ text.old.items ++ root_part base.now) }
{
    put(text, b"{\"title\":\"landmap\",\"links\":[")?;
    put_path_link(text, alloc, base, "self", MediaType::Json, b"/")
}

/// Appends the link to the description for programs.
fn put_api_part<A: Allocator + Copy>(
    text: &mut Vec<u8, A>,
    alloc: A,
    base: &[u8],
) -> Result<(), NoMemory>
    ensures { OnOk result (text.new.items ≡ text.old.items ++ api_part base.now) }
{
    put(text, b",")?;
    put_path_link(
        text,
        alloc,
        base,
        "service-desc",
        MediaType::OpenApi,
        b"/api",
    )
}

/// Appends the link to what is kept of the standard.
fn put_conformance_part<A: Allocator + Copy>(
    text: &mut Vec<u8, A>,
    alloc: A,
    base: &[u8],
) -> Result<(), NoMemory>
    ensures { OnOk result (text.new.items ≡ text.old.items ++ conformance_part base.now) }
{
    put(text, b",")?;
    put_path_link(
        text,
        alloc,
        base,
        "conformance",
        MediaType::Json,
        b"/conformance",
    )
}

/// Appends the link to the collections.
fn put_data_part<A: Allocator + Copy>(
    text: &mut Vec<u8, A>,
    alloc: A,
    base: &[u8],
) -> Result<(), NoMemory>
    ensures { OnOk result (text.new.items ≡ text.old.items ++ data_part base.now) }
{
    put(text, b",")?;
    put_path_link(text, alloc, base, "data", MediaType::Json, b"/collections")
}

/// Appends the link to the page that shows the map in a browser.
fn put_map_part<A: Allocator + Copy>(
    text: &mut Vec<u8, A>,
    alloc: A,
    base: &[u8],
) -> Result<(), NoMemory>
    ensures { OnOk result (text.new.items ≡ text.old.items ++ map_part base.now) }
{
    put(text, b",")?;
    put_path_link(text, alloc, base, "alternate", MediaType::Html, b"/map")
}

/// Appends the landing page (OGC API - Features, Part 1, 7.2).
pub(crate) fn put_landing<A: Allocator + Copy>(
    text: &mut Vec<u8, A>,
    alloc: A,
    base: &[u8],
) -> Result<(), NoMemory>
    ensures { OnOk result (text.new.items ≡ text.old.items ++ landing_text base.now) }
{
    put_root_part(text, alloc, base)?;
    put_api_part(text, alloc, base)?;
    put_conformance_part(text, alloc, base)?;
    put_data_part(text, alloc, base)?;
    put_map_part(text, alloc, base)?;
    put(text, b"]}")
}

/// Appends the parts of the standard that are kept (7.4).
#[tactic(auto, unfolding(crate::specs::Landing::conformance_text))]
pub(crate) fn put_conformance<A: Allocator>(text: &mut Vec<u8, A>) -> Result<(), NoMemory>
    ensures { OnOk result (text.new.items ≡ text.old.items ++ conformance_text) }
{
    put(
        text,
        b"{\"conformsTo\":[\"http://www.opengis.net/spec/ogcapi-features-1/1.0/conf/core\",\"http://www.opengis.net/spec/ogcapi-features-1/1.0/conf/geojson\"]}",
    )
}
