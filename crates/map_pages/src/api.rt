//! The description of the pages for programs.

ghost use Rattle.std.specs.Prelude.{◌≡◌, ◌++◌, OnOk, codes};
ghost use Rattle.map_answers.specs.Strings.{string_text};
ghost use Rattle.map_pages.specs.Api.{adding_answered, adding_asked, api_head, api_text, change_parameters, collection_path, collections_path, conformance_path, deleting, deleting_answered, fixed_paths, item_get, item_path, items_get, items_path, map_path, patching, patching_body, paths_key, paths_text, replacing, replacing_body, reshaping_answered, root_path};

use crate::call_paths::put_call_paths;
use map_answers::{put, put_string};
use memory::NoMemory;
use std::alloc::Allocator;

#[tactic(auto, unfolding(crate::specs::Api::api_head))]
fn put_api_head<A: Allocator>(text: &mut Vec<u8, A>) -> Result<(), NoMemory>
    ensures { OnOk result (text.new.items ≡ text.old.items ++ api_head) }
{
    put(
        text,
        b"{\"openapi\":\"3.0.3\",\"info\":{\"title\":\"landmap\",\"version\":\"1\"},\"servers\":[{\"url\":",
    )
}

#[tactic(auto, unfolding(crate::specs::Api::paths_key))]
fn put_paths_key<A: Allocator>(text: &mut Vec<u8, A>) -> Result<(), NoMemory>
    ensures { OnOk result (text.new.items ≡ text.old.items ++ paths_key) }
{
    put(text, b"}],\"paths\":{")
}

#[tactic(auto, unfolding(crate::specs::Api::root_path))]
fn put_root_path<A: Allocator>(text: &mut Vec<u8, A>) -> Result<(), NoMemory>
    ensures { OnOk result (text.new.items ≡ text.old.items ++ root_path) }
{
    put(
        text,
        b"\"/\":{\"get\":{\"responses\":{\"200\":{\"description\":\"the landing page\"},\"default\":{\"description\":\"a problem\"}}}}",
    )
}

#[tactic(auto, unfolding(crate::specs::Api::conformance_path))]
fn put_conformance_path<A: Allocator>(text: &mut Vec<u8, A>) -> Result<(), NoMemory>
    ensures { OnOk result (text.new.items ≡ text.old.items ++ conformance_path) }
{
    put(
        text,
        b",\"/conformance\":{\"get\":{\"responses\":{\"200\":{\"description\":\"the parts of the standard that are kept\"},\"default\":{\"description\":\"a problem\"}}}}",
    )
}

#[tactic(auto, unfolding(crate::specs::Api::collections_path))]
fn put_collections_path<A: Allocator>(text: &mut Vec<u8, A>) -> Result<(), NoMemory>
    ensures { OnOk result (text.new.items ≡ text.old.items ++ collections_path) }
{
    put(
        text,
        b",\"/collections\":{\"get\":{\"responses\":{\"200\":{\"description\":\"the collections\"},\"default\":{\"description\":\"a problem\"}}}}",
    )
}

#[tactic(auto, unfolding(crate::specs::Api::collection_path))]
fn put_collection_path<A: Allocator>(text: &mut Vec<u8, A>) -> Result<(), NoMemory>
    ensures { OnOk result (text.new.items ≡ text.old.items ++ collection_path) }
{
    put(
        text,
        b",\"/collections/{collectionId}\":{\"get\":{\"parameters\":[{\"name\":\"collectionId\",\"in\":\"path\",\"required\":true,\"schema\":{\"type\":\"string\"}}],\"responses\":{\"200\":{\"description\":\"a collection\"},\"default\":{\"description\":\"a problem\"}}}}",
    )
}

#[tactic(auto, unfolding(crate::specs::Api::map_path))]
fn put_map_path<A: Allocator>(text: &mut Vec<u8, A>) -> Result<(), NoMemory>
    ensures { OnOk result (text.new.items ≡ text.old.items ++ map_path) }
{
    put(
        text,
        b",\"/map\":{\"get\":{\"responses\":{\"200\":{\"description\":\"a page that shows the map in a browser\",\"content\":{\"text/html\":{}}},\"default\":{\"description\":\"a problem\"}}}}",
    )
}

#[tactic(auto, unfolding(crate::specs::Api::items_get))]
fn put_items_get<A: Allocator>(text: &mut Vec<u8, A>) -> Result<(), NoMemory>
    ensures { OnOk result (text.new.items ≡ text.old.items ++ items_get) }
{
    put(
        text,
        b",\"/collections/{collectionId}/items\":{\"get\":{\"parameters\":[{\"name\":\"collectionId\",\"in\":\"path\",\"required\":true,\"schema\":{\"type\":\"string\"}},{\"name\":\"bbox\",\"in\":\"query\",\"schema\":{\"type\":\"array\",\"minItems\":4,\"maxItems\":6,\"items\":{\"type\":\"number\"}},\"style\":\"form\",\"explode\":false},{\"name\":\"limit\",\"in\":\"query\",\"schema\":{\"type\":\"integer\",\"minimum\":1,\"maximum\":10000,\"default\":1000}},{\"name\":\"datetime\",\"in\":\"query\",\"schema\":{\"type\":\"string\"}},{\"name\":\"kept\",\"in\":\"query\",\"schema\":{\"type\":\"integer\"}},{\"name\":\"after\",\"in\":\"query\",\"schema\":{\"type\":\"integer\"}}],\"responses\":{\"200\":{\"description\":\"a page of features\"},\"default\":{\"description\":\"a problem\"}}}",
    )
}

#[tactic(auto, unfolding(crate::specs::Api::item_get))]
fn put_item_get<A: Allocator>(text: &mut Vec<u8, A>) -> Result<(), NoMemory>
    ensures { OnOk result (text.new.items ≡ text.old.items ++ item_get) }
{
    put(
        text,
        b",\"/collections/{collectionId}/items/{featureId}\":{\"get\":{\"parameters\":[{\"name\":\"collectionId\",\"in\":\"path\",\"required\":true,\"schema\":{\"type\":\"string\"}},{\"name\":\"featureId\",\"in\":\"path\",\"required\":true,\"schema\":{\"type\":\"integer\"}}],\"responses\":{\"200\":{\"description\":\"a feature\"},\"default\":{\"description\":\"a problem\"}}}",
    )
}

#[tactic(auto, unfolding(crate::specs::Api::adding_asked))]
fn put_adding_asked<A: Allocator>(text: &mut Vec<u8, A>) -> Result<(), NoMemory>
    ensures { OnOk result (text.new.items ≡ text.old.items ++ adding_asked) }
{
    put(
        text,
        b",\"post\":{\"parameters\":[{\"name\":\"collectionId\",\"in\":\"path\",\"required\":true,\"schema\":{\"type\":\"string\"}}],\"requestBody\":{\"required\":true,\"content\":{\"application/geo+json\":{\"schema\":{\"type\":\"object\",\"required\":[\"type\",\"id\",\"geometry\"],\"properties\":{\"type\":{\"type\":\"string\",\"enum\":[\"Feature\"]},\"id\":{\"type\":\"integer\",\"minimum\":0},\"geometry\":{\"type\":\"object\"},\"properties\":{\"type\":\"object\",\"properties\":{\"class\":{\"type\":\"string\"}}}}}}}}",
    )
}

#[tactic(auto, unfolding(crate::specs::Api::adding_answered))]
fn put_adding_answered<A: Allocator>(text: &mut Vec<u8, A>) -> Result<(), NoMemory>
    ensures { OnOk result (text.new.items ≡ text.old.items ++ adding_answered) }
{
    put(
        text,
        b",\"responses\":{\"201\":{\"description\":\"it was added\",\"headers\":{\"location\":{\"schema\":{\"type\":\"string\"}},\"etag\":{\"schema\":{\"type\":\"string\"}}}},\"403\":{\"description\":\"the policy denies it\"},\"409\":{\"description\":\"the id is in use\"},\"415\":{\"description\":\"a body of another type\"},\"422\":{\"description\":\"no feature that can be added\"},\"default\":{\"description\":\"a problem\"}}}",
    )
}

#[tactic(auto, unfolding(crate::specs::Api::change_parameters))]
fn put_change_parameters<A: Allocator>(text: &mut Vec<u8, A>) -> Result<(), NoMemory>
    ensures { OnOk result (text.new.items ≡ text.old.items ++ change_parameters) }
{
    put(
        text,
        b"\"parameters\":[{\"name\":\"collectionId\",\"in\":\"path\",\"required\":true,\"schema\":{\"type\":\"string\",\"enum\":[\"features\"]}},{\"name\":\"featureId\",\"in\":\"path\",\"required\":true,\"schema\":{\"type\":\"integer\"}},{\"name\":\"if-match\",\"in\":\"header\",\"required\":true,\"schema\":{\"type\":\"string\"}}]",
    )
}

#[tactic(auto, unfolding(crate::specs::Api::replacing_body))]
fn put_replacing_body<A: Allocator>(text: &mut Vec<u8, A>) -> Result<(), NoMemory>
    ensures { OnOk result (text.new.items ≡ text.old.items ++ replacing_body) }
{
    put(
        text,
        b",\"requestBody\":{\"required\":true,\"content\":{\"application/geo+json\":{\"schema\":{\"type\":\"object\",\"required\":[\"type\",\"geometry\"],\"properties\":{\"type\":{\"type\":\"string\",\"enum\":[\"Feature\"]},\"geometry\":{\"type\":\"object\"}}}}}}",
    )
}

#[tactic(auto, unfolding(crate::specs::Api::patching_body))]
fn put_patching_body<A: Allocator>(text: &mut Vec<u8, A>) -> Result<(), NoMemory>
    ensures { OnOk result (text.new.items ≡ text.old.items ++ patching_body) }
{
    put(
        text,
        b",\"requestBody\":{\"required\":true,\"content\":{\"application/geo+json\":{\"schema\":{\"type\":\"object\"}},\"application/merge-patch+json\":{\"schema\":{\"type\":\"object\"}}}}",
    )
}

#[tactic(auto, unfolding(crate::specs::Api::reshaping_answered))]
fn put_reshaping_answered<A: Allocator>(text: &mut Vec<u8, A>) -> Result<(), NoMemory>
    ensures { OnOk result (text.new.items ≡ text.old.items ++ reshaping_answered) }
{
    put(
        text,
        b",\"responses\":{\"204\":{\"description\":\"it has this shape\",\"headers\":{\"etag\":{\"schema\":{\"type\":\"string\"}}}},\"403\":{\"description\":\"the policy denies it\"},\"404\":{\"description\":\"no such feature\"},\"412\":{\"description\":\"it is of another version\"},\"415\":{\"description\":\"a body of another type\"},\"422\":{\"description\":\"no shape that can be stored\"},\"428\":{\"description\":\"if-match is missing\"},\"default\":{\"description\":\"a problem\"}}}",
    )
}

#[tactic(auto, unfolding(crate::specs::Api::deleting_answered))]
fn put_deleting_answered<A: Allocator>(text: &mut Vec<u8, A>) -> Result<(), NoMemory>
    ensures { OnOk result (text.new.items ≡ text.old.items ++ deleting_answered) }
{
    put(
        text,
        b",\"responses\":{\"204\":{\"description\":\"it was deleted\"},\"403\":{\"description\":\"the policy denies it\"},\"404\":{\"description\":\"no such feature\"},\"412\":{\"description\":\"it is of another version\"},\"428\":{\"description\":\"if-match is missing\"},\"default\":{\"description\":\"a problem\"}}}",
    )
}

/// Appends the path of the features of a collection.
fn put_items_path<A: Allocator>(text: &mut Vec<u8, A>) -> Result<(), NoMemory>
    ensures { OnOk result (text.new.items ≡ text.old.items ++ items_path) }
{
    put_items_get(text)?;
    put_adding_asked(text)?;
    put_adding_answered(text)?;
    put(text, b"}")
}

/// Appends how a feature is given another shape, as a whole.
fn put_replacing<A: Allocator>(text: &mut Vec<u8, A>) -> Result<(), NoMemory>
    ensures { OnOk result (text.new.items ≡ text.old.items ++ replacing) }
{
    put(text, b",\"put\":{")?;
    put_change_parameters(text)?;
    put_replacing_body(text)?;
    put_reshaping_answered(text)
}

/// Appends how a feature is given another shape, in part.
fn put_patching<A: Allocator>(text: &mut Vec<u8, A>) -> Result<(), NoMemory>
    ensures { OnOk result (text.new.items ≡ text.old.items ++ patching) }
{
    put(text, b",\"patch\":{")?;
    put_change_parameters(text)?;
    put_patching_body(text)?;
    put_reshaping_answered(text)
}

/// Appends how a feature is deleted.
fn put_deleting<A: Allocator>(text: &mut Vec<u8, A>) -> Result<(), NoMemory>
    ensures { OnOk result (text.new.items ≡ text.old.items ++ deleting) }
{
    put(text, b",\"delete\":{")?;
    put_change_parameters(text)?;
    put_deleting_answered(text)
}

/// Appends the path of one feature.
fn put_item_path<A: Allocator>(text: &mut Vec<u8, A>) -> Result<(), NoMemory>
    ensures { OnOk result (text.new.items ≡ text.old.items ++ item_path) }
{
    put_item_get(text)?;
    put_replacing(text)?;
    put_patching(text)?;
    put_deleting(text)?;
    put(text, b"}")
}

/// Appends the paths of the pages that are the same whatever the map has.
fn put_fixed_paths<A: Allocator>(text: &mut Vec<u8, A>) -> Result<(), NoMemory>
    ensures { OnOk result (text.new.items ≡ text.old.items ++ fixed_paths) }
{
    put_root_path(text)?;
    put_conformance_path(text)?;
    put_collections_path(text)?;
    put_collection_path(text)?;
    put_map_path(text)
}

/// Appends the paths.
#[tactic(auto, unfolding(crate::specs::Api::paths_text))]
fn put_paths<A: Allocator>(text: &mut Vec<u8, A>) -> Result<(), NoMemory>
    ensures { OnOk result (text.new.items ≡ text.old.items ++ paths_text) }
{
    put_fixed_paths(text)?;
    put_items_path(text)?;
    put_item_path(text)?;
    put_call_paths(text)?;
    put(text, b"}}")
}

/// Appends the description of the pages for programs (OpenAPI 3.0).
pub(crate) fn put_api<A: Allocator>(text: &mut Vec<u8, A>, base: &[u8]) -> Result<(), NoMemory>
    ensures { OnOk result (text.new.items ≡ text.old.items ++ api_text base.now) }
{
    put_api_head(text)?;
    put_string(text, base)?;
    put_paths_key(text)?;
    put_paths(text)
}
