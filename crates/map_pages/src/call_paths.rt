//! What the description for programs says of lists of changes, of the policy and of the trail.

ghost use Rattle.std.specs.Prelude.{◌≡◌, ◌++◌, OnOk};
ghost use Rattle.map_pages.specs.CallPaths.{call_paths, explain_path, lists_path, piece_path, policy_path, trail_path};

use map_answers::put;
use memory::NoMemory;
use std::alloc::Allocator;

#[tactic(auto, unfolding(crate::specs::CallPaths::lists_path))]
fn put_lists_path<A: Allocator>(text: &mut Vec<u8, A>) -> Result<(), NoMemory>
    ensures { OnOk result (text.new.items ≡ text.old.items ++ lists_path) }
{
    put(
        text,
        b",\"/transactions\":{\"post\":{\"requestBody\":{\"required\":true,\"content\":{\"application/json\":{\"schema\":{\"type\":\"object\",\"required\":[\"changes\"],\"properties\":{\"changes\":{\"type\":\"array\",\"minItems\":1,\"maxItems\":16,\"items\":{\"type\":\"object\",\"required\":[\"action\"],\"properties\":{\"action\":{\"type\":\"string\",\"enum\":[\"add\",\"reshape\",\"delete\"]},\"feature\":{\"type\":\"object\"},\"id\":{\"type\":\"integer\",\"minimum\":0},\"version\":{\"type\":\"integer\",\"minimum\":1},\"geometry\":{\"type\":\"object\"}}}}}}}}},\"responses\":{\"200\":{\"description\":\"the list took effect whole\"},\"403\":{\"description\":\"the policy denies a change, and the list has no effect\"},\"409\":{\"description\":\"a feature is not as a change has it, and the list has no effect\"},\"default\":{\"description\":\"a problem\"}}}}",
    )
}

#[tactic(auto, unfolding(crate::specs::CallPaths::explain_path))]
fn put_explain_path<A: Allocator>(text: &mut Vec<u8, A>) -> Result<(), NoMemory>
    ensures { OnOk result (text.new.items ≡ text.old.items ++ explain_path) }
{
    put(
        text,
        b",\"/explain\":{\"get\":{\"parameters\":[{\"name\":\"action\",\"in\":\"query\",\"required\":true,\"schema\":{\"type\":\"string\",\"enum\":[\"read\",\"add\",\"reshape\",\"delete\"]}},{\"name\":\"office\",\"in\":\"query\",\"required\":true,\"schema\":{\"type\":\"string\"}},{\"name\":\"class\",\"in\":\"query\",\"required\":true,\"schema\":{\"type\":\"string\"}},{\"name\":\"geometry\",\"in\":\"query\",\"required\":true,\"schema\":{\"type\":\"string\"}}],\"responses\":{\"200\":{\"description\":\"the ruling of the policy in force\"},\"default\":{\"description\":\"a problem\"}}}}",
    )
}

#[tactic(auto, unfolding(crate::specs::CallPaths::policy_path))]
fn put_policy_path<A: Allocator>(text: &mut Vec<u8, A>) -> Result<(), NoMemory>
    ensures { OnOk result (text.new.items ≡ text.old.items ++ policy_path) }
{
    put(
        text,
        b",\"/policy\":{\"put\":{\"requestBody\":{\"required\":true,\"content\":{\"application/json\":{\"schema\":{\"type\":\"object\"}}}},\"responses\":{\"200\":{\"description\":\"it is in force\"},\"403\":{\"description\":\"who asks is no steward\"},\"422\":{\"description\":\"no policy document\"},\"default\":{\"description\":\"a problem\"}}}}",
    )
}

#[tactic(auto, unfolding(crate::specs::CallPaths::trail_path))]
fn put_trail_path<A: Allocator>(text: &mut Vec<u8, A>) -> Result<(), NoMemory>
    ensures { OnOk result (text.new.items ≡ text.old.items ++ trail_path) }
{
    put(
        text,
        b",\"/trail\":{\"post\":{\"responses\":{\"201\":{\"description\":\"the trail was taken out, and is kept as a piece\",\"headers\":{\"location\":{\"schema\":{\"type\":\"string\"}}}},\"403\":{\"description\":\"who asks is no steward\"},\"409\":{\"description\":\"as many pieces are kept as may be\"},\"default\":{\"description\":\"a problem\"}}}}",
    )
}

#[tactic(auto, unfolding(crate::specs::CallPaths::piece_path))]
fn put_piece_path<A: Allocator>(text: &mut Vec<u8, A>) -> Result<(), NoMemory>
    ensures { OnOk result (text.new.items ≡ text.old.items ++ piece_path) }
{
    put(
        text,
        b",\"/trail/{pieceId}\":{\"get\":{\"parameters\":[{\"name\":\"pieceId\",\"in\":\"path\",\"required\":true,\"schema\":{\"type\":\"integer\",\"minimum\":1}}],\"responses\":{\"200\":{\"description\":\"the records of the piece, a line each\",\"content\":{\"application/x-ndjson\":{}}},\"default\":{\"description\":\"a problem\"}}},\"delete\":{\"parameters\":[{\"name\":\"pieceId\",\"in\":\"path\",\"required\":true,\"schema\":{\"type\":\"integer\",\"minimum\":1}}],\"responses\":{\"204\":{\"description\":\"it is kept no longer\"},\"default\":{\"description\":\"a problem\"}}}}",
    )
}

/// Appends the paths of lists of changes, of the policy and of the trail.
pub(crate) fn put_call_paths<A: Allocator>(text: &mut Vec<u8, A>) -> Result<(), NoMemory>
    ensures { OnOk result (text.new.items ≡ text.old.items ++ call_paths) }
{
    put_lists_path(text)?;
    put_explain_path(text)?;
    put_policy_path(text)?;
    put_trail_path(text)?;
    put_piece_path(text)
}
