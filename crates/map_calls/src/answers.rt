//! The answers where all went well.

ghost use Rattle.std.specs.Prelude.{◌≡◌, IfOk};
ghost use Rattle.map_answers.specs.Answers.{answer_data, found};
ghost use Rattle.map_calls.specs.Telling.{edition_data, let_go_data, ruling_data, shown_data, taken_data};

use crate::texts::{piece_address, put_edition, put_ruling, put_taken};
use features::Name;
use map_answers::{Answer, MediaType, Status};
use memory::NoMemory;
use std::alloc::Global;

/// A body that was found.
fn told(media: MediaType, body: Vec<u8>) -> Answer<Global>
    ensures { answer_data result ≡ found media body.items }
{
    Answer {
        status: Status::Success,
        media,
        version: None,
        location: None,
        retry_after: None,
        body,
    }
}

/// What the policy says.
pub(crate) fn ruling(
    heap: Global,
    decision: &str,
    rule: &Option<Name>,
    edition: u64,
) -> Result<Answer<Global>, NoMemory>
    ensures { IfOk result
        (λ answer. answer_data answer ≡ ruling_data decision.now rule.now edition) }
{
    let mut body = Vec::new(heap);
    put_ruling(&mut body, decision, rule, edition)?;
    Ok(told(MediaType::Json, body))
}

/// That a document is in force.
pub(crate) fn in_force(heap: Global, edition: u64) -> Result<Answer<Global>, NoMemory>
    ensures { IfOk result (λ answer. answer_data answer ≡ edition_data edition) }
{
    let mut body = Vec::new(heap);
    put_edition(&mut body, edition)?;
    Ok(told(MediaType::Json, body))
}

/// That the trail was taken out.
pub(crate) fn taken(
    heap: Global,
    base: &[u8],
    piece: u64,
    records: u64,
) -> Result<Answer<Global>, NoMemory>
    ensures { IfOk result (λ answer. answer_data answer ≡ taken_data base.now piece records) }
{
    let address = piece_address(heap, base, piece)?;
    let mut body = Vec::new(heap);
    put_taken(&mut body, piece, records)?;
    Ok(Answer {
        status: Status::Created,
        media: MediaType::Json,
        version: None,
        location: Some(address),
        retry_after: None,
        body,
    })
}

/// The lines of a piece.
pub(crate) fn shown(text: Vec<u8>) -> Answer<Global>
    ensures { answer_data result ≡ shown_data text.items }
{
    told(MediaType::Lines, text)
}

/// That a piece was let go.
pub(crate) fn gone(heap: Global) -> Answer<Global>
    ensures { answer_data result ≡ let_go_data }
{
    Answer {
        status: Status::NoContent,
        media: MediaType::Json,
        version: None,
        location: None,
        retry_after: None,
        body: Vec::new(heap),
    }
}
