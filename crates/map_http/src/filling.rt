//! Answers as responses of HTTP.

ghost use Rattle.std.specs.Prelude.{◌≡◌, ◌++◌, OnOk, option_map};
ghost use Rattle.http_server.specs.Response.{IsBlank, fields_of};
ghost use Rattle.map_answers.specs.Answers.{answer_data, answered, media_text};
ghost use Rattle.map_http.specs.Responses.{HasNoRoom, Tells, Told, add_methods, allow_fields, allow_text, answer_fields, asker_fields, challenge_fields, challenge_text, content_fields, edit_methods, entity_fields, location_fields, media_fields, own_fields, own_fields_by, piece_methods, post_methods, private_text, proxy_field, put_methods, read_methods, retry_fields, secret_field, sniff_fields, tag_fields};

use crate::askers::Way;
use crate::routes::Allow;
use bytes::Bytes;
use http::{HeaderValue, StatusCode, header};
use http_server::Response;
use map_answers::{Answer, MediaType, Status, tag_of};
use memory::NoMemory;
use std::alloc::Global;

/// There was no room for a part of a response.
#[derive(Clone, Copy, Debug)]
pub(crate) struct Unfilled;

/// The type of the body.
#[tactic(auto, using(crate::proofs::FieldLemmas::media_is_visible))]
fn media_value(media: MediaType) -> HeaderValue
    ensures { result.bytes ≡ media_text media }
{
    HeaderValue::from_static(media.text())
}

/// Adds the type of the body, where there is a body.
fn add_media(response: &mut Response, media: MediaType, len: usize) -> Result<(), Unfilled>
    ensures fields { OnOk result
        (fields_of response.new ≡ fields_of response.old ++ media_fields media len) }
    ensures status { response.new.status ≡ response.old.status }
    ensures body { response.new.body ≡ response.old.body }
{
    if len == 0 {
        return Ok(());
    }
    match response.add_header(header::CONTENT_TYPE, media_value(media)) {
        Ok(()) => Ok(()),
        Err(_) => Err(Unfilled),
    }
}

/// Adds the entity tag of a feature.
fn add_tag(response: &mut Response, heap: Global, version: Option<u64>) -> Result<(), Unfilled>
    ensures fields { OnOk result
        (fields_of response.new ≡ fields_of response.old ++ tag_fields version) }
    ensures status { response.new.status ≡ response.old.status }
    ensures body { response.new.body ≡ response.old.body }
{
    let Some(version) = version else {
        return Ok(());
    };
    let Ok(value) = HeaderValue::from_bytes(heap, tag_of(version).as_slice()) else {
        return Err(Unfilled);
    };
    match response.add_header(header::ETAG, value) {
        Ok(()) => Ok(()),
        Err(_) => Err(Unfilled),
    }
}

/// Adds in how many seconds the client may try again.
fn add_retry(response: &mut Response, heap: Global, seconds: Option<u64>) -> Result<(), Unfilled>
    ensures fields { OnOk result
        (fields_of response.new ≡ fields_of response.old ++ retry_fields seconds) }
    ensures status { response.new.status ≡ response.old.status }
    ensures body { response.new.body ≡ response.old.body }
{
    let Some(seconds) = seconds else {
        return Ok(());
    };
    let Ok(value) = HeaderValue::from_u64(heap, seconds) else {
        return Err(Unfilled);
    };
    match response.add_header(header::RETRY_AFTER, value) {
        Ok(()) => Ok(()),
        Err(_) => Err(Unfilled),
    }
}

/// Adds the address of a feature that was added.
fn add_location(
    response: &mut Response,
    heap: Global,
    address: &Option<Vec<u8>>,
) -> Result<(), Unfilled>
    ensures fields { OnOk result (fields_of response.new
        ≡ fields_of response.old ++ location_fields (option_map (λ a. a.items) address.now)) }
    ensures status { response.new.status ≡ response.old.status }
    ensures body { response.new.body ≡ response.old.body }
{
    let Some(address) = address else {
        return Ok(());
    };
    let Ok(value) = HeaderValue::from_bytes(heap, address.as_slice()) else {
        return Err(Unfilled);
    };
    match response.add_header(header::LOCATION, value) {
        Ok(()) => Ok(()),
        Err(_) => Err(Unfilled),
    }
}

/// The methods of a page that is only read.
#[tactic(auto, unfolding(crate::specs::Responses::read_methods))]
fn read_methods() -> HeaderValue
    ensures { result.bytes ≡ read_methods }
{
    HeaderValue::from_static("GET, HEAD")
}

/// The methods of a page to which features are added.
#[tactic(auto, unfolding(crate::specs::Responses::add_methods))]
fn add_methods() -> HeaderValue
    ensures { result.bytes ≡ add_methods }
{
    HeaderValue::from_static("GET, HEAD, POST")
}

/// The methods of a feature that may be changed.
#[tactic(auto, unfolding(crate::specs::Responses::edit_methods))]
fn edit_methods() -> HeaderValue
    ensures { result.bytes ≡ edit_methods }
{
    HeaderValue::from_static("GET, HEAD, PUT, PATCH, DELETE")
}

/// The methods of a page to which a list, or a roll of the trail, is posted.
#[tactic(auto, unfolding(crate::specs::Responses::post_methods))]
fn post_methods() -> HeaderValue
    ensures { result.bytes ≡ post_methods }
{
    HeaderValue::from_static("POST")
}

/// The methods of the policy.
#[tactic(auto, unfolding(crate::specs::Responses::put_methods))]
fn put_methods() -> HeaderValue
    ensures { result.bytes ≡ put_methods }
{
    HeaderValue::from_static("PUT")
}

/// The methods of a piece of the trail.
#[tactic(auto, unfolding(crate::specs::Responses::piece_methods))]
fn piece_methods() -> HeaderValue
    ensures { result.bytes ≡ piece_methods }
{
    HeaderValue::from_static("GET, HEAD, DELETE")
}

/// The methods that there are.
fn allow_value(allow: Allow) -> HeaderValue
    ensures { result.bytes ≡ allow_text allow }
{
    match allow {
        Allow::Read => read_methods(),
        Allow::Add => add_methods(),
        Allow::Edit => edit_methods(),
        Allow::Post => post_methods(),
        Allow::Put => put_methods(),
        Allow::Piece => piece_methods(),
    }
}

/// Adds which methods there are, where another one was asked for.
fn add_allow(response: &mut Response, allow: Allow, status: Status) -> Result<(), Unfilled>
    ensures fields { OnOk result
        (fields_of response.new ≡ fields_of response.old ++ allow_fields allow status) }
    ensures status { response.new.status ≡ response.old.status }
    ensures body { response.new.body ≡ response.old.body }
{
    match status {
        Status::MethodNotAllowed => {
            match response.add_header(header::ALLOW, allow_value(allow)) {
                Ok(()) => Ok(()),
                Err(_) => Err(Unfilled),
            }
        }
        _ => Ok(()),
    }
}

/// How to say who asks.
#[tactic(auto, unfolding(crate::specs::Responses::challenge_text))]
fn challenge_value() -> HeaderValue
    ensures { result.bytes ≡ challenge_text }
{
    HeaderValue::from_static("Basic realm=\"landmap\", charset=\"UTF-8\"")
}

/// Adds how to say who asks, where it was not shown.
fn add_challenge(response: &mut Response, status: Status) -> Result<(), Unfilled>
    ensures fields { OnOk result
        (fields_of response.new ≡ fields_of response.old ++ challenge_fields status) }
    ensures status { response.new.status ≡ response.old.status }
    ensures body { response.new.body ≡ response.old.body }
{
    match status {
        Status::Unauthorized => {
            match response.add_header(header::WWW_AUTHENTICATE, challenge_value()) {
                Ok(()) => Ok(()),
                Err(_) => Err(Unfilled),
            }
        }
        _ => Ok(()),
    }
}

/// That an answer is for who asks alone, who asks again before it is used again.
#[tactic(auto, unfolding(crate::specs::Responses::private_text))]
fn private_value() -> HeaderValue
    ensures { result.bytes ≡ private_text }
{
    HeaderValue::from_static("private, no-cache")
}

/// The field by which a secret is said.
#[tactic(auto, unfolding(crate::specs::Responses::secret_field))]
fn secret_field() -> HeaderValue
    ensures { result.bytes ≡ secret_field }
{
    HeaderValue::from_static("authorization")
}

/// The field by which a proxy says who asks.
#[tactic(auto, unfolding(crate::specs::Responses::proxy_field))]
fn proxy_field() -> HeaderValue
    ensures { result.bytes ≡ proxy_field }
{
    HeaderValue::from_static("landmap-subject")
}

/// Adds on which field an answer depends, and that it is for who asks alone.
fn add_own_by(response: &mut Response, field: HeaderValue) -> Result<(), Unfilled>
    ensures fields { OnOk result
        (fields_of response.new ≡ fields_of response.old ++ own_fields_by field.bytes) }
    ensures status { response.new.status ≡ response.old.status }
    ensures body { response.new.body ≡ response.old.body }
{
    if response.add_header(header::VARY, field).is_err() {
        return Err(Unfilled);
    }
    match response.add_header(header::CACHE_CONTROL, private_value()) {
        Ok(()) => Ok(()),
        Err(_) => Err(Unfilled),
    }
}

/// The same, where it is said in some way who asks.
fn add_own(response: &mut Response, way: Way) -> Result<(), Unfilled>
    ensures fields { OnOk result
        (fields_of response.new ≡ fields_of response.old ++ own_fields way) }
    ensures status { response.new.status ≡ response.old.status }
    ensures body { response.new.body ≡ response.old.body }
{
    match way {
        Way::Nothing => Ok(()),
        Way::Secret => add_own_by(response, secret_field()),
        Way::Proxy => add_own_by(response, proxy_field()),
    }
}

/// Adds that a body is of the type that it is said to be.
fn add_sniff(response: &mut Response) -> Result<(), Unfilled>
    ensures fields { OnOk result
        (fields_of response.new ≡ fields_of response.old ++ sniff_fields) }
    ensures status { response.new.status ≡ response.old.status }
    ensures body { response.new.body ≡ response.old.body }
{
    let value = HeaderValue::from_static("nosniff");
    match response.add_header(header::X_CONTENT_TYPE_OPTIONS, value) {
        Ok(()) => Ok(()),
        Err(_) => Err(Unfilled),
    }
}

/// Adds what an answer says of what it is.
fn add_entity_fields(
    response: &mut Response,
    heap: Global,
    answer: &Answer<Global>,
) -> Result<(), Unfilled>
    ensures fields { OnOk result (fields_of response.new
        ≡ fields_of response.old ++ entity_fields (answer_data answer.now)) }
    ensures status { response.new.status ≡ response.old.status }
    ensures body { response.new.body ≡ response.old.body }
{
    add_media(response, answer.media, answer.body.len())?;
    add_tag(response, heap, answer.version)?;
    add_location(response, heap, &answer.location)
}

/// Adds what an answer says of itself.
fn add_content_fields(
    response: &mut Response,
    heap: Global,
    allow: Allow,
    answer: &Answer<Global>,
) -> Result<(), Unfilled>
    ensures fields { OnOk result (fields_of response.new
        ≡ fields_of response.old ++ content_fields allow (answer_data answer.now)) }
    ensures status { response.new.status ≡ response.old.status }
    ensures body { response.new.body ≡ response.old.body }
{
    add_entity_fields(response, heap, answer)?;
    add_retry(response, heap, answer.retry_after)?;
    add_allow(response, allow, answer.status)
}

/// Adds what an answer says of who asks, where it is said in one way who asks.
fn add_asker_fields(response: &mut Response, way: Way, status: Status) -> Result<(), Unfilled>
    ensures fields { OnOk result
        (fields_of response.new ≡ fields_of response.old ++ asker_fields way status) }
    ensures status { response.new.status ≡ response.old.status }
    ensures body { response.new.body ≡ response.old.body }
{
    add_challenge(response, status)?;
    add_own(response, way)?;
    add_sniff(response)
}

/// Adds all fields of an answer.
fn add_fields(
    response: &mut Response,
    heap: Global,
    way: Way,
    allow: Allow,
    answer: &Answer<Global>,
) -> Result<(), Unfilled>
    ensures fields { OnOk result (fields_of response.new
        ≡ fields_of response.old ++ answer_fields way allow (answer_data answer.now)) }
    ensures status { response.new.status ≡ response.old.status }
    ensures body { response.new.body ≡ response.old.body }
{
    add_content_fields(response, heap, allow, answer)?;
    add_asker_fields(response, way, answer.status)
}

/// Appends a body.
fn add_body(response: &mut Response, body: Vec<u8>) -> Result<(), Unfilled>
    ensures body { OnOk result
        (response.new.body.items ≡ response.old.body.items ++ body.items) }
    ensures status { response.new.status ≡ response.old.status }
    ensures fields { fields_of response.new ≡ fields_of response.old }
{
    let Ok(bytes) = Bytes::from_vec(body) else {
        return Err(Unfilled);
    };
    match response.body.push(bytes) {
        Ok(()) => Ok(()),
        Err(_) => Err(Unfilled),
    }
}

/// Makes a blank response one that tells of an answer.
fn fill(
    response: &mut Response,
    heap: Global,
    way: Way,
    allow: Allow,
    answer: Answer<Global>,
) -> Result<(), Unfilled>
    requires { IsBlank response.old }
    ensures { OnOk result (Tells way allow (answer_data answer) response.new) }
{
    let Ok(status) = StatusCode::from_u16(answer.status.number()) else {
        return Err(Unfilled);
    };
    response.status = status;
    add_fields(response, heap, way, allow, &answer)?;
    add_body(response, answer.body)
}

/// Makes of a response one that says no more than that there was no room for it.
fn give_up(response: &mut Response)
    ensures { HasNoRoom response.new }
{
    response.clear();
    response.status = StatusCode::SERVICE_UNAVAILABLE;
}

/// Makes a blank response one that tells of an answer; or, where there is no memory for it, one that
/// says no more than that.
pub(crate) fn tell(
    response: &mut Response,
    heap: Global,
    way: Way,
    allow: Allow,
    told: Result<Answer<Global>, NoMemory>,
)
    requires { IsBlank response.old }
    ensures { Told way allow (answered told) response.new }
{
    let filled = match told {
        Ok(answer) => fill(response, heap, way, allow, answer),
        Err(_) => Err(Unfilled),
    };
    if filled.is_err() {
        give_up(response);
    }
}
