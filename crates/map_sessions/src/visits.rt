//! Requests to read, answered by a session.

ghost use Rattle.std.specs.Prelude.{◌≡◌, ◌++◌, None, IfOk, OnOk};
ghost use Rattle.map_answers.specs.Answers.{answer_data};
ghost use Rattle.map_sessions.specs.Visiting.{Answers, GivesItem, GivesItems, GivesKept, GivesRow, GivesRows, GivesSearch, IsAnswered, MayLack, asks_kept, fixed_page, is_keyed, outcome_of, place_of, query_text, row_data, row_page, unasked, unasked_items, visit_address, whole_map, whole_square};

use crate::finding::{find, found_rows};
use crate::kept::Kept;
use crate::refusals::{Refusal, problem_of};
use credentials::Key;
use features::{Feature, Name};
use map_answers::{
    Answer, FeaturePage, ItemSite, feature_answer, feature_of, page_answer, problem_answer, put,
    rows_of,
};
use map_asks::{Ask, FixedPage, Items, Layer, Source, Window, read_ask};
use map_pages::{Site, fixed_answer};
use memory::NoMemory;
use plane::{LIMIT, Point, Shape, ShapeFault};
use session_lines::Service;
use std::alloc::Allocator;

/// A request to read.
#[derive(Clone, Copy, Debug)]
pub struct Visit<'a> {
    /// Its path, as it was sent.
    pub path: &'a [u8],
    /// What stands behind the question mark; empty where there is none.
    pub query: &'a [u8],
    /// The field `if-none-match`; empty where there is none.
    pub known: &'a [u8],
}

/// What a server answers by.
#[derive(Clone, Copy, Debug)]
pub struct Host<'a> {
    /// What its pages speak of.
    pub site: &'a Site<'a>,
    /// The subject of those who do not say who they are.
    pub anonymous: Option<Name>,
    /// By which it may be said, where no field of a proxy says it.
    pub keys: &'a [Key],
    /// Whether a proxy says who asks, by a field of its own.
    pub trusted_field: bool,
}

impl Host<'_> {
    /// Whether it may be said by a key who asks.
    pub fn is_keyed(&self) -> bool
        ensures { result ≡ is_keyed (place_of self.now) }
    {
        !self.trusted_field && !self.keys.is_empty()
    }
}

/// Why those get nothing who do not say who they are.
pub fn unasked(host: &Host) -> Refusal
    ensures { result ≡ unasked (place_of host.now) }
{
    if host.is_keyed() {
        Refusal::NoCredentials
    } else {
        Refusal::Nobody
    }
}

/// Appends a query with its question mark, if there is a query.
fn put_query<A: Allocator>(address: &mut Vec<u8, A>, query: &[u8]) -> Result<(), NoMemory>
    ensures { OnOk result (address.new.items ≡ address.old.items ++ query_text query.now) }
{
    if query.is_empty() {
        return Ok(());
    }
    put(address, b"?")?;
    put(address, query)
}

/// The address of what is asked for.
fn visit_address<A: Allocator>(alloc: A, base: &[u8], visit: &Visit) -> Result<Vec<u8, A>, NoMemory>
    ensures { IfOk result
        (λ made. made.items ≡ visit_address base.now visit.now.path.now visit.now.query.now) }
{
    let mut address = Vec::new(alloc);
    put(&mut address, base)?;
    put(&mut address, visit.path)?;
    put_query(&mut address, visit.query)?;
    Ok(address)
}

/// Which page of rows is asked for, and by whom.
#[derive(Clone, Copy, Debug)]
struct RowPage {
    asker: Name,
    layer: Layer,
    /// The number under which the rows are kept, if they are.
    kept: Option<u64>,
    after: Option<u64>,
    limit: u64,
}

/// A page of the rows of a collection.
fn give_page<A: Allocator + Copy>(
    alloc: A,
    host: &Host,
    visit: &Visit,
    wanted: &RowPage,
    rows: &[Feature],
) -> Result<Answer<A>, NoMemory>
    ensures { IfOk result (λ answer. answer_data answer
        ≡ row_page (place_of host.now) visit.now.path.now visit.now.query.now wanted.now.layer
        wanted.now.kept wanted.now.after wanted.now.limit rows.now) }
{
    let address = visit_address(alloc, host.site.base, visit)?;
    let asked = FeaturePage {
        base: host.site.base,
        address: address.as_slice(),
        layer: wanted.layer,
        rows,
        kept: wanted.kept,
        after: wanted.after,
        limit: wanted.limit,
    };
    page_answer(alloc, host.site.grid, &asked)
}

/// A page of a kept answer. `Gone` where it is not kept any more, is of another collection, or was
/// found for another subject.
fn give_kept<A: Allocator + Copy>(
    alloc: A,
    host: &Host,
    kept: &Kept<A>,
    visit: &Visit,
    number: u64,
    wanted: &RowPage,
) -> Result<Answer<A>, Refusal>
    ensures { GivesKept (place_of host.now) wanted.now.asker visit.now.path.now visit.now.query.now
        wanted.now.layer number wanted.now.after wanted.now.limit kept.now.answers.items
        (outcome_of result) }
{
    let Some(rows) = kept.rows(number, &wanted.layer, &wanted.asker) else {
        return Err(Refusal::Gone);
    };
    let wanted = RowPage {
        kept: Some(number),
        ..*wanted
    };
    match give_page(alloc, host, visit, &wanted, rows) {
        Ok(answer) => Ok(answer),
        Err(refused) => Err(Refusal::Memory(refused)),
    }
}

/// A page of the rows that were found, which are kept where it does not have all. Unless all went
/// well, what was kept stays as it was.
fn give_rows<A: Allocator + Copy>(
    alloc: A,
    host: &Host,
    kept: &mut Kept<A>,
    visit: &Visit,
    wanted: &RowPage,
    rows: Vec<Feature, A>,
) -> Result<Answer<A>, Refusal>
    requires { wanted.now.after ≡ None }
    ensures { GivesRows (place_of host.now) wanted.now.asker visit.now.path.now visit.now.query.now
        wanted.now.layer wanted.now.limit rows.items kept.old kept.new (outcome_of result) }
{
    if rows.len() as u64 <= wanted.limit {
        let all = RowPage {
            kept: None,
            ..*wanted
        };
        return Ok(give_page(alloc, host, visit, &all, rows.as_slice())?);
    }
    let first = RowPage {
        kept: Some(kept.next_number()),
        ..*wanted
    };
    let answer = give_page(alloc, host, visit, &first, rows.as_slice())?;
    kept.keep(wanted.layer, wanted.asker, rows)?;
    Ok(answer)
}

/// A page of a search of a window.
fn give_search<S: Service, A: Allocator + Copy>(
    alloc: A,
    host: &Host,
    service: &mut S,
    kept: &mut Kept<A>,
    visit: &Visit,
    window: Window,
    wanted: &RowPage,
) -> Result<Answer<A>, Refusal>
    requires { wanted.now.after ≡ None }
    ensures { GivesSearch S.subject_of S.serves (place_of host.now) wanted.now.asker
        visit.now.path.now visit.now.query.now wanted.now.layer window wanted.now.limit service.old
        service.new kept.old kept.new (outcome_of result) }
{
    match find(service, &wanted.asker, window) {
        Err(refusal) => Err(refusal),
        Ok(found) => {
            let rows = rows_of(alloc, &wanted.layer, found_rows(&found))?;
            give_rows(alloc, host, kept, visit, wanted, rows)
        }
    }
}

/// A page of a collection, for somebody.
fn give_items<S: Service, A: Allocator + Copy>(
    alloc: A,
    host: &Host,
    asker: Name,
    service: &mut S,
    kept: &mut Kept<A>,
    visit: &Visit,
    layer: Layer,
    items: Items,
) -> Result<Answer<A>, Refusal>
    ensures { GivesItems S.subject_of S.serves (place_of host.now) asker visit.now.path.now
        visit.now.query.now layer items.source items.limit service.old service.new kept.old kept.new
        (outcome_of result) }
{
    let source = items.source;
    match source {
        Source::Search(window) => {
            let wanted = RowPage {
                asker,
                layer,
                kept: None,
                after: None,
                limit: items.limit,
            };
            give_search(alloc, host, service, kept, visit, window, &wanted)
        }
        Source::Kept { number, after } => {
            let wanted = RowPage {
                asker,
                layer,
                kept: None,
                after,
                limit: items.limit,
            };
            give_kept(alloc, host, kept, visit, number, &wanted)
        }
    }
}

/// The square of all coordinates.
#[tactic(auto, unfolding(crate::specs::Visiting::whole_square))]
fn whole_square() -> Result<Shape, ShapeFault>
    ensures { result ≡ whole_square }
{
    Shape::polygon(&[
        Point {
            x: -LIMIT,
            y: -LIMIT,
        },
        Point {
            x: LIMIT,
            y: -LIMIT,
        },
        Point { x: LIMIT, y: LIMIT },
        Point {
            x: -LIMIT,
            y: LIMIT,
        },
        Point {
            x: -LIMIT,
            y: -LIMIT,
        },
    ])
}

/// The window of the whole map.
fn whole_map() -> Window
    ensures { result ≡ whole_map }
{
    match whole_square() {
        Ok(shape) => Window::Shape(shape),
        Err(_) => Window::Nothing,
    }
}

/// A feature that was found.
fn give_feature<A: Allocator + Copy>(
    alloc: A,
    host: &Host,
    visit: &Visit,
    layer: Layer,
    row: &Feature,
) -> Result<Answer<A>, NoMemory>
    ensures { IfOk result (λ answer. answer_data answer
        ≡ row_data (place_of host.now) visit.now.path.now visit.now.query.now visit.now.known.now
        layer row.now) }
{
    let address = visit_address(alloc, host.site.base, visit)?;
    let site = ItemSite {
        base: host.site.base,
        address: address.as_slice(),
        layer,
    };
    feature_answer(alloc, host.site.grid, &site, visit.known, row)
}

/// A feature of a collection, among the rows of the whole map. `Absent` where it is none of them.
fn give_row<A: Allocator + Copy>(
    alloc: A,
    host: &Host,
    visit: &Visit,
    layer: Layer,
    id: u64,
    rows: &[Feature],
) -> Result<Answer<A>, Refusal>
    ensures { GivesRow (place_of host.now) visit.now.path.now visit.now.query.now
        visit.now.known.now layer id rows.now (outcome_of result) }
{
    let Some(row) = feature_of(&layer, id, rows) else {
        return Err(Refusal::Absent);
    };
    match give_feature(alloc, host, visit, layer, &row) {
        Ok(answer) => Ok(answer),
        Err(refused) => Err(Refusal::Memory(refused)),
    }
}

/// A feature of a collection, found by a search of the whole map.
fn give_item<S: Service, A: Allocator + Copy>(
    alloc: A,
    host: &Host,
    asker: &Name,
    service: &mut S,
    visit: &Visit,
    layer: Layer,
    id: u64,
) -> Result<Answer<A>, Refusal>
    ensures { GivesItem S.subject_of S.serves (place_of host.now) asker.now visit.now.path.now
        visit.now.query.now visit.now.known.now layer id service.old service.new
        (outcome_of result) }
{
    match find(service, asker, whole_map()) {
        Err(refusal) => Err(refusal),
        Ok(found) => give_row(alloc, host, visit, layer, id, found_rows(&found)),
    }
}

/// A page that is the same whatever the map has.
fn give_fixed<A: Allocator + Copy>(
    alloc: A,
    host: &Host,
    page: &FixedPage,
) -> Result<Answer<A>, Refusal>
    ensures { MayLack (outcome_of result) (fixed_page (place_of host.now) page.now) }
{
    match fixed_answer(alloc, host.site, page) {
        Ok(answer) => Ok(answer),
        Err(refused) => Err(Refusal::Memory(refused)),
    }
}

/// Why those get no page of a collection who do not say who they are: they can have kept nothing.
fn refuse_items(host: &Host, source: &Source) -> Refusal
    ensures { result ≡ unasked_items (place_of host.now) source.now }
{
    match source {
        Source::Search(_) => unasked(host),
        Source::Kept { .. } => Refusal::Gone,
    }
}

/// What a request is answered, or why it is not.
fn respond<S: Service, A: Allocator + Copy>(
    alloc: A,
    host: &Host,
    asker: Option<Name>,
    service: &mut S,
    kept: &mut Kept<A>,
    visit: &Visit,
) -> Result<Answer<A>, Refusal>
    ensures { Answers S.subject_of S.serves (place_of host.now) asker visit.now.path.now
        visit.now.query.now visit.now.known.now service.old service.new kept.old kept.new
        (outcome_of result) }
{
    match read_ask(host.site.grid, host.site.classes, visit.path, visit.query) {
        Err(fault) => Err(Refusal::Ask(fault)),
        Ok(Ask::Fixed(page)) => give_fixed(alloc, host, &page),
        Ok(Ask::Items(layer, items)) => match asker {
            Some(asker) => give_items(alloc, host, asker, service, kept, visit, layer, items),
            None => Err(refuse_items(host, &items.source)),
        },
        Ok(Ask::Item(layer, id)) => match asker {
            Some(asker) => give_item(alloc, host, &asker, service, visit, layer, id),
            None => Err(unasked(host)),
        },
    }
}

/// Whether this path and query ask for a page of an answer that is kept. Any other request to read
/// may be answered with nothing kept.
pub fn asks_kept(host: &Host, path: &[u8], query: &[u8]) -> bool
    ensures { result ≡ asks_kept (place_of host.now) path.now query.now }
{
    match read_ask(host.site.grid, host.site.classes, path, query) {
        Ok(Ask::Items(_, items)) => matches!(items.source, Source::Kept { .. }),
        _ => false,
    }
}

/// Answers a request to read, for a subject, or for nobody where no subject is named for those who
/// do not say who they are. The session is begun for the subject, if it does not ask for them
/// already; pages that are the same whatever the map has ask nothing of it. A page of features is
/// one search, of which further pages are kept for the same subject; a single feature is a search of
/// the whole map.
///
/// What is refused is told as a problem. Out of memory only where there is no memory for the answer
/// that tells of a refusal.
pub fn answer_visit<S: Service, A: Allocator + Copy>(
    alloc: A,
    host: &Host,
    asker: Option<Name>,
    service: &mut S,
    kept: &mut Kept<A>,
    visit: &Visit,
) -> Result<Answer<A>, NoMemory>
    ensures { IfOk result (λ answer. IsAnswered S.subject_of S.serves (place_of host.now) asker
        visit.now.path.now visit.now.query.now visit.now.known.now service.old service.new kept.old
        kept.new (answer_data answer)) }
{
    match respond(alloc, host, asker, service, kept, visit) {
        Ok(answer) => Ok(answer),
        Err(refusal) => problem_answer(alloc, &problem_of(&refusal)),
    }
}
