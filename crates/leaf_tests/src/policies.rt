//! The policies that the tests publish, and what is asked of them.

ghost use Rattle.std.specs.Prelude.{◌≡◌};
ghost use Rattle.std.specs.Arc.{arc_value};

use combining::Question;
use decision::{Decider, Ruling};
use features::{Action, Name, Subject};
use plane::{Point, Shape};
use policy_text::read_document;
use published_policies::Explained;
use std::alloc::Global;
use std::process::Abort;
use std::sync::Arc;

/// The beginning of each policy's text, up to the effect of its one rule.
const HEAD: &str = r#"{"root":{"combine":"first-applicable","policy":"p","rules":[{"effect":"#;

/// The policy of an edition: it permits at even editions and denies at odd ones, by a rule that is
/// named after the edition.
pub fn policy(rt: &impl Abort, heap: Global, edition: u64) -> Arc<Decider>
    ensures { (arc_value result).edition ≡ edition }
{
    let effect = if edition % 2 == 0 { "permit" } else { "deny" };
    let text = format!(in heap; "{HEAD}\"{effect}\",\"rule\":\"r{edition}\"}}]}}}}").expect(
        rt, "memory",
    );
    let Ok(document) = read_document(heap, heap, text.as_bytes()) else {
        panic!(rt; "not read: {text}")
    };
    let Ok(decider) = Decider::new(document, edition) else {
        panic!(rt; "not compiled: {text}")
    };
    let Ok(decider) = Arc::new(heap, decider) else {
        panic!(rt; "not shared: {text}")
    };
    decider
}

/// The name of this text.
pub fn name(rt: &impl Abort, text: &str) -> Name {
    Name::new(text.as_bytes()).expect(rt, "a name")
}

/// A question on which each of these policies rules by its one rule.
pub fn question(rt: &impl Abort) -> Question {
    let Ok(shape) = Shape::point(Point { x: 1, y: 1 }) else {
        panic!(rt; "a point")
    };
    Question {
        subject: Subject {
            name: name(rt, "ann"),
            office: name(rt, "north"),
            role: name(rt, "editor"),
            steward: false,
        },
        action: Action::Read,
        owner: name(rt, "south"),
        class: name(rt, "mast"),
        shape,
    }
}

/// The number that the digits of a name make.
fn number_in(name: &Name) -> u64 {
    let mut number: u64 = 0;
    for byte in name.as_bytes() {
        if byte.is_ascii_digit() {
            number = number
                .wrapping_mul(10)
                .wrapping_add(u64::from(byte.wrapping_sub(b'0')));
        }
    }
    number
}

/// Whether this is the ruling of its edition's policy, by that policy's rule.
pub fn is_right(explained: &Explained) -> bool {
    let named = match &explained.rule {
        Some(name) => number_in(name),
        None => 0,
    };
    let ruled = match explained.ruling {
        Ruling::Permit(Some(1)) => explained.edition % 2 == 0,
        Ruling::DeniedBy(1) => explained.edition % 2 == 1,
        _ => false,
    };
    ruled && named == explained.edition
}
