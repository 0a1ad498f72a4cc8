//! Views that are prepared for questions explain as those that are not.

ghost use Rattle.std.specs.Prelude.{◌≡◌};
ghost use Rattle.std.specs.Arc.{arc_value};
ghost use Rattle.published_policies.specs.Lists.{last_edition};

use crate::policies::name;
use combining::Question;
use decision::Decider;
use features::{Action, Subject};
use plane::{Point, Shape};
use policy_text::read_document;
use published_policies::{EmptyList, ListName, Publisher, View};
use std::alloc::{AllocError, Global};
use std::marker::Brand;
use std::process::Abort;
use std::sync::{Arc, Wait};
use std::test::*;

/// How many policies are published.
const POLICIES: u64 = 6;

/// The text of an edition's policy: what meets its field, which is larger with each edition, is
/// closed to masts; an office may change what it owns; all may read, at even editions.
fn text_of(heap: Global, edition: u64) -> Result<String, AllocError> {
    let mut text = String::new(heap);
    let east = edition.wrapping_mul(4);
    text.push_str(&format!(in heap;
        "{{\"zones\":[{{\"zone\":\"field\",\"shape\":\"POLYGON ((0 0, {east} 0, {east} 4, 0 4, 0 0))\"}}],"
    )?)?;
    text.push_str(r#""root":{"policy":"p","combine":"first-applicable","rules":["#)?;
    for class in 0..12u32 {
        text.push_str(&format!(in heap;
            "{{\"rule\":\"other-{class}\",\"effect\":\"deny\",\"when\":[{{\"class\":\"class-{class}\"}}]}},"
        )?)?;
    }
    text.push_str(&format!(in heap;
        "{{\"rule\":\"field-{edition}\",\"effect\":\"deny\",\"when\":[{{\"zone\":\"field\"}},{{\"class\":\"mast\"}}]}},"
    )?)?;
    text.push_str(&format!(in heap;
        "{{\"rule\":\"own-{edition}\",\"effect\":\"permit\",\"when\":[{{\"own\":true}}]}},"
    )?)?;
    let effect = if edition % 2 == 0 { "permit" } else { "deny" };
    text.push_str(&format!(in heap;
        "{{\"rule\":\"read-{edition}\",\"effect\":\"{effect}\",\"target\":[[[{{\"action\":\"read\"}}]]]}}]}}}}"
    )?)?;
    Ok(text)
}

/// The policy of an edition.
fn policy(rt: &impl Abort, heap: Global, edition: u64) -> Arc<Decider>
    ensures { (arc_value result).edition ≡ edition }
{
    let text = text_of(heap, edition).expect(rt, "memory");
    let Ok(document) = read_document(heap, heap, text.as_bytes()) else {
        panic!(rt; "not read: {text}")
    };
    let Ok(decider) = Decider::new(document, edition) else {
        panic!(rt; "not compiled: {text}")
    };
    let Ok(decider) = Arc::new(heap, decider) else {
        panic!(rt; "not shared: {text}")
    };
    decider
}

/// Questions of two offices about features of two offices and of three classes, in and out of the
/// fields.
fn questions(rt: &impl Abort, heap: Global) -> Vec<Question> {
    let mut all = Vec::new(heap);
    for office in ["north", "south"] {
        let subject = Subject {
            name: name(rt, "ann"),
            office: name(rt, office),
            role: name(rt, "editor"),
            steward: false,
        };
        for action in [Action::Read, Action::Add] {
            for owner in ["north", "south"] {
                for class in ["mast", "class-3", "pier"] {
                    for x in [1, 10, 90] {
                        let Ok(shape) = Shape::point(Point { x, y: 1 }) else {
                            panic!(rt; "a point")
                        };
                        let question = Question {
                            subject,
                            action,
                            owner: name(rt, owner),
                            class: name(rt, class),
                            shape,
                        };
                        all.push(question).expect(rt, "memory");
                    }
                }
            }
        }
    }
    all
}

/// Asserts that both views explain each question alike, by the policy of this edition.
fn assert_same<L: ListName>(
    rt: &impl Abort,
    one: &mut View<L>,
    other: &mut View<L>,
    questions: &[Question],
    edition: u64,
) {
    for question in questions {
        let said = one.explain(question).expect(rt, "something to read");
        let wanted = other.explain(question).expect(rt, "something to read");
        assert_eq!(rt; said.edition, edition);
        assert_eq!(rt; said, wanted);
    }
}

/// One view is prepared for each question, the other is not.
fn prepared_and_not_prepared<L: ListName, W: Wait + Drop>(
    rt: &impl Abort,
    own: W,
    heap: Global,
    list: EmptyList,
)
    requires { list ≡ L.book }
{
    let Ok(mut publisher) = Publisher::<L, W>::open(own, heap, list, policy(rt, heap, 1), 2) else {
        panic!(rt; "not opened")
    };
    let mut prepared = publisher.view().expect(rt, "a place for a view");
    let mut plain = publisher.view().expect(rt, "a place for a view");
    let questions = questions(rt, heap);
    for edition in 1..POLICIES {
        // By what was prepared for the policy before.
        assert_same(rt, &mut prepared, &mut plain, &questions, edition);
        for question in &questions {
            prepared.prepare(question);
        }
        assert_same(rt, &mut prepared, &mut plain, &questions, edition);
        // Prepared once more, and then told of the next policy before it has read it.
        prepared.prepare(&questions[0]);
        let told = publisher.publish(policy(rt, heap, edition + 1));
        prepared.catch_up(told);
    }
    drop(publisher);
    prepared.prepare(&questions[0]);
    assert!(rt; prepared.explain(&questions[0]).is_none());
    assert_eq!(rt; prepared.edition(), POLICIES);
}

#[test]
fn prepared_views_explain_as_others(rt: HostRuntime) -> Result<(), Fail> {
    prepared_and_not_prepared::<Brand, _>(&rt, rt, rt.alloc(), EmptyList::new());
    Ok(())
}
