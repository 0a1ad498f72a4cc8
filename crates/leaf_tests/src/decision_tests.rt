//! Random documents: compiled, and folded, each rules as `evaluate` does.
use combining::{Decision, Question, Verdict, evaluate};
use decision::{Decider, Folded, InForce, Ruling};
use features::{Action, Name, Subject};
use plane::{Point, Shape};
use policy_text::{Document, read_document};
use std::alloc::{AllocError, Global};
use std::process::Abort;
use std::sync::Arc;
use std::test::Fail;

/// How many documents are generated.
const DOCUMENTS: u64 = 5_000;

/// How many times each document is folded, each time for a subject and an action.
const FOLDS: u64 = 4;

/// How many questions are asked of each folded document.
const QUESTIONS: u64 = 5;

const ZONES: &str =
    r#""zones":[{"shape":"POLYGON ((0 0, 4 0, 0 4, 0 0))","zone":"field"},{"shape":"POINT (9 9)","zone":"post"}]"#;

/// Pseudo-random numbers, from a linear congruence.
#[derive(Drop)]
struct Dice {
    state: u64,
}

impl Dice {
    /// A number below `sides`, or 0 if that is 0.
    fn below(&mut self, sides: u64) -> u64 {
        self.state = self
            .state
            .wrapping_mul(6_364_136_223_846_793_005)
            .wrapping_add(1_442_695_040_888_963_407);
        (self.state >> 33).checked_rem(sides).unwrap_or(0)
    }

    /// One of two.
    fn either(&mut self, one: &'static str, other: &'static str) -> &'static str {
        if self.below(2) == 0 { one } else { other }
    }
}

/// The text of a document that is being generated, and how many names it has.
#[derive(Drop)]
struct Draft {
    heap: Global,
    text: String,
    names: u64,
}

impl Draft {
    fn push(&mut self, part: &str) -> Result<(), AllocError> {
        self.text.push_str(part)
    }

    /// Appends a key with a name that occurs nowhere else in the document.
    fn push_name(&mut self, key: &str) -> Result<(), AllocError> {
        self.names = self.names.wrapping_add(1);
        let number = self.names;
        let member = format!(in self.heap; "\"{key}\":\"n{number}\"")?;
        self.text.push_str(&member)
    }
}

fn algorithm(dice: &mut Dice) -> &'static str {
    match dice.below(5) {
        0 => "deny-overrides",
        1 => "permit-overrides",
        2 => "deny-unless-permit",
        3 => "permit-unless-deny",
        _ => "first-applicable",
    }
}

fn test(dice: &mut Dice) -> &'static str {
    match dice.below(9) {
        0 => r#"{"role":"editor"}"#,
        1 => r#"{"role":"clerk"}"#,
        2 => r#"{"office":"north"}"#,
        3 => r#"{"class":"mast"}"#,
        4 => r#"{"owner":"north"}"#,
        5 => r#"{"zone":"field"}"#,
        6 => r#"{"zone":"post"}"#,
        7 => r#"{"action":"add"}"#,
        _ => r#"{"action":"read"}"#,
    }
}

fn atom(dice: &mut Dice) -> &'static str {
    match dice.below(6) {
        0 => r#"{"own":true}"#,
        1 => r#"{"not":{"own":true}}"#,
        2 => r#"{"not":{"role":"editor"}}"#,
        3 => r#"{"not":{"zone":"field"}}"#,
        4 => r#"{"not":{"action":"read"}}"#,
        _ => test(dice),
    }
}

/// One or two matches, all of which have to hold.
fn push_matches(draft: &mut Draft, dice: &mut Dice) -> Result<(), AllocError> {
    draft.push("[")?;
    draft.push(test(dice))?;
    if dice.below(3) == 0 {
        draft.push(",")?;
        draft.push(test(dice))?;
    }
    draft.push("]")
}

/// One or two alternatives.
fn push_part(draft: &mut Draft, dice: &mut Dice) -> Result<(), AllocError> {
    draft.push("[")?;
    push_matches(draft, dice)?;
    if dice.below(2) == 0 {
        draft.push(",")?;
        push_matches(draft, dice)?;
    }
    draft.push("]")
}

/// A target with no part, mostly, or with one or two.
fn push_target(draft: &mut Draft, dice: &mut Dice) -> Result<(), AllocError> {
    draft.push(r#""target":["#)?;
    let parts = dice.below(5);
    if parts > 2 {
        push_part(draft, dice)?;
    }
    if parts > 3 {
        draft.push(",")?;
        push_part(draft, dice)?;
    }
    draft.push("]")
}

fn push_rule(draft: &mut Draft, dice: &mut Dice) -> Result<(), AllocError> {
    draft.push(dice.either(r#"{"effect":"permit","#, r#"{"effect":"deny","#))?;
    draft.push_name("rule")?;
    draft.push(",")?;
    push_target(draft, dice)?;
    draft.push(r#","when":["#)?;
    let atoms = dice.below(4);
    if atoms > 1 {
        draft.push(atom(dice))?;
    }
    if atoms > 2 {
        draft.push(",")?;
        draft.push(atom(dice))?;
    }
    draft.push("]}")
}

/// What a set and a policy have in common.
fn push_head(draft: &mut Draft, dice: &mut Dice, kind: &str) -> Result<(), AllocError> {
    draft.push(r#"{"combine":""#)?;
    draft.push(algorithm(dice))?;
    draft.push(r#"","#)?;
    draft.push_name(kind)?;
    draft.push(",")?;
    push_target(draft, dice)
}

/// A policy of at most three rules.
fn push_policy(draft: &mut Draft, dice: &mut Dice) -> Result<(), AllocError> {
    push_head(draft, dice, "policy")?;
    draft.push(r#","rules":["#)?;
    for index in 0..dice.below(4) {
        if index > 0 {
            draft.push(",")?;
        }
        push_rule(draft, dice)?;
    }
    draft.push("]}")
}

/// A set of at most two policies.
fn push_inner_set(draft: &mut Draft, dice: &mut Dice) -> Result<(), AllocError> {
    push_head(draft, dice, "set")?;
    draft.push(r#","of":["#)?;
    for index in 0..dice.below(3) {
        if index > 0 {
            draft.push(",")?;
        }
        push_policy(draft, dice)?;
    }
    draft.push("]}")
}

/// A set of at most two children, which are policies or sets of policies.
fn push_set(draft: &mut Draft, dice: &mut Dice) -> Result<(), AllocError> {
    push_head(draft, dice, "set")?;
    draft.push(r#","of":["#)?;
    for index in 0..dice.below(3) {
        if index > 0 {
            draft.push(",")?;
        }
        if dice.below(2) == 0 {
            push_policy(draft, dice)?;
        } else {
            push_inner_set(draft, dice)?;
        }
    }
    draft.push("]}")
}

/// A document of nested sets and policies.
fn push_document(draft: &mut Draft, dice: &mut Dice) -> Result<(), AllocError> {
    draft.push(r#"{"root":"#)?;
    push_head(draft, dice, "set")?;
    draft.push(r#","of":["#)?;
    for index in 0..dice.below(4) {
        if index > 0 {
            draft.push(",")?;
        }
        if dice.below(2) == 0 {
            push_policy(draft, dice)?;
        } else {
            push_set(draft, dice)?;
        }
    }
    draft.push("]},")?;
    draft.push(ZONES)?;
    draft.push("}")
}

/// The text of a random document.
fn document_text(heap: Global, dice: &mut Dice) -> Result<String, AllocError> {
    let mut draft = Draft {
        heap,
        text: String::new(heap),
        names: 0,
    };
    push_document(&mut draft, dice)?;
    Ok(draft.text)
}

fn name(rt: &impl Abort, text: &str) -> Name {
    let name = Name::new(text.as_bytes());
    assert!(rt; name.is_some());
    name.unwrap()
}

/// A point in the field, the post, or a point in the field's frame but not in the field.
fn shape(rt: &impl Abort, dice: &mut Dice) -> Shape {
    let point = match dice.below(3) {
        0 => Point { x: 1, y: 1 },
        1 => Point { x: 9, y: 9 },
        _ => Point { x: 3, y: 3 },
    };
    let shape = Shape::point(point);
    assert!(rt; shape.is_ok());
    shape.unwrap()
}

fn question(rt: &impl Abort, dice: &mut Dice) -> Question {
    let shape = shape(rt, dice);
    let action = match dice.below(2) {
        0 => Action::Read,
        _ => Action::Add,
    };
    Question {
        subject: Subject {
            name: name(rt, "ann"),
            office: name(rt, dice.either("north", "south")),
            role: name(rt, dice.either("editor", "clerk")),
            steward: false,
        },
        action,
        owner: name(rt, dice.either("north", "south")),
        class: name(rt, dice.either("mast", "road")),
        shape,
    }
}

fn document(rt: &impl Abort, heap: Global, text: &str) -> Document<Global> {
    match read_document(heap, heap, text.as_bytes()) {
        Ok(document) => document,
        Err(_) => panic!(rt; "not read: {text}"),
    }
}

fn decider(rt: &impl Abort, heap: Global, text: &str) -> Decider {
    match Decider::new(document(rt, heap, text), 1) {
        Ok(decider) => decider,
        Err(_) => panic!(rt; "not compiled: {text}"),
    }
}

/// The ruling that a verdict gives.
fn ruling(verdict: Verdict) -> Ruling {
    match (verdict.decision, verdict.rule) {
        (Decision::Permit, rule) => Ruling::Permit(rule),
        (Decision::Deny, Some(rule)) => Ruling::DeniedBy(rule),
        (Decision::Deny, None) | (Decision::NotApplicable, _) => Ruling::NoneApplied,
    }
}

/// The document, folded for the subject and the action of a question.
fn folded<'a>(rt: &impl Abort, decider: &'a Decider, question: &Question) -> Folded<'a> {
    match decider.fold(&question.subject, &question.action) {
        Ok(folded) => folded,
        Err(_) => panic!(rt; "not folded"),
    }
}

/// Asserts that the document, its decider and the folded decider rule alike.
fn assert_alike(
    rt: &impl Abort,
    decider: &Decider,
    folded: &Folded<'_>,
    question: &Question,
    text: &str,
) {
    let wanted = ruling(evaluate(decider.document(), question));
    assert_eq!(rt; decider.decide(question), wanted, "{text}");
    let told = folded.decide(question.owner, question.class, question.shape);
    assert_eq!(rt; told, wanted, "{text}");
}

/// Asserts that what is kept of the decider in force rules as its document does, on each kind of features,
/// whether it is kept or not.
fn assert_kept(rt: &impl Abort, in_force: &InForce, question: &Question, text: &str) {
    let mut reading = in_force.reading(&question.subject, &question.action);
    for owner in ["north", "south"] {
        for class in ["mast", "road"] {
            let mut asked = *question;
            asked.owner = name(rt, owner);
            asked.class = name(rt, class);
            let wanted = ruling(evaluate(in_force.shared().document(), &asked));
            let told = match reading.decide(asked.owner, asked.class, asked.shape) {
                Ok(told) => told,
                Err(_) => panic!(rt; "no memory"),
            };
            assert_eq!(rt; told, wanted, "{text}");
        }
    }
}

/// Folds a decider for one subject and one action, and asks questions with these.
fn ask(rt: &impl Abort, dice: &mut Dice, decider: &Decider, text: &str) {
    let first = question(rt, dice);
    let folded = folded(rt, decider, &first);
    for _ in 0..QUESTIONS {
        let mut question = question(rt, dice);
        question.subject = first.subject;
        question.action = first.action;
        assert_alike(rt, decider, &folded, &question, text);
    }
}

#[test]
fn deciders_rule_as_documents(rt: HostRuntime) -> Result<(), Fail> {
    let mut dice = Dice { state: 20_261_122 };
    for _ in 0..DOCUMENTS {
        let text = document_text(rt.alloc(), &mut dice)?;
        let decider = decider(&rt, rt.alloc(), &text);
        for _ in 0..FOLDS {
            ask(&rt, &mut dice, &decider, &text);
        }
    }
    Ok(())
}

/// Some kinds of features are told, and rests are kept of some of them, for some subjects.
fn prepare_some(rt: &impl Abort, dice: &mut Dice, in_force: &mut InForce) {
    for _ in 0..dice.below(6) {
        let owner = name(rt, dice.either("north", "south"));
        in_force.tell(owner, name(rt, dice.either("mast", "road")));
        let question = question(rt, dice);
        let most = dice.below(3) as usize;
        in_force.prepare(&question.subject, &question.action, most);
    }
}

#[test]
fn what_is_kept_rules_as_documents(rt: HostRuntime) -> Result<(), Fail> {
    let mut dice = Dice { state: 20_261_129 };
    let text = document_text(rt.alloc(), &mut dice)?;
    let first = Arc::new(rt.alloc(), decider(&rt, rt.alloc(), &text))?;
    let mut in_force = InForce::new(first);
    for _ in 0..DOCUMENTS {
        // The kinds of features stay from one document to the next.
        let text = document_text(rt.alloc(), &mut dice)?;
        in_force.replace(Arc::new(rt.alloc(), decider(&rt, rt.alloc(), &text))?);
        for _ in 0..FOLDS {
            prepare_some(&rt, &mut dice, &mut in_force);
            assert_kept(&rt, &in_force, &question(&rt, &mut dice), &text);
        }
    }
    Ok(())
}

#[test]
fn more_kinds_than_are_kept(rt: HostRuntime) -> Result<(), Fail> {
    let text = r#"{"root":{"policy":"p","combine":"first-applicable","rules":[
        {"rule":"masts","effect":"deny","target":[[[{"class":"mast"}]]]},
        {"rule":"a","effect":"deny","target":[[[{"class":"a"}]]]},{"rule":"b","effect":"deny","target":[[[{"class":"b"}]]]},
        {"rule":"c","effect":"deny","target":[[[{"class":"c"}]]]},{"rule":"d","effect":"deny","target":[[[{"class":"d"}]]]},
        {"rule":"e","effect":"deny","target":[[[{"class":"e"}]]]},{"rule":"f","effect":"deny","target":[[[{"class":"f"}]]]},
        {"rule":"g","effect":"deny","target":[[[{"class":"g"}]]]},{"rule":"all","effect":"permit"}]}}"#;
    let mut in_force = InForce::new(Arc::new(rt.alloc(), decider(&rt, rt.alloc(), text))?);
    let mut dice = Dice { state: 7 };
    let question = question(&rt, &mut dice);
    for number in 0..300_u32 {
        let class = format!(in rt.alloc(); "class-{number}")?;
        in_force.tell(name(&rt, "north"), name(&rt, &class));
    }
    in_force.tell(name(&rt, "north"), name(&rt, "mast"));
    in_force.prepare(&question.subject, &Action::Read, 1_000);
    let mut reading = in_force.reading(&question.subject, &Action::Read);
    for number in 0..300_u32 {
        let class = format!(in rt.alloc(); "class-{number}")?;
        let told = reading.decide(name(&rt, "north"), name(&rt, &class), question.shape);
        assert!(rt; matches!(told, Ok(Ruling::Permit(Some(9)))), "{class}");
    }
    let told = reading.decide(name(&rt, "north"), name(&rt, "mast"), question.shape);
    assert!(rt; matches!(told, Ok(Ruling::DeniedBy(1))));
    Ok(())
}
