//! Configurations: who may work on a server, and under which policies.

ghost use Rattle.std.specs.Prelude.{◌≡◌, [], Err, bytes_eq, length};
ghost use Rattle.std.specs.List.{list_any};
ghost use Rattle.serde_json.specs.View.{view, items_view};
ghost use Rattle.configuration.specs.ConfigFaults.{Gives};
ghost use Rattle.configuration.specs.Configs.{config_data, config_from, config_in, config_of, count_before_again, list_path, of_form, subject_behind, subject_in, subjects_in, taken_over, policies_in};

use crate::config_faults::ConfigFault;
use crate::fields::{array_in, name_in, object_in, steward_in, value_in};
use crate::grids::grid_member;
use crate::paths::{ConfigPath, MemberName};
use crate::web::{Web, web_in};
use features::{Subject, Subjects, SubjectsFault};
use grid::Grid;
use memory::{GrowVec, json_value};
use policy_text::{Document, document_of_value};
use serde_json::Value;
use std::alloc::{Allocator, Global};

const CONFIG_KEYS: [MemberName; 9] = [
    MemberName::Subjects,
    MemberName::Policies,
    MemberName::Grid,
    MemberName::Anonymous,
    MemberName::Metrics,
    MemberName::Public,
    MemberName::Collections,
    MemberName::Keys,
    MemberName::TrustedField,
];

const SUBJECT_KEYS: [MemberName; 4] = [
    MemberName::Name,
    MemberName::Office,
    MemberName::Role,
    MemberName::Steward,
];

/// What a server is opened with: its subjects, its first policy document, and more if it says so.
#[derive(Debug, Drop)]
pub struct Config<A: Allocator> {
    /// The subjects that sessions may name.
    pub subjects: Subjects,
    /// The first policies in force.
    pub document: Document<A>,
    /// Which numbers whole coordinates mean in files, if it says so.
    pub grid: Option<Grid>,
    /// What it says of HTTP.
    pub web: Web<A>,
}

/// The subject of this index, which a JSON value spells.
#[tactic(auto, unfolding(crate::specs::Configs::subject_in))]
fn subject_in(value: &Value, index: usize) -> Result<Subject, ConfigPath>
    ensures { result ≡ subject_in index (view value.now) }
{
    let path = ConfigPath::Item(MemberName::Subjects, index);
    object_in(value, &SUBJECT_KEYS, path)?;
    let name = name_in(value, MemberName::Name, index)?;
    let office = name_in(value, MemberName::Office, index)?;
    let role = name_in(value, MemberName::Role, index)?;
    let steward = steward_in(value, index)?;
    Ok(Subject {
        name,
        office,
        role,
        steward,
    })
}

/// The subject behind these.
fn subject_behind(before: &[Subject], value: &Value) -> Result<Subject, ConfigPath>
    ensures { result ≡ subject_behind before.now (view value.now) }
{
    subject_in(value, before.len())
}

/// The subjects of an array, in order.
fn subjects_in<A: Allocator>(alloc: A, items: &[Value]) -> Result<Vec<Subject, A>, ConfigFault>
    ensures { Gives (λ subjects. subjects.items) result (of_form (subjects_in (items_view items.now))) }
{
    let mut subjects = Vec::new(alloc);
    for value in items {
        let subject = subject_behind(subjects.as_slice(), value)?;
        subjects.try_push(subject)?;
    }
    Ok(subjects)
}

/// Whether one of these subjects has the name of this one.
fn is_named_before(subject: &Subject, before: &[Subject]) -> bool
    ensures { result ≡ list_any (λ other. bytes_eq other.name subject.now.name) before.now }
{
    before.iter().any(|other| other.name == subject.name)
}

/// How many subjects stand before the first one whose name one of them has.
fn count_before_again(subjects: &[Subject]) -> usize
    ensures { result ≡ count_before_again [] subjects.now }
{
    for (index, subject) in subjects.iter().enumerate() {
        if is_named_before(subject, &subjects[..index]) {
            return index;
        }
    }
    subjects.len()
}

/// Where a fault of the list of these subjects is.
fn list_path(subjects: &[Subject], fault: SubjectsFault) -> ConfigPath
    ensures { result ≡ list_path subjects.now fault }
{
    match fault {
        SubjectsFault::NoneGiven | SubjectsFault::TooMany => {
            ConfigPath::Member(MemberName::Subjects)
        }
        SubjectsFault::NameTwice => {
            let index = count_before_again(subjects);
            ConfigPath::ItemMember(MemberName::Subjects, index, MemberName::Name)
        }
    }
}

/// The checked list of subjects.
fn taken_over(subjects: &[Subject]) -> Result<Subjects, ConfigFault>
    ensures { result ≡ taken_over subjects.now }
{
    match Subjects::new(subjects) {
        Ok(taken) => Ok(taken),
        Err(fault) => Err(ConfigFault::Subjects(fault, list_path(subjects, fault))),
    }
}

/// The document that a JSON value spells.
fn policies_in<A: Allocator + Copy>(alloc: A, value: &Value) -> Result<Document<A>, ConfigFault>
    ensures { Gives (λ document. document) result (policies_in (view value.now)) }
{
    Ok(document_of_value(alloc, value)?)
}

/// The configuration made of an array of subjects, a policy document, and what else its value has.
#[tactic(auto, unfolding(crate::specs::Configs::config_from))]
fn config_from<A: Allocator + Copy>(
    alloc: A,
    items: &[Value],
    policies: &Value,
    value: &Value,
) -> Result<Config<A>, ConfigFault>
    ensures { Gives config_data result (config_from (items_view items.now) (view policies.now)
        (view value.now)) }
{
    let given = subjects_in(alloc, items)?;
    let subjects = taken_over(given.as_slice())?;
    let document = policies_in(alloc, policies)?;
    let grid = grid_member(value_in(value, MemberName::Grid))?;
    let web = web_in(alloc, &subjects, value)?;
    Ok(Config {
        subjects,
        document,
        grid,
        web,
    })
}

/// The configuration that a JSON value spells.
#[tactic(auto, unfolding(crate::specs::Configs::config_in))]
fn config_in<A: Allocator + Copy>(alloc: A, value: &Value) -> Result<Config<A>, ConfigFault>
    ensures { Gives config_data result (config_in (view value.now)) }
{
    object_in(value, &CONFIG_KEYS, ConfigPath::Whole)?;
    let Some(items) = array_in(value, MemberName::Subjects) else {
        return Err(ConfigFault::Form(ConfigPath::Member(MemberName::Subjects)));
    };
    let Some(policies) = value_in(value, MemberName::Policies) else {
        return Err(ConfigFault::Form(ConfigPath::Member(MemberName::Policies)));
    };
    config_from(alloc, items, policies, value)
}

/// Reads the configuration that a JSON text (RFC 8259) spells: an object with the keys `subjects`
/// and `policies`, and perhaps `grid`, `anonymous`, `metrics`, `public`, `collections`, `keys`
/// and `trusted-field`.
///
/// `subjects` is an array of 1 to 64 objects with distinct names. Each has the keys `name`,
/// `office` and `role`, which are names, and optionally `steward`, true or false (default false).
/// `policies` is a policy document. `grid` is an object: `origin`, an array of two decimal texts;
/// `decimals`, 0 to 9; and optionally `between`, `refuse` or `nearest` (default `refuse`).
/// `anonymous` and `metrics` are each the name of one of the subjects. `public` is `http://` or
/// `https://` with 1 to 200 bytes of visible ASCII behind it, none of which is `"`, `#`, `<`, `>`,
/// `?` or `\`, and the last no slash. `collections` is an array of at most 64 distinct names, none of
/// which is `features`.
/// `keys` is an array of at most 1,024 distinct objects: `subject`, the name of one of the subjects,
/// and `sha256`, 64 hexadecimal digits. `trusted-field` is true or false (default false), and not
/// true beside a key.
///
/// The error is the first in this order: `NotJson` if the text is not JSON or not UTF-8; `Form` if,
/// outside the policies, a value is missing or of the wrong form, or a key is unknown; `Subjects`
/// if the list is empty, too long, or has a name twice; `Policies` for the first fault of the
/// document; `Form` if the grid is at fault, or what is said of HTTP. Each has the path of the first
/// value that has it, in the order of the array or of what is said here. If an allocation is refused,
/// it is `Memory`. The parsed JSON lies in `heap` until this returns; the document, what is said of
/// HTTP, and a temporary list of the subjects, are allocated in `alloc`.
pub fn read_config<A: Allocator + Copy>(
    alloc: A,
    heap: Global,
    text: &[u8],
) -> Result<Config<A>, ConfigFault>
    ensures value { Gives config_data result (config_of text.now) }
    ensures empty { length text.now ≡ 0 → result ≡ Err ConfigFault.NotJson }
{
    let value = json_value(heap, text)?;
    config_in(alloc, &value)
}
