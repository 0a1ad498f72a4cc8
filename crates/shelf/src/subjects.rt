//! The subjects of a life, as a text for readers.

use features::{Name, Subject, Subjects};
use memory::{GrowText, NoMemory};
use std::alloc::Global;

/// Appends a name.
fn push_name(text: &mut String, name: &Name) -> Result<(), NoMemory> {
    match str::from_utf8(name.as_bytes()) {
        Ok(name) => text.try_push_str(name),
        Err(_) => Ok(()),
    }
}

/// Appends a subject as a JSON object.
fn push_subject(text: &mut String, subject: &Subject) -> Result<(), NoMemory> {
    text.try_push_str("{\"name\":\"")?;
    push_name(text, &subject.name)?;
    text.try_push_str("\",\"office\":\"")?;
    push_name(text, &subject.office)?;
    text.try_push_str("\",\"role\":\"")?;
    push_name(text, &subject.role)?;
    text.try_push_str(if subject.steward {
        "\",\"steward\":true}"
    } else {
        "\",\"steward\":false}"
    })
}

/// Subjects as a JSON array. No name has a character that JSON escapes.
pub(crate) fn subjects_text(heap: Global, subjects: &Subjects) -> Result<String, NoMemory> {
    let mut text = String::new(heap);
    text.try_push_str("[")?;
    let mut is_first = true;
    for subject in subjects.as_slice() {
        if !is_first {
            text.try_push_str(",")?;
        }
        is_first = false;
        push_subject(&mut text, subject)?;
    }
    text.try_push_str("]")?;
    Ok(text)
}
