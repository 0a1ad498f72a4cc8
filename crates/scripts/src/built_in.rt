//! The subjects of the built-in configuration.

ghost use Rattle.std.specs.Prelude.{◌≡◌, true};
ghost use Rattle.features.specs.Names.{is_name};
ghost use Rattle.scripts.specs.BuiltIn.{built_in};

use features::{Name, Subject, Subjects};

/// The subjects of the built-in configuration: `north`, an editor of the office north; `south`, a
/// viewer of the office south; and `chief`, the steward, of the office hq.
pub fn built_in_subjects() -> Subjects
    ensures { result ≡ built_in }
{
    let subjects = [
        subject(b"north", b"north", b"editor", false),
        subject(b"south", b"south", b"viewer", false),
        subject(b"chief", b"hq", b"chief", true),
    ];
    Subjects::new(&subjects).unwrap()
}

/// A subject of these names.
fn subject(name: &[u8], office: &[u8], role: &[u8], steward: bool) -> Subject
    requires name { is_name name.now ≡ true }
    requires office { is_name office.now ≡ true }
    requires role { is_name role.now ≡ true }
    ensures { result
        ≡ record { name = name.now; office = office.now; role = role.now; steward = steward } }
{
    Subject {
        name: Name::new(name).unwrap(),
        office: Name::new(office).unwrap(),
        role: Name::new(role).unwrap(),
        steward,
    }
}
