//! What a drawing has besides its marks: its frame, and the colours of the classes.

ghost use Rattle.std.specs.Prelude.{◌≡◌, ◌≤◌, IfOk, length, vec_capacity};
ghost use Rattle.drawing.specs.Pictures.{area_of, classes_of, colour_at, colour_of, place_of, with_class};
ghost use Rattle.drawing.specs.declared.pictures.TheConstants.{COLOURS};

use crate::marks::Mark;
use features::Name;
use memory::{NoMemory, vec_with_room};
use plane::{Frame, frame_of, hull};
use std::alloc::Allocator;

/// The most classes that have a colour of their own.
const COLOURS: usize = 8;

/// The least frame that contains all marks; without marks, the frame of all points.
pub(crate) fn area_of(marks: &[Mark]) -> Frame
    ensures { result ≡ area_of marks.now }
{
    let Some(first) = marks.first() else {
        return Frame::whole();
    };
    let mut area = frame_of(first.shape());
    for mark in marks {
        area = hull(area, frame_of(mark.shape()));
    }
    area
}

/// The place of a class among the classes, or their number if it is not there.
#[tactic(auto, using(crate::proofs::PictureLemmas::place_fits))]
fn place_of(classes: &[Name], class: &Name) -> usize
    ensures value { result ≡ place_of classes.now class.now }
    ensures fits { result ≤ length classes.now }
{
    classes
        .iter()
        .take_while(|known| known.as_bytes() != class.as_bytes())
        .count()
}

/// The colour of the class at this place; one colour serves all places beyond the eighth.
fn colour_at(place: usize) -> &'static str
    ensures value { result.now ≡ colour_at place }
    ensures short { length result.now ≤ 7 }
{
    match place {
        0 => "#1f77b4",
        1 => "#ff7f0e",
        2 => "#2ca02c",
        3 => "#d62728",
        4 => "#9467bd",
        5 => "#8c564b",
        6 => "#e377c2",
        7 => "#17becf",
        _ => "#7f7f7f",
    }
}

/// The colour of a class.
pub(crate) fn colour_of(classes: &[Name], class: &Name) -> &'static str
    ensures value { result.now ≡ colour_of classes.now class.now }
    ensures short { length result.now ≤ 7 }
{
    colour_at(place_of(classes, class))
}

/// Adds the class of a feature, if it is not there and there is a colour left for it.
fn add_class<A: Allocator>(classes: &mut Vec<Name, A>, mark: &Mark)
    requires { COLOURS ≤ vec_capacity classes.old }
    ensures items { classes.new.items ≡ with_class classes.old.items mark.now }
    ensures room { COLOURS ≤ vec_capacity classes.new }
{
    let Mark::Row(feature) = mark else {
        return;
    };
    let place = place_of(classes.as_slice(), &feature.class);
    if place == classes.len() && place < COLOURS {
        classes.push_reserved(feature.class);
    }
}

/// The first classes of the marks, in the order in which they come. Refused if out of memory.
pub(crate) fn classes_of<A: Allocator>(alloc: A, marks: &[Mark]) -> Result<Vec<Name, A>, NoMemory>
    ensures { IfOk result (λ classes. classes.items ≡ classes_of marks.now) }
{
    let mut classes = vec_with_room(alloc, COLOURS)?;
    for mark in marks {
        add_class(&mut classes, mark);
    }
    Ok(classes)
}
