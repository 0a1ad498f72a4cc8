//! A plain world of lists, with which a world's answers are compared. It shares only the names of
//! the causes with the world: shapes are points, windows are squares, and each policy is a few
//! lines of code.
use judging::Cause;
use std::alloc::Global;
use std::process::Abort;

/// The most records of the trail, here and in the world that is compared.
pub const RECORDS: u32 = 40;

/// The most features, here and in the world that is compared.
pub const FEATURES: u32 = 300;

/// How many seats were given, here and in the world that is compared.
pub const SEATS: u32 = 16;

/// The greatest x at which the last policy permits anything; up to there it permits all.
pub const WEST: i32 = 31;

/// A point.
#[derive(Clone, Copy, Debug, PartialEq, Eq)]
pub struct Spot {
    pub x: i32,
    pub y: i32,
}

/// A feature at a point.
#[derive(Clone, Copy, Debug, PartialEq, Eq)]
pub struct Mark {
    pub id: u64,
    pub version: u64,
    pub office: u32,
    pub class: u32,
    pub x: i32,
    pub y: i32,
}

/// A change of a mark.
#[derive(Clone, Copy, Debug, PartialEq, Eq)]
pub enum Edit {
    Add {
        id: u64,
        class: u32,
        x: i32,
        y: i32,
    },
    Move {
        id: u64,
        version: u64,
        x: i32,
        y: i32,
    },
    Remove {
        id: u64,
        version: u64,
    },
}

impl Edit {
    pub fn id(&self) -> u64 {
        match self {
            Edit::Add { id, .. } => *id,
            Edit::Move { id, .. } => *id,
            Edit::Remove { id, .. } => *id,
        }
    }

    /// Where the edit puts a shape; `None` for a removal.
    fn spot(&self) -> Option<Spot> {
        match self {
            Edit::Add { x, y, .. } => Some(Spot { x: *x, y: *y }),
            Edit::Move { x, y, .. } => Some(Spot { x: *x, y: *y }),
            Edit::Remove { .. } => None,
        }
    }
}

/// The square from (`low`, `low`) to (`high`, `high`), with its border.
#[derive(Clone, Copy, Debug, PartialEq, Eq)]
pub struct Area {
    pub low: i32,
    pub high: i32,
}

impl Area {
    fn holds(&self, x: i32, y: i32) -> bool {
        let over = self.low <= x && x <= self.high;
        over && self.low <= y && y <= self.high
    }
}

/// A search: whether it has made a step, and whether it has answered Ready.
#[derive(Clone, Copy, Debug, PartialEq, Eq)]
pub struct Look {
    pub number: u64,
    pub seat: u32,
    pub area: Area,
    pub visited: bool,
    pub ready: bool,
}

/// An open transaction: its edits, and how many of their shapes are placed.
#[derive(Debug, Drop)]
pub struct Draft {
    pub number: u64,
    pub seat: u32,
    pub edits: Vec<Edit>,
    pub placed: usize,
}

/// What is asked of a policy.
#[derive(Clone, Copy, Debug, PartialEq, Eq)]
pub enum Doing {
    Read,
    Change,
}

/// The plain world. Its marks are sorted by id, and `base` has the marks of the last roll.
#[derive(Debug, Drop)]
pub struct PlainWorld {
    pub marks: Vec<Mark>,
    pub base: Vec<Mark>,
    pub version: u64,
    pub edition: u64,
    pub policy: u32,
    pub looks: Vec<Look>,
    pub next_look: u64,
    pub drafts: Vec<Draft>,
    pub next_draft: u64,
    pub first: u64,
    pub records: u32,
}

/// The office of a seat.
pub fn office_of(seat: u32) -> u32 {
    seat % 4
}

/// Whether a seat's subject is a steward.
pub fn is_steward(seat: u32) -> bool {
    office_of(seat) == 3
}

/// Why a policy denies that an office does this with a mark; `None` if it permits it. Policy 0
/// permits all; 1 permits only class 0; 2 denies class 1 by its first rule and permits the rest; 3
/// permits everybody to read, and each office to change its own marks; 4 permits all in the west.
fn denial(policy: u32, office: u32, doing: Doing, mark: &Mark) -> Option<Cause> {
    let permitted = match policy {
        0 => true,
        1 => mark.class == 0,
        2 => mark.class != 1,
        3 => doing == Doing::Read || office == mark.office,
        _ => mark.x <= WEST,
    };
    if permitted {
        None
    } else if policy == 2 {
        Some(Cause::Denied(Some(1)))
    } else {
        Some(Cause::Denied(None))
    }
}

impl PlainWorld {
    /// A world without marks.
    pub fn empty(heap: Global) -> Self {
        PlainWorld {
            marks: Vec::new(heap),
            base: Vec::new(heap),
            version: 0,
            edition: 1,
            policy: 0,
            looks: Vec::new(heap),
            next_look: 1,
            drafts: Vec::new(heap),
            next_draft: 1,
            first: 1,
            records: 0,
        }
    }

    /// The seat's own search of a number. X1 if the seat was not given or no such search is open,
    /// X2 if it is another seat's.
    pub fn look(&self, seat: u32, number: u64) -> Result<Look, &'static str> {
        check_seat(seat)?;
        match self.looks.iter().find(|look| look.number == number) {
            None => Err("X1"),
            Some(look) if look.seat != seat => Err("X2"),
            Some(look) => Ok(*look),
        }
    }

    /// The seat's own transaction of a number. X1 if the seat was not given or no such transaction
    /// is open, X2 if it is another seat's.
    pub fn draft(&self, seat: u32, number: u64) -> Result<&Draft, &'static str> {
        check_seat(seat)?;
        match self.drafts.iter().find(|draft| draft.number == number) {
            None => Err("X1"),
            Some(draft) if draft.seat != seat => Err("X2"),
            Some(draft) => Ok(draft),
        }
    }

    /// The point of the next shape of a transaction; `None` if all are placed. X1 and X2 as in
    /// `draft`.
    pub fn next_spot(&self, seat: u32, number: u64) -> Result<Option<Spot>, &'static str> {
        let draft = self.draft(seat, number)?;
        let mut left = draft.placed;
        for edit in draft.edits.iter() {
            if let Some(spot) = edit.spot() {
                if left == 0 {
                    return Ok(Some(spot));
                }
                left = left.saturating_sub(1);
            }
        }
        Ok(None)
    }

    /// Whether the search of a number has made a step and looks for this point. No other search may
    /// hold a walk to it.
    pub fn may_hold(&self, number: u64, spot: &Spot) -> bool {
        self.looks.iter().any(|look| look.number == number
            && look.visited
            && look.area.holds(spot.x, spot.y))
    }

    /// Whether a ready search looks for this point, and holds a walk to it.
    pub fn is_held(&self, spot: &Spot) -> bool {
        self.looks
            .iter()
            .any(|look| look.ready && look.area.holds(spot.x, spot.y))
    }

    /// X10 if the trail is full.
    pub fn check_trail(&self) -> Result<(), &'static str> {
        if self.records >= RECORDS {
            return Err("X10");
        }
        Ok(())
    }

    /// X1 if the seat was not given, X7 if it is no steward's.
    pub fn check_steward(&self, seat: u32) -> Result<(), &'static str> {
        check_seat(seat)?;
        if is_steward(seat) { Ok(()) } else { Err("X7") }
    }

    /// Whether there is a mark of an id.
    pub fn stands(&self, id: u64) -> bool {
        self.marks.iter().any(|mark| mark.id == id)
    }

    /// The mark of an id.
    fn mark(&self, id: u64) -> Option<Mark> {
        self.marks.iter().find(|mark| mark.id == id).copied()
    }

    /// Whether an office is shown a mark in an area.
    pub fn shows(&self, office: u32, area: &Area, mark: &Mark) -> bool {
        area.holds(mark.x, mark.y) && denial(self.policy, office, Doing::Read, mark).is_none()
    }

    /// Why an edit by an office fails; `None` if it does not.
    pub fn objection(&self, office: u32, edit: &Edit) -> Option<Cause> {
        let found = self.mark(edit.id());
        match (edit, found) {
            (Edit::Add { id, class, x, y }, found) => {
                let mark = new_mark(*id, office, *class, *x, *y);
                match denial(self.policy, office, Doing::Change, &mark) {
                    Some(cause) => Some(cause),
                    None => found.map(|_| Cause::Exists),
                }
            }
            (_, None) => Some(Cause::Absent),
            (Edit::Move { version, x, y, .. }, Some(mark)) => {
                let moved = Mark {
                    x: *x,
                    y: *y,
                    ..mark
                };
                self.denied(office, &mark)
                    .or(self.denied(office, &moved))
                    .or(stale(*version, &mark))
            }
            (Edit::Remove { version, .. }, Some(mark)) => {
                self.denied(office, &mark).or(stale(*version, &mark))
            }
        }
    }

    fn denied(&self, office: u32, mark: &Mark) -> Option<Cause> {
        denial(self.policy, office, Doing::Change, mark)
    }

    /// The first edit that fails, counted from 1, and why.
    pub fn judged(&self, office: u32, edits: &[Edit]) -> Option<(u64, Cause)> {
        let mut number = 0u64;
        for edit in edits {
            number = number.saturating_add(1);
            if let Some(cause) = self.objection(office, edit) {
                return Some((number, cause));
            }
        }
        None
    }

    /// How many marks there are after these edits, none of which fails.
    pub fn count_after(&self, edits: &[Edit]) -> usize {
        let mut count = self.marks.len();
        for edit in edits {
            match edit {
                Edit::Add { .. } => count = count.saturating_add(1),
                Edit::Move { .. } => {}
                Edit::Remove { .. } => count = count.saturating_sub(1),
            }
        }
        count
    }

    /// Makes an edit that does not fail.
    pub fn make(&mut self, rt: &impl Abort, office: u32, version: u64, edit: &Edit) {
        match edit {
            Edit::Add { id, class, x, y } => {
                let before = self.marks.iter().filter(|mark| mark.id < *id).count();
                let mark = Mark {
                    version,
                    ..new_mark(*id, office, *class, *x, *y)
                };
                let at = before.min(self.marks.len());
                assert!(rt; self.marks.insert(at, mark).is_ok());
            }
            Edit::Move { id, x, y, .. } => {
                for mark in self.marks.iter_mut() {
                    if mark.id == *id {
                        mark.version = version;
                        mark.x = *x;
                        mark.y = *y;
                    }
                }
            }
            Edit::Remove { id, .. } => self.marks.retain(|mark| mark.id != *id),
        }
    }
}

/// X1 if a seat was not given.
pub fn check_seat(seat: u32) -> Result<(), &'static str> {
    if 1 <= seat && seat <= SEATS {
        Ok(())
    } else {
        Err("X1")
    }
}

/// How many of the edits have a shape.
pub fn shapes_of(edits: &[Edit]) -> usize {
    edits.iter().filter(|edit| edit.spot().is_some()).count()
}

fn new_mark(id: u64, office: u32, class: u32, x: i32, y: i32) -> Mark {
    Mark {
        id,
        version: 0,
        office,
        class,
        x,
        y,
    }
}

/// The cause that `seen` is not the mark's version, if it is not.
fn stale(seen: u64, mark: &Mark) -> Option<Cause> {
    if seen == mark.version {
        None
    } else {
        Some(Cause::Stale(mark.version))
    }
}
