//! A hundred thousand random steps of a tree over frames, beside a plain list of its pairs.
use crate::tree_steps::{Dice, see_all};
use frame_keys::Frames;
use plane::{Point, Shape};
use search_tree::{Keeper, Step, Tending, Tree, TreeFault, Visit, Walk};
use std::alloc::Global;
use std::process::Abort;
use std::test::Fail;
use windows::Window;

/// How many random steps are made.
const STEPS: u32 = 100_000;

/// How many searches run at once at most.
const SEARCHES: usize = 16;

/// How many walks are open at once at most.
const WALKS: usize = 64;

/// The x and the y of each random square are below this.
const WIDTH: u32 = 64;

/// The side of an item is below this.
const ITEM: u32 = 4;

/// The side of a window is below this.
const WINDOW: u32 = 20;

/// How many more splits there are at the end, when the empty tree is filled again.
const MORE_SPLITS: u32 = 20;

/// The step of what has not happened.
const NEVER: u32 = u32::MAX;

/// Keeps the pairs from this number on.
#[derive(Clone, Copy)]
struct KeepFrom {
    first: u64,
}

impl<I> Keeper<I> for KeepFrom {
    ghost use Rattle.std.specs.Prelude.{nat_le};

    ghost kept = { λ keeper key item. nat_le keeper.first key };

    fn keeps(&self, key: u64, item: &I) -> bool {
        self.first <= key
    }
}

impl Dice {
    /// A random square, with a side below this one.
    fn square(&mut self, side: u32) -> Square {
        Square {
            x: i32::try_from(self.below(WIDTH)).unwrap_or(0),
            y: i32::try_from(self.below(WIDTH)).unwrap_or(0),
            side: i32::try_from(self.below(side)).unwrap_or(0),
        }
    }
}

/// A square with its border; a point if its side is 0.
#[derive(Clone, Copy, Debug, PartialEq, Eq)]
struct Square {
    x: i32,
    y: i32,
    side: i32,
}

impl Square {
    fn right(&self) -> i32 {
        self.x.saturating_add(self.side)
    }

    fn top(&self) -> i32 {
        self.y.saturating_add(self.side)
    }

    fn meets(&self, other: &Square) -> bool {
        let over = self.x <= other.right() && other.x <= self.right();
        over && self.y <= other.top() && other.y <= self.top()
    }
}

fn shape(rt: &impl Abort, square: &Square) -> Shape {
    let (x, y) = (square.x, square.y);
    let made = if square.side == 0 {
        Shape::point(Point { x, y })
    } else {
        let (right, top) = (square.right(), square.top());
        Shape::polygon(&[
            Point { x, y },
            Point { x: right, y },
            Point { x: right, y: top },
            Point { x, y: top },
            Point { x, y },
        ])
    };
    assert!(rt; made.is_ok());
    made.unwrap()
}

/// A pair of the list: it is in the tree from the step `placed` to the step `dropped`.
#[derive(Clone, Copy, Debug)]
struct Pair {
    square: Square,
    placed: u32,
    dropped: u32,
    /// The last search that is known to have found it.
    seen: u64,
}

/// A running search.
#[derive(Clone, Copy, Debug)]
struct Look {
    number: u64,
    window: Square,
    opened: u32,
    ready: bool,
}

/// How often things happened, and the greatest numbers of searches and of walks at a time.
#[derive(Clone, Copy, Debug)]
struct Tally {
    searches: usize,
    walks: usize,
    installed: u32,
    completed: u32,
    listed: u32,
    ready: u32,
    closed: u32,
    held: u32,
    placed: u32,
    split: u32,
    restarted: u32,
    cleaned: u32,
    retired: u32,
    freed: u32,
}

/// Counts one more.
fn count(number: &mut u32) {
    *number = number.saturating_add(1);
}

const NOTHING: Tally = Tally {
    searches: 0,
    walks: 0,
    installed: 0,
    completed: 0,
    listed: 0,
    ready: 0,
    closed: 0,
    held: 0,
    placed: 0,
    split: 0,
    restarted: 0,
    cleaned: 0,
    retired: 0,
    freed: 0,
};

/// What the tree is compared with: all pairs by number, the numbers of those in the tree, the
/// searches and the walks.
#[derive(Drop)]
struct Plain {
    pairs: Vec<Pair>,
    live: Vec<u64>,
    looks: Vec<Look>,
    walks: Vec<Walk<Shape>>,
    keeper: KeepFrom,
    step: u32,
    tally: Tally,
}

impl Plain {
    fn new(heap: Global) -> Self {
        Plain {
            pairs: Vec::new(heap),
            live: Vec::new(heap),
            looks: Vec::new(heap),
            walks: Vec::new(heap),
            keeper: KeepFrom { first: 0 },
            step: 0,
            tally: NOTHING,
        }
    }

    fn next_key(&self) -> u64 {
        self.pairs.len() as u64
    }

    fn pair(&self, key: u64) -> Option<Pair> {
        self.pairs.get(key as usize).copied()
    }
}

fn new_tree(rt: &impl Abort, heap: Global) -> Tree<Frames, Global> {
    let made = Tree::new(heap);
    assert!(rt; made.is_ok());
    made.unwrap()
}

/// Notes what a search has found. Checks that each of these pairs meets the search's window and was
/// in the tree at some time since the search was opened.
fn note_found(rt: &impl Abort, plain: &mut Plain, look: &Look, found: &[(u64, Shape)]) {
    for (key, item) in found {
        let known = plain.pairs.get_mut(*key as usize);
        assert!(rt; known.is_some(), "a pair of no number");
        let pair = known.unwrap();
        assert!(rt;
            pair.placed != NEVER && look.opened < pair.dropped,
            "{key} was not there"
        );
        assert!(rt; pair.square.meets(&look.window), "{key} is not looked for");
        assert!(rt; *item == shape(rt, &pair.square), "{key} is another");
        pair.seen = look.number;
    }
}

/// Checks that each pair in the tree that the window meets was noted as found.
fn check_complete(rt: &impl Abort, plain: &Plain, look: &Look) {
    for key in &plain.live {
        let known = plain.pair(*key);
        assert!(rt; known.is_some());
        let pair = known.unwrap();
        assert!(rt;
            pair.seen == look.number || !pair.square.meets(&look.window),
            "{key} is missed"
        );
    }
}

/// Notes what a ready search has found, and checks that nothing is missing.
fn check_ready(rt: &impl Abort, plain: &mut Plain, tree: &Tree<Frames, Global>, look: &Look) {
    note_found(rt, plain, look, tree.found(look.number));
    check_complete(rt, plain, look);
}

fn try_open(rt: &impl Abort, dice: &mut Dice, plain: &mut Plain, tree: &mut Tree<Frames, Global>) {
    let window = dice.square(WINDOW);
    let answer = tree.open_search(Window::new(shape(rt, &window)));
    if plain.looks.len() >= SEARCHES {
        assert!(rt; answer == Err(TreeFault::TooMany));
        return;
    }
    assert!(rt; answer.is_ok());
    let look = Look {
        number: answer.unwrap(),
        window,
        opened: plain.step,
        ready: false,
    };
    assert!(rt; plain.looks.push(look).is_ok());
    plain.tally.searches = plain.tally.searches.max(plain.looks.len());
}

fn try_visit(rt: &impl Abort, dice: &mut Dice, plain: &mut Plain, tree: &mut Tree<Frames, Global>) {
    let sides = u32::try_from(plain.looks.len()).unwrap_or(0);
    let at = dice.below(sides.saturating_add(1)) as usize;
    let Some(look) = plain.looks.get(at).copied() else {
        // The numbers of searches start at 1.
        assert!(rt; tree.visit(0) == Err(TreeFault::NoSearch));
        return;
    };
    let answer = tree.visit(look.number);
    assert!(rt; answer.is_ok() && (!look.ready || answer == Ok(Visit::Ready)));
    if answer == Ok(Visit::Ready) && !look.ready {
        check_ready(rt, plain, tree, &look);
        count(&mut plain.tally.ready);
        for other in plain.looks.iter_mut() {
            if other.number == look.number {
                other.ready = true;
            }
        }
    }
}

/// Closes the search at an index, if there is one. One that is ready still misses nothing.
fn close(rt: &impl Abort, plain: &mut Plain, tree: &mut Tree<Frames, Global>, at: usize) {
    let Some(look) = plain.looks.get(at).copied() else {
        return;
    };
    if look.ready {
        check_ready(rt, plain, tree, &look);
        count(&mut plain.tally.closed);
    }
    tree.close_search(look.number);
    assert!(rt; tree.found(look.number).is_empty());
    plain.looks.retain(|other| other.number != look.number);
}

fn try_start(rt: &impl Abort, dice: &mut Dice, plain: &mut Plain, tree: &Tree<Frames, Global>) {
    if plain.walks.len() >= WALKS {
        return;
    }
    let square = dice.square(ITEM);
    let walk = tree.start_walk(plain.next_key(), shape(rt, &square));
    let pair = Pair {
        square,
        placed: NEVER,
        dropped: NEVER,
        seen: 0,
    };
    assert!(rt; plain.pairs.push(pair).is_ok() && plain.walks.push(walk).is_ok());
    plain.tally.walks = plain.tally.walks.max(plain.walks.len());
}

/// Notes that a pair is in the tree from now on. Checks that no ready search looks for it.
fn note_placed(rt: &impl Abort, plain: &mut Plain, key: u64) {
    let step = plain.step;
    let known = plain.pairs.get_mut(key as usize);
    assert!(rt; known.is_some());
    let pair = known.unwrap();
    assert!(rt; pair.placed == NEVER);
    pair.placed = step;
    let square = pair.square;
    assert!(rt;
        !plain
            .looks
            .iter()
            .any(|look| look.ready && look.window.meets(&square))
    );
    assert!(rt; plain.live.push(key).is_ok());
    count(&mut plain.tally.placed);
}

/// Checks that the search that holds a pair back is running and looks for it.
fn check_held(rt: &impl Abort, plain: &Plain, key: u64, search: u64) {
    let known = plain.pair(key);
    assert!(rt; known.is_some());
    let square = known.unwrap().square;
    assert!(rt;
        plain
            .looks
            .iter()
            .any(|look| look.number == search && look.window.meets(&square))
    );
}

fn try_advance(
    rt: &impl Abort,
    dice: &mut Dice,
    plain: &mut Plain,
    tree: &mut Tree<Frames, Global>,
) {
    let at = dice.below(u32::try_from(plain.walks.len()).unwrap_or(0)) as usize;
    let Some(walk) = plain.walks.get_mut(at) else {
        return;
    };
    let key = walk.key();
    match tree.advance(walk) {
        Ok(Step::Placed) => {
            plain.walks.retain(|other| !other.placed());
            note_placed(rt, plain, key);
        }
        Ok(Step::Split) => count(&mut plain.tally.split),
        Ok(Step::Restarted) => count(&mut plain.tally.restarted),
        Ok(Step::Installed) => count(&mut plain.tally.installed),
        Ok(Step::Moved) => {}
        Err(TreeFault::Held(search)) => {
            check_held(rt, plain, key, search);
            count(&mut plain.tally.held);
        }
        Err(_) => panic!(rt; "a walk is refused"),
    }
}

/// Opens a search for everything, and visits until it is ready.
fn everything(rt: &impl Abort, plain: &Plain, tree: &mut Tree<Frames, Global>) -> Look {
    let window = Square {
        x: -1,
        y: -1,
        side: 100,
    };
    let opened = tree.open_search(Window::new(shape(rt, &window)));
    assert!(rt; opened.is_ok());
    let number = opened.unwrap();
    see_all(rt, tree, number);
    Look {
        number,
        window,
        opened: plain.step,
        ready: true,
    }
}

/// Drops the pairs that a search for everything has not found, and returns how many. Checks that
/// the keeper keeps none of them.
fn drop_lost(rt: &impl Abort, plain: &mut Plain, search: u64) -> usize {
    let before = plain.live.len();
    let first = plain.keeper.first;
    let step = plain.step;
    for key in &plain.live {
        let known = plain.pairs.get_mut(*key as usize);
        assert!(rt; known.is_some());
        let pair = known.unwrap();
        if pair.seen != search {
            assert!(rt; *key < first, "{key} is to stay");
            pair.dropped = step;
        }
    }
    let pairs = &plain.pairs;
    plain.live.retain(|key| match pairs.get(*key as usize) {
        Some(pair) => pair.dropped == NEVER,
        None => false,
    });
    before.saturating_sub(plain.live.len())
}

/// Checks, before the keeper changes, that every pair of the list is still in the tree.
fn check_list(rt: &impl Abort, plain: &mut Plain, tree: &mut Tree<Frames, Global>) {
    if plain.looks.len() >= SEARCHES {
        close(rt, plain, tree, 0);
    }
    let look = everything(rt, plain, tree);
    check_ready(rt, plain, tree, &look);
    tree.close_search(look.number);
    count(&mut plain.tally.listed);
}

/// Notes a cleaning. Checks that it removed at least one pair, and at most as many as a leaf has.
fn note_cleaned(rt: &impl Abort, plain: &mut Plain, tree: &mut Tree<Frames, Global>) {
    if plain.looks.len() >= SEARCHES {
        close_after(rt, plain, tree);
    }
    let look = everything(rt, plain, tree);
    note_found(rt, plain, &look, tree.found(look.number));
    tree.close_search(look.number);
    let lost = drop_lost(rt, plain, look.number);
    assert!(rt; 0 < lost && lost <= 16, "{lost} went");
    count(&mut plain.tally.cleaned);
}

/// Closes a search without a check, since the list does not know yet which pairs were removed.
fn close_after(rt: &impl Abort, plain: &mut Plain, tree: &mut Tree<Frames, Global>) {
    let Some(look) = plain.looks.pop() else {
        return;
    };
    tree.close_search(look.number);
}

fn tend_slot(
    rt: &impl Abort,
    plain: &mut Plain,
    tree: &mut Tree<Frames, Global>,
    slot: u32,
) -> Tending {
    let keeper = plain.keeper;
    let answer = tree.tend(slot, &keeper);
    assert!(rt; answer.is_ok());
    let done = answer.unwrap();
    match done {
        Tending::Cleaned => note_cleaned(rt, plain, tree),
        Tending::Retired => count(&mut plain.tally.retired),
        Tending::Freed => count(&mut plain.tally.freed),
        Tending::Installed => count(&mut plain.tally.completed),
        Tending::Idle => {}
    }
    done
}

fn try_tend(rt: &impl Abort, dice: &mut Dice, plain: &mut Plain, tree: &mut Tree<Frames, Global>) {
    let slot = dice.below(tree.slots().saturating_add(1));
    tend_slot(rt, plain, tree, slot);
}

/// Changes the keeper. It keeps all pairs, the last 300 or 600, or none that has a number yet.
fn change_keeper(dice: &mut Dice, plain: &mut Plain) {
    let next = plain.next_key();
    let first = match dice.below(4) {
        0 => 0,
        1 => next,
        2 => next.saturating_sub(300),
        _ => next.saturating_sub(600),
    };
    plain.keeper = KeepFrom { first };
}

fn try_one(rt: &impl Abort, dice: &mut Dice, plain: &mut Plain, tree: &mut Tree<Frames, Global>) {
    // In 4,000 of each 20,000 steps more searches are opened, which hold pairs back.
    let most = if plain.step / 4_000 % 5 == 4 {
        1_100
    } else {
        1_000
    };
    match dice.below(most) {
        0..=29 => try_open(rt, dice, plain, tree),
        30..=299 => try_visit(rt, dice, plain, tree),
        300..=349 => {
            let at = dice.below(16) as usize;
            close(rt, plain, tree, at);
        }
        350..=469 => try_start(rt, dice, plain, tree),
        470..=869 => try_advance(rt, dice, plain, tree),
        870..=998 => try_tend(rt, dice, plain, tree),
        999 => {
            check_list(rt, plain, tree);
            change_keeper(dice, plain);
        }
        _ => try_open(rt, dice, plain, tree),
    }
}

/// Closes all searches, and advances the walks until none is left.
fn finish_all(
    rt: &impl Abort,
    dice: &mut Dice,
    plain: &mut Plain,
    tree: &mut Tree<Frames, Global>,
) {
    for _ in 0..SEARCHES {
        close(rt, plain, tree, 0);
    }
    for _ in 0..10_000 {
        if plain.walks.is_empty() {
            break;
        }
        plain.step = plain.step.saturating_add(1);
        try_advance(rt, dice, plain, tree);
    }
    assert!(rt; plain.looks.is_empty() && plain.walks.is_empty());
}

/// Tends all slots in turn until a whole round returns only `Idle`.
fn tend_until_idle(rt: &impl Abort, plain: &mut Plain, tree: &mut Tree<Frames, Global>) {
    for _ in 0..100 {
        let mut idle = true;
        for slot in 0..tree.slots() {
            plain.step = plain.step.saturating_add(1);
            if tend_slot(rt, plain, tree, slot) != Tending::Idle {
                idle = false;
            }
        }
        if idle {
            return;
        }
    }
    panic!(rt; "tending has no end");
}

/// Tends with a keeper of nothing until no pair is left, and returns how many slots were ever used.
fn clear(rt: &impl Abort, plain: &mut Plain, tree: &mut Tree<Frames, Global>) -> u32 {
    plain.keeper = KeepFrom { first: u64::MAX };
    tend_until_idle(rt, plain, tree);
    assert!(rt; plain.live.is_empty());
    let look = everything(rt, plain, tree);
    assert!(rt; tree.found(look.number).is_empty());
    tree.close_search(look.number);
    tree.slots()
}

/// Places pairs until `splits` splits have been counted.
fn refill(
    rt: &impl Abort,
    dice: &mut Dice,
    plain: &mut Plain,
    tree: &mut Tree<Frames, Global>,
    splits: u32,
) {
    for _ in 0..1_000 {
        if splits <= plain.tally.split {
            return;
        }
        for _ in 0..WALKS {
            try_start(rt, dice, plain, tree);
        }
        finish_all(rt, dice, plain, tree);
    }
    panic!(rt; "nodes do not split");
}

#[test]
fn beside_a_list_of_pairs(rt: HostRuntime) -> Result<(), Fail> {
    let mut plain = Plain::new(rt.alloc());
    let mut tree = new_tree(&rt, rt.alloc());
    let mut dice = Dice { state: 2_026 };
    for step in 0..STEPS {
        plain.step = step;
        try_one(&rt, &mut dice, &mut plain, &mut tree);
    }
    check_tally(&rt, &plain.tally);
    finish_all(&rt, &mut dice, &mut plain, &mut tree);
    let slots = clear(&rt, &mut plain, &mut tree);
    let splits = plain.tally.split.saturating_add(MORE_SPLITS);
    refill(&rt, &mut dice, &mut plain, &mut tree, splits);
    assert_eq!(rt; clear(&rt, &mut plain, &mut tree), slots);
    Ok(())
}

/// Checks that enough has happened: the greatest numbers of searches and of walks were reached, and
/// right nodes got their entries both from walks (`installed`) and from tending (`completed`).
fn check_tally(rt: &impl Abort, tally: &Tally) {
    let searched = tally.ready > 100 && tally.closed > 100 && tally.listed > 50;
    let walked = tally.placed > 1_000 && tally.split > 50;
    let hindered = tally.held > 500 && tally.restarted > 10;
    let tended = tally.cleaned > 100 && tally.retired > 20 && tally.freed > 20;
    let crowded = tally.searches == SEARCHES && tally.walks == WALKS;
    let linked = tally.installed > 50 && tally.completed > 20;
    assert!(rt;
        searched && walked && hindered && tended && crowded && linked,
        "{tally:?}"
    );
}
