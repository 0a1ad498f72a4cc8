//! The choice of the entry that a walk descends by.

ghost use Rattle.std.specs.Prelude.{◌≡◌, ◌<◌, false, IsTrue, length};
ghost use Rattle.tree_nodes.specs.Penalties.{IsLess, IsNoMore, IsBest, penalties_of};

use tree_theory::KeyClass;

/// The penalties of an entry for an item, compared in this order: how much the entry's key would
/// grow by the item's key, the same by the class's second measure, and how much the item's key
/// would grow by the entry's.
#[derive(Clone, Copy)]
pub(crate) struct Penalties {
    growth: u64,
    second: u64,
    excess: u64,
}

/// The index of an entry of least penalties for an item's key.
pub fn best_entry<C: KeyClass>(keys: &[C::Key], key: C::Key) -> usize
    requires { 0 < length keys.now }
    ensures { IsBest C.growth C.second_growth keys.now key result }
{
    let mut best = 0;
    let mut least = measured::<C>(keys[0], key);
    for (place, other) in keys.iter().enumerate() {
        let measures = measured::<C>(*other, key);
        if is_less(measures, least) {
            best = place;
            least = measures;
        }
    }
    best
}

/// The penalties of an entry with this key for an item's key.
fn measured<C: KeyClass>(held: C::Key, key: C::Key) -> Penalties
    ensures { result ≡ penalties_of C.growth C.second_growth held key }
{
    Penalties {
        growth: C::penalty(held, key),
        second: C::second_penalty(held, key),
        excess: C::penalty(key, held),
    }
}

/// Whether one is less than the other in the first measure in which they differ.
fn is_less(one: Penalties, other: Penalties) -> bool
    ensures less { IsTrue result → IsLess one other }
    ensures no_more { result ≡ false → IsNoMore other one }
{
    if one.growth != other.growth {
        return one.growth < other.growth;
    }
    if one.second != other.second {
        return one.second < other.second;
    }
    one.excess < other.excess
}
