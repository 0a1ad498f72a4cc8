//! The keys of a search tree.

ghost use Rattle.std.specs.Prelude.{◌≡◌, ◌↔◌, List, ℕ, ◌<◌, ◌≤◌, Some, IsTrue, IsBitSet, length, count_ones, slice_get};
ghost use Rattle.tree_theory.specs.KeyClasses.{Class, Laws};
ghost use Rattle.tree_theory.specs.declared.TheConstants.{NODE_SIZE};

/// What a search tree knows of its keys: the key of an item, whether items behind a key may match a
/// query, and the union of keys. A class is a type that needs no values.
///
/// `class` is what the theory knows of the class: `covers`, `consistent` and `matches` decide its
/// facts `Covers`, `Consistent` and `Matches`. `picks` says which masks `pick_split` may return.
/// The laws hold for all values of the types, except `whole_covers`: it holds for the keys that
/// meet `is_key`, as every key in hand does (`fact_known_key`).
pub trait KeyClass {
    /// A key stands for all items below a node, as a frame does.
    type Key: Copy;

    /// A query says what a search looks for, as a shape does.
    type Query: Copy;

    /// An item is what the tree holds under a number, such as a shape.
    type Item: Copy;

    ghost is_key: { Self.Key → Type 0 };

    ghost class: { Class Self.Key Self.Query Self.Item };

    ghost whole_key: { Self.Key };

    ghost growth: { Self.Key → Self.Key → ℕ };

    ghost second_growth: { Self.Key → Self.Key → ℕ };

    ghost picks: { List Self.Key → ℕ → Type 0 };

    /// Fact for the checker, no effect: every key in hand meets `is_key`.
    fn fact_known_key(key: Self::Key)
        ensures { is_key key };

    /// The key of an item: the least key that stands for it.
    fn key_of(item: Self::Item) -> Self::Key
        ensures { result ≡ class.key_of item };

    /// Whether the outer key covers the inner one: it stands for whatever the inner one stands for.
    fn covers(outer: Self::Key, inner: Self::Key) -> bool
        ensures { IsTrue result ↔ class.Covers outer inner };

    /// The least key that covers both.
    fn union(one: Self::Key, other: Self::Key) -> Self::Key
        ensures { result ≡ class.united one other };

    /// The key that covers every key in hand.
    fn whole() -> Self::Key
        ensures { result ≡ whole_key };

    /// Whether an item behind the key may match the query.
    fn consistent(key: Self::Key, query: Self::Query) -> bool
        ensures { IsTrue result ↔ class.Consistent key query };

    /// `consistent` for each key of a node: bit i is set exactly if key i is consistent, and bits
    /// beyond the keys are clear. The query is not copied.
    fn matching_mask(keys: &[Self::Key], query: &Self::Query) -> u16
        requires { length keys.now ≤ NODE_SIZE }
        ensures each { (i : ℕ) (key : Self.Key) → slice_get keys.now i ≡ Some key
            → (IsBitSet result i ↔ class.Consistent key query.now) }
        ensures no_other { (i : ℕ) → IsBitSet result i → i < length keys.now };

    /// `matching_mask` of a query in hand.
    fn consistent_mask(keys: &[Self::Key], query: Self::Query) -> u16
        requires { length keys.now ≤ NODE_SIZE }
        ensures each { (i : ℕ) (key : Self.Key) → slice_get keys.now i ≡ Some key
            → (IsBitSet result i ↔ class.Consistent key query) }
        ensures no_other { (i : ℕ) → IsBitSet result i → i < length keys.now }
    {
        Self::matching_mask(keys, &query)
    }

    /// Whether the item matches the query.
    fn matches(item: Self::Item, query: Self::Query) -> bool
        ensures { IsTrue result ↔ class.Matches item query };

    /// `matches` for an item and a query that stay where they are: neither is copied.
    fn matches_in_place(item: &Self::Item, query: &Self::Query) -> bool
        ensures { IsTrue result ↔ class.Matches item.now query.now };

    /// How much a key grows when it is united with the other one. A walk descends by an entry of
    /// least penalty.
    fn penalty(key: Self::Key, other: Self::Key) -> u64
        ensures { result ≡ growth key other };

    /// Breaks ties between entries of equal penalty: the lesser one is taken. A class without such
    /// a measure returns 0.
    fn second_penalty(key: Self::Key, other: Self::Key) -> u64
        ensures { result ≡ second_growth key other };

    /// Which keys of a full node go to the right part in a split: bit i for key i. At least 4 keys
    /// go, and at least 4 stay.
    fn pick_split(keys: &[Self::Key]) -> u16
        requires { length keys.now ≡ NODE_SIZE }
        ensures picked { picks keys.now result }
        ensures least { 4 ≤ count_ones result }
        ensures most { count_ones result ≤ 12 };

    ghost whole_covers: { (key : Self.Key) → is_key key → class.Covers whole_key key };

    ghost laws: { Laws class };
}
