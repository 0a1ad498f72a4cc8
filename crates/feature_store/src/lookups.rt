//! Looking up one id after another.

ghost use Rattle.std.specs.Prelude.{◌≡◌};
ghost use Rattle.features.specs.Rows.{feature_with};
ghost use Rattle.feature_store.specs.Ticks.{ticked_by};

use crate::meters::Meter;
use crate::stores::Store;
use crate::tables;
use features::Feature;
use std::alloc::Allocator;
use std::marker::Model;

/// Looks up one id after another, each first near the last one: ids that rise are found sooner than
/// by `Store::get`. A contract sees the features of the store, as it does of that.
#[derive(Debug, Drop)]
pub struct Lookup<'s, A: Allocator> {
    store: &'s Store<A>,
    near: usize,
}

impl<'s, A: Allocator> Model for Lookup<'s, A> {
    ghost use Rattle.std.specs.Prelude.{List};
    ghost use Rattle.features.specs.declared.rows.Feature.{Feature};

    ghost Value = { List Feature };

    ghost view = { λ l. l.store.now };
}

impl<'s, A: Allocator> Lookup<'s, A> {
    /// Looks ids of a store up, the least first.
    pub(crate) fn new(store: &'s Store<A>) -> Lookup<'s, A>
        ensures { result ≡ store.now }
    {
        Lookup { store, near: 0 }
    }

    /// The feature with this id. Costs one tick.
    pub fn get(&mut self, id: u64, meter: &mut Meter) -> Option<Feature>
        ensures value { result ≡ feature_with id self.old }
        ensures same { self.new ≡ self.old }
        ensures cost { meter.new ≡ ticked_by 1 meter.old }
    {
        meter.tick(1);
        let store = self.store;
        tables::find_near(&store.table, &mut self.near, id)
    }
}
