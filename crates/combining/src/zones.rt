//! The zones that a question's shape meets.

ghost use Rattle.std.specs.Prelude.{◌≡◌, ◌+◌, ◌<◌, ◌≤◌, List, [], ◌∷◌, ◌++◌, length};
ghost use Rattle.combining.specs.Holding.{AreMet};
ghost use Rattle.policy_documents.specs.declared.zones.Zone.{Zone};

use features::Name;
use plane::{Shape, meets};
use policy_documents::{Document, ZONE_LIMIT, Zone};
use std::alloc::Allocator;
use std::marker::Model;

/// The names of the zones that a shape meets. A contract sees the list.
#[derive(Drop)]
pub struct MetZones {
    names: [Name; ZONE_LIMIT],
    count: usize,
}

impl Model for MetZones {
    ghost use Rattle.std.specs.Prelude.{List, ℕ, ◌≤◌, take};

    ghost Value = { List (List ℕ) };

    ghost view = { λ m. take m.count m.names };

    ghost use Rattle.policy_documents.specs.declared.documents.TheConstants.{ZONE_LIMIT};

    ghost invariant = { λ m. m.count ≤ ZONE_LIMIT };
}

impl MetZones {
    /// No zones. `filler` is any name; it fills the unused array cells.
    fn new(filler: Name) -> MetZones
        ensures { result ≡ [] }
    {
        MetZones {
            names: [filler; ZONE_LIMIT],
            count: 0,
        }
    }

    fn push(&mut self, name: Name)
        requires { length self.old < ZONE_LIMIT }
        ensures { self.new ≡ self.old ++ name ∷ [] }
    {
        self.names[self.count] = name;
        self.count += 1;
    }

    /// The names, in the order of the zones.
    pub fn as_slice(&self) -> &[Name]
        ensures { result.now ≡ self.now }
    {
        &self.names[..self.count]
    }
}

/// Adds the zone if the shape meets it.
fn add_if_met(met: &mut MetZones, shape: &Shape, zone: Zone)
    requires { length met.old < ZONE_LIMIT }
    ensures met { (zones : List Zone) → AreMet shape.now zones met.old
        → AreMet shape.now (zones ++ zone ∷ []) met.new }
    ensures count { length met.new ≤ length met.old + 1 }
{
    if meets(shape, &zone.shape) {
        met.push(zone.name);
    }
}

/// The names of the document's zones that the shape meets. Each zone is tested once; `filler` is
/// any name.
pub fn met_zones<A: Allocator>(document: &Document<A>, shape: &Shape, filler: Name) -> MetZones
    requires { length document.now.zones ≤ ZONE_LIMIT }
    ensures { AreMet shape.now document.now.zones result }
{
    let mut met = MetZones::new(filler);
    let mut index = 0;
    while let Some(zone) = document.zone_at(index) {
        add_if_met(&mut met, shape, zone);
        index += 1;
    }
    met
}
