//! One step of a walk.

ghost use Rattle.std.specs.Prelude.{◌≡◌, ℕ, IfOk, IfErr, OnErr};
ghost use Rattle.search_tree.specs.Advances.{HasAdvanced, IsAdvance, MayRefuse, MayWalk};
ghost use Rattle.search_tree.specs.Calls.{IsUntouched};
ghost use Rattle.search_tree.specs.Cases.{TakesStep};
ghost use Rattle.search_tree.specs.Nexts.{IsChange, Makes, MayMake, answer_in, place_in};

use crate::nexts::Next;
use crate::rooms::Room;
use crate::tree::Tree;
use crate::walk::Walk;
use node_arena::Handle;
use std::alloc::Allocator;
use tree_answers::{Step, TreeFault};
use tree_theory::KeyClass;

/// What a step of a walk returns, and the node where the walk is then.
#[derive(Clone, Copy)]
pub(crate) struct Arrival {
    pub(crate) step: Step,
    pub(crate) at: Handle,
}

impl<C: KeyClass, A: Allocator + Copy> Tree<C, A> {
    /// Makes one step of a walk. Returns `Placed` once its pair is in the tree; no ready search
    /// looks for the pair. Where a node has to split or to get its entry first, makes one such
    /// change, and returns `Split` or `Installed`.
    ///
    /// A walk whose pair is placed returns `Placed` again, and makes no step. S7 where it has made
    /// all its steps. S3 where a search looks for the pair but is done with the leaf (it has seen
    /// it, or has passed it over), and so would miss the pair: `Held` names the one of the least
    /// number. The walk goes on once these searches are closed. S4 where too few slots are left for
    /// a split or the root's growth, else S5 where the root would be too high. S6 where an entry is
    /// to be installed and the counter is `u64::MAX`. S8 where an allocation is refused. A refused
    /// step is not counted and changes nothing; after S8 only spare capacity may have grown.
    pub fn advance(&mut self, walk: &mut Walk<C::Item>) -> Result<Step, TreeFault>
        ensures step { IsAdvance C.class self.old self.new walk.old walk.new result }
        ensures first { MayWalk self.old.limit walk.old
            → TakesStep C.class self.old self.new walk.old.at walk.new.at C.growth C.second_growth
            C.picks (walk.old.key, walk.old.item) result }
    {
        if walk.placed() {
            return Ok(Step::Placed);
        }
        if self.step_limit() <= walk.steps() {
            return Err(TreeFault::Overrun);
        }
        let arrival = self.make_step(walk.at(), walk.key(), walk.item())?;
        walk.count(arrival.step, arrival.at);
        Ok(arrival.step)
    }

    /// Does what is next for a walk of this pair at this node.
    fn make_step(&mut self, at: Handle, key: u64, item: C::Item) -> Result<Arrival, TreeFault>
        ensures ok { IfOk result (λ made. HasAdvanced C.class self.old self.new
            (key, item) made.step) }
        ensures err { IfErr result (MayRefuse C.class self.old item) }
        ensures untouched { OnErr result (IsUntouched C.class self.old self.new) }
        ensures first { TakesStep C.class self.old self.new at
            (place_in at result) C.growth C.second_growth C.picks (key, item) (answer_in result) }
    {
        match self.next_for(at, item) {
            Next::Restart => Ok(self.restart()),
            Next::Climb(parent) => Ok(Arrival {
                step: Step::Moved,
                at: parent,
            }),
            Next::Descend(way) => {
                self.descend(&way, C::key_of(item))?;
                Ok(Arrival {
                    step: Step::Moved,
                    at: way.child,
                })
            }
            Next::Hold(number) => Err(TreeFault::Held(number)),
            Next::Place => {
                self.place(at, key, item);
                Ok(Arrival {
                    step: Step::Placed,
                    at,
                })
            }
            Next::Make(room) => self.make_room(&room, at),
        }
    }

    /// The walk is back at the root.
    fn restart(&self) -> Arrival
        ensures step { result.step ≡ Step.Restarted }
        ensures at { result.at ≡ self.now.root }
    {
        Arrival {
            step: Step::Restarted,
            at: self.root,
        }
    }

    /// Makes the change that makes room where the walk is, or that has to come first. After a split
    /// the walk is at the new right node; else whatever comes would go to the left one.
    fn make_room(&mut self, room: &Room<C::Key>, at: Handle) -> Result<Arrival, TreeFault>
        requires may { MayMake C.class self.old room.now }
        requires change { IsChange room.now }
        ensures ok { IfOk result (λ made. (pair : ℕ × C.Item)
            → HasAdvanced C.class self.old self.new pair made.step) }
        ensures err { IfErr result (λ fault. (item : C.Item)
            → MayRefuse C.class self.old item fault) }
        ensures untouched { OnErr result (IsUntouched C.class self.old self.new) }
        ensures made { Makes C.class self.old self.new at (place_in at result) C.picks room.now
            (answer_in result) }
    {
        match room {
            Room::Install(entry) => {
                let seq = self.next_count()?;
                self.install(entry, seq);
                Ok(Arrival {
                    step: Step::Installed,
                    at,
                })
            }
            Room::Split(node) => {
                let right = self.split(*node)?;
                Ok(Arrival {
                    step: Step::Split,
                    at: right,
                })
            }
            Room::Grow => {
                self.grow()?;
                Ok(Arrival {
                    step: Step::Split,
                    at,
                })
            }
            Room::Behind(_) | Room::Nothing => unreachable!(),
        }
    }
}
