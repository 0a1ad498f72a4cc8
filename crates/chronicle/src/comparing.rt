//! Compares the records of a seat with its receipts.

ghost use Rattle.std.specs.Prelude.{◌≡◌, map, IfNone, IfSome, IfOk, IfErr};
ghost use Rattle.std.specs.Arc.{arc_value};
ghost use Rattle.audit_trail.specs.Calls.{calls_of};
ghost use Rattle.chronicle.specs.Comparing.{AreTold, DifferFirst, PartsAt};

use crate::chronicles::Chronicle;
use audit_trail::Record;
use std::alloc::Allocator;
use std::sync::Arc;

impl<A: Allocator> Chronicle<A> {
    /// The first place, counted from 0, at which the records of a seat and its receipts differ;
    /// `None` if they are the same list.
    pub fn differs(&self, seat: u32, receipts: &[Arc<Record<A>, A>]) -> Option<usize>
        ensures same { IfNone result (calls_of seat self.now.records ≡ map arc_value receipts.now) }
        ensures place { IfSome result
            (λ n. DifferFirst n (calls_of seat self.now.records) (map arc_value receipts.now)) }
    {
        match self.follow(seat, receipts) {
            Ok(all) => {
                if all == receipts.len() {
                    None
                } else {
                    Some(all)
                }
            }
            Err(place) => Some(place),
        }
    }

    /// Compares the records of a seat with its receipts. Ok is the number of receipts that agree
    /// with all records of the seat, Err the first place at which the two differ.
    fn follow(&self, seat: u32, receipts: &[Arc<Record<A>, A>]) -> Result<usize, usize>
        ensures ok { IfOk result
            (λ n. AreTold n (calls_of seat self.now.records) (map arc_value receipts.now)) }
        ensures err { IfErr result
            (λ n. PartsAt n (calls_of seat self.now.records) (map arc_value receipts.now)) }
    {
        let mut told = 0;
        for place in 0..self.len() {
            let Some(record) = self.get(place) else {
                unreachable!()
            };
            if record.seat() == seat {
                let Some(receipt) = receipts.get(told) else {
                    return Err(told);
                };
                if **receipt == **record {
                    told += 1;
                } else {
                    return Err(told);
                }
            }
        }
        Ok(told)
    }
}
