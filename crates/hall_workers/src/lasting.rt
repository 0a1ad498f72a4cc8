//! How the replies of a hall's sessions wait for a store.

use audit_trail::Record;
use group_commit::{Barrier, Desk, Rests, Source};
use hall::{Hall, HallName};
use std::alloc::Global;
use std::io::Write;
use std::sync::{Arc, Wait};

/// Where replies wait, and for what.
#[derive(Clone, Copy, Drop)]
pub struct Lasting<'a> {
    pub desk: &'a Desk<Arc<Record<Global>>>,
    pub rests: Rests,
    /// How many records the desk had from the halls before the present one.
    pub before: u64,
}

impl Lasting<'_> {
    /// Takes over the records that nobody waits for.
    pub fn take_over<L: HallName, H: Wait + Drop, R: Wait>(
        &self,
        rt: &R,
        hall: &Hall<L, H, Global>,
    ) {
        self.desk
            .take_over(rt, &HallRecords::of(rt, hall, Some(*self)));
    }

    /// Waits until all records last, or the desk has failed.
    pub fn finish<L: HallName, H: Wait + Drop, R: Wait>(&self, rt: &R, hall: &Hall<L, H, Global>) {
        let records = HallRecords::of(rt, hall, Some(*self));
        let _ = self.desk.wait_for(rt, &records, records.count());
    }
}

/// The records of a hall, behind those of the halls before it.
#[derive(Drop)]
pub(crate) struct HallRecords<'a, 'h, L: HallName, H: Wait + Drop, R: Wait> {
    rt: &'a R,
    hall: &'h Hall<L, H, Global>,
    before: u64,
}

impl<'a, 'h, L: HallName, H: Wait + Drop, R: Wait> HallRecords<'a, 'h, L, H, R> {
    /// The records of a hall, as the desk counts them.
    pub(crate) fn of(
        rt: &'a R,
        hall: &'h Hall<L, H, Global>,
        lasting: Option<Lasting<'_>>,
    ) -> Self {
        let before = match lasting {
            Some(lasting) => lasting.before,
            None => 0,
        };
        HallRecords { rt, hall, before }
    }
}

impl<L: HallName, H: Wait + Drop, R: Wait> Source<Arc<Record<Global>>>
    for HallRecords<'_, '_, L, H, R> {
    fn count(&self) -> u64 {
        self.before.saturating_add(self.hall.record_count(self.rt))
    }

    fn changed(&self) -> u64 {
        self.before.saturating_add(self.hall.last_change(self.rt))
    }

    fn copy_from(&self, place: u64, into: &mut Vec<Arc<Record<Global>>>) {
        // What is left out, since a record has as many owners as there may be, comes the next time.
        let place = place.saturating_sub(self.before);
        let _ = self.hall.records_from(self.rt, place, into);
    }
}

/// A session's writer: with a desk, one that waits there.
pub(crate) fn barrier<'a, 'h, L: HallName, H: Wait + Drop, R: Wait, O: Write + Drop>(
    rt: &'a R,
    records: &'a HallRecords<'a, 'h, L, H, R>,
    lasting: Option<Lasting<'a>>,
    writer: O,
) -> Barrier<'a, Arc<Record<Global>>, HallRecords<'a, 'h, L, H, R>, R, O> {
    match lasting {
        Some(Lasting { desk, rests, .. }) => Barrier::new(rt, Some(desk), records, rests, writer),
        None => Barrier::new(rt, None, records, Rests::All, writer),
    }
}
