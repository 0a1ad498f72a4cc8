//! The store of a server: it is opened, written and closed by one thread.

ghost use Rattle.features.specs.Rows.{IsSortedById};

use audit_trail::Record;
use commands::{fail, fail_store, open_store};
use decision::Decider;
use features::Subjects;
use log::Log;
use memory::shared;
use policy_text::read_document;
use program::ProgramFault;
use server::{AppendFault, Handover, Keeps, Restored, Stop, StoreFault, Writes, watch};
use shelf::{Found, Shelf, ShelfFault};
use std::alloc::Global;
use std::sync::{Arc, Wait};
use std::time::Clock;
use volumes::State;
use world::Base;

/// The fault of a server's store, without its file and its reason.
fn code_of(fault: &ShelfFault) -> StoreFault {
    match fault {
        ShelfFault::Memory(_) => StoreFault::Memory,
        ShelfFault::InUse(_) => StoreFault::InUse,
        ShelfFault::Unusable(..) => StoreFault::Failed,
        ShelfFault::Damaged(..) => StoreFault::Damaged,
        ShelfFault::NoNumber(_) => StoreFault::NoNumber,
    }
}

/// How a server is told to accept nobody more, and the path to which one connects then.
#[derive(Drop)]
pub(crate) struct Alarm {
    pub(crate) stop: Arc<Stop>,
    pub(crate) path: String,
}

/// A store that is opened in the thread that writes it.
#[derive(Drop)]
pub(crate) struct StoreToOpen {
    pub(crate) rt: HostRuntime,
    pub(crate) folder: String,
    /// Who may have a seat, for those who read the store.
    pub(crate) subjects: Subjects,
    /// The text of the policy with which a new store begins.
    pub(crate) policy: String,
    pub(crate) alarm: Alarm,
}

/// A store that a server's thread writes.
#[derive(Drop)]
pub(crate) struct OpenStore {
    rt: HostRuntime,
    shelf: Shelf,
    alarm: Alarm,
}

/// The state that a store has kept, for a server to begin with.
fn restored_of(heap: Global, found: Found) -> Result<Restored, StoreFault>
    requires { IsSortedById found.state.features.items }
{
    let Found {
        life: _,
        next,
        state,
    } = found;
    let State {
        features,
        version,
        decider,
    } = state;
    let Ok(decider) = shared(heap, decider) else {
        return Err(StoreFault::Memory);
    };
    let base = Base {
        features,
        version,
        decider,
    };
    match Restored::new(base, next.saturating_sub(1)) {
        Some(restored) => Ok(restored),
        None => Err(StoreFault::NoNumber),
    }
}

/// The decider of a policy that was printed. It is refused only for want of memory.
fn decider_of(heap: Global, policy: &str) -> Result<Decider, StoreFault> {
    match read_document(heap, heap, policy.as_bytes()) {
        Ok(document) => match Decider::new(document, 1) {
            Ok(decider) => Ok(decider),
            Err(_) => Err(StoreFault::Memory),
        },
        Err(_) => Err(StoreFault::Memory),
    }
}

impl StoreToOpen {
    /// The store, and what it has kept. What is wrong with it is told on standard error.
    fn open(self, heap: Global) -> Result<(OpenStore, Restored), StoreFault> {
        let StoreToOpen {
            rt,
            folder,
            subjects,
            policy,
            alarm,
        } = self;
        let mut errors = rt.stderr();
        let Ok(decider) = decider_of(heap, policy.as_str()) else {
            let _ = fail(&ProgramFault::Server("H6"), &mut errors);
            return Err(StoreFault::Memory);
        };
        match open_store(&rt, folder.as_str(), &subjects, &decider, &mut errors) {
            Ok((shelf, found)) => {
                match restored_of(heap, found) {
                    Ok(restored) => {
                        let store = OpenStore { rt, shelf, alarm };
                        Ok((store, restored))
                    }
                    Err(fault) => {
                        let _ = fail(&ProgramFault::Server(fault.code()), &mut errors);
                        Err(fault)
                    }
                }
            }
            Err(fault) => {
                let _ = fail_store(&fault, &mut errors);
                Err(code_of(&fault))
            }
        }
    }
}

impl Writes for StoreToOpen {
    fn write<R: Wait + Clock + Log>(self, rt: &R, handover: Handover<'_>) {
        let opened = self.open(handover.heap());
        handover.run(rt, opened);
    }
}

impl Keeps for OpenStore {
    fn append(
        &mut self,
        _heap: Global,
        records: &[Arc<Record<Global>>],
    ) -> Result<(), AppendFault> {
        match self.shelf.append(records) {
            Ok(()) => Ok(()),
            Err(fault) => {
                if fault.is_passing() {
                    return Err(AppendFault::ForNow);
                }
                let _ = fail_store(&fault, &mut self.rt.stderr());
                Err(AppendFault::ForEver(code_of(&fault)))
            }
        }
    }

    fn close(self) -> Result<(), StoreFault> {
        let OpenStore {
            rt,
            shelf,
            alarm: _,
        } = self;
        match shelf.close() {
            Ok(()) => Ok(()),
            Err(fault) => {
                let _ = fail_store(&fault, &mut rt.stderr());
                Err(code_of(&fault))
            }
        }
    }

    /// Has the server accept nobody more, as the end of standard input does.
    fn give_up(&self, fault: StoreFault) {
        if fault == StoreFault::Memory {
            let _ = fail(&ProgramFault::Server(fault.code()), &mut self.rt.stderr());
        }
        let mut nothing: &[u8] = &[];
        watch(
            &self.rt,
            &mut nothing,
            self.alarm.path.as_str(),
            &self.alarm.stop,
        );
    }
}
