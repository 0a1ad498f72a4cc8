//! Laws that follow from the definitions alone. The functions do nothing; each is its contract.

ghost use Rattle.std.specs.Prelude.{◌≡◌, List, ℕ};
ghost use Rattle.audit_trail.specs.declared.trails.TheConstants.{FIRST_LIMIT};
ghost use Rattle.decision.specs.Deciders.{DeciderData};
ghost use Rattle.scripts.specs.Scripts.{LineTells, Script};
ghost use Rattle.scripts.specs.Services.{ServesCall, solo_subject};
ghost use Rattle.session_lines.specs.Services.{no_keys};
ghost use Rattle.session_lines.specs.Serving.{DeskTells as AloneTells};
ghost use Rattle.session_lines.specs.Desks.{Desk};
ghost use Rattle.scripts.specs.States.{IsAtRest, IsIdle, SoloState};
ghost use Rattle.scripts.specs.declared.scripts.TheConstants.{LABEL_LIMIT};
ghost use Rattle.line_streams.specs.declared.streams.Next.{Next};
ghost use Rattle.line_streams.specs.declared.streams.TheConstants.{LINE_LIMIT, READ_LIMIT};
ghost use Rattle.plain_world.specs.States.{WorldData, opened};
ghost use Rattle.plain_world.specs.declared.settings.TheConstants.{CHANGE_LIMIT, ROLLED_LIMIT, SEARCH_LIMIT, SEAT_LIMIT, STEP_LIMIT, TRANSACTION_LIMIT};

use features::Subject;
use world::{Limits, Starts};

/// A world that has just been opened has no open search and no open transaction.
pub fn opened_world_is_idle()
    ensures { (subjects : List Subject) (decider : DeciderData) (starts : Starts) (limits : Limits)
        → IsIdle (opened subjects decider starts limits) }
{}

/// A world with no open search and no open transaction is at rest. A line, of a script or of a
/// session by itself, leaves at rest a world that was at rest. So what the definitions say of
/// worlds at rest holds at each line of a run.
pub fn lines_leave_worlds_at_rest()
    ensures idle { (world : WorldData) → IsIdle world → IsAtRest world }
    ensures line { (text : List ℕ) (old new : Script WorldData) (said : List ℕ)
        → LineTells text old new said → IsAtRest old.world → IsAtRest new.world }
    ensures alone { (text : List ℕ) (old new : Desk SoloState) (said : List ℕ) (next : Next)
        → AloneTells no_keys solo_subject ServesCall text old new said next → IsAtRest old.service.world
        → IsAtRest new.service.world }
{}

/// The limits that the definitions name, in numbers. Of lines: labels of a script, bytes of a line
/// without its end, reads of a run. Of the world: seats in its life, open searches, open
/// transactions, changes of a list, steps of a search or of the walk for one change (also the most
/// that STEP takes), records rolled out before it was opened, and the first number of its trail.
pub fn limits_in_numbers()
    ensures labels { LABEL_LIMIT ≡ 64 }
    ensures line { LINE_LIMIT ≡ 65536 }
    ensures reads { READ_LIMIT ≡ 16777216 }
    ensures seats { SEAT_LIMIT ≡ 1024 }
    ensures searches { SEARCH_LIMIT ≡ 16 }
    ensures transactions { TRANSACTION_LIMIT ≡ 64 }
    ensures changes { CHANGE_LIMIT ≡ 16 }
    ensures steps { STEP_LIMIT ≡ 1000000 }
    ensures rolled { ROLLED_LIMIT ≡ 4611686018427387903 }
    ensures first { FIRST_LIMIT ≡ 4611686018427387904 }
{}
