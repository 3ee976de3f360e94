// The end of a move, or its way back where it was refused.
ghost use Rattle.std.specs.Prelude.{◌≡◌, ◌⊎◌, ◌≤◌, None, IfOk, IfErr, OnOk, OnErr};
ghost use Rattle.std.specs.FinMap.{empty};
ghost use Rattle.sd_manager.specs.Table.{Table};
ghost use Rattle.sd_manager.specs.Making.{KeepsRule};
ghost use Rattle.sd_manager.specs.Marking.{AreUnmarked};
ghost use Rattle.sd_manager.specs.Moving.{at_rest, IsLater};
ghost use Rattle.sd_manager.specs.Valid.{IsTable};
ghost use Rattle.sd_sweep.specs.Reached.{KeepsReached};
ghost use Rattle.sd_sweep.specs.Falling.{NeverFalls};
ghost use Rattle.sd_move.specs.Moves.{IsMoved, IsRefusedOnTheWay};
ghost use Rattle.sd_move.specs.OnTheWay.{IsOnTheWay, AreAllReached};

use crate::error::MoveError;
use crate::going_back::go_back;
use crate::journal::{Entry, Journal};
use crate::undone::inverse_of;
use sd_manager::Manager;
use sd_model::Move;
use sd_runs::TakeError;
use sd_vtree::VNode;

// Ends a move where all its steps were made, and else goes back and answers why one was refused.
pub(crate) fn end_or_go_back(
    m: &mut Manager,
    kind: Move,
    upper: VNode,
    lower: Option<VNode>,
    named: Vec<Entry>,
    done: Result<(), TakeError>,
) -> Result<Journal, MoveError>
    requires way { (m0 : Table) × IsOnTheWay m0 m.old kind upper lower named.items }
    requires all { OnOk done (m.old.detached ≡ empty) }
    requires rule { IfErr done (λ e. KeepsRule m.old e) }
    requires table { IsTable m.old }
    ensures moved { (m0 : Table) → IsOnTheWay m0 m.old kind upper lower named.items
        → AreAllReached m0 → m0.epoch ≤ 18446744073709551615
        → IfOk result (λ j. IsMoved m0 m.new kind upper j) }
    ensures back { (m0 : Table) → IsOnTheWay m0 m.old kind upper lower named.items
        → OnErr result (KeepsReached m0 m.new × (m.new.moving ≡ None)) }
    ensures never_falls { (m0 : Table) → IsOnTheWay m0 m.old kind upper lower named.items
        → m0.epoch ≤ 18446744073709551615 → OnErr result (NeverFalls m0 m.new) }
    ensures bound { (m0 : Table) → IsOnTheWay m0 m.old kind upper lower named.items
        → m.new.bound ≡ m0.bound }
    ensures refused { IfErr result (λ e. IsRefusedOnTheWay m.new e) }
    ensures unmarked { (m0 : Table) → IsOnTheWay m0 m.old kind upper lower named.items
        → AreUnmarked m0 → AreUnmarked m.new }
    ensures later { (m.new ≡ at_rest m.old) ⊎ IsLater m.old m.new }
    ensures table { IsTable m.new }
{
    match done {
        Ok(()) => {
            m.end_move();
            Ok(Journal {
                kind,
                upper,
                lower,
                named,
            })
        }
        Err(error) => {
            go_back(m, inverse_of(kind), upper, lower, &named);
            Err(refusal(error))
        }
    }
}

// The refusal of a move for one of the arena.
fn refusal(error: TakeError) -> MoveError
    ensures refusal { (t : Table) → KeepsRule t error → IsRefusedOnTheWay t result }
{
    match error {
        TakeError::ArenaFull { elements } => MoveError::ArenaFull { elements },
        TakeError::OutOfMemory => MoveError::OutOfMemory,
    }
}
