// The size after a move, and its limit.
ghost use Rattle.std.specs.Prelude.{◌≡◌, ◌⊎◌, ℕ, ◌≤◌, None, IfOk, IfErr, OnErr};
ghost use Rattle.sd_model.specs.declared.trees.Move.{Move};
ghost use Rattle.sd_manager.specs.Marking.{AreUnmarked};
ghost use Rattle.sd_manager.specs.Valid.{IsTable};
ghost use Rattle.sd_manager.specs.Table.{Table};
ghost use Rattle.sd_manager.specs.Moving.{IsLater};
ghost use Rattle.sd_sweep.specs.Reached.{KeepsReached};
ghost use Rattle.sd_sweep.specs.Falling.{NeverFalls};
ghost use Rattle.sd_move.specs.Journal.{CanUndo};
ghost use Rattle.sd_move.specs.Moves.{IsMoved, IsMoveRefusal, HasSizeAfter};

use crate::error::MoveError;
use crate::journal::{Journal, Moved};
use crate::undone::undo;
use sd_manager::Manager;
use sd_sweep::size;

// The size after a move that was made, with its journal. Where it passes the limit, the move is undone.
pub(crate) fn within(m: &mut Manager, journal: Journal, most: u32) -> Result<Moved, MoveError>
    requires can_undo { CanUndo journal m.old }
    requires unmarked { AreUnmarked m.old }
    ensures moved { (old : Table) (kind : Move) (place : ℕ) → IsMoved old m.old kind place journal
        → IfOk result (λ r. IsMoved old m.new kind place r.journal) }
    ensures size { (old : Table) (kind : Move) (place : ℕ) → IsTable old → old.moving ≡ None
        → IsMoved old m.old kind place journal
        → IfOk result (λ r. HasSizeAfter old kind place r.size) }
    ensures within { IfOk result (λ r. r.size ≤ most) }
    ensures refused { (old : Table) (kind : Move) (place : ℕ) → IsTable old → old.moving ≡ None
        → IsMoved old m.old kind place journal
        → IfErr result (λ e. IsMoveRefusal old m.new kind place most e) }
    ensures back { (old : Table) (kind : Move) (place : ℕ) → IsTable old
        → IsMoved old m.old kind place journal
        → OnErr result (KeepsReached old m.new × (m.new.moving ≡ None)) }
    ensures never_falls { (old : Table) (kind : Move) (place : ℕ) → old.epoch ≤ 18446744073709551615
        → IsMoved old m.old kind place journal → OnErr result (NeverFalls old m.new) }
    ensures bound { m.new.bound ≡ m.old.bound }
    ensures later { (m.new ≡ m.old) ⊎ IsLater m.old m.new }
    ensures unmarked { AreUnmarked m.new }
    ensures table { IsTable m.new }
{
    let size = size(m);
    if size > most {
        undo(m, journal);
        return Err(MoveError::OverMost { size, most });
    }
    Ok(Moved { size, journal })
}
