// A move that is undone.
ghost use Rattle.std.specs.Prelude.{◌≡◌, ℕ};
ghost use Rattle.sd_model.specs.Moves.{inverse_move};
ghost use Rattle.sd_manager.specs.Marking.{AreUnmarked};
ghost use Rattle.sd_manager.specs.Valid.{IsTable};
ghost use Rattle.sd_move.specs.Journal.{CanUndo, Rollback, IsKeptBack};
ghost use Rattle.sd_move.specs.Moves.{StaysFunction};

use crate::going_back::go_back;
use crate::journal::Journal;
use sd_manager::Manager;
use sd_model::Move;
use sd_sweep::sweep;

// The move that leads back.
pub(crate) fn inverse_of(kind: Move) -> Move
    ensures inverse { result ≡ inverse_move kind }
{
    match kind {
        Move::RotateLeft => Move::RotateRight,
        Move::RotateRight => Move::RotateLeft,
        Move::Swap => Move::Swap,
    }
}

/// Undoes a move by its journal: the vtree is moved back, and each node under a held root, or under a loose run that is
/// none of the journal's, has the place and the list of the state to which the journal goes back, and its function. It
/// takes no memory and cannot fail. Nodes that no root and no loose run needs may be gone.
pub fn undo(m: &mut Manager, journal: Journal)
    requires can_undo { CanUndo journal m.old }
    ensures undone { Rollback journal m.old m.new }
    ensures functions { (n : ℕ) → IsKeptBack journal m.old n → StaysFunction m.old m.new n }
    ensures unmarked { AreUnmarked m.old → AreUnmarked m.new }
    ensures table { IsTable m.new }
{
    // That the epoch is a `u64` tells that it is the last one where it no longer rises.
    let _ = m.epoch();
    sweep(m);
    let Journal {
        kind,
        upper,
        lower,
        named,
    } = journal;
    m.begin_move(upper);
    go_back(m, inverse_of(kind), upper, lower, &named);
}
