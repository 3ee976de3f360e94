// The vtree turns inside a move, and a move ends.
ghost use Rattle.std.specs.Prelude.{◌≡◌, ℕ, Some};
ghost use Rattle.std.specs.FinMap.{empty};
ghost use Rattle.sd_vtree.specs.Numbered.{Numbered};
ghost use Rattle.sd_vtree.specs.NumberedMoves.{moved_number};
ghost use Rattle.sd_laws.specs.Values.{Valuation};
ghost use Rattle.sd_manager.specs.Table.{Table};
ghost use Rattle.sd_manager.specs.Valid.{IsTable};
ghost use Rattle.sd_manager.specs.Moving.{with_vtree, at_rest, IsCleared};
ghost use Rattle.sd_move.specs.Moving.{Progress, MoveInProgress};

use sd_manager::Manager;
use sd_model::Move;
use sd_vtree::VNode;

// Turns the vtree at the node of a move, where no node is linked at its two nodes.
pub(crate) fn turn_at(m: &mut Manager, kind: Move, place: VNode)
    requires moving { m.old.moving ≡ Some place }
    requires movable { (u : Numbered) × (moved_number kind m.old.vtree place ≡ Some u) }
    requires cleared { IsCleared m.old kind place }
    requires table { IsTable m.old }
    ensures turned { (u : Numbered) → moved_number kind m.old.vtree place ≡ Some u
        → m.new ≡ with_vtree m.old u }
    ensures going { (m0 : Table) (h : Progress) (v : Valuation)
        → MoveInProgress m0 m.old place h v → MoveInProgress m0 m.new place h v }
    ensures table { IsTable m.new }
{
    m.turn(kind);
}

// Ends a move, where no node is detached.
pub(crate) fn end(m: &mut Manager)
    requires going { (m0 : Table) × (x : ℕ) × (h : Progress) × (v : Valuation)
        × MoveInProgress m0 m.old x h v }
    requires none_detached { m.old.detached ≡ empty }
    requires table { IsTable m.old }
    ensures ended { m.new ≡ at_rest m.old }
    ensures table { IsTable m.new }
{
    m.end_move();
}
