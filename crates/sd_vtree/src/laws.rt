// Laws of the definitions: functions whose contracts state a fact. What a body calls only tells the proof something.

ghost use Rattle.std.specs.Prelude.{◌≡◌, ℕ, ◌<◌, length, slice_get, Some};
ghost use Rattle.std.specs.Option.{option_map};
ghost use Rattle.sd_model.specs.Moves.{moved_at};
ghost use Rattle.sd_vtree.specs.Numbered.{plain_tree, numbers};
ghost use Rattle.sd_vtree.specs.NumberedMoves.{moved_number};

use crate::shape::VNode;
use crate::vtree::Vtree;
use sd_model::Move;

/// A move at a node is the move of the plain tree at the node's position, also where it is not defined.
pub fn plain_move(tree: &Vtree, node: VNode, kind: Move)
    requires { node < length (numbers tree.now) }
    ensures { (p : ℕ) → slice_get (numbers tree.now) p ≡ Some node →
        moved_at kind (plain_tree tree.now) p
        ≡ option_map plain_tree (moved_number kind tree.now node) }
{
    // `position` promises that the vtree is numbered.
    let _ = tree.position(node);
}
