//! A node that nothing uses is taken away with the uses of its list.

ghost use Rattle.std.specs.Prelude.{◌≡◌, ℕ, List, [], ◌∷◌, Some, IfSome};
ghost use Rattle.std.specs.Option.{IsSome};
ghost use Rattle.std.specs.FinMap.{get};
ghost use Rattle.sd_unique.specs.Nodes.{IsNodes, key_at};
ghost use Rattle.sd_manager.specs.Counting.{list_at};
ghost use Rattle.sd_manager.specs.Leaving.{MayLeave, HasLeft};

use crate::uses::{drop_two, drop_uses};
use sd_unique::Nodes;

// Takes a linked node without uses away, and drops the uses of its list. Two pairs are read before, as most nodes have
// two; a longer list is read where it stands.
pub(crate) fn take_away(nodes: &mut Nodes, number: u32)
    requires valid { IsNodes nodes.old }
    requires may { MayLeave nodes.old number }
    ensures left { (k : ℕ × List (ℕ × ℕ)) → get nodes.old.linked number ≡ Some k
        → HasLeft nodes.old nodes.new number k }
    ensures valid { IsNodes nodes.new }
{
    if let Some((first, second)) = two_pairs(nodes, number) {
        nodes.retire(number);
        drop_two(nodes, first, second);
    } else {
        drop_uses(nodes, number);
        nodes.retire(number);
    }
}

// The pairs of a node that has two.
#[inline(always)]
fn two_pairs(nodes: &Nodes, number: u32) -> Option<((u32, u32), (u32, u32))>
    requires { IsSome (key_at nodes.now number) }
    ensures { IfSome result (λ pairs. list_at nodes.now number ≡ pairs.0 ∷ pairs.1 ∷ []) }
{
    match nodes.list(number) {
        [first, second] => Some((*first, *second)),
        _ => None,
    }
}
