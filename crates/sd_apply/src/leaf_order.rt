// The literals of a group in the order of their leaves.
ghost use Rattle.std.specs.Prelude.{◌≡◌, ◌<◌, length, slice_get, Some, IfOk, map};
ghost use Rattle.std.specs.List.{AllByRecursion};
ghost use Rattle.std.specs.List.Sorted.{IsPermutation};
ghost use Rattle.sd_model.specs.Tree.{leaves};
ghost use Rattle.sd_vtree.specs.Numbered.{plain_tree};
ghost use Rattle.sd_manager.specs.Literals.{IsLiteralTo};
ghost use Rattle.sd_apply.specs.Group.{AreOrdered, IsPlaced};

use sd_manager::Manager;
use std::alloc::{AllocError, Global};

/// The literals with the positions of their leaves, in the order of these, as `join_group` takes them.
pub fn by_leaf(alloc: Global, m: &Manager, literals: &[i32]) -> Result<Vec<(u32, i32)>, AllocError>
    requires { AllByRecursion (IsLiteralTo (leaves (plain_tree m.now.vtree))) literals.now }
    ensures ordered { IfOk result (λ r. AreOrdered m.now.vtree r.items) }
    ensures same { IfOk result (λ r. IsPermutation literals.now (map (λ e. e.1) r.items)) }
{
    let mut placed = Vec::new(alloc);
    for i in 0..literals.len() {
        let pair = placed_literal(m, literals, i);
        placed.push(pair)?;
    }
    placed.sort_unstable();
    Ok(placed)
}

// The literal at an index, behind the position of its leaf.
fn placed_literal(m: &Manager, literals: &[i32], index: usize) -> (u32, i32)
    requires literals { AllByRecursion (IsLiteralTo (leaves (plain_tree m.now.vtree))) literals.now }
    requires within { index < length literals.now }
    ensures placed { IsPlaced m.now.vtree result }
    ensures same { slice_get literals.now index ≡ Some result.1 }
{
    let literal = literals[index];
    let vtree = m.vtree();
    (vtree.position(vtree.leaf(literal.unsigned_abs())), literal)
}
