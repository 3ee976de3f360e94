// Where the leaf of a variable stands in the vtree.
ghost use Rattle.std.specs.Prelude.{◌≡◌, ℕ, not, Some};
ghost use Rattle.sd_vtree.specs.Numbered.{variable_at, IsUnder};
ghost use Rattle.sd_manager.specs.Valid.{IsTable};
ghost use Rattle.sd_apply.specs.Places.{IsFork};
ghost use Rattle.sd_cond.specs.Calls.{Tells};

use sd_apply::Fork;
use sd_manager::Manager;
use sd_vtree::VNode;

/// Whether a leaf stands below a vtree node, where both stand below another.
pub(crate) fn is_over(m: &Manager, at: VNode, place: VNode, leaf: VNode) -> bool
    requires place { IsUnder m.now.vtree place at }
    requires leaf { IsUnder m.now.vtree leaf at }
    ensures tells { Tells m.now.vtree leaf place result }
    ensures table { IsTable m.now }
{
    let lowest = m.vtree().lca_under(at, place, leaf);
    lowest.0 == place.0
}

/// Whether the leaf of a variable below a vtree node stands below its left child, and not below the
/// right one.
pub(crate) fn is_left(m: &Manager, leaf: VNode, fork: &Fork) -> bool
    requires children { IsFork m.now.vtree fork.now }
    requires leaf { (x : ℕ) × (variable_at m.now.vtree leaf ≡ Some x) }
    requires over { IsUnder m.now.vtree leaf fork.now.node }
    ensures left { Tells m.now.vtree leaf fork.now.left result }
    ensures right { Tells m.now.vtree leaf fork.now.right (not result) }
    ensures table { IsTable m.now }
{
    let vtree = m.vtree();
    vtree.position(leaf) < vtree.position(fork.node)
}
