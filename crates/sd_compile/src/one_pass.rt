// A node joined with a group in one pass along it: where the left children of the vtree are leaves the group has no
// node of its own.
ghost use Rattle.std.specs.Prelude.{◌≡◌, ◌<◌, length, IfOk, IfErr, IfSome, IsTrue};
ghost use Rattle.sd_model.specs.Tree.{leaves};
ghost use Rattle.sd_vtree.specs.Numbered.{plain_tree, numbers};
ghost use Rattle.sd_formula.specs.Formulas.{AreLiterals};
ghost use Rattle.sd_manager.specs.Valid.{IsTable};
ghost use Rattle.sd_manager.specs.Shown.{IsNodeOf};
ghost use Rattle.sd_manager.specs.Making.{Extends, KeepsRule};
ghost use Rattle.sd_apply.specs.Serving.{Serves};
ghost use Rattle.sd_apply.specs.Group.{JoinsGroup};
ghost use Rattle.sd_compile.specs.Joined.{outer, JoinsLiterals, ImpliesOdd};

use crate::connectives::between_groups;
use crate::implied::{implies, implies_one};
use sd_apply::{by_leaf, join_group};
use sd_cache::Cache;
use sd_formula::Kind;
use sd_manager::{Manager, NodeId};
use sd_runs::TakeError;
use sd_vtree::{VNode, Vtree};
use std::alloc::{AllocError, Global};

/// A node, joined with the literals of a group. It refuses as `sd_apply::and`.
pub(crate) fn join_literals(
    alloc: Global,
    m: &mut Manager,
    c: &mut Cache,
    kind: Kind,
    node: NodeId,
    literals: &[i32],
) -> Result<NodeId, TakeError>
    requires node { IsNodeOf m.old node }
    requires literals { AreLiterals (leaves (plain_tree m.old.vtree)) literals.now }
    requires serves { Serves c.old m.old }
    ensures ok { IfOk result (λ r. JoinsLiterals m.old m.new kind node literals.now r) }
    ensures kept { Extends m.old m.new }
    ensures serves { Serves c.new m.new }
    ensures rule { IfErr result (λ e. KeepsRule m.new e) }
    ensures table { IsTable m.new }
{
    // its contract tells that the table is valid
    let _ = m.vtree();
    let placed = by_leaf(alloc, m, literals)?;
    if stays(m, kind, node, &placed) {
        return Ok(node);
    }
    join_group(alloc, m, c, between_groups(kind), node, &placed)
}

// Whether it is found that a clause leaves a node as it is. This is asked where the right child of the vtree's root is a
// leaf: there a join makes a step of an operation at each vtree node down to the leaves of the clause.
fn stays(m: &Manager, kind: Kind, node: NodeId, placed: &[(u32, i32)]) -> bool
    requires node { IsNodeOf m.now node }
    ensures { IsTrue result → JoinsGroup m.now m.now (outer kind) node placed.now node }
{
    if !ends_in_leaf(m.vtree()) {
        return false;
    }
    match kind {
        Kind::Cnf => implies(m, node, placed),
        Kind::Dnf => false,
    }
}

// Whether the right child of the vtree's root is a leaf.
fn ends_in_leaf(vtree: &Vtree) -> bool {
    let Some((_, right)) = vtree.children(vtree.root()) else {
        return false;
    };
    vtree.variable(right).is_some()
}

/// Whether it is found that a node implies that an odd number of literals hold. This is asked of two literals alone,
/// where it is asked of a clause.
pub(crate) fn stays_exclusive(
    alloc: Global,
    m: &Manager,
    node: NodeId,
    literals: &[i32],
) -> Result<bool, AllocError>
    requires node { IsNodeOf m.now node }
    requires literals { AreLiterals (leaves (plain_tree m.now.vtree)) literals.now }
    ensures { IfOk result (λ r. IsTrue r → ImpliesOdd m.now node literals.now) }
{
    if literals.len() != 2 || !ends_in_leaf(m.vtree()) {
        return Ok(false);
    }
    let placed = by_leaf(alloc, m, literals)?;
    Ok(implies_one(m, node, &placed))
}

// So many literals are joined in one pass on every vtree.
const NARROW: usize = 32;

/// Whether a group is to be joined in one pass. Below a vtree node whose left child is no leaf the pass makes a node of
/// the literals that are left, one after another, which on a left tree takes the square of their number. A wide group
/// has a node of its own there, made along the vtree.
pub(crate) fn suits_one_pass(vtree: &Vtree, literals: &[i32]) -> bool {
    literals.len() <= NARROW || is_right_linear(vtree)
}

/// Whether each left child of the vtree is a leaf.
pub(crate) fn is_right_linear(vtree: &Vtree) -> bool {
    let mut at = vtree.root();
    for _ in 0..vtree.variables() {
        let Some(right) = right_of_leaf(vtree, at) else {
            return vtree.children(at).is_none();
        };
        at = right;
    }
    false
}

// The right child of a node, where the left one is a leaf.
fn right_of_leaf(vtree: &Vtree, at: VNode) -> Option<VNode>
    requires { at < length (numbers vtree.now) }
    ensures { IfSome result (λ r. r < length (numbers vtree.now)) }
{
    let Some((left, right)) = vtree.children(at) else {
        return None;
    };
    if vtree.variable(left).is_some() {
        Some(right)
    } else {
        None
    }
}
