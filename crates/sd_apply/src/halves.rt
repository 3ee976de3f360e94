// The halves of nodes at a vtree node whose left child is a leaf: what a node is where the leaf's variable is true, and
// where it is false (Shannon's expansion). Both stand below the right child.
ghost use Rattle.std.specs.Prelude.{◌≡◌, ◌≤◌, ◌<◌, IfOk, IfErr, IfSome, IsTrue, OnErr};
ghost use Rattle.sd_manager.specs.Valid.{IsTable};
ghost use Rattle.sd_manager.specs.Making.{Extends, KeepsRule};
ghost use Rattle.sd_apply.specs.Growing.{GrowsBelow, GrowsByAnswer, GrowsStrictlyBelow};
ghost use Rattle.sd_apply.specs.Places.{IsBelow, IsThere, HasChildren, IsFork};
ghost use Rattle.sd_apply.specs.Halves.{IsSplit, Halves, MakesHalves, AreHalvesOf};

use crate::places::{Fork, place_of};
use sd_manager::{Manager, NodeId, View};
use sd_runs::TakeError;
use sd_vtree::VNode;

/// A vtree node whose left child is a leaf: a node there has two halves, one for each value of the leaf's variable.
#[derive(Clone, Copy, Drop)]
pub struct Split {
    /// The left child, which is the leaf.
    pub left: VNode,
    /// The right child: both halves stand below it.
    pub right: VNode,
    /// The variable of the leaf.
    pub variable: u32,
}

/// Two nodes below a vtree node whose left child is a leaf, by their halves.
#[derive(Drop)]
pub(crate) struct BothHalves {
    /// The vtree node.
    pub(crate) node: VNode,
    /// Its children.
    pub(crate) split: Split,
    /// What the first node is where the variable is true, and where it is false.
    pub(crate) first: (NodeId, NodeId),
    /// The same of the second node.
    pub(crate) second: (NodeId, NodeId),
}

/// The halves of two nodes at a vtree node, where its left child is a leaf.
#[inline(always)]
pub(crate) fn both_halves(m: &Manager, fork: &Fork, a: NodeId, b: NodeId) -> Option<BothHalves>
    requires children { IsFork m.now.vtree fork.now }
    requires first { IsBelow m.now fork.now.node a }
    requires second { IsBelow m.now fork.now.node b }
    requires table { IsTable m.now }
    ensures node { IfSome result (λ r. r.node ≡ fork.now.node) }
    ensures halves { IfSome result (λ r. AreHalvesOf m.now r a b) }
{
    let node = fork.node;
    let Some(split) = split_of(m, fork) else {
        return None;
    };
    let Some(first) = halves_of(m, node, &split, a) else {
        return None;
    };
    let Some(second) = halves_of(m, node, &split, b) else {
        return None;
    };
    Some(BothHalves {
        node,
        split,
        first,
        second,
    })
}

/// The children of a fork and the variable of the left one, where that is a leaf.
#[inline(always)]
pub fn split_of(m: &Manager, fork: &Fork) -> Option<Split>
    requires children { IsFork m.now.vtree fork.now }
    requires table { IsTable m.now }
    ensures { IfSome result (λ s. IsSplit m.now.vtree fork.now.node s) }
{
    let Some(variable) = m.vtree().variable(fork.left) else {
        return None;
    };
    Some(Split {
        left: fork.left,
        right: fork.right,
        variable,
    })
}

/// The children of a vtree node and the variable of the left one, where that is a leaf.
#[inline(always)]
pub(crate) fn split_at(m: &Manager, at: VNode) -> Option<Split>
    requires { IsThere m.now.vtree at }
    ensures { IfSome result (λ s. IsSplit m.now.vtree at s) }
{
    let vtree = m.vtree();
    let Some((left, right)) = vtree.children(at) else {
        return None;
    };
    let Some(variable) = vtree.variable(left) else {
        return None;
    };
    Some(Split {
        left,
        right,
        variable,
    })
}

/// What a node is where the variable of the left child is true, and where it is false.
#[inline(always)]
pub(crate) fn halves_of(
    m: &Manager,
    at: VNode,
    split: &Split,
    node: NodeId,
) -> Option<(NodeId, NodeId)>
    requires split { IsSplit m.now.vtree at split.now }
    requires node { IsBelow m.now at node }
    requires table { IsTable m.now }
    ensures { IfSome result (λ r. Halves m.now at split.now.right split.now.variable node r) }
{
    if node.is_decomposition() {
        if let Some(halves) = own_halves(m, at, split, node) {
            return Some(halves);
        }
    }
    if is_right(m, at, split, node) {
        return Some((node, node));
    }
    if node.is_constant() || node.is_decomposition() {
        return None;
    }
    literal_halves(m, at, split, node)
}

/// The halves of a decomposition of two elements at the vtree node, of which the first has the variable as its prime.
#[inline(always)]
pub fn own_halves(m: &Manager, at: VNode, split: &Split, node: NodeId) -> Option<(NodeId, NodeId)>
    requires split { IsSplit m.now.vtree at split.now }
    requires node { IsBelow m.now at node }
    requires code { 2050 ≤ node }
    requires table { IsTable m.now }
    ensures { IfSome result (λ r. Halves m.now at split.now.right split.now.variable node r) }
{
    if place_of(m, node).0 != at.0 {
        return None;
    }
    let View::Decomposition { count, .. } = m.view(node) else {
        unreachable!()
    };
    if count != 2 {
        return None;
    }
    let (prime, sub) = m.element(node, 0);
    let (_, other) = m.element(node, 1);
    if prime.0 == 2 * split.variable {
        Some((sub, other))
    } else {
        None
    }
}

// Whether a node stands below the right child.
fn is_right(m: &Manager, at: VNode, split: &Split, node: NodeId) -> bool
    requires children { HasChildren m.now.vtree at split.now.left split.now.right }
    requires node { IsBelow m.now at node }
    requires table { IsTable m.now }
    ensures { IsTrue result → IsBelow m.now split.now.right node }
{
    if node.is_constant() {
        return true;
    }
    let own = place_of(m, node);
    let vtree = m.vtree();
    vtree.position(at) < vtree.position(own)
}

// The halves of a literal of the variable.
fn literal_halves(m: &Manager, at: VNode, split: &Split, node: NodeId) -> Option<(NodeId, NodeId)>
    requires least { 2 ≤ node }
    requires code { node < 2050 }
    requires table { IsTable m.now }
    ensures { IfSome result (λ r. Halves m.now at split.now.right split.now.variable node r) }
{
    if node.variable() != split.variable {
        return None;
    }
    if node.is_positive() {
        Some((NodeId::TRUE, NodeId::FALSE))
    } else {
        Some((NodeId::FALSE, NodeId::TRUE))
    }
}

/// Whether two pairs of halves are one.
#[inline(always)]
pub(crate) fn are_same_halves(a: &(NodeId, NodeId), b: &(NodeId, NodeId)) -> bool
    ensures first { IsTrue result → (a.now.0 ≡ b.now.0) }
    ensures second { IsTrue result → (a.now.1 ≡ b.now.1) }
{
    is_same(&a.0, &b.0) && is_same(&a.1, &b.1)
}

/// Whether two nodes are one.
pub(crate) fn is_same(a: &NodeId, b: &NodeId) -> bool
    ensures { IsTrue result → (a.now ≡ b.now) }
{
    a.0 == b.0
}

/// The node of two halves below the right child.
#[inline(always)]
pub fn make_halves(
    m: &mut Manager,
    at: VNode,
    split: &Split,
    first: NodeId,
    second: NodeId,
) -> Result<NodeId, TakeError>
    requires split { IsSplit m.old.vtree at split.now }
    requires first { IsBelow m.old split.now.right first }
    requires second { IsBelow m.old split.now.right second }
    requires table { IsTable m.old }
    ensures ok { IfOk result
        (λ r. MakesHalves m.old m.new split.now.right split.now.variable first second r) }
    ensures kept { Extends m.old m.new }
    ensures grown { GrowsBelow m.old m.new at }
    ensures one { IfOk result (λ r. GrowsByAnswer m.old m.new at r) }
    ensures none { OnErr result (GrowsStrictlyBelow m.old m.new at) }
    ensures rule { IfErr result (λ e. KeepsRule m.new e) }
    ensures table { IsTable m.new }
{
    if first.0 == second.0 {
        return Ok(first);
    }
    let (one, other) = (NodeId(2 * split.variable), NodeId(2 * split.variable + 1));
    m.make(at, &[(one, first), (other, second)])
}
