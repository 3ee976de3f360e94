// The list of a node after a rotation to the left, `(a (b c))` to `((a b) c)`.
//
// A branch of the node's list is a sub below c of one of its subs, with the two primes that lead to it: the list's own,
// below a, and the one there, below b. All branches to one sub make one prime below `(a b)`. Beside each prime of the
// list stands what of b leads to that sub from there, and false where nothing does (`row_of`): since the primes of the
// list are a partition of a, that is one of `(a b)`, and its node has the value of all these branches together.
//
// A node for each branch, joined to the others one after the other, would take about as many products of primes as
// there are pairs of branches to one sub. A row has an element for each prime of the list, most of which are only
// passed over where few branches lead to a sub: then a node for each branch takes less (`pays`).
ghost use Rattle.std.specs.Prelude.{◌≡◌, ◌≤◌, ◌<◌, Bool, List, length, Some, slice_get};
ghost use Rattle.std.specs.Prelude.{IfOk, IfErr, IfSome, IsTrue, OnOk};
ghost use Rattle.std.specs.FinMap.{get};
ghost use Rattle.sd_model.specs.Diagram.{Diagram, meaning};
ghost use Rattle.sd_model.specs.Expression.{combine};
ghost use Rattle.sd_model.specs.declared.trees.Operation.TheVariants.{And};
ghost use Rattle.sd_laws.specs.Values.{Valuation, pairs_value};
ghost use Rattle.sd_laws.proofs.Evaluated.{value_of};
ghost use Rattle.sd_manager.specs.Shown.{HasNode};
ghost use Rattle.sd_manager.specs.Valid.{IsTable};
ghost use Rattle.sd_manager.specs.Views.{pairs_at};
ghost use Rattle.sd_manager.specs.Making.{Extends, KeepsRule};
ghost use Rattle.sd_apply.specs.Growing.{GrowsBelow};
ghost use Rattle.sd_apply.specs.Partitions.{IsInnerNode, IsPartitionOf};
ghost use Rattle.sd_apply.specs.Places.{IsBelow, IsNodeUnder};
ghost use Rattle.sd_apply.specs.Recent.{Knows};
ghost use Rattle.sd_move.specs.Branches.{IsCorner, IsOwnList, AddsBranches, AreBranches, AreInnerBelow, ShowsBelow};
ghost use Rattle.sd_move.specs.Branches.{CanJoin, IsRow, IsGroup, IsNextPrime, IsJoined};
ghost use Rattle.sd_move.specs.Calls.{IsStep};

use crate::sorting::is_below;
use sd_apply::{Pairs, Recent, expand_at, merge_at, multiply_at};
use sd_manager::{Manager, NodeId, View};
use sd_model::Operation;
use sd_runs::TakeError;
use sd_vtree::VNode;
use smallvec::SmallVec;
use std::alloc::Global;

/// A vtree node whose left child has children.
#[derive(Clone, Copy, Drop)]
pub(crate) struct Corner {
    /// The vtree node.
    pub(crate) upper: VNode,
    /// Its left child.
    pub(crate) lower: VNode,
    /// The left child of that.
    pub(crate) left: VNode,
    /// The right child of that.
    pub(crate) middle: VNode,
    /// The right child of the upper one.
    pub(crate) right: VNode,
}

// A sub of one of a list's subs, the prime of the list that leads to it, and the prime there.
type Branch = (u32, u32, u32);

// The elements of a decomposition.
fn elements_of(alloc: Global, m: &Manager, node: NodeId) -> Result<Pairs, TakeError>
    requires node { HasNode m.now node }
    requires code { 2050 ≤ node }
    ensures ok { IfOk result (λ r. r.items ≡ pairs_at m.now node) }
    ensures err { IfErr result (λ e. e ≡ TakeError.OutOfMemory) }
{
    let View::Decomposition { count, .. } = m.view(node) else {
        unreachable!()
    };
    let mut pairs = SmallVec::new(alloc);
    for index in 0..count {
        let Ok(()) = pairs.push(m.element(node, index)) else {
            return Err(TakeError::OutOfMemory);
        };
    }
    Ok(pairs)
}

// Adds the branches of one element. It refuses as `and`.
fn add_branches(
    alloc: Global,
    m: &mut Manager,
    recent: &mut Recent,
    upper: VNode,
    element: (NodeId, NodeId),
    branches: &mut Vec<Branch>,
) -> Result<(), TakeError>
    requires upper { IsInnerNode m.old.vtree upper }
    requires sub { IsBelow m.old upper element.1 }
    requires knows { Knows recent.old m.old }
    ensures ok { OnOk result
        (AddsBranches m.old m.new upper element branches.old.items branches.new.items) }
    ensures step { IsStep m.old m.new upper recent.new }
    ensures rule { IfErr result (λ e. KeepsRule m.new e) }
{
    let (prime, sub) = element;
    let list = expand_at(alloc, m, recent, upper, sub)?;
    let parts = list.as_slice();
    for index in 0..parts.len() {
        let (inner, reached) = parts[index];
        let Ok(()) = branches.push((reached.0, prime.0, inner.0)) else {
            return Err(TakeError::OutOfMemory);
        };
    }
    Ok(())
}

// The branches of a list, those to one sub one after the other. It refuses as `and`.
fn branches_of(
    alloc: Global,
    m: &mut Manager,
    recent: &mut Recent,
    corner: &Corner,
    own: &[(NodeId, NodeId)],
) -> Result<Vec<Branch>, TakeError>
    requires corner { IsCorner m.old.vtree corner.now }
    requires own { IsOwnList m.old corner.now own.now }
    requires knows { Knows recent.old m.old }
    requires table { IsTable m.old }
    ensures ok { IfOk result (λ r. AreBranches m.old m.new corner.now own.now r.items) }
    ensures step { IsStep m.old m.new corner.now.upper recent.new }
    ensures rule { IfErr result (λ e. KeepsRule m.new e) }
{
    let mut branches = Vec::new(alloc);
    for index in 0..own.len() {
        let element = own[index];
        add_branches(alloc, m, recent, corner.upper, element, &mut branches)?;
    }
    branches.sort_unstable();
    Ok(branches)
}

// Whether the second primes of all branches stand below the middle.
fn are_inner(m: &Manager, corner: &Corner, branches: &[Branch]) -> bool
    requires corner { IsCorner m.now.vtree corner.now }
    requires each { AreInnerBelow m.now corner.now.lower branches.now }
    requires table { IsTable m.now }
    ensures { IsTrue result → AreInnerBelow m.now corner.now.middle branches.now }
{
    for index in 0..branches.len() {
        let (_, _, inner) = branches[index];
        if !is_below(m, corner.lower, NodeId(inner), corner.middle) {
            return false;
        }
    }
    true
}

// The second prime of the branch at an index, where it leads to this sub from this prime.
fn inner_at(branches: &[Branch], index: usize, sub: u32, prime: u32) -> Option<u32>
    ensures { IfSome result (λ i. slice_get branches.now index ≡ Some (sub, prime, i)) }
{
    if index >= branches.len() {
        return None;
    }
    let (other, outer, inner) = branches[index];
    if other == sub && outer == prime {
        return Some(inner);
    }
    None
}

// The primes of a list, each beside what leads from there to the sub of the branch at an index: the second prime of a
// branch, and false where there is none. The branches from that index on are taken as they come, and the index of the
// first that is left is answered too. The only error: out of memory.
fn row_of(
    alloc: Global,
    own: &[(NodeId, NodeId)],
    branches: &[Branch],
    from: usize,
) -> Result<(Pairs, usize), TakeError>
    requires { from < length branches.now }
    ensures ok { IfOk result (λ r. IsRow own.now branches.now from r.0.items r.1) }
    ensures err { IfErr result (λ e. e ≡ TakeError.OutOfMemory) }
{
    let (sub, _, _) = branches[from];
    let mut row = SmallVec::new(alloc);
    let mut next = from;
    for index in 0..own.len() {
        let (prime, _) = own[index];
        if let Some(inner) = inner_at(branches, next, sub, prime.0) {
            let Ok(()) = row.push((prime, NodeId(inner))) else {
                return Err(TakeError::OutOfMemory);
            };
            next += 1;
        } else {
            let Ok(()) = row.push((prime, NodeId(0))) else {
                return Err(TakeError::OutOfMemory);
            };
        }
    }
    Ok((row, next))
}

// Whether a row takes less than a node for each of the branches from an index on that lead to one sub: these would be
// joined by a product for each two of them, and to pass over an element takes at most a quarter of a product.
fn pays(branches: &[Branch], from: usize, elements: usize) -> bool
    requires { from < length branches.now }
{
    let (sub, _, _) = branches[from];
    let mut count: usize = 0;
    for index in from..branches.len() {
        let (other, _, _) = branches[index];
        if other != sub {
            break;
        }
        count = index - from + 1;
    }
    elements / 4 <= count.saturating_mul(count)
}

/// The conjunction of two nodes below a vtree node, as a partition there. It refuses as `and`.
pub(crate) fn product_at(
    alloc: Global,
    m: &mut Manager,
    recent: &mut Recent,
    place: VNode,
    prime: NodeId,
    sub: NodeId,
) -> Result<Pairs, TakeError>
    requires place { IsInnerNode m.old.vtree place }
    requires prime { IsBelow m.old place prime }
    requires sub { IsBelow m.old place sub }
    requires knows { Knows recent.old m.old }
    ensures ok { IfOk result (λ r. (d e : Diagram) → IsNodeUnder m.old place prime d
        → IsNodeUnder m.old place sub e → IsPartitionOf m.new place r.items
        (λ a. combine And (meaning d a) (meaning e a))) }
    ensures step { IsStep m.old m.new place recent.new }
    ensures rule { IfErr result (λ e. KeepsRule m.new e) }
{
    let first = expand_at(alloc, m, recent, place, prime)?;
    let second = expand_at(alloc, m, recent, place, sub)?;
    let (one, other) = (first.as_slice(), second.as_slice());
    multiply_at(m, recent, Operation::And, place, one, other)
}

// A partition of the lower vtree node, true where both primes of some branches from an index on are, which lead to one
// sub, and the index of the first that is left. It refuses as `and`.
fn group_at(
    alloc: Global,
    m: &mut Manager,
    recent: &mut Recent,
    corner: &Corner,
    own: &[(NodeId, NodeId)],
    branches: &[Branch],
    from: usize,
) -> Result<(Pairs, usize), TakeError>
    requires can { (v : Valuation) × CanJoin m.old v corner.now own.now branches.now }
    requires from { from < length branches.now }
    requires knows { Knows recent.old m.old }
    requires table { IsTable m.old }
    ensures ok { IfOk result (λ r. (v : Valuation) → CanJoin m.old v corner.now own.now branches.now
        → IsGroup m.new v corner.now branches.now from r.0.items r.1) }
    ensures step { IsStep m.old m.new corner.now.lower recent.new }
    ensures rule { IfErr result (λ e. KeepsRule m.new e) }
{
    if pays(branches, from, own.len()) {
        let (row, next) = row_of(alloc, own, branches, from)?;
        if from < next {
            return Ok((row, next));
        }
    }
    let (_, prime, inner) = branches[from];
    let row = product_at(alloc, m, recent, corner.lower, NodeId(prime), NodeId(inner))?;
    Ok((row, from + 1))
}

// The node of a partition of a vtree node, whose subs may be equal. It refuses as `and`.
fn node_of(
    alloc: Global,
    m: &mut Manager,
    recent: &mut Recent,
    place: VNode,
    pairs: &[(NodeId, NodeId)],
) -> Result<NodeId, TakeError>
    requires partition { (f : List Bool → Bool) × IsPartitionOf m.old place pairs.now f }
    requires place { IsInnerNode m.old.vtree place }
    requires knows { Knows recent.old m.old }
    requires table { IsTable m.old }
    ensures ok { IfOk result (λ r. (f : List Bool → Bool) → IsPartitionOf m.old place pairs.now f
        → ShowsBelow m.new place r f) }
    ensures kept { Extends m.old m.new }
    ensures grown { GrowsBelow m.old m.new place }
    ensures knows { Knows recent.new m.new }
    ensures rule { IfErr result (λ e. KeepsRule m.new e) }
    ensures table { IsTable m.new }
{
    let merged = merge_at(alloc, m, recent, place, pairs)?;
    m.make(place, merged.as_slice())
}

// The node that is true where both primes of some branches from an index on are, which lead to one sub, and the index
// of the first that is left. It refuses as `and`.
fn next_prime(
    alloc: Global,
    m: &mut Manager,
    recent: &mut Recent,
    corner: &Corner,
    own: &[(NodeId, NodeId)],
    branches: &[Branch],
    from: usize,
) -> Result<(NodeId, usize), TakeError>
    requires can { (v : Valuation) × CanJoin m.old v corner.now own.now branches.now }
    requires from { from < length branches.now }
    requires knows { Knows recent.old m.old }
    requires table { IsTable m.old }
    ensures ok { IfOk result (λ r. (v : Valuation) → CanJoin m.old v corner.now own.now branches.now
        → IsNextPrime m.new v corner.now branches.now from r.0 r.1) }
    ensures step { IsStep m.old m.new corner.now.upper recent.new }
    ensures rule { IfErr result (λ e. KeepsRule m.new e) }
{
    let (row, next) = group_at(alloc, m, recent, corner, own, branches, from)?;
    let node = node_of(alloc, m, recent, corner.lower, row.as_slice())?;
    Ok((node, next))
}

// A partition of the upper vtree node with the value that the branches lead to: one element for the branches to one
// sub, or more. It refuses as `and`.
fn join_branches(
    alloc: Global,
    m: &mut Manager,
    recent: &mut Recent,
    corner: &Corner,
    own: &[(NodeId, NodeId)],
    branches: &[Branch],
) -> Result<Pairs, TakeError>
    requires can { CanJoin m.old (value_of (get m.old.linked)) corner.now own.now branches.now }
    requires knows { Knows recent.old m.old }
    requires table { IsTable m.old }
    ensures ok { IfOk result (λ r. IsJoined m.old m.new corner.now branches.now r.items) }
    ensures step { IsStep m.old m.new corner.now.upper recent.new }
    ensures rule { IfErr result (λ e. KeepsRule m.new e) }
{
    let mut all = SmallVec::new(alloc);
    let mut next = 0;
    while next < branches.len() {
        let (sub, _, _) = branches[next];
        let (prime, after) = next_prime(alloc, m, recent, corner, own, branches, next)?;
        if prime.0 != 0 {
            let Ok(()) = all.push((prime, NodeId(sub))) else {
                return Err(TakeError::OutOfMemory);
            };
        }
        next = after;
    }
    Ok(all)
}

/// A node's elements as a partition of the upper vtree node with its value, where its primes stand below the left and
/// its subs below the upper one. None where the second prime of a branch stands not below the middle, which after a
/// rotation to the left it does. It refuses as `and`.
pub(crate) fn by_branches(
    alloc: Global,
    m: &mut Manager,
    recent: &mut Recent,
    corner: &Corner,
    node: NodeId,
) -> Result<Option<Pairs>, TakeError>
    requires corner { IsCorner m.old.vtree corner.now }
    requires own { IsOwnList m.old corner.now (pairs_at m.old node) }
    requires node { HasNode m.old node }
    requires code { 2050 ≤ node }
    requires knows { Knows recent.old m.old }
    requires table { IsTable m.old }
    ensures ok { IfOk result (λ r. IfSome r (λ list. IsPartitionOf m.new corner.now.upper list.items
        (pairs_value (value_of (get m.old.linked)) (pairs_at m.old node)))) }
    ensures step { IsStep m.old m.new corner.now.upper recent.new }
    ensures rule { IfErr result (λ e. KeepsRule m.new e) }
{
    let own = elements_of(alloc, m, node)?;
    let branches = branches_of(alloc, m, recent, corner, own.as_slice())?;
    if are_inner(m, corner, &branches) {
        let list = join_branches(alloc, m, recent, corner, own.as_slice(), &branches)?;
        return Ok(Some(list));
    }
    Ok(None)
}
