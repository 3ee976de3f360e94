// Nodes that wait in a move get another list, which fits the turned vtree.
//
// One table of answers serves all of them. The nodes at one vtree node share most of what stands below it: with a table
// for each list, or for each call on one, the same subdiagrams are negated and multiplied again for each node, which
// takes ten times the whole time on a diagram of 100,000 elements. No node is discarded while they are rewritten, and a
// rewritten one keeps its function, so that each answer stays right. The cache is not asked, since a put into it is
// dear beside a step.
//
// After a rotation to the left the primes of a node are a partition of the inner left child, and the list has one prime
// for each sub that is met (`branches.rt`). After a swap its subs stand below the left child, and the list has a prime
// for each part that they tell apart (`cells.rt`). Otherwise it is the disjunction of the products of primes and subs
// (`by_products` there), each of which is multiplied with what was made before: quadratic in the number of elements.
ghost use Rattle.std.specs.Prelude.{◌≡◌, ◌∷◌, ℕ, ◌≤◌, List, [], map, Some, IfOk, IfSome, OnOk, OnErr, IfErr};
ghost use Rattle.sd_model.specs.Tree.{AreDistinct};
ghost use Rattle.std.specs.FinMap.{get};
ghost use Rattle.sd_laws.specs.Values.{Valuation, pairs_value, IsWhole};
ghost use Rattle.sd_laws.proofs.Evaluated.{value_of};
ghost use Rattle.sd_manager.specs.Table.{Table};
ghost use Rattle.sd_manager.specs.Shown.{HasNode};
ghost use Rattle.sd_manager.specs.Valid.{IsTable};
ghost use Rattle.sd_manager.specs.Views.{pairs_at};
ghost use Rattle.sd_manager.specs.Making.{KeepsRule};
ghost use Rattle.sd_apply.specs.Partitions.{IsInnerNode, IsPartitionOf};
ghost use Rattle.sd_apply.specs.Places.{HasChildren};
ghost use Rattle.sd_apply.specs.Recent.{Knows};
ghost use Rattle.sd_apply.specs.Serving.{Serves};
ghost use Rattle.sd_move.specs.Branches.{IsCornerOf};
ghost use Rattle.sd_move.specs.Calls.{IsStep};
ghost use Rattle.sd_move.specs.Moving.{Progress};
ghost use Rattle.sd_move.specs.Rewriting.{AreBelow, CanRewriteAll, MayRewriteAll, AreRewritten};
ghost use Rattle.sd_move.specs.Rewriting.{HasRewritten, GoesOn};

use crate::branches::{Corner, by_branches};
use crate::cells::{by_cells, by_products};
use crate::journal::Entry;
use crate::sorting::are_below;
use sd_apply::{Pairs, Recent, merge_at};
use sd_cache::Cache;
use sd_manager::{Manager, NodeId};
use sd_model::Side;
use sd_runs::TakeError;
use sd_vtree::VNode;
use std::alloc::Global;

// A node's elements as a partition of a vtree node at which or below which they stand, with its value, in the way that
// fits. After a swap all subs stand below the left child, and after a rotation to
// the left all primes below the left child of that. It refuses as `and`.
fn partition_at(
    alloc: Global,
    m: &mut Manager,
    recent: &mut Recent,
    place: VNode,
    node: NodeId,
) -> Result<Pairs, TakeError>
    requires place { IsInnerNode m.old.vtree place }
    requires node { HasNode m.old node }
    requires code { 2050 ≤ node }
    requires codes { AreBelow m.old place (pairs_at m.old node) }
    requires whole { IsWhole (value_of (get m.old.linked)) (pairs_at m.old node) }
    requires knows { Knows recent.old m.old }
    requires table { IsTable m.old }
    ensures ok { IfOk result (λ r. IsPartitionOf m.new place r.items
        (pairs_value (value_of (get m.old.linked)) (pairs_at m.old node))) }
    ensures step { IsStep m.old m.new place recent.new }
    ensures rule { IfErr result (λ e. KeepsRule m.new e) }
{
    let Some(children) = m.vtree().children(place) else {
        unreachable!()
    };
    if are_below(m, place, node.0 - 2050, Side::Right, children.0) {
        return by_cells(alloc, m, recent, place, node);
    }
    let Some(corner) = corner_of(m, place, children, node) else {
        return by_products(alloc, m, recent, place, node);
    };
    match by_branches(alloc, m, recent, &corner, node)? {
        Some(list) => Ok(list),
        None => by_products(alloc, m, recent, place, node),
    }
}

// A vtree node with these children, where the left one has children itself, and the primes of a node stand below the
// left one of these.
fn corner_of(m: &Manager, place: VNode, children: (VNode, VNode), node: NodeId) -> Option<Corner>
    requires place { HasChildren m.now.vtree place children.0 children.1 }
    requires node { HasNode m.now node }
    requires code { 2050 ≤ node }
    requires codes { AreBelow m.now place (pairs_at m.now node) }
    requires whole { IsWhole (value_of (get m.now.linked)) (pairs_at m.now node) }
    requires table { IsTable m.now }
    ensures { IfSome result (λ c. IsCornerOf m.now place (pairs_at m.now node) c) }
{
    let (lower, right) = children;
    let Some(inner) = m.vtree().children(lower) else {
        return None;
    };
    if are_below(m, place, node.0 - 2050, Side::Left, inner.0) {
        return Some(Corner {
            upper: place,
            lower,
            left: inner.0,
            middle: inner.1,
            right,
        });
    }
    None
}

// The list that a node has at a vtree node at which or below which its elements stand: a partition there with its
// value. It refuses as `and`.
fn new_list(
    alloc: Global,
    m: &mut Manager,
    recent: &mut Recent,
    place: VNode,
    node: NodeId,
) -> Result<Pairs, TakeError>
    requires place { IsInnerNode m.old.vtree place }
    requires node { HasNode m.old node }
    requires code { 2050 ≤ node }
    requires codes { AreBelow m.old place (pairs_at m.old node) }
    requires whole { IsWhole (value_of (get m.old.linked)) (pairs_at m.old node) }
    requires knows { Knows recent.old m.old }
    requires table { IsTable m.old }
    ensures ok { IfOk result (λ r. IsPartitionOf m.new place r.items
        (pairs_value (value_of (get m.old.linked)) (pairs_at m.old node))) }
    ensures differ { IfOk result (λ r. AreDistinct (map (λ e. e.1) r.items)) }
    ensures step { IsStep m.old m.new place recent.new }
    ensures rule { IfErr result (λ e. KeepsRule m.new e) }
{
    let list = partition_at(alloc, m, recent, place, node)?;
    merge_at(alloc, m, recent, place, list.as_slice())
}

// Gives a node that waits its new list, and answers the run of its old one. ArenaFull by the arena's rule, and
// OutOfMemory; then the node waits still.
fn rewrite_one(
    alloc: Global,
    m: &mut Manager,
    recent: &mut Recent,
    place: VNode,
    number: u32,
) -> Result<(u32, u32), TakeError>
    requires may { (rest : List ℕ) × MayRewriteAll m.old place (number ∷ rest) }
    requires knows { Knows recent.old m.old }
    requires table { IsTable m.old }
    ensures ok { IfOk result (λ run. AreRewritten m.old m.new place
        (record { number = number; place = place; run = Some run } ∷ [])) }
    ensures err { OnErr result (AreRewritten m.old m.new place []) }
    ensures going { OnOk result ((m0 : Table) (h : Progress) (v : Valuation) (rest : List ℕ)
        → CanRewriteAll m0 m.old place h v (number ∷ rest) → GoesOn m0 m.old m.new place h v rest) }
    ensures still { OnErr result ((m0 : Table) (h : Progress) (v : Valuation) (rest : List ℕ)
        → CanRewriteAll m0 m.old place h v (number ∷ rest)
        → GoesOn m0 m.old m.new place h v (number ∷ rest)) }
    ensures knows { Knows recent.new m.new }
    ensures rule { IfErr result (λ e. KeepsRule m.new e) }
    ensures table { IsTable m.new }
{
    let list = new_list(alloc, m, recent, place, NodeId(number + 2050))?;
    m.rewrite(number, list.as_slice())
}

// Gives each node that waits its new list, and puts its old run behind the entries. ArenaFull by the arena's rule, and
// OutOfMemory; the rest of the numbers wait still then. The cache is not asked, and serves as before.
pub(crate) fn rewrite_all(
    alloc: Global,
    m: &mut Manager,
    c: &mut Cache,
    place: VNode,
    numbers: &[u32],
    named: &mut Vec<Entry>,
) -> Result<(), TakeError>
    requires may { MayRewriteAll m.old place numbers.now }
    requires serves { Serves c.old m.old }
    requires table { IsTable m.old }
    ensures rewritten { (rest : List ℕ) × HasRewritten m.old m.new place numbers.now
        named.old.items named.new.items rest × ((m0 : Table) (h : Progress) (v : Valuation)
        → CanRewriteAll m0 m.old place h v numbers.now → GoesOn m0 m.old m.new place h v rest) }
    ensures ok { OnOk result (HasRewritten m.old m.new place numbers.now named.old.items
        named.new.items []) }
    ensures going { OnOk result ((m0 : Table) (h : Progress) (v : Valuation)
        → CanRewriteAll m0 m.old place h v numbers.now → GoesOn m0 m.old m.new place h v []) }
    ensures serves { Serves c.new m.new }
    ensures rule { IfErr result (λ e. KeepsRule m.new e) }
    ensures table { IsTable m.new }
{
    let mut recent = Recent::new(alloc);
    for index in 0..numbers.len() {
        let Ok(()) = named.reserve(1) else {
            return Err(TakeError::OutOfMemory);
        };
        let number = numbers[index];
        let run = rewrite_one(alloc, m, &mut recent, place, number)?;
        let _ = named.push(Entry {
            number,
            place,
            run: Some(run),
        });
    }
    Ok(())
}
