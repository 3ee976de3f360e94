// The list of a node after a swap, `(a b)` to `(b a)`.
//
// The primes of the node's list stand below the right child then, and its subs below the left one. The product of an
// element's prime and sub is a partition of the vtree node with two primes: the sub, beside the element's prime, and
// the negation of the sub, beside false. A cell is a prime of the vtree node, at first true. A cell is cut by the
// products of some elements into those parts of it on which each sub is true or false, and beside each part stands the
// sum of the primes of those subs that are true there.
//
// It is cut by the first half of the elements, and each part of that by the other half; then the two sums of each part
// are joined (`cut`). So a sum of primes is one of two halves: parts that differ elsewhere share it, and the table of
// answers has it. Sums that take one prime after another would differ in most cells, and each is about as large as the
// whole. Of up to three products the sums are the same in either way, and no list is put together (`cut_in_turn`).
//
// Where the list of a node fits no other way, the whole is cut by all of its products in turn (`by_products`).
ghost use Rattle.std.specs.Prelude.{◌≡◌, ◌≤◌, Bool, List, map, IfOk, IfErr, OnOk};
ghost use Rattle.std.specs.FinMap.{get};
ghost use Rattle.sd_laws.specs.Values.{pairs_value};
ghost use Rattle.sd_laws.proofs.Evaluated.{value_of};
ghost use Rattle.sd_manager.specs.Shown.{HasNode};
ghost use Rattle.sd_manager.specs.Valid.{IsTable};
ghost use Rattle.sd_manager.specs.Views.{pairs_at};
ghost use Rattle.sd_manager.specs.Making.{KeepsRule};
ghost use Rattle.sd_apply.specs.Partitions.{IsInnerNode, IsPartitionOf, AreDisjointAt};
ghost use Rattle.sd_apply.specs.Places.{IsBelow};
ghost use Rattle.sd_apply.specs.Recent.{Knows};
ghost use Rattle.sd_move.specs.Calls.{IsStep};
ghost use Rattle.sd_move.specs.Rewriting.{AreBelow};
ghost use Rattle.sd_move.specs.Cells.{IsCell, IsCut, ArePartitions, AddsSums};

use crate::branches::product_at;
use sd_apply::{Pairs, Recent, expand_at, multiply_at};
use sd_manager::{Manager, NodeId, View};
use sd_model::Operation;
use sd_runs::TakeError;
use sd_vtree::VNode;
use smallvec::SmallVec;
use std::alloc::Global;

// The products of a node's primes and subs, without those whose sub is false: partitions of a vtree node at which or
// below which both stand. It refuses as `and`.
fn products_of(
    alloc: Global,
    m: &mut Manager,
    recent: &mut Recent,
    place: VNode,
    node: NodeId,
) -> Result<Vec<Pairs>, TakeError>
    requires place { IsInnerNode m.old.vtree place }
    requires node { HasNode m.old node }
    requires code { 2050 ≤ node }
    requires codes { AreBelow m.old place (pairs_at m.old node) }
    requires knows { Knows recent.old m.old }
    requires table { IsTable m.old }
    ensures ok { IfOk result (λ r. ArePartitions m.new place (map (λ l. l.items) r.items)
        (pairs_value (value_of (get m.old.linked)) (pairs_at m.old node))) }
    ensures step { IsStep m.old m.new place recent.new }
    ensures rule { IfErr result (λ e. KeepsRule m.new e) }
{
    let View::Decomposition { count, .. } = m.view(node) else {
        unreachable!()
    };
    let mut products = Vec::new(alloc);
    for index in 0..count {
        let (prime, sub) = m.element(node, index);
        // a false sub adds nothing
        if sub.is_false() {
            continue;
        }
        let product = product_at(alloc, m, recent, place, prime, sub)?;
        let Ok(()) = products.push(product) else {
            return Err(TakeError::OutOfMemory);
        };
    }
    Ok(products)
}

// A cell cut by partitions one after the other. It refuses as `and`.
fn cut_in_turn(
    alloc: Global,
    m: &mut Manager,
    recent: &mut Recent,
    place: VNode,
    cell: NodeId,
    parts: &[Pairs],
) -> Result<Pairs, TakeError>
    requires place { IsInnerNode m.old.vtree place }
    requires cell { (f : List Bool → Bool) × IsCell m.old place cell f }
    requires parts { (g : List Bool → Bool)
        × ArePartitions m.old place (map (λ l. l.items) parts.now) g }
    requires knows { Knows recent.old m.old }
    requires table { IsTable m.old }
    ensures ok { IfOk result (λ r. (f g : List Bool → Bool) → IsCell m.old place cell f
        → ArePartitions m.old place (map (λ l. l.items) parts.now) g → IsCut m.new place r.items f g) }
    ensures step { IsStep m.old m.new place recent.new }
    ensures rule { IfErr result (λ e. KeepsRule m.new e) }
{
    let mut list = SmallVec::new(alloc);
    let Ok(()) = list.push((cell, NodeId::FALSE)) else {
        return Err(TakeError::OutOfMemory);
    };
    for index in 0..parts.len() {
        let part = parts[index].as_slice();
        list = multiply_at(m, recent, Operation::Or, place, list.as_slice(), part)?;
    }
    Ok(list)
}

// Adds the elements of a list, each with its sub joined to a sum, behind those that are there. It refuses as `and`.
fn add_sums(
    alloc: Global,
    m: &mut Manager,
    recent: &mut Recent,
    place: VNode,
    list: &[(NodeId, NodeId)],
    sum: NodeId,
    all: &mut Pairs,
) -> Result<(), TakeError>
    requires place { IsInnerNode m.old.vtree place }
    requires list { AreDisjointAt m.old place list.now }
    requires sum { IsBelow m.old place sum }
    requires knows { Knows recent.old m.old }
    requires table { IsTable m.old }
    ensures ok { OnOk result
        (AddsSums m.old m.new place list.now sum all.old.items all.new.items) }
    ensures step { IsStep m.old m.new place recent.new }
    ensures rule { IfErr result (λ e. KeepsRule m.new e) }
{
    if sum.is_false() {
        // no product changes
        let Ok(()) = all.extend_from_slice(list) else {
            return Err(TakeError::OutOfMemory);
        };
        return Ok(());
    }
    let other = expand_at(alloc, m, recent, place, sum)?;
    let sums = other.as_slice();
    let mut joined = multiply_at(m, recent, Operation::Or, place, list, sums)?;
    let Ok(()) = all.append(&mut joined) else {
        return Err(TakeError::OutOfMemory);
    };
    Ok(())
}

// A cell cut by partitions: by the first half of them, and each part of that by the others. It refuses as `and`.
fn cut(
    alloc: Global,
    m: &mut Manager,
    recent: &mut Recent,
    place: VNode,
    cell: NodeId,
    parts: &[Pairs],
) -> Result<Pairs, TakeError>
    requires place { IsInnerNode m.old.vtree place }
    requires cell { (f : List Bool → Bool) × IsCell m.old place cell f }
    requires parts { (g : List Bool → Bool)
        × ArePartitions m.old place (map (λ l. l.items) parts.now) g }
    requires knows { Knows recent.old m.old }
    requires table { IsTable m.old }
    ensures ok { IfOk result (λ r. (f g : List Bool → Bool) → IsCell m.old place cell f
        → ArePartitions m.old place (map (λ l. l.items) parts.now) g → IsCut m.new place r.items f g) }
    ensures step { IsStep m.old m.new place recent.new }
    ensures rule { IfErr result (λ e. KeepsRule m.new e) }
{
    if parts.len() < 4 {
        return cut_in_turn(alloc, m, recent, place, cell, parts);
    }
    let half = parts.len() / 2;
    let first = cut(alloc, m, recent, place, cell, &parts[..half])?;
    let list = first.as_slice();
    let mut all = SmallVec::new(alloc);
    for index in 0..list.len() {
        let element = list[index];
        let second = cut(alloc, m, recent, place, element.0, &parts[half..])?;
        add_sums(
            alloc,
            m,
            recent,
            place,
            second.as_slice(),
            element.1,
            &mut all,
        )?;
    }
    Ok(all)
}

/// A node's elements as a partition of a vtree node at which or below which they stand, with its value, by cells of
/// what its subs tell apart. It refuses as `and`.
pub(crate) fn by_cells(
    alloc: Global,
    m: &mut Manager,
    recent: &mut Recent,
    place: VNode,
    node: NodeId,
) -> Result<Pairs, TakeError>
    requires place { IsInnerNode m.old.vtree place }
    requires node { HasNode m.old node }
    requires code { 2050 ≤ node }
    requires codes { AreBelow m.old place (pairs_at m.old node) }
    requires knows { Knows recent.old m.old }
    requires table { IsTable m.old }
    ensures ok { IfOk result (λ r. IsPartitionOf m.new place r.items
        (pairs_value (value_of (get m.old.linked)) (pairs_at m.old node))) }
    ensures step { IsStep m.old m.new place recent.new }
    ensures rule { IfErr result (λ e. KeepsRule m.new e) }
{
    let products = products_of(alloc, m, recent, place, node)?;
    cut(alloc, m, recent, place, NodeId::TRUE, &products)
}

/// The same by one product after the other, whatever its elements stand below. It refuses as `and`.
pub(crate) fn by_products(
    alloc: Global,
    m: &mut Manager,
    recent: &mut Recent,
    place: VNode,
    node: NodeId,
) -> Result<Pairs, TakeError>
    requires place { IsInnerNode m.old.vtree place }
    requires node { HasNode m.old node }
    requires code { 2050 ≤ node }
    requires codes { AreBelow m.old place (pairs_at m.old node) }
    requires knows { Knows recent.old m.old }
    requires table { IsTable m.old }
    ensures ok { IfOk result (λ r. IsPartitionOf m.new place r.items
        (pairs_value (value_of (get m.old.linked)) (pairs_at m.old node))) }
    ensures step { IsStep m.old m.new place recent.new }
    ensures rule { IfErr result (λ e. KeepsRule m.new e) }
{
    let products = products_of(alloc, m, recent, place, node)?;
    cut_in_turn(alloc, m, recent, place, NodeId::TRUE, &products)
}
