// The literals of a group, joined along the vtree, so that each join is at the lowest vtree node over what it joins and
// makes no node that the group does not have.
ghost use Rattle.std.specs.Prelude.{◌≡◌, ◌<◌, ◌≤◌, ℕ, length, map, IfOk, IfErr};
ghost use Rattle.std.specs.List.Sorted.{IsPermutation};
ghost use Rattle.sd_model.specs.Tree.{leaves};
ghost use Rattle.sd_model.specs.Assignment.{literal_holds};
ghost use Rattle.sd_vtree.specs.Numbered.{plain_tree};
ghost use Rattle.sd_formula.specs.Formulas.{AreLiterals};
ghost use Rattle.sd_manager.specs.Valid.{IsTable};
ghost use Rattle.sd_manager.specs.Making.{Extends, KeepsRule};
ghost use Rattle.sd_apply.specs.Answers.{HasAnswer};
ghost use Rattle.sd_apply.specs.Serving.{Serves};
ghost use Rattle.sd_compile.specs.Joined.{joined, literal_of_place, ArePlaced};

use crate::connectives::{connect, neutral_value};
use crate::parity::parity_of;
use sd_cache::Cache;
use sd_manager::{Manager, NodeId};
use sd_model::Operation;
use sd_runs::TakeError;
use std::alloc::{AllocError, Global};

/// The literals of a group, joined. It refuses as `sd_apply::and`.
pub(crate) fn group_node(
    alloc: Global,
    m: &mut Manager,
    c: &mut Cache,
    operation: Operation,
    literals: &[i32],
) -> Result<NodeId, TakeError>
    requires literals { AreLiterals (leaves (plain_tree m.old.vtree)) literals.now }
    requires serves { Serves c.old m.old }
    ensures ok { IfOk result (λ node.
        HasAnswer m.new (λ assignment. joined operation (literal_holds assignment) literals.now)
        node) }
    ensures kept { Extends m.old m.new }
    ensures serves { Serves c.new m.new }
    ensures rule { IfErr result (λ e. KeepsRule m.new e) }
    ensures table { IsTable m.new }
{
    // its contract tells that the table is valid
    let _ = m.vtree();
    let placed = by_position(alloc, m, literals)?;
    join_in_order(alloc, m, c, operation, &placed)
}

// Literals in the order of their leaves, joined.
fn join_in_order(
    alloc: Global,
    m: &mut Manager,
    c: &mut Cache,
    operation: Operation,
    placed: &[(u32, i32)],
) -> Result<NodeId, TakeError>
    requires placed { ArePlaced (leaves (plain_tree m.old.vtree)) placed.now }
    requires serves { Serves c.old m.old }
    ensures ok { IfOk result (λ node. HasAnswer m.new
        (λ assignment. joined operation (λ e. literal_holds assignment (literal_of_place e)) placed.now)
        node) }
    ensures kept { Extends m.old m.new }
    ensures serves { Serves c.new m.new }
    ensures rule { IfErr result (λ e. KeepsRule m.new e) }
    ensures table { IsTable m.new }
{
    match operation {
        Operation::And | Operation::Or => join_placed(alloc, m, c, operation, placed),
        Operation::Xor => {
            let both = parity_of(alloc, m, c, placed)?;
            Ok(both.odd)
        }
    }
}

// The literals with the positions of their leaves, in the order of the leaves.
fn by_position(alloc: Global, m: &Manager, literals: &[i32]) -> Result<Vec<(u32, i32)>, AllocError>
    requires { AreLiterals (leaves (plain_tree m.now.vtree)) literals.now }
    ensures { IfOk result (λ r. IsPermutation literals.now (map literal_of_place r.items)) }
{
    let vtree = m.vtree();
    let mut placed = Vec::new(alloc);
    for i in 0..literals.len() {
        let literal = literals[i];
        let leaf = vtree.leaf(literal.unsigned_abs());
        placed.push((vtree.position(leaf), literal))?;
    }
    placed.sort_unstable();
    Ok(placed)
}

// Literals in the order of their leaves, joined: those below the left child of the lowest vtree node over all of them,
// those below its right child, and then both.
fn join_placed(
    alloc: Global,
    m: &mut Manager,
    c: &mut Cache,
    operation: Operation,
    placed: &[(u32, i32)],
) -> Result<NodeId, TakeError>
    requires placed { ArePlaced (leaves (plain_tree m.old.vtree)) placed.now }
    requires serves { Serves c.old m.old }
    ensures ok { IfOk result (λ node. HasAnswer m.new
        (λ assignment. joined operation (λ e. literal_holds assignment (literal_of_place e)) placed.now)
        node) }
    ensures kept { Extends m.old m.new }
    ensures serves { Serves c.new m.new }
    ensures rule { IfErr result (λ e. KeepsRule m.new e) }
    ensures table { IsTable m.new }
{
    let count = placed.len();
    if count == 0 {
        return Ok(m.constant(neutral_value(operation)));
    }
    if count == 1 {
        return Ok(m.literal(placed[0].1));
    }
    let split = parting(m, placed);
    let first = join_placed(alloc, m, c, operation, &placed[..split])?;
    let second = join_placed(alloc, m, c, operation, &placed[split..])?;
    connect(alloc, m, c, operation, first, second)
}

// How many literals stand below the left child of the lowest vtree node over all of them, and half of them where all
// are of one leaf.
pub(crate) fn parting(m: &Manager, placed: &[(u32, i32)]) -> usize
    requires literals { ArePlaced (leaves (plain_tree m.now.vtree)) placed.now }
    requires several { 2 ≤ length placed.now }
    ensures at_least_one { 1 ≤ result }
    ensures not_all { result < length placed.now }
{
    let count = placed.len();
    let (first, last) = (placed[0], placed[count - 1]);
    if first.0 == last.0 {
        return count / 2;
    }
    let vtree = m.vtree();
    let one = vtree.leaf(first.1.unsigned_abs());
    let other = vtree.leaf(last.1.unsigned_abs());
    let middle = vtree.position(vtree.lca(one, other));
    for index in 1..count {
        if middle <= placed[index].0 {
            return index;
        }
    }
    count / 2
}
