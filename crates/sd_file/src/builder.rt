//! The node of a file: each node that its last one reaches is built of earlier ones.

ghost use Rattle.std.specs.Prelude.{◌≡◌, ◌≤◌, ◌<◌, length, IfOk, IfErr};
ghost use Rattle.std.specs.List.{list_any};
ghost use Rattle.sd_model.specs.Tree.{leaves};
ghost use Rattle.sd_model.specs.Expression.{expression_value};
ghost use Rattle.sd_vtree.specs.Numbered.{plain_tree};
ghost use Rattle.sd_manager.specs.Valid.{IsTable};
ghost use Rattle.sd_manager.specs.Making.{Extends, KeepsRule};
ghost use Rattle.sd_apply.specs.Answers.{HasAnswer};
ghost use Rattle.sd_apply.specs.Serving.{Serves};
ghost use Rattle.sd_file.specs.Built.{AreBuilt, AreChildrenBuilt, AreReached, HasMarked};
ghost use Rattle.sd_file.specs.Built.{value_at, pair_value};
ghost use Rattle.sd_file.specs.Files.{entry_pairs, IsFile};
ghost use Rattle.sd_file.specs.Reads.{expression_of_file};

use crate::file::{FileNode, SddFile};
use sd_apply::{and, or};
use sd_cache::Cache;
use sd_manager::{Manager, NodeId};
use sd_runs::TakeError;
use std::alloc::{AllocError, Global};

/// The node with the value of a file, which need not be a partition, compressed or trimmed. It refuses as
/// `sd_apply::and`.
pub fn build(
    alloc: Global,
    m: &mut Manager,
    c: &mut Cache,
    file: &SddFile,
) -> Result<NodeId, TakeError>
    requires variables { leaves (plain_tree m.old.vtree) ≡ file.now.variables }
    requires serves { Serves c.old m.old }
    ensures ok { IfOk result
        (λ node. HasAnswer m.new (expression_value (expression_of_file file.now)) node) }
    ensures kept { Extends m.old m.new }
    ensures serves { Serves c.new m.new }
    ensures rule { IfErr result (λ e. KeepsRule m.new e) }
    ensures table { IsTable m.new }
{
    let _ = m.vtree();
    let reached = reached_nodes(alloc, file)?;
    let built = build_nodes(alloc, m, c, file, &reached)?;
    Ok(built[built.len() - 1])
}

/// A mark for each node of a file: whether the last one reaches it.
fn reached_nodes(alloc: Global, file: &SddFile) -> Result<Vec<bool>, AllocError>
    ensures { IfOk result (λ reached. AreReached file.now 0 reached.items) }
{
    let count = file.nodes();
    let mut reached = vec![in alloc; false; count as usize]?;
    reached[count as usize - 1] = true;
    for index in (0..count).rev() {
        if reached[index as usize] {
            mark_children(file, index, &mut reached);
        }
    }
    Ok(reached)
}

/// Marks the primes and subs of a node.
fn mark_children(file: &SddFile, index: u32, marks: &mut [bool])
    requires index { index < length file.now.nodes }
    requires size { length marks.old ≡ length file.now.nodes }
    ensures { HasMarked file.now index (length (entry_pairs file.now index)) marks.old marks.new }
{
    for element in 0..file.pair_count(index) {
        let (prime, sub) = file.pair(index, element);
        marks[prime as usize] = true;
        marks[sub as usize] = true;
    }
}

/// The nodes of the marked nodes of a file, in order; at the others stands some node.
fn build_nodes(
    alloc: Global,
    m: &mut Manager,
    c: &mut Cache,
    file: &SddFile,
    reached: &[bool],
) -> Result<Vec<NodeId>, TakeError>
    requires variables { leaves (plain_tree m.old.vtree) ≡ file.now.variables }
    requires reached { AreReached file.now 0 reached.now }
    requires serves { Serves c.old m.old }
    ensures ok { IfOk result (λ built. AreBuilt m.new file.now reached.now built.items) }
    ensures all { IfOk result (λ built. length built.items ≡ length file.now.nodes) }
    ensures file { IsFile file.now }
    ensures kept { Extends m.old m.new }
    ensures serves { Serves c.new m.new }
    ensures rule { IfErr result (λ e. KeepsRule m.new e) }
    ensures table { IsTable m.new }
{
    let unused = m.constant(false);
    let count = file.nodes();
    let mut built = Vec::with_capacity(alloc, count as usize)?;
    for index in 0..count {
        if reached[index as usize] {
            let node = node_of(alloc, m, c, file, index, &built)?;
            built.push(node)?;
        } else {
            built.push(unused)?;
        }
    }
    Ok(built)
}

/// The node of a file's node, of which the primes and subs are built.
fn node_of(
    alloc: Global,
    m: &mut Manager,
    c: &mut Cache,
    file: &SddFile,
    index: u32,
    built: &[NodeId],
) -> Result<NodeId, TakeError>
    requires variables { leaves (plain_tree m.old.vtree) ≡ file.now.variables }
    requires file { IsFile file.now }
    requires index { index < length file.now.nodes }
    requires built { AreChildrenBuilt m.old file.now index built.now }
    requires all { length built.now ≡ index }
    requires serves { Serves c.old m.old }
    ensures ok { IfOk result (λ node. HasAnswer m.new (value_at file.now index) node) }
    ensures kept { Extends m.old m.new }
    ensures serves { Serves c.new m.new }
    ensures rule { IfErr result (λ e. KeepsRule m.new e) }
    ensures table { IsTable m.new }
{
    match file.node(index) {
        FileNode::Constant(value) => Ok(m.constant(value)),
        FileNode::Literal { literal, .. } => Ok(m.literal(literal)),
        FileNode::Decomposition { count, .. } => join(alloc, m, c, file, index, count, built),
    }
}

/// The disjunction of the pairs of a file's node, each the conjunction of its prime and its sub.
fn join(
    alloc: Global,
    m: &mut Manager,
    c: &mut Cache,
    file: &SddFile,
    index: u32,
    count: u32,
    built: &[NodeId],
) -> Result<NodeId, TakeError>
    requires index { index < length file.now.nodes }
    requires count { count ≡ length (entry_pairs file.now index) }
    requires built { AreChildrenBuilt m.old file.now index built.now }
    requires all { length built.now ≡ index }
    requires serves { Serves c.old m.old }
    ensures ok { IfOk result (λ node.
        HasAnswer m.new (λ assignment. list_any (pair_value file.now assignment)
        (entry_pairs file.now index)) node) }
    ensures kept { Extends m.old m.new }
    ensures serves { Serves c.new m.new }
    ensures rule { IfErr result (λ e. KeepsRule m.new e) }
    ensures table { IsTable m.new }
{
    let mut node = m.constant(false);
    for element in 0..count {
        let (prime, sub) = file.pair(index, element);
        let product = and(alloc, m, c, built[prime as usize], built[sub as usize])?;
        node = or(alloc, m, c, node, product)?;
    }
    Ok(node)
}
