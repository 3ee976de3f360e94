//! The value of a root by one visit of each node: what was found for a node is kept.

ghost use Rattle.std.specs.Prelude.{◌≡◌, ◌⊎◌, ◌<◌, ◌≤◌, ◌^◌, ℕ, Bool, length, None, Some, IfOk, OnOk, slice_index_or};
ghost use Rattle.sd_model.specs.Tree.{leaves};
ghost use Rattle.sd_model.specs.Diagram.{Diagram, Elements, Decomposition, meaning};
ghost use Rattle.sd_vtree.specs.Numbered.{plain_tree};
ghost use Rattle.sd_laws.specs.Depth.{depth};
ghost use Rattle.sd_manager.specs.Shown.{ShowsCanonical, HoldsDiagram};
ghost use Rattle.sd_manager.specs.Valid.{IsTable};
ghost use Rattle.sd_manager.specs.Views.{pairs_at};
ghost use Rattle.sd_manager.specs.Values.{AreValues};

use crate::manager::Manager;
use crate::node_id::NodeId;
use crate::roots::Root;
use crate::view::{View, literal_value};
use std::alloc::{AllocError, Global};

/// The value of a root under an assignment, which has one truth value for each variable. It is `value` of a manager
/// with memory: each node below the root is visited once, where `value` may visit a prime on each way that leads to it.
/// The only error: out of memory.
pub fn value_of(
    alloc: Global,
    m: &Manager,
    root: &Root,
    assignment: &[bool],
) -> Result<bool, AllocError>
    requires held { (d : Diagram) × HoldsDiagram m.now root.now d }
    requires values { length assignment.now ≡ leaves (plain_tree m.now.vtree) }
    ensures value { IfOk result (λ v. (d : Diagram) → HoldsDiagram m.now root.now d
        → v ≡ meaning d assignment.now) }
    ensures table { IsTable m.now }
{
    let mut values = Vec::new(alloc);
    value_at(
        m,
        m.node_of(root),
        assignment,
        m.vtree().variables(),
        &mut values,
    )
}

// The value of a node that shows a diagram of at most so many levels of decompositions.
#[cycle(value)]
fn value_at(
    m: &Manager,
    node: NodeId,
    assignment: &[bool],
    levels: u32,
    values: &mut Vec<Option<bool>>,
) -> Result<bool, AllocError>
    requires table { IsTable m.now }
    requires shown { (d : Diagram) × ShowsCanonical m.now node d × (depth d ≤ levels) }
    requires assigned { length assignment.now ≡ leaves (plain_tree m.now.vtree) }
    requires right { AreValues m.now assignment.now values.old.items }
    ensures value { IfOk result (λ v. (d : Diagram) → ShowsCanonical m.now node d
        → v ≡ meaning d assignment.now) }
    ensures right { AreValues m.now assignment.now values.new.items }
{
    let count = match m.view(node) {
        View::Constant(value) => return Ok(value),
        View::Literal(literal) => return Ok(literal_value(literal, assignment)),
        View::Decomposition { count, .. } => count,
    };
    if let Some(value) = value_in(values, node) {
        return Ok(value);
    }
    let value = value_of_sub(m, node, count, assignment, levels, values)?;
    keep_value(values, node, value)?;
    Ok(value)
}

// The value of the sub whose prime is true.
#[cycle(value)]
fn value_of_sub(
    m: &Manager,
    node: NodeId,
    count: u32,
    assignment: &[bool],
    levels: u32,
    values: &mut Vec<Option<bool>>,
) -> Result<bool, AllocError>
    requires table { IsTable m.now }
    requires count { length (pairs_at m.now node) ≡ count }
    requires shown { (p : ℕ) × (es : Elements) × ShowsCanonical m.now node (Decomposition p es)
        × (depth (Decomposition p es) ≤ levels) }
    requires assigned { length assignment.now ≡ leaves (plain_tree m.now.vtree) }
    requires right { AreValues m.now assignment.now values.old.items }
    ensures value { IfOk result (λ v. (p : ℕ) (es : Elements)
        → ShowsCanonical m.now node (Decomposition p es)
        → v ≡ meaning (Decomposition p es) assignment.now) }
    ensures right { AreValues m.now assignment.now values.new.items }
{
    for index in 0..count {
        let (prime, sub) = m.element(node, index);
        if value_at(m, prime, assignment, levels - 1, values)? {
            return value_at(m, sub, assignment, levels - 1, values);
        }
    }
    Ok(false)
}

// The value that is kept for a node.
fn value_in(values: &[Option<bool>], node: NodeId) -> Option<bool>
    ensures { result ≡ slice_index_or values.now node None }
{
    let index = node.0 as usize;
    if index < values.len() {
        values[index]
    } else {
        None
    }
}

// Keeps a value for a node.
fn keep_value(values: &mut Vec<Option<bool>>, node: NodeId, value: bool) -> Result<(), AllocError>
    ensures { (k : ℕ) (b : Bool) → slice_index_or values.new.items k None ≡ Some b
        → ((k ≡ node) × (b ≡ value)) ⊎ (slice_index_or values.old.items k None ≡ Some b) }
{
    let index = node.0 as usize;
    ensure_index(values, index)?;
    values[index] = Some(value);
    Ok(())
}

// Makes the values reach an index.
fn ensure_index(values: &mut Vec<Option<bool>>, index: usize) -> Result<(), AllocError>
    requires { index < 2 ^ 32 }
    ensures same { (k : ℕ)
        → slice_index_or values.new.items k None ≡ slice_index_or values.old.items k None }
    ensures long { OnOk result (index < length values.new.items) }
{
    if index >= values.len() {
        values.resize(index + 1, None)?;
    }
    Ok(())
}
