//! An output as a node.

ghost use Rattle.std.specs.Prelude.{◌≡◌, ◌≢◌, ℕ, ◌*◌, ◌^◌, ◌<◌, ◌≤◌, List, Bool, false, length, Some, None};
ghost use Rattle.std.specs.Prelude.{IfOk, IfErr, OnOk, IfSome, IfNone, ◌&&◌, ◌||◌, slice_index_or};
ghost use Rattle.std.specs.Option.{IsSome};
ghost use Rattle.std.specs.FinMap.{len};
ghost use Rattle.sd_model.specs.Tree.{leaves};
ghost use Rattle.sd_model.specs.Circuit.{circuit_output};
ghost use Rattle.sd_vtree.specs.Numbered.{plain_tree};
ghost use Rattle.sd_manager.specs.Literals.{literal_of};
ghost use Rattle.sd_manager.specs.Shown.{IsNodeOf};
ghost use Rattle.sd_manager.specs.Valid.{IsTable};
ghost use Rattle.sd_manager.specs.Making.{Extends, KeepsRule};
ghost use Rattle.sd_manager.specs.Marking.{AreUnmarked};
ghost use Rattle.sd_apply.specs.Answers.{HasAnswer};
ghost use Rattle.sd_apply.specs.Serving.{Serves};
ghost use Rattle.sd_sweep.specs.Falling.{NeverFalls};
ghost use Rattle.sd_compile.specs.Compiling.{KeepsAll};
ghost use Rattle.sd_circuit.specs.Circuits.{OrderedCircuit, IsWireWithin, gate_values, signed_value};
ghost use Rattle.sd_gates.specs.Sharing.{Shares, wire_function};
ghost use Rattle.sd_gates.specs.Making.{AreCurrent, IsKnown, IsDescent, current, work_left, blanks, either_at};
ghost use Rattle.sd_gates.specs.Making.{StaysOrRises, HasSignedAnswer};
ghost use Rattle.sd_gates.specs.Holding.{DropsEntries};

use crate::sharing::{GateNodes, SignedNode};
use crate::sweeping::{Sweeps, sweep_inside_output};
use sd_apply::{and, difference, negate, or};
use sd_cache::Cache;
use sd_circuit::{Circuit, Wire};
use sd_compile::Pace;
use sd_manager::{Manager, NodeId};
use sd_runs::TakeError;
use std::alloc::{AllocError, Global};

/// The node of an output, counted from 0. It is made from the gates that it needs and that have no node yet; their
/// nodes are kept for the next output. Where more elements are in use behind a gate than the pace allows, nodes are
/// taken away that no root and no gate of an output from this one on needs, and the pace allows more. What a sweep
/// takes away, and what the pace allows then, is chosen for speed and stands in no clause. It refuses as
/// `sd_apply::and`, and where a sweep finds no memory.
pub fn output_node(
    alloc: Global,
    m: &mut Manager,
    c: &mut Cache,
    circuit: &Circuit,
    gates: &mut GateNodes,
    index: u32,
    pace: &mut Pace,
) -> Result<NodeId, TakeError>
    requires variables { leaves (plain_tree m.old.vtree) ≡ length circuit.now.text.inputs }
    requires no_move { m.old.moving ≡ None }
    requires unmarked { AreUnmarked m.old }
    requires serves { Serves c.old m.old }
    requires shares { Shares circuit.now gates.old m.old }
    requires room { len m.old.roots < 2 ^ 31 }
    requires index { index < length circuit.now.text.outputs }
    ensures ok { IfOk result
        (λ node. HasAnswer m.new (circuit_output circuit.now.text index) node) }
    ensures kept { KeepsAll m.old m.new }
    ensures never_falls { NeverFalls m.old m.new }
    ensures shares { Shares circuit.now gates.new m.new }
    ensures serves { Serves c.new m.new }
    ensures unmarked { AreUnmarked m.new }
    ensures rule { IfErr result (λ e. KeepsRule m.new e) }
    ensures table { IsTable m.new }
{
    // its contract tells that the table is valid
    let _ = m.vtree();
    if gates.ready(alloc, m, circuit).is_err() {
        return Err(TakeError::OutOfMemory);
    }
    let wire = circuit.output(index);
    let mut sweeps = Sweeps {
        index,
        alone: false,
        pace: *pace,
    };
    let made = make_wire(alloc, m, c, circuit, gates, wire, &mut sweeps);
    *pace = sweeps.pace;
    match made {
        Ok(()) => wire_node(alloc, m, c, circuit, gates, wire),
        Err(error) => Err(error),
    }
}

// Makes the gate that a wire is, where it is one.
fn make_wire(
    alloc: Global,
    m: &mut Manager,
    c: &mut Cache,
    circuit: &Circuit,
    gates: &mut GateNodes,
    wire: Wire,
    sweeps: &mut Sweeps,
) -> Result<(), TakeError>
    requires variables { leaves (plain_tree m.old.vtree) ≡ length circuit.now.text.inputs }
    requires no_move { m.old.moving ≡ None }
    requires unmarked { AreUnmarked m.old }
    requires serves { Serves c.old m.old }
    requires ready { AreCurrent circuit.now gates.old m.old }
    requires room { len m.old.roots < 2 ^ 31 }
    requires within { IsWireWithin circuit.now (length circuit.now.order) wire }
    ensures ok { OnOk result (IsKnown gates.new.nodes.items wire) }
    ensures kept { KeepsAll m.old m.new }
    ensures never_falls { NeverFalls m.old m.new }
    ensures ready { AreCurrent circuit.now gates.new m.new }
    ensures serves { Serves c.new m.new }
    ensures unmarked { AreUnmarked m.new }
    ensures rule { IfErr result (λ e. KeepsRule m.new e) }
    ensures table { IsTable m.new }
{
    match wire {
        Wire::Constant(_) => {
            let _ = m.vtree();
            Ok(())
        }
        Wire::Input { .. } => {
            let _ = m.vtree();
            Ok(())
        }
        Wire::Gate { index, .. } => make_gates(alloc, m, c, circuit, gates, index, sweeps),
    }
}

// Makes a gate, and before it all those without nodes that it needs. It sweeps where there is much garbage.
fn make_gates(
    alloc: Global,
    m: &mut Manager,
    c: &mut Cache,
    circuit: &Circuit,
    gates: &mut GateNodes,
    top: u32,
    sweeps: &mut Sweeps,
) -> Result<(), TakeError>
    requires variables { leaves (plain_tree m.old.vtree) ≡ length circuit.now.text.inputs }
    requires no_move { m.old.moving ≡ None }
    requires unmarked { AreUnmarked m.old }
    requires serves { Serves c.old m.old }
    requires ready { AreCurrent circuit.now gates.old m.old }
    requires room { len m.old.roots < 2 ^ 31 }
    requires top { top < length circuit.now.order }
    ensures ok { OnOk result (IsSome (either_at gates.new.nodes.items top)) }
    ensures kept { KeepsAll m.old m.new }
    ensures never_falls { NeverFalls m.old m.new }
    ensures ready { AreCurrent circuit.now gates.new m.new }
    ensures serves { Serves c.new m.new }
    ensures unmarked { AreUnmarked m.new }
    ensures rule { IfErr result (λ e. KeepsRule m.new e) }
    ensures table { IsTable m.new }
{
    let _ = m.vtree();
    let mut stack = Vec::new(alloc);
    'making: while !gates.is_known(top) {
        match step(alloc, m, c, circuit, gates, &mut stack, top) {
            Ok(()) => {}
            Err(error) => return Err(error),
        }
        match sweep_if_full(alloc, m, c, circuit, gates, sweeps) {
            Ok(()) => {}
            Err(_) => return Err(TakeError::OutOfMemory),
        }
    }
    Ok(())
}

// Sweeps where more elements are in use than may be. Then more may be than before, so that this ends.
fn sweep_if_full(
    alloc: Global,
    m: &mut Manager,
    c: &mut Cache,
    circuit: &Circuit,
    gates: &mut GateNodes,
    sweeps: &mut Sweeps,
) -> Result<(), AllocError>
    requires no_move { m.old.moving ≡ None }
    requires unmarked { AreUnmarked m.old }
    requires serves { Serves c.old m.old }
    requires ready { AreCurrent circuit.now gates.old m.old }
    requires room { len m.old.roots < 2 ^ 31 }
    ensures next { OnOk result (StaysOrRises gates.old.nodes.items gates.new.nodes.items
        sweeps.old.pace.most sweeps.new.pace.most) }
    ensures fewer { DropsEntries gates.old.nodes.items gates.new.nodes.items }
    ensures kept { KeepsAll m.old m.new }
    ensures never_falls { NeverFalls m.old m.new }
    ensures ready { AreCurrent circuit.now gates.new m.new }
    ensures serves { Serves c.new m.new }
    ensures unmarked { AreUnmarked m.new }
    ensures table { IsTable m.new }
{
    let used = m.used();
    let most = sweeps.pace.most;
    if used <= most {
        return Ok(());
    }
    sweep_inside_output(alloc, m, c, circuit, gates, sweeps)?;
    // a sweep that left more than half was of little use
    sweeps.alone = m.used() > used / 2;
    sweeps.pace.wait_for(most + 1);
    Ok(())
}

// One step at the gate on the top of the stack: a gate that it needs comes onto the stack, or it is made.
fn step(
    alloc: Global,
    m: &mut Manager,
    c: &mut Cache,
    circuit: &Circuit,
    gates: &mut GateNodes,
    stack: &mut Vec<u32>,
    top: u32,
) -> Result<(), TakeError>
    requires variables { leaves (plain_tree m.old.vtree) ≡ length circuit.now.text.inputs }
    requires serves { Serves c.old m.old }
    requires ready { AreCurrent circuit.now gates.old m.old }
    requires top { top < length circuit.now.order }
    requires unknown { either_at gates.old.nodes.items top ≡ None }
    requires descent { IsDescent gates.old.nodes.items top stack.old.items }
    ensures descent { OnOk result (IsDescent gates.new.nodes.items top stack.new.items) }
    ensures less { OnOk result (work_left gates.new.nodes.items top stack.new.items
        < work_left gates.old.nodes.items top stack.old.items) }
    ensures kept { Extends m.old m.new }
    ensures ready { AreCurrent circuit.now gates.new m.new }
    ensures serves { Serves c.new m.new }
    ensures rule { IfErr result (λ e. KeepsRule m.new e) }
    ensures table { IsTable m.new }
{
    let _ = m.vtree();
    let gate = current_of(stack, top);
    let sides = circuit.gate(gate);
    match unknown_side(gates, sides) {
        Some(side) => match stack.push(side) {
            Ok(()) => Ok(()),
            Err(_) => Err(TakeError::OutOfMemory),
        },
        None => match make_gate(alloc, m, c, circuit, gates, gate, sides) {
            Ok(()) => {
                let _ = stack.pop();
                Ok(())
            }
            Err(error) => Err(error),
        },
    }
}

// The gate on the top of a stack.
fn current_of(stack: &[u32], top: u32) -> u32
    ensures { result ≡ current top stack.now }
{
    let count = stack.len();
    if count == 0 { top } else { stack[count - 1] }
}

// A side that is a gate without a node, if there is one.
fn unknown_side(gates: &GateNodes, sides: (Wire, Wire)) -> Option<u32>
    requires within { (c : OrderedCircuit) × (count : ℕ) × IsWireWithin c count sides.0 × IsWireWithin c count sides.1
        × (2 * count ≤ length gates.now.nodes.items) }
    ensures some { IfSome result (λ gate. either_at gates.now.nodes.items gate ≡ None) }
    ensures before { (c : OrderedCircuit) (count : ℕ) → IsWireWithin c count sides.0
        → IsWireWithin c count sides.1 → IfSome result (λ gate. gate < count) }
    ensures none { IfNone result (IsKnown gates.now.nodes.items sides.0
        × IsKnown gates.now.nodes.items sides.1) }
{
    match unknown_gate(gates, sides.0) {
        Some(gate) => Some(gate),
        None => unknown_gate(gates, sides.1),
    }
}

// The gate that a wire is, where it is one without a node.
fn unknown_gate(gates: &GateNodes, wire: Wire) -> Option<u32>
    requires within { (c : OrderedCircuit) × (count : ℕ) × IsWireWithin c count wire
        × (2 * count ≤ length gates.now.nodes.items) }
    ensures some { IfSome result (λ gate. either_at gates.now.nodes.items gate ≡ None) }
    ensures before { (c : OrderedCircuit) (count : ℕ) → IsWireWithin c count wire
        → IfSome result (λ gate. gate < count) }
    ensures none { IfNone result (IsKnown gates.now.nodes.items wire) }
{
    match wire {
        Wire::Constant(_) => None,
        Wire::Input { .. } => None,
        Wire::Gate { index, .. } => {
            if gates.is_known(index) {
                None
            } else {
                Some(index)
            }
        }
    }
}

// Makes a gate whose sides have nodes. Where both are negative it is its negation that has one.
fn make_gate(
    alloc: Global,
    m: &mut Manager,
    c: &mut Cache,
    circuit: &Circuit,
    gates: &mut GateNodes,
    gate: u32,
    sides: (Wire, Wire),
) -> Result<(), TakeError>
    requires variables { leaves (plain_tree m.old.vtree) ≡ length circuit.now.text.inputs }
    requires serves { Serves c.old m.old }
    requires ready { AreCurrent circuit.now gates.old m.old }
    requires gate { gate < length circuit.now.order }
    requires first { IsWireWithin circuit.now (length circuit.now.order) sides.0 }
    requires second { IsWireWithin circuit.now (length circuit.now.order) sides.1 }
    requires first_known { IsKnown gates.old.nodes.items sides.0 }
    requires second_known { IsKnown gates.old.nodes.items sides.1 }
    requires value { (a : List Bool) → slice_index_or (gate_values circuit.now a) gate false
        ≡ (wire_function circuit.now sides.0 a && wire_function circuit.now sides.1 a) }
    requires unknown { either_at gates.old.nodes.items gate ≡ None }
    ensures known { OnOk result (IsSome (either_at gates.new.nodes.items gate)) }
    ensures others { OnOk result ((other : ℕ) → other ≢ gate
        → either_at gates.new.nodes.items other ≡ either_at gates.old.nodes.items other) }
    ensures fewer { OnOk result (blanks gates.new.nodes.items < blanks gates.old.nodes.items) }
    ensures kept { Extends m.old m.new }
    ensures ready { AreCurrent circuit.now gates.new m.new }
    ensures serves { Serves c.new m.new }
    ensures rule { IfErr result (λ e. KeepsRule m.new e) }
    ensures table { IsTable m.new }
{
    let first = signed_node(m, circuit, gates, sides.0);
    let second = signed_node(m, circuit, gates, sides.1);
    let node = conjunction(alloc, m, c, first, second)?;
    gates.put(gate, first.positive || second.positive, node);
    Ok(())
}

// The node of the conjunction of two signed nodes, or of its negation where both are negative. No node is negated for
// its sign.
fn conjunction(
    alloc: Global,
    m: &mut Manager,
    c: &mut Cache,
    first: SignedNode,
    second: SignedNode,
) -> Result<NodeId, TakeError>
    requires first { IsNodeOf m.old first.node }
    requires second { IsNodeOf m.old second.node }
    requires serves { Serves c.old m.old }
    ensures ok { IfOk result (λ r. (f g : List Bool → Bool) → HasSignedAnswer m.old f first
        → HasSignedAnswer m.old g second
        → HasAnswer m.new (λ a. signed_value (first.positive || second.positive) (f a && g a)) r) }
    ensures kept { Extends m.old m.new }
    ensures serves { Serves c.new m.new }
    ensures rule { IfErr result (λ e. KeepsRule m.new e) }
    ensures table { IsTable m.new }
{
    match (first.positive, second.positive) {
        (true, true) => and(alloc, m, c, first.node, second.node),
        (true, false) => difference(alloc, m, c, first.node, second.node),
        (false, true) => difference(alloc, m, c, second.node, first.node),
        (false, false) => or(alloc, m, c, first.node, second.node),
    }
}

// The node of a wire or of its negation: of a constant, an input or a gate that has one.
fn signed_node(m: &Manager, circuit: &Circuit, gates: &GateNodes, wire: Wire) -> SignedNode
    requires variables { leaves (plain_tree m.now.vtree) ≡ length circuit.now.text.inputs }
    requires ready { AreCurrent circuit.now gates.now m.now }
    requires within { IsWireWithin circuit.now (length circuit.now.order) wire }
    requires known { IsKnown gates.now.nodes.items wire }
    ensures { HasSignedAnswer m.now (wire_function circuit.now wire) result }
{
    // there are at most 1,024 inputs
    let _ = circuit.inputs();
    match wire {
        Wire::Constant(value) => SignedNode {
            node: m.constant(value),
            positive: true,
        },
        Wire::Input { variable, positive } => SignedNode {
            node: m.literal(literal_number(variable, positive)),
            positive: true,
        },
        Wire::Gate { index, positive } => gates.signed(index, positive),
    }
}

// The node of a wire: of a constant, an input or a gate that has one. Where only its negation has one, it is made and
// kept.
fn wire_node(
    alloc: Global,
    m: &mut Manager,
    c: &mut Cache,
    circuit: &Circuit,
    gates: &mut GateNodes,
    wire: Wire,
) -> Result<NodeId, TakeError>
    requires variables { leaves (plain_tree m.old.vtree) ≡ length circuit.now.text.inputs }
    requires serves { Serves c.old m.old }
    requires ready { AreCurrent circuit.now gates.old m.old }
    requires within { IsWireWithin circuit.now (length circuit.now.order) wire }
    requires known { IsKnown gates.old.nodes.items wire }
    ensures ok { IfOk result (λ node. HasAnswer m.new (wire_function circuit.now wire) node) }
    ensures kept { Extends m.old m.new }
    ensures ready { AreCurrent circuit.now gates.new m.new }
    ensures serves { Serves c.new m.new }
    ensures rule { IfErr result (λ e. KeepsRule m.new e) }
    ensures table { IsTable m.new }
{
    // its contract tells that the table is valid
    let _ = m.vtree();
    let found = signed_node(m, circuit, gates, wire);
    if found.positive {
        return Ok(found.node);
    }
    let node = negate(alloc, m, c, found.node)?;
    gates.keep(wire, node);
    Ok(node)
}

// The literal of a variable, as DIMACS has it.
fn literal_number(variable: u32, positive: bool) -> i32
    requires some { 1 ≤ variable }
    requires few { variable ≤ 1024 }
    ensures { result ≡ literal_of variable positive }
{
    if positive {
        variable as i32
    } else {
        -(variable as i32)
    }
}
