//! Sweeps that keep the nodes of gates which outputs still need.
//!
//! A sweep of the manager takes away what no root needs, and with it the nodes of gates that later outputs share. So
//! the gates that they need are marked first, and their nodes are held by roots until the manager was swept.

ghost use Rattle.std.specs.Prelude.{◌≡◌, ℕ, ◌+◌, ◌*◌, ◌-◌, ◌^◌, ◌<◌, ◌≤◌, List, [], length, Some, None};
ghost use Rattle.std.specs.Prelude.{IfOk, OnOk, OnErr, slice_index_or};
ghost use Rattle.std.specs.Ordering.{nat_cmp};
ghost use Rattle.std.specs.FinMap.{FinMap, len};
ghost use Rattle.sd_manager.specs.Valid.{IsTable};
ghost use Rattle.sd_manager.specs.Shown.{IsNodeOf};
ghost use Rattle.sd_manager.specs.Marking.{AreUnmarked};
ghost use Rattle.sd_apply.specs.Serving.{Serves};
ghost use Rattle.sd_sweep.specs.Falling.{NeverFalls};
ghost use Rattle.sd_compile.specs.Compiling.{KeepsAll};
ghost use Rattle.sd_circuit.specs.Circuits.{IsWireWithin};
ghost use Rattle.sd_gates.specs.Making.{AreCurrent};
ghost use Rattle.sd_gates.specs.Holding.{AddsRoots, HoldsMore, HoldsOneMore, AreHeldNodes, DropsEntries};

use crate::sharing::GateNodes;
use sd_cache::Cache;
use sd_circuit::{Circuit, Wire};
use sd_compile::{Pace, sweep_past};
use sd_manager::{Manager, NodeId, Root};
use std::alloc::{AllocError, Global};

/// Whose nodes the sweeps inside an output keep, and when the next one comes.
#[derive(Clone, Copy)]
pub(crate) struct Sweeps {
    /// The output that is made.
    pub(crate) index: u32,
    /// Whether the next sweep keeps what this output needs alone, and not what later ones need too.
    pub(crate) alone: bool,
    pub(crate) pace: Pace,
}

/// Takes nodes away that no root and no loose run needs, but not those of gates that the output in hand, and later ones
/// too unless it is alone, are made of next. Which nodes are taken away, and what the pace allows then, is chosen for
/// speed and stands in no clause. The only error: out of memory, and then nothing is swept.
pub(crate) fn sweep_inside_output(
    alloc: Global,
    m: &mut Manager,
    c: &mut Cache,
    circuit: &Circuit,
    gates: &mut GateNodes,
    sweeps: &mut Sweeps,
) -> Result<(), AllocError>
    requires no_move { m.old.moving ≡ None }
    requires unmarked { AreUnmarked m.old }
    requires serves { Serves c.old m.old }
    requires ready { AreCurrent circuit.now gates.old m.old }
    requires room { len m.old.roots < 2 ^ 31 }
    ensures fewer { DropsEntries gates.old.nodes.items gates.new.nodes.items }
    ensures kept { KeepsAll m.old m.new }
    ensures never_falls { NeverFalls m.old m.new }
    ensures ready { AreCurrent circuit.now gates.new m.new }
    ensures serves { Serves c.new m.new }
    ensures unmarked { AreUnmarked m.new }
    ensures table { IsTable m.new }
{
    let _ = m.vtree();
    let from = sweeps.index;
    let to = if sweeps.alone {
        from.saturating_add(1)
    } else {
        u32::MAX
    };
    let wanted = wanted_gates(alloc, circuit, gates, from, to)?;
    gates.retain(&wanted);
    sweep_others(alloc, m, c, circuit, gates, &mut sweeps.pace)
}

// Sweeps while each node of a gate is held by a root of its own, so that these nodes stay what they are.
fn sweep_others(
    alloc: Global,
    m: &mut Manager,
    c: &mut Cache,
    circuit: &Circuit,
    gates: &mut GateNodes,
    pace: &mut Pace,
) -> Result<(), AllocError>
    requires no_move { m.old.moving ≡ None }
    requires unmarked { AreUnmarked m.old }
    requires serves { Serves c.old m.old }
    requires ready { AreCurrent circuit.now gates.old m.old }
    requires room { len m.old.roots < 2 ^ 31 }
    ensures nodes { gates.new.nodes.items ≡ gates.old.nodes.items }
    ensures kept { KeepsAll m.old m.new }
    ensures never_falls { NeverFalls m.old m.new }
    ensures ready { AreCurrent circuit.now gates.new m.new }
    ensures serves { Serves c.new m.new }
    ensures unmarked { AreUnmarked m.new }
    ensures table { IsTable m.new }
{
    let _ = m.vtree();
    // there are at most 2,000,000 gates
    let _ = circuit.gates();
    let mut held = Vec::new(alloc);
    match hold_all(m, gates.nodes.as_slice(), &mut held) {
        Ok(()) => {
            // within no limit: so it sweeps whatever the pace allows
            sweep_past(m, c, pace, 0);
            release_all(m, &mut held);
            gates.renew(m.epoch());
            Ok(())
        }
        Err(error) => {
            release_all(m, &mut held);
            Err(error)
        }
    }
}

// Holds each of these nodes by a root of its own. The roots come behind those that were held before; so they do at an
// error.
fn hold_all(
    m: &mut Manager,
    nodes: &[Option<NodeId>],
    held: &mut Vec<Root>,
) -> Result<(), AllocError>
    requires no_move { m.old.moving ≡ None }
    requires shown { (i node : ℕ) → slice_index_or nodes.now i None ≡ Some node → IsNodeOf m.old node }
    requires room { len m.old.roots + length nodes.now < 2 ^ 32 - 1 }
    requires none { held.old.items ≡ [] }
    ensures held { OnOk result (AreHeldNodes m.new nodes.now) }
    ensures more { HoldsMore m.old m.new held.new.items }
    ensures table { IsTable m.new }
{
    let _ = m.vtree();
    'holding: for index in 0..nodes.len() {
        if let Some(node) = nodes[index] {
            hold_one(m, node, held)?;
        }
    }
    Ok(())
}

// Holds a node by a new root.
fn hold_one(m: &mut Manager, node: NodeId, held: &mut Vec<Root>) -> Result<(), AllocError>
    requires no_move { m.old.moving ≡ None }
    requires shown { IsNodeOf m.old node }
    requires room { len m.old.roots < 2 ^ 32 - 1 }
    ensures ok { OnOk result (HoldsOneMore m.old m.new held.old.items held.new.items node) }
    ensures err { OnErr result (m.new ≡ m.old) }
    ensures unchanged { OnErr result (held.new.items ≡ held.old.items) }
    ensures table { IsTable m.new }
{
    let root = m.hold(node)?;
    match held.push(root) {
        Ok(()) => Ok(()),
        Err(refused) => {
            m.release(refused.value);
            Err(AllocError)
        }
    }
}

// Releases roots that were added to others, the last one first.
fn release_all(m: &mut Manager, held: &mut Vec<Root>)
    requires no_move { m.old.moving ≡ None }
    requires added { (before : FinMap nat_cmp ℕ) × AddsRoots before m.old.roots held.old.items }
    ensures back { (before : FinMap nat_cmp ℕ) → AddsRoots before m.old.roots held.old.items
        → m.new ≡ record m.old { roots = before } }
    ensures table { IsTable m.new }
{
    let _ = m.vtree();
    'releasing: while let Some(root) = held.pop() {
        m.release(root);
    }
}

// Which gates' nodes the outputs from `from` on and before `to` are made of next: those that are met first on the ways
// down from the outputs.
fn wanted_gates(
    alloc: Global,
    circuit: &Circuit,
    gates: &GateNodes,
    from: u32,
    to: u32,
) -> Result<Vec<bool>, AllocError>
    requires size { length gates.now.nodes.items ≡ 2 * length circuit.now.order }
    ensures size { IfOk result (λ wanted. length wanted.items ≡ length circuit.now.order) }
{
    let mut wanted = vec![in alloc; false; circuit.gates() as usize]?;
    want_outputs(circuit, &mut wanted, from, to);
    want_sides(circuit, gates, &mut wanted);
    Ok(wanted)
}

// Marks the gates that are outputs from `from` on and before `to`.
fn want_outputs(circuit: &Circuit, wanted: &mut Vec<bool>, from: u32, to: u32)
    requires size { length wanted.old.items ≡ length circuit.now.order }
    ensures size { length wanted.new.items ≡ length wanted.old.items }
{
    let end = to.min(circuit.outputs());
    'outputs: for index in from..end {
        want(wanted, circuit.output(index));
    }
}

// Marks the sides of each marked gate that has no node, from the last gate to the first one.
fn want_sides(circuit: &Circuit, gates: &GateNodes, wanted: &mut Vec<bool>)
    requires size { length wanted.old.items ≡ length circuit.now.order }
    requires nodes { length gates.now.nodes.items ≡ 2 * length circuit.now.order }
    ensures size { length wanted.new.items ≡ length wanted.old.items }
{
    let count = circuit.gates();
    'sides: for before in 0..count {
        let gate = count - 1 - before;
        if wanted[gate as usize] && !gates.is_known(gate) {
            let sides = circuit.gate(gate);
            want(wanted, sides.0);
            want(wanted, sides.1);
        }
    }
}

// Marks a wire, where it is a gate.
fn want(wanted: &mut Vec<bool>, wire: Wire)
    ensures size { length wanted.new.items ≡ length wanted.old.items }
{
    if let Wire::Gate { index, .. } = wire {
        let gate = index as usize;
        if gate < wanted.len() {
            wanted[gate] = true;
        }
    }
}
