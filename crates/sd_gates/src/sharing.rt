//! The nodes of gates, by which outputs share them.

ghost use Rattle.std.specs.Prelude.{◌≡◌, ℕ, ◌*◌, ◌<◌, ◌≤◌, length, Some, None, OnOk, OnErr, IsTrue, slice_set, false};
ghost use Rattle.std.specs.Option.{IsSome};
ghost use Rattle.sd_manager.specs.Table.{Table};
ghost use Rattle.sd_apply.specs.Serving.{last_epoch};
ghost use Rattle.sd_circuit.specs.Circuits.{OrderedCircuit, IsWireWithin, signed_value};
ghost use Rattle.sd_gates.specs.Sharing.{Shares, node_at, place_of};
ghost use Rattle.sd_gates.specs.Making.{AreCurrent, either_at, with_wire};
ghost use Rattle.sd_gates.specs.Holding.{DropsEntries};

use sd_circuit::{Circuit, Wire};
use sd_manager::{Manager, NodeId};
use std::alloc::{AllocError, Global};

/// The nodes that outputs made of a circuit's gates. They are right while the manager's epoch stands.
#[derive(Drop)]
pub struct GateNodes {
    // the epoch of the nodes
    pub(crate) epoch: Option<u64>,
    // the node of each gate and, behind it, that of its negation, where they were made: one of them is enough
    pub(crate) nodes: Vec<Option<NodeId>>,
}

/// A node that stands for what it shows, or for its negation where it is negative.
#[derive(Clone, Copy, Drop)]
pub(crate) struct SignedNode {
    pub(crate) node: NodeId,
    pub(crate) positive: bool,
}

impl GateNodes {
    /// No nodes, for any circuit. It takes no memory.
    pub fn new(alloc: Global) -> GateNodes
        ensures { (c : OrderedCircuit) (t : Table) → Shares c result t }
    {
        GateNodes {
            epoch: None,
            nodes: Vec::new(alloc),
        }
    }

    /// Forgets all nodes: for another circuit or another manager, or where the manager may have changed otherwise.
    /// Their memory is kept until the next output.
    pub fn forget(&mut self)
        ensures { (c : OrderedCircuit) (t : Table) → Shares c self.new t }
    {
        self.epoch = None;
    }

    /// Makes room for the nodes of all gates, and forgets those of another epoch.
    pub(crate) fn ready(
        &mut self,
        alloc: Global,
        m: &Manager,
        circuit: &Circuit,
    ) -> Result<(), AllocError>
        requires shares { Shares circuit.now self.old m.now }
        ensures ok { OnOk result (AreCurrent circuit.now self.new m.now) }
        ensures err { OnErr result (Shares circuit.now self.new m.now) }
    {
        let epoch = m.epoch();
        let size = 2 * circuit.gates() as usize;
        if self.is_current(epoch, size) {
            return Ok(());
        }
        self.epoch = None;
        self.nodes = vec![in alloc; None; size]?;
        self.epoch = Some(epoch);
        Ok(())
    }

    // Whether the nodes are of this epoch, which is not the last one, and as many as these.
    fn is_current(&self, epoch: u64, size: usize) -> bool
        ensures epoch { IsTrue result → self.now.epoch ≡ Some epoch }
        ensures not_last { IsTrue result → ¬ (epoch ≡ last_epoch) }
        ensures size { IsTrue result → length self.now.nodes.items ≡ size }
    {
        match self.epoch {
            Some(own) => own == epoch && epoch != u64::MAX && self.nodes.len() == size,
            None => false,
        }
    }

    /// The node of a gate or of its negation, if there is one.
    pub(crate) fn node(&self, gate: u32, positive: bool) -> Option<NodeId>
        requires { place_of gate positive < length self.now.nodes.items }
        ensures { result ≡ node_at self.now.nodes.items gate positive }
    {
        self.nodes[place(gate, positive)]
    }

    /// The node of a gate or of its negation, with the sign that makes it the one that is asked for: a positive one
    /// where there are both.
    pub(crate) fn signed(&self, gate: u32, positive: bool) -> SignedNode
        requires inside { place_of gate false < length self.now.nodes.items }
        requires known { IsSome (either_at self.now.nodes.items gate) }
        ensures { node_at self.now.nodes.items gate (signed_value result.positive positive)
            ≡ Some result.node }
    {
        if let Some(node) = self.node(gate, positive) {
            return SignedNode {
                node,
                positive: true,
            };
        }
        SignedNode {
            node: self.node(gate, !positive).unwrap(),
            positive: false,
        }
    }

    /// Keeps the node of a wire, where that is a gate.
    pub(crate) fn keep(&mut self, wire: Wire, node: NodeId)
        requires within { (c : OrderedCircuit) × (count : ℕ) × IsWireWithin c count wire
            × (2 * count ≤ length self.old.nodes.items) }
        ensures nodes { self.new.nodes.items ≡ with_wire self.old.nodes.items wire node }
        ensures epoch { self.new.epoch ≡ self.old.epoch }
    {
        if let Wire::Gate { index, positive } = wire {
            self.put(index, positive, node);
        }
    }

    /// Keeps the node of a gate or of its negation.
    pub(crate) fn put(&mut self, gate: u32, positive: bool, node: NodeId)
        requires { place_of gate positive < length self.old.nodes.items }
        ensures nodes { self.new.nodes.items
            ≡ slice_set self.old.nodes.items (place_of gate positive) (Some node) }
        ensures epoch { self.new.epoch ≡ self.old.epoch }
    {
        self.nodes[place(gate, positive)] = Some(node);
    }

    /// Drops the nodes of gates that are not wanted, and of their negations.
    pub(crate) fn retain(&mut self, wanted: &[bool])
        requires size { length self.old.nodes.items ≤ 2 * length wanted.now }
        ensures fewer { DropsEntries self.old.nodes.items self.new.nodes.items }
        ensures size { length self.new.nodes.items ≡ length self.old.nodes.items }
        ensures epoch { self.new.epoch ≡ self.old.epoch }
    {
        drop_others(&mut self.nodes, wanted);
    }

    /// Says that the nodes are of this epoch.
    pub(crate) fn renew(&mut self, epoch: u64)
        ensures nodes { self.new.nodes.items ≡ self.old.nodes.items }
        ensures epoch { self.new.epoch ≡ Some epoch }
    {
        self.epoch = Some(epoch);
    }

    /// Whether a gate or its negation has a node.
    pub(crate) fn is_known(&self, gate: u32) -> bool
        requires { place_of gate false < length self.now.nodes.items }
        ensures known { IsTrue result → IsSome (either_at self.now.nodes.items gate) }
        ensures unknown { ¬ (IsTrue result) → either_at self.now.nodes.items gate ≡ None }
    {
        self.node(gate, true).is_some() || self.node(gate, false).is_some()
    }
}

// Drops the entries of gates that are not wanted.
fn drop_others(nodes: &mut Vec<Option<NodeId>>, wanted: &[bool])
    requires size { length nodes.old.items ≤ 2 * length wanted.now }
    ensures fewer { DropsEntries nodes.old.items nodes.new.items }
    ensures size { length nodes.new.items ≡ length nodes.old.items }
{
    let count = nodes.len();
    'dropping: for index in 0..count {
        if !wanted[index / 2] {
            nodes[index] = None;
        }
    }
}

// Where the node of a gate stands, or that of its negation.
fn place(gate: u32, positive: bool) -> usize
    ensures { result ≡ place_of gate positive }
{
    let first = 2 * gate as usize;
    if positive { first } else { first + 1 }
}
