//! The circuit of a run, whose outputs share the nodes of its gates.
ghost use Rattle.std.specs.Prelude.{◌≡◌, ◌<◌, ◌^◌, length, None, IfOk, IfErr};
ghost use Rattle.std.specs.FinMap.{len};
ghost use Rattle.sd_model.specs.Tree.{leaves};
ghost use Rattle.sd_model.specs.Circuit.{circuit_output};
ghost use Rattle.sd_vtree.specs.Numbered.{plain_tree};
ghost use Rattle.sd_manager.specs.Valid.{IsTable};
ghost use Rattle.sd_manager.specs.Making.{KeepsRule};
ghost use Rattle.sd_manager.specs.Marking.{AreUnmarked};
ghost use Rattle.sd_apply.specs.Answers.{HasAnswer};
ghost use Rattle.sd_apply.specs.Serving.{Serves};
ghost use Rattle.sd_compile.specs.Compiling.{KeepsAll};
ghost use Rattle.sd_gates.specs.Sharing.{Shares};
ghost use Rattle.sd_commands.specs.Standing.{AreForgotten, lines_of};

use sd_cache::Cache;
use sd_circuit::Circuit;
use sd_compile::Pace;
use sd_gates::{GateNodes, output_node};
use sd_manager::{Manager, NodeId};
use sd_runs::TakeError;
use std::alloc::Global;

/// The circuit of a run, with the nodes of its gates. A run without a circuit has one without lines.
#[derive(Drop)]
pub(crate) struct SharedCircuit {
    circuit: Circuit,
    // the nodes of gates, which outputs take
    gates: GateNodes,
}

impl SharedCircuit {
    /// A circuit, if there is one. No gate has a node. It takes no memory.
    pub(crate) fn new(alloc: Global, circuit: Option<Circuit>) -> SharedCircuit
        ensures lines { result.circuit.text ≡ lines_of circuit }
        ensures forgotten { AreForgotten result }
    {
        let circuit = match circuit {
            Some(circuit) => circuit,
            None => Circuit::empty(alloc),
        };
        SharedCircuit {
            circuit,
            gates: GateNodes::new(alloc),
        }
    }

    /// Forgets the nodes of the gates: the manager may change so that they are no longer right.
    pub(crate) fn forget(&mut self)
        ensures forgotten { AreForgotten self.new }
        ensures circuit { self.new.circuit ≡ self.old.circuit }
    {
        self.gates.forget();
    }

    /// The node of an output, counted from 0. It refuses as `output_node`.
    pub(crate) fn node(
        &mut self,
        alloc: Global,
        m: &mut Manager,
        c: &mut Cache,
        pace: &mut Pace,
        index: u32,
    ) -> Result<NodeId, TakeError>
        requires variables { leaves (plain_tree m.old.vtree) ≡ length self.old.circuit.text.inputs }
        requires no_move { m.old.moving ≡ None }
        requires unmarked { AreUnmarked m.old }
        requires serves { Serves c.old m.old }
        requires shares { Shares self.old.circuit self.old.gates m.old }
        requires index { index < length self.old.circuit.text.outputs }
        requires room { len m.old.roots < 2 ^ 31 }
        ensures ok { IfOk result (λ node. HasAnswer m.new (circuit_output self.old.circuit.text index) node) }
        ensures circuit { self.new.circuit ≡ self.old.circuit }
        ensures kept { KeepsAll m.old m.new }
        ensures shares { Shares self.new.circuit self.new.gates m.new }
        ensures serves { Serves c.new m.new }
        ensures unmarked { AreUnmarked m.new }
        ensures rule { IfErr result (λ e. KeepsRule m.new e) }
        ensures table { IsTable m.new }
    {
        output_node(alloc, m, c, &self.circuit, &mut self.gates, index, pace)
    }
}
