//! What a run holds between two commands.
ghost use Rattle.std.specs.Prelude.{◌≡◌, ℕ, [], ◌∷◌, ◌<◌, ◌≤◌, ◌+◌, ◌-◌, ◌^◌, Some, None, IfSome, IfOk, IfErr};
ghost use Rattle.std.specs.Prelude.{OnOk, OnErr, length};
ghost use Rattle.std.specs.List.{AllByRecursion, AllZip};
ghost use Rattle.std.specs.Option.{IsSome};
ghost use Rattle.std.specs.FinMap.{get};
ghost use Rattle.std.specs.BTreeMap as maps;
ghost use Rattle.std.specs.Ordering.{nat_cmp};
ghost use Rattle.sd_model.specs.Expression.{Expression, OutputOf};
ghost use Rattle.sd_model.specs.Size.{HasSize};
ghost use Rattle.sd_formula.specs.Dimacs.{Groups};
ghost use Rattle.sd_formula.specs.Formulas.{expression_of};
ghost use Rattle.sd_vtree.specs.Numbered.{plain_tree};
ghost use Rattle.sd_manager.specs.Making.{KeepsRule};
ghost use Rattle.sd_starts.specs.Starts.{IsAtRest, HoldsAlone};
ghost use Rattle.sd_commands.specs.Commands.{State, with_name, dropped, formula_named, formulas_of, AreWithin};
ghost use Rattle.sd_commands.specs.Standing.{Represents, HoldsValue, ShowsFormula, ShowsNamed, HasRoot, IsFree};
ghost use Rattle.sd_commands.specs.Standing.{start, root_count, removed, without, IsAsBefore, IsNotSettled};
ghost use Rattle.sd_commands.specs.Standing.{AreForgotten, AreInputs, lines_of};

use crate::error::{CommandError, holding_error};
use crate::gates::SharedCircuit;
use sd_cache::Cache;
use sd_circuit::Circuit;
use sd_compile::laws::{total_is_of_formulas, total_of_formulas};
use sd_compile::{Pace, hold_within, sweep_past, total_over};
use sd_manager::{Manager, NodeId, Root};
use sd_runs::TakeError;
use sd_starts::MOST_ELEMENTS;
use sd_sweep::size_of;
use sd_vtree::Vtree;
use std::alloc::{AllocError, Global};
use std::collections::BTreeMap;

/// What a run holds between two commands: the diagrams of its names, and what the words and scripts set.
#[derive(Drop)]
pub struct RunState {
    /// The nodes of all diagrams, over the vtree as it is now.
    pub manager: Manager,
    /// It serves the manager: what it names is right there.
    pub cache: Cache,
    // a root for each bound name, and no other root is held between two commands
    pub(crate) names: BTreeMap<u32, Root>,
    // the total size, each node once, is at most this after each command that binds a name or moves the vtree
    pub(crate) limit: u32,
    // how far a walk of a search may let the size grow, in percent
    pub(crate) slack: u32,
    // a search follows each group of the input whose number is a multiple of this
    pub(crate) every: Option<u32>,
    // when the next sweep comes
    pub(crate) pace: Pace,
    // the circuit, and the nodes of its gates that serve the manager
    pub(crate) shared: SharedCircuit,
}

impl RunState {
    /// No name is bound. The inputs of the circuit, if there is one, are the variables. The only error: out of memory.
    pub fn new(
        alloc: Global,
        vtree: Vtree,
        limit: u32,
        slack: u32,
        every: Option<u32>,
        circuit: Option<Circuit>,
    ) -> Result<RunState, AllocError>
        requires inputs { AreInputs (lines_of circuit) (plain_tree vtree) }
        ensures represents { IfOk result (λ state. Represents state
            (record (start (plain_tree vtree) limit slack every) { circuit = lines_of circuit })) }
        ensures vtree { IfOk result (λ state. state.manager.vtree ≡ vtree) }
        ensures roots { IfOk result (λ state. root_count state ≡ 0) }
    {
        let manager = Manager::new(alloc, vtree, MOST_ELEMENTS)?;
        let cache = Cache::new(alloc)?;
        Ok(RunState {
            manager,
            cache,
            names: BTreeMap::new(alloc),
            limit,
            slack,
            every,
            pace: Pace::of_operations(),
            shared: SharedCircuit::new(alloc, circuit),
        })
    }

    /// The name 0 is bound to a formula that a manager holds at this root, and that holds nothing else. There is no
    /// circuit. The only error: out of memory.
    pub fn of_root(
        alloc: Global,
        manager: Manager,
        cache: Cache,
        root: Root,
        limit: u32,
        slack: u32,
    ) -> Result<RunState, AllocError>
        requires ready { IsAtRest manager cache }
        requires holds { (f : Groups) × HoldsAlone manager f root }
        ensures represents { (f : Groups) → HoldsAlone manager f root → IfOk result (λ state. Represents state
            (with_name (start (plain_tree manager.vtree) limit slack None) 0 (expression_of f))) }
        ensures vtree { IfOk result (λ state. state.manager.vtree ≡ manager.vtree) }
        ensures roots { IfOk result (λ state. root_count state ≤ 1) }
    {
        let mut names = BTreeMap::new(alloc);
        match names.insert(0, root) {
            Ok(_) => Ok(RunState {
                manager,
                cache,
                names,
                limit,
                slack,
                every: None,
                pace: Pace::of_operations(),
                shared: SharedCircuit::new(alloc, None),
            }),
            Err(_) => Err(AllocError),
        }
    }

    /// The limit of the total size.
    pub fn limit(&self) -> u32
        ensures { result ≡ self.now.limit }
    {
        self.limit
    }

    /// How far a walk of a search may let the size grow, in percent.
    pub fn slack(&self) -> u32
        ensures { result ≡ self.now.slack }
    {
        self.slack
    }

    /// The root of a bound name.
    pub(crate) fn root(&self, name: u32) -> &Root
        requires bound { HasRoot self.now name }
        ensures root { maps.get nat_cmp self.now.names name ≡ Some result.now }
        ensures value { (seen : State) → Represents self.now seen →
            HoldsValue self.now.manager result.now (formula_named seen name) }
    {
        let Some(root) = self.names.get(&name) else {
            unreachable!()
        };
        root
    }

    /// The node of a bound name.
    pub(crate) fn node(&self, name: u32) -> NodeId
        requires represents { (seen : State) × Represents self.now seen }
        requires bound { HasRoot self.now name }
        ensures { (seen : State) → Represents self.now seen →
            ShowsFormula self.now.manager result (formula_named seen name) }
    {
        self.manager.node_of(self.root(name))
    }

    /// The nodes of bound names, in their order.
    pub(crate) fn nodes(&self, alloc: Global, names: &[u32]) -> Result<Vec<NodeId>, AllocError>
        requires represents { (seen : State) × Represents self.now seen }
        requires bound { AllByRecursion (HasRoot self.now) names.now }
        ensures { (seen : State) → Represents self.now seen →
            IfOk result (λ nodes. AllZip (ShowsNamed self.now.manager seen) names.now nodes.items) }
    {
        let mut nodes = Vec::with_capacity(alloc, names.len())?;
        for name in names {
            nodes.push(self.node(*name))?;
        }
        Ok(nodes)
    }

    /// The size of the diagram of a bound name.
    pub(crate) fn size(&mut self, name: u32) -> u32
        requires represents { (seen : State) × Represents self.old seen }
        requires bound { HasRoot self.old name }
        ensures size { (seen : State) → Represents self.old seen →
            HasSize (formula_named seen name ∷ []) seen.tree result }
        ensures same { self.new ≡ self.old }
    {
        let Some(root) = self.names.get(&name) else {
            unreachable!()
        };
        size_of(&mut self.manager, root)
    }

    /// Binds a free name to a node that shows the diagram of a formula, if the total size is then within the limit.
    /// Else all is as before.
    pub(crate) fn bind(&mut self, name: u32, node: NodeId) -> Result<(), CommandError>
        requires represents { (seen : State) × Represents self.old seen }
        requires shown { (f : Expression) × ShowsFormula self.old.manager node f }
        requires free { IsFree self.old name }
        requires room { root_count self.old < 2 ^ 32 - 1 }
        ensures represents { OnOk result ((seen : State) (f : Expression) → Represents self.old seen
            → ShowsFormula self.old.manager node f → Represents self.new (with_name seen name f)) }
        ensures within { OnOk result ((seen : State) (f : Expression) → Represents self.old seen →
            ShowsFormula self.old.manager node f
            → AreWithin (formulas_of (with_name seen name f)) seen.tree seen.limit) }
        ensures refused { (seen : State) (f : Expression) → Represents self.old seen →
            ShowsFormula self.old.manager node f →
            IfErr result (λ e. IsNotSettled (with_name seen name f) e) }
        ensures err { OnErr result (IsAsBefore self.old self.new) }
        ensures vtree { self.new.manager.vtree ≡ self.old.manager.vtree }
        ensures roots { root_count self.new ≤ root_count self.old + 1 }
    {
        match self.bind_unswept(name, node) {
            Ok(()) => {
                self.sweep(0);
                Ok(())
            }
            Err(error) => Err(error),
        }
    }

    /// The same without a sweep.
    pub(crate) fn bind_unswept(&mut self, name: u32, node: NodeId) -> Result<(), CommandError>
        requires represents { (seen : State) × Represents self.old seen }
        requires shown { (f : Expression) × ShowsFormula self.old.manager node f }
        requires free { IsFree self.old name }
        requires room { root_count self.old < 2 ^ 32 - 1 }
        ensures represents { OnOk result ((seen : State) (f : Expression) → Represents self.old seen
            → ShowsFormula self.old.manager node f → Represents self.new (with_name seen name f)) }
        ensures within { OnOk result ((seen : State) (f : Expression) → Represents self.old seen →
            ShowsFormula self.old.manager node f
            → AreWithin (formulas_of (with_name seen name f)) seen.tree seen.limit) }
        ensures refused { (seen : State) (f : Expression) → Represents self.old seen →
            ShowsFormula self.old.manager node f →
            IfErr result (λ e. IsNotSettled (with_name seen name f) e) }
        ensures err { OnErr result (IsAsBefore self.old self.new) }
        ensures vtree { self.new.manager.vtree ≡ self.old.manager.vtree }
        ensures roots { root_count self.new ≤ root_count self.old + 1 }
    {
        total_of_formulas(&self.manager);
        let limit = self.limit;
        let root = match hold_within(&mut self.manager, node, limit) {
            Ok(root) => root,
            Err(error) => return Err(holding_error(error, limit)),
        };
        match self.insert_root(name, root) {
            Ok(()) => Ok(()),
            Err(_) => Err(CommandError::OutOfMemory),
        }
    }

    /// Binds a free name to a root that no other name has, and sweeps where more elements are in use than the limit, or
    /// than both `room` and what the last sweep allows; later sweeps wait for `room` too. The only error: out of
    /// memory, and then the root is released.
    pub(crate) fn name_root(&mut self, name: u32, root: Root, room: u32) -> Result<(), AllocError>
        requires represents { (seen : State) × Represents (without self.old root) seen }
        requires holds { (f : Expression) × HoldsValue self.old.manager root f }
        requires free { IsFree self.old name }
        ensures represents { OnOk result ((seen : State) (f : Expression) →
            Represents (without self.old root) seen → HoldsValue self.old.manager root f
            → Represents self.new (with_name seen name f)) }
        ensures err { OnErr result (IsAsBefore (without self.old root) self.new) }
        ensures vtree { self.new.manager.vtree ≡ self.old.manager.vtree }
        ensures roots { root_count self.new ≤ root_count self.old }
    {
        match self.insert_root(name, root) {
            Ok(()) => {
                self.sweep(room);
                Ok(())
            }
            Err(error) => Err(error),
        }
    }

    // The same without a sweep.
    fn insert_root(&mut self, name: u32, root: Root) -> Result<(), AllocError>
        requires represents { (seen : State) × Represents (without self.old root) seen }
        requires holds { (f : Expression) × HoldsValue self.old.manager root f }
        requires free { IsFree self.old name }
        ensures represents { OnOk result ((seen : State) (f : Expression) →
            Represents (without self.old root) seen → HoldsValue self.old.manager root f
            → Represents self.new (with_name seen name f)) }
        ensures err { OnErr result (IsAsBefore (without self.old root) self.new) }
        ensures vtree { self.new.manager.vtree ≡ self.old.manager.vtree }
        ensures roots { root_count self.new ≤ root_count self.old }
    {
        match self.names.insert(name, root) {
            Ok(_) => Ok(()),
            Err(refused) => {
                let (_, root) = refused.value;
                self.manager.release(root);
                Err(AllocError)
            }
        }
    }

    // Takes garbage away where more elements are in use than the limit, or there is enough of it and more than `room`
    // are in use.
    fn sweep(&mut self, room: u32)
        requires represents { (seen : State) × Represents self.old seen }
        ensures represents { (seen : State) → Represents self.old seen → Represents self.new seen }
        ensures vtree { self.new.manager.vtree ≡ self.old.manager.vtree }
        ensures roots { root_count self.new ≡ root_count self.old }
    {
        self.pace.wait_for(room);
        // its range tells that no epoch is behind the last one
        let _ = self.manager.epoch();
        sweep_past(
            &mut self.manager,
            &mut self.cache,
            &mut self.pace,
            self.limit,
        );
    }

    /// The node of an output of the circuit, counted from 0. All else is as before, also where it is refused. Garbage
    /// is taken away where there is enough of it; which nodes of gates are kept then is chosen for speed.
    pub(crate) fn output(&mut self, alloc: Global, index: u32) -> Result<NodeId, TakeError>
        requires represents { (seen : State) × Represents self.old seen }
        requires index { index < length self.old.shared.circuit.text.outputs }
        requires room { root_count self.old < 2 ^ 31 }
        ensures ok { (seen : State) → Represents self.old seen → IfOk result
            (λ node. ShowsFormula self.new.manager node (OutputOf seen.circuit index)) }
        ensures rule { IfErr result (λ e. KeepsRule self.new.manager e) }
        ensures kept { IsAsBefore self.old self.new }
        ensures names { self.new.names ≡ self.old.names }
        ensures bound { self.new.manager.bound ≡ self.old.manager.bound }
        ensures vtree { self.new.manager.vtree ≡ self.old.manager.vtree }
    {
        self.shared.node(
            alloc,
            &mut self.manager,
            &mut self.cache,
            &mut self.pace,
            index,
        )
    }

    /// Forgets the nodes of the circuit's gates: before a change of the manager after which they may be wrong.
    pub(crate) fn forget_gates(&mut self)
        ensures represents { (seen : State) → Represents self.old seen → Represents self.new seen }
        ensures kept { IsAsBefore self.old self.new }
        ensures forgotten { AreForgotten self.new.shared }
        ensures rest { self.new ≡ record self.old { shared = self.new.shared } }
    {
        self.shared.forget();
    }

    /// Sets the limit, if the total size is within it. Else nothing is changed.
    pub(crate) fn set_limit(&mut self, limit: u32) -> Result<(), CommandError>
        requires represents { (seen : State) × Represents self.old seen }
        ensures within { OnOk result ((seen : State) → Represents self.old seen →
            AreWithin (formulas_of seen) seen.tree limit) }
        ensures ok { OnOk result (self.new ≡ record self.old { limit = limit }) }
        ensures refused { (seen : State) → Represents self.old seen →
            IfErr result (λ e. IsNotSettled (record seen { limit = limit }) e) }
        ensures err { OnErr result (self.new ≡ self.old) }
    {
        total_is_of_formulas(&self.manager);
        if let Some(size) = total_over(&mut self.manager, limit) {
            return Err(CommandError::OverLimit {
                group: None,
                size,
                limit,
            });
        }
        self.limit = limit;
        Ok(())
    }

    /// Frees a bound name, and releases its root.
    pub(crate) fn free(&mut self, name: u32)
        requires represents { (seen : State) × Represents self.old seen }
        ensures represents { (seen : State) → Represents self.old seen
            → Represents self.new (dropped seen name) }
        ensures vtree { self.new.manager.vtree ≡ self.old.manager.vtree }
        ensures roots { root_count self.new ≤ root_count self.old }
    {
        let freed = self.names.remove(&name);
        release_any(&mut self.manager, freed);
    }
}

// Releases a root, if there is one.
fn release_any(manager: &mut Manager, root: Option<Root>)
    requires no_move { manager.old.moving ≡ None }
    requires held { IfSome root (λ r. IsSome (get manager.old.roots r)) }
    ensures { manager.new ≡ record manager.old { roots = removed manager.old.roots root } }
{
    if let Some(root) = root {
        manager.release(root);
    }
}
