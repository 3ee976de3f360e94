//! The commands that bind a name or set the limit.
ghost use Rattle.std.specs.Prelude.{◌≡◌, ◌<◌, ◌≤◌, ◌+◌, ◌-◌, ◌^◌, Some, None, length};
ghost use Rattle.std.specs.Prelude.{IfOk, IfErr, OnErr};
ghost use Rattle.sd_model.specs.Tree.{leaves};
ghost use Rattle.sd_model.specs.Expression.{Expression};
ghost use Rattle.sd_vtree.specs.Numbered.{plain_tree};
ghost use Rattle.sd_formula.specs.Dimacs.{Groups};
ghost use Rattle.sd_manager.specs.Literals.{IsLiteralTo};
ghost use Rattle.sd_commands.specs.Commands.{State, with_name};
ghost use Rattle.sd_commands.specs.Standing.{Represents, ShowsFormula, HasRoot, IsFree, SettlesAt, IsNotSettled};
ghost use Rattle.sd_commands.specs.Standing.{StepsTo, StopsAt, IsAsBefore, IsLeftByInput, IsLeftByGroups, root_count};
ghost use Rattle.sd_commands.specs.Standing.{AreForgotten};

use crate::command::{Effect, RunCommand};
use crate::error::{CommandError, compiling_error, operation_error};
use crate::growth::grow;
use crate::state::RunState;
use sd_apply::negate;
use sd_compile::laws::total_of_formulas;
use sd_compile::{compile, connect};
use sd_cond::{forget, given};
use sd_file::{SddFile, build};
use sd_formula::Formula;
use sd_manager::NodeId;
use sd_model::Operation;
use std::alloc::Global;

// Binds a name to a node that shows the diagram of a formula.
fn bind(state: &mut RunState, name: u32, node: NodeId) -> Result<Option<Effect>, CommandError>
    requires represents { (seen : State) × Represents state.old seen }
    requires shown { (f : Expression) × ShowsFormula state.old.manager node f }
    requires free { IsFree state.old name }
    requires room { root_count state.old < 2 ^ 32 - 1 }
    ensures done { (seen : State) (f : Expression) → Represents state.old seen →
        ShowsFormula state.old.manager node f
        → IfOk result (λ effect. SettlesAt (with_name seen name f) state.new effect) }
    ensures stops { (seen : State) (f : Expression) → Represents state.old seen →
        ShowsFormula state.old.manager node f
        → IfErr result (λ e. IsNotSettled (with_name seen name f) e) }
    ensures err { OnErr result (IsAsBefore state.old state.new) }
    ensures vtree { state.new.manager.vtree ≡ state.old.manager.vtree }
    ensures roots { root_count state.new ≤ root_count state.old + 1 }
{
    match state.bind(name, node) {
        Ok(()) => Ok(None),
        Err(e) => Err(e),
    }
}

/// Binds a name to the input's formula.
pub(crate) fn bind_input(
    alloc: Global,
    input: &Formula,
    state: &mut RunState,
    name: u32,
) -> Result<Option<Effect>, CommandError>
    requires represents { (seen : State) × Represents state.old seen }
    requires variables { leaves (plain_tree state.old.manager.vtree) ≡ input.now.variables }
    requires free { IsFree state.old name }
    requires room { root_count state.old < 2 ^ 32 - 1 }
    ensures done { (seen : State) → Represents state.old seen →
        IfOk result
        (λ effect. StepsTo input.now seen (RunCommand.Input name) state.new effect) }
    ensures stops { (seen : State) → Represents state.old seen →
        IfErr result (λ e. StopsAt input.now seen (RunCommand.Input name) state.new.manager e) }
    ensures err { OnErr result (IsLeftByInput state.old.every input.now state.old state.new) }
    ensures variables { leaves (plain_tree state.new.manager.vtree) ≡ leaves (plain_tree
        state.old.manager.vtree) }
    ensures roots { root_count state.new ≤ root_count state.old + 1 }
{
    // the nodes of gates may be gone behind what compiling sweeps
    state.forget_gates();
    match state.every {
        None => bind_compiled(alloc, input, state, name),
        Some(every) => bind_grown(alloc, input, state, name, every),
    }
}

// The same where no search follows a group.
fn bind_compiled(
    alloc: Global,
    input: &Formula,
    state: &mut RunState,
    name: u32,
) -> Result<Option<Effect>, CommandError>
    requires represents { (seen : State) × Represents state.old seen }
    requires variables { leaves (plain_tree state.old.manager.vtree) ≡ input.now.variables }
    requires free { IsFree state.old name }
    requires room { root_count state.old < 2 ^ 32 - 1 }
    requires forgotten { AreForgotten state.old.shared }
    requires every { state.old.every ≡ None }
    ensures done { (seen : State) → Represents state.old seen →
        IfOk result
        (λ effect. StepsTo input.now seen (RunCommand.Input name) state.new effect) }
    ensures stops { (seen : State) → Represents state.old seen →
        IfErr result (λ e. StopsAt input.now seen (RunCommand.Input name) state.new.manager e) }
    ensures err { OnErr result (IsAsBefore state.old state.new) }
    ensures vtree { state.new.manager.vtree ≡ state.old.manager.vtree }
    ensures roots { root_count state.new ≤ root_count state.old + 1 }
{
    total_of_formulas(&state.manager);
    let limit = state.limit;
    let root = match compile(alloc, &mut state.manager, &mut state.cache, input, limit) {
        Ok(root) => root,
        Err(error) => return Err(compiling_error(error)),
    };
    // within the limit, what compiling left is swept only once more is made
    let room = state.manager.used();
    match state.name_root(name, root, room) {
        Ok(()) => Ok(None),
        Err(_) => Err(CommandError::OutOfMemory),
    }
}

// The same where a search follows each group whose number is a multiple of `every`.
fn bind_grown(
    alloc: Global,
    input: &Formula,
    state: &mut RunState,
    name: u32,
    every: u32,
) -> Result<Option<Effect>, CommandError>
    requires represents { (seen : State) × Represents state.old seen }
    requires variables { leaves (plain_tree state.old.manager.vtree) ≡ input.now.variables }
    requires free { IsFree state.old name }
    requires room { root_count state.old < 2 ^ 32 - 1 }
    requires forgotten { AreForgotten state.old.shared }
    requires every { state.old.every ≡ Some every }
    ensures done { (seen : State) → Represents state.old seen →
        IfOk result
        (λ effect. StepsTo input.now seen (RunCommand.Input name) state.new effect) }
    ensures stops { (seen : State) → Represents state.old seen →
        IfErr result (λ e. StopsAt input.now seen (RunCommand.Input name) state.new.manager e) }
    ensures err { OnErr result (IsLeftByGroups input.now state.old state.new) }
    ensures variables { leaves (plain_tree state.new.manager.vtree) ≡ leaves (plain_tree
        state.old.manager.vtree) }
    ensures roots { root_count state.new ≤ root_count state.old + 1 }
{
    let root = match grow(alloc, input, state, every) {
        Ok(root) => root,
        Err(error) => return Err(error),
    };
    match state.name_root(name, root, 0) {
        Ok(()) => Ok(None),
        Err(_) => Err(CommandError::OutOfMemory),
    }
}

/// Sets the limit of the total size.
pub(crate) fn set_limit(state: &mut RunState, limit: u32) -> Result<Option<Effect>, CommandError>
    requires represents { (seen : State) × Represents state.old seen }
    ensures done { (input : Groups) (seen : State) → Represents state.old seen →
        IfOk result (λ effect. StepsTo input seen (RunCommand.Limit limit) state.new effect) }
    ensures stops { (input : Groups) (seen : State) → Represents state.old seen →
        IfErr result (λ e. StopsAt input seen (RunCommand.Limit limit) state.new.manager e) }
    ensures err { OnErr result (IsAsBefore state.old state.new) }
    ensures vtree { state.new.manager.vtree ≡ state.old.manager.vtree }
    ensures roots { root_count state.new ≤ root_count state.old + 1 }
{
    match state.set_limit(limit) {
        Ok(()) => Ok(None),
        Err(e) => Err(e),
    }
}

/// Binds a name to the value of a file.
pub(crate) fn bind_file(
    alloc: Global,
    state: &mut RunState,
    name: u32,
    file: &SddFile,
) -> Result<Option<Effect>, CommandError>
    requires represents { (seen : State) × Represents state.old seen }
    requires variables { leaves (plain_tree state.old.manager.vtree) ≡ file.now.variables }
    requires free { IsFree state.old name }
    requires room { root_count state.old < 2 ^ 32 - 1 }
    ensures done { (input : Groups) (seen : State) → Represents state.old seen →
        IfOk result
        (λ effect. StepsTo input seen (RunCommand.Load name file.now) state.new effect) }
    ensures stops { (input : Groups) (seen : State) → Represents state.old seen →
        IfErr result
        (λ e. StopsAt input seen (RunCommand.Load name file.now) state.new.manager e) }
    ensures err { OnErr result (IsAsBefore state.old state.new) }
    ensures vtree { state.new.manager.vtree ≡ state.old.manager.vtree }
    ensures roots { root_count state.new ≤ root_count state.old + 1 }
{
    match build(alloc, &mut state.manager, &mut state.cache, file) {
        Ok(node) => bind(state, name, node),
        Err(e) => Err(operation_error(e)),
    }
}

/// Binds a name to a literal.
pub(crate) fn bind_literal(
    state: &mut RunState,
    name: u32,
    literal: i32,
) -> Result<Option<Effect>, CommandError>
    requires represents { (seen : State) × Represents state.old seen }
    requires literal { IsLiteralTo (leaves (plain_tree state.old.manager.vtree)) literal }
    requires free { IsFree state.old name }
    requires room { root_count state.old < 2 ^ 32 - 1 }
    ensures done { (input : Groups) (seen : State) → Represents state.old seen →
        IfOk result
        (λ effect. StepsTo input seen (RunCommand.Literal name literal) state.new effect) }
    ensures stops { (input : Groups) (seen : State) → Represents state.old seen →
        IfErr result
        (λ e. StopsAt input seen (RunCommand.Literal name literal) state.new.manager e) }
    ensures err { OnErr result (IsAsBefore state.old state.new) }
    ensures vtree { state.new.manager.vtree ≡ state.old.manager.vtree }
    ensures roots { root_count state.new ≤ root_count state.old + 1 }
{
    let node = state.manager.literal(literal);
    bind(state, name, node)
}

/// Binds a name to a constant.
pub(crate) fn bind_constant(
    state: &mut RunState,
    name: u32,
    value: bool,
) -> Result<Option<Effect>, CommandError>
    requires represents { (seen : State) × Represents state.old seen }
    requires free { IsFree state.old name }
    requires room { root_count state.old < 2 ^ 32 - 1 }
    ensures done { (input : Groups) (seen : State) → Represents state.old seen →
        IfOk result
        (λ effect. StepsTo input seen (RunCommand.Constant name value) state.new effect) }
    ensures stops { (input : Groups) (seen : State) → Represents state.old seen →
        IfErr result
        (λ e. StopsAt input seen (RunCommand.Constant name value) state.new.manager e) }
    ensures err { OnErr result (IsAsBefore state.old state.new) }
    ensures vtree { state.new.manager.vtree ≡ state.old.manager.vtree }
    ensures roots { root_count state.new ≤ root_count state.old + 1 }
{
    let node = state.manager.constant(value);
    bind(state, name, node)
}

/// Binds a name to two formulas, joined by a connective.
pub(crate) fn bind_combination(
    alloc: Global,
    state: &mut RunState,
    operation: Operation,
    name: u32,
    a: u32,
    b: u32,
) -> Result<Option<Effect>, CommandError>
    requires represents { (seen : State) × Represents state.old seen }
    requires first { HasRoot state.old a }
    requires second { HasRoot state.old b }
    requires free { IsFree state.old name }
    requires room { root_count state.old < 2 ^ 32 - 1 }
    ensures done { (input : Groups) (seen : State) → Represents state.old seen →
        IfOk result
        (λ effect. StepsTo input seen (RunCommand.Combine operation name a b) state.new effect) }
    ensures stops { (input : Groups) (seen : State) → Represents state.old seen →
        IfErr result
        (λ e. StopsAt input seen (RunCommand.Combine operation name a b) state.new.manager e) }
    ensures err { OnErr result (IsAsBefore state.old state.new) }
    ensures vtree { state.new.manager.vtree ≡ state.old.manager.vtree }
    ensures roots { root_count state.new ≤ root_count state.old + 1 }
{
    let first = state.node(a);
    let second = state.node(b);
    match connect(
        alloc,
        &mut state.manager,
        &mut state.cache,
        operation,
        first,
        second,
    ) {
        Ok(joined) => bind(state, name, joined),
        Err(e) => Err(operation_error(e)),
    }
}

/// Binds a name to the negation of a formula.
pub(crate) fn bind_negation(
    alloc: Global,
    state: &mut RunState,
    name: u32,
    a: u32,
) -> Result<Option<Effect>, CommandError>
    requires represents { (seen : State) × Represents state.old seen }
    requires bound { HasRoot state.old a }
    requires free { IsFree state.old name }
    requires room { root_count state.old < 2 ^ 32 - 1 }
    ensures done { (input : Groups) (seen : State) → Represents state.old seen →
        IfOk result
        (λ effect. StepsTo input seen (RunCommand.Negate name a) state.new effect) }
    ensures stops { (input : Groups) (seen : State) → Represents state.old seen →
        IfErr result
        (λ e. StopsAt input seen (RunCommand.Negate name a) state.new.manager e) }
    ensures err { OnErr result (IsAsBefore state.old state.new) }
    ensures vtree { state.new.manager.vtree ≡ state.old.manager.vtree }
    ensures roots { root_count state.new ≤ root_count state.old + 1 }
{
    let positive = state.node(a);
    match negate(alloc, &mut state.manager, &mut state.cache, positive) {
        Ok(opposite) => bind(state, name, opposite),
        Err(e) => Err(operation_error(e)),
    }
}

/// Binds a name to a formula where a literal holds.
pub(crate) fn bind_condition(
    alloc: Global,
    state: &mut RunState,
    name: u32,
    a: u32,
    literal: i32,
) -> Result<Option<Effect>, CommandError>
    requires represents { (seen : State) × Represents state.old seen }
    requires bound { HasRoot state.old a }
    requires literal { IsLiteralTo (leaves (plain_tree state.old.manager.vtree)) literal }
    requires free { IsFree state.old name }
    requires room { root_count state.old < 2 ^ 32 - 1 }
    ensures done { (input : Groups) (seen : State) → Represents state.old seen →
        IfOk result
        (λ effect. StepsTo input seen (RunCommand.Given name a literal) state.new effect) }
    ensures stops { (input : Groups) (seen : State) → Represents state.old seen →
        IfErr result
        (λ e. StopsAt input seen (RunCommand.Given name a literal) state.new.manager e) }
    ensures err { OnErr result (IsAsBefore state.old state.new) }
    ensures vtree { state.new.manager.vtree ≡ state.old.manager.vtree }
    ensures roots { root_count state.new ≤ root_count state.old + 1 }
{
    let node = state.node(a);
    match given(alloc, &mut state.manager, &mut state.cache, node, literal) {
        Ok(conditioned) => bind(state, name, conditioned),
        Err(e) => Err(operation_error(e)),
    }
}

/// Binds a name to a formula with a variable forgotten.
pub(crate) fn bind_forgotten(
    alloc: Global,
    state: &mut RunState,
    name: u32,
    a: u32,
    variable: u32,
) -> Result<Option<Effect>, CommandError>
    requires represents { (seen : State) × Represents state.old seen }
    requires bound { HasRoot state.old a }
    requires at_least_one { 1 ≤ variable }
    requires within_limit { variable ≤ leaves (plain_tree state.old.manager.vtree) }
    requires free { IsFree state.old name }
    requires room { root_count state.old < 2 ^ 32 - 1 }
    ensures done { (input : Groups) (seen : State) → Represents state.old seen →
        IfOk result
        (λ effect. StepsTo input seen (RunCommand.Forget name a variable) state.new effect) }
    ensures stops { (input : Groups) (seen : State) → Represents state.old seen →
        IfErr result
        (λ e. StopsAt input seen (RunCommand.Forget name a variable) state.new.manager e) }
    ensures err { OnErr result (IsAsBefore state.old state.new) }
    ensures vtree { state.new.manager.vtree ≡ state.old.manager.vtree }
    ensures roots { root_count state.new ≤ root_count state.old + 1 }
{
    let node = state.node(a);
    match forget(alloc, &mut state.manager, &mut state.cache, node, variable) {
        Ok(forgotten) => bind(state, name, forgotten),
        Err(e) => Err(operation_error(e)),
    }
}

/// Binds a name to an output of the circuit, counted from 0.
pub(crate) fn bind_output(
    alloc: Global,
    state: &mut RunState,
    name: u32,
    index: u32,
) -> Result<Option<Effect>, CommandError>
    requires represents { (seen : State) × Represents state.old seen }
    requires index { index < length state.old.shared.circuit.text.outputs }
    requires free { IsFree state.old name }
    requires room { root_count state.old < 2 ^ 31 }
    ensures done { (input : Groups) (seen : State) → Represents state.old seen →
        IfOk result
        (λ effect. StepsTo input seen (RunCommand.Output name index) state.new effect) }
    ensures stops { (input : Groups) (seen : State) → Represents state.old seen →
        IfErr result
        (λ e. StopsAt input seen (RunCommand.Output name index) state.new.manager e) }
    ensures err { OnErr result (IsAsBefore state.old state.new) }
    ensures vtree { state.new.manager.vtree ≡ state.old.manager.vtree }
    ensures roots { root_count state.new ≤ root_count state.old + 1 }
{
    let node = match state.output(alloc, index) {
        Ok(node) => node,
        Err(e) => return Err(operation_error(e)),
    };
    // a sweep here would take away what later outputs use
    match state.bind_unswept(name, node) {
        Ok(()) => Ok(None),
        Err(e) => Err(e),
    }
}
