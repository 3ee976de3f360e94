//! What each command does.
ghost use Rattle.std.specs.Prelude.{◌≡◌, ℕ, ◌<◌, ◌≤◌, ◌+◌, ◌-◌, ◌^◌, length, IfOk, IfErr, OnErr};
ghost use Rattle.sd_model.specs.Tree.{leaves};
ghost use Rattle.sd_vtree.specs.Numbered.{plain_tree};
ghost use Rattle.sd_commands.specs.Commands.{State};
ghost use Rattle.sd_commands.specs.Fits.{Fits};
ghost use Rattle.sd_commands.specs.Standing.{Represents, StepsTo, StopsAt, HandsOut, IsLeft};
ghost use Rattle.sd_commands.specs.Standing.{names_of, root_count};

use crate::bind::{
    bind_combination, bind_condition, bind_constant, bind_file, bind_forgotten, bind_input,
    bind_literal, bind_negation, bind_output, set_limit,
};
use crate::checking::print_verdict;
use crate::command::{Effect, RunCommand};
use crate::effects::{
    print_generated, print_same, print_size, print_value, write_diagrams, write_vtree_text,
};
use crate::error::CommandError;
use crate::moving::turn_at;
use crate::searching::search;
use crate::state::RunState;
use sd_formula::Formula;
use std::alloc::{AllocError, Global};

/// Does one command, up to its effect, which is handed out. NotMovable where the vtree cannot be moved so; OverLimit
/// where the total size passes the limit after a command that binds a name, moves the vtree or sets the limit, or after
/// a group of the input; ArenaFull where the elements of a node find no room in the arena; and OutOfMemory where memory
/// runs out. Then the names, the tree, the limit and what each root holds are as before; but a search leaves the vtree
/// after the walks that were finished, where each root holds what it held, and so do those behind groups of the input.
/// What workers do, an input by parts or a choice, is no command of it. An output asks for fewer roots than the others:
/// for a while it holds up to two nodes of each gate.
pub fn step(
    alloc: Global,
    input: &Formula,
    state: &mut RunState,
    command: &RunCommand,
) -> Result<Option<Effect>, CommandError>
    requires represents { (seen : State) × Represents state.old seen
        × Fits input.now.variables (length seen.circuit.outputs) (names_of seen) command.now }
    requires variables { leaves (plain_tree state.old.manager.vtree) ≡ input.now.variables }
    requires room { root_count state.old < 2 ^ 32 - 1 }
    requires output_room { (name index : ℕ) → command.now ≡ RunCommand.Output name index
        → root_count state.old < 2 ^ 31 }
    ensures done { (seen : State) → Represents state.old seen →
        IfOk result
        (λ effect. StepsTo input.now seen command.now state.new effect) }
    ensures stops { (seen : State) → Represents state.old seen →
        IfErr result (λ e. StopsAt input.now seen command.now state.new.manager e) }
    ensures err { OnErr result (IsLeft input.now command.now state.old state.new) }
    ensures variables { leaves (plain_tree state.new.manager.vtree) ≡ leaves (plain_tree
        state.old.manager.vtree) }
    ensures roots { root_count state.new ≤ root_count state.old + 1 }
{
    match command {
        RunCommand::Generated(variables, groups) => or_out_of_memory(print_generated(
            alloc, *variables, *groups,
        )),
        RunCommand::Input(name) => bind_input(alloc, input, state, *name),
        RunCommand::Load(name, file) => bind_file(alloc, state, *name, file),
        RunCommand::Literal(name, literal) => bind_literal(state, *name, *literal),
        RunCommand::Constant(name, value) => bind_constant(state, *name, *value),
        RunCommand::Combine(operation, name, a, b) => bind_combination(
            alloc, state, *operation, *name, *a, *b,
        ),
        RunCommand::Negate(name, a) => bind_negation(alloc, state, *name, *a),
        RunCommand::Given(name, a, literal) => bind_condition(alloc, state, *name, *a, *literal),
        RunCommand::Forget(name, a, variable) => bind_forgotten(alloc, state, *name, *a, *variable),
        RunCommand::Drop(name) => {
            state.free(*name);
            Ok(None)
        }
        RunCommand::Turn(kind, position) => turn_at(alloc, state, *kind, *position),
        RunCommand::Minimise(rounds) => search(alloc, state, *rounds),
        RunCommand::Limit(limit) => set_limit(state, *limit),
        RunCommand::Same(a, b) => or_out_of_memory(print_same(alloc, state, *a, *b)),
        RunCommand::Size(name) => or_out_of_memory(print_size(alloc, state, *name)),
        RunCommand::Value(name, bits) => or_out_of_memory(print_value(alloc, state, *name, bits)),
        RunCommand::Write(names, file) => or_out_of_memory(write_diagrams(
            alloc,
            state,
            names.as_slice(),
            file,
        )),
        RunCommand::WriteVtree(file) => or_out_of_memory(write_vtree_text(alloc, state, file)),
        RunCommand::Output(name, index) => bind_output(alloc, state, *name, *index),
        RunCommand::Check(file, ids) => print_verdict(alloc, state, file, ids),
        // no command that workers do fits
        RunCommand::InputByParts(_, _) => unreachable!(),
        RunCommand::Choose(_) => unreachable!(),
    }
}

// The effect, where there was memory for it.
fn or_out_of_memory(effect: Result<Effect, AllocError>) -> Result<Option<Effect>, CommandError>
    ensures { HandsOut effect result }
{
    match effect {
        Ok(effect) => Ok(Some(effect)),
        Err(_) => Err(CommandError::OutOfMemory),
    }
}
