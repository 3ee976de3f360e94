//! The opening of a run by workers: an input that is bound by parts, and a start that is chosen.
ghost use Rattle.std.specs.Prelude.{◌≡◌, ◌<◌, ◌≤◌, ◌+◌, ◌-◌, ◌^◌, [], ◌∷◌, length, vec_len, slice_index_or};
ghost use Rattle.std.specs.Prelude.{Some, None, IfSome, IfNone, IfOk, IfErr, OnOk, OnErr};
ghost use Rattle.sd_model.specs.Tree.{Tree, leaves};
ghost use Rattle.sd_vtree.specs.Numbered.{plain_tree};
ghost use Rattle.sd_formula.specs.Dimacs.{Groups};
ghost use Rattle.sd_formula.specs.Formulas.{expression_of};
ghost use Rattle.sd_parts.specs.Work.{first_refusal};
ghost use Rattle.sd_parts.specs.declared.part.PartAnswer.{PartAnswer as SeenAnswer};
ghost use Rattle.sd_starts.specs.Starts.{IsChosenStart};
ghost use Rattle.sd_commands.specs.Commands.{State, start_line, with_name};
ghost use Rattle.sd_commands.specs.Standing.{Represents, IsFree, AreForgotten, StepsTo, IsAsBefore, root_count};
ghost use Rattle.sd_commands.specs.Opening.{IsStoppedByParts, IsOpeningStopped, IsOfFirstFull, OpensChosen};
ghost use Rattle.sd_commands.specs.Opening.{start_at, told_search};
ghost use Rattle.sd_commands.specs.Joining.{AreWholeAnswers, IsJoinStopped, manager_or, refusing_manager};

use crate::command::{Effect, RunCommand};
use crate::error::{CommandError, compiling_error};
use crate::searching::search_text;
use crate::state::RunState;
use sd_base::Bytes;
use sd_compile::laws::total_of_formulas;
use sd_formula::Formula;
use sd_manager::Manager;
use sd_parts::{Gate, PartAnswer, join_parts, parts, run_tasks};
use sd_search::Outcome;
use sd_starts::{Chosen, MOST_ELEMENTS, Settings, Start, choose_start, kept_at};
use std::alloc::{AllocError, Global};
use std::thread::Threads;

/// Why a run is not opened.
#[derive(Drop)]
pub struct OpeningError {
    /// The cause, as that of a command.
    pub error: CommandError,
    /// The manager whose arena was full, where it is not the state's.
    pub manager: Option<Manager>,
}

/// A run that was opened by a choice.
#[derive(Drop)]
pub struct Opened {
    /// The line with the start that was chosen.
    pub told: Effect,
    /// The line of the search behind the input, where one was asked for.
    pub searched: Option<Effect>,
    /// The name 0 is bound to the input's formula, and no other is bound.
    pub state: RunState,
}

// The error for want of memory.
fn out_of_memory() -> OpeningError
    ensures error { result.error ≡ CommandError.OutOfMemory }
    ensures manager { result.manager ≡ None }
{
    OpeningError {
        error: CommandError::OutOfMemory,
        manager: None,
    }
}

/// Binds a free name to the input's formula, which is compiled in as many parts as there are gates, by at most so many
/// workers, of which there are 1 to 16. Each part is compiled alone, over the tree of the state and under its limit,
/// and then all are joined in order. Where a part is refused, or the join, the state is as before. A gate is entered
/// before its part, with the number of the part, counted from 0.
pub fn input_by_parts<R: Threads + Sync, G: Gate + Send + Drop>(
    rt: &R,
    alloc: Global,
    input: &Formula,
    state: &mut RunState,
    name: u32,
    workers: u32,
    gates: Vec<G>,
) -> Result<(), OpeningError>
    requires represents { (seen : State) × Represents state.old seen }
    requires variables { leaves (plain_tree state.old.manager.vtree) ≡ input.now.variables }
    requires free { IsFree state.old name }
    requires room { root_count state.old < 2 ^ 32 - 1 }
    requires at_least_one { 1 ≤ vec_len gates }
    requires at_most { vec_len gates ≤ 64 }
    requires a_worker { 1 ≤ workers }
    requires most_workers { workers ≤ 16 }
    ensures done { (seen : State) → Represents state.old seen →
        OnOk result
        (StepsTo input.now seen (RunCommand.InputByParts name (vec_len gates)) state.new None) }
    ensures stops { (seen : State) → Represents state.old seen →
        IfErr result (λ e. IsStoppedByParts input.now seen
        (RunCommand.InputByParts name (vec_len gates)) state.new.manager e.error e.manager) }
    ensures err { OnErr result (IsAsBefore state.old state.new) }
    ensures vtree { state.new.manager.vtree ≡ state.old.manager.vtree }
    ensures roots { root_count state.new ≤ root_count state.old + 1 }
{
    // the nodes of gates may be gone behind a join
    state.forget_gates();
    let answers = match answers_of(rt, alloc, input, state, workers, gates) {
        Ok(answers) => answers,
        Err(_) => return Err(out_of_memory()),
    };
    match bind_joined(alloc, input, state, name, &answers) {
        Ok(()) => Ok(()),
        Err(error) => Err(OpeningError {
            error,
            manager: refusing_manager(answers),
        }),
    }
}

// The answers of as many parts as there are gates.
fn answers_of<R: Threads + Sync, G: Gate + Send + Drop>(
    rt: &R,
    alloc: Global,
    input: &Formula,
    state: &RunState,
    workers: u32,
    gates: Vec<G>,
) -> Result<Vec<PartAnswer>, AllocError>
    requires variables { leaves (plain_tree state.now.manager.vtree) ≡ input.now.variables }
    requires at_least_one { 1 ≤ vec_len gates }
    requires at_most { vec_len gates ≤ 64 }
    requires a_worker { 1 ≤ workers }
    requires most_workers { workers ≤ 16 }
    ensures answers { IfOk result (λ v. AreWholeAnswers input.now state.now v.items) }
    ensures count { IfOk result (λ v. length v.items ≡ vec_len gates) }
{
    let vtree = state.manager.vtree();
    // its contract tells that the tree is a vtree
    let _ = vtree.variables();
    let tree = vtree.tree(alloc)?;
    let tasks = parts(alloc, input, &tree, MOST_ELEMENTS, state.limit, gates)?;
    run_tasks(rt, alloc, tasks, workers)
}

// Joins the answers of parts, and binds a free name to the root.
fn bind_joined(
    alloc: Global,
    input: &Formula,
    state: &mut RunState,
    name: u32,
    answers: &[PartAnswer],
) -> Result<(), CommandError>
    requires represents { (seen : State) × Represents state.old seen }
    requires variables { leaves (plain_tree state.old.manager.vtree) ≡ input.now.variables }
    requires free { IsFree state.old name }
    requires room { root_count state.old < 2 ^ 32 - 1 }
    requires forgotten { AreForgotten state.old.shared }
    requires answers { AreWholeAnswers input.now state.old answers.now }
    ensures done { (seen : State) → Represents state.old seen →
        OnOk result (StepsTo input.now seen
        (RunCommand.InputByParts name (length answers.now)) state.new None) }
    ensures stops { (seen : State) → Represents state.old seen →
        IfErr result
        (λ e. IsJoinStopped input.now seen (RunCommand.InputByParts name (length answers.now))
        (first_refusal answers.now) state.new.manager e) }
    ensures err { OnErr result (IsAsBefore state.old state.new) }
    ensures vtree { state.new.manager.vtree ≡ state.old.manager.vtree }
    ensures roots { root_count state.new ≤ root_count state.old + 1 }
{
    total_of_formulas(&state.manager);
    let limit = state.limit;
    let root = match join_parts(
        alloc,
        &mut state.manager,
        &mut state.cache,
        input,
        answers,
        limit,
    ) {
        Ok(root) => root,
        Err(error) => return Err(compiling_error(error)),
    };
    // within the limit, what the join left is swept only once more is made
    let room = state.manager.used();
    match state.name_root(name, root, room) {
        Ok(()) => Ok(()),
        Err(_) => Err(CommandError::OutOfMemory),
    }
}

// The manager of the first part that was refused, if its arena was full.
fn refusing_manager(mut answers: Vec<PartAnswer>) -> Option<Manager>
    ensures { result ≡ refusing_manager answers.items }
{
    match first_refused(&answers) {
        Some(index) => full_manager(answers.swap_remove(index)),
        None => None,
    }
}

// The index of the first part that was refused.
fn first_refused(answers: &[PartAnswer]) -> Option<usize>
    ensures index { IfSome result (λ index. index < length answers.now) }
    ensures some { IfSome result (λ index. (a : SeenAnswer) → a ≡ slice_index_or answers.now index a
        → refusing_manager answers.now ≡ manager_or a.outcome a.manager None) }
    ensures none { IfNone result (refusing_manager answers.now ≡ None) }
{
    for (index, answer) in answers.iter().enumerate() {
        if answer.outcome.is_err() {
            return Some(index);
        }
    }
    None
}

// The manager of a part, if it was refused for a full arena.
fn full_manager(answer: PartAnswer) -> Option<Manager>
    ensures { result ≡ manager_or answer.outcome answer.manager None }
{
    let PartAnswer { manager, outcome } = answer;
    match outcome {
        Ok(_) => None,
        Err(error) => kept_at(error, manager),
    }
}

/// Opens a run by a choice: the input is compiled alone over each start tree, under a limit, by at most so many
/// workers, of which there are 1 to 16, and searched there, where rounds are given. The start with the least size is
/// taken, the first in the order balanced, right, left among equals, and the run goes on with what was made over it.
/// Where an arena was full, the manager is that of a start with a full arena.
/// The gates are those of the starts in this order; each is entered with the start's number in it, counted from 0.
pub fn open_chosen<R: Threads + Sync, G: Gate + Send + Drop>(
    rt: &R,
    alloc: Global,
    input: &Formula,
    settings: Settings,
    workers: u32,
    gates: [G; 3],
) -> Result<Opened, OpeningError>
    requires at_least_one { 1 ≤ workers }
    requires at_most { workers ≤ 16 }
    ensures opened { (tree : Tree) → leaves tree ≡ input.now.variables →
        IfOk result (OpensChosen input.now (start_at tree settings) settings.rounds) }
    ensures stops { (tree : Tree) → leaves tree ≡ input.now.variables →
        IfErr result (λ e. IsOpeningStopped input.now (start_at tree settings)
        (RunCommand.Choose settings.rounds) e.error e.manager) }
    ensures first { IfErr result (λ e. IsOfFirstFull input.now settings e.error e.manager) }
    ensures variables { IfOk result
        (λ opened. leaves (plain_tree opened.state.manager.vtree) ≡ input.now.variables) }
    ensures roots { IfOk result (λ opened. root_count opened.state ≤ 1) }
{
    // its range tells that a start tree has so many leaves
    let _ = input.variables();
    match choose_start(rt, alloc, input, settings, workers, gates) {
        Ok(chosen) => match opened_by(alloc, chosen, settings) {
            Ok(opened) => Ok(opened),
            Err(_) => Err(out_of_memory()),
        },
        Err(refused) => Err(OpeningError {
            error: compiling_error(refused.error),
            manager: refused.manager,
        }),
    }
}

// What a choice opens.
fn opened_by(alloc: Global, chosen: Chosen, settings: Settings) -> Result<Opened, AllocError>
    requires chosen { (f : Groups) × IsChosenStart f settings chosen }
    ensures told { IfOk result
        (λ opened. opened.told ≡ Effect.PrintLine (start_line chosen.start)) }
    ensures searched { IfOk result (λ opened. opened.searched ≡ told_search chosen.search) }
    ensures represents { (f : Groups) → IsChosenStart f settings chosen → IfOk result (λ opened.
        Represents opened.state (with_name
        (start_at (plain_tree chosen.manager.vtree) settings) 0 (expression_of f))) }
    ensures vtree { IfOk result (λ opened. opened.state.manager.vtree ≡ chosen.manager.vtree) }
    ensures roots { IfOk result (λ opened. root_count opened.state ≤ 1) }
{
    let told = start_effect(alloc, chosen.start)?;
    let searched = search_effect(alloc, chosen.search)?;
    let state = state_of(alloc, chosen, settings)?;
    Ok(Opened {
        told,
        searched,
        state,
    })
}

// The state in which the name 0 has the root of what was chosen.
fn state_of(alloc: Global, chosen: Chosen, settings: Settings) -> Result<RunState, AllocError>
    requires chosen { (f : Groups) × IsChosenStart f settings chosen }
    ensures represents { (f : Groups) → IsChosenStart f settings chosen → IfOk result (λ state.
        Represents state (with_name
        (start_at (plain_tree chosen.manager.vtree) settings) 0 (expression_of f))) }
    ensures vtree { IfOk result (λ state. state.manager.vtree ≡ chosen.manager.vtree) }
    ensures roots { IfOk result (λ state. root_count state ≤ 1) }
{
    let Chosen {
        start: _,
        manager,
        cache,
        root,
        size: _,
        search: _,
    } = chosen;
    RunState::of_root(alloc, manager, cache, root, settings.limit, settings.slack)
}

// The line with a start, as an effect.
fn start_effect(alloc: Global, start: Start) -> Result<Effect, AllocError>
    ensures { IfOk result (λ effect. effect ≡ Effect.PrintLine (start_line start)) }
{
    let text = match start {
        Start::Balanced => b"start balanced\n".to_vec(alloc)?,
        Start::Right => b"start right\n".to_vec(alloc)?,
        Start::Left => b"start left\n".to_vec(alloc)?,
    };
    Ok(Effect::PrintLine(Bytes::new(text)))
}

// The line of a search that was done, as an effect.
fn search_effect(alloc: Global, search: Option<Outcome>) -> Result<Option<Effect>, AllocError>
    ensures { IfOk result (λ effect. effect ≡ told_search search) }
{
    match search {
        None => Ok(None),
        Some(found) => {
            let line = search_text(alloc, found.before, found.after, found.rounds)?;
            Ok(Some(Effect::PrintLine(line)))
        }
    }
}
