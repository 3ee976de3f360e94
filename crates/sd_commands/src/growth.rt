//! The input's formula compiled with searches behind its groups.
//!
//! The prefix is a root beside those of the names, so a search is one over its formula and those of the names. An error
//! leaves the vtree after the walks that were finished, and the prefix's root is released.
//!
//! Sweeps come by the pace. A search goes over no garbage, since each move begins with a sweep.
ghost use Rattle.std.specs.Prelude.{◌≡◌, ℕ, ◌+◌, ◌-◌, ◌^◌, ◌<◌, ◌≤◌, Some, IfOk, IfErr, OnOk, OnErr, length};
ghost use Rattle.std.specs.FinMap.{remove};
ghost use Rattle.sd_model.specs.Tree.{leaves};
ghost use Rattle.sd_vtree.specs.Numbered.{plain_tree};
ghost use Rattle.sd_commands.specs.Commands.{State, is_due};
ghost use Rattle.sd_commands.specs.Standing.{Represents, StopsAt, IsLeftByGroups, AreForgotten, root_count};
ghost use Rattle.sd_commands.specs.Growing.{IsGrowing, IsAdded, IsBrokenOff, HasGrown, IsSameBeside};
ghost use Rattle.sd_commands.specs.declared.command.RunCommand.TheVariants.{Input};

use crate::error::{CommandError, compiling_error, search_error};
use crate::state::RunState;
use sd_compile::laws::total_of_formulas;
use sd_compile::{Compiling, Pace, add_group_past, begin, finish};
use sd_formula::Formula;
use sd_manager::Root;
use sd_search::minimise;
use std::alloc::Global;

/// Compiles the input into a root that no name has, with a search of one round behind each group whose number is a
/// multiple of `every`, after the limit was tested for it. It refuses as `add_group` and `minimise` do, and then no
/// root is new.
pub(crate) fn grow(
    alloc: Global,
    input: &Formula,
    state: &mut RunState,
    every: u32,
) -> Result<Root, CommandError>
    requires represents { (seen : State) × Represents state.old seen }
    requires variables { leaves (plain_tree state.old.manager.vtree) ≡ input.now.variables }
    requires room { root_count state.old < 2 ^ 32 - 1 }
    requires every { state.old.every ≡ Some every }
    requires forgotten { AreForgotten state.old.shared }
    ensures ok { (seen : State) → Represents state.old seen →
        IfOk result (λ root. HasGrown input.now seen state.new root) }
    ensures stops { (seen : State) → Represents state.old seen → (name : ℕ) →
        IfErr result (λ e. StopsAt input.now seen (Input name) state.new.manager e) }
    ensures err { OnErr result (IsLeftByGroups input.now state.old state.new) }
    ensures others { IfOk result (λ root. remove state.new.manager.roots root ≡ state.old.manager.roots) }
    ensures rest { state.new ≡ record state.old { manager = state.new.manager; cache = state.new.cache } }
    ensures variables { leaves (plain_tree state.new.manager.vtree) ≡ leaves (plain_tree
        state.old.manager.vtree) }
    ensures roots { root_count state.new ≤ root_count state.old + 1 }
{
    let mut work = match begin(&mut state.manager, input) {
        Ok(work) => work,
        Err(_) => return Err(CommandError::OutOfMemory),
    };
    match grow_all(alloc, input, state, &mut work, every) {
        Ok(()) => Ok(finish(work)),
        Err(error) => {
            state.manager.release(finish(work));
            Err(error)
        }
    }
}

// Adds all groups, each with the search behind it.
fn grow_all(
    alloc: Global,
    input: &Formula,
    state: &mut RunState,
    work: &mut Compiling,
    every: u32,
) -> Result<(), CommandError>
    requires growing { (seen : State) × IsGrowing input.now seen state.old work.old }
    requires begun { work.old.groups ≡ 0 }
    requires variables { leaves (plain_tree state.old.manager.vtree) ≡ input.now.variables }
    requires every { state.old.every ≡ Some every }
    ensures ok { (seen : State) → IsGrowing input.now seen state.old work.old →
        OnOk result (IsGrowing input.now seen state.new work.new) }
    ensures all { OnOk result (work.new.groups ≡ length input.now.groups) }
    ensures stops { (seen : State) → IsGrowing input.now seen state.old work.old → (name : ℕ) →
        IfErr result (λ e. StopsAt input.now seen (Input name) state.new.manager e) }
    ensures broken { (seen : State) → IsGrowing input.now seen state.old work.old →
        OnErr result (IsBrokenOff input.now seen state.new work.new.root) }
    ensures root { work.new.root ≡ work.old.root }
    ensures beside { IsSameBeside state.old state.new work.old.root }
{
    let mut pace = Pace::of_groups();
    for index in 0..input.groups() {
        if let Err(error) = grow_next(alloc, input, state, work, &mut pace, every, index) {
            return Err(error);
        }
    }
    Ok(())
}

// Adds the group with this index, with the search behind it.
fn grow_next(
    alloc: Global,
    input: &Formula,
    state: &mut RunState,
    work: &mut Compiling,
    pace: &mut Pace,
    every: u32,
    index: usize,
) -> Result<(), CommandError>
    requires growing { (seen : State) × IsGrowing input.now seen state.old work.old }
    requires left { index < length input.now.groups }
    requires at { work.old.groups ≡ index }
    requires variables { leaves (plain_tree state.old.manager.vtree) ≡ input.now.variables }
    requires every { state.old.every ≡ Some every }
    ensures ok { (seen : State) → IsGrowing input.now seen state.old work.old →
        OnOk result (IsGrowing input.now seen state.new work.new) }
    ensures next { OnOk result (work.new.groups ≡ index + 1) }
    ensures stops { (seen : State) → IsGrowing input.now seen state.old work.old → (name : ℕ) →
        IfErr result (λ e. StopsAt input.now seen (Input name) state.new.manager e) }
    ensures broken { (seen : State) → IsGrowing input.now seen state.old work.old →
        OnErr result (IsBrokenOff input.now seen state.new work.new.root) }
    ensures root { work.new.root ≡ work.old.root }
    ensures beside { IsSameBeside state.old state.new work.old.root }
{
    if let Err(error) = add_next(alloc, input, state, work, pace) {
        return Err(error);
    }
    // its range tells that the number of the group is one
    let _ = input.groups();
    let due = is_due_at(every, index + 1);
    search_if_due(alloc, input, state, work, due)
}

// Adds the next group. Garbage may stay as far as the pace allows.
fn add_next(
    alloc: Global,
    input: &Formula,
    state: &mut RunState,
    work: &mut Compiling,
    pace: &mut Pace,
) -> Result<(), CommandError>
    requires growing { (seen : State) × IsGrowing input.now seen state.old work.old }
    requires left { work.old.groups < length input.now.groups }
    requires variables { leaves (plain_tree state.old.manager.vtree) ≡ input.now.variables }
    ensures ok { (seen : State) → IsGrowing input.now seen state.old work.old →
        OnOk result (IsAdded input.now seen state.new work.new) }
    ensures next { OnOk result (work.new.groups ≡ work.old.groups + 1) }
    ensures stops { (seen : State) → IsGrowing input.now seen state.old work.old → (name : ℕ) →
        IfErr result (λ e. StopsAt input.now seen (Input name) state.new.manager e) }
    ensures broken { (seen : State) → IsGrowing input.now seen state.old work.old →
        OnErr result (IsBrokenOff input.now seen state.new work.new.root) }
    ensures root { work.new.root ≡ work.old.root }
    ensures beside { IsSameBeside state.old state.new work.old.root }
{
    total_of_formulas(&state.manager);
    let limit = state.limit;
    match add_group_past(
        alloc,
        &mut state.manager,
        &mut state.cache,
        input,
        work,
        pace,
        limit,
    ) {
        Ok(()) => Ok(()),
        Err(error) => Err(compiling_error(error)),
    }
}

// The search behind a group, where it is due.
fn search_if_due(
    alloc: Global,
    input: &Formula,
    state: &mut RunState,
    work: &Compiling,
    due: bool,
) -> Result<(), CommandError>
    requires added { (seen : State) × IsAdded input.now seen state.old work.now }
    requires due { is_due state.old.every work.now.groups ≡ due }
    ensures ok { (seen : State) → IsAdded input.now seen state.old work.now →
        OnOk result (IsGrowing input.now seen state.new work.now) }
    ensures stops { (seen : State) → IsAdded input.now seen state.old work.now → (name : ℕ) →
        IfErr result (λ e. StopsAt input.now seen (Input name) state.new.manager e) }
    ensures broken { (seen : State) → IsAdded input.now seen state.old work.now →
        OnErr result (IsBrokenOff input.now seen state.new work.now.root) }
    ensures beside { IsSameBeside state.old state.new work.now.root }
{
    if due {
        total_of_formulas(&state.manager);
        let slack = state.slack;
        return match minimise(alloc, &mut state.manager, &mut state.cache, 1, slack) {
            Ok(found) => {
                let _ = found;
                Ok(())
            }
            Err(error) => Err(search_error(error)),
        };
    }
    Ok(())
}

// Whether the number of a group is a multiple of another.
fn is_due_at(every: u32, group: usize) -> bool
    ensures { result ≡ is_due (Some every) group }
{
    group.is_multiple_of(every as usize)
}
