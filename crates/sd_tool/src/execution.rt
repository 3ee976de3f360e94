// The commands of a plan, one after another, with what each asks for outside. Those of its opening are done by workers.
ghost use Rattle.std.specs.Prelude.{◌≡◌, ◌<◌, ◌≤◌, ◌+◌, ◌^◌, ℕ, [], ◌∷◌, List, Option, Some, None, Result, Ok, Err};
ghost use Rattle.std.specs.Prelude.{IfOk, IfErr, OnOk, cond, length, vec_len};
ghost use Rattle.std.specs.Option.{option_to_list};
ghost use Rattle.sd_base.specs.Asked.{Adds};
ghost use Rattle.sd_base.specs.Shelf.{NoFile};
ghost use Rattle.sd_formula.specs.Dimacs.{Groups};
ghost use Rattle.sd_model.specs.Tree.{leaves};
ghost use Rattle.sd_vtree.specs.Numbered.{plain_tree};
ghost use Rattle.sd_commands.specs.Commands.{State};
ghost use Rattle.sd_commands.specs.Opening.{OpensChosen};
ghost use Rattle.sd_commands.specs.Standing.{Represents, StepsTo, root_count};
ghost use Rattle.sd_tool.specs.inside.Devices.{contents, faults, NotFewer};
ghost use Rattle.sd_tool.specs.inside.Segments.{segment, RunsSegment, CanRun, CanBegin, plan_in, refuser};
ghost use Rattle.sd_tool.specs.inside.Segments.{stop_result, StopsByParts, StopsChoosing};
ghost use Rattle.sd_tool.specs.PlanViews.{plan_of, opening_commands, IsReady};
ghost use Rattle.sd_tool.specs.Stops.{PlanEnds, LeavesFinished, is_full, stop_of};
ghost use Rattle.sd_tool.specs.declared.plan.Opening.TheVariants.{Parts, Choice};

use crate::devices::write_effect_if_any;
use crate::plan::{Opening, RunPlan};
use crate::stop::{Halt, Stop};
use sd_base::{Shelf, Sink};
use sd_commands::{
    CommandError, NumberedCommand, Opened, RunCommand, RunState, input_by_parts, open_chosen, step,
};
use sd_formula::Formula;
use sd_manager::Manager;
use sd_parts::Gate;
use sd_starts::Settings;
use std::alloc::Global;
use std::thread::Threads;

/// What commands are done with: the runtime, which makes threads, memory, and 64 gates, one for each part that there
/// may be.
#[derive(Drop)]
pub struct Crew<'a, R, G> {
    /// The runtime.
    pub rt: &'a R,
    /// The allocator of all that is made.
    pub alloc: Global,
    /// 64 gates.
    pub gates: Vec<G>,
}

// The commands of a plan in their order, and how many workers do those of the opening.
#[derive(Drop)]
struct Stages {
    told: Option<NumberedCommand>,
    opening: Opening,
    workers: u32,
    commands: Vec<NumberedCommand>,
}

/// Does all commands of the plan, and keeps the manager whose arena was full.
pub fn execute_plan<R: Threads + Sync, F: Shelf, O: Sink, G: Gate + Send + Drop>(
    crew: Crew<'_, R, G>,
    shelf: &mut F,
    out: &mut O,
    plan: RunPlan,
    kept: &mut Option<Manager>,
) -> Result<(), Stop>
    requires hand { F.hand shelf.old ≡ NoFile }
    requires none { kept.old ≡ None }
    requires gates { vec_len crew.gates ≡ 64 }
    requires ready { IsReady plan }
    ensures hand { F.hand shelf.new ≡ NoFile }
    ensures goes { PlanEnds (Adds F.asked shelf.old shelf.new) (plan_of plan) kept.new result
        (contents F.files O.written shelf.old out.old)
        (contents F.files O.written shelf.new out.new)
        (faults F.read_faults F.write_faults O.faults shelf.old out.old)
        (faults F.read_faults F.write_faults O.faults shelf.new out.new) }
    ensures finished { LeavesFinished result (F.unfinished shelf.old) (F.unfinished shelf.new) }
{
    let RunPlan {
        formula,
        mut state,
        told,
        opening,
        workers,
        commands,
    } = plan;
    let stages = Stages {
        told,
        opening,
        workers,
        commands,
    };
    match execute_all(crew, shelf, out, &formula, &mut state, stages) {
        Ok(()) => Ok(()),
        Err(halt) => Err(keep(kept, halt, state.manager)),
    }
}

// The stop of a halt. The manager whose arena was full is kept: that of the halt, or else this one.
fn keep(kept: &mut Option<Manager>, halt: Halt, manager: Manager) -> Stop
    ensures stop { result ≡ halt.stop }
    ensures kept { kept.new ≡ cond (is_full halt.stop) (Some (refuser halt manager)) kept.old }
{
    let Halt {
        stop,
        manager: other,
    } = halt;
    let manager = match other {
        Some(other) => other,
        None => manager,
    };
    if stop.is_full() {
        *kept = Some(manager);
    }
    stop
}

// Does the commands in order, up to the first that stops.
fn execute_all<R: Threads + Sync, F: Shelf, O: Sink, G: Gate + Send + Drop>(
    crew: Crew<'_, R, G>,
    shelf: &mut F,
    out: &mut O,
    formula: &Formula,
    state: &mut RunState,
    stages: Stages,
) -> Result<(), Halt>
    requires hand { F.hand shelf.old ≡ NoFile }
    requires gates { vec_len crew.gates ≡ 64 }
    requires ready { IsReady (plan_in formula.now state.old stages) }
    ensures hand { F.hand shelf.new ≡ NoFile }
    ensures goes { RunsSegment (Adds F.asked shelf.old shelf.new)
        (plan_of (plan_in formula.now state.old stages)) state.new result
        (contents F.files O.written shelf.old out.old)
        (contents F.files O.written shelf.new out.new)
        (faults F.read_faults F.write_faults O.faults shelf.old out.old)
        (faults F.read_faults F.write_faults O.faults shelf.new out.new) }
    ensures finished { LeavesFinished (stop_result result)
        (F.unfinished shelf.old) (F.unfinished shelf.new) }
{
    let Stages {
        told,
        opening,
        workers,
        commands,
    } = stages;
    let alloc = crew.alloc;
    match execute_told(alloc, shelf, out, formula, state, told) {
        Ok(()) => {}
        Err(halt) => return Err(halt),
    }
    match execute_opening(crew, shelf, out, formula, state, opening, workers) {
        Ok(()) => execute_commands(alloc, shelf, out, formula, state, commands),
        Err(halt) => Err(halt),
    }
}

// Does the command that tells of a generated formula, if it is there.
fn execute_told<F: Shelf, O: Sink>(
    alloc: Global,
    shelf: &mut F,
    out: &mut O,
    formula: &Formula,
    state: &mut RunState,
    told: Option<NumberedCommand>,
) -> Result<(), Halt>
    requires hand { F.hand shelf.old ≡ NoFile }
    requires ready { (seen : State) × CanRun formula.now state.old seen (option_to_list told) }
    requires room { root_count state.old < 2 ^ 31 }
    ensures hand { F.hand shelf.new ≡ NoFile }
    ensures goes { (seen : State) → Represents state.old seen →
        RunsSegment (Adds F.asked shelf.old shelf.new)
        (segment formula.now seen (option_to_list told)) state.new result
        (contents F.files O.written shelf.old out.old)
        (contents F.files O.written shelf.new out.new)
        (faults F.read_faults F.write_faults O.faults shelf.old out.old)
        (faults F.read_faults F.write_faults O.faults shelf.new out.new) }
    ensures fewer { NotFewer (faults F.read_faults F.write_faults O.faults shelf.old out.old)
        (faults F.read_faults F.write_faults O.faults shelf.new out.new) }
    ensures variables { leaves (plain_tree state.new.manager.vtree)
        ≡ leaves (plain_tree state.old.manager.vtree) }
    ensures roots { root_count state.new ≤ root_count state.old + 1 }
    ensures finished { LeavesFinished (stop_result result)
        (F.unfinished shelf.old) (F.unfinished shelf.new) }
{
    match told {
        Some(command) => execute_command(alloc, shelf, out, formula, state, &command),
        None => Ok(()),
    }
}

// Does the commands in order, up to the first that stops. Each is freed once it is done, with the file that it loaded.
fn execute_commands<F: Shelf, O: Sink>(
    alloc: Global,
    shelf: &mut F,
    out: &mut O,
    formula: &Formula,
    state: &mut RunState,
    commands: Vec<NumberedCommand>,
) -> Result<(), Halt>
    requires hand { F.hand shelf.old ≡ NoFile }
    requires ready { (seen : State) × CanRun formula.now state.old seen commands.items }
    requires room { root_count state.old + length commands.items < 2 ^ 31 }
    ensures hand { F.hand shelf.new ≡ NoFile }
    ensures goes { (seen : State) → Represents state.old seen →
        RunsSegment (Adds F.asked shelf.old shelf.new)
        (segment formula.now seen commands.items) state.new result
        (contents F.files O.written shelf.old out.old)
        (contents F.files O.written shelf.new out.new)
        (faults F.read_faults F.write_faults O.faults shelf.old out.old)
        (faults F.read_faults F.write_faults O.faults shelf.new out.new) }
    ensures finished { LeavesFinished (stop_result result)
        (F.unfinished shelf.old) (F.unfinished shelf.new) }
{
    for command in commands {
        match execute_command(alloc, shelf, out, formula, state, &command) {
            Ok(()) => drop(command),
            Err(halt) => return Err(halt),
        }
    }
    Ok(())
}

// Does a command, and what it asks for outside.
fn execute_command<F: Shelf, O: Sink>(
    alloc: Global,
    shelf: &mut F,
    out: &mut O,
    formula: &Formula,
    state: &mut RunState,
    command: &NumberedCommand,
) -> Result<(), Halt>
    requires hand { F.hand shelf.old ≡ NoFile }
    requires ready { (seen : State) × CanRun formula.now state.old seen (command.now ∷ []) }
    requires room { root_count state.old < 2 ^ 31 }
    ensures hand { F.hand shelf.new ≡ NoFile }
    ensures goes { (seen : State) → Represents state.old seen →
        RunsSegment (Adds F.asked shelf.old shelf.new)
        (segment formula.now seen (command.now ∷ [])) state.new result
        (contents F.files O.written shelf.old out.old)
        (contents F.files O.written shelf.new out.new)
        (faults F.read_faults F.write_faults O.faults shelf.old out.old)
        (faults F.read_faults F.write_faults O.faults shelf.new out.new) }
    ensures fewer { NotFewer (faults F.read_faults F.write_faults O.faults shelf.old out.old)
        (faults F.read_faults F.write_faults O.faults shelf.new out.new) }
    ensures variables { leaves (plain_tree state.new.manager.vtree)
        ≡ leaves (plain_tree state.old.manager.vtree) }
    ensures roots { root_count state.new ≤ root_count state.old + 1 }
    ensures finished { LeavesFinished (stop_result result)
        (F.unfinished shelf.old) (F.unfinished shelf.new) }
{
    match step(alloc, formula, state, &command.command) {
        Ok(effect) => match write_effect_if_any(shelf, out, effect) {
            Ok(()) => Ok(()),
            Err(stop) => Err(halt_of(stop)),
        },
        Err(error) => Err(halt_at(command.line, error, None)),
    }
}

// Does the opening by so many workers.
fn execute_opening<R: Threads + Sync, F: Shelf, O: Sink, G: Gate + Send + Drop>(
    crew: Crew<'_, R, G>,
    shelf: &mut F,
    out: &mut O,
    formula: &Formula,
    state: &mut RunState,
    opening: Opening,
    workers: u32,
) -> Result<(), Halt>
    requires hand { F.hand shelf.old ≡ NoFile }
    requires gates { vec_len crew.gates ≡ 64 }
    requires at_least_one { 1 ≤ workers }
    requires at_most { workers ≤ 16 }
    requires room { root_count state.old < 2 ^ 31 }
    requires ready { (seen : State) × CanBegin formula.now state.old seen opening }
    ensures hand { F.hand shelf.new ≡ NoFile }
    ensures goes { (seen : State) → CanBegin formula.now state.old seen opening →
        RunsSegment (Adds F.asked shelf.old shelf.new)
        (segment formula.now seen (opening_commands opening)) state.new result
        (contents F.files O.written shelf.old out.old)
        (contents F.files O.written shelf.new out.new)
        (faults F.read_faults F.write_faults O.faults shelf.old out.old)
        (faults F.read_faults F.write_faults O.faults shelf.new out.new) }
    ensures fewer { NotFewer (faults F.read_faults F.write_faults O.faults shelf.old out.old)
        (faults F.read_faults F.write_faults O.faults shelf.new out.new) }
    ensures variables { OnOk result (leaves (plain_tree state.new.manager.vtree)
        ≡ leaves (plain_tree state.old.manager.vtree)) }
    ensures roots { OnOk result (root_count state.new ≤ root_count state.old + 1) }
    ensures finished { LeavesFinished (stop_result result)
        (F.unfinished shelf.old) (F.unfinished shelf.new) }
{
    match opening {
        Opening::Nothing => Ok(()),
        Opening::Parts(count) => input_parts(crew, formula, state, count, workers),
        Opening::Choice(rounds) => match choose(crew, formula, state, rounds, workers) {
            Ok(opened) => tell_opened(shelf, out, state, opened),
            Err(halt) => Err(halt),
        },
    }
}

// Binds the first name to the formula, in so many parts. The gates behind those of the parts are dropped.
fn input_parts<R: Threads + Sync, G: Gate + Send + Drop>(
    crew: Crew<'_, R, G>,
    formula: &Formula,
    state: &mut RunState,
    count: u32,
    workers: u32,
) -> Result<(), Halt>
    requires gates { vec_len crew.gates ≡ 64 }
    requires at_least_one { 1 ≤ workers }
    requires at_most { workers ≤ 16 }
    requires room { root_count state.old < 2 ^ 31 }
    requires ready { (seen : State) × CanBegin formula.now state.old seen (Parts count) }
    ensures done { (seen : State) → CanBegin formula.now state.old seen (Parts count) →
        OnOk result
        (StepsTo formula.now seen (RunCommand.InputByParts 0 count) state.new None) }
    ensures stops { (seen : State) → CanBegin formula.now state.old seen (Parts count) →
        IfErr result (StopsByParts formula.now seen count state.old state.new) }
    ensures variables { OnOk result (leaves (plain_tree state.new.manager.vtree)
        ≡ leaves (plain_tree state.old.manager.vtree)) }
    ensures roots { OnOk result (root_count state.new ≤ root_count state.old + 1) }
{
    let Crew {
        rt,
        alloc,
        mut gates,
    } = crew;
    gates.truncate(count as usize);
    match input_by_parts(rt, alloc, formula, state, 0, workers, gates) {
        Ok(()) => Ok(()),
        Err(refused) => Err(halt_at(1, refused.error, refused.manager)),
    }
}

// Chooses a start, for a run in this state. The gates behind the first three are dropped.
fn choose<R: Threads + Sync, G: Gate + Send + Drop>(
    crew: Crew<'_, R, G>,
    formula: &Formula,
    state: &RunState,
    rounds: Option<u32>,
    workers: u32,
) -> Result<Opened, Halt>
    requires gates { vec_len crew.gates ≡ 64 }
    requires at_least_one { 1 ≤ workers }
    requires at_most { workers ≤ 16 }
    ensures opened { (seen : State) → CanBegin formula.now state.now seen (Choice rounds) →
        IfOk result (OpensChosen formula.now seen rounds) }
    ensures stops { (seen : State) → CanBegin formula.now state.now seen (Choice rounds) →
        IfErr result (StopsChoosing formula.now seen rounds) }
    ensures variables { IfOk result
        (λ opened. leaves (plain_tree opened.state.manager.vtree) ≡ formula.now.variables) }
    ensures roots { IfOk result (λ opened. root_count opened.state ≤ 1) }
{
    let settings = Settings {
        limit: state.limit(),
        slack: state.slack(),
        rounds,
    };
    let gates = first_three(crew.gates);
    match open_chosen(crew.rt, crew.alloc, formula, settings, workers, gates) {
        Ok(opened) => Ok(opened),
        Err(refused) => Err(halt_at(1, refused.error, refused.manager)),
    }
}

// The first three gates, in their order.
fn first_three<G: Drop>(mut gates: Vec<G>) -> [G; 3]
    requires { vec_len gates ≡ 64 }
{
    let first = gates.remove(0);
    let second = gates.remove(0);
    let third = gates.remove(0);
    [first, second, third]
}

// Goes on with the state of a chosen start, and prints the lines of the choice and of its search.
fn tell_opened<F: Shelf, O: Sink>(
    shelf: &mut F,
    out: &mut O,
    state: &mut RunState,
    opened: Opened,
) -> Result<(), Halt>
    requires hand { F.hand shelf.old ≡ NoFile }
    ensures hand { F.hand shelf.new ≡ NoFile }
    ensures goes { (input : Groups) (seen : State) (rounds : Option ℕ) → OpensChosen input seen rounds opened →
        RunsSegment (Adds F.asked shelf.old shelf.new)
        (segment input seen (opening_commands (Choice rounds))) state.new result
        (contents F.files O.written shelf.old out.old)
        (contents F.files O.written shelf.new out.new)
        (faults F.read_faults F.write_faults O.faults shelf.old out.old)
        (faults F.read_faults F.write_faults O.faults shelf.new out.new) }
    ensures fewer { NotFewer (faults F.read_faults F.write_faults O.faults shelf.old out.old)
        (faults F.read_faults F.write_faults O.faults shelf.new out.new) }
    ensures state { state.new ≡ opened.state }
    ensures finished { LeavesFinished (stop_result result)
        (F.unfinished shelf.old) (F.unfinished shelf.new) }
{
    let Opened {
        told,
        searched,
        state: chosen,
    } = opened;
    *state = chosen;
    match write_effect_if_any(shelf, out, Some(told)) {
        Ok(()) => match write_effect_if_any(shelf, out, searched) {
            Ok(()) => Ok(()),
            Err(stop) => Err(halt_of(stop)),
        },
        Err(stop) => Err(halt_of(stop)),
    }
}

// The halt at this stop, where no arena was full.
fn halt_of(stop: Stop) -> Halt
    ensures { result ≡ record { stop = stop; manager = None } }
{
    Halt {
        stop,
        manager: None,
    }
}

// The halt at a command of this line, with the manager that refused, if it is not that of the state.
fn halt_at(line: u32, error: CommandError, manager: Option<Manager>) -> Halt
    ensures { result ≡ record { stop = stop_of line error; manager = manager } }
{
    Halt {
        stop: stop_at(line, error),
        manager,
    }
}

// The stop at a command of this line.
fn stop_at(line: u32, error: CommandError) -> Stop
    ensures { result ≡ stop_of line error }
{
    match error {
        CommandError::OverLimit { group, size, limit } => Stop::OverLimit {
            line,
            group,
            size,
            limit,
        },
        CommandError::NotMovable => Stop::NotMovable(line),
        CommandError::ArenaFull { elements } => Stop::ArenaFull(elements),
        CommandError::OutOfMemory => Stop::OutOfMemory,
    }
}
