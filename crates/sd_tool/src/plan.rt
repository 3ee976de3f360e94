// What the commands of a run begin with, and the commands of a run without a script.
ghost use Rattle.std.specs.Prelude.{◌≡◌, ℕ, ◌+◌, ◌≤◌, ◌++◌, OnOk, IfOk, length, map};
ghost use Rattle.std.specs.Option.{option_to_list};
ghost use Rattle.sd_commands.specs.Standing.{lines_of};
ghost use Rattle.sd_commands.specs.declared.command.RunCommand.TheVariants.{Output, Size, Write, WriteVtree};
ghost use Rattle.sd_words.specs.Fitting.{FitsTogether, IsFormulaWord};
ghost use Rattle.sd_tool.specs.Orders.{AreOrders, opening_for, opened_lines, orders_lines};
ghost use Rattle.sd_tool.specs.Orders.{AreInputsOf, inputs_point};
ghost use Rattle.sd_tool.specs.PlanViews.{IsReady, IsTold, plan_of};
ghost use Rattle.sd_tool.specs.Readings.{announcement, binding, choice, default_of, first_names, input_command};
ghost use Rattle.sd_tool.specs.inside.Plans.{point_of};
ghost use Rattle.sd_tool.specs.inside.Readings.{for_file, in_lines, search_of};

use sd_base::Name;
use sd_circuit::Circuit;
use sd_commands::{NumberedCommand, RunCommand, RunState};
use sd_formula::Formula;
use sd_script::Indices;
use sd_vtree::Vtree;
use sd_words::{InputWord, Job};
use std::alloc::{AllocError, Global};

/// What workers do before the commands.
#[derive(Clone, Copy, Debug)]
pub enum Opening {
    Nothing,
    /// Name 0 is bound to the formula, in so many parts.
    Parts(u32),
    /// A start is chosen, name 0 is bound to the formula over it, and a search of so many rounds follows, where they
    /// are there.
    Choice(Option<u32>),
}

/// What a run is about: a formula; or a circuit, beside a formula without groups over its inputs.
#[derive(Drop)]
pub struct Source {
    /// The formula, without groups where there is a circuit.
    pub formula: Formula,
    /// The circuit, if it is one.
    pub circuit: Option<Circuit>,
}

/// What is to be done: what workers do, and the commands behind it.
#[derive(Drop)]
pub struct Orders {
    /// What workers do first.
    pub opening: Opening,
    /// What is done one by one then.
    pub commands: Vec<NumberedCommand>,
}

/// The inputs of a run, once they are read.
#[derive(Drop)]
pub struct Inputs {
    /// The formula or the circuit.
    pub source: Source,
    /// The vtree that the run begins with, over the variables of the source.
    pub vtree: Vtree,
    /// What is to be done with them.
    pub orders: Orders,
}

/// All that a run does, once its inputs are read.
#[derive(Drop)]
pub struct RunPlan {
    /// The input, to which `input` binds a name.
    pub formula: Formula,
    /// The state that the commands begin with: the start vtree, the circuit, and no names.
    pub state: RunState,
    /// The line of a generated formula.
    pub told: Option<NumberedCommand>,
    /// What workers do, behind that line.
    pub opening: Opening,
    /// How many workers do the opening, 1 to 16.
    pub workers: u32,
    /// Each with its line, and a loaded file with its nodes.
    pub commands: Vec<NumberedCommand>,
}

impl Source {
    /// How many outputs the circuit has; none for a formula.
    pub fn outputs(&self) -> u32
        ensures value { result ≡ length (lines_of self.now.circuit).outputs }
        ensures within_limit { result ≤ 1024 }
    {
        match &self.circuit {
            Some(circuit) => circuit.outputs(),
            None => 0,
        }
    }
}

/// The plan of a job over its inputs.
pub fn make_plan(alloc: Global, job: &Job, inputs: Inputs) -> Result<RunPlan, AllocError>
    requires job { FitsTogether job.now }
    requires inputs { AreInputsOf job.now inputs }
    ensures made { IfOk result (λ plan. point_of (plan_of plan) ≡ inputs_point job.now inputs) }
    ensures ready { IfOk result IsReady }
{
    let Inputs {
        source,
        vtree,
        orders,
    } = inputs;
    let told = told_of(job, &source.formula);
    let state = RunState::new(
        alloc,
        vtree,
        job.limit,
        job.slack,
        job.every,
        source.circuit,
    )?;
    Ok(RunPlan {
        formula: source.formula,
        state,
        told,
        opening: orders.opening,
        workers: job.workers,
        commands: orders.commands,
    })
}

// The line of a generated formula.
fn told_of(job: &Job, formula: &Formula) -> Option<NumberedCommand>
    ensures told { option_to_list result ≡ announcement job.now.input formula.now }
    ensures one { IsTold result }
{
    match &job.input {
        InputWord::Generate { .. } => Some(NumberedCommand {
            line: 0,
            command: RunCommand::Generated(formula.variables(), formula.groups() as u32),
        }),
        _ => None,
    }
}

/// What is done without a script: the opening, and the commands behind it, in the lines that they have in the script
/// for which they stand.
pub fn stated_orders(alloc: Global, job: &Job, outputs: u32) -> Result<Orders, AllocError>
    requires job { FitsTogether job.now }
    requires few { outputs ≤ 1024 }
    requires formula { IsFormulaWord job.now.input → outputs ≡ 0 }
    ensures lines { IfOk result (λ orders. orders_lines orders
        ≡ choice job.now ++ default_of job.now outputs) }
    ensures fit { (v : ℕ) → IfOk result (AreOrders v outputs) }
    ensures opening { IfOk result (λ orders. orders.opening ≡ opening_for job.now) }
{
    let mut lines = stated_lines(alloc, job, outputs)?;
    let opening = opening_of(job);
    let commands = lines.split_off(opening.lines())?;
    Ok(Orders { opening, commands })
}

impl Opening {
    // How many lines of a script without a choice it does.
    fn lines(self) -> usize
        ensures { result ≡ opened_lines self }
    {
        match self {
            Opening::Nothing => 0,
            Opening::Parts(_) | Opening::Choice(None) => 1,
            Opening::Choice(Some(_)) => 2,
        }
    }
}

// What workers do for the words.
fn opening_of(job: &Job) -> Opening
    ensures { result ≡ opening_for job.now }
{
    if job.portfolio {
        return Opening::Choice(job.minimise);
    }
    match job.parts {
        Some(count) => Opening::Parts(count),
        None => Opening::Nothing,
    }
}

// The commands of a run without a script, with those that workers do.
fn stated_lines(alloc: Global, job: &Job, outputs: u32) -> Result<Vec<NumberedCommand>, AllocError>
    requires few { outputs ≤ 1024 }
    ensures { IfOk result (λ lines. lines.items ≡ default_of job.now outputs) }
{
    let names = names_of(alloc, outputs)?;
    let mut commands = Vec::new(alloc);
    push_binding(&mut commands, job, outputs, &names)?;
    push_search(&mut commands, job.minimise)?;
    push_vtree(alloc, &mut commands, &job.out_vtree)?;
    push_diagrams(alloc, &mut commands, &names, &job.out_sdd)?;
    push_sizes(&mut commands, &names)?;
    numbered(alloc, commands)
}

// The names of a run without a script.
fn names_of(alloc: Global, outputs: u32) -> Result<Vec<u32>, AllocError>
    requires few { outputs ≤ 1024 }
    ensures names { IfOk result (λ names. names.items ≡ first_names outputs) }
    ensures few { IfOk result (λ names. length names.items ≤ 1024) }
{
    let count = outputs.max(1);
    let mut names = Vec::with_capacity(alloc, count as usize)?;
    for name in 0..count {
        names.push(name)?;
    }
    Ok(names)
}

// The commands that bind them.
fn push_binding(
    commands: &mut Vec<RunCommand>,
    job: &Job,
    outputs: u32,
    names: &[u32],
) -> Result<(), AllocError>
    requires names { names.now ≡ first_names outputs }
    requires few { length names.now ≤ 1024 }
    ensures commands { OnOk result (commands.new.items
        ≡ commands.old.items ++ binding job.now outputs) }
    ensures count { OnOk result (length commands.new.items ≤ length commands.old.items + 1024) }
{
    if outputs == 0 {
        commands.push(input_of(job))?;
    } else {
        push_outputs(commands, names)?;
    }
    Ok(())
}

// The command that binds a name to the formula.
fn input_of(job: &Job) -> RunCommand
    ensures { result ≡ input_command job.now }
{
    match job.parts {
        Some(count) => RunCommand::InputByParts(0, count),
        None => RunCommand::Input(0),
    }
}

// The commands that bind each of these names to the output of its number.
fn push_outputs(commands: &mut Vec<RunCommand>, names: &[u32]) -> Result<(), AllocError>
    ensures commands { OnOk result (commands.new.items
        ≡ commands.old.items ++ map (λ i. Output i i) names.now) }
    ensures count { OnOk result (length commands.new.items
        ≡ length commands.old.items + length names.now) }
{
    for name in names {
        commands.push(RunCommand::Output(*name, *name))?;
    }
    Ok(())
}

fn push_search(commands: &mut Vec<RunCommand>, rounds: Option<u32>) -> Result<(), AllocError>
    ensures commands { OnOk result (commands.new.items
        ≡ commands.old.items ++ search_of rounds) }
    ensures count { OnOk result (length commands.new.items ≤ length commands.old.items + 1) }
{
    if let Some(rounds) = rounds {
        commands.push(RunCommand::Minimise(rounds))?;
    }
    Ok(())
}

fn push_vtree(
    alloc: Global,
    commands: &mut Vec<RunCommand>,
    file: &Option<Name>,
) -> Result<(), AllocError>
    ensures commands { OnOk result (commands.new.items
        ≡ commands.old.items ++ for_file WriteVtree file.now) }
    ensures count { OnOk result (length commands.new.items ≤ length commands.old.items + 1) }
{
    if let Some(file) = file {
        commands.push(RunCommand::WriteVtree(Name::copy_of(alloc, file.as_str())?))?;
    }
    Ok(())
}

fn push_diagrams(
    alloc: Global,
    commands: &mut Vec<RunCommand>,
    names: &[u32],
    file: &Option<Name>,
) -> Result<(), AllocError>
    ensures commands { OnOk result (commands.new.items
        ≡ commands.old.items ++ for_file (Write names.now) file.now) }
    ensures count { OnOk result (length commands.new.items ≤ length commands.old.items + 1) }
{
    if let Some(file) = file {
        let names = Indices::new(names.to_vec(alloc)?);
        commands.push(RunCommand::Write(names, Name::copy_of(alloc, file.as_str())?))?;
    }
    Ok(())
}

fn push_sizes(commands: &mut Vec<RunCommand>, names: &[u32]) -> Result<(), AllocError>
    ensures commands { OnOk result (commands.new.items
        ≡ commands.old.items ++ map Size names.now) }
    ensures count { OnOk result (length commands.new.items
        ≡ length commands.old.items + length names.now) }
{
    for name in names {
        commands.push(RunCommand::Size(*name))?;
    }
    Ok(())
}

// The commands in lines from 1 on.
fn numbered(alloc: Global, commands: Vec<RunCommand>) -> Result<Vec<NumberedCommand>, AllocError>
    requires few { length commands.items ≤ 100000 }
    ensures { IfOk result (λ lines. lines.items ≡ in_lines 1 commands.items) }
{
    let mut lines = Vec::with_capacity(alloc, commands.len())?;
    for command in commands {
        let line = lines.len() as u32 + 1;
        lines.push(NumberedCommand { line, command })?;
    }
    Ok(lines)
}
