// The commands of a job, with the files that its script loads.
ghost use Rattle.std.specs.Prelude.{◌≡◌, ℕ, ◌≤◌, ◌<◌, ◌∷◌, ◌++◌, List, [], IfOk, OnOk, None, length};
ghost use Rattle.std.specs.List.{AllByRecursion};
ghost use Rattle.sd_base.specs.Asked.{Adds};
ghost use Rattle.sd_base.specs.Shelf.{NoFile};
ghost use Rattle.sd_model.specs.Tree.{Tree};
ghost use Rattle.sd_script.specs.Read.{IsScript, reads};
ghost use Rattle.sd_script.specs.Commands.{writes};
ghost use Rattle.sd_commands.specs.Fits.{AllFit};
ghost use Rattle.sd_commands.specs.Standing.{lines_of};
ghost use Rattle.sd_commands.specs.declared.command.NumberedCommand.{NumberedCommand as SeenLine};
ghost use Rattle.sd_commands.specs.declared.command.RunCommand.{RunCommand as Seen};
ghost use Rattle.sd_commands.specs.declared.command.RunCommand.TheVariants.{Write};
ghost use Rattle.sd_words.specs.Fitting.{FitsTogether};
ghost use Rattle.sd_tool.specs.Actions.{IsCommandOf, plain_of};
ghost use Rattle.sd_tool.specs.Formats.{AreVariables};
ghost use Rattle.sd_tool.specs.Orders.{AreOrders, IsSource, orders_lines};
ghost use Rattle.sd_tool.specs.PlanViews.{CanOpen};
ghost use Rattle.sd_tool.specs.Readings.{Point, choice, first_state, with_commands, with_lines, with_action};
ghost use Rattle.sd_tool.specs.Stops.{LeadsTo, LeavesFinished};

use crate::formats::{ScriptText, SddText};
use crate::plan::{Opening, Orders, Source, stated_orders};
use crate::stop::Stop;
use crate::texts::read;
use sd_base::{Bits, Name, Shelf};
use sd_commands::{NumberedCommand, RunCommand};
use sd_script::{Action, Indices, Script};
use sd_words::Job;
use std::alloc::{AllocError, Global};

/// What is to be done for a job: the commands of its script, or the stated ones.
pub fn read_orders<F: Shelf>(
    alloc: Global,
    job: &Job,
    source: &Source,
    shelf: &mut F,
) -> Result<Orders, Stop>
    requires hand { F.hand shelf.old ≡ NoFile }
    requires job { FitsTogether job.now }
    requires source { IsSource job.now source.now }
    ensures hand { F.hand shelf.new ≡ NoFile }
    ensures files { F.files shelf.new ≡ F.files shelf.old }
    ensures read_faults { F.read_faults shelf.old ≤ F.read_faults shelf.new }
    ensures write_faults { F.write_faults shelf.new ≡ F.write_faults shelf.old }
    ensures leads { (begin : List SeenLine → Point)
        → LeadsTo (Adds F.asked shelf.old shelf.new) (F.files shelf.old)
        (with_commands job.now source.now.formula.variables (length (lines_of source.now.circuit).outputs)
        (λ lines. begin (choice job.now ++ lines)) job.now.script)
        (λ orders. begin (orders_lines orders))
        result (F.read_faults shelf.old) (F.read_faults shelf.new) }
    ensures fit { IfOk result (AreOrders source.now.formula.variables
        (length (lines_of source.now.circuit).outputs)) }
    ensures opens { (tree : Tree) → IfOk result (λ orders.
        CanOpen (first_state job.now tree (lines_of source.now.circuit)) orders.opening) }
    ensures finished { LeavesFinished result (F.unfinished shelf.old) (F.unfinished shelf.new) }
{
    let variables = source.formula.variables();
    let outputs = source.outputs();
    let Some(file) = &job.script else {
        return match stated_orders(alloc, job, outputs) {
            Ok(orders) => Ok(orders),
            Err(_) => Err(Stop::OutOfMemory),
        };
    };
    let format = ScriptText { variables, outputs };
    let script = read(alloc, &format, file.as_str(), shelf)?;
    let commands = script_commands(alloc, &script, &format, shelf)?;
    Ok(Orders {
        opening: Opening::Nothing,
        commands,
    })
}

// The commands of the lines of a script, one after another.
fn script_commands<F: Shelf>(
    alloc: Global,
    script: &Script,
    format: &ScriptText,
    shelf: &mut F,
) -> Result<Vec<NumberedCommand>, Stop>
    requires hand { F.hand shelf.old ≡ NoFile }
    requires variables { AreVariables format.now.variables }
    requires script { IsScript format.now.variables format.now.outputs script.now }
    requires lines { length script.now.commands ≤ 100000 }
    ensures hand { F.hand shelf.new ≡ NoFile }
    ensures files { F.files shelf.new ≡ F.files shelf.old }
    ensures read_faults { F.read_faults shelf.old ≤ F.read_faults shelf.new }
    ensures write_faults { F.write_faults shelf.new ≡ F.write_faults shelf.old }
    ensures leads { (begin : List SeenLine → Point)
        → LeadsTo (Adds F.asked shelf.old shelf.new) (F.files shelf.old)
        (with_lines format.now.variables script.now begin [] script.now.commands)
        (λ commands. begin commands.items)
        result (F.read_faults shelf.old) (F.read_faults shelf.new) }
    ensures fit { IfOk result (λ commands.
        AllFit format.now.variables format.now.outputs [] commands.items) }
    ensures within_limit { IfOk result (λ commands. length commands.items ≤ 100000) }
    ensures finished { LeavesFinished result (F.unfinished shelf.old) (F.unfinished shelf.new) }
{
    let mut commands = Vec::new(alloc);
    for line in script.commands() {
        match command_of(alloc, script, &line.action, format.variables, shelf) {
            Ok(command) => match put(&mut commands, line.line, command) {
                Ok(()) => {}
                Err(_) => return Err(Stop::OutOfMemory),
            },
            Err(stop) => return Err(stop),
        }
    }
    Ok(commands)
}

// Puts the command of a line behind the others.
fn put(
    commands: &mut Vec<NumberedCommand>,
    line: u32,
    command: RunCommand,
) -> Result<(), AllocError>
    ensures { OnOk result (commands.new.items
        ≡ commands.old.items ++ record { line = line; command = command } ∷ []) }
{
    commands.push(NumberedCommand { line, command })?;
    Ok(())
}

// A command of a script as one of the run; a file that it loads is read.
fn command_of<F: Shelf>(
    alloc: Global,
    script: &Script,
    action: &Action,
    variables: u32,
    shelf: &mut F,
) -> Result<RunCommand, Stop>
    requires hand { F.hand shelf.old ≡ NoFile }
    requires variables { AreVariables variables }
    requires files { AllByRecursion (λ n. n < length script.now.files) (reads action.now
        ++ writes action.now) }
    ensures hand { F.hand shelf.new ≡ NoFile }
    ensures files { F.files shelf.new ≡ F.files shelf.old }
    ensures read_faults { F.read_faults shelf.old ≤ F.read_faults shelf.new }
    ensures write_faults { F.write_faults shelf.new ≡ F.write_faults shelf.old }
    ensures leads { (next : Seen → Point)
        → LeadsTo (Adds F.asked shelf.old shelf.new) (F.files shelf.old)
        (with_action variables script.now next action.now) next
        result (F.read_faults shelf.old) (F.read_faults shelf.new) }
    ensures same { (o : ℕ) → IfOk result (IsCommandOf variables o action.now) }
    ensures finished { LeavesFinished result (F.unfinished shelf.old) (F.unfinished shelf.new) }
{
    match plain_command(alloc, action) {
        Ok(Some(command)) => Ok(command),
        Ok(None) => file_command(alloc, script, action, variables, shelf),
        Err(_) => Err(Stop::OutOfMemory),
    }
}

// The command of an action, if it is one without a file.
fn plain_command(alloc: Global, action: &Action) -> Result<Option<RunCommand>, AllocError>
    ensures { IfOk result (λ command. command ≡ plain_of action.now) }
{
    match action {
        Action::Input(name) => Ok(Some(RunCommand::Input(*name))),
        Action::Output(name, index) => Ok(Some(RunCommand::Output(*name, *index))),
        Action::Lit(name, literal) => Ok(Some(RunCommand::Literal(*name, *literal))),
        Action::Constant(name, value) => Ok(Some(RunCommand::Constant(*name, *value))),
        Action::Binary(operation, name, a, b) => {
            Ok(Some(RunCommand::Combine(*operation, *name, *a, *b)))
        }
        Action::Not(name, a) => Ok(Some(RunCommand::Negate(*name, *a))),
        Action::Given(name, a, literal) => Ok(Some(RunCommand::Given(*name, *a, *literal))),
        Action::Forget(name, a, variable) => Ok(Some(RunCommand::Forget(*name, *a, *variable))),
        Action::Drop(name) => Ok(Some(RunCommand::Drop(*name))),
        Action::Turn(kind, position) => Ok(Some(RunCommand::Turn(*kind, *position))),
        Action::Minimise(rounds) => Ok(Some(RunCommand::Minimise(*rounds))),
        Action::Limit(limit) => Ok(Some(RunCommand::Limit(*limit))),
        Action::Same(a, b) => Ok(Some(RunCommand::Same(*a, *b))),
        Action::Size(name) => Ok(Some(RunCommand::Size(*name))),
        Action::Value(name, bits) => Ok(Some(RunCommand::Value(*name, copy_of_bits(alloc, bits)?))),
        _ => Ok(None),
    }
}

// A copy of truth values.
fn copy_of_bits(alloc: Global, bits: &Bits) -> Result<Bits, AllocError>
    ensures { IfOk result (λ copy. copy ≡ bits.now) }
{
    Ok(Bits::new(bits.as_slice().to_vec(alloc)?))
}

// The command of an action with a file; a file that it loads is read.
fn file_command<F: Shelf>(
    alloc: Global,
    script: &Script,
    action: &Action,
    variables: u32,
    shelf: &mut F,
) -> Result<RunCommand, Stop>
    requires hand { F.hand shelf.old ≡ NoFile }
    requires variables { AreVariables variables }
    requires files { AllByRecursion (λ n. n < length script.now.files) (reads action.now
        ++ writes action.now) }
    requires with_file { plain_of action.now ≡ None }
    ensures hand { F.hand shelf.new ≡ NoFile }
    ensures files { F.files shelf.new ≡ F.files shelf.old }
    ensures read_faults { F.read_faults shelf.old ≤ F.read_faults shelf.new }
    ensures write_faults { F.write_faults shelf.new ≡ F.write_faults shelf.old }
    ensures leads { (next : Seen → Point) → LeadsTo (Adds F.asked shelf.old shelf.new)
        (F.files shelf.old) (with_action variables script.now next action.now) next result
        (F.read_faults shelf.old) (F.read_faults shelf.new) }
    ensures same { (o : ℕ) → IfOk result (IsCommandOf variables o action.now) }
    ensures finished { LeavesFinished result (F.unfinished shelf.old) (F.unfinished shelf.new) }
{
    match action {
        Action::Load(name, file) => {
            let read = read(alloc, &SddText { variables }, script.file(*file), shelf)?;
            Ok(RunCommand::Load(*name, read))
        }
        Action::Write(names, file) => match write_command(alloc, names, script.file(*file)) {
            Ok(command) => Ok(command),
            Err(_) => Err(Stop::OutOfMemory),
        },
        Action::Vtree(file) => match Name::copy_of(alloc, script.file(*file)) {
            Ok(file) => Ok(RunCommand::WriteVtree(file)),
            Err(_) => Err(Stop::OutOfMemory),
        },
        _ => unreachable!(),
    }
}

// The command that writes the diagrams of names to a file.
fn write_command(alloc: Global, names: &Indices, file: &str) -> Result<RunCommand, AllocError>
    ensures { IfOk result (λ command. command ≡ Write names.now file.now) }
{
    let names = Indices::new(names.as_slice().to_vec(alloc)?);
    Ok(RunCommand::Write(names, Name::copy_of(alloc, file)?))
}
