// The words and the input files, up to the first command. What is asked for stands here in its order; how a file is
// read stands in `texts` and `formats`, and what is made of all in `plan`.
ghost use Rattle.std.specs.Prelude.{◌≡◌, ◌≤◌, ℕ, List, Option, Some, None, Ok, Err, IfOk, MatchResult};
ghost use Rattle.std.specs.Prelude.{length, map, string_bytes};
ghost use Rattle.sd_base.specs.Asked.{Adds};
ghost use Rattle.sd_base.specs.Files.{Files};
ghost use Rattle.sd_base.specs.Shelf.{NoFile};
ghost use Rattle.sd_commands.specs.Standing.{lines_of};
ghost use Rattle.sd_formula.specs.Formulas.{no_groups};
ghost use Rattle.sd_formula.specs.Generated.{generated_formula};
ghost use Rattle.sd_formula.specs.declared.formula.Kind.TheVariants as kinds;
ghost use Rattle.sd_model.specs.Tree.{leaves};
ghost use Rattle.sd_vtree.specs.Numbered.{plain_tree};
ghost use Rattle.sd_words.specs.Fitting.{FitsTogether};
ghost use Rattle.sd_words.specs.declared.jobs.Job.{Job as SeenJob};
ghost use Rattle.sd_words.specs.declared.jobs.InputWord.TheVariants as words;
ghost use Rattle.sd_tool.specs.inside.Asks.{IsNone};
ghost use Rattle.sd_tool.specs.inside.Plans.{point_of};
ghost use Rattle.sd_tool.specs.Formats.{AreVariables, HasBothKinds, checked_of};
ghost use Rattle.sd_tool.specs.Orders.{AreInputsOf, IsNoCheck, IsSource, inputs_point};
ghost use Rattle.sd_tool.specs.PlanViews.{plan_of, IsReady};
ghost use Rattle.sd_tool.specs.Readings.{reading_of, with_check, with_checked, with_input_word};
ghost use Rattle.sd_tool.specs.Readings.{with_tree, with_tree_word};
ghost use Rattle.sd_tool.specs.Stops.{LeadsTo, LeavesFinished};
ghost use Rattle.sd_tool.specs.declared.stop.Stop.TheVariants as stops;

use crate::formats::{
    CircuitText, FormulaText, SddText, VtreeText, VtreeWithIds, VtreeWithIdsText,
};
use crate::plan::{Inputs, Opening, Orders, RunPlan, Source, make_plan};
use crate::refusal::Refusal;
use crate::scripts::read_orders;
use crate::stop::Stop;
use crate::texts::read;
use sd_base::Shelf;
use sd_circuit::Circuit;
use sd_commands::{NumberedCommand, RunCommand};
use sd_file::SddFile;
use sd_formula::{Formula, Kind, generate};
use sd_vtree::Vtree;
use sd_words::{InputWord, Job, TreeWord, WordsFault, read_words};
use std::alloc::{AllocError, Global};

/// Reads what the words ask for, up to the first command: the file of the input, the vtree file, the script, and the
/// files that it loads; or the vtree file and the file that is checked.
pub fn prepare<F: Shelf>(alloc: Global, words: &[String], shelf: &mut F) -> Result<RunPlan, Stop>
    requires { F.hand shelf.old ≡ NoFile }
    ensures hand { F.hand shelf.new ≡ NoFile }
    ensures files { F.files shelf.new ≡ F.files shelf.old }
    ensures read_faults { F.read_faults shelf.old ≤ F.read_faults shelf.new }
    ensures write_faults { F.write_faults shelf.new ≡ F.write_faults shelf.old }
    ensures leads { LeadsTo (Adds F.asked shelf.old shelf.new) (F.files shelf.old)
        (reading_of (map string_bytes words.now))
        (λ plan. point_of (plan_of plan)) result (F.read_faults shelf.old) (F.read_faults shelf.new) }
    ensures ready { IfOk result IsReady }
    ensures finished { LeavesFinished result (F.unfinished shelf.old) (F.unfinished shelf.new) }
{
    let job = read_job(alloc, words)?;
    let inputs = read_inputs(alloc, &job, shelf)?;
    match make_plan(alloc, &job, inputs) {
        Ok(plan) => Ok(plan),
        Err(_) => Err(Stop::OutOfMemory),
    }
}

// The job of the words.
fn read_job(alloc: Global, words: &[String]) -> Result<Job, Stop>
    ensures leads { (told : Option Files) (before now : ℕ)
        → LeadsTo IsNone told (reading_of (map string_bytes words.now))
        (λ job. with_input_word job job.input) result before now }
    ensures job { IfOk result FitsTogether }
{
    match read_words(alloc, words) {
        Ok(job) => Ok(job),
        Err(WordsFault::OutOfMemory) => Err(Stop::OutOfMemory),
        Err(fault) => Err(Stop::Refused(Refusal::BadWords(fault))),
    }
}

// The inputs of a job, one after another.
fn read_inputs<F: Shelf>(alloc: Global, job: &Job, shelf: &mut F) -> Result<Inputs, Stop>
    requires hand { F.hand shelf.old ≡ NoFile }
    requires job { FitsTogether job.now }
    ensures hand { F.hand shelf.new ≡ NoFile }
    ensures files { F.files shelf.new ≡ F.files shelf.old }
    ensures read_faults { F.read_faults shelf.old ≤ F.read_faults shelf.new }
    ensures write_faults { F.write_faults shelf.new ≡ F.write_faults shelf.old }
    ensures leads { LeadsTo (Adds F.asked shelf.old shelf.new) (F.files shelf.old)
        (with_input_word job.now job.now.input) (inputs_point job.now) result
        (F.read_faults shelf.old) (F.read_faults shelf.new) }
    ensures ready { IfOk result (AreInputsOf job.now) }
    ensures finished { LeavesFinished result (F.unfinished shelf.old) (F.unfinished shelf.new) }
{
    if let InputWord::Check(file) = &job.input {
        return read_checked(alloc, job, file.as_str(), shelf);
    }
    let source = read_source(alloc, job, shelf)?;
    let vtree = read_tree(alloc, job, &source, shelf)?;
    let orders = read_orders(alloc, job, &source, shelf)?;
    Ok(Inputs {
        source,
        vtree,
        orders,
    })
}

// The formula or the circuit of the job's input, which is no check.
fn read_source<F: Shelf>(alloc: Global, job: &Job, shelf: &mut F) -> Result<Source, Stop>
    requires hand { F.hand shelf.old ≡ NoFile }
    requires job { FitsTogether job.now }
    requires no_check { IsNoCheck job.now.input }
    ensures hand { F.hand shelf.new ≡ NoFile }
    ensures files { F.files shelf.new ≡ F.files shelf.old }
    ensures read_faults { F.read_faults shelf.old ≤ F.read_faults shelf.new }
    ensures write_faults { F.write_faults shelf.new ≡ F.write_faults shelf.old }
    ensures leads { LeadsTo (Adds F.asked shelf.old shelf.new) (F.files shelf.old)
        (with_input_word job.now job.now.input)
        (λ source. with_tree_word job.now source.formula (lines_of source.circuit) job.now.tree)
        result (F.read_faults shelf.old) (F.read_faults shelf.new) }
    ensures source { IfOk result (IsSource job.now) }
    ensures finished { LeavesFinished result (F.unfinished shelf.old) (F.unfinished shelf.new) }
{
    match &job.input {
        InputWord::Cnf(file) => {
            let format = FormulaText { kind: Kind::Cnf };
            Ok(of_formula(read(alloc, &format, file.as_str(), shelf)?))
        }
        InputWord::Dnf(file) => {
            let format = FormulaText { kind: Kind::Dnf };
            Ok(of_formula(read(alloc, &format, file.as_str(), shelf)?))
        }
        InputWord::Generate { count, seed } => Ok(of_formula(make_formula(alloc, *count, *seed)?)),
        InputWord::Aag(file) => {
            let circuit = read(alloc, &CircuitText, file.as_str(), shelf)?;
            Ok(of_circuit(alloc, circuit))
        }
        InputWord::Check(_) => unreachable!(),
    }
}

// A formula, without a circuit.
fn of_formula(formula: Formula) -> Source
    ensures formula { result.formula ≡ formula }
    ensures circuit { result.circuit ≡ None }
{
    Source {
        formula,
        circuit: None,
    }
}

// A circuit, beside a formula without groups over its inputs.
fn of_circuit(alloc: Global, circuit: Circuit) -> Source
    requires { HasBothKinds circuit.text }
    ensures formula { result.formula ≡ no_groups kinds.Cnf (length circuit.text.inputs) }
    ensures circuit { result.circuit ≡ Some circuit }
{
    Source {
        formula: Formula::empty(alloc, Kind::Cnf, circuit.inputs()),
        circuit: Some(circuit),
    }
}

// The generated formula of two numbers, whose ranges were tested with the words.
fn make_formula(alloc: Global, count: u64, seed: u64) -> Result<Formula, Stop>
    ensures { MatchResult result (λ formula. formula ≡ generated_formula count seed)
        (λ stop. stop ≡ stops.OutOfMemory) }
{
    match generate(alloc, count, seed) {
        Ok(formula) => Ok(formula),
        Err(_) => Err(Stop::OutOfMemory),
    }
}

// The start vtree of the job, over the variables of its input.
fn read_tree<F: Shelf>(
    alloc: Global,
    job: &Job,
    source: &Source,
    shelf: &mut F,
) -> Result<Vtree, Stop>
    requires { F.hand shelf.old ≡ NoFile }
    ensures hand { F.hand shelf.new ≡ NoFile }
    ensures files { F.files shelf.new ≡ F.files shelf.old }
    ensures read_faults { F.read_faults shelf.old ≤ F.read_faults shelf.new }
    ensures write_faults { F.write_faults shelf.new ≡ F.write_faults shelf.old }
    ensures leads { LeadsTo (Adds F.asked shelf.old shelf.new) (F.files shelf.old)
        (with_tree_word job.now source.now.formula (lines_of source.now.circuit) job.now.tree)
        (λ vtree. with_tree job.now source.now.formula (lines_of source.now.circuit) (plain_tree vtree))
        result (F.read_faults shelf.old) (F.read_faults shelf.new) }
    ensures variables { IfOk result (λ vtree. leaves (plain_tree vtree) ≡ source.now.formula.variables) }
    ensures finished { LeavesFinished result (F.unfinished shelf.old) (F.unfinished shelf.new) }
{
    let variables = source.formula.variables();
    match &job.tree {
        TreeWord::Balanced => kept(Vtree::balanced(alloc, variables)),
        TreeWord::Right => kept(Vtree::right(alloc, variables)),
        TreeWord::Left => kept(Vtree::left(alloc, variables)),
        TreeWord::File(file) => read(alloc, &VtreeText { variables }, file.as_str(), shelf),
    }
}

// The vtree, if there was memory for it.
fn kept(start: Result<Vtree, AllocError>) -> Result<Vtree, Stop>
    ensures { MatchResult start (λ vtree. result ≡ Ok vtree) (λ _. result ≡ Err stops.OutOfMemory) }
{
    match start {
        Ok(vtree) => Ok(vtree),
        Err(_) => Err(Stop::OutOfMemory),
    }
}

// The vtree file of the words, and this file, which is checked against it.
fn read_checked<F: Shelf>(
    alloc: Global,
    job: &Job,
    file: &str,
    shelf: &mut F,
) -> Result<Inputs, Stop>
    requires hand { F.hand shelf.old ≡ NoFile }
    requires check { job.now.input ≡ words.Check file.now }
    ensures hand { F.hand shelf.new ≡ NoFile }
    ensures files { F.files shelf.new ≡ F.files shelf.old }
    ensures read_faults { F.read_faults shelf.old ≤ F.read_faults shelf.new }
    ensures write_faults { F.write_faults shelf.new ≡ F.write_faults shelf.old }
    ensures leads { LeadsTo (Adds F.asked shelf.old shelf.new) (F.files shelf.old)
        (with_check job.now file.now job.now.tree) (inputs_point job.now) result
        (F.read_faults shelf.old) (F.read_faults shelf.new) }
    ensures ready { IfOk result (AreInputsOf job.now) }
    ensures finished { LeavesFinished result (F.unfinished shelf.old) (F.unfinished shelf.new) }
{
    let TreeWord::File(tree) = &job.tree else {
        return Err(Stop::Refused(Refusal::BadWords(WordsFault::NoVtree)));
    };
    let checked = read(alloc, &VtreeWithIdsText, tree.as_str(), shelf)?;
    let variables = checked.vtree.variables();
    let read_file = read(alloc, &SddText { variables }, file, shelf)?;
    match check_inputs(alloc, checked, read_file) {
        Ok(inputs) => Ok(inputs),
        Err(_) => Err(Stop::OutOfMemory),
    }
}

// The inputs of a check: its one command, over a formula without groups.
fn check_inputs(alloc: Global, checked: VtreeWithIds, file: SddFile) -> Result<Inputs, AllocError>
    requires range { AreVariables (leaves (plain_tree checked.vtree)) }
    requires variables { file.variables ≡ leaves (plain_tree checked.vtree) }
    ensures point { (job : SeenJob) (name : List ℕ) → job.input ≡ words.Check name
        → IfOk result (λ inputs. inputs_point job inputs ≡ with_checked job (checked_of checked) file) }
    ensures ready { (job : SeenJob) → IfOk result (AreInputsOf job) }
{
    let VtreeWithIds { vtree, ids } = checked;
    let formula = Formula::empty(alloc, Kind::Cnf, vtree.variables());
    let mut commands = Vec::new(alloc);
    let command = RunCommand::Check(file, ids);
    commands.push(NumberedCommand { line: 0, command })?;
    Ok(Inputs {
        source: of_formula(formula),
        vtree,
        orders: Orders {
            opening: Opening::Nothing,
            commands,
        },
    })
}
