//! The choice among the three starts.

ghost use Rattle.std.specs.Prelude.{◌≡◌, ◌<◌, ◌≤◌, ◌∷◌, [], ℕ, length, IfOk, IfErr, Some, None};
ghost use Rattle.std.specs.List.{AllZip};
ghost use Rattle.sd_formula.specs.Dimacs.{Groups};
ghost use Rattle.sd_starts.specs.Starts.{AnswersStart, IsChoiceRefused, IsChosenStart};
ghost use Rattle.sd_starts.specs.Deciding.{AnswerEach, Decides, decider, judged, judged_end, kept_at};
ghost use Rattle.sd_starts.specs.Deciding as deciding;

use crate::start::{Settings, Start};
use crate::work::{Done, StartAnswer, StartTask};
use sd_cache::Cache;
use sd_compile::CompileError;
use sd_formula::Formula;
use sd_manager::{Manager, Root};
use sd_parts::{Gate, run_tasks};
use sd_search::Outcome;
use std::alloc::{AllocError, Global};
use std::thread::Threads;

/// The start that was chosen. Its manager holds the formula at the root and nothing else.
#[derive(Drop)]
pub struct Chosen {
    pub start: Start,
    pub manager: Manager,
    pub cache: Cache,
    pub root: Root,
    /// The size of the formula's diagram.
    pub size: u32,
    /// What the search found, where one was asked for.
    pub search: Option<Outcome>,
}

/// Why no start was chosen. By the limit: the formula passes it at each start, and the group and the size are those at
/// the balanced one. By a full arena: that of a start, where the work at each start before it, in the order balanced,
/// right, left, may have had room. For want of memory: no contract says where it lacked.
#[derive(Drop)]
pub struct Refused {
    pub error: CompileError,
    /// The manager of a start at which the arena was full, where that is the reason, and else none. Its arena is the
    /// one of the error. It holds nothing, and its vtree is that of the start, or one to which a search had come from
    /// there.
    pub manager: Option<Manager>,
}

// What an answer shows of the work at a start: room or memory lacked, or it ended with a size, or it passed the limit.
#[derive(Clone, Copy, Debug, PartialEq, Eq)]
pub(crate) enum Judged {
    Stopped,
    Ended(u32),
    Passed,
}

/// Compiles and searches a formula alone at each start, by at most so many workers, of which there are 1 to 16, and
/// chooses the start with the least size, the first in the order balanced, right, left among equals. Where room or
/// memory lacked at a start, there may be no choice, though others ended. The gates are those of the starts in this
/// order; each is entered with the start's number in it, counted from 0.
pub fn choose_start<R: Threads + Sync, G: Gate + Send + Drop>(
    rt: &R,
    alloc: Global,
    formula: &Formula,
    settings: Settings,
    workers: u32,
    gates: [G; 3],
) -> Result<Chosen, Refused>
    requires at_least_one { 1 ≤ workers }
    requires at_most { workers ≤ 16 }
    ensures chosen { IfOk result (IsChosenStart formula.now settings) }
    ensures refused { IfErr result (IsChoiceRefused formula.now settings) }
{
    let tasks = match tasks_of(alloc, formula, settings, gates) {
        Ok(tasks) => tasks,
        Err(_) => return Err(out_of_memory()),
    };
    match run_tasks(rt, alloc, tasks, workers) {
        Ok(answers) => choose(answers),
        Err(_) => Err(out_of_memory()),
    }
}

// The refusal for want of memory.
fn out_of_memory() -> Refused
    ensures error { result.error ≡ CompileError.OutOfMemory }
    ensures manager { result.manager ≡ None }
{
    Refused {
        error: CompileError::OutOfMemory,
        manager: None,
    }
}

// The tasks of the three starts, in their order.
fn tasks_of<'a, G: Drop>(
    alloc: Global,
    formula: &'a Formula,
    settings: Settings,
    gates: [G; 3],
) -> Result<Vec<StartTask<'a, G>>, AllocError>
    ensures { IfOk result (λ tasks. AllZip (λ start t.
        (t.start ≡ start) × (t.formula.now ≡ formula.now) × (t.settings ≡ settings))
        (Start.Balanced ∷ Start.Right ∷ Start.Left ∷ []) tasks.items) }
{
    let [balanced, right, left] = gates;
    let mut tasks = Vec::with_capacity(alloc, 3)?;
    tasks.push(task_at(alloc, formula, settings, Start::Balanced, balanced))?;
    tasks.push(task_at(alloc, formula, settings, Start::Right, right))?;
    tasks.push(task_at(alloc, formula, settings, Start::Left, left))?;
    Ok(tasks)
}

// The task of a start.
fn task_at<'a, G>(
    alloc: Global,
    formula: &'a Formula,
    settings: Settings,
    start: Start,
    gate: G,
) -> StartTask<'a, G>
    ensures start { result.start ≡ start }
    ensures formula { result.formula.now ≡ formula.now }
    ensures settings { result.settings ≡ settings }
{
    StartTask {
        gate,
        start,
        alloc,
        formula,
        settings,
    }
}

// The choice among the answers of the three starts, in their order. The one that decides alone is taken out.
fn choose(mut answers: Vec<Result<StartAnswer, AllocError>>) -> Result<Chosen, Refused>
    requires { length answers.items ≡ 3 }
    ensures chosen { (f : Groups) (settings : Settings) → AnswerEach f settings answers.items
        → IfOk result (IsChosenStart f settings) }
    ensures refused { (f : Groups) (settings : Settings) → AnswerEach f settings answers.items
        → IfErr result (IsChoiceRefused f settings) }
{
    let start = deciding(judge(&answers[0]), judge(&answers[1]), judge(&answers[2]));
    let answer = answers.swap_remove(start.rank() as usize);
    decide(start, answer)
}

// What an answer shows.
fn judge(answer: &Result<StartAnswer, AllocError>) -> Judged
    ensures { result ≡ judged answer.now }
{
    match answer {
        Ok(answer) => judge_end(&answer.end),
        Err(_) => Judged::Stopped,
    }
}

// The same of the end of the work.
fn judge_end(end: &Result<Done, CompileError>) -> Judged
    ensures { result ≡ judged_end end.now }
{
    match end {
        Ok(done) => Judged::Ended(done.size),
        Err(CompileError::OverLimit { .. }) => Judged::Passed,
        Err(CompileError::ArenaFull { .. }) => Judged::Stopped,
        Err(CompileError::OutOfMemory) => Judged::Stopped,
    }
}

// The start that decides: the first at which room or memory lacked; else the one with the least size, the first among
// equals; else the balanced one.
fn deciding(balanced: Judged, right: Judged, left: Judged) -> Start
    ensures { result ≡ decider balanced right left }
{
    if balanced == Judged::Stopped {
        return Start::Balanced;
    }
    if right == Judged::Stopped {
        return Start::Right;
    }
    if left == Judged::Stopped {
        return Start::Left;
    }
    if is_less(left, balanced) && is_less(left, right) {
        return Start::Left;
    }
    if is_less(right, balanced) {
        return Start::Right;
    }
    Start::Balanced
}

// Whether the one ended with a lesser size than the other, or the other with none.
fn is_less(one: Judged, other: Judged) -> bool
    ensures { result ≡ deciding.is_less one other }
{
    match one {
        Judged::Ended(size) => match other {
            Judged::Ended(bound) => size < bound,
            _ => true,
        },
        _ => false,
    }
}

// What the answer that decides comes to.
fn decide(start: Start, answer: Result<StartAnswer, AllocError>) -> Result<Chosen, Refused>
    ensures { (f : Groups) (settings : Settings) → IfOk answer (AnswersStart f settings start)
        → Decides f settings start (judged answer) result }
{
    match answer {
        Ok(answer) => decide_by(start, answer),
        Err(_) => Err(out_of_memory()),
    }
}

// The same where there was memory for a manager.
fn decide_by(start: Start, answer: StartAnswer) -> Result<Chosen, Refused>
    ensures { (f : Groups) (settings : Settings) → AnswersStart f settings start answer
        → Decides f settings start (judged_end answer.end) result }
{
    let StartAnswer {
        manager,
        cache,
        end,
    } = answer;
    match end {
        Ok(done) => Ok(Chosen {
            start,
            manager,
            cache,
            root: done.root,
            size: done.size,
            search: done.search,
        }),
        Err(error) => Err(Refused {
            error,
            manager: kept_at(error, manager),
        }),
    }
}

/// The manager at which work was refused, where its arena was full.
pub fn kept_at(error: CompileError, manager: Manager) -> Option<Manager>
    ensures { result ≡ kept_at error manager }
{
    match error {
        CompileError::OverLimit { .. } => None,
        CompileError::ArenaFull { .. } => Some(manager),
        CompileError::OutOfMemory => None,
    }
}
