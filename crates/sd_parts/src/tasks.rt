// Tasks in several threads, by nested calls of `join` alone: no lock, no shared word, no waiting for a message.
//
// The first piece goes to a new thread, and the others stay in this one, where the next is cut off: so no thread waits
// while there is work for it. Each piece is the tasks that are left by the workers that are left, rounded up, so that
// the sizes of two pieces differ by one at most.
ghost use Rattle.std.specs.Prelude.{◌≤◌, IfOk};
ghost use Rattle.std.specs.List.{AllZip};
ghost use denote.Param.Send.{IsSend, IsSync};

use std::alloc::{AllocError, Global};
use std::thread::{Threads, join};

/// Work that is done once. `answers` tells which answers a task may have.
pub trait Task {
    type Answer;

    ghost answers: { Self → Self.Answer → Type 0 };

    fn work(self) -> Self::Answer
        ensures { answers self result };
}

/// Works the tasks in at most so many consecutive pieces, each in a thread of its own where one can be made. The
/// answers stand in the order of the tasks. The only error: out of memory for a list of tasks or answers, and then some
/// tasks may not have been worked.
pub fn run_tasks<R: Threads + Sync, T: Task + Send + Drop>(
    rt: &R,
    alloc: Global,
    tasks: Vec<T>,
    workers: u32,
) -> Result<Vec<T::Answer>, AllocError>
where
    T::Answer: Send + Drop,
    requires at_least_one { 1 ≤ workers }
    requires at_most { workers ≤ 16 }
    ensures { IfOk result (λ v. AllZip T.answers tasks.items v.items) }
{
    work_pieces(rt, alloc, tasks, workers)
}

// The first piece in a new thread, and the rest in this one with one worker less.
fn work_pieces<R: Threads + Sync, T: Task + Send + Drop>(
    rt: &R,
    alloc: Global,
    mut tasks: Vec<T>,
    workers: u32,
) -> Result<Vec<T::Answer>, AllocError>
where
    T::Answer: Send + Drop,
    requires { 1 ≤ workers }
    ensures { IfOk result (λ v. AllZip T.answers tasks.items v.items) }
{
    if workers == 1 || tasks.len() < 2 {
        return work_in_turn(alloc, tasks);
    }
    let size = tasks.len().div_ceil(workers as usize);
    let rest = tasks.split_off(size)?;
    let others = workers - 1;
    let first_piece = move || -> Result<Vec<T::Answer>, AllocError>
        ensures { IfOk result (λ v. AllZip T.answers tasks.items v.items) }
    { work_in_turn(alloc, tasks) };
    let other_pieces = move || -> Result<Vec<T::Answer>, AllocError>
        requires { IsSync R.row × IsSend T.row × IsSend T.Answer.row × (1 ≤ others) }
        ensures { IfOk result (λ v. AllZip T.answers rest.items v.items) }
    { work_pieces(rt, alloc, rest, others) };
    let (first, other) = join(rt, first_piece, other_pieces);
    let mut answers = first?;
    let mut more = other?;
    answers.append(&mut more)?;
    Ok(answers)
}

// The tasks, one after another.
fn work_in_turn<T: Task + Drop>(alloc: Global, tasks: Vec<T>) -> Result<Vec<T::Answer>, AllocError>
where
    T::Answer: Drop,
    ensures { IfOk result (λ v. AllZip T.answers tasks.items v.items) }
{
    let mut answers = Vec::with_capacity(alloc, tasks.len())?;
    for task in tasks {
        answers.push(task.work())?;
    }
    Ok(answers)
}
