// What no clause says: that tasks are in work at once. And `run_tasks` at a concrete type.
ghost use Rattle.std.specs.Prelude.{◌≡◌, ◌*◌, ◌%◌, ◌^◌};

use crate::waiting::{Meeting, have_met, no_flags};
use sd_parts::{Gate, Open, Task, run_tasks};
use std::alloc::{AllocError, Global};
use std::thread::Threads;

/// A number to be squared, behind a gate.
#[derive(Drop)]
struct Square<G> {
    gate: G,
    part: u32,
    root: u64,
}

impl<G: Gate + Drop> Task for Square<G> {
    type Answer = u64;

    ghost answers = { λ t square. square ≡ t.root * t.root % 2 ^ 64 };

    fn work(self) -> u64 {
        self.gate.enter(self.part);
        self.root.wrapping_mul(self.root)
    }
}

// Whether the squares of the numbers below n, by so many workers, at least 1 and at most 16, are those of one.
fn are_squares<R: Threads + Sync>(
    rt: &R,
    alloc: Global,
    n: u32,
    workers: u32,
) -> Result<bool, AllocError> {
    let mut tasks = Vec::new(alloc);
    for part in 0..n {
        let root = u64::from(part);
        tasks.push(Square {
            gate: Open,
            part,
            root,
        })?;
    }
    let answers = run_tasks(rt, alloc, tasks, workers.clamp(1, 16))?;
    if answers.len() != n as usize {
        return Ok(false);
    }
    for (root, square) in answers.iter().enumerate() {
        if *square != (root as u64).wrapping_mul(root as u64) {
            return Ok(false);
        }
    }
    Ok(true)
}

// The same of fewer than twenty numbers each, by one worker, two, three, seven and sixteen.
fn are_all_squares<R: Threads + Sync>(rt: &R, alloc: Global) -> Result<bool, AllocError> {
    for workers in [1, 2, 3, 7, 16] {
        for n in 0..20 {
            if !are_squares(rt, alloc, n, workers)? {
                return Ok(false);
            }
        }
    }
    Ok(true)
}

// Whether two tasks meet at their gates with so many workers.
fn two_meet<R: Threads + Sync>(rt: &R, alloc: Global, workers: u32) -> Result<bool, AllocError> {
    let flags = no_flags();
    let mut tasks = Vec::new(alloc);
    for part in 0..2 {
        let gate = Meeting {
            flags: &flags,
            number: part,
        };
        let root = u64::from(part) + 3;
        tasks.push(Square { gate, part, root })?;
    }
    let answers = run_tasks(rt, alloc, tasks, workers.clamp(1, 16))?;
    let are_right = answers.as_slice() == [9, 16].as_slice();
    Ok(are_right && have_met(&flags, false))
}

#[test]
fn tasks_have_the_answers_of_one_worker_and_two_are_in_work_at_once(
    rt: HostRuntime,
) -> Result<(), AllocError> {
    let are_squares = are_all_squares(&rt, rt.alloc())?;
    assert!(rt; are_squares && two_meet(&rt, rt.alloc(), 2)?);
    Ok(())
}
