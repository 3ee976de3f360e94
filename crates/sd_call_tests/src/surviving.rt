// Which computed answers a sweep leaves: no clause says that one stays known, since what is lost is found anew.
use crate::cases::{Case, State, parity_and_garbage};
use sd_cache::Cache;
use sd_compile::{Pace, sweep_past};
use sd_manager::{FIRST_NODE, Manager};
use std::alloc::{AllocError, Global};
use std::test::Fail;

// A computed answer behind the two numbers that it is about.
type Numbers = (u32, u32, u32);

// The computed answers of the cache. An entry of none is about 0 and 0.
fn answers(alloc: Global, c: &Cache) -> Result<Vec<Numbers>, AllocError> {
    let mut found = Vec::new(alloc);
    for index in 0..c.computed().len() {
        let (first, second, answer) = c.computed().numbers(index);
        if first != 0 || second != 0 {
            found.push((first, second, answer))?;
        }
    }
    Ok(found)
}

// Whether a number is that of a constant, a literal or a node.
fn is_standing(m: &Manager, code: u32) -> bool {
    code < FIRST_NODE || m.is_linked(code - FIRST_NODE)
}

// Those of some answers that name nothing but constants, literals and nodes.
fn standing(alloc: Global, m: &Manager, answers: &[Numbers]) -> Result<Vec<Numbers>, AllocError> {
    let mut found = Vec::new(alloc);
    for index in 0..answers.len() {
        let (first, second, answer) = answers[index];
        if is_standing(m, first) && is_standing(m, second) && is_standing(m, answer) {
            found.push((first, second, answer))?;
        }
    }
    Ok(found)
}

// The answers before a sweep, those of them that name what stands behind it, and the ones that are known then.
#[derive(Drop)]
struct Known {
    before: Vec<Numbers>,
    standing: Vec<Numbers>,
    after: Vec<Numbers>,
}

// Sweeps a case. Answers of an earlier epoch are not known.
fn swept(alloc: Global, case: Case) -> Result<Known, AllocError> {
    let State { mut m, mut c, .. } = case.state;
    let before = answers(alloc, &c)?;
    let mut pace = Pace::of_operations();
    sweep_past(&mut m, &mut c, &mut pace, 0);
    let standing = standing(alloc, &m, before.as_slice())?;
    let after = if c.epoch() == m.epoch() {
        answers(alloc, &c)?
    } else {
        Vec::new(alloc)
    };
    Ok(Known {
        before,
        standing,
        after,
    })
}

/// A sweep that takes a node away leaves just the answers whose nodes stand, in the new epoch: those that made a
/// parity, and not the one at `3 and 5`.
#[test]
fn answers_about_what_stands_survive(rt: HostRuntime) -> Result<(), Fail> {
    let alloc = rt.alloc();
    let found = swept(alloc, parity_and_garbage(alloc)?)?;
    assert!(rt; found.standing.len() < found.before.len());
    assert!(rt; 20 < found.standing.len());
    assert!(rt; found.after == found.standing);
    Ok(())
}
