// Orders and first and-lines on cycles, of circuits so deep that no recursion would do, and whether ranks tell the
// cycle, of which no contract speaks. The helpers have no contract beside the one that tests what is asked.
ghost use Rattle.std.specs.Prelude.{◌≡◌, ◌<◌, ◌^◌, length, true, IfOk};
ghost use Rattle.sd_circuit.specs.Order.{DefineOnce};

use crate::and_line::And;
use crate::cycles::first_by_ranks;
use crate::definers::{NO_LINE, definers};
use crate::order::{OrderError, order_gates};
use std::alloc::{AllocError, Global};
use std::test::Fail;

// The and-line of these variables.
fn line(defined: u16, first: u16, second: u16) -> And {
    And {
        defined: 2 * u32::from(defined),
        first: 2 * u32::from(first) + 1,
        second: 2 * u32::from(second),
    }
}

// Whether each and-line has literals of these variables, and no two define one variable.
fn define_once(alloc: Global, variables: u32, ands: &[And]) -> Result<bool, AllocError>
    requires few { length ands.now < 2 ^ 31 }
    ensures { IfOk result (λ so. so ≡ true → DefineOnce variables ands.now) }
{
    let mut table = vec![in alloc; NO_LINE; variables as usize + 1]?;
    for index in 0..ands.len() as u32 {
        let and = ands[index as usize];
        if and.defined / 2 > variables || and.first / 2 > variables || and.second / 2 > variables {
            return Ok(false);
        }
        table[(and.defined / 2) as usize] = index;
    }
    for index in 0..ands.len() as u32 {
        let and = ands[index as usize];
        if table[(and.defined / 2) as usize] != index {
            return Ok(false);
        }
    }
    Ok(true)
}

// What is answered, with how many are ordered in place of the order, and the first on a cycle by ranks alone.
type Answers = (Option<usize>, Option<u32>, Option<u32>);

// The answers on and-lines.
fn answers(alloc: Global, variables: u32, ands: &[And]) -> Result<Answers, AllocError> {
    if ands.len() >= 1 << 31 || !define_once(alloc, variables, ands)? {
        return Ok((None, None, None));
    }
    let table = definers(alloc, variables, ands)?;
    let by_ranks = first_by_ranks(alloc, ands, &table)?;
    Ok(match order_gates(alloc, variables, ands) {
        Ok(order) => (Some(order.len()), None, by_ranks),
        Err(OrderError::Cycle { index }) => (None, Some(index), by_ranks),
        Err(OrderError::OutOfMemory) => (None, None, by_ranks),
    })
}

// And-lines of which each uses the next one, from the variable 1,000,001 down to 2, and the last one this variable.
fn chain(alloc: Global, last: u32) -> Result<Vec<And>, AllocError> {
    let mut ands = Vec::new(alloc);
    for index in 0..1_000_000u32 {
        let used = if index == 999_999 {
            last
        } else {
            1_000_000 - index
        };
        ands.push(And {
            defined: 2 * (1_000_001 - index),
            first: used.wrapping_mul(2),
            second: 2,
        })?;
    }
    Ok(ands)
}

// The answers of the chain.
fn of_chain(alloc: Global, last: u32) -> Result<Answers, AllocError> {
    answers(alloc, 1_000_001, &chain(alloc, last)?)
}

/// A chain of 1,000,000 gates of which each stands before what it uses, a cycle of one gate at its end, and one of all
/// of them.
#[test]
fn a_chain(rt: HostRuntime) {
    let alloc = rt.alloc();
    let found = [
        of_chain(alloc, 1),
        of_chain(alloc, 2),
        of_chain(alloc, 1_000_001),
    ];
    let expected = [
        Ok((Some(1_000_000), None, None)),
        Ok((None, Some(999_999), Some(999_999))),
        Ok((None, Some(0), Some(0))),
    ];
    assert!(rt; found == expected);
}

/// Two cycles, with an and-line before them that leads into both, one between that one of them leads to and that leads
/// to the other, and one that nothing leads to; then the same lines reversed.
#[test]
fn two_cycles(rt: HostRuntime) {
    let alloc = rt.alloc();
    let mut ands = [
        line(2, 3, 5),
        line(7, 5, 1),
        line(8, 1, 1),
        line(3, 7, 4),
        line(4, 3, 1),
        line(5, 6, 8),
        line(6, 5, 1),
    ];
    let found = answers(alloc, 8, &ands);
    ands.reverse();
    let reversed = answers(alloc, 8, &ands);
    let expected = [Ok((None, Some(3), Some(3))), Ok((None, Some(0), Some(0)))];
    assert!(rt; [found, reversed] == expected);
}

// The number after this one in a sequence without a plan (the multiplier of Knuth's MMIX).
fn next(state: u64) -> u64 {
    state
        .wrapping_mul(6_364_136_223_846_793_005)
        .wrapping_add(1_442_695_040_888_963_407)
}

// The input, or for every third number one of the variables 1 to 13.
fn some_variable(state: u64) -> u32 {
    if (state >> 40) % 3 == 0 {
        1 + ((state >> 48) % 13) as u32
    } else {
        1
    }
}

// 12 and-lines, which define the variables 2 to 13, with right sides after a sequence that begins here.
fn mixed(alloc: Global, seed: u32) -> Result<Vec<And>, AllocError> {
    let mut ands = Vec::new(alloc);
    let mut state = next(u64::from(seed));
    for index in 0..12u32 {
        let first = some_variable(state);
        state = next(state);
        let second = some_variable(state);
        state = next(state);
        ands.push(And {
            defined: 2 * (index + 2),
            first: first.wrapping_mul(2),
            second: second.wrapping_mul(2),
        })?;
    }
    Ok(ands)
}

// Of so many circuits, those that have a cycle, and those of them of which the ranks don't tell it.
fn cycles_and_untold(alloc: Global, count: u32) -> Result<(u32, u32), AllocError> {
    let mut cycles = 0u32;
    let mut untold = 0u32;
    for seed in 0..count {
        let ands = mixed(alloc, seed)?;
        let (_, cycle, by_ranks) = answers(alloc, 13, &ands)?;
        if cycle.is_some() {
            cycles = cycles.saturating_add(1);
        }
        if cycle != by_ranks {
            untold = untold.saturating_add(1);
        }
    }
    Ok((cycles, untold))
}

/// Where there is a cycle the ranks tell its first and-line, so that it is never asked for one by one.
#[test]
fn ranks_tell(rt: HostRuntime) -> Result<(), Fail> {
    let (cycles, untold) = cycles_and_untold(rt.alloc(), 20_000)?;
    assert!(rt; cycles > 2_000 && cycles < 18_000 && untold == 0);
    Ok(())
}
