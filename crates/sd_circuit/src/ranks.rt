// Ranks of and-lines by the strongly connected components of what uses what (Tarjan 1972, in the form of Pearce 2016
// with one number for each).
//
// Nothing is proved of the ranks but how many there are. Who uses them tests what they tell.
ghost use Rattle.std.specs.Prelude.{◌≡◌, ◌<◌, ◌^◌, length, IfOk};

use crate::and_line::And;
use crate::definers::NO_LINE;
use std::alloc::{AllocError, Global};

// The rank of an and-line that was not met.
const NOT_MET: u32 = 0;

// The first and-line that is met has this rank.
const FIRST_MET: u32 = 1;

// The component that is found first has this rank. It is above all ranks of and-lines that wait for theirs.
const FIRST_COMPONENT: u32 = 1 << 31;

// An and-line that is looked at: whether its first right side was, and whether nothing that it leads to was met before
// it and waits.
#[derive(Clone, Copy)]
struct Visit {
    line: u32,
    is_first_done: bool,
    is_root: bool,
}

// The and-lines that are looked at, those that wait for their component, and the next ranks.
#[derive(Drop)]
struct Search {
    visits: Vec<Visit>,
    waiting: Vec<u32>,
    next_met: u32,
    next_component: u32,
}

/// Ranks such that each and-line uses those of lesser rank alone, but for those of its own component, which have its
/// rank. It takes a few steps for each and-line.
pub(crate) fn ranks(alloc: Global, ands: &[And], definers: &[u32]) -> Result<Vec<u32>, AllocError>
    requires few { length ands.now < 2 ^ 31 }
    ensures size { IfOk result (λ ranks. length ranks.items ≡ length ands.now) }
{
    let mut ranks = vec![in alloc; NOT_MET; ands.len()]?;
    let mut search = Search {
        visits: Vec::new(alloc),
        waiting: Vec::new(alloc),
        next_met: FIRST_MET,
        next_component: FIRST_COMPONENT,
    };
    for line in 0..ands.len() as u32 {
        if rank_of(&ranks, line) == NOT_MET {
            enter(&mut search, &mut ranks, line)?;
            walk(ands, definers, &mut search, &mut ranks)?;
        }
    }
    Ok(ranks)
}

// The rank of an and-line, or the greatest number where there is none.
fn rank_of(ranks: &[u32], line: u32) -> u32 {
    match ranks.get(line as usize) {
        Some(rank) => *rank,
        None => u32::MAX,
    }
}

// Gives an and-line a rank.
fn set_rank(ranks: &mut [u32], line: u32, rank: u32) {
    if (line as usize) < ranks.len() {
        ranks[line as usize] = rank;
    }
}

// What a right side of an and-line is defined by, or `NO_LINE`.
fn use_of(ands: &[And], definers: &[u32], line: u32, is_second: bool) -> u32 {
    if line as usize >= ands.len() {
        return NO_LINE;
    }
    let and = ands[line as usize];
    let literal = if is_second { and.second } else { and.first };
    match definers.get((literal / 2) as usize) {
        Some(used) => *used,
        None => NO_LINE,
    }
}

// Meets an and-line.
fn enter(search: &mut Search, ranks: &mut [u32], line: u32) -> Result<(), AllocError> {
    set_rank(ranks, line, search.next_met);
    search.next_met = search.next_met.saturating_add(1);
    search.visits.push(Visit {
        line,
        is_first_done: false,
        is_root: true,
    })?;
    Ok(())
}

// Goes on until all that was met has its rank.
fn walk(
    ands: &[And],
    definers: &[u32],
    search: &mut Search,
    ranks: &mut [u32],
) -> Result<(), AllocError> {
    for _ in 0..u32::MAX {
        if !step(ands, definers, search, ranks)? {
            break;
        }
    }
    Ok(())
}

// Looks at one right side of the and-line that was met last. Answers whether there is one.
fn step(
    ands: &[And],
    definers: &[u32],
    search: &mut Search,
    ranks: &mut [u32],
) -> Result<bool, AllocError> {
    let Some(mut visit) = search.visits.pop() else {
        return Ok(false);
    };
    let used = use_of(ands, definers, visit.line, visit.is_first_done);
    let rank = rank_of(ranks, used);
    if rank == NOT_MET {
        search.visits.push(visit)?;
        enter(search, ranks, used)?;
        return Ok(true);
    }
    if rank < rank_of(ranks, visit.line) {
        set_rank(ranks, visit.line, rank);
        visit.is_root = false;
    }
    if visit.is_first_done {
        leave(search, ranks, visit)?;
        return Ok(true);
    }
    visit.is_first_done = true;
    search.visits.push(visit)?;
    Ok(true)
}

// Leaves an and-line: where it is the root of its component, that gets its rank, and else it waits.
fn leave(search: &mut Search, ranks: &mut [u32], visit: Visit) -> Result<(), AllocError> {
    if !visit.is_root {
        search.waiting.push(visit.line)?;
        return Ok(());
    }
    let least = rank_of(ranks, visit.line);
    settle(&mut search.waiting, ranks, least, search.next_component);
    set_rank(ranks, visit.line, search.next_component);
    search.next_component = search.next_component.saturating_add(1);
    Ok(())
}

// Gives those that wait and were met since the root the rank of their component.
fn settle(waiting: &mut Vec<u32>, ranks: &mut [u32], least: u32, component: u32) {
    while !waiting.is_empty() {
        let line = waiting[waiting.len() - 1];
        if rank_of(ranks, line) < least {
            return;
        }
        let _ = waiting.pop();
        set_rank(ranks, line, component);
    }
}
