// What the cache keeps: a contract tells what is found of what was kept, and lets a call keep nothing without memory.
use crate::expect::are_numbers;
use sd_cache::Cache;
use std::alloc::{AllocError, Global};
use std::test::Fail;

// Keeps that the answer of one operation on a number and 5 is the number.
fn keep(cache: &mut Cache, number: u32) -> Result<(), AllocError> {
    cache.keep(0, 0, number, 5, number)
}

// What the cache answers for this number.
fn look(cache: &mut Cache, number: u32) -> Option<u32> {
    cache.look(0, 0, number, 5)
}

// A cache that was asked to keep this many answers of one epoch.
fn with_answers(alloc: Global, count: u32) -> Result<Cache, AllocError> {
    let mut cache = Cache::new(alloc)?;
    for number in 0..count {
        keep(&mut cache, number)?;
    }
    Ok(cache)
}

// Of 65,536 answers and one more, with the first one asked for between: the first, the second and the last.
fn first_and_last(alloc: Global) -> Result<[Option<u32>; 4], AllocError> {
    let mut cache = with_answers(alloc, 65_536)?;
    let first = look(&mut cache, 0);
    keep(&mut cache, 65_536)?;
    let again = look(&mut cache, 0);
    let second = look(&mut cache, 1);
    Ok([first, again, second, look(&mut cache, 65_536)])
}

// How many of 65,536 answers are kept.
fn kept(alloc: Global) -> Result<Option<u32>, AllocError> {
    Ok(u32::try_from(with_answers(alloc, 65_536)?.len()).ok())
}

/// 65,536 answers are all kept. One more drops the one whose last use is the longest ago.
#[test]
fn one_answer_too_many(rt: HostRuntime) -> Result<(), Fail> {
    let [first, again, second, last] = first_and_last(rt.alloc())?;
    let wanted = [Some(65_536), Some(0), Some(0), None, Some(65_536)];
    are_numbers(&[kept(rt.alloc())?, first, again, second, last], &wanted)
}

// Keeps a computed answer of an operation on a number and the next one.
fn compute(alloc: Global, cache: &mut Cache, epoch: u64, number: u32, answer: u32) {
    let mut table = cache.lend(alloc, epoch);
    table.keep(alloc, 1, number, number.saturating_add(1), answer);
    cache.take_back(epoch, table);
}

// The computed answer that is lent in an epoch for an operation on a number and the next one.
fn computed_in(
    alloc: Global,
    cache: &mut Cache,
    epoch: u64,
    operation: u8,
    number: u32,
) -> Option<u32> {
    let table = cache.lend(alloc, epoch);
    let found = table.look(operation, number, number.saturating_add(1));
    cache.take_back(epoch, table);
    found
}

// An answer of an epoch, looked for in that one with two operations, and in the next one.
fn computed(alloc: Global) -> Result<[Option<u32>; 3], AllocError> {
    let mut cache = Cache::new(alloc)?;
    compute(alloc, &mut cache, 5, 2050, 9);
    let found = computed_in(alloc, &mut cache, 5, 1, 2050);
    let other = computed_in(alloc, &mut cache, 5, 0, 2050);
    Ok([found, other, computed_in(alloc, &mut cache, 6, 1, 2050)])
}

/// What was computed in an epoch is lent again in that one, and in no other.
#[test]
fn computed_answers_end_with_their_epoch(rt: HostRuntime) -> Result<(), Fail> {
    are_numbers(&computed(rt.alloc())?, &[Some(9), None, None])
}

// The answer of an entry.
fn answer_at(cache: &Cache, index: usize) -> Option<u32> {
    if index < cache.computed().len() {
        return Some(cache.computed().numbers(index).2);
    }
    None
}

// Drops each computed answer that is this number.
fn drop_answer(cache: &mut Cache, answer: u32) {
    for index in 0..cache.computed().len() {
        if answer_at(cache, index) == Some(answer) && index < cache.computed().len() {
            cache.blank(index);
        }
    }
}

// Of two answers of an epoch one is dropped, and they are given to the next epoch: both there, and the first where it
// was.
fn renewed(alloc: Global) -> Result<[Option<u32>; 3], AllocError> {
    let mut cache = Cache::new(alloc)?;
    compute(alloc, &mut cache, 5, 2050, 9);
    compute(alloc, &mut cache, 5, 2051, 7);
    drop_answer(&mut cache, 7);
    cache.renew(6);
    let kept = computed_in(alloc, &mut cache, 6, 1, 2050);
    let dropped = computed_in(alloc, &mut cache, 6, 1, 2051);
    Ok([kept, dropped, computed_in(alloc, &mut cache, 5, 1, 2050)])
}

/// Computed answers that are given to another epoch are lent in that one, but for those that were dropped.
#[test]
fn renewed_answers_are_lent_in_the_new_epoch(rt: HostRuntime) -> Result<(), Fail> {
    are_numbers(&renewed(rt.alloc())?, &[Some(9), None, None])
}
