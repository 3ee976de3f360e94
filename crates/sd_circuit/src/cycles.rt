// The first and-line that lies on a cycle.
ghost use Rattle.std.specs.Prelude.{◌≡◌, ◌<◌, ◌^◌, ℕ, length, slice_index, true, false};
ghost use Rattle.std.specs.Prelude.{IfOk, IfSome};
ghost use Rattle.sd_circuit.specs.Definers.{AreDefiners};
ghost use Rattle.sd_circuit.specs.Order.{DefineOnce, IsFirstOnCycle};
ghost use Rattle.sd_circuit.specs.Placing.{HasCycle};
ghost use Rattle.sd_circuit.specs.Ranks.{NeverRise, UsesBelow, FallBefore};

use crate::and_line::And;
use crate::ranks::ranks;
use crate::reaching::lies_on_cycle;
use std::alloc::{AllocError, Global};

/// The first and-line that lies on a cycle, by ranks, in a few steps for each and-line. None where there is no cycle,
/// or where the ranks don't tell it; that they don't does not happen.
pub(crate) fn first_by_ranks(
    alloc: Global,
    ands: &[And],
    definers: &[u32],
) -> Result<Option<u32>, AllocError>
    requires few { length ands.now < 2 ^ 31 }
    requires lines { (variables : ℕ) × DefineOnce variables ands.now
        × AreDefiners variables ands.now (length ands.now) definers.now }
    ensures first { IfOk result (λ o. IfSome o (IsFirstOnCycle ands.now)) }
{
    let ranks = ranks(alloc, ands, definers)?;
    if !never_rise(ands, definers, &ranks) {
        return Ok(None);
    }
    let Some(line) = first_level(ands, definers, &ranks) else {
        return Ok(None);
    };
    if !lies_on_cycle(alloc, ands, definers, line)? {
        return Ok(None);
    }
    Ok(Some(line))
}

/// The first and-line that lies on a cycle, where there is a cycle, by asking that of one and-line after the other.
pub(crate) fn first_one_by_one(
    alloc: Global,
    ands: &[And],
    definers: &[u32],
) -> Result<u32, AllocError>
    requires few { length ands.now < 2 ^ 31 }
    requires lines { (variables : ℕ) × DefineOnce variables ands.now
        × AreDefiners variables ands.now (length ands.now) definers.now }
    requires cycle { HasCycle ands.now }
    ensures first { IfOk result (IsFirstOnCycle ands.now) }
{
    for index in 0..ands.len() as u32 {
        if lies_on_cycle(alloc, ands, definers, index)? {
            return Ok(index);
        }
    }
    unreachable!()
}

// Whether no and-line uses one of a greater rank.
fn never_rise(ands: &[And], definers: &[u32], ranks: &[u32]) -> bool
    requires few { length ands.now < 2 ^ 31 }
    requires size { length ranks.now ≡ length ands.now }
    requires lines { (variables : ℕ) × DefineOnce variables ands.now
        × AreDefiners variables ands.now (length ands.now) definers.now }
    ensures { result ≡ true → NeverRise ands.now ranks.now }
{
    for line in 0..ands.len() as u32 {
        let rank = u64::from(ranks[line as usize]);
        if uses_rank(ands, definers, ranks, line, rank + 1) {
            return false;
        }
    }
    true
}

// The first and-line that does not use lesser ranks alone.
fn first_level(ands: &[And], definers: &[u32], ranks: &[u32]) -> Option<u32>
    requires few { length ands.now < 2 ^ 31 }
    requires size { length ranks.now ≡ length ands.now }
    requires lines { (variables : ℕ) × DefineOnce variables ands.now
        × AreDefiners variables ands.now (length ands.now) definers.now }
    ensures inside { IfSome result (λ line. line < length ands.now) }
    ensures before { IfSome result (FallBefore ands.now ranks.now) }
{
    for line in 0..ands.len() as u32 {
        let rank = u64::from(ranks[line as usize]);
        if uses_rank(ands, definers, ranks, line, rank) {
            return Some(line);
        }
    }
    None
}

// Whether an and-line uses one of this rank or a greater one.
fn uses_rank(ands: &[And], definers: &[u32], ranks: &[u32], line: u32, least: u64) -> bool
    requires inside { line < length ands.now }
    requires size { length ranks.now ≡ length ands.now }
    requires lines { (variables : ℕ) × DefineOnce variables ands.now
        × AreDefiners variables ands.now (length ands.now) definers.now }
    ensures { result ≡ false → UsesBelow ands.now ranks.now line least }
{
    let and = ands[line as usize];
    let first = definers[(and.first / 2) as usize];
    if has_rank(ranks, first, least) {
        return true;
    }
    let second = definers[(and.second / 2) as usize];
    has_rank(ranks, second, least)
}

// Whether there is an and-line of this index, and it has this rank or a greater one.
fn has_rank(ranks: &[u32], line: u32, least: u64) -> bool
    ensures { result ≡ false → line < length ranks.now → slice_index ranks.now line < least }
{
    (line as usize) < ranks.len() && u64::from(ranks[line as usize]) >= least
}
