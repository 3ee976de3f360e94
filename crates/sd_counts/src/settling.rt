// Numbers that are used are counted, and numbers that are no longer used are counted no more.
ghost use Rattle.std.specs.Prelude.{◌≡◌, ◌≢◌, ◌+◌, ◌<◌, ℕ};
ghost use Rattle.sd_counts.specs.Queued.{AreQueued, seen, rising_work, falling_work, no_number};
ghost use Rattle.sd_counts.specs.Right.{AreOf, MaySettle};

use crate::count::{Count, NO_NUMBER};
use crate::pairs::{lower_all, raise_all};
use crate::stacks::take_off;
use sd_unique::Nodes;

// Counts the numbers that are used, with those that come to be used so, and answers the total.
pub(crate) fn rise_all(counts: &mut [Count], nodes: &Nodes, rising: u32, total: u32) -> u32
    requires nodes { MaySettle nodes.now }
    requires queued { (falling : ℕ) × AreQueued counts.old rising falling }
    requires right { (held : ℕ → ℕ) × AreOf nodes.now held (seen counts.old total) }
    ensures queued { (falling : ℕ) → AreQueued counts.old rising falling → AreQueued counts.new no_number falling }
    ensures right { (held : ℕ → ℕ) → AreOf nodes.now held (seen counts.old total)
        → AreOf nodes.now held (seen counts.new result) }
{
    let mut top = rising;
    let mut total = total;
    while top != NO_NUMBER {
        let next = rise(counts, nodes, top, total);
        top = next.0;
        total = next.1;
    }
    total
}

// Takes the first number that may rise off its stack, and counts it where it is used: its length, and
// the uses in its list. Answers the next number that may rise, and the total.
fn rise(counts: &mut [Count], nodes: &Nodes, number: u32, total: u32) -> (u32, u32)
    requires some { number ≢ no_number }
    requires nodes { MaySettle nodes.now }
    requires queued { (falling : ℕ) × AreQueued counts.old number falling }
    requires right { (held : ℕ → ℕ) × AreOf nodes.now held (seen counts.old total) }
    ensures queued { (falling : ℕ) → AreQueued counts.old number falling → AreQueued counts.new result.0 falling }
    ensures right { (held : ℕ → ℕ) → AreOf nodes.now held (seen counts.old total)
        → AreOf nodes.now held (seen counts.new result.1) }
    ensures fewer { rising_work counts.new < rising_work counts.old }
{
    let next = take_off(counts, number);
    if !counts[number as usize].is_counted {
        return (next, total);
    }
    let list = nodes.list(number);
    let top = raise_all(counts, next, list);
    (top, total + list.len() as u32)
}

// Counts no more the numbers that are not used, with those that are no longer used so, and answers
// the total.
pub(crate) fn fall_all(counts: &mut [Count], nodes: &Nodes, falling: u32, total: u32) -> u32
    requires nodes { MaySettle nodes.now }
    requires queued { (rising : ℕ) × AreQueued counts.old rising falling }
    requires right { (held : ℕ → ℕ) × AreOf nodes.now held (seen counts.old total) }
    ensures queued { (rising : ℕ) → AreQueued counts.old rising falling → AreQueued counts.new rising no_number }
    ensures right { (held : ℕ → ℕ) → AreOf nodes.now held (seen counts.old total)
        → AreOf nodes.now held (seen counts.new result) }
{
    let mut top = falling;
    let mut total = total;
    while top != NO_NUMBER {
        let next = fall(counts, nodes, top, total);
        top = next.0;
        total = next.1;
    }
    total
}

// Takes the first number that may fall off its stack, and where it is not used takes its length and
// the uses in its list away. Answers the next number that may fall, and the total.
fn fall(counts: &mut [Count], nodes: &Nodes, number: u32, total: u32) -> (u32, u32)
    requires some { number ≢ no_number }
    requires nodes { MaySettle nodes.now }
    requires queued { (rising : ℕ) × AreQueued counts.old rising number }
    requires right { (held : ℕ → ℕ) × AreOf nodes.now held (seen counts.old total) }
    ensures queued { (rising : ℕ) → AreQueued counts.old rising number → AreQueued counts.new rising result.0 }
    ensures right { (held : ℕ → ℕ) → AreOf nodes.now held (seen counts.old total)
        → AreOf nodes.now held (seen counts.new result.1) }
    ensures fewer { falling_work counts.new < falling_work counts.old }
{
    let next = take_off(counts, number);
    if counts[number as usize].is_counted {
        return (next, total);
    }
    let list = nodes.list(number);
    let top = lower_all(counts, next, list);
    (top, total - list.len() as u32)
}
