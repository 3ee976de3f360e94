// The uses of single numbers, and the two stacks of those that may rise or fall.
ghost use Rattle.std.specs.Prelude.{◌≡◌, ◌≢◌, ◌+◌, ◌-◌, ◌<◌, ◌≤◌, ◌^◌, ℕ, length};
ghost use Rattle.sd_counts.specs.Counts.{Adds, live_at};
ghost use Rattle.sd_counts.specs.Queued.{AreQueued, IsTaken, next_of, seen};
ghost use Rattle.sd_counts.specs.Uses.{IsWithin, counts_one};

use crate::count::Count;

// Counts one use more of a code, and answers the top of the numbers that may rise. Constants and
// literals have no count.
pub(crate) fn raise(counts: &mut [Count], rising: u32, code: u32) -> u32
    requires within { IsWithin (length counts.old) code }
    requires room { 2050 ≤ code → live_at (seen counts.old 0) (code - 2050) < 2 ^ 64 - 1 }
    requires queued { (falling : ℕ) × AreQueued counts.old rising falling }
    ensures queued { (falling : ℕ) → AreQueued counts.old rising falling → AreQueued counts.new result falling }
    ensures raised { Adds (seen counts.old 0) (seen counts.new 0) (λ c. counts_one c code) }
{
    if code < 2050 {
        return rising;
    }
    let number = code - 2050;
    let mut count = counts[number as usize];
    count.live += 1;
    if count.is_counted || count.is_queued {
        counts[number as usize] = count;
        return rising;
    }
    count.next = rising;
    count.is_queued = true;
    counts[number as usize] = count;
    number
}

// Counts one use less of a code, and answers the top of the numbers that may fall.
pub(crate) fn lower(counts: &mut [Count], falling: u32, code: u32) -> u32
    requires used { 2050 ≤ code → 0 < live_at (seen counts.old 0) (code - 2050) }
    requires queued { (rising : ℕ) × AreQueued counts.old rising falling }
    ensures queued { (rising : ℕ) → AreQueued counts.old rising falling → AreQueued counts.new rising result }
    ensures lowered { Adds (seen counts.new 0) (seen counts.old 0) (λ c. counts_one c code) }
{
    if code < 2050 {
        return falling;
    }
    let number = code - 2050;
    let mut count = counts[number as usize];
    count.live -= 1;
    if count.live > 0 || !count.is_counted || count.is_queued {
        counts[number as usize] = count;
        return falling;
    }
    count.next = falling;
    count.is_queued = true;
    counts[number as usize] = count;
    number
}

// Takes a number, the first of its stack, off the stack, counts it just where it is used, and answers
// what follows it on the stack.
pub(crate) fn take_off(counts: &mut [Count], number: u32) -> u32
    requires inside { number < length counts.old }
    ensures next { result ≡ next_of counts.old number }
    ensures taken { IsTaken counts.old counts.new number }
{
    let mut count = counts[number as usize];
    count.is_queued = false;
    count.is_counted = count.live > 0;
    counts[number as usize] = count;
    count.next
}
