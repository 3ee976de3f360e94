// The uses of the codes in lists of pairs.
ghost use Rattle.std.specs.Prelude.{◌≡◌, ◌+◌, ◌<◌, ◌≤◌, ◌^◌, ℕ, length};
ghost use Rattle.sd_counts.specs.Counts.{Adds, live_at};
ghost use Rattle.sd_counts.specs.Queued.{AreQueued, seen};
ghost use Rattle.sd_counts.specs.Uses.{AreWithin, IsWithin, uses_in, uses_of_pair};

use crate::count::Count;
use crate::stacks::{lower, raise};

// Counts one use more of both codes of a pair.
fn raise_pair(counts: &mut [Count], rising: u32, pair: (u32, u32)) -> u32
    requires first { IsWithin (length counts.old) pair.0 }
    requires second { IsWithin (length counts.old) pair.1 }
    requires room { (n : ℕ) → live_at (seen counts.old 0) n + uses_of_pair (2050 + n) pair < 2 ^ 64 }
    requires queued { (falling : ℕ) × AreQueued counts.old rising falling }
    ensures queued { (falling : ℕ) → AreQueued counts.old rising falling → AreQueued counts.new result falling }
    ensures raised { Adds (seen counts.old 0) (seen counts.new 0) (λ c. uses_of_pair c pair) }
{
    let first = raise(counts, rising, pair.0);
    raise(counts, first, pair.1)
}

// Counts one use more of each code in a list, as often as it stands there, and answers the top of the
// numbers that may rise.
pub(crate) fn raise_all(counts: &mut [Count], rising: u32, list: &[(u32, u32)]) -> u32
    requires within { AreWithin (length counts.old) list.now }
    requires room { (n : ℕ) → live_at (seen counts.old 0) n + uses_in (2050 + n) list.now < 2 ^ 64 }
    requires queued { (falling : ℕ) × AreQueued counts.old rising falling }
    ensures queued { (falling : ℕ) → AreQueued counts.old rising falling → AreQueued counts.new result falling }
    ensures raised { Adds (seen counts.old 0) (seen counts.new 0) (λ c. uses_in c list.now) }
{
    let mut rising = rising;
    for pair in list {
        rising = raise_pair(counts, rising, *pair);
    }
    rising
}

// Counts one use less of both codes of a pair.
fn lower_pair(counts: &mut [Count], falling: u32, pair: (u32, u32)) -> u32
    requires used { (n : ℕ) → uses_of_pair (2050 + n) pair ≤ live_at (seen counts.old 0) n }
    requires queued { (rising : ℕ) × AreQueued counts.old rising falling }
    ensures queued { (rising : ℕ) → AreQueued counts.old rising falling → AreQueued counts.new rising result }
    ensures lowered { Adds (seen counts.new 0) (seen counts.old 0) (λ c. uses_of_pair c pair) }
{
    let first = lower(counts, falling, pair.0);
    lower(counts, first, pair.1)
}

// Counts one use less of each code in a list, as often as it stands there, and answers the top of the
// numbers that may fall.
pub(crate) fn lower_all(counts: &mut [Count], falling: u32, list: &[(u32, u32)]) -> u32
    requires used { (n : ℕ) → uses_in (2050 + n) list.now ≤ live_at (seen counts.old 0) n }
    requires queued { (rising : ℕ) × AreQueued counts.old rising falling }
    ensures queued { (rising : ℕ) → AreQueued counts.old rising falling → AreQueued counts.new rising result }
    ensures lowered { Adds (seen counts.new 0) (seen counts.old 0) (λ c. uses_in c list.now) }
{
    let mut falling = falling;
    for pair in list {
        falling = lower_pair(counts, falling, *pair);
    }
    falling
}
