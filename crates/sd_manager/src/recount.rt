//! The counts of what roots hold, where a root comes or goes, where the list of a node changes, and before a node is
//! taken away.

ghost use Rattle.std.specs.Prelude.{◌≡◌, ◌-◌, ◌<◌, ◌≤◌, ◌^◌, ℕ, true, false, length};
ghost use Rattle.sd_unique.specs.Nodes.{Nodes as NodesSeen, IsNodes, key_at};
ghost use Rattle.std.specs.Option.{IsSome};
ghost use Rattle.sd_counts.specs.Counts.{Adds, counted_at, live_at};
ghost use Rattle.sd_counts.specs.Right.{AreClosed, AreOf};
ghost use Rattle.sd_counts.specs.Uses.{IsWithin, counts_one};
ghost use Rattle.sd_manager.specs.Recounting.{HasOtherList, IsUnused};

use sd_counts::LiveCounts;
use sd_unique::Nodes;

// Counts a root that holds a code, where roots are counted.
pub(crate) fn count_one(counts: &mut LiveCounts, is_counting: bool, code: u32)
    requires within { is_counting ≡ true → IsWithin (length counts.old.live) code }
    requires room { is_counting ≡ true → 2050 ≤ code
        → live_at counts.old (code - 2050) < 2 ^ 64 - 1 }
    ensures held { is_counting ≡ true → Adds counts.old counts.new (λ c. counts_one c code) }
    ensures same { is_counting ≡ false → counts.new ≡ counts.old }
{
    if is_counting {
        counts.hold(code);
    }
}

// Counts a root less that holds a code, where roots are counted.
pub(crate) fn uncount_one(counts: &mut LiveCounts, is_counting: bool, code: u32)
    requires used { is_counting ≡ true → 2050 ≤ code → 0 < live_at counts.old (code - 2050) }
    ensures released { is_counting ≡ true → Adds counts.new counts.old (λ c. counts_one c code) }
    ensures same { is_counting ≡ false → counts.new ≡ counts.old }
{
    if is_counting {
        counts.release(code);
    }
}

// Sees to it that a node is not counted, which no root holds and no list of a node has. Where the total is 0 none is.
pub(crate) fn uncount(counts: &mut LiveCounts, nodes: &Nodes, number: u32)
    requires valid { IsNodes nodes.now }
    requires node { IsSome (key_at nodes.now number) }
    requires closed { AreClosed nodes.now }
    requires right { (held : ℕ → ℕ) × AreOf nodes.now held counts.old }
    ensures right { (held : ℕ → ℕ) → AreOf nodes.now held counts.old → AreOf nodes.now held counts.new }
    ensures uncounted { (held : ℕ → ℕ) → AreOf nodes.now held counts.old → IsUnused nodes.now held number
        → counted_at counts.new number ≡ false }
{
    if counts.total() == 0 || !counts.is_counted(number) {
        return;
    }
    counts.settle(nodes);
}

// Counts the list that a node has now in place of the one that it had, which is that of a loose run.
pub(crate) fn recount(counts: &mut LiveCounts, nodes: &Nodes, number: u32, former: (u32, u32))
    requires may { (a : NodesSeen) × (held : ℕ → ℕ)
        × HasOtherList a nodes.now number former.0 former.1 × AreOf a held counts.old }
    ensures right { (a : NodesSeen) (held : ℕ → ℕ)
        → HasOtherList a nodes.now number former.0 former.1 → AreOf a held counts.old
        → AreOf nodes.now held counts.new }
{
    let old = nodes.loose_list(former);
    let new = nodes.list(number);
    counts.relisted(number, old, new);
}
