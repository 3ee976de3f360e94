// The counts of all numbers.

use crate::count::{Count, NO_NUMBER, fill, make_room};
use crate::pairs::{lower_all, raise_all};
use crate::settling::{fall_all, rise_all};
use crate::stacks::{lower, raise};
use sd_unique::Nodes;
use std::alloc::{AllocError, Global};
use std::marker::Model;

/// Which nodes are under what is held, and how many elements they have together, as far as it was settled.
#[derive(Drop)]
pub struct LiveCounts {
    /// What is kept for the numbers, as far as it was written. It has room for all of them.
    counts: Vec<Count>,
    /// How many numbers there are. Those that were not written are not counted and not used.
    size: u32,
    /// The first of the numbers that may have to be counted.
    rising: u32,
    /// The first of those that may have to be counted no more.
    falling: u32,
    /// The lengths of the lists of the counted numbers together.
    total: u32,
}

impl Model for LiveCounts {
    ghost use Rattle.std.specs.Prelude.{vec_capacity};
    ghost use Rattle.sd_counts.specs.Counts.{Counts, counts_code};
    ghost use Rattle.sd_counts.specs.Queued.{AreKept, seen, with_blanks};

    ghost Value = { Counts };

    ghost coded = { counts_code };

    ghost view = { λ a. seen (with_blanks a.counts.items a.size) a.total };

    ghost invariant = { λ a. AreKept a.counts.items a.size (vec_capacity a.counts) a.rising a.falling };
}

impl LiveCounts {
    ghost use Rattle.std.specs.Prelude.{◌≡◌, ◌+◌, ◌-◌, ◌<◌, ◌≤◌, ◌^◌, ℕ, List, length, OnOk, OnErr, true, false};
    ghost use Rattle.sd_counts.specs.Counts.{no_counts, counted_at, live_at, Adds, IsGrown, IsSettled};
    ghost use Rattle.sd_counts.specs.Counts.{IsRelisted};
    ghost use Rattle.sd_counts.specs.Right.{AreOf, AreClosed, list_at};
    ghost use Rattle.sd_counts.specs.Uses.{AreWithin, IsWithin, counts_one, uses_in};
    ghost use Rattle.sd_unique.specs.Nodes.{IsNodes};

    /// Counts of no numbers.
    pub fn new(alloc: Global) -> LiveCounts
        ensures { result ≡ no_counts }
    {
        LiveCounts {
            counts: Vec::new(alloc),
            size: 0,
            rising: NO_NUMBER,
            falling: NO_NUMBER,
            total: 0,
        }
    }

    /// Sees to it that this number has counts, where each number below it has. A new number is not counted and not
    /// used; it gets room, and nothing is written. The only error: out of memory, or of numbers. Then nothing is
    /// changed.
    pub fn grow(&mut self, number: u32) -> Result<(), AllocError>
        requires next { number ≤ length self.old.live }
        ensures grown { OnOk result (IsGrown self.old self.new) }
        ensures room { OnOk result (number < length self.new.live) }
        ensures same { number < length self.old.live → self.new ≡ self.old }
        ensures err { OnErr result (self.new ≡ self.old) }
    {
        if number < self.size {
            return Ok(());
        }
        if number == NO_NUMBER {
            return Err(AllocError);
        }
        make_room(&mut self.counts, number)?;
        self.size = number + 1;
        Ok(())
    }

    /// The lengths of the lists of the counted numbers together.
    pub fn total(&self) -> u32
        ensures { result ≡ self.now.total }
    {
        self.total
    }

    /// Whether a number is counted.
    pub fn is_counted(&self, number: u32) -> bool
        requires { number < length self.now.live }
        ensures { result ≡ counted_at self.now number }
    {
        if number as usize >= self.counts.len() {
            return false;
        }
        self.counts[number as usize].is_counted
    }

    /// Counts a root that holds a code. Constants and literals have no count.
    pub fn hold(&mut self, code: u32)
        requires within { IsWithin (length self.old.live) code }
        requires room { 2050 ≤ code → live_at self.old (code - 2050) < 2 ^ 64 - 1 }
        ensures held { Adds self.old self.new (λ c. counts_one c code) }
    {
        fill(&mut self.counts, self.size);
        self.rising = raise(&mut self.counts, self.rising, code);
    }

    /// Counts a root less that holds a code.
    pub fn release(&mut self, code: u32)
        requires used { 2050 ≤ code → 0 < live_at self.old (code - 2050) }
        ensures released { Adds self.new self.old (λ c. counts_one c code) }
    {
        fill(&mut self.counts, self.size);
        self.falling = lower(&mut self.counts, self.falling, code);
    }

    /// Counts the new list of a number in place of its old one, where the number is counted.
    pub fn relisted(&mut self, number: u32, old: &[(u32, u32)], new: &[(u32, u32)])
        requires number { number < length self.old.live }
        requires within { AreWithin (length self.old.live) new.now }
        requires used { counted_at self.old number ≡ true
            → (n : ℕ) → uses_in (2050 + n) old.now ≤ live_at self.old n }
        requires room { counted_at self.old number ≡ true
            → (n : ℕ) → live_at self.old n + uses_in (2050 + n) new.now < 2 ^ 64 }
        requires listed { counted_at self.old number ≡ true → length old.now ≤ self.old.total }
        requires total { counted_at self.old number ≡ true
            → self.old.total - length old.now + length new.now < 2 ^ 32 }
        ensures relisted { counted_at self.old number ≡ true → IsRelisted self.old self.new old.now new.now }
        ensures same { counted_at self.old number ≡ false → self.new ≡ self.old }
    {
        if self.is_counted(number) {
            fill(&mut self.counts, self.size);
            self.rising = raise_all(&mut self.counts, self.rising, new);
            self.falling = lower_all(&mut self.counts, self.falling, old);
            self.total = self.total - old.len() as u32 + new.len() as u32;
        }
    }

    /// Counts just the nodes that are used by what is held and counted. Takes no memory, and costs the elements of
    /// the nodes that came to be used or are no longer used since it was last called, and a store for each number that
    /// is new since.
    pub fn settle(&mut self, nodes: &Nodes)
        requires closed { AreClosed nodes.now }
        requires right { (held : ℕ → ℕ) × AreOf nodes.now held self.old }
        ensures settled { IsSettled self.new }
        ensures right { (held : ℕ → ℕ) → AreOf nodes.now held self.old → AreOf nodes.now held self.new }
    {
        fill(&mut self.counts, self.size);
        // Its contract tells that there are few elements.
        let _ = nodes.used();
        self.total = rise_all(&mut self.counts, nodes, self.rising, self.total);
        self.rising = NO_NUMBER;
        self.total = fall_all(&mut self.counts, nodes, self.falling, self.total);
        self.falling = NO_NUMBER;
    }
}
