// The stack of candidates: numbers that may be those of linked nodes without uses.
ghost use Rattle.std.specs.Prelude.{◌≡◌, ◌≢◌, ◌<◌, ◌++◌, [], ◌∷◌, false, length, slice_get, Some, ℕ, MatchBool};
ghost use Rattle.std.specs.Prelude.{IfOk, OnOk, IfSome, IfNone};
ghost use Rattle.sd_unique.specs.declared.record.Record.{Record};
ghost use Rattle.sd_unique.specs.Candidates.{Waits, HasRoom};
ghost use Rattle.sd_unique.specs.Chains.{IsUnused};

use crate::record::{Record, RecordState};
use std::alloc::{AllocError, Global};
use std::marker::Model;

/// The stack of candidates, and for each number whether it stands there. That of a linked node
/// without uses does, and that of another record may. A push and a pop touch the end of the stack
/// and one flag, so those of a sweep bring few lines into the cache.
#[derive(Drop)]
pub(crate) struct Candidates {
    /// The stack, with room for all numbers. Only as much of it is written as ever stood there.
    numbers: Vec<u32>,
    /// For each number whether it stands in the stack.
    waits: Vec<bool>,
}

impl Model for Candidates {
    ghost use Rattle.std.specs.Prelude.{ℕ, List, Bool};
    ghost use Rattle.sd_unique.specs.Candidates.{AreCandidates};

    // who waits, and for how many numbers the vectors have memory
    ghost Value = { List Bool × (ℕ × ℕ) };

    ghost view = { λ a. (a.waits.items, (a.numbers.cap, a.waits.cap)) };

    ghost invariant = { λ a. AreCandidates a.numbers.items a.waits.items a.numbers.cap };
}

impl Candidates {
    // Of no numbers, with memory for so many.
    pub(crate) fn with_capacity(alloc: Global, count: usize) -> Result<Candidates, AllocError>
        ensures { IfOk result (λ candidates. candidates.0 ≡ []) }
    {
        Ok(Candidates {
            numbers: Vec::with_capacity(alloc, count)?,
            waits: Vec::with_capacity(alloc, count)?,
        })
    }

    // How many numbers stand in the stack.
    #[inline(always)]
    pub(crate) fn depth(&self) -> usize {
        self.numbers.len()
    }

    // Makes room for one more number: for its flag, and for as many on the stack as there are flags then.
    pub(crate) fn reserve(&mut self) -> Result<(), AllocError>
        ensures same { self.new.0 ≡ self.old.0 }
        ensures room { OnOk result (HasRoom self.new) }
    {
        let more = self.waits.len() + 1 - self.numbers.len();
        self.numbers.reserve(more)?;
        self.waits.reserve(1)?;
        Ok(())
    }

    // One more number, which does not stand in the stack.
    pub(crate) fn add(&mut self)
        requires room { HasRoom self.old }
        ensures { self.new.0 ≡ self.old.0 ++ false ∷ [] }
    {
        self.waits.push_reserved(false);
    }

    // Puts a number on the stack, where it is not there yet.
    #[inline(always)]
    pub(crate) fn push(&mut self, number: u32)
        requires inside { number < length self.old.0 }
        ensures size { length self.new.0 ≡ length self.old.0 }
        ensures here { Waits self.new.0 number }
        ensures others { (n : ℕ) → Waits self.old.0 n → Waits self.new.0 n }
    {
        if self.waits[number as usize] {
            return;
        }
        self.waits[number as usize] = true;
        self.numbers.push_reserved(number);
    }

    // Puts a number on the stack if it has no uses.
    #[inline(always)]
    pub(crate) fn push_unused(&mut self, number: u32, uses: u64)
        requires inside { number < length self.old.0 }
        ensures size { length self.new.0 ≡ length self.old.0 }
        ensures here { uses ≡ 0 → Waits self.new.0 number }
        ensures others { (n : ℕ) → Waits self.old.0 n → Waits self.new.0 n }
    {
        if uses == 0 {
            self.push(number);
        }
    }

    // Takes numbers off the stack until its top is that of a linked node without uses, and answers
    // that one, or None where all were taken off.
    pub(crate) fn pop_used(&mut self, records: &[Record]) -> Option<u32>
        requires size { length self.old.0 ≡ length records.now }
        ensures size { length self.new.0 ≡ length self.old.0 }
        ensures others { (n : ℕ) (r : Record) → slice_get records.now n ≡ Some r → IsUnused r
            → Waits self.old.0 n → Waits self.new.0 n }
        ensures some { IfSome result
            (λ n. (r : Record) × (slice_get records.now n ≡ Some r) × IsUnused r) }
        ensures none { IfNone result ((n : ℕ) → ¬ Waits self.new.0 n) }
    {
        while self.numbers.len() > 0 {
            let top = self.numbers[self.numbers.len() - 1];
            if is_unused(&records[top as usize]) {
                return Some(top);
            }
            let _ = self.numbers.take_last();
            self.waits[top as usize] = false;
        }
        None
    }

    // Takes a number off the stack where it is the top.
    #[inline(always)]
    pub(crate) fn pop_top(&mut self, number: u32)
        ensures size { length self.new.0 ≡ length self.old.0 }
        ensures others { (n : ℕ) → n ≢ number → Waits self.old.0 n → Waits self.new.0 n }
    {
        if self.numbers.len() > 0 && self.numbers[self.numbers.len() - 1] == number {
            let _ = self.numbers.take_last();
            self.waits[number as usize] = false;
        }
    }
}

// Whether the record is that of a linked node without uses.
fn is_unused(node: &Record) -> bool
    ensures { MatchBool result (IsUnused node.now) (¬ IsUnused node.now) }
{
    matches!(node.state, RecordState::Linked) && node.uses == 0
}
