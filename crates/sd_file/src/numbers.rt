//! The numbers that nodes get when they are complete.

ghost use Rattle.std.specs.Prelude.{◌≡◌, ℕ, ◌+◌, ◌-◌, ◌<◌, ◌^◌, [], length, OnOk, IfOk, nat_lt};
ghost use Rattle.sd_file.specs.Numbers.{mark_at, CanGive, HaveRoom, HasNextNumber};

use std::alloc::{AllocError, Global};

/// The number of each code that has one. They are given in order, from 0 on.
#[derive(Drop)]
pub(crate) struct Numbers {
    // At each code one more than its number, or 0 where it has none.
    marks: Vec<u32>,
    count: u32,
}

impl Numbers {
    /// No numbers.
    pub(crate) fn new(alloc: Global) -> Numbers
        ensures marks { result.marks.items ≡ [] }
        ensures count { result.count ≡ 0 }
    {
        Numbers {
            marks: Vec::new(alloc),
            count: 0,
        }
    }

    /// How many there are.
    pub(crate) fn count(&self) -> u32
        ensures { result ≡ self.now.count }
    {
        self.count
    }

    /// Whether a code has a number.
    pub(crate) fn has(&self, code: u32) -> bool
        ensures { result ≡ nat_lt 0 (mark_at self.now code) }
    {
        let index = code as usize;
        index < self.marks.len() && self.marks[index] > 0
    }

    /// The number of a code that has one.
    pub(crate) fn number(&self, code: u32) -> u32
        requires { 0 < mark_at self.now code }
        ensures { result + 1 ≡ mark_at self.now code }
    {
        self.marks[code as usize] - 1
    }

    /// Gives the next number to a code that has none.
    pub(crate) fn give(&mut self, code: u32) -> Result<u32, AllocError>
        requires { CanGive self.old code }
        ensures number { IfOk result (λ n. n ≡ self.old.count) }
        ensures given { OnOk result (HasNextNumber self.old self.new code) }
    {
        self.ensure_index(code)?;
        let number = self.count;
        self.count = number + 1;
        self.marks[code as usize] = number + 1;
        Ok(number)
    }

    // Makes room for the mark of a code.
    fn ensure_index(&mut self, code: u32) -> Result<(), AllocError>
        requires low { code < 2 ^ 32 - 1 }
        requires room { HaveRoom self.old }
        ensures inside { OnOk result (code < length self.new.marks.items) }
        ensures count { OnOk result (self.new.count ≡ self.old.count) }
        ensures marks { OnOk result ((c : ℕ) → mark_at self.new c ≡ mark_at self.old c) }
        ensures room { OnOk result (HaveRoom self.new) }
    {
        let index = code as usize;
        if index >= self.marks.len() {
            self.marks.resize(index + 1, 0)?;
        }
        Ok(())
    }
}
