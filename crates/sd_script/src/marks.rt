//! Marks of numbers.

ghost use Rattle.std.specs.Prelude.{◌≡◌, ◌<◌, ◌≤◌, ℕ, [], ◌∷◌, false, not, ◌&&◌, ◌||◌, OnOk, vec_len, option_to_list};
ghost use Rattle.sd_script.specs.Commands.{has};
ghost use Rattle.sd_script.specs.Steps.{AreBelow};

use std::alloc::{AllocError, Global};

/// Which numbers are marked.
#[derive(Drop)]
pub(crate) struct Marks {
    /// By number; there may be more places than numbers.
    pub(crate) marks: Vec<bool>,
}

impl Marks {
    ghost use Rattle.sd_script.specs.Tables.{is_marked};

    /// No mark.
    pub(crate) fn new(alloc: Global) -> Self
        ensures { (i : ℕ) → is_marked result i ≡ false }
    {
        Marks {
            marks: Vec::new(alloc),
        }
    }

    /// Makes room for the marks of the numbers below a count.
    pub(crate) fn make_room(&mut self, count: usize) -> Result<(), AllocError>
        ensures marks { (i : ℕ) → is_marked self.new i ≡ is_marked self.old i }
        ensures room { OnOk result (count ≤ vec_len self.new.marks) }
    {
        while self.marks.len() < count {
            self.marks.push(false)?;
        }
        Ok(())
    }

    /// Whether a number is marked.
    pub(crate) fn is_marked(&self, number: u32) -> bool
        ensures { result ≡ is_marked self.now number }
    {
        match self.marks.get(number as usize) {
            Some(mark) => *mark,
            None => false,
        }
    }

    /// Marks a number.
    #[tactic(auto, using(crate::proofs::TableLaws::mark_there))]
    fn mark(&mut self, number: u32)
        requires { number < vec_len self.old.marks }
        ensures marks { (i : ℕ) → is_marked self.new i
            ≡ (has (number ∷ []) i || is_marked self.old i) }
        ensures room { vec_len self.new.marks ≡ vec_len self.old.marks }
    {
        self.marks[number as usize] = true;
    }

    /// Takes the mark of a number.
    #[tactic(auto, using(crate::proofs::TableLaws::mark_gone))]
    fn unmark(&mut self, number: u32)
        requires { number < vec_len self.old.marks }
        ensures marks { (i : ℕ) → is_marked self.new i
            ≡ (not (has (number ∷ []) i) && is_marked self.old i) }
        ensures room { vec_len self.new.marks ≡ vec_len self.old.marks }
    {
        self.marks[number as usize] = false;
    }

    /// Takes the mark of one number and marks another, where they are there.
    pub(crate) fn change(&mut self, taken: Option<u32>, given: Option<u32>)
        requires taken { AreBelow (vec_len self.old.marks) (option_to_list taken) }
        requires given { AreBelow (vec_len self.old.marks) (option_to_list given) }
        ensures { (i : ℕ) → is_marked self.new i ≡ (has (option_to_list given) i
            || (not (has (option_to_list taken) i) && is_marked self.old i)) }
    {
        self.unmark_some(taken);
        self.mark_some(given);
    }

    // Marks a number that is there.
    fn mark_some(&mut self, number: Option<u32>)
        requires { AreBelow (vec_len self.old.marks) (option_to_list number) }
        ensures { (i : ℕ) → is_marked self.new i
            ≡ (has (option_to_list number) i || is_marked self.old i) }
    {
        if let Some(number) = number {
            self.mark(number);
        }
    }

    // Takes the mark of a number that is there.
    fn unmark_some(&mut self, number: Option<u32>)
        requires { AreBelow (vec_len self.old.marks) (option_to_list number) }
        ensures marks { (i : ℕ) → is_marked self.new i
            ≡ (not (has (option_to_list number) i) && is_marked self.old i) }
        ensures room { vec_len self.new.marks ≡ vec_len self.old.marks }
    {
        if let Some(number) = number {
            self.unmark(number);
        }
    }
}
