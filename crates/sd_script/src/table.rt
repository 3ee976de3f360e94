//! Words with their numbers.

ghost use Rattle.std.specs.Prelude.{◌≡◌, ◌<◌, ◌≤◌, [], length, map, IfOk, OnOk};
ghost use Rattle.std.specs.List.{AllByRecursion};
ghost use Rattle.sd_script.specs.Scripts.{see, see_all, number_of_word};

use indexmap::IndexSet;
use sd_base::Name;
use std::alloc::{AllocError, Global};

// The last number that a word can have.
const MAX_NUMBER: usize = u32::MAX as usize;

/// Words in the order in which they were first seen. Each has its index as its number.
#[derive(Drop)]
pub(crate) struct NameTable<'a> {
    pub(crate) words: IndexSet<&'a str>,
}

impl<'a> NameTable<'a> {
    ghost use Rattle.sd_script.specs.Tables.{table_words};

    /// No word.
    pub(crate) fn new(alloc: Global) -> Self
        ensures { table_words result ≡ [] }
    {
        NameTable {
            words: IndexSet::new(alloc),
        }
    }

    /// How many words there are.
    pub(crate) fn len(&self) -> usize
        ensures { result ≡ length (table_words self.now) }
    {
        self.words.len()
    }

    /// The number of a word, which is put behind the others where it is new. There is no memory for more words than
    /// there are numbers.
    pub(crate) fn number(&mut self, word: &'a str) -> Result<u32, AllocError>
        ensures words { OnOk result (table_words self.new ≡ see (table_words self.old) word.now) }
        ensures number { IfOk result (λ n. n ≡ number_of_word (table_words self.new) word.now) }
        ensures within { IfOk result (λ n. n < length (table_words self.new)) }
        ensures grows { length (table_words self.old) ≤ length (table_words self.new) }
    {
        let (index, _) = self.words.insert_full(word)?;
        if index > MAX_NUMBER {
            return Err(AllocError);
        }
        Ok(index as u32)
    }

    /// The numbers of words, one after another.
    pub(crate) fn number_all(
        &mut self,
        alloc: Global,
        words: &[&'a str],
    ) -> Result<Vec<u32>, AllocError>
        ensures words { OnOk result (table_words self.new
            ≡ see_all (table_words self.old) (map (λ word. word.now) words.now)) }
        ensures numbers { IfOk result (λ ns. ns.items
            ≡ map (number_of_word (table_words self.new)) (map (λ word. word.now) words.now)) }
        ensures within { IfOk result (λ ns.
            AllByRecursion (λ n. n < length (table_words self.new)) ns.items) }
        ensures grows { OnOk result (length (table_words self.old) ≤ length (table_words self.new)) }
    {
        let mut numbers = Vec::new(alloc);
        for word in words {
            numbers.push(self.number(word)?)?;
        }
        Ok(numbers)
    }

    /// The words, in the order of their numbers.
    pub(crate) fn texts(&self, alloc: Global) -> Result<Vec<Name>, AllocError>
        ensures { IfOk result (λ names. names.items ≡ table_words self.now) }
    {
        let mut names = Vec::new(alloc);
        for word in self.words.as_slice() {
            names.push(Name::copy_of(alloc, word)?)?;
        }
        Ok(names)
    }
}
