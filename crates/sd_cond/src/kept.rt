// The answers that one operation has found so far, by the codes of the nodes. Each node is visited
// once for an operation, whatever the cache has dropped: the table grows with the nodes that were
// visited, and drops nothing. A vector by code would cost the greatest code at each operation.
//
// It is an open hash table of 8 bytes an entry: an answer stands at the first free entry from its
// place on, at least half of the entries are free, and there are four times as many whenever they
// are not. No contract says that what is kept is found: then a node is visited again.
ghost use Rattle.std.specs.Prelude.{◌<◌, ℕ, Bool, List, length, IfOk, IfSome};
ghost use Rattle.sd_model.specs.Diagram.{Diagram};
ghost use Rattle.sd_manager.specs.Table.{Table};
ghost use Rattle.sd_cond.specs.Calls.{IsAnswer};
ghost use Rattle.sd_cond.specs.Kept.{IsRightEntry, AreRightEntries, AreAnswers};

use sd_manager::NodeId;
use std::alloc::{AllocError, Global};

/// The number of entries once an answer is kept.
const LEAST: usize = 64;

/// The answer at a node; code 0 where no answer stands, since constants are not kept.
#[derive(Clone, Copy, Drop)]
pub(crate) struct Entry {
    code: u32,
    answer: u32,
}

/// The answers of one operation at the nodes that it visited. Takes no memory before the first.
#[derive(Drop)]
pub(crate) struct KeptAnswers {
    // none, or a power of two, of which at least half are free
    entries: Vec<Entry>,
    // how many of them have an answer
    count: usize,
}

/// The answers of forgetting a variable, and of conditioning on it and on its negation.
#[derive(Drop)]
pub(crate) struct ForgetAnswers {
    /// Where the variable is forgotten.
    pub(crate) forgotten: KeptAnswers,
    /// Where it is true.
    pub(crate) with_true: KeptAnswers,
    /// Where it is false.
    pub(crate) with_false: KeptAnswers,
}

// The entry from which on the answer at a code is sought among so many, of which there are a power
// of two.
fn place_of(code: u32, count: usize) -> usize
    requires { 0 < count }
    ensures { result < count }
{
    let mixed = u64::from(code).wrapping_mul(0x9E37_79B9_7F4A_7C15);
    (mixed >> 32) as usize & (count - 1)
}

// The entry that has the code, or else the first free one from its place on.
fn entry_of(entries: &[Entry], code: u32) -> usize
    requires { 0 < length entries.now }
    ensures { result < length entries.now }
{
    let count = entries.len();
    let mut index = place_of(code, count);
    for _step in 0..count {
        let there = entries[index].code;
        if there == code || there == 0 {
            return index;
        }
        index = (index + 1) & (count - 1);
    }
    index
}

// So many free entries.
fn free_entries(alloc: Global, count: usize) -> Result<Vec<Entry>, AllocError>
    ensures right { IfOk result (λ v. (t : Table) (f : Diagram → List Bool → Bool)
        → AreRightEntries t f v.items) }
{
    vec![in alloc; Entry { code: 0, answer: 0 }; count]
}

// Puts an entry where it is sought.
fn put_entry(entries: &mut Vec<Entry>, entry: Entry)
    ensures { (t : Table) (f : Diagram → List Bool → Bool) → AreRightEntries t f entries.old.items
        → IsRightEntry t f entry → AreRightEntries t f entries.new.items }
{
    if entry.code == 0 || entries.is_empty() {
        return;
    }
    let index = entry_of(entries, entry.code);
    entries[index] = entry;
}

// Puts each entry into another table.
fn refill(old: &[Entry], wider: &mut Vec<Entry>)
    ensures { (t : Table) (f : Diagram → List Bool → Bool) → AreRightEntries t f old.now
        → AreRightEntries t f wider.old.items → AreRightEntries t f wider.new.items }
{
    for i in 0..old.len() {
        let entry = old[i];
        put_entry(wider, entry);
    }
}

impl KeptAnswers {
    /// No answers.
    pub(crate) fn new(alloc: Global) -> KeptAnswers
        ensures { (t : Table) (f : Diagram → List Bool → Bool) → AreAnswers t f result }
    {
        KeptAnswers {
            entries: Vec::new(alloc),
            count: 0,
        }
    }

    /// The answer that is kept for a node.
    pub(crate) fn look(&self, node: NodeId) -> Option<u32>
        ensures { IfSome result (λ c. (t : Table) (f : Diagram → List Bool → Bool)
            → AreAnswers t f self.now → IsAnswer t f node c) }
    {
        if node.is_false() || self.entries.is_empty() {
            return None;
        }
        let index = entry_of(&self.entries, node.0);
        let entry = self.entries[index];
        if entry.code == node.0 {
            Some(entry.answer)
        } else {
            None
        }
    }

    /// Keeps an answer for a node. The only error: out of memory.
    pub(crate) fn keep(
        &mut self,
        alloc: Global,
        node: NodeId,
        answer: NodeId,
    ) -> Result<(), AllocError>
        ensures { (t : Table) (f : Diagram → List Bool → Bool) → AreAnswers t f self.old
            → IsAnswer t f node answer → AreAnswers t f self.new }
    {
        if self.count >= self.entries.len() / 2 {
            self.grow(alloc)?;
        }
        let entry = Entry {
            code: node.0,
            answer: answer.0,
        };
        put_entry(&mut self.entries, entry);
        self.count = self.count.saturating_add(1);
        Ok(())
    }

    // Makes room for four times as many answers, or for the first ones.
    fn grow(&mut self, alloc: Global) -> Result<(), AllocError>
        ensures { (t : Table) (f : Diagram → List Bool → Bool) → AreAnswers t f self.old
            → AreAnswers t f self.new }
    {
        let count = self.entries.len().saturating_mul(4).max(LEAST);
        let mut wider = free_entries(alloc, count)?;
        refill(&self.entries, &mut wider);
        self.entries = wider;
        Ok(())
    }
}
