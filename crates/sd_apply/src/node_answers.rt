// The table of a join that is going on: its answers by node.
//
// Which literals are left at a node is told by the index of the first of them, so an entry has a node, that index and
// the answer. As in the table of an operation, an answer whose entry is taken drops the one there, and what was
// dropped is found anew.
ghost use Rattle.std.specs.Prelude.{◌≡◌, ◌<◌, ℕ, ℤ, List, length, IfOk, IfSome};
ghost use Rattle.sd_model.specs.declared.trees.Operation.{Operation};
ghost use Rattle.sd_manager.specs.Table.{Table};
ghost use Rattle.sd_apply.specs.GroupCalls.{IsFoundBefore, IsRightEntry, AreRightEntries, Remembers};

use std::alloc::{AllocError, Global};

/// The number of entries once a first answer is kept.
const LEAST: usize = 64;

/// A table of so many entries does not grow.
const MOST: usize = 65_536;

/// The answer at a node. `next` is one more than the index of the first literal that is left, and 0 in a blank entry.
#[derive(Clone, Copy, Drop)]
pub(crate) struct NodeEntry {
    node: u32,
    answer: u32,
    next: usize,
}

impl NodeEntry {
    // No answer.
    fn blank() -> NodeEntry
        ensures right { (t : Table) (o : Operation) (l : List (ℕ × ℤ)) → IsRightEntry t o l result }
    {
        NodeEntry {
            node: 0,
            answer: 0,
            next: 0,
        }
    }
}

/// Answers of one join. There are no entries before the first answer. The table grows to four times as many, up to
/// 65,536, whenever as many answers were kept as it has entries; where memory is refused it stays as it is, and keeps
/// nothing at worst.
#[derive(Drop)]
pub(crate) struct NodeAnswers {
    entries: Vec<NodeEntry>,
    // how many answers were kept since the table grew
    kept: usize,
}

// The index of a node's entry among so many, of which there are a power of two: nodes with neighbouring codes stand
// beside each other.
fn entry_of(node: u32, next: usize, count: usize) -> usize
    requires { 0 < count }
    ensures { result < count }
{
    (node as usize).wrapping_add(next.wrapping_mul(5)) & (count - 1)
}

// So many blank entries.
fn blanks(alloc: Global, count: usize) -> Result<Vec<NodeEntry>, AllocError>
    ensures right { IfOk result
        (λ v. (t : Table) (o : Operation) (l : List (ℕ × ℤ)) → AreRightEntries t o l v.items) }
    ensures count { IfOk result (λ v. length v.items ≡ count) }
{
    vec![in alloc; NodeEntry::blank(); count]
}

// Puts each entry into another table.
fn refill(old: &[NodeEntry], wider: &mut Vec<NodeEntry>)
    requires { 0 < length wider.old.items }
    ensures { (t : Table) (o : Operation) (l : List (ℕ × ℤ)) → AreRightEntries t o l old.now →
        AreRightEntries t o l wider.old.items → AreRightEntries t o l wider.new.items }
{
    for i in 0..old.len() {
        let entry = old[i];
        let index = entry_of(entry.node, entry.next, wider.len());
        wider[index] = entry;
    }
}

impl NodeAnswers {
    /// A table with no answers and no entries yet. Takes no memory.
    pub(crate) fn new(alloc: Global) -> NodeAnswers
        ensures { (t : Table) (o : Operation) (l : List (ℕ × ℤ)) → Remembers result t o l }
    {
        NodeAnswers {
            entries: Vec::new(alloc),
            kept: 0,
        }
    }

    /// The answer that stands here for the node and the literals before the next index.
    #[inline(always)]
    pub(crate) fn look(&self, node: u32, next: usize) -> Option<u32>
        ensures right { IfSome result (λ r. (t : Table) (o : Operation) (l : List (ℕ × ℤ)) →
            Remembers self.now t o l → IsFoundBefore t o l node next r) }
    {
        if self.entries.is_empty() {
            return None;
        }
        let index = entry_of(node, next, self.entries.len());
        let entry = self.entries[index];
        if entry.node == node && entry.next == next {
            Some(entry.answer)
        } else {
            None
        }
    }

    /// Keeps an answer.
    pub(crate) fn keep(&mut self, alloc: Global, node: u32, next: usize, answer: u32)
        ensures right { (t : Table) (o : Operation) (l : List (ℕ × ℤ)) → Remembers self.old t o l →
            IsFoundBefore t o l node next answer → Remembers self.new t o l }
    {
        if self.kept >= self.entries.len() {
            self.grow(alloc);
        }
        if self.entries.is_empty() {
            return;
        }
        let index = entry_of(node, next, self.entries.len());
        self.entries[index] = NodeEntry { node, answer, next };
        self.kept = self.kept.saturating_add(1);
    }

    // Makes room for four times as many answers, or for the first ones, where memory is not refused.
    fn grow(&mut self, alloc: Global)
        ensures right { (t : Table) (o : Operation) (l : List (ℕ × ℤ)) → Remembers self.old t o l →
            Remembers self.new t o l }
    {
        self.kept = 0;
        let count = self.entries.len();
        if count >= MOST {
            return;
        }
        let Ok(mut wider) = blanks(alloc, (count * 4).max(LEAST)) else {
            return;
        };
        refill(&self.entries, &mut wider);
        self.entries = wider;
    }
}
