//! The entries that are listed so far, and which nodes have them.

ghost use Rattle.std.specs.Prelude.{◌≡◌, ℕ, ◌+◌, ◌-◌, ◌<◌, ◌≤◌, ◌^◌, [], ◌++◌, map, length, OnOk, IsTrue, false};
ghost use Rattle.std.specs.Prelude.{◌==◌, if◌then◌else◌};
ghost use Rattle.std.specs.List.{AllByRecursion};
ghost use Rattle.sd_manager.specs.Views.{pairs_at};
ghost use Rattle.sd_records.specs.Listed.{mark_at, code_in, codes_in, IsListed, BothListed, AreMarks, IsAdded};
ghost use Rattle.sd_records.specs.Listed.{HasEntryNow};
ghost use Rattle.sd_records.specs.Stored.{flat_of, pair_count};

use crate::records::{Head, Records};
use sd_manager::{FIRST_NODE, Manager, NodeId};
use std::alloc::{AllocError, Global};

// A manager has fewer decompositions than this: its arena has fewer elements, and each takes two or more.
const MOST_ENTRIES: usize = 1 << 31;

/// The entries so far, and where those of nodes stand.
#[derive(Drop)]
pub(crate) struct Listing {
    // At the number of each node one more than the index of its entry, or 0 where it has none.
    pub(crate) marks: Vec<u32>,
    pub(crate) heads: Vec<Head>,
    pub(crate) pairs: Vec<(u32, u32)>,
}

impl Listing {
    /// No entries.
    pub(crate) fn new(alloc: Global) -> Listing
        ensures marks { result.marks.items ≡ [] }
        ensures heads { result.heads.items ≡ [] }
        ensures pairs { result.pairs.items ≡ [] }
    {
        Listing {
            marks: Vec::new(alloc),
            heads: Vec::new(alloc),
            pairs: Vec::new(alloc),
        }
    }

    /// Whether a node is a constant or a literal, or has an entry.
    pub(crate) fn has(&self, node: NodeId) -> bool
        ensures yes { IsTrue result → IsListed self.now.marks.items node }
        ensures node { result ≡ false → 2050 ≤ node }
        ensures no { result ≡ false → mark_at self.now.marks.items (node - 2050) ≡ 0 }
    {
        if !node.is_decomposition() {
            return true;
        }
        let index = node.number() as usize;
        index < self.marks.len() && self.marks[index] > 0
    }

    /// Adds the entry of a node at a position where it has none, and its primes and subs have theirs.
    pub(crate) fn add(
        &mut self,
        m: &Manager,
        node: NodeId,
        position: u32,
        count: u32,
    ) -> Result<(), AllocError>
        requires node { 2050 ≤ node }
        requires count { length (pairs_at m.now node) ≡ count }
        requires listed { AllByRecursion (BothListed self.old.marks.items) (pairs_at m.now node) }
        requires marks { AreMarks self.old.marks.items (length self.old.heads.items) }
        ensures { OnOk result (HasEntryNow self.old self.new (node - 2050) position
            (pairs_at m.now node)) }
    {
        if self.has(node) {
            return Ok(());
        }
        self.put(m, node, position, count)
    }

    // Adds the entry of a node that has none.
    fn put(
        &mut self,
        m: &Manager,
        node: NodeId,
        position: u32,
        count: u32,
    ) -> Result<(), AllocError>
        requires node { 2050 ≤ node }
        requires none { mark_at self.old.marks.items (node - 2050) ≡ 0 }
        requires count { length (pairs_at m.now node) ≡ count }
        requires listed { AllByRecursion (BothListed self.old.marks.items) (pairs_at m.now node) }
        requires marks { AreMarks self.old.marks.items (length self.old.heads.items) }
        ensures { OnOk result (IsAdded self.old self.new (node - 2050) position
            (pairs_at m.now node)) }
    {
        let index = self.heads.len();
        if index >= MOST_ENTRIES {
            return Err(AllocError);
        }
        push_pairs(&mut self.pairs, &self.marks, m, node, count)?;
        self.heads.push(Head { position, count })?;
        set_mark(&mut self.marks, node.number(), index as u32 + 1)
    }

    /// The records of these entries, with the one of a node as the root.
    pub(crate) fn into_records(self, node: NodeId) -> Records
        requires listed { IsListed self.marks.items node }
        requires marks { AreMarks self.marks.items (length self.heads.items) }
        requires counted { pair_count self.heads.items ≡ length self.pairs.items }
        ensures { result ≡ flat_of self.heads.items self.pairs.items
            (code_in self.marks.items node) }
    {
        let root = code_of(&self.marks, node);
        Records {
            heads: self.heads,
            pairs: self.pairs,
            root,
        }
    }
}

// The code of a node among the records: a constant and a literal keep theirs.
fn code_of(marks: &[u32], node: NodeId) -> u32
    requires listed { IsListed marks.now node }
    requires low { (n : ℕ) → mark_at marks.now n ≤ 2 ^ 31 }
    ensures { result ≡ code_in marks.now node }
{
    if !node.is_decomposition() {
        return node.0;
    }
    marks[node.number() as usize] + (FIRST_NODE - 1)
}

// Adds the codes of the elements of a node.
fn push_pairs(
    pairs: &mut Vec<(u32, u32)>,
    marks: &[u32],
    m: &Manager,
    node: NodeId,
    count: u32,
) -> Result<(), AllocError>
    requires count { length (pairs_at m.now node) ≡ count }
    requires listed { AllByRecursion (BothListed marks.now) (pairs_at m.now node) }
    requires low { (n : ℕ) → mark_at marks.now n ≤ 2 ^ 31 }
    ensures { OnOk result (pairs.new.items ≡ pairs.old.items
        ++ map (codes_in marks.now) (pairs_at m.now node)) }
{
    for index in 0..count {
        let (prime, sub) = m.element(node, index);
        let first = code_of(marks, prime);
        let second = code_of(marks, sub);
        pairs.push((first, second))?;
    }
    Ok(())
}

// Gives the node of a number a mark.
fn set_mark(marks: &mut Vec<u32>, number: u32, mark: u32) -> Result<(), AllocError>
    ensures { OnOk result ((k : ℕ) → mark_at marks.new.items k
        ≡ (if k == number then mark else mark_at marks.old.items k)) }
{
    let index = number as usize;
    if index >= marks.len() {
        marks.resize(index + 1, 0)?;
    }
    marks[index] = mark;
    Ok(())
}
