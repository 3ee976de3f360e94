// The table of the steps of operations: what was computed so far in one epoch, as far as there is room.
//
// An operation asks for the same answer many times, since nodes are shared, and so does one operation
// after another. The cache keeps its entries in their order of use, so that a put into it (110 to 200
// nanoseconds) is dear beside a step of an operation. So the public call asks the cache once, and all
// inside it asks this table: one load to ask, one store to keep, and an answer whose entry is taken
// drops the one there. What was dropped is found anew, which costs time and changes no answer, so the
// contracts say that each entry is blank or was kept, and that where there are entries an answer is kept,
// but not which ones it drops, nor that one that stands is found.
//
// An entry has 16 bytes. There are none until the first answer is kept, then 64, 1 KB. Each time that as many answers
// were kept as there are entries, the table may grow to four times as many: up to 65,536 entries, 1 MB, in any case,
// and beyond that where the greatest code of an answer that stands is no less than the new count. A new node takes a
// free number or the next one, so there have been about so many nodes at one time; how many stand now is not asked. A
// node takes some 60 bytes, so the entries take at most about a quarter of what the table of nodes does. A wider table
// misses the caches of a processor more often, which was seen to cost a tenth where it finds no more.
//
// The table goes from one operation to the next through the cache, as long as the epoch stays. An entry has no epoch of
// its own. The epoch rises when a node is taken away or the vtree is moved, and at another one the cache lends an empty
// table. Who knows which nodes a sweep left can drop the entries that name others, and call the rest those of the new
// epoch.
//
// The hash decides whether an operation ends in time. Each step asks for several answers of the
// level below, so where calls of one level drop each other's answers by system, as those at a node
// and at its negation do where they fall on one entry, each level repeats the work of the one below
// it and the time is exponential in the depth. No contract sees this: whoever changes the hash, the
// size at first or the growth runs the test `deepest_level` of `sd_apply`, which goes down 1,024 levels.
ghost use Rattle.std.specs.Prelude.{◌≡◌, ◌<◌, ◌≤◌, ◌∷◌, [], length, Contains, IfOk, IfSome, Some, slice_get, slice_set};
ghost use Rattle.std.specs.Option.{option_map};
ghost use Rattle.sd_cache.specs.Entries.{AreAmong, Entries, blank, call};

use std::alloc::{AllocError, Global};
use std::marker::Model;

/// The number of entries once an answer is kept.
const LEAST: usize = 64;

/// Up to so many entries the table grows whatever nodes there are: they fit the cache of a processor.
const FITS_CACHE: usize = 65_536;

/// A table of so many entries does not grow: the hash tells no more apart.
const MOST: usize = 16_777_216;

/// The answer of an operation at two numbers.
#[derive(Clone, Copy)]
pub(crate) struct Entry {
    a: u32,
    b: u32,
    operation: u32,
    answer: u32,
}

// The table is of one epoch, for which 0 stands.
impl Model for Entry {
    ghost use Rattle.std.specs.Prelude.{ℕ};
    ghost use Rattle.sd_cache.specs.Entries.{Call, call};

    ghost Value = { Call × ℕ };

    ghost view = { λ e. (call 0 e.operation e.a e.b, e.answer) };

    ghost inverse = { λ e. record { a = e.0.a; b = e.0.b; operation = e.0.operation; answer = e.1 } };
}

impl Entry {
    // No answer is kept here.
    fn blank() -> Entry
        ensures { result ≡ blank }
    {
        Entry {
            a: 0,
            b: 0,
            operation: 0,
            answer: 0,
        }
    }
}

/// Answers of operations in one epoch, without their order. Each has one entry where it may stand, and
/// drops what stood there. Each time that as many answers were kept as there are entries, it may grow to four times as
/// many: below 65,536 in any case, and beyond that where an answer has a code of no less. Where memory is refused it
/// stays as it is, and one without entries keeps nothing.
#[derive(Drop)]
pub struct ComputedTable {
    entries: Vec<Entry>,
    // how many answers were kept since the table last grew, or might have grown
    kept: usize,
}

impl Model for ComputedTable {
    ghost use Rattle.sd_cache.specs.Entries.{Entries, entries_code};

    ghost Value = { Entries };

    ghost coded = { entries_code };

    ghost view = { λ t. t.entries.items };
}

// The index of a call's entry among so many, of which there are a power of two, at most 2^24. The
// operation goes to high bits and the place comes from the middle of a product, so that calls at a
// node and at its negation, whose numbers are often neighbours, have different places.
fn entry_of(operation: u32, a: u32, b: u32, count: usize) -> usize
    requires { 0 < count }
    ensures { result < count }
{
    let word = u64::from(b) * 0x1_0000_0000 + u64::from(a);
    let kind = u64::from(operation) * 0x2000_0000;
    let mixed = (word ^ kind).wrapping_mul(0x9E37_79B9_7F4A_7C15);
    (mixed >> 40) as usize & (count - 1)
}

// So many blank entries.
fn blanks(alloc: Global, count: usize) -> Result<Vec<Entry>, AllocError>
    ensures blank { IfOk result (λ v. AreAmong v.items []) }
    ensures count { IfOk result (λ v. length v.items ≡ count) }
{
    vec![in alloc; Entry::blank(); count]
}

// Puts each entry into another table. Blank ones go along: they have one place, the first.
fn refill(old: &[Entry], wider: &mut Vec<Entry>)
    requires { 0 < length wider.old.items }
    ensures among { (es : Entries) → AreAmong old.now es → AreAmong wider.old.items es →
        AreAmong wider.new.items es }
    ensures length { length wider.new.items ≡ length wider.old.items }
{
    for i in 0..old.len() {
        let entry = old[i];
        let index = entry_of(entry.operation, entry.a, entry.b, wider.len());
        wider[index] = entry;
    }
}

impl ComputedTable {
    /// A table with no answers, which takes no memory yet.
    pub fn new(alloc: Global) -> ComputedTable
        ensures { result ≡ [] }
    {
        ComputedTable {
            entries: Vec::new(alloc),
            kept: 0,
        }
    }

    /// An answer that was kept for the operation at these numbers, where it still stands. None tells
    /// nothing: an answer may be dropped at any call, and is then found anew.
    #[inline(always)]
    pub fn look(&self, operation: u8, a: u32, b: u32) -> Option<u32>
        ensures { IfSome result (λ r. Contains self.now (call 0 operation a b, r)) }
    {
        if self.entries.is_empty() {
            return None;
        }
        let index = entry_of(u32::from(operation), a, b, self.entries.len());
        let entry = self.entries[index];
        if entry.a == a && entry.b == b && entry.operation == u32::from(operation) {
            Some(entry.answer)
        } else {
            None
        }
    }

    /// Keeps an answer. A table without entries drops it where memory is refused; one that has entries
    /// keeps it.
    #[inline(always)]
    pub fn keep(&mut self, alloc: Global, operation: u8, a: u32, b: u32, answer: u32)
        ensures among { AreAmong self.new ((call 0 operation a b, answer) ∷ self.old) }
        ensures keeps { 0 < length self.old
            → Contains self.new (call 0 operation a b, answer) }
    {
        if self.kept >= self.entries.len() {
            self.grow(alloc);
        }
        if self.entries.is_empty() {
            return;
        }
        let operation = u32::from(operation);
        let index = entry_of(operation, a, b, self.entries.len());
        self.entries[index] = Entry {
            a,
            b,
            operation,
            answer,
        };
        self.kept = self.kept.saturating_add(1);
    }

    /// How many entries there are, those of no answer too.
    pub fn len(&self) -> usize
        ensures { result ≡ length self.now }
    {
        self.entries.len()
    }

    /// The two numbers of an entry, and its answer.
    pub fn numbers(&self, index: usize) -> (u32, u32, u32)
        requires { index < length self.now }
        ensures first { option_map (λ e. e.0.a) (slice_get self.now index) ≡ Some result.0 }
        ensures second { option_map (λ e. e.0.b) (slice_get self.now index) ≡ Some result.1 }
        ensures answer { option_map (λ e. e.1) (slice_get self.now index) ≡ Some result.2 }
    {
        let entry = self.entries[index];
        (entry.a, entry.b, entry.answer)
    }

    /// Drops the answer of an entry.
    pub(crate) fn blank(&mut self, index: usize)
        requires { index < length self.old }
        ensures { self.new ≡ slice_set self.old index blank }
    {
        self.entries[index] = Entry::blank();
    }

    // Makes room for more answers, or for the first ones, where memory is not refused.
    #[inline(never)]
    fn grow(&mut self, alloc: Global)
        ensures among { AreAmong self.new self.old }
        ensures length { length self.old ≤ length self.new }
    {
        self.kept = 0;
        let count = next_count(&self.entries);
        if count <= self.entries.len() {
            return;
        }
        let Ok(mut wider) = blanks(alloc, count) else {
            return;
        };
        refill(&self.entries, &mut wider);
        self.entries = wider;
    }
}

// How many entries the table has next: more, or as many as now.
fn next_count(entries: &[Entry]) -> usize {
    let count = entries.len();
    if count < FITS_CACHE {
        return (count * 4).max(LEAST);
    }
    if count < MOST && greatest_answer(entries) as usize / 4 >= count {
        return count * 4;
    }
    count
}

// The greatest code of an answer.
fn greatest_answer(entries: &[Entry]) -> u32 {
    let mut greatest = 0;
    for i in 0..entries.len() {
        let entry = entries[i];
        greatest = greatest.max(entry.answer);
    }
    greatest
}
