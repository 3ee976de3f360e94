// The cache: a map of bounded size whose entries are in the order of their last use, and a table for the steps of
// operations, which it lends to one after another.
ghost use Rattle.std.specs.Prelude.{◌≡◌, ◌^◌, ◌<◌, ◌≤◌, [], length, IfOk, IfSome, IsOk, IsSome, OnErr, OnOk, slice_set};
ghost use Rattle.std.specs.Map.{lookup};
ghost use Rattle.sd_cache.specs.Entries.{IsCache, all_lent, answers_of, blank, call, is_call, kept, looked, no_answers};

use crate::call::Call;
use crate::computed::ComputedTable;
use lru::LruCache;
use std::alloc::{AllocError, Global};
use std::marker::Model;
use std::mem;
use std::num::NonZeroUsize;

/// The first epoch for which nothing is found and nothing kept, 2^56: a key has two words.
const NO_EPOCH: u64 = 0x0100_0000_0000_0000;

/// Answers of operations in an epoch, at most 65,536 of them. A call that keeps one more drops the
/// one whose last use is the longest ago. Beside them it holds the table of what operations computed in
/// one epoch.
#[derive(Drop)]
pub struct Cache {
    answers: LruCache<Call, u32>,
    computed: ComputedTable,
    epoch: u64,
}

impl Model for Cache {
    ghost use Rattle.std.specs.Prelude.{◌≡◌};
    ghost use Rattle.sd_cache.specs.Entries.{AreEarly, Answers, answers_of, answers_code};

    ghost Value = { Answers };

    ghost coded = { answers_code };

    ghost view = { λ c. answers_of c.answers.entries c.computed c.epoch };

    ghost invariant = { λ c. (c.answers.cap ≡ 65536) × AreEarly c.answers.entries };
}

impl Cache {
    /// A cache with no answers. It reserves the room for its entries at once.
    pub fn new(alloc: Global) -> Result<Cache, AllocError>
        ensures { IfOk result (λ c. c ≡ no_answers) }
    {
        let Some(cap) = NonZeroUsize::new(65536) else {
            unreachable!()
        };
        let answers = LruCache::new(alloc, cap)?;
        Ok(Cache {
            answers,
            computed: ComputedTable::new(alloc),
            epoch: 0,
        })
    }

    /// The answer that is kept for the operation at these numbers in this epoch. It becomes the most
    /// recently used.
    pub fn look(&mut self, epoch: u64, operation: u8, a: u32, b: u32) -> Option<u32>
        ensures value { result ≡ lookup (is_call (call epoch operation a b)) self.old.entries }
        ensures entries { self.new ≡ looked self.old (call epoch operation a b) }
        ensures early { IfSome result (λ _. epoch < 2 ^ 56) }
    {
        // for the prover, here and in `keep`: a field that is read tells what holds of the fields
        let _ = &self.answers;
        if epoch >= NO_EPOCH {
            return None;
        }
        let asked = Call::new(epoch, operation, a, b);
        self.answers.get(&asked).copied()
    }

    /// Keeps an answer, in place of the one that the same call had. From the epoch 2^56 on nothing is kept, and
    /// that is Ok. The only error: out of memory, at a call that had no answer; then nothing is changed.
    pub fn keep(
        &mut self,
        epoch: u64,
        operation: u8,
        a: u32,
        b: u32,
        answer: u32,
    ) -> Result<(), AllocError>
        ensures keeps { OnOk result (epoch < 2 ^ 56
            → self.new ≡ kept self.old (call epoch operation a b) answer) }
        ensures err { OnErr result (self.new ≡ self.old) }
        ensures replaces { IsSome (lookup (is_call (call epoch operation a b)) self.old.entries)
            → IsOk result }
        ensures late { 2 ^ 56 ≤ epoch → IsOk result × (self.new ≡ self.old) }
    {
        let _ = &self.answers;
        if epoch >= NO_EPOCH {
            return Ok(());
        }
        let key = Call::new(epoch, operation, a, b);
        self.answers.put(key, answer)?;
        Ok(())
    }

    /// The table of the answers that were computed in this epoch, which has to be given back under the
    /// same one. Where the table is of another epoch, or this one is past all keys, it is a new one.
    pub fn lend(&mut self, alloc: Global, epoch: u64) -> ComputedTable
        ensures lent { self.old.epoch ≡ epoch → epoch < 2 ^ 56 → result ≡ self.old.computed }
        ensures other { ¬ (self.old.epoch ≡ epoch) → result ≡ [] }
        ensures late { 2 ^ 56 ≤ epoch → result ≡ [] }
        ensures rest { self.new ≡ all_lent self.old }
    {
        let lent = mem::replace(&mut self.computed, ComputedTable::new(alloc));
        if self.epoch == epoch && epoch < NO_EPOCH {
            lent
        } else {
            ComputedTable::new(alloc)
        }
    }

    /// Takes a table back whose answers are those of an epoch.
    pub fn take_back(&mut self, epoch: u64, table: ComputedTable)
        ensures { self.new ≡ answers_of self.old.entries table epoch }
    {
        self.computed = table;
        self.epoch = epoch;
    }

    /// The epoch of the computed answers.
    pub fn epoch(&self) -> u64
        ensures { result ≡ self.now.epoch }
    {
        self.epoch
    }

    /// The table of the computed answers, where it is not lent.
    pub fn computed(&self) -> &ComputedTable
        ensures { result.now ≡ self.now.computed }
    {
        &self.computed
    }

    /// Drops the computed answer of an entry.
    pub fn blank(&mut self, index: usize)
        requires { index < length self.old.computed }
        ensures { self.new ≡ answers_of self.old.entries (slice_set self.old.computed index blank)
            self.old.epoch }
    {
        self.computed.blank(index);
    }

    /// Calls the computed answers those of another epoch.
    pub fn renew(&mut self, epoch: u64)
        ensures { self.new ≡ answers_of self.old.entries self.old.computed epoch }
    {
        self.epoch = epoch;
    }

    /// The number of answers that are kept in the order of their use.
    pub fn len(&self) -> usize
        ensures len { result ≡ length self.now.entries }
        ensures cache { IsCache self.now.entries }
    {
        self.answers.len()
    }
}
