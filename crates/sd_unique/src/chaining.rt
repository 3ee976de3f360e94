// All records are chained anew, in the order of their numbers.
ghost use Rattle.std.specs.Prelude.{◌≡◌, ◌<◌, ◌≤◌, ◌⊎◌, ◌-◌, length, true, ℕ};
ghost use Rattle.sd_unique.specs.Chains.{head_of, no_record, AreChained, AreHashed, KeepsRecords};
ghost use Rattle.sd_unique.specs.Record.{nodes_of, AreRecordsStored};
ghost use Rattle.sd_unique.specs.Rechaining.{IsRechained};

use crate::hash::bucket_at;
use crate::record::{Record, RecordState};
use sd_runs::Runs;

// Puts the free records into the first chain, where all chains are empty, in the order of their numbers from `from`
// on, and behind them those before `from`; and each linked one into the chain of its bucket. The kept hashes tell the
// buckets: the arena is there for the contract alone, and no list is read.
pub(crate) fn chain_all(
    runs: &Runs,
    hashes: &[u32],
    records: &mut [Record],
    heads: &mut [u32],
    from: usize,
)
    requires stored { AreRecordsStored runs.now records.old }
    requires hashed { AreHashed hashes.now (nodes_of runs.now records.old) }
    requires at_least_one { 1 < length heads.old }
    requires from { from ≤ length records.old }
    requires empty { (b : ℕ) → head_of heads.old b ≡ no_record }
    ensures kept { KeepsRecords records.old records.new }
    ensures chained { AreChained true runs.now records.new heads.new }
{
    chain_part(runs, hashes, records, heads, 0, from);
    let count = records.len();
    chain_part(runs, hashes, records, heads, from, count);
}

// Where those before `below` stand in their chains, puts the records from `below` on and before `above` in front of
// them, the last one first, so that the least stands first.
fn chain_part(
    runs: &Runs,
    hashes: &[u32],
    records: &mut [Record],
    heads: &mut [u32],
    below: usize,
    above: usize,
)
    requires stored { AreRecordsStored runs.now records.old }
    requires hashed { AreHashed hashes.now (nodes_of runs.now records.old) }
    requires at_least_one { 1 < length heads.old }
    requires part { below ≤ above }
    requires inside { above ≤ length records.old }
    requires chained { IsRechained runs.now (length heads.old - 1) (λ n. n < below)
        records.old heads.old }
    ensures kept { KeepsRecords records.old records.new }
    ensures size { length heads.new ≡ length heads.old }
    ensures chained { IsRechained runs.now (length heads.new - 1) (λ n. n < above)
        records.new heads.new }
{
    for number in (below..above).rev() {
        chain_one(runs, hashes, records, heads, (below, above), number);
    }
}

// Puts the next record of a part first in the chain where it has to stand, if in any. The part is there for the
// contract alone.
#[inline(always)]
fn chain_one(
    runs: &Runs,
    hashes: &[u32],
    records: &mut [Record],
    heads: &mut [u32],
    part: (usize, usize),
    number: usize,
)
    requires stored { AreRecordsStored runs.now records.old }
    requires hashed { AreHashed hashes.now (nodes_of runs.now records.old) }
    requires from { part.0 ≤ number }
    requires before { number < part.1 }
    requires inside { number < length records.old }
    requires at_least_one { 1 < length heads.old }
    requires chained { IsRechained runs.now (length heads.old - 1)
        (λ n. (n < part.0) ⊎ ((number < n) × (n < part.1))) records.old heads.old }
    ensures kept { KeepsRecords records.old records.new }
    ensures chained { IsRechained runs.now (length heads.new - 1)
        (λ n. (n < part.0) ⊎ ((number ≤ n) × (n < part.1))) records.new heads.new }
{
    let mut record = records[number];
    let head = match record.state {
        RecordState::Free => 0,
        RecordState::Linked => bucket_at(hashes[number], heads.len() - 1) + 1,
        RecordState::Detached => return,
    };
    record.next = heads[head];
    records[number] = record;
    heads[head] = number as u32;
}
