// A record comes to another state: it leaves its chain, where that stands, and its list for those of that state.
ghost use Rattle.std.specs.Prelude.{◌≡◌, length, slice_get, true, Some, Bool, ℕ, List};
ghost use Rattle.sd_unique.specs.declared.record.Record.{Record};
ghost use Rattle.std.specs.Option.{IsSome};
ghost use Rattle.std.specs.FinMap.{get};
ghost use Rattle.sd_unique.specs.Chains.{AreHashed, HoldsNodes};
ghost use Rattle.sd_unique.specs.Candidates.{Waits};
ghost use Rattle.sd_unique.specs.Record.{nodes_of};
ghost use Rattle.sd_unique.specs.Relinking.{unlinked, relinked, removed, IsAbsent};

use crate::chains::{Buckets, leave_bucket};
use crate::hash::{bucket_at, hash};
use crate::lists::{put_first, take_out};
use crate::record::{Links, Record, RecordState};
use sd_runs::Runs;

// Makes a linked record a detached one.
pub(crate) fn detach(
    runs: &Runs,
    buckets: Buckets<'_>,
    records: &mut [Record],
    links: &mut [Links],
    heads: &mut [u32],
    places: &mut [u32],
    number: u32,
)
    requires linked { IsSome (get (nodes_of runs.now records.old).linked number) }
    requires hashed { buckets.stand ≡ true
        → AreHashed buckets.hashes.now (nodes_of runs.now records.old) }
    requires kept { (flags : List Bool)
        × HoldsNodes buckets.stand runs.now records.old links.old heads.old places.old flags }
    ensures kept { (flags : List Bool)
        → HoldsNodes buckets.entry.stand runs.now records.old links.old heads.old places.old flags
        → HoldsNodes buckets.entry.stand runs.now records.new links.new heads.new places.new flags }
    ensures hashed { (hashes : List ℕ) → AreHashed hashes (nodes_of runs.now records.old)
        → AreHashed hashes (nodes_of runs.now records.new) }
    ensures nodes { (k : ℕ × List (ℕ × ℕ))
        → get (nodes_of runs.now records.old).linked number ≡ Some k
        → nodes_of runs.now records.new ≡ unlinked (nodes_of runs.now records.old) number k }
{
    let place = records[number as usize].place;
    leave_bucket(runs, buckets, records, heads, number);
    take_out(links, places, (place & 2047) as usize + 1, number);
    put_first(links, places, 0, number);
    records[number as usize].state = RecordState::Detached;
}

// Makes a detached record a linked one, whose number waits if it has no uses, and keeps the hash of its key. Where the
// buckets have no chains, what this writes to a head and to `next` means nothing.
pub(crate) fn attach(
    runs: &Runs,
    hashes: &mut [u32],
    records: &mut [Record],
    links: &mut [Links],
    heads: &mut [u32],
    places: &mut [u32],
    number: u32,
)
    requires size { length hashes.old ≡ length records.old }
    requires detached { IsSome (get (nodes_of runs.now records.old).detached number) }
    requires absent { (k : ℕ × List (ℕ × ℕ))
        → get (nodes_of runs.now records.old).detached number ≡ Some k
        → IsAbsent (nodes_of runs.now records.old) k }
    requires kept { (chained : Bool) × (flags : List Bool)
        × HoldsNodes chained runs.now records.old links.old heads.old places.old flags }
    ensures kept { (chained : Bool) (flags : List Bool)
        → (get (nodes_of runs.now records.old).uses number ≡ Some 0 → Waits flags number)
        → HoldsNodes chained runs.now records.old links.old heads.old places.old flags
        → HoldsNodes chained runs.now records.new links.new heads.new places.new flags }
    ensures hashed { AreHashed hashes.old (nodes_of runs.now records.old)
        → AreHashed hashes.new (nodes_of runs.now records.new) }
    ensures nodes { (k : ℕ × List (ℕ × ℕ))
        → get (nodes_of runs.now records.old).detached number ≡ Some k
        → nodes_of runs.now records.new ≡ relinked (nodes_of runs.now records.old) number k }
{
    let mut record = records[number as usize];
    let list = runs.get(record.start, record.length);
    let hash = hash(record.place, list);
    let head = bucket_at(hash, heads.len() - 1) + 1;
    hashes[number as usize] = hash;
    take_out(links, places, 0, number);
    let place = (record.place & 2047) as usize + 1;
    put_first(links, places, place, number);
    record.next = heads[head];
    record.state = RecordState::Linked;
    records[number as usize] = record;
    heads[head] = number;
}

// Makes a detached record a free one, and gives its run back.
pub(crate) fn release(
    runs: &mut Runs,
    records: &mut [Record],
    links: &mut [Links],
    heads: &mut [u32],
    places: &mut [u32],
    number: u32,
)
    requires detached { IsSome (get (nodes_of runs.old records.old).detached number) }
    requires kept { (chained : Bool) × (flags : List Bool)
        × HoldsNodes chained runs.old records.old links.old heads.old places.old flags }
    ensures kept { (chained : Bool) (flags : List Bool)
        → HoldsNodes chained runs.old records.old links.old heads.old places.old flags
        → HoldsNodes chained runs.new records.new links.new heads.new places.new flags }
    ensures hashed { (hashes : List ℕ) → AreHashed hashes (nodes_of runs.old records.old)
        → AreHashed hashes (nodes_of runs.new records.new) }
    ensures nodes { (k : ℕ × List (ℕ × ℕ))
        → get (nodes_of runs.old records.old).detached number ≡ Some k
        → nodes_of runs.new records.new ≡ removed (nodes_of runs.old records.old) number k.1 }
{
    take_out(links, places, 0, number);
    let mut record = records[number as usize];
    record.next = heads[0];
    record.state = RecordState::Free;
    records[number as usize] = record;
    heads[0] = number;
    runs.give(record.start, record.length);
}

// Makes a linked record a free one, and gives its run back.
pub(crate) fn free(
    runs: &mut Runs,
    buckets: Buckets<'_>,
    records: &mut [Record],
    links: &mut [Links],
    heads: &mut [u32],
    places: &mut [u32],
    node: u32,
)
    requires linked { IsSome (get (nodes_of runs.old records.old).linked node) }
    requires hashed { buckets.stand ≡ true
        → AreHashed buckets.hashes.now (nodes_of runs.old records.old) }
    requires kept { (flags : List Bool)
        × HoldsNodes buckets.stand runs.old records.old links.old heads.old places.old flags }
    ensures kept { (flags : List Bool)
        → HoldsNodes buckets.entry.stand runs.old records.old links.old heads.old places.old flags
        → HoldsNodes buckets.entry.stand runs.new records.new links.new heads.new places.new flags }
    ensures free { (r : Record) → slice_get records.new node ≡ Some r
        → r.state ≡ RecordState.Free }
    ensures hashed { (hashes : List ℕ) → AreHashed hashes (nodes_of runs.old records.old)
        → AreHashed hashes (nodes_of runs.new records.new) }
    ensures nodes { (k : ℕ × List (ℕ × ℕ))
        → get (nodes_of runs.old records.old).linked node ≡ Some k
        → nodes_of runs.new records.new
        ≡ removed (unlinked (nodes_of runs.old records.old) node k) node k.1 }
{
    let place = records[node as usize].place;
    leave_bucket(runs, buckets, records, heads, node);
    take_out(links, places, (place & 2047) as usize + 1, node);
    let mut record = records[node as usize];
    record.next = heads[0];
    record.state = RecordState::Free;
    records[node as usize] = record;
    heads[0] = node;
    runs.give(record.start, record.length);
}
