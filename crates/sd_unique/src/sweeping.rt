// Linked nodes without uses are taken away one after the other, with the uses of their lists.
ghost use Rattle.std.specs.Prelude.{false, ℕ, List, [], ◌∷◌};
ghost use Rattle.sd_unique.specs.declared.record.Links.{Links};
ghost use Rattle.sd_unique.specs.Chains.{AreHashed, HoldsNodes};
ghost use Rattle.sd_unique.specs.Record.{nodes_of};
ghost use Rattle.sd_unique.specs.Retiring.{AreCodesUsed, DropsCode, DropsCodes, HaveRetired, IsCodeUsed, MayRetire};

use crate::chains::Buckets;
use crate::record::{Links, Record};
use crate::stack::Candidates;
use crate::states::free;
use sd_runs::Runs;

// Takes nodes of two elements away until the top of the stack has another length or none is left, and answers how many.
// What is taken away is left in the chain of its bucket, which does not stand. In one loop the starts of most vectors
// are read once, and what holds for the whole sweep is asked once (`docs/SPEED.md`).
#[inline(never)]
pub(crate) fn retire_twos(
    runs: &mut Runs,
    records: &mut [Record],
    links: &mut [Links],
    heads: &mut [u32],
    places: &mut [u32],
    candidates: &mut Candidates,
    first: u32,
) -> u32
    requires kept { HoldsNodes false runs.old records.old links.old heads.old places.old candidates.old.0 }
    requires may { MayRetire first (nodes_of runs.old records.old) }
    ensures kept { HoldsNodes false runs.new records.new links.new heads.new places.new candidates.new.0 }
    ensures hashed { (hashes : List ℕ) → AreHashed hashes (nodes_of runs.old records.old)
        → AreHashed hashes (nodes_of runs.new records.new) }
    ensures retired { HaveRetired first (nodes_of runs.old records.old) (nodes_of runs.new records.new) result }
{
    let buckets = Buckets {
        hashes: &[],
        stand: false,
    };
    // there are fewer nodes
    for count in 0..u32::MAX {
        let Some(node) = candidates.pop_used(records) else {
            return count;
        };
        let record = records[node as usize];
        let [one, two] = *runs.get(record.start, record.length) else {
            return count;
        };
        free(runs, buckets, records, links, heads, places, node);
        candidates.pop_top(node);
        drop_two(runs, records, candidates, first, (one, two));
    }
    u32::MAX
}

// Counts one use less of each node that a code of two pairs names. The arena is there for the contract alone.
#[inline(always)]
fn drop_two(
    runs: &Runs,
    records: &mut [Record],
    candidates: &mut Candidates,
    first: u32,
    pairs: ((u32, u32), (u32, u32)),
)
    requires used { AreCodesUsed first (nodes_of runs.now records.old) (pairs.0 ∷ pairs.1 ∷ []) }
    requires kept { (links : List Links) × (heads : List ℕ) × (places : List ℕ)
        × HoldsNodes false runs.now records.old links heads places candidates.old.0 }
    ensures kept { (links : List Links) (heads places : List ℕ)
        → HoldsNodes false runs.now records.old links heads places candidates.old.0
        → HoldsNodes false runs.now records.new links heads places candidates.new.0 }
    ensures dropped { DropsCodes first (nodes_of runs.now records.old) (nodes_of runs.now records.new)
        (pairs.0 ∷ pairs.1 ∷ []) }
{
    let (one, two) = pairs;
    drop_code(runs, records, candidates, first, one.0);
    drop_code(runs, records, candidates, first, one.1);
    drop_code(runs, records, candidates, first, two.0);
    drop_code(runs, records, candidates, first, two.1);
}

// Counts one use less of the node that a code names. The arena is there for the contract alone.
#[inline(always)]
fn drop_code(
    runs: &Runs,
    records: &mut [Record],
    candidates: &mut Candidates,
    first: u32,
    code: u32,
)
    requires used { IsCodeUsed first (nodes_of runs.now records.old) code }
    requires kept { (links : List Links) × (heads : List ℕ) × (places : List ℕ)
        × HoldsNodes false runs.now records.old links heads places candidates.old.0 }
    ensures kept { (links : List Links) (heads places : List ℕ)
        → HoldsNodes false runs.now records.old links heads places candidates.old.0
        → HoldsNodes false runs.now records.new links heads places candidates.new.0 }
    ensures dropped { DropsCode first (nodes_of runs.now records.old) (nodes_of runs.now records.new) code }
{
    if code < first {
        return;
    }
    let node = code - first;
    let uses = records[node as usize].uses - 1;
    records[node as usize].uses = uses;
    candidates.push_unused(node, uses);
}
