// The lists are made, and what they and the buckets tell is found without them.
ghost use Rattle.std.specs.Prelude.{◌≡◌, ◌≢◌, ◌+◌, ◌-◌, ◌<◌, ◌^◌, bit_and, length, take, ℕ};
ghost use Rattle.std.specs.Prelude.{IfSome, IfNone, MatchBool, Some};
ghost use Rattle.std.specs.FinMap.{get, empty};
ghost use Rattle.std.specs.Option.{IsSome};
ghost use Rattle.sd_runs.specs.Arena.{Arena};
ghost use Rattle.sd_unique.specs.Chains.{AreInLists, IsRecordAt, head_of};
ghost use Rattle.sd_unique.specs.Chains.{list_by, list_under, no_record};
ghost use Rattle.sd_unique.specs.Record.{nodes_of, AreRecordsStored};
ghost use Rattle.sd_unique.specs.Relinking.{IsLinkedAt};

use crate::lists::link_first;
use crate::record::{Links, Record, RecordState};
use sd_runs::Runs;

// Puts each record that is that of a node in its list, where all lists are empty.
pub(crate) fn list_all(records: &[Record], links: &mut [Links], places: &mut [u32])
    requires size { length links.old ≡ length records.now }
    requires fits { length records.now < 2 ^ 32 - 1 }
    requires heads { length places.old ≡ 2049 }
    requires empty { (b : ℕ) → head_of places.old b ≡ no_record }
    ensures { AreInLists links.new places.new (list_under records.now) }
{
    for number in 0..records.len() {
        list(records, links, places, number);
    }
}

// Puts the next record first in its list, if it is that of a node.
fn list(records: &[Record], links: &mut [Links], places: &mut [u32], number: usize)
    requires size { length links.old ≡ length records.now }
    requires fits { length records.now < 2 ^ 32 - 1 }
    requires inside { number < length records.now }
    requires heads { length places.old ≡ 2049 }
    requires listed { AreInLists links.old places.old (list_under (take number records.now)) }
    ensures { AreInLists links.new places.new (list_under (take (number + 1) records.now)) }
{
    let Some(head) = head_for(&records[number]) else {
        return;
    };
    link_first(links, places, head, number as u32);
}

// The head of the list in which a record is to stand, if it is that of a node.
fn head_for(record: &Record) -> Option<usize>
    ensures { result ≡ list_by record.now.state (bit_and record.now.place 2047) }
{
    match record.state {
        RecordState::Free => None,
        RecordState::Linked => Some((record.place & 2047) as usize + 1),
        RecordState::Detached => Some(0),
    }
}

// The first of all numbers whose node is linked at this place.
pub(crate) fn linked_among(records: &[Record], place: u32) -> Option<u32>
    requires fits { length records.now < 2 ^ 32 - 1 }
    ensures some { IfSome result (λ n. (arena : Arena)
        → IsLinkedAt (nodes_of arena records.now) place n) }
    ensures none { IfNone result ((arena : Arena) (n : ℕ)
        → ¬ IsLinkedAt (nodes_of arena records.now) place n) }
{
    for number in 0..records.len() {
        if is_at(&records[number], place) {
            return Some(number as u32);
        }
    }
    None
}

// The number of the linked node with this place and list, or None where there is none.
pub(crate) fn keyed_among(
    runs: &Runs,
    records: &[Record],
    place: u32,
    list: &[(u32, u32)],
) -> Option<u32>
    requires stored { AreRecordsStored runs.now records.now }
    ensures some { IfSome result (λ n. get (nodes_of runs.now records.now).linked n ≡ Some (place, list.now)) }
    ensures none { IfNone result ((n : ℕ) → get (nodes_of runs.now records.now).linked n ≢ Some (place, list.now)) }
{
    for number in 0..records.len() {
        let record = &records[number];
        if is_at(record, place)
            && record.length as usize == list.len()
            && runs.get(record.start, record.length) == list
        {
            return Some(number as u32);
        }
    }
    None
}

// Whether the record is that of a node that is linked at this place.
fn is_at(record: &Record, place: u32) -> bool
    ensures { MatchBool result (IsRecordAt record.now place) (¬ IsRecordAt record.now place) }
{
    matches!(record.state, RecordState::Linked) && record.place == place
}

// The first of all numbers whose node is detached.
pub(crate) fn detached_among(records: &[Record]) -> Option<u32>
    requires fits { length records.now < 2 ^ 32 - 1 }
    ensures some { IfSome result (λ n. (arena : Arena)
        → IsSome (get (nodes_of arena records.now).detached n)) }
    ensures none { IfNone result ((arena : Arena)
        → (nodes_of arena records.now).detached ≡ empty) }
{
    for number in 0..records.len() {
        if let RecordState::Detached = records[number].state {
            return Some(number as u32);
        }
    }
    None
}
