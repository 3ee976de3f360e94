// The lists of the places and of the detached records, through the links in both directions. They are
// kept once they have heads: only moves of the vtree use them, and what comes before pays one test.
ghost use Rattle.std.specs.Prelude.{◌≡◌, ◌≢◌, ◌<◌, ◌++◌, [], ◌∷◌, length, slice_get, Some, None, Option, List, ℕ};
ghost use Rattle.std.specs.Prelude.{vec_len, vec_capacity};
ghost use Rattle.sd_unique.specs.declared.record.Record.{Record};
ghost use Rattle.sd_unique.specs.Chains.{AreInLists, AreListed, after_of, before_of, head_of};
ghost use Rattle.sd_unique.specs.Chains.{no_links, no_record};
ghost use Rattle.sd_runs.specs.Arena.{IsMember};
ghost use Rattle.sd_unique.specs.Filed.{unfiled, filed_at, IsChain, IsLed};
ghost use Rattle.sd_unique.specs.Filed.{IsLedBack, IsWalkable};

use crate::record::{Links, NO_RECORD, Record};

// Takes a number out of the list of this head, where lists are kept.
#[inline(always)]
pub(crate) fn take_out(links: &mut [Links], places: &mut [u32], head: usize, number: u32)
    requires inside { 0 < length places.old → number < length links.old }
    requires head { 0 < length places.old → head < length places.old }
    requires listed { (under : ℕ → Option ℕ) × (under number ≡ Some head)
        × (0 < length places.old → (n b : ℕ) → under n ≡ Some b → n < length links.old)
        × AreListed links.old places.old under }
    ensures { (under : ℕ → Option ℕ) → under number ≡ Some head
        → AreListed links.old places.old under
        → AreListed links.new places.new (unfiled number under) }
{
    if head < places.len() {
        lead_past(links, places, head, number);
    }
}

// Lets what stands before a number in the list of this head lead to what stands behind it.
#[inline(never)]
fn lead_past(links: &mut [Links], places: &mut [u32], head: usize, number: u32)
    requires inside { number < length links.old }
    requires head { head < length places.old }
    requires listed { (under : ℕ → Option ℕ) × (under number ≡ Some head)
        × ((n b : ℕ) → under n ≡ Some b → n < length links.old)
        × AreInLists links.old places.old under }
    ensures { (under : ℕ → Option ℕ) → under number ≡ Some head
        → AreInLists links.old places.old under
        → AreInLists links.new places.new (unfiled number under) }
{
    let link = links[number as usize];
    lead(links, places, head, link.before, link.after);
    lead_back(links, link.before, link.after);
}

// Lets a number lead to another, or the head where it is no record.
fn lead(links: &mut [Links], places: &mut [u32], head: usize, from: u32, to: u32)
    requires inside { from ≢ no_record → from < length links.old }
    requires head { head < length places.old }
    ensures led { IsLed (after_of links.old) (after_of links.new) no_record (head_of places.old)
        (head_of places.new) head from to }
    ensures before { (n : ℕ) → before_of links.new n ≡ before_of links.old n }
{
    if from == NO_RECORD {
        places[head] = to;
    } else {
        links[from as usize].after = to;
    }
}

// Lets a number lead back to another, where it is a record.
fn lead_back(links: &mut [Links], to: u32, from: u32)
    requires inside { from ≢ no_record → from < length links.old }
    ensures led { IsLedBack (before_of links.old) (before_of links.new) no_record to from }
    ensures after { (n : ℕ) → after_of links.new n ≡ after_of links.old n }
{
    if from != NO_RECORD {
        links[from as usize].before = to;
    }
}

// Puts a number that is in no list first in the list of this head, where lists are kept.
#[inline(always)]
pub(crate) fn put_first(links: &mut [Links], places: &mut [u32], head: usize, number: u32)
    requires inside { 0 < length places.old → number < length links.old }
    requires at_least_one { number ≢ no_record }
    requires head { 0 < length places.old → head < length places.old }
    requires listed { (under : ℕ → Option ℕ) × (under number ≡ None)
        × (0 < length places.old → (n b : ℕ) → under n ≡ Some b → n < length links.old)
        × AreListed links.old places.old under }
    ensures { (under : ℕ → Option ℕ) → under number ≡ None
        → AreListed links.old places.old under
        → AreListed links.new places.new (filed_at number head under) }
{
    if head < places.len() {
        link_first(links, places, head, number);
    }
}

// Puts a number that is in no list first in the list of this head.
#[inline(never)]
pub(crate) fn link_first(links: &mut [Links], places: &mut [u32], head: usize, number: u32)
    requires inside { number < length links.old }
    requires at_least_one { number ≢ no_record }
    requires head { head < length places.old }
    requires listed { (under : ℕ → Option ℕ) × (under number ≡ None)
        × ((n b : ℕ) → under n ≡ Some b → n < length links.old)
        × AreInLists links.old places.old under }
    ensures { (under : ℕ → Option ℕ) → under number ≡ None
        → AreInLists links.old places.old under
        → AreInLists links.new places.new (filed_at number head under) }
{
    let first = places[head];
    lead_back(links, number, first);
    let mut link = links[number as usize];
    link.before = NO_RECORD;
    link.after = first;
    links[number as usize] = link;
    places[head] = number;
}

// The first number from this one on whose record has this place, or no record.
pub(crate) fn at_place(records: &[Record], links: &[Links], first: u32, place: u32) -> u32
    requires size { length links.now ≡ length records.now }
    requires walk { (xs : List ℕ)
        × IsWalkable (after_of links.now) no_record first (length records.now) xs }
    ensures some { result ≢ no_record
        → (xs : List ℕ) → IsChain (after_of links.now) no_record first xs
        → IsMember result xs × (r : Record) × (slice_get records.now result ≡ Some r)
        × (r.place ≡ place) }
    ensures none { result ≡ no_record
        → (xs : List ℕ) → IsChain (after_of links.now) no_record first xs
        → (n : ℕ) (r : Record) → IsMember n xs → slice_get records.now n ≡ Some r
        → r.place ≢ place }
{
    let mut at = first;
    for _step in 0..records.len() {
        if at == NO_RECORD {
            return at;
        }
        if records[at as usize].place == place {
            return at;
        }
        at = links[at as usize].after;
    }
    at
}

// Links for one more record, where lists are kept.
#[inline(always)]
pub(crate) fn push_links(links: &mut Vec<Links>, places: &[u32])
    requires room { 0 < length places.now → vec_len links.old < vec_capacity links.old }
    ensures pushed { 0 < length places.now → links.new.items ≡ links.old.items ++ no_links ∷ [] }
    ensures capacity { vec_capacity links.new ≡ vec_capacity links.old }
{
    if !places.is_empty() {
        links.push_reserved(Links::new());
    }
}
