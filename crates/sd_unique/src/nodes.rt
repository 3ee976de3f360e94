// Nodes by number and by key.

use crate::buckets::{empty_chains, empty_heads};
use crate::chaining::chain_all;
use crate::chains::Buckets;
use crate::found::Found;
use crate::hash::{bucket_at, hash};
use crate::listing::{detached_among, keyed_among, linked_among, list_all};
use crate::lists::{at_place, push_links, put_first};
use crate::record::{Links, NO_RECORD, Record, RecordState};
use crate::room::make_room;
use crate::stack::Candidates;
use crate::states::{attach, detach, free, release};
use crate::sweeping::retire_twos;
use sd_runs::{Runs, TakeError};
use std::alloc::{AllocError, Global};
use std::marker::Model;

// So many records have room from the start. That takes addresses, and memory as they are made; in
// exchange no record of a smaller table is ever copied.
const FIRST_RECORDS: usize = 65_536;

// A sweep ends with a pass that chains all records anew, and puts the free numbers in order with that, once more than
// this part of the records was freed since the last pass. Small sweeps of a large table go on without one until then:
// what they scramble costs less than a pass for each. A sweep is large where more than this part stood on the stack.
const PART_FREED: usize = 8;

// Where a sweep is large, and more than this part was freed since the last pass, what goes on dying is not taken out
// of its bucket any more, and the sweep ends with the pass. What must have been freed first bounds how often the pass
// comes where nodes are taken away and made in turn.
const PART_DYING: usize = 32;

// So many records at least, as fewer stay near in any order: those of a table that is put in order do
// not fit the cache of a processor.
const LEAST_ORDERED: usize = 32_768;

// The lists of the remainders of places, and that of the detached nodes.
const LISTS: usize = 2049;

/// Nodes with a number, a place and a list, in one arena.
#[derive(Drop)]
pub struct Nodes {
    /// Takes the memory of more buckets.
    alloc: Global,
    /// The lists of the nodes, and the loose runs.
    runs: Runs,
    /// The records, by number.
    records: Vec<Record>,
    /// The hash of the place and list of each linked node, at its number.
    hashes: Vec<u32>,
    /// The links of each record, at its number, from the first move on. Before it there is room for them.
    links: Vec<Links>,
    /// The first free record, and while `chained` the first number of each bucket's chain. There are at least four
    /// fifths as many buckets as records, where there was memory for them.
    heads: Vec<u32>,
    /// The first detached record, then the first number of the list of each place, by its remainder.
    /// Nothing before the first move: no lists are kept until then.
    places: Vec<u32>,
    /// The stack of numbers that may be those of linked nodes without uses.
    candidates: Candidates,
    /// How many numbers `retire` freed since `rechain` was last called, or the greatest `u32`.
    freed: u32,
    /// The number that was given last: where they are put in order, the free ones from it on come first.
    newest: u32,
    /// Whether the sweep is large: since the last sweep or pass ended, `idle` met more than an eighth of the
    /// records of a large table on the stack.
    many: bool,
    /// Whether the chains of the buckets stand. From some time of a large sweep on they don't, and what dies
    /// then is not taken out of them: the end of the sweep, or an insertion, makes them anew.
    chained: bool,
}

impl Model for Nodes {
    ghost use Rattle.sd_unique.specs.Nodes.{Nodes as NodesSeen, nodes_code};
    ghost use Rattle.sd_unique.specs.Record.{nodes_of};
    ghost use Rattle.sd_unique.specs.Chains.{AreHashed, HasRoomForLists, HoldsNodes};

    ghost Value = { NodesSeen };

    ghost coded = { nodes_code };

    ghost view = { λ a. nodes_of a.runs a.records.items };

    ghost invariant = { λ a. HoldsNodes a.chained a.runs a.records.items a.links.items a.heads.items
        a.places.items a.candidates.0
        × AreHashed a.hashes.items (nodes_of a.runs a.records.items)
        × HasRoomForLists a.records.len a.links.cap a.places.cap };
}

impl Nodes {
    ghost use Rattle.sd_unique.specs.Chains.{hash_of};
    ghost use Rattle.sd_unique.specs.Finding.{IfPresent, IfNew};
    ghost use Rattle.sd_unique.specs.Occupying.{IsFreeNumber, occupied};
    ghost use Rattle.std.specs.Prelude.{◌≡◌, ◌≢◌, ◌+◌, ◌-◌, ◌<◌, ◌≤◌, ◌^◌, length};
    ghost use Rattle.std.specs.Prelude.{OnOk, OnErr, IfOk, IfErr, IfSome, IfNone, Some, None, ℕ, List};
    ghost use Rattle.std.specs.Option.{option_map, IsSome};
    ghost use Rattle.std.specs.FinMap.{get, contains_key, empty};
    ghost use Rattle.sd_unique.specs.Nodes.{IsNodes, key_at, uses_at, total_length};
    ghost use Rattle.sd_unique.specs.Inserting.{no_nodes, inserted, with_uses, IsNewNumber, IsFull, IsRefusal};
    ghost use Rattle.sd_unique.specs.Relinking.{with_mark, with_loose, without_loose, exchanged, removed, unlinked};
    ghost use Rattle.sd_unique.specs.Relinking.{relinked, with_key, IsAbsent, IsLinkedAt, IsIdle, IsLoose};
    ghost use Rattle.sd_unique.specs.Retiring.{HaveRetired, MayRetire};

    /// No nodes, over an arena of at most `bound` elements. The only error: out of memory.
    pub fn new(alloc: Global, bound: u32) -> Result<Nodes, AllocError>
        requires { bound < 2 ^ 31 }
        ensures empty { IfOk result (λ nodes. nodes ≡ no_nodes bound) }
        ensures nodes { IfOk result (λ nodes. IsNodes nodes) }
    {
        Ok(Nodes {
            alloc,
            runs: Runs::new(alloc, bound),
            records: Vec::with_capacity(alloc, FIRST_RECORDS)?,
            hashes: Vec::with_capacity(alloc, FIRST_RECORDS)?,
            links: Vec::with_capacity(alloc, FIRST_RECORDS)?,
            heads: empty_heads(alloc, 17)?,
            places: Vec::with_capacity(alloc, LISTS)?,
            candidates: Candidates::with_capacity(alloc, FIRST_RECORDS)?,
            freed: 0,
            newest: 0,
            many: false,
            chained: true,
        })
    }

    /// The number of the linked node with this place and list, or None where no linked node has
    /// them. In the midst of a large sweep this may go over all records.
    pub fn find(&self, place: u32, list: &[(u32, u32)]) -> Option<u32>
        ensures some { IfSome result (λ n. get self.now.linked n ≡ Some (place, list.now)) }
        ensures none { IfNone result ((n : ℕ) → get self.now.linked n ≢ Some (place, list.now)) }
        ensures nodes { IsNodes self.now }
    {
        self.lookup(hash(place, list), place, list)
    }

    // Finds a node as `find` does, by the hash of its key too.
    #[inline(always)]
    fn lookup(&self, hash: u32, place: u32, list: &[(u32, u32)]) -> Option<u32>
        requires hash { hash ≡ hash_of (place, list.now) }
        ensures some { IfSome result (λ n. get self.now.linked n ≡ Some (place, list.now)) }
        ensures none { IfNone result ((n : ℕ) → get self.now.linked n ≢ Some (place, list.now)) }
        ensures nodes { IsNodes self.now }
    {
        if !self.chained {
            return keyed_among(&self.runs, &self.records, place, list);
        }
        let mut number = self.heads[bucket_at(hash, self.heads.len() - 1) + 1];
        // A chain has no more records than there are in all.
        for _step in 0..self.records.len() {
            if number == NO_RECORD {
                return None;
            }
            let record = &self.records[number as usize];
            if record.place == place
                && record.length as usize == list.len()
                && self.runs.get(record.start, record.length) == list
            {
                return Some(number);
            }
            number = record.next;
        }
        None
    }

    /// Makes a linked node with this place and list, with no uses and mark 0, and answers its number.
    /// No linked node may have them yet, and the list has one element or more. After an error nothing
    /// is changed. In the midst of a large sweep this may chain all records first.
    #[inline(always)]
    pub fn insert(&mut self, place: u32, list: &[(u32, u32)]) -> Result<u32, TakeError>
        requires at_least_one { 0 < length list.now }
        requires absent { (n : ℕ) → get self.old.linked n ≢ Some (place, list.now) }
        ensures number { IfOk result (λ n. IsNewNumber self.old n) }
        ensures ok { IfOk result (λ n. self.new ≡ inserted self.old n place list.now) }
        ensures nodes { IsNodes self.new }
        ensures room { OnOk result (¬ IsFull self.old (length list.now)) }
        ensures err { OnErr result (self.new ≡ self.old) }
        ensures full { IfErr result (λ e. IsRefusal self.old (length list.now) e) }
    {
        self.ensure_chained();
        self.insert_hashed(hash(place, list), place, list)
    }

    /// Finds the linked node with this place and list, or makes it as `insert` does. The list has one
    /// element or more. After an error nothing is changed. In the midst of a large sweep this may chain all
    /// records first.
    #[inline(always)]
    pub fn find_or_insert(&mut self, place: u32, list: &[(u32, u32)]) -> Result<Found, TakeError>
        requires at_least_one { 0 < length list.now }
        ensures present { IfOk result (λ found. IfPresent found
            (λ n. get self.old.linked n ≡ Some (place, list.now))) }
        ensures same { IfOk result (λ found. IfPresent found (λ n. self.new ≡ self.old)) }
        ensures absent { IfOk result (λ found. IfNew found
            (λ n. IsAbsent self.old (place, list.now))) }
        ensures number { IfOk result (λ found. IfNew found (λ n. IsNewNumber self.old n)) }
        ensures ok { IfOk result (λ found. IfNew found
            (λ n. self.new ≡ inserted self.old n place list.now)) }
        ensures nodes { IsNodes self.new }
        ensures room { IfOk result (λ found. IfNew found
            (λ n. ¬ IsFull self.old (length list.now))) }
        ensures err { OnErr result (self.new ≡ self.old) }
        ensures refused { OnErr result (IsAbsent self.old (place, list.now)) }
        ensures full { IfErr result (λ e. IsRefusal self.old (length list.now) e) }
    {
        self.ensure_chained();
        let hash = hash(place, list);
        if let Some(node) = self.lookup(hash, place, list) {
            return Ok(Found::Present(node));
        }
        match self.insert_hashed(hash, place, list) {
            Ok(node) => Ok(Found::New(node)),
            Err(error) => Err(error),
        }
    }

    // Makes a linked node as `insert` does, by the hash of its key too.
    #[inline(always)]
    fn insert_hashed(
        &mut self,
        hash: u32,
        place: u32,
        list: &[(u32, u32)],
    ) -> Result<u32, TakeError>
        requires hash { hash ≡ hash_of (place, list.now) }
        requires at_least_one { 0 < length list.now }
        requires absent { (n : ℕ) → get self.old.linked n ≢ Some (place, list.now) }
        ensures number { IfOk result (λ n. IsNewNumber self.old n) }
        ensures ok { IfOk result (λ n. self.new ≡ inserted self.old n place list.now) }
        ensures nodes { IsNodes self.new }
        ensures room { OnOk result (¬ IsFull self.old (length list.now)) }
        ensures err { OnErr result (self.new ≡ self.old) }
        ensures full { IfErr result (λ e. IsRefusal self.old (length list.now) e) }
    {
        self.grow_buckets();
        self.add(hash, place, list)
    }

    // Doubles the buckets where the records are a quarter more. Where there is no memory for that, they stay.
    #[inline(always)]
    fn grow_buckets(&mut self)
        ensures { self.new ≡ self.old }
    {
        let buckets = self.heads.len() - 1;
        if self.records.len() >= buckets.saturating_add(buckets / 4) {
            self.double_buckets();
        }
    }

    // Doubles the buckets, where there is memory for that.
    #[inline(never)]
    fn double_buckets(&mut self)
        ensures { self.new ≡ self.old }
    {
        let buckets = self.heads.len() - 1;
        if let Ok(mut heads) = empty_heads(self.alloc, 2 * buckets + 1) {
            let from = self.first_in_order();
            chain_all(
                &self.runs,
                &self.hashes,
                &mut self.records,
                &mut heads,
                from,
            );
            self.heads = heads;
            self.chained = true;
        }
    }

    // Makes the chains of the buckets, where they don't stand.
    #[inline(always)]
    fn ensure_chained(&mut self)
        ensures { self.new ≡ self.old }
    {
        if !self.chained {
            self.rechain();
        }
    }

    // Makes a linked node as `insert_hashed` does, among the buckets that there are.
    #[inline(always)]
    fn add(&mut self, hash: u32, place: u32, list: &[(u32, u32)]) -> Result<u32, TakeError>
        requires hash { hash ≡ hash_of (place, list.now) }
        requires at_least_one { 0 < length list.now }
        requires absent { (n : ℕ) → get self.old.linked n ≢ Some (place, list.now) }
        ensures number { IfOk result (λ n. IsNewNumber self.old n) }
        ensures ok { IfOk result (λ n. self.new ≡ inserted self.old n place list.now) }
        ensures nodes { IsNodes self.new }
        ensures room { OnOk result (¬ IsFull self.old (length list.now)) }
        ensures err { OnErr result (self.new ≡ self.old) }
        ensures full { IfErr result (λ e. IsRefusal self.old (length list.now) e) }
    {
        if self.heads[0] == NO_RECORD {
            return self.add_record(hash, place, list);
        }
        let start = self.runs.take(list)?;
        Ok(self.occupy(hash, place, (start, list.len() as u32)))
    }

    // The same where no number is free: a record is pushed as that of the node.
    #[inline(never)]
    fn add_record(&mut self, hash: u32, place: u32, list: &[(u32, u32)]) -> Result<u32, TakeError>
        requires hash { hash ≡ hash_of (place, list.now) }
        requires at_least_one { 0 < length list.now }
        requires absent { (n : ℕ) → get self.old.linked n ≢ Some (place, list.now) }
        requires all { (n : ℕ) → n < self.old.records → IsSome (key_at self.old n) }
        ensures number { IfOk result (λ n. IsNewNumber self.old n) }
        ensures ok { IfOk result (λ n. self.new ≡ inserted self.old n place list.now) }
        ensures nodes { IsNodes self.new }
        ensures room { OnOk result (¬ IsFull self.old (length list.now)) }
        ensures err { OnErr result (self.new ≡ self.old) }
        ensures full { IfErr result (λ e. IsRefusal self.old (length list.now) e) }
    {
        make_room(
            &mut self.records,
            &mut self.hashes,
            &mut self.links,
            &mut self.candidates,
        )?;
        let start = self.runs.take(list)?;
        let run = (start, list.len() as u32);
        let number = self.records.len() as u32;
        self.newest = number;
        let head = bucket_at(hash, self.heads.len() - 1) + 1;
        self.records
            .push_reserved(Record::linked(place, run, self.heads[head]));
        self.hashes.push_reserved(hash);
        push_links(&mut self.links, &self.places);
        self.candidates.add();
        self.heads[head] = number;
        let list = (place & 2047) as usize + 1;
        put_first(&mut self.links, &mut self.places, list, number);
        self.candidates.push(number);
        Ok(number)
    }

    // Makes the first free record that of a linked node with this place and the list of a loose run,
    // with no uses and mark 0, and answers its number.
    #[inline(always)]
    fn occupy(&mut self, hash: u32, place: u32, run: (u32, u32)) -> u32
        requires run { (list : List (ℕ × ℕ)) × IsLoose self.old run.0 run.1 list
            × (hash ≡ hash_of (place, list)) × IsAbsent self.old (place, list) }
        requires free { (n : ℕ) × IsFreeNumber self.old n }
        ensures number { IsFreeNumber self.old result }
        ensures ok { (list : List (ℕ × ℕ)) → IsLoose self.old run.0 run.1 list
            → self.new ≡ occupied self.old result place run.0 list }
        ensures nodes { IsNodes self.new }
    {
        let number = self.heads[0];
        self.newest = number;
        self.heads[0] = self.records[number as usize].next;
        let head = bucket_at(hash, self.heads.len() - 1) + 1;
        self.records[number as usize] = Record {
            place,
            start: run.0,
            length: run.1,
            next: self.heads[head],
            uses: 0,
            mark: 0,
            state: RecordState::Linked,
        };
        self.heads[head] = number;
        self.hashes[number as usize] = hash;
        put_first(
            &mut self.links,
            &mut self.places,
            (place & 2047) as usize + 1,
            number,
        );
        self.candidates.push(number);
        number
    }

    /// The mark of a node.
    pub fn mark(&self, node: u32) -> u32
        requires { IsSome (key_at self.now node) }
        ensures { get self.now.marks node ≡ Some result }
    {
        self.records[node as usize].mark
    }

    /// Gives a node this mark.
    pub fn set_mark(&mut self, node: u32, value: u32)
        requires { IsSome (key_at self.old node) }
        ensures mark { self.new ≡ with_mark self.old node value }
        ensures nodes { IsNodes self.new }
    {
        self.records[node as usize].mark = value;
    }

    /// The place of a node.
    pub fn place(&self, node: u32) -> u32
        requires { IsSome (key_at self.now node) }
        ensures { option_map (λ key. key.0) (key_at self.now node) ≡ Some result }
    {
        self.records[node as usize].place
    }

    /// The list of a node.
    pub fn list(&self, node: u32) -> &[(u32, u32)]
        requires { IsSome (key_at self.now node) }
        ensures { option_map (λ key. key.1) (key_at self.now node) ≡ Some result.now }
    {
        let record = &self.records[node as usize];
        self.runs.get(record.start, record.length)
    }

    /// One more than the greatest number ever given, or 0.
    pub fn records(&self) -> u32
        ensures records { result ≡ self.now.records }
        ensures nodes { IsNodes self.now }
    {
        self.records.len() as u32
    }

    /// How many elements the nodes and the loose runs have together.
    pub fn used(&self) -> u32
        ensures used { result ≡ total_length self.now }
        ensures nodes { IsNodes self.now }
    {
        self.runs.used()
    }

    /// Whether a node of this number, which is below `records`, is linked.
    pub fn is_linked(&self, number: u32) -> bool
        requires { number < self.now.records }
        ensures { result ≡ contains_key self.now.linked number }
    {
        matches!(self.records[number as usize].state, RecordState::Linked)
    }

    /// How often a node is used.
    pub fn uses(&self, node: u32) -> u64
        requires { IsSome (key_at self.now node) }
        ensures { get self.now.uses node ≡ Some result }
    {
        self.records[node as usize].uses
    }

    /// Counts one use more of a node, whose count is below the greatest `u64`.
    pub fn add_use(&mut self, node: u32)
        requires node { IsSome (key_at self.old node) }
        requires room { uses_at self.old node < 2 ^ 64 - 1 }
        ensures uses { self.new ≡ with_uses self.old node (uses_at self.old node + 1) }
        ensures nodes { IsNodes self.new }
    {
        self.records[node as usize].uses += 1;
    }

    /// Counts one use less of a node that is used. The node stays, even with no uses.
    pub fn drop_use(&mut self, node: u32)
        requires node { IsSome (key_at self.old node) }
        requires used { 0 < uses_at self.old node }
        ensures uses { self.new ≡ with_uses self.old node (uses_at self.old node - 1) }
        ensures nodes { IsNodes self.new }
    {
        let uses = self.records[node as usize].uses - 1;
        self.candidates.push_unused(node, uses);
        self.records[node as usize].uses = uses;
    }

    /// Sees to it that the nodes of each place, and the detached ones, have a list from now on. That
    /// takes a step for each record the first time, and one test from then on. Takes no memory: there
    /// is room for the heads since the table was made, and for the links since the records were.
    pub fn list_places(&mut self)
        ensures same { self.new ≡ self.old }
        ensures nodes { IsNodes self.new }
    {
        if !self.places.is_empty() {
            return;
        }
        // there is room for both
        let _ = self.links.resize(self.records.len(), Links::new());
        let _ = self.places.resize(LISTS, NO_RECORD);
        list_all(&self.records, &mut self.links, &mut self.places);
    }

    /// A detached node, where there is one.
    pub fn first_detached(&self) -> Option<u32>
        ensures some { IfSome result (λ n. IsSome (get self.now.detached n)) }
        ensures none { IfNone result (self.now.detached ≡ empty) }
    {
        // a move lists the places first
        if self.places.is_empty() {
            return detached_among(&self.records);
        }
        let first = self.places[0];
        if first == NO_RECORD {
            return None;
        }
        Some(first)
    }

    /// Makes a loose run of this list, of one element or more, and answers its start and length.
    /// After an error nothing is changed.
    pub fn take_run(&mut self, list: &[(u32, u32)]) -> Result<(u32, u32), TakeError>
        requires at_least_one { 0 < length list.now }
        ensures fresh { IfOk result (λ run. get self.old.loose run.0 ≡ None) }
        ensures ok { IfOk result (λ run. (run.1 ≡ length list.now)
            × (self.new ≡ with_loose self.old run.0 list.now)) }
        ensures nodes { IsNodes self.new }
        ensures room { OnOk result (¬ IsFull self.old (length list.now)) }
        ensures err { OnErr result (self.new ≡ self.old) }
        ensures full { IfErr result (λ e. IsRefusal self.old (length list.now) e) }
    {
        let start = self.runs.take(list)?;
        Ok((start, list.len() as u32))
    }

    /// The list of a loose run.
    pub fn loose_list(&self, run: (u32, u32)) -> &[(u32, u32)]
        requires { (list : List (ℕ × ℕ)) × IsLoose self.now run.0 run.1 list }
        ensures { get self.now.loose run.0 ≡ Some result.now }
    {
        self.runs.get(run.0, run.1)
    }

    /// Frees a loose run.
    pub fn give_run(&mut self, run: (u32, u32))
        requires { (list : List (ℕ × ℕ)) × IsLoose self.old run.0 run.1 list }
        ensures given_back { (list : List (ℕ × ℕ)) → IsLoose self.old run.0 run.1 list
            → self.new ≡ without_loose self.old run.0 list }
        ensures nodes { IsNodes self.new }
    {
        self.runs.give(run.0, run.1);
    }

    /// Gives a detached node the list of a loose run, and answers the run that it had, which is
    /// loose now.
    pub fn replace_run(&mut self, node: u32, run: (u32, u32)) -> (u32, u32)
        requires node { IsSome (get self.old.detached node) }
        requires run { (list : List (ℕ × ℕ)) × IsLoose self.old run.0 run.1 list }
        ensures exchanged { (k : ℕ × List (ℕ × ℕ)) (list : List (ℕ × ℕ))
            → get self.old.detached node ≡ Some k → IsLoose self.old run.0 run.1 list
            → (result.1 ≡ length k.1)
            × (self.new ≡ exchanged self.old node k.0 run.0 list result.0 k.1) }
        ensures fresh { get self.old.loose result.0 ≡ None }
        ensures nodes { IsNodes self.new }
    {
        let record = &mut self.records[node as usize];
        let old = (record.start, record.length);
        record.start = run.0;
        record.length = run.1;
        old
    }

    /// Gives a detached node another place.
    pub fn retag(&mut self, node: u32, place: u32)
        requires node { IsSome (get self.old.detached node) }
        ensures retagged { (k : ℕ × List (ℕ × ℕ)) → get self.old.detached node ≡ Some k
            → self.new ≡ with_key self.old node (place, k.1) }
        ensures nodes { IsNodes self.new }
    {
        self.records[node as usize].place = place;
    }

    /// Takes a linked node out of the chains: it is found by its number alone then.
    pub fn unlink(&mut self, node: u32)
        requires node { IsSome (get self.old.linked node) }
        ensures unlinked { (k : ℕ × List (ℕ × ℕ)) → get self.old.linked node ≡ Some k
            → self.new ≡ unlinked self.old node k }
        ensures nodes { IsNodes self.new }
    {
        let buckets = Buckets {
            hashes: &self.hashes,
            stand: self.chained,
        };
        detach(
            &self.runs,
            buckets,
            &mut self.records,
            &mut self.links,
            &mut self.heads,
            &mut self.places,
            node,
        );
    }

    /// Puts a detached node back into the chains, where no linked node has its key. Takes no
    /// memory.
    pub fn relink(&mut self, node: u32)
        requires node { IsSome (get self.old.detached node) }
        requires absent { (k : ℕ × List (ℕ × ℕ)) → get self.old.detached node ≡ Some k
            → IsAbsent self.old k }
        ensures relinked { (k : ℕ × List (ℕ × ℕ)) → get self.old.detached node ≡ Some k
            → self.new ≡ relinked self.old node k }
        ensures nodes { IsNodes self.new }
    {
        let uses = self.records[node as usize].uses;
        self.candidates.push_unused(node, uses);
        attach(
            &self.runs,
            &mut self.hashes,
            &mut self.records,
            &mut self.links,
            &mut self.heads,
            &mut self.places,
            node,
        );
    }

    /// Removes a detached node without uses: its number and its run are free then.
    pub fn remove(&mut self, node: u32)
        requires node { IsSome (get self.old.detached node) }
        requires unused { get self.old.uses node ≡ Some 0 }
        ensures removed { (k : ℕ × List (ℕ × ℕ)) → get self.old.detached node ≡ Some k
            → self.new ≡ removed self.old node k.1 }
        ensures nodes { IsNodes self.new }
    {
        release(
            &mut self.runs,
            &mut self.records,
            &mut self.links,
            &mut self.heads,
            &mut self.places,
            node,
        );
    }

    /// Removes a linked node without uses, as `unlink` and then `remove` do: its number and its run are
    /// free then.
    #[inline(always)]
    pub fn retire(&mut self, node: u32)
        requires node { IsIdle self.old node }
        ensures retired { (k : ℕ × List (ℕ × ℕ)) → get self.old.linked node ≡ Some k
            → self.new ≡ removed (unlinked self.old node k) node k.1 }
        ensures nodes { IsNodes self.new }
    {
        let buckets = Buckets {
            hashes: &self.hashes,
            stand: self.chained,
        };
        free(
            &mut self.runs,
            buckets,
            &mut self.records,
            &mut self.links,
            &mut self.heads,
            &mut self.places,
            node,
        );
        self.candidates.pop_top(node);
        self.freed = self.freed.saturating_add(1);
    }

    /// Removes some linked nodes without uses, or none, one after the other, each with the uses of its list: a code of
    /// `first` or more names the node of the number by which it is more. Answers how many were removed. How many that
    /// is, and which, is chosen for speed.
    pub fn retire_twos(&mut self, first: u32) -> u32
        requires may { MayRetire first self.old }
        ensures retired { HaveRetired first self.old self.new result }
        ensures nodes { IsNodes self.new }
    {
        // in the midst of a large sweep, before lists of places are kept, up to a node that has not two elements
        if self.chained || !self.places.is_empty() {
            return 0;
        }
        retire_twos(
            &mut self.runs,
            &mut self.records,
            &mut self.links,
            &mut self.heads,
            &mut self.places,
            &mut self.candidates,
            first,
        )
    }

    /// A linked node without uses, where there is one: any of them. The answer None ends a sweep; where
    /// that chains all records anew, it takes a step for each record, each bucket and the mark of each element.
    pub fn idle(&mut self) -> Option<u32>
        ensures some { IfSome result (λ n. IsIdle self.new n) }
        ensures none { IfNone result ((n : ℕ) → ¬ IsIdle self.new n) }
        ensures same { self.new ≡ self.old }
    {
        self.begin_sweep();
        let Some(node) = self.candidates.pop_used(&self.records) else {
            self.end_sweep();
            return None;
        };
        Some(node)
    }

    // Notes whether the sweep is large, and lets the chains of the buckets go once enough was freed in it: its end
    // makes them anew.
    #[inline(always)]
    fn begin_sweep(&mut self)
        ensures { self.new ≡ self.old }
    {
        if self.chained && self.is_large() {
            let count = self.records.len();
            self.many = self.many || self.candidates.depth() > count / PART_FREED;
            if self.many && self.freed as usize > count / PART_DYING {
                self.chained = false;
            }
        }
    }

    // Chains the records anew, and puts the free runs of two in order, where the chains don't stand or a great
    // part of the records was freed since that was done.
    #[inline(always)]
    fn end_sweep(&mut self)
        ensures { self.new ≡ self.old }
    {
        self.many = false;
        if !self.chained
            || self.is_large() && self.freed as usize > self.records.len() / PART_FREED
        {
            self.rechain();
        }
    }

    // Whether the records of the table do not stay near in any order.
    #[inline(always)]
    fn is_large(&self) -> bool {
        self.records.len() > LEAST_ORDERED
    }

    // Makes all chains anew: the free numbers in order, those from that of the newest node on first and then the
    // smallest, and the linked ones among the buckets. Puts the free runs of two, the length of most lists, in order
    // likewise. A sweep frees them in the order of the stack, and nodes that got them in that order stand all over the
    // records, hashes and runs, where those made one after the other are read one after the other. Going on behind the
    // newest node, and not from the smallest number again, new nodes take the place of the oldest ones: numbers mostly
    // stay in the order in which nodes were made, round and round, and what dies together stands together.
    #[inline(never)]
    fn rechain(&mut self)
        ensures { self.new ≡ self.old }
    {
        let from = self.first_in_order();
        let start = self.start_at(from);
        empty_chains(&mut self.heads);
        chain_all(
            &self.runs,
            &self.hashes,
            &mut self.records,
            &mut self.heads,
            from,
        );
        self.runs.order_twos(start);
        self.freed = 0;
        self.many = false;
        self.chained = true;
    }

    // The number from which the free ones are put in order: that of the newest node.
    fn first_in_order(&self) -> usize
        ensures { result ≤ self.now.records }
    {
        (self.newest as usize).min(self.records.len())
    }

    // Where the run of a record starts, or 0 where there is no such record.
    fn start_at(&self, number: usize) -> u32 {
        if number < self.records.len() {
            self.records[number].start
        } else {
            0
        }
    }

    /// A linked node at this place, where there is one.
    pub fn first_at(&self, place: u32) -> Option<u32>
        ensures some { IfSome result (λ n. IsLinkedAt self.now place n) }
        ensures none { IfNone result ((n : ℕ) → ¬ IsLinkedAt self.now place n) }
    {
        // a move lists the places first
        if self.places.is_empty() {
            return linked_among(&self.records, place);
        }
        let first = self.places[(place & 2047) as usize + 1];
        let found = at_place(&self.records, &self.links, first, place);
        if found == NO_RECORD {
            return None;
        }
        Some(found)
    }
}
