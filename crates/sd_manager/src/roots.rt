//! Roots: numbers that hold nodes.

ghost use Rattle.std.specs.Prelude.{◌≡◌, ◌≤◌, ◌<◌, ◌^◌, ℕ, length, slice_index_or};
ghost use Rattle.std.specs.Prelude.{Some, None, IfOk, OnErr};
ghost use Rattle.std.specs.Option.{IsSome};
ghost use Rattle.std.specs.FinMap.{empty, get, insert, remove};
ghost use Rattle.sd_unique.specs.Nodes.{Nodes as NodesSeen};
ghost use Rattle.sd_counts.specs.Right.{AreOf};
ghost use Rattle.sd_manager.specs.Stored.{AreFilled, counted_roots, held_count, held_map};
ghost use Rattle.sd_manager.specs.Recounting.{MayCount};

use sd_counts::LiveCounts;
use std::alloc::{AllocError, Global};
use std::marker::Model;

/// A held node of a manager. Give it back to `release`: one that is dropped keeps its node held.
#[derive(Drop)]
pub struct Root(u32);

impl Model for Root {
    ghost use Rattle.std.specs.Prelude.{ℕ};

    ghost Value = { ℕ };

    ghost view = { λ a. a.0 };
}

// The codes that are held, in slots; contracts see them as a map from the numbers of the slots.
#[derive(Drop)]
pub(crate) struct Roots {
    slots: Vec<Option<u32>>,
    // Where the search for an empty slot begins: no slot before is empty.
    first: usize,
}

impl Model for Roots {
    ghost use Rattle.std.specs.Prelude.{ℕ};
    ghost use Rattle.std.specs.Ordering.{nat_cmp};
    ghost use Rattle.std.specs.FinMap.{FinMap, code};
    ghost use Rattle.std.specs.Coded.{coded_ℕ};
    ghost use Rattle.sd_manager.specs.Stored.{held_map, AreSlots};

    ghost Value = { FinMap nat_cmp ℕ };

    ghost coded = { code coded_ℕ coded_ℕ };

    ghost view = { λ a. held_map a.slots.items };

    ghost invariant = { λ a. AreSlots a.slots.items a.first };
}

impl Roots {
    ghost use Rattle.std.specs.Prelude.{◌≡◌, Some, None, IfOk, OnErr};
    ghost use Rattle.std.specs.Option.{IsSome};
    ghost use Rattle.std.specs.FinMap.{empty, get, insert, remove};

    // No roots.
    pub(crate) fn new(alloc: Global) -> Roots
        ensures { result ≡ empty }
    {
        Roots {
            slots: Vec::new(alloc),
            first: 0,
        }
    }

    // The code that a root holds.
    pub(crate) fn code(&self, root: &Root) -> u32
        requires { IsSome (get self.now root.now) }
        ensures { get self.now root.now ≡ Some result }
    {
        self.slots[root.0 as usize].unwrap()
    }

    // A new root for a code.
    pub(crate) fn hold(&mut self, code: u32) -> Result<Root, AllocError>
        ensures absent { IfOk result (λ root. get self.old root ≡ None) }
        ensures ok { IfOk result (λ root. self.new ≡ insert self.old root code) }
        ensures err { OnErr result (self.new ≡ self.old) }
    {
        let index = empty_slot(self.slots.as_slice(), self.first);
        if index == self.slots.len() {
            if index >= u32::MAX as usize {
                return Err(AllocError);
            }
            self.slots.push(Some(code))?;
        } else {
            self.slots[index] = Some(code);
        }
        self.first = index + 1;
        Ok(Root(index as u32))
    }

    // Takes a root away, and answers what it held.
    pub(crate) fn release(&mut self, root: &Root) -> u32
        requires { IsSome (get self.old root.now) }
        ensures held { get self.old root.now ≡ Some result }
        ensures removed { self.new ≡ remove self.old root.now }
    {
        let index = root.0 as usize;
        self.first = self.first.min(index);
        self.slots[index].take().unwrap()
    }

    // Makes a root hold another code, and answers what it held.
    pub(crate) fn rebind(&mut self, root: &Root, code: u32) -> u32
        requires { IsSome (get self.old root.now) }
        ensures held { get self.old root.now ≡ Some result }
        ensures bound { self.new ≡ insert self.old root.now code }
    {
        self.slots[root.0 as usize].replace(code).unwrap()
    }

    // Counts all roots, where none is counted yet.
    pub(crate) fn count(&self, counts: &mut LiveCounts, is_counting: bool)
        requires may { (a : NodesSeen) × MayCount a self.now
            × AreOf a (held_count (counted_roots is_counting self.now)) counts.old }
        ensures { (a : NodesSeen) → MayCount a self.now
            → AreOf a (held_count (counted_roots is_counting self.now)) counts.old
            → AreOf a (held_count self.now) counts.new }
    {
        if is_counting {
            return;
        }
        count_slots(self.slots.as_slice(), counts);
    }
}

// Counts all codes in slots, where none is counted yet.
fn count_slots(slots: &[Option<u32>], counts: &mut LiveCounts)
    requires few { length slots.now < 2 ^ 32 }
    requires may { (a : NodesSeen) × MayCount a (held_map slots.now)
        × AreOf a (held_count empty) counts.old }
    ensures { (a : NodesSeen) → MayCount a (held_map slots.now)
        → AreOf a (held_count empty) counts.old
        → AreOf a (held_count (held_map slots.now)) counts.new }
{
    for index in 0..slots.len() {
        if let Some(code) = slots[index] {
            counts.hold(code);
        }
    }
}

// The first empty slot from an index on, or the number of slots.
fn empty_slot(slots: &[Option<u32>], first: usize) -> usize
    ensures inside { result ≤ length slots.now }
    ensures empty { slice_index_or slots.now result None ≡ None }
    ensures filled { AreFilled slots.now first result }
{
    for index in first..slots.len() {
        if slots[index].is_none() {
            return index;
        }
    }
    slots.len()
}
