//! The calls of a move: nodes are detached, the vtree is turned, and the nodes are linked again.

ghost use Rattle.std.specs.Prelude.{◌≡◌, ℕ, ◌+◌, ◌<◌, List, length, Some, None, IfSome, IfNone};
ghost use Rattle.std.specs.Option.{IsSome, option_map};
ghost use Rattle.std.specs.FinMap.{get, empty};
ghost use Rattle.sd_vtree.specs.Numbered.{IsNumbered, Numbered, numbers};
ghost use Rattle.sd_vtree.specs.NumberedMoves.{moved_number};
ghost use Rattle.sd_manager.specs.Table.{key_at};
ghost use Rattle.sd_manager.specs.Shown.{IsNodeOf};
ghost use Rattle.sd_manager.specs.Valid.{IsTable};
ghost use Rattle.sd_manager.specs.Moving.{FitsNode, IsAscending, IsAbsent, IsTop, IsCleared, KeepsMeanings};
ghost use Rattle.sd_manager.specs.Moving.{moving_at, at_rest, with_vtree, detached_from, linked_under};
ghost use Rattle.sd_manager.specs.Places.{IsLinkedAt};

use crate::manager::{Manager, epoch_after};
use sd_model::Move;
use sd_vtree::{VNode, Vtree};

impl Manager {
    /// Begins a move at a vtree node. The first one takes a step for each record.
    pub fn begin_move(&mut self, place: VNode)
        requires still { self.old.moving ≡ None }
        requires place { place < length (numbers self.old.vtree) }
        ensures begun { self.new ≡ moving_at self.old place }
        ensures table { IsTable self.new }
    {
        self.nodes.list_places();
        self.moving = Some(place);
    }

    /// One more than the greatest number that a node ever had, or 0.
    pub fn records(&self) -> u32
        ensures records { result ≡ self.now.records }
        ensures table { IsTable self.now }
    {
        self.nodes.records()
    }

    /// The place of the linked node with a number, which is below `records`, or None where there is none.
    pub fn linked_at(&self, number: u32) -> Option<VNode>
        requires { number < self.now.records }
        ensures linked { result ≡ option_map (λ k. k.0) (get self.now.linked number) }
        ensures table { IsTable self.now }
    {
        if !self.nodes.is_linked(number) {
            return None;
        }
        Some(VNode(self.nodes.place(number)))
    }

    /// The number of a node that is linked at a place, where there is one.
    pub fn first_at(&self, place: VNode) -> Option<u32>
        ensures some { IfSome result (λ n. IsLinkedAt self.now place n) }
        ensures none { IfNone result ((n : ℕ) → ¬ IsLinkedAt self.now place n) }
        ensures table { IsTable self.now }
    {
        self.nodes.first_at(place.0)
    }

    /// The number of a detached node, where there is one.
    pub fn first_detached(&self) -> Option<u32>
        ensures some { IfSome result (λ n. IsSome (get self.now.detached n)) }
        ensures none { IfNone result (self.now.detached ≡ empty) }
        ensures table { IsTable self.now }
    {
        self.nodes.first_detached()
    }

    /// The place of a node, linked or detached, by its number.
    pub fn place_at(&self, number: u32) -> VNode
        requires { IsSome (key_at self.now number) }
        ensures place { option_map (λ k. k.0) (key_at self.now number) ≡ Some result }
        ensures table { IsTable self.now }
    {
        VNode(self.nodes.place(number))
    }

    /// Turns the vtree at the node of the move, where no linked node stands at the nodes that are turned. Each node of
    /// the vtree keeps its number, and each linked node that is not above the moved one keeps its function. The epoch
    /// is the next one.
    pub fn turn(&mut self, kind: Move)
        requires movable { (x : ℕ) × (u : Numbered) × (self.old.moving ≡ Some x)
            × (moved_number kind self.old.vtree x ≡ Some u) }
        requires cleared { (x : ℕ) → self.old.moving ≡ Some x → IsCleared self.old kind x }
        ensures turned { (x : ℕ) (u : Numbered) → self.old.moving ≡ Some x
            → moved_number kind self.old.vtree x ≡ Some u → self.new ≡ with_vtree self.old u }
        ensures meanings { KeepsMeanings self.old self.new }
        ensures table { IsTable self.new }
    {
        let place = self.moving.unwrap();
        turn_at(&mut self.vtree, kind, place);
        self.epoch = epoch_after(self.epoch);
    }

    /// Makes a linked node a detached one: it keeps its number, its place, its list and its uses, and is found by its
    /// number alone. No linked node that is not above the place of the move may name it.
    pub fn detach(&mut self, number: u32)
        requires moving { IsSome self.old.moving }
        requires linked { IsSome (get self.old.linked number) }
        requires top { IsTop self.old number }
        ensures detached { (k : ℕ × List (ℕ × ℕ)) → get self.old.linked number ≡ Some k
            → self.new ≡ detached_from self.old number k }
        ensures table { IsTable self.new }
    {
        self.nodes.unlink(number);
    }

    /// Links a detached node with its list at a place, which its list fits. No linked node may have that key. Takes no
    /// memory.
    pub fn retag(&mut self, number: u32, place: VNode)
        requires moving { IsSome self.old.moving }
        requires node { IsSome (get self.old.detached number) }
        requires fits { (k : ℕ × List (ℕ × ℕ)) → get self.old.detached number ≡ Some k
            → FitsNode self.old place k.1 × IsAscending k.1 }
        requires absent { (k : ℕ × List (ℕ × ℕ)) → get self.old.detached number ≡ Some k
            → IsAbsent self.old place k.1 }
        ensures linked { (k : ℕ × List (ℕ × ℕ)) → get self.old.detached number ≡ Some k
            → self.new ≡ linked_under self.old number (place, k.1) }
        ensures table { IsTable self.new }
    {
        self.nodes.retag(number, place.0);
        self.nodes.relink(number);
    }

    /// Ends a move. No node may be detached, and each linked node has to show a canonical diagram.
    pub fn end_move(&mut self)
        requires moving { IsSome self.old.moving }
        requires none_detached { self.old.detached ≡ empty }
        requires known { (n : ℕ) → IsSome (get self.old.linked n) → IsNodeOf self.old (2050 + n) }
        ensures ended { self.new ≡ at_rest self.old }
        ensures table { IsTable self.new }
    {
        self.moving = None;
    }
}

// A move of the vtree at a node that is movable so.
fn turn_at(vtree: &mut Vtree, kind: Move, node: VNode)
    requires node { node < length (numbers vtree.old) }
    requires movable { (u : Numbered) × (moved_number kind vtree.old node ≡ Some u) }
    ensures moved { moved_number kind vtree.old node ≡ Some vtree.new }
    ensures count { length (numbers vtree.new) ≡ length (numbers vtree.old) }
    ensures numbered { IsNumbered vtree.new }
{
    match kind {
        Move::RotateLeft => {
            let _ = vtree.rotate_left(node);
        }
        Move::RotateRight => {
            let _ = vtree.rotate_right(node);
        }
        Move::Swap => {
            let _ = vtree.swap(node);
        }
    }
}
