// The begin of a move: the nodes at its node are detached.
ghost use Rattle.std.specs.Prelude.{◌≡◌, ℕ, ◌<◌, List, ◌++◌, map, length, Some, None};
ghost use Rattle.std.specs.Prelude.{IfOk, OnOk, OnErr};
ghost use Rattle.std.specs.FinMap.{get};
ghost use Rattle.sd_vtree.specs.Numbered.{Numbered, numbers};
ghost use Rattle.sd_vtree.specs.NumberedMoves.{moved_number};
ghost use Rattle.sd_laws.specs.Turned.{lower_of};
ghost use Rattle.sd_manager.specs.Table.{Table};
ghost use Rattle.sd_manager.specs.Valid.{IsTable};
ghost use Rattle.sd_manager.specs.Places.{IsLinkedAt};
ghost use Rattle.sd_manager.specs.Moving.{moving_at, with_vtree};
ghost use Rattle.sd_laws.specs.Values.{Valuation};
ghost use Rattle.sd_move.specs.Moving.{Progress, MoveInProgress, HasBegun};
ghost use Rattle.sd_move.specs.Sorting.{place_entry};
ghost use Rattle.sd_move.specs.Steps.{CanDetachAt, MayDetachFirst};
ghost use Rattle.sd_move.specs.Steps.{AreDetached, AreLinkedAt, IsChildNode, HasDetachedBoth, IsReadyToRotate};

use crate::detaching::{detach_at, link_all};
use crate::journal::Entry;
use crate::sorting::enter_all;
use sd_manager::Manager;
use sd_model::Move;
use sd_vtree::VNode;
use std::alloc::{AllocError, Global};

// Begins a move at a node, detaches the nodes there, and answers their numbers. The only error: out of memory, and then
// all is as it was.
pub(crate) fn begin_at(alloc: Global, m: &mut Manager, place: VNode) -> Result<Vec<u32>, AllocError>
    requires no_move { m.old.moving ≡ None }
    requires place { place < length (numbers m.old.vtree) }
    requires table { IsTable m.old }
    ensures going { OnOk result (HasBegun m.old m.new place) }
    ensures detached { IfOk result (λ numbers. AreDetached (moving_at m.old place) m.new place
        numbers.items) }
    ensures none_left { OnOk result ((n : ℕ) → ¬ IsLinkedAt m.new place n) }
    ensures at_begin { IsTable (moving_at m.old place) }
    ensures err { OnErr result (m.new ≡ m.old) }
    ensures table { IsTable m.new }
{
    m.begin_move(place);
    match detach_at(alloc, m, place) {
        Ok(numbers) => Ok(numbers),
        Err(error) => {
            m.end_move();
            Err(error)
        }
    }
}

// Detaches the nodes that are linked at a place, adds an entry for each, and answers their numbers. The only error: out
// of memory, and then all is as it was but for the entries.
fn detach_entered(
    alloc: Global,
    m: &mut Manager,
    place: VNode,
    entries: &mut Vec<Entry>,
) -> Result<Vec<u32>, AllocError>
    requires may { MayDetachFirst m.old place }
    requires table { IsTable m.old }
    ensures going { OnOk result ((m0 : Table) (x : ℕ) (h : Progress) (v : Valuation)
        → CanDetachAt m0 m.old x h v place → MoveInProgress m0 m.new x h v) }
    ensures detached { IfOk result (λ numbers. AreDetached m.old m.new place numbers.items) }
    ensures none_left { OnOk result ((n : ℕ) → ¬ IsLinkedAt m.new place n) }
    ensures entered { IfOk result (λ numbers. entries.new.items
        ≡ entries.old.items ++ map (place_entry place) numbers.items) }
    ensures err { OnErr result (m.new ≡ m.old) }
    ensures table { IsTable m.new }
{
    let numbers = detach_at(alloc, m, place)?;
    match enter_all(place, &numbers, entries) {
        Ok(()) => Ok(numbers),
        Err(error) => {
            link_all(m, place, &numbers);
            Err(error)
        }
    }
}

// Begins a rotation at a node, and detaches the nodes there and then those at its lower node, for each of which it adds
// an entry. Answers the numbers of both. The only error: out of memory, and then all is as it was but for the entries.
pub(crate) fn begin_at_both(
    alloc: Global,
    m: &mut Manager,
    upper: VNode,
    lower: VNode,
    entries: &mut Vec<Entry>,
) -> Result<(Vec<u32>, Vec<u32>), AllocError>
    requires no_move { m.old.moving ≡ None }
    requires place { upper < length (numbers m.old.vtree) }
    requires child { IsChildNode m.old.vtree upper lower }
    requires table { IsTable m.old }
    ensures ok { IfOk result (λ nodes. HasDetachedBoth m.old m.new upper lower nodes.0.items
        nodes.1.items) }
    ensures entered { IfOk result (λ nodes. entries.new.items
        ≡ entries.old.items ++ map (place_entry lower) nodes.1.items) }
    ensures err { OnErr result (m.new ≡ m.old) }
    ensures table { IsTable m.new }
{
    let upper_nodes = begin_at(alloc, m, upper)?;
    match detach_entered(alloc, m, lower, entries) {
        Ok(lower_nodes) => Ok((upper_nodes, lower_nodes)),
        Err(error) => {
            link_all(m, upper, &upper_nodes);
            m.end_move();
            Err(error)
        }
    }
}

// Rotates the vtree at the node of a move, where the nodes at its two nodes are detached, and links those of the lower
// node at the upper one, with the lists that they have.
pub(crate) fn rotate_detached(m: &mut Manager, kind: Move, upper: VNode, lower_nodes: &[u32])
    requires ready { IsReadyToRotate m.old kind upper lower_nodes.now }
    requires table { IsTable m.old }
    ensures going { (old : Table) (w : ℕ) (numbers : List ℕ)
        → HasDetachedBoth old m.old upper w numbers lower_nodes.now
        → lower_of kind m.old.vtree upper ≡ Some w → HasBegun old m.new upper }
    ensures linked { (u : Numbered) → moved_number kind m.old.vtree upper ≡ Some u
        → AreLinkedAt (with_vtree m.old u) m.new upper lower_nodes.now }
    ensures table { IsTable m.new }
{
    m.turn(kind);
    link_all(m, upper, lower_nodes);
}
