// The rotations of the vtree at a node.
ghost use Rattle.std.specs.Prelude.{◌≡◌, ℕ, ◌<◌, ◌≤◌, List, length, map, Some, None, IfOk, IfErr, OnOk, OnErr};
ghost use Rattle.std.specs.FinMap.{empty};
ghost use Rattle.sd_vtree.specs.Numbered.{Numbered, numbers};
ghost use Rattle.sd_manager.specs.Table.{Table};
ghost use Rattle.sd_manager.specs.Making.{KeepsRule};
ghost use Rattle.sd_manager.specs.Marking.{AreUnmarked};
ghost use Rattle.sd_manager.specs.Valid.{IsTable};
ghost use Rattle.sd_apply.specs.Serving.{Serves};
ghost use Rattle.sd_sweep.specs.Reached.{KeepsReached};
ghost use Rattle.sd_sweep.specs.Falling.{NeverFalls};
ghost use Rattle.sd_move.specs.Moves.{IsMoved, IsMoveRefusal, IsRefusedOnTheWay, HasSizeAfter};
ghost use Rattle.sd_model.specs.declared.trees.Move.TheVariants.{RotateLeft, RotateRight};
ghost use Rattle.sd_move.specs.OnTheWay.{IsOnTheWay, AreAllReached, IsLowerFound};
ghost use Rattle.sd_move.specs.Sorting.{rotation_of, place_entry, CanRotate};

use crate::beginning::begin_at_both;
use crate::bounding::within;
use crate::ending::end_or_go_back;
use crate::error::MoveError;
use crate::journal::{Entry, Journal, Moved};
use crate::rewriting::rewrite_all;
use crate::sorting::{Rotation, child_on, rotate_and_sort, rotation_of};
use sd_cache::Cache;
use sd_manager::Manager;
use sd_model::Side;
use sd_runs::TakeError;
use sd_sweep::sweep;
use sd_vtree::VNode;
use std::alloc::Global;

// Rotates the vtree at the node of a move, where the nodes at its two nodes are detached and those of the lower one are
// entered: these are linked at the upper one, and those of the upper one are sorted, and rewritten where their lists
// don't fit. ArenaFull by the arena's rule, and OutOfMemory; then the move can go back.
fn rotate_and_rewrite(
    alloc: Global,
    m: &mut Manager,
    c: &mut Cache,
    rotation: Rotation,
    upper_nodes: &[u32],
    lower_nodes: &[u32],
    named: &mut Vec<Entry>,
) -> Result<(), TakeError>
    requires may { (old : Table) × (u : Numbered)
        × CanRotate old m.old rotation.side rotation.upper rotation.lower upper_nodes.now
        lower_nodes.now u × Serves c.old old }
    requires entered { named.old.items ≡ map (place_entry rotation.lower) lower_nodes.now }
    requires table { IsTable m.old }
    ensures way { (old : Table) (u : Numbered)
        → CanRotate old m.old rotation.side rotation.upper rotation.lower upper_nodes.now
        lower_nodes.now u → IsOnTheWay old m.new (rotation_of rotation.side) rotation.upper
        (Some rotation.lower) named.new.items }
    ensures all { OnOk result (m.new.detached ≡ empty) }
    ensures serves { Serves c.new m.new }
    ensures rule { IfErr result (λ e. KeepsRule m.new e) }
    ensures table { IsTable m.new }
{
    // That the epoch is a `u64` tells that it is the last one where it no longer rises.
    let _ = m.epoch();
    let upper = rotation.upper;
    let mut waiting = Vec::new(alloc);
    match rotate_and_sort(m, rotation, upper_nodes, lower_nodes, named, &mut waiting) {
        Ok(()) => rewrite_all(alloc, m, c, upper, &waiting, named),
        Err(_) => Err(TakeError::OutOfMemory),
    }
}

// The lower node of the rotation that divides the nodes of a side, where that rotation can be made.
fn lower_on(m: &Manager, side: Side, place: VNode) -> Option<VNode>
    requires place { place < length (numbers m.now.vtree) }
    ensures found { IsLowerFound m.now (rotation_of side) place result }
    ensures table { IsTable m.now }
{
    let Some(_) = m.vtree().children(place) else {
        return None;
    };
    let lower = child_on(m, side, place);
    match m.vtree().children(lower) {
        Some(_) => Some(lower),
        None => None,
    }
}

// Rotates the vtree at a node where each node of the manager is needed, and answers the journal. ArenaFull by the
// arena's rule, and OutOfMemory; then the vtree and each node are as before.
fn rotate_nodes(
    alloc: Global,
    m: &mut Manager,
    c: &mut Cache,
    rotation: Rotation,
) -> Result<Journal, MoveError>
    requires swept { AreAllReached m.old }
    requires no_move { m.old.moving ≡ None }
    requires place { rotation.upper < length (numbers m.old.vtree) }
    requires lower { IsLowerFound m.old (rotation_of rotation.side) rotation.upper
        (Some rotation.lower) }
    requires serves { Serves c.old m.old }
    requires table { IsTable m.old }
    ensures moved { IfOk result (λ j. IsMoved m.old m.new (rotation_of rotation.side)
        rotation.upper j) }
    ensures back { OnErr result (KeepsReached m.old m.new × (m.new.moving ≡ None)) }
    ensures never_falls { OnErr result (NeverFalls m.old m.new) }
    ensures bound { m.new.bound ≡ m.old.bound }
    ensures refused { IfErr result (λ e. IsRefusedOnTheWay m.new e) }
    ensures unmarked { AreUnmarked m.old → AreUnmarked m.new }
    ensures serves { Serves c.new m.new }
    ensures table { IsTable m.new }
{
    // That the epoch is a `u64` tells that it is the last one where it no longer rises.
    let _ = m.epoch();
    let Rotation { side, upper, lower } = rotation;
    let mut named = Vec::new(alloc);
    match begin_at_both(alloc, m, upper, lower, &mut named) {
        Ok(nodes) => {
            let done = rotate_and_rewrite(alloc, m, c, rotation, &nodes.0, &nodes.1, &mut named);
            end_or_go_back(m, rotation_of(side), upper, Some(lower), named, done)
        }
        Err(_) => Err(MoveError::OutOfMemory),
    }
}

// Rotates the vtree at a node, by the rotation that divides the nodes of a side.
fn rotate(
    alloc: Global,
    m: &mut Manager,
    c: &mut Cache,
    side: Side,
    place: VNode,
    most: u32,
) -> Result<Moved, MoveError>
    requires no_move { m.old.moving ≡ None }
    requires place { place < length (numbers m.old.vtree) }
    requires unmarked { AreUnmarked m.old }
    requires serves { Serves c.old m.old }
    ensures moved { IfOk result (λ r. IsMoved m.old m.new (rotation_of side) place r.journal) }
    ensures size { IfOk result (λ r. HasSizeAfter m.old (rotation_of side) place r.size) }
    ensures within { IfOk result (λ r. r.size ≤ most) }
    ensures refused { IfErr result (λ e. IsMoveRefusal m.old m.new (rotation_of side) place most e) }
    ensures back { OnErr result (KeepsReached m.old m.new × (m.new.moving ≡ None)) }
    ensures never_falls { OnErr result (NeverFalls m.old m.new) }
    ensures bound { m.new.bound ≡ m.old.bound }
    ensures unmarked { AreUnmarked m.new }
    ensures serves { Serves c.new m.new }
    ensures table { IsTable m.new }
{
    // That the epoch is a `u64` tells that it is the last one where it no longer rises.
    let _ = m.epoch();
    let Some(lower) = lower_on(m, side, place) else {
        return Err(MoveError::NotMovable);
    };
    sweep(m);
    let rotation = Rotation {
        side,
        upper: place,
        lower,
    };
    match rotate_nodes(alloc, m, c, rotation) {
        Ok(journal) => {
            let _ = m.epoch();
            within(m, journal, most)
        }
        Err(error) => Err(error),
    }
}

/// Rotates the vtree at a node to the right: `((a b) c)` becomes `(a (b c))`. Each node under a held root or a loose
/// run keeps its number and its function. Answers the size of all held diagrams together, and the journal, which is to
/// be spent by `undo` or `settle`.
///
/// NotMovable at a leaf and where the left child is one, OverMost where the size after the whole move passes `most`,
/// ArenaFull by the arena's rule, and OutOfMemory. Then the vtree, and each node under a held root or a loose run, are
/// as before.
pub fn rotate_right(
    alloc: Global,
    m: &mut Manager,
    c: &mut Cache,
    place: VNode,
    most: u32,
) -> Result<Moved, MoveError>
    requires no_move { m.old.moving ≡ None }
    requires place { place < length (numbers m.old.vtree) }
    requires unmarked { AreUnmarked m.old }
    requires serves { Serves c.old m.old }
    ensures moved { IfOk result (λ r. IsMoved m.old m.new RotateRight place r.journal) }
    ensures size { IfOk result (λ r. HasSizeAfter m.old RotateRight place r.size) }
    ensures within { IfOk result (λ r. r.size ≤ most) }
    ensures refused { IfErr result (λ e. IsMoveRefusal m.old m.new RotateRight place most e) }
    ensures back { OnErr result (KeepsReached m.old m.new × (m.new.moving ≡ None)) }
    ensures never_falls { OnErr result (NeverFalls m.old m.new) }
    ensures bound { m.new.bound ≡ m.old.bound }
    ensures unmarked { AreUnmarked m.new }
    ensures serves { Serves c.new m.new }
    ensures table { IsTable m.new }
{
    rotate(alloc, m, c, Side::Left, place, most)
}

/// Rotates the vtree at a node to the left: `(a (b c))` becomes `((a b) c)`. Each node under a held root or a loose
/// run keeps its number and its function. Answers the size of all held diagrams together, and the journal, which is to
/// be spent by `undo` or `settle`.
///
/// NotMovable at a leaf and where the right child is one, OverMost where the size after the whole move passes `most`,
/// ArenaFull by the arena's rule, and OutOfMemory. Then the vtree, and each node under a held root or a loose run, are
/// as before.
pub fn rotate_left(
    alloc: Global,
    m: &mut Manager,
    c: &mut Cache,
    place: VNode,
    most: u32,
) -> Result<Moved, MoveError>
    requires no_move { m.old.moving ≡ None }
    requires place { place < length (numbers m.old.vtree) }
    requires unmarked { AreUnmarked m.old }
    requires serves { Serves c.old m.old }
    ensures moved { IfOk result (λ r. IsMoved m.old m.new RotateLeft place r.journal) }
    ensures size { IfOk result (λ r. HasSizeAfter m.old RotateLeft place r.size) }
    ensures within { IfOk result (λ r. r.size ≤ most) }
    ensures refused { IfErr result (λ e. IsMoveRefusal m.old m.new RotateLeft place most e) }
    ensures back { OnErr result (KeepsReached m.old m.new × (m.new.moving ≡ None)) }
    ensures never_falls { OnErr result (NeverFalls m.old m.new) }
    ensures bound { m.new.bound ≡ m.old.bound }
    ensures unmarked { AreUnmarked m.new }
    ensures serves { Serves c.new m.new }
    ensures table { IsTable m.new }
{
    rotate(alloc, m, c, Side::Right, place, most)
}
