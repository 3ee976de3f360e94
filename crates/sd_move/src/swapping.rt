// The swap of the vtree at a node.
ghost use Rattle.std.specs.Prelude.{◌≡◌, ℕ, ◌<◌, ◌≤◌, length, None, IfOk, IfErr, OnErr};
ghost use Rattle.std.specs.Option.{IsSome};
ghost use Rattle.std.specs.FinMap.{get};
ghost use Rattle.sd_model.specs.declared.trees.Move.TheVariants.{Swap};
ghost use Rattle.sd_vtree.specs.Numbered.{numbers};
ghost use Rattle.sd_manager.specs.Marking.{AreUnmarked};
ghost use Rattle.sd_manager.specs.Valid.{IsTable};
ghost use Rattle.sd_apply.specs.Serving.{Serves};
ghost use Rattle.sd_sweep.specs.Reached.{IsReached, KeepsReached};
ghost use Rattle.sd_sweep.specs.Falling.{NeverFalls};
ghost use Rattle.sd_move.specs.Moves.{IsMovable, IsMoved, IsMoveRefusal, IsRefusedOnTheWay, HasSizeAfter};
ghost use Rattle.sd_move.specs.Swapping.{HasSwapped};

use crate::beginning::begin_at;
use crate::bounding::within;
use crate::ending::end_or_go_back;
use crate::error::MoveError;
use crate::journal::{Journal, Moved};
use crate::rewriting::rewrite_all;
use sd_cache::Cache;
use sd_manager::Manager;
use sd_model::Move;
use sd_sweep::sweep;
use sd_vtree::VNode;
use std::alloc::{AllocError, Global};

/// Swaps the vtree at a node: `(a b)` becomes `(b a)`. Each node under a held root or a loose run keeps its number and
/// its function. Answers the size of all held diagrams together, and the journal, which is to be spent by `undo` or
/// `settle`.
///
/// NotMovable at a leaf, OverMost where the size after the whole move passes `most`, ArenaFull by the arena's rule, and
/// OutOfMemory. Then the vtree, and each node under a held root or a loose run, are as before.
pub fn swap(
    alloc: Global,
    m: &mut Manager,
    c: &mut Cache,
    place: VNode,
    most: u32,
) -> Result<Moved, MoveError>
    requires no_move { m.old.moving ≡ None }
    requires place { place < length (numbers m.old.vtree) }
    requires unmarked { AreUnmarked m.old }
    requires serves { Serves c.old m.old }
    ensures moved { IfOk result (λ r. IsMoved m.old m.new Swap place r.journal) }
    ensures size { IfOk result (λ r. HasSizeAfter m.old Swap place r.size) }
    ensures within { IfOk result (λ r. r.size ≤ most) }
    ensures refused { IfErr result (λ e. IsMoveRefusal m.old m.new Swap place most e) }
    ensures back { OnErr result (KeepsReached m.old m.new × (m.new.moving ≡ None)) }
    ensures never_falls { OnErr result (NeverFalls m.old m.new) }
    ensures bound { m.new.bound ≡ m.old.bound }
    ensures unmarked { AreUnmarked m.new }
    ensures serves { Serves c.new m.new }
    ensures table { IsTable m.new }
{
    // That the epoch is a `u64` tells that it is the last one where it no longer rises.
    let _ = m.epoch();
    let Some(_) = m.vtree().children(place) else {
        return Err(MoveError::NotMovable);
    };
    sweep(m);
    match swap_nodes(alloc, m, c, place) {
        Ok(journal) => {
            let _ = m.epoch();
            within(m, journal, most)
        }
        Err(error) => Err(error),
    }
}

// Begins a move at a node, detaches the nodes there, and swaps the vtree there. Answers their numbers. The only error:
// out of memory, and then all is as it was.
fn begin_swap(alloc: Global, m: &mut Manager, place: VNode) -> Result<Vec<u32>, AllocError>
    requires no_move { m.old.moving ≡ None }
    requires place { place < length (numbers m.old.vtree) }
    requires movable { IsMovable m.old Swap place }
    requires table { IsTable m.old }
    ensures swapped { IfOk result (λ numbers. HasSwapped m.old m.new place numbers.items) }
    ensures err { OnErr result (m.new ≡ m.old) }
    ensures table { IsTable m.new }
{
    let numbers = begin_at(alloc, m, place)?;
    m.turn(Move::Swap);
    Ok(numbers)
}

// Swaps the vtree at a node where each node of the manager is needed, and answers the journal. ArenaFull by the arena's
// rule, and OutOfMemory; then the vtree and each node are as before.
fn swap_nodes(
    alloc: Global,
    m: &mut Manager,
    c: &mut Cache,
    place: VNode,
) -> Result<Journal, MoveError>
    requires swept { (n : ℕ) → IsSome (get m.old.linked n) → IsReached m.old n }
    requires no_move { m.old.moving ≡ None }
    requires place { place < length (numbers m.old.vtree) }
    requires movable { IsMovable m.old Swap place }
    requires serves { Serves c.old m.old }
    requires table { IsTable m.old }
    ensures moved { IfOk result (λ j. IsMoved m.old m.new Swap place j) }
    ensures back { OnErr result (KeepsReached m.old m.new × (m.new.moving ≡ None)) }
    ensures never_falls { OnErr result (NeverFalls m.old m.new) }
    ensures bound { m.new.bound ≡ m.old.bound }
    ensures refused { IfErr result (λ e. IsRefusedOnTheWay m.new e) }
    ensures unmarked { AreUnmarked m.old → AreUnmarked m.new }
    ensures serves { Serves c.new m.new }
    ensures table { IsTable m.new }
{
    // That the epoch is a `u64` tells that it is the last one where it no longer rises.
    let _ = m.epoch();
    match begin_swap(alloc, m, place) {
        Ok(numbers) => {
            let mut named = Vec::new(alloc);
            let done = rewrite_all(alloc, m, c, place, &numbers, &mut named);
            end_or_go_back(m, Move::Swap, place, None, named, done)
        }
        Err(_) => Err(MoveError::OutOfMemory),
    }
}
