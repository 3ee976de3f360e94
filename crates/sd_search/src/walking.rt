// A walk over the arrangements of the subtrees at a node.
ghost use Rattle.std.specs.Prelude.{◌≡◌, ℕ, ◌*◌, ◌/◌, ◌<◌, ◌≤◌, List, length, map, None, IfOk, IfErr, OnErr};
ghost use Rattle.sd_model.specs.declared.trees.Side.{Side as TheSide};
ghost use Rattle.sd_model.specs.Expression.{Expression};
ghost use Rattle.sd_vtree.specs.Numbered.{numbers, plain_tree};
ghost use Rattle.sd_manager.specs.Marking.{AreUnmarked};
ghost use Rattle.sd_manager.specs.Valid.{IsTable};
ghost use Rattle.sd_apply.specs.Serving.{Serves};
ghost use Rattle.sd_sweep.specs.Reached.{KeepsReached};
ghost use Rattle.sd_sweep.specs.Falling.{NeverFalls};
ghost use Rattle.sd_compile.specs.Total.{AreHeldFormulas};
ghost use Rattle.sd_search.specs.Search.{IsWalk};
ghost use Rattle.sd_search.specs.Kept.{KeepsRoots, IsSearchRefusal};
ghost use Rattle.sd_search.specs.Paths.{IsAtPath, KeepsAlong};
ghost use Rattle.sd_search.specs.Walking.{move_of, CanGoOn, IsCapped, IsAhead, GoesBackAtNone};
ghost use Rattle.sd_search.specs.Walking.{IsSizeOfHeld, best_of, stop_of_move, HasSmallSize};

use crate::error::SearchError;
use crate::steps::{Step, make, steps_at};
use sd_cache::Cache;
use sd_manager::Manager;
use sd_move::{MoveError, Moved, settle, undo};
use sd_vtree::VNode;
use std::alloc::Global;

// Makes the steps, up to the first that leads past `most`. Where some state of these has a size below `least`, the
// first of least size stays, and its size is the answer; else all is gone back, as after an error.
fn ahead(
    alloc: Global,
    m: &mut Manager,
    c: &mut Cache,
    place: VNode,
    steps: &[Step],
    most: u32,
    least: u32,
) -> Result<Option<u32>, SearchError>
    requires no_move { m.old.moving ≡ None }
    requires place { place < length (numbers m.old.vtree) }
    requires possible { CanGoOn m.old.vtree place (map move_of steps.now) }
    requires unmarked { AreUnmarked m.old }
    requires serves { Serves c.old m.old }
    requires table { IsTable m.old }
    ensures ahead { (fs : List Expression) (path : List TheSide) (bound : ℕ) → AreHeldFormulas m.old fs
        → IsAtPath m.old.vtree path place → IsCapped most bound
        → IfOk result (λ found. IsAhead fs bound (plain_tree m.old.vtree) path (map move_of steps.now) least found
        (plain_tree m.new.vtree)) }
    ensures along { (path : List TheSide) → IsAtPath m.old.vtree path place
        → KeepsAlong m.old.vtree m.new.vtree path }
    ensures none { IfOk result (λ found. GoesBackAtNone found m.old m.new) }
    ensures back { OnErr result (KeepsReached m.old m.new) }
    ensures kept { KeepsRoots m.old m.new }
    ensures never_falls { NeverFalls m.old m.new }
    ensures refused { IfErr result (λ e. IsSearchRefusal m.new e) }
    ensures unmarked { AreUnmarked m.new }
    ensures serves { Serves c.new m.new }
    ensures table { IsTable m.new }
{
    let Some((step, others)) = steps.split_first() else {
        return Ok(None);
    };
    let moved = match make(alloc, m, c, place, *step, most) {
        Ok(moved) => moved,
        Err(error) => {
            return match stop_of(error) {
                Some(stop) => Err(stop),
                None => Ok(None),
            };
        }
    };
    let Moved { size, journal } = moved;
    let so_far = size.min(least);
    let found = ahead(alloc, m, c, place, others, most, so_far);
    // That the epoch is a `u64` tells that it is the last one where it no longer rises.
    let _ = m.epoch();
    match found {
        Ok(later) => match best(later, size, least) {
            Some(best) => {
                settle(m, journal);
                Ok(Some(best))
            }
            None => {
                undo(m, journal);
                Ok(None)
            }
        },
        Err(error) => {
            undo(m, journal);
            Err(error)
        }
    }
}

// The error with which a walk is broken off, where a step was not made; past the bound, and where the vtree can't be
// moved so, it only ends.
fn stop_of(error: MoveError) -> Option<SearchError>
    ensures stop { result ≡ stop_of_move error }
    ensures small { HasSmallSize error }
{
    match error {
        MoveError::OverMost { size: _size, .. } => None,
        MoveError::NotMovable => None,
        MoveError::ArenaFull { elements } => Some(SearchError::ArenaFull { elements }),
        MoveError::OutOfMemory => Some(SearchError::OutOfMemory),
    }
}

// The least size from a state on, by that of the later ones: where it is less than the least size so far.
fn best(later: Option<u32>, here: u32, least: u32) -> Option<u32>
    ensures best { result ≡ best_of later here least }
{
    if later.is_some() {
        return later;
    }
    if here < least { Some(here) } else { None }
}

// A bound of so many hundredths of a size, or the last `u32` where it is past that.
fn bound_of(size: u32, slack: u32) -> u32
    ensures capped { IsCapped result (size * slack / 100) }
{
    let bound = u64::from(size) * u64::from(slack) / 100;
    if bound < u64::from(u32::MAX) {
        bound as u32
    } else {
        u32::MAX
    }
}

// A walk at a node, from a state of this size. Answers the size of the state that it goes back to. After an error all
// is gone back.
pub(crate) fn walk(
    alloc: Global,
    m: &mut Manager,
    c: &mut Cache,
    place: VNode,
    slack: u32,
    size: u32,
) -> Result<u32, SearchError>
    requires no_move { m.old.moving ≡ None }
    requires place { place < length (numbers m.old.vtree) }
    requires size { IsSizeOfHeld m.old size }
    requires unmarked { AreUnmarked m.old }
    requires serves { Serves c.old m.old }
    ensures walk { (fs : List Expression) (path : List TheSide) → AreHeldFormulas m.old fs
        → IsAtPath m.old.vtree path place
        → IfOk result (λ after. IsWalk fs slack (plain_tree m.old.vtree) path (plain_tree m.new.vtree)) }
    ensures size { IfOk result (λ after. IsSizeOfHeld m.new after) }
    ensures stays { IfOk result (λ after. size ≤ after → m.new.vtree ≡ m.old.vtree) }
    ensures along { (path : List TheSide) → IsAtPath m.old.vtree path place
        → KeepsAlong m.old.vtree m.new.vtree path }
    ensures back { OnErr result (KeepsReached m.old m.new) }
    ensures kept { KeepsRoots m.old m.new }
    ensures never_falls { NeverFalls m.old m.new }
    ensures refused { IfErr result (λ e. IsSearchRefusal m.new e) }
    ensures unmarked { AreUnmarked m.new }
    ensures serves { Serves c.new m.new }
    ensures table { IsTable m.new }
{
    let steps = steps_at(m, place);
    let most = bound_of(size, slack);
    match ahead(alloc, m, c, place, steps, most, size) {
        Ok(found) => match found {
            Some(least) => Ok(least),
            None => Ok(size),
        },
        Err(error) => Err(error),
    }
}
