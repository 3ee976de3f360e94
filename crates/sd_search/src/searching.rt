// Rounds of walks over all nodes, and a search of several rounds.
ghost use Rattle.std.specs.Prelude.{◌≡◌, ℕ, suc, ◌^◌, ◌<◌, List, [], length, None, IfOk, IfErr, OnErr};
ghost use Rattle.std.specs.Prelude.{nat_lt, if◌then◌else◌};
ghost use Rattle.sd_model.specs.declared.trees.Side.{Side as TheSide};
ghost use Rattle.sd_model.specs.Expression.{Expression};
ghost use Rattle.sd_model.specs.Tree.{leaves};
ghost use Rattle.sd_vtree.specs.Numbered.{numbers, plain_tree};
ghost use Rattle.sd_manager.specs.Marking.{AreUnmarked};
ghost use Rattle.sd_manager.specs.Valid.{IsTable};
ghost use Rattle.sd_apply.specs.Serving.{Serves};
ghost use Rattle.sd_sweep.specs.Falling.{NeverFalls};
ghost use Rattle.sd_compile.specs.Total.{AreHeldFormulas};
ghost use Rattle.sd_search.specs.Search.{IsRound, IsRoundBegun, IsSearch, IsSearchBegun};
ghost use Rattle.sd_search.specs.Kept.{KeepsRoots, IsSearchRefusal};
ghost use Rattle.sd_search.specs.Walking.{IsSizeOfHeld};
ghost use Rattle.sd_search.specs.Paths.{IsAtPath, KeepsAlong};
ghost use Rattle.sd_search.specs.WalksInARow.{KeepBefore, KeepThrough};

use crate::error::SearchError;
use crate::walking::walk;
use sd_cache::Cache;
use sd_manager::Manager;
use sd_sweep::size;
use sd_vtree::VNode;
use std::alloc::Global;

/// The total size at the start of a search and at its end, and how many rounds were done.
#[derive(Clone, Copy, Debug, PartialEq, Eq)]
pub struct Outcome {
    pub before: u32,
    pub after: u32,
    pub rounds: u32,
}

/// Searches for a vtree under which all held diagrams together are smaller: rounds of walks over all nodes, until
/// `rounds` are done or one did not lessen the size. A walk passes `slack` hundredths of the size at its start in no
/// state. Each held root keeps its node and its function.
///
/// ArenaFull by the arena's rule, and OutOfMemory. Then the walk in hand is gone back, so that the vtree is the one
/// after the walks that were finished.
pub fn minimise(
    alloc: Global,
    m: &mut Manager,
    c: &mut Cache,
    rounds: u32,
    slack: u32,
) -> Result<Outcome, SearchError>
    requires no_move { m.old.moving ≡ None }
    requires unmarked { AreUnmarked m.old }
    requires serves { Serves c.old m.old }
    ensures search { (fs : List Expression) → AreHeldFormulas m.old fs →
        IfOk result (λ r. IsSearch fs slack rounds (plain_tree m.old.vtree)
        (record { tree = plain_tree m.new.vtree; before = r.before; after = r.after; rounds = r.rounds })) }
    ensures begun { (fs : List Expression) → AreHeldFormulas m.old fs →
        OnErr result (IsSearchBegun fs slack rounds (plain_tree m.old.vtree) (plain_tree m.new.vtree)) }
    ensures kept { KeepsRoots m.old m.new }
    ensures never_falls { NeverFalls m.old m.new }
    ensures refused { IfErr result (λ e. IsSearchRefusal m.new e) }
    ensures unmarked { AreUnmarked m.new }
    ensures serves { Serves c.new m.new }
    ensures table { IsTable m.new }
{
    let root = m.vtree().root();
    let before = size(m);
    let mut reached = Reached {
        size: before,
        kept: 0,
    };
    for done in 0..rounds {
        let next = match round(alloc, m, c, root, slack, reached) {
            Ok(next) => next,
            Err(error) => return Err(error),
        };
        if next.size >= reached.size {
            return Ok(Outcome {
                before,
                after: next.size,
                rounds: done + 1,
            });
        }
        reached = next;
    }
    Ok(Outcome {
        before,
        after: reached.size,
        rounds,
    })
}

// Where a search stands: the size of the state, and how many walks in a row kept their start.
#[derive(Clone, Copy)]
struct Reached {
    size: u32,
    kept: u32,
}

// Where a search stands after one more walk, to a state of this size.
fn walked_to(so_far: Reached, size: u32) -> Reached
    requires room { suc so_far.kept < 2 ^ 32 }
    ensures size { result.size ≡ size }
    ensures kept { result.kept ≡ (if nat_lt size so_far.size then 0 else suc so_far.kept) }
{
    let kept = if size < so_far.size {
        0
    } else {
        so_far.kept + 1
    };
    Reached { size, kept }
}

// How many internal nodes the vtree has.
fn inner_nodes(m: &Manager) -> u32
    ensures count { suc result ≡ leaves (plain_tree m.now.vtree) }
    ensures table { IsTable m.now }
{
    m.vtree().variables() - 1
}

// A round at a node: a walk there, then a round at its left child, and then one at its right child, in the vtree as it
// then is. Where as many walks in a row as there are internal nodes kept their start, each further one would see what
// one of these saw, so none is made. Answers where the search stands afterwards.
fn round(
    alloc: Global,
    m: &mut Manager,
    c: &mut Cache,
    place: VNode,
    slack: u32,
    so_far: Reached,
) -> Result<Reached, SearchError>
    requires no_move { m.old.moving ≡ None }
    requires place { place < length (numbers m.old.vtree) }
    requires size { IsSizeOfHeld m.old so_far.size }
    requires in_a_row { KeepBefore m.old slack place so_far.kept }
    requires unmarked { AreUnmarked m.old }
    requires serves { Serves c.old m.old }
    ensures round { (fs : List Expression) (path : List TheSide) → AreHeldFormulas m.old fs
        → IsAtPath m.old.vtree path place
        → IfOk result (λ after. IsRound fs slack (plain_tree m.old.vtree) path (plain_tree m.new.vtree)) }
    ensures begun { (fs : List Expression) (path : List TheSide) → AreHeldFormulas m.old fs
        → IsAtPath m.old.vtree path place
        → OnErr result (IsRoundBegun fs slack (plain_tree m.old.vtree) path (plain_tree m.new.vtree)) }
    ensures size { IfOk result (λ after. IsSizeOfHeld m.new after.size) }
    ensures in_a_row { IfOk result (λ after. KeepThrough m.new slack place after.kept) }
    ensures along { (path : List TheSide) → IsAtPath m.old.vtree path place
        → KeepsAlong m.old.vtree m.new.vtree path }
    ensures kept { KeepsRoots m.old m.new }
    ensures never_falls { NeverFalls m.old m.new }
    ensures refused { IfErr result (λ e. IsSearchRefusal m.new e) }
    ensures unmarked { AreUnmarked m.new }
    ensures serves { Serves c.new m.new }
    ensures table { IsTable m.new }
{
    let inner = inner_nodes(m);
    if so_far.kept >= inner {
        return Ok(so_far);
    }
    let Some(_) = m.vtree().children(place) else {
        return Ok(so_far);
    };
    let size = match walk(alloc, m, c, place, slack, so_far.size) {
        Ok(size) => size,
        Err(error) => return Err(error),
    };
    let walked = walked_to(so_far, size);
    let first = m.vtree().children(place).unwrap();
    let left = match round(alloc, m, c, first.0, slack, walked) {
        Ok(left) => left,
        Err(error) => return Err(error),
    };
    let second = m.vtree().children(place).unwrap();
    round(alloc, m, c, second.1, slack, left)
}
