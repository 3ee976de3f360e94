// Moves of a state's vtree, and the ends of their journals.
ghost use Rattle.std.specs.Prelude.{◌≡◌, ◌+◌, ◌<◌, ℕ, List, length, Some, None, true, false, IfOk, OnErr};
ghost use Rattle.std.specs.FinMap.{get};
ghost use Rattle.sd_vtree.specs.Numbered.{numbers};
ghost use Rattle.sd_manager.specs.Marking.{AreUnmarked};
ghost use Rattle.sd_manager.specs.Valid.{IsTable};
ghost use Rattle.sd_apply.specs.Serving.{Serves};
ghost use Rattle.sd_sweep.specs.Reached.{KeepsReached};
ghost use Rattle.sd_move.specs.Journal.{CanUndo, CanSettle, HaveOtherRuns, IsSettledBy, Rollback};
ghost use Rattle.sd_move.specs.Moves.{IsMoved};
ghost use Rattle.sd_call_tests.specs.Ready.{IsReady, IsAlone};

use crate::cases::{Case, State};
use crate::seen::{Seen, look};
use sd_cache::Cache;
use sd_manager::{Manager, NodeId};
use sd_model::Move;
use sd_move::laws::{keeps_reached, stays_settleable, stays_undoable, stays_undoable_when_settled};
use sd_move::{Journal, MoveError, Moved, rotate_left, rotate_right, settle, swap, undo};
use sd_sweep::size;
use sd_vtree::VNode;
use std::alloc::{AllocError, Global};

// The move of this kind at a node.
fn turn(
    alloc: Global,
    m: &mut Manager,
    c: &mut Cache,
    kind: Move,
    place: VNode,
    most: u32,
) -> Result<Moved, MoveError>
    requires no_move { m.old.moving ≡ None }
    requires place { place < length (numbers m.old.vtree) }
    requires unmarked { AreUnmarked m.old }
    requires serves { Serves c.old m.old }
    ensures moved { IfOk result (λ r. IsMoved m.old m.new kind place r.journal) }
    ensures back { OnErr result (KeepsReached m.old m.new × (m.new.moving ≡ None)) }
    ensures unmarked { AreUnmarked m.new }
    ensures serves { Serves c.new m.new }
    ensures table { IsTable m.new }
{
    match kind {
        Move::RotateLeft => rotate_left(alloc, m, c, place, most),
        Move::RotateRight => rotate_right(alloc, m, c, place, most),
        Move::Swap => swap(alloc, m, c, place, most),
    }
}

// The move of this kind at a node of a state's vtree.
pub(crate) fn move_at(
    alloc: Global,
    state: &mut State,
    kind: Move,
    place: VNode,
    most: u32,
) -> Result<Moved, MoveError>
    requires ready { IsReady state.old.m state.old.c state.old.first state.old.second }
    requires place { place < length (numbers state.old.m.vtree) }
    ensures moved { IfOk result (λ r. IsMoved state.old.m state.new.m kind place r.journal) }
    ensures back { OnErr result (KeepsReached state.old.m state.new.m × (state.new.m.moving ≡ None)) }
    ensures ready { IsReady state.new.m state.new.c state.new.first state.new.second }
    ensures table { IsTable state.new.m }
{
    turn(alloc, &mut state.m, &mut state.c, kind, place, most)
}

// Undoes a move.
pub(crate) fn go_back(state: &mut State, journal: Journal)
    requires can_undo { CanUndo journal state.old.m }
    requires ready { IsReady state.old.m state.old.c state.old.first state.old.second }
    ensures undone { Rollback journal state.old.m state.new.m }
    ensures ready { IsReady state.new.m state.new.c state.new.first state.new.second }
{
    // That the epoch is a `u64` tells that it is the last one where it no longer rises.
    let _ = state.m.epoch();
    undo(&mut state.m, journal);
}

// Settles a move.
fn keep(state: &mut State, journal: Journal)
    requires can_settle { CanSettle journal state.old.m }
    requires ready { IsReady state.old.m state.old.c state.old.first state.old.second }
    ensures settled { IsSettledBy state.old.m state.new.m journal }
    ensures ready { IsReady state.new.m state.new.c state.new.first state.new.second }
    ensures table { IsTable state.new.m }
{
    settle(&mut state.m, journal);
}

// How a journal is spent.
#[derive(Clone, Copy, Drop)]
pub(crate) enum End {
    Undone,
    Settled,
}

// Spends the journal of the newest move.
fn spend(state: &mut State, journal: Journal, end: End)
    requires can_undo { CanUndo journal state.old.m }
    requires ready { IsReady state.old.m state.old.c state.old.first state.old.second }
    ensures ready { IsReady state.new.m state.new.c state.new.first state.new.second }
{
    stays_settleable();
    match end {
        End::Undone => go_back(state, journal),
        End::Settled => keep(state, journal),
    }
}

// What comes of a move: the size that it answers, the elements in the arena and what is seen before the journal is
// spent; or why it was refused; or that the vtree has no such position.
#[derive(Drop)]
pub(crate) enum Outcome {
    Made { size: u32, used: u32, seen: Seen },
    Refused(MoveError),
    NoPlace,
}

impl Outcome {
    // Whether the move was made with this size, and each root held the node of before.
    pub(crate) fn is_made(&self, size: u32, before: &Seen) -> bool {
        match self {
            Outcome::Made {
                size: own,
                seen,
                ..
            } => *own == size && seen.has_nodes_of(before),
            Outcome::Refused(_) | Outcome::NoPlace => false,
        }
    }

    // The elements in the arena after the move.
    pub(crate) fn used(&self) -> Option<u32> {
        match self {
            Outcome::Made { used, .. } => Some(*used),
            Outcome::Refused(_) | Outcome::NoPlace => None,
        }
    }

    // Whether the move was refused for this reason.
    pub(crate) fn is_refused(&self, reason: MoveError) -> bool {
        match self {
            Outcome::Refused(error) => *error == reason,
            Outcome::Made { .. } | Outcome::NoPlace => false,
        }
    }

    // Whether the move was refused since the arena was full past this bound.
    pub(crate) fn is_full(&self, bound: u32) -> bool {
        match self {
            Outcome::Refused(MoveError::ArenaFull { elements }) => *elements > u64::from(bound),
            Outcome::Made { .. } | Outcome::Refused(_) | Outcome::NoPlace => false,
        }
    }

    // Whether the move was made, or refused since the arena was full past this bound.
    pub(crate) fn keeps_bound(&self, bound: u32) -> bool {
        match self {
            Outcome::Made { .. } => true,
            Outcome::Refused(_) | Outcome::NoPlace => self.is_full(bound),
        }
    }
}

// What comes of a move that was refused; want of memory is an error of the test's own.
fn refused(error: MoveError) -> Result<Outcome, AllocError> {
    match error {
        MoveError::OutOfMemory => Err(AllocError),
        _ => Ok(Outcome::Refused(error)),
    }
}

// That a move was not made; want of memory is an error of the test's own.
pub(crate) fn not_made(error: MoveError) -> Result<bool, AllocError> {
    match error {
        MoveError::OutOfMemory => Err(AllocError),
        _ => Ok(false),
    }
}

// Makes a move at a position, looks, and spends the journal.
fn make(
    alloc: Global,
    state: &mut State,
    kind: Move,
    position: u32,
    most: u32,
    end: End,
) -> Result<Outcome, AllocError>
    requires ready { IsReady state.old.m state.old.c state.old.first state.old.second }
    ensures ready { IsReady state.new.m state.new.c state.new.first state.new.second }
{
    let Some(place) = state.m.vtree().at_position(position) else {
        return Ok(Outcome::NoPlace);
    };
    let moved = match move_at(alloc, state, kind, place, most) {
        Ok(moved) => moved,
        Err(error) => return refused(error),
    };
    let Moved { size, journal } = moved;
    let used = state.m.used();
    let seen = look(alloc, state);
    spend(state, journal, end);
    Ok(Outcome::Made {
        size,
        used,
        seen: seen?,
    })
}

// Makes a move at a position and undoes it. Answers whether it was made.
fn make_and_undo(
    alloc: Global,
    state: &mut State,
    kind: Move,
    position: u32,
) -> Result<bool, AllocError>
    requires ready { IsReady state.old.m state.old.c state.old.first state.old.second }
    ensures reached { KeepsReached state.old.m state.new.m }
    ensures ready { IsReady state.new.m state.new.c state.new.first state.new.second }
{
    keeps_reached();
    // Its contract tells that the table is valid.
    let _ = state.m.epoch();
    let Some(place) = state.m.vtree().at_position(position) else {
        return Ok(false);
    };
    match move_at(alloc, state, kind, place, u32::MAX) {
        Ok(moved) => {
            let Moved { size: _, journal } = moved;
            go_back(state, journal);
            Ok(true)
        }
        Err(error) => not_made(error),
    }
}

// Makes a move at a position, makes and undoes one at another position meanwhile, and undoes the first one. Answers
// whether both were made.
fn undo_in_turn(
    alloc: Global,
    state: &mut State,
    outer: (Move, u32),
    inner: (Move, u32),
) -> Result<bool, AllocError>
    requires ready { IsReady state.old.m state.old.c state.old.first state.old.second }
    ensures ready { IsReady state.new.m state.new.c state.new.first state.new.second }
{
    stays_undoable();
    let Some(place) = state.m.vtree().at_position(outer.1) else {
        return Ok(false);
    };
    match move_at(alloc, state, outer.0, place, u32::MAX) {
        Ok(moved) => {
            let Moved { size: _, journal } = moved;
            let made = make_and_undo(alloc, state, inner.0, inner.1);
            go_back(state, journal);
            made
        }
        Err(error) => not_made(error),
    }
}

// Makes swaps at two positions, settles the first one, and then undoes the second one. Answers whether this was so.
fn settle_older(
    alloc: Global,
    state: &mut State,
    first: u32,
    second: u32,
) -> Result<bool, AllocError>
    requires ready { IsReady state.old.m state.old.c state.old.first state.old.second }
    ensures ready { IsReady state.new.m state.new.c state.new.first state.new.second }
{
    stays_settleable();
    let Some(place) = state.m.vtree().at_position(first) else {
        return Ok(false);
    };
    match move_at(alloc, state, Move::Swap, place, u32::MAX) {
        Ok(moved) => {
            let Moved { size: _, journal } = moved;
            swap_and_settle(alloc, state, journal, second)
        }
        Err(error) => not_made(error),
    }
}

// Makes a swap at a position, settles an older journal, and then undoes the swap.
fn swap_and_settle(
    alloc: Global,
    state: &mut State,
    older: Journal,
    position: u32,
) -> Result<bool, AllocError>
    requires ready { IsReady state.old.m state.old.c state.old.first state.old.second }
    requires older { CanSettle older state.old.m }
    ensures ready { IsReady state.new.m state.new.c state.new.first state.new.second }
{
    stays_settleable();
    let Some(place) = state.m.vtree().at_position(position) else {
        keep(state, older);
        return Ok(false);
    };
    match move_at(alloc, state, Move::Swap, place, u32::MAX) {
        Ok(moved) => {
            let Moved { size: _, journal } = moved;
            Ok(settle_and_undo(state, older, journal, place))
        }
        Err(error) => {
            keep(state, older);
            not_made(error)
        }
    }
}

// Settles a journal, and then undoes a newer one of a swap at a node, where the node that the first root holds is the
// only one there. Else the newer one is settled too.
fn settle_and_undo(state: &mut State, older: Journal, newer: Journal, place: VNode) -> bool
    requires ready { IsReady state.old.m state.old.c state.old.first state.old.second }
    requires older { CanSettle older state.old.m }
    requires newer { CanUndo newer state.old.m }
    requires others { HaveOtherRuns newer older }
    requires upper { newer.upper ≡ place }
    requires lower { newer.lower ≡ None }
    ensures ready { IsReady state.new.m state.new.c state.new.first state.new.second }
{
    stays_settleable();
    stays_undoable_when_settled();
    keep(state, older);
    if is_alone(state, place) {
        go_back(state, newer);
        true
    } else {
        keep(state, newer);
        false
    }
}

// Whether the node that the first root holds is the only one at a vtree node.
fn is_alone(state: &State, place: VNode) -> bool
    requires ready { IsReady state.now.m state.now.c state.now.first state.now.second }
    ensures alone { result ≡ true → IsAlone state.now.m state.now.first place }
{
    let node = state.m.node_of(&state.first);
    for number in 0..state.m.records() {
        if is_another(&state.m, number, place, node) {
            return false;
        }
    }
    true
}

// Whether the linked node with a number stands at a vtree node, and is not the node with a code.
fn is_another(m: &Manager, number: u32, place: VNode, node: NodeId) -> bool
    requires number { number < m.now.records }
    ensures no { result ≡ false → (list : List (ℕ × ℕ))
        → get m.now.linked number ≡ Some (place, list) → node ≡ 2050 + number }
{
    let Some(own) = m.linked_at(number) else {
        return false;
    };
    own.0 == place.0 && u64::from(node.0) != u64::from(number) + 2050
}

// The size of what is held.
fn total(state: &mut State) -> u32
    requires ready { IsReady state.old.m state.old.c state.old.first state.old.second }
    ensures ready { IsReady state.new.m state.new.c state.new.first state.new.second }
{
    size(&mut state.m)
}

impl Case {
    // Makes a move at a position, looks, and spends the journal.
    pub(crate) fn make(
        &mut self,
        alloc: Global,
        (kind, position): (Move, u32),
        most: u32,
        end: End,
    ) -> Result<Outcome, AllocError> {
        make(alloc, &mut self.state, kind, position, most, end)
    }

    // Makes a move, makes and undoes another one meanwhile, and undoes the first one. Answers whether both were made.
    pub(crate) fn undo_in_turn(
        &mut self,
        alloc: Global,
        outer: (Move, u32),
        inner: (Move, u32),
    ) -> Result<bool, AllocError> {
        undo_in_turn(alloc, &mut self.state, outer, inner)
    }

    // Makes swaps at two positions, settles the first one, and then undoes the second one. Answers whether this was so.
    pub(crate) fn settle_older(
        &mut self,
        alloc: Global,
        first: u32,
        second: u32,
    ) -> Result<bool, AllocError> {
        settle_older(alloc, &mut self.state, first, second)
    }

    // The size of what is held.
    pub(crate) fn total(&mut self) -> u32 {
        total(&mut self.state)
    }
}
