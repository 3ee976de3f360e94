// The steps of a test, as data: so a test is a table, and all its calls stand here once.
use crate::cases::Case;
use crate::moves::End;
use crate::seen::Seen;
use sd_model::Move;
use sd_move::MoveError;
use std::alloc::{AllocError, Global};

/// The text of `1 or (2 and 3)` for the vtree `(((1 2) 3) 4)`.
const BEFORE: &str = "sdd 10\nL 0 0 1\nT 1\nL 2 0 -1\nL 3 2 -2\nF 4\nD 5 1 2 2 3 0 4\n\
    L 6 2 2\nD 7 1 2 2 6 0 4\nL 8 4 3\nD 9 3 3 0 1 5 4 7 8\n";

/// The text of the same function for the vtree `((1 (2 3)) 4)`.
const AFTER: &str = "sdd 9\nL 0 0 -1\nL 1 2 -2\nF 2\nL 3 2 2\nL 4 4 3\nD 5 3 2 1 2 3 4\n\
    L 6 0 1\nT 7\nD 8 1 2 0 5 6 7\n";

/// The text of `(1 and 3) or (2 and 4)` for the vtree `((3 4) (1 2))`.
const SWAPPED: &str =
    "sdd 15\nL 0 0 -3\nF 1\nL 2 0 3\nL 3 2 -4\nD 4 1 2 0 1 2 3\nL 5 4 1\nL 6 2 4\n\
    D 7 1 2 0 1 2 6\nL 8 4 -1\nL 9 6 2\nT 10\nD 11 5 2 8 9 5 10\nD 12 1 2 0 3 2 1\nD 13 1 2 0 6 2 1\n\
    D 14 3 4 4 5 7 11 12 1 13 9\n";

// The texts that a test compares.
#[derive(Clone, Copy)]
pub(crate) enum Text {
    // `1 or (2 and 3)` before the rotation.
    Before,
    // The same after it.
    After,
    // The crossed terms after the swap of the root.
    Swapped,
}

// A step of a test. A move is told by its kind and its position.
#[derive(Clone, Copy)]
pub(crate) enum Step {
    // The move is made with this size, which is the limit too; each root holds its node then, and the arena has more
    // than this many elements. The journal is spent so.
    Made(Move, u32, u32, u32, End),
    // The move is refused under this limit, for this reason.
    Refused(Move, u32, u32, MoveError),
    // The move is made and undone, or refused since the arena was full past this bound.
    Bounded(Move, u32, u32),
    // The move is refused since the arena was full past this bound.
    Full(Move, u32, u32),
    // The second move is made and undone while the first one can still be undone, which is undone then.
    InTurn((Move, u32), (Move, u32)),
    // Of the swaps at two positions the first one is settled, and then the second one is undone.
    SettledOlder(u32, u32),
    // The move is made and undone, and both times operations find that the first root implies the second one.
    Implied(Move, u32),
    // Whether all is seen as before the first step.
    AsBefore(bool),
    // The diagram of the second root has this text.
    Shows(Text),
    // The size of what is held.
    Total(u32),
    // The elements in the arena.
    Used(u32),
}

// Whether a move is made so.
fn is_made(
    alloc: Global,
    case: &mut Case,
    at: (Move, u32),
    (size, used): (u32, u32),
    end: End,
    before: &Seen,
) -> Result<bool, AllocError> {
    let outcome = case.make(alloc, at, size, end)?;
    Ok(outcome.is_made(size, before) && outcome.used() > Some(used))
}

// Whether a move is refused so.
fn is_refused(
    alloc: Global,
    case: &mut Case,
    at: (Move, u32),
    most: u32,
    reason: MoveError,
) -> Result<bool, AllocError> {
    Ok(case.make(alloc, at, most, End::Undone)?.is_refused(reason))
}

// Whether a move is made and undone, or refused past the bound.
fn is_bounded(
    alloc: Global,
    case: &mut Case,
    at: (Move, u32),
    bound: u32,
) -> Result<bool, AllocError> {
    Ok(case.make(alloc, at, 1000, End::Undone)?.keeps_bound(bound))
}

// Whether a move is refused past the bound.
fn is_full(
    alloc: Global,
    case: &mut Case,
    at: (Move, u32),
    bound: u32,
) -> Result<bool, AllocError> {
    Ok(case.make(alloc, at, 1000, End::Undone)?.is_full(bound))
}

// Whether the diagram of the second root has a text.
fn has_text(alloc: Global, case: &Case, text: Text) -> Result<bool, AllocError> {
    let wanted = match text {
        Text::Before => BEFORE,
        Text::After => AFTER,
        Text::Swapped => SWAPPED,
    };
    Ok(case.look(alloc)?.has_text(wanted))
}

// Does a step, and answers whether all was so.
fn is_so(alloc: Global, case: &mut Case, before: &Seen, step: Step) -> Result<bool, AllocError> {
    match step {
        Step::Made(kind, position, size, used, end) => {
            is_made(alloc, case, (kind, position), (size, used), end, before)
        }
        Step::Refused(kind, position, most, reason) => {
            is_refused(alloc, case, (kind, position), most, reason)
        }
        Step::Bounded(kind, position, bound) => is_bounded(alloc, case, (kind, position), bound),
        Step::Full(kind, position, bound) => is_full(alloc, case, (kind, position), bound),
        Step::InTurn(outer, inner) => case.undo_in_turn(alloc, outer, inner),
        Step::SettledOlder(first, second) => case.settle_older(alloc, first, second),
        Step::Implied(kind, position) => case.imply_meanwhile(alloc, kind, position),
        Step::AsBefore(same) => Ok(case.shows(alloc, before)? == same),
        Step::Shows(text) => has_text(alloc, case, text),
        Step::Total(size) => Ok(case.total() == size),
        Step::Used(used) => Ok(case.used() == used),
    }
}

// Does the steps, and answers whether all was so.
pub(crate) fn all_so(alloc: Global, case: &mut Case, steps: &[Step]) -> Result<bool, AllocError> {
    let before = case.look(alloc)?;
    for index in 0..steps.len() {
        if !is_so(alloc, case, &before, steps[index])? {
            return Ok(false);
        }
    }
    Ok(true)
}
