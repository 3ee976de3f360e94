use crate::cases::{clause_alone, crossed_terms, pair_and_clause, pair_and_parity};
use crate::moves::End::{Settled, Undone};
use crate::plan::Step::{
    AsBefore, Bounded, Full, Implied, InTurn, Made, Refused, SettledOlder, Shows, Total, Used,
};
use crate::plan::Text::{After, Before, Swapped};
use crate::plan::{Step, all_so};
use sd_model::Move::{RotateLeft, RotateRight, Swap};
use sd_move::MoveError;
use sd_runs::TakeError;
use std::alloc::{AllocError, Global};
use std::test::Fail;

// Whether the steps are so over the crossed terms, in an arena of at most so many elements.
fn over_crossed(alloc: Global, bound: u32, steps: &[Step]) -> Result<bool, TakeError> {
    let mut case = crossed_terms(alloc, bound.min(1000))?;
    Ok(all_so(alloc, &mut case, steps)?)
}

// The same over `2 and 3` and `1 or (2 and 3)`.
fn over_pair_and_clause(alloc: Global, steps: &[Step]) -> Result<bool, TakeError> {
    let mut case = pair_and_clause(alloc)?;
    Ok(all_so(alloc, &mut case, steps)?)
}

// The same over `1 or (2 and 3)` alone.
fn over_clause(alloc: Global, steps: &[Step]) -> Result<bool, TakeError> {
    let mut case = clause_alone(alloc)?;
    Ok(all_so(alloc, &mut case, steps)?)
}

// The same over `1 and 2` and a parity of 58 variables.
fn over_pair_and_parity(alloc: Global, steps: &[Step]) -> Result<bool, TakeError> {
    let mut case = pair_and_parity(alloc)?;
    Ok(all_so(alloc, &mut case, steps)?)
}

/// On the balanced vtree the crossed terms have size 14, and on `((3 4) (1 2))` too. The root holds its node all the
/// time, and the move undone gives back the text and the vtree. A leaf has no children to swap, a node over two leaves
/// is rotated to no side, and past the limit all is as before too.
#[test]
fn a_swap_is_undone_or_refused(rt: HostRuntime) -> Result<(), Fail> {
    let over = MoveError::OverMost { size: 14, most: 13 };
    let steps = [
        Made(Swap, 3, 14, 14, Undone),
        AsBefore(true),
        Refused(Swap, 2, 1000, MoveError::NotMovable),
        Refused(RotateLeft, 1, 1000, MoveError::NotMovable),
        Refused(RotateRight, 1, 1000, MoveError::NotMovable),
        Refused(Swap, 3, 13, over),
        AsBefore(true),
    ];
    assert!(rt; over_crossed(rt.alloc(), 1000, &steps)?);
    Ok(())
}

/// A swap that is settled stays, until it is swapped back. Its old runs are free: after the next move the arena has the
/// elements that are held, and no more.
#[test]
fn a_swap_is_settled(rt: HostRuntime) -> Result<(), Fail> {
    let steps = [
        Made(Swap, 3, 14, 14, Settled),
        AsBefore(false),
        Shows(Swapped),
        Total(14),
        Made(Swap, 1, 14, 14, Undone),
        Used(14),
        Shows(Swapped),
        Made(Swap, 3, 14, 14, Settled),
        AsBefore(true),
    ];
    assert!(rt; over_crossed(rt.alloc(), 1000, &steps)?);
    Ok(())
}

/// On `(((1 2) 3) 4)` the diagram of `1 or (2 and 3)` has size 7 and that of `2 and 3` size 2; on `((1 (2 3)) 4)` they
/// have size 4, and the second one is a part of the first. Each root holds its node all the time.
#[test]
fn a_rotation_and_the_one_back(rt: HostRuntime) -> Result<(), Fail> {
    let steps = [
        Shows(Before),
        Made(RotateRight, 3, 4, 4, Settled),
        Shows(After),
        Made(RotateLeft, 1, 9, 9, Settled),
        AsBefore(true),
    ];
    assert!(rt; over_pair_and_clause(rt.alloc(), &steps)?);
    Ok(())
}

/// The same rotation undone, and refused where the size after it passes the limit.
#[test]
fn a_rotation_is_undone_or_refused(rt: HostRuntime) -> Result<(), Fail> {
    let over = MoveError::OverMost { size: 4, most: 3 };
    let steps = [
        Made(RotateRight, 3, 4, 4, Undone),
        AsBefore(true),
        Shows(Before),
        Refused(RotateRight, 3, 3, over),
        AsBefore(true),
        Shows(Before),
    ];
    assert!(rt; over_pair_and_clause(rt.alloc(), &steps)?);
    Ok(())
}

/// Where no root holds `2 and 3`, the rotation makes a node of it at the lower vtree node. Undone, it is discarded: the
/// arena has the 7 elements of `1 or (2 and 3)`, and no more.
#[test]
fn a_new_node_is_discarded(rt: HostRuntime) -> Result<(), Fail> {
    let steps = [Made(RotateRight, 3, 4, 7, Undone), Used(7), AsBefore(true)];
    assert!(rt; over_clause(rt.alloc(), &steps)?);
    Ok(())
}

/// Two moves are undone, the newest one first, and all is as before.
#[test]
fn two_moves_are_undone(rt: HostRuntime) -> Result<(), Fail> {
    let steps = [
        InTurn((Swap, 1), (RotateLeft, 3)),
        AsBefore(true),
        InTurn((RotateLeft, 3), (Swap, 1)),
        AsBefore(true),
        Total(14),
        Used(14),
    ];
    assert!(rt; over_crossed(rt.alloc(), 1000, &steps)?);
    Ok(())
}

/// The first root implies the second one under each vtree: the conjunction with the negation of the second one is false
/// after a move, and again after that was undone.
#[test]
fn operations_between_a_move_and_its_undo(rt: HostRuntime) -> Result<(), Fail> {
    let steps = [
        Implied(RotateRight, 3),
        AsBefore(true),
        Implied(Swap, 3),
        AsBefore(true),
        Shows(Before),
        Total(9),
    ];
    assert!(rt; over_pair_and_clause(rt.alloc(), &steps)?);
    Ok(())
}

/// Of two swaps the first one is settled while the second one can still be undone, and that is undone then. What is
/// left is the first swap alone: swapped back there, all is as before.
#[test]
fn the_older_move_is_settled(rt: HostRuntime) -> Result<(), Fail> {
    let steps = [
        SettledOlder(1, 3),
        AsBefore(false),
        Made(Swap, 1, 14, 14, Settled),
        AsBefore(true),
    ];
    assert!(rt; over_crossed(rt.alloc(), 1000, &steps)?);
    Ok(())
}

/// The pair has 2 elements and the parity 226, and the arena has room for 32 more. A move that made what is held anew
/// would be refused.
#[test]
fn a_move_makes_nothing_anew(rt: HostRuntime) -> Result<(), Fail> {
    let steps = [
        Used(228),
        Total(228),
        Made(Swap, 1, 228, 228, Undone),
        AsBefore(true),
    ];
    assert!(rt; over_pair_and_parity(rt.alloc(), &steps)?);
    Ok(())
}

/// The crossed terms have 14 elements, and 18 while they are made. After the rotation they have 19, and the old list of
/// the root is kept beside them, so an arena of 18 has no room.
#[test]
fn an_arena_without_room_for_a_rotation(rt: HostRuntime) -> Result<(), Fail> {
    let steps = [Full(RotateLeft, 3, 18), AsBefore(true), Total(14)];
    assert!(rt; over_crossed(rt.alloc(), 18, &steps)?);
    Ok(())
}

/// An arena of 60 has room for both moves.
#[test]
fn an_arena_with_room_for_both_moves(rt: HostRuntime) -> Result<(), Fail> {
    let steps = [
        Made(RotateLeft, 3, 19, 19, Undone),
        AsBefore(true),
        Made(Swap, 3, 14, 14, Undone),
        AsBefore(true),
    ];
    assert!(rt; over_crossed(rt.alloc(), 60, &steps)?);
    Ok(())
}

// Whether the crossed terms, and two moves of them that are undone, are made, or refused past the bound of the arena
// alone, and what is seen stays.
fn keeps_bound(alloc: Global, bound: u32) -> Result<bool, AllocError> {
    let steps = [
        Bounded(RotateLeft, 3, bound),
        AsBefore(true),
        Bounded(Swap, 3, bound),
        AsBefore(true),
    ];
    match over_crossed(alloc, bound, &steps) {
        Ok(is_so) => Ok(is_so),
        Err(TakeError::ArenaFull { elements }) => Ok(elements > u64::from(bound)),
        Err(TakeError::OutOfMemory) => Err(AllocError),
    }
}

/// In a small arena diagrams are made and a move is made and undone, or each is refused for want of room.
#[test]
fn arenas_of_at_most_forty(rt: HostRuntime) -> Result<(), Fail> {
    for bound in 0..41 {
        assert!(rt; keeps_bound(rt.alloc(), bound)?, "bound {bound}");
    }
    Ok(())
}
