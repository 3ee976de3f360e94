//! Moves of the vtree in place, and the way back.
//!
//! The moves are the two rotations and the swap by which a vtree is searched for a smaller diagram (Choi and Darwiche,
//! AAAI 2013). A move changes the places and the lists of a few nodes, and the function of none: only nodes that stand
//! at the moved vtree node, or at the child that a rotation turns, are looked at. Nodes above them name them by number,
//! and need no work.
//!
//! - A sweep comes first, so that each node is needed and a journal names no garbage. The nodes at the place, of a
//!   rotation those at both, are taken out of the table (`beginning.rt`, `detaching.rt`), and the vtree is turned
//!   (`turning.rt`).
//! - Those whose lists are right under the new vtree are linked again (`sorting.rt`), and the others get the list that
//!   their function has there (`rewriting.rt`). No two of them meet, since no two were one function.
//! - A journal has what changed, with the old lists as loose runs (`journal.rt`). By it a move is undone without memory
//!   (`undone.rt`, `going_back.rt`), also where it is refused on its way (`ending.rt`) or the size after it passes a
//!   limit (`bounding.rt`), or it is settled, which frees the runs (`settling.rt`).
//!
//! The cost is in the nodes at these places and the products below them, but for two things: the first move of a
//! manager lists all nodes by place once, and a sweep may chain all records anew. To compile anew under the
//! moved vtree takes the whole diagram's time: docs/SPEED.md has both measured, and docs/DEFINITIONS.md the argument
//! with its pictures.
#![tactic(auto)]

mod beginning;
mod bounding;
mod branches;
mod cells;
mod detaching;
mod ending;
mod error;
mod going_back;
mod journal;
pub mod laws;
mod rewriting;
mod rotating;
mod settling;
mod sorting;
mod swapping;
mod turning;
mod undone;

pub use error::MoveError;
pub use journal::{Journal, Moved};
pub use rotating::{rotate_left, rotate_right};
pub use settling::settle;
pub use swapping::swap;
pub use undone::undo;
