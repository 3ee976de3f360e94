//! The search for a vtree under which the held diagrams are smaller.
//!
//! A walk at a node goes through the arrangements of the three subtrees there, by rotations and swaps of the vtree in
//! place, and ends in the first one of least total size; a round walks at each node, from the root down; rounds go on
//! until one gains nothing. The moves are those of Choi and Darwiche, "Dynamic minimization of sentential decision
//! diagrams" (2013). A walk makes eleven moves, each of which costs what its two vtree nodes hold and what came under
//! a root or under none by it, and goes back from a move that it does not keep by the move's journal.
#![tactic(auto)]

mod error;
pub mod laws;
mod searching;
mod steps;
mod walking;

pub use error::SearchError;
pub use searching::{Outcome, minimise};
