//! Plain vtrees and sentential decision diagrams (Darwiche 2011): their order, value, text, size and moves.
//! A caller sees a tree as `tree_of` and a diagram as `diagram_of` of `specs/Seen.antt`, without boxes and vectors.
//! `laws` has the facts of the definitions: canonical diagrams of one function are one diagram, and more.
#![tactic(auto)]

pub mod diagrams;
pub mod laws;
pub mod moves;
mod nodes;
pub mod sizes;
pub mod texts;
pub mod trees;

pub use diagrams::{Diagram, Element, compare, value_of};
pub use moves::{MovedError, moved};
pub use sizes::size_of;
pub use texts::{text_of, texts_of};
pub use trees::{Move, Operation, Side, Tree};
