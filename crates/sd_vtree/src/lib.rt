//! Vtrees in vectors: their nodes have numbers, which the moves keep.
//! A caller sees a `Vtree` as `Numbered` of `specs/Numbered.antt`: a tree with a number at each node.
//! `laws` ties its moves to those of the plain tree.
#![tactic(auto)]

mod build;
pub mod laws;
mod order;
mod shape;
mod starts;
mod vtree;

pub use shape::{NotMovable, VNode};
pub use vtree::Vtree;
