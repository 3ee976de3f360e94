//! Conditioning the diagrams of a manager on a literal, and forgetting a variable of them.
//!
//! Both go down from a node to the leaf of the variable. A node that does not stand over that leaf is its own answer,
//! and so is one none of whose elements changed. Else its primes are conditioned where the leaf is on their side, or
//! its subs where it is on theirs, and the new elements are compressed. Subs forget the variable each for itself.
//! Primes that forget it would overlap, and be no partition, so there the answer is the disjunction of both
//! conditionings.
//!
//! At a vtree node whose left child is a leaf a node of two elements is conditioned by its halves, without a list: the
//! answer is one of them where that leaf is the variable's, and else the node of both answers.
//!
//! A call visits each node over the leaf at most once for each value of the variable: what it finds stands in a table
//! of its own (`kept.rt`), and the cache is asked once a call (`cached.rt`).
#![tactic(auto)]

mod asked;
mod cached;
mod conditioning;
mod forgetting;
mod halved;
mod kept;
mod operations;
mod places;

pub use operations::{forget, given};
