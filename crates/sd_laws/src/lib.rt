//! Partitions of a vtree node and numbered diagrams: definitions for contracts, the lemmas about them, and the main
//! laws as contracts of functions.
#![tactic(auto)]

pub mod laws;
