//! Circuits of and-lines: the lists of a text, with their gates in an order in which each stands behind what it uses, or
//! the first and-line that lies on a cycle.
#![tactic(auto)]

mod and_line;
mod circuit;
mod cycles;
mod definers;
pub mod laws;
mod order;
mod origins;
mod placing;
mod ranks;
mod reaching;
#[cfg(test)]
mod tests;
mod wire;

pub use and_line::And;
pub use circuit::Circuit;
pub use order::OrderError;
pub use wire::Wire;
