//! The outputs of a circuit as nodes of a manager.
//!
//! An output is made gate by gate, from those that it needs alone, by a stack of its own and not by recursion. The
//! nodes of gates are kept beside the manager (`sharing.rt`): while its epoch stands, the next output takes them.
#![tactic(auto)]

mod output;
mod sharing;
mod sweeping;
#[cfg(test)]
mod tests;

pub use output::output_node;
pub use sharing::GateNodes;
