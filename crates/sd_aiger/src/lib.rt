//! Circuits in the ASCII format of AIGER without latches: the circuit that a text stands for, or its first fault.
//! A caller sees a reading as `aiger` of `specs/Reads.antt`.
#![tactic(auto)]

mod body;
mod definitions;
mod fault;
mod header;
pub mod laws;
mod line;
mod reader;
mod uses;

pub use fault::AigerFault;
pub use reader::read_aiger;
pub use sd_circuit::{Circuit, Wire};
