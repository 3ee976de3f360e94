//! Propositional formulas as groups of literals: the clauses and exclusive groups of a CNF or the
//! terms of a DNF, and their texts in the format of DIMACS.
#![tactic(auto)]

mod body;
mod error;
mod flat;
mod formula;
mod generated;
mod header;
pub mod laws;
mod literals;
mod parts;
mod reader;

pub use error::FormulaError;
pub use formula::{Formula, Kind};
pub use generated::{GenerateError, generate};
pub use reader::read_dimacs;
