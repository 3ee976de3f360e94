//! Runs of pairs in one arena: a run is taken for a list, read by its start, and given back for
//! reuse.
//!
//! All elements stand in one vector of pairs, 8 bytes each, and each has a mark, a byte more. Each
//! length up to that of the longest list has 4 bytes. The room for all of it is made where a run is
//! taken, and that of the first 65,536 elements with the first one: giving a run back, and putting the
//! free runs of two elements in order, takes no memory and cannot fail.
#![tactic(auto)]

mod error;
mod heads;
mod marks;
mod ordering;
mod runs;
mod writing;

pub use error::TakeError;
pub use runs::Runs;
