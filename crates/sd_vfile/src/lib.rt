//! Vtree files: the text of a vtree, and the vtree that such a text stands for, or its first fault.
//! The format is that of the SDD Package 2.0. A caller sees a reading as `vtree_file` of `specs/Reads.antt`.
#![tactic(auto)]

mod fault;
mod form;
mod ids;
pub mod laws;
mod nodes;
mod placing;
mod reader;
mod whole;
mod writer;

pub use fault::VtreeFault;
pub use ids::{Ids, read_ids};
pub use reader::{count_variables, read_vtree};
pub use writer::write_vtree;
