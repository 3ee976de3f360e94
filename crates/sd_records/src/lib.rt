//! A diagram as a flat list of records, which leaves its manager: it is written out of one, and read into another.
//!
//! - `Records` (`records.rt`) has an entry for each decomposition, behind the entries of those below it. A caller sees
//!   it as `FlatDiagram` of `specs/Records.antt`.
//! - A diagram is written in one walk that visits each node once (`writer.rt`, `listing.rt`), and read entry by entry,
//!   without recursion (`reader.rt`).
#![tactic(auto)]

mod listing;
mod reader;
mod records;
mod writer;

pub use reader::import;
pub use records::{Records, Ref};
pub use writer::export;
