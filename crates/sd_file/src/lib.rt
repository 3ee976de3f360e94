//! SDD files: the nodes that a text stands for, or its first fault; the node of a manager with the file's value; and
//! the text of the diagrams that roots show. The format is that of the SDD Package 2.0; ids may be any distinct
//! numbers.
//!
//! - A text is read line by line (`reader.rt`, with `form.rt`, `id_table.rt` and `fault.rt`) into a list of nodes
//!   (`file.rt`). A caller sees that as `sdd_file` of `specs/Reads.antt`.
//! - A node of a manager is built of such a list (`builder.rt`), which need not be compressed or trimmed; the node is.
//! - A text is written in two walks (`writer.rt`): one finds the nodes of each position, whose elements are then put in
//!   order (`order.rt`, `known.rt`), and one writes the lines (`lines.rt`, `numbers.rt`).
#![tactic(auto)]

mod builder;
mod fault;
mod file;
mod form;
mod id_table;
mod known;
pub mod laws;
mod lines;
mod numbers;
mod order;
mod reader;
mod writer;

pub use builder::build;
pub use fault::SddFault;
pub use file::{FileNode, SddFile};
pub use reader::read_sdd;
pub use writer::{write_nodes, write_sdd};
