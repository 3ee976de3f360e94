//! Diagrams under one vtree as numbered nodes: equal functions are equal nodes.
//!
//! A caller sees a `Manager` as the record `Table` of `specs/Table.antt`. A node is named by a code: 0 is false, 1 is
//! true, 2x is the literal x, 2x + 1 is the literal -x, and 2,050 + n is the decomposition with the number n.
#![tactic(auto)]

mod finding;
mod manager;
mod moving;
mod node_id;
mod pairs;
mod recount;
mod rewriting;
mod roots;
mod taking;
mod uses;
mod values;
mod view;

pub use manager::Manager;
pub use node_id::{FIRST_NODE, NodeId};
pub use roots::Root;
pub use values::value_of;
pub use view::View;
