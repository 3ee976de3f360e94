//! The answers of operations that are kept, the most recently used first.
//!
//! A key is an operation at two codes in one epoch of a manager. The epoch rises when a node is taken away or the vtree
//! is moved, so that an answer about a number that names another node now is never found; nothing has to be cleared. An
//! answer that was dropped, or for which `keep` found no memory, is found anew, which costs time and changes no result.
//!
//! An operation asks once at its beginning and keeps once at its end. An entry in the order of use is too dear for each
//! step of it; for those the cache lends a table, in which the steps of all operations of one epoch keep their answers.
#![tactic(auto)]

mod cache;
mod call;
mod computed;

pub use cache::Cache;
pub use computed::ComputedTable;
