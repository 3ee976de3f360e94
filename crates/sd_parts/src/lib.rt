//! Work that is cut into pieces for several threads, with the answers of one.
//!
//! A `Task` says by a relation which answers it may have, and `run_tasks` works a list of them in at most 16 threads
//! (`tasks.rt`). The answers stand in the order of the tasks, whatever thread ends first.
//!
//! A `Part` of a formula is a task: it is compiled alone, and answers with flat records or with its refusal
//! (`part.rt`). A `Gate` is what a test puts before its work (`gate.rt`). `specs/Parts.antt` tells which groups a part
//! has, and where parts, or what is joined of them, pass a limit.
#![tactic(auto)]

mod cutting;
mod gate;
mod join;
mod part;
mod tasks;

pub use gate::{Gate, Open};
pub use join::join_parts;
pub use part::{Part, PartAnswer, parts};
pub use sd_records::{Records, Ref, export, import};
pub use tasks::{Task, run_tasks};
