//! The whole run of the program over a shelf of files and two sinks: the words, the input files, and the commands of
//! the script, which build formulas under one vtree, compare and evaluate them, move the vtree or search for a better
//! one, and write texts.
//!
//! `run` (`whole_run.rt`) is the door, and `run_gated` is it with gates before the work of parts and starts. It reads
//! all inputs first (`reading.rt`, `scripts.rt`), which makes a plan (`plan.rt`), then does the plan's commands one by
//! one (`execution.rt`) with what each asks for outside (`devices.rt`), and ends with a status and at most one line
//! (`stop.rt`, `refusal.rt`, `parts.rt`). What it promises is `specs/Theorem.antt`, and what follows from that stands
//! in `laws`.
#![tactic(auto)]

mod devices;
mod execution;
mod formats;
pub mod laws;
mod parts;
mod plan;
mod reading;
mod refusal;
mod scripts;
mod stop;
mod texts;
mod whole_run;

pub use whole_run::{run, run_gated};
