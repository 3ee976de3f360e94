//! The commands of a run over the diagrams of one vtree, which a command may change: each binds a name to a formula,
//! frees one, moves the vtree or searches for a better one, sets the limit, or makes a text to be written or printed.
//!
//! `step` does one of them in a `RunState`, and tests the limit. What a command does outside is handed out as a value
//! (`Effect`), so that no code here knows of files and streams. What each comes to is `Step` in `specs/Commands.antt`.
//!
//! An input by parts and the choice of a start are done by workers: `input_by_parts` and `open_chosen`.
#![tactic(auto)]

mod bind;
mod checking;
mod command;
mod effects;
mod error;
mod gates;
mod growth;
mod moving;
mod opening;
mod searching;
mod state;
mod steps;

pub use command::{Effect, NumberedCommand, RunCommand};
pub use error::CommandError;
pub use opening::{Opened, OpeningError, input_by_parts, open_chosen};
pub use state::RunState;
pub use steps::step;
