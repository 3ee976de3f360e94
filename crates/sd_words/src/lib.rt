//! The command line: the job that the words after the program's name stand for.
//! `clap` says which words are accepted and which value each option has. The tests of the values
//! follow, and where none fails, the job.
#![tactic(auto)]

mod checks;
mod command;
mod faults;
mod jobs;
pub mod laws;
mod numbers;
mod options;
mod parsed_options;
mod read;
mod values;

pub use faults::WordsFault;
pub use jobs::{InputWord, Job, TreeWord};
pub use options::OptionName;
pub use read::read_words;
