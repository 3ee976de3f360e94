//! Scripts: the commands that a text stands for, or its first fault.
//! A caller sees a reading as `script_of` of `specs/Scripts.antt`.
#![tactic(auto)]

mod command;
mod fault;
mod footprint;
mod forms;
mod indices;
pub mod laws;
mod marks;
mod misread;
mod number;
mod reader;
mod rest;
mod row;
mod script;
mod table;

pub use command::{Action, Command};
pub use fault::ScriptFault;
pub use indices::Indices;
pub use script::{Script, read_script};
