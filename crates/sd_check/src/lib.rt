//! Whether the nodes of an SDD file are canonical: each is compressed, trimmed and a partition for the vtree that the
//! file's vtree ids belong to, and if not, which node breaks which rule first. Files of any tool that writes the format
//! of the SDD Package 2.0 can be judged.
//!
//! - The check, node by node, is in `checker.rt`.
//! - The rules that ask for no value are in `forms.rt`, by the table of inner vtree nodes of `forks.rt`.
//! - The rules on values are in `primes.rt` and `twins.rt`.
//! - The rules and the verdict are in `rules.rt`; what they say is in `specs/Rules.antt`.
//! - Laws of the verdict are in `laws.rt`.
#![tactic(auto)]

mod checker;
#[cfg(test)]
mod examples;
mod forks;
mod forms;
pub mod laws;
#[cfg(test)]
mod many_elements;
mod primes;
mod rules;
#[cfg(test)]
mod tests;
mod twins;

pub use checker::check;
pub use rules::{Rule, Verdict};
