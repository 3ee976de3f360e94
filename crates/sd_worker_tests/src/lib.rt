//! Tests by calls of crates above those of `sd_call_tests`, each in a file of its own:
//!
//! - parts and starts in workers: that they are in work at once, each at its own gate, and that several workers come to
//!   the answer of one, within small bounds and limits too
//! - circuits of texts, their outputs as nodes, and verdicts on files
#![tactic(auto)]

#[cfg(test)]
mod bounds;
#[cfg(test)]
mod circuits;
#[cfg(test)]
mod gates;
#[cfg(test)]
mod inputs;
#[cfg(test)]
mod joins;
#[cfg(test)]
mod opening;
#[cfg(test)]
mod tasks;
#[cfg(test)]
mod waiting;
