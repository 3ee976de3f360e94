//! The choice of a start: a formula is compiled and searched alone over each of the three start trees, by several
//! workers where there are some, and the start with the least size is chosen.
#![tactic(auto)]

mod choosing;
mod laws;
mod start;
#[cfg(test)]
mod tests;
mod work;

pub use choosing::{Chosen, Refused, choose_start, kept_at};
pub use laws::{one_choice, one_end};
pub use start::{Settings, Start};
pub use work::MOST_ELEMENTS;
