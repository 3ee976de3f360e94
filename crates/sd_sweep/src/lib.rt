//! Sweeping, and the size of what roots show.
#![tactic(auto)]

mod chain;
mod sizes;
mod sweeping;

pub use sizes::{size, size_of};
pub use sweeping::sweep;
