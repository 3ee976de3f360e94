//! Live counts, settled lazily: which nodes are under what roots hold, and how many elements they have together.
//!
//! A walk over all that is held costs all of it. Here a root that comes or goes, and a list that changes, cost their
//! own codes, and the total costs what came to be used or is no longer used since it was last asked for.
//!
//! Each number has a count of the uses by roots and by the lists of the numbers that are counted, and a number is to
//! be counted just where that is not zero. One that is used and not counted yet, or is counted and no longer used,
//! stands on one of two stacks until `settle` takes it off: those that rise first, so that nothing is counted twice.
//! A number that is counted makes those in its list used, and so they may rise in turn. Since users stand above what
//! they use, just what is held or below it is counted then.
//!
//! ```text
//! rising   -> 7 -> 2            used, and not counted yet
//! falling  -> 4                 counted, and not used any more
//! counts   [ live next is_counted is_queued ]     16 bytes a number, the stacks through `next`
//! ```
//!
//! `grow` alone takes memory, before a node is made; `hold`, `release`, `relisted` and `settle` take none. What `grow`
//! takes is room, in which the others write what they need. Until the first of them is called, counts are addresses
//! alone.
#![tactic(auto)]

mod count;
pub mod laws;
mod live_counts;
mod pairs;
mod settling;
mod stacks;

pub use live_counts::LiveCounts;
