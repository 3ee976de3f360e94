//! A formula compiled into a root, group by group, within a limit of the total size.
//!
//! The groups so far are one node, which a root holds, and each group is joined to it (`compiling.rt`), in one pass
//! along that node (`one_pass.rt`). An exclusive group, and a wide one on a vtree where the pass is dear, has a node of
//! its own, made along the vtree (`groups.rt`, `parity.rt`), and the operation is applied. After each group the total
//! size is tested, and what died is swept where that pays (`limited.rt`, `pace.rt`).
//!
//! The size at the end says little of the time: it is the prefixes on the way that cost.
#![tactic(auto)]

mod compiling;
mod connectives;
mod error;
mod groups;
mod implied;
pub mod laws;
mod limited;
mod one_pass;
mod pace;
mod parity;

pub use compiling::{Compiling, add_group, add_group_past, begin, compile, finish};
pub use connectives::connect;
pub use error::{CompileError, HoldError};
pub use limited::{hold_within, sweep_past, total_over, try_hold};
pub use pace::Pace;
