// Why a search was broken off.
use thiserror::Error;

/// Why a search was broken off. The vtree is the one after the walks that were finished, and each held root keeps its
/// function.
#[derive(Clone, Copy, Debug, PartialEq, Eq, Error)]
pub enum SearchError {
    /// The arena had no room for a list: `elements` is the extent with its length added.
    #[error("ArenaFull")]
    ArenaFull { elements: u64 },
    /// Out of memory.
    #[error("OutOfMemory")]
    OutOfMemory,
}
