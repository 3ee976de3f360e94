// Why the vtree was not moved.
use thiserror::Error;

/// Why the vtree was not moved. It is as before then, and so is each node under a held root or a loose run.
#[derive(Clone, Copy, Debug, PartialEq, Eq, Error)]
pub enum MoveError {
    /// The vtree cannot be moved so at that node.
    #[error("NotMovable")]
    NotMovable,
    /// The total size after the move would be `size`, which is past `most`.
    #[error("OverMost")]
    OverMost { size: u32, most: u32 },
    /// The arena had no room for a list: `elements` is the extent with its length added.
    #[error("ArenaFull")]
    ArenaFull { elements: u64 },
    /// Out of memory.
    #[error("OutOfMemory")]
    OutOfMemory,
}
