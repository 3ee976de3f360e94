// Why a formula, or a group of one, was not compiled.

ghost use Rattle.sd_compile.specs.Compiling.{error_of};
ghost use Rattle.std.specs.Prelude.{◌≡◌};

use sd_runs::TakeError;
use thiserror::Error;

/// Why no group was added.
#[derive(Clone, Copy, Debug, PartialEq, Eq, Error)]
pub enum CompileError {
    /// With the prefix up to this group held, counted from 1, the total size passes the limit.
    #[error("OverLimit")]
    OverLimit { group: u32, size: u32, limit: u32 },
    /// `elements`, the arena's extent with the length of a list added, is past the bound.
    #[error("ArenaFull")]
    ArenaFull { elements: u64 },
    /// Out of memory, whatever the arena.
    #[error("OutOfMemory")]
    OutOfMemory,
}

/// Why a node is not held.
#[derive(Clone, Copy, Debug, PartialEq, Eq, Error)]
pub enum HoldError {
    /// With it the total size passes the limit.
    #[error("OverLimit")]
    OverLimit { size: u32 },
    /// Out of memory.
    #[error("OutOfMemory")]
    OutOfMemory,
}

// What an operation answers, as an answer of `add_group`.
pub(crate) fn compile_error(error: TakeError) -> CompileError
    ensures { result ≡ error_of error }
{
    match error {
        TakeError::ArenaFull { elements } => CompileError::ArenaFull { elements },
        TakeError::OutOfMemory => CompileError::OutOfMemory,
    }
}
