//! Why a command is not done.
ghost use Rattle.std.specs.Prelude.{◌≡◌};
ghost use Rattle.sd_commands.specs.Standing.{error_of_operation, error_of_compiling, error_of_holding};
ghost use Rattle.sd_commands.specs.Standing.{error_of_move, error_of_search};

use sd_compile::{CompileError, HoldError};
use sd_move::MoveError;
use sd_runs::TakeError;
use sd_search::SearchError;
use thiserror::Error;

/// Why a command is not done.
#[derive(Clone, Copy, Debug, PartialEq, Eq, Error)]
pub enum CommandError {
    /// The vtree cannot be moved so at that position.
    #[error("NotMovable")]
    NotMovable,
    /// With what the command binds, under the moved vtree, or with the groups of the input up to this one, counted
    /// from 1, the total size passes the limit.
    #[error("OverLimit")]
    OverLimit {
        group: Option<u32>,
        size: u32,
        limit: u32,
    },
    /// `elements`, the arena's extent with the length of a list added, is past the bound.
    #[error("ArenaFull")]
    ArenaFull {
        elements: u64,
    },
    /// Out of memory, whatever the arena.
    #[error("OutOfMemory")]
    OutOfMemory,
}

// What an operation answers, as an answer of a command.
pub(crate) fn operation_error(error: TakeError) -> CommandError
    ensures { result ≡ error_of_operation error }
{
    match error {
        TakeError::ArenaFull { elements } => CommandError::ArenaFull { elements },
        TakeError::OutOfMemory => CommandError::OutOfMemory,
    }
}

// What compiling answers, as an answer of a command.
pub(crate) fn compiling_error(error: CompileError) -> CommandError
    ensures { result ≡ error_of_compiling error }
{
    match error {
        CompileError::OverLimit { group, size, limit } => CommandError::OverLimit {
            group: Some(group),
            size,
            limit,
        },
        CompileError::ArenaFull { elements } => CommandError::ArenaFull { elements },
        CompileError::OutOfMemory => CommandError::OutOfMemory,
    }
}

// Why a node is not held, as an answer of a command.
pub(crate) fn holding_error(error: HoldError, limit: u32) -> CommandError
    ensures { result ≡ error_of_holding error limit }
{
    match error {
        HoldError::OverLimit { size } => CommandError::OverLimit {
            group: None,
            size,
            limit,
        },
        HoldError::OutOfMemory => CommandError::OutOfMemory,
    }
}

// Why the vtree is not moved, as an answer of a command.
pub(crate) fn move_error(error: MoveError) -> CommandError
    ensures { result ≡ error_of_move error }
{
    match error {
        MoveError::NotMovable => CommandError::NotMovable,
        MoveError::OverMost { size, most } => CommandError::OverLimit {
            group: None,
            size,
            limit: most,
        },
        MoveError::ArenaFull { elements } => CommandError::ArenaFull { elements },
        MoveError::OutOfMemory => CommandError::OutOfMemory,
    }
}

// Why a search is broken off, as an answer of a command.
pub(crate) fn search_error(error: SearchError) -> CommandError
    ensures { result ≡ error_of_search error }
{
    match error {
        SearchError::ArenaFull { elements } => CommandError::ArenaFull { elements },
        SearchError::OutOfMemory => CommandError::OutOfMemory,
    }
}
