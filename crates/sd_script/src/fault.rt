//! Why a text is no script.

ghost use Rattle.std.specs.Prelude.{◌≡◌};

use std::alloc::{AllocError, AllocFailed};
use thiserror::Error;

/// The first fault of a text, or that memory ran out. Lines are counted from 1, over all lines of the text.
#[derive(Clone, Copy, Debug, PartialEq, Eq, Error)]
pub enum ScriptFault {
    /// The line is no command: its first word is none, or its other words are too few, too many
    /// or of a wrong form.
    #[error("BadLine")]
    BadLine { line: u32 },
    /// A name that the command uses is not bound.
    #[error("NameUnknown")]
    NameUnknown { line: u32 },
    /// The name that the command binds is bound.
    #[error("NameTaken")]
    NameTaken { line: u32 },
    /// A literal, or the variable to forget, is not in range.
    #[error("LiteralRange")]
    LiteralRange { line: u32 },
    /// An output, a position, a number of rounds or a limit is not in range.
    #[error("NumberRange")]
    NumberRange { line: u32 },
    /// An earlier command writes the file that the command writes.
    #[error("FileTwice")]
    FileTwice { line: u32 },
    /// There are more than 100,000 lines.
    #[error("TooManyLines")]
    TooManyLines,
    /// It is the 65th command that loads a file.
    #[error("TooManyLoads")]
    TooManyLoads { line: u32 },
    /// The input is a circuit, and the command binds the formula of the input.
    #[error("NoFormula")]
    NoFormula { line: u32 },
    /// Out of memory, whatever the text.
    #[error("OutOfMemory")]
    OutOfMemory,
}

impl From<AllocError> for ScriptFault {
    ghost use Rattle.sd_script.specs.declared.fault.ScriptFault.TheVariants.{OutOfMemory};

    ghost from_gives = { λ _ e. e ≡ OutOfMemory };

    fn from(_e: AllocError) -> ScriptFault {
        ScriptFault::OutOfMemory
    }
}

impl<T: Drop> From<AllocFailed<T>> for ScriptFault {
    ghost use Rattle.sd_script.specs.declared.fault.ScriptFault.TheVariants.{OutOfMemory};

    ghost from_gives = { λ _ e. e ≡ OutOfMemory };

    fn from(_e: AllocFailed<T>) -> ScriptFault {
        ScriptFault::OutOfMemory
    }
}
