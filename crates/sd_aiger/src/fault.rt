//! Why a text is no circuit in the format of AIGER.

ghost use Rattle.std.specs.Prelude.{◌≡◌};

use std::alloc::{AllocError, AllocFailed};
use thiserror::Error;

/// The first fault of a text, or that memory ran out. Lines are counted from 1, over all lines of the text.
#[derive(Clone, Copy, Debug, PartialEq, Eq, Error)]
pub enum AigerFault {
    /// There is no line, or the first word of the first one is not `aag`.
    #[error("NoHeader")]
    NoHeader,
    /// The first line is not `aag` and five naturals.
    #[error("BadHeader")]
    BadHeader { line: u32 },
    /// The number of inputs, which are the variables of the diagrams, is not 1 to 1,024.
    #[error("VariablesRange")]
    VariablesRange { found: u64 },
    /// There are latches.
    #[error("Latches")]
    Latches { found: u64 },
    /// The number of outputs is not 1 to 1,024.
    #[error("OutputsRange")]
    OutputsRange { found: u64 },
    /// The greatest variable passes 2,000,000, or is less than the number of inputs and and-lines.
    #[error("IndexRange")]
    IndexRange { found: u64 },
    /// Fewer lines follow the first one than it states.
    #[error("CountDiffers")]
    CountDiffers { stated: u64, found: u64 },
    /// A line of an input or an output is not one natural, or an and-line is not three.
    #[error("BadLine")]
    BadLine { line: u32 },
    /// A literal passes 2M + 1, the negation of the greatest variable.
    #[error("LiteralRange")]
    LiteralRange { line: u32 },
    /// What a line defines is no variable, or an earlier line defines it.
    #[error("BadDefinition")]
    BadDefinition { line: u32 },
    /// No line defines the variable of an output or of a right side.
    #[error("Undefined")]
    Undefined { line: u32 },
    /// What an and-line defines is reached from its own right sides; this is the first such line.
    #[error("Cycle")]
    Cycle { line: u32 },
    /// Out of memory, whatever the text.
    #[error("OutOfMemory")]
    OutOfMemory,
}

impl From<AllocError> for AigerFault {
    ghost use Rattle.sd_aiger.specs.declared.fault.AigerFault.TheVariants.{OutOfMemory};

    ghost from_gives = { λ _ e. e ≡ OutOfMemory };

    fn from(_e: AllocError) -> AigerFault {
        AigerFault::OutOfMemory
    }
}

impl<T: Drop> From<AllocFailed<T>> for AigerFault {
    ghost use Rattle.sd_aiger.specs.declared.fault.AigerFault.TheVariants.{OutOfMemory};

    ghost from_gives = { λ _ e. e ≡ OutOfMemory };

    fn from(_e: AllocFailed<T>) -> AigerFault {
        AigerFault::OutOfMemory
    }
}
