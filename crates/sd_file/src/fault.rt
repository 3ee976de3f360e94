//! Why a text is no SDD file.

ghost use Rattle.std.specs.Prelude.{◌≡◌};

use std::alloc::{AllocError, AllocFailed};
use thiserror::Error;

/// The first fault of a text, or that memory ran out. Lines are counted from 1, over all lines of the
/// text.
#[derive(Clone, Copy, Debug, PartialEq, Eq, Error)]
pub enum SddFault {
    /// No line counts, or the first that does is not `sdd` and a number.
    #[error("NoHeader")]
    NoHeader,
    /// A line has none of the four forms.
    #[error("BadLine")]
    BadLine { line: u32 },
    /// An earlier line has the line's id.
    #[error("IdTwice")]
    IdTwice { line: u32 },
    /// A prime or a sub is the id of no earlier line.
    #[error("ChildUnknown")]
    ChildUnknown { line: u32 },
    /// The literal is 0, or its variable is not in range.
    #[error("LiteralRange")]
    LiteralRange { line: u32 },
    /// The number of node lines is not the one that the header states.
    #[error("CountDiffers")]
    CountDiffers { stated: u64, found: u64 },
    /// The header states that there is no node, and there is none.
    #[error("Empty")]
    Empty,
    /// Out of memory, whatever the text.
    #[error("OutOfMemory")]
    OutOfMemory,
}

impl From<AllocError> for SddFault {
    ghost use Rattle.sd_file.specs.declared.fault.SddFault.TheVariants.{OutOfMemory};

    ghost from_gives = { λ _ e. e ≡ OutOfMemory };

    fn from(_e: AllocError) -> SddFault {
        SddFault::OutOfMemory
    }
}

impl<T: Drop> From<AllocFailed<T>> for SddFault {
    ghost use Rattle.sd_file.specs.declared.fault.SddFault.TheVariants.{OutOfMemory};

    ghost from_gives = { λ _ e. e ≡ OutOfMemory };

    fn from(_e: AllocFailed<T>) -> SddFault {
        SddFault::OutOfMemory
    }
}
