//! Why a text is no vtree file.

ghost use Rattle.std.specs.Prelude.{◌≡◌};

use std::alloc::{AllocError, AllocFailed};
use thiserror::Error;

/// The first fault of a text, or that memory ran out. Lines are counted from 1, over all lines of the text.
#[derive(Clone, Copy, Debug, PartialEq, Eq, Error)]
pub enum VtreeFault {
    /// No line counts, or the first that does is not `vtree` and a number.
    #[error("NoHeader")]
    NoHeader,
    /// A line is neither `L id variable` nor `I id left right`.
    #[error("BadLine")]
    BadLine { line: u32 },
    /// An earlier line has the line's id.
    #[error("IdTwice")]
    IdTwice { line: u32 },
    /// A child is the id of no earlier line.
    #[error("ChildUnknown")]
    ChildUnknown { line: u32 },
    /// The two children are one node, or one of them is a child of an earlier line.
    #[error("ChildTwice")]
    ChildTwice { line: u32 },
    /// The variable is not in range, or an earlier leaf has it.
    #[error("VariableWrong")]
    VariableWrong { line: u32 },
    /// The number of node lines is not the one that the header states.
    #[error("CountDiffers")]
    CountDiffers { stated: u64, found: u64 },
    /// Not exactly one node is a root.
    #[error("NotOneRoot")]
    NotOneRoot { roots: u64 },
    /// No leaf has this variable; it is the least such one.
    #[error("VariableMissing")]
    VariableMissing { variable: u32 },
    /// The number of nodes in the header is no vtree's: a vtree over 1 to 1,024 variables has an odd number of nodes,
    /// 2047 at most. Only `count_variables` tests for this.
    #[error("NodesRange")]
    NodesRange { found: u64 },
    /// Out of memory, whatever the text.
    #[error("OutOfMemory")]
    OutOfMemory,
}

impl From<AllocError> for VtreeFault {
    ghost use Rattle.sd_vfile.specs.declared.fault.VtreeFault.TheVariants.{OutOfMemory};

    ghost from_gives = { λ _ e. e ≡ OutOfMemory };

    fn from(_e: AllocError) -> VtreeFault {
        VtreeFault::OutOfMemory
    }
}

impl<T: Drop> From<AllocFailed<T>> for VtreeFault {
    ghost use Rattle.sd_vfile.specs.declared.fault.VtreeFault.TheVariants.{OutOfMemory};

    ghost from_gives = { λ _ e. e ≡ OutOfMemory };

    fn from(_e: AllocFailed<T>) -> VtreeFault {
        VtreeFault::OutOfMemory
    }
}
