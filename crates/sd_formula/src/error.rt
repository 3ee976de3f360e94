//! Why a text is no formula.

ghost use Rattle.std.specs.Prelude.{◌≡◌};

use std::alloc::{AllocError, AllocFailed};
use thiserror::Error;

/// The first fault of a text, or that memory ran out. Lines are counted from 1, over all lines.
///
/// The header is tested first, in the order of the first four variants. Then the words of the body
/// are tested one after another, each for `BadWord` and then for `LiteralRange`. At the end the
/// groups are tested for `Unterminated` and then for `CountDiffers`.
#[derive(Clone, Copy, Debug, PartialEq, Eq, Error)]
pub enum FormulaError {
    /// Each line is blank or a comment, or the first word of the first other line is not `p`.
    #[error("NoHeader")]
    NoHeader,
    /// The header is not `p`, the word of the kind and two naturals.
    #[error("BadHeader")]
    BadHeader { line: u32 },
    /// The stated number of variables is not 1 to 1,024.
    #[error("VariablesRange")]
    VariablesRange { found: u64 },
    /// The header states more than 1,000,000 groups.
    #[error("TooManyGroups")]
    TooManyGroups { stated: u64 },
    /// A word of the body is neither an integer nor a mark, or a mark is not the first word of a group of a CNF.
    #[error("BadWord")]
    BadWord { line: u32 },
    /// A literal is of no variable of the formula.
    #[error("LiteralRange")]
    LiteralRange { line: u32, literal: i64 },
    /// A mark or literals stand after the last zero.
    #[error("Unterminated")]
    Unterminated,
    /// The number of groups is not the one that the header states.
    #[error("CountDiffers")]
    CountDiffers { stated: u64, found: u64 },
    /// Out of memory, whatever the text.
    #[error("OutOfMemory")]
    OutOfMemory,
}

impl From<AllocError> for FormulaError {
    ghost use Rattle.sd_formula.specs.declared.error.FormulaError.TheVariants.{OutOfMemory};

    ghost from_gives = { λ _ e. e ≡ OutOfMemory };

    fn from(_e: AllocError) -> FormulaError {
        FormulaError::OutOfMemory
    }
}

impl<T: Drop> From<AllocFailed<T>> for FormulaError {
    ghost use Rattle.sd_formula.specs.declared.error.FormulaError.TheVariants.{OutOfMemory};

    ghost from_gives = { λ _ e. e ≡ OutOfMemory };

    fn from(_e: AllocFailed<T>) -> FormulaError {
        FormulaError::OutOfMemory
    }
}
