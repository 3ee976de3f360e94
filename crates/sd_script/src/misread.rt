//! Why the words of a line are no command.

ghost use Rattle.std.specs.Prelude.{◌≡◌};

use std::alloc::{AllocError, AllocFailed};

/// Why there is no command, or no part of one.
#[derive(Clone, Copy)]
pub(crate) enum Misread {
    /// The words are too few, too many or of a wrong form.
    BadForm,
    /// Out of memory, whatever the words.
    OutOfMemory,
}

impl From<AllocError> for Misread {
    ghost use Rattle.sd_script.specs.declared.misread.Misread.TheVariants.{OutOfMemory};

    ghost from_gives = { λ _ e. e ≡ OutOfMemory };

    fn from(_e: AllocError) -> Misread {
        Misread::OutOfMemory
    }
}

impl<T: Drop> From<AllocFailed<T>> for Misread {
    ghost use Rattle.sd_script.specs.declared.misread.Misread.TheVariants.{OutOfMemory};

    ghost from_gives = { λ _ e. e ≡ OutOfMemory };

    fn from(_e: AllocFailed<T>) -> Misread {
        Misread::OutOfMemory
    }
}
