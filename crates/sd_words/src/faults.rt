//! Why words stand for no job.
ghost use Rattle.std.specs.Prelude.{◌≡◌};
ghost use Rattle.sd_words.specs.declared.faults.WordsFault.TheVariants.{OutOfMemory};

use crate::options::OptionName;
use sd_base::Name;
use std::alloc::{AllocError, AllocFailed};
use thiserror::Error;

/// Why words stand for no job, in the order of the tests: where several hold, it is the first.
#[derive(Debug, Drop, Error)]
pub enum WordsFault {
    /// `clap` refuses the words: an unknown option, one that stands twice, a missing value, or a
    /// word that is no option and no value.
    #[error("Usage")]
    Usage,
    /// None of `--cnf`, `--dnf`, `--generate`, `--aag` and `--check` is there.
    #[error("NoInput")]
    NoInput,
    /// More than one of them is there.
    #[error("TwoInputs")]
    TwoInputs,
    /// Both `--vtree` and `--start` are there.
    #[error("TwoVtrees")]
    TwoVtrees,
    /// The value is not a number of one to ten digits in the option's range; or that of
    /// `--generate` is not two such numbers, joined by a colon.
    #[error("NumberRange")]
    NumberRange { option: OptionName },
    /// `--script` is there with `--out-vtree`, `--out-sdd` or `--minimise`.
    #[error("WithScript")]
    WithScript { option: OptionName },
    /// `--out-vtree` and `--out-sdd` name the same file.
    #[error("FileTwice")]
    FileTwice { name: Name },
    /// The value of `--start` is not `balanced`, `right` or `left`.
    #[error("StartUnknown")]
    StartUnknown,
    /// The option's value is the name of a file, and empty.
    #[error("EmptyName")]
    EmptyName { option: OptionName },
    /// `--workers` is there without `--parts` and without `--portfolio`.
    #[error("WorkersAlone")]
    WorkersAlone,
    /// `--parts` is there with `--script` or `--every`.
    #[error("WithParts")]
    WithParts { option: OptionName },
    /// `--portfolio` is there with `--vtree`, `--start`, `--script`, `--every` or `--parts`.
    #[error("WithPortfolio")]
    WithPortfolio { option: OptionName },
    /// `--aag` is there with `--every`, `--parts` or `--portfolio`.
    #[error("WithAag")]
    WithAag { option: OptionName },
    /// `--check` is there with an option other than `--vtree`.
    #[error("WithCheck")]
    WithCheck { option: OptionName },
    /// `--check` is there without `--vtree`.
    #[error("NoVtree")]
    NoVtree,
    /// It may come at any words.
    #[error("OutOfMemory")]
    OutOfMemory,
}

impl<T: Drop> From<AllocFailed<T>> for WordsFault {
    ghost from_gives = { λ _ fault. fault ≡ OutOfMemory };

    fn from(_refused: AllocFailed<T>) -> WordsFault {
        WordsFault::OutOfMemory
    }
}

impl From<AllocError> for WordsFault {
    ghost from_gives = { λ _ fault. fault ≡ OutOfMemory };

    fn from(_refused: AllocError) -> WordsFault {
        WordsFault::OutOfMemory
    }
}
