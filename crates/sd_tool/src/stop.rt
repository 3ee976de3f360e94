// Why a run stops before its end, and the line that says so.
ghost use Rattle.std.specs.Prelude.{◌≡◌};
ghost use Rattle.sd_tool.specs.Parts.{line_text};
ghost use Rattle.sd_tool.specs.Stops.{stop_status, stop_text, is_full};

use crate::parts::{LineParts, alone, numbered, over_limit, plain};
use crate::refusal::Refusal;
use sd_base::Name;
use sd_manager::Manager;
use std::alloc::AllocError;

/// Why a run stops before its end.
#[derive(Drop)]
pub enum Stop {
    /// The words or a text are refused.
    Refused(Refusal),
    /// The named file was not read.
    ReadFault(Name),
    /// The named file was not written.
    WriteFault(Name),
    /// The line in hand was not printed.
    OutputFault,
    /// Memory ran out.
    OutOfMemory,
    /// The arena of the diagrams would have to hold so many elements.
    ArenaFull(u64),
    /// The vtree cannot be moved as the command of this line says.
    NotMovable(u32),
    /// The total size passes the limit, at the command of a line, or there at a group of the input.
    OverLimit {
        line: u32,
        group: Option<u32>,
        size: u32,
        limit: u32,
    },
}

/// How the commands of a run stop: why, and the manager whose arena was full, where it is not that of the run's state.
#[derive(Drop)]
pub struct Halt {
    /// Why.
    pub stop: Stop,
    /// The manager whose arena was full, where it is not that of the run's state.
    pub manager: Option<Manager>,
}

impl From<AllocError> for Stop {
    ghost use Rattle.std.specs.Prelude.{◌≡◌};
    ghost use Rattle.sd_tool.specs.declared.stop.Stop.TheVariants.{OutOfMemory};

    ghost from_gives = { λ _ e. e ≡ OutOfMemory };

    fn from(_e: AllocError) -> Stop {
        Stop::OutOfMemory
    }
}

impl Stop {
    /// The status that the program ends with.
    pub fn status(&self) -> u8
        ensures { result ≡ stop_status self.now }
    {
        match self {
            Stop::Refused(refusal) => refusal.status(),
            Stop::NotMovable(_) => 3,
            Stop::ReadFault(_) => 5,
            Stop::WriteFault(_) | Stop::OutputFault => 6,
            Stop::OutOfMemory => 7,
            Stop::ArenaFull(_) => 8,
            Stop::OverLimit { .. } => 4,
        }
    }

    /// Whether the arena of the diagrams was full.
    pub fn is_full(&self) -> bool
        ensures { result ≡ is_full self.now }
    {
        matches!(self, Stop::ArenaFull(_))
    }

    /// The text of the line.
    pub fn parts(&self) -> LineParts<'_>
        ensures { line_text result ≡ stop_text self.now }
    {
        match self {
            Stop::Refused(refusal) => alone(refusal.parts()),
            Stop::ReadFault(file) => alone(plain(file.as_str().as_bytes(), b": read fault")),
            Stop::WriteFault(file) => alone(plain(file.as_str().as_bytes(), b": write fault")),
            Stop::OutputFault => alone(plain(b"output", b": write fault")),
            Stop::OutOfMemory => alone(plain(b"out of memory", b"")),
            Stop::ArenaFull(elements) => alone(numbered(b"arena full: ", b"", *elements, b"")),
            Stop::NotMovable(line) => alone(numbered(
                b"line ",
                b"",
                u64::from(*line),
                b": not movable",
            )),
            Stop::OverLimit {
                line,
                group,
                size,
                limit,
            } => over_limit(*line, *group, *size, *limit),
        }
    }
}
