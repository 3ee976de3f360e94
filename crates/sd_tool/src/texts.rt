// Files as texts: the bytes of a file, what they stand for, and the stop at what they are refused for.
ghost use Rattle.std.specs.Prelude.{◌≡◌, ◌⊎◌, ◌≤◌, ◌++◌, ℕ, List, Result, IfOk, MatchResult, codes, length};
ghost use Rattle.sd_base.specs.Asked.{Adds};
ghost use Rattle.sd_base.specs.Shelf.{NoFile};
ghost use Rattle.sd_tool.specs.Readings.{Point, Reads, reads};
ghost use Rattle.sd_tool.specs.Refusals.{refusal_answer};
ghost use Rattle.sd_tool.specs.inside.Readings.{Text};
ghost use Rattle.sd_tool.specs.Stops.{LeadsTo, GivesText, IsLongStop, IsShort, LeavesFinished, LeavesText};
ghost use Rattle.sd_tool.specs.declared.stop.Stop.TheVariants as stops;

use crate::refusal::Refusal;
use crate::stop::Stop;
use sd_base::{Bytes, Name, ReadError, Shelf, read_all};
use std::alloc::Global;

/// How the text of a file is read: what it stands for, and the status of its refusals.
pub trait Format {
    type Value;

    /// What contracts see of a value.
    ghost Seen: { Type 0 };

    ghost seen: { Self.Value → Seen };

    /// What a text stands for, or the text of its fault.
    ghost reading: { Self → List ℕ → Result Seen (List ℕ) };

    ghost status: { Self → ℕ };

    /// Its numbers are in the ranges that the reader asks for.
    ghost suits: { Self → Type 0 };

    /// What is known of each value.
    ghost holds: { Self → Self.Value → Type 0 };

    /// The value of the text of this file, or the stop at its first fault.
    fn parse(&self, alloc: Global, file: &str, bytes: &[u8]) -> Result<Self::Value, Stop>
        requires suits { suits self.now }
        requires short { length bytes.now ≤ 67108864 }
        ensures gives { GivesText seen (status self.now) file.now (reading self.now bytes.now) result }
        ensures holds { IfOk result (holds self.now) };

    /// The refusal of a file that is too long.
    fn too_long(&self, file: Name) -> Refusal
        ensures answer { refusal_answer result ≡ (status self.now, file ++ codes ": too long") }
        ensures status { (status self.now ≡ 2) ⊎ (status self.now ≡ 3) };
}

/// What a file stands for, in this format.
pub fn read<F: Shelf, T: Format>(
    alloc: Global,
    format: &T,
    file: &str,
    shelf: &mut F,
) -> Result<T::Value, Stop>
    requires hand { F.hand shelf.old ≡ NoFile }
    requires suits { T.suits format.now }
    ensures hand { F.hand shelf.new ≡ NoFile }
    ensures files { F.files shelf.new ≡ F.files shelf.old }
    ensures read_faults { F.read_faults shelf.old ≤ F.read_faults shelf.new }
    ensures write_faults { F.write_faults shelf.new ≡ F.write_faults shelf.old }
    ensures leads { (next : T.Seen → Point)
        → LeadsTo (Adds F.asked shelf.old shelf.new) (F.files shelf.old)
        (reads (T.status format.now) (T.reading format.now) file.now next)
        (λ value. next (T.seen value))
        result (F.read_faults shelf.old) (F.read_faults shelf.new) }
    ensures holds { IfOk result (T.holds format.now) }
    ensures finished { LeavesFinished result (F.unfinished shelf.old) (F.unfinished shelf.new) }
{
    match read_text(alloc, file, shelf) {
        Ok(Some(bytes)) => format.parse(alloc, file, bytes.as_slice()),
        Ok(None) => Err(long_stop(alloc, format, file)),
        Err(stop) => Err(stop),
    }
}

// The bytes of a file; none where it is too long.
fn read_text<F: Shelf>(alloc: Global, file: &str, shelf: &mut F) -> Result<Option<Bytes>, Stop>
    requires { F.hand shelf.old ≡ NoFile }
    ensures hand { F.hand shelf.new ≡ NoFile }
    ensures files { F.files shelf.new ≡ F.files shelf.old }
    ensures read_faults { F.read_faults shelf.old ≤ F.read_faults shelf.new }
    ensures write_faults { F.write_faults shelf.new ≡ F.write_faults shelf.old }
    ensures leads { (next : Text → Point)
        → LeadsTo (Adds F.asked shelf.old shelf.new) (F.files shelf.old)
        (Reads file.now next) next result (F.read_faults shelf.old) (F.read_faults shelf.new) }
    ensures fits { IfOk result IsShort }
    ensures finished { LeavesText file.now result
        (F.unfinished shelf.old) (F.unfinished shelf.new) }
{
    match read_all(alloc, shelf, file) {
        Ok(bytes) => Ok(Some(bytes)),
        Err(ReadError::TooLong) => Ok(None),
        Err(ReadError::OutOfMemory) => Err(Stop::OutOfMemory),
        Err(ReadError::ReadFault) => match Name::copy_of(alloc, file) {
            Ok(name) => Err(Stop::ReadFault(name)),
            Err(_) => Err(Stop::OutOfMemory),
        },
    }
}

/// A copy of the name of a file, for the refusal that tells it.
pub fn copy_of(alloc: Global, file: &str) -> Result<Name, Stop>
    ensures { MatchResult result (λ name. name ≡ file.now) (λ stop. stop ≡ stops.OutOfMemory) }
{
    match Name::copy_of(alloc, file) {
        Ok(name) => Ok(name),
        Err(_) => Err(Stop::OutOfMemory),
    }
}

// The stop at a file of this format that is too long.
fn long_stop<T: Format>(alloc: Global, format: &T, file: &str) -> Stop
    ensures { IsLongStop (T.status format.now) file.now result }
{
    match Name::copy_of(alloc, file) {
        Ok(name) => Stop::Refused(format.too_long(name)),
        Err(_) => Stop::OutOfMemory,
    }
}
