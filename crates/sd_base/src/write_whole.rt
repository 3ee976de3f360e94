//! Whole texts, written to a file of a shelf or to a sink.

ghost use Rattle.std.specs.Prelude.{◌≡◌, ◌⊎◌, ◌≤◌, [], ◌∷◌, OnOk, OnErr};
ghost use Rattle.sd_base.specs.Asked.{Adds, ToWrite};
ghost use Rattle.sd_base.specs.Faults.{Rose};
ghost use Rattle.sd_base.specs.Files.{told_with, WritesPart};
ghost use Rattle.sd_base.specs.Shelf.{NoFile, Writing};
ghost use Rattle.sd_base.specs.Sink.{told_then, AppendsPart};

use crate::{Shelf, Sink};

/// The answer of a write that failed.
#[derive(Clone, Copy, Debug, PartialEq, Eq)]
pub struct WriteFault;

/// Writes these bytes as the named file, and leaves no file in hand.
/// After a fault the file is unchanged or holds a prefix of them.
pub fn write_all_to<F: Shelf>(shelf: &mut F, name: &str, bytes: &[u8]) -> Result<(), WriteFault>
    requires { F.hand shelf.old ≡ NoFile }
    ensures hand { F.hand shelf.new ≡ NoFile }
    ensures ok { OnOk result (
        F.files shelf.new ≡ told_with (F.files shelf.old) name.now bytes.now) }
    ensures err { OnErr result (
        WritesPart (F.files shelf.old) name.now bytes.now (F.files shelf.new)) }
    ensures cause { OnErr result (Rose (F.write_faults shelf.old) (F.write_faults shelf.new)) }

    // Where anything failed, `finish` too, that is answered.
    ensures answered { OnOk result (F.write_faults shelf.new ≡ F.write_faults shelf.old) }
    ensures finished { OnOk result (F.unfinished shelf.new ≡ F.unfinished shelf.old) }
    ensures unfinished { OnErr result (
        (F.unfinished shelf.new ≡ F.unfinished shelf.old)
        ⊎ (F.unfinished shelf.new ≡ Writing name.now)) }
    ensures write_faults { F.write_faults shelf.old ≤ F.write_faults shelf.new }
    ensures read_faults { F.read_faults shelf.new ≡ F.read_faults shelf.old }
    ensures asked { Adds F.asked shelf.old shelf.new (ToWrite name.now ∷ []) }
{
    if shelf.start_write(name).is_err() {
        return Err(WriteFault);
    }
    let mut rest = bytes;
    while !rest.is_empty() {
        match shelf.append(rest) {
            Ok(count) => rest = &rest[count..],
            Err(_) => return Err(WriteFault),
        }
    }
    match shelf.finish() {
        Ok(()) => Ok(()),
        Err(_) => Err(WriteFault),
    }
}

/// Writes these bytes to the sink. After a fault a prefix of them was written.
pub fn write_all<S: Sink>(sink: &mut S, bytes: &[u8]) -> Result<(), WriteFault>
    ensures ok { OnOk result (S.written sink.new ≡ told_then (S.written sink.old) bytes.now) }
    ensures err { OnErr result (AppendsPart (S.written sink.old) bytes.now (S.written sink.new)) }
    ensures cause { OnErr result (Rose (S.faults sink.old) (S.faults sink.new)) }
    ensures answered { OnOk result (S.faults sink.new ≡ S.faults sink.old) }
    ensures faults { S.faults sink.old ≤ S.faults sink.new }
{
    let mut left = bytes;
    while !left.is_empty() {
        match sink.write(left) {
            Ok(count) => left = &left[count..],
            Err(_) => return Err(WriteFault),
        }
    }
    Ok(())
}
