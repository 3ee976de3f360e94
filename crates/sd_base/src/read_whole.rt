//! Whole files, read from a shelf.

ghost use Rattle.std.specs.Prelude.{◌≡◌, ◌⊎◌, ◌≤◌, ◌+◌, ℕ, List, [], length, OnOk, IfOk, IsErrOf};
ghost use Rattle.std.specs.Prelude.{◌∷◌};
ghost use Rattle.sd_base.specs.Asked.{Adds, ToRead};
ghost use Rattle.sd_base.specs.Faults.{Rose};
ghost use Rattle.sd_base.specs.Files.{HasBytes, HasLonger, IsTold, Lacks};
ghost use Rattle.sd_base.specs.Shelf.{NoFile, Reading};
ghost use Rattle.sd_base.specs.WholeFile.{IsReadingOf, IsLeftUnfinished};
ghost use Rattle.sd_base.specs.WholeFile.{IsHeldAfter, IsPlacedAfter};

use crate::{Bytes, Shelf};
use std::alloc::Global;

/// The length of the longest file that is read, in bytes.
pub const LONGEST_FILE: usize = 67_108_864;

// The bytes that one `read` asks for at most.
const CHUNK: usize = 4096;

/// Why a whole file was not read.
#[derive(Clone, Copy, Debug, PartialEq, Eq)]
pub enum ReadError {
    /// The shelf failed, or tells that there is no such file.
    ReadFault,
    /// The file has more than `LONGEST_FILE` bytes.
    TooLong,
    OutOfMemory,
}

/// Reads the whole file of this name, and leaves no file in hand.
/// A byte past the limit makes it too long: no more is read then. There, and where memory runs out,
/// a fault of `finish` changes nothing.
pub fn read_all<F: Shelf>(alloc: Global, shelf: &mut F, name: &str) -> Result<Bytes, ReadError>
    requires { F.hand shelf.old ≡ NoFile }
    ensures hand { F.hand shelf.new ≡ NoFile }
    ensures files { F.files shelf.new ≡ F.files shelf.old }
    ensures ok { IfOk result (λ bytes. HasBytes (F.files shelf.old) name.now bytes) }
    ensures within { IfOk result (λ bytes. length bytes ≤ LONGEST_FILE) }

    // A fault only where the shelf has failed in this call, or tells that there is no such file.
    ensures fault { IsErrOf result ReadError.ReadFault
        → Lacks (F.files shelf.old) name.now
        ⊎ Rose (F.read_faults shelf.old) (F.read_faults shelf.new) }
    ensures too_long { IsErrOf result ReadError.TooLong
        → HasLonger (F.files shelf.old) name.now LONGEST_FILE }

    // Where the file is told and nothing failed, its length decides.
    ensures complete { (bytes : List ℕ) → IsTold (F.files shelf.old) name.now bytes
        → IsReadingOf bytes LONGEST_FILE result
        ⊎ Rose (F.read_faults shelf.old) (F.read_faults shelf.new) }

    // A fault that was counted is answered, but where memory ran out, or where the `finish` of a file that is too long
    // failed.
    ensures answered { OnOk result (F.read_faults shelf.new ≡ F.read_faults shelf.old) }
    ensures passed_over { IsErrOf result ReadError.TooLong
        → (F.read_faults shelf.new ≡ F.read_faults shelf.old)
        ⊎ (F.unfinished shelf.new ≡ Reading name.now (LONGEST_FILE + 1)) }

    // A `finish` that failed changes nothing, but where the whole file was read.
    ensures unfinished { IsLeftUnfinished (F.files shelf.old) name.now LONGEST_FILE result
        (F.unfinished shelf.old) (F.unfinished shelf.new) }
    ensures read_faults { F.read_faults shelf.old ≤ F.read_faults shelf.new }
    ensures write_faults { F.write_faults shelf.new ≡ F.write_faults shelf.old }
    ensures asked { Adds F.asked shelf.old shelf.new (ToRead name.now ∷ []) }
{
    let mut bytes = Vec::new(alloc);
    match take_in(shelf, name, &mut bytes) {
        Ok(()) => match shelf.finish() {
            Ok(()) => Ok(Bytes::new(bytes)),
            Err(_) => Err(ReadError::ReadFault),
        },
        Err(ReadError::ReadFault) => Err(ReadError::ReadFault),
        Err(error) => {
            let _ = shelf.finish();
            Err(error)
        }
    }
}

// Takes the named file into the hand and reads its bytes, up to one past the limit.
// The file stays in hand, but not after a fault.
fn take_in<F: Shelf>(shelf: &mut F, name: &str, bytes: &mut Vec<u8>) -> Result<(), ReadError>
    requires free { F.hand shelf.old ≡ NoFile }
    requires empty { bytes.old.items ≡ [] }
    ensures hand { IsHeldAfter result (F.hand shelf.new) }
    ensures position { IsPlacedAfter name.now LONGEST_FILE bytes.new.items result
        (F.hand shelf.new) }
    ensures unfinished { F.unfinished shelf.new ≡ F.unfinished shelf.old }
    ensures files { F.files shelf.new ≡ F.files shelf.old }
    ensures ok { OnOk result (HasBytes (F.files shelf.old) name.now bytes.new.items) }
    ensures within { OnOk result (length bytes.new.items ≤ LONGEST_FILE) }
    ensures fault { IsErrOf result ReadError.ReadFault
        → Lacks (F.files shelf.old) name.now
        ⊎ Rose (F.read_faults shelf.old) (F.read_faults shelf.new) }
    ensures too_long { IsErrOf result ReadError.TooLong
        → HasLonger (F.files shelf.old) name.now LONGEST_FILE }
    ensures answered { OnOk result (F.read_faults shelf.new ≡ F.read_faults shelf.old) }
    ensures answered_long { IsErrOf result ReadError.TooLong
        → F.read_faults shelf.new ≡ F.read_faults shelf.old }
    ensures read_faults { F.read_faults shelf.old ≤ F.read_faults shelf.new }
    ensures write_faults { F.write_faults shelf.new ≡ F.write_faults shelf.old }
    ensures asked { Adds F.asked shelf.old shelf.new (ToRead name.now ∷ []) }
{
    if shelf.start_read(name).is_err() {
        return Err(ReadError::ReadFault);
    }
    let mut chunk = [0u8; CHUNK];
    'reading: while bytes.len() <= LONGEST_FILE {
        let room = CHUNK.min(LONGEST_FILE + 1 - bytes.len());
        let count = match shelf.read(&mut chunk[..room]) {
            Ok(count) => count,
            Err(_) => return Err(ReadError::ReadFault),
        };
        if count == 0 {
            return Ok(());
        }
        if bytes.extend_from_slice(&chunk[..count]).is_err() {
            return Err(ReadError::OutOfMemory);
        }
    }
    Err(ReadError::TooLong)
}
