// Reading and writing that a signal may interrupt.
ghost use Rattle.std.specs.Prelude.{◌≤◌, ◌<◌, length, IfSome};

use std::io::{ErrorKind, Read, Write};

/// How often a call that a signal interrupted is made.
const TRIES: u32 = 100;

/// Reads once, and again where the call was interrupted.
pub fn read_some<R: Read>(reader: &mut R, into: &mut [u8]) -> Option<usize>
    ensures { IfSome result (λ count. count ≤ length into.new) }
{
    for _ in 0..TRIES {
        match reader.read(into) {
            Ok(count) => return Some(count),
            Err(error) if error.kind() == ErrorKind::Interrupted => {}
            Err(_) => return None,
        }
    }
    None
}

/// Writes once, and again where the call was interrupted; a write of nothing is a failure.
pub fn write_some<W: Write>(writer: &mut W, piece: &[u8]) -> Option<usize>
    ensures some { IfSome result (λ count. 0 < count) }
    ensures within { IfSome result (λ count. count ≤ length piece.now) }
{
    for _ in 0..TRIES {
        match writer.write(piece) {
            Ok(0) => return None,
            Ok(count) => return Some(count),
            Err(error) if error.kind() == ErrorKind::Interrupted => {}
            Err(_) => return None,
        }
    }
    None
}
