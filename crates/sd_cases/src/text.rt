//! Bytes with a name, and how text lines write them and printed lines show them.

use std::alloc::{AllocError, Global};

/// How many bytes of a text a printed line shows.
const SHOWN: usize = 200;

/// A named text: a file, or a part that others begin with.
#[derive(Drop)]
pub struct Text<'a> {
    pub name: &'a str,
    pub bytes: Vec<u8>,
}

impl<'a> Text<'a> {
    /// An empty text of this name.
    pub fn new(alloc: Global, name: &'a str) -> Text<'a> {
        Text {
            name,
            bytes: Vec::new(alloc),
        }
    }
}

/// The first bytes of a text; all where it has fewer.
pub fn front(bytes: &[u8], count: usize) -> &[u8] {
    bytes.get(..count).unwrap_or(bytes)
}

// What was read of a byte that is written as `\xHH`, or of a backslash.
#[derive(Clone, Copy)]
enum Escape {
    Nothing,
    Backslash,
    High,
    Low(u8),
}

// The value of a hexadecimal digit.
fn digit(byte: u8) -> Option<u8> {
    match byte {
        b'0'..=b'9' => Some(byte - b'0'),
        b'a'..=b'f' => Some(byte - b'a' + 10),
        _ => None,
    }
}

// Takes the next byte of a written text; none where it may not stand there.
fn next(escape: Escape, byte: u8, into: &mut Vec<u8>) -> Result<Option<Escape>, AllocError> {
    match escape {
        Escape::Nothing if byte == b'\\' => Ok(Some(Escape::Backslash)),
        Escape::Backslash if byte == b'x' => Ok(Some(Escape::High)),
        Escape::Backslash if byte != b'\\' => Ok(None),
        Escape::Nothing | Escape::Backslash => {
            into.push(byte)?;
            Ok(Some(Escape::Nothing))
        }
        Escape::High => Ok(digit(byte).map(Escape::Low)),
        Escape::Low(high) => {
            let Some(low) = digit(byte) else {
                return Ok(None);
            };
            into.push((high << 4) | low)?;
            Ok(Some(Escape::Nothing))
        }
    }
}

/// The bytes that a text line writes, in which `\xHH` is a byte and `\\` a backslash; none where another form stands.
pub fn written(alloc: Global, text: &str) -> Result<Option<Vec<u8>>, AllocError> {
    let mut bytes = Vec::new(alloc);
    let mut escape = Escape::Nothing;
    for byte in text.as_bytes() {
        match next(escape, *byte, &mut bytes)? {
            Some(then) => escape = then,
            None => return Ok(None),
        }
    }
    Ok(match escape {
        Escape::Nothing => Some(bytes),
        _ => None,
    })
}

/// Shows the first bytes of a text, between quotation marks.
pub fn show(told: &mut String, bytes: &[u8]) -> Result<(), AllocError> {
    told.push('"')?;
    for byte in front(bytes, SHOWN) {
        match *byte {
            b'\n' => told.push_str("\\n")?,
            b'\\' => told.push_str("\\\\")?,
            b' '..=b'~' => told.push(char::from(*byte))?,
            other => write!(told, "\\x{other:02x}")?,
        }
    }
    told.push_str(if bytes.len() > SHOWN { "\" .." } else { "\"" })
}
