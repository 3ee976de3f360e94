//! The lines of a file of cases.
//!
//! A line that begins with `#` is a comment, and blank lines part nothing. A case begins with `case NAME`, or with
//! `differs NAME` where an expectation is wrong on purpose: the case has to be told as different. What is run:
//!
//! - `words W W ..` and `word TEXT`: the words of the command line, parted by one space; one more word as it stands.
//! - `file NAME`: a file that is there before the run; its text lines follow.
//! - `piece N`: how many bytes of a file are written at once (32).
//! - `fail KIND N`: the Nth call of a kind fails: `start_read`, `read`, `start_write`, `append` or `finish`.
//! - `fail_out N`, `fail_err N`: the Nth write of `out` or `err` fails.
//!
//! What it has to come to:
//!
//! - `status N` (0); `out` and `err`: their texts, empty where nothing follows or the line is absent.
//! - `below N`: behind the text of `out` comes a last line `size K`, with K below N.
//! - `holds NAME`: a file with its bytes behind the run; `lacks NAME`: no such file; `equal NAME OTHER`: two files with
//!   the same bytes; `unchanged`: each file is as it was before.
//! - `again NAME`: the file is there, and a second run gives the same status, `out` and `err`, and leaves it the same.
//! - `fronts NAME`: a run for each proper front of the text of that file. Rows `to COUNT LINE` follow: for fronts of up
//!   to COUNT bytes the run ends with the case's status and that line on `err`, prints nothing, and writes none of the
//!   files that the case lacks; with no LINE it ends with 0 and nothing on `err`. Nothing else is looked at.
//!
//! Text lines belong to the `file`, `out`, `err` or `holds` above them, or to a named text for later ones, which
//! `text NAME` begins: `|TEXT` ends with a line feed, `:TEXT` does not, `*COUNT TEXT` is the text so many times, and
//! `=NAME` a named text, `=NAME COUNT` its first COUNT bytes. In them `\xHH` is a byte and `\\` a backslash.

use crate::case::Case;
use crate::text::{Text, front, written};
use std::alloc::{AllocError, Global};
use std::mem;

// What text lines belong to.
#[derive(Clone, Copy)]
enum Place {
    Nothing,
    Named,
    File,
    Out,
    Err,
    Held,
}

/// The case in hand and the texts that were named.
#[derive(Drop)]
pub struct Reader<'a> {
    alloc: Global,
    texts: Vec<Text<'a>>,
    case: Option<Case<'a>>,
    place: Place,
}

/// Whether a line ends the case before it.
pub fn begins(line: &str) -> bool {
    matches!(split(line).0, "case" | "differs" | "text")
}

// The first word of a line and the rest behind one space.
fn split<'a>(line: &'a str) -> (&'a str, &'a str) {
    line.split_once(' ').unwrap_or((line, ""))
}

impl<'a> Reader<'a> {
    /// No case in hand.
    pub fn new(alloc: Global) -> Reader<'a> {
        Reader {
            alloc,
            texts: Vec::new(alloc),
            case: None,
            place: Place::Nothing,
        }
    }

    /// The case in hand, and none afterwards.
    pub fn take_case(&mut self) -> Option<Case<'a>> {
        mem::replace(&mut self.case, None)
    }

    /// Takes the next line; false where it is not understood.
    pub fn read_line(&mut self, line: &'a str) -> Result<bool, AllocError> {
        if line.is_empty() || line.starts_with('#') {
            return Ok(true);
        }
        if let Some(text) = line.strip_prefix('|') {
            return self.add(text, 1, b"\n");
        }
        if let Some(text) = line.strip_prefix(':') {
            return self.add(text, 1, b"");
        }
        if let Some(rest) = line.strip_prefix('*') {
            let (count, text) = split(rest);
            return match count.parse::<usize>() {
                Ok(count) => self.add(text, count, b""),
                Err(_) => Ok(false),
            };
        }
        if let Some(rest) = line.strip_prefix('=') {
            return self.add_named(rest);
        }
        let (word, rest) = split(line);
        self.read_word(word, rest)
    }

    // Takes a line that is no text line.
    fn read_word(&mut self, word: &'a str, rest: &'a str) -> Result<bool, AllocError> {
        if self.begin(word, rest)? {
            return Ok(true);
        }
        let Some(case) = &mut self.case else {
            return Ok(false);
        };
        self.place = match word {
            "file" => Place::File,
            "holds" => Place::Held,
            "out" => Place::Out,
            "err" => Place::Err,
            _ => Place::Nothing,
        };
        match self.place {
            Place::File => case.files.push(Text::new(self.alloc, rest))?,
            Place::Held => case.held.push(Text::new(self.alloc, rest))?,
            Place::Nothing => return case.read(self.alloc, word, rest),
            _ => {}
        }
        Ok(true)
    }

    // Begins a case or a named text; false at another word.
    fn begin(&mut self, word: &str, rest: &'a str) -> Result<bool, AllocError> {
        self.place = Place::Nothing;
        match word {
            "case" | "differs" => {
                self.case = Some(Case::new(self.alloc, rest, word == "differs"));
            }
            "text" => {
                self.texts.push(Text::new(self.alloc, rest))?;
                self.place = Place::Named;
            }
            _ => return Ok(false),
        }
        Ok(true)
    }

    // Puts a text so many times and an end behind the bytes of the place in hand.
    fn add(&mut self, text: &str, count: usize, end: &[u8]) -> Result<bool, AllocError> {
        let Some(piece) = written(self.alloc, text)? else {
            return Ok(false);
        };
        let Some(bytes) = self.bytes() else {
            return Ok(false);
        };
        for _ in 0..count {
            bytes.extend_from_slice(&piece)?;
        }
        bytes.extend_from_slice(end)?;
        Ok(true)
    }

    // Puts a named text, or its first bytes, behind the bytes of the place in hand.
    fn add_named(&mut self, rest: &str) -> Result<bool, AllocError> {
        let (name, count) = split(rest);
        let count = count.parse::<usize>().unwrap_or(usize::MAX);
        let Some(text) = self.texts.iter().find(|text| text.name == name) else {
            return Ok(false);
        };
        let piece = front(&text.bytes, count).to_vec(self.alloc)?;
        let Some(bytes) = self.bytes() else {
            return Ok(false);
        };
        bytes.extend_from_slice(&piece)?;
        Ok(true)
    }

    // The bytes that text lines are put behind.
    fn bytes(&mut self) -> Option<&mut Vec<u8>> {
        if let Place::Named = self.place {
            let text = self.texts.last_mut()?;
            return Some(&mut text.bytes);
        }
        let case = self.case.as_mut()?;
        match self.place {
            Place::Out => Some(&mut case.out),
            Place::Err => Some(&mut case.err),
            Place::File => {
                let file = case.files.last_mut()?;
                Some(&mut file.bytes)
            }
            Place::Held => {
                let file = case.held.last_mut()?;
                Some(&mut file.bytes)
            }
            Place::Named | Place::Nothing => None,
        }
    }
}
