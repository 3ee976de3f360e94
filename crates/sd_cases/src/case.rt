//! A case: what is run, and what it has to come to.

use crate::text::Text;
use sd_base::{PlannedFault, ShelfCall};
use std::alloc::{AllocError, Global};

/// How many bytes an `append` takes where a case says nothing of it.
const PIECE: usize = 32;

/// Up to so many bytes a front of the file ends with this line on `err`; without a fault where it is empty.
#[derive(Clone, Copy)]
pub struct Row<'a> {
    pub to: usize,
    pub line: &'a str,
}

/// A case as the lines of a file give it.
#[derive(Drop)]
pub struct Case<'a> {
    pub name: &'a str,
    /// Whether an expectation is wrong on purpose.
    pub differs: bool,
    pub words: Vec<String>,
    pub files: Vec<Text<'a>>,
    /// How many bytes an `append` takes at most.
    pub piece: usize,
    pub faults: Vec<PlannedFault>,
    /// The numbers of the writes of `out` that fail.
    pub out_faults: Vec<u64>,
    /// The same of `err`.
    pub err_faults: Vec<u64>,
    pub status: u8,
    pub out: Vec<u8>,
    /// Behind the text of `out` comes a line of a size below this number.
    pub below: Option<u64>,
    pub err: Vec<u8>,
    /// The files that are there behind the run, with their bytes.
    pub held: Vec<Text<'a>>,
    pub lacking: Vec<&'a str>,
    /// Pairs of files that hold the same bytes behind the run.
    pub equal: Vec<(&'a str, &'a str)>,
    /// Whether each file is as it was.
    pub unchanged: bool,
    /// The files that a second run leaves as the first.
    pub again: Vec<&'a str>,
    /// The file of which each proper front is run.
    pub fronts: Option<&'a str>,
    pub rows: Vec<Row<'a>>,
}

impl<'a> Case<'a> {
    /// A case of this name that runs no words over no files, and has to end well and print nothing.
    pub fn new(alloc: Global, name: &'a str, differs: bool) -> Case<'a> {
        Case {
            name,
            differs,
            words: Vec::new(alloc),
            files: Vec::new(alloc),
            piece: PIECE,
            faults: Vec::new(alloc),
            out_faults: Vec::new(alloc),
            err_faults: Vec::new(alloc),
            status: 0,
            out: Vec::new(alloc),
            below: None,
            err: Vec::new(alloc),
            held: Vec::new(alloc),
            lacking: Vec::new(alloc),
            equal: Vec::new(alloc),
            unchanged: false,
            again: Vec::new(alloc),
            fronts: None,
            rows: Vec::new(alloc),
        }
    }

    /// Takes a line, as its first word and the rest, that says what is run or what that comes to; false for any other.
    pub fn read(&mut self, alloc: Global, word: &str, rest: &'a str) -> Result<bool, AllocError> {
        Ok(self.read_run(alloc, word, rest)? || self.read_end(word, rest)?)
    }

    // Takes a line that says what is run.
    fn read_run(&mut self, alloc: Global, word: &str, rest: &str) -> Result<bool, AllocError> {
        match word {
            "words" => {
                for word in rest.split(' ') {
                    self.words.push(String::from_str(alloc, word)?)?;
                }
                Ok(true)
            }
            "word" => {
                self.words.push(String::from_str(alloc, rest)?)?;
                Ok(true)
            }
            "piece" => Ok(set(&mut self.piece, rest.parse::<usize>().ok())),
            "fail" => put(&mut self.faults, fault_of(rest)),
            "fail_out" => put(&mut self.out_faults, rest.parse::<u64>().ok()),
            "fail_err" => put(&mut self.err_faults, rest.parse::<u64>().ok()),
            _ => Ok(false),
        }
    }

    // Takes a line that says what the run comes to.
    fn read_end(&mut self, word: &str, rest: &'a str) -> Result<bool, AllocError> {
        match word {
            "status" => Ok(set(&mut self.status, rest.parse::<u8>().ok())),
            "below" => {
                self.below = rest.parse::<u64>().ok();
                Ok(self.below.is_some())
            }
            "lacks" => put(&mut self.lacking, Some(rest)),
            "equal" => put(&mut self.equal, rest.split_once(' ')),
            "again" => put(&mut self.again, Some(rest)),
            "unchanged" => Ok(set(&mut self.unchanged, Some(true))),
            "fronts" => Ok(set(&mut self.fronts, Some(Some(rest)))),
            "to" => put(&mut self.rows, row_of(rest)),
            _ => Ok(false),
        }
    }
}

// Puts what was read behind the others; false where nothing was.
fn put<T: Drop>(into: &mut Vec<T>, read: Option<T>) -> Result<bool, AllocError> {
    match read {
        Some(value) => {
            into.push(value)?;
            Ok(true)
        }
        None => Ok(false),
    }
}

// Sets what was read; false where nothing was.
fn set<T: Drop>(place: &mut T, read: Option<T>) -> bool {
    match read {
        Some(value) => {
            *place = value;
            true
        }
        None => false,
    }
}

// The planned fault of a kind of call and its number.
fn fault_of(rest: &str) -> Option<PlannedFault> {
    let (kind, number) = rest.split_once(' ')?;
    let call = match kind {
        "start_read" => ShelfCall::StartRead,
        "read" => ShelfCall::Read,
        "start_write" => ShelfCall::StartWrite,
        "append" => ShelfCall::Append,
        "finish" => ShelfCall::Finish,
        _ => return None,
    };
    let nth = number.parse::<u64>().ok()?;
    Some(PlannedFault { call, nth })
}

// The row of a count of bytes and the line that may follow.
fn row_of<'a>(rest: &'a str) -> Option<Row<'a>> {
    let (count, line) = rest.split_once(' ').unwrap_or((rest, ""));
    let to = count.parse::<usize>().ok()?;
    Some(Row { to, line })
}
