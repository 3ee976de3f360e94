//! A run of the tool over a shelf and sinks in memory. No function here has a contract, so that a case sees what a run
//! left, and none of the clauses on runs.

use crate::case::Case;
use crate::text::{Text, front};
use sd_base::{Bytes, MemoryShelf, MemorySink, Name, NamedBytes};
use sd_tool::run;
use std::alloc::{AllocError, Global};
use std::thread::Threads;

/// What a run left: its status, the files, and what stands on `out` and `err`.
#[derive(Drop)]
pub struct Outcome {
    pub status: u8,
    pub files: MemoryShelf,
    pub out: MemorySink,
    pub err: MemorySink,
}

/// Runs a case.
pub fn ran(
    rt: &(impl Threads + Sync),
    alloc: Global,
    case: &Case<'_>,
) -> Result<Outcome, AllocError> {
    ran_over(rt, alloc, case, copies(alloc, &case.files)?)
}

/// Runs a case over a front of the named file, beside the others.
pub fn ran_over_front(
    rt: &(impl Threads + Sync),
    alloc: Global,
    case: &Case<'_>,
    name: &str,
    count: usize,
) -> Result<Outcome, AllocError> {
    let mut files = copies(alloc, &case.files)?;
    if let Some(text) = file_of(&case.files, name) {
        files.insert(0, copy(alloc, name, front(&text.bytes, count))?)?;
    }
    ran_over(rt, alloc, case, files)
}

/// The first file of this name.
pub fn file_of<'b, 'a>(files: &'b [Text<'a>], name: &str) -> Option<&'b Text<'a>> {
    files.iter().find(|file| file.name == name)
}

// Runs the words of a case over these files.
fn ran_over(
    rt: &(impl Threads + Sync),
    alloc: Global,
    case: &Case<'_>,
    files: Vec<NamedBytes>,
) -> Result<Outcome, AllocError> {
    let planned = case.faults.to_vec(alloc)?;
    let mut files = MemoryShelf::new(alloc, files, case.piece.max(1), planned);
    let mut out = MemorySink::new(alloc, case.out_faults.to_vec(alloc)?);
    let mut err = MemorySink::new(alloc, case.err_faults.to_vec(alloc)?);
    let words = &case.words;
    let status = run(rt, alloc, words, &mut files, &mut out, &mut err, &mut None);
    Ok(Outcome {
        status,
        files,
        out,
        err,
    })
}

// A file with this name and a copy of these bytes.
fn copy(alloc: Global, name: &str, bytes: &[u8]) -> Result<NamedBytes, AllocError> {
    Ok(NamedBytes {
        name: Name::copy_of(alloc, name)?,
        bytes: Bytes::new(bytes.to_vec(alloc)?),
    })
}

// Copies of files.
fn copies(alloc: Global, files: &[Text<'_>]) -> Result<Vec<NamedBytes>, AllocError> {
    let mut copied = Vec::new(alloc);
    for file in files {
        copied.push(copy(alloc, file.name, &file.bytes)?)?;
    }
    Ok(copied)
}
