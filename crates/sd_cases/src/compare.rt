//! What a run left, compared with what its case expects.

use crate::case::Case;
use crate::text::show;
use crate::trial::{Outcome, ran};
use std::alloc::{AllocError, Global};
use std::str::from_utf8;
use std::thread::Threads;

/// What differs where a case is run; empty where all is as expected.
pub fn differences(
    rt: &(impl Threads + Sync),
    alloc: Global,
    case: &Case<'_>,
) -> Result<String, AllocError> {
    let end = ran(rt, alloc, case)?;
    let mut told = String::new(alloc);
    tell_status(&mut told, end.status, case.status)?;
    tell_out(&mut told, case, end.out.bytes())?;
    tell_text(&mut told, "err", end.err.bytes(), &case.err)?;
    tell_held(&mut told, case, &end)?;
    tell_lacking(&mut told, case, &end)?;
    tell_equal(&mut told, case, &end)?;
    tell_unchanged(&mut told, case, &end)?;
    if !case.again.is_empty() {
        let second = ran(rt, alloc, case)?;
        tell_again(&mut told, case, &end, &second)?;
    }
    Ok(told)
}

// Begins to tell a further difference.
fn begin(told: &mut String) -> Result<(), AllocError> {
    if told.is_empty() {
        return Ok(());
    }
    told.push_str(", ")
}

/// Tells a status that is not the expected one.
pub fn tell_status(told: &mut String, found: u8, wanted: u8) -> Result<(), AllocError> {
    if found == wanted {
        return Ok(());
    }
    begin(told)?;
    write!(told, "status {found} for {wanted}")
}

/// Tells a text that is not the expected one.
pub fn tell_text(
    told: &mut String,
    name: &str,
    found: &[u8],
    wanted: &[u8],
) -> Result<(), AllocError> {
    if found == wanted {
        return Ok(());
    }
    tell(told, name, Some(found))
}

// Tells what stands somewhere.
fn tell(told: &mut String, name: &str, found: Option<&[u8]>) -> Result<(), AllocError> {
    begin(told)?;
    told.push_str(name)?;
    match found {
        Some(bytes) => {
            told.push(' ')?;
            show(told, bytes)
        }
        None => told.push_str(" is not there"),
    }
}

// The same of a file.
fn tell_file(told: &mut String, name: &str, found: Option<&[u8]>) -> Result<(), AllocError> {
    begin(told)?;
    told.push_str("file ")?;
    told.push_str(name)?;
    match found {
        Some(bytes) => {
            told.push(' ')?;
            show(told, bytes)
        }
        None => told.push_str(" is not there"),
    }
}

// The number of a line `size K`.
fn size_of(line: &[u8]) -> Option<u64> {
    let text = from_utf8(line).ok()?;
    text.strip_prefix("size ")?
        .strip_suffix('\n')?
        .parse::<u64>()
        .ok()
}

// Tells an `out` that is not the expected one.
fn tell_out(told: &mut String, case: &Case<'_>, found: &[u8]) -> Result<(), AllocError> {
    let Some(below) = case.below else {
        return tell_text(told, "out", found, &case.out);
    };
    let rest = found.strip_prefix(case.out.as_slice()).unwrap_or(b"");
    match size_of(rest) {
        Some(size) if size < below => Ok(()),
        _ => tell(told, "out", Some(found)),
    }
}

// Tells the files that do not hold what they should.
fn tell_held(told: &mut String, case: &Case<'_>, end: &Outcome) -> Result<(), AllocError> {
    for file in &case.held {
        let found = end.files.bytes_of(file.name);
        if found != Some(file.bytes.as_slice()) {
            tell_file(told, file.name, found)?;
        }
    }
    Ok(())
}

/// Tells the files that should not be there.
pub fn tell_lacking(told: &mut String, case: &Case<'_>, end: &Outcome) -> Result<(), AllocError> {
    for name in &case.lacking {
        let found = end.files.bytes_of(name);
        if found.is_some() {
            tell_file(told, name, found)?;
        }
    }
    Ok(())
}

// Tells the first of two files that should hold the same.
fn tell_equal(told: &mut String, case: &Case<'_>, end: &Outcome) -> Result<(), AllocError> {
    for (name, other) in &case.equal {
        let found = end.files.bytes_of(name);
        if found.is_none() || found != end.files.bytes_of(other) {
            tell_file(told, name, found)?;
        }
    }
    Ok(())
}

// Tells the files that are not as they were.
fn tell_unchanged(told: &mut String, case: &Case<'_>, end: &Outcome) -> Result<(), AllocError> {
    if !case.unchanged {
        return Ok(());
    }
    for file in &case.files {
        let found = end.files.bytes_of(file.name);
        if found != Some(file.bytes.as_slice()) {
            tell_file(told, file.name, found)?;
        }
    }
    Ok(())
}

// Tells what a second run left otherwise.
fn tell_again(
    told: &mut String,
    case: &Case<'_>,
    end: &Outcome,
    second: &Outcome,
) -> Result<(), AllocError> {
    tell_status(told, second.status, end.status)?;
    tell_text(told, "out", second.out.bytes(), end.out.bytes())?;
    tell_text(told, "err", second.err.bytes(), end.err.bytes())?;
    for name in &case.again {
        let found = second.files.bytes_of(name);
        if found.is_none() || found != end.files.bytes_of(name) {
            tell_file(told, name, found)?;
        }
    }
    Ok(())
}
