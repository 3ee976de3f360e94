//! Runs over each proper front of a file.

use crate::case::{Case, Row};
use crate::compare::{tell_lacking, tell_status, tell_text};
use crate::trial::{Outcome, file_of, ran_over_front};
use std::alloc::{AllocError, Global};
use std::thread::Threads;

/// What differs over the first front at which something does; empty where all is as the rows say.
pub fn differences(
    rt: &(impl Threads + Sync),
    alloc: Global,
    case: &Case<'_>,
) -> Result<String, AllocError> {
    let mut told = String::new(alloc);
    let name = case.fronts.unwrap_or("");
    let Some(file) = file_of(&case.files, name) else {
        told.push_str("no such file")?;
        return Ok(told);
    };
    for count in 0..file.bytes.len() {
        let end = ran_over_front(rt, alloc, case, name, count)?;
        tell(alloc, &mut told, case, &end, line_at(&case.rows, count))?;
        if !told.is_empty() {
            write!(told, " at {count} bytes")?;
            return Ok(told);
        }
    }
    Ok(told)
}

// The line that comes after so many bytes.
fn line_at<'a>(rows: &[Row<'a>], count: usize) -> &'a str {
    for row in rows {
        if count <= row.to {
            return row.line;
        }
    }
    "no row"
}

// Tells what differs from the end with a line, or from a good end where there is none.
fn tell(
    alloc: Global,
    told: &mut String,
    case: &Case<'_>,
    end: &Outcome,
    line: &str,
) -> Result<(), AllocError> {
    if line.is_empty() {
        tell_status(told, end.status, 0)?;
        return tell_text(told, "err", end.err.bytes(), b"");
    }
    let wanted = format!(in alloc; "{line}\n")?;
    tell_status(told, end.status, case.status)?;
    tell_text(told, "out", end.out.bytes(), b"")?;
    tell_text(told, "err", end.err.bytes(), wanted.as_bytes())?;
    tell_lacking(told, case, end)
}
