// Formulas of short texts, and gates that do nothing.
use sd_formula::{Formula, Kind, read_dimacs};
use sd_parts::Open;
use std::alloc::{AllocError, Global};
use std::test::Fail;

/// `(1 and 2) or (3 and 4)`.
pub(crate) const DISJOINT: &str = "p dnf 4 2\n1 2 0\n3 4 0\n";

/// `(1 and 3) or (2 and 4)`.
pub(crate) const CROSSED: &str = "p dnf 4 2\n1 3 0\n2 4 0\n";

// The formula of a short text.
pub(crate) fn formula(alloc: Global, kind: Kind, text: &str) -> Result<Formula, Fail> {
    let bytes = text.as_bytes();
    if bytes.len() > 1000 {
        return Ok(read_dimacs(alloc, b"", kind)?);
    }
    Ok(read_dimacs(alloc, bytes, kind)?)
}

// So many gates that do nothing.
pub(crate) fn open_gates(alloc: Global, count: u32) -> Result<Vec<Open>, AllocError> {
    let mut gates = Vec::new(alloc);
    for _ in 0..count {
        gates.push(Open)?;
    }
    Ok(gates)
}
