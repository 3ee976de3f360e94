// How a test ends: the formats of all failures stand here once, so that a test is a call of one of these.
use std::test::Fail;

// The end of a test that has to find these numbers.
pub(crate) fn are_numbers(found: &[Option<u32>], wanted: &[Option<u32>]) -> Result<(), Fail> {
    if found == wanted {
        return Ok(());
    }
    Err(Fail::new(format_args!("{found:?}, not {wanted:?}")))
}

// The end of a test of several things, each of which has to be so.
pub(crate) fn are_so(found: &[bool]) -> Result<(), Fail> {
    if found.contains(&false) {
        return Err(Fail::new(format_args!("so or not so: {found:?}")));
    }
    Ok(())
}
