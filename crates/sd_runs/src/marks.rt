// The mark of each element.
ghost use Rattle.std.specs.Prelude.{◌≡◌};
ghost use Rattle.sd_runs.specs.Fields.{free_mark as mark_of_free};

/// No run starts here.
pub(crate) const NO_START: u8 = 0;

/// A run starts here: a live one, or a free one that is not of two elements.
pub(crate) const START: u8 = 1;

/// A free run of two elements starts here.
pub(crate) const FREE_TWO: u8 = 2;

// The mark of a free run of this length.
#[inline(always)]
pub(crate) fn free_mark(length: u32) -> u8
    ensures { result ≡ mark_of_free length }
{
    if length == 2 { FREE_TWO } else { START }
}
