// What is kept for a number.
ghost use Rattle.std.specs.Prelude.{◌≡◌, ◌<◌, ◌≤◌, length, vec_capacity, OnOk};
ghost use Rattle.sd_counts.specs.Queued.{blank, with_blanks};

use std::alloc::AllocError;

// So many numbers have room once there is one. That takes addresses, and memory as they are written.
const FIRST_COUNTS: usize = 65_536;

/// How often a number is used by what is counted, and whether it is counted itself.
#[derive(Clone, Copy, Drop)]
pub(crate) struct Count {
    /// How often roots and the lists of counted numbers use the number.
    pub(crate) live: u64,
    /// The number that follows on the stack, while this number is queued.
    pub(crate) next: u32,
    /// Whether the uses of its list and its length are counted.
    pub(crate) is_counted: bool,
    /// Whether it stands on a stack: on that of those that may rise where it is not counted, and else
    /// on that of those that may fall.
    pub(crate) is_queued: bool,
}

/// Ends a stack: no number is that great.
pub(crate) const NO_NUMBER: u32 = u32::MAX;

impl Count {
    // Of a number that is not counted and not used.
    pub(crate) fn new() -> Count
        ensures { result ≡ blank }
    {
        Count {
            live: 0,
            next: 0,
            is_counted: false,
            is_queued: false,
        }
    }
}

/// Sees to it that there is room for what is kept for this number, and writes nothing. Where there is no memory for
/// that nothing is changed.
pub(crate) fn make_room(counts: &mut Vec<Count>, number: u32) -> Result<(), AllocError>
    ensures same { counts.new.items ≡ counts.old.items }
    ensures room { OnOk result (number < vec_capacity counts.new) }
    ensures more { vec_capacity counts.old ≤ vec_capacity counts.new }
{
    if (number as usize) < counts.capacity() {
        return Ok(());
    }
    let room = FIRST_COUNTS.max(number as usize + 1);
    counts.reserve(room.saturating_sub(counts.len()))?;
    Ok(())
}

/// Writes what is kept for the numbers below `size` that were not written. There is room for it, so it takes no memory.
pub(crate) fn fill(counts: &mut Vec<Count>, size: u32)
    requires inside { length counts.old.items ≤ size }
    requires room { size ≤ vec_capacity counts.old }
    ensures filled { counts.new.items ≡ with_blanks counts.old.items size }
    ensures room { vec_capacity counts.old ≤ vec_capacity counts.new }
{
    if counts.len() < size as usize {
        let _ = counts.resize(size as usize, Count::new());
    }
}
