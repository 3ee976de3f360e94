// Writing over elements, and behind them.
ghost use Rattle.std.specs.Prelude.{◌≡◌, ◌≤◌, ◌+◌, ◌++◌, length, OnOk, OnErr};
ghost use Rattle.sd_runs.specs.Written.{put};

use std::alloc::AllocError;

// So many elements have room once there is one. That takes addresses, and memory as they are made; in
// exchange no element of a smaller arena is ever copied.
const FIRST_ELEMENTS: usize = 65_536;

// Writes a list over the elements from a start on. Two of them need no copy of a length that is known
// late.
#[inline(always)]
pub(crate) fn write(elements: &mut [(u32, u32)], start: usize, list: &[(u32, u32)])
    requires { start + length list.now ≤ length elements.old }
    ensures { elements.new ≡ put start elements.old list.now }
{
    if let [first, second] = list {
        elements[start] = *first;
        elements[start + 1] = *second;
    } else {
        elements[start..start + list.len()].copy_from_slice(list);
    }
}

/// Adds a list of pairs at the end. Where there is no memory for that nothing is changed.
pub(crate) fn extend(elements: &mut Vec<(u32, u32)>, list: &[(u32, u32)]) -> Result<(), AllocError>
    ensures items { OnOk result (elements.new.items ≡ elements.old.items ++ list.now) }
    ensures same { OnErr result (elements.new.items ≡ elements.old.items) }
{
    if elements.is_empty() {
        elements.reserve(FIRST_ELEMENTS)?;
    }
    elements.extend_from_slice(list)
}
