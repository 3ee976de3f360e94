//! Whether two subs of a node are one node.

ghost use Rattle.std.specs.Prelude.{◌≡◌, ◌≢◌, ℕ, ◌+◌, ◌<◌, true, false, length, map, slice_index, IfOk};
ghost use Rattle.std.specs.List.Sorted.{IsPermutation, IsSorted};
ghost use Rattle.std.specs.Ordering.{nat_cmp};
ghost use Rattle.sd_check.specs.Judging.{TellsTwins};

use sd_manager::NodeId;
use std::alloc::{AllocError, Global};

/// Whether two subs are one node: of two elements by one comparison, and of more by a sorted copy of their codes.
pub(crate) fn have_twins(alloc: Global, elements: &[(NodeId, NodeId)]) -> Result<bool, AllocError>
    ensures { IfOk result (λ b. TellsTwins b (map (λ e. e.1) elements.now)) }
{
    if elements.len() == 2 {
        return Ok(are_twins(elements));
    }
    let mut codes = codes_of(alloc, elements)?;
    sort(&mut codes);
    Ok(has_equal_neighbours(&codes))
}

/// Whether the subs of two elements are one node.
fn are_twins(elements: &[(NodeId, NodeId)]) -> bool
    requires { length elements.now ≡ 2 }
    ensures { TellsTwins result (map (λ e. e.1) elements.now) }
{
    let one = elements[0].1;
    let other = elements[1].1;
    one.0 == other.0
}

/// Puts numbers into ascending order.
fn sort(codes: &mut Vec<u32>)
    ensures permutation { IsPermutation codes.old.items codes.new.items }
    ensures sorted { IsSorted nat_cmp codes.new.items }
{
    codes.sort_unstable();
}

/// The codes of the subs.
fn codes_of(alloc: Global, elements: &[(NodeId, NodeId)]) -> Result<Vec<u32>, AllocError>
    ensures { IfOk result (λ v. v.items ≡ map (λ e. e.1) elements.now) }
{
    let mut codes = Vec::new(alloc);
    codes.reserve(elements.len())?;
    for element in elements {
        codes.push(element.1.0)?;
    }
    Ok(codes)
}

/// Whether a number is the one behind it.
fn has_equal_neighbours(codes: &[u32]) -> bool
    ensures found { result ≡ true → (k : ℕ) × (k + 1 < length codes.now)
        × (slice_index codes.now k ≡ slice_index codes.now (k + 1)) }
    ensures none { result ≡ false → (k : ℕ) → k + 1 < length codes.now
        → slice_index codes.now k ≢ slice_index codes.now (k + 1) }
{
    for i in 1..codes.len() {
        let before = codes[i - 1];
        let own = codes[i];
        if before == own {
            return true;
        }
    }
    false
}
