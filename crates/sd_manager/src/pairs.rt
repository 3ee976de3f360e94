//! Lists of pairs of codes: sorted, and trimmed.

ghost use Rattle.std.specs.Prelude.{◌≡◌, ◌<◌, ℕ, length, OnOk, IsTrue};
ghost use Rattle.std.specs.List.Sorted.{IsPermutation, IsSorted};
ghost use Rattle.std.specs.Ordering.{nat_cmp, ordering_then};
ghost use Rattle.sd_laws.specs.Trimming.{trim_of, trim_two};

use crate::node_id::NodeId;
use std::alloc::AllocError;

// Fills the list with the pairs, by ascending codes of the primes.
pub(crate) fn sort_into(
    list: &mut Vec<(u32, u32)>,
    elements: &[(NodeId, NodeId)],
) -> Result<(), AllocError>
    ensures permutation { OnOk result (IsPermutation elements.now list.new.items) }
    ensures sorted { OnOk result
        (IsSorted (λ (x y : ℕ × ℕ). ordering_then (nat_cmp x.0 y.0) (nat_cmp x.1 y.1))
        list.new.items) }
{
    if replace_two(list, elements) {
        return Ok(());
    }
    list.clear();
    list.reserve(elements.len())?;
    for element in elements {
        list.push((element.0.0, element.1.0))?;
    }
    sort(list);
    Ok(())
}

// Writes two pairs that ascend over a list of two, and answers whether these are such. Most lists are, and need no
// sort.
fn replace_two(list: &mut Vec<(u32, u32)>, elements: &[(NodeId, NodeId)]) -> bool
    ensures same { IsTrue result → (list.new.items ≡ elements.now) }
    ensures sorted { IsTrue result →
        IsSorted (λ (x y : ℕ × ℕ). ordering_then (nat_cmp x.0 y.0) (nat_cmp x.1 y.1)) list.new.items }
{
    let [first, second] = elements else {
        return false;
    };
    if list.len() != 2 || first.0.0 >= second.0.0 {
        return false;
    }
    list[0] = (first.0.0, first.1.0);
    list[1] = (second.0.0, second.1.0);
    true
}

// Puts the pairs into ascending order, with no sort where the primes ascend already.
fn sort(list: &mut Vec<(u32, u32)>)
    ensures permutation { IsPermutation list.old.items list.new.items }
    ensures sorted { IsSorted (λ (x y : ℕ × ℕ). ordering_then (nat_cmp x.0 y.0) (nat_cmp x.1 y.1))
        list.new.items }
{
    if primes_ascend(list.as_slice()) {
        return;
    }
    list.sort_unstable();
}

// Whether the code of each prime is greater than the one before it.
fn primes_ascend(list: &[(u32, u32)]) -> bool
    ensures { IsTrue result →
        IsSorted (λ (x y : ℕ × ℕ). ordering_then (nat_cmp x.0 y.0) (nat_cmp x.1 y.1)) list.now }
{
    for i in 1..list.len() {
        let (before, _) = list[i - 1];
        let (prime, _) = list[i];
        if prime <= before {
            return false;
        }
    }
    true
}

// The code that a list is trimmed to: of its only sub, or of the prime whose sub is true where the other is false.
pub(crate) fn trimmed(list: &[(u32, u32)]) -> Option<u32>
    ensures { result ≡ trim_of list.now }
{
    match list {
        [(_, sub)] => Some(*sub),
        [first, second] => trimmed_pair(*first, *second),
        _ => None,
    }
}

// The same of a list of two pairs.
pub(crate) fn trimmed_pair(first: (u32, u32), second: (u32, u32)) -> Option<u32>
    ensures { result ≡ trim_two first second }
{
    if first.1 == 1 && second.1 == 0 {
        Some(first.0)
    } else if first.1 == 0 && second.1 == 1 {
        Some(second.0)
    } else {
        None
    }
}
