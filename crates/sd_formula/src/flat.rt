//! Groups that stand one after another in one list.

ghost use Rattle.std.specs.Prelude.{◌≡◌, ◌<◌, ◌≤◌, List, ℤ, length, map, slice_get, slice_range};
ghost use Rattle.std.specs.Prelude.{option_map, IfOk};
ghost use Rattle.std.specs.List.{AllByRecursion};
ghost use Rattle.sd_formula.specs.Flat.{AreEnds, start_at, cut, end_without};

use std::alloc::{AllocError, Global};

/// Where a group ends in a list of literals.
#[derive(Clone, Copy, Debug)]
pub(crate) struct End {
    /// How many literals stand up to its end.
    pub(crate) index: u32,
    /// Whether it begins with the mark of exclusive groups.
    pub(crate) exclusive: bool,
}

/// The literals of the group of a number, counted from 0, where the groups end so.
pub(crate) fn group_between<'a>(literals: &'a [i32], ends: &[End], index: usize) -> &'a [i32]
    requires rise { AreEnds 0 ends.now (length literals.now) }
    requires below { index < length ends.now }
    ensures { option_map (λ group. group.literals) (slice_get (cut 0 ends.now literals.now) index)
        ≡ Some result.now }
{
    &literals[start_of(ends, index)..ends[index].index as usize]
}

/// Whether the group of a number, counted from 0, begins with the mark of exclusive groups.
#[tactic(auto, using(crate::proofs::FlatLaws::mark_at))]
pub(crate) fn is_marked(ends: &[End], index: usize) -> bool
    requires { index < length ends.now }
    ensures { (literals : List ℤ) → option_map (λ group. group.exclusive)
        (slice_get (cut 0 ends.now literals) index)
        ≡ Some result }
{
    ends[index].exclusive
}

/// Where the group of a number begins, or would begin behind the others.
#[tactic(auto, using(crate::proofs::FlatLaws::start_is))]
pub(crate) fn start_of(ends: &[End], index: usize) -> usize
    requires { index ≤ length ends.now }
    ensures { result ≡ start_at 0 ends.now index }
{
    if index == 0 {
        0
    } else {
        ends[index - 1].index as usize
    }
}

/// The literals of the groups from a number up to another, where the groups end so.
pub(crate) fn literals_between<'a>(
    literals: &'a [i32],
    ends: &[End],
    from: usize,
    to: usize,
) -> &'a [i32]
    requires rise { AreEnds 0 ends.now (length literals.now) }
    requires order { from ≤ to }
    requires within { to ≤ length ends.now }
    ensures { result.now
        ≡ slice_range literals.now (start_at 0 ends.now from) (start_at 0 ends.now to) }
{
    &literals[start_of(ends, from)..start_of(ends, to)]
}

/// The ends, where so many literals are left out before them.
pub(crate) fn ends_without(
    alloc: Global,
    ends: &[End],
    before: usize,
) -> Result<Vec<End>, AllocError>
    requires { AllByRecursion (λ end. before ≤ end.index) ends.now }
    ensures { IfOk result (λ moved. moved.items ≡ map (end_without before) ends.now) }
{
    let mut moved = Vec::with_capacity(alloc, ends.len())?;
    for end in ends {
        moved.push(End {
            index: (end.index as usize - before) as u32,
            exclusive: end.exclusive,
        })?;
    }
    Ok(moved)
}
