//! Where the groups of a part begin.
ghost use Rattle.std.specs.Prelude.{◌≡◌, ◌≤◌};
ghost use Rattle.sd_parts.specs.Parts.{part_begin};

/// How many of the groups stand before a part, counted from 0, of 1 to 64 parts. That before the number of parts is all
/// of them.
pub(crate) fn begin_of_part(groups: usize, count: usize, part: usize) -> usize
    requires groups { groups ≤ 1000000 }
    requires at_least_one { 1 ≤ count }
    requires at_most { count ≤ 64 }
    requires part { part ≤ count }
    ensures value { result ≡ part_begin groups count part }
    ensures within { result ≤ groups }
{
    part * groups / count
}
