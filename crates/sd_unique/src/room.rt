// Room for one more record, which is made before anything is written.
ghost use Rattle.std.specs.Prelude.{◌≡◌, ◌+◌, ◌<◌, ◌≤◌, OnOk};
ghost use Rattle.std.specs.Prelude.{vec_len, vec_capacity};
ghost use Rattle.sd_unique.specs.Candidates.{HasRoom};

use crate::record::{Links, Record};
use crate::stack::Candidates;
use std::alloc::AllocError;

// Makes room for one more record and its hash, for the links of all records then, since `list_places` takes no
// memory, and for one more candidate.
pub(crate) fn make_room(
    records: &mut Vec<Record>,
    hashes: &mut Vec<u32>,
    links: &mut Vec<Links>,
    candidates: &mut Candidates,
) -> Result<(), AllocError>
    ensures records { records.new.items ≡ records.old.items }
    ensures hashes { hashes.new.items ≡ hashes.old.items }
    ensures links { links.new.items ≡ links.old.items }
    ensures candidates { candidates.new.0 ≡ candidates.old.0 }
    ensures capacity { vec_capacity links.old ≤ vec_capacity links.new }
    ensures room { OnOk result ((vec_len records.new < vec_capacity records.new)
        × (vec_len hashes.new < vec_capacity hashes.new)
        × (vec_len records.new < vec_capacity links.new) × HasRoom candidates.new) }
{
    records.reserve(1)?;
    hashes.reserve(1)?;
    let more = (records.len() + 1).saturating_sub(links.len());
    links.reserve(more)?;
    candidates.reserve()
}
