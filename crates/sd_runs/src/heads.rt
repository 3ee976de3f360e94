// Where the free runs of each length begin.
ghost use Rattle.std.specs.Prelude.{◌<◌, vec_len, OnOk};
ghost use Rattle.sd_runs.specs.Padded.{IsPadded};

use std::alloc::AllocError;

/// Stands where no run is free: a start is less.
pub(crate) const NONE: u32 = u32::MAX;

/// Makes places for lengths, of which no run is free, until this length has one.
pub(crate) fn make_heads(heads: &mut Vec<u32>, length: usize) -> Result<(), AllocError>
    ensures padded { IsPadded heads.old.items heads.new.items }
    ensures enough { OnOk result (length < vec_len heads.new) }
{
    while heads.len() <= length {
        heads.push(NONE)?;
    }
    Ok(())
}
