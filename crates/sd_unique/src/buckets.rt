// The heads of the chains.
ghost use Rattle.std.specs.Prelude.{◌≡◌, ℕ, length, replicate, IfOk};
ghost use Rattle.sd_unique.specs.Chains.{head_of, no_record};

use crate::record::NO_RECORD;
use std::alloc::{AllocError, Global};

// Heads of so many empty chains.
pub(crate) fn empty_heads(alloc: Global, count: usize) -> Result<Vec<u32>, AllocError>
    ensures { IfOk result (λ heads. heads.items ≡ replicate count no_record) }
{
    vec![in alloc; NO_RECORD; count]
}

// Empties all chains.
pub(crate) fn empty_chains(heads: &mut [u32])
    ensures size { length heads.new ≡ length heads.old }
    ensures empty { (b : ℕ) → head_of heads.new b ≡ no_record }
{
    heads.fill(NO_RECORD);
}
