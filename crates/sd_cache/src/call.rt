// The key of an answer.
ghost use Rattle.std.specs.Prelude.{◌≡◌, ◌+◌, ◌*◌, ◌^◌, ◌<◌, ◌++◌};
ghost use Rattle.std.specs.Hash as fed;
ghost use Rattle.std.specs.Cmp.Rules.{comparing, hashing};
ghost use Rattle.std.proofs.Common.{rules};
ghost use Rattle.sd_cache.specs.Entries.{call, is_call};

use std::hash::{Hash, Hasher};
use std::marker::Model;

/// An operation at two numbers, in one epoch.
///
/// It is two words, and not four fields: a field that is stored narrow and then read in a wider
/// move makes the processor wait for all stores before it, which took most of a look-up's time.
#[derive(Drop)]
pub struct Call {
    // b * 2^32 + a
    arguments: u64,
    // epoch * 2^8 + operation
    occasion: u64,
}

impl Model for Call {
    ghost use Rattle.std.specs.Prelude.{◌/◌, ◌%◌};
    ghost use Rattle.sd_cache.specs.Entries.{Call as TheCall, call, call_code};

    ghost Value = { TheCall };

    ghost coded = { call_code };

    ghost view = { λ c. call (c.occasion / 256) (c.occasion % 256)
        (c.arguments % 4294967296) (c.arguments / 4294967296) };
}

impl Call {
    pub fn new(epoch: u64, operation: u8, a: u32, b: u32) -> Call
        requires { epoch < 2 ^ 56 }
        ensures { result ≡ call epoch operation a b }
    {
        Call {
            arguments: u64::from(b) * 0x1_0000_0000 + u64::from(a),
            occasion: epoch * 256 + u64::from(operation),
        }
    }
}

impl PartialEq for Call {
    ghost eq = { is_call };

    ghost laws = { Prim.search (comparing, rules) };

    fn eq(&self, other: &Call) -> bool {
        self.arguments == other.arguments && self.occasion == other.occasion
    }
}

impl Eq for Call {
    ghost laws = { Prim.search (comparing, rules) };
}

impl Hash for Call {
    ghost hash_input = { λ c. fed.u64 (c.b * 4294967296 + c.a)
        ++ fed.u64 (c.epoch * 256 + c.operation) };

    ghost respects_eq = { Prim.search (hashing, rules) };

    fn hash<H: Hasher>(&self, state: &mut H) {
        state.write_u64(self.arguments);
        state.write_u64(self.occasion);
    }
}
