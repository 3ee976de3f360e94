// Two lists of elements, with those apart that have one prime in both.
ghost use Rattle.std.specs.Prelude.{◌≡◌, ℕ, IfOk, IfErr};
ghost use Rattle.sd_apply.specs.Matching.{AreMatched};

use sd_manager::NodeId;
use sd_runs::TakeError;
use std::alloc::Global;

/// Two lists of elements, each in two parts. They are on the heap, so that a level of an operation takes little of the
/// stack.
#[derive(Drop)]
pub(crate) struct Matched {
    /// The elements of the first list whose primes are in the second too.
    pub(crate) first: Vec<(NodeId, NodeId)>,
    /// The elements of the second list with these primes.
    pub(crate) second: Vec<(NodeId, NodeId)>,
    /// What is left of the first list.
    pub(crate) first_rest: Vec<(NodeId, NodeId)>,
    /// What is left of the second list.
    pub(crate) second_rest: Vec<(NodeId, NodeId)>,
}

/// Finds the primes of both lists in one walk, where both ascend by their primes; else fewer of
/// them.
pub(crate) fn match_primes(
    alloc: Global,
    first: &[(NodeId, NodeId)],
    second: &[(NodeId, NodeId)],
) -> Result<Matched, TakeError>
    ensures ok { IfOk result (λ r. AreMatched first.now second.now r.first.items r.second.items
        r.first_rest.items r.second_rest.items) }
    ensures err { IfErr result (λ e. e ≡ TakeError.OutOfMemory) }
{
    let mut ones = Vec::new(alloc);
    let mut others = Vec::new(alloc);
    let mut first_rest = Vec::new(alloc);
    let mut second_rest = Vec::new(alloc);
    let mut i = 0;
    let mut j = 0;
    while i < first.len() && j < second.len() {
        let (prime, sub) = first[i];
        let (other, value) = second[j];
        if prime.0 == other.0 {
            let Ok(()) = ones.push((prime, sub)) else {
                return Err(TakeError::OutOfMemory);
            };
            let Ok(()) = others.push((other, value)) else {
                return Err(TakeError::OutOfMemory);
            };
            i += 1;
            j += 1;
        } else if prime.0 < other.0 {
            let Ok(()) = first_rest.push((prime, sub)) else {
                return Err(TakeError::OutOfMemory);
            };
            i += 1;
        } else {
            let Ok(()) = second_rest.push((other, value)) else {
                return Err(TakeError::OutOfMemory);
            };
            j += 1;
        }
    }
    let Ok(()) = first_rest.extend_from_slice(&first[i..]) else {
        return Err(TakeError::OutOfMemory);
    };
    let Ok(()) = second_rest.extend_from_slice(&second[j..]) else {
        return Err(TakeError::OutOfMemory);
    };
    Ok(Matched {
        first: ones,
        second: others,
        first_rest,
        second_rest,
    })
}
