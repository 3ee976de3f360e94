// The hash of a key, and the bucket of a hash.
//
// All bits of a hash are mixed, so that keys which follow a pattern spread over all buckets; the multipliers are fixed,
// so keys chosen against them may still share one. Nodes that are made one after another do not stand near each other
// so. A hash that keeps them near, by the greatest child, lets all nodes over one child share a part of the buckets,
// and the time for these grows with the square of their number.
ghost use Rattle.std.specs.Prelude.{◌≡◌, ◌<◌, ℕ, List};
ghost use Rattle.sd_unique.specs.Chains.{bucket_of, hash_of, mixed};

// The hash of a place and a list.
#[inline(always)]
pub(crate) fn hash(place: u32, list: &[(u32, u32)]) -> u32
    ensures { result ≡ hash_of (place, list.now) }
{
    let mut hash = u64::from(place);
    for pair in list {
        hash = mix(hash, pair.0, pair.1);
    }
    (hash >> 32) as u32
}

// The bucket of a key of this hash among so many.
#[inline(always)]
pub(crate) fn bucket_at(hash: u32, count: usize) -> usize
    requires { 0 < count }
    ensures is { (key : ℕ × List (ℕ × ℕ)) → hash ≡ hash_of key → result ≡ bucket_of key count }
    ensures inside { result < count }
{
    hash as usize & (count - 1)
}

// The hash with one more pair in it. The numbers of the pair are read one by one: one word of both
// would wait for the stores of a pair that was just made.
#[inline(always)]
#[tactic(auto, unfolding(crate::specs::Chains::mixed))]
fn mix(hash: u64, first: u32, second: u32) -> u64
    ensures { result ≡ mixed hash (first, second) }
{
    hash.wrapping_mul(0x9E37_79B9_7F4A_7C15)
        .wrapping_add(u64::from(first).wrapping_mul(0xA076_1D64_78BD_642F))
        .wrapping_add(u64::from(second).wrapping_mul(0xD6E8_FEB8_6659_FD93))
}
