//! Insert, look up and merge, on the bytes of a filter.

ghost use Rattle.std.specs.Prelude.{◌≡◌, ◌↔◌, ◌+◌, ◌*◌, ◌/◌, ◌≤◌, IsTrue, MatchResult, length};
ghost use Rattle.sketch_bloom.specs.Filter.{Inserts, IsLength, IsLengthFault, IsMember, IsMergeFault, Merges, block_of, hash_of};

use crate::block::{block_start, mask};
use crate::fault::Fault;
use datasketches::hash::Hash;
use std::simd::prelude::*;

/// Whether a filter can have this many bytes: a positive multiple of 32 below 2^37.
#[inline(always)]
#[tactic(auto, using(crate::proofs::BlockLemmas::rotated))]
pub fn is_length(bytes: usize) -> bool
    ensures { IsTrue result ↔ IsLength bytes }
{
    // The rotation puts the remainder by 32 above all numbers of blocks, and 0 - 1 wraps to the
    // largest number. With three comparisons a call with a hash took 1.1 to 1.4 times as long.
    bytes.rotate_right(5).wrapping_sub(1) < (1 << 32) - 1
}

// Returns an error if no filter has this many bytes.
#[inline(always)]
pub(crate) fn check_length(bytes: usize) -> Result<(), Fault>
    ensures { MatchResult result (λ _. IsLength bytes) (IsLengthFault bytes) }
{
    if is_length(bytes) {
        Ok(())
    } else {
        Err(Fault::Length(bytes))
    }
}

/// Inserts a value.
///
/// # Errors
///
/// Returns [`Fault::Length`] if the length of `filter` is not a positive multiple of 32 below 2^37.
/// The filter is then unchanged.
#[inline(always)]
pub fn insert<T: Hash>(filter: &mut [u8], value: &T) -> Result<(), Fault>
    ensures { MatchResult result
        (λ _. IsLength (length filter.old)
        × Inserts (hash_of (T.fed value.now)) filter.old filter.new)
        (λ fault. (filter.new ≡ filter.old) × IsLengthFault (length filter.old) fault) }
{
    insert_hash(filter, value.xxh64(0))
}

/// Whether the filter may contain a value. If not, it was never inserted.
///
/// # Errors
///
/// Returns [`Fault::Length`] if the length of `filter` is not a positive multiple of 32 below 2^37.
#[inline(always)]
pub fn contains<T: Hash>(filter: &[u8], value: &T) -> Result<bool, Fault>
    ensures { MatchResult result
        (λ found. IsLength (length filter.now)
        × (IsTrue found ↔ IsMember filter.now (hash_of (T.fed value.now))))
        (IsLengthFault (length filter.now)) }
{
    contains_hash(filter, value.xxh64(0))
}

/// Inserts a value by its hash: XXH64 with seed 0 of its bytes.
///
/// # Errors
///
/// Returns [`Fault::Length`] if the length of `filter` is not a positive multiple of 32 below 2^37.
/// The filter is then unchanged.
#[inline(always)]
pub fn insert_hash(filter: &mut [u8], hash: u64) -> Result<(), Fault>
    ensures { MatchResult result
        (λ _. IsLength (length filter.old) × Inserts hash filter.old filter.new)
        (λ fault. (filter.new ≡ filter.old) × IsLengthFault (length filter.old) fault) }
{
    check_length(filter.len())?;
    insert_into(filter, hash);
    Ok(())
}

/// Whether the filter may contain the value with this hash: XXH64 with seed 0 of its bytes.
///
/// # Errors
///
/// Returns [`Fault::Length`] if the length of `filter` is not a positive multiple of 32 below 2^37.
#[inline(always)]
pub fn contains_hash(filter: &[u8], hash: u64) -> Result<bool, Fault>
    ensures { MatchResult result
        (λ found. IsLength (length filter.now) × (IsTrue found ↔ IsMember filter.now hash))
        (IsLengthFault (length filter.now)) }
{
    check_length(filter.len())?;
    Ok(is_in(filter, hash))
}

/// The offset of the block of a hash in a filter of this many bytes. The block's 32 bytes, as a
/// filter of one block, contain the hash exactly if the filter does: [`crate::laws::block_law`].
///
/// # Errors
///
/// Returns [`Fault::Length`] if `bytes` is not a positive multiple of 32 below 2^37.
pub fn block_offset(bytes: usize, hash: u64) -> Result<usize, Fault>
    ensures { MatchResult result
        (λ offset. IsLength bytes × (offset ≡ 32 * block_of (bytes / 32) hash)
        × (offset + 32 ≤ bytes))
        (IsLengthFault bytes) }
{
    check_length(bytes)?;
    Ok(block_start(bytes, hash))
}

// Sets the eight bits of a hash.
#[inline(always)]
#[tactic(auto, using(crate::proofs::BlockLemmas::inserted))]
pub(crate) fn insert_into(filter: &mut [u8], hash: u64)
    requires { IsLength (length filter.old) }
    ensures { Inserts hash filter.old filter.new }
{
    let start = block_start(filter.len(), hash);
    let block = u8x32::from_slice(&filter[start..]);
    (block | mask(hash)).copy_to_slice(&mut filter[start..]);
}

// Whether the eight bits of a hash are set.
#[inline(always)]
#[tactic(auto, using(crate::proofs::BlockLemmas::for_is_in))]
pub(crate) fn is_in(filter: &[u8], hash: u64) -> bool
    requires { IsLength (length filter.now) }
    ensures { IsTrue result ↔ IsMember filter.now hash }
{
    let start = block_start(filter.len(), hash);
    let block = u8x32::from_slice(&filter[start..]);
    // All eight are set if setting them changes nothing.
    ((block | mask(hash)) ^ block).reduce_or() == 0
}

/// Merges the filter `from` into the filter `into`, which then contains what either did.
///
/// # Errors
///
/// Returns [`Fault::Length`] if the length of `into` is not a positive multiple of 32 below 2^37.
/// Otherwise returns [`Fault::OtherLength`] if `from` has another length. `into` is then unchanged.
#[tactic(auto, using(crate::proofs::BlockLemmas::for_merge))]
pub fn merge(into: &mut [u8], from: &[u8]) -> Result<(), Fault>
    ensures { MatchResult result
        (λ _. IsLength (length into.old) × Merges from.now into.old into.new)
        (λ fault. (into.new ≡ into.old)
        × IsMergeFault (length into.old) (length from.now) fault) }
{
    check_length(into.len())?;
    if from.len() != into.len() {
        return Err(Fault::OtherLength(from.len()));
    }
    for i in 0..into.len() {
        into[i] |= from[i];
    }
    Ok(())
}
