//! Folds: filters of half as many blocks, with the same values.

ghost use Rattle.std.specs.Prelude.{◌≡◌, ◌↔◌, ℕ, ◌+◌, ◌*◌, ◌/◌, ◌%◌, ◌^◌, ◌<◌, ◌≤◌, List, IsTrue, MatchResult, drop, length, slice_index, take};
ghost use Rattle.datasketches.specs.Words.{digit};
ghost use Rattle.sketch_bloom.specs.Filter.{Folds, IsFoldFault, IsFoldable, IsLength, IsLengthFault};
ghost use Rattle.sketch_bloom.specs.FoldRate.{FoldsTo, HasRateOf, found_by_words};

use crate::fault::Fault;
use crate::filter::check_length;
use std::simd::prelude::*;

/// Folds a filter into its first half. Block k is then the union of blocks 2 k and 2 k + 1, and the
/// first half is the filter of that length, of the same values. The second half is unchanged.
///
/// A filter can be created for all values, and folded when it is known how many are different.
///
/// # Errors
///
/// Returns [`Fault::Length`] if the length of `filter` is not a positive multiple of 32 below 2^37.
/// Otherwise returns [`Fault::OddBlocks`] if it is not a multiple of 64. The filter is then
/// unchanged.
pub fn fold(filter: &mut [u8]) -> Result<(), Fault>
    ensures { let half = length filter.old / 2 in MatchResult result
        (λ _. IsFoldable (length filter.old) × Folds filter.old (take half filter.new)
        × (drop half filter.new ≡ drop half filter.old))
        (λ fault. (filter.new ≡ filter.old) × IsFoldFault (length filter.old) fault) }
{
    check_length(filter.len())?;
    if filter.len() % 64 != 0 {
        return Err(Fault::OddBlocks(filter.len()));
    }
    fold_blocks(filter);
    Ok(())
}

/// Folds a filter as often as its false positive rate, by the bits that are set, stays at most one
/// in `one_in`. Returns the length of the folded filter, which is the first part of `filter`. The
/// bytes after it have no meaning.
///
/// The rate is the mean, over the blocks, of the product of the shares of set bits in the eight
/// words. So it is the probability that a key that was not inserted is found, if the eight bits of
/// a hash were independent. They come from 32 bits of it: below about one in 10^7 that is not so.
///
/// # Errors
///
/// Returns [`Fault::Length`] if the length of `filter` is not a positive multiple of 32 below 2^37.
/// The filter is then unchanged.
pub fn fold_to(filter: &mut [u8], one_in: u64) -> Result<usize, Fault>
    ensures { MatchResult result
        (λ bytes. IsLength (length filter.old) × IsLength bytes × (bytes ≤ length filter.old)
        × FoldsTo one_in filter.old (take bytes filter.new))
        (λ fault. (filter.new ≡ filter.old) × IsLengthFault (length filter.old) fault) }
{
    check_length(filter.len())?;
    let mut bytes = filter.len();
    while bytes % 64 == 0 && has_rate_folded(&filter[..bytes], one_in) {
        fold_blocks(&mut filter[..bytes]);
        bytes /= 2;
    }
    Ok(bytes)
}

// Folds a filter of an even number of blocks.
fn fold_blocks(filter: &mut [u8])
    requires { IsFoldable (length filter.old) }
    ensures { let half = length filter.old / 2 in Folds filter.old (take half filter.new)
        × (drop half filter.new ≡ drop half filter.old) }
{
    for i in 0..filter.len() / 64 {
        let left = u8x32::from_slice(&filter[64 * i..]);
        let right = u8x32::from_slice(&filter[64 * i + 32..]);
        (left | right).copy_to_slice(&mut filter[32 * i..]);
    }
}

// Whether a filter has the rate of one in `one_in` once it is folded.
fn has_rate_folded(filter: &[u8], one_in: u64) -> bool
    requires { IsFoldable (length filter.now) }
    ensures { (folded : List ℕ) → Folds filter.now folded →
        (IsTrue result ↔ HasRateOf one_in folded) }
{
    let blocks = filter.len() / 64;
    let mut found: u128 = 0;
    for k in 0..blocks {
        found += u128::from(found_by_union(filter, k));
    }
    // Both numbers are below 2^72. If these bits are set, the product is 2^72 at least.
    let is_above = found >> 64 > 0 && one_in >> 8 > 0;
    if one_in == 0 || is_above {
        return false;
    }
    found * u128::from(one_in) <= (blocks as u128) << 40
}

// How many of the 2^40 choices of a bit in each word choose set bits alone, in block k of the
// folded filter.
fn found_by_union(filter: &[u8], k: usize) -> u64
    requires { 64 * k + 64 ≤ length filter.now }
    ensures value { (folded : List ℕ) → Folds filter.now folded →
        result ≡ found_by_words folded k 8 }
    ensures small { result ≤ 2 ^ 40 }
{
    let mut found: u64 = 1;
    for w in 0..8 {
        let left = word(filter, 64 * k + 4 * w);
        let right = word(filter, 64 * k + 32 + 4 * w);
        found *= u64::from((left | right).count_ones());
    }
    found
}

// The word of the four bytes at an offset.
fn word(filter: &[u8], start: usize) -> u32
    requires { start + 4 ≤ length filter.now }
    ensures { (b : ℕ) → b < 32 →
        digit result b ≡ digit (slice_index filter.now (start + b / 8)) (b % 8) }
{
    let mut word = [0; 4];
    word.copy_from_slice(&filter[start..start + 4]);
    u32::from_le_bytes(word)
}
