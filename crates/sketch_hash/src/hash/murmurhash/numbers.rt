//! Blocks, tails and waiting bytes as numbers and words.

ghost use Rattle.std.specs.Prelude.{◌≡◌, ◌+◌, ◌-◌, ◌*◌, ◌/◌, ◌%◌, ◌^◌, ◌<◌, ◌≤◌, length, take};
ghost use Rattle.sketch_base.specs.Bytes.{le};
ghost use Rattle.sketch_hash.specs.Murmur.{Waits};

use super::BLOCK;
use crate::hash::words::{read_u16_le, read_u32_le, read_u64_le, read_u128_le};

/// The little-endian number of fewer than 16 bytes.
#[inline(always)]
pub(super) fn read_partial_le(bytes: &[u8]) -> u128
    requires { length bytes.now < 16 }
    ensures { result ≡ le bytes.now }
{
    let (low, high) = read_partial_words(bytes);
    join_words(low, high)
}

/// The little-endian number of fewer than 16 bytes as two words, the lower first.
#[inline(always)]
#[tactic(auto, using(crate::proofs::MurmurWrites::for_read_partial_words))]
pub(super) fn read_partial_words(bytes: &[u8]) -> (u64, u64)
    requires { length bytes.now < 16 }
    ensures words { result ≡ (le bytes.now % 2 ^ 64, le bytes.now / 2 ^ 64) }
    ensures waits { Waits (length bytes.now) result.0 result.1 bytes.now }
{
    read_two_words(bytes)
}

// As `read_partial_words`, whose second clause is proved from this function's only one.
#[inline(always)]
#[tactic(auto, using(crate::proofs::NumberLemmas::few_le, crate::proofs::NumberLemmas::last_le))]
fn read_two_words(bytes: &[u8]) -> (u64, u64)
    requires { length bytes.now < 16 }
    ensures { result ≡ (le bytes.now % 2 ^ 64, le bytes.now / 2 ^ 64) }
{
    let count = bytes.len();
    if count > 8 {
        // The shift drops the bytes that are in the first word.
        let last = read_u64_le(&bytes[count - 8..]) >> (8 * (16 - count));
        return (read_u64_le(&bytes[..8]), last);
    }
    if count == 8 {
        return (read_u64_le(bytes), 0);
    }
    (read_word_le(bytes), 0)
}

// The little-endian number of fewer than eight bytes.
#[inline(always)]
#[tactic(auto, using(crate::proofs::NumberLemmas::fours_le))]
fn read_word_le(bytes: &[u8]) -> u64
    requires { length bytes.now < 8 }
    ensures { result ≡ le bytes.now }
{
    let count = bytes.len();
    match count {
        0 => 0,
        1 => u64::from(bytes[0]),
        2..4 => {
            let first = u32::from(read_u16_le(&bytes[..2]));
            combine_overlapping(first, u32::from(read_u16_le(&bytes[count - 2..])), 2, count)
        }
        _ => combine_overlapping(
            read_u32_le(&bytes[..4]),
            read_u32_le(&bytes[count - 4..]),
            4,
            count,
        ),
    }
}

// The number of `count` bytes, from the numbers of their first and of their last `width` bytes.
#[inline(always)]
#[tactic(auto, using(crate::proofs::NumberLemmas::combined))]
fn combine_overlapping(first: u32, last: u32, width: usize, count: usize) -> u64
    requires width { width ≤ 4 }
    requires low { width ≤ count }
    requires high { count ≤ width + width }
    requires first { first < 256 ^ width }
    requires last { last < 256 ^ width }
    ensures { result ≡ first + last / 256 ^ (width + width - count) * 256 ^ width }
{
    // The shift drops the bytes that are in `first`.
    let rest = u64::from(last) >> (8 * (2 * width - count));
    u64::from(first) | (rest << (8 * width))
}

/// The words of `count` waiting bytes with a number placed after them. What exceeds a block is
/// dropped.
#[inline(always)]
#[tactic(auto, using(crate::proofs::MurmurWrites::for_place_after))]
pub(super) fn place_after(low: u64, high: u64, count: usize, number: u128) -> (u64, u64)
    requires { count < 16 }
    ensures { let sum = (low + high * 2 ^ 64 + number * 256 ^ count) % 2 ^ 128 in
        result ≡ (sum % 2 ^ 64, sum / 2 ^ 64) }
{
    split_words(join_words(low, high).wrapping_add(number << (8 * count)))
}

/// The number of a block, from its two words.
#[inline(always)]
pub(super) fn join_words(low: u64, high: u64) -> u128
    ensures { result ≡ low + high * 2 ^ 64 }
{
    u128::from(low) + (u128::from(high) << 64)
}

/// The two words of a block, from its number.
#[inline(always)]
pub(super) fn split_words(number: u128) -> (u64, u64)
    ensures { result ≡ (number % 2 ^ 64, number / 2 ^ 64) }
{
    ((number % (1 << 64)) as u64, (number >> 64) as u64)
}

/// The words of the first `count` bytes of a block, for a `count` below 16.
#[inline(always)]
#[tactic(auto, using(crate::proofs::MurmurWrites::for_read_prefix))]
pub(super) fn read_prefix(block: &[u8; 16], count: usize) -> (u64, u64)
    requires { count < 16 }
    ensures { Waits count result.0 result.1 (take count block.now) }
{
    split_words(read_u128_le(block) % (1 << (8 * count)))
}
