//! XXH64's tail: the bytes after the last stripe.

ghost use Rattle.std.specs.Prelude.{◌≡◌, ◌<◌, ◌≤◌, length};
ghost use Rattle.std.specs.List.{fold};
ghost use Rattle.sketch_hash.specs.Xxh64.{byte_step, tail_step, steps};

use super::steps::{byte_step, eight_step, four_step};
use crate::hash::words::{read_u32_le, read_u64_le};

/// The hash after a tail of any length.
#[inline(always)]
pub(super) fn fold_tail(hash: u64, tail: &[u8]) -> u64
    ensures { result ≡ fold tail_step hash (steps tail.now) }
{
    let (hash, rest) = fold_words(hash, tail);
    fold_below_8(hash, rest)
}

// The hash after the tail's words of eight bytes, and the bytes after these words.
#[inline(always)]
#[tactic(auto, using(crate::proofs::Xxh64Answers::for_fold_words))]
fn fold_words(mut hash: u64, mut tail: &[u8]) -> (u64, &[u8])
    ensures same { fold tail_step result.0 (steps result.1.now)
        ≡ fold tail_step hash (steps tail.now) }
    ensures short { length result.1.now < 8 }
{
    'words: while tail.len() >= 8 {
        let (word, rest) = tail.split_at(8);
        hash = eight_step(hash, read_u64_le(word));
        tail = rest;
    }
    (hash, tail)
}

/// The hash after a tail of 16 bytes and more. Without a loop keys of 16 and 24 bytes are 10 %
/// faster.
#[inline(always)]
#[tactic(auto, using(crate::proofs::Xxh64Answers::for_fold_from_16))]
pub(super) fn fold_from_16(hash: u64, tail: &[u8]) -> u64
    requires low { 16 ≤ length tail.now }
    requires high { length tail.now < 32 }
    ensures { result ≡ fold tail_step hash (steps tail.now) }
{
    let (first, others) = tail.split_at(8);
    let (second, rest) = others.split_at(8);
    let hash = eight_step(eight_step(hash, read_u64_le(first)), read_u64_le(second));
    if rest.is_empty() {
        return hash;
    }
    fold_below_16(hash, rest)
}

/// The hash after a tail of fewer than 16 bytes, without a loop.
#[inline(always)]
#[tactic(auto, using(crate::proofs::Xxh64Answers::for_fold_below_16))]
pub(super) fn fold_below_16(mut hash: u64, tail: &[u8]) -> u64
    requires { length tail.now < 16 }
    ensures { result ≡ fold tail_step hash (steps tail.now) }
{
    let mut rest = tail;
    if rest.len() >= 8 {
        let (word, others) = rest.split_at(8);
        hash = eight_step(hash, read_u64_le(word));
        if others.is_empty() {
            return hash;
        }
        rest = others;
    }
    fold_below_8(hash, rest)
}

// The hash after a tail of fewer than 8 bytes.
#[inline(always)]
#[tactic(auto, using(crate::proofs::Xxh64Answers::for_fold_below_8))]
fn fold_below_8(hash: u64, tail: &[u8]) -> u64
    requires { length tail.now < 8 }
    ensures { result ≡ fold tail_step hash (steps tail.now) }
{
    if tail.len() >= 4 {
        let (word, bytes) = tail.split_at(4);
        return fold_few(four_step(hash, read_u32_le(word)), bytes);
    }
    fold_few(hash, tail)
}

// The hash after fewer than four single bytes. A loop makes keys of 5 to 7 bytes 17 % slower.
#[inline(always)]
fn fold_few(hash: u64, bytes: &[u8]) -> u64
    requires { length bytes.now < 4 }
    ensures { result ≡ fold byte_step hash bytes.now }
{
    let Some((first, rest)) = bytes.split_first() else {
        return hash;
    };
    let hash = byte_step(hash, *first);
    let Some((second, rest)) = rest.split_first() else {
        return hash;
    };
    let hash = byte_step(hash, *second);
    let Some((third, _)) = rest.split_first() else {
        return hash;
    };
    byte_step(hash, *third)
}
