//! XXH64's primes, and its steps on words.

ghost use Rattle.std.specs.Prelude.{◌≡◌};
ghost use Rattle.sketch_hash.specs.Xxh64.{round, merge_round, eight_step, four_step, byte_step, avalanche};

use crate::hash::words::{rotate, xor_shift};

// The five primes.
pub(super) const PRIME1: u64 = 0x9E37_79B1_85EB_CA87;

pub(super) const PRIME2: u64 = 0xC2B2_AE3D_27D4_EB4F;

pub(super) const PRIME3: u64 = 0x1656_67B1_9E37_79F9;

pub(super) const PRIME4: u64 = 0x85EB_CA77_C2B2_AE63;

pub(super) const PRIME5: u64 = 0x27D4_EB2F_1656_67C5;

/// A lane after an input word.
#[inline(always)]
#[tactic(auto, unfolding(crate::specs::Xxh64::round))]
pub(super) fn round(lane: u64, word: u64) -> u64
    ensures { result ≡ round lane word }
{
    rotate::<31>(lane.wrapping_add(word.wrapping_mul(PRIME2))).wrapping_mul(PRIME1)
}

/// The hash after a lane is merged into it.
#[inline(always)]
#[tactic(auto, unfolding(crate::specs::Xxh64::merge_round), using(crate::proofs::WordLemmas::xors))]
pub(super) fn merge_round(hash: u64, lane: u64) -> u64
    ensures { result ≡ merge_round hash lane }
{
    (hash ^ round(0, lane))
        .wrapping_mul(PRIME1)
        .wrapping_add(PRIME4)
}

/// The hash after a word of eight bytes of the tail.
#[inline(always)]
#[tactic(auto, unfolding(crate::specs::Xxh64::eight_step), using(crate::proofs::WordLemmas::xors))]
pub(super) fn eight_step(hash: u64, word: u64) -> u64
    ensures { result ≡ eight_step hash word }
{
    rotate::<27>(hash ^ round(0, word))
        .wrapping_mul(PRIME1)
        .wrapping_add(PRIME4)
}

/// The hash after a word of four bytes of the tail.
#[inline(always)]
#[tactic(auto, unfolding(crate::specs::Xxh64::four_step), using(crate::proofs::WordLemmas::xors))]
pub(super) fn four_step(hash: u64, word: u32) -> u64
    ensures { result ≡ four_step hash word }
{
    rotate::<23>(hash ^ u64::from(word).wrapping_mul(PRIME1))
        .wrapping_mul(PRIME2)
        .wrapping_add(PRIME3)
}

/// The hash after a byte of the tail.
#[inline(always)]
#[tactic(auto, unfolding(crate::specs::Xxh64::byte_step), using(crate::proofs::WordLemmas::xors))]
pub(super) fn byte_step(hash: u64, byte: u8) -> u64
    ensures { result ≡ byte_step hash byte }
{
    rotate::<11>(hash ^ u64::from(byte).wrapping_mul(PRIME5)).wrapping_mul(PRIME1)
}

/// The last mixing of the hash.
#[inline(always)]
#[tactic(auto, unfolding(crate::specs::Xxh64::avalanche))]
pub(super) fn avalanche(hash: u64) -> u64
    ensures { result ≡ avalanche hash }
{
    let once = xor_shift(hash, 33).wrapping_mul(PRIME2);
    let twice = xor_shift(once, 29).wrapping_mul(PRIME3);
    xor_shift(twice, 32)
}
