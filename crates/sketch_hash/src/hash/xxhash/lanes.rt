//! XXH64's four lanes, and the stripes of 32 bytes that change them.

ghost use Rattle.std.specs.Prelude.{◌≡◌, ℕ, ◌+◌, ◌%◌, ◌^◌, ◌<◌, ◌≤◌, ◌++◌, length, take};
ghost use Rattle.sketch_hash.specs.Pieces.{pieces};
ghost use Rattle.sketch_hash.specs.Xxh64.{Lanes, each_lane, lanes_of, lanes_start, lanes_state, merge, missing, stripe_step, stripe_words, xxh64_after};

use super::STRIPE;
use super::steps::{PRIME1, PRIME2, merge_round, round};
use crate::hash::copy::copy_small;
use crate::hash::words::{read_u64_le, rotate, split_pieces};
use std::marker::Model;
use std::simd::prelude::*;

/// The lanes as four words. Processors before AVX-512 multiply these faster than a vector.
#[derive(Clone, Copy)]
pub(super) struct ScalarLanes {
    pub(super) v1: u64,
    pub(super) v2: u64,
    pub(super) v3: u64,
    pub(super) v4: u64,
}

impl Model for ScalarLanes {
    ghost Value = { Lanes };

    ghost view = { λ v. record { v1 = v.v1; v2 = v.v2; v3 = v.v3; v4 = v.v4 } };

    ghost inverse = { λ v. record { v1 = v.v1; v2 = v.v2; v3 = v.v3; v4 = v.v4 } };
}

impl ScalarLanes {
    /// The lanes of a stream without bytes.
    #[inline(always)]
    #[tactic(auto, unfolding(crate::specs::Xxh64::lanes_start))]
    pub(super) fn start(seed: u64) -> Self
        ensures { result ≡ lanes_start seed }
    {
        ScalarLanes {
            v1: seed.wrapping_add(PRIME1).wrapping_add(PRIME2),
            v2: seed.wrapping_add(PRIME2),
            v3: seed,
            v4: seed.wrapping_sub(PRIME1),
        }
    }

    #[inline(always)]
    pub(super) fn from_vector(lanes: &u64x4) -> Self
        ensures { result ≡ lanes_of lanes.now }
    {
        let [v1, v2, v3, v4] = *lanes.as_array();
        ScalarLanes { v1, v2, v3, v4 }
    }

    #[inline(always)]
    pub(super) fn into_vector(self) -> u64x4
        ensures { lanes_of result ≡ self }
    {
        u64x4::from_array([self.v1, self.v2, self.v3, self.v4])
    }

    /// Updates each lane with its word of a stripe.
    #[inline(always)]
    #[tactic(auto, unfolding(crate::specs::Xxh64::stripe_step))]
    pub(super) fn stripe_round(&mut self, stripe: &[u8; 32])
        ensures { self.new ≡ stripe_step self.old stripe.now }
    {
        self.v1 = round(self.v1, read_u64_le(&stripe[0..8]));
        self.v2 = round(self.v2, read_u64_le(&stripe[8..16]));
        self.v3 = round(self.v3, read_u64_le(&stripe[16..24]));
        self.v4 = round(self.v4, read_u64_le(&stripe[24..32]));
    }
}

/// The lanes after a run of stripes. Runs of four and more are a separate call: inlined, their loop
/// takes registers from short keys, which makes keys of 16 and 24 bytes 10 % slower.
#[inline(always)]
pub(super) fn fold_run(mut lanes: ScalarLanes, stripes: &[[u8; 32]]) -> ScalarLanes
    ensures { result ≡ each_lane lanes stripes.now }
{
    if stripes.len() >= 4 {
        return fold_long(lanes, stripes);
    }
    fold_stripes(&mut lanes, stripes);
    lanes
}

#[inline(never)]
fn fold_long(mut lanes: ScalarLanes, stripes: &[[u8; 32]]) -> ScalarLanes
    ensures { result ≡ each_lane lanes stripes.now }
{
    fold_stripes(&mut lanes, stripes);
    lanes
}

/// Folds stripes into the lanes, one after another.
#[inline(always)]
#[tactic(auto, using(crate::proofs::Xxh64Answers::each_more))]
pub(super) fn fold_stripes(lanes: &mut ScalarLanes, stripes: &[[u8; 32]])
    ensures { lanes.new ≡ each_lane lanes.old stripes.now }
{
    for stripe in stripes {
        lanes.stripe_round(stripe);
    }
}

/// Folds `bytes`, which come after `count` waiting bytes in `buffer`: the stripe that they
/// complete, if there is a partial one, and then full stripes straight from the slice. The bytes
/// after the last full stripe go to the start of `buffer`.
///
/// They are stored before the run of stripes: the next write reads them, and a processor is slow to
/// read what it has just stored.
#[inline(always)]
#[tactic(auto, using(crate::proofs::Xxh64Writes::for_consume))]
pub(super) fn consume(
    lanes: ScalarLanes,
    buffer: &mut [u8; STRIPE],
    count: usize,
    bytes: &[u8],
) -> ScalarLanes
    requires short { count < 32 }
    requires fills { missing count ≤ length bytes.now }
    ensures { (seed total : ℕ) → total < 2 ^ 64 →
        xxh64_after (lanes_state seed lanes total (take count buffer.old)) bytes.now
        ≡ lanes_state seed result ((total + length bytes.now) % 2 ^ 64)
        (take ((count + length bytes.now) % 32) buffer.new) }
{
    // 0 if no stripe is partial.
    let missing = (STRIPE - count) % STRIPE;
    let (first, rest) = bytes.split_at(missing);
    let mut lanes = complete(lanes, buffer, count, first);
    let (stripes, last) = split_pieces::<STRIPE>(rest);
    copy_small(buffer, 0, last);
    fold_stripes(&mut lanes, stripes);
    lanes
}

// The lanes after the stripe that `bytes` complete. Without bytes there is none.
#[inline(always)]
#[tactic(auto, using(crate::proofs::Xxh64Writes::for_complete))]
fn complete(
    mut lanes: ScalarLanes,
    buffer: &mut [u8; STRIPE],
    count: usize,
    bytes: &[u8],
) -> ScalarLanes
    requires short { count < 32 }
    requires fills { length bytes.now ≡ missing count }
    ensures { result ≡ each_lane lanes (pieces 32 (take count buffer.old ++ bytes.now)) }
{
    if !bytes.is_empty() {
        copy_small(buffer, count, bytes);
        lanes.stripe_round(buffer);
    }
    lanes
}

/// Updates all four lanes with a stripe, as one vector.
#[inline(always)]
#[tactic(auto, using(crate::proofs::Xxh64Answers::for_vector_round))]
pub(super) fn vector_round(lanes: u64x4, stripe: &[u8; 32]) -> u64x4
    ensures { lanes_of result ≡ stripe_step (lanes_of lanes) stripe.now }
{
    let sums = lanes + stripe_words(stripe) * u64x4::splat(PRIME2);
    let rotated = (sums << u64x4::splat(31)) | (sums >> u64x4::splat(33));
    rotated * u64x4::splat(PRIME1)
}

#[inline(always)]
fn stripe_words(stripe: &[u8; 32]) -> u64x4
    ensures { result ≡ stripe_words stripe.now }
{
    u64x4::from_array([
        read_u64_le(&stripe[0..8]),
        read_u64_le(&stripe[8..16]),
        read_u64_le(&stripe[16..24]),
        read_u64_le(&stripe[24..32]),
    ])
}

/// The four lanes as one word.
#[inline(always)]
#[tactic(auto, unfolding(crate::specs::Xxh64::merge))]
pub(super) fn merge(words: ScalarLanes) -> u64
    ensures { result ≡ merge words }
{
    let sum = rotate::<1>(words.v1)
        .wrapping_add(rotate::<7>(words.v2))
        .wrapping_add(rotate::<12>(words.v3))
        .wrapping_add(rotate::<18>(words.v4));
    let hash = merge_round(sum, words.v1);
    let hash = merge_round(hash, words.v2);
    let hash = merge_round(hash, words.v3);
    merge_round(hash, words.v4)
}
