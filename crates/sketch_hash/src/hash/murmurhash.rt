//! MurmurHash3 x64 128, after `MurmurHash3_x64_128` of Austin Appleby's
//! [MurmurHash3](https://github.com/aappleby/smhasher/blob/master/src/MurmurHash3.cpp).

ghost use Rattle.std.specs.Prelude.{◌≡◌, ℕ, ◌+◌, ◌-◌, ◌*◌, ◌%◌, ◌^◌, ◌<◌, ◌≤◌, List, [], ◌++◌, length, map, min};
ghost use Rattle.std.specs.List.{fold};
ghost use Rattle.sketch_base.specs.Bytes.{le, low_bytes};
ghost use Rattle.sketch_hash.specs.Pieces.{State};
ghost use Rattle.sketch_hash.specs.Murmur.{mix1, mix2, fmix, cross, step, with_tail, finalize, block_words, murmur, murmur_after, murmur_answer, MurmurStands};
ghost use Rattle.sketch_hash.specs.PiecesWriteLemmas.{murmur_after-append, murmur_after-empty};

mod numbers;
mod state;

use self::numbers::{join_words, place_after, read_partial_le, read_partial_words, split_words};
pub use self::state::MurmurState;
use super::DEFAULT_UPDATE_SEED;
use super::hasher::Hasher;
use super::words::{read_u128_le, rotate, split_pieces, xor_shift};
use std::fmt;
use std::marker::Model;

const C1: u64 = 0x87c3_7b91_1142_53d5;

const C2: u64 = 0x4cf5_ad43_2745_937f;

// How many bytes a block has.
const BLOCK: usize = 16;

/// MurmurHash3 x64 128: a fast hash of 128 bits for data that no adversary chooses.
#[derive(Drop)]
pub struct MurmurHash3X64128 {
    h1: u64,
    h2: u64,
    total: u64,
    low: u64,
    high: u64,
    count: usize,
}

impl Model for MurmurHash3X64128 {
    ghost Value = { State (ℕ × ℕ) };

    ghost view = { λ h. record {
      folded = (h.h1, h.h2);
      total = h.total;
      waiting = low_bytes h.count (h.low + h.high * 2 ^ 64);
    } };

    // The bytes after the last full block wait: the first eight in `low`, those after them in
    // `high`. Absent bytes are zeros.
    ghost invariant = { λ h. (h.count ≡ h.total % 16)
        × (h.low < 256 ^ min h.count 8) × (h.high < 256 ^ (h.count - 8)) };
}

impl MurmurHash3X64128 {
    /// A hasher with this seed, and no bytes.
    #[inline(always)]
    #[tactic(auto, unfolding(crate::specs::Murmur::murmur_after))]
    pub fn with_seed(seed: u64) -> Self
        ensures { MurmurStands result seed [] }
    {
        MurmurHash3X64128 {
            h1: seed,
            h2: seed,
            total: 0,
            low: 0,
            high: 0,
            count: 0,
        }
    }

    /// The 128-bit hash of all bytes so far, as its first and its second word.
    #[inline(always)]
    #[tactic(auto, using(crate::proofs::MurmurAnswers::for_finish128))]
    pub fn finish128(&self) -> (u64, u64)
        ensures answer { result ≡ murmur_answer self.now }
        ensures stands { (seed : ℕ) (bytes : List ℕ) → MurmurStands self.now seed bytes →
            result ≡ murmur seed bytes }
    {
        finalize_unvectorized(
            self.h1 ^ mix1(self.low),
            self.h2 ^ mix2(self.high),
            self.total,
        )
    }

    /// The 16 bytes of a 128-bit hash in the order that the reference code leaves in memory and
    /// other tools print: each word's lowest byte first.
    #[tactic(auto, using(crate::proofs::MurmurWrites::block_bytes))]
    pub fn bytes_of(hash: (u64, u64)) -> [u8; 16]
        ensures { result ≡ low_bytes 16 (hash.0 + hash.1 * 2 ^ 64) }
    {
        join_words(hash.0, hash.1).to_le_bytes()
    }

    /// The 128-bit hash of bytes under a seed, as its first and its second word, in one call.
    #[inline(always)]
    #[tactic(auto, unfolding(crate::specs::Murmur::murmur))]
    pub fn hash(bytes: &[u8], seed: u64) -> (u64, u64)
        ensures { result ≡ murmur seed bytes.now }
    {
        let (blocks, tail) = split_pieces::<BLOCK>(bytes);
        let (h1, h2) = fold_blocks(seed, seed, blocks);
        let (h1, h2) = mix_tail(h1, h2, tail);
        finalize(h1, h2, bytes.len() as u64)
    }

    // Appends bytes to the partial block, which stays partial. `number` is their little-endian
    // number.
    #[inline(always)]
    #[tactic(auto, using(crate::proofs::MurmurWrites::for_write_within))]
    fn write_within(&mut self, bytes: &[u8], number: u128)
        requires number { number ≡ le bytes.now }
        requires few { length self.old.waiting + length bytes.now < 16 }
        ensures { self.new ≡ murmur_after self.old bytes.now }
    {
        (self.low, self.high) = place_after(self.low, self.high, self.count, number);
        self.total = self.total.wrapping_add(bytes.len() as u64);
        self.count += bytes.len();
    }

    // Completes the partial block, and goes on after it. `number` is the little-endian number of
    // the bytes, which are fewer than a block.
    #[inline(always)]
    #[tactic(auto, using(crate::proofs::MurmurWrites::for_complete_block))]
    fn complete_block(&mut self, bytes: &[u8], number: u128)
        requires number { number ≡ le bytes.now }
        requires few { length bytes.now < 16 }
        requires enough { 16 ≤ length self.old.waiting + length bytes.now }
        ensures { self.new ≡ murmur_after self.old bytes.now }
    {
        let (k1, k2) = place_after(self.low, self.high, self.count, number);
        (self.h1, self.h2) = step(self.h1, self.h2, k1, k2);
        // The shift drops the bytes that are in the block.
        (self.low, self.high) = split_words(number >> (8 * (BLOCK - self.count)));
        self.total = self.total.wrapping_add(bytes.len() as u64);
        self.count = self.count + bytes.len() - BLOCK;
    }

    // Appends a block's bytes or more. The first block completes the waiting bytes; the others are
    // folded straight from the slice.
    #[inline(always)]
    #[tactic(auto, using(crate::proofs::MurmurWrites::for_write_blocks))]
    fn write_blocks(&mut self, bytes: &[u8])
        requires { 16 ≤ length bytes.now }
        ensures { self.new ≡ murmur_after self.old bytes.now }
    {
        let first = read_u128_le(&bytes[..BLOCK]);
        let (k1, k2) = place_after(self.low, self.high, self.count, first);
        let (h1, h2) = step(self.h1, self.h2, k1, k2);
        let missing = BLOCK - self.count;
        let rest = &bytes[missing..];
        let (blocks, last) = split_pieces::<BLOCK>(rest);
        (self.h1, self.h2) = fold_blocks(h1, h2, blocks);
        (self.low, self.high) = read_partial_words(last);
        self.total = self.total.wrapping_add(bytes.len() as u64);
        self.count = last.len();
    }
}

impl Default for MurmurHash3X64128 {
    ghost is_default = { λ h. MurmurStands h 9001 [] };

    /// A hasher with [`DEFAULT_UPDATE_SEED`], the seed of sketch updates.
    #[inline(always)]
    fn default() -> Self {
        MurmurHash3X64128::with_seed(DEFAULT_UPDATE_SEED)
    }
}

impl fmt::Debug for MurmurHash3X64128 {
    ghost use Rattle.std.specs.Prelude.{codes, Some};

    ghost debug_output = { λ _. Some (codes "MurmurHash3X64128 { .. }") };

    fn fmt<W: fmt::Write>(&self, f: &mut fmt::Formatter<W>) -> fmt::Result {
        f.write_str("MurmurHash3X64128 { .. }")
    }
}

impl Hasher for MurmurHash3X64128 {
    ghost after = { murmur_after };

    ghost answer = { λ h. (murmur_answer h).0 };

    #[inline(always)]
    #[tactic(auto, using(crate::proofs::MurmurWrites::for_write))]
    fn write(&mut self, bytes: &[u8])
        ensures after { self.new ≡ murmur_after self.old bytes.now }
        ensures stands { (seed : ℕ) (before : List ℕ) → MurmurStands self.old seed before →
            MurmurStands self.new seed (before ++ bytes.now) }
    {
        if bytes.len() < BLOCK {
            let number = read_partial_le(bytes);
            if self.count + bytes.len() < BLOCK {
                self.write_within(bytes, number);
            } else {
                self.complete_block(bytes, number);
            }
        } else {
            self.write_blocks(bytes);
        }
    }

    /// The first word of [`MurmurHash3X64128::finish128`]. Inputs whose pairs differ can share it,
    /// since the laws of collisions are about pairs.
    #[inline(always)]
    fn finish(&self) -> u64
        ensures answer { result ≡ (murmur_answer self.now).0 }
        ensures stands { (seed : ℕ) (bytes : List ℕ) → MurmurStands self.now seed bytes →
            result ≡ (murmur seed bytes).0 }
    {
        let (h1, _) = self.finish128();
        h1
    }

    ghost joins = { murmur_after-append };

    ghost empty_write = { murmur_after-empty };
}

// The first word of a block, before it is joined to the state.
#[inline(always)]
#[tactic(auto, unfolding(crate::specs::Murmur::mix1))]
fn mix1(k1: u64) -> u64
    ensures { result ≡ mix1 k1 }
{
    rotate::<31>(k1.wrapping_mul(C1)).wrapping_mul(C2)
}

// The second word of a block, before it is joined to the state.
#[inline(always)]
#[tactic(auto, unfolding(crate::specs::Murmur::mix2))]
fn mix2(k2: u64) -> u64
    ensures { result ≡ mix2 k2 }
{
    rotate::<33>(k2.wrapping_mul(C2)).wrapping_mul(C1)
}

// A word of a block. It is copied: if it is read in place, LLVM's loop over blocks is 10 % slower.
#[inline(always)]
fn block_word(bytes: &[u8]) -> u64
    requires { length bytes.now ≡ 8 }
    ensures { result ≡ le bytes.now }
{
    let mut word = [0; 8];
    word.copy_from_slice(bytes);
    u64::from_le_bytes(word)
}

// The pair after one block of the words `k1` and `k2`.
//
// h2 depends on h1. Using h1 before its constant is added, and adding five times that constant to
// h2 at the end, takes one addition off the critical path.
#[inline(always)]
#[tactic(auto, using(crate::proofs::MurmurAnswers::for_step))]
fn step(h1: u64, h2: u64, k1: u64, k2: u64) -> (u64, u64)
    ensures { result ≡ step (h1, h2) (k1, k2) }
{
    let before = rotate::<27>(h1 ^ mix1(k1)).wrapping_add(h2).wrapping_mul(5);
    let h2 = rotate::<31>(h2 ^ mix2(k2))
        .wrapping_add(before)
        .wrapping_mul(5)
        .wrapping_add(5 * 0x52dc_e729 + 0x3849_5ab5);
    (before.wrapping_add(0x52dc_e729), h2)
}

// The pair after blocks.
#[inline(always)]
fn fold_blocks(h1: u64, h2: u64, blocks: &[[u8; BLOCK]]) -> (u64, u64)
    ensures { result ≡ fold step (h1, h2) (map block_words blocks.now) }
{
    blocks.iter().fold((h1, h2), |(h1, h2), block| {
        step(h1, h2, block_word(&block[..8]), block_word(&block[8..]))
    })
}

// The pair after the tail. A word of the tail without bytes changes nothing, so it is left out.
#[inline(always)]
#[tactic(auto, using(crate::proofs::MurmurAnswers::for_mix_tail))]
fn mix_tail(h1: u64, h2: u64, tail: &[u8]) -> (u64, u64)
    requires { length tail.now < 16 }
    ensures { result ≡ with_tail (h1, h2) tail.now }
{
    if tail.is_empty() {
        return (h1, h2);
    }
    let (k1, k2) = read_partial_words(tail);
    if tail.len() <= 8 {
        return (h1 ^ mix1(k1), h2);
    }
    (h1 ^ mix1(k1), h2 ^ mix2(k2))
}

// The last mixing of a word.
#[inline(always)]
#[tactic(auto, unfolding(crate::specs::Murmur::fmix))]
fn fmix(word: u64) -> u64
    ensures { result ≡ fmix word }
{
    let once = xor_shift(word, 33).wrapping_mul(0xff51_afd7_ed55_8ccd);
    let twice = xor_shift(once, 33).wrapping_mul(0xc4ce_b9fe_1a85_ec53);
    xor_shift(twice, 33)
}

// Adds the second word to the first, and then the first to the second.
#[inline(always)]
fn cross(h1: u64, h2: u64) -> (u64, u64)
    ensures { result ≡ cross (h1, h2) }
{
    let h1 = h1.wrapping_add(h2);
    (h1, h2.wrapping_add(h1))
}

// The hash of `total` bytes, from the pair after their blocks and their tail.
#[inline(always)]
#[tactic(auto, unfolding(crate::specs::Murmur::finalize), using(crate::proofs::WordLemmas::xors))]
fn finalize(h1: u64, h2: u64, total: u64) -> (u64, u64)
    ensures { result ≡ finalize (h1, h2) total }
{
    let (h1, h2) = cross(h1 ^ total, h2 ^ total);
    cross(fmix(h1), fmix(h2))
}

// [`finalize`] with a branch that changes nothing, as `fmix(0)` is 0. It keeps compilers from
// vectorizing a caller's loop over keys of 8 bytes, which is a third slower without AVX-512. `hash`
// does without: there the branch makes keys of 1 to 8 bytes 10 % slower.
#[inline(always)]
#[tactic(auto, using(crate::proofs::MurmurAnswers::for_finalize_unvectorized))]
fn finalize_unvectorized(h1: u64, h2: u64, total: u64) -> (u64, u64)
    ensures { result ≡ finalize (h1, h2) total }
{
    let (h1, h2) = cross(h1 ^ total, h2 ^ total);
    let first = if h1 == 0 { 0 } else { fmix(h1) };
    cross(first, fmix(h2))
}
