//! XXH64, after Yann Collet's
//! [xxHash specification](https://github.com/Cyan4973/xxHash/blob/dev/doc/xxhash_spec.md).

ghost use Rattle.std.specs.Prelude.{◌≡◌, ℕ, ◌+◌, ◌-◌, ◌%◌, ◌<◌, ◌≤◌, List, [], ◌++◌, length, take};
ghost use Rattle.std.specs.List.{fold};
ghost use Rattle.sketch_base.specs.Bytes.{eight, low_bytes};
ghost use Rattle.sketch_hash.specs.Pieces.{State};
ghost use Rattle.sketch_hash.specs.Xxh64.{Lanes, lanes_of, lanes_start, merge, missing, tail_step, steps, avalanche, xxh64, xxh64_after, xxh64_answer, Xxh64Stands, each_lane};
ghost use Rattle.sketch_hash.specs.PiecesWriteLemmas.{xxh64_after-append, xxh64_after-empty};

mod lanes;
mod state;
mod steps;
mod tail;

use self::lanes::{ScalarLanes, consume, fold_run, fold_stripes, merge, vector_round};
pub use self::state::XxHash64State;
use self::steps::{PRIME5, avalanche, eight_step, four_step};
use self::tail::{fold_below_16, fold_from_16, fold_tail};
use super::copy::copy_small;
use super::hasher::Hasher;
use super::words::split_pieces;
use std::fmt;
use std::marker::Model;
use std::simd::prelude::*;

const STRIPE: usize = 32;

const TWO_STRIPES: usize = 2 * STRIPE;

/// XXH64: a fast hash of 64 bits for data that no adversary chooses.
///
/// The number of bytes counts modulo 2^64. The count chooses between the two forms of the hash, for
/// inputs of fewer than 32 bytes and for longer ones, so an input of 2^64 to 2^64 + 31 bytes has
/// the short form.
#[derive(Drop)]
pub struct XxHash64 {
    seed: u64,
    // One SIMD vector. Only `vector_round` computes with it: processors before AVX-512 multiply
    // four words faster, so all other paths convert it to `ScalarLanes` and back.
    lanes: u64x4,
    total: u64,
    buffer: [u8; STRIPE],
    count: usize,
}

impl Model for XxHash64 {
    ghost Value = { State (ℕ × Lanes) };

    ghost view = { λ h. record {
      folded = (h.seed, lanes_of h.lanes);
      total = h.total;
      waiting = take h.count h.buffer;
    } };

    ghost invariant = { λ h. h.count ≡ h.total % 32 };
}

impl XxHash64 {
    /// A hasher with this seed, and no bytes.
    #[inline(always)]
    #[tactic(auto, unfolding(crate::specs::Xxh64::xxh64_after))]
    pub fn with_seed(seed: u64) -> Self
        ensures { Xxh64Stands result seed [] }
    {
        XxHash64 {
            seed,
            lanes: ScalarLanes::start(seed).into_vector(),
            total: 0,
            buffer: [0; STRIPE],
            count: 0,
        }
    }

    /// The 64-bit hash of all bytes so far.
    #[inline(always)]
    #[tactic(auto, using(crate::proofs::Xxh64Answers::for_finish64))]
    pub fn finish64(&self) -> u64
        ensures answer { result ≡ xxh64_answer self.now }
        ensures stands { (seed : ℕ) (bytes : List ℕ) → Xxh64Stands self.now seed bytes →
            result ≡ xxh64 seed bytes }
    {
        let hash = if self.total < STRIPE as u64 {
            self.seed.wrapping_add(PRIME5)
        } else {
            merge(ScalarLanes::from_vector(&self.lanes))
        };
        let hash = hash.wrapping_add(self.total);
        avalanche(fold_tail(hash, &self.buffer[..self.count]))
    }

    /// The 64-bit hash of bytes under a seed, in one call.
    ///
    /// It reads the bytes in place, which is faster than a hasher for short keys.
    #[inline(always)]
    #[tactic(auto, using(crate::proofs::Xxh64Answers::of_short))]
    pub fn hash(bytes: &[u8], seed: u64) -> u64
        ensures { result ≡ xxh64 seed bytes.now }
    {
        let hash = seed.wrapping_add(PRIME5).wrapping_add(bytes.len() as u64);
        match bytes.len() {
            ..16 => avalanche(fold_below_16(hash, bytes)),
            ..STRIPE => avalanche(fold_from_16(hash, bytes)),
            ..TWO_STRIPES => hash_one_stripe(bytes, seed),
            _ => hash_stripes(bytes, seed),
        }
    }

    /// The 64-bit hash of the eight little-endian bytes of `input`, under a seed.
    #[inline(always)]
    #[tactic(auto, using(crate::proofs::Xxh64Answers::for_hash_u64))]
    pub fn hash_u64(input: u64, seed: u64) -> u64
        ensures { result ≡ xxh64 seed (eight input) }
    {
        avalanche(eight_step(seed.wrapping_add(PRIME5).wrapping_add(8), input))
    }

    /// The 64-bit hash of the four little-endian bytes of `input`, under a seed.
    #[inline(always)]
    #[tactic(auto, using(crate::proofs::Xxh64Answers::for_hash_u32))]
    pub fn hash_u32(input: u32, seed: u64) -> u64
        ensures { result ≡ xxh64 seed (low_bytes 4 input) }
    {
        avalanche(four_step(seed.wrapping_add(PRIME5).wrapping_add(4), input))
    }

    // Appends bytes to the partial stripe, which stays partial. Sets the fields after the copy:
    // LLVM cannot tell that the copy does not alias them, and would reload fields that were set
    // before.
    #[inline(always)]
    #[tactic(auto, using(crate::proofs::Xxh64Writes::for_write_within))]
    fn write_within(&mut self, bytes: &[u8])
        requires { length self.old.waiting + length bytes.now < 32 }
        ensures { self.new ≡ xxh64_after self.old bytes.now }
    {
        let total = self.total.wrapping_add(bytes.len() as u64);
        let count = self.count;
        copy_small(&mut self.buffer, count, bytes);
        self.count = count + bytes.len();
        self.total = total;
    }

    // Appends the bytes that complete the partial stripe, and folds it.
    #[inline(always)]
    #[tactic(auto, using(crate::proofs::Xxh64Writes::for_write_to_the_end))]
    fn write_to_the_end(&mut self, bytes: &[u8])
        requires short { length self.old.waiting < 32 }
        requires fills { length self.old.waiting + length bytes.now ≡ 32 }
        ensures { self.new ≡ xxh64_after self.old bytes.now }
    {
        self.total = self.total.wrapping_add(bytes.len() as u64);
        let count = self.count;
        copy_small(&mut self.buffer, count, bytes);
        self.count = 0;
        self.lanes = vector_round(self.lanes, &self.buffer);
    }

    // Folds full stripes straight from the slice, as no stripe is partial, and buffers the bytes
    // after them. LLVM cannot tell that the copy does not alias the fields, so they are set after
    // it.
    #[inline(always)]
    #[tactic(auto, using(crate::proofs::Xxh64Writes::for_write_aligned))]
    fn write_aligned(&mut self, bytes: &[u8])
        requires { length self.old.waiting ≡ 0 }
        ensures { self.new ≡ xxh64_after self.old bytes.now }
    {
        let total = self.total.wrapping_add(bytes.len() as u64);
        let (stripes, last) = split_pieces::<STRIPE>(bytes);
        let lanes = fold_run(ScalarLanes::from_vector(&self.lanes), stripes);
        copy_small(&mut self.buffer, 0, last);
        self.count = last.len();
        self.total = total;
        self.lanes = lanes.into_vector();
    }

    // Completes the partial stripe, and goes on after it. It is a call of its own, so that shorter
    // writes save fewer registers. It converts the lanes to four words once. The count is set
    // first, so that no register has to hold it during the rounds: set after them, writes of 13 to
    // 31 bytes take 1.05 to 1.1 times as long.
    #[inline(never)]
    fn write_across(&mut self, bytes: &[u8])
        requires short { length self.old.waiting < 32 }
        requires fills { missing (length self.old.waiting) ≤ length bytes.now }
        ensures { self.new ≡ xxh64_after self.old bytes.now }
    {
        let count = self.count;
        self.total = self.total.wrapping_add(bytes.len() as u64);
        self.count = (count + bytes.len()) % STRIPE;
        let lanes = ScalarLanes::from_vector(&self.lanes);
        self.lanes = consume(lanes, &mut self.buffer, count, bytes).into_vector();
    }
}

impl Default for XxHash64 {
    ghost is_default = { λ h. Xxh64Stands h 0 [] };

    /// A hasher with seed 0.
    #[inline(always)]
    fn default() -> Self {
        XxHash64::with_seed(0)
    }
}

impl fmt::Debug for XxHash64 {
    ghost use Rattle.std.specs.Prelude.{codes, Some};

    ghost debug_output = { λ _. Some (codes "XxHash64 { .. }") };

    fn fmt<W: fmt::Write>(&self, f: &mut fmt::Formatter<W>) -> fmt::Result {
        f.write_str("XxHash64 { .. }")
    }
}

impl Hasher for XxHash64 {
    ghost after = { xxh64_after };

    ghost answer = { xxh64_answer };

    #[inline(always)]
    #[tactic(auto, using(crate::proofs::Xxh64Answers::written_after))]
    fn write(&mut self, bytes: &[u8])
        ensures after { self.new ≡ xxh64_after self.old bytes.now }
        ensures stands { (seed : ℕ) (before : List ℕ) → Xxh64Stands self.old seed before →
            Xxh64Stands self.new seed (before ++ bytes.now) }
    {
        let missing = STRIPE - self.count;
        if bytes.len() < missing {
            // The stripe stays partial.
            self.write_within(bytes);
        } else if missing == STRIPE {
            // No stripe is partial: no byte of a full one is copied.
            self.write_aligned(bytes);
        } else if bytes.len() == missing {
            // The stripe becomes full.
            self.write_to_the_end(bytes);
        } else {
            // The stripe becomes full, and bytes follow it.
            self.write_across(bytes);
        }
    }

    #[inline(always)]
    fn finish(&self) -> u64
        ensures answer { result ≡ xxh64_answer self.now }
        ensures stands { (seed : ℕ) (bytes : List ℕ) → Xxh64Stands self.now seed bytes →
            result ≡ xxh64 seed bytes }
    {
        self.finish64()
    }

    ghost joins = { xxh64_after-append };

    ghost empty_write = { xxh64_after-empty };
}

/// The hash of one key of a column. A processor cannot foresee branches on lengths that do not
/// repeat, so a short key takes one of them, after which a compiler knows its length. A long key
/// is hashed here, since a call in the loop over the keys takes 1.1 to 1.2 times as long.
#[inline(always)]
#[tactic(auto, using(crate::proofs::Xxh64Answers::of_short))]
pub(super) fn hash_one_of_many(bytes: &[u8], seed: u64) -> u64
    ensures { result ≡ xxh64 seed bytes.now }
{
    if bytes.len() >= STRIPE {
        return hash_long(bytes, seed);
    }
    let hash = seed.wrapping_add(PRIME5).wrapping_add(bytes.len() as u64);
    match bytes.len() {
        0 => mix_exactly::<0>(hash, bytes),
        1 => mix_exactly::<1>(hash, bytes),
        2 => mix_exactly::<2>(hash, bytes),
        3 => mix_exactly::<3>(hash, bytes),
        4 => mix_exactly::<4>(hash, bytes),
        5 => mix_exactly::<5>(hash, bytes),
        6 => mix_exactly::<6>(hash, bytes),
        7 => mix_exactly::<7>(hash, bytes),
        8 => mix_exactly::<8>(hash, bytes),
        9 => mix_exactly::<9>(hash, bytes),
        10 => mix_exactly::<10>(hash, bytes),
        11 => mix_exactly::<11>(hash, bytes),
        12 => mix_exactly::<12>(hash, bytes),
        13 => mix_exactly::<13>(hash, bytes),
        14 => mix_exactly::<14>(hash, bytes),
        15 => mix_exactly::<15>(hash, bytes),
        16 => mix_exactly::<16>(hash, bytes),
        17 => mix_exactly::<17>(hash, bytes),
        18 => mix_exactly::<18>(hash, bytes),
        19 => mix_exactly::<19>(hash, bytes),
        20 => mix_exactly::<20>(hash, bytes),
        21 => mix_exactly::<21>(hash, bytes),
        22 => mix_exactly::<22>(hash, bytes),
        23 => mix_exactly::<23>(hash, bytes),
        24 => mix_exactly::<24>(hash, bytes),
        25 => mix_exactly::<25>(hash, bytes),
        26 => mix_exactly::<26>(hash, bytes),
        27 => mix_exactly::<27>(hash, bytes),
        28 => mix_exactly::<28>(hash, bytes),
        29 => mix_exactly::<29>(hash, bytes),
        30 => mix_exactly::<30>(hash, bytes),
        _ => mix_exactly::<31>(hash, bytes),
    }
}

// The hash after a tail of `LENGTH` bytes, and the last mixing.
#[inline(always)]
#[tactic(auto, using(crate::proofs::Xxh64Answers::for_mix_exactly))]
fn mix_exactly<const LENGTH: usize>(hash: u64, tail: &[u8]) -> u64
    requires short { LENGTH < 32 }
    requires length { length tail.now ≡ LENGTH }
    ensures { result ≡ avalanche (fold tail_step hash (steps tail.now)) }
{
    mix_rest(hash, &tail[..LENGTH])
}

// The hash of 32 to 63 bytes. In a separate call a compiler knows that there is one stripe and
// makes no loop: keys of 32 bytes are 10 % faster.
#[inline(never)]
fn hash_one_stripe(bytes: &[u8], seed: u64) -> u64
    requires low { 32 ≤ length bytes.now }
    requires high { length bytes.now < 64 }
    ensures { result ≡ xxh64 seed bytes.now }
{
    hash_long(bytes, seed)
}

// The hash of 64 bytes and more.
#[inline(never)]
fn hash_stripes(bytes: &[u8], seed: u64) -> u64
    requires { 64 ≤ length bytes.now }
    ensures { result ≡ xxh64 seed bytes.now }
{
    hash_long(bytes, seed)
}

// The hash of 32 bytes and more.
#[inline(always)]
#[tactic(auto, using(crate::proofs::Xxh64Answers::of_long))]
fn hash_long(bytes: &[u8], seed: u64) -> u64
    requires { 32 ≤ length bytes.now }
    ensures { result ≡ xxh64 seed bytes.now }
{
    let (stripes, last) = split_pieces::<STRIPE>(bytes);
    mix_rest(
        merge_stripes(stripes, seed).wrapping_add(bytes.len() as u64),
        last,
    )
}

// The hash after the tail, which is empty after full stripes, and the last mixing.
#[inline(always)]
#[tactic(auto, using(crate::proofs::Xxh64Answers::no_steps))]
fn mix_rest(hash: u64, tail: &[u8]) -> u64
    requires { length tail.now < 32 }
    ensures { result ≡ avalanche (fold tail_step hash (steps tail.now)) }
{
    avalanche(match tail.len() {
        0 => hash,
        ..16 => fold_below_16(hash, tail),
        _ => fold_from_16(hash, tail),
    })
}

// The lanes after these stripes, as one word.
#[inline(always)]
fn merge_stripes(stripes: &[[u8; STRIPE]], seed: u64) -> u64
    ensures { result ≡ merge (each_lane (lanes_start seed) stripes.now) }
{
    let mut lanes = ScalarLanes::start(seed);
    fold_stripes(&mut lanes, stripes);
    merge(lanes)
}
