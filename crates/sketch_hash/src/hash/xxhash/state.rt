//! The state of an XXH64 hasher, as plain data.

ghost use Rattle.std.specs.Prelude.{◌≡◌, ℕ, ◌+◌, ◌%◌, ◌<◌, ◌≤◌, List, ◌++◌, length};
ghost use Rattle.sketch_hash.specs.States.{xxh64_state_of, Xxh64StateStands};
ghost use Rattle.sketch_hash.specs.Xxh64.{xxh64, xxh64_after, xxh64_answer, Xxh64Stands};

use super::lanes::{ScalarLanes, consume, merge};
use super::steps::{PRIME5, avalanche};
use super::tail::fold_tail;
use super::{STRIPE, XxHash64};
use crate::hash::copy::copy_small;
use std::simd::prelude::*;

/// The state of an [`XxHash64`]: a checkpoint of a stream that can be copied, saved and resumed.
///
/// Only the first `total % 32` bytes of `waiting` count; the others may be anything, such as
/// earlier input. Every value can be resumed.
#[repr(C)]
#[derive(Clone, Copy)]
pub struct XxHash64State {
    /// The seed that the stream began with.
    pub seed: u64,
    /// The first of four lanes after the last full stripe.
    pub v1: u64,
    /// The second lane.
    pub v2: u64,
    /// The third lane.
    pub v3: u64,
    /// The fourth lane.
    pub v4: u64,
    /// The number of bytes so far, modulo 2^64.
    pub total: u64,
    /// Starts with the bytes after the last full stripe.
    pub waiting: [u8; 32],
}

impl XxHash64State {
    /// Appends bytes to the stream.
    #[inline(always)]
    #[tactic(auto, using(crate::proofs::Xxh64Writes::xxh64_state_stands_after))]
    pub fn write(&mut self, bytes: &[u8])
        ensures after { xxh64_state_of self.new ≡ xxh64_after (xxh64_state_of self.old) bytes.now }
        ensures stands { (seed : ℕ) (before : List ℕ) → Xxh64StateStands self.old seed before →
            Xxh64StateStands self.new seed (before ++ bytes.now) }
    {
        if bytes.len() < STRIPE - self.waiting_count() {
            self.write_within(bytes);
        } else {
            self.write_across(bytes);
        }
    }

    /// The 64-bit hash of all bytes so far, as of a hasher that resumes the state.
    ///
    /// It reads the waiting bytes in place, where a hasher would copy them first.
    #[inline(always)]
    #[tactic(auto, using(crate::proofs::Xxh64Answers::for_finish64))]
    pub fn finish(&self) -> u64
        ensures answer { result ≡ xxh64_answer (xxh64_state_of self.now) }
        ensures stands { (seed : ℕ) (bytes : List ℕ) → Xxh64StateStands self.now seed bytes →
            result ≡ xxh64 seed bytes }
    {
        let hash = if self.total < STRIPE as u64 {
            self.seed.wrapping_add(PRIME5)
        } else {
            merge(self.lanes())
        };
        let hash = hash.wrapping_add(self.total);
        avalanche(fold_tail(hash, &self.waiting[..self.waiting_count()]))
    }

    // The lanes after the last full stripe.
    #[inline(always)]
    fn lanes(&self) -> ScalarLanes
        ensures { result ≡ record {
          v1 = self.now.v1;
          v2 = self.now.v2;
          v3 = self.now.v3;
          v4 = self.now.v4;
        } }
    {
        ScalarLanes {
            v1: self.v1,
            v2: self.v2,
            v3: self.v3,
            v4: self.v4,
        }
    }

    // How many bytes of `waiting` count.
    #[inline(always)]
    fn waiting_count(&self) -> usize
        ensures { result ≡ self.now.total % 32 }
    {
        (self.total % STRIPE as u64) as usize
    }

    // Appends bytes to the partial stripe, which stays partial.
    #[inline(always)]
    #[tactic(auto, using(crate::proofs::Xxh64Writes::for_state_write_within))]
    fn write_within(&mut self, bytes: &[u8])
        requires { self.old.total % 32 + length bytes.now < 32 }
        ensures { xxh64_state_of self.new ≡ xxh64_after (xxh64_state_of self.old) bytes.now }
    {
        let count = self.waiting_count();
        self.total = self.total.wrapping_add(bytes.len() as u64);
        copy_small(&mut self.waiting, count, bytes);
    }

    // Completes the partial stripe, and goes on after it. A separate call costs short writes
    // nothing.
    #[inline(never)]
    fn write_across(&mut self, bytes: &[u8])
        requires { 32 ≤ self.old.total % 32 + length bytes.now }
        ensures { xxh64_state_of self.new ≡ xxh64_after (xxh64_state_of self.old) bytes.now }
    {
        let count = self.waiting_count();
        self.total = self.total.wrapping_add(bytes.len() as u64);
        let lanes = consume(self.lanes(), &mut self.waiting, count, bytes);
        self.v1 = lanes.v1;
        self.v2 = lanes.v2;
        self.v3 = lanes.v3;
        self.v4 = lanes.v4;
    }
}

impl XxHash64 {
    /// A hasher that resumes a state.
    #[inline(always)]
    pub fn resume(state: &XxHash64State) -> Self
        ensures state { result ≡ xxh64_state_of state.now }
        ensures stands { (seed : ℕ) (bytes : List ℕ) → Xxh64StateStands state.now seed bytes →
            Xxh64Stands result seed bytes }
    {
        XxHash64 {
            seed: state.seed,
            lanes: u64x4::from_array([state.v1, state.v2, state.v3, state.v4]),
            total: state.total,
            buffer: state.waiting,
            count: state.waiting_count(),
        }
    }

    /// The state of this hasher.
    #[inline(always)]
    pub fn state(&self) -> XxHash64State
        ensures state { xxh64_state_of result ≡ self.now }
        ensures stands { (seed : ℕ) (bytes : List ℕ) → Xxh64Stands self.now seed bytes →
            Xxh64StateStands result seed bytes }
    {
        let [v1, v2, v3, v4] = self.lanes.to_array();
        XxHash64State {
            seed: self.seed,
            v1,
            v2,
            v3,
            v4,
            total: self.total,
            waiting: self.buffer,
        }
    }
}
