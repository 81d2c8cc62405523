//! The state of a Murmur hasher, as plain data.

ghost use Rattle.std.specs.Prelude.{◌≡◌, ℕ, ◌+◌, ◌%◌, ◌<◌, List, ◌++◌, length};
ghost use Rattle.sketch_hash.specs.States.{murmur_state_of, MurmurStateStands};
ghost use Rattle.sketch_hash.specs.Murmur.{murmur_after, MurmurStands};

use super::numbers::{join_words, read_partial_le, read_prefix};
use super::{BLOCK, MurmurHash3X64128};
use crate::hash::copy::copy_small;

/// The state of a [`MurmurHash3X64128`]: a checkpoint of a stream that can be copied, saved and
/// resumed.
///
/// Only the first `total % 16` bytes of `waiting` count; the others may be anything, such as
/// earlier input. Every value can be resumed.
#[repr(C)]
#[derive(Clone, Copy)]
pub struct MurmurState {
    /// The first word after the last full block.
    pub h1: u64,
    /// The second word after the last full block.
    pub h2: u64,
    /// The number of bytes so far, modulo 2^64.
    pub total: u64,
    /// Starts with the bytes after the last full block.
    pub waiting: [u8; 16],
}

impl MurmurState {
    /// Appends bytes to the stream.
    #[inline(always)]
    #[tactic(auto, using(crate::proofs::MurmurWrites::murmur_state_stands_after))]
    pub fn write(&mut self, bytes: &[u8])
        ensures after { murmur_state_of self.new
            ≡ murmur_after (murmur_state_of self.old) bytes.now }
        ensures stands { (seed : ℕ) (before : List ℕ) → MurmurStateStands self.old seed before →
            MurmurStateStands self.new seed (before ++ bytes.now) }
    {
        if bytes.len() < BLOCK - self.waiting_count() {
            self.write_within(bytes);
        } else {
            let mut hasher = MurmurHash3X64128::resume(self);
            if bytes.len() < BLOCK {
                hasher.complete_block(bytes, read_partial_le(bytes));
            } else {
                hasher.write_blocks(bytes);
            }
            *self = hasher.state();
        }
    }

    // How many bytes of `waiting` count.
    #[inline(always)]
    fn waiting_count(&self) -> usize
        ensures { result ≡ self.now.total % 16 }
    {
        (self.total % BLOCK as u64) as usize
    }

    // Appends bytes to the partial block, which stays partial. Through a hasher, writes of one byte
    // are 50 % slower.
    #[inline(always)]
    #[tactic(auto, using(crate::proofs::MurmurWrites::for_state_write_within))]
    fn write_within(&mut self, bytes: &[u8])
        requires { self.old.total % 16 + length bytes.now < 16 }
        ensures { murmur_state_of self.new ≡ murmur_after (murmur_state_of self.old) bytes.now }
    {
        let count = self.waiting_count();
        self.total = self.total.wrapping_add(bytes.len() as u64);
        copy_small(&mut self.waiting, count, bytes);
    }
}

impl MurmurHash3X64128 {
    /// A hasher that resumes a state.
    #[inline(always)]
    pub fn resume(state: &MurmurState) -> Self
        ensures state { result ≡ murmur_state_of state.now }
        ensures stands { (seed : ℕ) (bytes : List ℕ) → MurmurStateStands state.now seed bytes →
            MurmurStands result seed bytes }
    {
        let count = state.waiting_count();
        let (low, high) = read_prefix(&state.waiting, count);
        MurmurHash3X64128 {
            h1: state.h1,
            h2: state.h2,
            total: state.total,
            low,
            high,
            count,
        }
    }

    /// The state of this hasher.
    #[inline(always)]
    #[tactic(auto, using(crate::proofs::MurmurWrites::for_state))]
    pub fn state(&self) -> MurmurState
        ensures state { murmur_state_of result ≡ self.now }
        ensures stands { (seed : ℕ) (bytes : List ℕ) → MurmurStands self.now seed bytes →
            MurmurStateStands result seed bytes }
    {
        MurmurState {
            h1: self.h1,
            h2: self.h2,
            total: self.total,
            waiting: join_words(self.low, self.high).to_le_bytes(),
        }
    }
}
