//! MurmurHash3 x64 128 in one call, and by a state for streams.

ghost use Rattle.std.specs.Prelude.{◌≡◌, ◌+◌, ◌*◌, ◌^◌, ℕ, List, [], ◌∷◌, ◌++◌, replicate, slice_index};
ghost use Rattle.datasketches.specs.Columns.{murmur_words};
ghost use Rattle.datasketches.specs.Bytes.{low_bytes};
ghost use Rattle.datasketches.specs.States.{murmur_state_of, MurmurStateStands};
ghost use Rattle.datasketches.specs.Murmur.{murmur_after, murmur_answer};

use datasketches::hash::{Hasher, MurmurHash3X64128, MurmurState};

/// Writes MurmurHash3 x64 128 of `input` with a seed: its first and its second word.
#[unsafe(no_mangle)]
pub extern "C" fn sketch_murmur3_x64_128(input: &[u8], seed: u64, hash: &mut [u64; 2])
    ensures { hash.new ≡ murmur_words seed input.now }
{
    let (h1, h2) = MurmurHash3X64128::hash(input, seed);
    *hash = [h1, h2];
}

/// Starts a stream with a seed. All bytes of the buffer become 0, as after an initializer.
#[unsafe(no_mangle)]
#[tactic(auto, using(crate::proofs::Rules::for_reset))]
pub extern "C" fn sketch_murmur3_x64_128_reset(state: &mut MurmurState, seed: u64)
    ensures stands { MurmurStateStands state.new seed [] }
    ensures zeros { state.new.waiting ≡ replicate 16 0 }
{
    *state = MurmurState {
        waiting: [0; 16],
        ..MurmurHash3X64128::with_seed(seed).state()
    };
}

/// Appends bytes to the stream.
#[unsafe(no_mangle)]
pub extern "C" fn sketch_murmur3_x64_128_update(state: &mut MurmurState, input: &[u8])
    ensures after { murmur_state_of state.new ≡ murmur_after (murmur_state_of state.old) input.now }
    ensures stands { (seed : ℕ) (before : List ℕ) → MurmurStateStands state.old seed before →
        MurmurStateStands state.new seed (before ++ input.now) }
{
    state.write(input);
}

/// Writes MurmurHash3 x64 128 of the stream so far. More bytes can follow.
#[unsafe(no_mangle)]
pub extern "C" fn sketch_murmur3_x64_128_digest(state: &MurmurState, hash: &mut [u64; 2])
    ensures answer { let pair = murmur_answer (murmur_state_of state.now) in
        hash.new ≡ (pair.0 ∷ pair.1 ∷ []) }
    ensures stands { (seed : ℕ) (bytes : List ℕ) → MurmurStateStands state.now seed bytes →
        hash.new ≡ murmur_words seed bytes }
{
    let (h1, h2) = MurmurHash3X64128::resume(state).finish128();
    *hash = [h1, h2];
}

/// Writes the 16 bytes of a hash in the order that the reference code leaves in memory and other
/// tools print: each word's lowest byte first.
#[unsafe(no_mangle)]
pub extern "C" fn sketch_murmur3_x64_128_bytes(hash: &[u64; 2], out: &mut [u8; 16])
    ensures { out.new ≡ low_bytes 16 (slice_index hash.now 0 + slice_index hash.now 1 * 2 ^ 64) }
{
    *out = MurmurHash3X64128::bytes_of((hash[0], hash[1]));
}
