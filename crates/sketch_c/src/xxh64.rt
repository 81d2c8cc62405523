//! XXH64 in one call, of bytes or of a number, and by a state for streams.

ghost use Rattle.std.specs.Prelude.{◌≡◌, ℕ, List, [], ◌++◌, replicate};
ghost use Rattle.datasketches.specs.Bytes.{eight};
ghost use Rattle.datasketches.specs.States.{xxh64_state_of, Xxh64StateStands};
ghost use Rattle.datasketches.specs.Xxh64.{xxh64, xxh64_after, xxh64_answer};

use datasketches::hash::{Hasher, XxHash64, XxHash64State};

/// XXH64 of `input` with a seed.
#[unsafe(no_mangle)]
pub extern "C" fn sketch_xxh64(input: &[u8], seed: u64) -> u64
    ensures { result ≡ xxh64 seed input.now }
{
    XxHash64::hash(input, seed)
}

/// XXH64 of the eight little-endian bytes of `value` with a seed.
#[unsafe(no_mangle)]
pub extern "C" fn sketch_xxh64_u64(value: u64, seed: u64) -> u64
    ensures { result ≡ xxh64 seed (eight value) }
{
    XxHash64::hash_u64(value, seed)
}

/// Starts a stream with a seed. All bytes of the buffer become 0, as after an initializer.
#[unsafe(no_mangle)]
#[tactic(auto, using(crate::proofs::Rules::for_reset))]
pub extern "C" fn sketch_xxh64_reset(state: &mut XxHash64State, seed: u64)
    ensures stands { Xxh64StateStands state.new seed [] }
    ensures zeros { state.new.waiting ≡ replicate 32 0 }
{
    *state = XxHash64State {
        waiting: [0; 32],
        ..XxHash64::with_seed(seed).state()
    };
}

/// Appends bytes to the stream.
#[unsafe(no_mangle)]
pub extern "C" fn sketch_xxh64_update(state: &mut XxHash64State, input: &[u8])
    ensures after { xxh64_state_of state.new ≡ xxh64_after (xxh64_state_of state.old) input.now }
    ensures stands { (seed : ℕ) (before : List ℕ) → Xxh64StateStands state.old seed before →
        Xxh64StateStands state.new seed (before ++ input.now) }
{
    state.write(input);
}

/// XXH64 of the stream so far. More bytes can follow.
#[unsafe(no_mangle)]
pub extern "C" fn sketch_xxh64_digest(state: &XxHash64State) -> u64
    ensures answer { result ≡ xxh64_answer (xxh64_state_of state.now) }
    ensures stands { (seed : ℕ) (bytes : List ℕ) → Xxh64StateStands state.now seed bytes →
        result ≡ xxh64 seed bytes }
{
    state.finish()
}
