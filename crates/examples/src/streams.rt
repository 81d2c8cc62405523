//! Streams that come in pieces, and hashes that resume from a checkpoint.

ghost use Rattle.std.specs.Prelude.{◌≡◌, ◌↔◌, ℕ, List, ◌++◌, IsTrue};
ghost use Rattle.std.specs.List.{flat_map};
ghost use Rattle.datasketches.specs.Laws.{DifferInOneBlock, DifferInOneTailStep};
ghost use Rattle.datasketches.specs.States.{Xxh64StateStands};
ghost use Rattle.datasketches.specs.Murmur.{murmur};
ghost use Rattle.datasketches.specs.Xxh64.{xxh64};

use datasketches::hash::value::feed_all;
use datasketches::hash::value::raw_bytes::RawBytes;
use datasketches::hash::{Hasher, MurmurHash3X64128, XxHash64, XxHash64State};
use datasketches::laws::{murmur_both, xx_both};

/// The Murmur pair of a stream that comes in pieces.
#[tactic(auto, using(datasketches::proofs::CallerLemmas::murmur_of_one_write))]
pub fn murmur_of_pieces(seed: u64, pieces: &[RawBytes<&[u8]>]) -> (u64, u64)
    ensures { result ≡ murmur seed (flat_map (λ piece. piece.now) pieces.now) }
{
    let mut hasher = MurmurHash3X64128::with_seed(seed);
    feed_all(pieces, &mut hasher);
    hasher.finish128()
}

/// A checkpoint of a stream: the state after its first bytes.
pub fn checkpoint(seed: u64, prefix: &[u8]) -> XxHash64State
    ensures { Xxh64StateStands result seed prefix.now }
{
    let mut hasher = XxHash64::with_seed(seed);
    hasher.write(prefix);
    hasher.state()
}

/// The XXH64 hash of a stream that resumes from a checkpoint.
pub fn xxh64_from(state: &XxHash64State, rest: &[u8]) -> u64
    ensures { (seed : ℕ) (prefix : List ℕ) → Xxh64StateStands state.now seed prefix →
        result ≡ xxh64 seed (prefix ++ rest.now) }
{
    let mut hasher = XxHash64::resume(state);
    hasher.write(rest);
    hasher.finish64()
}

/// Whether a stream is what it was, by its Murmur pairs alone. A change inside one aligned block of
/// sixteen bytes is always seen.
pub fn has_same_pair(seed: u64, before: &[u8], after: &[u8]) -> bool
    ensures same { before.now ≡ after.now → IsTrue result }
    ensures changed { DifferInOneBlock before.now after.now → IsTrue result → ⊥ }
    ensures pairs { IsTrue result ↔ (murmur seed before.now ≡ murmur seed after.now) }
{
    let (old, new) = murmur_both(seed, before, seed, after);
    old == new
}

/// Whether two seeds are equal, by the Murmur pairs of one stream: no stream has one pair twice.
pub fn is_same_seed(one: u64, other: u64, bytes: &[u8]) -> bool
    ensures { IsTrue result ↔ (one ≡ other) }
{
    let (first, second) = murmur_both(one, bytes, other, bytes);
    first == second
}

/// Whether a stream is what it was, by its XXH64 alone. A change in one step of the tail is always
/// seen: in a word of eight bytes, a word of four bytes, or a byte after the last full stripe.
pub fn has_same_xxh64(seed: u64, before: &[u8], after: &[u8]) -> bool
    ensures same { before.now ≡ after.now → IsTrue result }
    ensures changed { DifferInOneTailStep before.now after.now → IsTrue result → ⊥ }
    ensures hashes { IsTrue result ↔ (xxh64 seed before.now ≡ xxh64 seed after.now) }
{
    let (old, new) = xx_both(seed, before, seed, after);
    old == new
}
