//! Hashes of keys, one by one or in a column, and keys that are identified by their hashes.

ghost use Rattle.std.specs.Prelude.{◌≡◌, ◌↔◌, IsTrue};
ghost use Rattle.datasketches.specs.Columns.{HashesEach};
ghost use Rattle.datasketches.specs.Murmur.{murmur};
ghost use Rattle.datasketches.specs.Bytes.{integer_bytes};
ghost use Rattle.datasketches.specs.Xxh64.{xxh64};

use datasketches::hash::value::sign_extend;
use datasketches::hash::{Hash, Hasher, MurmurHash3X64128, XxHash64};
use datasketches::laws;

/// The Murmur pair of any value.
#[tactic(auto, using(datasketches::proofs::CallerLemmas::murmur_of_one_write))]
pub fn pair_of_value<T: Hash>(seed: u64, value: &T) -> (u64, u64)
    ensures { result ≡ murmur seed (T.fed value.now) }
{
    let mut hasher = MurmurHash3X64128::with_seed(seed);
    value.hash(&mut hasher);
    hasher.finish128()
}

/// The Murmur pair by which a distinct counter identifies an integer key.
pub fn pair_of(seed: u64, key: i32) -> (u64, u64)
    ensures { result ≡ murmur seed (integer_bytes key) }
{
    pair_of_value(seed, &sign_extend::from_i32(key))
}

/// Whether two keys are equal, by their pairs alone: no two keys share a pair.
pub fn is_same_key(seed: u64, x: i32, y: i32) -> bool
    ensures { IsTrue result ↔ (x ≡ y) }
{
    laws::integer_law();
    pair_of(seed, x) == pair_of(seed, y)
}

/// Whether two numbers are equal, by their XXH64 alone: no two numbers share one.
pub fn is_same_number(seed: u64, x: u64, y: u64) -> bool
    ensures { IsTrue result ↔ (x ≡ y) }
{
    laws::hash_u64_law();
    XxHash64::hash_u64(x, seed) == XxHash64::hash_u64(y, seed)
}

/// Whether two numbers are equal, by their Murmur pairs alone.
pub fn is_same_number_by_murmur(seed: u64, x: u64, y: u64) -> bool
    ensures { IsTrue result ↔ (x ≡ y) }
{
    laws::integer_law();
    pair_of_value(seed, &x) == pair_of_value(seed, &y)
}

/// The XXH64 of each text of a column: text `i` is the bytes from offset `i` up to the next one.
///
/// # Errors
///
/// Returns the index of the first offset that does not fit. Nothing is written then.
pub fn hash_texts(texts: &[u8], offsets: &[u64], out: &mut [u64]) -> Result<(), usize>
    ensures { HashesEach (xxh64 9001) texts.now offsets.now out.old out.new result }
{
    XxHash64::hash_each(texts, offsets, 9001, out)
}
