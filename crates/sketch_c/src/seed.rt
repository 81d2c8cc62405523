//! The seed hash of sketches.

ghost use Rattle.std.specs.Prelude.{◌≡◌, ◌≢◌, ◌⊎◌, pos};
ghost use Rattle.datasketches.specs.SeedHash.{seed_hash};
ghost use Rattle.sketch_c.specs.{error};

use crate::ERROR_SEED;
use datasketches::hash::seed_hash_of;

/// Writes the seed hash of a seed: the low 16 bits of the first word of MurmurHash3's hash of its
/// eight little-endian bytes, under seed 0. Returns [`ERROR_SEED`], and writes nothing, if that is
/// 0.
#[unsafe(no_mangle)]
pub extern "C" fn sketch_seed_hash(seed: u64, hash: &mut u16) -> i32
    ensures { ((result ≡ pos 0) × (hash.new ≡ seed_hash seed) × (seed_hash seed ≢ 0))
        ⊎ ((result ≡ error 5) × (hash.new ≡ hash.old) × (seed_hash seed ≡ 0)) }
{
    let computed = seed_hash_of(seed);
    if computed == 0 {
        return ERROR_SEED;
    }
    *hash = computed;
    0
}
