//! The 16-bit hash of a seed. Sketches with different seed hashes have different seeds. Equal seed
//! hashes do not show that the seeds are equal.

ghost use Rattle.std.specs.Prelude.{◌≡◌, ◌≢◌, MatchResult};
ghost use Rattle.sketch_base.specs.Refusals.{Refuses};
ghost use Rattle.sketch_hash.specs.SeedHash.{seed_hash, zero_seed_hash_text, incompatible_seed_hash_text};

use super::murmurhash::MurmurHash3X64128;
use sketch_base::error::{Error, ErrorKind};
use std::alloc::Global;

/// The seed hash of a seed: the low 16 bits of the first word of MurmurHash3's hash of the seed's
/// eight little-endian bytes, under seed 0.
///
/// Zero stands for no seed hash in old serialized sketches, so a seed whose hash is zero cannot be
/// used.
///
/// # Errors
///
/// Returns an error of kind `error_kind` if the seed hash is zero, or of kind `OutOfMemory` with an
/// empty message if there is no memory for the text.
pub fn compute_seed_hash(alloc: Global, seed: u64, error_kind: ErrorKind) -> Result<u16, Error>
    ensures { MatchResult result
        (λ hash. (hash ≡ seed_hash seed) × (hash ≢ 0))
        (λ error. (seed_hash seed ≡ 0) × Refuses error_kind (zero_seed_hash_text seed) error) }
{
    let hash = seed_hash_of(seed);
    if hash == 0 {
        let text = format!(in alloc;
            "seed {seed} produces a seed hash of zero; choose a different seed"
        );
        return Err(Error::from_text(alloc, error_kind, text));
    }
    Ok(hash)
}

/// The seed hash of a seed, or 0 if the seed cannot be used. [`compute_seed_hash`] returns an error
/// in place of 0.
#[inline(always)]
pub fn seed_hash_of(seed: u64) -> u16
    ensures { result ≡ seed_hash seed }
{
    let (h1, _) = MurmurHash3X64128::hash(&seed.to_le_bytes(), 0);
    (h1 % 0x1_0000) as u16
}

/// Accepts `actual` exactly if it is `expected`.
///
/// # Errors
///
/// Returns an error of kind `kind` for any other, with the sketch's `name` in its text, or of kind
/// `OutOfMemory` with an empty message if there is no memory for the text.
pub fn check_seed_hash(
    alloc: Global,
    expected: u16,
    actual: u16,
    name: &'static str,
    kind: ErrorKind,
) -> Result<(), Error>
    ensures { MatchResult result
        (λ _. actual ≡ expected)
        (λ error. (actual ≢ expected)
        × Refuses kind (incompatible_seed_hash_text name.entry.now expected actual) error) }
{
    if actual == expected {
        return Ok(());
    }
    let text = format!(in alloc;
        "incompatible seed hash of {name}: expected {expected}, got {actual}"
    );
    Err(Error::from_text(alloc, kind, text))
}
