//! Columns of keys: a call hashes all keys of a column.

ghost use Rattle.std.specs.Prelude.{◌≡◌, ◌∷◌, ◌+◌, ◌<◌, ◌≤◌, ℕ, true, get_or, length, map, slice_index, MatchResult};
ghost use Rattle.sketch_hash.specs.Columns.{AreHashes, HashesEach, HashesEachNumber, IsBound, AreBounds, IsFirstWrongOffset, key_at, murmur_words};
ghost use Rattle.sketch_hash.specs.Xxh64.{xxh64};

use super::murmurhash::MurmurHash3X64128;
use super::xxhash::{XxHash64, hash_one_of_many};

/// An offset into the bytes of a column: `u32`, `u64`, or a custom type.
pub trait Offset: Copy {
    ghost place: { Self → ℕ };

    /// How many bytes of the column are before the offset.
    fn to_usize(self) -> usize
        ensures { result ≡ place self };
}

impl Offset for u32 {
    ghost place = { λ n. n };

    #[inline(always)]
    fn to_usize(self) -> usize {
        self as usize
    }
}

impl Offset for u64 {
    ghost place = { λ n. n };

    #[inline(always)]
    fn to_usize(self) -> usize {
        self as usize
    }
}

impl XxHash64 {
    /// The 64-bit hash of each key of a column under a seed, each at its place of `out`.
    ///
    /// Key i is the bytes from offset i up to offset i + 1, as Apache Arrow lays out strings. The
    /// first offset may be above 0. The column has as many keys as `out` has places, and one offset
    /// more; further offsets are not read. A column without keys may have no offsets. Arrow's
    /// offsets are signed: a negative one, read as unsigned, is at least 2^31 or 2^63, which is
    /// past the end of all shorter columns.
    ///
    /// # Errors
    ///
    /// Returns the index of the first offset that is missing, is past the end of `bytes`, or is
    /// below the offset before it. `out` is then unchanged.
    #[inline(always)]
    pub fn hash_each<O: Offset>(
        bytes: &[u8],
        offsets: &[O],
        seed: u64,
        out: &mut [u64],
    ) -> Result<(), usize>
        ensures { let places = map O.place offsets.now in
            HashesEach (xxh64 seed) bytes.now places out.old out.new result }
    {
        check_offsets(bytes, offsets, out.len())?;
        XxHash64::hash_run(bytes, offsets, 0, seed, out);
        Ok(())
    }

    /// The 64-bit hash of each key of a run under a seed: of key `start`, and of as many keys as
    /// `out` has places. The caller must have checked the offsets, as [`check_offsets`] does.
    #[inline(never)]
    pub fn hash_run<O: Offset>(
        bytes: &[u8],
        offsets: &[O],
        start: usize,
        seed: u64,
        out: &mut [u64],
    )
        requires { AreBounds bytes.now (map O.place offsets.now) (start + length out.old) }
        ensures size { length out.new ≡ length out.old }
        ensures each { let places = map O.place offsets.now in
            AreHashes (xxh64 seed) (λ i. key_at bytes.now places (start + i)) out.new }
    {
        for i in 0..out.len() {
            out[i] = hash_one_of_many(key_at(bytes, offsets, start + i), seed);
        }
    }

    /// The 64-bit hash of each number's eight little-endian bytes under a seed, each at its place
    /// of `out`, for as many numbers as `out` has places.
    ///
    /// # Errors
    ///
    /// Returns the number of values if `out` has more places. `out` is then unchanged.
    #[inline(always)]
    pub fn hash_each_u64(input: &[u64], seed: u64, out: &mut [u64]) -> Result<(), usize>
        ensures { HashesEachNumber (xxh64 seed) input.now out.old out.new result }
    {
        if input.len() < out.len() {
            return Err(input.len());
        }
        for i in 0..out.len() {
            out[i] = XxHash64::hash_u64(input[i], seed);
        }
        Ok(())
    }
}

impl MurmurHash3X64128 {
    /// The 128-bit hash of each key of a column under a seed, each as its first and its second word
    /// at its place of `out`.
    ///
    /// The column is laid out as for [`XxHash64::hash_each`].
    ///
    /// # Errors
    ///
    /// Returns the index of the first offset that is missing, is past the end of `bytes`, or is
    /// below the offset before it. `out` is then unchanged.
    #[inline(always)]
    pub fn hash_each<O: Offset>(
        bytes: &[u8],
        offsets: &[O],
        seed: u64,
        out: &mut [[u64; 2]],
    ) -> Result<(), usize>
        ensures { let places = map O.place offsets.now in
            HashesEach (murmur_words seed) bytes.now places out.old out.new result }
    {
        check_offsets(bytes, offsets, out.len())?;
        for i in 0..out.len() {
            let (h1, h2) = MurmurHash3X64128::hash(key_at(bytes, offsets, i), seed);
            out[i] = [h1, h2];
        }
        Ok(())
    }
}

/// Checks the offsets of a column of this many keys, laid out as for [`XxHash64::hash_each`].
///
/// `keys` may be any number, also `usize::MAX`: nothing is added to it.
///
/// # Errors
///
/// Returns the index of the first of the `keys + 1` offsets that is missing, is past the end of
/// `bytes`, or is below the offset before it.
#[inline(always)]
pub fn check_offsets<O: Offset>(bytes: &[u8], offsets: &[O], keys: usize) -> Result<(), usize>
    ensures { let places = map O.place offsets.now in MatchResult result
        (λ _. AreBounds bytes.now places keys) (λ i. IsFirstWrongOffset bytes.now places keys i) }
{
    if keys == 0 && offsets.is_empty() || all_bound(bytes, offsets, keys) {
        return Ok(());
    }
    check_each_offset(bytes, offsets, keys)
}

// Whether all offsets are there, none is below the one before it, and the last one is within the
// bytes. Then all are right. It takes half the time of a check of each against the length too.
#[inline(always)]
fn all_bound<O: Offset>(bytes: &[u8], offsets: &[O], keys: usize) -> bool
    ensures { let places = map O.place offsets.now in
        result ≡ true → (i : ℕ) → i ≤ keys → IsBound bytes.now places i }
{
    if offsets.len() <= keys || bytes.len() < offsets[keys].to_usize() {
        return false;
    }
    for i in 0..keys {
        if offsets[i + 1].to_usize() < offsets[i].to_usize() {
            return false;
        }
    }
    true
}

// Checks one offset after another. It is a call of its own, since it is rarely made.
#[inline(never)]
fn check_each_offset<O: Offset>(bytes: &[u8], offsets: &[O], keys: usize) -> Result<(), usize>
    ensures { let places = map O.place offsets.now in MatchResult result
        (λ _. (i : ℕ) → i ≤ keys → IsBound bytes.now places i)
        (λ i. (i ≤ keys) × (IsBound bytes.now places i → ⊥)
        × ((j : ℕ) → j < i → IsBound bytes.now places j)) }
{
    let mut last = 0;
    for i in 0..keys {
        last = check_offset(bytes, offsets, i, last)?;
    }
    check_offset(bytes, offsets, keys, last)?;
    Ok(())
}

// Checks the offset at index `i`, which must not be below the last one, and returns its place.
#[inline(always)]
fn check_offset<O: Offset>(
    bytes: &[u8],
    offsets: &[O],
    i: usize,
    last: usize,
) -> Result<usize, usize>
    requires { last ≡ get_or (0 ∷ map O.place offsets.now) i 0 }
    ensures { let places = map O.place offsets.now in MatchResult result
        (λ place. IsBound bytes.now places i × (place ≡ slice_index places i))
        (λ fault. (fault ≡ i) × (IsBound bytes.now places i → ⊥)) }
{
    if i >= offsets.len() {
        return Err(i);
    }
    let place = offsets[i].to_usize();
    if place < last || bytes.len() < place {
        return Err(i);
    }
    Ok(place)
}

// The bytes of key `i`.
#[inline(always)]
fn key_at<'a, O: Offset>(bytes: &'a [u8], offsets: &[O], i: usize) -> &'a [u8]
    requires start { IsBound bytes.now (map O.place offsets.now) i }
    requires end { IsBound bytes.now (map O.place offsets.now) (i + 1) }
    ensures { result.now ≡ key_at bytes.now (map O.place offsets.now) i }
{
    let first = offsets[i].to_usize();
    &bytes[first..offsets[i + 1].to_usize()]
}
