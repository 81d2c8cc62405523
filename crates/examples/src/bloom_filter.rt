//! A Bloom filter of Apache Parquet that is filled, saved with its header, read, and merged.

ghost use Rattle.std.specs.Prelude.{ℕ, List, ◌≡◌, ◌⊎◌, ◌↔◌, ◌+◌, ◌*◌, ◌^◌, ◌<◌, ◌≤◌, ◌++◌, ◌∷◌, [], Contains, IfOk, IfSome, IsTrue, MatchOption, MatchResult, None, length, map, take};
ghost use Rattle.sketch_bloom.specs.ExactRate.{IsRateAbove, IsRateBelow};
ghost use Rattle.sketch_bloom.specs.Filter.{Folds, Inserts, IsFoldFault, IsLengthFault, IsMember, IsMergeFault, Merges, hash_of};
ghost use Rattle.sketch_bloom.specs.Header.{IsHeaderLength, header};
ghost use Rattle.sketch_bloom.specs.Laws.{StandsFor};
ghost use Rattle.sketch_bloom.specs.FoldRate.{FoldsTo};
ghost use Rattle.sketch_bloom.specs.Size.{IsLeastSize, NoneKeepsRate};

use datasketches::hash::Hash;
use datasketches::hash::value::raw_bytes;
use sketch_bloom::laws::{block_law, fold_law, header_law, insert_law, merge_law, size_law};
use sketch_bloom::{
    BloomFilter, Fault, MAX_BYTES, block_offset, bytes_for, contains, contains_hash, insert,
    insert_each_value, merge, read_header, write_header,
};
use std::alloc::Global;

/// A filter of these values with a false positive rate of at most one in `one_in`, or of 128 MiB if
/// a larger one is needed.
///
/// # Errors
///
/// Returns [`Fault::OutOfMemory`] if there is no memory.
pub fn fill<T: Hash>(alloc: Global, values: &[T], one_in: u64) -> Result<BloomFilter, Fault>
    ensures stands { IfOk result (λ filter.
        StandsFor filter (map (λ value. hash_of (T.fed value)) values.now)) }
    ensures size { let keys = length values.now in
        MatchResult result (λ filter.
        ((length filter ≡ MAX_BYTES) × NoneKeepsRate keys one_in)
        ⊎ ((log2_blocks : ℕ) × (length filter ≡ 32 * 2 ^ log2_blocks)
        × IsLeastSize keys one_in log2_blocks))
        (λ fault. fault ≡ Fault.OutOfMemory) }
{
    insert_law();
    let bytes = bytes_for(values.len() as u64, one_in).unwrap_or(MAX_BYTES);
    let mut filter = BloomFilter::new(alloc, bytes)?;
    filter.insert_each_value(values);
    Ok(filter)
}

/// The size for this number of keys. Its false positive rate, by the Poisson model, is at most the
/// one asked for, plus 2^-22. Each smaller power of two has 0.999 of it or more, for rates down to
/// one in 2^26.
pub fn size_for(keys: u64, one_in: u64) -> Option<usize>
    ensures rate { IfSome result (λ bytes. (log2_blocks : ℕ) × (bytes ≡ 32 * 2 ^ log2_blocks)
        × ((k : ℕ) → 383 ≤ k → IsRateBelow keys (2 ^ log2_blocks) one_in k)
        × ((smaller k : ℕ) → smaller < log2_blocks → 383 ≤ k →
        IsRateAbove keys (2 ^ smaller) one_in k)) }
    ensures none { result ≡ None → NoneKeepsRate keys one_in }
{
    size_law();
    bytes_for(keys, one_in)
}

/// Whether a filter contains a key that was inserted. It always does.
///
/// # Errors
///
/// Returns [`Fault::Length`] if no filter has this length.
pub fn contains_inserted(filter: &[u8], key: &[u8]) -> Result<bool, Fault>
    ensures always { (hashes : List ℕ) → StandsFor filter.now hashes →
        Contains hashes (hash_of key.now) → IfOk result (λ found. IsTrue found) }
    ensures found { MatchResult result
        (λ found. IsTrue found ↔ IsMember filter.now (hash_of key.now))
        (IsLengthFault (length filter.now)) }
{
    insert_law();
    contains(filter, &raw_bytes::from_slice(key))
}

/// Whether two workers have the same filter. They do if they inserted the same values, in any order
/// and however often.
pub fn is_same_filter(one: &[u8], other: &[u8]) -> bool
    ensures always { (hashes others : List ℕ) → length one.now ≡ length other.now →
        StandsFor one.now hashes → StandsFor other.now others →
        ((hash : ℕ) → Contains hashes hash ↔ Contains others hash) → IsTrue result }
    ensures same { IsTrue result ↔ (one.now ≡ other.now) }
{
    insert_law();
    let (left, right) = (one, other);
    left == right
}

/// Merges the filter of another worker into this one, in place. It is then the filter of the values
/// of both.
///
/// # Errors
///
/// Returns [`Fault::Length`] or [`Fault::OtherLength`] as [`merge`] does. The filter is then
/// unchanged.
pub fn merge_in_place(into: &mut [u8], worker: &[u8]) -> Result<(), Fault>
    ensures stands { (hashes others : List ℕ) → StandsFor into.old hashes →
        StandsFor worker.now others → IfOk result (λ _. StandsFor into.new (hashes ++ others)) }
    ensures merges { MatchResult result
        (λ _. Merges worker.now into.old into.new)
        (λ fault. (into.new ≡ into.old)
        × IsMergeFault (length into.old) (length worker.now) fault) }
{
    merge_law();
    merge(into, worker)?;
    Ok(())
}

/// Folds a filter. It is then the filter of half its length of the same values.
///
/// # Errors
///
/// Returns [`Fault::OddBlocks`] if the length is not a multiple of 64 bytes. The filter is then
/// unchanged.
pub fn shrink(filter: &mut BloomFilter) -> Result<(), Fault>
    ensures stands { (hashes : List ℕ) → StandsFor filter.old hashes →
        IfOk result (λ _. StandsFor filter.new hashes) }
    ensures folds { MatchResult result
        (λ _. Folds filter.old filter.new)
        (λ fault. (filter.new ≡ filter.old) × IsFoldFault (length filter.old) fault) }
{
    fold_law();
    filter.fold()
}

/// Folds a filter as often as it finds, by its set bits, at most one in `one_in` of the keys that
/// were not inserted, if the eight bits of a hash were independent. It contains the same values.
pub fn shrink_to(filter: &mut BloomFilter, one_in: u64)
    ensures folds { FoldsTo one_in filter.old filter.new }
    ensures stands { (hashes : List ℕ) → StandsFor filter.old hashes → StandsFor filter.new hashes }
{
    fold_law();
    filter.fold_to(one_in);
}

/// Whether a filter contains a key, from 32 of its bytes: of a filter in a file no more are read.
///
/// # Errors
///
/// Returns [`Fault::Length`] if no filter has this length.
pub fn contains_by_block(filter: &[u8], key: &[u8]) -> Result<bool, Fault>
    ensures { MatchResult result
        (λ found. IsTrue found ↔ IsMember filter.now (hash_of key.now))
        (IsLengthFault (length filter.now)) }
{
    block_law();
    let hash = raw_bytes::from_slice(key).xxh64(0);
    let offset = block_offset(filter.len(), hash)?;
    contains_hash(&filter[offset..offset + 32], hash)
}

/// Writes the header and the filter, as in a Parquet file, and returns their number of bytes.
/// Returns `None` only if `out` is too short, or the filter has 2^31 bytes or more.
#[tactic(auto, using(std::proofs::lemmas::Slice::overwrites))]
pub fn save(filter: &BloomFilter, out: &mut [u8]) -> Option<usize>
    ensures { let saved = header (length filter.now) ++ filter.now in
        MatchOption result
        ((2 ^ 31 ≤ length filter.now) ⊎ (length out.old < length saved))
        (λ count. (count ≡ length saved) × (take count out.new ≡ saved)) }
{
    let bytes = filter.as_bytes();
    let start = write_header(bytes.len(), out)?;
    if out.len() - start < bytes.len() {
        return None;
    }
    let end = start + bytes.len();
    out[start..end].copy_from_slice(bytes);
    Some(end)
}

/// The filter in bytes that start with its header. Returns `None` if there is no header, or fewer
/// bytes than it says.
pub fn load(input: &[u8]) -> Option<&[u8]>
    ensures { MatchOption result
        ((filter rest : List ℕ) → IsHeaderLength (length filter) →
        input.now ≡ header (length filter) ++ (filter ++ rest) → ⊥)
        (λ filter. IsHeaderLength (length filter.now)
        × ((rest : List ℕ) × (input.now ≡ header (length filter.now) ++ (filter.now ++ rest)))) }
{
    header_law();
    let (bytes, start) = read_header(input)?;
    let (_, rest) = input.split_at(start);
    if rest.len() < bytes {
        return None;
    }
    Some(&rest[..bytes])
}

/// Whether a filter contains a key, which may be a false positive. The key is then inserted, in
/// place, as in a mapped file.
///
/// # Errors
///
/// Returns [`Fault::Length`] if no filter has this length. The bytes are then unchanged.
pub fn see_in_place(filter: &mut [u8], key: &[u8]) -> Result<bool, Fault>
    ensures inserts { MatchResult result
        (λ seen. (IsTrue seen ↔ IsMember filter.old (hash_of key.now))
        × Inserts (hash_of key.now) filter.old filter.new)
        (λ fault. (filter.new ≡ filter.old) × IsLengthFault (length filter.old) fault) }
    ensures stands { (hashes : List ℕ) → StandsFor filter.old hashes →
        IfOk result (λ _. StandsFor filter.new (hashes ++ hash_of key.now ∷ [])) }
{
    insert_law();
    let value = raw_bytes::from_slice(key);
    let is_seen = contains(filter, &value)?;
    insert(filter, &value)?;
    Ok(is_seen)
}
