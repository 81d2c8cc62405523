//! The Bloom filter of Apache Parquet, in bytes that the caller owns.

ghost use Rattle.std.specs.Prelude.{◌≡◌, ◌⊎◌, ◌+◌, ◌++◌, ◌<◌, ◌≤◌, ◌-◌, ◌*◌, ◌/◌, ◌^◌, ℕ, List, Result, pos, drop, length, map, take};
ghost use Rattle.datasketches.specs.Bytes.{low_bytes};
ghost use Rattle.sketch_bloom.specs.declared.fault.Fault.{Fault};
ghost use Rattle.sketch_bloom.specs.Columns.{FindsEach, FindsKeys, InsertsKeys};
ghost use Rattle.sketch_bloom.specs.Filter.{Folds, Inserts, InsertsAll, IsFoldable, IsLength, IsMergeFault, Merges, block_of, hash_of};
ghost use Rattle.sketch_bloom.specs.Header.{IsHeaderLength, header};
ghost use Rattle.sketch_bloom.specs.FoldRate.{FoldsTo};
ghost use Rattle.sketch_bloom.specs.Size.{IsLeastSize, NoneKeepsRate, max_log2_blocks};
ghost use Rattle.sketch_c.specs.{Changes, IsNumber, MayContain, Reports, error};

use crate::{ERROR_LENGTH, report, status_of};
use datasketches::hash::value::raw_bytes;

/// The smallest number of bytes, a power of two from 32 bytes to 128 MiB, for a filter of `keys`
/// different keys with a false positive rate of at most one in `one_in`. Returns 0 if there is
/// none.
#[unsafe(no_mangle)]
pub extern "C" fn sketch_bloom_bytes_for(keys: u64, one_in: u64) -> usize
    ensures least { ((result ≡ 0) × NoneKeepsRate keys one_in) ⊎ ((log2_blocks : ℕ)
        × (result ≡ 32 * 2 ^ log2_blocks) × IsLeastSize keys one_in log2_blocks) }
    ensures size { (result ≡ 0) ⊎ ((log2_blocks : ℕ) × (log2_blocks ≤ max_log2_blocks)
        × (result ≡ 32 * 2 ^ log2_blocks)) }
    ensures some { one_in ≡ 1 → result ≡ 32 }
    ensures load { 1 < one_in → (result ≡ 0) ⊎ (keys ≤ 4 * result) }
    ensures none { one_in ≡ 0 → result ≡ 0 }
{
    sketch_bloom::bytes_for(keys, one_in).unwrap_or(0)
}

/// Returns 0 if a filter can have this many bytes, and [`ERROR_LENGTH`] if not.
#[unsafe(no_mangle)]
pub extern "C" fn sketch_bloom_check(length: usize) -> i32
    ensures { ((result ≡ pos 0) × IsLength length)
        ⊎ ((result ≡ error 1) × (IsLength length → ⊥)) }
{
    if sketch_bloom::is_length(length) {
        0
    } else {
        ERROR_LENGTH
    }
}

/// Inserts a key.
#[unsafe(no_mangle)]
pub extern "C" fn sketch_bloom_insert(bits: &mut [u8], key: &[u8]) -> i32
    ensures { Changes (Inserts (hash_of key.now) bits.old bits.new) bits.old bits.new result }
{
    status_of(sketch_bloom::insert(bits, &raw_bytes::from_slice(key)))
}

/// Returns 0 if the filter certainly does not contain a key, and 1 if it may. Returns 1 too if the
/// length is not that of a filter, since such bytes rule nothing out.
#[unsafe(no_mangle)]
pub extern "C" fn sketch_bloom_contains(bits: &[u8], key: &[u8]) -> i32
    ensures { MayContain bits.now (hash_of key.now) result }
{
    i32::from(sketch_bloom::contains(bits, &raw_bytes::from_slice(key)).unwrap_or(true))
}

/// Inserts a key by its hash: XXH64 with seed 0.
#[unsafe(no_mangle)]
pub extern "C" fn sketch_bloom_insert_hash(bits: &mut [u8], hash: u64) -> i32
    ensures { Changes (Inserts hash bits.old bits.new) bits.old bits.new result }
{
    status_of(sketch_bloom::insert_hash(bits, hash))
}

/// Returns 0 if the filter certainly does not contain the key with this hash, XXH64 with seed 0,
/// and 1 if it may or the length is not that of a filter.
#[unsafe(no_mangle)]
pub extern "C" fn sketch_bloom_contains_hash(bits: &[u8], hash: u64) -> i32
    ensures { MayContain bits.now hash result }
{
    i32::from(sketch_bloom::contains_hash(bits, hash).unwrap_or(true))
}

/// Inserts the keys of a column with 32-bit offsets. There is one key less than offsets.
#[unsafe(no_mangle)]
pub extern "C" fn sketch_bloom_insert_each32(
    bits: &mut [u8],
    keys: &[u8],
    offsets: &[u32],
    wrong_offset: &mut usize,
) -> i32
    ensures { (outcome : Result Unit Fault)
        × InsertsKeys keys.now offsets.now bits.old bits.new outcome
        × Reports outcome wrong_offset.old wrong_offset.new result }
{
    report(sketch_bloom::insert_each(bits, keys, offsets), wrong_offset)
}

/// Inserts the keys of a column with 64-bit offsets. There is one key less than offsets.
#[unsafe(no_mangle)]
pub extern "C" fn sketch_bloom_insert_each64(
    bits: &mut [u8],
    keys: &[u8],
    offsets: &[u64],
    wrong_offset: &mut usize,
) -> i32
    ensures { (outcome : Result Unit Fault)
        × InsertsKeys keys.now offsets.now bits.old bits.new outcome
        × Reports outcome wrong_offset.old wrong_offset.new result }
{
    report(sketch_bloom::insert_each(bits, keys, offsets), wrong_offset)
}

/// Inserts the four little-endian bytes of each number.
#[unsafe(no_mangle)]
pub extern "C" fn sketch_bloom_insert_each_u32(bits: &mut [u8], values: &[u32]) -> i32
    ensures { let hashes = map (λ n. hash_of (low_bytes 4 n)) values.now in
        Changes (InsertsAll hashes bits.old bits.new) bits.old bits.new result }
{
    status_of(sketch_bloom::insert_each_value(bits, values))
}

/// Inserts the eight little-endian bytes of each number.
#[unsafe(no_mangle)]
pub extern "C" fn sketch_bloom_insert_each_u64(bits: &mut [u8], values: &[u64]) -> i32
    ensures { let hashes = map (λ n. hash_of (low_bytes 8 n)) values.now in
        Changes (InsertsAll hashes bits.old bits.new) bits.old bits.new result }
{
    status_of(sketch_bloom::insert_each_value(bits, values))
}

/// Inserts each key of a column by its hash: XXH64 with seed 0.
#[unsafe(no_mangle)]
pub extern "C" fn sketch_bloom_insert_each_hash(bits: &mut [u8], hashes: &[u64]) -> i32
    ensures { Changes (InsertsAll hashes.now bits.old bits.new) bits.old bits.new result }
{
    status_of(sketch_bloom::insert_each_hash(bits, hashes))
}

/// Writes to `found[i]` 1 if the filter may contain key i of a column with 32-bit offsets, else 0.
#[unsafe(no_mangle)]
#[tactic(auto, using(crate::proofs::Rules::for_columns))]
pub extern "C" fn sketch_bloom_contains_each32(
    bits: &[u8],
    keys: &[u8],
    offsets: &[u32],
    found: &mut [u8],
    wrong_offset: &mut usize,
) -> i32
    ensures { (outcome : Result Unit Fault)
        × FindsKeys bits.now keys.now offsets.now found.old found.new outcome
        × Reports outcome wrong_offset.old wrong_offset.new result }
{
    let outcome = sketch_bloom::contains_each(bits, keys, offsets, found);
    report(outcome, wrong_offset)
}

/// Writes to `found[i]` 1 if the filter may contain key i of a column with 64-bit offsets, else 0.
#[unsafe(no_mangle)]
#[tactic(auto, using(crate::proofs::Rules::for_columns))]
pub extern "C" fn sketch_bloom_contains_each64(
    bits: &[u8],
    keys: &[u8],
    offsets: &[u64],
    found: &mut [u8],
    wrong_offset: &mut usize,
) -> i32
    ensures { (outcome : Result Unit Fault)
        × FindsKeys bits.now keys.now offsets.now found.old found.new outcome
        × Reports outcome wrong_offset.old wrong_offset.new result }
{
    let outcome = sketch_bloom::contains_each(bits, keys, offsets, found);
    report(outcome, wrong_offset)
}

/// Writes to `found[i]` 1 if the filter may contain number i, as four little-endian bytes, else 0.
#[unsafe(no_mangle)]
pub extern "C" fn sketch_bloom_contains_each_u32(
    bits: &[u8],
    values: &[u32],
    found: &mut [u8],
) -> i32
    ensures { let hashes = map (λ v. hash_of (low_bytes 4 v)) values.now in
        (outcome : Result Unit Fault)
        × FindsEach bits.now hashes found.old found.new outcome × IsNumber outcome result }
{
    status_of(sketch_bloom::contains_each_value(bits, values, found))
}

/// Writes to `found[i]` 1 if the filter may contain number i, as eight little-endian bytes, else 0.
#[unsafe(no_mangle)]
pub extern "C" fn sketch_bloom_contains_each_u64(
    bits: &[u8],
    values: &[u64],
    found: &mut [u8],
) -> i32
    ensures { let hashes = map (λ v. hash_of (low_bytes 8 v)) values.now in
        (outcome : Result Unit Fault)
        × FindsEach bits.now hashes found.old found.new outcome × IsNumber outcome result }
{
    status_of(sketch_bloom::contains_each_value(bits, values, found))
}

/// Writes to `found[i]` 1 if the filter may contain the key with hash i (XXH64, seed 0), else 0.
#[unsafe(no_mangle)]
pub extern "C" fn sketch_bloom_contains_each_hash(
    bits: &[u8],
    hashes: &[u64],
    found: &mut [u8],
) -> i32
    ensures { (outcome : Result Unit Fault)
        × FindsEach bits.now hashes.now found.old found.new outcome × IsNumber outcome result }
{
    status_of(sketch_bloom::contains_each_hash(bits, hashes, found))
}

/// Merges the filter `from` into the filter `into` of the same length.
#[unsafe(no_mangle)]
pub extern "C" fn sketch_bloom_merge(into: &mut [u8], from: &[u8]) -> i32
    ensures { ((result ≡ pos 0) × IsLength (length into.old) × Merges from.now into.old into.new)
        ⊎ ((result ≡ error 1) × (into.new ≡ into.old)
        × ((fault : Fault) × IsMergeFault (length into.old) (length from.now) fault)) }
{
    status_of(sketch_bloom::merge(into, from))
}

/// Folds a filter of an even number of blocks into its first half, which is then the filter of that
/// length of the same keys. The second half is unchanged.
#[unsafe(no_mangle)]
pub extern "C" fn sketch_bloom_fold(bits: &mut [u8]) -> i32
    ensures { let half = length bits.old / 2 in
        ((result ≡ pos 0) × IsFoldable (length bits.old) × Folds bits.old (take half bits.new)
        × (drop half bits.new ≡ drop half bits.old))
        ⊎ ((result ≡ error 1) × (bits.new ≡ bits.old) × (IsFoldable (length bits.old) → ⊥)) }
{
    status_of(sketch_bloom::fold(bits))
}

/// Folds a filter as often as its false positive rate, by the bits that are set, stays at most one
/// in `one_in`. Returns the length of the folded filter, which is the first part of `bits`, or 0 if
/// the length is not that of a filter.
#[unsafe(no_mangle)]
pub extern "C" fn sketch_bloom_fold_to(bits: &mut [u8], one_in: u64) -> usize
    ensures { (IsLength (length bits.old) × IsLength result × (result ≤ length bits.old)
        × FoldsTo one_in bits.old (take result bits.new))
        ⊎ ((result ≡ 0) × (bits.new ≡ bits.old) × (IsLength (length bits.old) → ⊥)) }
{
    sketch_bloom::fold_to(bits, one_in).unwrap_or(0)
}

/// The offset of the block of 32 bytes of a hash, XXH64 with seed 0, in a filter of this many
/// bytes, or `usize::MAX` if no filter has this length. The block, as a filter, contains the hash
/// exactly if the filter does.
#[unsafe(no_mangle)]
pub extern "C" fn sketch_bloom_block_offset(length: usize, hash: u64) -> usize
    ensures { (IsLength length × (result ≡ 32 * block_of (length / 32) hash)
        × (result + 32 ≤ length))
        ⊎ ((result ≡ 2 ^ 64 - 1) × (IsLength length → ⊥)) }
{
    sketch_bloom::block_offset(length, hash).unwrap_or(usize::MAX)
}

/// Writes the header of a filter with this many bytes to the start of `out`, and returns the
/// header's length. Returns 0 if there is no such header, or `out` is too short.
#[unsafe(no_mangle)]
pub extern "C" fn sketch_bloom_header_write(bytes: u64, out: &mut [u8]) -> usize
    ensures { (IsHeaderLength bytes × (result ≡ length (header bytes))
        × (out.new ≡ header bytes ++ drop result out.old))
        ⊎ ((result ≡ 0) × (out.new ≡ out.old)
        × (IsHeaderLength bytes → length out.old < length (header bytes))) }
{
    sketch_bloom::write_header(bytes as usize, out).unwrap_or(0)
}

/// Reads the header at the start of `input`: returns the header's length, and writes the filter's
/// length to `bytes`. Returns 0, and writes nothing, if `input` does not start with a header.
#[unsafe(no_mangle)]
pub extern "C" fn sketch_bloom_header_read(input: &[u8], bytes: &mut u64) -> usize
    ensures { (IsHeaderLength bytes.new × (result ≡ length (header bytes.new))
        × (input.now ≡ header bytes.new ++ drop result input.now))
        ⊎ ((result ≡ 0) × (bytes.new ≡ bytes.old)
        × ((filter : ℕ) (after : List ℕ) → IsHeaderLength filter →
        input.now ≡ header filter ++ after → ⊥)) }
{
    let Some((filter, count)) = sketch_bloom::read_header(input) else {
        return 0;
    };
    *bytes = filter as u64;
    count
}
