//! Columns of values that are inserted or looked up in one call: keys in a buffer, values, or
//! hashes. Each call checks the filter's length and the offsets once, before it changes anything.

ghost use Rattle.std.specs.Prelude.{◌≡◌, ℕ, ◌+◌, ◌<◌, ◌≤◌, length, map, slice_index};
ghost use Rattle.sketch_bloom.specs.Columns.{FindsEach, FindsKeys, InsertsEach, InsertsKeys, IsAnswer};
ghost use Rattle.sketch_bloom.specs.Filter.{InsertsAll, IsLength, hash_of};

use crate::fault::Fault;
use crate::filter::{check_length, insert_into, is_in};
use datasketches::hash::{Hash, Offset, XxHash64, check_offsets};

// How many keys are hashed before the filter is read for any of them. A processor then waits for
// many blocks of a large filter at once: in 128 MiB a key takes 0.6 times as long.
const BATCH: usize = 32;

/// Inserts the keys of a column. Key i is the bytes of `keys` from offset i up to offset i + 1, as
/// Apache Arrow lays out strings. There is one key less than offsets.
///
/// # Errors
///
/// Returns [`Fault::Length`] if the length of `filter` is not a positive multiple of 32 below 2^37.
/// Otherwise returns [`Fault::Offset`] with the index of the first offset that is past the end of
/// `keys`, or below the offset before it. The filter is then unchanged.
pub fn insert_each<O: Offset>(filter: &mut [u8], keys: &[u8], offsets: &[O]) -> Result<(), Fault>
    ensures { InsertsKeys keys.now (map O.place offsets.now) filter.old filter.new result }
{
    check_length(filter.len())?;
    let count = offsets.len().saturating_sub(1);
    check_offsets(keys, offsets, count).map_err(Fault::Offset)?;
    let mut hashes = [0; BATCH];
    let mut start = 0;
    while start < count {
        let run = &mut hashes[..BATCH.min(count - start)];
        XxHash64::hash_run(keys, offsets, start, 0, run);
        insert_hashes(filter, run);
        start += run.len();
    }
    Ok(())
}

/// Writes 1 to `found[i]` if the filter may contain key i, and 0 if not. The column is laid out as
/// for [`insert_each`], and has as many keys as `found` has places. Further offsets are not read.
///
/// # Errors
///
/// Returns [`Fault::Length`] if the length of `filter` is not a positive multiple of 32 below 2^37.
/// Otherwise returns [`Fault::Offset`] with the index of the first offset that is missing, is past
/// the end of `keys`, or is below the offset before it. `found` is then unchanged.
#[tactic(auto, using(crate::proofs::ColumnLemmas::key_hash))]
pub fn contains_each<O: Offset>(
    filter: &[u8],
    keys: &[u8],
    offsets: &[O],
    found: &mut [u8],
) -> Result<(), Fault>
    ensures { let places = map O.place offsets.now in
        FindsKeys filter.now keys.now places found.old found.new result }
{
    check_length(filter.len())?;
    let count = found.len();
    check_offsets(keys, offsets, count).map_err(Fault::Offset)?;
    let mut hashes = [0; BATCH];
    let mut start = 0;
    while start < count {
        let run = &mut hashes[..BATCH.min(count - start)];
        XxHash64::hash_run(keys, offsets, start, 0, run);
        find_hashes(filter, run, found, start);
        start += run.len();
    }
    Ok(())
}

/// Inserts each value of a slice.
///
/// # Errors
///
/// Returns [`Fault::Length`] if the length of `filter` is not a positive multiple of 32 below 2^37.
/// The filter is then unchanged.
pub fn insert_each_value<T: Hash>(filter: &mut [u8], values: &[T]) -> Result<(), Fault>
    ensures { let hashes = map (λ value. hash_of (T.fed value)) values.now in
        InsertsEach hashes filter.old filter.new result }
{
    check_length(filter.len())?;
    for value in values {
        insert_into(filter, value.xxh64(0));
    }
    Ok(())
}

/// Inserts each value of a column by its hash: XXH64 with seed 0 of its bytes.
///
/// # Errors
///
/// Returns [`Fault::Length`] if the length of `filter` is not a positive multiple of 32 below 2^37.
/// The filter is then unchanged.
pub fn insert_each_hash(filter: &mut [u8], hashes: &[u64]) -> Result<(), Fault>
    ensures { InsertsEach hashes.now filter.old filter.new result }
{
    check_length(filter.len())?;
    insert_hashes(filter, hashes);
    Ok(())
}

/// Writes 1 to `found[i]` if the filter may contain value i, and 0 if not. Values without a place
/// are not read.
///
/// # Errors
///
/// Returns [`Fault::Length`] if the length of `filter` is not a positive multiple of 32 below 2^37.
/// Otherwise returns [`Fault::Count`] if there are fewer values than places. `found` is then
/// unchanged.
pub fn contains_each_value<T: Hash>(
    filter: &[u8],
    values: &[T],
    found: &mut [u8],
) -> Result<(), Fault>
    ensures { let hashes = map (λ value. hash_of (T.fed value)) values.now in
        FindsEach filter.now hashes found.old found.new result }
{
    check_length(filter.len())?;
    if values.len() < found.len() {
        return Err(Fault::Count(values.len()));
    }
    for i in 0..found.len() {
        found[i] = u8::from(is_in(filter, values[i].xxh64(0)));
    }
    Ok(())
}

/// Writes 1 to `found[i]` if the filter may contain the value with hash i, XXH64 with seed 0 of its
/// bytes, and 0 if not. Hashes without a place are not read.
///
/// # Errors
///
/// Returns [`Fault::Length`] if the length of `filter` is not a positive multiple of 32 below 2^37.
/// Otherwise returns [`Fault::Count`] if there are fewer hashes than places. `found` is then
/// unchanged.
pub fn contains_each_hash(filter: &[u8], hashes: &[u64], found: &mut [u8]) -> Result<(), Fault>
    ensures { FindsEach filter.now hashes.now found.old found.new result }
{
    check_length(filter.len())?;
    if hashes.len() < found.len() {
        return Err(Fault::Count(hashes.len()));
    }
    find_hashes(filter, &hashes[..found.len()], found, 0);
    Ok(())
}

// Inserts the values with these hashes. It is not inlined, so columns of keys and of hashes share
// one copy.
#[inline(never)]
fn insert_hashes(filter: &mut [u8], hashes: &[u64])
    requires { IsLength (length filter.old) }
    ensures { InsertsAll hashes.now filter.old filter.new }
{
    for hash in hashes {
        insert_into(filter, *hash);
    }
}

// Writes to `found[start..]` whether the filter contains the values with these hashes. It is not
// inlined, so columns of keys and of hashes share one copy.
#[inline(never)]
fn find_hashes(filter: &[u8], hashes: &[u64], found: &mut [u8], start: usize)
    requires size { IsLength (length filter.now) }
    requires enough { start + length hashes.now ≤ length found.old }
    ensures size { length found.new ≡ length found.old }
    ensures each { (k : ℕ) → k < length hashes.now →
        IsAnswer filter.now (slice_index hashes.now k) (slice_index found.new (start + k)) }
    ensures before { (k : ℕ) → k < start → slice_index found.new k ≡ slice_index found.old k }
{
    for i in 0..hashes.len() {
        found[start + i] = u8::from(is_in(filter, hashes[i]));
    }
}
