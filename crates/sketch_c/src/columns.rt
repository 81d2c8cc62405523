//! Columns of keys: a call hashes all keys of a column.

ghost use Rattle.std.specs.Prelude.{◌≡◌, ◌⊎◌, ℕ, Result, Ok, Err, pos};
ghost use Rattle.sketch_c.specs.{ReportsOffset, error};
ghost use Rattle.datasketches.specs.Columns.{HashesEach, HashesEachNumber, murmur_words};
ghost use Rattle.datasketches.specs.Xxh64.{xxh64};

use crate::{ERROR_COUNT, ERROR_OFFSET};
use datasketches::hash::{MurmurHash3X64128, XxHash64};

// 0, or the error for a wrong offset, whose index is written.
#[inline(always)]
fn report_offset(hashed: Result<(), usize>, wrong_offset: &mut usize) -> i32
    ensures { ReportsOffset hashed wrong_offset.old wrong_offset.new result }
{
    match hashed {
        Ok(()) => 0,
        Err(i) => {
            *wrong_offset = i;
            ERROR_OFFSET
        }
    }
}

/// XXH64 of the keys of a column with 32-bit offsets, one for each place of `out`.
#[unsafe(no_mangle)]
#[tactic(auto, using(crate::proofs::Rules::for_columns))]
pub extern "C" fn sketch_xxh64_each32(
    input: &[u8],
    offsets: &[u32],
    seed: u64,
    out: &mut [u64],
    wrong_offset: &mut usize,
) -> i32
    ensures { (outcome : Result Unit ℕ)
        × HashesEach (xxh64 seed) input.now offsets.now out.old out.new outcome
        × ReportsOffset outcome wrong_offset.old wrong_offset.new result }
{
    let hashed = XxHash64::hash_each(input, offsets, seed, out);
    report_offset(hashed, wrong_offset)
}

/// XXH64 of the keys of a column with 64-bit offsets, one for each place of `out`.
#[unsafe(no_mangle)]
#[tactic(auto, using(crate::proofs::Rules::for_columns))]
pub extern "C" fn sketch_xxh64_each64(
    input: &[u8],
    offsets: &[u64],
    seed: u64,
    out: &mut [u64],
    wrong_offset: &mut usize,
) -> i32
    ensures { (outcome : Result Unit ℕ)
        × HashesEach (xxh64 seed) input.now offsets.now out.old out.new outcome
        × ReportsOffset outcome wrong_offset.old wrong_offset.new result }
{
    let hashed = XxHash64::hash_each(input, offsets, seed, out);
    report_offset(hashed, wrong_offset)
}

/// XXH64 of the eight little-endian bytes of each number, one for each place of `out`.
#[unsafe(no_mangle)]
pub extern "C" fn sketch_xxh64_each_u64(values: &[u64], seed: u64, out: &mut [u64]) -> i32
    ensures { let Outcome = HashesEachNumber (xxh64 seed) values.now out.old out.new in
        ((result ≡ pos 0) × Outcome (Ok tt))
        ⊎ ((result ≡ error 3) × (numbers : ℕ) × Outcome (Err numbers)) }
{
    match XxHash64::hash_each_u64(values, seed, out) {
        Ok(()) => 0,
        Err(_) => ERROR_COUNT,
    }
}

/// MurmurHash3 x64 128 of the keys of a column with 32-bit offsets, one for each place of `out`.
#[unsafe(no_mangle)]
#[tactic(auto, using(crate::proofs::Rules::for_columns))]
pub extern "C" fn sketch_murmur3_x64_128_each32(
    input: &[u8],
    offsets: &[u32],
    seed: u64,
    out: &mut [[u64; 2]],
    wrong_offset: &mut usize,
) -> i32
    ensures { (outcome : Result Unit ℕ)
        × HashesEach (murmur_words seed) input.now offsets.now out.old out.new outcome
        × ReportsOffset outcome wrong_offset.old wrong_offset.new result }
{
    let hashed = MurmurHash3X64128::hash_each(input, offsets, seed, out);
    report_offset(hashed, wrong_offset)
}

/// MurmurHash3 x64 128 of the keys of a column with 64-bit offsets, one for each place of `out`.
#[unsafe(no_mangle)]
#[tactic(auto, using(crate::proofs::Rules::for_columns))]
pub extern "C" fn sketch_murmur3_x64_128_each64(
    input: &[u8],
    offsets: &[u64],
    seed: u64,
    out: &mut [[u64; 2]],
    wrong_offset: &mut usize,
) -> i32
    ensures { (outcome : Result Unit ℕ)
        × HashesEach (murmur_words seed) input.now offsets.now out.old out.new outcome
        × ReportsOffset outcome wrong_offset.old wrong_offset.new result }
{
    let hashed = MurmurHash3X64128::hash_each(input, offsets, seed, out);
    report_offset(hashed, wrong_offset)
}
