//! The C library `sketch_hash`: the hashers and the Bloom filter of Apache Parquet.
//!
//! States and filters are in the caller's memory. Any bytes are safe content for either, and
//! nothing allocates, so no call requires more than its types say. Calls pass and return only
//! numbers and pointers, since the C ABI of structs differs between systems.
//!
//! A result of type `i32` is 0 on success, or a negative error, such as [`ERROR_LENGTH`]. The call
//! then changed nothing, except that it wrote the index of a wrong offset.
#![tactic(auto)]

ghost use Rattle.std.specs.Prelude.{◌≡◌};
ghost use Rattle.sketch_c.specs.{IsNumber, Reports};

pub mod bloom;
pub mod columns;
pub mod murmur;
pub mod seed;
pub mod xxh64;

use sketch_bloom::Fault;

/// No filter has this length, or the lengths of two differ, or the number of blocks is odd.
pub const ERROR_LENGTH: i32 = -1;

/// An offset is missing, past the end, or below the one before it.
pub const ERROR_OFFSET: i32 = -2;

/// There are fewer values than places for results.
pub const ERROR_COUNT: i32 = -3;

// No call takes memory, so none returns it.
const ERROR_MEMORY: i32 = -4;

/// The hash of this seed is 0, so no sketch may use the seed.
pub const ERROR_SEED: i32 = -5;

/// The version of the library as one number, major * 10000 + minor * 100 + patch: 3.2.0.
#[unsafe(no_mangle)]
pub extern "C" fn sketch_hash_version() -> u32
    ensures { result ≡ 30200 }
{
    30_200
}

// 0, or the number of the error.
#[inline(always)]
fn status_of(outcome: Result<(), Fault>) -> i32
    ensures { IsNumber outcome result }
{
    match outcome {
        Ok(()) => 0,
        Err(Fault::Length(_) | Fault::OtherLength(_) | Fault::OddBlocks(_)) => ERROR_LENGTH,
        Err(Fault::Offset(_)) => ERROR_OFFSET,
        Err(Fault::Count(_)) => ERROR_COUNT,
        Err(Fault::OutOfMemory) => ERROR_MEMORY,
    }
}

// 0, or the number of the error. The index of a wrong offset is written.
#[inline(always)]
fn report(outcome: Result<(), Fault>, wrong_offset: &mut usize) -> i32
    ensures { Reports outcome wrong_offset.old wrong_offset.new result }
{
    if let Err(Fault::Offset(i)) = outcome {
        *wrong_offset = i;
    }
    status_of(outcome)
}
