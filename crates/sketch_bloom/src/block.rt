//! The block of a hash, and the eight bits of the hash in it.

ghost use Rattle.std.specs.Prelude.{◌≡◌, ℕ, ◌+◌, ◌*◌, ◌/◌, ◌<◌, ◌≤◌, ◌↔◌, slice_index};
ghost use Rattle.sketch_bloom.specs.Filter.{IsLength, IsMaskBit, IsSet, block_of};

use std::simd::prelude::*;

// A constant for each word of a block.
const SALT: [u32; 8] = [
    0x47b6137b, 0x44974d91, 0x8824ad5b, 0xa2b7289d, 0x705495c7, 0x2df1424b, 0x9efc4947, 0x5c6bfb31,
];

// The offset of a hash's block in a filter with this many bytes.
#[inline(always)]
pub(crate) fn block_start(bytes: usize, hash: u64) -> usize
    requires { IsLength bytes }
    ensures start { result ≡ block_of (bytes / 32) hash * 32 }
    ensures inside { result + 32 ≤ bytes }
{
    let blocks = (bytes / 32) as u64;
    ((((hash >> 32) * blocks) >> 32) * 32) as usize
}

// The mask of a hash, as the bytes of a block: one bit in each of its eight words.
#[inline(always)]
pub(crate) fn mask(hash: u64) -> u8x32
    ensures bytes { (k : ℕ) → slice_index result k < 256 }
    ensures bits { (i : ℕ) → IsSet result i ↔ IsMaskBit hash i }
{
    let product = u32x8::splat((hash & 0xffff_ffff) as u32) * u32x8::from_array(SALT);
    (u32x8::splat(1) << (product >> u32x8::splat(27))).to_le_bytes()
}
