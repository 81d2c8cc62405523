//! Arithmetic of 64-bit words, words read from bytes, and bytes cut into pieces.
//!
//! A word is read in place by `as_array`, which is never `None` here. The 16 bytes of a block are
//! copied into an array first.

ghost use Rattle.std.specs.Prelude.{◌≡◌, ◌^◌, ◌<◌, length};
ghost use Rattle.sketch_base.specs.Bytes.{le};
ghost use Rattle.sketch_hash.specs.Pieces.{pieces, rest};
ghost use Rattle.sketch_hash.specs.Words.{xor_shift, rotate};

#[inline(always)]
pub(crate) fn read_u64_le(bytes: &[u8]) -> u64
    requires { length bytes.now ≡ 8 }
    ensures { result ≡ le bytes.now }
{
    bytes.as_array().map_or(0, |word| u64::from_le_bytes(*word))
}

#[inline(always)]
pub(crate) fn read_u16_le(bytes: &[u8]) -> u16
    requires { length bytes.now ≡ 2 }
    ensures { result ≡ le bytes.now }
{
    bytes.as_array().map_or(0, |word| u16::from_le_bytes(*word))
}

#[inline(always)]
pub(crate) fn read_u32_le(bytes: &[u8]) -> u32
    requires { length bytes.now ≡ 4 }
    ensures { result ≡ le bytes.now }
{
    bytes.as_array().map_or(0, |word| u32::from_le_bytes(*word))
}

#[inline(always)]
pub(crate) fn read_u128_le(bytes: &[u8]) -> u128
    requires { length bytes.now ≡ 16 }
    ensures { result ≡ le bytes.now }
{
    let mut word = [0u8; 16];
    word.copy_from_slice(bytes);
    u128::from_le_bytes(word)
}

/// A word xor the same word shifted to the right by `places`.
#[inline(always)]
#[tactic(auto, using(crate::proofs::WordLemmas::xors))]
pub(crate) fn xor_shift(word: u64, places: u32) -> u64
    requires { places < 64 }
    ensures { result ≡ xor_shift places word }
{
    word ^ (word >> places)
}

/// A word rotated to the left.
///
/// Next to a multiplication LLVM turns a shift of the rotation into a second multiplication. In a
/// separate function, with a constant number of places, it recognizes the rotation first.
#[tactic(auto, using(crate::proofs::WordLemmas::for_rotate))]
pub(crate) fn rotate<const PLACES: u32>(word: u64) -> u64
    requires above { 0 < PLACES }
    requires below { PLACES < 64 }
    ensures { result ≡ rotate word PLACES }
{
    word.rotate_left(PLACES)
}

/// The full pieces of `WIDTH` bytes, and the bytes after them.
#[inline(always)]
#[tactic(auto, using(crate::proofs::PiecesLemmas::for_split_pieces))]
pub(super) fn split_pieces<const WIDTH: usize>(bytes: &[u8]) -> (&[[u8; WIDTH]], &[u8])
    requires { 0 < WIDTH }
    ensures whole { result.0.now ≡ pieces WIDTH bytes.now }
    ensures rest { result.1.now ≡ rest WIDTH bytes.now }
    ensures short { length result.1.now < WIDTH }
{
    bytes.as_chunks::<WIDTH>()
}
