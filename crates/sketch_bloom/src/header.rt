//! The header before a filter in a Parquet file.

ghost use Rattle.std.specs.Prelude.{◌≡◌, ℕ, ◌+◌, ◌*◌, ◌%◌, ◌^◌, ◌<◌, ◌≤◌, ◌++◌, ◌↔◌, List, IsTrue, MatchOption, drop, length, take};
ghost use Rattle.sketch_bloom.specs.Header.{IsHeaderLength, header, number_at, number_field};

use crate::filter::is_length;

// The largest number of bytes of a header.
const MAX_HEADER: usize = 19;

// The fields for the algorithm, the hash and the compression, and the end of the header.
const UNION_FIELDS: [u8; 13] = [0x1c, 0x1c, 0, 0, 0x1c, 0x1c, 0, 0, 0x1c, 0x1c, 0, 0, 0];

/// Writes the header of a filter with this many bytes to the start of `out`, and returns the number
/// of bytes of the header: 15 to 19.
///
/// Returns `None` if `bytes` is not a positive multiple of 32 below 2^31, or if `out` is shorter
/// than the header. `out` is then unchanged.
pub fn write_header(bytes: usize, out: &mut [u8]) -> Option<usize>
    ensures { MatchOption result
        ((out.new ≡ out.old)
        × (IsHeaderLength bytes → length out.old < length (header bytes)))
        (λ count. IsHeaderLength bytes × (count ≡ length (header bytes))
        × (out.new ≡ header bytes ++ drop count out.old)) }
{
    if !is_length(bytes) || bytes >= 1 << 31 {
        return None;
    }
    let (number, start) = number_field(bytes);
    let end = start + 13;
    if out.len() < end {
        return None;
    }
    // A copy of constant length needs no `memcpy`, which the C library would have to import. The
    // other fields replace what is copied past the end of the number.
    out[..6].copy_from_slice(&number);
    out[start..start + 13].copy_from_slice(&UNION_FIELDS);
    Some(end)
}

/// Reads the header at the start of `input`, and returns the number of bytes of the filter and of
/// the header.
///
/// Returns `None` if `input` does not start with a header that [`write_header`] writes. Parquet's
/// writers write the same.
#[tactic(auto, using(crate::proofs::HeaderLemmas::header_fits))]
pub fn read_header(input: &[u8]) -> Option<(usize, usize)>
    ensures { MatchOption result
        ((bytes : ℕ) (after : List ℕ) → IsHeaderLength bytes → input.now ≡ header bytes ++ after →
        ⊥)
        (λ read. IsHeaderLength read.0 × (read.1 ≡ length (header read.0))
        × (input.now ≡ header read.0 ++ drop read.1 input.now)) }
{
    let bytes = length_in(input);
    let mut header = [0; MAX_HEADER];
    let count = write_header(bytes, &mut header)?;
    if has_prefix(input, &header[..count]) {
        Some((bytes, count))
    } else {
        None
    }
}

// Whether `input` starts with `prefix`.
fn has_prefix(input: &[u8], prefix: &[u8]) -> bool
    ensures { IsTrue result ↔ (take (length prefix.now) input.now ≡ prefix.now) }
{
    if prefix.len() > input.len() {
        return false;
    }
    for i in 0..prefix.len() {
        if input[i] != prefix[i] {
            return false;
        }
    }
    true
}

// The first field of a header, and its number of bytes.
#[tactic(auto, unfolding(crate::specs::Header::varint))]
fn number_field(bytes: usize) -> ([u8; 6], usize)
    requires { IsHeaderLength bytes }
    ensures long { length result.0 ≡ 6 }
    ensures count { (2 ≤ result.1) × (result.1 ≤ 6) }
    ensures field { take result.1 result.0 ≡ number_field bytes }
{
    let a = bytes as u64 * 2;
    let b = a / 128;
    let c = b / 128;
    let d = c / 128;
    let e = d / 128;
    let more = usize::from(b > 0) + usize::from(c > 0) + usize::from(d > 0) + usize::from(e > 0);
    let field = [
        0x15,
        varint_byte(a),
        varint_byte(b),
        varint_byte(c),
        varint_byte(d),
        varint_byte(e),
    ];
    (field, 2 + more)
}

// The first byte of a variable-length number. `read_varint` reads it.
fn varint_byte(number: u64) -> u8
    ensures last { number < 128 → result ≡ number }
    ensures more { 128 ≤ number → result ≡ number % 128 + 128 }
{
    if number < 128 {
        number as u8
    } else {
        (number % 128 + 128) as u8
    }
}

// The length of a filter as its header has it, or 0 if the input is shorter than a header.
#[tactic(auto, using(crate::proofs::HeaderLemmas::header_number))]
fn length_in(input: &[u8]) -> usize
    ensures { (bytes : ℕ) (after : List ℕ) → IsHeaderLength bytes →
        input.now ≡ header bytes ++ after → result ≡ bytes }
{
    let [_, a, b, c, d, e, ..] = input else {
        return 0;
    };
    let twice = read_varint(
        *a,
        read_varint(*b, read_varint(*c, read_varint(*d, read_varint(*e, 0)))),
    );
    (twice / 2) as usize
}

// A variable-length number, from its first byte, as `varint_byte` returns it, and the number in the
// bytes after it.
fn read_varint(byte: u8, after: u64) -> u64
    requires { after < 2 ^ 56 }
    ensures value { result ≡ number_at byte after }
    ensures most { result ≤ 127 + 128 * after }
{
    if byte < 128 {
        u64::from(byte)
    } else {
        u64::from(byte - 128) + 128 * after
    }
}
