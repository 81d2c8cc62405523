//! Copies of a few bytes into a stripe or a block.

ghost use Rattle.std.specs.Prelude.{◌≡◌, ◌+◌, ◌<◌, ◌≤◌, ◌++◌, length, take, drop};

/// Copies at most 32 bytes to `buffer[at..]`. A copy of unknown length is a call of `memcpy`, which
/// makes XXH64's writes of 1 to 100 bytes 17 to 33 % slower.
#[inline(always)]
pub(crate) fn copy_small(buffer: &mut [u8], at: usize, bytes: &[u8])
    requires within { at + length bytes.now ≤ length buffer.old }
    requires few { length bytes.now ≤ 32 }
    ensures { buffer.new ≡
        take at buffer.old ++ bytes.now ++ drop (at + length bytes.now) buffer.old }
{
    match bytes.len() {
        0 => {}
        ..8 => copy_tiny(buffer, at, bytes),
        ..16 => copy_overlapping::<8>(buffer, at, bytes),
        _ => copy_overlapping::<16>(buffer, at, bytes),
    }
}

// Copies one to seven bytes to `buffer[at..]`.
#[inline(always)]
fn copy_tiny(buffer: &mut [u8], at: usize, bytes: &[u8])
    requires within { at + length bytes.now ≤ length buffer.old }
    requires some { 0 < length bytes.now }
    requires few { length bytes.now < 8 }
    ensures { buffer.new ≡
        take at buffer.old ++ bytes.now ++ drop (at + length bytes.now) buffer.old }
{
    match bytes.len() {
        ..2 => buffer[at] = bytes[0],
        ..4 => copy_overlapping::<2>(buffer, at, bytes),
        _ => copy_overlapping::<4>(buffer, at, bytes),
    }
}

// Copies K to 2 K bytes to `buffer[at..]`: first the first K bytes, then the last K.
#[inline(always)]
#[tactic(auto, using(crate::proofs::BufferLemmas::for_copy_overlapping))]
fn copy_overlapping<const K: usize>(buffer: &mut [u8], at: usize, bytes: &[u8])
    requires low { K ≤ length bytes.now }
    requires high { length bytes.now ≤ K + K }
    requires within { at + length bytes.now ≤ length buffer.old }
    ensures { buffer.new ≡
        take at buffer.old ++ bytes.now ++ drop (at + length bytes.now) buffer.old }
{
    let count = bytes.len();
    copy_array::<K>(&mut buffer[at..at + K], &bytes[..K]);
    copy_array::<K>(&mut buffer[at + count - K..at + count], &bytes[count - K..]);
}

// Copies K bytes. The copy of an array is one move; `copy_from_slice` is a loop.
#[inline(always)]
fn copy_array<const K: usize>(place: &mut [u8], bytes: &[u8])
    requires place { length place.old ≡ K }
    requires bytes { length bytes.now ≡ K }
    ensures { place.new ≡ bytes.now }
{
    if let (Some(place), Some(bytes)) = (place.as_mut_array::<K>(), bytes.as_array::<K>()) {
        *place = *bytes;
    }
}
