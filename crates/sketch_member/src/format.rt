//! The format of serialized tables, written and read by place: `specs/Form.antt` shows it.

ghost use Rattle.std.specs.Prelude.{◌≡◌, ◌+◌, ◌-◌, ◌<◌, ◌≤◌, ◌↔◌, [], ◌∷◌, Contains, length, take, drop, slice_index, IfSome, IsTrue, MatchResult};
ghost use Rattle.datasketches.specs.Bytes.{eight, le};
ghost use Rattle.datasketches.specs.Words.{IsWord};
ghost use Rattle.sketch_member.specs.Faults.{AllPass, IsFirstFault, IsFlag, bits_steps, count_number, kind_steps, number_steps, size_steps, steps};
ghost use Rattle.sketch_member.specs.Form.{IsForm, flag_of, form2, number_of};
ghost use Rattle.sketch_member.specs.Table.{IsTable, table_of};

use crate::fault::Fault;
use crate::filter::{Filter, byte_count, ensure_hashes, ensure_log2_bits};
use datasketches::codec::family::Family;

/// The family of these tables. Their format is not that of `BLOOMFILTER`.
pub const MEMBER: Family = Family {
    id: 200,
    name: "MEMBER",
    min_pre_longs: 2,
    max_pre_longs: 3,
};

const _: () = prove!(MEMBER.id == 200 && MEMBER.min_pre_longs == 2 && MEMBER.max_pre_longs == 3);

// The preamble longs of version 1, and of version 2, which has the count. The serial version is one
// less.
const LONGS_1: u8 = 2;

const LONGS_2: u8 = 3;

// The number of bytes in the header of version 2.
pub(crate) const HEADER_BYTES: usize = 24;

impl Filter {
    // The header of version 2.
    pub(crate) fn to_bytes(self) -> [u8; HEADER_BYTES]
        ensures { result ≡ form2 (table_of self []) }
    {
        let (log2_bits, hashes) = (self.log2_bits, self.hashes);
        let (flag, number) = match self.count {
            Some(n) => (1, n),
            None => (0, 0),
        };
        let mut bytes = [0; HEADER_BYTES];
        bytes[..6].copy_from_slice(&[LONGS_2, LONGS_2 - 1, MEMBER.id, log2_bits, hashes, flag]);
        bytes[8..16].copy_from_slice(&eight_bytes(self.seed));
        bytes[16..].copy_from_slice(&eight_bytes(number));
        bytes
    }
}

// Reads a serialized table of either version: its filter and its bits.
#[tactic(auto, using(crate::proofs::FormLemmas::for_read))]
pub(crate) fn read(bytes: &[u8]) -> Result<(Filter, &[u8]), Fault>
    ensures { MatchResult result
        (λ parts. IsTable (table_of parts.0 parts.1.now)
        × IsForm (table_of parts.0 parts.1.now) bytes.now)
        (λ fault. IsFirstFault (length bytes.now) (steps bytes.now) fault) }
{
    let longs = read_kind(bytes)?;
    let (log2_bits, hashes) = read_sizes(bytes)?;
    let (seed, count) = read_numbers(bytes, longs)?;
    let start = 8 * usize::from(longs);
    ensure_bits(bytes, start, byte_count(log2_bits))?;
    let (_, bits) = bytes.split_at(start);
    let filter = Filter {
        seed,
        log2_bits,
        hashes,
        count,
    };
    Ok((filter, bits))
}

// Reads the preamble longs, the serial version and the family.
fn read_kind(bytes: &[u8]) -> Result<u8, Fault>
    ensures { MatchResult result
        (λ longs. (longs ≡ slice_index bytes.now 0)
        × AllPass (length bytes.now) (kind_steps bytes.now))
        (λ fault. IsFirstFault (length bytes.now) (kind_steps bytes.now) fault) }
{
    let longs = byte(bytes, 0)?;
    if ![LONGS_1, LONGS_2].contains(&longs) {
        return Err(Fault::PreambleLongs(longs));
    }
    let actual = byte(bytes, 1)?;
    let expected = longs - 1;
    if actual != expected {
        return Err(Fault::SerialVersion { expected, actual });
    }
    let family = byte(bytes, 2)?;
    if family != MEMBER.id {
        return Err(Fault::Family(family));
    }
    Ok(longs)
}

// Reads the two sizes, `log2_bits` and `hashes`.
fn read_sizes(bytes: &[u8]) -> Result<(u8, u8), Fault>
    ensures { MatchResult result
        (λ sizes. (sizes.0 ≡ slice_index bytes.now 3) × (sizes.1 ≡ slice_index bytes.now 4)
        × AllPass (length bytes.now) (size_steps bytes.now))
        (λ fault. IsFirstFault (length bytes.now) (size_steps bytes.now) fault) }
{
    let log2_bits = byte(bytes, 3)?;
    ensure_log2_bits(log2_bits)?;
    let hashes = byte(bytes, 4)?;
    ensure_hashes(hashes)?;
    Ok((log2_bits, hashes))
}

// Reads the seed, and the count if it is known.
fn read_numbers(bytes: &[u8], longs: u8) -> Result<(u64, Option<u64>), Fault>
    requires place { longs ≡ slice_index bytes.now 0 }
    requires version { Contains (2 ∷ 3 ∷ []) longs }
    ensures { MatchResult result
        (λ numbers. (numbers.0 ≡ le (take 8 (drop 8 bytes.now))) × IfSome numbers.1 IsWord
        × (flag_of numbers.1 ≡ slice_index bytes.now 5)
        × (number_of numbers.1 ≡ count_number bytes.now)
        × AllPass (length bytes.now) (number_steps bytes.now))
        (λ fault. IsFirstFault (length bytes.now) (number_steps bytes.now) fault) }
{
    let (flag, reserved6, reserved7) = (byte(bytes, 5)?, byte(bytes, 6)?, byte(bytes, 7)?);
    if !is_flag(longs, flag, reserved6, reserved7) {
        return Err(Fault::Reserved);
    }
    let seed = long(bytes, 8)?;
    let has_count = longs == LONGS_2;
    let number = if has_count { long(bytes, 16)? } else { 0 };
    if flag == 1 {
        return Ok((seed, Some(number)));
    }
    if number != 0 {
        return Err(Fault::UnknownCount);
    }
    Ok((seed, None))
}

// Whether the version allows the flag, and the two reserved bytes after it are zero.
fn is_flag(longs: u8, flag: u8, reserved6: u8, reserved7: u8) -> bool
    ensures { IsTrue result ↔ (IsFlag longs flag × (reserved6 ≡ 0) × (reserved7 ≡ 0)) }
{
    (flag == 0 || (longs == LONGS_2 && flag == 1)) && reserved6 == 0 && reserved7 == 0
}

// Accepts exactly as many bytes after `start` as the bits need.
fn ensure_bits(bytes: &[u8], start: usize, need: usize) -> Result<(), Fault>
    ensures { MatchResult result (λ _. length bytes.now ≡ start + need)
        (λ fault. IsFirstFault (length bytes.now) (bits_steps bytes.now start need) fault) }
{
    if bytes.len() < start {
        return Err(Fault::HeaderEnds);
    }
    let have = bytes.len() - start;
    if have < need {
        return Err(Fault::MissingBits { need, have });
    }
    if need < have {
        return Err(Fault::TrailingBytes(have - need));
    }
    Ok(())
}

// Reads the byte of the header at a place.
fn byte(bytes: &[u8], place: usize) -> Result<u8, Fault>
    ensures { MatchResult result
        (λ byte. (place < length bytes.now) × (byte ≡ slice_index bytes.now place))
        (λ fault. (length bytes.now ≤ place) × (fault ≡ Fault.HeaderEnds)) }
{
    bytes.get(place).copied().ok_or(Fault::HeaderEnds)
}

// Reads the number in the eight bytes of the header at a place.
#[inline(always)]
fn long(bytes: &[u8], place: usize) -> Result<u64, Fault>
    requires { place ≤ 16 }
    ensures { MatchResult result
        (λ n. (place + 8 ≤ length bytes.now) × (n ≡ le (take 8 (drop place bytes.now))))
        (λ fault. (length bytes.now < place + 8) × (fault ≡ Fault.HeaderEnds)) }
{
    match bytes.get(place..place + 8).and_then(|it| it.as_array()) {
        Some(long) => Ok(u64::from_le_bytes(*long)),
        None => Err(Fault::HeaderEnds),
    }
}

// The little-endian bytes of a word.
#[inline(always)]
#[tactic(auto, using(crate::proofs::FormLemmas::for_eight_bytes))]
fn eight_bytes(word: u64) -> [u8; 8]
    ensures { result ≡ eight word }
{
    word.to_le_bytes()
}
