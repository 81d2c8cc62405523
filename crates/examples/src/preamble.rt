//! The preamble of a serialized sketch, read and written.

ghost use Rattle.std.specs.Prelude.{◌≡◌, ◌≢◌, ◌⊎◌, ◌<◌, ◌≤◌, length, IfErr, MatchResult};
ghost use Rattle.datasketches.specs.ErrorValue.{memory_error};
ghost use Rattle.datasketches.specs.Refusals.{Refuses};
ghost use Rattle.datasketches.specs.SeedHash.{seed_hash, zero_seed_hash_text};
ghost use Rattle.examples.specs.{HasPreamble, RefusesFields, RefusesPreamble, fields_of, preamble};

use datasketches::codec::assert::{
    ensure_preamble_longs_in, ensure_serial_version_is, insufficient_data,
};
use datasketches::codec::family::Family;
use datasketches::codec::{SketchBytes, SketchSlice};
use datasketches::error::{Error, ErrorKind};
use datasketches::hash::{check_seed_hash, compute_seed_hash};
use std::alloc::Global;
use std::io;

// The fields of a preamble: preamble longs, serial version, family and seed hash.
fn read_fields(bytes: &[u8]) -> io::Result<(u8, u8, u8, u16)>
    ensures { MatchResult result
        (λ fields. (5 ≤ length bytes.now) × (fields ≡ fields_of bytes.now))
        (λ _. length bytes.now < 5) }
{
    let mut reader = SketchSlice::new(bytes);
    let longs = reader.read_u8()?;
    let version = reader.read_u8()?;
    let family = reader.read_u8()?;
    Ok((longs, version, family, reader.read_u16_le()?))
}

// Checks the fields of a preamble.
#[tactic(auto, unfolding(crate::specs::RefusesFields))]
fn check_fields(alloc: Global, fields: (u8, u8, u8, u16), seed: u64) -> Result<(), Error>
    ensures { MatchResult result
        (λ _. (fields.0 ≡ 1) × (fields.1 ≡ 3) × (fields.2 ≡ 7)
        × (fields.3 ≡ seed_hash seed) × (seed_hash seed ≢ 0))
        (λ error. RefusesFields seed fields error) }
{
    let (longs, version, family, actual) = fields;
    ensure_preamble_longs_in(alloc, &[1], longs)?;
    ensure_serial_version_is(alloc, 3, version)?;
    Family::HLL.validate_id(alloc, family)?;
    let expected = compute_seed_hash(alloc, seed, ErrorKind::InvalidArgument)?;
    check_seed_hash(alloc, expected, actual, "hll", ErrorKind::InvalidData)
}

/// Checks the preamble of a serialized HLL sketch with this seed: preamble longs, serial version,
/// family and seed hash.
///
/// # Errors
///
/// Returns `InvalidData` if bytes are missing or a field is wrong, `InvalidArgument` if the seed's
/// own hash is zero, and `OutOfMemory` with an empty message if there is no memory for the text.
pub fn check_preamble(alloc: Global, bytes: &[u8], seed: u64) -> Result<(), Error>
    ensures checked { MatchResult result
        (λ _. HasPreamble seed bytes.now)
        (λ _. HasPreamble seed bytes.now → ⊥) }
    ensures error { IfErr result (λ error. RefusesPreamble seed bytes.now error) }
{
    let short = |error| insufficient_data(alloc, "hll sketch", error);
    let fields = read_fields(bytes).map_err(short)?;
    check_fields(alloc, fields, seed)
}

/// Writes the preamble of a serialized HLL sketch. The sketch's own bytes can be appended to it.
///
/// # Errors
///
/// Returns `InvalidArgument` if the seed's hash is zero, and `OutOfMemory` if there is no memory.
pub fn write_preamble(alloc: Global, seed: u64) -> Result<Vec<u8>, Error>
    ensures { MatchResult result
        (λ bytes. HasPreamble seed bytes.items × (bytes.items ≡ preamble seed))
        (λ error. (error ≡ memory_error) ⊎ ((seed_hash seed ≡ 0)
        × Refuses ErrorKind.InvalidArgument (zero_seed_hash_text seed) error)) }
{
    let hash = compute_seed_hash(alloc, seed, ErrorKind::InvalidArgument)?;
    let mut writer = SketchBytes::with_capacity(alloc, 5)?;
    writer.write_u8(1)?;
    writer.write_u8(3)?;
    writer.write_u8(Family::HLL.id)?;
    writer.write_u16_le(hash)?;
    Ok(writer.into_bytes())
}
