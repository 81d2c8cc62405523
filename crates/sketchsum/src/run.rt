//! Reads an input and writes its hash.

ghost use Rattle.std.specs.Prelude.{◌≡◌, ◌≢◌, ◌*◌, ◌^◌, ◌≤◌, length, OnOk, OnErr, Err};
ghost use Rattle.std.specs.Io.KnownBytes.{IsAtEnd};
ghost use Rattle.sketchsum.specs.{HasRead, Runs};

use crate::arguments::Algorithm;
use crate::digest::{HexWord, write_line};
use crate::ending::RunFault;
use datasketches::hash::{Hasher, MurmurHash3X64128, XxHash64};
use std::io::{Read, Write};

/// The most bytes of a read.
const PIECE_BYTES: usize = 4096;

/// The most reads of a run: 16 TiB at most.
const MAX_TURNS: u64 = 1 << 32;

/// Writes the hash of all that `reader` gives, by [`run_bounded`] with 2^32 reads.
///
/// # Errors
///
/// Returns what [`run_bounded`] returns.
pub fn run<R: Read, W: Write>(
    algorithm: Algorithm,
    seed: u64,
    reader: &mut R,
    writer: &mut W,
) -> Result<(), RunFault>
    ensures runs { Runs algorithm seed (2 ^ 32) result (R.remaining reader.old)
        (R.remaining reader.new) (W.contents writer.old) (W.contents writer.new) }
    ensures silent { OnErr result (result ≢ Err RunFault.Write → writer.new ≡ writer.old) }
{
    run_bounded(algorithm, seed, MAX_TURNS, reader, writer)
}

/// Reads pieces of at most 4096 bytes, at most `turns` times, until a read gives no bytes. Then
/// writes the hash in hexadecimal and a newline, and flushes.
///
/// # Errors
///
/// - Returns [`RunFault::Read`] if a read fails, whatever the kind of the error. Nothing is
///   written.
/// - Returns [`RunFault::TooLong`] if the input does not end within `turns` reads. Nothing is
///   written.
/// - Returns [`RunFault::Write`] if a write or the flush fails.
pub fn run_bounded<R: Read, W: Write>(
    algorithm: Algorithm,
    seed: u64,
    turns: u64,
    reader: &mut R,
    writer: &mut W,
) -> Result<(), RunFault>
    ensures runs { Runs algorithm seed turns result (R.remaining reader.old)
        (R.remaining reader.new) (W.contents writer.old) (W.contents writer.new) }
    ensures silent { OnErr result (result ≢ Err RunFault.Write → writer.new ≡ writer.old) }
{
    match algorithm {
        Algorithm::Murmur => {
            let mut hasher = MurmurHash3X64128::with_seed(seed);
            read_into(&mut hasher, turns, reader)?;
            let (h1, h2) = hasher.finish128();
            write_line(writer, format_args!("{}{}", HexWord(h1), HexWord(h2)))
        }
        Algorithm::Xx => {
            let mut hasher = XxHash64::with_seed(seed);
            read_into(&mut hasher, turns, reader)?;
            write_line(writer, HexWord(hasher.finish64()))
        }
    }
}

// Feeds the hasher all that the reader gives.
fn read_into<H: Hasher, R: Read>(hasher: &mut H, turns: u64, reader: &mut R) -> Result<(), RunFault>
    ensures pieces { HasRead (R.remaining reader.old) (R.remaining reader.new)
        (λ bytes. (hasher.new ≡ H.after hasher.old bytes) × (length bytes ≤ 4096 * turns)
        × (result ≡ Err RunFault.TooLong → turns ≤ length bytes)) }
    ensures whole { OnOk result (IsAtEnd (R.remaining reader.new)) }
    ensures no_write { result ≢ Err RunFault.Write }
{
    let mut piece = [0; PIECE_BYTES];
    for turn in 0..turns {
        let Ok(count) = reader.read(&mut piece) else {
            return Err(RunFault::Read);
        };
        if count == 0 {
            return Ok(());
        }
        hasher.write(&piece[..count]);
    }
    Err(RunFault::TooLong)
}
