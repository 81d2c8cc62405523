//! Errors of reading a serialized table, and of creating one.

ghost use Rattle.std.specs.Prelude.{◌++◌, Some, codes};
ghost use Rattle.std.specs.Fmt.{DisplaysOnOk, decimal};
ghost use Rattle.datasketches.specs.Refusals.{Refuses};
ghost use Rattle.sketch_member.specs.Faults.{fault_text};

use crate::format::MEMBER;
use datasketches::error::{Error, ErrorKind};
use std::alloc::Global;
use std::fmt;

/// Why bytes are not a table, or sizes are not those of one.
#[derive(Clone, Copy, Debug, PartialEq, Eq)]
pub enum Fault {
    /// The header ends too early.
    HeaderEnds,
    /// The preamble longs are neither 2 nor 3.
    PreambleLongs(u8),
    /// The serial version does not match the preamble longs.
    SerialVersion {
        /// The version that the preamble longs imply.
        expected: u8,
        /// The version in the bytes.
        actual: u8,
    },
    /// The family is not [`MEMBER`].
    Family(u8),
    /// `log2_bits` is not 6 to 20.
    Log2Bits(u8),
    /// `hashes` is not 1 to 16.
    Hashes(u8),
    /// The version does not allow the flag in byte 5, or byte 6 or 7 is not zero.
    Reserved,
    /// The flag says that the count is unknown, but the count is not zero.
    UnknownCount,
    /// The bits end too early.
    MissingBits {
        /// How many bytes the bits need.
        need: usize,
        /// How many bytes follow the header.
        have: usize,
    },
    /// This many bytes follow the bits.
    TrailingBytes(usize),
}

impl fmt::Display for Fault {
    ghost output = { λ fault. Some (fault_text fault) };

    fn fmt<W: fmt::Write>(&self, f: &mut fmt::Formatter<W>) -> fmt::Result {
        match self {
            Fault::HeaderEnds => {
                f.write_str("insufficient data (member table): unexpected end of file")
            }
            Fault::PreambleLongs(n) => {
                write_got("invalid preamble longs: expected one of [2, 3]", *n, f)
            }
            Fault::SerialVersion { expected, actual } => write!(
                f,
                "unsupported serial version: expected {expected}, got {actual}"
            ),
            Fault::Family(n) => {
                let (id, name) = (MEMBER.id, MEMBER.name);
                write!(f, "invalid family: expected {id} ({name}), got {n}")
            }
            Fault::Log2Bits(n) => write_got("invalid log2 bits: expected 6 to 20", *n, f),
            Fault::Hashes(n) => write_got("invalid hashes: expected 1 to 16", *n, f),
            Fault::Reserved => f.write_str("reserved bytes are not zero"),
            Fault::UnknownCount => f.write_str("unknown count is not zero"),
            Fault::MissingBits { need, have } => write!(
                f,
                "insufficient data (member bits): expected {need}, got {have}"
            ),
            Fault::TrailingBytes(n) => write!(f, "trailing bytes: {n}"),
        }
    }
}

// Writes what is wrong, and the actual byte.
fn write_got<W: fmt::Write>(text: &str, n: u8, f: &mut fmt::Formatter<W>) -> fmt::Result
    ensures { DisplaysOnOk W.write_str_gives f.old result
        (Some (text.now ++ (codes ", got " ++ decimal n))) f.new }
{
    write!(f, "{text}, got {n}")
}

impl std::error::Error for Fault {}

impl Fault {
    // The error with the fault's text, or `OutOfMemory` if there is no memory for the text.
    pub(crate) fn into_error(self, alloc: Global, kind: ErrorKind) -> Error
        ensures { Refuses kind (fault_text self) result }
    {
        Error::from_text(alloc, kind, self.to_string(alloc))
    }
}
