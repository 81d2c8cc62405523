//! Errors of filters and columns.

ghost use Rattle.std.specs.Prelude.{Some};
ghost use Rattle.sketch_bloom.specs.Filter.{fault_text};

use std::fmt;

/// Why a call failed. It then changed nothing.
#[derive(Clone, Copy, Debug, PartialEq, Eq)]
pub enum Fault {
    /// The length, in bytes, is not a positive multiple of 32 below 2^37.
    Length(usize),
    /// The other filter has this length, in bytes, and the lengths differ.
    OtherLength(usize),
    /// The filter has this many bytes, which are an odd number of blocks.
    OddBlocks(usize),
    /// The offset at this index is missing, is past the end of the keys, or is below the offset
    /// before it.
    Offset(usize),
    /// There are only this many values, and more places for results.
    Count(usize),
    /// There is no memory for the filter.
    OutOfMemory,
}

impl fmt::Display for Fault {
    ghost output = { λ fault. Some (fault_text fault) };

    fn fmt<W: fmt::Write>(&self, f: &mut fmt::Formatter<W>) -> fmt::Result {
        match self {
            Fault::Length(bytes) => write!(
                f,
                "invalid filter length: expected a positive multiple of 32 below 2^37, got {bytes}"
            ),
            Fault::OtherLength(bytes) => {
                write!(f, "filters of two lengths: the other has {bytes} bytes")
            }
            Fault::OddBlocks(bytes) => write!(
                f,
                "odd number of blocks: expected a multiple of 64 bytes, got {bytes}"
            ),
            Fault::Offset(i) => write!(f, "invalid offset at index {i}"),
            Fault::Count(values) => write!(f, "more places than values: {values} values"),
            Fault::OutOfMemory => f.write_str("out of memory"),
        }
    }
}

impl std::error::Error for Fault {}
