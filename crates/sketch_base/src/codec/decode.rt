//! Reading numbers from bytes.

ghost use Rattle.std.specs.Prelude.{◌≡◌, ℕ, List, length, take, drop, is_ok, Some, if◌then◌else◌};
ghost use Rattle.sketch_base.specs.Bytes.{le, be, twos_complement};
ghost use Rattle.sketch_base.specs.Items.{unspell, width};
ghost use Rattle.sketch_base.specs.Codec.{Reads, ReadsItems, short_text};

use crate::codec::item::{Item, Kind};
use std::marker::Model;
use std::{fmt, io, mem};

/// Reads numbers from a borrowed slice of bytes, without copying it.
///
/// A read fails if too few bytes remain: with the error kind `UnexpectedEof`, or with [`Short`] if
/// it reads a list. Nothing remains to be read then.
#[derive(Drop)]
pub struct SketchSlice<'a> {
    slice: &'a [u8],
}

impl<'a> Model for SketchSlice<'a> {
    ghost Value = { List ℕ };

    ghost view = { λ s. s.slice.now };
}

/// The bytes ended before the last item of a list.
#[derive(Clone, Copy, Debug, PartialEq, Eq)]
pub struct Short {
    /// How many items were read.
    pub read: usize,
}

impl fmt::Display for Short {
    ghost output = { λ short. Some (short_text short.read) };

    fn fmt<W: fmt::Write>(&self, f: &mut fmt::Formatter<W>) -> fmt::Result {
        write!(f, "insufficient data after {} items", self.read)
    }
}

impl std::error::Error for Short {}

impl SketchSlice<'_> {
    /// A reader of all bytes of the slice.
    pub fn new(slice: &[u8]) -> SketchSlice<'_>
        ensures { result ≡ slice.now }
    {
        SketchSlice { slice }
    }

    /// Skips `n` bytes, or all that remain if these are fewer.
    pub fn advance(&mut self, n: u64)
        ensures { self.new ≡ drop n self.old }
    {
        let count = (self.slice.len() as u64).min(n) as usize;
        self.slice = &self.slice[count..];
    }

    /// The bytes that remain.
    pub fn remaining(&self) -> &[u8]
        ensures { result.now ≡ self.now }
    {
        self.slice
    }

    /// Fills the buffer with the next bytes.
    ///
    /// # Errors
    ///
    /// Returns `UnexpectedEof` if fewer bytes remain than the buffer holds. The buffer is then
    /// unchanged, and nothing remains to be read.
    pub fn read_exact(&mut self, buf: &mut [u8]) -> io::Result<()>
        ensures read { Reads (length buf.old) (λ _. tt) self.old result self.new }
        ensures filled { buf.new
            ≡ (if is_ok result then take (length buf.old) self.old else buf.old) }
    {
        let slice = mem::take(&mut self.slice);
        let (prefix, rest) = slice
            .split_at_checked(buf.len())
            .ok_or(io::ErrorKind::UnexpectedEof)?;
        buf.copy_from_slice(prefix);
        self.slice = rest;
        Ok(())
    }

    fn read_array<const N: usize>(&mut self) -> io::Result<[u8; N]>
        ensures { Reads N (λ bytes. bytes) self.old result self.new }
    {
        let mut buf = [0; N];
        self.read_exact(&mut buf)?;
        Ok(buf)
    }

    /// Reads an unsigned number of one byte. Fails with `UnexpectedEof` if none remains.
    pub fn read_u8(&mut self) -> io::Result<u8>
        ensures { Reads 1 le self.old result self.new }
    {
        Ok(u8::from_le_bytes(self.read_array()?))
    }

    /// Reads a signed number of one byte. Fails with `UnexpectedEof` if none remains.
    pub fn read_i8(&mut self) -> io::Result<i8>
        ensures { Reads 1 (λ bytes. twos_complement 8 (le bytes)) self.old result self.new }
    {
        Ok(i8::from_le_bytes(self.read_array()?))
    }

    /// Reads an unsigned number of 2 bytes, the lowest first. Fails with `UnexpectedEof` if fewer
    /// remain.
    pub fn read_u16_le(&mut self) -> io::Result<u16>
        ensures { Reads 2 le self.old result self.new }
    {
        Ok(u16::from_le_bytes(self.read_array()?))
    }

    /// Reads an unsigned number of 2 bytes, the highest first. Fails with `UnexpectedEof` if fewer
    /// remain.
    pub fn read_u16_be(&mut self) -> io::Result<u16>
        ensures { Reads 2 be self.old result self.new }
    {
        Ok(u16::from_be_bytes(self.read_array()?))
    }

    /// Reads a signed number of 2 bytes, the lowest first. Fails with `UnexpectedEof` if fewer
    /// remain.
    pub fn read_i16_le(&mut self) -> io::Result<i16>
        ensures { Reads 2 (λ bytes. twos_complement 16 (le bytes)) self.old result self.new }
    {
        Ok(i16::from_le_bytes(self.read_array()?))
    }

    /// Reads a signed number of 2 bytes, the highest first. Fails with `UnexpectedEof` if fewer
    /// remain.
    pub fn read_i16_be(&mut self) -> io::Result<i16>
        ensures { Reads 2 (λ bytes. twos_complement 16 (be bytes)) self.old result self.new }
    {
        Ok(i16::from_be_bytes(self.read_array()?))
    }

    /// Reads an unsigned number of 4 bytes, the lowest first. Fails with `UnexpectedEof` if fewer
    /// remain.
    pub fn read_u32_le(&mut self) -> io::Result<u32>
        ensures { Reads 4 le self.old result self.new }
    {
        Ok(u32::from_le_bytes(self.read_array()?))
    }

    /// Reads an unsigned number of 4 bytes, the highest first. Fails with `UnexpectedEof` if fewer
    /// remain.
    pub fn read_u32_be(&mut self) -> io::Result<u32>
        ensures { Reads 4 be self.old result self.new }
    {
        Ok(u32::from_be_bytes(self.read_array()?))
    }

    /// Reads a signed number of 4 bytes, the lowest first. Fails with `UnexpectedEof` if fewer
    /// remain.
    pub fn read_i32_le(&mut self) -> io::Result<i32>
        ensures { Reads 4 (λ bytes. twos_complement 32 (le bytes)) self.old result self.new }
    {
        Ok(i32::from_le_bytes(self.read_array()?))
    }

    /// Reads a signed number of 4 bytes, the highest first. Fails with `UnexpectedEof` if fewer
    /// remain.
    pub fn read_i32_be(&mut self) -> io::Result<i32>
        ensures { Reads 4 (λ bytes. twos_complement 32 (be bytes)) self.old result self.new }
    {
        Ok(i32::from_be_bytes(self.read_array()?))
    }

    /// Reads an unsigned number of 8 bytes, the lowest first. Fails with `UnexpectedEof` if fewer
    /// remain.
    pub fn read_u64_le(&mut self) -> io::Result<u64>
        ensures { Reads 8 le self.old result self.new }
    {
        Ok(u64::from_le_bytes(self.read_array()?))
    }

    /// Reads an unsigned number of 8 bytes, the highest first. Fails with `UnexpectedEof` if fewer
    /// remain.
    pub fn read_u64_be(&mut self) -> io::Result<u64>
        ensures { Reads 8 be self.old result self.new }
    {
        Ok(u64::from_be_bytes(self.read_array()?))
    }

    /// Reads a signed number of 8 bytes, the lowest first. Fails with `UnexpectedEof` if fewer
    /// remain.
    pub fn read_i64_le(&mut self) -> io::Result<i64>
        ensures { Reads 8 (λ bytes. twos_complement 64 (le bytes)) self.old result self.new }
    {
        Ok(i64::from_le_bytes(self.read_array()?))
    }

    /// Reads a signed number of 8 bytes, the highest first. Fails with `UnexpectedEof` if fewer
    /// remain.
    pub fn read_i64_be(&mut self) -> io::Result<i64>
        ensures { Reads 8 (λ bytes. twos_complement 64 (be bytes)) self.old result self.new }
    {
        Ok(i64::from_be_bytes(self.read_array()?))
    }

    // Reads one item of this kind.
    pub(super) fn read_item(&mut self, kind: Kind) -> io::Result<Item>
        ensures { Reads (width kind) (unspell kind) self.old result self.new }
    {
        Ok(match kind {
            Kind::U8 => Item::U8(self.read_u8()?),
            Kind::I8 => Item::I8(self.read_i8()?),
            Kind::U16Le => Item::U16Le(self.read_u16_le()?),
            Kind::U16Be => Item::U16Be(self.read_u16_be()?),
            Kind::I16Le => Item::I16Le(self.read_i16_le()?),
            Kind::I16Be => Item::I16Be(self.read_i16_be()?),
            Kind::U32Le => Item::U32Le(self.read_u32_le()?),
            Kind::U32Be => Item::U32Be(self.read_u32_be()?),
            Kind::I32Le => Item::I32Le(self.read_i32_le()?),
            Kind::I32Be => Item::I32Be(self.read_i32_be()?),
            Kind::U64Le => Item::U64Le(self.read_u64_le()?),
            Kind::U64Be => Item::U64Be(self.read_u64_be()?),
            Kind::I64Le => Item::I64Le(self.read_i64_le()?),
            Kind::I64Be => Item::I64Be(self.read_i64_be()?),
        })
    }

    /// Reads one item of each kind, in order, into the places of `out`, of which there are as many.
    ///
    /// # Errors
    ///
    /// Returns [`Short`] with the number of items read if too few bytes remain for the next one.
    /// The places of those read are filled, the others are unchanged, and nothing remains to be
    /// read.
    #[tactic(auto, using(crate::proofs::ItemLemmas::one_item_more))]
    pub fn read_items(&mut self, kinds: &[Kind], out: &mut [Item]) -> Result<(), Short>
        requires { length kinds.now ≡ length out.old }
        ensures { ReadsItems kinds.now self.old out.old result self.new out.new }
    {
        for (read, kind) in kinds.iter().enumerate() {
            out[read] = self.read_item(*kind).map_err(|_| Short { read })?;
        }
        Ok(())
    }
}
