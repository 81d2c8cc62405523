//! Writing numbers into bytes.

ghost use Rattle.std.specs.Prelude.{◌≡◌, [], IfOk, IsOk, Some, reverse};
ghost use Rattle.sketch_base.specs.Bytes.{low_bytes, modulo};
ghost use Rattle.sketch_base.specs.Items.{InType, spell};
ghost use Rattle.sketch_base.specs.Codec.{Writes, WritesItems, stopped_text};

use crate::codec::item::Item;
use std::alloc::{AllocError, Global};
use std::fmt;
use std::marker::Model;

/// Writes numbers into bytes that grow as they are needed.
///
/// A write fails only if its bytes do not fit the capacity and there is no memory for more. It then
/// changes nothing, but [`SketchBytes::write_items`] keeps the items before the one that failed.
///
/// # Memory
///
/// One buffer. A write that does not fit requests a larger one.
#[derive(Drop)]
pub struct SketchBytes {
    bytes: Vec<u8>,
}

impl Model for SketchBytes {
    ghost use Rattle.std.specs.Prelude.{◌≤◌, length, vec_capacity};
    ghost use Rattle.sketch_base.specs.Codec.{WriterValue};

    ghost Value = { WriterValue };

    ghost view = { λ s. record { bytes = s.bytes.items; room = vec_capacity s.bytes } };

    ghost invariant = { λ s. length s.bytes.items ≤ vec_capacity s.bytes };
}

/// A list of items was written in part: there was no memory for the next one.
#[derive(Clone, Copy, Debug, PartialEq, Eq)]
pub struct Stopped {
    /// How many items were written.
    pub accepted: usize,
}

impl fmt::Display for Stopped {
    ghost output = { λ stopped. Some (stopped_text stopped.accepted) };

    fn fmt<W: fmt::Write>(&self, f: &mut fmt::Formatter<W>) -> fmt::Result {
        write!(f, "out of memory after {} items", self.accepted)
    }
}

impl std::error::Error for Stopped {}

impl SketchBytes {
    /// An empty writer that takes `capacity` bytes without growing.
    ///
    /// # Errors
    ///
    /// Returns `AllocError` if there is no memory.
    ///
    /// # Memory
    ///
    /// `capacity` bytes; none for a capacity of 0.
    pub fn with_capacity(alloc: Global, capacity: usize) -> Result<SketchBytes, AllocError>
        ensures empty { capacity ≡ 0 → IsOk result }
        ensures room { IfOk result (λ writer. writer ≡ record { bytes = []; room = capacity }) }
    {
        let bytes = Vec::with_capacity(alloc, capacity)?;
        Ok(SketchBytes { bytes })
    }

    /// The bytes written.
    pub fn into_bytes(self) -> Vec<u8>
        ensures { result.items ≡ self.bytes }
    {
        let SketchBytes { bytes } = self;
        bytes
    }

    /// Writes the bytes of the slice.
    ///
    /// # Errors
    ///
    /// Returns `AllocError` if they do not fit and there is no memory. The writer is then
    /// unchanged.
    pub fn write(&mut self, buf: &[u8]) -> Result<(), AllocError>
        ensures { Writes buf.now self.old result self.new }
    {
        self.bytes.reserve(buf.len())?;
        self.bytes.extend_from_slice(buf)
    }

    /// Writes an unsigned number as one byte. Fails only if there is no memory.
    pub fn write_u8(&mut self, n: u8) -> Result<(), AllocError>
        ensures { Writes (low_bytes 1 n) self.old result self.new }
    {
        self.write(&n.to_le_bytes())
    }

    /// Writes a signed number as one byte. Fails only if there is no memory.
    pub fn write_i8(&mut self, n: i8) -> Result<(), AllocError>
        ensures { Writes (low_bytes 1 (modulo 8 n)) self.old result self.new }
    {
        self.write(&n.to_le_bytes())
    }

    /// Writes an unsigned number as 2 bytes, the lowest first. Fails only if there is no memory.
    pub fn write_u16_le(&mut self, n: u16) -> Result<(), AllocError>
        ensures { Writes (low_bytes 2 n) self.old result self.new }
    {
        self.write(&n.to_le_bytes())
    }

    /// Writes an unsigned number as 2 bytes, the highest first. Fails only if there is no memory.
    pub fn write_u16_be(&mut self, n: u16) -> Result<(), AllocError>
        ensures { Writes (reverse (low_bytes 2 n)) self.old result self.new }
    {
        self.write(&n.to_be_bytes())
    }

    /// Writes a signed number as 2 bytes, the lowest first. Fails only if there is no memory.
    pub fn write_i16_le(&mut self, n: i16) -> Result<(), AllocError>
        ensures { Writes (low_bytes 2 (modulo 16 n)) self.old result self.new }
    {
        self.write(&n.to_le_bytes())
    }

    /// Writes a signed number as 2 bytes, the highest first. Fails only if there is no memory.
    pub fn write_i16_be(&mut self, n: i16) -> Result<(), AllocError>
        ensures { Writes (reverse (low_bytes 2 (modulo 16 n))) self.old result self.new }
    {
        self.write(&n.to_be_bytes())
    }

    /// Writes an unsigned number as 4 bytes, the lowest first. Fails only if there is no memory.
    pub fn write_u32_le(&mut self, n: u32) -> Result<(), AllocError>
        ensures { Writes (low_bytes 4 n) self.old result self.new }
    {
        self.write(&n.to_le_bytes())
    }

    /// Writes an unsigned number as 4 bytes, the highest first. Fails only if there is no memory.
    pub fn write_u32_be(&mut self, n: u32) -> Result<(), AllocError>
        ensures { Writes (reverse (low_bytes 4 n)) self.old result self.new }
    {
        self.write(&n.to_be_bytes())
    }

    /// Writes a signed number as 4 bytes, the lowest first. Fails only if there is no memory.
    pub fn write_i32_le(&mut self, n: i32) -> Result<(), AllocError>
        ensures { Writes (low_bytes 4 (modulo 32 n)) self.old result self.new }
    {
        self.write(&n.to_le_bytes())
    }

    /// Writes a signed number as 4 bytes, the highest first. Fails only if there is no memory.
    pub fn write_i32_be(&mut self, n: i32) -> Result<(), AllocError>
        ensures { Writes (reverse (low_bytes 4 (modulo 32 n))) self.old result self.new }
    {
        self.write(&n.to_be_bytes())
    }

    /// Writes an unsigned number as 8 bytes, the lowest first. Fails only if there is no memory.
    pub fn write_u64_le(&mut self, n: u64) -> Result<(), AllocError>
        ensures { Writes (low_bytes 8 n) self.old result self.new }
    {
        self.write(&n.to_le_bytes())
    }

    /// Writes an unsigned number as 8 bytes, the highest first. Fails only if there is no memory.
    pub fn write_u64_be(&mut self, n: u64) -> Result<(), AllocError>
        ensures { Writes (reverse (low_bytes 8 n)) self.old result self.new }
    {
        self.write(&n.to_be_bytes())
    }

    /// Writes a signed number as 8 bytes, the lowest first. Fails only if there is no memory.
    pub fn write_i64_le(&mut self, n: i64) -> Result<(), AllocError>
        ensures { Writes (low_bytes 8 (modulo 64 n)) self.old result self.new }
    {
        self.write(&n.to_le_bytes())
    }

    /// Writes a signed number as 8 bytes, the highest first. Fails only if there is no memory.
    pub fn write_i64_be(&mut self, n: i64) -> Result<(), AllocError>
        ensures { Writes (reverse (low_bytes 8 (modulo 64 n))) self.old result self.new }
    {
        self.write(&n.to_be_bytes())
    }

    fn write_item(&mut self, item: Item) -> Result<(), AllocError>
        ensures writes { Writes (spell item) self.old result self.new }
        ensures in_type { InType item }
    {
        match item {
            Item::U8(n) => self.write_u8(n),
            Item::I8(n) => self.write_i8(n),
            Item::U16Le(n) => self.write_u16_le(n),
            Item::U16Be(n) => self.write_u16_be(n),
            Item::I16Le(n) => self.write_i16_le(n),
            Item::I16Be(n) => self.write_i16_be(n),
            Item::U32Le(n) => self.write_u32_le(n),
            Item::U32Be(n) => self.write_u32_be(n),
            Item::I32Le(n) => self.write_i32_le(n),
            Item::I32Be(n) => self.write_i32_be(n),
            Item::U64Le(n) => self.write_u64_le(n),
            Item::U64Be(n) => self.write_u64_be(n),
            Item::I64Le(n) => self.write_i64_le(n),
            Item::I64Be(n) => self.write_i64_be(n),
        }
    }

    /// Writes the items, in order.
    ///
    /// # Errors
    ///
    /// Returns [`Stopped`] with the number of items written if the next one does not fit and there
    /// is no memory. Nothing is written of that one and those after it.
    #[tactic(auto, using(crate::proofs::ItemLemmas::one_item_more))]
    pub fn write_items(&mut self, items: &[Item]) -> Result<(), Stopped>
        ensures { WritesItems items.now self.old result self.new }
    {
        let _ = &self.bytes; // opens the invariant for the proof
        for (accepted, item) in items.iter().enumerate() {
            self.write_item(*item).map_err(|_| Stopped { accepted })?;
        }
        Ok(())
    }
}
