//! A table that owns its bits.

ghost use Rattle.std.specs.Prelude.{◌≡◌, ℕ, ◌↔◌, length, IfOk, IsTrue, MatchResult};
ghost use Rattle.sketch_member.specs.Faults.{IsNewError, IsStepsError, steps};
ghost use Rattle.sketch_member.specs.Form.{IsForm, form2};
ghost use Rattle.sketch_member.specs.Table.{IsHashes, IsLog2Bits, Inserts, IsMember, IsSet, IsTable, Table, empty_table, table_of};

use crate::filter::{Filter, byte_count};
use crate::format::{HEADER_BYTES, read};
use datasketches::codec::SketchBytes;
use datasketches::error::{Error, ErrorKind};
use datasketches::hash::Hash;
use std::alloc::{AllocError, Global};
use std::marker::Model;

/// A set of values that stores some bits of each value, and no value itself.
///
/// It has 2^`log2_bits` bits, for a `log2_bits` of 6 to 20: 8 to 131,072 bytes. Each value has
/// `hashes` indexes, 1 to 16. Index j is the low `log2_bits` bits of the XXH64 of the bytes that
/// the value feeds, under the seed plus j modulo 2^64. An insert sets the bits at the value's
/// indexes, and is counted.
///
/// There are no false negatives: the table contains each value that was inserted. There may be
/// false positives: it may contain other values. No proof covers their rate.
///
/// Serialized tables have a custom format ([`MEMBER`](crate::MEMBER)). It is not that of the Bloom
/// filters of [Apache DataSketches](https://datasketches.apache.org/): neither can be read as the
/// other.
#[derive(Drop)]
pub struct MemberTable {
    filter: Filter,
    bits: Vec<u8>,
}

impl Model for MemberTable {
    ghost Value = { Table };

    ghost view = { λ t. table_of t.filter t.bits.items };

    ghost invariant = { λ t. IsTable (table_of t.filter t.bits.items) };
}

impl MemberTable {
    /// An empty table.
    ///
    /// # Memory
    ///
    /// One request, for the 2^`log2_bits` / 8 bytes of the bits.
    ///
    /// # Errors
    ///
    /// Returns `InvalidArgument` if `log2_bits` is not 6 to 20, or else if `hashes` is not 1 to 16.
    /// Returns `OutOfMemory` with an empty message if there is no memory for the bits or for the
    /// text of an error.
    #[tactic(auto, using(crate::proofs::BitLemmas::for_new))]
    pub fn new(alloc: Global, seed: u64, log2_bits: u8, hashes: u8) -> Result<MemberTable, Error>
        ensures answer { MatchResult result
            (λ table. IsLog2Bits log2_bits × IsHashes hashes
            × (table ≡ empty_table seed log2_bits hashes))
            (IsNewError log2_bits hashes) }
        ensures empty { IfOk result (λ table. (i : ℕ) → IsSet table.bits i → ⊥) }
    {
        let filter = match Filter::new(seed, log2_bits, hashes) {
            Ok(filter) => filter,
            Err(fault) => return Err(fault.into_error(alloc, ErrorKind::InvalidArgument)),
        };
        let bits = vec![in alloc; 0; byte_count(log2_bits)]?;
        Ok(MemberTable { filter, bits })
    }

    /// Reads a serialized table of version 1 or 2. In version 1 its count is unknown.
    ///
    /// # Memory
    ///
    /// One request, for the bits, after all bytes are checked.
    ///
    /// # Errors
    ///
    /// Returns `InvalidData` for the first fault, in the order of the bytes, if they are not a
    /// table. Returns `OutOfMemory` with an empty message if there is no memory for the bits or for
    /// the text of an error.
    pub fn from_bytes(alloc: Global, bytes: &[u8]) -> Result<MemberTable, Error>
        ensures { MatchResult result
            (λ table. IsTable table × IsForm table bytes.now)
            (IsStepsError ErrorKind.InvalidData (length bytes.now) (steps bytes.now)) }
    {
        let (filter, bits) = match read(bytes) {
            Ok(parts) => parts,
            Err(fault) => return Err(fault.into_error(alloc, ErrorKind::InvalidData)),
        };
        let bits = bits.to_vec(alloc)?;
        Ok(MemberTable { filter, bits })
    }

    /// Inserts a value. A known count grows by one, and saturates at `u64::MAX`. An unknown count
    /// stays unknown.
    pub fn insert<T: Hash>(&mut self, value: &T)
        ensures { Inserts (T.fed value.now) self.old self.new }
    {
        self.filter.insert(&mut self.bits, value);
    }

    /// Whether all bits at the value's indexes are set. If not, the value was never inserted.
    pub fn contains<T: Hash>(&self, value: &T) -> bool
        ensures { IsTrue result ↔ IsMember self.now (T.fed value.now) }
    {
        self.filter.contains(&self.bits, value)
    }

    /// The number of inserts, or `None` if the table was read from bytes without a count.
    pub fn count(&self) -> Option<u64>
        ensures { result ≡ self.now.count }
    {
        self.filter.count
    }

    /// Serializes the table in version 2: a header of 24 bytes, and then the bits.
    ///
    /// # Memory
    ///
    /// One request, for all bytes.
    ///
    /// # Errors
    ///
    /// Returns `AllocError` if there is no memory.
    pub fn to_bytes(&self, alloc: Global) -> Result<Vec<u8>, AllocError>
        ensures { IfOk result (λ bytes. bytes.items ≡ form2 self.now) }
    {
        let mut writer = SketchBytes::with_capacity(alloc, HEADER_BYTES + self.bits.len())?;
        writer.write(&self.filter.to_bytes())?;
        writer.write(&self.bits)?;
        Ok(writer.into_bytes())
    }
}

/// The sizes of every table are within their limits, and its bits fill their bytes. The function
/// does nothing: its contract is the law.
pub fn table_law(table: &MemberTable)
    ensures { IsTable table.now }
{
    let _filter = &table.filter; // opens the invariant for the proof
}
