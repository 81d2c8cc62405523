//! A filter that owns its bytes.

ghost use Rattle.std.specs.Prelude.{◌≡◌, ℕ, ◌↔◌, List, IsTrue, MatchResult, length, map};
ghost use Rattle.sketch_bloom.specs.Filter.{Folds, Inserts, InsertsAll, IsFoldFault, IsFoldable, IsLength, IsLengthFault, IsMember, IsMergeFault, IsNewFault, Merges, hash_of};
ghost use Rattle.sketch_bloom.specs.Laws.{empty_filter};
ghost use Rattle.sketch_bloom.specs.FoldRate.{FoldsTo};

use crate::columns;
use crate::fault::Fault;
use crate::filter::{check_length, insert_into, is_in, is_length, merge};
use crate::folds::{fold, fold_to};
use datasketches::hash::Hash;
use std::alloc::Global;
use std::marker::Model;

/// A split block Bloom filter of Apache Parquet.
///
/// In contracts it is its bytes.
#[derive(Drop)]
pub struct BloomFilter {
    bytes: Vec<u8>,
}

impl Model for BloomFilter {
    ghost Value = { List ℕ };

    ghost view = { λ filter. filter.bytes.items };

    ghost invariant = { λ filter. IsLength (length filter.bytes.items) };
}

impl BloomFilter {
    /// An empty filter of this many bytes. [`bytes_for`](crate::bytes_for) chooses a size.
    ///
    /// # Memory
    ///
    /// One request, for the bytes.
    ///
    /// # Errors
    ///
    /// Returns [`Fault::Length`] if `bytes` is not a positive multiple of 32 below 2^37. Otherwise
    /// returns [`Fault::OutOfMemory`] if there is no memory.
    pub fn new(alloc: Global, bytes: usize) -> Result<BloomFilter, Fault>
        ensures { MatchResult result
            (λ filter. IsLength bytes × (filter ≡ empty_filter bytes)) (IsNewFault bytes) }
    {
        check_length(bytes)?;
        let bytes = vec![in alloc; 0; bytes].map_err(|_| Fault::OutOfMemory)?;
        Ok(BloomFilter { bytes })
    }

    /// The filter with these bytes. They are not copied.
    ///
    /// # Errors
    ///
    /// Returns [`Fault::Length`] if their length is not a positive multiple of 32 below 2^37.
    pub fn from_bytes(bytes: Vec<u8>) -> Result<BloomFilter, Fault>
        ensures { MatchResult result
            (λ filter. IsLength (length bytes.items) × (filter ≡ bytes.items))
            (IsLengthFault (length bytes.items)) }
    {
        check_length(bytes.len())?;
        Ok(BloomFilter { bytes })
    }

    /// The bytes of the filter.
    pub fn as_bytes(&self) -> &[u8]
        ensures bytes { result.now ≡ self.now }
        ensures length { IsLength (length self.now) }
    {
        &self.bytes
    }

    /// Inserts a value.
    pub fn insert<T: Hash>(&mut self, value: &T)
        ensures { Inserts (hash_of (T.fed value.now)) self.old self.new }
    {
        insert_into(&mut self.bytes, value.xxh64(0));
    }

    /// Inserts each value of a slice.
    pub fn insert_each_value<T: Hash>(&mut self, values: &[T])
        ensures { let hashes = map (λ value. hash_of (T.fed value)) values.now in
            InsertsAll hashes self.old self.new }
    {
        // A filter has a valid length, so this is never an error.
        let _ = columns::insert_each_value(&mut self.bytes, values);
    }

    /// Whether the filter may contain a value. If not, it was never inserted.
    pub fn contains<T: Hash>(&self, value: &T) -> bool
        ensures { IsTrue result ↔ IsMember self.now (hash_of (T.fed value.now)) }
    {
        is_in(&self.bytes, value.xxh64(0))
    }

    /// Merges another filter into this one, which then contains what either did.
    ///
    /// # Errors
    ///
    /// Returns [`Fault::OtherLength`] if the lengths differ. The filter is then unchanged.
    pub fn merge(&mut self, other: &BloomFilter) -> Result<(), Fault>
        ensures { MatchResult result (λ _. Merges other.now self.old self.new)
            (λ fault. (self.new ≡ self.old)
            × IsMergeFault (length self.old) (length other.now) fault) }
    {
        merge(&mut self.bytes, &other.bytes)
    }

    /// Folds the filter into one of half its length, which contains the same values.
    ///
    /// # Errors
    ///
    /// Returns [`Fault::OddBlocks`] if the length is not a multiple of 64 bytes. The filter is then
    /// unchanged.
    pub fn fold(&mut self) -> Result<(), Fault>
        ensures { MatchResult result
            (λ _. IsFoldable (length self.old) × Folds self.old self.new)
            (λ fault. (self.new ≡ self.old) × IsFoldFault (length self.old) fault) }
    {
        fold(&mut self.bytes)?;
        self.bytes.truncate(self.bytes.len() / 2);
        Ok(())
    }

    /// Folds the filter as often as its false positive rate, by the bits that are set, stays at
    /// most one in `one_in`. It may stay as it is.
    pub fn fold_to(&mut self, one_in: u64)
        ensures { FoldsTo one_in self.old self.new }
    {
        // A filter has a valid length, so this is never an error.
        if let Ok(bytes) = fold_to(&mut self.bytes, one_in) {
            self.bytes.truncate(bytes);
        }
    }
}
