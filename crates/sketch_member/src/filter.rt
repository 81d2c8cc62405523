//! The filter: a seed, two sizes and a count, by which values are inserted into bits and looked up.
//! The bits are passed beside it, since a table owns them and serialized bytes only lend them.

ghost use Rattle.std.specs.Prelude.{◌≡◌, ◌<◌, ◌^◌, ◌↔◌, IfSome, IsTrue, MatchResult, Some};
ghost use Rattle.datasketches.specs.Bytes.{eight};
ghost use Rattle.sketch_member.specs.Faults.{IsFirstFault, new_steps};
ghost use Rattle.sketch_member.specs.Table.{IsHashes, IsLog2Bits, Inserts, IsMember, IsTable, byte_count, index, table_of};

use crate::bits::{is_set, set};
use crate::fault::Fault;
use datasketches::hash::{Hash, XxHash64};

/// A table without its bits.
#[derive(Clone, Copy)]
pub(crate) struct Filter {
    pub(crate) seed: u64,
    pub(crate) log2_bits: u8,
    pub(crate) hashes: u8,
    // None if the table was read from bytes without a count
    pub(crate) count: Option<u64>,
}

// The limits of a table's sizes.
const MIN_LOG2_BITS: u8 = 6;

const MAX_LOG2_BITS: u8 = 20;

const MIN_HASHES: u8 = 1;

const MAX_HASHES: u8 = 16;

// Accepts exactly the sizes within the limits.
pub(crate) fn ensure_log2_bits(n: u8) -> Result<(), Fault>
    ensures { MatchResult result (λ _. IsLog2Bits n)
        (λ fault. (IsLog2Bits n → ⊥) × (fault ≡ Fault.Log2Bits n)) }
{
    if MIN_LOG2_BITS <= n && n <= MAX_LOG2_BITS {
        return Ok(());
    }
    Err(Fault::Log2Bits(n))
}

// Accepts exactly the numbers of indexes within the limits.
pub(crate) fn ensure_hashes(n: u8) -> Result<(), Fault>
    ensures { MatchResult result (λ _. IsHashes n)
        (λ fault. (IsHashes n → ⊥) × (fault ≡ Fault.Hashes n)) }
{
    if MIN_HASHES <= n && n <= MAX_HASHES {
        return Ok(());
    }
    Err(Fault::Hashes(n))
}

// The number of bytes that the bits of a table fill.
pub(crate) fn byte_count(log2_bits: u8) -> usize
    requires { IsLog2Bits log2_bits }
    ensures { result ≡ byte_count log2_bits }
{
    (1 << log2_bits) / 8
}

impl Filter {
    // The filter of an empty table.
    pub(crate) fn new(seed: u64, log2_bits: u8, hashes: u8) -> Result<Filter, Fault>
        ensures { MatchResult result
            (λ filter. IsLog2Bits log2_bits × IsHashes hashes × (filter ≡
            record { seed = seed; log2_bits = log2_bits; hashes = hashes; count = Some 0 }))
            (λ fault. IsFirstFault 0 (new_steps log2_bits hashes) fault) }
    {
        ensure_log2_bits(log2_bits)?;
        ensure_hashes(hashes)?;
        Ok(Filter {
            seed,
            log2_bits,
            hashes,
            count: Some(0),
        })
    }

    // Inserts a value into the table with these bits. The word is read before the loop: LLVM cannot
    // tell that the bits do not alias the value, and would read and multiply it for each index.
    pub(crate) fn insert<T: Hash>(&mut self, bits: &mut [u8], value: &T)
        requires { IsTable (table_of self.old bits.old) }
        ensures inserts { Inserts (T.fed value.now) (table_of self.old bits.old)
            (table_of self.new bits.new) }
        ensures is_table { IsTable (table_of self.new bits.new) }
    {
        let word = value.word();
        for j in 0..self.hashes {
            set(bits, self.index(value, word, j));
        }
        self.count = self.count.map(|n| n.saturating_add(1));
    }

    // Whether the table with these bits contains a value.
    pub(crate) fn contains<T: Hash>(&self, bits: &[u8], value: &T) -> bool
        requires { IsTable (table_of self.now bits.now) }
        ensures { IsTrue result ↔ IsMember (table_of self.now bits.now) (T.fed value.now) }
    {
        let word = value.word();
        for j in 0..self.hashes {
            if !is_set(bits, self.index(value, word, j)) {
                return false;
            }
        }
        true
    }

    // The value's index number `j`. `word` is the number whose eight bytes the value feeds, if it
    // feeds those of one number.
    #[tactic(auto, unfolding(crate::specs::Table::index), using(crate::proofs::BitLemmas::and_low))]
    fn index<T: Hash>(&self, value: &T, word: Option<u64>, j: u8) -> usize
        requires word { IfSome word (λ n. T.fed value.now ≡ eight n) }
        requires size { IsLog2Bits self.now.log2_bits }
        ensures index { result ≡ index self.now.seed self.now.log2_bits (T.fed value.now) j }
        ensures inside { result < 2 ^ self.now.log2_bits }
    {
        let seed = self.seed.wrapping_add(u64::from(j));
        let hash = match word {
            Some(n) => XxHash64::hash_u64(n, seed),
            None => value.xxh64(seed),
        };
        (hash & ((1 << self.log2_bits) - 1)) as usize
    }
}
