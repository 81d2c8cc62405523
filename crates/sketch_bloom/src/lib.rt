//! The split block Bloom filter of [Apache Parquet], proved.
//!
//! A Bloom filter tells whether a value was inserted. It has no false negatives, and may have false
//! positives. Spark, Arrow, DuckDB, Impala and others read and write this one. It is a sequence of
//! blocks of 32 bytes. A value's hash selects one block and eight bits in it.
//!
//! The hash is XXH64 with seed 0 of the bytes that the value feeds. For Parquet these are its plain
//! encoding: `i32` and `i64` for INT32 and INT64, [`raw_bytes`] for BYTE_ARRAY without its length
//! and for FIXED_LEN_BYTE_ARRAY, and the bits of a FLOAT or DOUBLE as `u32` or `u64`. Parquet's
//! writers insert empty texts, and skip nulls.
//!
//! The functions work in place on the bytes of a filter, in a buffer or a mapped file.
//! [`BloomFilter`] owns its bytes. In a file a header precedes them: [`write_header`],
//! [`read_header`]. [`bytes_for`] chooses a size. [`laws`] has facts for a caller's proof.
//!
//! Only [`BloomFilter::new`] allocates.
//!
//! [Apache Parquet]: https://github.com/apache/parquet-format/blob/master/BloomFilter.md
//! [`raw_bytes`]: datasketches::hash::value::raw_bytes
#![tactic(auto)]

mod block;
mod columns;
mod fault;
mod filter;
mod folds;
mod header;
pub mod known_answers;
pub mod laws;
mod owned;
mod size;
#[cfg(test)]
mod tests;

pub use self::columns::{
    contains_each, contains_each_hash, contains_each_value, insert_each, insert_each_hash,
    insert_each_value,
};
pub use self::fault::Fault;
pub use self::filter::{
    block_offset, contains, contains_hash, insert, insert_hash, is_length, merge,
};
pub use self::folds::{fold, fold_to};
pub use self::header::{read_header, write_header};
pub use self::owned::BloomFilter;
pub use self::size::{MAX_BYTES, bytes_for};
