//! A membership table: it tells whether a value was inserted. It has no false negatives, and may
//! have false positives.
//!
//! It sees a value as the bytes that the value feeds. [`laws`] has facts for a caller's proof. The
//! crate `sketch_bloom` has a Bloom filter of any size, in the format of Apache Parquet.
#![tactic(auto)]

mod bits;
mod fault;
mod filter;
mod format;
pub mod laws;
mod table;
#[cfg(test)]
mod tests;

pub use self::fault::Fault;
pub use self::format::MEMBER;
pub use self::table::MemberTable;
