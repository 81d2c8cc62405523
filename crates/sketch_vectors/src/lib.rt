//! Tests that cross the crates: vectors, streams cut in every way, equalities of hashes, the bytes
//! that values feed, samples of the original, and tables of an earlier version. Tests of one crate
//! stand in that crate.
//!
//! The vectors in `tests/vectors.rt` are those of the tests of DataSketches' Rust, and one made by
//! running xxHash 0.8.1. The samples in `tests/samples/answers.rt` and those of single numbers in
//! `tests/fed.rt` were made by running DataSketches' Rust, version 0.6.0, unchanged but for the
//! visibility of its modules and its feature gates, on a little-endian machine. None was made by
//! this library. The other rows of `tests/fed.rt` follow from what a value feeds.
#![tactic(auto)]

#[cfg(test)]
mod first_bytes;
#[cfg(test)]
mod tests;
