//! The hashes that sketches use, MurmurHash3 x64 128 and XXH64, proved to equal their written
//! definitions.
#![tactic(auto)]

pub mod hash;
pub mod laws;
#[cfg(test)]
mod tests;
