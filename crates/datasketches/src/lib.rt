//! A proved port of the lowest layer of Apache DataSketches' Rust component, under its original
//! paths: errors, the codec of serialized sketches without floats, and the hashes. [`laws`] has the
//! laws of collisions.
#![tactic(auto)]

pub use sketch_base::{codec, error};
pub use sketch_hash::hash;

pub mod known_answers;
pub mod laws;
#[cfg(test)]
mod tests;
