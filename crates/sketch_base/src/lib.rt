//! The base of the sketches: errors with contexts, and the reading and writing of serialized
//! sketches.
#![tactic(auto)]

pub mod codec;
pub mod error;
#[cfg(test)]
mod tests;
