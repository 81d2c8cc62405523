//! Examples of the library's use, to copy. Each is proved from the library's public contracts and
//! its lemmas about definitions.
#![tactic(auto)]

pub mod bloom_filter;
pub mod custom_types;
pub mod items;
pub mod keys;
pub mod membership_table;
pub mod preamble;
pub mod streams;
#[cfg(test)]
mod tests;
