//! Hashing for sketches, as in [Apache DataSketches](https://datasketches.apache.org/): hashers,
//! columns of keys, values and the bytes that they feed, and seed hashes. Only the text of an
//! error, and the clone of a value, take memory.

mod columns;
mod copy;
mod hasher;
mod murmurhash;
mod seed;
pub mod value;
mod words;
mod xxhash;

pub use self::columns::{Offset, check_offsets};
pub use self::hasher::Hasher;
pub use self::murmurhash::{MurmurHash3X64128, MurmurState};
pub use self::seed::{check_seed_hash, compute_seed_hash, seed_hash_of};
pub use self::value::Hash;
pub use self::xxhash::{XxHash64, XxHash64State};

/// The default seed of the hashes that update a sketch. Only sketches with the same seed can be
/// merged.
pub const DEFAULT_UPDATE_SEED: u64 = 9001;

const _: () = prove!(DEFAULT_UPDATE_SEED == 9001);
