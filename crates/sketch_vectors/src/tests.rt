//! Both hashers at once, for the tests that cross crates.

mod cuts;
mod equalities;
mod fed;
mod samples;
mod vectors;

use datasketches::hash::{Hasher, MurmurHash3X64128, XxHash64};

/// The sentence that hashes are shown on, and its Murmur pair under seed 0.
pub(crate) const FOX: &[u8] = b"The quick brown fox jumps over the lazy dog";

pub(crate) const FOX_MURMUR: (u64, u64) = (0xe34b_bc7b_bc07_1b6c, 0x7a43_3ca9_c49a_9347);

/// Both hashers, which are given the same bytes.
#[derive(Drop)]
pub(crate) struct Both {
    murmur3: MurmurHash3X64128,
    xxhash: XxHash64,
}

impl Both {
    /// Both with their seeds, given nothing.
    pub(crate) fn with_seeds(murmur: u64, xxh64: u64) -> Self {
        Both {
            murmur3: MurmurHash3X64128::with_seed(murmur),
            xxhash: XxHash64::with_seed(xxh64),
        }
    }

    /// Adds the bytes to what both hash.
    pub(crate) fn write(&mut self, bytes: &[u8]) {
        self.murmur3.write(bytes);
        self.xxhash.write(bytes);
    }

    /// The Murmur pair and the XXH64 hash.
    pub(crate) fn answers(&self) -> ((u64, u64), u64) {
        (self.murmur3.finish128(), self.xxhash.finish64())
    }
}
