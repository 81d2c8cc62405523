//! A lawful hasher that shows what it is fed.

ghost use Rattle.std.specs.Prelude.{◌≡◌, ℕ, ◌≤◌, List, [], ◌∷◌, length, take};
ghost use Rattle.sketch_vectors.specs.{kept_after, kept_after-append, kept_after-empty};

use datasketches::hash::Hasher;
use std::marker::Model;

/// Keeps the first 64 bytes that it is given, and drops the rest. It answers how many it keeps.
#[derive(Drop)]
pub(crate) struct FirstBytes {
    bytes: [u8; 64],
    count: usize,
}

impl Model for FirstBytes {
    ghost Value = { List ℕ };

    ghost view = { λ h. take h.count h.bytes };

    ghost invariant = { λ h. h.count ≤ 64 };
}

impl FirstBytes {
    /// A hasher that was given nothing.
    pub(crate) fn new() -> Self
        ensures { result ≡ [] }
    {
        FirstBytes {
            bytes: [0; 64],
            count: 0,
        }
    }

    #[tactic(auto, using(crate::proofs::FirstBytesLemmas::for_keep))]
    fn keep(&mut self, byte: u8)
        ensures { self.new ≡ kept_after self.old (byte ∷ []) }
    {
        if self.count < 64 {
            self.bytes[self.count] = byte;
            self.count += 1;
        }
    }

    /// The bytes that it keeps.
    pub(crate) fn bytes(&self) -> &[u8]
        ensures { result.now ≡ self.now }
    {
        &self.bytes[..self.count]
    }
}

impl Hasher for FirstBytes {
    ghost after = { kept_after };

    ghost answer = { length };

    #[tactic(auto, using(crate::proofs::FirstBytesLemmas::kept_more))]
    fn write(&mut self, bytes: &[u8]) {
        for byte in bytes {
            self.keep(*byte);
        }
    }

    fn finish(&self) -> u64 {
        self.count as u64
    }

    ghost joins = { kept_after-append };

    ghost empty_write = { kept_after-empty };
}
