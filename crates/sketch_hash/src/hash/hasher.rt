//! The trait that hashers implement.

ghost use Rattle.std.specs.Prelude.{◌≡◌, ℕ, List, [], ◌++◌};
ghost use Rattle.sketch_base.specs.Bytes.{low_bytes, modulo};

/// A hasher for a stream of bytes.
///
/// Splitting the bytes into several writes gives the same hash as one write: two writes leave what
/// one write of the joined bytes leaves, and an empty write changes nothing. No call fails. The
/// hash can be read at any time, and writes can follow. The hashers of this crate never allocate.
///
/// A number is written as its little-endian bytes, and no hasher can change that.
pub trait Hasher {
    ghost after: { Self → List ℕ → Self };

    ghost answer: { Self → ℕ };

    /// Appends `bytes` to the input.
    fn write(&mut self, bytes: &[u8])
        ensures { self.new ≡ after self.old bytes.now };

    /// The hash of all bytes so far. Of a longer hash, 64 bits: MurmurHash3 returns its first word,
    /// which different inputs can share though their hashes differ.
    fn finish(&self) -> u64
        ensures { result ≡ answer self.now };

    /// Appends the number's one byte.
    final fn write_u8(&mut self, n: u8)
        ensures { self.new ≡ after self.old (low_bytes 1 n) }
    {
        self.write(&n.to_le_bytes());
    }

    /// Appends the number's one byte.
    final fn write_i8(&mut self, n: i8)
        ensures { self.new ≡ after self.old (low_bytes 1 (modulo 8 n)) }
    {
        self.write(&n.to_le_bytes());
    }

    /// Appends the number's two bytes, the lowest first.
    final fn write_u16(&mut self, n: u16)
        ensures { self.new ≡ after self.old (low_bytes 2 n) }
    {
        self.write(&n.to_le_bytes());
    }

    /// Appends the number's two bytes, the lowest first.
    final fn write_i16(&mut self, n: i16)
        ensures { self.new ≡ after self.old (low_bytes 2 (modulo 16 n)) }
    {
        self.write(&n.to_le_bytes());
    }

    /// Appends the number's four bytes, the lowest first.
    final fn write_u32(&mut self, n: u32)
        ensures { self.new ≡ after self.old (low_bytes 4 n) }
    {
        self.write(&n.to_le_bytes());
    }

    /// Appends the number's four bytes, the lowest first.
    final fn write_i32(&mut self, n: i32)
        ensures { self.new ≡ after self.old (low_bytes 4 (modulo 32 n)) }
    {
        self.write(&n.to_le_bytes());
    }

    /// Appends the number's eight bytes, the lowest first.
    final fn write_u64(&mut self, n: u64)
        ensures { self.new ≡ after self.old (low_bytes 8 n) }
    {
        self.write(&n.to_le_bytes());
    }

    /// Appends the number's eight bytes, the lowest first.
    final fn write_i64(&mut self, n: i64)
        ensures { self.new ≡ after self.old (low_bytes 8 (modulo 64 n)) }
    {
        self.write(&n.to_le_bytes());
    }

    // Laws of every hasher: two writes join, and an empty write changes nothing.
    ghost joins: { (s : Self) (a b : List ℕ) → after (after s a) b ≡ after s (a ++ b) };

    ghost empty_write: { (s : Self) → after s [] ≡ s };
}
