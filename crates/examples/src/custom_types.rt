//! A custom type and a custom strategy.

ghost use Rattle.std.specs.Prelude.{◌≡◌, ◌++◌, IsTrue, reverse};
ghost use Rattle.std.proofs.Common.{rules};
ghost use Rattle.datasketches.specs.Bytes.{low_bytes, modulo};

use datasketches::hash::value::{HashStrategy, Value, value_law};
use datasketches::hash::{Hash, Hasher};

/// A point of a grid, which feeds its two numbers one after the other.
#[derive(Clone, Copy, Debug, PartialEq, Eq)]
pub struct Point {
    /// The number of the column.
    pub x: i32,
    /// The number of the row.
    pub y: i32,
}

impl Hash for Point {
    ghost fed = { λ point. low_bytes 4 (modulo 32 point.x) ++ low_bytes 4 (modulo 32 point.y) };

    fn hash<H: Hasher>(&self, state: &mut H) {
        state.write_i32(self.x);
        state.write_i32(self.y);
    }
}

/// A key of 64 bits that is fed with its highest byte first.
pub type BigEndian = Value<u64, BigEndianStrategy>;

/// The strategy of [`BigEndian`].
pub struct BigEndianStrategy;

impl HashStrategy<u64> for BigEndianStrategy {
    ghost fed = { λ key. reverse (low_bytes 8 key) };

    fn hash<H: Hasher>(value: &u64, state: &mut H) {
        state.write(&value.to_be_bytes());
    }

    ghost respects_eq = { Prim.search rules };
}

/// Equal values feed equal bytes under any strategy.
pub fn equal_values_feed_equal_bytes<T: Eq, S: HashStrategy<T>>(x: &T, y: &T)
    ensures { IsTrue (T.eq x.now y.now) → S.fed x.now ≡ S.fed y.now }
{
    value_law::<T, S>();
}
