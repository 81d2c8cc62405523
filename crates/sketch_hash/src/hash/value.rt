//! Values, and the bytes that they feed to a hasher. The bytes do not depend on the machine, so
//! sketches in other languages can feed the same.
//!
//! * [`natural_extend`]: integers as eight bytes, by their value.
//! * [`sign_extend`]: integers as eight bytes, with the highest bit taken as a sign.
//! * [`raw_bytes`]: bytes and text as they are, with no length and no end mark.

pub mod natural_extend;
pub mod raw_bytes;
pub mod sign_extend;

ghost use Rattle.std.specs.Prelude.{◌≡◌, ℕ, List, ◌++◌, IfSome, IsTrue};
ghost use Rattle.std.specs.List.{flat_map};
ghost use Rattle.sketch_base.specs.Bytes.{eight, low_bytes, modulo};
ghost use Rattle.sketch_hash.specs.Murmur.{murmur};
ghost use Rattle.sketch_hash.specs.Xxh64.{xxh64};

use super::hasher::Hasher;
use super::murmurhash::MurmurHash3X64128;
use super::xxhash::XxHash64;
use std::fmt;
use std::marker::{Model, PhantomData};
use std::ops::{Deref, DerefMut};

/// A value that can be fed to a hasher.
pub trait Hash {
    ghost fed: { Self → List ℕ };

    /// Feeds the value's bytes, in one or several writes.
    fn hash<H: Hasher>(&self, state: &mut H)
        ensures { state.new ≡ H.after state.old (fed self.now) };

    /// `Some(n)` if the value feeds the eight little-endian bytes of `n`. A type may always return
    /// `None`. With it a caller that hashes the value under several seeds reads the bytes once.
    #[inline(always)]
    fn word(&self) -> Option<u64>
        ensures { IfSome result (λ n. fed self.now ≡ eight n) }
    {
        None
    }

    /// XXH64 of the value's bytes under a seed. A type whose bytes are contiguous can implement it
    /// by [`XxHash64::hash`], which is faster than a hasher.
    #[inline(always)]
    #[tactic(auto, using(crate::proofs::Xxh64Answers::of_one_write))]
    fn xxh64(&self, seed: u64) -> u64
        ensures { result ≡ xxh64 seed (fed self.now) }
    {
        if let Some(n) = self.word() {
            return XxHash64::hash_u64(n, seed);
        }
        let mut hasher = XxHash64::with_seed(seed);
        self.hash(&mut hasher);
        hasher.finish64()
    }
}

/// A way to feed values of the type `T`. Equal values feed equal bytes.
pub trait HashStrategy<T: Eq> {
    ghost fed: { T → List ℕ };

    /// Feeds the value's bytes, in one or several writes.
    fn hash<H: Hasher>(value: &T, state: &mut H)
        ensures { state.new ≡ H.after state.old (fed value.now) };

    /// `Some(n)` if the value feeds the eight little-endian bytes of `n`. A strategy may always
    /// return `None`.
    #[inline(always)]
    fn word(value: &T) -> Option<u64>
        ensures { IfSome result (λ n. fed value.now ≡ eight n) }
    {
        None
    }

    /// XXH64 of the value's bytes under a seed.
    #[inline(always)]
    #[tactic(auto, using(crate::proofs::Xxh64Answers::of_one_write))]
    fn xxh64(value: &T, seed: u64) -> u64
        ensures { result ≡ xxh64 seed (fed value.now) }
    {
        if let Some(n) = Self::word(value) {
            return XxHash64::hash_u64(n, seed);
        }
        let mut hasher = XxHash64::with_seed(seed);
        Self::hash(value, &mut hasher);
        hasher.finish64()
    }

    ghost respects_eq: { (x y : T) → IsTrue (T.eq x y) → fed x ≡ fed y };
}

/// A value that is fed to hashers by the strategy `S`. It compares, clones and prints like the
/// value itself, and dereferences to it.
#[derive(Drop)]
#[derive_where(Clone, Copy, PartialEq, Eq, PartialOrd, Ord; T)]
pub struct Value<T, S> {
    value: T,
    strategy: PhantomData<S>,
}

impl<T, S> Model for Value<T, S> {
    ghost Value = { T };

    ghost view = { λ v. v.value };

    ghost inverse = { λ x. record { value = x; strategy = record {} } };
}

impl<T, S> Value<T, S> {
    /// Wraps a value.
    pub fn new(value: T) -> Self
        ensures { result ≡ value }
    {
        Value {
            value,
            strategy: PhantomData,
        }
    }

    /// Unwraps the value.
    pub fn into_inner(self) -> T
        ensures { result ≡ self }
    {
        self.value
    }
}

impl<T, S> Deref for Value<T, S> {
    type Target = T;

    ghost deref_gives = { λ value inner. inner ≡ value };

    fn deref(&self) -> &T {
        &self.value
    }
}

impl<T, S> DerefMut for Value<T, S> {
    ghost use Rattle.std.specs.Borrow.{sem, Lends};
    ghost use Rattle.sketch_hash.specs.contracts.hash.value.Value.{the_row};

    ghost deref_mut_gives = { λ value inner. inner ≡ value };

    fn deref_mut(&mut self) -> &mut T
        ensures* writes_back { sem 𝓛 (Lends (the_row T.row S.row) T.row self.entry result
            (λ written. written)) }
        ensures shows { result.now ≡ self.old }
    {
        &mut self.value
    }
}

impl<T: fmt::Display, S> fmt::Display for Value<T, S> {
    ghost output = { λ value. T.output value };

    ghost styled_output = { λ value style. T.styled_output value style };

    fn fmt<W: fmt::Write>(&self, f: &mut fmt::Formatter<W>) -> fmt::Result {
        self.value.fmt(f)
    }
}

impl<T: fmt::Debug, S> fmt::Debug for Value<T, S> {
    ghost debug_output = { λ value. T.debug_output value };

    fn fmt<W: fmt::Write>(&self, f: &mut fmt::Formatter<W>) -> fmt::Result {
        self.value.fmt(f)
    }
}

impl<T: Eq, S: HashStrategy<T>> Hash for Value<T, S> {
    ghost fed = { λ value. S.fed value };

    fn hash<H: Hasher>(&self, state: &mut H) {
        S::hash(&self.value, state);
    }

    #[inline(always)]
    fn word(&self) -> Option<u64> {
        S::word(&self.value)
    }

    #[inline(always)]
    fn xxh64(&self, seed: u64) -> u64 {
        S::xxh64(&self.value, seed)
    }
}

/// Equal values feed equal bytes under every strategy. The function does nothing: its contract is
/// the law.
pub fn value_law<T: Eq, S: HashStrategy<T>>()
    ensures { (x y : T) → IsTrue (T.eq x y) → S.fed x ≡ S.fed y }
{}

/// Feeds the values in order.
pub fn feed_all<T: Hash, H: Hasher>(values: &[T], state: &mut H)
    ensures fed { state.new ≡ H.after state.old (flat_map T.fed values.now) }
    ensures stands { (start : H) (before : List ℕ) → state.old ≡ H.after start before →
        state.new ≡ H.after start (before ++ flat_map T.fed values.now) }
{
    for value in values {
        value.hash(state);
    }
}

/// The first word of MurmurHash3's hash of the value, under the seed of sketch updates. Different
/// values can share it: the laws of collisions are about both words.
#[tactic(auto, using(crate::proofs::MurmurAnswers::of_one_write))]
pub fn calculate_hash<T: Hash + Drop>(t: T) -> u64
    ensures { result ≡ (murmur 9001 (T.fed t)).0 }
{
    let mut hasher = MurmurHash3X64128::default();
    t.hash(&mut hasher);
    hasher.finish()
}

impl Hash for u8 {
    ghost fed = { λ n. low_bytes 1 n };

    fn hash<H: Hasher>(&self, state: &mut H) {
        state.write_u8(*self);
    }
}

impl Hash for i8 {
    ghost fed = { λ n. low_bytes 1 (modulo 8 n) };

    fn hash<H: Hasher>(&self, state: &mut H) {
        state.write_i8(*self);
    }
}

impl Hash for u16 {
    ghost fed = { λ n. low_bytes 2 n };

    fn hash<H: Hasher>(&self, state: &mut H) {
        state.write_u16(*self);
    }
}

impl Hash for i16 {
    ghost fed = { λ n. low_bytes 2 (modulo 16 n) };

    fn hash<H: Hasher>(&self, state: &mut H) {
        state.write_i16(*self);
    }
}

impl Hash for u32 {
    ghost fed = { λ n. low_bytes 4 n };

    fn hash<H: Hasher>(&self, state: &mut H) {
        state.write_u32(*self);
    }

    #[inline(always)]
    fn xxh64(&self, seed: u64) -> u64 {
        XxHash64::hash_u32(*self, seed)
    }
}

impl Hash for i32 {
    ghost fed = { λ n. low_bytes 4 (modulo 32 n) };

    fn hash<H: Hasher>(&self, state: &mut H) {
        state.write_i32(*self);
    }
}

impl Hash for u64 {
    ghost fed = { λ n. low_bytes 8 n };

    fn hash<H: Hasher>(&self, state: &mut H) {
        state.write_u64(*self);
    }

    #[inline(always)]
    fn word(&self) -> Option<u64> {
        Some(*self)
    }
}

impl Hash for i64 {
    ghost fed = { λ n. low_bytes 8 (modulo 64 n) };

    fn hash<H: Hasher>(&self, state: &mut H) {
        state.write_i64(*self);
    }

    #[inline(always)]
    fn word(&self) -> Option<u64> {
        Some(self.cast_unsigned())
    }
}
