//! Integers that are fed as eight bytes, their highest bit taken for a sign, whether the type is
//! signed or not.
//!
//! So the unsigned 255 of eight bits feeds what -1 feeds.

ghost use Rattle.std.specs.Prelude.{◌≡◌};
ghost use Rattle.std.proofs.Common.{rules};
ghost use Rattle.sketch_base.specs.Bytes.{twos_complement, integer_bytes};

use crate::hash::Hasher;
use crate::hash::value::{HashStrategy, Value};

/// An integer that is fed as eight bytes, its highest bit taken for a sign.
pub type SignExtend<T> = Value<T, SignExtendStrategy>;

/// The strategy of [`SignExtend`].
pub struct SignExtendStrategy;

/// The number, to be fed with its highest bit as its sign.
pub fn from_i8(v: i8) -> SignExtend<i8>
    ensures { result ≡ v }
{
    Value::new(v)
}

/// The number, to be fed with its highest bit as its sign.
pub fn from_u8(v: u8) -> SignExtend<u8>
    ensures { result ≡ v }
{
    Value::new(v)
}

/// The number, to be fed with its highest bit as its sign.
pub fn from_i16(v: i16) -> SignExtend<i16>
    ensures { result ≡ v }
{
    Value::new(v)
}

/// The number, to be fed with its highest bit as its sign.
pub fn from_u16(v: u16) -> SignExtend<u16>
    ensures { result ≡ v }
{
    Value::new(v)
}

/// The number, to be fed with its highest bit as its sign.
pub fn from_i32(v: i32) -> SignExtend<i32>
    ensures { result ≡ v }
{
    Value::new(v)
}

/// The number, to be fed with its highest bit as its sign.
pub fn from_u32(v: u32) -> SignExtend<u32>
    ensures { result ≡ v }
{
    Value::new(v)
}

/// The number, to be fed with its highest bit as its sign.
pub fn from_i64(v: i64) -> SignExtend<i64>
    ensures { result ≡ v }
{
    Value::new(v)
}

/// The number, to be fed with its highest bit as its sign.
pub fn from_u64(v: u64) -> SignExtend<u64>
    ensures { result ≡ v }
{
    Value::new(v)
}

impl HashStrategy<i8> for SignExtendStrategy {
    ghost fed = { integer_bytes };

    fn hash<H: Hasher>(value: &i8, state: &mut H) {
        state.write_i64(i64::from(*value));
    }

    fn word(value: &i8) -> Option<u64> {
        Some(i64::from(*value).cast_unsigned())
    }

    ghost respects_eq = { Prim.search rules };
}

impl HashStrategy<u8> for SignExtendStrategy {
    ghost fed = { λ x. integer_bytes (twos_complement 8 x) };

    fn hash<H: Hasher>(value: &u8, state: &mut H) {
        state.write_i64(i64::from(value.cast_signed()));
    }

    fn word(value: &u8) -> Option<u64> {
        Some(i64::from(value.cast_signed()).cast_unsigned())
    }

    ghost respects_eq = { Prim.search rules };
}

impl HashStrategy<i16> for SignExtendStrategy {
    ghost fed = { integer_bytes };

    fn hash<H: Hasher>(value: &i16, state: &mut H) {
        state.write_i64(i64::from(*value));
    }

    fn word(value: &i16) -> Option<u64> {
        Some(i64::from(*value).cast_unsigned())
    }

    ghost respects_eq = { Prim.search rules };
}

impl HashStrategy<u16> for SignExtendStrategy {
    ghost fed = { λ x. integer_bytes (twos_complement 16 x) };

    fn hash<H: Hasher>(value: &u16, state: &mut H) {
        state.write_i64(i64::from(value.cast_signed()));
    }

    fn word(value: &u16) -> Option<u64> {
        Some(i64::from(value.cast_signed()).cast_unsigned())
    }

    ghost respects_eq = { Prim.search rules };
}

impl HashStrategy<i32> for SignExtendStrategy {
    ghost fed = { integer_bytes };

    fn hash<H: Hasher>(value: &i32, state: &mut H) {
        state.write_i64(i64::from(*value));
    }

    fn word(value: &i32) -> Option<u64> {
        Some(i64::from(*value).cast_unsigned())
    }

    ghost respects_eq = { Prim.search rules };
}

impl HashStrategy<u32> for SignExtendStrategy {
    ghost fed = { λ x. integer_bytes (twos_complement 32 x) };

    fn hash<H: Hasher>(value: &u32, state: &mut H) {
        state.write_i64(i64::from(value.cast_signed()));
    }

    fn word(value: &u32) -> Option<u64> {
        Some(i64::from(value.cast_signed()).cast_unsigned())
    }

    ghost respects_eq = { Prim.search rules };
}

impl HashStrategy<i64> for SignExtendStrategy {
    ghost fed = { integer_bytes };

    fn hash<H: Hasher>(value: &i64, state: &mut H) {
        state.write_i64(*value);
    }

    fn word(value: &i64) -> Option<u64> {
        Some(value.cast_unsigned())
    }

    ghost respects_eq = { Prim.search rules };
}

impl HashStrategy<u64> for SignExtendStrategy {
    ghost fed = { λ x. integer_bytes (twos_complement 64 x) };

    fn hash<H: Hasher>(value: &u64, state: &mut H) {
        state.write_i64(value.cast_signed());
    }

    fn word(value: &u64) -> Option<u64> {
        Some(*value)
    }

    ghost respects_eq = { Prim.search rules };
}
