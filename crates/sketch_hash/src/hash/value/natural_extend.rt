//! Integers that are fed as eight bytes, the lowest first, by their value: a signed number is
//! extended by its sign, an unsigned one by zeros.
//!
//! So the unsigned 255 of eight bits feeds what 255 of 64 bits feeds.

ghost use Rattle.std.specs.Prelude.{◌≡◌, pos};
ghost use Rattle.std.proofs.Common.{rules};
ghost use Rattle.sketch_base.specs.Bytes.{integer_bytes};

use crate::hash::Hasher;
use crate::hash::value::{HashStrategy, Value};

/// An integer that is fed as eight bytes, by its value.
pub type NaturalExtend<T> = Value<T, NaturalExtendStrategy>;

/// The strategy of [`NaturalExtend`].
pub struct NaturalExtendStrategy;

/// The number, to be fed by its value.
pub fn from_i8(v: i8) -> NaturalExtend<i8>
    ensures { result ≡ v }
{
    Value::new(v)
}

/// The number, to be fed by its value.
pub fn from_u8(v: u8) -> NaturalExtend<u8>
    ensures { result ≡ v }
{
    Value::new(v)
}

/// The number, to be fed by its value.
pub fn from_i16(v: i16) -> NaturalExtend<i16>
    ensures { result ≡ v }
{
    Value::new(v)
}

/// The number, to be fed by its value.
pub fn from_u16(v: u16) -> NaturalExtend<u16>
    ensures { result ≡ v }
{
    Value::new(v)
}

/// The number, to be fed by its value.
pub fn from_i32(v: i32) -> NaturalExtend<i32>
    ensures { result ≡ v }
{
    Value::new(v)
}

/// The number, to be fed by its value.
pub fn from_u32(v: u32) -> NaturalExtend<u32>
    ensures { result ≡ v }
{
    Value::new(v)
}

/// The number, to be fed by its value.
pub fn from_i64(v: i64) -> NaturalExtend<i64>
    ensures { result ≡ v }
{
    Value::new(v)
}

/// The number, to be fed by its value.
pub fn from_u64(v: u64) -> NaturalExtend<u64>
    ensures { result ≡ v }
{
    Value::new(v)
}

impl HashStrategy<i8> for NaturalExtendStrategy {
    ghost fed = { integer_bytes };

    fn hash<H: Hasher>(value: &i8, state: &mut H) {
        state.write_i64(i64::from(*value));
    }

    fn word(value: &i8) -> Option<u64> {
        Some(i64::from(*value).cast_unsigned())
    }

    ghost respects_eq = { Prim.search rules };
}

impl HashStrategy<u8> for NaturalExtendStrategy {
    ghost fed = { λ x. integer_bytes (pos x) };

    fn hash<H: Hasher>(value: &u8, state: &mut H) {
        state.write_u64(u64::from(*value));
    }

    fn word(value: &u8) -> Option<u64> {
        Some(u64::from(*value))
    }

    ghost respects_eq = { Prim.search rules };
}

impl HashStrategy<i16> for NaturalExtendStrategy {
    ghost fed = { integer_bytes };

    fn hash<H: Hasher>(value: &i16, state: &mut H) {
        state.write_i64(i64::from(*value));
    }

    fn word(value: &i16) -> Option<u64> {
        Some(i64::from(*value).cast_unsigned())
    }

    ghost respects_eq = { Prim.search rules };
}

impl HashStrategy<u16> for NaturalExtendStrategy {
    ghost fed = { λ x. integer_bytes (pos x) };

    fn hash<H: Hasher>(value: &u16, state: &mut H) {
        state.write_u64(u64::from(*value));
    }

    fn word(value: &u16) -> Option<u64> {
        Some(u64::from(*value))
    }

    ghost respects_eq = { Prim.search rules };
}

impl HashStrategy<i32> for NaturalExtendStrategy {
    ghost fed = { integer_bytes };

    fn hash<H: Hasher>(value: &i32, state: &mut H) {
        state.write_i64(i64::from(*value));
    }

    fn word(value: &i32) -> Option<u64> {
        Some(i64::from(*value).cast_unsigned())
    }

    ghost respects_eq = { Prim.search rules };
}

impl HashStrategy<u32> for NaturalExtendStrategy {
    ghost fed = { λ x. integer_bytes (pos x) };

    fn hash<H: Hasher>(value: &u32, state: &mut H) {
        state.write_u64(u64::from(*value));
    }

    fn word(value: &u32) -> Option<u64> {
        Some(u64::from(*value))
    }

    ghost respects_eq = { Prim.search rules };
}

impl HashStrategy<i64> for NaturalExtendStrategy {
    ghost fed = { integer_bytes };

    fn hash<H: Hasher>(value: &i64, state: &mut H) {
        state.write_i64(*value);
    }

    fn word(value: &i64) -> Option<u64> {
        Some(value.cast_unsigned())
    }

    ghost respects_eq = { Prim.search rules };
}

impl HashStrategy<u64> for NaturalExtendStrategy {
    ghost fed = { λ x. integer_bytes (pos x) };

    fn hash<H: Hasher>(value: &u64, state: &mut H) {
        state.write_u64(*value);
    }

    fn word(value: &u64) -> Option<u64> {
        Some(*value)
    }

    ghost respects_eq = { Prim.search rules };
}
