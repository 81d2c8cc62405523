//! Bytes and text that are fed as they are, with no length before them and no end mark.
//!
//! Empty bytes feed nothing. A caller that has to agree with an implementation which skips empty
//! texts skips them itself.

ghost use Rattle.std.specs.Prelude.{◌≡◌};
ghost use Rattle.std.specs.String.{string_bytes};
ghost use Rattle.std.proofs.Common.{rules};

use crate::hash::value::{HashStrategy, Value};
use crate::hash::{Hasher, XxHash64};

/// Bytes or text, fed as they are.
pub type RawBytes<T> = Value<T, RawBytesStrategy>;

/// The strategy of [`RawBytes`].
pub struct RawBytesStrategy;

/// Wraps the bytes.
pub fn from_vec(v: Vec<u8>) -> RawBytes<Vec<u8>>
    ensures { result ≡ v }
{
    Value::new(v)
}

/// Wraps the text, which is fed as its UTF-8 bytes.
pub fn from_string(v: String) -> RawBytes<String>
    ensures { result ≡ v }
{
    Value::new(v)
}

/// Wraps the bytes without copying them.
pub fn from_slice(v: &[u8]) -> RawBytes<&[u8]>
    ensures { result ≡ v.entry }
{
    Value::new(v)
}

/// Wraps the text without copying it. It is fed as its UTF-8 bytes.
pub fn from_str(v: &str) -> RawBytes<&str>
    ensures { result ≡ v.entry }
{
    Value::new(v)
}

impl HashStrategy<Vec<u8>> for RawBytesStrategy {
    ghost fed = { λ v. v.items };

    fn hash<H: Hasher>(value: &Vec<u8>, state: &mut H) {
        state.write(value.as_slice());
    }

    #[inline(always)]
    fn xxh64(value: &Vec<u8>, seed: u64) -> u64 {
        XxHash64::hash(value.as_slice(), seed)
    }

    ghost respects_eq = { Prim.search rules };
}

impl HashStrategy<&[u8]> for RawBytesStrategy {
    ghost fed = { λ v. v.now };

    fn hash<H: Hasher>(value: &&[u8], state: &mut H) {
        state.write(value);
    }

    #[inline(always)]
    fn xxh64(value: &&[u8], seed: u64) -> u64 {
        XxHash64::hash(value, seed)
    }

    ghost respects_eq = { Prim.search rules };
}

impl HashStrategy<String> for RawBytesStrategy {
    ghost fed = { string_bytes };

    fn hash<H: Hasher>(value: &String, state: &mut H) {
        state.write(value.as_bytes());
    }

    #[inline(always)]
    fn xxh64(value: &String, seed: u64) -> u64 {
        XxHash64::hash(value.as_bytes(), seed)
    }

    ghost respects_eq = { Prim.search rules };
}

impl HashStrategy<&str> for RawBytesStrategy {
    ghost fed = { λ v. v.now };

    fn hash<H: Hasher>(value: &&str, state: &mut H) {
        state.write(value.as_bytes());
    }

    #[inline(always)]
    fn xxh64(value: &&str, seed: u64) -> u64 {
        XxHash64::hash(value.as_bytes(), seed)
    }

    ghost respects_eq = { Prim.search rules };
}
