//! Equalities of hashes: those that the original documents, and similar ones of the other types.

use datasketches::hash::Hash;
use datasketches::hash::value::{calculate_hash, natural_extend, raw_bytes, sign_extend};
use std::alloc::{AllocError, Global};

#[test]
fn numbers_extended_by_their_highest_bit(rt: HostRuntime) {
    assert_eq!(rt;
        [
            calculate_hash(sign_extend::from_i8(-1)),
            calculate_hash(sign_extend::from_u8(255)),
            calculate_hash(sign_extend::from_i16(-1)),
            calculate_hash(sign_extend::from_u16(65535)),
            calculate_hash(sign_extend::from_i32(-1)),
            calculate_hash(sign_extend::from_u32(4294967295)),
        ],
        [calculate_hash(-1i64); 6]
    );
    assert_eq!(rt;
        calculate_hash(sign_extend::from_u8(1)),
        calculate_hash(1i64)
    );
    assert_eq!(rt;
        [
            calculate_hash(sign_extend::from_i8(42)),
            calculate_hash(sign_extend::from_u8(42)),
            calculate_hash(sign_extend::from_i16(42)),
            calculate_hash(sign_extend::from_u16(42)),
            calculate_hash(sign_extend::from_i32(42)),
            calculate_hash(sign_extend::from_u32(42)),
        ],
        [calculate_hash(42i64); 6]
    );
}

#[test]
fn numbers_extended_by_their_value(rt: HostRuntime) {
    assert_eq!(rt;
        [
            calculate_hash(natural_extend::from_u8(255)),
            calculate_hash(natural_extend::from_u16(65535)),
            calculate_hash(natural_extend::from_u32(4294967295)),
        ],
        [255u64, 65535, 4294967295].map(calculate_hash)
    );
    assert_eq!(rt;
        [
            calculate_hash(natural_extend::from_i8(-1)),
            calculate_hash(natural_extend::from_i16(-1)),
            calculate_hash(natural_extend::from_i32(-1)),
        ],
        [calculate_hash(-1i64); 3]
    );
    assert_eq!(rt;
        [
            calculate_hash(42i64),
            calculate_hash(natural_extend::from_i8(42)),
            calculate_hash(natural_extend::from_u8(42)),
            calculate_hash(natural_extend::from_i16(42)),
            calculate_hash(natural_extend::from_u16(42)),
            calculate_hash(natural_extend::from_i32(42)),
            calculate_hash(natural_extend::from_u32(42)),
        ],
        [calculate_hash(42u64); 7]
    );
}

#[test]
fn numbers_of_64_bits_meet_the_short_ones(rt: HostRuntime) {
    assert_eq!(rt;
        [
            calculate_hash(natural_extend::from_i64(-1)),
            calculate_hash(natural_extend::from_u8(255)),
            calculate_hash(sign_extend::from_u8(255)),
        ],
        [
            calculate_hash(natural_extend::from_u64(18446744073709551615)),
            calculate_hash(natural_extend::from_u64(255)),
            calculate_hash(sign_extend::from_i64(-1)),
        ]
    );
}

// XXH64 of a value under the seed 7, and its Murmur word.
fn both<T: Hash + Drop>(value: T) -> (u64, u64) {
    (value.xxh64(7), calculate_hash(value))
}

// The hashes of one text, by each of the four ways to wrap it.
fn hashes_of_text(alloc: Global, text: &str) -> Result<[(u64, u64); 4], AllocError> {
    Ok([
        both(raw_bytes::from_vec(Vec::from_slice(alloc, text.as_bytes())?)),
        both(raw_bytes::from_slice(text.as_bytes())),
        both(raw_bytes::from_string(String::from_str(alloc, text)?)),
        both(raw_bytes::from_str(text)),
    ])
}

#[test]
fn bytes_and_texts_agree(rt: HostRuntime) -> Result<(), AllocError> {
    for text in ["abc", ""] {
        let [vec, slice, string, str] = hashes_of_text(rt.alloc(), text)?;
        assert_eq!(rt; [vec, slice, string], [str; 3], "{text}");
    }
    Ok(())
}

// Whether a text is empty, by each of the four wrappers of it.
fn empty_ones(alloc: Global, text: &str) -> Result<[bool; 4], AllocError> {
    let bytes = raw_bytes::from_vec(Vec::from_slice(alloc, text.as_bytes())?);
    let string = raw_bytes::from_string(String::from_str(alloc, text)?);
    Ok([
        bytes.is_empty(),
        raw_bytes::from_slice(text.as_bytes()).is_empty(),
        string.is_empty(),
        raw_bytes::from_str(text).is_empty(),
    ])
}

#[test]
fn emptiness_is_seen_through_the_wrapper(rt: HostRuntime) -> Result<(), AllocError> {
    assert_eq!(rt; empty_ones(rt.alloc(), "")?, [true; 4]);
    assert_eq!(rt; empty_ones(rt.alloc(), "abc")?, [false; 4]);
    Ok(())
}
