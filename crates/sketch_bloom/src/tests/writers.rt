//! The filters of other writers, byte for byte, and their hash of each kind of value.

use crate::{contains, insert};
use datasketches::hash::Hash;
use datasketches::hash::value::raw_bytes;
use std::num::{f32_to_bits_with_nan, f64_to_bits_with_nan};
use std::process::Abort;
use std::test::Fail;

// The empty text and t0 to t89, by Arrow.
const OF_ARROW: [u8; 128] = [
    21, 253, 176, 218, 199, 141, 211, 152, 162, 215, 149, 9, 250, 83, 87, 229, 73, 2, 234, 227,
    246, 207, 82, 174, 82, 197, 254, 22, 198, 130, 214, 28, 68, 39, 238, 82, 202, 244, 227, 180,
    253, 136, 180, 1, 181, 115, 102, 56, 174, 17, 71, 97, 216, 99, 179, 15, 10, 116, 81, 248, 222,
    73, 213, 169, 107, 177, 41, 45, 143, 149, 195, 141, 80, 91, 200, 149, 20, 124, 189, 9, 224,
    152, 238, 58, 49, 212, 130, 217, 73, 114, 19, 213, 56, 147, 243, 6, 137, 145, 125, 124, 157,
    226, 116, 81, 137, 62, 217, 138, 216, 142, 134, 253, 206, 235, 197, 205, 26, 253, 100, 59, 180,
    86, 21, 189, 129, 94, 19, 116,
];

// The texts k0 to k19, by DuckDB.
const OF_DUCKDB: [u8; 32] = [
    119, 98, 196, 79, 15, 248, 12, 243, 177, 141, 246, 5, 219, 250, 228, 17, 21, 210, 146, 72, 167,
    200, 164, 183, 72, 105, 62, 45, 193, 226, 152, 34,
];

#[test]
fn writes_texts_as_other_writers_do(rt: HostRuntime) -> Result<(), Fail> {
    let (mut arrow, mut duckdb) = ([0; 128], [0; 32]);
    assert!(rt; insert(&mut arrow, &raw_bytes::from_str("")).is_ok());
    for n in 0..90 {
        let text = raw_bytes::from_string(format!(in rt.alloc(); "t{n}")?);
        assert!(rt; insert(&mut arrow, &text).is_ok() && contains(&OF_ARROW, &text) == Ok(true));
    }
    for n in 0..20 {
        let text = raw_bytes::from_string(format!(in rt.alloc(); "k{n}")?);
        assert!(rt; insert(&mut duckdb, &text).is_ok());
    }
    assert!(rt; arrow == OF_ARROW && duckdb == OF_DUCKDB);
    Ok(())
}

#[test]
fn hashes_each_kind_of_value_as_arrow_does(rt: HostRuntime) {
    let bytes = [0, 1, 2, 3, 4, 5, 6, 7, 8, 9, 10, 11, 12, 13, 14, 15];
    let fixed = raw_bytes::from_slice(&bytes);
    for (hash, expected) in [
        ((-1i32).xxh64(0), 0x7f78_e4bd_a3ad_df93),
        (42i64.xxh64(0), 0xb556_806f_b6d1_4353),
        (f32_to_bits_with_nan(1.5).xxh64(0), 0x4f2d_8259_5c48_3a0d),
        (f64_to_bits_with_nan(-1.5).xxh64(0), 0xff8a_177d_a21d_c0ae),
        (raw_bytes::from_str("hello").xxh64(0), 0x26c7_827d_889f_6da3),
        (fixed.xxh64(0), 0x44b6_ef2f_b841_69f7),
    ] {
        assert_eq!(rt; hash, expected);
    }
}
