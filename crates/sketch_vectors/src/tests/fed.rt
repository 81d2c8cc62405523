//! The bytes that values feed.

use crate::first_bytes::FirstBytes;
use datasketches::hash::value::{
    feed_all, natural_extend as natural, raw_bytes, sign_extend as sign,
};
use datasketches::hash::{Hash, Hasher};
use std::alloc::{AllocError, Global};
use std::io::Eprint;
use std::process::Abort;

// A hasher that was fed one value.
fn feed<T: Hash + Drop>(value: T) -> FirstBytes {
    let mut hasher = FirstBytes::new();
    value.hash(&mut hasher);
    hasher
}

// Asserts that each hasher was fed the bytes beside it.
fn assert_fed(rt: &impl Abort, cases: &[(FirstBytes, &[u8])]) {
    for (row, (hasher, expected)) in cases.iter().enumerate() {
        assert_eq!(rt; hasher.bytes(), *expected, "row {row}");
    }
}

// Asserts that each hasher was fed the eight bytes of the number beside it, the lowest first.
fn assert_words(rt: &impl Abort, cases: &[(FirstBytes, i64)]) {
    for (row, (hasher, expected)) in cases.iter().enumerate() {
        assert_eq!(rt;
            hasher.bytes(),
            expected.to_le_bytes().as_slice(),
            "row {row}"
        );
    }
}

const ONES: &[u8] = &[0xff; 8];

#[test]
fn extended_numbers_byte_by_byte(rt: HostRuntime) {
    let minus_two: &[u8] = b"\xfe\xff\xff\xff\xff\xff\xff\xff";
    let turned: &[u8] = b"\0\x80\xff\xff\xff\xff\xff\xff";
    assert_fed(
        &rt,
        &[
            (feed(sign::from_u8(255)), ONES),
            (feed(natural::from_u8(255)), b"\xff\0\0\0\0\0\0\0"),
            (feed(sign::from_u16(32768)), turned),
            (feed(natural::from_u16(32768)), b"\0\x80\0\0\0\0\0\0"),
            (feed(sign::from_i32(-2)), minus_two),
            (feed(natural::from_i32(-2)), minus_two),
        ],
    );
}

// Of 64 bits both ways feed the same: a number is its own word.
#[test]
fn long_numbers_byte_by_byte(rt: HostRuntime) {
    let half: &[u8] = b"\0\0\0\0\0\0\0\x80";
    assert_fed(
        &rt,
        &[
            (feed(natural::from_i64(-1)), ONES),
            (feed(natural::from_u64(18446744073709551615)), ONES),
            (feed(natural::from_u64(9223372036854775808)), half),
            (feed(sign::from_u64(9223372036854775808)), half),
            (feed(sign::from_i64(-1)), ONES),
        ],
    );
}

#[test]
fn numbers_extended_to_eight_bytes(rt: HostRuntime) {
    assert_words(
        &rt,
        &[
            (feed(natural::from_u8(128)), 128),
            (feed(natural::from_i8(-128)), -128),
            (feed(natural::from_u16(65535)), 65535),
            (feed(natural::from_i16(-32768)), -32768),
            (feed(natural::from_u32(2147483648)), 2147483648),
            (feed(natural::from_i32(-2147483648)), -2147483648),
            (feed(sign::from_u8(128)), -128),
            (feed(sign::from_i8(-128)), -128),
            (feed(sign::from_u16(65535)), -1),
            (feed(sign::from_i16(32767)), 32767),
            (feed(sign::from_u32(2147483648)), -2147483648),
            (feed(sign::from_i32(-2147483648)), -2147483648),
        ],
    );
}

#[test]
fn plain_numbers(rt: HostRuntime) {
    assert_fed(
        &rt,
        &[
            (feed(128u8), b"\x80"),
            (feed(-1i8), b"\xff"),
            (feed(258u16), b"\x02\x01"),
            (feed(-32768i16), b"\0\x80"),
            (feed(2147483648u32), b"\0\0\0\x80"),
            (feed(-1i32), b"\xff\xff\xff\xff"),
            (feed(18446744073709551615u64), ONES),
            (
                feed(9223372036854775807i64),
                b"\xff\xff\xff\xff\xff\xff\xff\x7f",
            ),
        ],
    );
}

#[test]
fn bytes_and_texts(rt: HostRuntime) -> Result<(), AllocError> {
    let bytes = Vec::from_slice(rt.alloc(), &[1, 2, 0xff])?;
    let text = String::from_str(rt.alloc(), "abc")?;
    assert_fed(
        &rt,
        &[
            (feed(raw_bytes::from_slice(&[1, 2, 0xff])), &[1, 2, 0xff]),
            (feed(raw_bytes::from_vec(bytes)), &[1, 2, 0xff]),
            (feed(raw_bytes::from_str("abc")), b"abc"),
            (feed(raw_bytes::from_string(text)), b"abc"),
            (feed(raw_bytes::from_str("")), &[]),
        ],
    );
    Ok(())
}

// What a clone and then its original feed, if there is memory for a clone.
fn try_clone(rt: &impl Abort, alloc: Global) -> Result<(), AllocError> {
    let original = raw_bytes::from_vec(Vec::from_slice(alloc, &[1, 2, 3])?);
    let cloned: Result<_, AllocError> = original.clone();
    let is_same = cloned.as_ref().is_ok_and(|clone| *clone == original);
    let expected = [1, 2, 3].as_slice();
    assert_eq!(rt; feed(original).bytes(), expected);
    assert_eq!(rt; feed(cloned?).bytes(), expected);
    assert!(rt; is_same);
    Ok(())
}

#[test]
fn a_clone_feeds_what_its_original_feeds(rt: HostRuntime) -> Result<(), AllocError> {
    try_clone(&rt, rt.alloc())
}

#[test]
fn a_clone_without_memory(rt: HostRuntime) {
    if try_clone(&rt, rt.alloc()).is_err() {
        let _ = rt.eprintln("out of memory");
    }
}

#[test]
fn values_of_a_list_are_fed_in_order(rt: HostRuntime) {
    let texts = [
        raw_bytes::from_str("ab"),
        raw_bytes::from_str(""),
        raw_bytes::from_str("c"),
    ];
    let mut hasher = FirstBytes::new();
    feed_all(&texts, &mut hasher);
    assert_eq!(rt; hasher.bytes(), b"abc".as_slice());
}

#[test]
fn only_the_first_bytes_are_kept(rt: HostRuntime) {
    let mut hasher = FirstBytes::new();
    hasher.write(&[1; 60]);
    hasher.write(&[2; 60]);
    assert_eq!(rt; hasher.finish(), 64);
    assert_eq!(rt; hasher.bytes().get(59..62), Some([1, 2, 2].as_slice()));
}
