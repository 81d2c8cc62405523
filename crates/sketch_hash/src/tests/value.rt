//! A wrapped value behaves like the value.

use super::{FOX_MURMUR, FOX_PIECES};
use crate::hash::value::{calculate_hash, feed_all, natural_extend, raw_bytes, sign_extend};
use crate::hash::{Hash, MurmurHash3X64128};
use std::cmp::Ordering;

#[test]
fn wrapped_numbers_behave_as_numbers(rt: HostRuntime) {
    let (three, four) = (sign_extend::from_u8(3), sign_extend::from_u8(4));
    assert!(rt; three < four && three != four && three.cmp(&four) == Ordering::Less);
    let mut nine = sign_extend::from_u16(9);
    *nine = 10;
    assert_eq!(rt; nine.into_inner(), 10);
}

#[test]
fn wrapped_numbers_print_as_numbers(rt: HostRuntime) {
    let value = sign_extend::from_i8(-1);
    let text = format!(in rt.alloc(); "{value};{value:4};{value:?}").ok();
    assert_eq!(rt; text.as_deref(), Some("-1;  -1;-1"));
}

#[test]
fn hashes_of_values_take_no_memory(rt: HostRuntime) {
    let one = calculate_hash(sign_extend::from_u8(1));
    assert_eq!(rt; one, calculate_hash(1i64));
}

#[test]
fn values_of_a_list_are_fed_in_order(rt: HostRuntime) {
    let pieces = FOX_PIECES.map(raw_bytes::from_slice);
    let mut hasher = MurmurHash3X64128::with_seed(0);
    feed_all(&pieces, &mut hasher);
    assert_eq!(rt; hasher.finish128(), FOX_MURMUR);
}

#[test]
fn word_is_the_number_whose_bytes_are_fed(rt: HostRuntime) {
    assert_eq!(rt; natural_extend::from_i8(-1).word(), Some(u64::MAX));
    assert_eq!(rt;
        sign_extend::from_u16(0x8000).word(),
        Some(0xffff_ffff_ffff_8000)
    );
    assert_eq!(rt; raw_bytes::from_str("8 letter").word(), None);
    assert_eq!(rt; (-7i64).xxh64(0), natural_extend::from_i64(-7).xxh64(0));
}
