//! Each example once.

use crate::bloom_filter::{
    contains_inserted, fill, is_same_filter, load, merge_in_place, save, see_in_place, shrink,
};
use crate::custom_types::{BigEndian, Point};
use crate::items::{read_all, write_all};
use crate::keys::{
    hash_texts, is_same_key, is_same_number, is_same_number_by_murmur, pair_of, pair_of_value,
};
use crate::membership_table::{read_back, read_upgraded, see_key};
use crate::preamble::{check_preamble, write_preamble};
use crate::streams::{
    checkpoint, has_same_pair, has_same_xxh64, is_same_seed, murmur_of_pieces, xxh64_from,
};
use datasketches::codec::{Item, Kind, Short, SketchBytes};
use datasketches::hash::XxHash64;
use datasketches::hash::value::raw_bytes;
use sketch_bloom::BloomFilter;
use sketch_member::MemberTable;
use std::test::Fail;

#[test]
fn keys_have_different_pairs(rt: HostRuntime) {
    assert!(rt; is_same_key(9001, -1, -1));
    assert!(rt; !is_same_key(9001, -1, 1));
    assert!(rt; pair_of(0, 1) != pair_of(1, 1));
}

#[test]
fn different_numbers_streams_and_seeds_have_different_hashes(rt: HostRuntime) {
    let (one, other) = (1596396737209757324, 5366728093409127731);
    assert!(rt; is_same_number(9001, one, one) && !is_same_number(9001, one, other));
    assert!(rt; !is_same_number_by_murmur(9001, one, other));
    assert!(rt; has_same_pair(7, b"fox", b"fox") && !has_same_pair(7, b"fox", b"dog"));
    assert!(rt; has_same_xxh64(7, b"fox", b"fox") && !has_same_xxh64(7, b"fox", b"fix"));
    assert!(rt; is_same_seed(7, 7, b"fox") && !is_same_seed(7, 8, b"fox"));
}

#[test]
fn streams_have_the_hash_of_all_bytes(rt: HostRuntime) {
    let pieces = [
        raw_bytes::from_slice(b"The quick brown fox "),
        raw_bytes::from_slice(b"jumps over the lazy dog"),
    ];
    let fox = (0xe34b_bc7b_bc07_1b6c, 0x7a43_3ca9_c49a_9347);
    assert_eq!(rt; murmur_of_pieces(0, &pieces), fox);
    let state = checkpoint(0, b"The quick brown fox jumps over the");
    assert_eq!(rt; xxh64_from(&state, b" lazy dog"), 0x0b24_2d36_1fda_71bc);
}

#[test]
fn custom_types_feed_their_bytes(rt: HostRuntime) {
    let bytes = raw_bytes::from_slice(&[1, 0, 0, 0, 0xff, 0xff, 0xff, 0xff]);
    let point = Point { x: 1, y: -1 };
    assert_eq!(rt; pair_of_value(7, &point), pair_of_value(7, &bytes));
    let bytes = raw_bytes::from_slice(&[0, 0, 0, 0, 0, 0, 1, 2]);
    let key = BigEndian::new(258);
    assert_eq!(rt; pair_of_value(7, &key), pair_of_value(7, &bytes));
}

#[test]
fn a_column_is_hashed(rt: HostRuntime) {
    let mut hashes = [7; 2];
    assert_eq!(rt; hash_texts(b"foxes", &[0, 6, 5], &mut hashes), Err(1));
    assert_eq!(rt; hash_texts(b"foxes", &[0, 3, 5], &mut hashes), Ok(()));
    assert_eq!(rt; hashes[1], XxHash64::hash(b"es", 9001));
}

#[test]
fn items_and_a_preamble_are_read_back(rt: HostRuntime) -> Result<(), Fail> {
    let items = [Item::U8(1), Item::U32Be(2)];
    let mut places = [Item::U8(0); 2];
    let kinds = [Kind::U8, Kind::U32Be];
    let mut writer = SketchBytes::with_capacity(rt.alloc(), 7)?;
    assert_eq!(rt; write_all(&mut writer, &items), Ok(()));
    writer.write(&[7, 8])?;
    let bytes = writer.into_bytes();
    let rest = read_all(&bytes, &kinds, &mut places);
    assert_eq!(rt; rest, Ok([7, 8].as_slice()));
    assert_eq!(rt; places, items);
    let rest = read_all(&bytes[..4], &kinds, &mut places);
    assert_eq!(rt; rest, Err(Short { read: 1 }));
    let preamble = write_preamble(rt.alloc(), 9001)?;
    assert_eq!(rt; preamble.as_slice(), [1, 3, 7, 0xcc, 0x93].as_slice());
    assert!(rt; check_preamble(rt.alloc(), &preamble, 9001).is_ok());
    assert!(rt; check_preamble(rt.alloc(), &preamble, 9002).is_err());
    Ok(())
}

#[test]
fn a_membership_table_is_saved_and_loaded(rt: HostRuntime) -> Result<(), Fail> {
    let mut seen = MemberTable::new(rt.alloc(), 0, 10, 7)?;
    assert!(rt; !see_key(&mut seen, b"a"));
    let mut read = read_back(rt.alloc(), &seen)?;
    assert!(rt; see_key(&mut read, b"a"));
    assert_eq!(rt; read.count(), Some(2));
    let version1 = b"\x02\x01\xc8\x06\x01\0\0\0\0\0\0\0\0\0\0\0\0\0\0\0\0\0\0\0";
    assert!(rt; read_upgraded(rt.alloc(), version1).is_ok());
    Ok(())
}

#[test]
fn a_bloom_filter_is_filled_saved_and_merged(rt: HostRuntime) -> Result<(), Fail> {
    let keys = [raw_bytes::from_str("a"), raw_bytes::from_str("b")];
    let mut filter = fill(rt.alloc(), &keys, 1000)?;
    let mut other = BloomFilter::new(rt.alloc(), 32)?;
    other.insert(&raw_bytes::from_str("c"));
    assert_eq!(rt; filter.merge(&other), Ok(()));
    let mut file = [9; 50];
    assert_eq!(rt; save(&filter, &mut file), Some(47));
    let Some(read) = load(&file) else {
        assert!(rt; false);
        return Ok(());
    };
    assert_eq!(rt; read, filter.as_bytes());
    for key in ["a", "b", "c"] {
        assert_eq!(rt; contains_inserted(read, key.as_bytes()), Ok(true));
    }
    Ok(())
}

#[test]
fn filters_of_the_same_values_are_the_same(rt: HostRuntime) -> Result<(), Fail> {
    let (mut one, mut other, mut both) = ([0; 64], [0; 64], [0; 64]);
    let _ = (see_in_place(&mut one, b"a"), see_in_place(&mut other, b"b"));
    let _ = (see_in_place(&mut both, b"b"), see_in_place(&mut both, b"a"));
    assert!(rt; !is_same_filter(&one, &other));
    assert_eq!(rt; merge_in_place(&mut one, &other), Ok(()));
    assert!(rt; is_same_filter(&one, &both));
    let mut filter = BloomFilter::new(rt.alloc(), 64)?;
    filter.insert(&raw_bytes::from_str("a"));
    let mut half = [0; 32];
    let _ = see_in_place(&mut half, b"a");
    assert_eq!(rt; shrink(&mut filter), Ok(()));
    assert!(rt; is_same_filter(filter.as_bytes(), &half));
    assert!(rt; shrink(&mut filter).is_err());
    Ok(())
}

#[test]
fn a_bloom_filter_is_changed_in_place(rt: HostRuntime) {
    let mut filter = [0; 64];
    assert_eq!(rt; see_in_place(&mut filter, b"a"), Ok(false));
    assert_eq!(rt; see_in_place(&mut filter, b"a"), Ok(true));
    assert!(rt; see_in_place(&mut [0; 33], b"a").is_err());
}
