//! Columns of keys, and wrong offsets.

use super::{FOX, FOX_MURMUR, FOX_XXH64};
use crate::hash::{MurmurHash3X64128, XxHash64};

// The sentence between two bytes, and an empty key.
const BYTES: &[u8] = b"<The quick brown fox jumps over the lazy dog>";

#[test]
fn keys_are_hashed_as_in_one_call(rt: HostRuntime) {
    let (mut hashes, mut pairs) = ([0; 2], [[0; 2]; 2]);
    let answer = XxHash64::hash_each(BYTES, &[1u32, 44, 44], 0, &mut hashes);
    assert_eq!(rt;
        (answer, hashes),
        (Ok(()), [FOX_XXH64, XxHash64::hash(b"", 0)])
    );
    let answer = MurmurHash3X64128::hash_each(BYTES, &[1u64, 44, 44], 0, &mut pairs);
    assert_eq!(rt; answer, Ok(()));
    assert_eq!(rt; pairs, [[FOX_MURMUR.0, FOX_MURMUR.1], [0, 0]]);
}

#[test]
fn numbers_are_hashed_as_in_one_call(rt: HostRuntime) {
    let mut hashes = [9; 2];
    assert_eq!(rt; XxHash64::hash_each_u64(&[123], 0, &mut hashes), Err(1));
    assert_eq!(rt; hashes, [9; 2]);
    assert_eq!(rt; XxHash64::hash_each_u64(&[123, 7], 0, &mut hashes), Ok(()));
    assert_eq!(rt;
        hashes,
        [XxHash64::hash_u64(123, 0), XxHash64::hash_u64(7, 0)]
    );
}

// Offsets into 43 bytes, and the first that is wrong: past the end, below another, missing.
const WRONG: [(&[u32], usize); 4] = [
    (&[44, 43, 43], 0),
    (&[0, 5, u32::MAX], 2),
    (&[5, 4, 43], 1),
    (&[0, 43], 2),
];

#[test]
fn the_first_wrong_offset_is_returned(rt: HostRuntime) {
    for (offsets, fault) in &WRONG {
        let mut hashes = [9; 2];
        let answer = XxHash64::hash_each(FOX, offsets, 7, &mut hashes);
        assert_eq!(rt; (answer, hashes), (Err(*fault), [9; 2]));
    }
}
