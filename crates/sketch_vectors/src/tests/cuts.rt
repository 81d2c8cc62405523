//! However a stream is cut into writes, the answer is that of one write.

use crate::tests::Both;
use datasketches::hash::value::raw_bytes;
use datasketches::hash::{Hash, MurmurHash3X64128, XxHash64};

const MURMUR_SEED: u64 = 42;

const XXH64_SEED: u64 = 0x9E37_79B1;

// The bytes 0, 1, .. 96.
fn counting_bytes() -> [u8; 97] {
    let mut bytes = [0; 97];
    let mut next = 0u8;
    for byte in bytes.iter_mut() {
        *byte = next;
        next = next.wrapping_add(1);
    }
    bytes
}

// What both answer after a write of each piece.
fn answers(pieces: &[&[u8]]) -> ((u64, u64), u64) {
    let mut both = Both::with_seeds(MURMUR_SEED, XXH64_SEED);
    for piece in pieces {
        both.write(piece);
    }
    both.answers()
}

#[test]
fn two_writes_equal_one(rt: HostRuntime) {
    let all = counting_bytes();
    for len in 0..=97 {
        let bytes = &all[..len];
        for cut in 0..=len {
            let (front, back) = bytes.split_at(cut);
            assert_eq!(rt;
                answers(&[front, back]),
                answers(&[bytes]),
                "{cut} of {len}"
            );
        }
    }
}

#[test]
fn one_call_equals_a_hasher(rt: HostRuntime) {
    let all = counting_bytes();
    for len in 0..=97 {
        let bytes = &all[..len];
        let in_one_call = (
            MurmurHash3X64128::hash(bytes, MURMUR_SEED),
            XxHash64::hash(bytes, XXH64_SEED),
        );
        assert_eq!(rt; in_one_call, answers(&[bytes]), "{len} bytes");
        let of_value = raw_bytes::from_slice(bytes).xxh64(XXH64_SEED);
        assert_eq!(rt; of_value, in_one_call.1, "{len} bytes");
    }
}

// The hashes after a write of each piece into saved states, which are then resumed.
fn state_answers(pieces: &[&[u8]]) -> ((u64, u64), u64) {
    let mut murmur = MurmurHash3X64128::with_seed(MURMUR_SEED).state();
    let mut xxh64 = XxHash64::with_seed(XXH64_SEED).state();
    for piece in pieces {
        murmur.write(piece);
        xxh64.write(piece);
    }
    (
        MurmurHash3X64128::resume(&murmur).finish128(),
        XxHash64::resume(&xxh64).finish64(),
    )
}

#[test]
fn three_writes_equal_one(rt: HostRuntime) {
    let all = counting_bytes();
    let of_all = answers(&[&all]);
    for second in 0..=97 {
        let (front, back) = all.split_at(second);
        for first in 0..=front.len() {
            let (start, middle) = front.split_at(first);
            let pieces = [start, middle, back];
            let of_pieces = [answers(&pieces), state_answers(&pieces)];
            assert_eq!(rt; of_pieces, [of_all; 2], "{first} and {second}");
        }
    }
}

#[test]
fn the_hash_can_be_read_after_each_byte(rt: HostRuntime) {
    let all = counting_bytes();
    let mut both = Both::with_seeds(MURMUR_SEED, XXH64_SEED);
    for at in 0..97 {
        both.write(&[]);
        both.write(&all[at..at + 1]);
        let so_far = answers(&[&all[..at + 1]]);
        assert_eq!(rt; [both.answers(), both.answers()], [so_far; 2], "at {at}");
    }
}
