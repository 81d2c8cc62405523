//! Both hashers by their single calls.

use super::{FOX, FOX_MURMUR, FOX_PIECES, FOX_XXH64, test_buffer};
use crate::hash::value::calculate_hash;
use crate::hash::{Hasher, MurmurHash3X64128, XxHash64};

// Writes, and Murmur's pair with seed 0 after them.
const MURMUR: [(&[&[u8]], (u64, u64)); 4] = [
    (&FOX_PIECES, FOX_MURMUR),
    (
        &[b"The quick brown fox jumps over the lazy1"],
        (0xe3301a827e5cdfe3, 0xbdbf05f8da0f0392),
    ),
    (
        &[b"The quick brown fox jumps over t"],
        (0xdf6af91bb29bdacf, 0x91a341c58df1f3a6),
    ),
    (
        &[b"The quick brown fox jumps over t", b""],
        (0xdf6af91bb29bdacf, 0x91a341c58df1f3a6),
    ),
];

fn murmur_of(seed: u64, pieces: &[&[u8]]) -> (u64, u64) {
    let mut hasher = MurmurHash3X64128::with_seed(seed);
    for piece in pieces {
        hasher.write(piece);
    }
    hasher.finish128()
}

#[test]
fn murmur_of_pieces(rt: HostRuntime) {
    for (pieces, expected) in &MURMUR {
        assert_eq!(rt; murmur_of(0, pieces), *expected);
    }
}

// A seed, a number of bytes of the test buffer, and their XXH64.
const XXH64: [(u64, usize, u64); 5] = [
    (0, 0, 0xef46_db37_51d8_e999),
    (0x9E37_79B1, 0, 0xac75_fda2_929b_17ef),
    (0, 32, 0x18b2_1649_2bb4_4b70),
    (0, 33, 0x55c8_dc3e_578f_5b59),
    (0, 100, 0x4bfe_019c_d91d_9ea4),
];

#[test]
fn xxh64_of_the_test_buffer(rt: HostRuntime) {
    for (seed, count, expected) in &XXH64 {
        let mut hasher = XxHash64::with_seed(*seed);
        hasher.write(&test_buffer()[..(*count).min(100)]);
        assert_eq!(rt; hasher.finish64(), *expected);
    }
}

#[test]
fn xxh64_continues_after_finish(rt: HostRuntime) {
    let mut hasher = XxHash64::with_seed(0);
    let bytes = test_buffer();
    let (stripe, rest) = bytes.split_at(32);
    hasher.write(stripe);
    assert_eq!(rt; hasher.finish64(), 0x18b2_1649_2bb4_4b70);
    hasher.write(&rest[..1]);
    assert_eq!(rt; hasher.finish64(), 0x55c8_dc3e_578f_5b59);
}

#[test]
fn one_call_equals_a_hasher(rt: HostRuntime) {
    assert_eq!(rt; MurmurHash3X64128::hash(FOX, 0), FOX_MURMUR);
    assert_eq!(rt; XxHash64::hash(FOX, 0), FOX_XXH64);
    let mut hasher = XxHash64::with_seed(0);
    hasher.write(&[0x7b, 0, 0, 0, 0, 0, 0, 0]);
    assert_eq!(rt; XxHash64::hash_u64(123, 0), hasher.finish64());
    let above_32_bits = XxHash64::hash_u64(1 << 32, 0x9E37_79B1);
    assert_eq!(rt; above_32_bits, 0xbe51_7b2e_515c_75b5);
}

// Different numbers have different pairs, and can have the same first word.
#[test]
fn first_words_of_murmur_pairs_collide(rt: HostRuntime) {
    let (one, other): (u64, u64) = (1596396737209757324, 5366728093409127731);
    let hash = |number: u64| MurmurHash3X64128::hash(&number.to_le_bytes(), 9001);
    let first = 0x7476_eab6_7a0a_2733;
    assert_eq!(rt; hash(one), (first, 0x50cd_aa57_8ed6_9ca6));
    assert_eq!(rt; hash(other), (first, 0xaec2_af0c_ed9d_9ffc));
    assert_eq!(rt;
        (calculate_hash(one), calculate_hash(other)),
        (first, first)
    );
}

// A state is written to, and resumed by a hasher.
#[test]
fn states_are_resumed(rt: HostRuntime) {
    let (prefix, rest) = FOX.split_at(20);
    let mut murmur = MurmurHash3X64128::with_seed(0).state();
    murmur.write(prefix);
    let mut resumed = MurmurHash3X64128::resume(&murmur);
    resumed.write(rest);
    assert_eq!(rt; resumed.finish128(), FOX_MURMUR);
    let mut xxh64 = XxHash64::with_seed(0).state();
    xxh64.write(prefix);
    let mut resumed = XxHash64::resume(&xxh64);
    resumed.write(rest);
    assert_eq!(rt; resumed.finish64(), FOX_XXH64);
}

// The bytes of the numbers that are written below.
const NUMBERS: [&[u8]; 8] = [
    b"\x01",
    b"\xff",
    b"\x02\x01",
    b"\xfe\xff",
    b"\x04\x03\x02\x01",
    b"\xfd\xff\xff\xff",
    b"\x08\x07\x06\x05\x04\x03\x02\x01",
    b"\xfc\xff\xff\xff\xff\xff\xff\xff",
];

// Writes the number at this place of the list.
fn write_number<H: Hasher>(hasher: &mut H, place: usize) {
    match place {
        0 => hasher.write_u8(1),
        1 => hasher.write_i8(-1),
        2 => hasher.write_u16(0x0102),
        3 => hasher.write_i16(-2),
        4 => hasher.write_u32(0x0102_0304),
        5 => hasher.write_i32(-3),
        6 => hasher.write_u64(0x0102_0304_0506_0708),
        _ => hasher.write_i64(-4),
    }
}

#[test]
fn numbers_are_written_lowest_byte_first(rt: HostRuntime) {
    for place in 0..8 {
        let mut murmur = MurmurHash3X64128::with_seed(7);
        write_number(&mut murmur, place);
        let expected = murmur_of(7, &[NUMBERS[place]]);
        assert_eq!(rt; murmur.finish128(), expected);
        let (mut xxh64, mut expected) = (XxHash64::with_seed(7), XxHash64::with_seed(7));
        write_number(&mut xxh64, place);
        expected.write(NUMBERS[place]);
        assert_eq!(rt; xxh64.finish64(), expected.finish64());
    }
}

#[test]
fn defaults_have_their_seeds(rt: HostRuntime) {
    let mut murmur = MurmurHash3X64128::default();
    murmur.write(FOX);
    assert_eq!(rt; murmur.finish128(), murmur_of(9001, &[FOX]));
    let mut xxh64 = XxHash64::default();
    xxh64.write(FOX);
    let mut seeded = XxHash64::with_seed(0);
    seeded.write(FOX);
    assert_eq!(rt; xxh64.finish64(), seeded.finish64());
}

#[test]
fn debug_texts_begin_with_the_name(rt: HostRuntime) {
    let murmur = format!(in rt.alloc(); "{:?}", MurmurHash3X64128::with_seed(1)).ok();
    assert_eq!(rt; murmur.as_deref(), Some("MurmurHash3X64128 { .. }"));
    let xxh64 = format!(in rt.alloc(); "{:?}", XxHash64::with_seed(1)).ok();
    assert_eq!(rt; xxh64.as_deref(), Some("XxHash64 { .. }"));
}
