//! A sample of what DataSketches' Rust component answers.

mod answers;

use crate::tests::Both;
use answers::ANSWERS;
use datasketches::error::ErrorKind;
use datasketches::hash::value::{calculate_hash, natural_extend, raw_bytes, sign_extend};
use datasketches::hash::{Hasher, MurmurHash3X64128, XxHash64, compute_seed_hash};
use std::alloc::Global;

#[test]
fn hashes_equal_those_of_the_original(rt: HostRuntime) {
    for line in ANSWERS.lines() {
        let (question, answer) = line.split_once(" = ").unwrap_or((line, ""));
        let expected = words_of(answer);
        assert_eq!(rt; answer_to(rt.alloc(), question), Some(expected), "{line}");
    }
}

// The words of an answer, and 0 after them.
fn words_of(answer: &str) -> [u64; 3] {
    let mut words = [0; 3];
    for (place, word) in words.iter_mut().zip(answer.split_whitespace()) {
        *place = u64::from_str_radix(word, 16).unwrap_or(u64::MAX);
    }
    words
}

// The words that are answered to a question, and 0 after them. None where it is not one.
fn answer_to(alloc: Global, question: &str) -> Option<[u64; 3]> {
    let (kind, asked) = question.split_once(' ')?;
    match kind {
        "stream" => stream(asked),
        "number" => {
            let number = number_of(asked)?;
            let mut murmur3 = MurmurHash3X64128::with_seed(7);
            let mut xxhash = XxHash64::with_seed(7);
            Some([
                after_write(&mut murmur3, number),
                after_write(&mut xxhash, number),
                0,
            ])
        }
        "raw" => {
            let (form, hex) = asked.split_once(' ')?;
            let input = Bytes::from_hex(hex);
            let hash = match form {
                "slice" => calculate_hash(raw_bytes::from_slice(input.as_slice())),
                _ => calculate_hash(raw_bytes::from_str(str::from_utf8(input.as_slice()).ok()?)),
            };
            Some([hash, 0, 0])
        }
        "seed_hash" => {
            let seed = asked.parse().ok()?;
            let hash = compute_seed_hash(alloc, seed, ErrorKind::InvalidArgument).ok()?;
            Some([u64::from(hash), 0, 0])
        }
        strategy => Some([hash_of(strategy, number_of(asked)?)?, 0, 0]),
    }
}

// Both hashers' words after the bytes were written in pieces.
fn stream(asked: &str) -> Option<[u64; 3]> {
    let (seed, rest) = asked.split_once(' ')?;
    let (cuts, hex) = rest.split_once(' ')?;
    let seed = seed.parse().unwrap_or(0);
    Some(after_pieces(seed, cuts, Bytes::from_hex(hex).as_slice()))
}

fn after_pieces(seed: u64, cuts: &str, bytes: &[u8]) -> [u64; 3] {
    let mut both = Both::with_seeds(seed, seed);
    let mut start = 0;
    for cut in cuts.split(',') {
        let end = cut.parse().unwrap_or(0);
        both.write(bytes.get(start..end).unwrap_or(&[]));
        start = end;
    }
    both.write(bytes.get(start..).unwrap_or(&[]));
    let ((h1, h2), xxh64) = both.answers();
    [h1, h2, xxh64]
}

// At most 256 bytes.
#[derive(Drop)]
struct Bytes {
    bytes: [u8; 256],
    count: usize,
}

impl Bytes {
    fn from_hex(text: &str) -> Bytes {
        let mut bytes = [0; 256];
        let count = (text.len() / 2).min(256);
        for i in 0..count {
            let digits = text.get(2 * i..2 * i + 2).unwrap_or("");
            bytes[i] = u8::from_str_radix(digits, 16).unwrap_or(0);
        }
        Bytes { bytes, count }
    }

    fn as_slice(&self) -> &[u8] {
        self.bytes.get(..self.count).unwrap_or(&[])
    }
}

// A number of one of the eight types.
#[derive(Clone, Copy)]
enum Number {
    U8(u8),
    I8(i8),
    U16(u16),
    I16(i16),
    U32(u32),
    I32(i32),
    U64(u64),
    I64(i64),
}

fn number_of(asked: &str) -> Option<Number> {
    let (kind, digits) = asked.split_once(' ')?;
    match kind {
        "u8" => digits.parse().ok().map(Number::U8),
        "i8" => digits.parse().ok().map(Number::I8),
        "u16" => digits.parse().ok().map(Number::U16),
        "i16" => digits.parse().ok().map(Number::I16),
        "u32" => digits.parse().ok().map(Number::U32),
        "i32" => digits.parse().ok().map(Number::I32),
        "u64" => digits.parse().ok().map(Number::U64),
        "i64" => digits.parse().ok().map(Number::I64),
        _ => None,
    }
}

// What a hasher answers after this one write.
fn after_write<H: Hasher>(hasher: &mut H, number: Number) -> u64 {
    match number {
        Number::U8(n) => hasher.write_u8(n),
        Number::I8(n) => hasher.write_i8(n),
        Number::U16(n) => hasher.write_u16(n),
        Number::I16(n) => hasher.write_i16(n),
        Number::U32(n) => hasher.write_u32(n),
        Number::I32(n) => hasher.write_i32(n),
        Number::U64(n) => hasher.write_u64(n),
        Number::I64(n) => hasher.write_i64(n),
    }
    hasher.finish()
}

// The hash of a number by its strategy.
fn hash_of(strategy: &str, number: Number) -> Option<u64> {
    let hash = match (strategy, number) {
        ("natural", Number::U8(n)) => calculate_hash(natural_extend::from_u8(n)),
        ("natural", Number::I8(n)) => calculate_hash(natural_extend::from_i8(n)),
        ("natural", Number::U16(n)) => calculate_hash(natural_extend::from_u16(n)),
        ("natural", Number::I16(n)) => calculate_hash(natural_extend::from_i16(n)),
        ("natural", Number::U32(n)) => calculate_hash(natural_extend::from_u32(n)),
        ("natural", Number::I32(n)) => calculate_hash(natural_extend::from_i32(n)),
        ("sign", Number::U8(n)) => calculate_hash(sign_extend::from_u8(n)),
        ("sign", Number::I8(n)) => calculate_hash(sign_extend::from_i8(n)),
        ("sign", Number::U16(n)) => calculate_hash(sign_extend::from_u16(n)),
        ("sign", Number::I16(n)) => calculate_hash(sign_extend::from_i16(n)),
        ("sign", Number::U32(n)) => calculate_hash(sign_extend::from_u32(n)),
        ("sign", Number::I32(n)) => calculate_hash(sign_extend::from_i32(n)),
        ("plain", Number::U32(n)) => calculate_hash(n),
        ("plain", Number::I32(n)) => calculate_hash(n),
        ("plain", Number::U64(n)) => calculate_hash(n),
        ("plain", Number::I64(n)) => calculate_hash(n),
        _ => return None,
    };
    Some(hash)
}
