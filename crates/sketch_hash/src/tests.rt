//! Tests of what no clause says: worked rows, printed texts, and refused requests for memory.
//! Streams in every split, and answers of other libraries, are in `sketch_vectors`.

mod columns;
mod hashers;
mod seed;
mod value;

use std::io::Eprint;

/// The sentence of the tests, and its hashes with seed 0.
const FOX: &[u8] = b"The quick brown fox jumps over the lazy dog";

const FOX_MURMUR: (u64, u64) = (0xe34b_bc7b_bc07_1b6c, 0x7a43_3ca9_c49a_9347);

const FOX_XXH64: u64 = 0x0b24_2d36_1fda_71bc;

/// The sentence in four writes.
const FOX_PIECES: [&[u8]; 4] = [
    b"T",
    b"he quick brown ",
    b"fox jumps over t",
    b"he lazy dog",
];

/// The first bytes of the buffer of xxHash's own tests.
fn test_buffer() -> [u8; 100] {
    let mut bytes = [0; 100];
    let mut state: u64 = 0x9E37_79B1;
    for byte in &mut bytes {
        *byte = (state >> 56) as u8;
        state = state.wrapping_mul(0x9E37_79B1_85EB_CA8D);
    }
    bytes
}

/// Prints the line by which the tests of failures know of a refused request for memory.
fn print_out_of_memory(rt: &impl Eprint) {
    let _ = rt.eprintln("out of memory");
}
