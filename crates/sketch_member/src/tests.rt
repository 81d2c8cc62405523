//! Tables with known bytes, printed texts, and refused requests for memory.

mod format;
mod table;

use datasketches::error::{Error, ErrorKind};
use std::fmt::Display;
use std::io::{Eprint, Write};
use std::process::Abort;

// A table of 64 bits with one index a value, under seed 0, after the insert of no bytes: in
// version 1, and in version 2.
const ONE_VALUE_1: [u8; 24] = [
    2, 1, 200, 6, 1, 0, 0, 0, 0, 0, 0, 0, 0, 0, 0, 0, 0, 0, 0, 2, 0, 0, 0, 0,
];

const ONE_VALUE_2: [u8; 32] = [
    3, 2, 200, 6, 1, 1, 0, 0, 0, 0, 0, 0, 0, 0, 0, 0, 1, 0, 0, 0, 0, 0, 0, 0, 0, 0, 0, 2, 0, 0, 0,
    0,
];

// The same in version 2, with an unknown count.
const UNKNOWN_COUNT: [u8; 32] = [
    3, 2, 200, 6, 1, 0, 0, 0, 0, 0, 0, 0, 0, 0, 0, 0, 0, 0, 0, 0, 0, 0, 0, 0, 0, 0, 0, 2, 0, 0, 0,
    0,
];

// Whether a value prints exactly this text, of at most 256 bytes. Asks for no memory.
fn prints<D: Display + Drop>(value: D, text: &str) -> bool {
    let mut printed = [0; 256];
    let mut rest = printed.as_mut_slice();
    let is_whole = rest.write_fmt(value).is_ok();
    let count = 256usize.saturating_sub(rest.len());
    is_whole && printed.get(..count) == Some(text.as_bytes())
}

// Asserts that a call fails with an error that prints this line. Returns an error for lack of
// memory.
fn refuse<T: Drop>(rt: &impl Abort, answer: Result<T, Error>, line: &str) -> Result<(), Error> {
    let Some(error) = answer.err() else {
        assert!(rt; false, "accepted, not refused: {line}");
        return Ok(());
    };
    if error.kind() == ErrorKind::OutOfMemory {
        return Err(error);
    }
    assert!(rt; prints(error, line), "{line}");
    Ok(())
}

// Asserts that a trial passed, or that there was no memory, which it prints.
fn assert_done_or_no_memory<R: Abort + Eprint>(rt: &R, tried: Result<(), Error>) {
    if let Err(error) = tried {
        let _ = rt.eprintln("out of memory");
        assert!(rt; error.message().is_empty() && prints(error, "OutOfMemory"));
    }
}
