//! Tests of what no clause says: worked rows, printed texts, and refused requests for memory.

mod checks;
mod codec;
mod error;
mod items;

use crate::error::{Error, ErrorKind};
use std::fmt::Display;
use std::io::{Eprint, Write};
use std::process::Abort;

/// Whether a value prints exactly this text, of at most 256 bytes. Asks for no memory.
fn prints<D: Display + Drop>(value: D, text: &str) -> bool {
    let mut printed = [0; 256];
    let mut rest = printed.as_mut_slice();
    let is_whole = rest.write_fmt(value).is_ok();
    let count = 256usize.saturating_sub(rest.len());
    is_whole && printed.get(..count) == Some(text.as_bytes())
}

/// Asserts that an error displays this line.
fn assert_line(rt: &impl Abort, error: Error, line: &str) {
    assert!(rt; prints(&error, line), "not {line}");
}

/// Asserts that an error displays this line or, if there was no memory for its text, that it
/// displays `OutOfMemory`. Returns whether there was memory.
fn has_line(rt: &impl Abort, error: Error, line: &str) -> bool {
    let is_built = error.kind() != ErrorKind::OutOfMemory;
    assert_line(rt, error, if is_built { line } else { "OutOfMemory" });
    is_built
}

/// Prints the line by which the tests of failures know of a refused request for memory.
fn print_out_of_memory(rt: &impl Eprint) {
    let _ = rt.eprintln("out of memory");
}
