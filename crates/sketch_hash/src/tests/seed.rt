//! Seed hashes, and their errors.

use super::print_out_of_memory;
use crate::hash::{check_seed_hash, compute_seed_hash};
use sketch_base::error::{Error, ErrorKind};
use std::alloc::Global;
use std::io::Write;
use std::process::Abort;

#[test]
fn accepted_seeds_take_no_memory(rt: HostRuntime) {
    let hash = compute_seed_hash(rt.alloc(), 9001, ErrorKind::InvalidArgument);
    assert_eq!(rt; hash.ok(), Some(37836));
    let answer = check_seed_hash(rt.alloc(), 37836, 37836, "theta", ErrorKind::InvalidData);
    assert!(rt; answer.is_ok());
}

// Whether an error displays this line, of at most 128 bytes. Asks for no memory.
fn displays(error: &Error, line: &str) -> bool {
    let mut printed = [0; 128];
    let mut rest = printed.as_mut_slice();
    let is_whole = rest.write_fmt(error).is_ok();
    let count = 128usize.saturating_sub(rest.len());
    is_whole && printed.get(..count) == Some(line.as_bytes())
}

// Asserts that a call fails with this line or, if there was no memory for its text, with
// `OutOfMemory`. Returns whether there was memory.
fn refuses<T: Drop>(rt: &impl Abort, answer: Result<T, Error>, line: &str) -> bool {
    let Some(error) = answer.err() else {
        assert!(rt; false, "accepted, not {line}");
        return false;
    };
    let is_built = error.kind() != ErrorKind::OutOfMemory;
    let line = if is_built { line } else { "OutOfMemory" };
    assert!(rt; displays(&error, line), "not {line}");
    is_built
}

// Whether there was memory for both texts. The second is asked for even if the first was refused.
fn try_refusals(rt: &impl Abort, alloc: Global) -> bool {
    let answer = compute_seed_hash(alloc, 50541, ErrorKind::InvalidArgument);
    let line =
        "InvalidArgument => seed 50541 produces a seed hash of zero; choose a different seed";
    let is_built = refuses(rt, answer, line);
    let answer = check_seed_hash(alloc, 37836, 1, "theta", ErrorKind::InvalidData);
    let line = "InvalidData => incompatible seed hash of theta: expected 37836, got 1";
    refuses(rt, answer, line) && is_built
}

#[test]
fn seeds_are_refused_with_their_lines(rt: HostRuntime) {
    assert!(rt; try_refusals(&rt, rt.alloc()));
}

#[test]
fn seeds_are_refused_without_memory(rt: HostRuntime) {
    if !try_refusals(&rt, rt.alloc()) {
        print_out_of_memory(&rt);
    }
}
