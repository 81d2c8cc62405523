//! Checks of preambles: their errors, and that accepting takes no memory.

use super::{assert_line, has_line, print_out_of_memory};
use crate::codec::SketchSlice;
use crate::codec::assert::*;
use crate::codec::family::Family;
use crate::error::Error;
use std::alloc::{AllocError, Global};
use std::ops::Bound::{self, Excluded, Included, Unbounded};
use std::process::Abort;

// Asserts that a check fails with this line. Returns whether there was memory for it.
fn refuses(rt: &impl Abort, answer: Result<(), Error>, line: &str) -> bool {
    match answer {
        Ok(()) => {
            assert_eq!(rt; "accepted", line);
            false
        }
        Err(error) => has_line(rt, error, line),
    }
}

// The two ends of a range, a number that is not in it, and how the error describes both.
const RANGES: [(Bound<u8>, Bound<u8>, u8, &'static str); 9] = [
    (Included(5), Included(3), 4, "[5, 3], got 4"),
    (Included(1), Excluded(3), 3, "[1, 3), got 3"),
    (Excluded(1), Included(3), 1, "(1, 3], got 1"),
    (Excluded(1), Excluded(2), 1, "(1, 2), got 1"),
    (Excluded(5), Excluded(5), 5, "(5, 5), got 5"),
    (Unbounded, Included(3), 4, "at most 3, got 4"),
    (Unbounded, Excluded(3), 3, "less than 3, got 3"),
    (Included(3), Unbounded, 2, "at least 3, got 2"),
    (Excluded(5), Unbounded, 5, "greater than 5, got 5"),
];

#[test]
fn ranges_fail_with_their_lines(rt: HostRuntime) -> Result<(), AllocError> {
    let alloc = rt.alloc();
    for (start, end, actual, range) in &RANGES {
        let answer = ensure_preamble_longs_in_range(alloc, *start, *end, *actual);
        let line = format!(in alloc; "InvalidData => invalid preamble longs: expected {range}")?;
        assert!(rt; refuses(&rt, answer, &line), "{range}");
    }
    Ok(())
}

// Whether there was memory for the text of each check. After a refused request the next check is
// asked all the same.
fn try_checks(rt: &impl Abort, alloc: Global) -> bool {
    let family = Family::HLL.validate_id(alloc, 8);
    let version = ensure_serial_version_is(alloc, 3, 2);
    let range = ensure_preamble_longs_in_range(alloc, Included(5), Included(3), 4);
    let list = ensure_preamble_longs_in(alloc, &[], 1);
    let line = "InvalidData => invalid preamble longs: expected [5, 3], got 4";
    let has_range = refuses(rt, range, line);
    let line = "InvalidData => invalid preamble longs: expected one of [], got 1";
    let has_list = refuses(rt, list, line);
    let line = "InvalidData => unsupported serial version: expected 3, got 2";
    let has_version = refuses(rt, version, line);
    let line = "InvalidData => invalid family: expected 7 (HLL), got 8";
    refuses(rt, family, line) && has_version && has_range && has_list
}

#[test]
fn checks_fail_with_their_lines(rt: HostRuntime) {
    assert!(rt; try_checks(&rt, rt.alloc()));
}

#[test]
fn checks_fail_without_memory(rt: HostRuntime) {
    if !try_checks(&rt, rt.alloc()) {
        print_out_of_memory(&rt);
    }
}

#[test]
fn an_empty_range_refuses_every_number(rt: HostRuntime) {
    for x in 0..=255 {
        let answer = ensure_preamble_longs_in_range(rt.alloc(), Excluded(5), Excluded(5), x);
        assert!(rt; answer.is_err(), "{x}");
    }
}

#[test]
fn accepting_checks_take_no_memory(rt: HostRuntime) {
    let alloc = rt.alloc();
    assert!(rt; Family::HLL.validate_id(alloc, 7).is_ok());
    assert!(rt; ensure_serial_version_is(alloc, 3, 3).is_ok());
    assert!(rt; ensure_preamble_longs_in(alloc, &[1, 2], 2).is_ok());
    assert!(rt; ensure_preamble_longs_in_range(alloc, Unbounded, Unbounded, 255).is_ok());
}

#[test]
fn insufficient_data_names_the_part_and_the_error(rt: HostRuntime) {
    let Some(refused) = SketchSlice::new(&[]).read_u8().err() else {
        return assert!(rt; false, "a read of nothing succeeds");
    };
    let error = insufficient_data(rt.alloc(), "preamble", refused);
    let line = "InvalidData => insufficient data (preamble): unexpected end of file";
    assert_line(&rt, error, line);
}
