//! Bytes that are not a table, and the text of each error.

use super::{ONE_VALUE_1, ONE_VALUE_2, assert_done_or_no_memory, prints, refuse};
use crate::{Fault, MemberTable};
use datasketches::error::Error;
use std::alloc::Global;
use std::process::Abort;
use std::test::Fail;

// A place in the bytes of a table, another byte there, and the line that the error prints.
type Change = (usize, u8, &'static str);

const CHANGES_1: [Change; 6] = [
    (
        0,
        4,
        "InvalidData => invalid preamble longs: expected one of [2, 3], got 4",
    ),
    (
        0,
        3,
        "InvalidData => unsupported serial version: expected 2, got 1",
    ),
    (
        1,
        2,
        "InvalidData => unsupported serial version: expected 1, got 2",
    ),
    (
        2,
        21,
        "InvalidData => invalid family: expected 200 (MEMBER), got 21",
    ),
    (
        3,
        5,
        "InvalidData => invalid log2 bits: expected 6 to 20, got 5",
    ),
    (6, 1, "InvalidData => reserved bytes are not zero"),
];

const CHANGES_2: [Change; 4] = [
    (
        4,
        17,
        "InvalidData => invalid hashes: expected 1 to 16, got 17",
    ),
    (5, 2, "InvalidData => reserved bytes are not zero"),
    (7, 1, "InvalidData => reserved bytes are not zero"),
    (5, 0, "InvalidData => unknown count is not zero"),
];

// Asserts that bytes are refused.
fn refuse_bytes(rt: &impl Abort, alloc: Global, bytes: &[u8], line: &str) -> Result<(), Error> {
    refuse(rt, MemberTable::from_bytes(alloc, bytes), line)
}

fn try_changes(rt: &impl Abort, alloc: Global) -> Result<(), Error> {
    for (place, byte, line) in CHANGES_1 {
        let mut bytes = ONE_VALUE_1;
        bytes[place.min(7)] = byte;
        refuse_bytes(rt, alloc, &bytes, line)?;
    }
    for (place, byte, line) in CHANGES_2 {
        let mut bytes = ONE_VALUE_2;
        bytes[place.min(7)] = byte;
        refuse_bytes(rt, alloc, &bytes, line)?;
    }
    Ok(())
}

// Each prefix of the bytes of a table with eight bytes of bits.
fn try_prefixes(rt: &impl Abort, alloc: Global, bytes: &[u8], header: usize) -> Result<(), Error> {
    for count in 0..bytes.len() {
        let prefix = &bytes[..count];
        if count < header {
            let line = "InvalidData => insufficient data (member table): unexpected end of file";
            refuse_bytes(rt, alloc, prefix, line)?;
        } else {
            let have = count - header;
            let line = format!(in alloc;
                "InvalidData => insufficient data (member bits): expected 8, got {have}"
            )?;
            refuse_bytes(rt, alloc, prefix, &line)?;
        }
    }
    Ok(())
}

fn try_longer(rt: &impl Abort, alloc: Global) -> Result<(), Error> {
    let mut longer = [0; 34];
    longer[..24].copy_from_slice(&ONE_VALUE_1);
    refuse_bytes(rt, alloc, &longer[..25], "InvalidData => trailing bytes: 1")?;
    longer[..32].copy_from_slice(&ONE_VALUE_2);
    refuse_bytes(rt, alloc, &longer, "InvalidData => trailing bytes: 2")
}

#[test]
fn the_first_fault_is_returned(rt: HostRuntime) -> Result<(), Fail> {
    try_changes(&rt, rt.alloc())?;
    try_prefixes(&rt, rt.alloc(), &ONE_VALUE_1, 16)?;
    try_prefixes(&rt, rt.alloc(), &ONE_VALUE_2, 24)?;
    Ok(try_longer(&rt, rt.alloc())?)
}

#[test]
fn the_first_fault_is_returned_without_memory(rt: HostRuntime) {
    assert_done_or_no_memory(&rt, try_changes(&rt, rt.alloc()));
    assert_done_or_no_memory(&rt, try_prefixes(&rt, rt.alloc(), &ONE_VALUE_1, 16));
    assert_done_or_no_memory(&rt, try_prefixes(&rt, rt.alloc(), &ONE_VALUE_2, 24));
    assert_done_or_no_memory(&rt, try_longer(&rt, rt.alloc()));
}

// Whether a standard error prints this text, with a width too.
fn displays<E: std::error::Error + Copy>(fault: E, text: &str) -> bool {
    prints(fault, text) && prints(format_args!("{fault:80}"), text)
}

#[test]
fn a_fault_prints_what_is_wrong_with_no_memory(rt: HostRuntime) {
    assert!(rt;
        displays(
            Fault::TrailingBytes(1 << 40),
            "trailing bytes: 1099511627776"
        )
    );
    assert!(rt; displays(Fault::Reserved, "reserved bytes are not zero"));
    let (expected, actual) = (2, 1);
    let fault = Fault::SerialVersion { expected, actual };
    let shown = "SerialVersion { expected: 2, actual: 1 }";
    assert!(rt; prints(format_args!("{fault:?}"), shown));
}
