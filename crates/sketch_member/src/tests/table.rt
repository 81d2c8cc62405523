//! Tables with known bits, in both versions.

use super::{ONE_VALUE_1, ONE_VALUE_2, UNKNOWN_COUNT, assert_done_or_no_memory, refuse};
use crate::MemberTable;
use datasketches::error::Error;
use datasketches::hash::value::raw_bytes;
use std::alloc::Global;
use std::process::Abort;
use std::test::Fail;

// A seed, the two sizes, the values inserted, and the bits that are set then, as a model of the
// format in another language gives them.
type Row = (u64, u8, u8, &'static [&'static [u8]], &'static [u8]);

const TABLES: [Row; 5] = [
    (0, 6, 1, &[], &[0, 0, 0, 0, 0, 0, 0, 0]),
    (0, 6, 1, &[b""], &[0, 0, 0, 2, 0, 0, 0, 0]),
    (u64::MAX, 6, 2, &[b""], &[1, 0, 0, 2, 0, 0, 0, 0]),
    (9001, 6, 16, &[b"a", b"b"], b"St!ASYQ\x02"),
    (
        u64::MAX - 2,
        8,
        8,
        &[b"abc", b""],
        b"\x08\x01\x00\x01\x00\x00\x00\x00\x00\x48\x04\x00\x20\x80\x40\x00\
            \x01\x00\x00\x02\x00\x10\x00\x00\x00\x00\x00\x08\x00\x00\x80\x00",
    ),
];

// Asserts that a table does not contain a value, and then inserts it.
fn insert_new(rt: &impl Abort, table: &mut MemberTable, value: &[u8]) {
    let value = raw_bytes::from_slice(value);
    assert!(rt; !table.contains(&value));
    table.insert(&value);
    assert!(rt; table.contains(&value));
}

// Asserts that a table is written in these bytes.
fn try_bytes(rt: &impl Abort, alloc: Global, it: &MemberTable, bytes: &[u8]) -> Result<(), Error> {
    let written = it.to_bytes(alloc)?;
    assert_eq!(rt; written.as_slice(), bytes);
    Ok(())
}

// Inserts each value into one table.
fn try_row(rt: &impl Abort, alloc: Global, row: &Row) -> Result<(), Error> {
    let (seed, log2_bits, hashes, values, bits) = *row;
    let mut table = MemberTable::new(alloc, seed, log2_bits, hashes)?;
    for value in values {
        insert_new(rt, &mut table, value);
    }
    let bytes = table.to_bytes(alloc)?;
    assert_eq!(rt; bytes.get(24..), Some(bits), "under {seed}");
    Ok(())
}

fn try_tables(rt: &impl Abort, alloc: Global) -> Result<(), Error> {
    for row in &TABLES {
        try_row(rt, alloc, row)?;
    }
    Ok(())
}

// Sizes that no table has, and the line that the error prints.
const SIZES: [(u8, u8, &'static str); 2] = [
    (
        5,
        0,
        "InvalidArgument => invalid log2 bits: expected 6 to 20, got 5",
    ),
    (
        20,
        17,
        "InvalidArgument => invalid hashes: expected 1 to 16, got 17",
    ),
];

fn try_refusals(rt: &impl Abort, alloc: Global) -> Result<(), Error> {
    for (log2_bits, hashes, line) in SIZES {
        let answer = MemberTable::new(alloc, 0, log2_bits, hashes);
        refuse(rt, answer, line)?;
    }
    Ok(())
}

// The indexes of the one byte `a` in the widest table, under seed 9001, as xxHash gives them.
const WIDEST: [usize; 16] = [
    296528, 80080, 532214, 496526, 235472, 578598, 983275, 771876, 536844, 74350, 909665, 182430,
    323236, 56747, 761268, 561636,
];

fn try_widest(rt: &impl Abort, alloc: Global) -> Result<(), Error> {
    let mut table = MemberTable::new(alloc, 9001, 20, 16)?;
    insert_new(rt, &mut table, b"a");
    let mut bytes = table.to_bytes(alloc)?;
    assert!(rt; MemberTable::from_bytes(alloc, &bytes)?.contains(&raw_bytes::from_str("a")));
    for index in WIDEST {
        if let Some(byte) = bytes.get_mut(24 + index / 8) {
            *byte ^= 1 << (index % 8);
        }
    }
    assert!(rt; bytes.iter().skip(24).all(|byte| *byte == 0));
    Ok(())
}

const GREATEST_COUNT: [u8; 32] = [
    3, 2, 200, 6, 1, 1, 0, 0, 0, 0, 0, 0, 0, 0, 0, 0, 255, 255, 255, 255, 255, 255, 255, 255, 0, 0,
    0, 2, 0, 0, 0, 0,
];

const MOST: Option<u64> = Some(u64::MAX);

// Bytes, the count of the table that is read from them, before and after one insert of the value
// that it contains, and the bytes in which it is written before.
const READ: [(&[u8], Option<u64>, Option<u64>, &[u8]); 4] = [
    (&ONE_VALUE_1, None, None, &UNKNOWN_COUNT),
    (&UNKNOWN_COUNT, None, None, &UNKNOWN_COUNT),
    (&ONE_VALUE_2, Some(1), Some(2), &ONE_VALUE_2),
    (&GREATEST_COUNT, MOST, MOST, &GREATEST_COUNT),
];

fn try_read(rt: &impl Abort, alloc: Global) -> Result<(), Error> {
    let value = raw_bytes::from_str("");
    for (bytes, count, next_count, written) in READ {
        let mut table = MemberTable::from_bytes(alloc, bytes)?;
        let state = (table.contains(&value), table.contains(&7u8), table.count());
        assert_eq!(rt; state, (true, false, count));
        try_bytes(rt, alloc, &table, written)?;
        table.insert(&value);
        assert_eq!(rt; table.count(), next_count);
    }
    Ok(())
}

fn try_one_value(rt: &impl Abort, alloc: Global) -> Result<(), Error> {
    let mut table = MemberTable::new(alloc, 0, 6, 1)?;
    assert_eq!(rt; table.count(), Some(0));
    insert_new(rt, &mut table, b"");
    try_bytes(rt, alloc, &table, &ONE_VALUE_2)
}

#[test]
fn tables_are_written_and_read(rt: HostRuntime) -> Result<(), Fail> {
    try_one_value(&rt, rt.alloc())?;
    try_tables(&rt, rt.alloc())?;
    try_widest(&rt, rt.alloc())?;
    Ok(try_read(&rt, rt.alloc())?)
}

#[test]
fn wrong_sizes_are_invalid_arguments(rt: HostRuntime) -> Result<(), Fail> {
    Ok(try_refusals(&rt, rt.alloc())?)
}

#[test]
fn tables_without_memory(rt: HostRuntime) {
    assert_done_or_no_memory(&rt, try_one_value(&rt, rt.alloc()));
    assert_done_or_no_memory(&rt, try_tables(&rt, rt.alloc()));
    assert_done_or_no_memory(&rt, try_refusals(&rt, rt.alloc()));
    assert_done_or_no_memory(&rt, try_widest(&rt, rt.alloc()));
    assert_done_or_no_memory(&rt, try_read(&rt, rt.alloc()));
}

// Of every size: one request for the bits, none for inserts and look-ups.
#[test]
fn tables_of_every_size_make_240_requests(rt: HostRuntime) -> Result<(), Fail> {
    for size in 0..240u8 {
        let mut table = MemberTable::new(rt.alloc(), u64::MAX, 6 + size / 16, 1 + size % 16)?;
        insert_new(&rt, &mut table, b"a");
    }
    Ok(())
}
