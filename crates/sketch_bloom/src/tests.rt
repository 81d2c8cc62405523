//! The bytes of other writers, headers, the false positive rate, memory.

mod header;
mod size;
mod writers;

use crate::{BloomFilter, Fault, contains_hash, fold, insert_hash, merge};
use std::process::Abort;
use std::test::Fail;

// What each fault prints.
const TEXTS: [(Fault, &str); 6] = [
    (
        Fault::Length(33),
        "invalid filter length: expected a positive multiple of 32 below 2^37, got 33",
    ),
    (
        Fault::OtherLength(64),
        "filters of two lengths: the other has 64 bytes",
    ),
    (
        Fault::OddBlocks(96),
        "odd number of blocks: expected a multiple of 64 bytes, got 96",
    ),
    (Fault::Offset(3), "invalid offset at index 3"),
    (Fault::Count(2), "more places than values: 2 values"),
    (Fault::OutOfMemory, "out of memory"),
];

#[test]
fn each_fault_prints_its_text(rt: HostRuntime) {
    for (fault, text) in TEXTS {
        let printed = format!(in rt.alloc(); "{fault}");
        assert_eq!(rt; printed.ok().as_deref(), Some(text));
    }
}

#[test]
fn bytes_of_another_length_are_no_filter(rt: HostRuntime) {
    let mut bytes = [7; 65];
    for length in [0, 1, 31, 33, 63, 65] {
        let (filter, fault) = (&mut bytes[..length], Err(Fault::Length(length)));
        assert_eq!(rt; insert_hash(filter, 1), fault);
        assert_eq!(rt; merge(filter, &[255; 32]), fault);
        assert_eq!(rt; fold(filter), fault);
        assert_eq!(rt; contains_hash(filter, 1), Err(Fault::Length(length)));
    }
    assert_eq!(rt; bytes, [7; 65]);
}

#[test]
fn folds_into_the_filter_of_half_the_length(rt: HostRuntime) -> Result<(), Fail> {
    let (mut large, mut small) = (
        BloomFilter::new(rt.alloc(), 6 * 32)?,
        BloomFilter::new(rt.alloc(), 3 * 32)?,
    );
    for value in 0..20u64 {
        large.insert(&value);
        small.insert(&value);
    }
    large.fold()?;
    assert_eq!(rt; large.as_bytes(), small.as_bytes());
    assert_eq!(rt; large.fold(), Err(Fault::OddBlocks(96)));
    assert_eq!(rt; large.as_bytes(), small.as_bytes());
    Ok(())
}

#[test]
fn a_filter_makes_1_request(rt: HostRuntime) {
    match BloomFilter::new(rt.alloc(), 32) {
        Ok(filter) => assert_eq!(rt; filter.as_bytes(), [0; 32].as_slice()),
        Err(fault) => assert_eq!(rt; fault, Fault::OutOfMemory),
    }
}
