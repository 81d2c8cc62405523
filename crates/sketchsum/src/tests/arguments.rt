//! Arguments of the command line.

use crate::arguments::{Algorithm, parse};
use crate::ending::{Outcome, RunFault, ending};
use std::alloc::{AllocError, Global};

const WORDS: [(&[&'static str], Option<(Algorithm, u64)>); 13] = [
    (&["murmur", "0"], Some((Algorithm::Murmur, 0))),
    (&["xx", "0"], Some((Algorithm::Xx, 0))),
    (
        &["murmur", "00000000000000000042"],
        Some((Algorithm::Murmur, 42)),
    ),
    (
        &["murmur", "18446744073709551615"],
        Some((Algorithm::Murmur, u64::MAX)),
    ),
    (&["murmur", "18446744073709551616"], None),
    (&["murmur", "000000000000000000042"], None),
    (&["murmur", "+1"], None),
    (&["murmur", "1 "], None),
    (&["murmur", ""], None),
    (&["Murmur", "1"], None),
    (&["murmur"], None),
    (&["murmur", "1", "2"], None),
    (&[], None),
];

fn parse_texts(alloc: Global, words: &[&str]) -> Result<Option<(Algorithm, u64)>, AllocError> {
    let mut owned = Vec::new(alloc);
    for word in words {
        owned.push(String::from_str(alloc, word)?)?;
    }
    Ok(parse(&owned))
}

#[test]
fn two_arguments_are_accepted(rt: HostRuntime) -> Result<(), AllocError> {
    for (words, asked) in &WORDS {
        assert_eq!(rt; parse_texts(rt.alloc(), words)?, *asked, "for {words:?}");
    }
    Ok(())
}

const ENDINGS: [(Outcome, u8, &'static str); 6] = [
    (Outcome::Done, 0, ""),
    (Outcome::Fault(RunFault::Read), 1, "read fault"),
    (Outcome::Fault(RunFault::TooLong), 1, "input too long"),
    (Outcome::Fault(RunFault::Write), 1, "write fault"),
    (Outcome::NoMemory, 1, "out of memory"),
    (Outcome::Usage, 2, "usage: sketchsum murmur|xx SEED"),
];

#[test]
fn each_outcome_has_its_status_and_line(rt: HostRuntime) {
    for (outcome, status, line) in ENDINGS {
        assert_eq!(rt; ending(outcome), (status, line));
    }
}
