//! Runs over readers and writers in memory, and faults of both.

use super::{Full, NarrowWriter, SlowReader};
use crate::arguments::Algorithm;
use crate::ending::RunFault;
use crate::run::{run, run_bounded};
use std::alloc::Global;
use std::io::{self, BufReader, ErrorKind, Read};

const FOX: &[u8] = b"The quick brown fox jumps over the lazy dog";

const FOX_LINE: &str = "e34bbc7bbc071b6c7a433ca9c49a9347\n";

const LINES: [(Algorithm, u64, &[u8], &'static str); 7] = [
    (
        Algorithm::Murmur,
        0,
        b"",
        "00000000000000000000000000000000\n",
    ),
    (Algorithm::Murmur, 0, FOX, FOX_LINE),
    (
        Algorithm::Murmur,
        u64::MAX,
        b"\xb8\xe4\x2a\x56\xf1\xfc\x30\x23",
        "b585fa32ba79bba912904104ac5ac4df\n",
    ),
    (Algorithm::Xx, 0, b"", "ef46db3751d8e999\n"),
    (Algorithm::Xx, 2_654_435_761, b"", "ac75fda2929b17ef\n"),
    (Algorithm::Xx, 0, b"\0", "e934a84adb052768\n"),
    (Algorithm::Xx, 0, &[0; 4097], "52028d196767ee18\n"),
];

fn is_line(written: Vec<u8>, line: &str) -> bool {
    written.as_slice() == line.as_bytes()
}

#[test]
fn an_input_becomes_its_line(rt: HostRuntime) {
    for (algorithm, seed, input, line) in LINES {
        let mut written = Vec::new(rt.alloc());
        let mut reader = input;
        let answer = run(algorithm, seed, &mut reader, &mut written);
        let is_written = is_line(written, line);
        assert_eq!(rt; (answer, reader.len(), is_written), (Ok(()), 0, true));
    }
}

#[test]
fn five_million_bytes_become_their_line(rt: HostRuntime) {
    let mut reader = io::repeat(b'a').take(5_000_000);
    let mut written = Vec::new(rt.alloc());
    let answer = run(Algorithm::Xx, 7, &mut reader, &mut written);
    let is_written = is_line(written, "62f1d069a970795b\n");
    assert_eq!(rt; (answer, is_written), (Ok(()), true));
}

#[test]
fn slow_readers_and_writers_change_nothing(rt: HostRuntime) {
    let mut reader = SlowReader::new(FOX, 7, None);
    let mut writer = NarrowWriter::new(rt.alloc(), FOX_LINE.len(), Full::TakesNone, true);
    let answer = run(Algorithm::Murmur, 0, &mut reader, &mut writer);
    let flushed = writer.flushed;
    let is_written = is_line(writer.taken, FOX_LINE);
    assert_eq!(rt; (answer, is_written), (Ok(()), true));
    assert_eq!(rt; (flushed, reader.reads, reader.room), (33, 8, 4096));
}

const READ_FAULTS: [(Algorithm, usize, ErrorKind, u64); 3] = [
    (Algorithm::Murmur, 38, ErrorKind::Other, 2),
    (Algorithm::Xx, 38, ErrorKind::Interrupted, 2),
    (Algorithm::Xx, 0, ErrorKind::UnexpectedEof, 10),
];

// A reader that fails once is not asked again.
#[test]
fn a_read_that_fails_writes_nothing(rt: HostRuntime) {
    for (algorithm, left, kind, reads) in READ_FAULTS {
        let mut reader = SlowReader::new(FOX, 5, Some((left, kind)));
        let mut written = Vec::new(rt.alloc());
        let answer = run(algorithm, 0, &mut reader, &mut written);
        let result = (answer, reader.reads, is_line(written, ""));
        assert_eq!(rt; result, (Err(RunFault::Read), reads, true));
    }
}

// The answer of a run, and whether it wrote nothing.
fn run_silently<R: Read + Drop>(alloc: Global, mut reader: R) -> (Result<(), RunFault>, bool) {
    let mut written = Vec::new(alloc);
    let answer = run(Algorithm::Xx, 0, &mut reader, &mut written);
    (answer, is_line(written, ""))
}

// Reads through a buffer, as the program does.
#[test]
fn a_buffered_read_that_fails_writes_nothing(rt: HostRuntime) -> io::Result<()> {
    let bytes = [7; 131_072];
    for left in [0, 1, 65_536, 131_072] {
        let slow = SlowReader::new(&bytes, usize::MAX, Some((left, ErrorKind::Interrupted)));
        let reader = BufReader::with_capacity(rt.alloc(), 65_536, slow)?;
        let result = run_silently(rt.alloc(), reader);
        assert_eq!(rt;
            result,
            (Err(RunFault::Read), true),
            "with {left} bytes left"
        );
    }
    Ok(())
}

const TURNS: [(Algorithm, &[u8], usize, u64, Option<&'static str>); 9] = [
    (Algorithm::Murmur, FOX, 4096, 2, Some(FOX_LINE)),
    (Algorithm::Murmur, b"ab", 1, 2, None),
    (Algorithm::Murmur, b"ab", 1, 0, None),
    (Algorithm::Xx, b"ab", 1, 2, None),
    (Algorithm::Xx, b"ab", 1, 3, Some("65f708ca92d04a61\n")),
    (Algorithm::Xx, b"\0", 1, 2, Some("e934a84adb052768\n")),
    (Algorithm::Xx, b"\0", 1, 1, None),
    (Algorithm::Xx, &[0; 4097], 5000, 2, None),
    (
        Algorithm::Xx,
        &[0; 4097],
        5000,
        3,
        Some("52028d196767ee18\n"),
    ),
];

// How a run ends that writes this line, or none.
fn end_of(line: Option<&str>) -> Result<(), RunFault> {
    match line {
        Some(_) => Ok(()),
        None => Err(RunFault::TooLong),
    }
}

#[test]
fn the_last_read_must_find_the_end(rt: HostRuntime) {
    for (algorithm, input, most, turns, line) in TURNS {
        let mut reader = SlowReader::new(input, most, None);
        let mut written = Vec::new(rt.alloc());
        let answer = run_bounded(algorithm, 0, turns, &mut reader, &mut written);
        let is_written = is_line(written, line.unwrap_or(""));
        assert_eq!(rt;
            (answer, reader.reads, is_written),
            (end_of(line), turns, true)
        );
    }
}

const WRITE_FAULTS: [(Algorithm, usize, Full, bool); 7] = [
    (Algorithm::Xx, 0, Full::Fails, true),
    (Algorithm::Xx, 10, Full::Fails, true),
    (Algorithm::Xx, 16, Full::Fails, true),
    (Algorithm::Xx, 100, Full::Fails, false),
    (Algorithm::Xx, 0, Full::TakesNone, true),
    (Algorithm::Murmur, 32, Full::Fails, true),
    (Algorithm::Murmur, 10, Full::TakesNone, true),
];

// A writer that fails once and would then take the rest has failed.
#[test]
fn a_failed_write_is_returned(rt: HostRuntime) {
    for (algorithm, room, when_full, can_flush) in WRITE_FAULTS {
        let mut writer = NarrowWriter::new(rt.alloc(), room, when_full, can_flush);
        let answer = run(algorithm, 0, &mut FOX, &mut writer);
        assert_eq!(rt; answer, Err(RunFault::Write), "with room for {room} bytes");
    }
}
