//! A slow reader and a slow writer, which may fail.

mod arguments;
mod run;

use std::alloc::Global;
use std::io::{self, ErrorKind, Read, Write};

/// Gives at most `most` bytes at a read. With a fault it fails once, when as many bytes are left as
/// stand beside the fault, and then goes on.
#[derive(Drop)]
pub struct SlowReader<'a> {
    bytes: &'a [u8],
    most: usize,
    fault: Option<(usize, ErrorKind)>,
    /// How many reads were made.
    pub reads: u64,
    /// The length of the last buffer.
    pub room: usize,
}

impl<'a> SlowReader<'a> {
    pub fn new(bytes: &'a [u8], most: usize, fault: Option<(usize, ErrorKind)>) -> SlowReader<'a> {
        SlowReader {
            bytes,
            most,
            fault,
            reads: 0,
            room: 0,
        }
    }
}

impl Read for SlowReader<'_> {
    fn read(&mut self, buf: &mut [u8]) -> io::Result<usize> {
        self.reads = self.reads.saturating_add(1);
        self.room = buf.len();
        let mut count = self.bytes.len().min(self.most).min(buf.len());
        if let Some((left, kind)) = self.fault {
            let before = self.bytes.len().saturating_sub(left);
            if before == 0 {
                self.fault = None;
                return Err(io::Error::from(kind));
            }
            count = count.min(before);
        }
        let (front, rest) = self.bytes.split_at(count);
        buf[..count].copy_from_slice(front);
        self.bytes = rest;
        Ok(count)
    }
}

/// What a writer does that has no room left.
#[derive(Clone, Copy, Debug)]
pub enum Full {
    /// It fails once, and then takes more.
    Fails,
    TakesNone,
}

/// Takes one byte at a write. Its first flush fails if it cannot flush.
#[derive(Drop)]
pub struct NarrowWriter {
    room: usize,
    when_full: Full,
    can_flush: bool,
    /// The bytes that were taken.
    pub taken: Vec<u8>,
    /// How many bytes the last flush handed on.
    pub flushed: usize,
}

impl NarrowWriter {
    pub fn new(alloc: Global, room: usize, when_full: Full, can_flush: bool) -> NarrowWriter {
        NarrowWriter {
            room,
            when_full,
            can_flush,
            taken: Vec::new(alloc),
            flushed: 0,
        }
    }
}

impl Write for NarrowWriter {
    fn write(&mut self, buf: &[u8]) -> io::Result<usize> {
        if self.taken.len() >= self.room {
            match self.when_full {
                Full::Fails => {
                    self.room = usize::MAX;
                    return Err(io::Error::from(ErrorKind::Other));
                }
                Full::TakesNone => return Ok(0),
            }
        }
        let Some(byte) = buf.first() else {
            return Ok(0);
        };
        self.taken.push(*byte)?;
        Ok(1)
    }

    fn flush(&mut self) -> io::Result<()> {
        if !self.can_flush {
            self.can_flush = true;
            return Err(io::Error::from(ErrorKind::Other));
        }
        self.flushed = self.taken.len();
        Ok(())
    }
}
