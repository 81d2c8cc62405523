//! Readers and writers, with memory and without.

use super::{print_out_of_memory, prints};
use crate::codec::Item::{self, U8, U32Be, U64Le};
use crate::codec::{Kind, Short, SketchBytes, SketchSlice, Stopped};
use std::alloc::AllocError;
use std::process::Abort;

#[test]
fn reads_past_the_end_take_no_memory(rt: HostRuntime) {
    let mut reader = SketchSlice::new(&[1, 0, 7]);
    assert!(rt; reader.read_u16_le().ok() == Some(1) && reader.read_u32_be().is_err());
    assert!(rt; reader.remaining().is_empty());
    assert!(rt; reader.read_exact(&mut []).is_ok() && reader.read_u8().is_err());
}

#[test]
fn lists_that_end_early_print_how_many_items_they_had(rt: HostRuntime) {
    assert!(rt; prints(Short { read: 2 }, "insufficient data after 2 items"));
    assert!(rt; prints(Stopped { accepted: 3 }, "out of memory after 3 items"));
}

#[test]
fn a_failed_read_leaves_the_buffer_unchanged(rt: HostRuntime) {
    let mut buf = [0xaa, 0xbb, 0xcc, 0xdd];
    let mut reader = SketchSlice::new(&[1, 2, 3]);
    assert!(rt; reader.read_exact(&mut buf).is_err() && reader.remaining().is_empty());
    assert_eq!(rt; buf, [0xaa, 0xbb, 0xcc, 0xdd]);
}

#[test]
fn advance_stops_at_the_end(rt: HostRuntime) {
    let mut reader = SketchSlice::new(&[1, 2, 3]);
    reader.advance(1);
    assert_eq!(rt; reader.remaining(), [2, 3].as_slice());
    for n in [u64::MAX - 1, u64::MAX, 0] {
        reader.advance(n);
        assert!(rt; reader.remaining().is_empty(), "after {n}");
    }
    assert!(rt; reader.read_exact(&mut []).is_ok() && reader.read_u8().is_err());
    // With a first step of 2, a sum that wraps leaves two bytes.
    for first in [2, u64::MAX] {
        let mut reader = SketchSlice::new(&[1, 2, 3]);
        reader.advance(first);
        reader.advance(u64::MAX);
        assert!(rt; reader.remaining().is_empty());
    }
}

#[test]
fn a_list_cut_short_takes_no_memory(rt: HostRuntime) {
    let mut places = [Item::U8(0); 3];
    let mut reader = SketchSlice::new(&[9, 1]);
    let answer = reader.read_items(&[Kind::U8, Kind::U16Le, Kind::U8], &mut places);
    assert_eq!(rt; answer, Err(Short { read: 1 }));
    assert_eq!(rt; places, [Item::U8(9), Item::U8(0), Item::U8(0)]);
    assert!(rt; reader.remaining().is_empty());
}

#[test]
fn an_empty_list_is_read_from_anything(rt: HostRuntime) {
    let mut reader = SketchSlice::new(&[1]);
    assert!(rt; reader.read_items(&[], &mut []).is_ok());
    assert_eq!(rt; reader.remaining(), [1].as_slice());
}

#[test]
fn writes_within_room(rt: HostRuntime) -> Result<(), AllocError> {
    assert!(rt; SketchBytes::with_capacity(rt.alloc(), usize::MAX).is_err());
    let mut writer = SketchBytes::with_capacity(rt.alloc(), 5)?;
    writer.write_u16_le(0x0102)?;
    writer.write_u16_be(0x0102)?;
    writer.write_i8(-1)?;
    assert_eq!(rt;
        writer.into_bytes().as_slice(),
        [2, 1, 1, 2, 0xff].as_slice()
    );
    Ok(())
}

#[test]
fn a_hundred_thousand_numbers_are_written(rt: HostRuntime) -> Result<(), AllocError> {
    let mut writer = SketchBytes::with_capacity(rt.alloc(), 0)?;
    for i in 0..100_000 {
        writer.write_u64_le(i)?;
    }
    let bytes = writer.into_bytes();
    let is_last = bytes.ends_with(&[0x9f, 0x86, 1, 0, 0, 0, 0, 0]);
    assert_eq!(rt; (bytes.len(), is_last), (800_000, true));
    Ok(())
}

// Items of one, four and eight bytes, and their bytes.
const LIST: [Item; 5] = [U8(1), U32Be(2), U64Le(3), U8(4), U8(5)];

const BYTES: &[u8] = &[1, 0, 0, 0, 2, 3, 0, 0, 0, 0, 0, 0, 0, 4, 5];

#[test]
fn lists_are_written_into_memory_that_grows(rt: HostRuntime) -> Result<(), AllocError> {
    for capacity in [0, 5] {
        let mut writer = SketchBytes::with_capacity(rt.alloc(), capacity)?;
        assert_eq!(rt; writer.write_items(&LIST), Ok(()));
        assert_eq!(rt; writer.into_bytes().as_slice(), BYTES);
    }
    let mut writer = SketchBytes::with_capacity(rt.alloc(), 0)?;
    assert_eq!(rt; writer.write_items(&[]), Ok(()));
    assert!(rt; writer.into_bytes().is_empty());
    Ok(())
}

// What was written, and two bytes after it.
#[test]
fn lists_are_read_back_and_take_no_memory(rt: HostRuntime) {
    let mut reader = SketchSlice::new(b"\x01\0\0\0\x02\x03\0\0\0\0\0\0\0\x04\x05\xaa\xbb");
    let mut places = [U8(0); 5];
    let kinds = [Kind::U8, Kind::U32Be, Kind::U64Le, Kind::U8, Kind::U8];
    let answer = reader.read_items(&kinds, &mut places);
    assert_eq!(rt; (answer, places), (Ok(()), LIST));
    assert_eq!(rt; reader.remaining(), [0xaa, 0xbb].as_slice());
}

// What each of three writes adds.
const PIECES: [&[u8]; 3] = [&[1, 0], &[2, 3, 4], &[0, 0, 0, 0, 0, 0, 0, 5]];

// Writes the three, and checks that the writer has exactly those that were accepted. Returns
// whether all were.
fn write_pieces(rt: &impl Abort, mut writer: SketchBytes) -> bool {
    let accepted = [
        writer.write_u16_le(1).is_ok(),
        writer.write(&[2, 3, 4]).is_ok(),
        writer.write_u64_be(5).is_ok(),
    ];
    let bytes = writer.into_bytes();
    let mut rest = Some(bytes.as_slice());
    for i in 0..3 {
        if accepted[i] {
            rest = rest.and_then(|rest| rest.strip_prefix(PIECES[i]));
        }
    }
    assert_eq!(rt; rest, Some([].as_slice()));
    accepted == [true; 3]
}

#[test]
fn writes_are_accepted_within_room_and_past_it(rt: HostRuntime) -> Result<(), AllocError> {
    for capacity in [0, 13] {
        let writer = SketchBytes::with_capacity(rt.alloc(), capacity)?;
        assert!(rt; write_pieces(&rt, writer), "with a capacity of {capacity}");
    }
    Ok(())
}

#[test]
fn writes_are_whole_or_nothing_without_memory(rt: HostRuntime) {
    let writer = SketchBytes::with_capacity(rt.alloc(), 0);
    if !writer.is_ok_and(|writer| write_pieces(&rt, writer)) {
        print_out_of_memory(&rt);
    }
}

#[test]
fn writes_within_room_without_memory(rt: HostRuntime) {
    match SketchBytes::with_capacity(rt.alloc(), 13) {
        Ok(writer) => assert!(rt; write_pieces(&rt, writer)),
        Err(AllocError) => print_out_of_memory(&rt),
    }
}

#[test]
fn lists_return_what_was_written_without_memory(rt: HostRuntime) {
    let Ok(mut writer) = SketchBytes::with_capacity(rt.alloc(), 0) else {
        return print_out_of_memory(&rt);
    };
    let stopped = writer.write_items(&LIST).err();
    if stopped.is_some() {
        print_out_of_memory(&rt);
    }
    let accepted = stopped.map_or(5, |stopped| stopped.accepted);
    let count = [0, 1, 5, 13, 14, 15].get(accepted).copied();
    let written = count.and_then(|count| BYTES.get(..count));
    assert_eq!(rt; Some(writer.into_bytes().as_slice()), written);
}

// The first two items fill the capacity of five bytes, which was the first request for memory. The
// third item makes the second request.
#[test]
fn a_list_stops_where_the_second_request_is_refused(rt: HostRuntime) {
    let Ok(mut writer) = SketchBytes::with_capacity(rt.alloc(), 5) else {
        return print_out_of_memory(&rt);
    };
    let answer = writer.write_items(&LIST);
    let bytes = writer.into_bytes();
    if answer == Ok(()) {
        return assert_eq!(rt; bytes.as_slice(), BYTES);
    }
    print_out_of_memory(&rt);
    assert_eq!(rt; answer, Err(Stopped { accepted: 2 }));
    assert_eq!(rt; bytes.as_slice(), [1, 0, 0, 0, 2].as_slice());
    let mut places = [U8(0); 2];
    let read = SketchSlice::new(&bytes).read_items(&[Kind::U8, Kind::U32Be], &mut places);
    assert_eq!(rt; (read, places), (Ok(()), [U8(1), U32Be(2)]));
}
