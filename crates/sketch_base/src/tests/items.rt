//! Each form of a number: how it is written, read, and cut short.

use crate::codec::{Item, Kind, SketchBytes, SketchSlice};
use std::alloc::AllocError;
use std::io;

// Each form, and the bytes of one number in it.
const FORMS: [(Item, &[u8]); 14] = [
    (Item::U8(255), b"\xff"),
    (Item::I8(-128), b"\x80"),
    (Item::U16Le(258), b"\x02\x01"),
    (Item::U16Be(258), b"\x01\x02"),
    (Item::I16Le(-257), b"\xff\xfe"),
    (Item::I16Be(-2), b"\xff\xfe"),
    (Item::U32Le(67305985), b"\x01\x02\x03\x04"),
    (Item::U32Be(16909060), b"\x01\x02\x03\x04"),
    (Item::I32Le(-2147483648), b"\x00\x00\x00\x80"),
    (Item::I32Be(-2), b"\xff\xff\xff\xfe"),
    (Item::U64Le(258), b"\x02\x01\0\0\0\0\0\0"),
    (Item::U64Be(258), b"\0\0\0\0\0\0\x01\x02"),
    (Item::I64Le(i64::MIN), b"\0\0\0\0\0\0\0\x80"),
    (Item::I64Be(-2), b"\xff\xff\xff\xff\xff\xff\xff\xfe"),
];

// Reads an item by the call that is named for its kind.
fn read_by_name(reader: &mut SketchSlice, kind: Kind) -> io::Result<Item> {
    Ok(match kind {
        Kind::U8 => Item::U8(reader.read_u8()?),
        Kind::I8 => Item::I8(reader.read_i8()?),
        Kind::U16Le => Item::U16Le(reader.read_u16_le()?),
        Kind::U16Be => Item::U16Be(reader.read_u16_be()?),
        Kind::I16Le => Item::I16Le(reader.read_i16_le()?),
        Kind::I16Be => Item::I16Be(reader.read_i16_be()?),
        Kind::U32Le => Item::U32Le(reader.read_u32_le()?),
        Kind::U32Be => Item::U32Be(reader.read_u32_be()?),
        Kind::I32Le => Item::I32Le(reader.read_i32_le()?),
        Kind::I32Be => Item::I32Be(reader.read_i32_be()?),
        Kind::U64Le => Item::U64Le(reader.read_u64_le()?),
        Kind::U64Be => Item::U64Be(reader.read_u64_be()?),
        Kind::I64Le => Item::I64Le(reader.read_i64_le()?),
        Kind::I64Be => Item::I64Be(reader.read_i64_be()?),
    })
}

// Writes an item by the call that is named for its kind.
fn write_by_name(writer: &mut SketchBytes, item: Item) -> Result<(), AllocError> {
    match item {
        Item::U8(n) => writer.write_u8(n),
        Item::I8(n) => writer.write_i8(n),
        Item::U16Le(n) => writer.write_u16_le(n),
        Item::U16Be(n) => writer.write_u16_be(n),
        Item::I16Le(n) => writer.write_i16_le(n),
        Item::I16Be(n) => writer.write_i16_be(n),
        Item::U32Le(n) => writer.write_u32_le(n),
        Item::U32Be(n) => writer.write_u32_be(n),
        Item::I32Le(n) => writer.write_i32_le(n),
        Item::I32Be(n) => writer.write_i32_be(n),
        Item::U64Le(n) => writer.write_u64_le(n),
        Item::U64Be(n) => writer.write_u64_be(n),
        Item::I64Le(n) => writer.write_i64_le(n),
        Item::I64Be(n) => writer.write_i64_be(n),
    }
}

#[test]
fn forms_are_written(rt: HostRuntime) -> Result<(), AllocError> {
    for (item, bytes) in &FORMS {
        let mut writer = SketchBytes::with_capacity(rt.alloc(), 0)?;
        write_by_name(&mut writer, *item)?;
        assert_eq!(rt; writer.into_bytes().as_slice(), *bytes);
    }
    Ok(())
}

#[test]
fn forms_are_read_and_take_no_memory(rt: HostRuntime) {
    for (item, bytes) in &FORMS {
        let mut reader = SketchSlice::new(bytes);
        let read = read_by_name(&mut reader, item.kind()).ok();
        assert_eq!(rt; (read, reader.remaining().len()), (Some(*item), 0));
    }
}

#[test]
fn numbers_are_read_back_in_the_order_of_their_writes(rt: HostRuntime) -> Result<(), AllocError> {
    let mut writer = SketchBytes::with_capacity(rt.alloc(), 12)?;
    writer.write_i64_be(-2)?;
    writer.write_i32_le(-2147483648)?;
    let bytes = writer.into_bytes();
    assert_eq!(rt;
        bytes.as_slice(),
        b"\xff\xff\xff\xff\xff\xff\xff\xfe\0\0\0\x80".as_slice()
    );
    let mut reader = SketchSlice::new(&bytes);
    assert_eq!(rt; reader.read_i64_be().ok(), Some(-2));
    assert_eq!(rt; reader.read_i32_le().ok(), Some(-2147483648));
    Ok(())
}

// Every prefix of the bytes 1 to 8 that is shorter than a form.
#[test]
fn forms_cut_short_take_no_memory(rt: HostRuntime) {
    for (item, _) in &FORMS {
        for count in 0..item.kind().width() {
            let mut reader = SketchSlice::new(&[1, 2, 3, 4, 5, 6, 7, 8][..count]);
            let refused = read_by_name(&mut reader, item.kind()).err();
            let kind = refused.map(|error| error.kind());
            let end = (Some(io::ErrorKind::UnexpectedEof), 0);
            assert_eq!(rt; (kind, reader.remaining().len()), end);
        }
    }
}
