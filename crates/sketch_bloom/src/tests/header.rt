//! Headers as Parquet's writers write them, and bytes that are none.

use crate::{read_header, write_header};
use std::process::Abort;

#[test]
fn writes_and_reads_the_header_of_each_length(rt: HostRuntime) {
    let fields = b"\x1c\x1c\0\0\x1c\x1c\0\0\x1c\x1c\0\0\0";
    for (bytes, number) in [
        (32, b"\x15\x40".as_slice()),
        (1024, b"\x15\x80\x10"),
        (1 << 19, b"\x15\x80\x80\x40"),
        (1 << 20, b"\x15\x80\x80\x80\x01"),
        ((1 << 31) - 32, b"\x15\xc0\xff\xff\xff\x0f"),
    ] {
        let mut out = [9; 24];
        let count = write_header(bytes, &mut out).unwrap_or(0);
        assert_eq!(rt; read_header(&out), Some((bytes, count)));
        let rest = out
            .strip_prefix(number)
            .and_then(|rest| rest.strip_prefix(fields));
        assert!(rt; rest == [9; 24].get(count..));
    }
    assert_eq!(rt; write_header(1 << 31, &mut [9; 24]), None);
}

#[test]
fn reads_no_header_with_another_byte(rt: HostRuntime) {
    let mut header = [9; 16];
    assert_eq!(rt; write_header(1024, &mut header), Some(16));
    for i in 0..16 {
        header[i] ^= 0x80;
        assert_eq!(rt; read_header(&header), None);
        header[i] ^= 0x80;
        assert_eq!(rt; read_header(&header[..i]), None);
    }
}
