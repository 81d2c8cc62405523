//! Known answers of both hashes, and a membership table in bytes of version 1, which has no count.

use crate::tests::{FOX, FOX_MURMUR};
use datasketches::error::{Error, ErrorKind};
use datasketches::hash::value::raw_bytes;
use datasketches::hash::{Hasher, MurmurHash3X64128, XxHash64};
use datasketches::known_answers::TEST_BUFFER;
use sketch_member::MemberTable;
use std::alloc::Global;
use std::io::Eprint;
use std::process::Abort;

// What Murmur answers under seed 0: the input, and the two words.
const MURMUR: [(&[u8], (u64, u64)); 6] = [
    (FOX, FOX_MURMUR),
    (
        b"The quick brown fox jumps over the lazy eog",
        (0x3621_0810_2c62_d1c9, 0x3285_cd10_0292_b305),
    ),
    (
        b"The quick brown fox jumps over the lazy dogdogdog",
        (0x9c82_0530_0e61_2fc4, 0xcbc0_af61_36aa_3df9),
    ),
    (
        b"The quick brown fox jumps over the lazy1",
        (0xe330_1a82_7e5c_dfe3, 0xbdbf_05f8_da0f_0392),
    ),
    (
        b"The quick brown fox jumps over t",
        (0xdf6a_f91b_b29b_dacf, 0x91a3_41c5_8df1_f3a6),
    ),
    (
        b"The quick brown fox jumps over the lazy dog\xff\x64\x6f\x67\x00",
        (0xe88a_bda7_8592_9c9e, 0x96b9_8587_cacc_83d6),
    ),
];

// What XXH64 answers: the seed, how many bytes of the test buffer, and the word.
const XXH64: [(u64, usize, u64); 10] = [
    (0, 0, 0xef46_db37_51d8_e999),
    (0, 1, 0xe934_a84a_db05_2768),
    (0, 32, 0x18b2_1649_2bb4_4b70),
    (0, 33, 0x55c8_dc3e_578f_5b59),
    (0, 100, 0x4bfe_019c_d91d_9ea4),
    (0x9E37_79B1, 0, 0xac75_fda2_929b_17ef),
    (0x9E37_79B1, 1, 0x5014_6076_43a9_b4c3),
    (0x9E37_79B1, 32, 0xb3f3_3bdf_93ad_e409),
    (0x9E37_79B1, 33, 0xe92c_292f_64bc_3071),
    (0x9E37_79B1, 100, 0x4853_706d_c962_5cae),
];

#[test]
fn murmur_vectors(rt: HostRuntime) {
    for (input, expected) in &MURMUR {
        let mut hasher = MurmurHash3X64128::with_seed(0);
        hasher.write(input);
        assert_eq!(rt; hasher.finish128(), *expected, "{} bytes", input.len());
    }
}

#[test]
fn xxh64_vectors(rt: HostRuntime) {
    for (seed, count, expected) in &XXH64 {
        let mut hasher = XxHash64::with_seed(*seed);
        hasher.write(&TEST_BUFFER[..(*count).min(100)]);
        assert_eq!(rt; hasher.finish64(), *expected, "{count} bytes, seed {seed}");
    }
}

// A table of 64 bits and one hash that has the empty text.
const VERSION_1: &[u8] = b"\x02\x01\xc8\x06\x01\0\0\0\0\0\0\0\0\0\0\0\0\0\0\x02\0\0\0\0";

fn try_insert(rt: &impl Abort, alloc: Global) -> Result<(), Error> {
    let mut table = MemberTable::from_bytes(alloc, VERSION_1)?;
    table.insert(&raw_bytes::from_str(""));
    assert_eq!(rt; table.count(), None);
    Ok(())
}

fn try_copy(rt: &impl Abort, alloc: Global) -> Result<(), Error> {
    let table = MemberTable::from_bytes(alloc, VERSION_1)?;
    let written = table.to_bytes(alloc)?;
    let again = MemberTable::from_bytes(alloc, &written)?;
    assert!(rt; again.contains(&raw_bytes::from_str("")));
    assert_eq!(rt; again.count(), None);
    Ok(())
}

#[test]
fn an_insert_leaves_the_count_unknown(rt: HostRuntime) -> Result<(), Error> {
    try_insert(&rt, rt.alloc())
}

#[test]
fn a_table_written_and_read_again_has_its_value_and_no_count(rt: HostRuntime) -> Result<(), Error> {
    try_copy(&rt, rt.alloc())
}

#[test]
fn tables_of_version_1_without_memory(rt: HostRuntime) {
    for tried in [try_insert(&rt, rt.alloc()), try_copy(&rt, rt.alloc())] {
        if let Err(error) = tried {
            let _ = rt.eprintln("out of memory");
            assert!(rt; error.kind() == ErrorKind::OutOfMemory && error.message().is_empty());
        }
    }
}
