//! Sizes: the sum for the rate to six digits, Arrow's sizes beside ours, and a rate as measured.

use crate::size::keeps_rate;
use crate::{BloomFilter, MAX_BYTES, bytes_for};
use std::process::Abort;
use std::test::Fail;

// A number of values, the logarithm of a number of blocks, and the most other values of which one
// is found by chance with that many blocks, with twice as many and so on, rounded down, as the sum
// is with 50 digits.
const RATES: [(u64, u32, &[u64]); 11] = [
    (1, 0, &[437_143_731, 5_355_687_577]),
    (10, 0, &[8612]),
    (100, 2, &[88, 2692]),
    (1000, 5, &[33, 856, 31_310]),
    (10_000, 9, &[282]),
    (10_000, 12, &[9_986_734]),
    (100_000, 11, &[6, 98, 3044]),
    (1_000_000, 15, &[36, 966, 35_432]),
    (10_000_000, 19, &[317, 11_038]),
    (50_000_000, 22, &[3443]),
    (100_000_000, 22, &[109]),
];

#[test]
fn the_rate_has_six_digits_of_the_exact_sum(rt: HostRuntime) {
    for (keys, log2_blocks, rates) in RATES {
        let mut next = log2_blocks;
        for one_in in rates {
            let blocks = next.min(22);
            let digits = one_in / 1_000_000 + 1;
            assert!(rt; keeps_rate(keys, blocks, one_in.saturating_sub(digits).max(1)));
            assert!(rt; !keeps_rate(keys, blocks, one_in.saturating_add(digits)));
            next = blocks + 1;
        }
    }
}

// A number of values, of how many others one may be found, our bytes, and those that Arrow takes.
const SIZES: [(u64, u64, usize, usize); 7] = [
    (1, 10, 32, 32),
    (100, 100, 256, 128),
    (1_000, 1_000, 4_096, 2_048),
    (100_000, 100, 262_144, 131_072),
    (1_000_000, 1_000, 4_194_304, 2_097_152),
    (10_000_000, 10_000, 33_554_432, 33_554_432),
    (100_000_000, 100, MAX_BYTES, 134_217_728),
];

#[test]
fn sizes_are_arrows_or_twice_them(rt: HostRuntime) {
    for (keys, one_in, bytes, arrow) in SIZES {
        assert_eq!(rt; bytes_for(keys, one_in), Some(bytes));
        assert!(rt; bytes == arrow || bytes / 2 == arrow);
    }
    for (keys, one_in) in [(0, 0), (100_000_000, 1_000), (1 << 30, 2), (u64::MAX, 2)] {
        assert_eq!(rt; bytes_for(keys, one_in), None);
    }
    assert!(rt; bytes_for(u64::MAX, 1) == Some(32) && bytes_for(0, u64::MAX) == Some(32));
}

// 10^6 values in 2 MiB: the exact sum gives 1035 of 10^6 others, and the deviation is 32.
#[test]
fn a_million_values_keep_the_rate(rt: HostRuntime) -> Result<(), Fail> {
    let mut filter = BloomFilter::new(rt.alloc(), 1 << 21)?;
    for value in 0..1_000_000u64 {
        filter.insert(&value);
    }
    let mut found = 0u64;
    for value in 0..1_000_000u64 {
        assert!(rt; filter.contains(&value));
        found = found.saturating_add(u64::from(filter.contains(&(value + (1 << 40)))));
    }
    assert!(rt; 900 < found && found < 1_170, "{found}");
    Ok(())
}
