//! Calls of the collision laws, and the original's paths.

ghost use Rattle.std.specs.Prelude.{◌≡◌, ◌↔◌, IsTrue};
ghost use Rattle.datasketches.specs.Bytes.{modulo, twos_complement};

use crate::codec::assert::ensure_serial_version_is;
use crate::codec::family::Family;
use crate::codec::{Item, Kind, SketchBytes, SketchSlice};
use crate::error::ErrorKind;
use crate::hash::value::{natural_extend, raw_bytes, sign_extend};
use crate::hash::{Hash, compute_seed_hash};
use crate::known_answers::TEST_BUFFER;
use crate::laws::{integer_law, murmur_both, xx_both};

const FOX: &[u8] = b"The quick brown fox jumps over the lazy dog";

const EOG: &[u8] = b"The quick brown fox jumps over the lazy eog";

const OTHER_SEED: u64 = 0x9E37_79B1;

#[test]
fn murmur_pairs_differ_for_different_last_blocks(rt: HostRuntime) {
    let (of_fox, of_eog) = murmur_both(0, FOX, 0, EOG);
    assert_eq!(rt; of_fox, (0xe34b_bc7b_bc07_1b6c, 0x7a43_3ca9_c49a_9347));
    assert_eq!(rt; of_eog, (0x3621_0810_2c62_d1c9, 0x3285_cd10_0292_b305));
}

#[test]
fn murmur_pairs_differ_for_different_seeds(rt: HostRuntime) {
    let (first, second) = murmur_both(0, &[], 1, &[]);
    assert_eq!(rt; first, (0, 0));
    assert!(rt; second != first);
}

#[test]
fn xxh64_hashes_differ_for_different_seeds(rt: HostRuntime) {
    let of_nothing = (0xef46_db37_51d8_e999, 0xac75_fda2_929b_17ef);
    assert_eq!(rt; xx_both(0, &[], OTHER_SEED, &[]), of_nothing);
    let stripe = &TEST_BUFFER[..32];
    let of_stripe = (0x18b2_1649_2bb4_4b70, 0xb3f3_3bdf_93ad_e409);
    assert_eq!(rt; xx_both(0, stripe, OTHER_SEED, stripe), of_stripe);
}

#[test]
fn xxh64_hashes_differ_for_different_last_bytes(rt: HostRuntime) {
    for change in 1..=255 {
        let mut last = TEST_BUFFER;
        last[32] ^= change;
        let (first, second) = xx_both(0, &TEST_BUFFER[..33], 0, &last[..33]);
        assert_eq!(rt; first, 0x55c8_dc3e_578f_5b59);
        assert!(rt; second != first, "with the last byte changed by {change}");
    }
}

// Whether a signed and an unsigned key of 64 bits have equal XXH64 hashes.
fn have_equal_hashes(seed: u64, x: i64, y: u64) -> bool
    ensures { IsTrue result ↔ (modulo 64 x ≡ modulo 64 (twos_complement 64 y)) }
{
    integer_law();
    sign_extend::from_i64(x).xxh64(seed) == sign_extend::from_u64(y).xxh64(seed)
}

#[test]
fn keys_equal_modulo_2_to_the_64_have_equal_hashes(rt: HostRuntime) {
    assert!(rt; have_equal_hashes(9001, -1, u64::MAX));
    assert!(rt; !have_equal_hashes(9001, -1, 1));
}

#[test]
fn items_have_their_original_paths(rt: HostRuntime) {
    let mut reader = SketchSlice::new(&[7]);
    let mut places = [Item::U8(0)];
    assert!(rt; reader.read_items(&[Kind::U8], &mut places).is_ok());
    assert!(rt; SketchBytes::with_capacity(rt.alloc(), 0).is_ok());
    assert!(rt; Family::HLL.validate_id(rt.alloc(), 7).is_ok());
    assert!(rt; ensure_serial_version_is(rt.alloc(), 1, 1).is_ok());
    assert!(rt; compute_seed_hash(rt.alloc(), 9001, ErrorKind::InvalidData).is_ok());
    assert_eq!(rt;
        natural_extend::from_u8(1).word(),
        sign_extend::from_u8(1).word()
    );
    assert_eq!(rt; raw_bytes::from_str("").word(), None);
}
