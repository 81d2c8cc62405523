//! Laws of collisions, of extended integers, and of items and their bytes.
//!
//! A function without parameters does nothing: its contract is the law. It calls the laws that it
//! follows from, those of single steps in `sketch_hash::laws`.

ghost use Rattle.std.specs.Prelude.{◌≡◌, ◌≢◌, ◌<◌, length};
ghost use Rattle.datasketches.specs.Laws.{DifferInOneBlock, DifferInOneTailStep, HashU64Law, IntegerLaw, ModuloLaw, MurmurBlockLaw, MurmurSeedLaw, XxSeedLaw, XxTailLaw};
ghost use Rattle.datasketches.specs.Strategies.{ExtendLaw};
ghost use Rattle.sketch_base.specs.Items.{ItemLaw};
ghost use Rattle.sketch_hash.specs.Murmur.{murmur};
ghost use Rattle.sketch_hash.specs.Xxh64.{xxh64};

use sketch_hash::hash::{MurmurHash3X64128, XxHash64};
use sketch_hash::laws::{murmur_step_laws, piece_laws, xxh64_step_laws};

/// The Murmur pairs of two streams, each under its own seed.
///
/// With the same seed, two streams of the same length that differ only in one aligned block of
/// sixteen bytes have different pairs. The block may be cut off at the end of the streams. One
/// stream has different pairs under two seeds.
#[tactic(auto, using(crate::proofs::MurmurLawLemmas::for_murmur_both))]
pub fn murmur_both(seed_a: u64, a: &[u8], seed_b: u64, b: &[u8]) -> ((u64, u64), (u64, u64))
    ensures values { result ≡ (murmur seed_a a.now, murmur seed_b b.now) }
    ensures one_block { seed_a ≡ seed_b → DifferInOneBlock a.now b.now → result.0 ≢ result.1 }
    ensures two_seeds { a.now ≡ b.now → seed_a ≢ seed_b → result.0 ≢ result.1 }
{
    piece_laws();
    murmur_step_laws();
    (
        MurmurHash3X64128::hash(a, seed_a),
        MurmurHash3X64128::hash(b, seed_b),
    )
}

/// With the seed, the length and all other bytes fixed, the Murmur pair is a bijection from the
/// sixteen bytes of a full aligned block to the pairs of words.
#[tactic(auto, using(crate::proofs::MurmurLawLemmas::murmur_block_law))]
pub fn murmur_block_law()
    ensures { MurmurBlockLaw }
{
    piece_laws();
    murmur_step_laws();
}

/// The full blocks of a stream are a bijection of pairs of words.
#[tactic(auto, using(crate::proofs::MurmurLawLemmas::murmur_seed_law))]
pub fn murmur_seed_law()
    ensures { MurmurSeedLaw }
{
    murmur_step_laws();
}

/// The XXH64 hashes of two streams, each under its own seed.
///
/// With the same seed, two streams of the same length with the same full stripes of 32 bytes, whose
/// tails differ in exactly one step, have different hashes. A tail is the bytes after the last full
/// stripe. Its steps are words of eight bytes while eight are left, then a word of four bytes if
/// four are left, then single bytes. One stream of fewer than 32 bytes has different hashes under
/// two seeds.
#[tactic(auto, using(sketch_base::proofs::BytesLemmas::bytes_known))]
pub fn xx_both(seed_a: u64, a: &[u8], seed_b: u64, b: &[u8]) -> (u64, u64)
    ensures values { result ≡ (xxh64 seed_a a.now, xxh64 seed_b b.now) }
    ensures one_tail_step { seed_a ≡ seed_b → DifferInOneTailStep a.now b.now →
        result.0 ≢ result.1 }
    ensures two_seeds { a.now ≡ b.now → length a.now < 32 → seed_a ≢ seed_b → result.0 ≢ result.1 }
{
    xx_tail_law();
    xx_seed_law();
    (XxHash64::hash(a, seed_a), XxHash64::hash(b, seed_b))
}

/// With the same seed, two streams of the same length with the same full stripes of 32 bytes, whose
/// tails differ in exactly one step (see [`xx_both`]), have different XXH64 hashes.
#[tactic(auto, using(crate::proofs::Xxh64LawLemmas::xx_tail_law))]
pub fn xx_tail_law()
    ensures { XxTailLaw }
{
    piece_laws();
    xxh64_step_laws();
}

/// A stream of fewer than 32 bytes has different XXH64 hashes under different seeds.
#[tactic(auto, using(crate::proofs::Xxh64LawLemmas::xx_seed_law))]
pub fn xx_seed_law()
    ensures { XxSeedLaw }
{
    piece_laws();
    xxh64_step_laws();
}

/// Two integers from -2^31 to 2^32 - 1, each extended to eight bytes and hashed alone with the same
/// seed, have equal Murmur pairs exactly if they are equal, and equal XXH64 hashes exactly if they
/// are equal. Any two integers have equal hashes exactly if they agree modulo 2^64.
#[tactic(auto, using(crate::proofs::IntegerLemmas::for_integer_law))]
pub fn integer_law()
    ensures murmur { IntegerLaw murmur }
    ensures xxh64 { IntegerLaw xxh64 }
    ensures murmur_modulo { ModuloLaw murmur }
    ensures xxh64_modulo { ModuloLaw xxh64 }
{
    piece_laws();
    murmur_step_laws();
    xxh64_step_laws();
}

/// For each seed, `hash_u64` is a bijection of 64-bit numbers.
#[tactic(auto, using(crate::proofs::Xxh64LawLemmas::hash_u64_law))]
pub fn hash_u64_law()
    ensures { HashU64Law }
{
    piece_laws();
    xxh64_step_laws();
}

/// When `NaturalExtendStrategy` and `SignExtendStrategy` feed equal bytes.
///
/// They feed the same for every signed integer and every integer of 64 bits, and for an unsigned
/// integer of up to 32 bits exactly if its top bit is clear. Under `SignExtendStrategy` a signed
/// and an unsigned integer of w bits feed the same exactly if they agree modulo 2^w.
#[tactic(auto, using(crate::proofs::IntegerLemmas::extend_law))]
pub fn extend_law()
    ensures { ExtendLaw }
{}

/// An item has exactly one form in bytes, and so has a list of items of known kinds. A list is read
/// back from its bytes, whatever follows them, and what follows remains.
#[tactic(auto, using(sketch_base::proofs::ItemLemmas::item_law))]
pub fn items_law()
    ensures { ItemLaw }
{}
