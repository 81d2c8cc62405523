//! Bits packed into bytes.

ghost use Rattle.std.specs.Prelude.{◌≡◌, ℕ, ◌*◌, ◌<◌, ◌↔◌, ◌⊎◌, length, slice_index, IsTrue};
ghost use Rattle.sketch_member.specs.Table.{IsSet};

// Whether bit `i` is set.
pub(crate) fn is_set(bits: &[u8], i: usize) -> bool
    requires { i < length bits.now * 8 }
    ensures { IsTrue result ↔ IsSet bits.now i }
{
    (bits[i >> 3] >> (i & 7)) & 1 == 1
}

// Sets bit `i`.
#[tactic(auto, using(crate::proofs::BitLemmas::for_set))]
pub(crate) fn set(bits: &mut [u8], i: usize)
    requires { i < length bits.old * 8 }
    ensures bits { (k : ℕ) → IsSet bits.new k ↔ (IsSet bits.old k ⊎ (k ≡ i)) }
    ensures bytes { (k : ℕ) → slice_index bits.new k < 256 }
{
    bits[i >> 3] |= 1 << (i & 7);
}
