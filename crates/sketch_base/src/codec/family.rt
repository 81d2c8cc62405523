//! The families of sketches of [Apache DataSketches](https://datasketches.apache.org/), each with
//! the byte that names it in serialized form.

ghost use Rattle.std.specs.Prelude.{◌≡◌, ℕ, List, [], ◌∷◌, codes, map};
ghost use Rattle.sketch_base.specs.Checks.{AcceptsExactly};
ghost use Rattle.sketch_base.specs.Refusals.{invalid_family_text};

use crate::error::Error;
use std::alloc::Global;

/// A family of sketches.
#[derive(Drop)]
pub struct Family {
    /// The byte that names the family.
    pub id: u8,
    /// The family's name.
    pub name: &'static str,
    /// The least number of preamble longs, of eight bytes each.
    pub min_pre_longs: u8,
    /// The greatest number of preamble longs, of eight bytes each.
    pub max_pre_longs: u8,
}

// A family by its id, its name, and the least and the greatest number of preamble longs.
macro_rules! family {
    ($id:literal, $name:literal, $min_pre_longs:literal..=$max_pre_longs:literal) => {
        Family {
            id: $id,
            name: $name,
            min_pre_longs: $min_pre_longs,
            max_pre_longs: $max_pre_longs,
        }
    };
}

impl Family {
    /// Theta sketches, which count distinct values.
    pub const THETA: Family = family!(3, "THETA", 1..=3);

    /// HyperLogLog sketches, which count distinct values.
    pub const HLL: Family = family!(7, "HLL", 1..=1);

    /// Tuple sketches, which count distinct keys and keep a summary of each.
    pub const TUPLE: Family = family!(9, "TUPLE", 1..=3);

    /// Frequency sketches, which find frequent values.
    pub const FREQUENCY: Family = family!(10, "FREQUENCY", 1..=4);

    /// KLL sketches, which estimate quantiles and ranks.
    pub const KLL: Family = family!(15, "KLL", 1..=2);

    /// Compressed probabilistic counting, which counts distinct values.
    pub const CPC: Family = family!(16, "CPC", 1..=5);

    /// Relative error quantiles, whose error is smallest at one end of the ranks.
    pub const REQ: Family = family!(17, "REQ", 1..=2);

    /// Count-min sketches, which estimate frequencies.
    pub const COUNTMIN: Family = family!(18, "COUNTMIN", 2..=2);

    /// T-digests, which estimate quantiles and ranks.
    pub const TDIGEST: Family = family!(20, "TDIGEST", 1..=2);

    /// Bloom filters, which tell whether a value may have been inserted.
    pub const BLOOMFILTER: Family = family!(21, "BLOOMFILTER", 3..=4);

    /// Accepts exactly the family's own id.
    ///
    /// # Errors
    ///
    /// Returns `InvalidData` for any other, or `OutOfMemory` with an empty message if there is no
    /// memory for the text.
    pub fn validate_id(&self, alloc: Global, family_id: u8) -> Result<(), Error>
        ensures { AcceptsExactly (family_id ≡ self.now.id)
            (invalid_family_text self.now.id family_id self.now.name.now) result }
    {
        if family_id == self.id {
            return Ok(());
        }
        Err(Error::invalid_family(alloc, self.id, family_id, self.name))
    }
}

// Nothing calls this. Its clause is the format's table of families, so the prover rejects a
// constant that differs from it.
fn families() -> [Family; 10]
    ensures { map {B = ℕ × List ℕ × ℕ × ℕ}
        (λ family. (family.id, family.name.now, family.min_pre_longs, family.max_pre_longs)) result
        ≡ (3, codes "THETA", 1, 3) ∷ (7, codes "HLL", 1, 1) ∷ (9, codes "TUPLE", 1, 3)
        ∷ (10, codes "FREQUENCY", 1, 4) ∷ (15, codes "KLL", 1, 2) ∷ (16, codes "CPC", 1, 5)
        ∷ (17, codes "REQ", 1, 2) ∷ (18, codes "COUNTMIN", 2, 2) ∷ (20, codes "TDIGEST", 1, 2)
        ∷ (21, codes "BLOOMFILTER", 3, 4) ∷ [] }
{
    [
        Family::THETA,
        Family::HLL,
        Family::TUPLE,
        Family::FREQUENCY,
        Family::KLL,
        Family::CPC,
        Family::REQ,
        Family::COUNTMIN,
        Family::TDIGEST,
        Family::BLOOMFILTER,
    ]
}
