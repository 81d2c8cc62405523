//! Facts about tables and their bytes, for a caller's proof. Each function does nothing: its
//! contract is the law.

ghost use Rattle.sketch_member.specs.Laws.{FormLaw, InsertLaw};

pub use crate::table::table_law;

/// The checks accept the bytes of each table, and bytes are those of at most one table.
#[tactic(auto, using(crate::proofs::LawLemmas::form_law))]
pub fn form_law()
    ensures { FormLaw }
{}

/// A table contains each of its values. Tables with the same seed and sizes have the same bits if
/// the same values were inserted, in any order, and are equal if their counts are too. The same
/// inserts into an empty table give the same bytes.
#[tactic(auto, using(crate::proofs::LawLemmas::insert_law))]
pub fn insert_law()
    ensures { InsertLaw }
{}
