//! A filter, headers and rates that are published, and blocks of hashes, as the definitions give.
//!
//! Each function here does nothing: its contract is computed from the definitions. So a definition
//! that answers otherwise is refused.

ghost use Rattle.sketch_bloom.specs.KnownAnswers.{BlockAnswers, FilterAnswer, HeaderAnswers, SizeAnswers};

/// The definition of the filter gives the filter that parquet-mr wrote.
#[tactic(auto, using(crate::proofs::KnownAnswers::filter_answer))]
pub fn filter_answer()
    ensures { FilterAnswer }
{}

/// The definition of a hash's block gives those of filters of one, three and 2^16 + 1 blocks.
#[tactic(auto, using(crate::proofs::KnownAnswers::block_answers))]
pub fn block_answers()
    ensures { BlockAnswers }
{}

/// The definition of the header gives headers of each length.
#[tactic(auto, using(crate::proofs::KnownAnswers::header_answers))]
pub fn header_answers()
    ensures { HeaderAnswers }
{}

/// The definition of the exact rate gives those of Parquet's specification, and the definition of
/// the sizes the largest filter that Arrow reads.
#[tactic(auto, using(crate::proofs::KnownAnswers::size_answers))]
pub fn size_answers()
    ensures { SizeAnswers }
{}
