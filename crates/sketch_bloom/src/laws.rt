//! Facts about filters, for a caller's proof. Each function does nothing: its contract is the law.

ghost use Rattle.sketch_bloom.specs.Header.{HeaderLaw};
ghost use Rattle.sketch_bloom.specs.Laws.{BlockLaw, FoldLaw, InsertLaw, MergeLaw, SizeLaw, ValueLaw};

/// A filter contains each value that was inserted. Filters of one length are the same, byte for
/// byte, if the same values were inserted, in any order and however often.
#[tactic(auto, using(crate::proofs::LawLemmas::insert_law))]
pub fn insert_law()
    ensures { InsertLaw }
{}

/// Merging the filters of two streams of values makes the filter of both streams, byte for byte.
#[tactic(auto, using(crate::proofs::LawLemmas::merge_law))]
pub fn merge_law()
    ensures { MergeLaw }
{}

/// Folding a filter makes the filter of half its length of the same values, byte for byte.
#[tactic(auto, using(crate::proofs::FoldLemmas::fold_law))]
pub fn fold_law()
    ensures { FoldLaw }
{}

/// A filter contains a hash exactly if the block of the hash does, as a filter of one block.
#[tactic(auto, using(crate::proofs::LawLemmas::block_law))]
pub fn block_law()
    ensures { BlockLaw }
{}

/// The filter of a list of values contains each of them.
#[tactic(auto, using(crate::proofs::LawLemmas::value_law))]
pub fn value_law()
    ensures { ValueLaw }
{}

/// Bytes start with the header of at most one length. So a header that was written is read back.
#[tactic(auto, using(crate::proofs::HeaderLemmas::header_law))]
pub fn header_law()
    ensures { HeaderLaw }
{}

/// How near the Poisson rate of a size from [`bytes_for`](crate::bytes_for) is to that asked for.
#[tactic(auto, using(crate::proofs::ExactLemmas::size_law))]
pub fn size_law()
    ensures { SizeLaw }
{}
