//! Laws of single steps: what each step of the two hashes does to words. Each function does
//! nothing: its contract is the law.
//!
//! The laws of whole hashes follow from these. They are in the module `laws` of `datasketches`.

ghost use Rattle.sketch_hash.specs.Laws.{MurmurStepLaws, PieceLaws, Xxh64StepLaws};

/// Full pieces at the start of a stream leave the bytes after them unchanged. Eight bytes are one
/// word.
#[tactic(auto, using(crate::proofs::PiecesLemmas::piece_laws))]
pub fn piece_laws()
    ensures { PieceLaws }
{}

/// Murmur's steps over blocks, its tail and its last mixing are bijections of pairs of words.
#[tactic(auto, using(crate::proofs::MurmurSteps::murmur_step_laws))]
pub fn murmur_step_laws()
    ensures { MurmurStepLaws }
{}

/// The steps of XXH64's tail, and the last mixing, are bijections of words.
#[tactic(auto, using(crate::proofs::Xxh64Steps::xxh64_step_laws))]
pub fn xxh64_step_laws()
    ensures { Xxh64StepLaws }
{}
