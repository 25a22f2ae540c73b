//! Laws about descriptions whose parts are given.

ghost use Rattle.timefd_format.specs.Completing.Laws.{OneText};

/// If the parts of a description are given, the same is written of each date that agrees with what was read.
/// So it doesn't matter which of them [`completed`](crate::completing::completed) takes.
#[tactic(auto, using(crate::proofs::CompletingLemmas::LawLemmas::one_text))]
pub fn one_text()
    ensures { OneText }
{}
