//! Laws that hold for the definitions.

ghost use Rattle.timefd_date_format.specs.Laws.{ListsFormatted, ShowsTexts, WritesFormatted, WritesListed, WritesWithin};

/// What is shown for a component is one of its texts, or the zero of a negative number.
#[tactic(auto, using(crate::proofs::TextLemmas::renders))]
pub fn shows_texts()
    ensures { ShowsTexts }
{}

/// Each listed rendering of a description is one that a formatter may write.
#[tactic(auto, using(crate::proofs::RenderingLemmas::formatted))]
pub fn lists_formatted()
    ensures { ListsFormatted }
{}

/// What is written for a description is a listed rendering of it, except for the zero of a negative number.
#[tactic(auto, using(crate::proofs::RenderingLemmas::writes_formatted))]
pub fn writes_formatted()
    ensures { WritesFormatted }
{}

/// If a moment has no zero of a negative number, what is written is a listed rendering.
#[tactic(auto, using(crate::proofs::RenderingLemmas::writes_listed))]
pub fn writes_listed()
    ensures { WritesListed }
{}

/// What is written for a description is at most as long as the bytes that it reserves.
#[tactic(auto, using(crate::proofs::RoomLemmas::fits))]
pub fn writes_within()
    ensures { WritesWithin }
{}
