//! Examples of texts of versions 1, 2 and 3: the rows of the page on the languages.

ghost use Rattle.timefd_laws.specs.Examples.{RefusedTexts, SpelledTexts};

/// Each of these texts has the fault that is written next to it, in the versions that are named.
pub fn the_refused_texts_have_these_faults()
    ensures { RefusedTexts }
{}

/// Each of these texts spells the items that are written next to it.
pub fn the_spelled_texts_have_these_items()
    ensures { SpelledTexts }
{}
