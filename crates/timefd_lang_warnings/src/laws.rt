//! Laws about the definitions: each is the contract of a function with an empty body.

ghost use Rattle.timefd_lang_warnings.specs.Codes.{AllAreThere, NamesAreRead};
ghost use Rattle.timefd_lang_warnings.specs.Levels.{FoundAsDefined, LevelIsSet};
ghost use Rattle.timefd_lang_warnings.specs.Reads.{DeterminedAsRead};
ghost use Rattle.timefd_lang_warnings.specs.Laws.{ClockExamples, DateExamples, TextExamples, WidthExamples};

/// Each warning is read back from its name, so no two have the same name.
#[tactic(auto, using(crate::proofs::LawLemmas::names_are_read))]
pub fn names_are_read()
    ensures { NamesAreRead }
{}

/// Each warning is in the list of all of them, so a walk over the list leaves none out.
#[tactic(auto, using(crate::proofs::LawLemmas::all_are_there))]
pub fn all_are_there()
    ensures { AllAreThere }
{}

/// Examples of warnings about texts: for each, a description that has it and one that doesn't.
#[tactic(auto, using(crate::proofs::LawLemmas::text_examples))]
pub fn text_examples()
    ensures { TextExamples }
{}

/// Examples of warnings about the time of day.
#[tactic(auto, using(crate::proofs::LawLemmas::clock_examples))]
pub fn clock_examples()
    ensures { ClockExamples }
{}

/// Examples of warnings about dates.
#[tactic(auto, using(crate::proofs::LawLemmas::date_examples))]
pub fn date_examples()
    ensures { DateExamples }
{}

/// Examples of warnings about widths.
#[tactic(auto, using(crate::proofs::LawLemmas::width_examples))]
pub fn width_examples()
    ensures { WidthExamples }
{}

/// The parts determine a date exactly if the reader of dates finds one in what is read of them.
#[tactic(auto, using(crate::proofs::ReadLemmas::determined_as_read))]
pub fn determined_as_read()
    ensures { DeterminedAsRead }
{}

/// The level found for a warning is what its definition says.
#[tactic(auto, using(crate::proofs::LevelLemmas::found_as_defined))]
pub fn found_as_defined()
    ensures { FoundAsDefined }
{}

/// A level that is set for a warning is its level.
#[tactic(auto, using(crate::proofs::LevelLemmas::level_is_set))]
pub fn level_is_set()
    ensures { LevelIsSet }
{}
