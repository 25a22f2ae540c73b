//! What holds for diagnoses: each law is the contract of a function with an empty body.

ghost use Rattle.timefd_lint_diagnosis.specs.Advice.{LettersAreRead};
ghost use Rattle.timefd_lint_diagnosis.specs.Laws.{HasModifierSlot};

/// If a closed bracket is refused for a key or a value, it is known what that word should have
/// been, so the help names the words that are allowed there.
pub fn has_modifier_slot()
    ensures { HasModifierSlot }
{}

/// The letters that the help names are those that strftime reads.
#[tactic(auto, using(crate::proofs::LetterLemmas::letters_are_read))]
pub fn letters_are_read()
    ensures { LettersAreRead }
{}
