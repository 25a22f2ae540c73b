//! Converts texts of version 1 to version 3.

ghost use Rattle.std.specs.Prelude.{◌≡◌, [], IfOk, IsOk, MatchResult, string_bytes};
ghost use Rattle.std.specs.Result.{IfErr};
ghost use Rattle.timefd_language.specs.declared.description_version.Language as spec_language;
ghost use Rattle.timefd_language.specs.Spans.{HasSpan};
ghost use Rattle.timefd_lang_fault.specs.BorrowedFaults.{HasShortFault, IsBorrowed, IsBorrowedOf, IsMemory};
ghost use Rattle.timefd_lang_fault.specs.Placed.{IsPlaced};
ghost use Rattle.timefd_lang_convert.specs.Answers.{HasItemsOver, IsWrittenOver};
ghost use Rattle.timefd_lang_fault.specs.Faults as spec;
ghost use Rattle.timefd_language.specs.Broken.{FaultOf};
ghost use Rattle.timefd_language.specs.Grammar.{Pieces, nesting_limit};
ghost use Rattle.timefd_language.specs.Rewritten.{rewritten};
ghost use Rattle.timefd_language.specs.declared.description_version.DescriptionVersion.TheVariants.{One};
ghost use Rattle.timefd_lift.specs.Answers.{IsSpelledBy};
ghost use Rattle.timefd_lift.specs.Modernized.{IsWrittenOf};

use std::alloc::Global;
use timefd_lift::{v1_to_v2_borrowed, v2_to_v3};
use timefd_parse::BorrowedParseError;

/// The text of version 3 that means the same as a text of version 1: the result of `v1_to_v2`,
/// converted by `v2_to_v3`. Neighbouring literals become one literal.
///
/// The error is `Invalid` with the fault of the text, or `Memory` if memory ran out. A text that has a
/// fault is refused for it even then. This call is this port's own.
pub fn v1_to_v3(alloc: Global, s: &str) -> Result<String, BorrowedParseError<'_>>
    // The text is rewritten to version 2, and that is written in version 3. The result has the same
    // items. A text that is refused is refused for the fault that the rules of version 1 assign.
    ensures rewritten { IfOk result (λ answer. IsWrittenOver s.now (string_bytes answer)) }
    ensures same_items { IfOk result (λ answer. HasItemsOver s.now (string_bytes answer)) }
    // The result, read in version 2 and written in version 3, gives the result again.
    ensures again { IfOk result (λ answer.
        IsWrittenOf (string_bytes answer) (string_bytes answer)) }
    ensures fault { IfErr result (IsBorrowedOf (FaultOf One nesting_limit s.now)) }

    // A text that version 1 spells is rewritten and written in version 3 unless memory runs out, and a
    // text with a fault is refused for it.
    ensures spelled { (ps : Pieces) → IsSpelledBy ps s.now
        → MatchResult result (λ answer. IsWrittenOf (rewritten ps) (string_bytes answer)) IsMemory }
    ensures refused { (f : spec.Fault) → FaultOf One nesting_limit s.now f
        → MatchResult result (λ _. ⊥) (IsBorrowed f) }

    // The fault's index lies in the text or at its end, between two characters. The words that it
    // quotes are short, so that its sentence can be written.
    ensures position { IfErr result (IsBorrowedOf (IsPlaced s.now)) }
    ensures words { IfErr result HasShortFault }

    // The fault ends after the name, the key, the value or the character at fault.
    ensures span { IfErr result (HasSpan (spec_language.Language.Version One) s.now) }

    // The empty text takes no memory.
    ensures empty { s.now ≡ [] → IsOk result }
{
    match v1_to_v2_borrowed(alloc, s) {
        Ok(between) => match v2_to_v3(alloc, &between) {
            Ok(answer) => Ok(answer),
            Err(BorrowedParseError::Memory(error)) => Err(BorrowedParseError::Memory(error)),
            // Version 2 accepts every text that was rewritten.
            Err(BorrowedParseError::Invalid(_)) => unreachable!(),
        },
        Err(error) => Err(error),
    }
}
