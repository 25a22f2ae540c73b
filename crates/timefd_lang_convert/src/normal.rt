//! The normal form of texts of version 3.

ghost use Rattle.std.specs.Prelude.{◌≡◌, [], List, IfOk, IsOk, MatchResult, string_bytes};
ghost use Rattle.std.specs.Result.{IfErr};
ghost use Rattle.timefd_language.specs.declared.description_version.Language as spec_language;
ghost use Rattle.timefd_language.specs.Spans.{HasSpan};
ghost use Rattle.timefd_lang_fault.specs.BorrowedFaults.{HasShortFault, IsBorrowed, IsBorrowedOf, IsMemory};
ghost use Rattle.timefd_lang_fault.specs.Placed.{IsPlaced};
ghost use Rattle.timefd_lang_component.specs.Tree.{Tree, pack};
ghost use Rattle.timefd_lang_convert.specs.Answers.{IsNormalOf, KeepsTree};
ghost use Rattle.timefd_lang_fault.specs.Faults as spec;
ghost use Rattle.timefd_language.specs.Broken.{FaultOf};
ghost use Rattle.timefd_language.specs.Grammar.{Spells, nesting_limit};
ghost use Rattle.timefd_language.specs.declared.description_version.DescriptionVersion.TheVariants.{Three};
ghost use Rattle.timefd_lang_convert.specs.Printing.Printed.{printed};

use crate::printing::laws::reads_back;
use crate::printing::{PrintError, print_v3};
use std::alloc::Global;
use timefd_parse::{
    BorrowedOutput, BorrowedParseError, DescriptionVersion, NESTING_LIMIT, parse_all_borrowed,
};

/// The normal form of a text of version 3: what `print_v3` prints for the description that it spells.
/// The normal form spells the same description, and all texts that spell it have the same normal
/// form.
///
/// The error is `Invalid` with the fault of the text, or `Memory` if memory ran out. A text that has a
/// fault is refused for it even then. This call is this port's own.
pub fn normalize_v3(alloc: Global, s: &str) -> Result<String, BorrowedParseError<'_>>
    // The result is the normal form of what the text spells, and spells the same. It is its own
    // normal form. A text that is refused is refused for the fault that the rules of version 3
    // assign.
    ensures normal { IfOk result (λ answer. IsNormalOf s.now (string_bytes answer)) }
    ensures same_items { IfOk result (λ answer. KeepsTree s.now (string_bytes answer)) }
    ensures again { IfOk result (λ answer.
        IsNormalOf (string_bytes answer) (string_bytes answer)) }
    ensures fault { IfErr result (IsBorrowedOf (FaultOf Three nesting_limit s.now)) }

    // What version 3 spells is printed unless memory runs out, and a text with a fault is refused for
    // it.
    ensures spelled { (list : List Tree) → Spells Three nesting_limit 0 s.now list
        → MatchResult result (λ answer. string_bytes answer ≡ printed (pack list)) IsMemory }
    ensures refused { (f : spec.Fault) → FaultOf Three nesting_limit s.now f
        → MatchResult result (λ _. ⊥) (IsBorrowed f) }

    // The fault's index lies in the text or at its end, between two characters. The words that it
    // quotes are short, so that its sentence can be written.
    ensures position { IfErr result (IsBorrowedOf (IsPlaced s.now)) }
    ensures words { IfErr result HasShortFault }

    // The fault ends after the name, the key, the value or the character at fault.
    ensures span { IfErr result (HasSpan (spec_language.Language.Version Three) s.now) }

    // The empty text takes no memory.
    ensures empty { s.now ≡ [] → IsOk result }
{
    // By this law the normal form spells the same description.
    reads_back();
    if s.is_empty() {
        return Ok(String::new(alloc));
    }
    match parse_all_borrowed(alloc, DescriptionVersion::Three, NESTING_LIMIT, s) {
        Ok(BorrowedOutput::Description(description)) => match print_v3(alloc, description.view()) {
            Ok(answer) => Ok(answer),
            Err(PrintError::Memory(error)) => Err(BorrowedParseError::Memory(error)),
            // There is a text that spells the description: this one.
            Err(PrintError::Unspelled(_)) => unreachable!(),
        },
        Ok(BorrowedOutput::Items(_)) => unreachable!(),
        Err(error) => Err(error),
    }
}
