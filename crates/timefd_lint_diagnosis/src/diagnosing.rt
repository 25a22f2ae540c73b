//! What is wrong with a text: its fault, which bytes are at fault, and what helps.

ghost use Rattle.std.specs.Prelude.{◌≡◌, List, None, IfOk, IfSome};
ghost use Rattle.timefd_parse.specs.Tree.{Tree};
ghost use Rattle.timefd_lang_fault.specs.BorrowedFaults.{to_borrowed_fault};
ghost use Rattle.timefd_lang_fault.specs.Placed.{IsPlaced};
ghost use Rattle.timefd_lang_fault.specs.Faults.{fault_of};
ghost use Rattle.timefd_language.specs.Grammar.{nesting_limit};
ghost use Rattle.timefd_parse.specs.Language.{SpellsIn, FaultIn};
ghost use Rattle.timefd_language.specs.Spans.{IsSpanned};
ghost use Rattle.timefd_lint_diagnosis.specs.Diagnoses.{IsDiagnosis, IsOfFault, IsWithin};

use crate::diagnostic::{Diagnostic, Span};
use crate::help::help_against;
use std::alloc::{AllocError, Global};
use timefd_lang_fault::Code;
use timefd_parse::{
    BorrowedFault, BorrowedParseError, Language, NESTING_LIMIT, ParseError, amount_all_borrowed,
};

/// What is wrong with a text of a language: `None` if it is accepted. An `Err` says that memory ran
/// out, and nothing about the text.
pub fn diagnose(
    alloc: Global,
    language: Language,
    text: &str,
) -> Result<Option<Diagnostic>, AllocError>
    ensures accepted { IfOk result (λ found. found ≡ None
        → (list : List Tree) × SpellsIn language nesting_limit text.now list) }
    ensures refused { IfOk result (λ found. IfSome found (λ d.
        FaultIn language nesting_limit text.now (fault_of d.fault))) }
    // The fault's index lies in the text or at its end, between two characters.
    ensures slot { IfOk result (λ found. IfSome found (λ d. IsPlaced text.now (fault_of d.fault))) }
    ensures diagnosis { IfOk result (λ found. IfSome found (IsDiagnosis language text.now)) }
    // The bytes at fault are inside the text.
    ensures span { IfOk result (λ found. IfSome found (λ d. IsWithin text.now d.span)) }
{
    match amount_all_borrowed(alloc, language, NESTING_LIMIT, text) {
        Ok(_) => Ok(None),
        Err(BorrowedParseError::Invalid(fault)) => {
            Ok(Some(described(alloc, language, text, fault)?))
        }
        Err(BorrowedParseError::Memory(error)) => Err(error),
    }
}

// The diagnostic of a fault.
fn described(
    alloc: Global,
    language: Language,
    text: &str,
    fault: BorrowedFault<'_>,
) -> Result<Diagnostic, AllocError>
    requires position { IsPlaced text.now (to_borrowed_fault fault) }
    requires span { IsSpanned language text.now fault }
    ensures fault { IfOk result (IsOfFault (to_borrowed_fault fault.entry)) }
    ensures diagnosis { IfOk result (IsDiagnosis language text.now) }
    ensures span { IfOk result (λ d. IsWithin text.now d.span) }
{
    let code = Code::of(fault.rule);
    let span = Span {
        start: fault.start,
        end: fault.end,
    };
    let help = help_against(alloc, language, text, fault)?;
    match BorrowedParseError::Invalid(fault).into_owned(alloc) {
        ParseError::Invalid(fault) => Ok(Diagnostic {
            fault,
            code,
            span,
            help,
        }),
        ParseError::Memory(error) => Err(error),
    }
}
