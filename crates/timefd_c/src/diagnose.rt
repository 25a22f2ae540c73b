//! The function that C calls for all that there is to say of a fault.

ghost use Rattle.std.specs.Prelude.{◌≡◌, ◌≢◌, ◌<◌, ◌≤◌, ◌++◌, ℕ, Some, length, take, drop};
ghost use Rattle.std.specs.Str.{IsCharBoundary};
ghost use Rattle.timefd_parse.specs.Faults.{Fault};
ghost use Rattle.timefd_language.specs.declared.description_version.Language.{Language};
ghost use Rattle.timefd_c.specs.Answers.{HasFault, IfRefused, Judges};
ghost use Rattle.timefd_c.specs.Diagnoses.{IsDiagnosed, no_fault};
ghost use Rattle.timefd_c.specs.Languages.{language_of};

use crate::answer::REFUSED;
use crate::diagnosis::{Diagnosis, FaultFields};
use crate::exports::timefd_check;
use crate::numbers::from_number;
use std::alloc::Global;
use timefd_c_nodes::reading::text_of;
use timefd_parse::{BorrowedParseError, Language, NESTING_LIMIT, amount_all_borrowed};

/// Says what `timefd_check` says. Of a refused text it also says which fault it is, which bytes are
/// at fault, and which of the words that are allowed there is the nearest. This word is written to
/// the front of its buffer if all of it fits.
#[unsafe(no_mangle)]
pub extern "C" fn timefd_diagnose(
    alloc: Global,
    kind: u32,
    text: &[u8],
    sentence: &mut [u8],
    word: &mut [u8],
) -> Diagnosis
    ensures judges { Judges (language_of kind) text.now result.answer }

    // What is wrong, where, and the nearest word.
    ensures diagnosed { (l : Language) → language_of kind ≡ Some l
        → (f : Fault) → HasFault (Some l) text.now f
        → IsDiagnosed l text.now f word.old word.new result.fault }
    ensures undiagnosed { result.answer.status ≢ REFUSED
        → (result.fault ≡ no_fault) × (word.new ≡ word.old) }

    // The length of the sentence, as much of it as fits, and then what the buffer held before.
    ensures full_len { IfRefused (language_of kind) text.now result.answer (λ full.
        result.answer.sentence_len ≡ length full) }
    ensures front { IfRefused (language_of kind) text.now result.answer (λ full.
        sentence.new ≡ take result.answer.written full
        ++ drop result.answer.written sentence.old) }

    // The written part fits, ends between two characters, and no longer one does.
    ensures room { result.answer.written ≤ length sentence.old }
    ensures whole { IfRefused (language_of kind) text.now result.answer (λ full.
        IsCharBoundary full result.answer.written) }
    ensures most { IfRefused (language_of kind) text.now result.answer (λ full. (i : ℕ) →
        result.answer.written < i → i ≤ length sentence.old → ¬ (IsCharBoundary full i)) }

    // If nothing is refused, nothing is written.
    ensures kept { result.answer.status ≢ REFUSED → sentence.new ≡ sentence.old }
    ensures no_sentence { result.answer.status ≢ REFUSED
        → (result.answer.sentence_len ≡ 0) × (result.answer.written ≡ 0) }
{
    let answer = timefd_check(alloc, kind, text, sentence);
    if answer.status == REFUSED {
        Diagnosis {
            answer,
            fault: fault_in(alloc, from_number(kind), text, word),
        }
    } else {
        Diagnosis {
            answer,
            fault: FaultFields::none(),
        }
    }
}

// What there is to say of the fault that the bytes have in a language.
fn fault_in(alloc: Global, language: Option<Language>, bytes: &[u8], word: &mut [u8]) -> FaultFields
    ensures { (l : Language) → language ≡ Some l → (f : Fault) → HasFault (Some l) bytes.now f
        → IsDiagnosed l bytes.now f word.old word.new result }
{
    let Some(language) = language else {
        return FaultFields::none();
    };
    let Ok(text) = text_of(bytes) else {
        return FaultFields::none();
    };
    match amount_all_borrowed(alloc, language, NESTING_LIMIT, text) {
        Err(BorrowedParseError::Invalid(fault)) => {
            FaultFields::of(alloc, language, text, fault, word)
        }
        Err(BorrowedParseError::Memory(_)) | Ok(_) => FaultFields::none(),
    }
}
