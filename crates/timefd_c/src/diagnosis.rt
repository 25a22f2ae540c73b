//! The answer to C with all that there is to say of a fault.

ghost use Rattle.std.specs.Prelude.{◌≡◌, option_map};
ghost use Rattle.timefd_parse.specs.BorrowedFaults.{to_borrowed_fault};
ghost use Rattle.timefd_parse.specs.Placed.{IsPlaced};
ghost use Rattle.timefd_language.specs.Spans.{IsSpanned};
ghost use Rattle.timefd_c.specs.Diagnoses as spec;
ghost use Rattle.timefd_c.specs.Diagnoses.{IsDiagnosed, IsWordReported, no_fault};

use crate::answer::TextAnswer;
use crate::whole::write_whole;
use std::alloc::Global;
use timefd_lint_diagnosis::{Code, help_against};
use timefd_parse::{BorrowedFault, Language};

/// What there is to say of a fault, besides its sentence. All of it is 0 if the text is not
/// refused.
#[repr(C)]
#[derive(Debug, Clone, Copy, PartialEq, Eq)]
pub struct FaultFields {
    /// The number of the fault's code.
    pub code: u32,
    /// Whether memory ran out during the search for the nearest word. Then there is none here.
    pub out_of_memory: bool,
    /// The index of the first byte at fault, which is the index of the fault itself.
    pub start: usize,
    /// The index after the last byte at fault.
    pub end: usize,
    /// How many bytes the nearest allowed word has, or 0 if none is near.
    pub nearest_len: usize,
    /// How many bytes of the word were written: all, or none.
    pub nearest_written: usize,
}

/// The answer about a text, with all that there is to say of its fault.
#[repr(C)]
#[derive(Debug, Clone, Copy, PartialEq, Eq)]
pub struct Diagnosis {
    /// What `timefd_check` returns.
    pub answer: TextAnswer,
    /// What else there is to say of the fault.
    pub fault: FaultFields,
}

// `examples/timefd.h` declares them with these sizes.
const _: () = prove!(size_of::<FaultFields>() == 40);

const _: () = prove!(size_of::<Diagnosis>() == 72);

const _: () = prove!(align_of::<Diagnosis>() == 8);

impl FaultFields {
    /// The fields if there is no fault.
    pub(crate) fn none() -> FaultFields
        ensures { result ≡ no_fault }
    {
        FaultFields {
            code: 0,
            out_of_memory: false,
            start: 0,
            end: 0,
            nearest_len: 0,
            nearest_written: 0,
        }
    }

    /// The fields for a fault of a text. The nearest word is written to the buffer if all of it
    /// fits.
    pub(crate) fn of(
        alloc: Global,
        language: Language,
        text: &str,
        fault: BorrowedFault<'_>,
        word: &mut [u8],
    ) -> FaultFields
        requires position { IsPlaced text.now (to_borrowed_fault fault) }
        requires span { IsSpanned language text.now fault }
        ensures { IsDiagnosed language text.now (to_borrowed_fault fault.entry) word.old word.new result }
    {
        let code = code_number(Code::of(fault.rule));
        match help_against(alloc, language, text, fault) {
            Ok(help) => {
                let (nearest_len, nearest_written) = write_word(help.nearest(), word);
                FaultFields {
                    code,
                    out_of_memory: false,
                    start: fault.start,
                    end: fault.end,
                    nearest_len,
                    nearest_written,
                }
            }
            Err(_) => FaultFields {
                code,
                out_of_memory: true,
                start: fault.start,
                end: fault.end,
                nearest_len: 0,
                nearest_written: 0,
            },
        }
    }
}

/// Writes the word to the front of the buffer, if there is a word and all of it fits. It returns
/// how many bytes the word has, and how many were written.
fn write_word(word: Option<&'static str>, buffer: &mut [u8]) -> (usize, usize)
    ensures { IsWordReported (option_map (λ w. w.now) word.entry) buffer.old buffer.new result.0 result.1 }
{
    match word {
        Some(word) => (word.len(), write_whole(word, buffer)),
        None => (0, 0),
    }
}

/// The number of a code in `examples/timefd.h`.
fn code_number(code: Code) -> u32
    ensures { result ≡ spec.code_number code }
{
    match code {
        Code::UnclosedBracket => 1,
        Code::UnknownName => 2,
        Code::InvalidModifier => 3,
        Code::MissingName => 4,
        Code::MissingModifier => 5,
        Code::InvalidEscape => 6,
        Code::UnescapedBracket => 7,
        Code::MissingSpace => 8,
        Code::MissingDescription => 9,
        Code::MissingAlternative => 10,
        Code::NestedTooDeep => 11,
        Code::SeveralDescriptions => 12,
        Code::OptionalItem => 13,
        Code::FirstItem => 14,
        Code::UnsupportedFlag => 15,
        Code::UnsupportedLetter => 16,
        Code::NestedInComponent => 17,
        Code::DuplicateModifier => 18,
        Code::RefusedModifier => 19,
    }
}
