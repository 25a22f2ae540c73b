//! Converts a text from one language to another.

ghost use Rattle.std.specs.Prelude.{◌≡◌, [], IfOk, IsOk, MatchResult, length, string_bytes};
ghost use Rattle.std.specs.Result.{IfErr};
ghost use Rattle.timefd_language.specs.Spans.{HasSpan};
ghost use Rattle.timefd_lang_fault.specs.BorrowedFaults.{HasShortFault, IsBorrowed, IsBorrowedOf, IsMemory};
ghost use Rattle.timefd_lang_fault.specs.Placed.{IsPlaced};
ghost use Rattle.timefd_lang_component.specs.Tree.{Text};
ghost use Rattle.timefd_lang_convert.specs.Conversions.{Converts, ConvertsIf, FitsIn, IsConversion, KeepsItems, conversion_between, language_of};
ghost use Rattle.timefd_lang_fault.specs.Faults as spec;
ghost use Rattle.timefd_language.specs.Grammar.{nesting_limit};
ghost use Rattle.timefd_parse.specs.Language.{FaultIn};

use crate::conversion::{Conversion, conversion_between};
use crate::from_one::v1_to_v3;
use crate::normal::normalize_v3;
use crate::strftime::strftime_to_v3;
use std::alloc::Global;
use timefd_lift::{v1_to_v2_borrowed, v2_to_v3};
use timefd_parse::{BorrowedParseError, Language, ParseError};

/// Why a text was not converted.
#[derive(Debug, Drop)]
pub enum ConvertError {
    /// There is no conversion between these languages, whatever the text is.
    Unsupported,
    /// The text is not a description in the language that it is converted from, or memory ran out.
    Unconverted(ParseError),
}

/// Converts a text from one language to another: from version 1 to versions 2 and 3, from version 2
/// and from strftime to version 3, and from version 3 to its normal form.
///
/// The error is `Unsupported` if there is no conversion between the two, and otherwise that of
/// `convert_by`. This call is this port's own.
pub fn convert(
    alloc: Global,
    from: Language,
    to: Language,
    text: &str,
) -> Result<String, ConvertError>
    ensures { ConvertsIf (conversion_between from to) text.now result }
{
    match conversion_between(from, to) {
        Some(conversion) => match converted(alloc, conversion, text) {
            Ok(answer) => Ok(answer),
            Err(error) => Err(ConvertError::Unconverted(error)),
        },
        None => Err(ConvertError::Unsupported),
    }
}

/// Converts a text as `convert_by` does, with an error that owns what it quotes.
fn converted(alloc: Global, conversion: Conversion, text: &str) -> Result<String, ParseError>
    ensures { Converts conversion text.now result }
{
    match convert_by(alloc, conversion, text) {
        Ok(answer) => Ok(answer),
        Err(error) => Err(error.into_owned(alloc)),
    }
}

/// Converts a text by this conversion, as `v1_to_v2`, `v1_to_v3`, `v2_to_v3`, `normalize_v3` or
/// `strftime_to_v3` does.
///
/// The error is `Invalid` with the fault of the text, or `Memory` if memory ran out. A text that has a
/// fault is refused for it even then. This call is this port's own.
#[tactic(auto, using(crate::proofs::ConvertLemmas::one_to_two, crate::proofs::ConvertLemmas::one_to_three, crate::proofs::ConvertLemmas::two_to_three, crate::proofs::ConvertLemmas::three_to_three, crate::proofs::ConvertLemmas::strftime_to_three))]
pub fn convert_by(
    alloc: Global,
    conversion: Conversion,
    text: &str,
) -> Result<String, BorrowedParseError<'_>>
    // The result is the converted text, which has the same items. A text that is refused is refused
    // for the fault that the rules of its language assign.
    ensures converted { IfOk result (λ answer. IsConversion conversion text.now
        (string_bytes answer)) }
    ensures same_items { IfOk result (λ answer. KeepsItems conversion text.now
        (string_bytes answer)) }
    ensures fault { IfErr result
        (IsBorrowedOf (FaultIn (language_of conversion) nesting_limit text.now)) }

    // A description is converted unless memory runs out, and a text with a fault is refused for it.
    ensures described { (answer : Text) → IsConversion conversion text.now answer
        → MatchResult result (λ other. string_bytes other ≡ answer) IsMemory }
    ensures refused { (f : spec.Fault) → FaultIn (language_of conversion) nesting_limit text.now f
        → MatchResult result (λ _. ⊥) (IsBorrowed f) }

    // The fault's index lies in the text or at its end, between two characters. The words that it
    // quotes are short, so that its sentence can be written.
    ensures position { IfErr result (IsBorrowedOf (IsPlaced text.now)) }
    ensures words { IfErr result HasShortFault }

    // The fault ends after the name, the key, the value or the character at fault.
    ensures span { IfErr result (HasSpan (language_of conversion) text.now) }

    // The greatest length of the result.
    ensures within { IfOk result (λ answer. FitsIn conversion (length text.now)
        (length (string_bytes answer))) }

    // The empty text takes no memory.
    ensures empty { text.now ≡ [] → IsOk result }
{
    match conversion {
        Conversion::OneToTwo => v1_to_v2_borrowed(alloc, text),
        Conversion::OneToThree => v1_to_v3(alloc, text),
        Conversion::TwoToThree => v2_to_v3(alloc, text),
        Conversion::ThreeToThree => normalize_v3(alloc, text),
        Conversion::StrftimeToThree => strftime_to_v3(alloc, text),
    }
}
