//! The sentence of a fault, as it is shown.

ghost use Rattle.std.specs.Prelude.{◌≡◌, true, IfOk, string_bytes};
ghost use Rattle.timefd_lang_fault.specs.Faults.{fault_of};
ghost use Rattle.timefd_lang_fault.specs.Sentences.{sentence};
ghost use Rattle.timefd_lint_drawing.specs.Sentence as spec;

use crate::shown::{char_count, cut_end, safe_string};
use std::alloc::{AllocError, Global};
use timefd_lang_fault::InvalidFormatDescription;

// The most characters of a word that a sentence shows.
const MOST_OF_A_WORD: usize = 80;

// Room for most sentences.
const ROOM: usize = 96;

/// The sentence of the fault, where a long word is cut and no character is one that a terminal would obey. An
/// `Err` says that memory ran out.
pub fn shown_sentence(alloc: Global, fault: &InvalidFormatDescription) -> Result<String, AllocError>
    ensures { IfOk result (λ sentence. string_bytes sentence
        ≡ spec.shown_sentence (fault_of fault.now)) }
{
    if is_brief(fault) {
        let sentence = sentence_of(alloc, fault)?;
        return safe_string(alloc, sentence);
    }
    let fault = brief(alloc, fault)?;
    let sentence = sentence_of(alloc, &fault)?;
    safe_string(alloc, sentence)
}

fn sentence_of(alloc: Global, fault: &InvalidFormatDescription) -> Result<String, AllocError>
    ensures { IfOk result (λ text. string_bytes text ≡ sentence (fault_of fault.now)) }
{
    let mut text = String::with_capacity(alloc, ROOM)?;
    write!(text, "{fault}")?;
    Ok(text)
}

// Whether a sentence shows the whole word that is at fault.
fn is_brief(fault: &InvalidFormatDescription) -> bool
    ensures { result ≡ true → spec.brief (fault_of fault.now) ≡ fault_of fault.now }
{
    match fault {
        InvalidFormatDescription::InvalidComponentName { name, .. } => {
            char_count(name) <= MOST_OF_A_WORD
        }
        InvalidFormatDescription::InvalidModifier { value, .. } => {
            char_count(value) <= MOST_OF_A_WORD
        }
        InvalidFormatDescription::UnclosedOpeningBracket { .. }
        | InvalidFormatDescription::MissingComponentName { .. }
        | InvalidFormatDescription::MissingRequiredModifier { .. }
        | InvalidFormatDescription::Expected { .. }
        | InvalidFormatDescription::NotSupported { .. }
        | InvalidFormatDescription::DuplicateModifier { .. }
        | InvalidFormatDescription::InvalidModifierCombination { .. } => true,
    }
}

/// The sentence of a fault, which for a further fault also says what it was found without. An `Err` says that
/// memory ran out.
pub fn reported_sentence(
    alloc: Global,
    is_further: bool,
    fault: &InvalidFormatDescription,
) -> Result<String, AllocError>
    ensures { IfOk result (λ sentence. string_bytes sentence
        ≡ spec.reported_sentence is_further (fault_of fault.now)) }
{
    let sentence = shown_sentence(alloc, fault)?;
    if is_further {
        format!(in alloc; "{sentence} (with the errors before it left out)")
    } else {
        Ok(sentence)
    }
}

// The fault, with no more of a word than a sentence shows.
fn brief(
    alloc: Global,
    fault: &InvalidFormatDescription,
) -> Result<InvalidFormatDescription, AllocError>
    ensures { IfOk result (λ brief. fault_of brief ≡ spec.brief (fault_of fault.now)) }
{
    match fault {
        InvalidFormatDescription::InvalidComponentName { name, index } => Ok(
            InvalidFormatDescription::InvalidComponentName {
                name: cut_end(alloc, name, MOST_OF_A_WORD)?,
                index: *index,
            },
        ),
        InvalidFormatDescription::InvalidModifier { value, index } => Ok(
            InvalidFormatDescription::InvalidModifier {
                value: cut_end(alloc, value, MOST_OF_A_WORD)?,
                index: *index,
            },
        ),
        InvalidFormatDescription::UnclosedOpeningBracket { .. }
        | InvalidFormatDescription::MissingComponentName { .. }
        | InvalidFormatDescription::MissingRequiredModifier { .. }
        | InvalidFormatDescription::Expected { .. }
        | InvalidFormatDescription::NotSupported { .. }
        | InvalidFormatDescription::DuplicateModifier { .. }
        | InvalidFormatDescription::InvalidModifierCombination { .. } => fault.clone(alloc),
    }
}
