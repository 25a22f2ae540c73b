//! Writes the cure of one fault, if it may be written.

ghost use Rattle.std.specs.Prelude.{◌≡◌, IfOk, MatchOption, option_map, string_bytes};
ghost use Rattle.std.specs.Str.{IsCharBoundary};
ghost use Rattle.timefd_lint_rewrite.specs.Cures as spec;

use std::alloc::{AllocError, Global};
use timefd_lint_diagnosis::{Code, Diagnostic, Help};
use timefd_parse::Language;

/// Which fixes may be written against faults.
#[derive(Clone, Copy)]
pub enum Fixes {
    /// Only what is sure: a space before a nested description, a backslash before a `]`.
    Sure,
    /// Also guesses: the nearest word instead of an invalid one, and a second backslash or percent sign.
    All,
}

/// The text with the cure of its diagnostic written, or `None` if no cure may be written. An `Err` says that
/// memory ran out.
pub fn cured(
    alloc: Global,
    language: Language,
    fixes: Fixes,
    text: &str,
    diagnostic: &Diagnostic,
) -> Result<Option<String>, AllocError>
    requires { IsCharBoundary text.now diagnostic.now.span.start }
    ensures { IfOk result (λ found. MatchOption found
        (spec.IsIncurable language fixes text.now diagnostic.now)
        (λ after. spec.IsCured language fixes text.now diagnostic.now (string_bytes after))) }
{
    let span = diagnostic.span;
    match mark_for(language, fixes, diagnostic) {
        Some(mark) => edited(alloc, text, span.start, span.start, mark),
        None => match word_instead(fixes, diagnostic.help) {
            Some(word) => replaced(alloc, text, span.start, span.end, word),
            None => Ok(None),
        },
    }
}

// The mark that is written in front of the part at fault, if there is one.
fn mark_for(language: Language, fixes: Fixes, diagnostic: &Diagnostic) -> Option<&'static str>
    ensures { option_map (λ mark. mark.now) result ≡ spec.mark_for language fixes diagnostic.now }
{
    let span = diagnostic.span;
    if span.start < span.end {
        mark_before(language, fixes, diagnostic.code)
    } else {
        None
    }
}

// The mark that a fault needs in front of the part at fault.
fn mark_before(language: Language, fixes: Fixes, code: Code) -> Option<&'static str>
    ensures { option_map (λ mark. mark.now) result ≡ spec.mark_before language fixes code }
{
    match code {
        Code::MissingSpace => Some(" "),
        Code::UnescapedBracket => Some("\\"),
        Code::InvalidEscape => escape_mark(language, fixes),
        Code::UnclosedBracket
        | Code::UnknownName
        | Code::InvalidModifier
        | Code::MissingName
        | Code::MissingModifier
        | Code::MissingDescription
        | Code::MissingAlternative
        | Code::NestedTooDeep
        | Code::SeveralDescriptions
        | Code::OptionalItem
        | Code::FirstItem
        | Code::UnsupportedFlag
        | Code::UnsupportedLetter
        | Code::NestedInComponent
        | Code::DuplicateModifier
        | Code::RefusedModifier => None,
    }
}

// The mark that makes an escape of a byte that doesn't begin a valid one.
fn escape_mark(language: Language, fixes: Fixes) -> Option<&'static str>
    ensures { option_map (λ mark. mark.now) result ≡ spec.escape_mark language fixes }
{
    match (fixes, language) {
        (Fixes::Sure, _) => None,
        (Fixes::All, Language::Version(_)) => Some("\\"),
        (Fixes::All, Language::Strftime) => Some("%"),
    }
}

// The word that is written instead of an invalid one.
fn word_instead(fixes: Fixes, help: Help) -> Option<&'static str>
    ensures { option_map (λ word. word.now) result ≡ spec.word_instead fixes help }
{
    match fixes {
        Fixes::Sure => None,
        Fixes::All => help.nearest(),
    }
}

// The text with a word instead of the part at fault, or `None` if that can't be replaced or is already this
// word.
#[tactic(auto, using(crate::proofs::CureLemmas::same_edit))]
fn replaced(
    alloc: Global,
    text: &str,
    start: usize,
    end: usize,
    word: &str,
) -> Result<Option<String>, AllocError>
    requires { IsCharBoundary text.now start }
    ensures { IfOk result (λ found. MatchOption found (spec.IsNoEdit text.now start end word.now)
        (λ after. string_bytes after ≡ spec.edited text.now start end word.now)) }
{
    match edited(alloc, text, start, end, word) {
        Ok(Some(after)) => {
            if after.as_str() == text {
                return Ok(None);
            }
            Ok(Some(after))
        }
        Ok(None) => Ok(None),
        Err(error) => Err(error),
    }
}

// The text with a word instead of the bytes between two indices, or `None` if the second index is inside of a
// character.
fn edited(
    alloc: Global,
    text: &str,
    start: usize,
    end: usize,
    word: &str,
) -> Result<Option<String>, AllocError>
    requires { IsCharBoundary text.now start }
    ensures { IfOk result (λ found. MatchOption found (¬ IsCharBoundary text.now end)
        (λ after. string_bytes after ≡ spec.edited text.now start end word.now)) }
{
    let Some((_, back)) = text.split_at_checked(end) else {
        return Ok(None);
    };
    let (front, _) = text.split_at(start);
    Ok(Some(format!(in alloc; "{front}{word}{back}")?))
}
