//! Finds the text of version 3 that is nearest to the text that is converted.

ghost use Rattle.std.specs.Prelude.{◌≡◌, ◌<◌, true, length, IfOk, IfSome, string_bytes};
ghost use Rattle.timefd_lint_rewrite.specs.Layouts.{IsNearer, ReadsAs};

use std::alloc::{AllocError, Global};
use timefd_lang_convert::{Conversion, normalize_v3};
use timefd_lift::{v1_to_v2_borrowed, v2_to_v3};
use timefd_parse::{BorrowedParseError, DescriptionVersion, Language, first_piece};

/// A text that has the items of `rewritten`, the converted text, but is nearer to the old text. `None` if there is
/// none. An `Err` says that memory ran out.
pub fn nearest_to(
    alloc: Global,
    conversion: Conversion,
    text: &str,
    rewritten: &str,
) -> Result<Option<String>, AllocError>
    ensures { IfOk result (λ found. IfSome found (λ answer.
        IsNearer conversion rewritten.now (string_bytes answer))) }
{
    match conversion {
        Conversion::OneToTwo => Ok(None),
        Conversion::OneToThree => match v1_to_v2_borrowed(alloc, text) {
            Ok(between) => pieces_like(alloc, &between, rewritten),
            Err(BorrowedParseError::Memory(error)) => Err(error),
            // A text that is converted has no fault.
            Err(BorrowedParseError::Invalid(_)) => Ok(None),
        },
        Conversion::TwoToThree => pieces_like(alloc, text, rewritten),
        Conversion::ThreeToThree => like(alloc, String::from_str(alloc, text)?, rewritten),
        Conversion::StrftimeToThree => Ok(None),
    }
}

// The pieces of a text of version 2, each as little changed as possible, if version 3 reads them like the
// converted text.
fn pieces_like(alloc: Global, text: &str, rewritten: &str) -> Result<Option<String>, AllocError>
    ensures { IfOk result (λ found. IfSome found (λ answer.
        ReadsAs rewritten.now (string_bytes answer))) }
{
    like(alloc, pieces_of(alloc, text)?, rewritten)
}

// The text, if version 3 reads it like the converted one.
fn like(alloc: Global, text: String, rewritten: &str) -> Result<Option<String>, AllocError>
    ensures { IfOk result (λ found. IfSome found (λ answer.
        ReadsAs rewritten.now (string_bytes answer))) }
{
    if reads_as(alloc, &text, rewritten)? {
        Ok(Some(text))
    } else {
        Ok(None)
    }
}

// Whether the normal form of `text` is `rewritten`.
fn reads_as(alloc: Global, text: &str, rewritten: &str) -> Result<bool, AllocError>
    ensures { IfOk result (λ same. same ≡ true → ReadsAs rewritten.now text.now) }
{
    match normalize_v3(alloc, text) {
        Ok(normal) => Ok(normal.as_str() == rewritten),
        Err(BorrowedParseError::Memory(error)) => Err(error),
        Err(BorrowedParseError::Invalid(_)) => Ok(false),
    }
}

// The pieces of a text of version 2, one after another, each in version 3.
fn pieces_of(alloc: Global, text: &str) -> Result<String, AllocError> {
    let mut answer = String::with_capacity(alloc, text.len())?;
    let mut rest = text;
    'pieces: while let Some((piece, after)) = first_of(alloc, rest) {
        push_piece(alloc, &mut answer, piece)?;
        rest = after;
    }
    Ok(answer)
}

// The first piece of a text of version 2, and what follows it.
fn first_of<'a>(alloc: Global, text: &'a str) -> Option<(&'a str, &'a str)>
    ensures { IfSome result (λ parts. length parts.1.now < length text.now) }
{
    let language = Language::Version(DescriptionVersion::Two);
    match first_piece(alloc, language, text) {
        Ok(first) => first,
        Err(_) => None,
    }
}

// Appends a piece of version 2 in version 3. A single closing bracket is escaped.
fn push_piece(alloc: Global, answer: &mut String, piece: &str) -> Result<(), AllocError> {
    match piece.as_bytes() {
        [b'[', ..] => answer.push_str(&bracket_of(alloc, piece)?),
        [b']', ..] => answer.push_str("\\]"),
        _ => answer.push_str(piece),
    }
}

// A bracket of version 2 in version 3: as it is, with its range, in small letters, or with both. It is
// written from the start if version 3 reads none of these as the same.
fn bracket_of(alloc: Global, bracket: &str) -> Result<String, AllocError> {
    match v2_to_v3(alloc, bracket) {
        Ok(rewritten) => match bracket_like(alloc, bracket, &rewritten)? {
            Some(found) => Ok(found),
            None => Ok(rewritten),
        },
        Err(BorrowedParseError::Memory(error)) => Err(error),
        Err(BorrowedParseError::Invalid(_)) => String::from_str(alloc, bracket),
    }
}

fn bracket_like(
    alloc: Global,
    bracket: &str,
    rewritten: &str,
) -> Result<Option<String>, AllocError> {
    match with_or_without_range(alloc, bracket, rewritten)? {
        Some(found) => Ok(Some(found)),
        None => {
            let small = bracket.to_ascii_lowercase(alloc)?;
            with_or_without_range(alloc, &small, rewritten)
        }
    }
}

fn with_or_without_range(
    alloc: Global,
    bracket: &str,
    rewritten: &str,
) -> Result<Option<String>, AllocError> {
    match like(alloc, String::from_str(alloc, bracket)?, rewritten)? {
        Some(found) => Ok(Some(found)),
        None => like(alloc, with_range(alloc, bracket)?, rewritten),
    }
}

// A bracket with the range that version 2 takes if none is given.
fn with_range(alloc: Global, bracket: &str) -> Result<String, AllocError> {
    let head = bracket.strip_suffix(']').unwrap_or(bracket);
    format!(in alloc; "{head} range:extended]")
}
