//! The literal that a description would become.

ghost use Rattle.std.specs.Prelude.{◌≡◌, ◌⊎◌, IfOk, IsUtf8, [], string_bytes};
ghost use Rattle.timefd_lint.specs.Manual.Literals as spec;

use std::alloc::{AllocError, Global};
use std::str;
use timefd_lint_scan::{SourceDescription, body_alike, body_end, inside};

/// A literal that denotes this text: of the description's kind and between its quotes, or else one with
/// escapes. An `Err` says that memory ran out.
pub fn literal_of(
    alloc: Global,
    source: &str,
    description: &SourceDescription,
    text: &str,
) -> Result<String, AllocError>
    ensures { IfOk result (λ literal. spec.IsLiteralOf source.now description.now text.now
        (string_bytes literal)) }
{
    match body_alike(alloc, source, description, text.as_bytes())? {
        Some(body) => quoted(alloc, source, description, &body),
        None => escaped(alloc, text),
    }
}

fn escaped(alloc: Global, text: &str) -> Result<String, AllocError>
    ensures { IfOk result (λ literal. spec.IsEscaped text.now (string_bytes literal)) }
{
    format!(in alloc; "{text:?}")
}

// The literal as it is spelled in the source, with another body.
fn quoted(
    alloc: Global,
    source: &str,
    description: &SourceDescription,
    body: &[u8],
) -> Result<String, AllocError>
    ensures { IfOk result (λ literal. spec.IsQuoted source.now description.now body.now
        (string_bytes literal)) }
{
    let end = body_end(description.piece, description.kind);
    let body_start = end.saturating_sub(old_length(source, description));
    let opening = part(source, description.piece.start, body_start);
    let body = text_of(body);
    let closing = part(source, end, description.piece.end);
    format!(in alloc; "{opening}{body}{closing}")
}

// How many bytes are between the quotes of a description's literal.
fn old_length(source: &str, description: &SourceDescription) -> usize
    ensures { result ≡ spec.old_length source.now description.now }
{
    match inside(source, description.piece, description.kind) {
        Some(old) => old.len(),
        None => 0,
    }
}

// What is between two positions of a source. It is empty if one of them is inside of a character.
fn part(source: &str, from: usize, to: usize) -> &str
    ensures { spec.IsPart source.now from to result.now }
{
    source.get(from..to).unwrap_or("")
}

// The bytes as a text. It is empty if they aren't one.
fn text_of(bytes: &[u8]) -> &str
    ensures { spec.IsTextOf bytes.now result.now }
{
    str::from_utf8(bytes).unwrap_or("")
}
