//! What a string denotes.

ghost use Rattle.std.specs.Prelude.{◌≡◌, ◌≤◌, length, IfOk};
ghost use Rattle.timefd_lint_scan.specs.Keys.Strings as spec;
ghost use Rattle.timefd_lint_scan.specs.Keys.Strings.{seen_any};

use crate::Unescaped;
use crate::keys::escape::part_of;
use crate::keys::format::FileFormat;
use crate::keys::style::{StringStyle, closes, is_closed_by_end, is_quoted, style_of};
use crate::part::push_part;
use std::alloc::{AllocError, Global};

/// What a string denotes, and where.
#[derive(Drop)]
pub struct StringReading {
    /// Its bytes, and for each the position of what denotes it: its own, or the backslash of its escape.
    pub unescaped: Unescaped,
    /// The position of what closes the string: the quote, or what follows a string without quotes.
    pub closing: usize,
}

fn reported_as(text: Vec<u8>, positions: Vec<usize>, closing: usize) -> Option<StringReading>
    ensures { seen_any result ≡ spec.reported_as text.items positions.items closing }
{
    Some(StringReading {
        unescaped: Unescaped { text, positions },
        closing,
    })
}

/// The bytes that a string denotes, up to what closes it; `None` if nothing closes it, or if the format
/// doesn't allow what is in it. The text ends at the byte `end` of its source.
#[tactic(auto, using(crate::proofs::KeysLemmas::ReadingLemmas::at_first))]
fn read(
    alloc: Global,
    style: StringStyle,
    all: &[u8],
    end: usize,
) -> Result<Option<StringReading>, AllocError>
    requires { length all.now ≤ end }
    ensures { IfOk result (λ answer. seen_any answer ≡ spec.read_all style end all.now) }
{
    let mut text = Vec::new(alloc);
    let mut positions = Vec::new(alloc);
    let mut rest = all;
    'parts: while let [byte, after @ ..] = rest {
        let position = end - rest.len();
        if closes(style, *byte, after) {
            return Ok(reported_as(text, positions, position));
        }
        let Some(next) = part_of(style, *byte, after) else {
            return Ok(None);
        };
        push_part(&mut text, &mut positions, next.stands, position)?;
        rest = next.rest;
    }
    if is_closed_by_end(style) {
        return Ok(reported_as(text, positions, end));
    }
    Ok(None)
}

/// The string that a text begins with; `None` if it doesn't begin with one. The text ends at the byte
/// `end` of its source.
fn first_string(
    alloc: Global,
    format: FileFormat,
    text: &[u8],
    end: usize,
) -> Result<Option<StringReading>, AllocError>
    requires { length text.now ≤ end }
    ensures { IfOk result (λ answer. seen_any answer ≡ spec.first_string format end text.now) }
{
    let [byte, after @ ..] = text else {
        return Ok(None);
    };
    let Some(style) = style_of(format, *byte, after) else {
        return Ok(None);
    };
    if is_quoted(style) {
        read(alloc, style, after, end)
    } else {
        read(alloc, style, text, end)
    }
}

/// The string that begins at a position of a source; `None` if none does.
#[tactic(auto, using(crate::proofs::KeysLemmas::ReadingLemmas::beyond))]
pub fn string_at(
    alloc: Global,
    format: FileFormat,
    source: &[u8],
    start: usize,
) -> Result<Option<StringReading>, AllocError>
    ensures { IfOk result (λ answer. seen_any answer ≡ spec.string_at format source.now start) }
{
    if source.len() < start {
        return Ok(None);
    }
    first_string(alloc, format, &source[start..], source.len())
}
