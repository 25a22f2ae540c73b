//! Parts of a string: plain bytes, and escapes.

ghost use Rattle.std.specs.Prelude.{◌≡◌, ◌≤◌, length, MatchOption, ⊤};
ghost use Rattle.timefd_lint_scan.specs.Keys.Escapes as spec;
ghost use Rattle.timefd_lint_scan.specs.Escapes.{parted, parted_any};

use crate::class::is_blank;
use crate::keys::bytes::begins_space;
use crate::keys::letter::{digit_count, letter};
use crate::keys::scalar::numeric;
use crate::keys::style::StringStyle;
use crate::part::{Stands, StringPart, char_part};

// The control character after the letters of ASCII.
const DELETE: u8 = b'\x7f';

fn escape_by(
    style: StringStyle,
    byte: u8,
    after: &[u8],
    letter: Option<char>,
) -> Option<StringPart<'_>>
    ensures part { parted_any result ≡ spec.escape_by style byte after.now letter }
    ensures within { MatchOption result ⊤ (λ part. length part.rest.now ≤ length after.now) }
{
    match letter {
        Some(c) => char_part(after, Some(c)),
        None => numeric(style, digit_count(style, byte), after),
    }
}

fn escape(style: StringStyle, text: &[u8]) -> Option<StringPart<'_>>
    ensures part { parted_any result ≡ spec.escape style text.now }
    ensures within { MatchOption result ⊤ (λ part. length part.rest.now ≤ length text.now) }
{
    match text {
        [] => None,
        [byte, after @ ..] => escape_by(style, *byte, after, letter(style, *byte)),
    }
}

fn itself(byte: u8, rest: &[u8]) -> StringPart<'_>
    ensures part { parted result ≡ spec.itself byte rest.now }
    ensures within { length result.rest.now ≤ length rest.now }
{
    StringPart {
        stands: Stands::Byte(byte),
        rest,
    }
}

fn is_refused(style: StringStyle, byte: u8) -> bool
    ensures { result ≡ spec.is_refused style byte }
{
    match style {
        StringStyle::Json => byte < b' ',
        StringStyle::Basic | StringStyle::Literal => byte < b' ' && byte != b'\t' || byte == DELETE,
        StringStyle::Double | StringStyle::Single | StringStyle::Plain => byte < b' '
            && byte != b'\t',
    }
}

fn second_apostrophe(text: &[u8]) -> Option<StringPart<'_>>
    ensures part { parted_any result ≡ spec.second_apostrophe text.now }
    ensures within { MatchOption result ⊤ (λ part. length part.rest.now ≤ length text.now) }
{
    match text {
        [b'\'', after @ ..] => Some(itself(b'\'', after)),
        _ => None,
    }
}

fn breaks_plain(byte: u8, after: &[u8]) -> bool
    ensures { result ≡ spec.breaks_plain byte after.now }
{
    (byte == b':' || is_blank(byte)) && begins_space(after)
}

fn escaped_or(style: StringStyle, byte: u8, after: &[u8]) -> Option<StringPart<'_>>
    ensures part { parted_any result ≡ spec.escaped_or style byte after.now }
    ensures within { MatchOption result ⊤ (λ part. length part.rest.now ≤ length after.now) }
{
    if byte == b'\\' {
        escape(style, after)
    } else {
        Some(itself(byte, after))
    }
}

fn part_by(style: StringStyle, byte: u8, after: &[u8]) -> Option<StringPart<'_>>
    ensures part { parted_any result ≡ spec.part_by style byte after.now }
    ensures within { MatchOption result ⊤ (λ part. length part.rest.now ≤ length after.now) }
{
    match style {
        StringStyle::Json | StringStyle::Basic | StringStyle::Double => escaped_or(
            style, byte, after,
        ),
        StringStyle::Literal => Some(itself(byte, after)),
        StringStyle::Single if byte == b'\'' => second_apostrophe(after),
        StringStyle::Plain if breaks_plain(byte, after) => None,
        StringStyle::Single | StringStyle::Plain => Some(itself(byte, after)),
    }
}

/// The part of a string that begins with this byte; `None` if the format doesn't allow it.
pub fn part_of(style: StringStyle, byte: u8, after: &[u8]) -> Option<StringPart<'_>>
    ensures part { parted_any result ≡ spec.part_of style byte after.now }
    ensures within { MatchOption result ⊤ (λ part. length part.rest.now ≤ length after.now) }
{
    if is_refused(style, byte) {
        None
    } else {
        part_by(style, byte, after)
    }
}
