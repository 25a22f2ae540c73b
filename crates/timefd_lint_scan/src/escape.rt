//! Parts of a literal's body: plain bytes, and escapes.

ghost use Rattle.std.specs.Prelude.{◌≡◌, ◌≤◌, ◌<◌, length, MatchOption, Option, ⊤};
ghost use Rattle.timefd_lint_scan.specs.Escapes as spec;
ghost use Rattle.timefd_lint_scan.specs.Escapes.{parted, parted_any};

use crate::class::{ByteSet, after_run};
use crate::number::{hex_digit, next_value};
use crate::part::{Stands, StringPart, character};
use crate::token::{Encoding, LiteralKind};

fn letter(byte: u8) -> Option<u8>
    ensures { result ≡ spec.letter byte }
{
    match byte {
        b'n' => Some(b'\n'),
        b'r' => Some(b'\r'),
        b't' => Some(b'\t'),
        b'\\' => Some(b'\\'),
        b'0' => Some(0),
        b'\'' => Some(b'\''),
        b'"' => Some(b'"'),
        _ => None,
    }
}

fn is_allowed(encoding: Encoding, value: u8) -> bool
    ensures { result ≡ spec.is_allowed encoding value }
{
    match encoding {
        Encoding::Str => value < 128,
        Encoding::Bytes | Encoding::C => true,
    }
}

fn byte_value(encoding: Encoding, value: u8, rest: &[u8]) -> Option<StringPart<'_>>
    ensures part { parted_any result ≡ spec.byte_value encoding value rest.now }
    ensures within { MatchOption result ⊤ (λ part. length part.rest.now ≤ length rest.now) }
{
    if is_allowed(encoding, value) {
        Some(StringPart {
            stands: Stands::Byte(value),
            rest,
        })
    } else {
        None
    }
}

fn low_by(encoding: Encoding, high: u8, rest: &[u8], low: Option<u8>) -> Option<StringPart<'_>>
    requires high { high < 16 }
    requires low { MatchOption low ⊤ (λ low. low < 16) }
    ensures part { parted_any result ≡ spec.low_by encoding high rest.now low }
    ensures within { MatchOption result ⊤ (λ part. length part.rest.now ≤ length rest.now) }
{
    match low {
        Some(low) => byte_value(encoding, high * 16 + low, rest),
        None => None,
    }
}

fn low_digit(encoding: Encoding, high: u8, text: &[u8]) -> Option<StringPart<'_>>
    requires { high < 16 }
    ensures part { parted_any result ≡ spec.low_digit encoding high text.now }
    ensures within { MatchOption result ⊤ (λ part. length part.rest.now ≤ length text.now) }
{
    match text {
        [] => None,
        [byte, after @ ..] => low_by(encoding, high, after, hex_digit(*byte)),
    }
}

fn high_by(encoding: Encoding, rest: &[u8], high: Option<u8>) -> Option<StringPart<'_>>
    requires { MatchOption high ⊤ (λ high. high < 16) }
    ensures part { parted_any result ≡ spec.high_by encoding rest.now high }
    ensures within { MatchOption result ⊤ (λ part. length part.rest.now ≤ length rest.now) }
{
    match high {
        Some(high) => low_digit(encoding, high, rest),
        None => None,
    }
}

fn byte_of(encoding: Encoding, text: &[u8]) -> Option<StringPart<'_>>
    ensures part { parted_any result ≡ spec.byte_of encoding text.now }
    ensures within { MatchOption result ⊤ (λ part. length part.rest.now ≤ length text.now) }
{
    match text {
        [] => None,
        [byte, after @ ..] => high_by(encoding, after, hex_digit(*byte)),
    }
}

fn digits(first: Option<u32>, text: &[u8]) -> Option<StringPart<'_>>
    requires { MatchOption first ⊤ (λ value. value ≤ 1114111) }
    ensures part { parted_any result ≡ spec.digits first text.now }
    ensures within { MatchOption result ⊤ (λ part. length part.rest.now ≤ length text.now) }
{
    let mut value = first;
    let mut rest = text;
    'bytes: while let [byte, after @ ..] = rest {
        if *byte == b'}' {
            return character(after, value);
        }
        if *byte != b'_' {
            value = next_value(value, hex_digit(*byte));
        }
        rest = after;
    }
    None
}

fn first_value(digit: Option<u8>) -> Option<u32>
    requires { MatchOption digit ⊤ (λ digit. digit < 16) }
    ensures value { result ≡ digit }
    ensures small { MatchOption result ⊤ (λ value. value ≤ 1114111) }
{
    match digit {
        Some(digit) => Some(u32::from(digit)),
        None => None,
    }
}

fn first_digit(text: &[u8]) -> Option<StringPart<'_>>
    ensures part { parted_any result ≡ spec.first_digit text.now }
    ensures within { MatchOption result ⊤ (λ part. length part.rest.now ≤ length text.now) }
{
    match text {
        [] => None,
        [byte, after @ ..] => digits(first_value(hex_digit(*byte)), after),
    }
}

fn scalar_of(text: &[u8]) -> Option<StringPart<'_>>
    ensures part { parted_any result ≡ spec.scalar_of text.now }
    ensures within { MatchOption result ⊤ (λ part. length part.rest.now ≤ length text.now) }
{
    match text {
        [b'{', after @ ..] => first_digit(after),
        _ => None,
    }
}

fn is_of_bytes(encoding: Encoding) -> bool
    ensures { result ≡ spec.is_of_bytes encoding }
{
    match encoding {
        Encoding::Bytes => true,
        Encoding::Str | Encoding::C => false,
    }
}

fn begins_line_feed(text: &[u8]) -> bool
    ensures { result ≡ spec.begins_line_feed text.now }
{
    match text {
        [b'\n', ..] => true,
        _ => false,
    }
}

fn ends_line(byte: u8, after: &[u8]) -> bool
    ensures { result ≡ spec.ends_line byte after.now }
{
    byte == b'\n' || byte == b'\r' && begins_line_feed(after)
}

fn escape_by(
    encoding: Encoding,
    byte: u8,
    after: &[u8],
    letter: Option<u8>,
) -> Option<StringPart<'_>>
    ensures part { parted_any result ≡ spec.escape_by encoding byte after.now letter }
    ensures within { MatchOption result ⊤ (λ part. length part.rest.now ≤ length after.now) }
{
    if let Some(c) = letter {
        return Some(StringPart {
            stands: Stands::Byte(c),
            rest: after,
        });
    }
    if byte == b'x' {
        return byte_of(encoding, after);
    }
    if byte == b'u' && !is_of_bytes(encoding) {
        return scalar_of(after);
    }
    if ends_line(byte, after) {
        return Some(StringPart {
            stands: Stands::Nothing,
            rest: after_run(ByteSet::Skipped, after),
        });
    }
    None
}

fn escape(encoding: Encoding, text: &[u8]) -> Option<StringPart<'_>>
    ensures part { parted_any result ≡ spec.escape encoding text.now }
    ensures within { MatchOption result ⊤ (λ part. length part.rest.now ≤ length text.now) }
{
    match text {
        [] => None,
        [byte, after @ ..] => escape_by(encoding, *byte, after, letter(*byte)),
    }
}

fn itself(byte: u8, after: &[u8]) -> StringPart<'_>
    ensures part { parted result ≡ spec.itself byte after.now }
    ensures within { length result.rest.now ≤ length after.now }
{
    if byte == b'\r' && begins_line_feed(after) {
        StringPart {
            stands: Stands::Nothing,
            rest: after,
        }
    } else {
        StringPart {
            stands: Stands::Byte(byte),
            rest: after,
        }
    }
}

/// The part of a body that begins with this byte; `None` if it is an invalid escape.
pub fn part_of(kind: LiteralKind, byte: u8, after: &[u8]) -> Option<StringPart<'_>>
    ensures part { parted_any result ≡ spec.part_of kind byte after.now }
    ensures within { MatchOption result ⊤ (λ part. length part.rest.now ≤ length after.now) }
{
    match kind {
        LiteralKind::Escaped(encoding) => {
            if byte == b'\\' {
                escape(encoding, after)
            } else {
                Some(itself(byte, after))
            }
        }
        LiteralKind::Raw(_, _) => Some(itself(byte, after)),
    }
}
