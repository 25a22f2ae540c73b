//! Escapes that give a code point.

ghost use Rattle.std.specs.Prelude.{◌≡◌, ◌≤◌, length, MatchOption, Some, IsTrue, ⊤};
ghost use Rattle.timefd_lint_scan.specs.Keys.Escapes.{numbered, numbered_any};
ghost use Rattle.timefd_lint_scan.specs.Keys.Escapes as spec;
ghost use Rattle.timefd_lint_scan.specs.Escapes.{parted_any};

use crate::keys::number::{ReadNumber, number_of};
use crate::keys::style::StringStyle;
use crate::part::{StringPart, character};

fn is_first_half(value: u32) -> bool
    ensures { result ≡ spec.is_first_half value }
{
    55296 <= value && value <= 56319
}

fn is_second_half(value: u32) -> bool
    ensures { result ≡ spec.is_second_half value }
{
    56320 <= value && value <= 57343
}

fn joined(first: u32, second: u32) -> u32
    requires first { IsTrue (spec.is_first_half first) }
    requires second { IsTrue (spec.is_second_half second) }
    ensures { result ≡ spec.joined first second }
{
    65536 + (first - 55296) * 1024 + (second - 56320)
}

fn after_letter(text: &[u8]) -> Option<ReadNumber<'_>>
    ensures number { numbered_any result ≡ spec.after_letter text.now }
    ensures within { MatchOption result ⊤ (λ number. length number.rest.now ≤ length text.now) }
{
    match text {
        [b'u', after @ ..] => number_of(4, after),
        _ => None,
    }
}

fn second_half(text: &[u8]) -> Option<ReadNumber<'_>>
    ensures number { numbered_any result ≡ spec.second_half text.now }
    ensures within { MatchOption result ⊤ (λ number. length number.rest.now ≤ length text.now) }
{
    match text {
        [b'\\', after @ ..] => after_letter(after),
        _ => None,
    }
}

// The character of two surrogate halves.
fn paired(first: u32, second: ReadNumber<'_>) -> Option<StringPart<'_>>
    requires { IsTrue (spec.is_first_half first) }
    ensures part { parted_any result ≡ spec.pair first (Some (numbered second.entry)) }
    ensures within { MatchOption result ⊤ (λ part. length part.rest.now ≤ length second.entry.rest.now) }
{
    if is_second_half(second.value) {
        character(second.rest, Some(joined(first, second.value)))
    } else {
        None
    }
}

fn pair(first: u32, text: &[u8]) -> Option<StringPart<'_>>
    requires { IsTrue (spec.is_first_half first) }
    ensures part { parted_any result ≡ spec.pair first (spec.second_half text.now) }
    ensures within { MatchOption result ⊤ (λ part. length part.rest.now ≤ length text.now) }
{
    match second_half(text) {
        Some(second) => paired(first, second),
        None => None,
    }
}

fn joins_halves(style: StringStyle) -> bool
    ensures { result ≡ spec.joins_halves style }
{
    match style {
        StringStyle::Json => true,
        StringStyle::Basic
        | StringStyle::Literal
        | StringStyle::Double
        | StringStyle::Single
        | StringStyle::Plain => false,
    }
}

fn scalar_part(style: StringStyle, number: ReadNumber<'_>) -> Option<StringPart<'_>>
    ensures part { parted_any result ≡ spec.scalar_part style (Some (numbered number.entry)) }
    ensures within { MatchOption result ⊤ (λ part. length part.rest.now ≤ length number.entry.rest.now) }
{
    if joins_halves(style) && is_first_half(number.value) {
        pair(number.value, number.rest)
    } else {
        character(number.rest, Some(number.value))
    }
}

/// The character of an escape with `count` digits. The text begins after the escape's letter.
pub fn numeric(style: StringStyle, count: usize, text: &[u8]) -> Option<StringPart<'_>>
    ensures part { parted_any result ≡ spec.numeric style count text.now }
    ensures within { MatchOption result ⊤ (λ part. length part.rest.now ≤ length text.now) }
{
    if count == 0 {
        return None;
    }
    match number_of(count, text) {
        Some(number) => scalar_part(style, number),
        None => None,
    }
}
