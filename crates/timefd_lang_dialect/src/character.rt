//! Characters and literals.

ghost use Rattle.std.specs.Prelude.{◌≡◌, ◌≤◌, ◌<◌, ◌+◌, ◌++◌, [], MatchOption, OnOk, length, take, drop, string_bytes};
ghost use Rattle.std.specs.List.{prefix_len};
ghost use Rattle.std.specs.Str.{IsUtf8};
ghost use Rattle.timefd_lang_dialect.specs.QuoteSteps.{IsFirst};
ghost use Rattle.timefd_lang_dialect.specs.Quotes as spec;
ghost use Rattle.timefd_language.specs.Bytes.{is_special};

use std::alloc::AllocError;

/// The first character and the rest, if there is one.
pub fn first_char(text: &str) -> Option<(&str, &str)>
    ensures { MatchOption result (text.now ≡ []) (λ x. IsFirst text.now x.0.now x.1.now) }
{
    if text.is_empty() {
        None
    } else {
        Some(split_first(text))
    }
}

/// The first character and the rest.
fn split_first(text: &str) -> (&str, &str)
    requires { 0 < length text.now }
    ensures { IsFirst text.now result.0.now result.1.now }
{
    text.split_at(char_len(text.as_bytes()))
}

/// How many bytes the first character has.
fn char_len(bytes: &[u8]) -> usize
    ensures { result ≡ spec.char_len bytes.now }
{
    match bytes {
        [] => 0,
        [_, rest @ ..] => 1 + continuing(rest),
    }
}

/// How many bytes at the front continue a character.
fn continuing(bytes: &[u8]) -> usize
    ensures len { result ≡ prefix_len spec.continues bytes.now }
    ensures within { result ≤ length bytes.now }
{
    for (at, byte) in bytes.iter().enumerate() {
        if !continues(*byte) {
            return at;
        }
    }
    bytes.len()
}

fn continues(byte: u8) -> bool
    ensures { result ≡ spec.continues byte }
{
    128 <= byte && byte < 192
}

/// Appends a literal: a `[`, a `]` and a backslash get a backslash in front.
pub fn push_literal(answer: &mut String, literal: &str) -> Result<(), AllocError>
    ensures { OnOk result (string_bytes answer.new ≡ string_bytes answer.old ++ spec.escaped
        literal.now) }
{
    let mut rest = literal;
    'characters: while let Some((front, after)) = first_char(rest) {
        push_char(answer, front)?;
        rest = after;
    }
    Ok(())
}

/// Appends a character of a literal.
pub fn push_char(answer: &mut String, character: &str) -> Result<(), AllocError>
    requires { spec.IsCharacter character.now }
    ensures { OnOk result (string_bytes answer.new ≡ string_bytes answer.old ++ spec.escaped
        character.now) }
{
    answer.push_str(mark(character))?;
    answer.push_str(character)
}

/// What version 3 wants in front of a character of a literal.
#[tactic(auto, using(crate::proofs::CharacterLemmas::escaped_special, crate::proofs::CharacterLemmas::escaped_plain))]
fn mark(character: &str) -> &'static str
    requires { spec.IsCharacter character.now }
    ensures { spec.escaped character.now ≡ result.now ++ character.now }
{
    match character.as_bytes() {
        [b'[', ..] => "\\",
        [b']', ..] => "\\",
        [b'\\', ..] => "\\",
        _ => "",
    }
}
