//! Letters after a backslash.

ghost use Rattle.std.specs.Prelude.{◌≡◌};
ghost use Rattle.timefd_lint_scan.specs.Keys.Escapes as spec;

use crate::keys::style::StringStyle;

fn common_letter(byte: u8) -> Option<char>
    ensures { result ≡ spec.common_letter byte }
{
    match byte {
        b'"' => Some('"'),
        b'\\' => Some('\\'),
        b'b' => Some('\u{8}'),
        b'f' => Some('\u{c}'),
        b'n' => Some('\n'),
        b'r' => Some('\r'),
        b't' => Some('\t'),
        _ => None,
    }
}

fn json_letter(byte: u8) -> Option<char>
    ensures { result ≡ spec.json_letter byte }
{
    if byte == b'/' {
        Some('/')
    } else {
        common_letter(byte)
    }
}

fn toml_letter(byte: u8) -> Option<char>
    ensures { result ≡ spec.toml_letter byte }
{
    if byte == b'e' {
        Some('\u{1b}')
    } else {
        common_letter(byte)
    }
}

fn wide_letter(byte: u8) -> Option<char>
    ensures { result ≡ spec.wide_letter byte }
{
    match byte {
        b'N' => Some('\u{85}'),
        b'_' => Some('\u{a0}'),
        b'L' => Some('\u{2028}'),
        b'P' => Some('\u{2029}'),
        _ => None,
    }
}

fn yaml_letter(byte: u8) -> Option<char>
    ensures { result ≡ spec.yaml_letter byte }
{
    match byte {
        b'0' => Some('\0'),
        b'a' => Some('\u{7}'),
        b'v' => Some('\u{b}'),
        b'e' => Some('\u{1b}'),
        b'/' => Some('/'),
        b' ' => Some(' '),
        b'\t' => Some('\t'),
        _ => common_letter(byte),
    }
}

fn or_wide(letter: Option<char>, byte: u8) -> Option<char>
    ensures { result ≡ spec.or_wide letter byte }
{
    match letter {
        Some(c) => Some(c),
        None => wide_letter(byte),
    }
}

/// The character that a letter after a backslash denotes.
pub fn letter(style: StringStyle, byte: u8) -> Option<char>
    ensures { result ≡ spec.letter style byte }
{
    match style {
        StringStyle::Json => json_letter(byte),
        StringStyle::Basic => toml_letter(byte),
        StringStyle::Double => or_wide(yaml_letter(byte), byte),
        StringStyle::Literal | StringStyle::Single | StringStyle::Plain => None,
    }
}

/// The number of digits that follow a letter after a backslash; 0 if the format doesn't have this
/// escape.
pub fn digit_count(style: StringStyle, byte: u8) -> usize
    ensures { result ≡ spec.digit_count style byte }
{
    match style {
        StringStyle::Json if byte == b'u' => 4,
        StringStyle::Basic | StringStyle::Double => wide_digit_count(byte),
        StringStyle::Json | StringStyle::Literal | StringStyle::Single | StringStyle::Plain => 0,
    }
}

fn wide_digit_count(byte: u8) -> usize
    ensures { result ≡ spec.wide_digit_count byte }
{
    match byte {
        b'x' => 2,
        b'u' => 4,
        b'U' => 8,
        _ => 0,
    }
}
