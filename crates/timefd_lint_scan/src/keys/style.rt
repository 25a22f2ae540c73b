//! How strings are written, and which bytes end them.

ghost use Rattle.std.specs.Prelude.{◌≡◌};
ghost use Rattle.timefd_lint_scan.specs.Keys.Styles as spec;

use crate::class::{is_blank, is_line_end};
use crate::keys::bytes::{after_blanks, begins_space};
use crate::keys::format::FileFormat;

/// How a string is written.
#[derive(Clone, Copy)]
pub enum StringStyle {
    /// In JSON.
    Json,
    /// In TOML, with double quotes.
    Basic,
    /// In TOML, with single quotes.
    Literal,
    /// In YAML, with double quotes.
    Double,
    /// In YAML, with single quotes.
    Single,
    /// In YAML, without quotes.
    Plain,
}

fn begins_two(byte: u8, text: &[u8]) -> bool
    ensures { result ≡ spec.begins_two byte text.now }
{
    match text {
        [] | [_] => false,
        [first, second, ..] => *first == byte && *second == byte,
    }
}

fn toml_style(byte: u8, after: &[u8]) -> Option<StringStyle>
    ensures { result ≡ spec.toml_style byte after.now }
{
    if begins_two(byte, after) {
        None
    } else if byte == b'"' {
        Some(StringStyle::Basic)
    } else if byte == b'\'' {
        Some(StringStyle::Literal)
    } else {
        None
    }
}

/// Whether a byte is a sign of YAML's inline lists and tables.
pub fn is_flow(byte: u8) -> bool
    ensures { result ≡ spec.is_flow byte }
{
    byte == b',' || byte == b'[' || byte == b']' || byte == b'{' || byte == b'}'
}

fn is_other_indicator(byte: u8) -> bool
    ensures { result ≡ spec.is_other_indicator byte }
{
    byte == b'#'
        || byte == b'&'
        || byte == b'*'
        || byte == b'!'
        || byte == b'|'
        || byte == b'>'
        || byte == b'%'
        || byte == b'@'
        || byte == b'`'
}

fn is_mark(byte: u8) -> bool
    ensures { result ≡ spec.is_mark byte }
{
    byte == b'-' || byte == b'?' || byte == b':'
}

/// Whether a byte begins a YAML string without quotes.
pub fn begins_plain(byte: u8, after: &[u8]) -> bool
    ensures { result ≡ spec.begins_plain byte after.now }
{
    if byte <= b' ' || is_flow(byte) || is_other_indicator(byte) {
        false
    } else if is_mark(byte) {
        !begins_space(after)
    } else {
        true
    }
}

fn yaml_style(byte: u8, after: &[u8]) -> Option<StringStyle>
    ensures { result ≡ spec.yaml_style byte after.now }
{
    if byte == b'"' {
        Some(StringStyle::Double)
    } else if byte == b'\'' {
        Some(StringStyle::Single)
    } else if begins_plain(byte, after) {
        Some(StringStyle::Plain)
    } else {
        None
    }
}

/// How a string that begins with this byte is written; `None` if no string does.
pub fn style_of(format: FileFormat, byte: u8, after: &[u8]) -> Option<StringStyle>
    ensures { result ≡ spec.style_of format byte after.now }
{
    match format {
        FileFormat::Toml => toml_style(byte, after),
        FileFormat::Json if byte == b'"' => Some(StringStyle::Json),
        FileFormat::Json => None,
        FileFormat::Yaml => yaml_style(byte, after),
    }
}

/// Whether a text begins with the end of a line, or with a comment, or is empty.
pub fn ends_line(text: &[u8]) -> bool
    ensures { result ≡ spec.ends_line text.now }
{
    match text {
        [] => true,
        [byte, ..] => is_line_end(*byte) || *byte == b'#',
    }
}

fn ends_plain(byte: u8, after: &[u8]) -> bool
    ensures { result ≡ spec.ends_plain byte after.now }
{
    is_line_end(byte) || is_blank(byte) && ends_line(after_blanks(after))
}

fn begins_apostrophe(text: &[u8]) -> bool
    ensures { result ≡ spec.begins_apostrophe text.now }
{
    match text {
        [] => false,
        [byte, ..] => *byte == b'\'',
    }
}

/// Whether this byte closes a string.
pub fn closes(style: StringStyle, byte: u8, after: &[u8]) -> bool
    ensures { result ≡ spec.closes style byte after.now }
{
    match style {
        StringStyle::Json | StringStyle::Basic | StringStyle::Double => byte == b'"',
        StringStyle::Literal => byte == b'\'',
        StringStyle::Single => byte == b'\'' && !begins_apostrophe(after),
        StringStyle::Plain => ends_plain(byte, after),
    }
}

/// Whether the end of a text closes a string.
pub fn is_closed_by_end(style: StringStyle) -> bool
    ensures { result ≡ spec.is_closed_by_end style }
{
    match style {
        StringStyle::Json
        | StringStyle::Basic
        | StringStyle::Literal
        | StringStyle::Double
        | StringStyle::Single => false,
        StringStyle::Plain => true,
    }
}

/// Whether a string begins with a quote.
pub fn is_quoted(style: StringStyle) -> bool
    ensures { result ≡ spec.is_quoted style }
{
    match style {
        StringStyle::Json
        | StringStyle::Basic
        | StringStyle::Literal
        | StringStyle::Double
        | StringStyle::Single => true,
        StringStyle::Plain => false,
    }
}
