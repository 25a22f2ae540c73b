//! Strings that stand in place of values.

ghost use Rattle.std.specs.Prelude.{◌≡◌, ◌++◌, IfOk, OnOk, false, flat_map, true};
ghost use Rattle.timefd_lint_scan.specs.Keys.Spelled as spec;

use crate::keys::format::FileFormat;
use crate::keys::reading::{StringReading, string_at};
use crate::keys::style::{StringStyle, style_of};
use crate::line::from;
use std::alloc::{AllocError, Global};

/// The string, with its quotes, that denotes a text in place of the string at a position: written as that one is, with
/// single quotes in place of a YAML string without quotes, or else with double quotes and escapes. `None` if no such
/// string denotes the text, as it has a control character, or if no string begins there. An `Err` says that memory ran
/// out.
pub fn string_for(
    alloc: Global,
    format: FileFormat,
    source: &str,
    start: usize,
    text: &[u8],
) -> Result<Option<Vec<u8>>, AllocError>
    ensures { IfOk result (spec.IsStringFor format source.now start text.now) }
{
    match style_at(format, source, start) {
        Some(style) => string_like(alloc, format, style, text),
        None => Ok(None),
    }
}

// The string that is written like this, or with escapes, and denotes the text.
#[tactic(auto, using(crate::proofs::KeysLemmas::SpelledLemmas::or_escaped))]
fn string_like(
    alloc: Global,
    format: FileFormat,
    style: StringStyle,
    text: &[u8],
) -> Result<Option<Vec<u8>>, AllocError>
    ensures { IfOk result (spec.IsStringLike format style text.now) }
{
    match string_by(alloc, format, style, text)? {
        Some(string) => Ok(Some(string)),
        None => Ok(string_by(alloc, format, escaping(format), text)?),
    }
}

// How strings with escapes are written.
fn escaping(format: FileFormat) -> StringStyle
    ensures { result ≡ spec.escaping format }
{
    match format {
        FileFormat::Toml => StringStyle::Basic,
        FileFormat::Json => StringStyle::Json,
        FileFormat::Yaml => StringStyle::Double,
    }
}

/// Where the string at a position ends that closes before the byte `end`: there, or a byte before if no quote closes it.
pub fn string_end(format: FileFormat, source: &str, start: usize, end: usize) -> usize
    ensures { result ≡ spec.string_end format source.now start end }
{
    match style_at(format, source, start) {
        Some(style) => end_by(style, end),
        None => end,
    }
}

fn end_by(style: StringStyle, end: usize) -> usize
    ensures { result ≡ spec.end_by style end }
{
    match style {
        StringStyle::Json
        | StringStyle::Basic
        | StringStyle::Literal
        | StringStyle::Double
        | StringStyle::Single => end,
        StringStyle::Plain => end.saturating_sub(1),
    }
}

// How the string at a position is written.
fn style_at(format: FileFormat, source: &str, start: usize) -> Option<StringStyle>
    ensures { result ≡ spec.style_at format source.now start }
{
    match from(source.as_bytes(), start) {
        [] => None,
        [byte, after @ ..] => style_of(format, *byte, after),
    }
}

// The string that is written like this and denotes the text.
fn string_by(
    alloc: Global,
    format: FileFormat,
    style: StringStyle,
    text: &[u8],
) -> Result<Option<Vec<u8>>, AllocError>
    ensures { IfOk result (spec.IsStringBy format style text.now) }
{
    let string = quoted(alloc, style, text)?;
    if denotes(alloc, format, &string, text)? {
        Ok(Some(string))
    } else {
        Ok(None)
    }
}

// Whether these bytes are one string, which denotes the text.
fn denotes(
    alloc: Global,
    format: FileFormat,
    string: &[u8],
    text: &[u8],
) -> Result<bool, AllocError>
    ensures so { IfOk result (λ so. so ≡ true → spec.Denotes format string.now text.now) }
    ensures not { IfOk result (λ so. so ≡ false → spec.Denotes format string.now text.now → ⊥) }
{
    match string_at(alloc, format, string, 0)? {
        Some(reading) => Ok(is_whole(&reading, string, text)),
        None => Ok(false),
    }
}

// Whether a string that was read denotes the text and closes at the last byte.
fn is_whole(reading: &StringReading, string: &[u8], text: &[u8]) -> bool
    ensures so { result ≡ true → spec.IsWhole (spec.seen reading.now) string.now text.now }
    ensures not { result ≡ false → spec.IsWhole (spec.seen reading.now) string.now text.now → ⊥ }
{
    reading.closing == string.len().saturating_sub(1) && reading.unescaped.text.as_slice() == text
}

// A text between quotes.
fn quoted(alloc: Global, style: StringStyle, text: &[u8]) -> Result<Vec<u8>, AllocError>
    ensures { IfOk result (λ string. string.items ≡ spec.quoted style text.now) }
{
    let quote = quote_of(style);
    let mut string = Vec::new(alloc);
    string.push(quote)?;
    push_all(&mut string, style, text)?;
    string.push(quote)?;
    Ok(string)
}

fn quote_of(style: StringStyle) -> u8
    ensures { result ≡ spec.quote_of style }
{
    match style {
        StringStyle::Json | StringStyle::Basic | StringStyle::Double => b'"',
        StringStyle::Literal | StringStyle::Single | StringStyle::Plain => b'\'',
    }
}

// Appends the bytes of a text as a string spells them.
fn push_all(string: &mut Vec<u8>, style: StringStyle, text: &[u8]) -> Result<(), AllocError>
    ensures { OnOk result (string.new.items ≡ string.old.items ++ flat_map (spec.spelled style) text.now) }
{
    for byte in text {
        push_spelled(string, style, *byte)?;
    }
    Ok(())
}

// Appends a byte as a string spells it.
fn push_spelled(string: &mut Vec<u8>, style: StringStyle, byte: u8) -> Result<(), AllocError>
    ensures { OnOk result (string.new.items ≡ string.old.items ++ spec.spelled style byte) }
{
    match pair_for(style, byte) {
        Some((sign, second)) => string.extend_from_slice(&[sign, second]),
        None => string.extend_from_slice(&[byte]),
    }
}

// The two bytes that denote a byte which can't stand alone.
fn pair_for(style: StringStyle, byte: u8) -> Option<(u8, u8)>
    ensures { result ≡ spec.pair_for style byte }
{
    match style {
        StringStyle::Json | StringStyle::Basic | StringStyle::Double => escape_for(byte),
        StringStyle::Literal => None,
        StringStyle::Single | StringStyle::Plain => doubled(byte),
    }
}

fn escape_for(byte: u8) -> Option<(u8, u8)>
    ensures { result ≡ spec.escape_for byte }
{
    match byte {
        b'"' | b'\\' => Some((b'\\', byte)),
        b'\n' => Some((b'\\', b'n')),
        b'\r' => Some((b'\\', b'r')),
        b'\t' => Some((b'\\', b't')),
        _ => None,
    }
}

fn doubled(byte: u8) -> Option<(u8, u8)>
    ensures { result ≡ spec.doubled byte }
{
    if byte == b'\'' {
        Some((byte, byte))
    } else {
        None
    }
}
