//! JSON objects.

ghost use Rattle.std.specs.Prelude.{◌≡◌, ◌<◌, ◌++◌, decimal, flat_map, option_map, IfOk, OnOk};
ghost use Rattle.std.specs.List.{list_all};
ghost use Rattle.timefd_lint_drawing.specs.Findings.{located_of, said_of};
ghost use Rattle.timefd_lint_drawing.specs.Json as spec;

use crate::finding::{FindingLocation, FindingWords, is_further};
use crate::severity::word;
use crate::shown::is_hidden;
use std::alloc::{AllocError, Global};
use timefd_lint_diagnosis::Span;

// Room for most objects.
const ROOM: usize = 256;

/// A finding as an object on a line. An `Err` says that memory ran out.
pub fn object(
    alloc: Global,
    location: FindingLocation<'_, '_>,
    finding: FindingWords<'_, '_>,
) -> Result<Vec<u8>, AllocError>
    ensures { IfOk result (λ line. line.items
        ≡ spec.json (located_of location.entry) (said_of finding.entry)) }
{
    let mut out = Vec::with_capacity(alloc, ROOM)?;
    push_text(&mut out, "{\"code\":", finding.code)?;
    push_number(
        alloc,
        &mut out,
        ",\"column\":",
        location.start.column as u64,
    )?;
    push_end(alloc, &mut out, location.bytes)?;
    push_text(&mut out, ",\"file\":", location.file)?;
    push_further(&mut out, is_further(finding.kind))?;
    push_if_any(&mut out, ",\"help\":", finding.help)?;
    push_number(alloc, &mut out, ",\"line\":", location.start.line)?;
    push_text(&mut out, ",\"message\":", finding.message)?;
    push_if_any(&mut out, ",\"replacement\":", finding.replacement)?;
    push_text(&mut out, ",\"severity\":", word(finding.severity))?;
    push_start(alloc, &mut out, location.bytes)?;
    out.extend_from_slice(b"}\n")?;
    Ok(out)
}

fn push_further(out: &mut Vec<u8>, is_further: bool) -> Result<(), AllocError>
    ensures { OnOk result (out.new.items ≡ out.old.items ++ spec.further_field is_further) }
{
    if is_further {
        out.extend_from_slice(b",\"further\":true")
    } else {
        Ok(())
    }
}

fn push_if_any(out: &mut Vec<u8>, front: &str, text: Option<&str>) -> Result<(), AllocError>
    ensures { OnOk result (out.new.items
        ≡ out.old.items ++ spec.field_if_any front.now (option_map (λ text. text.now) text.entry)) }
{
    match text {
        Some(text) => push_text(out, front, text),
        None => Ok(()),
    }
}

fn push_end(alloc: Global, out: &mut Vec<u8>, bytes: Option<Span>) -> Result<(), AllocError>
    ensures { OnOk result (out.new.items ≡ out.old.items ++ spec.end_field bytes) }
{
    match bytes {
        Some(bytes) => push_number(alloc, out, ",\"end\":", bytes.end as u64),
        None => Ok(()),
    }
}

fn push_start(alloc: Global, out: &mut Vec<u8>, bytes: Option<Span>) -> Result<(), AllocError>
    ensures { OnOk result (out.new.items ≡ out.old.items ++ spec.start_field bytes) }
{
    match bytes {
        Some(bytes) => push_number(alloc, out, ",\"start\":", bytes.start as u64),
        None => Ok(()),
    }
}

/// Appends a text in JSON quotes. An `Err` says that memory ran out.
pub fn push_quoted(out: &mut Vec<u8>, text: &str) -> Result<(), AllocError>
    ensures { OnOk result (out.new.items ≡ out.old.items ++ spec.quoted text.now) }
{
    out.extend_from_slice(b"\"")?;
    push_in_quotes(out, text)?;
    out.extend_from_slice(b"\"")
}

// Appends what is between the quotes.
#[tactic(auto, using(crate::proofs::JsonLemmas::plain_as_it_is))]
fn push_in_quotes(out: &mut Vec<u8>, text: &str) -> Result<(), AllocError>
    ensures { OnOk result (out.new.items ≡ out.old.items ++ spec.all_escaped text.now) }
{
    if are_plain(text.as_bytes()) {
        return out.extend_from_slice(text.as_bytes());
    }
    push_all_escaped(out, text)
}

// Whether all of the bytes are written in quotes as they are.
fn are_plain(bytes: &[u8]) -> bool
    ensures { result ≡ list_all spec.is_plain bytes.now }
{
    bytes.iter().all(|byte| is_plain(*byte))
}

// Whether a byte prints, and isn't a quote or a backslash.
fn is_plain(byte: u8) -> bool
    ensures { result ≡ spec.is_plain byte }
{
    if byte == b'"' || byte == b'\\' {
        return false;
    }
    matches!(byte, b' '..=b'~')
}

fn push_all_escaped(out: &mut Vec<u8>, text: &str) -> Result<(), AllocError>
    ensures { OnOk result (out.new.items ≡ out.old.items ++ spec.all_escaped text.now) }
{
    for c in text.chars() {
        push_escaped(out, c)?;
    }
    Ok(())
}

// Appends a character of a text: a quote or a backslash after a backslash, and a hidden character as escapes
// of its UTF-16 code units.
fn push_escaped(out: &mut Vec<u8>, c: char) -> Result<(), AllocError>
    ensures { OnOk result (out.new.items ≡ out.old.items ++ spec.escaped c) }
{
    if c == '"' || c == '\\' {
        return out.extend_from_slice(&[b'\\', c as u8]);
    }
    if is_hidden(c) {
        return push_units(out, c);
    }
    let mut room = [0; 4];
    out.extend_from_slice(c.encode_utf8(&mut room).as_bytes())
}

// Appends escapes of the one or two UTF-16 code units of a character.
fn push_units(out: &mut Vec<u8>, c: char) -> Result<(), AllocError>
    ensures { OnOk result (out.new.items ≡ out.old.items ++ spec.units c) }
{
    let mut room = [0; 2];
    push_all_units(out, c.encode_utf16(&mut room))
}

fn push_all_units(out: &mut Vec<u8>, units: &[u16]) -> Result<(), AllocError>
    ensures { OnOk result (out.new.items ≡ out.old.items ++ flat_map spec.unit units.now) }
{
    for unit in units {
        push_unit(out, *unit)?;
    }
    Ok(())
}

// Appends an escape of a UTF-16 code unit: `\u` and four hexadecimal digits.
fn push_unit(out: &mut Vec<u8>, unit: u16) -> Result<(), AllocError>
    ensures { OnOk result (out.new.items ≡ out.old.items ++ spec.unit unit) }
{
    let digits = [
        hex_digit(unit / 4096),
        hex_digit(unit / 256 % 16),
        hex_digit(unit / 16 % 16),
        hex_digit(unit % 16),
    ];
    out.extend_from_slice(b"\\u")?;
    out.extend_from_slice(&digits)
}

fn hex_digit(n: u16) -> u8
    requires { n < 16 }
    ensures { result ≡ spec.hex_digit n }
{
    let n = n as u8;
    if n < 10 { b'0' + n } else { b'a' + (n - 10) }
}

/// Appends what comes before a field's value, and the value: a text. An `Err` says that memory ran out.
pub fn push_text(out: &mut Vec<u8>, front: &str, text: &str) -> Result<(), AllocError>
    ensures { OnOk result (out.new.items ≡ out.old.items ++ (front.now ++ spec.quoted text.now)) }
{
    out.extend_from_slice(front.as_bytes())?;
    push_quoted(out, text)
}

/// Appends what comes before a field's value, and the value: a number. An `Err` says that memory ran out.
pub fn push_number(
    alloc: Global,
    out: &mut Vec<u8>,
    front: &str,
    number: u64,
) -> Result<(), AllocError>
    ensures { OnOk result (out.new.items ≡ out.old.items ++ (front.now ++ decimal number)) }
{
    let digits = format!(in alloc; "{number}")?;
    out.extend_from_slice(front.as_bytes())?;
    out.extend_from_slice(digits.as_bytes())
}
