//! SARIF 2.1.0 results, as code scanning and editors read them.

ghost use Rattle.std.specs.Prelude.{◌≡◌, ◌<◌, ◌++◌, IfOk, OnOk};
ghost use Rattle.timefd_lint_drawing.specs.Findings.{located_of, said_of};
ghost use Rattle.timefd_lint_drawing.specs.Sarif as spec;
ghost use Rattle.timefd_lint_drawing.specs.Severities as severities;

use crate::finding::{FindingLocation, FindingWords, described, is_further};
use crate::json::{push_number, push_text};
use crate::position::Position;
use crate::severity::word;
use std::alloc::{AllocError, Global};

/// A finding as a result after a comma. It has a fix if the part's end is known, and a word is near. An `Err` says that memory
/// ran out.
pub fn result(
    alloc: Global,
    location: FindingLocation<'_, '_>,
    finding: FindingWords<'_, '_>,
) -> Result<Vec<u8>, AllocError>
    ensures { IfOk result (λ reported. reported.items
        ≡ spec.sarif (located_of location.entry) (said_of finding.entry)) }
{
    let message = described(alloc, finding)?;
    described_result(alloc, location, finding, &message)
}

// A result with this sentence and help.
fn described_result(
    alloc: Global,
    location: FindingLocation<'_, '_>,
    finding: FindingWords<'_, '_>,
    message: &str,
) -> Result<Vec<u8>, AllocError>
    ensures { IfOk result (λ reported. reported.items ≡ spec.described_result (located_of location.entry)
        (said_of finding.entry) message.now) }
{
    match location.end {
        Some(end) => part_result(alloc, location, end, finding, message),
        None => whole_result(alloc, location, finding, message),
    }
}

// The start of a result, up to the column in which the part begins.
fn begun(
    alloc: Global,
    location: FindingLocation<'_, '_>,
    finding: FindingWords<'_, '_>,
    message: &str,
) -> Result<Vec<u8>, AllocError>
    ensures { IfOk result (λ reported. reported.items ≡ spec.begun finding.entry.code.now location.entry.file.now
        location.entry.start.line location.entry.start.column message.now (severities.word finding.entry.severity)) }
{
    let mut out = Vec::new(alloc);
    push_text(&mut out, ",{\"ruleId\":", finding.code)?;
    push_text(&mut out, ",\"level\":", word(finding.severity))?;
    push_text(&mut out, ",\"message\":{\"text\":", message)?;
    out.extend_from_slice(b"},\"locations\":[{\"physicalLocation\":")?;
    push_uri(&mut out, "{\"artifactLocation\":{\"uri\":\"", location.file)?;
    push_number(
        alloc,
        &mut out,
        "\"},\"region\":{\"startLine\":",
        location.start.line,
    )?;
    push_number(
        alloc,
        &mut out,
        ",\"startColumn\":",
        location.start.column as u64,
    )?;
    Ok(out)
}

// A result with the end of the part. Columns count characters.
fn part_result(
    alloc: Global,
    location: FindingLocation<'_, '_>,
    end: Position,
    finding: FindingWords<'_, '_>,
    message: &str,
) -> Result<Vec<u8>, AllocError>
    ensures { IfOk result (λ reported. reported.items ≡ spec.part_result (located_of location.entry) end
        (said_of finding.entry) message.now) }
{
    let fixes = fixes(alloc, location, end, finding)?;
    let mut out = begun(alloc, location, finding, message)?;
    push_number(alloc, &mut out, ",\"endLine\":", end.line)?;
    push_number(alloc, &mut out, ",\"endColumn\":", end.column as u64)?;
    out.extend_from_slice(b"}}}]")?;
    out.extend_from_slice(&fixes)?;
    push_further(&mut out, is_further(finding.kind))?;
    out.extend_from_slice(b"}\n")?;
    Ok(out)
}

// A result without the end of a part.
fn whole_result(
    alloc: Global,
    location: FindingLocation<'_, '_>,
    finding: FindingWords<'_, '_>,
    message: &str,
) -> Result<Vec<u8>, AllocError>
    ensures { IfOk result (λ reported. reported.items ≡ spec.whole_result (located_of location.entry)
        (said_of finding.entry) message.now) }
{
    let mut out = begun(alloc, location, finding, message)?;
    out.extend_from_slice(b"}}}]}\n")?;
    Ok(out)
}

// The field with the fix, if a word is near.
fn fixes(
    alloc: Global,
    location: FindingLocation<'_, '_>,
    end: Position,
    finding: FindingWords<'_, '_>,
) -> Result<Vec<u8>, AllocError>
    ensures { IfOk result (λ field. field.items
        ≡ spec.fixes_of (located_of location.entry) end (said_of finding.entry)) }
{
    match finding.replacement {
        Some(word) => fix(alloc, location, end, help_of(finding), word),
        None => Ok(Vec::new(alloc)),
    }
}

// The help, or nothing.
fn help_of<'m>(finding: FindingWords<'_, 'm>) -> &'m str
    ensures { result.now ≡ spec.help_text (said_of finding.entry) }
{
    match finding.help {
        Some(help) => help,
        None => "",
    }
}

fn fix(
    alloc: Global,
    location: FindingLocation<'_, '_>,
    end: Position,
    help: &str,
    word: &str,
) -> Result<Vec<u8>, AllocError>
    ensures { IfOk result (λ field. field.items ≡ spec.fix location.entry.file.now location.entry.start.line
        location.entry.start.column end.line end.column help.now word.now) }
{
    let mut out = Vec::new(alloc);
    push_text(&mut out, ",\"fixes\":[{\"description\":{\"text\":", help)?;
    push_uri(
        &mut out,
        "},\"artifactChanges\":[{\"artifactLocation\":{\"uri\":\"",
        location.file,
    )?;
    out.extend_from_slice(b"\"},\"replacements\":[")?;
    push_number(
        alloc,
        &mut out,
        "{\"deletedRegion\":{\"startLine\":",
        location.start.line,
    )?;
    push_number(
        alloc,
        &mut out,
        ",\"startColumn\":",
        location.start.column as u64,
    )?;
    push_number(alloc, &mut out, ",\"endLine\":", end.line)?;
    push_number(alloc, &mut out, ",\"endColumn\":", end.column as u64)?;
    push_text(&mut out, "},\"insertedContent\":{\"text\":", word)?;
    out.extend_from_slice(b"}}]}]}]")?;
    Ok(out)
}

fn push_further(out: &mut Vec<u8>, is_further: bool) -> Result<(), AllocError>
    ensures { OnOk result (out.new.items ≡ out.old.items ++ spec.further_field is_further) }
{
    if is_further {
        out.extend_from_slice(b",\"properties\":{\"further\":true}")
    } else {
        Ok(())
    }
}

// Appends what comes before a path, and the path as a reference to a URI.
fn push_uri(out: &mut Vec<u8>, front: &str, path: &str) -> Result<(), AllocError>
    ensures { OnOk result (out.new.items ≡ out.old.items ++ (front.now ++ spec.uri path.now)) }
{
    out.extend_from_slice(front.as_bytes())?;
    push_path(out, path.as_bytes())
}

fn push_path(out: &mut Vec<u8>, path: &[u8]) -> Result<(), AllocError>
    ensures { OnOk result (out.new.items ≡ out.old.items ++ spec.uri path.now) }
{
    if path.starts_with(b"/") {
        out.extend_from_slice(b"file://")?;
        return push_encoded(out, path);
    }
    if path.starts_with(b"./") {
        return push_encoded(out, &path[2..]);
    }
    push_encoded(out, path)
}

fn push_encoded(out: &mut Vec<u8>, path: &[u8]) -> Result<(), AllocError>
    ensures { OnOk result (out.new.items ≡ out.old.items ++ spec.encoded path.now) }
{
    for byte in path {
        push_uri_byte(out, *byte)?;
    }
    Ok(())
}

// Appends a byte of a path, or its hexadecimal number after a percent sign.
fn push_uri_byte(out: &mut Vec<u8>, byte: u8) -> Result<(), AllocError>
    ensures { OnOk result (out.new.items ≡ out.old.items ++ spec.uri_byte byte) }
{
    if is_plain(byte) {
        return Ok(out.push(byte)?);
    }
    out.extend_from_slice(&[b'%', hex_digit(byte / 16), hex_digit(byte % 16)])
}

// Whether a byte is written as it is in a path.
fn is_plain(byte: u8) -> bool
    ensures { result ≡ spec.is_plain byte }
{
    matches!(
        byte,
        b'A'..=b'Z' | b'a'..=b'z' | b'0'..=b'9' | b'-' | b'.' | b'_' | b'~' | b'/'
    )
}

fn hex_digit(n: u8) -> u8
    requires { n < 16 }
    ensures { result ≡ spec.hex_digit n }
{
    if n < 10 { b'0' + n } else { b'A' + (n - 10) }
}
