//! Names of keys, and where their values begin.

ghost use Rattle.std.specs.Prelude.{◌≡◌, ◌≤◌, length, IfOk};
ghost use Rattle.timefd_lint_scan.specs.Keys.Names as spec;
ghost use Rattle.timefd_lint_scan.specs.Keys.Names.{now_any, seen_any};
ghost use Rattle.timefd_lint_scan.specs.Keys.Strings.{string_at as string_of};

use crate::class::{ByteSet, after_run, is_blank, is_line_end};
use crate::keys::bytes::begins_space;
use crate::keys::format::FileFormat;
use crate::keys::reading::string_at;
use crate::keys::style::{begins_plain, is_flow};
use crate::line::from;
use crate::marks::in_front;
use std::alloc::{AllocError, Global};

/// What may be the name of a key.
#[derive(Drop)]
pub struct KeyName<'a> {
    /// The bytes that it denotes.
    pub text: Vec<u8>,
    /// What follows it.
    pub after: &'a [u8],
}

/// Whether a string begins with this byte.
pub fn is_quote(format: FileFormat, byte: u8) -> bool
    ensures { result ≡ spec.is_quote format byte }
{
    match format {
        FileFormat::Json => byte == b'"',
        FileFormat::Toml | FileFormat::Yaml => byte == b'"' || byte == b'\'',
    }
}

fn begins_comment(text: &[u8]) -> bool
    ensures { result ≡ spec.begins_comment text.now }
{
    match text {
        [] => false,
        [byte, ..] => *byte == b'#',
    }
}

/// Whether a YAML name without quotes ends before this byte.
fn ends_name(byte: u8, after: &[u8]) -> bool
    ensures { result ≡ spec.ends_name byte after.now }
{
    is_flow(byte)
        || is_line_end(byte)
        || byte == b':' && begins_space(after)
        || is_blank(byte) && begins_comment(after)
}

fn after_plain(text: &[u8]) -> &[u8]
    ensures rest { result.now ≡ spec.after_plain text.now }
    ensures within { length result.now ≤ length text.now }
{
    let mut rest = text;
    'bytes: while let [byte, after @ ..] = rest {
        if ends_name(*byte, after) {
            return rest;
        }
        rest = after;
    }
    rest
}

/// What follows the name without quotes that a text begins with; the whole text if it doesn't begin with
/// one.
fn after_unquoted(format: FileFormat, text: &[u8]) -> &[u8]
    ensures rest { result.now ≡ spec.after_unquoted format text.now }
    ensures within { length result.now ≤ length text.now }
{
    match (format, text) {
        (FileFormat::Toml, _) => after_run(ByteSet::Bare, text),
        (FileFormat::Yaml, [byte, after @ ..]) if begins_plain(*byte, after) => after_plain(text),
        (FileFormat::Json | FileFormat::Yaml, _) => text,
    }
}

fn without_blanks(text: &[u8]) -> &[u8]
    ensures { result.now ≡ spec.without_blanks text.now }
{
    let mut rest = text;
    'bytes: while let [front @ .., byte] = rest {
        if !is_blank(*byte) {
            return rest;
        }
        rest = front;
    }
    rest
}

fn quoted_name<'a>(
    alloc: Global,
    format: FileFormat,
    source: &'a [u8],
    at: usize,
) -> Result<Option<KeyName<'a>>, AllocError>
    ensures { IfOk result (λ name. seen_any name ≡ spec.quoted_name source.now (string_of format source.now at)) }
{
    let Some(reading) = string_at(alloc, format, source, at)? else {
        return Ok(None);
    };
    let after = from(from(source, reading.closing), 1);
    let text = reading.unescaped.text;
    Ok(Some(KeyName { text, after }))
}

fn unquoted_name<'a>(
    alloc: Global,
    format: FileFormat,
    text: &'a [u8],
) -> Result<Option<KeyName<'a>>, AllocError>
    ensures { IfOk result (λ name. seen_any name ≡ spec.unquoted_name format text.now) }
{
    let after = after_unquoted(format, text);
    if after.len() == text.len() {
        return Ok(None);
    }
    let word = without_blanks(in_front(text, after));
    Ok(Some(KeyName {
        text: word.to_vec(alloc)?,
        after,
    }))
}

/// The name at a position.
pub fn name_at<'a>(
    alloc: Global,
    format: FileFormat,
    source: &'a [u8],
    at: usize,
) -> Result<Option<KeyName<'a>>, AllocError>
    ensures { IfOk result (λ name. seen_any name ≡ spec.name_at format source.now at) }
{
    let text = from(source, at);
    match text {
        [] => Ok(None),
        [byte, ..] if is_quote(format, *byte) => quoted_name(alloc, format, source, at),
        [_, ..] => unquoted_name(alloc, format, text),
    }
}

/// The bytes that may be between a name and its value.
fn between(format: FileFormat) -> ByteSet
    ensures { result ≡ spec.between format }
{
    match format {
        FileFormat::Json => ByteSet::Skipped,
        FileFormat::Toml | FileFormat::Yaml => ByteSet::Blank,
    }
}

fn separator(format: FileFormat) -> u8
    ensures { result ≡ spec.separator format }
{
    match format {
        FileFormat::Toml => b'=',
        FileFormat::Json | FileFormat::Yaml => b':',
    }
}

/// The text from the value on, given the text after a name; `None` if the name isn't a key's.
pub fn value_after(format: FileFormat, text: &[u8]) -> Option<&[u8]>
    ensures { now_any result ≡ spec.value_after format text.now }
{
    let class = between(format);
    match after_run(class, text) {
        [byte, after @ ..] if *byte == separator(format) => Some(after_run(class, after)),
        [_, ..] | [] => None,
    }
}
