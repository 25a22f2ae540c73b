//! What is skipped before the next name: comments, strings of several lines, single signs.

ghost use Rattle.std.specs.Prelude.{◌≡◌, false};
ghost use Rattle.timefd_lint_scan.specs.Keys.Depths.{depth_at};
ghost use Rattle.timefd_lint_scan.specs.Keys.Passing as spec;

use crate::class::{ByteSet, after_run, is_blank, is_line_end};
use crate::keys::format::FileFormat;
use crate::line::from;

/// The text from the wanted bytes on; nothing if it doesn't have them.
fn reaching<'a>(text: &'a [u8], wanted: &[u8]) -> &'a [u8]
    ensures { result.now ≡ spec.reaching wanted.now text.now }
{
    let mut rest = text;
    'bytes: while let [_, after @ ..] = rest {
        if rest.starts_with(wanted) {
            return rest;
        }
        rest = after;
    }
    rest
}

/// What follows a string of several lines, given the text after its first three quotes. A backslash escapes
/// the byte after it if `has_escapes`.
fn after_lines<'a>(text: &'a [u8], quotes: &[u8], has_escapes: bool) -> &'a [u8]
    ensures { result.now ≡ spec.after_lines quotes.now has_escapes false text.now }
{
    let mut rest = text;
    let mut is_escaped = false;
    'bytes: while let [byte, after @ ..] = rest {
        if !is_escaped && rest.starts_with(quotes) {
            return from(rest, 3);
        }
        is_escaped = !is_escaped && has_escapes && *byte == b'\\';
        rest = after;
    }
    rest
}

/// Whether a comment may begin at a position of a YAML file.
fn is_after_space(source: &[u8], at: usize) -> bool
    ensures { result ≡ spec.is_after_space source.now at }
{
    if at == 0 {
        return true;
    }
    match from(source, at - 1) {
        [byte, ..] => is_blank(*byte) || is_line_end(*byte),
        [] => true,
    }
}

/// Whether a comment begins at a position.
pub fn begins_comment_at(format: FileFormat, source: &[u8], at: usize) -> bool
    ensures { result ≡ spec.begins_comment_at format source.now at }
{
    let text = from(source, at);
    match format {
        FileFormat::Toml => text.starts_with(b"#"),
        FileFormat::Json => text.starts_with(b"//") || text.starts_with(b"/*"),
        FileFormat::Yaml => text.starts_with(b"#") && is_after_space(source, at),
    }
}

/// What follows the comment that a text begins with; the end of its line doesn't belong to it.
fn after_comment(text: &[u8]) -> &[u8]
    ensures { result.now ≡ spec.after_comment text.now }
{
    if text.starts_with(b"/*") {
        from(reaching(from(text, 2), b"*/"), 2)
    } else {
        after_run(ByteSet::Line, text)
    }
}

/// What follows a text's first byte, or the string of several lines that it begins with.
fn after_quotes(format: FileFormat, text: &[u8]) -> &[u8]
    ensures { result.now ≡ spec.after_quotes format text.now }
{
    match format {
        FileFormat::Toml if text.starts_with(b"\"\"\"") => after_lines(
            from(text, 3),
            b"\"\"\"",
            true,
        ),
        FileFormat::Toml if text.starts_with(b"'''") => after_lines(from(text, 3), b"'''", false),
        FileFormat::Toml | FileFormat::Json | FileFormat::Yaml => from(text, 1),
    }
}

/// What follows the bytes that are skipped at a position without a name.
pub fn after_passed(format: FileFormat, source: &[u8], at: usize) -> &[u8]
    ensures { result.now ≡ spec.after_passed format source.now at }
{
    let text = from(source, at);
    if begins_comment_at(format, source, at) {
        after_comment(text)
    } else {
        after_quotes(format, text)
    }
}

/// How many brackets are open after the byte at a position, if `depth` are open before it.
pub fn depth_after(source: &[u8], at: usize, depth: usize) -> usize
    ensures { result ≡ depth_at source.now at depth }
{
    match source.get(at) {
        Some(b'[' | b'{') => depth.saturating_add(1),
        Some(b']' | b'}') => depth.saturating_sub(1),
        Some(_) | None => depth,
    }
}
