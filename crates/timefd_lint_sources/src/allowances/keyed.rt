//! The comments in a file of TOML, JSON or YAML: one at the end of each line.

ghost use Rattle.std.specs.Prelude.{◌≡◌, ◌++◌, IfOk, OnOk};
ghost use Rattle.timefd_lint_scan.specs.Bytes.{line_feed, seen};
ghost use Rattle.timefd_lint_sources.specs.Allowances.Keyed as spec;

use crate::allowances::comment::{Allowance, CommentSign, after_sign, push_allowed};
use std::alloc::{AllocError, Global};
use timefd_lint_scan::class::{ByteSet, after_run, is_blank, is_word};
use timefd_lint_scan::keys::FileFormat;
use timefd_lint_scan::marks::in_front;

fn sign_of(format: FileFormat) -> CommentSign
    ensures { result ≡ spec.sign_of format }
{
    match format {
        FileFormat::Toml | FileFormat::Yaml => CommentSign::Hash,
        FileFormat::Json => CommentSign::Slashes,
    }
}

// Whether a comment may follow this byte; 0 is the start of a line.
fn may_follow(format: FileFormat, before: u8) -> bool
    ensures { result ≡ spec.may_follow format before }
{
    match format {
        FileFormat::Toml | FileFormat::Json => true,
        FileFormat::Yaml => before == 0 || is_blank(before),
    }
}

fn begins_comment(format: FileFormat, before: u8, text: &[u8]) -> bool
    ensures { result ≡ spec.begins_comment format before text.now }
{
    if !may_follow(format, before) {
        return false;
    }
    match after_sign(sign_of(format), text) {
        Some(_comment) => true,
        None => false,
    }
}

fn opens(before: u8, byte: u8) -> bool
    ensures { result ≡ spec.opens before byte }
{
    (byte == b'"' || byte == b'\'') && !is_word(before)
}

fn is_escaped(before: u8, opened: u8) -> bool
    ensures { result ≡ spec.is_escaped before opened }
{
    before == b'\\' && opened == b'"'
}

// What is known in front of a byte: the byte before it, which is 0 at the start and after an escape, and the quote of
// the string that is open, or 0.
#[derive(Clone, Copy)]
struct ByteState {
    before: u8,
    opened: u8,
}

// The state after a byte that begins no comment.
fn state_after(state: ByteState, byte: u8) -> ByteState
    ensures { result ≡ spec.state_after state byte }
{
    let ByteState { before, opened } = state;
    if opened == 0 {
        if opens(before, byte) {
            ByteState {
                before: 0,
                opened: byte,
            }
        } else {
            ByteState {
                before: byte,
                opened: 0,
            }
        }
    } else if is_escaped(before, opened) {
        ByteState { before: 0, opened }
    } else if byte == opened {
        ByteState {
            before: byte,
            opened: 0,
        }
    } else {
        ByteState {
            before: byte,
            opened,
        }
    }
}

// The comment in a line.
fn comment_in(format: FileFormat, line: &[u8]) -> Option<&[u8]>
    ensures { seen result ≡ spec.comment_in format spec.at_start line.now }
{
    let mut state = ByteState {
        before: 0,
        opened: 0,
    };
    let mut left = line;
    'bytes: while let [byte, rest @ ..] = left {
        if state.opened == 0 && begins_comment(format, state.before, left) {
            return Some(left);
        }
        state = state_after(state, *byte);
        left = rest;
    }
    None
}

// Adds what the line allows that the rest of a source begins with.
fn push_line(
    found: &mut Vec<Allowance>,
    format: FileFormat,
    source: &[u8],
    rest: &[u8],
) -> Result<(), AllocError>
    ensures { OnOk result (found.new.items ≡ found.old.items ++ spec.in_line format source.now rest.now) }
{
    let after = after_run(ByteSet::Line, rest);
    let end = source.len().saturating_sub(after.len());
    match comment_in(format, in_front(rest, after)) {
        Some(comment) => {
            let at = end.saturating_sub(comment.len());
            push_allowed(found, sign_of(format), source, at, end)
        }
        None => Ok(()),
    }
}

fn push_if_line(
    found: &mut Vec<Allowance>,
    format: FileFormat,
    source: &[u8],
    before: u8,
    rest: &[u8],
) -> Result<(), AllocError>
    ensures { OnOk result (found.new.items
        ≡ found.old.items ++ spec.if_line format source.now before rest.now) }
{
    if before == b'\n' {
        push_line(found, format, source, rest)?;
    }
    Ok(())
}

/// What the comments in a file of this format allow, in order. An `Err` says that memory ran out.
pub fn allowances_of_keys(
    alloc: Global,
    format: FileFormat,
    source: &[u8],
) -> Result<Vec<Allowance>, AllocError>
    ensures { IfOk result (λ found. found.items ≡ spec.in_lines format source.now line_feed source.now) }
{
    let mut found = Vec::new(alloc);
    let mut before = b'\n';
    let mut left = source;
    'bytes: while let [byte, rest @ ..] = left {
        push_if_line(&mut found, format, source, before, left)?;
        before = *byte;
        left = rest;
    }
    Ok(found)
}
