//! What one comment allows: `// timefd: allow unknown-name`, or with `#`.

ghost use Rattle.std.specs.Prelude.{◌≡◌, ◌++◌, OnOk};
ghost use Rattle.timefd_lint_scan.specs.Bytes.{seen};
ghost use Rattle.timefd_lint_sources.specs.Allowances.Comments as spec;

use crate::cut::{after as from, between};
use std::alloc::AllocError;
use timefd_lint_scan::class::{ByteSet, after_run, is_white};
use timefd_lint_scan::dialect::is;
use timefd_lint_scan::line::line_start;
use timefd_lint_scan::marks::{after, first_word};

/// A code that a comment allows for the descriptions that begin in the bytes `from..to` of a source: those
/// before it in its line, or, if it is alone in its line, those of the next line with something else.
#[derive(Clone, Copy)]
pub struct Allowance {
    pub from: usize,
    pub to: usize,
    /// Where the code begins.
    pub start: usize,
    /// Where the code ends.
    pub end: usize,
}

/// What a comment is about: descriptions that begin in the bytes `from..to`.
#[derive(Clone, Copy)]
pub struct Reach {
    pub from: usize,
    pub to: usize,
}

/// What a comment begins with.
#[derive(Clone, Copy)]
pub enum CommentSign {
    /// `//`
    Slashes,
    /// `#`
    Hash,
}

/// What follows the sign of a comment that a text begins with.
pub fn after_sign(sign: CommentSign, text: &[u8]) -> Option<&[u8]>
    ensures { seen result ≡ spec.after_sign sign text.now }
{
    match sign {
        CommentSign::Slashes => after(text, b"//"),
        CommentSign::Hash => after(text, b"#"),
    }
}

// What follows `timefd:` in the comment that a text begins with.
fn after_mark(sign: CommentSign, text: &[u8]) -> Option<&[u8]>
    ensures { seen result ≡ spec.after_mark sign text.now }
{
    let Some(comment) = after_sign(sign, text) else {
        return None;
    };
    after(after_run(ByteSet::Blank, comment), b"timefd:")
}

// Whether a line has only a comment with `timefd:`.
fn is_mark_line(sign: CommentSign, text: &[u8]) -> bool
    ensures { result ≡ spec.is_mark_line sign text.now }
{
    match after_mark(sign, after_run(ByteSet::Blank, text)) {
        Some(_mark) => true,
        None => false,
    }
}

// The text after the word `allow`.
fn after_allow(text: &[u8]) -> Option<&[u8]>
    ensures { seen result ≡ spec.after_allow text.now }
{
    if is(first_word(text), "allow") {
        Some(after_run(ByteSet::Word, text))
    } else {
        None
    }
}

// The text after `allow` in a comment.
fn allowed_words(sign: CommentSign, comment: &[u8]) -> Option<&[u8]>
    ensures { seen result ≡ spec.allowed_words sign comment.now }
{
    let Some(text) = after_mark(sign, comment) else {
        return None;
    };
    after_allow(after_run(ByteSet::Blank, text))
}

fn is_separator(byte: u8) -> bool
    ensures { result ≡ spec.is_separator byte }
{
    is_white(byte) || byte == b','
}

// What follows the bytes at the front of a text that are no separators.
fn after_word(text: &[u8]) -> &[u8]
    ensures { result.now ≡ spec.after_word text.now }
{
    let mut left = text;
    'bytes: while let [byte, rest @ ..] = left {
        if is_separator(*byte) {
            return left;
        }
        left = rest;
    }
    left
}

// Adds the word that begins where this text does, which ends at an index of the source, after this byte.
fn push_word(
    found: &mut Vec<Allowance>,
    reach: Reach,
    end: usize,
    before: u8,
    text: &[u8],
) -> Result<(), AllocError>
    ensures { OnOk result (found.new.items ≡ found.old.items ++ spec.word_here reach end before text.now) }
{
    if !is_separator(before) {
        return Ok(());
    }
    let rest = after_word(text);
    if rest.len() < text.len() {
        found.push(Allowance {
            from: reach.from,
            to: reach.to,
            start: end.saturating_sub(text.len()),
            end: end.saturating_sub(rest.len()),
        })?;
    }
    Ok(())
}

// Adds the words of a text that ends at an index of the source.
fn push_words(
    found: &mut Vec<Allowance>,
    reach: Reach,
    end: usize,
    text: &[u8],
) -> Result<(), AllocError>
    ensures { OnOk result (found.new.items ≡ found.old.items ++ spec.words reach end spec.blank text.now) }
{
    let mut before = b' ';
    let mut left = text;
    'bytes: while let [byte, rest @ ..] = left {
        push_word(found, reach, end, before, left)?;
        before = *byte;
        left = rest;
    }
    Ok(())
}

// The first line that has something else than such a comment, after one that the text follows, and all that follows
// it.
fn covered(sign: CommentSign, text: &[u8]) -> &[u8]
    ensures { result.now ≡ spec.covered sign text.now }
{
    let mut left = text;
    'bytes: while let [byte, rest @ ..] = left {
        if *byte == b'\n' && !is_mark_line(sign, rest) {
            return rest;
        }
        left = rest;
    }
    left
}

// Where the line of a position begins.
fn line_begin(source: &[u8], at: usize) -> usize
    ensures { result ≡ spec.line_begin source.now at }
{
    line_start(source, 0, 0, at.min(source.len()))
}

fn is_alone(source: &[u8], at: usize) -> bool
    ensures { result ≡ spec.is_alone source.now at }
{
    after_run(ByteSet::White, between(source, line_begin(source, at), at)).is_empty()
}

// What the comment in these bytes of a source is about.
fn reach_of(sign: CommentSign, source: &[u8], at: usize, end: usize) -> Reach
    ensures { result ≡ spec.reach_of sign source.now at end }
{
    if is_alone(source, at) {
        let line = covered(sign, from(source, end));
        Reach {
            from: source.len().saturating_sub(line.len()),
            to: source
                .len()
                .saturating_sub(after_run(ByteSet::Line, line).len()),
        }
    } else {
        Reach {
            from: line_begin(source, at),
            to: at,
        }
    }
}

/// Adds what the comment in the bytes `at..end` of a source allows. An `Err` says that memory ran out.
pub fn push_allowed(
    found: &mut Vec<Allowance>,
    sign: CommentSign,
    source: &[u8],
    at: usize,
    end: usize,
) -> Result<(), AllocError>
    ensures { OnOk result (found.new.items ≡ found.old.items ++ spec.in_comment sign source.now at end) }
{
    match allowed_words(sign, between(source, at, end)) {
        Some(text) => push_words(found, reach_of(sign, source, at, end), end, text),
        None => Ok(()),
    }
}
