//! The body of a literal for a new text, as close to the old body as possible.

ghost use Rattle.std.specs.Prelude.{◌≡◌, ◌≤◌, length, false, true, None, IfOk, IfSome};
ghost use Rattle.timefd_lint_scan.specs.Grammar.{is_body};
ghost use Rattle.timefd_lint_scan.specs.Written.{IsBodyFor, has_body};
ghost use Rattle.timefd_lint_scan.specs.Written as spec;

use crate::class::is_white;
use crate::description::SourceDescription;
use crate::literal::{body_end, inside};
use crate::token::LiteralKind;
use crate::unescape::unescape;
use crate::written::{body_for, closes_nowhere, push_byte};
use memchr::memchr;
use std::alloc::{AllocError, Global};

/// The new body of a description's literal, so that it denotes another text. What the two texts have in
/// common keeps its spelling where possible. `None` if no literal of this kind can denote the text. An
/// `Err` says that memory ran out.
pub fn body_alike(
    alloc: Global,
    source: &str,
    description: &SourceDescription,
    text: &[u8],
) -> Result<Option<Vec<u8>>, AllocError>
    ensures body { IfOk result (λ found. IfSome found (λ body.
        IsBodyFor description.now.kind text.now body.items)) }
    ensures none { IfOk result (λ found. found ≡ None → has_body description.now.kind text.now ≡ false) }
{
    let kind = description.kind;
    let body = respelled(alloc, source, description, text)?;
    if is_body_for(alloc, kind, &body, text)? {
        return Ok(Some(body));
    }
    body_for(alloc, kind, text)
}

// Whether this is a body of a literal of this kind, and denotes the text.
fn is_body_for(
    alloc: Global,
    kind: LiteralKind,
    body: &[u8],
    text: &[u8],
) -> Result<bool, AllocError>
    ensures { IfOk result (λ is. is ≡ true → IsBodyFor kind text.now body.now) }
{
    if !closes(kind, body) {
        return Ok(false);
    }
    match unescape(alloc, kind, body, body.len())? {
        Some(unescaped) => Ok(unescaped.text.as_slice() == text),
        None => Ok(false),
    }
}

// Whether this can be the body of a literal of this kind, whatever follows it.
fn closes(kind: LiteralKind, body: &[u8]) -> bool
    ensures { result ≡ spec.closes kind body.now }
{
    match kind {
        LiteralKind::Escaped(_) => is_body(body),
        LiteralKind::Raw(_, hash_count) => closes_nowhere(hash_count, body),
    }
}

// Whether a byte follows each backslash, and none of the others is a quote.
fn is_body(body: &[u8]) -> bool
    ensures { result ≡ is_body body.now }
{
    let mut rest = body;
    'bytes: loop {
        match rest {
            [] => return true,
            [byte] => return *byte != b'\\' && *byte != b'"',
            [b'\\', _, after @ ..] => rest = after,
            [b'"', ..] => return false,
            [_, after @ ..] => rest = after,
        }
    }
}

// A description's text, and where its bytes are in the literal.
#[derive(Clone, Copy)]
struct Old<'a> {
    text: &'a [u8],
    positions: &'a [usize],
    // From after the opening quote up to the closing one.
    start: usize,
    end: usize,
}

impl Old<'_> {
    // The position of the byte at an index. At index 0 it is the start of the body, so that nothing before
    // the first byte is lost.
    fn position(&self, index: usize) -> usize {
        if index == 0 {
            return self.start;
        }
        self.positions.get(index).copied().unwrap_or(self.end)
    }
}

// Where new bytes go that come before the byte at an index: at its position. But a space goes before a
// backslash that ends a line, since the backslash skips all white bytes after it.
fn position_for(old: Old<'_>, source: &str, index: usize, new: &[u8]) -> usize {
    let position = old.position(index);
    if index == 0 || !new.starts_with(b" ") {
        return position;
    }
    let start = old.position(index - 1);
    let len = part_len(between(source, start, position));
    start.saturating_add(len).min(position)
}

// The length of the first part of a spelling: a byte, or an escape.
fn part_len(spelling: &[u8]) -> usize {
    match spelling {
        [b'\\', b'x', ..] => 4,
        [b'\\', b'u', ..] => {
            let brace = spelling.iter().position(|byte| *byte == b'}');
            brace.unwrap_or(0).saturating_add(1)
        }
        [b'\\', ..] => 2,
        _ => 1,
    }
}

// The rest of a text from an index on.
fn rest_of(text: &[u8], from: usize) -> &[u8] {
    text.get(from..).unwrap_or(&[])
}

// The bytes of a source between two positions.
fn between(source: &str, from: usize, to: usize) -> &[u8] {
    source.as_bytes().get(from..to).unwrap_or(&[])
}

fn old_of<'a>(source: &'a str, description: &'a SourceDescription) -> Old<'a> {
    let end = body_end(description.piece, description.kind);
    let len = match inside(source, description.piece, description.kind) {
        Some(inside) => inside.len(),
        None => 0,
    };
    Old {
        text: &description.unescaped.text,
        positions: &description.unescaped.positions,
        start: end.saturating_sub(len),
        end,
    }
}

// A body for a text: what is in the old one too is spelled as there. It may denote another text, since the
// meaning of a spelling can depend on what follows it.
fn respelled(
    alloc: Global,
    source: &str,
    description: &SourceDescription,
    text: &[u8],
) -> Result<Vec<u8>, AllocError> {
    let old = old_of(source, description);
    let mut body = Vec::new(alloc);
    let mut at = 0;
    let mut done = 0;
    for _ in 0..text.len() {
        let same = common_len(rest_of(old.text, at), rest_of(text, done));
        let stays = at.saturating_add(same);
        let come = done.saturating_add(same);
        let change = change_between(rest_of(old.text, stays), rest_of(text, come));
        done = come.saturating_add(change.come);
        let new = text.get(come..done).unwrap_or(&[]);
        let end = position_for(old, source, stays, new);
        body.extend_from_slice(between(source, old.position(at), end))?;
        push_all(&mut body, description.kind, new)?;
        body.extend_from_slice(between(source, end, old.position(stays)))?;
        at = stays.saturating_add(change.gone);
    }
    Ok(body)
}

fn push_all(body: &mut Vec<u8>, kind: LiteralKind, text: &[u8]) -> Result<(), AllocError> {
    for byte in text {
        push_byte(body, kind, *byte)?;
    }
    Ok(())
}

fn common_len(text: &[u8], other: &[u8]) -> usize {
    let len = text.len().min(other.len());
    for at in 0..len {
        if text[at] != other[at] {
            return at;
        }
    }
    len
}

// How many bytes are removed from a text, and how many replace them.
#[derive(Clone, Copy)]
struct ByteChange {
    gone: usize,
    come: usize,
}

// What changes at the front of two texts: a doubled bracket that is escaped instead, a mark that is written
// before what is wrong, the end of a component, or else a word.
fn change_between(old: &[u8], new: &[u8]) -> ByteChange {
    if old.starts_with(b"[[") && new.starts_with(b"\\[") {
        return ByteChange { gone: 1, come: 1 };
    }
    match new {
        [b' ' | b'\\' | b'%', ..] => ByteChange { gone: 0, come: 1 },
        [b']', ..] => match memchr(b']', old) {
            Some(gone) => ByteChange { gone, come: 0 },
            None => ByteChange { gone: 0, come: 1 },
        },
        _ => word_change(old, new),
    }
}

// Another word, or at least one more byte.
fn word_change(old: &[u8], new: &[u8]) -> ByteChange {
    let gone = word_len(old);
    let come = word_len(new);
    if gone == 0 && come == 0 {
        ByteChange {
            gone,
            come: new.len().min(1),
        }
    } else {
        ByteChange { gone, come }
    }
}

// How many bytes at the front belong to a word.
fn word_len(text: &[u8]) -> usize
    ensures { result ≤ length text.now }
{
    for at in 0..text.len() {
        if ends_word(text[at]) {
            return at;
        }
    }
    text.len()
}

fn ends_word(byte: u8) -> bool {
    is_white(byte) || byte == b'[' || byte == b']' || byte == b':'
}
