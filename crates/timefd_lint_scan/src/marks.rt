//! Comments that name the language of literals: `// timefd: 3`.

ghost use Rattle.std.specs.Prelude.{◌≡◌, ◌≤◌, ◌++◌, length, OnOk, IfOk, Some};
ghost use Rattle.std.specs.Option.{option_to_list};
ghost use Rattle.timefd_lint_scan.specs.After.{after_run as after_spec};
ghost use Rattle.timefd_lint_scan.specs.Bytes.{is_word, seen};
ghost use Rattle.timefd_lint_scan.specs.Lines.{line_start as line_start_of};
ghost use Rattle.timefd_lint_scan.specs.Literals as literals;
ghost use Rattle.timefd_lint_scan.specs.Marks as spec;

use crate::class::{ByteSet, after_run};
use crate::dialect::{FormatLanguage, dialect_of_word, is};
use crate::line::{line_start, next_line_end};
use crate::literal::cut;
use crate::piece::PlacedToken;
use crate::token::Token;
use std::alloc::{AllocError, Global};

/// A comment that names a language, for the literals that begin in the bytes `from..to`: those before it in
/// its line, or those of the next line if nothing else is in its own.
#[derive(Clone, Copy)]
pub struct LanguageMark {
    pub from: usize,
    pub to: usize,
    pub dialect: FormatLanguage,
}

/// The text without this front; `None` if it begins differently.
pub fn after<'a>(text: &'a [u8], front: &[u8]) -> Option<&'a [u8]>
    ensures { seen result ≡ spec.after text.now front.now }
{
    if text.starts_with(front) {
        Some(&text[front.len()..])
    } else {
        None
    }
}

/// The front of a text, up to this rest.
pub fn in_front<'a>(text: &'a [u8], rest: &[u8]) -> &'a [u8]
    requires { length rest.now ≤ length text.now }
    ensures { result.now ≡ spec.in_front text.now rest.now }
{
    &text[..text.len() - rest.len()]
}

/// The word that a text begins with.
pub fn first_word(text: &[u8]) -> &[u8]
    ensures { result.now ≡ spec.in_front text.now (after_spec is_word text.now) }
{
    in_front(text, after_run(ByteSet::Word, text))
}

/// The language that a text names if it is one word, with only white bytes after it.
fn word_dialect(text: &[u8]) -> Option<FormatLanguage>
    ensures { result ≡ spec.word_dialect text.now }
{
    if after_run(ByteSet::White, after_run(ByteSet::Word, text)).is_empty() {
        dialect_of_word(first_word(text))
    } else {
        None
    }
}

/// The language that a comment names: `// timefd: 3`, `// timefd: strftime`.
fn comment_dialect(comment: &[u8]) -> Option<FormatLanguage>
    ensures { result ≡ spec.comment_dialect (Some comment.now) }
{
    let Some(line) = after(comment, b"//") else {
        return None;
    };
    let Some(word) = after(after_run(ByteSet::White, line), b"timefd:") else {
        return None;
    };
    word_dialect(after_run(ByteSet::White, word))
}

/// Whether the text after `timefd:` neither names a language nor silences a warning.
fn is_unknown(text: &[u8]) -> bool
    ensures { result ≡ spec.is_unknown text.now }
{
    match word_dialect(text) {
        Some(_dialect) => false,
        None => !is(first_word(text), "allow"),
    }
}

/// A comment with `timefd:`, from the word on that follows that: `strftme` in `// timefd: strftme`.
fn marked(comment: &[u8]) -> Option<&[u8]>
    ensures { seen result ≡ spec.marked (Some comment.now) }
{
    let Some(line) = after(comment, b"//") else {
        return None;
    };
    let Some(text) = after(after_run(ByteSet::White, line), b"timefd:") else {
        return None;
    };
    Some(after_run(ByteSet::White, text))
}

// Adds where a text begins that ends at `end`, if it should name a language, but doesn't.
fn push_unnamed(
    positions: &mut Vec<usize>,
    text: Option<&[u8]>,
    end: usize,
) -> Result<(), AllocError>
    ensures { OnOk result (positions.new.items ≡ positions.old.items ++ spec.unknown_in end (seen text.entry)) }
{
    match text {
        Some(text) if is_unknown(text) => Ok(positions.push(end.saturating_sub(text.len()))?),
        Some(_) | None => Ok(()),
    }
}

fn push_unknown(
    positions: &mut Vec<usize>,
    source: &[u8],
    piece: PlacedToken,
) -> Result<(), AllocError>
    ensures { OnOk result (positions.new.items ≡ positions.old.items ++ spec.unknown_mark source.now piece) }
{
    if !is_comment(piece.token) {
        return Ok(());
    }
    match cut(source, piece) {
        Some(comment) => push_unnamed(positions, marked(comment), piece.end),
        None => Ok(()),
    }
}

/// Where the words of comments begin that should name a language, but don't, as byte indices in order. An `Err` says
/// that memory ran out.
pub fn unknown_marks(
    alloc: Global,
    source: &[u8],
    pieces: &[PlacedToken],
) -> Result<Vec<usize>, AllocError>
    ensures { IfOk result (λ positions. positions.items ≡ spec.unknown_marks source.now pieces.now) }
{
    let mut positions = Vec::new(alloc);
    for piece in pieces {
        push_unknown(&mut positions, source, *piece)?;
    }
    Ok(positions)
}

/// Whether only white bytes precede a position in its line, which begins at `start`.
fn is_alone(source: &[u8], start: usize, at: usize) -> bool
    requires start { start ≡ line_start_of source.now at }
    requires within { at ≤ length source.now }
    ensures { result ≡ spec.is_alone source.now at }
{
    after_run(ByteSet::White, &source[start..at]).is_empty()
}

/// The mark of a comment that names a language.
fn mark_of(source: &[u8], comment: PlacedToken) -> Option<LanguageMark>
    ensures { result ≡ spec.mark_of source.now comment (spec.comment_dialect (literals.cut source.now comment)) }
{
    let Some(text) = cut(source, comment) else {
        return None;
    };
    let Some(dialect) = comment_dialect(text) else {
        return None;
    };
    let start = line_start(source, 0, 0, comment.start);
    if is_alone(source, start, comment.start) {
        let to = next_line_end(source, comment.end);
        Some(LanguageMark {
            from: comment.end,
            to,
            dialect,
        })
    } else {
        Some(LanguageMark {
            from: start,
            to: comment.start,
            dialect,
        })
    }
}

/// Whether a token is a comment.
pub fn is_comment(token: Token) -> bool
    ensures { result ≡ spec.is_comment token }
{
    match token {
        Token::Comment => true,
        Token::White
        | Token::Word
        | Token::Lifetime
        | Token::Character
        | Token::Literal(_)
        | Token::Sign
        | Token::Unclosed => false,
    }
}

fn mark_at(source: &[u8], piece: PlacedToken) -> Option<LanguageMark>
    ensures { result ≡ spec.mark_at source.now piece }
{
    if is_comment(piece.token) {
        mark_of(source, piece)
    } else {
        None
    }
}

fn push_any(marks: &mut Vec<LanguageMark>, mark: Option<LanguageMark>) -> Result<(), AllocError>
    ensures { OnOk result (marks.new.items ≡ marks.old.items ++ option_to_list mark) }
{
    match mark {
        Some(mark) => {
            marks.push(mark)?;
            Ok(())
        }
        None => Ok(()),
    }
}

/// The comments that name a language, in order. An `Err` says that memory ran out.
pub fn marks_of(
    alloc: Global,
    source: &[u8],
    pieces: &[PlacedToken],
) -> Result<Vec<LanguageMark>, AllocError>
    ensures { IfOk result (λ marks. marks.items ≡ spec.marks source.now pieces.now) }
{
    let mut marks = Vec::new(alloc);
    for piece in pieces {
        push_any(&mut marks, mark_at(source, *piece))?;
    }
    Ok(marks)
}

/// The marks from the first one on that ends after this position.
pub fn still_open(marks: &[LanguageMark], position: usize) -> &[LanguageMark]
    ensures { result.now ≡ spec.still_open position marks.now }
{
    let mut rest = marks;
    'marks: while let [mark, after @ ..] = rest {
        if position < mark.to {
            return rest;
        }
        rest = after;
    }
    rest
}

/// The language that the first of these marks names for a position.
pub fn reported_at(marks: &[LanguageMark], position: usize) -> Option<FormatLanguage>
    ensures { result ≡ spec.reported_at marks.now position }
{
    match marks {
        [mark, ..] if mark.from <= position && position < mark.to => Some(mark.dialect),
        [_, ..] | [] => None,
    }
}
