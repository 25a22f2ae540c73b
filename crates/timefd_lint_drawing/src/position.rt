//! Where a byte of a text is in its file, and how a line is cut at a span.

ghost use Rattle.std.specs.Prelude.{◌≡◌, IfOk};
ghost use Rattle.timefd_lint_drawing.specs.Counted.{IsCounted};
ghost use Rattle.timefd_lint_drawing.specs.Positions as spec;

use crate::counter::{Counter, line_at, none_counted};
use crate::form::Format;
use crate::shown::{char_count, columns};
use std::alloc::{AllocError, Global};
use timefd_lint_diagnosis::Span;

/// Where a text begins: the name of its file, and the number of the line, counted from 1.
#[derive(Clone, Copy)]
pub struct Origin<'a> {
    pub file: &'a str,
    pub line: u64,
}

/// A position in a file, as editors name it: the line and the column, both counted from 1.
#[derive(Clone, Copy)]
pub struct Position {
    pub line: u64,
    pub column: usize,
}

/// The line that a span begins in, cut at the span.
#[derive(Clone, Copy)]
pub struct Line<'a> {
    /// What comes before the span.
    pub before: &'a str,
    /// The span, as far as it is in this line.
    pub at: &'a str,
    /// What follows the span in this line.
    pub after: &'a str,
}

/// The position of the byte at an index, in a text that begins in line `first`. The column counts what comes
/// before it in the line, in columns of a terminal. An `Err` says that memory ran out.
pub fn position_of(
    alloc: Global,
    first: u64,
    text: &str,
    index: usize,
) -> Result<Position, AllocError>
    ensures line { IfOk result (λ position. position.line ≡ spec.line_number first text.now index) }
    ensures column { IfOk result (λ position. position.column ≡ spec.column text.now index) }
{
    position_from(alloc, first, text, none_counted(first), index)
}

/// Finds the same position as `position_of`, with the line counted on from `from`. An `Err` says that memory
/// ran out.
#[tactic(auto, using(crate::proofs::CounterLemmas::in_front))]
pub fn position_from(
    alloc: Global,
    first: u64,
    text: &str,
    from: Counter,
    index: usize,
) -> Result<Position, AllocError>
    requires { IsCounted first text.now from }
    ensures line { IfOk result (λ position. position.line ≡ spec.line_number first text.now index) }
    ensures column { IfOk result (λ position. position.column ≡ spec.column text.now index) }
{
    let (front, _) = cut_at(text, index);
    Ok(Position {
        line: line_at(first, text, from, front.len()),
        column: columns(alloc, last_line(front))? + 1,
    })
}

/// The position of the byte at an index, where the column counts the characters before it in the line.
#[tactic(auto, using(crate::proofs::CounterLemmas::in_front))]
pub fn char_position_from(first: u64, text: &str, from: Counter, index: usize) -> Position
    requires { IsCounted first text.now from }
    ensures line { result.line ≡ spec.line_number first text.now index }
    ensures column { result.column ≡ spec.char_column text.now index }
{
    let (front, _) = cut_at(text, index);
    Position {
        line: line_at(first, text, from, front.len()),
        column: char_count(last_line(front)).saturating_add(1),
    }
}

/// The position of the byte at an index, where the column is as the form counts it: in characters, or as a terminal shows
/// it. An `Err` says that memory ran out.
#[tactic(auto, using(crate::proofs::PositionLemmas::position_of_both))]
pub fn reported_position_from(
    alloc: Global,
    format: Format,
    first: u64,
    text: &str,
    from: Counter,
    index: usize,
) -> Result<Position, AllocError>
    requires { IsCounted first text.now from }
    ensures { IfOk result (λ position. position ≡ spec.reported_position format first text.now index) }
{
    if format.counts_chars() {
        let Position { line, column } = char_position_from(first, text, from, index);
        return Ok(Position { line, column });
    }
    let Position { line, column } = position_from(alloc, first, text, from, index)?;
    Ok(Position { line, column })
}

/// The line of a text that a span begins in.
pub fn line_of(text: &str, span: Span) -> Line<'_>
    ensures before { result.before.now ≡ spec.before span.start text.now }
    ensures at { result.at.now ≡ spec.spanned span text.now }
    ensures after { result.after.now ≡ spec.after_span span text.now }
{
    let (front, rest) = cut_at(text, span.start);
    let (at, after) = cut_at(first_line(rest), span.end.saturating_sub(span.start));
    Line {
        before: last_line(front),
        at,
        after,
    }
}

/// The text before a byte index and the text after it. Inside of a character the text isn't cut: all of it
/// comes before.
pub fn cut_at(text: &str, index: usize) -> (&str, &str)
    ensures front { result.0.now ≡ spec.front index text.now }
    ensures after { result.1.now ≡ spec.after index text.now }
{
    match text.split_at_checked(index) {
        Some(parts) => parts,
        None => (text, ""),
    }
}

// What follows the last newline.
fn last_line(text: &str) -> &str
    ensures { result.now ≡ spec.last_line text.now }
{
    match text.rsplit_once('\n') {
        Some((_, line)) => line,
        None => text,
    }
}

// What comes before the first newline.
fn first_line(text: &str) -> &str
    ensures { result.now ≡ spec.first_line text.now }
{
    match text.split_once('\n') {
        Some((line, _)) => line,
        None => text,
    }
}
