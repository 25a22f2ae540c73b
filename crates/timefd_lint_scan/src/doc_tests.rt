//! Examples in doc comments, as rustdoc compiles them: each is a source by itself.

ghost use Rattle.std.specs.Prelude.{◌≡◌, ◌++◌, IfOk, OnOk, Some, map};
ghost use Rattle.timefd_lint_scan.specs.DocTests as spec;
ghost use Rattle.timefd_lint_scan.specs.Literals as literals;

mod before;
mod code;
mod fence;
mod info;
mod line;
mod place;

use crate::doc_tests::before::{LineBefore, gap, place_of};
use crate::doc_tests::code::push_code;
use crate::doc_tests::line::{DocLine, doc_line};
use crate::doc_tests::place::{DocPlace, is_in_example, place_after};
use crate::piece::PlacedToken;
use std::alloc::{AllocError, Global};

/// An example in a doc comment: its code, which begins at a byte of the source. Each byte of the code is that of the source at
/// its position, or a space: the signs of the comment and of hidden lines are spaces.
#[derive(Drop)]
pub struct DocTest {
    pub start: usize,
    pub code: Vec<u8>,
}

// Adds a line of an example to its code, after the bytes before it.
fn push_after(code: &mut Vec<u8>, gap: &[u8], text: &[u8]) -> Result<(), AllocError>
    ensures { OnOk result (code.new.items ≡ code.old.items ++ spec.code_after gap.now text.now) }
{
    code.extend_from_slice(gap)?;
    code.extend_from_slice(b"   ")?;
    push_code(code, text)
}

// Adds a line to the last example.
fn push_line(tests: &mut Vec<DocTest>, gap: &[u8], text: &[u8]) -> Result<(), AllocError>
    ensures { OnOk result (map spec.test_of tests.new.items
        ≡ spec.to_last (spec.code_after gap.now text.now) (map spec.test_of tests.old.items)) }
{
    match tests.last_mut() {
        Some(test) => push_after(&mut test.code, gap, text),
        None => Ok(()),
    }
}

// Opens an example.
fn push_opened(alloc: Global, tests: &mut Vec<DocTest>, start: usize) -> Result<(), AllocError>
    ensures { OnOk result (map spec.test_of tests.new.items ≡ spec.with_opened start (map spec.test_of tests.old.items)) }
{
    tests.push(DocTest {
        start,
        code: Vec::new(alloc),
    })?;
    Ok(())
}

// Adds what a line says that stands between two places: a line of an example, or the start of another.
fn push_any(
    alloc: Global,
    tests: &mut Vec<DocTest>,
    place: DocPlace,
    next: DocPlace,
    gap: &[u8],
    line: DocLine<'_>,
) -> Result<(), AllocError>
    ensures { OnOk result (map spec.test_of tests.new.items
        ≡ spec.with_line place next line.entry.piece.end (spec.code_after gap.now line.entry.text.now) (map spec.test_of tests.old.items)) }
{
    if !is_in_example(next) {
        return Ok(());
    }
    if is_in_example(place) {
        return push_line(tests, gap, line.text);
    }
    push_opened(alloc, tests, line.piece.end)
}

// Adds what a line says, after another one; returns it as one that the next may go on with.
fn with_line(
    alloc: Global,
    tests: &mut Vec<DocTest>,
    source: &[u8],
    before: Option<LineBefore>,
    line: DocLine<'_>,
) -> Result<LineBefore, AllocError>
    ensures before { IfOk result (λ now. Some now ≡ spec.after_comment source.now before (Some (spec.read line.entry))) }
    ensures tests { OnOk result (map spec.test_of tests.new.items
        ≡ spec.with_comment source.now before (Some (spec.read line.entry)) (map spec.test_of tests.old.items)) }
{
    let start = place_of(source, before, line);
    let place = place_after(start, line.text);
    push_any(alloc, tests, start, place, gap(source, before, line), line)?;
    Ok(LineBefore {
        side: line.side,
        end: line.piece.end,
        place,
    })
}

// Adds what a comment says, after a line; returns it as a line that the next comment may go on with.
fn with_comment(
    alloc: Global,
    tests: &mut Vec<DocTest>,
    source: &[u8],
    before: Option<LineBefore>,
    comment: PlacedToken,
) -> Result<Option<LineBefore>, AllocError>
    ensures before { IfOk result (λ now. now ≡ spec.after_comment source.now before (spec.line_of comment (literals.cut source.now comment))) }
    ensures tests { OnOk result (map spec.test_of tests.new.items
        ≡ spec.with_comment source.now before (spec.line_of comment (literals.cut source.now comment)) (map spec.test_of tests.old.items)) }
{
    match doc_line(source, comment) {
        Some(line) => Ok(Some(with_line(alloc, tests, source, before, line)?)),
        None => Ok(None),
    }
}

/// The examples in these comments of a source, in order. An `Err` says that memory ran out.
pub fn doc_tests_of(
    alloc: Global,
    source: &[u8],
    comments: &[PlacedToken],
) -> Result<Vec<DocTest>, AllocError>
    ensures { IfOk result (λ tests. map spec.test_of tests.items ≡ spec.tests_in source.now comments.now) }
{
    let mut tests = Vec::new(alloc);
    let mut before: Option<LineBefore> = None;
    let mut rest = comments;
    'comments: while let [comment, after @ ..] = rest {
        before = with_comment(alloc, &mut tests, source, before, *comment)?;
        rest = after;
    }
    Ok(tests)
}
