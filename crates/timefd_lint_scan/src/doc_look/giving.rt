//! What examples give for their source.

ghost use Rattle.std.specs.Prelude.{◌≡◌, ◌++◌, IfOk, OnOk};
ghost use Rattle.std.specs.List.{flat_map};
ghost use Rattle.timefd_lint_scan.specs.DocLooks as spec;

use crate::candidate::CandidateLiteral;
use crate::class::{ByteSet, after_run};
use crate::description::SourceDescription;
use crate::doc_look::example::SeenExample;
use crate::doc_look::moving::{moved, moved_position, push_moved};
use crate::doc_tests::DocTest;
use crate::literal::cut;
use crate::piece::PlacedToken;
use std::alloc::{AllocError, Global};

/// Whether a token is in one line.
fn is_in_a_line(code: &[u8], piece: PlacedToken) -> bool
    ensures { result ≡ spec.is_in_a_line code.now piece }
{
    match cut(code, piece) {
        Some(text) => after_run(ByteSet::Line, text).is_empty(),
        None => false,
    }
}

// Adds a description of an example, if it is in one line.
fn push_short(
    candidates: &mut Vec<CandidateLiteral>,
    test: &DocTest,
    description: &SourceDescription,
) -> Result<(), AllocError>
    ensures { OnOk result (candidates.new.items ≡ candidates.old.items ++ spec.short test.now description.now) }
{
    if is_in_a_line(&test.code, description.piece) {
        candidates.push(moved(test.start, description)?)?;
    }
    Ok(())
}

// Adds where a description of an example begins, if it isn't in one line.
fn push_long(
    positions: &mut Vec<usize>,
    test: &DocTest,
    description: &SourceDescription,
) -> Result<(), AllocError>
    ensures { OnOk result (positions.new.items ≡ positions.old.items ++ spec.long test.now description.now) }
{
    if !is_in_a_line(&test.code, description.piece) {
        positions.push(moved_position(test.start, description.piece.start)?)?;
    }
    Ok(())
}

fn push_shorts(
    candidates: &mut Vec<CandidateLiteral>,
    example: &SeenExample,
) -> Result<(), AllocError>
    ensures { OnOk result (candidates.new.items ≡ candidates.old.items ++ spec.short_in example.now) }
{
    let mut rest: &[SourceDescription] = &example.look.descriptions;
    'descriptions: while let [description, after @ ..] = rest {
        push_short(candidates, &example.test, description)?;
        rest = after;
    }
    Ok(())
}

fn push_longs(positions: &mut Vec<usize>, example: &SeenExample) -> Result<(), AllocError>
    ensures { OnOk result (positions.new.items ≡ positions.old.items ++ spec.long_in example.now) }
{
    let mut rest: &[SourceDescription] = &example.look.descriptions;
    'descriptions: while let [description, after @ ..] = rest {
        push_long(positions, &example.test, description)?;
        rest = after;
    }
    Ok(())
}

/// The descriptions of examples that are in one line, as literals of the source. An `Err` says that memory ran out.
pub fn shorts_of(
    alloc: Global,
    examples: &[SeenExample],
) -> Result<Vec<CandidateLiteral>, AllocError>
    ensures { IfOk result (λ candidates. candidates.items ≡ flat_map spec.short_in examples.now) }
{
    let mut candidates = Vec::new(alloc);
    let mut rest = examples;
    'examples: while let [example, after @ ..] = rest {
        push_shorts(&mut candidates, example)?;
        rest = after;
    }
    Ok(candidates)
}

/// Where in the source the descriptions of examples begin that aren't in one line. An `Err` says that memory ran out.
pub fn longs_of(alloc: Global, examples: &[SeenExample]) -> Result<Vec<usize>, AllocError>
    ensures { IfOk result (λ positions. positions.items ≡ flat_map spec.long_in examples.now) }
{
    let mut positions = Vec::new(alloc);
    let mut rest = examples;
    'examples: while let [example, after @ ..] = rest {
        push_longs(&mut positions, example)?;
        rest = after;
    }
    Ok(positions)
}

/// Where in the source the names of examples begin for which no text is found. An `Err` says that memory ran out.
pub fn calls_of(alloc: Global, examples: &[SeenExample]) -> Result<Vec<usize>, AllocError>
    ensures { IfOk result (λ positions. positions.items ≡ flat_map spec.calls_in examples.now) }
{
    let mut positions = Vec::new(alloc);
    let mut rest = examples;
    'examples: while let [example, after @ ..] = rest {
        push_moved(&mut positions, example.test.start, &example.look.calls)?;
        rest = after;
    }
    Ok(positions)
}

/// Where in the source the words in comments of examples begin that should name a language, but don't. An `Err` says that memory
/// ran out.
pub fn comments_of(alloc: Global, examples: &[SeenExample]) -> Result<Vec<usize>, AllocError>
    ensures { IfOk result (λ positions. positions.items ≡ flat_map spec.comments_in examples.now) }
{
    let mut positions = Vec::new(alloc);
    let mut rest = examples;
    'examples: while let [example, after @ ..] = rest {
        push_moved(&mut positions, example.test.start, &example.look.comments)?;
        rest = after;
    }
    Ok(positions)
}
