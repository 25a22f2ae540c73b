//! What stands before a line of a doc comment.

ghost use Rattle.std.specs.Prelude.{◌≡◌, ◌-◌, drop, take};
ghost use Rattle.timefd_lint_scan.specs.DocTests as spec;

use crate::class::{ByteSet, after_run};
use crate::doc_tests::line::{DocLine, DocSide, is_same};
use crate::doc_tests::place::DocPlace;
use crate::line::from;

/// A line of a doc comment that another one may go on with.
#[derive(Clone, Copy)]
pub struct LineBefore {
    /// The item that it is about.
    pub side: DocSide,
    /// Where it ends.
    pub end: usize,
    /// The place after it.
    pub place: DocPlace,
}

// The bytes of a source from a position up to another.
fn between(source: &[u8], start: usize, end: usize) -> &[u8]
    ensures { result.now ≡ take (end - start) (drop start source.now) }
{
    let rest = from(source, start);
    rest.get(..end.saturating_sub(start)).unwrap_or(rest)
}

/// The bytes between a line and the one before it; none if there is none.
pub fn gap<'a>(source: &'a [u8], before: Option<LineBefore>, line: DocLine<'_>) -> &'a [u8]
    ensures { result.now ≡ spec.gap source.now before (spec.read line.entry) }
{
    match before {
        Some(before) => between(source, before.end, line.piece.start),
        None => &[],
    }
}

// Whether a line goes on with the doc comment of the line before it: only white bytes are between them.
fn goes_on(source: &[u8], before: LineBefore, line: DocLine<'_>) -> bool
    ensures { result ≡ spec.goes_on source.now before (spec.read line.entry) }
{
    let bytes = between(source, before.end, line.piece.start);
    is_same(before.side, line.side)
        && before.end <= line.piece.start
        && after_run(ByteSet::White, bytes).is_empty()
}

/// Where a line stands: at the place after the line before it, if it goes on with the doc comment of that.
pub fn place_of(source: &[u8], before: Option<LineBefore>, line: DocLine<'_>) -> DocPlace
    ensures { result ≡ spec.place_of source.now before (spec.read line.entry) }
{
    match before {
        Some(before) => {
            if goes_on(source, before, line) {
                before.place
            } else {
                DocPlace::Outside
            }
        }
        None => DocPlace::Outside,
    }
}
