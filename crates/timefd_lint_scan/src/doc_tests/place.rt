//! Where a line of a doc comment stands.

ghost use Rattle.std.specs.Prelude.{◌≡◌};
ghost use Rattle.timefd_lint_scan.specs.DocTests as spec;

use crate::class::{ByteSet, after_run};
use crate::doc_tests::fence::{Fence, closes, opening_by};
use crate::doc_tests::info::is_rust;
use crate::line::from;

/// Where a line of a doc comment stands.
#[derive(Clone, Copy)]
pub enum DocPlace {
    /// In no block of code.
    Outside,
    /// In an example, which this fence closes.
    Example(Fence),
    /// In another block, which this fence closes.
    Block(Fence),
}

fn opened_by(fence: Option<Fence>, text: &[u8]) -> DocPlace
    ensures { result ≡ spec.opened_by fence text.now }
{
    match fence {
        Some(fence) => {
            if is_rust(from(text, fence.count)) {
                DocPlace::Example(fence)
            } else {
                DocPlace::Block(fence)
            }
        }
        None => DocPlace::Outside,
    }
}

// The sign of the fence that a text may begin with.
fn sign_of(text: &[u8]) -> u8
    ensures { result ≡ spec.sign_of text.now }
{
    match text {
        [b'`', ..] => b'`',
        _ => b'~',
    }
}

// The place after a line that may open a block.
fn opened(line: &[u8]) -> DocPlace
    ensures { result ≡ spec.opened (spec.code_in line.now) }
{
    let text = after_run(ByteSet::White, line);
    opened_by(opening_by(sign_of(text), text), text)
}

/// The place after a line that stands at another.
pub fn place_after(place: DocPlace, line: &[u8]) -> DocPlace
    ensures { result ≡ spec.place_after place line.now }
{
    match place {
        DocPlace::Outside => opened(line),
        DocPlace::Example(fence) | DocPlace::Block(fence) => {
            if closes(fence, line) {
                DocPlace::Outside
            } else {
                place
            }
        }
    }
}

/// Whether a place is in an example.
pub fn is_in_example(place: DocPlace) -> bool
    ensures { result ≡ spec.is_in_example place }
{
    match place {
        DocPlace::Example(_) => true,
        DocPlace::Outside | DocPlace::Block(_) => false,
    }
}
