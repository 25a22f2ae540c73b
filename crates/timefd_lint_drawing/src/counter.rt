//! Counts the lines of a text on from an earlier position, instead of from its start each time.

ghost use Rattle.std.specs.Prelude.{◌≡◌, ◌≤◌, length, take};
ghost use Rattle.timefd_lang_component.specs.Tree.{Text};
ghost use Rattle.timefd_lint_drawing.specs.Counted.{IsCounted};
ghost use Rattle.timefd_lint_drawing.specs.Positions as spec;

use crate::position::cut_at;

/// How far the lines of a text are counted.
#[derive(Clone, Copy)]
pub struct Counter {
    /// The byte index up to which they are counted.
    pub at: usize,
    /// The number of the line at that index.
    pub line: u64,
}

/// The counter at the start of any text that begins in this line.
pub fn none_counted(first: u64) -> Counter
    ensures { (text : Text) → IsCounted first text result }
{
    Counter { at: 0, line: first }
}

/// Counts the lines of a text up to an index, on from `from` if that isn't after the index. Inside of a
/// character the whole text is counted.
pub fn counted(first: u64, text: &str, from: Counter, index: usize) -> Counter
    requires { IsCounted first text.now from }
    ensures counted { IsCounted first text.now result }
    ensures line { result.line ≡ spec.line_number first text.now index }
{
    let (front, _) = cut_at(text, index);
    Counter {
        at: front.len(),
        line: line_at(first, text, from, front.len()),
    }
}

/// The number of the line at a byte index.
#[tactic(auto, using(crate::proofs::CounterLemmas::counted_on))]
pub fn line_at(first: u64, text: &str, from: Counter, at: usize) -> u64
    requires counted { IsCounted first text.now from }
    requires within { at ≤ length text.now }
    ensures { result ≡ spec.line_after first (take at text.now) }
{
    let bytes = text.as_bytes();
    if at < from.at {
        return first.saturating_add(newlines(&bytes[..at]));
    }
    from.line.saturating_add(newlines(&bytes[from.at..at]))
}

fn newlines(bytes: &[u8]) -> u64
    ensures { result ≡ spec.newlines bytes.now }
{
    bytes.iter().filter(|byte| **byte == b'\n').count() as u64
}
