//! Tests that what is reported is inside of the source, on character boundaries.

ghost use Rattle.std.specs.Prelude.{IsTrue};
ghost use Rattle.timefd_lint_scan.specs.Keys.Found.{AllWithin, IsWithin, Lies};

use crate::Unescaped;
use crate::between::lie_between;

fn is_within(start: usize, closing: usize, position: usize) -> bool
    ensures so { IsTrue result → IsWithin start closing position }
    ensures all { IsWithin start closing position → IsTrue result }
{
    start <= position && position < closing
}

/// Whether all positions are between the first byte of a string and what closes it.
fn are_within(start: usize, closing: usize, positions: &[usize]) -> bool
    ensures so { IsTrue result → AllWithin start closing positions.now }
    ensures all { AllWithin start closing positions.now → IsTrue result }
{
    for at in 0..positions.len() {
        if !is_within(start, closing, positions[at]) {
            return false;
        }
    }
    true
}

/// Whether a string, what closes it, and each character that it denotes are inside of the source, on
/// character boundaries. This holds of all strings that are read; the test makes sure.
pub fn lies(source: &str, start: usize, closing: usize, unescaped: &Unescaped) -> bool
    ensures so { IsTrue result
        → Lies source.now start closing unescaped.now.text.items unescaped.now.positions.items }
    ensures all { Lies source.now start closing unescaped.now.text.items unescaped.now.positions.items
        → IsTrue result }
{
    source.is_char_boundary(start)
        && source.is_char_boundary(closing)
        && are_within(start, closing, &unescaped.positions)
        && lie_between(source, &unescaped.text, &unescaped.positions)
}
