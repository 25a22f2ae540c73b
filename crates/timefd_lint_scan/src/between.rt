//! Tests that what is reported lies on character boundaries of the source.

ghost use Rattle.std.specs.Prelude.{◌≡◌, ◌<◌, IsTrue, false};
ghost use Rattle.std.specs.Str.{IsCharBoundary};
ghost use Rattle.timefd_lint_scan.specs.Between.{AllBetween, AllInside, IsBetween, IsInside};
ghost use Rattle.timefd_lint_scan.specs.Bytes as spec;

use crate::class::is_continuation;
use crate::literal::body_end;
use crate::piece::PlacedToken;
use crate::token::LiteralKind;
use crate::unescape::Unescaped;

// A byte that begins a character has to be on a character boundary of the source.
fn lies_between(source: &str, byte: u8, position: usize) -> bool
    ensures so { IsTrue result → spec.is_continuation byte ≡ false → IsCharBoundary source.now position }
    ensures all { (spec.is_continuation byte ≡ false → IsCharBoundary source.now position) → IsTrue result }
{
    is_continuation(byte) || source.is_char_boundary(position)
}

/// Whether the position of each character of a text is a character boundary of the source.
pub fn lie_between(source: &str, text: &[u8], positions: &[usize]) -> bool
    ensures so { IsTrue result → AllBetween source.now text.now positions.now }
    ensures all { AllBetween source.now text.now positions.now → IsTrue result }
{
    if text.len() != positions.len() {
        return false;
    }
    for (at, byte) in text.iter().enumerate() {
        if !lies_between(source, *byte, positions[at]) {
            return false;
        }
    }
    true
}

/// Whether a position is in a token, after its first byte.
fn is_inside(piece: PlacedToken, position: usize) -> bool
    ensures so { IsTrue result → IsInside piece position }
    ensures all { IsInside piece position → IsTrue result }
{
    piece.start < position && position < piece.end
}

/// Whether all positions are in a token, after its first byte.
fn are_inside(piece: PlacedToken, positions: &[usize]) -> bool
    ensures so { IsTrue result → AllInside piece positions.now }
    ensures all { AllInside piece positions.now → IsTrue result }
{
    for at in 0..positions.len() {
        if !is_inside(piece, positions[at]) {
            return false;
        }
    }
    true
}

/// Whether a literal, its closing quote and each character that it denotes are on character boundaries of
/// the source, and all that it denotes is inside of it. This holds of all literals that are found; the
/// test makes sure.
pub fn is_between(
    source: &str,
    piece: PlacedToken,
    kind: LiteralKind,
    unescaped: &Unescaped,
) -> bool
    ensures so { IsTrue result
        → IsBetween source.now piece kind unescaped.now.text.items unescaped.now.positions.items }
    ensures all { IsBetween source.now piece kind unescaped.now.text.items unescaped.now.positions.items
        → IsTrue result }
{
    let end = body_end(piece, kind);
    source.is_char_boundary(piece.start)
        && source.is_char_boundary(piece.end)
        && source.is_char_boundary(end)
        && is_inside(piece, end)
        && are_inside(piece, &unescaped.positions)
        && lie_between(source, &unescaped.text, &unescaped.positions)
}
