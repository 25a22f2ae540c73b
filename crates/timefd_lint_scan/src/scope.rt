//! Where a name may be used that a token declares.

ghost use Rattle.std.specs.Prelude.{◌≡◌};
ghost use Rattle.timefd_lint_scan.specs.Scopes as spec;

use crate::kept::KeptToken;
use crate::word::{is_closing, is_opening, position_at, text_of, tokens_from};

/// Whether the block that these tokens begin in is still open at a later position.
pub fn stays_open(source: &[u8], pieces: &[KeptToken], position: usize) -> bool
    ensures { result ≡ spec.stays_open source.now position 0 pieces.now }
{
    let mut depth: usize = 0;
    let mut rest = pieces;
    'tokens: while let [piece, after @ ..] = rest {
        if position <= piece.start() {
            return true;
        }
        let text = piece.text(source);
        if is_opening(text) {
            depth += 1;
        } else if is_closing(text) {
            if depth == 0 {
                return false;
            }
            depth -= 1;
        }
        rest = after;
    }
    true
}

/// Whether all brackets that open after one position are closed again at another.
fn is_outside(source: &[u8], pieces: &[KeptToken], from: usize, position: usize) -> bool
    ensures { result ≡ spec.is_outside source.now from position 0 pieces.now }
{
    let mut depth: usize = 0;
    let mut rest = pieces;
    'tokens: while let [piece, after @ ..] = rest {
        if position <= piece.start() {
            return depth == 0;
        }
        let text = piece.text(source);
        if from <= piece.start() && is_opening(text) {
            depth += 1;
        } else if is_closing(text) {
            depth = depth.saturating_sub(1);
        }
        rest = after;
    }
    depth == 0
}

/// Whether the block that a token is in also contains a position.
pub fn reaches(source: &[u8], pieces: &[KeptToken], declared: usize, position: usize) -> bool
    ensures { result ≡ spec.reaches source.now pieces.now declared position }
{
    let at = position_at(pieces, declared);
    if at <= position {
        stays_open(source, tokens_from(pieces, declared), position)
    } else {
        is_outside(source, pieces, position, at)
    }
}
