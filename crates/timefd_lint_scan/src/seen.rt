//! Whether a name still means what it was declared as.

ghost use Rattle.std.specs.Prelude.{◌≡◌};
ghost use Rattle.timefd_lint_scan.specs.Uses as spec;

use crate::kept::KeptToken;
use crate::shadow::is_declared;
use crate::word::{is_closing, is_opening, text_of};

// Whether the block that these tokens begin in is still open at a later position, and the name isn't declared again before it. What ends
// first decides.
fn stays_seen(source: &[u8], name: &[u8], pieces: &[KeptToken], position: usize) -> bool
    ensures { result ≡ spec.stays_seen source.now name.now position 0 name.now pieces.now }
{
    let mut depth: usize = 0;
    let mut last = name;
    let mut rest = pieces;
    'tokens: while let [piece, after @ ..] = rest {
        if position <= piece.start() {
            return true;
        }
        let text = piece.text(source);
        if text == name && is_declared(source, last, after, position) {
            return false;
        }
        if is_opening(text) {
            depth += 1;
        } else if is_closing(text) {
            if depth == 0 {
                return false;
            }
            depth -= 1;
        }
        last = text;
        rest = after;
    }
    true
}

/// Whether a position is after the first of these tokens, in the block that they begin in, and the name
/// isn't declared again before it.
pub fn is_seen(source: &[u8], name: &[u8], pieces: &[KeptToken], position: usize) -> bool
    ensures { result ≡ spec.is_seen source.now name.now pieces.now position }
{
    match pieces {
        [first, ..] => { first.start() <= position && stays_seen(source, name, pieces, position) }
        [] => false,
    }
}
