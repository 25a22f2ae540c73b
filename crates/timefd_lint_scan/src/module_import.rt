//! The names that lists of imports give to the module itself: `use time::format_description::{self as fd}`.

ghost use Rattle.std.specs.Prelude.{◌≡◌, ◌∷◌};
ghost use Rattle.timefd_lint_scan.specs.Aliases.{IsUntil};
ghost use Rattle.timefd_lint_scan.specs.Aliases as spec;

use crate::alias::{Alias, is_imported};
use crate::dialect::is;
use crate::import::{passed, renamed};
use crate::kept::KeptToken;
use crate::own_call::OwnCall;
use crate::piece::PlacedToken;
use crate::word::text_of;

/// The alias of a module that its own list declares, `{self as name, ..}`, but no list in that one.
fn self_in_list(
    source: &[u8],
    original: PlacedToken,
    pieces: &[KeptToken],
    until: Option<usize>,
) -> Option<Alias>
    requires { IsUntil source.now pieces.now until }
    ensures { result ≡ spec.self_in_list source.now original pieces.now }
{
    let mut known = until;
    let mut rest = pieces;
    'tokens: while let [piece, after @ ..] = rest {
        let text = piece.text(source);
        if is(text, "}") || is(text, "{") {
            return None;
        }
        if is(text, "self") {
            return renamed(
                source,
                original,
                after,
                passed(source, piece.placed(), after, known),
            );
        }
        known = passed(source, piece.placed(), after, known);
        rest = after;
    }
    None
}

fn self_after_sign(
    source: &[u8],
    original: PlacedToken,
    next: &KeptToken,
    after: &[KeptToken],
    until: Option<usize>,
) -> Option<Alias>
    requires { IsUntil source.now (next.now ∷ after.now) until }
    ensures { result ≡ spec.self_after_sign source.now original next.now after.now }
{
    let until = passed(source, next.placed(), after, until);
    if is(next.text(source), "{") {
        self_in_list(source, original, after, until)
    } else {
        None
    }
}

/// The alias of a module that these tokens declare after its name: `::{self as name, ..}`.
fn self_after(
    source: &[u8],
    original: PlacedToken,
    pieces: &[KeptToken],
    until: Option<usize>,
) -> Option<Alias>
    requires { IsUntil source.now pieces.now until }
    ensures { result ≡ spec.self_after source.now original pieces.now }
{
    match pieces {
        [first, second, next, after @ ..]
            if is(first.text(source), ":") && is(second.text(source), ":") => {
            self_after_sign(source, original, next, after, until)
        }
        _ => None,
    }
}

/// The alias of the module that a token names, if it is declared in the list of what is imported from it. The other
/// tokens follow it.
pub fn self_at(
    source: &[u8],
    own: &[OwnCall],
    piece: PlacedToken,
    after: &[KeptToken],
    until: Option<usize>,
) -> Option<Alias>
    requires { IsUntil source.now after.now until }
    ensures { result ≡ spec.self_at source.now own.now piece after.now }
{
    if is_imported(own, text_of(source, piece)) {
        self_after(source, piece, after, until)
    } else {
        None
    }
}
