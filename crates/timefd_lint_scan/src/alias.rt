//! Other names of items.

ghost use Rattle.std.specs.Prelude.{◌≡◌};
ghost use Rattle.timefd_lint_scan.specs.Aliases as spec;

use crate::dialect::is;
use crate::kept::KeptToken;
use crate::own_call::{OwnCall, is_of_own};
use crate::piece::PlacedToken;
use crate::word::{is_closing, is_opening, text_of};

/// Another name for an item.
#[derive(Clone, Copy)]
pub struct Alias {
    /// The name.
    pub name: PlacedToken,
    /// The name that it replaces.
    pub original: PlacedToken,
    /// Where the block in which it is valid ends, as a byte index.
    pub until: usize,
}

/// Whether this is a name that an alias matters for: the module and the macro of `time`, its
/// functions, and types of other libraries.
fn is_known(name: &[u8]) -> bool
    ensures { result ≡ spec.is_known name.now }
{
    is(name, "format_description")
        || is(name, "parse_borrowed")
        || is(name, "parse_owned")
        || is(name, "parse_strftime_borrowed")
        || is(name, "parse_strftime_owned")
        || is(name, "StrftimeItems")
        || is(name, "strtime")
}

/// Whether an alias matters for a name: for a known one, and for those of a project's calls.
pub fn is_imported(own: &[OwnCall], name: &[u8]) -> bool
    ensures { result ≡ spec.is_imported own.now name.now }
{
    is_known(name) || is_of_own(own, name)
}

/// The tokens after the first one that is this sign; empty if there is no such token.
pub fn after_first<'a>(source: &[u8], pieces: &'a [KeptToken], sign: &str) -> &'a [KeptToken]
    ensures { result.now ≡ spec.after_first source.now sign.now pieces.now }
{
    let mut rest = pieces;
    'tokens: while let [piece, after @ ..] = rest {
        if is(piece.text(source), sign) {
            return after;
        }
        rest = after;
    }
    rest
}

/// Where the block that these tokens begin in ends: at the bracket that closes it, or at the end of
/// the source.
pub fn block_end(source: &[u8], pieces: &[KeptToken]) -> usize
    ensures { result ≡ spec.block_end source.now 0 pieces.now }
{
    let mut depth: usize = 0;
    let mut rest = pieces;
    'tokens: while let [piece, after @ ..] = rest {
        let text = piece.text(source);
        if is_opening(text) {
            depth += 1;
        } else if is_closing(text) {
            if depth == 0 {
                return piece.start();
            }
            depth -= 1;
        }
        rest = after;
    }
    source.len()
}

fn is_named_so(source: &[u8], alias: Alias, name: &[u8], position: usize) -> bool
    ensures { result ≡ spec.is_named_so source.now alias name.now position }
{
    text_of(source, alias.name) == name && alias.name.start <= position && position < alias.until
}

/// The original of the first of these aliases with this name that is valid at a position.
pub fn first_named(
    source: &[u8],
    aliases: &[Alias],
    name: &[u8],
    position: usize,
) -> Option<PlacedToken>
    ensures { result ≡ spec.original_of source.now name.now position aliases.now }
{
    let mut rest = aliases;
    'aliases: while let [alias, after @ ..] = rest {
        if is_named_so(source, *alias, name, position) {
            return Some(alias.original);
        }
        rest = after;
    }
    None
}
