//! Whether a name is declared again between two positions.

ghost use Rattle.std.specs.Prelude.{◌≡◌};
ghost use Rattle.timefd_lint_scan.specs.Declarations as spec;
ghost use Rattle.timefd_lint_scan.specs.Layouts as layouts;

use crate::dialect::is;
use crate::kept::KeptToken;
use crate::token::Token;
use crate::word::{is_closing, is_word_token, text_at, text_of};

/// At most this many tokens of a pattern are looked at.
const MOST_TOKENS: usize = 16;

/// Whether the word after this one is a name that is being declared.
pub fn is_declaring(word: &[u8]) -> bool
    ensures { result ≡ spec.is_declaring word.now }
{
    is(word, "let") || is(word, "const") || is(word, "static") || is(word, "fn") || is(word, "mut")
}

/// Whether a token may be between a name and the end of its pattern.
fn goes_on(token: Token, text: &[u8]) -> bool
    ensures { result ≡ spec.goes_on token text.now }
{
    is_closing(text)
        || is(text, ",")
        || is(text, ".")
        || is(text, "&")
        || (is_word_token(token) && !is_declaring(text))
}

/// Whether a pattern ends before this token whose names are valid immediately: the pattern of a closure, a
/// loop or an arm.
fn ends_pattern(source: &[u8], text: &[u8], after: &[KeptToken]) -> bool
    ensures { result ≡ spec.ends_pattern source.now text.now after.now }
{
    is(text, "|")
        || is(text, "@")
        || is(text, "in")
        || (is(text, "=") && is(text_at(source, after, 0), ">"))
}

/// Whether a pattern ends before this token that a value is assigned to.
fn ends_assigned(source: &[u8], text: &[u8], after: &[KeptToken]) -> bool
    ensures { result ≡ spec.ends_assigned source.now text.now after.now }
{
    let next = text_at(source, after, 0);
    is(text, "=") && !is(next, ">") && !is(next, "=")
}

/// Whether a name before these tokens may be in a pattern whose names are valid immediately.
fn is_in_pattern(source: &[u8], pieces: &[KeptToken]) -> bool
    ensures { result ≡ spec.is_in_pattern source.now spec.most_tokens pieces.now }
{
    let mut left = MOST_TOKENS;
    let mut rest = pieces;
    'tokens: while let [piece, after @ ..] = rest {
        if left == 0 {
            return true;
        }
        let text = piece.text(source);
        if ends_pattern(source, text, after) {
            return true;
        }
        if !goes_on(piece.token(), text) {
            return false;
        }
        left -= 1;
        rest = after;
    }
    false
}

/// Whether a name before these tokens is in a pattern that a value is assigned to.
fn is_assigned(source: &[u8], pieces: &[KeptToken]) -> bool
    ensures { result ≡ spec.is_assigned source.now spec.most_tokens pieces.now }
{
    let mut left = MOST_TOKENS;
    let mut rest = pieces;
    'tokens: while let [piece, after @ ..] = rest {
        if left == 0 {
            return false;
        }
        let text = piece.text(source);
        if ends_assigned(source, text, after) {
            return true;
        }
        if !goes_on(piece.token(), text) {
            return false;
        }
        left -= 1;
        rest = after;
    }
    false
}

/// Whether a statement ends or a block begins among these tokens before a position. From there on a name is
/// valid that a value was assigned to before these tokens.
fn has_begun(source: &[u8], pieces: &[KeptToken], position: usize) -> bool
    ensures { result ≡ spec.has_begun source.now position pieces.now }
{
    let mut rest = pieces;
    'tokens: while let [piece, after @ ..] = rest {
        if position <= piece.start() {
            return false;
        }
        let text = piece.text(source);
        if is(text, ";") || is(text, "{") {
            return true;
        }
        rest = after;
    }
    false
}

/// Whether a type follows a name: `name: T`.
fn has_type(source: &[u8], after: &[KeptToken]) -> bool
    ensures { result ≡ spec.has_type source.now after.now }
{
    is(text_at(source, after, 0), ":") && !is(text_at(source, after, 1), ":")
}

/// Whether a name between `before` and `after` may be declared there, so that it is valid at a later
/// position.
pub fn is_declared(source: &[u8], before: &[u8], after: &[KeptToken], position: usize) -> bool
    ensures { result ≡ spec.is_declared source.now position before.now after.now }
{
    if is(before, "let") || is_assigned(source, after) {
        has_begun(source, after, position)
    } else {
        is_declaring(before)
            || is(before, "|")
            || is(before, "ref")
            || has_type(source, after)
            || is_in_pattern(source, after)
    }
}

/// Whether a name between `before` and `after` may be declared there, so that it is valid at some later position.
pub fn may_declare(source: &[u8], before: &[u8], after: &[KeptToken]) -> bool
    ensures { result ≡ layouts.may_declare source.now before.now after.now }
{
    is_declaring(before)
        || is(before, "|")
        || is(before, "ref")
        || has_type(source, after)
        || is_in_pattern(source, after)
        || is_assigned(source, after)
}

/// Whether these tokens declare an item or a variable with this name before a position. The word `before`
/// precedes the tokens.
pub fn is_named(
    source: &[u8],
    name: &[u8],
    before: &[u8],
    pieces: &[KeptToken],
    position: usize,
) -> bool
    ensures { result ≡ spec.is_named source.now name.now position before.now pieces.now }
{
    let mut last = before;
    let mut rest = pieces;
    'tokens: while let [piece, after @ ..] = rest {
        if position <= piece.start() {
            return false;
        }
        let text = piece.text(source);
        if text == name && is_declaring(last) {
            return true;
        }
        last = text;
        rest = after;
    }
    false
}
