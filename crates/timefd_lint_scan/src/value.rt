//! Whether a token is a whole value of what is around it: of an argument, a block, an arm, an array.

ghost use Rattle.std.specs.Prelude.{◌≡◌};
ghost use Rattle.timefd_lint_scan.specs.Values as spec;

use crate::dialect::is;
use crate::kept::KeptToken;
use crate::word::{is_closing, is_opening, text_after, text_before};

/// Whether an equals sign after this token is part of a comparison or of an operator.
pub fn is_operator(text: &[u8]) -> bool
    ensures { result ≡ spec.is_operator text.now }
{
    is(text, "=")
        || is(text, "!")
        || is(text, "<")
        || is(text, ">")
        || is(text, "+")
        || is(text, "|")
}

/// Whether a token is the first one in the closure of `unwrap_or_else(|| ..)`.
fn begins_fallback(source: &[u8], pieces: &[KeptToken], index: usize) -> bool
    ensures { result ≡ spec.begins_fallback source.now pieces.now index }
{
    is(text_before(source, pieces, index, 1), "|")
        && is(text_before(source, pieces, index, 2), "|")
        && is(text_before(source, pieces, index, 3), "(")
        && is(text_before(source, pieces, index, 4), "unwrap_or_else")
}

/// Whether a value may begin at a token: an opening bracket, a comma, an arrow, an equals sign, `in`, the end of a
/// statement, or `unwrap_or_else(||` precedes it.
fn begins_value(source: &[u8], pieces: &[KeptToken], index: usize) -> bool
    ensures { result ≡ spec.begins_value source.now pieces.now index }
{
    let before = text_before(source, pieces, index, 1);
    let farther = text_before(source, pieces, index, 2);
    is_opening(before)
        || is(before, ",")
        || is(before, ";")
        || is(before, "}")
        || is(before, "in")
        || (is(before, ">") && is(farther, "="))
        || (is(before, "=") && !is_operator(farther))
        || begins_fallback(source, pieces, index)
}

/// Whether a method passes a text on as it is.
pub fn hands_on(method: &[u8]) -> bool
    ensures { result ≡ spec.hands_on method.now }
{
    is(method, "as_ref")
        || is(method, "as_str")
        || is(method, "into")
        || is(method, "to_string")
        || is(method, "to_owned")
        || is(method, "clone")
        || is(method, "iter")
        || is(method, "into_iter")
}

fn ends(text: &[u8]) -> bool
    ensures { result ≡ spec.ends text.now }
{
    is_closing(text) || is(text, ",") || is(text, ";")
}

/// Whether a token's value is only said to be a text, and ends then: `as &str`.
fn is_said_a_text(source: &[u8], pieces: &[KeptToken], index: usize) -> bool
    ensures { result ≡ spec.is_said_a_text source.now pieces.now index }
{
    is(text_after(source, pieces, index, 1), "as")
        && is(text_after(source, pieces, index, 2), "&")
        && is(text_after(source, pieces, index, 3), "str")
        && ends(text_after(source, pieces, index, 4))
}

/// Whether a value may end with a token, with a method that passes it on, or with `as &str`.
pub fn ends_value(source: &[u8], pieces: &[KeptToken], index: usize) -> bool
    ensures { result ≡ spec.ends_value source.now pieces.now index }
{
    let after = text_after(source, pieces, index, 1);
    ends(after)
        || (is(after, ".")
            && hands_on(text_after(source, pieces, index, 2))
            && is(text_after(source, pieces, index, 3), "(")
            && is(text_after(source, pieces, index, 4), ")")
            && ends(text_after(source, pieces, index, 5)))
        || is_said_a_text(source, pieces, index)
}

/// The index of a value's first token: the `&` or `*` before it, if there is one.
fn borrowed_at(source: &[u8], pieces: &[KeptToken], index: usize) -> usize
    ensures { result ≡ spec.borrowed_at source.now pieces.now index }
{
    let before = text_before(source, pieces, index, 1);
    if is(before, "&") || is(before, "*") {
        index.saturating_sub(1)
    } else {
        index
    }
}

/// Whether a value begins at a token, with or without `&` or `*`.
pub fn is_begun(source: &[u8], pieces: &[KeptToken], index: usize) -> bool
    ensures { result ≡ spec.is_begun source.now pieces.now index }
{
    begins_value(source, pieces, borrowed_at(source, pieces, index))
}

/// Whether a token is a whole value.
pub fn is_value(source: &[u8], pieces: &[KeptToken], index: usize) -> bool
    ensures { result ≡ spec.is_value source.now pieces.now index }
{
    is_begun(source, pieces, index) && ends_value(source, pieces, index)
}
