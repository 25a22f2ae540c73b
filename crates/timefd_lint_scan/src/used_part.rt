//! What a known call takes in place of a text, and isn't looked into: `config.format`, `other::F`, `F[0]`,
//! `concat!(..)`, `"%F".trim()`.

ghost use Rattle.std.specs.Prelude.{◌≡◌};
ghost use Rattle.timefd_lint_scan.specs.UsedParts as spec;

use crate::dialect::is;
use crate::flow::is_around_values;
use crate::kept::KeptToken;
use crate::token::Token;
use crate::value::{ends_value, hands_on, is_begun, is_value};
use crate::word::{is_closing, is_opening, text_after, text_at, text_of, tokens_after};

/// Whether a word or a literal with these tokens after it isn't the whole value: a field or a method, a path, an index,
/// a sum, or `?` follows.
fn goes_on(after: &[u8], next: &[u8]) -> bool
    ensures { result ≡ spec.goes_on after.now next.now }
{
    is(after, ".")
        || is(after, "[")
        || is(after, "+")
        || is(after, "?")
        || (is(after, ":") && is(next, ":"))
}

/// Whether a macro makes a text.
fn makes_text(name: &[u8]) -> bool
    ensures { result ≡ spec.makes_text name.now }
{
    is(name, "concat")
        || is(name, "format")
        || is(name, "env")
        || is(name, "option_env")
        || is(name, "include_str")
}

/// Whether a token is a literal.
pub fn is_literal(token: Token) -> bool
    ensures { result ≡ spec.is_literal token }
{
    match token {
        Token::Literal(_) => true,
        Token::White
        | Token::Comment
        | Token::Word
        | Token::Lifetime
        | Token::Character
        | Token::Sign
        | Token::Unclosed => false,
    }
}

/// Whether a token is a literal that is looked at, unless a bracket around it hides it.
fn is_read(source: &[u8], pieces: &[KeptToken], index: usize, token: Token) -> bool
    ensures { result ≡ spec.is_read source.now pieces.now index token }
{
    is_literal(token) && is_value(source, pieces, index)
}

/// Whether what is in a bracket isn't looked at, with so many open ones around it that say so already.
fn hides(source: &[u8], pieces: &[KeptToken], index: usize, hiding: usize) -> bool
    ensures { result ≡ spec.hides source.now pieces.now index hiding }
{
    hiding != 0 || !is_around_values(source, pieces, index)
}

/// Whether a value that these last tokens go on with, up to a comma or to the bracket after it, has no literal that is
/// looked at, and is neither a pattern nor a statement.
fn is_bare(source: &[u8], pieces: &[KeptToken], tokens: &[KeptToken]) -> bool
    ensures { result ≡ spec.is_bare source.now pieces.now 0 0 tokens.now }
{
    let mut depth: usize = 0;
    let mut hiding: usize = 0;
    let mut rest = tokens;
    'tokens: while let [piece, after @ ..] = rest {
        let index = pieces.len().saturating_sub(rest.len());
        if hiding == 0 && is_read(source, pieces, index, piece.token()) {
            return false;
        }
        let text = piece.text(source);
        if is_opening(text) {
            depth += 1;
            if hides(source, pieces, index, hiding) {
                hiding += 1;
            }
        } else if is_closing(text) {
            if depth == 0 {
                return true;
            }
            depth -= 1;
            hiding = hiding.saturating_sub(1);
        } else if depth == 0 && is(text, ",") {
            return true;
        } else if depth == 0 && (is(text, ";") || is(text, "=")) {
            return false;
        }
        rest = after;
    }
    true
}

/// Whether `self` or `Self` only leads to a name that is used itself: `self.f()`, `Self::F`, `Self::F.as_str()`.
fn leads_on(source: &[u8], pieces: &[KeptToken], index: usize) -> bool
    ensures { result ≡ spec.leads_on source.now pieces.now index }
{
    let name = text_at(source, pieces, index);
    if is(name, "self") {
        is(text_after(source, pieces, index, 3), "(")
    } else {
        is(name, "Self")
            && (!goes_on(
                text_after(source, pieces, index, 4),
                text_after(source, pieces, index, 5),
            ) || hands_on(text_after(source, pieces, index, 5)))
    }
}

/// Whether a value goes on after a token that it begins with, and nothing in it is looked at.
fn goes_on_bare(source: &[u8], pieces: &[KeptToken], index: usize) -> bool
    ensures { result ≡ spec.goes_on_bare source.now pieces.now index }
{
    goes_on(
        text_after(source, pieces, index, 1),
        text_after(source, pieces, index, 2),
    ) && is_bare(source, pieces, tokens_after(pieces, index))
}

/// Whether a value begins with a literal that isn't looked at, as it isn't the whole value: `"%F".trim()`, `"%F" + x`.
pub fn is_changed(source: &[u8], pieces: &[KeptToken], index: usize) -> bool
    ensures { result ≡ spec.is_changed source.now pieces.now index }
{
    is_begun(source, pieces, index)
        && !ends_value(source, pieces, index)
        && goes_on_bare(source, pieces, index)
}

/// Whether a value begins with a word, and nothing in it is looked at.
pub fn is_part(source: &[u8], pieces: &[KeptToken], index: usize) -> bool
    ensures { result ≡ spec.is_part source.now pieces.now index }
{
    let after = text_after(source, pieces, index, 1);
    is_begun(source, pieces, index)
        && !leads_on(source, pieces, index)
        && ((makes_text(text_at(source, pieces, index)) && is(after, "!"))
            || goes_on_bare(source, pieces, index))
}
