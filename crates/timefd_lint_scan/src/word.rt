//! The texts of tokens.

ghost use Rattle.std.specs.Prelude.{◌≡◌, drop};
ghost use Rattle.timefd_lint_scan.specs.Words as spec;

use crate::dialect::is;
use crate::kept::KeptToken;
use crate::literal::cut;
use crate::piece::PlacedToken;
use crate::token::Token;

/// The text of a token.
pub fn text_of(source: &[u8], piece: PlacedToken) -> &[u8]
    ensures { result.now ≡ spec.text_of source.now piece }
{
    match cut(source, piece) {
        Some(text) => text,
        None => &[],
    }
}

/// The tokens from an index on.
pub fn tokens_from(pieces: &[KeptToken], index: usize) -> &[KeptToken]
    ensures { result.now ≡ drop index pieces.now }
{
    pieces.get(index..).unwrap_or(&[])
}

/// The tokens after the one at an index.
pub fn tokens_after(pieces: &[KeptToken], index: usize) -> &[KeptToken]
    ensures { result.now ≡ spec.tokens_after pieces.now index }
{
    match tokens_from(pieces, index) {
        [_, after @ ..] => after,
        [] => &[],
    }
}

/// The text of the token at an index; empty if there is none.
pub fn text_at<'a>(source: &'a [u8], pieces: &[KeptToken], index: usize) -> &'a [u8]
    ensures { result.now ≡ spec.text_at source.now pieces.now index }
{
    match pieces.get(index) {
        Some(piece) => piece.text(source),
        None => &[],
    }
}

/// The text of the token `ahead` tokens after the one at an index.
pub fn text_after<'a>(
    source: &'a [u8],
    pieces: &[KeptToken],
    index: usize,
    ahead: usize,
) -> &'a [u8]
    ensures { result.now ≡ spec.text_after source.now pieces.now index ahead }
{
    match index.checked_add(ahead) {
        Some(at) => text_at(source, pieces, at),
        None => &[],
    }
}

/// The text of the token `back` tokens before the one at an index.
pub fn text_before<'a>(
    source: &'a [u8],
    pieces: &[KeptToken],
    index: usize,
    back: usize,
) -> &'a [u8]
    ensures { result.now ≡ spec.text_before source.now pieces.now index back }
{
    if back <= index {
        text_at(source, pieces, index - back)
    } else {
        &[]
    }
}

/// Whether the token at an index is a word.
pub fn is_word_at(pieces: &[KeptToken], index: usize) -> bool
    ensures { result ≡ spec.is_word_at pieces.now index }
{
    match pieces.get(index) {
        Some(piece) => is_word_token(piece.token()),
        None => false,
    }
}

/// Whether a token is a word.
pub fn is_word_token(token: Token) -> bool
    ensures { result ≡ spec.is_word_token token }
{
    match token {
        Token::Word => true,
        Token::White
        | Token::Comment
        | Token::Lifetime
        | Token::Character
        | Token::Literal(_)
        | Token::Sign
        | Token::Unclosed => false,
    }
}

/// Where the token at an index begins, as a byte index; 0 if there is none.
pub fn position_at(pieces: &[KeptToken], index: usize) -> usize
    ensures { result ≡ spec.position_at pieces.now index }
{
    match pieces.get(index) {
        Some(piece) => piece.start(),
        None => 0,
    }
}

/// Whether a token opens a bracket.
pub fn is_opening(text: &[u8]) -> bool
    ensures { result ≡ spec.is_opening text.now }
{
    is(text, "(") || is(text, "[") || is(text, "{")
}

/// Whether a token closes a bracket.
pub fn is_closing(text: &[u8]) -> bool
    ensures { result ≡ spec.is_closing text.now }
{
    is(text, ")") || is(text, "]") || is(text, "}")
}
