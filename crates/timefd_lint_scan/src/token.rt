//! The tokens of a source, as precise as is needed to distinguish literals from everything else.

ghost use Rattle.std.specs.Prelude.{◌≡◌, ◌≤◌, ◌<◌, ◌+◌, length, MatchOption, ⊤};
ghost use Rattle.timefd_lint_scan.specs.Bytes.{seen};
ghost use Rattle.timefd_lint_scan.specs.Tokens as spec;
ghost use Rattle.timefd_lint_scan.specs.Tokens.{begun, begun_any};

use crate::character::after_character;
use crate::class::{ByteSet, after_run, is_white, is_word};
use crate::comment::after_comment;
use crate::string::{after_raw, after_string, hashes};

/// What a string literal denotes.
#[derive(Clone, Copy, Debug, PartialEq, Eq)]
pub enum Encoding {
    /// A text: `".."`.
    Str,
    /// Bytes: `b".."`.
    Bytes,
    /// A C string: `c".."`.
    C,
}

/// How a string literal is written.
#[derive(Clone, Copy, Debug, PartialEq, Eq)]
pub enum LiteralKind {
    /// With escapes.
    Escaped(Encoding),
    /// Raw, with this many `#` at either end.
    Raw(Encoding, usize),
}

/// A token.
#[derive(Clone, Copy, Debug, PartialEq, Eq)]
pub enum Token {
    /// A run of white bytes.
    White,
    /// A comment, of a line or a block.
    Comment,
    /// A word: an identifier, a keyword or a number's digits. A raw identifier is `r`, a sign and a word.
    Word,
    /// A lifetime: `'a`.
    Lifetime,
    /// A character or a byte: `'x'`, `b'x'`.
    Character,
    /// A string literal.
    Literal(LiteralKind),
    /// Any other byte.
    Sign,
    /// A literal or a comment that isn't closed: everything up to the end.
    Unclosed,
}

/// A token, and what follows it.
#[derive(Clone, Copy)]
pub struct Step<'a> {
    pub token: Token,
    pub rest: &'a [u8],
}

// The token that begins before this text: if it isn't closed, it goes on to the end.
fn closed<'a>(token: Token, text: &'a [u8], after: Option<&'a [u8]>) -> Step<'a>
    requires { MatchOption after ⊤ (λ rest. length rest.now ≤ length text.now) }
    ensures begin { begun result ≡ spec.closed token (seen after.entry) }
    ensures within { length result.rest.now ≤ length text.now }
{
    match after {
        Some(rest) => Step { token, rest },
        None => Step {
            token: Token::Unclosed,
            rest: &[],
        },
    }
}

fn opened_comment(text: &[u8]) -> Option<Step<'_>>
    ensures begin { begun_any result ≡ spec.opened_comment text.now }
    ensures within { MatchOption result ⊤ (λ step. length step.rest.now ≤ length text.now) }
{
    match text {
        [b'/', after @ ..] => Some(Step {
            token: Token::Comment,
            rest: after_run(ByteSet::Line, after),
        }),
        [b'*', after @ ..] => Some(closed(Token::Comment, after, after_comment(after))),
        _ => None,
    }
}

fn comment(text: &[u8]) -> Option<Step<'_>>
    ensures begin { begun_any result ≡ spec.comment text.now }
    ensures within { MatchOption result ⊤ (λ step. length step.rest.now < length text.now) }
{
    match text {
        [b'/', after @ ..] => opened_comment(after),
        _ => None,
    }
}

fn string(encoding: Encoding, text: &[u8]) -> Step<'_>
    ensures begin { begun result ≡ spec.string encoding text.now }
    ensures within { length result.rest.now ≤ length text.now }
{
    closed(
        Token::Literal(LiteralKind::Escaped(encoding)),
        text,
        after_string(text),
    )
}

fn opened_raw(encoding: Encoding, hash_count: usize, text: &[u8]) -> Option<Step<'_>>
    ensures begin { begun_any result ≡ spec.opened_raw encoding hash_count text.now }
    ensures within { MatchOption result ⊤ (λ step. length step.rest.now ≤ length text.now) }
{
    match text {
        [b'"', after @ ..] => Some(closed(
            Token::Literal(LiteralKind::Raw(encoding, hash_count)),
            after,
            after_raw(hash_count, after),
        )),
        _ => None,
    }
}

fn raw(encoding: Encoding, text: &[u8]) -> Option<Step<'_>>
    ensures begin { begun_any result ≡ spec.raw encoding text.now }
    ensures within { MatchOption result ⊤ (λ step. length step.rest.now ≤ length text.now) }
{
    let hash_count = hashes(text);
    opened_raw(encoding, hash_count, text.split_at(hash_count).1)
}

fn prefixed(encoding: Encoding, text: &[u8]) -> Option<Step<'_>>
    ensures begin { begun_any result ≡ spec.prefixed encoding text.now }
    ensures within { MatchOption result ⊤ (λ step. length step.rest.now ≤ length text.now) }
{
    match text {
        [b'"', after @ ..] => Some(string(encoding, after)),
        [b'r', after @ ..] => raw(encoding, after),
        _ => None,
    }
}

fn literal(text: &[u8]) -> Option<Step<'_>>
    ensures begin { begun_any result ≡ spec.literal text.now }
    ensures within { MatchOption result ⊤ (λ step. length step.rest.now < length text.now) }
{
    match text {
        [b'"', after @ ..] => Some(string(Encoding::Str, after)),
        [b'r', after @ ..] => raw(Encoding::Str, after),
        [b'b', after @ ..] => prefixed(Encoding::Bytes, after),
        [b'c', after @ ..] => prefixed(Encoding::C, after),
        _ => None,
    }
}

fn after_byte(text: &[u8]) -> Option<&[u8]>
    ensures rest { seen result ≡ spec.after_byte text.now }
    ensures within { MatchOption result ⊤ (λ rest. length rest.now ≤ length text.now) }
{
    match text {
        [b'\'', after @ ..] => after_character(after),
        _ => None,
    }
}

fn after_quoted(text: &[u8]) -> Option<&[u8]>
    ensures rest { seen result ≡ spec.after_quoted text.now }
    ensures within { MatchOption result ⊤ (λ rest. length rest.now < length text.now) }
{
    match text {
        [b'\'', after @ ..] => after_character(after),
        [b'b', after @ ..] => after_byte(after),
        _ => None,
    }
}

fn begins_word(text: &[u8]) -> bool
    ensures { result ≡ spec.begins_word text.now }
{
    match text {
        [] => false,
        [byte, ..] => is_word(*byte),
    }
}

fn plain(byte: u8, after: &[u8]) -> Step<'_>
    ensures begin { begun result ≡ spec.plain byte after.now }
    ensures within { length result.rest.now ≤ length after.now }
{
    if is_white(byte) {
        Step {
            token: Token::White,
            rest: after_run(ByteSet::White, after),
        }
    } else if is_word(byte) {
        Step {
            token: Token::Word,
            rest: after_run(ByteSet::Word, after),
        }
    } else if byte == b'\'' && begins_word(after) {
        Step {
            token: Token::Lifetime,
            rest: after_run(ByteSet::Word, after),
        }
    } else {
        Step {
            token: Token::Sign,
            rest: after,
        }
    }
}

fn quoted_or_plain<'a>(byte: u8, after: &'a [u8], quoted: Option<&'a [u8]>) -> Step<'a>
    requires { MatchOption quoted ⊤ (λ rest. length rest.now ≤ length after.now) }
    ensures begin { begun result ≡ spec.quoted_or_plain byte after.now (seen quoted.entry) }
    ensures within { length result.rest.now ≤ length after.now }
{
    match quoted {
        Some(rest) => Step {
            token: Token::Character,
            rest,
        },
        None => plain(byte, after),
    }
}

fn literal_or_less<'a>(
    text: &'a [u8],
    byte: u8,
    after: &'a [u8],
    literal: Option<Step<'a>>,
) -> Step<'a>
    requires shorter { length text.now ≡ length after.now + 1 }
    requires literal { MatchOption literal ⊤ (λ step. length step.rest.now < length text.now) }
    ensures begin { begun result ≡ spec.literal_or_less text.now byte after.now (begun_any literal.entry) }
    ensures within { length result.rest.now < length text.now }
{
    match literal {
        Some(step) => step,
        None => quoted_or_plain(byte, after, after_quoted(text)),
    }
}

fn comment_or_less<'a>(
    text: &'a [u8],
    byte: u8,
    after: &'a [u8],
    comment: Option<Step<'a>>,
) -> Step<'a>
    requires shorter { length text.now ≡ length after.now + 1 }
    requires comment { MatchOption comment ⊤ (λ step. length step.rest.now < length text.now) }
    ensures begin { begun result ≡ spec.comment_or_less text.now byte after.now (begun_any comment.entry) }
    ensures within { length result.rest.now < length text.now }
{
    match comment {
        Some(step) => step,
        None => literal_or_less(text, byte, after, literal(text)),
    }
}

/// The token that a text begins with; `None` if the text is empty.
pub fn first(text: &[u8]) -> Option<Step<'_>>
    ensures begin { begun_any result ≡ spec.first text.now }
    ensures within { MatchOption result ⊤ (λ step. length step.rest.now < length text.now) }
{
    match text {
        [] => None,
        [byte, after @ ..] => Some(comment_or_less(text, *byte, after, comment(text))),
    }
}
