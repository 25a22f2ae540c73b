//! The tokens of a pattern.

ghost use Rattle.std.specs.Prelude.{◌≡◌, ◌≤◌, ◌<◌, ◌++◌, true, length, List, MatchOption, IfOk, ⊤};
ghost use Rattle.timefd_lint_files.specs.Tokens as spec;
ghost use Rattle.timefd_lint_files.specs.Tokens.{AreTokens, BeginsAny, begun};

use crate::ranges::begin_class;
use crate::token::{PatternToken, TokenStep};
use std::alloc::{AllocError, Global};

/// What follows all stars at the front.
fn after_stars(text: &[u8]) -> &[u8]
    ensures rest { result.now ≡ spec.after_stars text.now }
    ensures within { length result.now ≤ length text.now }
{
    let mut rest = text;
    'stars: while let [b'*', after @ ..] = rest {
        rest = after;
    }
    rest
}

/// The token for two or more stars that begin a name. `after` is what follows them.
fn doubled(after: &[u8]) -> TokenStep<'_>
    ensures begin { begun result ≡ spec.doubled after.now }
    ensures within { length result.rest.now ≤ length after.now }
{
    match after {
        [] => TokenStep {
            token: PatternToken::Rest,
            rest: after,
        },
        [b'/', rest @ ..] => TokenStep {
            token: PatternToken::Folders,
            rest,
        },
        _ => TokenStep {
            token: PatternToken::Star,
            rest: after,
        },
    }
}

/// The token for a first star, read from what follows it.
fn starred(begins_name: bool, text: &[u8]) -> TokenStep<'_>
    ensures begin { begun result ≡ spec.starred begins_name text.now }
    ensures within { length result.rest.now ≤ length text.now }
{
    let rest = after_stars(text);
    if begins_name && rest.len() < text.len() {
        return doubled(rest);
    }
    TokenStep {
        token: PatternToken::Star,
        rest,
    }
}

/// The token for a backslash, read from what follows it.
fn escaped(text: &[u8]) -> TokenStep<'_>
    ensures begin { begun result ≡ spec.escaped text.now }
    ensures within { length result.rest.now ≤ length text.now }
{
    match text {
        [] => TokenStep {
            token: PatternToken::Nothing,
            rest: text,
        },
        [byte, rest @ ..] => TokenStep {
            token: PatternToken::Byte(*byte),
            rest,
        },
    }
}

/// The token that begins with this byte, which doesn't open a class.
fn begun_by(begins_name: bool, byte: u8, after: &[u8]) -> TokenStep<'_>
    ensures begin { begun result ≡ spec.begun_by begins_name byte after.now }
    ensures within { length result.rest.now ≤ length after.now }
{
    match byte {
        b'*' => starred(begins_name, after),
        b'\\' => escaped(after),
        b'?' => TokenStep {
            token: PatternToken::Any,
            rest: after,
        },
        _ => TokenStep {
            token: PatternToken::Byte(byte),
            rest: after,
        },
    }
}

/// The token that a text begins with. `None` at its end. At the beginning of a name two stars mean folders.
fn first(alloc: Global, begins_name: bool, text: &[u8]) -> Result<Option<TokenStep<'_>>, AllocError>
    ensures begin { IfOk result (λ found. BeginsAny begins_name text.now found) }
    ensures within { IfOk result (λ found.
        MatchOption found ⊤ (λ step. length step.rest.now < length text.now)) }
{
    match text {
        [] => Ok(None),
        [b'[', after @ ..] => Ok(Some(begin_class(alloc, after)?)),
        [byte, after @ ..] => Ok(Some(begun_by(begins_name, *byte, after))),
    }
}

/// Whether a name begins after a token.
fn ends_name(token: &PatternToken) -> bool
    ensures { result ≡ spec.ends_name token.now }
{
    match token {
        PatternToken::Byte(byte) => *byte == b'/',
        PatternToken::Folders => true,
        PatternToken::Any
        | PatternToken::OneOf(_)
        | PatternToken::Star
        | PatternToken::Rest
        | PatternToken::Nothing => false,
    }
}

/// Adds the tokens of a text that begins a name. An `Err` says that memory ran out.
#[tactic(auto, using(crate::proofs::TokenLemmas::at_first, crate::proofs::TokenLemmas::one_more, crate::proofs::TokenLemmas::at_last))]
pub fn push_tokens(
    alloc: Global,
    tokens: &mut Vec<PatternToken>,
    text: &[u8],
) -> Result<(), AllocError>
    ensures { IfOk result (λ _. (more : List PatternToken) × (tokens.new.items ≡ tokens.old.items ++ more)
        × AreTokens true text.now more) }
{
    let mut begins_name = true;
    let mut rest = text;
    'tokens: while let Some(step) = first(alloc, begins_name, rest)? {
        begins_name = ends_name(&step.token);
        tokens.push(step.token).map_err(AllocError::from)?;
        rest = step.rest;
    }
    Ok(())
}
