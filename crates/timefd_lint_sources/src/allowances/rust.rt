//! The comments in a source of Rust.

ghost use Rattle.std.specs.Prelude.{◌≡◌, ◌++◌, IfOk, OnOk};
ghost use Rattle.timefd_lint_scan.specs.Marks as marks;
ghost use Rattle.timefd_lint_sources.specs.Allowances.Found as spec;

use crate::allowances::comment::{Allowance, CommentSign, push_allowed};
use std::alloc::{AllocError, Global};
use timefd_lint_scan::{PlacedToken, Token, comments_of};

fn is_comment(token: Token) -> bool
    ensures { result ≡ marks.is_comment token }
{
    match token {
        Token::Comment => true,
        Token::White
        | Token::Word
        | Token::Lifetime
        | Token::Character
        | Token::Literal(_)
        | Token::Sign
        | Token::Unclosed => false,
    }
}

// Adds what a token allows, if it is a comment.
fn push_token(
    found: &mut Vec<Allowance>,
    source: &[u8],
    piece: PlacedToken,
) -> Result<(), AllocError>
    ensures { OnOk result (found.new.items ≡ found.old.items ++ spec.in_token source.now piece) }
{
    if is_comment(piece.token) {
        push_allowed(found, CommentSign::Slashes, source, piece.start, piece.end)?;
    }
    Ok(())
}

// Adds what these tokens allow.
fn push_tokens(
    found: &mut Vec<Allowance>,
    source: &[u8],
    pieces: &[PlacedToken],
) -> Result<(), AllocError>
    ensures { OnOk result (found.new.items ≡ found.old.items ++ spec.in_tokens source.now pieces.now) }
{
    let mut left = pieces;
    'tokens: while let [piece, rest @ ..] = left {
        push_token(found, source, *piece)?;
        left = rest;
    }
    Ok(())
}

/// What the comments in a source of Rust allow, in order. Only its comments are kept in memory. An `Err` says that memory
/// ran out.
pub fn allowances_of_rust(alloc: Global, source: &str) -> Result<Vec<Allowance>, AllocError>
    ensures { IfOk result (λ found. spec.AreByRust source.now found.items) }
{
    let comments = comments_of(alloc, source)?;
    let mut found = Vec::new(alloc);
    push_tokens(&mut found, source.as_bytes(), &comments)?;
    Ok(found)
}
