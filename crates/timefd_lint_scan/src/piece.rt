//! A source, cut into its tokens.

ghost use Rattle.std.specs.Prelude.{IfOk, length};
ghost use Rattle.timefd_lint_scan.specs.Sources.{AreTokens};

use crate::token::{Token, first};
use std::alloc::{AllocError, Global};

/// A token, and where it is in its source: the bytes `start..end`.
#[derive(Clone, Copy, Debug, PartialEq, Eq)]
pub struct PlacedToken {
    pub token: Token,
    pub start: usize,
    pub end: usize,
}

/// The tokens of a source, in order. Together they are all of its bytes. An `Err` says that memory
/// ran out.
#[tactic(auto, using(crate::proofs::PieceLemmas::at_first, crate::proofs::PieceLemmas::one_more, crate::proofs::PieceLemmas::at_last))]
pub fn pieces_of(alloc: Global, source: &str) -> Result<Vec<PlacedToken>, AllocError>
    ensures { IfOk result (λ pieces. AreTokens (length source.now) source.now pieces.items) }
{
    let len = source.len();
    let mut pieces = Vec::new(alloc);
    let mut rest = source.as_bytes();
    'tokens: while let Some(step) = first(rest) {
        pieces.push(PlacedToken {
            token: step.token,
            start: len - rest.len(),
            end: len - step.rest.len(),
        })?;
        rest = step.rest;
    }
    Ok(pieces)
}
