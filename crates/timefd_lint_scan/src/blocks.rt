//! Where the blocks that tokens are in begin and end.

ghost use Rattle.std.proofs.Common.{reverse};
ghost use Rattle.std.specs.List.{Contains};
ghost use Rattle.std.specs.Prelude.{◌≡◌, ◌∷◌, IfOk, IfSome, List, OnOk, get_or, length, ℕ};
ghost use Rattle.timefd_lint_scan.specs.Layouts.{AreBegins, AreEnds};
ghost use Rattle.timefd_lint_scan.specs.Layouts as spec;

use crate::kept::KeptToken;
use crate::shadow::is_declaring;
use crate::word::{is_closing, is_opening, is_word_token};
use std::alloc::{AllocError, Global};

/// A position that is kept for a token.
#[derive(Clone, Copy)]
pub struct TokenPosition {
    /// The token's index.
    pub token: u32,
    /// A byte index.
    pub position: u32,
}

/// What is kept for a token, if something is. The tokens are in order.
pub fn kept_for(kept: &[TokenPosition], token: usize) -> Option<TokenPosition>
    ensures token { IfSome result (λ found. found.token ≡ token) }
    ensures among { IfSome result (Contains kept.now) }
{
    let mut low: usize = 0;
    let mut high = kept.len();
    'halves: while low < high {
        let middle = low + (high - low) / 2;
        let found = kept[middle];
        if found.token as usize == token {
            return Some(found);
        }
        if (found.token as usize) < token {
            low = middle + 1;
        } else {
            high = middle;
        }
    }
    None
}

// The last of these positions, or else another one.
fn last_or(positions: &[u32], other: u32) -> u32
    ensures { (st : List ℕ) → positions.now ≡ reverse st → result ≡ get_or st 0 other }
{
    positions.last().copied().unwrap_or(other)
}

// Drops the last of these positions, if there is one.
fn drop_last(positions: &mut Vec<u32>)
    ensures { (st : List ℕ) → positions.old.items ≡ reverse st → positions.new.items ≡ reverse (spec.but_first st) }
{
    positions.pop();
}

// Adds a position.
fn add_last(positions: &mut Vec<u32>, position: u32) -> Result<(), AllocError>
    ensures { OnOk result ((st : List ℕ) → positions.old.items ≡ reverse st
        → positions.new.items ≡ reverse (position ∷ st)) }
{
    positions.push(position)?;
    Ok(())
}

/// Where the block ends that these closing brackets are around, the next one last.
pub fn end_by(closings: &[u32], source: &[u8]) -> usize
    ensures { (st : List ℕ) → closings.now ≡ reverse st → result ≡ get_or st 0 (length source.now) }
{
    match closings.last() {
        Some(position) => *position as usize,
        None => source.len(),
    }
}

/// The closing brackets of blocks around a token, the next one last, by those of the token after it.
#[inline(always)]
pub fn pass_back(
    closings: &mut Vec<u32>,
    source: &[u8],
    piece: &KeptToken,
) -> Result<(), AllocError>
    ensures { OnOk result ((st : List ℕ) → closings.old.items ≡ reverse st
        → closings.new.items ≡ reverse (spec.closings_before source.now piece.now st)) }
{
    let text = piece.text(source);
    if is_opening(text) {
        drop_last(closings);
        return Ok(());
    }
    if is_closing(text) {
        add_last(closings, piece.kept_start())?;
        return Ok(());
    }
    Ok(())
}

/// Where the blocks end that these tokens are in, which are in order; for none if the source has 4 GiB or more. An `Err` says
/// that memory ran out.
#[tactic(auto, using(crate::proofs::BlockLemmas::no_ends, crate::proofs::BlockLemmas::none_closed))]
pub fn ends_of(
    alloc: Global,
    source: &[u8],
    pieces: &[KeptToken],
    declared: &[TokenPosition],
) -> Result<Vec<TokenPosition>, AllocError>
    ensures { IfOk result (λ ends. AreEnds source.now pieces.now ends.items) }
{
    let mut ends: Vec<TokenPosition> = Vec::with_capacity(alloc, declared.len())?;
    if source.len() > 4_294_967_295 {
        return Ok(ends);
    }
    let len = source.len() as u32;
    let mut closings: Vec<u32> = Vec::new(alloc);
    let mut count = declared.len();
    let mut left = pieces.len();
    'tokens: while left > 0 {
        left -= 1;
        pass_back(&mut closings, source, &pieces[left])?;
        if count > 0 && declared[count - 1].token as usize == left {
            count -= 1;
            ends.push(TokenPosition {
                token: declared[count].token,
                position: last_or(&closings, len),
            })?;
        }
    }
    ends.reverse();
    Ok(ends)
}

// The positions for brackets that are open after a token, by those that were open before it.
fn pass_on(openings: &mut Vec<u32>, source: &[u8], piece: &KeptToken) -> Result<(), AllocError>
    ensures { OnOk result ((st : List ℕ) → openings.old.items ≡ reverse st
        → openings.new.items ≡ reverse (spec.opened source.now piece.now st)) }
{
    let text = piece.text(source);
    if is_opening(text) {
        let around = last_or(openings, 0);
        add_last(openings, piece.kept_start().max(around))?;
        return Ok(());
    }
    if is_closing(text) {
        drop_last(openings);
        return Ok(());
    }
    Ok(())
}

/// For each name that is declared a position after which no bracket opens that is still open there; for none if the tokens aren't
/// in order. An `Err` says that memory ran out.
#[tactic(auto, using(crate::proofs::BeginLemmas::at_first, crate::proofs::BeginLemmas::no_begins))]
pub fn begins_of(
    alloc: Global,
    source: &[u8],
    pieces: &[KeptToken],
) -> Result<Vec<TokenPosition>, AllocError>
    ensures { IfOk result (λ begins. AreBegins source.now pieces.now begins.items) }
{
    if pieces.len() > 4_294_967_295 {
        return Ok(Vec::new(alloc));
    }
    let mut begins: Vec<TokenPosition> = Vec::new(alloc);
    let mut openings: Vec<u32> = Vec::new(alloc);
    let mut is_declared = false;
    let mut end = 0;
    for (index, piece) in pieces.iter().enumerate() {
        if piece.start() < end || piece.end() <= piece.start() {
            return Ok(Vec::new(alloc));
        }
        if is_declared {
            begins.push(TokenPosition {
                token: index as u32,
                position: last_or(&openings, 0),
            })?;
        }
        is_declared = is_word_token(piece.token()) && is_declaring(piece.text(source));
        pass_on(&mut openings, source, piece)?;
        end = piece.end();
    }
    Ok(begins)
}
