//! What is noted once about the tokens of a source, so that names are looked up.

ghost use Rattle.std.specs.HashSet.{contains};
ghost use Rattle.std.specs.Prelude.{◌≡◌, ◌+◌, IfOk, drop, false, nat_eq, true, ℕ};
ghost use Rattle.timefd_lint_scan.specs.Declarations.{is_declared_before};
ghost use Rattle.timefd_lint_scan.specs.Kept.{IsLayout};
ghost use Rattle.timefd_lint_scan.specs.Layouts.{fingerprint};
ghost use Rattle.timefd_lint_scan.specs.Scopes.{is_outside, stays_open};
ghost use Rattle.timefd_lint_scan.specs.Uses.{is_only};
ghost use Rattle.timefd_lint_scan.specs.Words.{position_at, text_at, tokens_after};

use crate::blocks::{TokenPosition, begins_of, ends_of, kept_for};
use crate::fingerprint::fingerprint;
use crate::kept::KeptToken;
use crate::repeated::{Declaring, declares_at, repeated_names};
use crate::word::{is_closing, is_opening, position_at, text_at, tokens_after};
use std::alloc::{AllocError, Global};
use std::collections::HashSet;

/// What is noted about the tokens of a source.
#[derive(Drop)]
pub struct TokenLayout {
    /// The fingerprints of names that more than one token declares as items or variables.
    items: HashSet<u64>,
    /// The fingerprints of names that more than one token may declare.
    variables: HashSet<u64>,
    /// For each name that is declared where the block ends that it is in.
    ends: Vec<TokenPosition>,
    /// For each name that is declared a position after which no bracket opens that is still open there.
    begins: Vec<TokenPosition>,
}

/// What is noted about these tokens. An `Err` says that memory ran out.
pub fn layout_of(
    alloc: Global,
    source: &[u8],
    pieces: &[KeptToken],
) -> Result<TokenLayout, AllocError>
    ensures { IfOk result (IsLayout source.now pieces.now) }
{
    let items = repeated_names(alloc, source, pieces, Declaring::Surely)?;
    let variables = repeated_names(alloc, source, pieces, Declaring::Maybe)?;
    let begins = begins_of(alloc, source, pieces)?;
    let ends = ends_of(alloc, source, pieces, &begins)?;
    Ok(TokenLayout {
        items,
        variables,
        ends,
        begins,
    })
}

// Whether a name's fingerprint is among these.
fn is_among(names: &HashSet<u64>, name: &[u8]) -> bool
    ensures { result ≡ contains nat_eq names.now (fingerprint name.now) }
{
    names.contains(&fingerprint(name))
}

/// Whether the item that a token declares is the only one with its name; `false` if that isn't certain.
pub fn has_one_item(
    source: &[u8],
    pieces: &[KeptToken],
    layout: &TokenLayout,
    declared: usize,
) -> bool
    requires { IsLayout source.now pieces.now layout.now }
    ensures { result ≡ true → is_only source.now pieces.now declared ≡ true }
{
    if declared >= pieces.len() || !declares_at(source, Declaring::Surely, pieces, declared) {
        return false;
    }
    !is_among(&layout.items, text_at(source, pieces, declared))
}

/// Whether the name that a token declares can't be declared again after it; `false` if that isn't certain.
pub fn has_one_variable(
    source: &[u8],
    pieces: &[KeptToken],
    layout: &TokenLayout,
    declared: usize,
) -> bool
    requires { IsLayout source.now pieces.now layout.now }
    ensures { result ≡ true → (position : ℕ) → is_declared_before source.now (text_at source.now pieces.now declared) position
        (text_at source.now pieces.now declared) (tokens_after pieces.now declared) ≡ false }
{
    if declared >= pieces.len() || !declares_at(source, Declaring::Maybe, pieces, declared) {
        return false;
    }
    !is_among(&layout.variables, text_at(source, pieces, declared))
}

/// Whether the block that a token is in isn't closed before a position; `false` if that isn't certain.
pub fn is_open_at(
    source: &[u8],
    pieces: &[KeptToken],
    layout: &TokenLayout,
    index: usize,
    position: usize,
) -> bool
    requires { IsLayout source.now pieces.now layout.now }
    ensures { result ≡ true → stays_open source.now position 0 (drop index pieces.now) ≡ true }
{
    match kept_for(&layout.ends, index) {
        Some(end) => position <= end.position as usize,
        None => false,
    }
}

/// Whether the block isn't closed before a position that the token after this one is in; `false` if that isn't
/// certain.
#[tactic(auto, using(crate::proofs::LayoutLemmas::open_after))]
pub fn is_open_after(
    source: &[u8],
    pieces: &[KeptToken],
    layout: &TokenLayout,
    index: usize,
    position: usize,
) -> bool
    requires { IsLayout source.now pieces.now layout.now }
    ensures { result ≡ true → stays_open source.now position 0 (drop (index + 1) pieces.now) ≡ true }
{
    let text = text_at(source, pieces, index);
    if is_opening(text) || is_closing(text) || position <= position_at(pieces, index) {
        return false;
    }
    is_open_at(source, pieces, layout, index, position)
}

/// Whether all brackets that open after a position are closed again at a token; `false` if that isn't certain.
pub fn is_outside_at(
    source: &[u8],
    pieces: &[KeptToken],
    layout: &TokenLayout,
    index: usize,
    from: usize,
) -> bool
    requires { IsLayout source.now pieces.now layout.now }
    ensures { result ≡ true → is_outside source.now from (position_at pieces.now index) 0 pieces.now ≡ true }
{
    match kept_for(&layout.begins, index) {
        Some(begin) => (begin.position as usize) < from,
        None => false,
    }
}
