//! Names that are used instead of descriptions, and what their use says about the text that they denote.

ghost use Rattle.std.specs.Prelude.{◌≡◌, ◌+◌, ◌<◌, IfSome, None, false, length, true};
ghost use Rattle.timefd_lint_scan.specs.Declarations.{is_declared_before};
ghost use Rattle.timefd_lint_scan.specs.FoundUses.{IsFound};
ghost use Rattle.timefd_lint_scan.specs.Kept.{IsLayout};
ghost use Rattle.timefd_lint_scan.specs.Scopes.{reaches, stays_open};
ghost use Rattle.timefd_lint_scan.specs.Uses.{AreBefore, AreFurthest, AreUnused, IsFirstUse};
ghost use Rattle.timefd_lint_scan.specs.Uses as spec;
ghost use Rattle.timefd_lint_scan.specs.Words.{text_at, tokens_after};

use crate::alias::after_first;
use crate::dialect::is;
use crate::firsts::first_of;
use crate::kept::KeptToken;
use crate::known::Known;
use crate::layout::{
    TokenLayout, has_one_item, has_one_variable, is_open_after, is_open_at, is_outside_at,
};
use crate::piece::PlacedToken;
use crate::runs::end_at;
use crate::scope::reaches;
use crate::seen::is_seen;
use crate::shadow::is_named;
use crate::word::{position_at, text_at, text_before, text_of, tokens_after};
use std::collections::HashMap;

/// How a name is used.
#[derive(Clone, Copy)]
pub enum Way {
    /// Its value is used.
    Value,
    /// It is called.
    Call,
    /// Only a part of it is used, or what another name stands for: `config.format`, `other::F`, `F[0]`,
    /// `concat!(..)`. Or it is a literal that isn't the whole value: `"%F".trim()`. No text is looked for there.
    Part,
}

/// A name that is used instead of a description: a constant, a variable, or a function that is called. It may be a
/// literal too, if that isn't the whole value.
#[derive(Clone, Copy)]
pub struct Use {
    /// The name.
    pub name: PlacedToken,
    /// How it is used.
    pub way: Way,
    /// What is known about the text that it denotes.
    pub known: Known,
}

/// Whether no other item or variable of a source has the name that this token declares.
fn is_only(source: &[u8], pieces: &[KeptToken], layout: &TokenLayout, declared: usize) -> bool
    requires { IsLayout source.now pieces.now layout.now }
    ensures { result ≡ spec.is_only source.now pieces.now declared }
{
    if has_one_item(source, pieces, layout, declared) {
        return true;
    }
    let name = text_at(source, pieces, declared);
    let after = tokens_after(pieces, declared);
    !is_named(source, name, &[], pieces, position_at(pieces, declared))
        && !is_named(source, name, name, after, source.len())
}

/// Whether a name used at a position is the one that a token declares: with `let` up to the end of its
/// block, with `for` in the loop's block, and otherwise in the block of its item.
pub fn is_meant(
    source: &[u8],
    pieces: &[KeptToken],
    layout: &TokenLayout,
    declared: usize,
    position: usize,
) -> bool
    requires { IsLayout source.now pieces.now layout.now }
    ensures { result ≡ spec.is_meant source.now pieces.now declared position }
{
    let before = text_before(source, pieces, declared, 1);
    let name = text_at(source, pieces, declared);
    let after = tokens_after(pieces, declared);
    if is(before, "let") {
        is_variable(source, pieces, layout, declared, position)
    } else if is(before, "for") {
        is_seen(source, name, after_first(source, after, "{"), position)
    } else {
        block_contains(source, pieces, layout, declared, position)
            && is_only(source, pieces, layout, declared)
    }
}

/// Whether the use fits the declaration: a function is called, and anything else isn't. A part of something never
/// does.
fn is_alike(way: Way, is_function: bool) -> bool
    ensures { result ≡ spec.is_alike way is_function }
{
    match way {
        Way::Value => !is_function,
        Way::Call => is_function,
        Way::Part => false,
    }
}

/// Whether this is a use of what a token declares.
pub fn is_use_of(
    source: &[u8],
    pieces: &[KeptToken],
    layout: &TokenLayout,
    declared: usize,
    used: Use,
) -> bool
    requires { IsLayout source.now pieces.now layout.now }
    ensures { result ≡ spec.is_use_of source.now pieces.now declared used }
{
    let is_function = is(text_before(source, pieces, declared, 1), "fn");
    text_of(source, used.name) == text_at(source, pieces, declared)
        && is_alike(used.way, is_function)
        && is_meant(source, pieces, layout, declared, used.name.start)
}

/// Uses of names, and how far the fronts of their list reach.
#[derive(Clone, Copy)]
pub struct Uses<'a> {
    /// The uses, in the order in which they count.
    pub list: &'a [Use],
    /// For each of them a byte index, after which no use up to it in the list is.
    pub furthest: &'a [usize],
    /// For each of them an index in the list up to which none after it is before it.
    pub runs: &'a [usize],
    /// For each name's fingerprint an index in the list before which no use is of that name.
    pub firsts: &'a HashMap<u64, usize>,
    /// What is noted about the tokens.
    pub layout: &'a TokenLayout,
}

// Whether the block that a token is in also contains a position.
fn block_contains(
    source: &[u8],
    pieces: &[KeptToken],
    layout: &TokenLayout,
    declared: usize,
    position: usize,
) -> bool
    requires { IsLayout source.now pieces.now layout.now }
    ensures { result ≡ reaches source.now pieces.now declared position }
{
    if position_at(pieces, declared) <= position {
        if is_open_at(source, pieces, layout, declared, position) {
            return true;
        }
    } else if is_outside_at(source, pieces, layout, declared, position) {
        return true;
    }
    reaches(source, pieces, declared, position)
}

// Whether the variable that a token declares with `let` is what its name means at a position.
fn is_variable(
    source: &[u8],
    pieces: &[KeptToken],
    layout: &TokenLayout,
    declared: usize,
    position: usize,
) -> bool
    requires { IsLayout source.now pieces.now layout.now }
    ensures { result ≡ spec.is_seen source.now (text_at source.now pieces.now declared) (tokens_after pieces.now declared) position }
{
    let after = tokens_after(pieces, declared);
    if is_surely_variable(source, pieces, layout, declared, position) && !after.is_empty() {
        return first_start(after) <= position;
    }
    is_seen(source, text_at(source, pieces, declared), after, position)
}

// Whether the block is open at a position that a token is in, and its name isn't declared again; `false` if that
// isn't certain.
fn is_surely_variable(
    source: &[u8],
    pieces: &[KeptToken],
    layout: &TokenLayout,
    declared: usize,
    position: usize,
) -> bool
    requires { IsLayout source.now pieces.now layout.now }
    ensures stays { result ≡ true → stays_open source.now position 0 (tokens_after pieces.now declared) ≡ true }
    ensures only { result ≡ true → is_declared_before source.now (text_at source.now pieces.now declared) position
        (text_at source.now pieces.now declared) (tokens_after pieces.now declared) ≡ false }
{
    has_one_variable(source, pieces, layout, declared)
        && is_open_after(source, pieces, layout, declared, position)
}

// The start of the first of these tokens.
fn first_start(pieces: &[KeptToken]) -> usize
    ensures { result ≡ spec.first_start pieces.now }
{
    match pieces {
        [first, ..] => first.start(),
        [] => 0,
    }
}

// A position before which no use is of the name that a token declares with `let` or `for`.
fn first_seen(source: &[u8], pieces: &[KeptToken], declared: usize) -> usize
    ensures { result ≡ spec.first_seen source.now pieces.now declared }
{
    let before = text_before(source, pieces, declared, 1);
    let after = tokens_after(pieces, declared);
    if is(before, "let") {
        first_start(after)
    } else if is(before, "for") {
        first_start(after_first(source, after, "{"))
    } else {
        0
    }
}

// How many uses at the front are before a position, found by halves.
#[tactic(auto, using(crate::proofs::UsesLemmas::none_before, crate::proofs::UsesLemmas::half_before))]
fn count_before(uses: Uses<'_>, at: usize) -> usize
    requires { AreFurthest uses.list.now uses.furthest.now }
    ensures { AreBefore at result uses.entry.list.now }
{
    let furthest = uses.furthest;
    let mut low: usize = 0;
    let mut high = furthest.len();
    'halves: while low < high {
        let middle = low + (high - low) / 2;
        if furthest[middle] < at {
            low = middle + 1;
        } else {
            high = middle;
        }
    }
    low
}

/// Whether a use has the name that a token declares with `let` or `for`, and is after the declaration. If it isn't of
/// that name, no use at its position or after it is.
pub fn is_past(source: &[u8], pieces: &[KeptToken], declared: usize, used: Use) -> bool
    ensures { result ≡ spec.is_past source.now pieces.now declared used }
{
    let is_function = is(text_before(source, pieces, declared, 1), "fn");
    declares_variable(source, pieces, declared)
        && text_of(source, used.name) == text_at(source, pieces, declared)
        && is_alike(used.way, is_function)
        && first_seen(source, pieces, declared) <= used.name.start
}

// Whether a token declares a name with `let` or `for`.
fn declares_variable(source: &[u8], pieces: &[KeptToken], declared: usize) -> bool
    ensures { result ≡ spec.declares_variable source.now pieces.now declared }
{
    let before = text_before(source, pieces, declared, 1);
    is(before, "let") || is(before, "for")
}

// The index of the next use in the list that may be of the name that a token declares, after one that isn't.
fn next_use(
    source: &[u8],
    pieces: &[KeptToken],
    uses: Uses<'_>,
    declared: usize,
    index: usize,
) -> usize
    requires found { IsFound source.now pieces.now uses }
    requires unused { AreUnused source.now pieces.now declared (index + 1) uses.list.now }
    requires below { index < length uses.list.now }
    ensures further { index < result }
    ensures unused { AreUnused source.now pieces.now declared result uses.entry.list.now }
{
    if is_past(source, pieces, declared, uses.list[index]) {
        return end_at(uses.runs, index).max(index + 1);
    }
    index + 1
}

/// The index of the first use in the list that is of the name that a token declares.
#[tactic(auto, using(crate::proofs::FirstsLemmas::skipped, crate::proofs::RunsLemmas::one_unused, crate::proofs::RunsLemmas::none_left))]
pub fn first_use(
    source: &[u8],
    pieces: &[KeptToken],
    uses: Uses<'_>,
    declared: usize,
) -> Option<usize>
    requires { IsFound source.now pieces.now uses }
    ensures first { IfSome result (IsFirstUse source.now pieces.now declared uses.entry.list.now) }
    ensures none { result ≡ None → spec.known_by_name source.now pieces.now declared uses.entry.list.now ≡ None }
{
    let Some(first) = first_of(uses.firsts, text_at(source, pieces, declared)) else {
        return None;
    };
    let before = count_before(uses, first_seen(source, pieces, declared));
    let mut index = before.max(first);
    'uses: while index < uses.list.len() {
        let used = uses.list[index];
        if is_use_of(source, pieces, uses.layout, declared, used) {
            return Some(index);
        }
        index = next_use(source, pieces, uses, declared, index);
    }
    None
}

/// What the first use says about the name that a token declares.
pub fn known_by_name(
    source: &[u8],
    pieces: &[KeptToken],
    uses: Uses<'_>,
    declared: usize,
) -> Option<Known>
    requires { IsFound source.now pieces.now uses }
    ensures { result ≡ spec.known_by_name source.now pieces.now declared uses.entry.list.now }
{
    match first_use(source, pieces, uses, declared) {
        Some(index) => Some(uses.list[index].known),
        None => None,
    }
}
