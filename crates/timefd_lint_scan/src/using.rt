//! The names of a source that are used instead of descriptions.

ghost use Rattle.std.specs.Prelude.{◌≡◌, ◌++◌, [], IfOk, OnOk};
ghost use Rattle.std.specs.Option.{option_to_list};
ghost use Rattle.timefd_lint_scan.specs.FoundUses.{IsFound};
ghost use Rattle.timefd_lint_scan.specs.Kept.{IsLayout};
ghost use Rattle.timefd_lint_scan.specs.KeptAliases.{AreAliases};
ghost use Rattle.timefd_lint_scan.specs.Using as spec;

use crate::aliases::Aliases;
use crate::calls::OpenBracket;
use crate::dialect::is;
use crate::firsts::firsts_of;
use crate::flow::{outermost, pending_of};
use crate::frames::{innermost, pass};
use crate::kept::KeptToken;
use crate::known::Known;
use crate::layout::TokenLayout;
use crate::piece::PlacedToken;
use crate::runs::{furthest_of, runs_of};
use crate::token::Token;
use crate::used_part::{is_changed, is_literal, is_part};
use crate::uses::{Use, Uses, Way, known_by_name};
use crate::value::{ends_value, is_begun};
use crate::word::{is_word_token, text_after, text_at, text_before};
use std::alloc::{AllocError, Global};
use std::collections::HashMap;

/// The index of the token that a path to a name begins with: `Self` in `Self::F`, `self` in `self.f()`.
fn path_start(source: &[u8], pieces: &[KeptToken], index: usize) -> Option<usize>
    ensures { result ≡ spec.path_start source.now pieces.now index }
{
    let before = text_before(source, pieces, index, 1);
    let farther = text_before(source, pieces, index, 2);
    if is(before, ":") {
        if is(farther, ":") && is(text_before(source, pieces, index, 3), "Self") {
            Some(index.saturating_sub(3))
        } else {
            None
        }
    } else if is(before, ".") {
        if is(farther, "self") && is(text_after(source, pieces, index, 1), "(") {
            Some(index.saturating_sub(2))
        } else {
            None
        }
    } else {
        Some(index)
    }
}

/// How a name is used as a value, if it is.
fn way_of(source: &[u8], pieces: &[KeptToken], index: usize) -> Option<Way>
    ensures { result ≡ spec.way_of source.now pieces.now index }
{
    let Some(start) = path_start(source, pieces, index) else {
        return None;
    };
    if !is_begun(source, pieces, start) {
        None
    } else if is(text_after(source, pieces, index, 1), "(") {
        Some(Way::Call)
    } else if ends_value(source, pieces, index) {
        Some(Way::Value)
    } else {
        None
    }
}

/// How a name is used, as a value or as a part of one.
fn way_at(source: &[u8], pieces: &[KeptToken], index: usize) -> Option<Way>
    ensures { result ≡ spec.way_at source.now pieces.now index }
{
    match way_of(source, pieces, index) {
        Some(way) => Some(way),
        None if is_part(source, pieces, index) => Some(Way::Part),
        None => None,
    }
}

/// How a token is used: a name, or a literal that a value begins with.
fn way_by(source: &[u8], pieces: &[KeptToken], index: usize, token: Token) -> Option<Way>
    ensures { result ≡ spec.way_by source.now pieces.now index token }
{
    if is_word_token(token) {
        way_at(source, pieces, index)
    } else if is_literal(token) && is_changed(source, pieces, index) {
        Some(Way::Part)
    } else {
        None
    }
}

fn use_of(name: PlacedToken, way: Option<Way>, known: Known) -> Option<Use>
    ensures { result ≡ spec.use_of name way known }
{
    match way {
        Some(way) => Some(Use {
            name,
            way,
            known: Known {
                call: Some(name.start),
                ..known
            },
        }),
        None => None,
    }
}

/// The use of the name at a token, with this bracket open.
fn use_at(
    source: &[u8],
    pieces: &[KeptToken],
    index: usize,
    piece: PlacedToken,
    frame: Option<OpenBracket>,
) -> Option<Use>
    ensures { result ≡ spec.use_at source.now pieces.now index piece frame }
{
    match pending_of(frame) {
        Some(known) => use_of(piece, way_by(source, pieces, index, piece.token), known),
        None => None,
    }
}

fn push_any(uses: &mut Vec<Use>, found: Option<Use>) -> Result<(), AllocError>
    ensures { OnOk result (uses.new.items ≡ uses.old.items ++ option_to_list found) }
{
    match found {
        Some(found) => {
            uses.push(found)?;
            Ok(())
        }
        None => Ok(()),
    }
}

// No use.
fn no_uses<'a>(
    source: &[u8],
    pieces: &[KeptToken],
    layout: &'a TokenLayout,
    firsts: &'a HashMap<u64, usize>,
) -> Uses<'a>
    requires { IsLayout source.now pieces.now layout.now }
    ensures none { result.list.now ≡ [] }
    ensures found { IsFound source.now pieces.now result }
{
    Uses {
        list: &[],
        furthest: &[],
        runs: &[],
        firsts,
        layout,
    }
}

/// The names that are used in known calls, in order.
fn in_calls(
    alloc: Global,
    source: &[u8],
    pieces: &[KeptToken],
    aliases: Aliases<'_>,
    layout: &TokenLayout,
) -> Result<Vec<Use>, AllocError>
    requires layout { IsLayout source.now pieces.now layout.now }
    requires aliases { AreAliases source.now aliases }
    ensures { IfOk result (λ uses. uses.items ≡ spec.in_calls source.now pieces.now aliases.entry.list.now aliases.entry.own.now) }
{
    let mut frames = Vec::new(alloc);
    frames.push(outermost())?;
    let mut uses = Vec::new(alloc);
    let firsts: HashMap<u64, usize> = HashMap::new(alloc);
    let none = no_uses(source, pieces, layout, &firsts);
    for (index, piece) in pieces.iter().enumerate() {
        pass(&mut frames, source, pieces, aliases, none, index)?;
        let frame = innermost(&frames);
        push_any(
            &mut uses,
            use_at(source, pieces, index, piece.placed(), frame),
        )?;
    }
    Ok(uses)
}

fn piece_after(pieces: &[KeptToken], index: usize, ahead: usize) -> Option<PlacedToken>
    ensures { result ≡ spec.piece_after pieces.now index ahead }
{
    match index.checked_add(ahead) {
        Some(at) => match pieces.get(at) {
            Some(piece) => Some(piece.placed()),
            None => None,
        },
        None => None,
    }
}

/// The name that a loop goes over, `ahead` tokens after `in`, if the token `next` after `in` ends it.
fn looped_over(
    source: &[u8],
    pieces: &[KeptToken],
    index: usize,
    ahead: usize,
    next: usize,
) -> Option<PlacedToken>
    ensures { result ≡ spec.looped_over source.now pieces.now index ahead next }
{
    let after = text_after(source, pieces, index, next);
    if is(after, "{") || is(after, ".") {
        piece_after(pieces, index, ahead)
    } else {
        None
    }
}

/// The name of the list that a loop goes over, which may be borrowed.
fn looped(source: &[u8], pieces: &[KeptToken], index: usize) -> Option<PlacedToken>
    ensures { result ≡ spec.looped source.now pieces.now index }
{
    if is(text_after(source, pieces, index, 1), "&") {
        looped_over(source, pieces, index, 2, 3)
    } else {
        looped_over(source, pieces, index, 1, 2)
    }
}

/// The list that a loop goes over by name, if this token is the loop's `in` and the loop's variable is used
/// instead of a description. What is known about the variable is then known about the list.
fn loop_at(source: &[u8], pieces: &[KeptToken], uses: Uses<'_>, index: usize) -> Option<Use>
    requires { IsFound source.now pieces.now uses }
    ensures { result ≡ spec.loop_at source.now pieces.now uses.entry.list.now index }
{
    if is(text_at(source, pieces, index), "in")
        && is(text_before(source, pieces, index, 2), "for")
    {
        let known = known_by_name(source, pieces, uses, index.saturating_sub(1));
        list_of(looped(source, pieces, index), known)
    } else {
        None
    }
}

fn list_of(name: Option<PlacedToken>, known: Option<Known>) -> Option<Use>
    ensures { result ≡ spec.list_of name known }
{
    match (name, known) {
        (Some(name), Some(known)) => Some(Use {
            name,
            way: Way::Value,
            known,
        }),
        (Some(_), None) | (None, _) => None,
    }
}

/// The lists that loops go over by name, in order.
fn in_loops(
    alloc: Global,
    source: &[u8],
    pieces: &[KeptToken],
    uses: Uses<'_>,
) -> Result<Vec<Use>, AllocError>
    requires { IsFound source.now pieces.now uses }
    ensures { IfOk result (λ lists. lists.items ≡ spec.in_loops source.now pieces.now uses.entry.list.now) }
{
    let mut lists = Vec::new(alloc);
    for (index, _piece) in pieces.iter().enumerate() {
        push_any(&mut lists, loop_at(source, pieces, uses, index))?;
    }
    Ok(lists)
}

/// The names that are used instead of descriptions: in known calls, and as lists that loops go over.
pub fn uses_of(
    alloc: Global,
    source: &[u8],
    pieces: &[KeptToken],
    aliases: Aliases<'_>,
    layout: &TokenLayout,
) -> Result<Vec<Use>, AllocError>
    requires layout { IsLayout source.now pieces.now layout.now }
    requires aliases { AreAliases source.now aliases }
    ensures { IfOk result (λ uses. uses.items ≡ spec.uses_in source.now pieces.now aliases.entry.list.now aliases.entry.own.now) }
{
    let mut uses = in_calls(alloc, source, pieces, aliases, layout)?;
    let furthest = furthest_of(alloc, &uses)?;
    let runs = runs_of(alloc, &uses)?;
    let firsts = firsts_of(alloc, source, &uses)?;
    let found = Uses {
        list: &uses,
        furthest: &furthest,
        runs: &runs,
        firsts: &firsts,
        layout,
    };
    let lists = in_loops(alloc, source, pieces, found)?;
    uses.extend_from_slice(&lists)?;
    Ok(uses)
}
