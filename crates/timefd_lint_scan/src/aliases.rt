//! The aliases of a source, among which names are looked up, and the calls of its project.

ghost use Rattle.std.specs.HashMap.{get};
ghost use Rattle.std.specs.Prelude.{◌≡◌, ◌<◌, drop, false, get_or, length, nat_eq, take};
ghost use Rattle.timefd_lint_scan.specs.Aliases as spec;
ghost use Rattle.timefd_lint_scan.specs.AliasNotes.{AreUnnamed};
ghost use Rattle.timefd_lint_scan.specs.KeptAliases.{AreAliases};
ghost use Rattle.timefd_lint_scan.specs.Layouts as layouts;

use crate::alias::{Alias, first_named};
use crate::alias_notes::{AliasNote, AliasNotes, LastAlias, last_at};
use crate::fingerprint::fingerprint;
use crate::own_call::OwnCall;
use crate::piece::PlacedToken;
use crate::word::text_of;

/// Aliases, what is noted about them, and the calls of the project.
#[derive(Clone, Copy)]
pub struct Aliases<'a> {
    /// The aliases, in the order in which they count.
    pub list: &'a [Alias],
    /// What is noted about them.
    pub notes: &'a AliasNotes,
    /// The calls that the settings of the source's project name.
    pub own: &'a [OwnCall],
}

// What is kept for a name.
fn last_of(notes: &AliasNotes, name: &[u8]) -> Option<LastAlias>
    ensures { result ≡ get nat_eq notes.now.lasts (layouts.fingerprint name.now) }
{
    last_at(&notes.lasts, fingerprint(name))
}

// Whether all others before an alias have ended at a position.
fn has_ended(notes: &[AliasNote], index: usize, position: usize) -> bool {
    match notes.get(index) {
        Some(note) => note.ended <= position,
        None => true,
    }
}

// An alias that is one step nearer to the last one whose others have ended.
fn one_back(notes: &[AliasNote], index: usize, position: usize) -> usize {
    match notes.get(index) {
        Some(note) if has_ended(notes, note.farther, position) => note.previous,
        Some(note) => note.farther,
        None => index,
    }
}

// The last alias whose others have ended at a position, as it seems, found by few steps from the last of all.
fn steps_back(notes: &[AliasNote], last: usize, position: usize) -> usize {
    let mut index = last;
    'steps: while !has_ended(notes, index, position) {
        let next = one_back(notes, index, position);
        if next >= index {
            return index;
        }
        index = next;
    }
    index
}

// An index before which no alias with a name is valid at a position.
fn first_open(
    source: &[u8],
    aliases: Aliases<'_>,
    last: LastAlias,
    name: &[u8],
    position: usize,
) -> usize
    requires { AreAliases source.now aliases }
    ensures { AreUnnamed source.now name.now position 0 result aliases.entry.list.now }
{
    let notes = aliases.notes;
    let index = steps_back(&notes.notes, last.index, position);
    match notes.notes.get(index) {
        Some(note) if note.number == fingerprint(name) && note.ended <= position => index,
        Some(_) | None => 0,
    }
}

// Whether an alias or one after it may begin up to a position.
fn may_begin(notes: &AliasNotes, index: usize, position: usize) -> bool
    ensures below { result ≡ false → index < length notes.now.begins.items }
    ensures late { result ≡ false → position < get_or notes.now.begins.items index 0 }
{
    index >= notes.begins.len() || notes.begins[index] <= position
}

// The aliases from an index on.
fn aliases_from(list: &[Alias], index: usize) -> &[Alias]
    ensures { result.now ≡ drop index list.now }
{
    list.get(index..).unwrap_or(&[])
}

// The first of these aliases, if there is one.
fn only_first(list: &[Alias]) -> &[Alias]
    ensures { result.now ≡ take 1 list.now }
{
    list.get(..1).unwrap_or(list)
}

/// The original of the first alias with this name that is valid at a position.
pub fn original_of(
    source: &[u8],
    aliases: Aliases<'_>,
    name: &[u8],
    position: usize,
) -> Option<PlacedToken>
    requires { AreAliases source.now aliases }
    ensures { result ≡ spec.original_of source.now name.now position aliases.entry.list.now }
{
    let Some(last) = last_of(aliases.notes, name) else {
        return None;
    };
    let index = first_open(source, aliases, last, name, position);
    let rest = aliases_from(aliases.list, index);
    if index >= last.index {
        return first_named(source, only_first(rest), name, position);
    }
    if !may_begin(aliases.notes, index, position) {
        return None;
    }
    first_named(source, rest, name, position)
}

/// The original of a name's alias at a position, or the name itself if it isn't an alias there.
pub fn real_name<'a>(
    source: &'a [u8],
    aliases: Aliases<'_>,
    name: &'a [u8],
    position: usize,
) -> &'a [u8]
    requires { AreAliases source.now aliases }
    ensures { result.now ≡ spec.real_name source.now name.now position aliases.entry.list.now }
{
    match original_of(source, aliases, name, position) {
        Some(original) => text_of(source, original),
        None => name,
    }
}
