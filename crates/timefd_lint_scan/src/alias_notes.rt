//! What is noted about the aliases of a source, so that names are looked up among them.

ghost use Rattle.std.specs.HashMap.{get};
ghost use Rattle.std.specs.Prelude.{◌≡◌, ◌+◌, ◌<◌, IfOk, OnOk, length, nat_eq};
ghost use Rattle.timefd_lint_scan.specs.AliasNotes.{AreBegun, AreNoted};
ghost use Rattle.timefd_lint_scan.specs.AliasNotes as spec;
ghost use Rattle.timefd_lint_scan.specs.KeptAliases.{IsAliasNotes};

use crate::alias::Alias;
use crate::fingerprint::fingerprint;
use crate::word::text_of;
use std::alloc::{AllocError, Global};
use std::collections::HashMap;

/// What is noted about an alias. The others are those whose names have the same fingerprint.
#[derive(Clone, Copy)]
pub struct AliasNote {
    /// The fingerprint of its name.
    pub number: u64,
    /// A byte index at which all others before it in the list have ended.
    pub ended: usize,
    /// How many others are before it.
    pub count: usize,
    /// The last other one before it; itself if there is none.
    pub previous: usize,
    /// Another one before it, from which few steps lead to the first.
    pub farther: usize,
}

/// What is kept for a fingerprint.
#[derive(Clone, Copy)]
pub struct LastAlias {
    /// The index of the last alias with it.
    pub index: usize,
    /// A byte index at which all aliases with it have ended.
    pub ended: usize,
}

/// What is noted about the aliases of a list.
#[derive(Drop)]
pub struct AliasNotes {
    /// What is noted about each.
    pub notes: Vec<AliasNote>,
    /// For each a byte index before which neither it nor one after it in the list begins.
    pub begins: Vec<usize>,
    /// What is kept for the fingerprints of their names.
    pub lasts: HashMap<u64, LastAlias>,
}

/// What is kept for a fingerprint.
pub fn last_at(lasts: &HashMap<u64, LastAlias>, number: u64) -> Option<LastAlias>
    ensures { result ≡ get nat_eq lasts.now number }
{
    lasts.get(&number).copied()
}

fn ended_of(last: Option<LastAlias>) -> usize
    ensures { result ≡ spec.ended_of last }
{
    match last {
        Some(last) => last.ended,
        None => 0,
    }
}

fn count_at(notes: &[AliasNote], index: usize) -> usize {
    match notes.get(index) {
        Some(note) => note.count,
        None => 0,
    }
}

fn farther_at(notes: &[AliasNote], index: usize) -> usize {
    match notes.get(index) {
        Some(note) => note.farther,
        None => index,
    }
}

// One before the alias at this index if two steps to it are equally long, or else that alias.
fn farther_of(notes: &[AliasNote], index: usize) -> usize {
    let one = farther_at(notes, index);
    let two = farther_at(notes, one);
    let count = count_at(notes, one);
    let first = count_at(notes, index).saturating_sub(count);
    if first == count.saturating_sub(count_at(notes, two)) {
        two
    } else {
        index
    }
}

// What is noted about an alias that follows these.
fn note_of(notes: &[AliasNote], number: u64, last: Option<LastAlias>) -> AliasNote
    ensures number { result.number ≡ number }
    ensures ended { result.ended ≡ spec.ended_of last }
{
    let ended = ended_of(last);
    match last {
        Some(last) => AliasNote {
            number,
            ended,
            count: count_at(notes, last.index).saturating_add(1),
            previous: last.index,
            farther: farther_of(notes, last.index),
        },
        None => AliasNote {
            number,
            ended,
            count: 0,
            previous: notes.len(),
            farther: notes.len(),
        },
    }
}

// Notes the next alias of a list.
fn note_next(
    notes: &mut Vec<AliasNote>,
    lasts: &mut HashMap<u64, LastAlias>,
    source: &[u8],
    list: &[Alias],
    index: usize,
) -> Result<(), AllocError>
    requires below { index < length list.now }
    requires noted { AreNoted source.now list.now index notes.old.items (get nat_eq lasts.old) }
    ensures { OnOk result (AreNoted source.now list.now (index + 1) notes.new.items (get nat_eq lasts.new)) }
{
    let alias = list[index];
    let number = fingerprint(text_of(source, alias.name));
    let last = last_at(lasts, number);
    let note = note_of(notes, number, last);
    let ended = note.ended.max(alias.until);
    lasts.insert(number, LastAlias { index, ended })?;
    notes.push(note)?;
    Ok(())
}

// For each alias a byte index before which neither it nor one after it begins. An `Err` says that memory ran out.
#[tactic(auto, using(crate::proofs::AliasNoteLemmas::none_begun))]
fn begins_of(alloc: Global, list: &[Alias]) -> Result<Vec<usize>, AllocError>
    ensures { IfOk result (λ begins. AreBegun list.now 0 begins.items) }
{
    let mut begins = vec![in alloc; 0usize; list.len()]?;
    let mut first = usize::MAX;
    let mut left = list.len();
    'aliases: while left > 0 {
        left -= 1;
        first = first.min(list[left].name.start);
        begins[left] = first;
    }
    Ok(begins)
}

/// What is noted about these aliases. An `Err` says that memory ran out.
#[tactic(auto, using(crate::proofs::AliasNoteLemmas::none_noted))]
pub fn notes_of(alloc: Global, source: &[u8], list: &[Alias]) -> Result<AliasNotes, AllocError>
    ensures { IfOk result (IsAliasNotes source.now list.now) }
{
    let mut notes = Vec::new(alloc);
    let mut lasts: HashMap<u64, LastAlias> = HashMap::new(alloc);
    for index in 0..list.len() {
        note_next(&mut notes, &mut lasts, source, list, index)?;
    }
    let begins = begins_of(alloc, list)?;
    Ok(AliasNotes {
        notes,
        begins,
        lasts,
    })
}
