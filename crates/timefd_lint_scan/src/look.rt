//! What is seen in a source: its descriptions, and what can't be checked.

ghost use Rattle.std.specs.HashSet.{contains};
ghost use Rattle.std.specs.Prelude.{◌≡◌, ◌++◌, ◌||◌, IfOk, OnOk, nat_eq, ℕ};
ghost use Rattle.timefd_lint_scan.specs.Candidates.{candidates_in};
ghost use Rattle.timefd_lint_scan.specs.Found.{AreDescribed};
ghost use Rattle.timefd_lint_scan.specs.FoundUses.{IsFound};
ghost use Rattle.timefd_lint_scan.specs.Looks.{AreTaken, AreUnread, AreUnreadCalls, IsBlank, IsLookAlone, IsSeenAlone};
ghost use Rattle.timefd_lint_scan.specs.Looks as spec;

use crate::alias_notes::notes_of;
use crate::aliases::Aliases;
use crate::description::{SourceDescription, described_by};
use crate::dialect::is;
use crate::firsts::firsts_of;
use crate::following::following_of;
use crate::gathered::{Gathered, tokens_of};
use crate::import::aliases_of;
use crate::kept::KeptToken;
use crate::layout::layout_of;
use crate::marks::{LanguageMark, marks_of, unknown_marks};
use crate::named_calls::named_calls;
use crate::names::may_describe;
use crate::own_call::OwnCall;
use crate::runs::{furthest_of, runs_of};
use crate::uses::{Use, Uses};
use crate::using::uses_of;
use crate::word::text_of;
use std::alloc::{AllocError, Global};
use std::collections::HashSet;

/// What is seen in a source.
#[derive(Drop)]
pub struct Look {
    /// The descriptions, in order; they don't overlap.
    pub descriptions: Vec<SourceDescription>,
    /// Where names begin that known calls take instead of a literal, and for which no text is found in the
    /// source. Byte indices.
    pub calls: Vec<usize>,
    /// Where the words of comments begin that should name a language, but don't. Byte indices.
    pub comments: Vec<usize>,
}

/// What is seen among tokens.
#[derive(Drop)]
struct SeenTokens {
    descriptions: Vec<SourceDescription>,
    calls: Vec<usize>,
}

/// Whether a word is among these tokens.
fn has_word(source: &[u8], pieces: &[KeptToken], word: &str) -> bool
    ensures { result ≡ spec.has_word source.now word.now pieces.now }
{
    let mut rest = pieces;
    'tokens: while let [piece, after @ ..] = rest {
        if is(piece.text(source), word) {
            return true;
        }
        rest = after;
    }
    false
}

/// Notes where a name begins that a description is used by.
pub fn note(taken: &mut HashSet<usize>, call: Option<usize>) -> Result<(), AllocError>
    ensures { OnOk result ((n : ℕ) → contains nat_eq taken.new n ≡ (spec.is_at call n || contains nat_eq taken.old n)) }
{
    match call {
        Some(position) => {
            taken.insert(position)?;
            Ok(())
        }
        None => Ok(()),
    }
}

/// Where names begin that these descriptions are used by. An `Err` says that memory ran out.
#[tactic(auto, using(crate::proofs::TakenLemmas::at_last))]
fn taken_by(alloc: Global, descriptions: &[SourceDescription]) -> Result<HashSet<usize>, AllocError>
    ensures { IfOk result (λ taken. AreTaken descriptions.now (contains nat_eq taken)) }
{
    let mut taken: HashSet<usize> = HashSet::new(alloc);
    let mut rest = descriptions;
    'descriptions: while let [description, after @ ..] = rest {
        note(&mut taken, description.call)?;
        rest = after;
    }
    Ok(taken)
}

/// Whether a call is known to take a date format: by its own name, or because the source mentions chrono.
fn is_sure(used: Use, has_chrono: bool) -> bool
    ensures { result ≡ spec.is_sure used has_chrono }
{
    !used.known.wants_percent || has_chrono
}

fn is_unread(used: Use, named: &HashSet<usize>, has_chrono: bool) -> bool
    ensures { result ≡ spec.is_unread (contains nat_eq named.now) has_chrono used }
{
    let position = used.name.start;
    used.known.call == Some(position) && is_sure(used, has_chrono) && !named.contains(&position)
}

fn push_unread(
    calls: &mut Vec<usize>,
    used: Use,
    named: &HashSet<usize>,
    has_chrono: bool,
) -> Result<(), AllocError>
    ensures { OnOk result (calls.new.items
        ≡ calls.old.items ++ spec.unread (contains nat_eq named.now) has_chrono used) }
{
    if is_unread(used, named, has_chrono) {
        calls.push(used.name.start)?;
    }
    Ok(())
}

/// Where names begin that calls take, but for those at these positions.
fn calls_without(
    alloc: Global,
    uses: &[Use],
    named: &HashSet<usize>,
    has_chrono: bool,
) -> Result<Vec<usize>, AllocError>
    ensures { IfOk result (λ calls. calls.items ≡ spec.unread_calls (contains nat_eq named.now) has_chrono uses.now) }
{
    let mut calls = Vec::new(alloc);
    for used in uses {
        push_unread(&mut calls, *used, named, has_chrono)?;
    }
    Ok(calls)
}

/// Where names begin that calls take, and that don't name a text that is looked at.
fn unread_calls(
    alloc: Global,
    source: &[u8],
    pieces: &[KeptToken],
    uses: Uses<'_>,
    descriptions: &[SourceDescription],
    has_chrono: bool,
) -> Result<Vec<usize>, AllocError>
    requires { IsFound source.now pieces.now uses }
    ensures { IfOk result (λ calls. AreUnread source.now pieces.now uses.entry.list.now descriptions.now has_chrono calls.items) }
{
    let taken = taken_by(alloc, descriptions)?;
    let following = following_of(alloc, source, uses.list)?;
    let lists = named_calls(alloc, source, pieces, uses, &following, &taken)?;
    let named = named_calls(alloc, source, pieces, uses, &following, &lists)?;
    calls_without(alloc, uses.list, &named, has_chrono)
}

/// What is seen among these tokens, with these calls of the project, and these comments that name a language.
fn seen_in(
    alloc: Global,
    source: &str,
    own: &[OwnCall],
    pieces: &[KeptToken],
    marks: &[LanguageMark],
) -> Result<SeenTokens, AllocError>
    ensures described { IfOk result (λ seen. AreDescribed source.now 0
        (candidates_in source.now own.now pieces.now marks.now) seen.descriptions.items) }
    ensures calls { IfOk result (λ seen. AreUnreadCalls source.now own.now pieces.now seen.descriptions.items seen.calls.items) }
{
    let bytes = source.as_bytes();
    let layout = layout_of(alloc, bytes, pieces)?;
    let list = aliases_of(alloc, bytes, own, pieces)?;
    let notes = notes_of(alloc, bytes, &list)?;
    let aliases = Aliases {
        list: &list,
        notes: &notes,
        own,
    };
    let uses = uses_of(alloc, bytes, pieces, aliases, &layout)?;
    let furthest = furthest_of(alloc, &uses)?;
    let runs = runs_of(alloc, &uses)?;
    let firsts = firsts_of(alloc, bytes, &uses)?;
    let named = Uses {
        list: &uses,
        furthest: &furthest,
        runs: &runs,
        firsts: &firsts,
        layout: &layout,
    };
    let descriptions = described_by(alloc, source, pieces, aliases, named, marks)?;
    let has_chrono = has_word(bytes, pieces, "chrono");
    let calls = unread_calls(alloc, bytes, pieces, named, &descriptions, has_chrono)?;
    Ok(SeenTokens {
        descriptions,
        calls,
    })
}

/// Nothing is seen.
pub fn blank(alloc: Global) -> Look
    ensures { IsBlank result }
{
    Look {
        descriptions: Vec::new(alloc),
        calls: Vec::new(alloc),
        comments: Vec::new(alloc),
    }
}

/// Looks for descriptions in a source, with these calls of its project, but not in the examples in its comments. An `Err` says
/// that memory ran out, or that the source has 4 GiB or more.
pub fn seen_alone(alloc: Global, source: &str, own: &[OwnCall]) -> Result<Look, AllocError>
    ensures { IfOk result (IsSeenAlone source.now own.now) }
{
    let Gathered { pieces, comments } = tokens_of(alloc, source)?;
    let marks = marks_of(alloc, source.as_bytes(), &comments)?;
    let words = unknown_marks(alloc, source.as_bytes(), &comments)?;
    let SeenTokens {
        descriptions,
        calls,
    } = seen_in(alloc, source, own, &pieces, &marks)?;
    Ok(Look {
        descriptions,
        calls,
        comments: words,
    })
}

/// Looks for descriptions in a source without its examples, but only if it has one of the names that descriptions come with.
pub fn look_of(alloc: Global, source: &str, own: &[OwnCall]) -> Result<Look, AllocError>
    ensures { IfOk result (IsLookAlone source.now own.now) }
{
    if !may_describe(source.as_bytes(), own) {
        return Ok(blank(alloc));
    }
    seen_alone(alloc, source, own)
}
