//! The descriptions in a source.

ghost use Rattle.std.specs.Prelude.{◌≡◌, ◌++◌, IfOk, OnOk, Some};
ghost use Rattle.std.specs.Option.{option_to_list};
ghost use Rattle.timefd_lint_scan.specs.Candidates.{candidates_by};
ghost use Rattle.timefd_lint_scan.specs.Escapes.{placed};
ghost use Rattle.timefd_lint_scan.specs.Found.{AreDescribed, IsAnyDescribed, IsDescribed, IsOfText, begun_after, end_after};
ghost use Rattle.timefd_lint_scan.specs.FoundUses.{IsFound};
ghost use Rattle.timefd_lint_scan.specs.KeptAliases.{AreAliases};

use crate::aliases::Aliases;
use crate::between::is_between;
use crate::candidate::{CandidateLiteral, candidate_at};
use crate::dates::is_of_dates;
use crate::dialect::FormatLanguage;
use crate::flow::outermost;
use crate::frames::{innermost, pass};
use crate::kept::KeptToken;
use crate::known::Items;
use crate::literal::literal_text;
use crate::marks::{LanguageMark, reported_at, still_open};
use crate::piece::PlacedToken;
use crate::token::LiteralKind;
use crate::unescape::Unescaped;
use crate::uses::Uses;
use crate::version::{VersionPosition, first_position, tested};
use std::alloc::{AllocError, Global};

/// A description that is a string literal of a source.
#[derive(Drop)]
pub struct SourceDescription {
    /// The literal.
    pub piece: PlacedToken,
    /// How it is written.
    pub kind: LiteralKind,
    /// The language.
    pub dialect: FormatLanguage,
    /// What it may hold.
    pub items: Items,
    /// Where the source says the version.
    pub version: VersionPosition,
    /// Where the name that a call takes instead of it begins, as a byte index; `None` if the literal is in
    /// the call itself.
    pub call: Option<usize>,
    /// The text that it denotes, and where that is in the source.
    pub unescaped: Unescaped,
}

/// The description of a literal that denotes this text; `None` if a date format is wanted and this isn't one.
fn of_text(
    source: &str,
    candidate: CandidateLiteral,
    unescaped: Unescaped,
) -> Option<SourceDescription>
    ensures { IsOfText source.now candidate (Some (placed unescaped)) result }
{
    let CandidateLiteral { piece, kind, known } = candidate;
    if known.wants_percent && !is_of_dates(&unescaped.text) {
        return None;
    }
    if !is_between(source, piece, kind, &unescaped) {
        return None;
    }
    Some(SourceDescription {
        piece,
        kind,
        dialect: known.dialect,
        items: known.items,
        version: tested(source, piece, known.dialect, known.version),
        call: known.call,
        unescaped,
    })
}

/// A literal as a description; `None` if an escape is invalid.
fn described(
    alloc: Global,
    source: &str,
    candidate: CandidateLiteral,
) -> Result<Option<SourceDescription>, AllocError>
    ensures { IfOk result (IsDescribed source.now candidate) }
{
    match literal_text(alloc, source, candidate.piece, candidate.kind)? {
        Some(unescaped) => Ok(of_text(source, candidate, unescaped)),
        None => Ok(None),
    }
}

/// A literal as a description, if there is one.
pub fn described_any(
    alloc: Global,
    source: &str,
    candidate: Option<CandidateLiteral>,
) -> Result<Option<SourceDescription>, AllocError>
    ensures { IfOk result (IsAnyDescribed source.now candidate) }
{
    match candidate {
        Some(candidate) => described(alloc, source, candidate),
        None => Ok(None),
    }
}

/// Adds a description if it begins after the others, which end at `end`. Returns where all of them end then.
/// All descriptions that are found begin after the others; the test makes sure. An `Err` says that memory ran
/// out.
pub fn push_any(
    descriptions: &mut Vec<SourceDescription>,
    found: Option<SourceDescription>,
    end: usize,
) -> Result<usize, AllocError>
    ensures pushed { OnOk result (descriptions.new.items
        ≡ descriptions.old.items ++ option_to_list (begun_after end found)) }
    ensures end { IfOk result (λ next. next ≡ end_after end (begun_after end found)) }
{
    match found {
        Some(description) => {
            let next = description.piece.end;
            if first_position(description.version, description.piece.start) < end {
                return Ok(end);
            }
            descriptions.push(description)?;
            Ok(next)
        }
        None => Ok(end),
    }
}

/// The descriptions among these tokens, with these aliases and calls of the project, uses of names, and comments that name a language.
/// An `Err` says that memory ran out.
pub fn described_by(
    alloc: Global,
    source: &str,
    pieces: &[KeptToken],
    aliases: Aliases<'_>,
    uses: Uses<'_>,
    marks: &[LanguageMark],
) -> Result<Vec<SourceDescription>, AllocError>
    requires found { IsFound source.now pieces.now uses }
    requires aliases { AreAliases source.now aliases }
    ensures { IfOk result (λ found. AreDescribed source.now 0
        (candidates_by source.now pieces.now aliases.entry.list.now aliases.entry.own.now uses.entry.list.now marks.now) found.items) }
{
    let mut frames = Vec::new(alloc);
    frames.push(outermost())?;
    let mut descriptions = Vec::new(alloc);
    let mut comments = marks;
    let mut end = 0;
    for (index, piece) in pieces.iter().enumerate() {
        pass(&mut frames, source.as_bytes(), pieces, aliases, uses, index)?;
        let piece = piece.placed();
        comments = still_open(comments, piece.start);
        let dialect = reported_at(comments, piece.start);
        let frame = innermost(&frames);
        let candidate = candidate_at(source.as_bytes(), pieces, index, piece, frame, dialect);
        let found = described_any(alloc, source, candidate)?;
        end = push_any(&mut descriptions, found, end)?;
    }
    Ok(descriptions)
}
