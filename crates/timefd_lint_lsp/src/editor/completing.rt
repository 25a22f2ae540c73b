//! The words that may be written at a cursor in a description.

ghost use Rattle.std.specs.Prelude.{◌≡◌, IfOk, option_map};
ghost use Rattle.timefd_lint_lsp.specs.Editor.Completions.{IsCompletedAt, IsCompletedFrom, IsCompletedIn, IsCompletedOn, IsCompletedOver, IsCompletion};
ghost use Rattle.timefd_lint_lsp.specs.Editor.Completions as spec;
ghost use Rattle.timefd_lint_lsp.specs.Editor.Offered.{around};

use crate::editor::counter::{none_counted, range_from};
use crate::editor::cursor::{bytes_before, last_word};
use crate::editor::offered::{Begun, offered};
use crate::editor::position::DocumentRange;
use crate::editor::slot::open_slot;
use std::alloc::{AllocError, Global};
use std::str;
use timefd_lint_diagnosis::Slot;
use timefd_lint_scan::{PlacedToken, SourceDescription, index_in_source};
use timefd_lint_sources::{SourceText, descriptions_in, language_of};
use timefd_parse::{DescriptionVersion, Language};

/// What may be written for the word that is begun at a cursor.
#[derive(Drop)]
pub struct Completion {
    /// The word that is begun, up to the cursor. Each of the words replaces it.
    pub range: DocumentRange,
    /// Whether they are names, keys or values.
    pub slot: Slot,
    pub words: Vec<&'static str>,
}

/// The words that may be written at a cursor, which is at this byte index: names, keys or values, in a bracket of a
/// description of version 1, 2 or 3. `None` if no word is known that belongs there. An `Err` says that memory ran
/// out.
#[tactic(auto, using(crate::proofs::EditorLemmas::CompletionLemmas::at_first))]
pub fn complete(
    alloc: Global,
    source: SourceText<'_>,
    index: usize,
) -> Result<Option<Completion>, AllocError>
    ensures { IfOk result (IsCompletedAt source.entry index) }
{
    let descriptions = descriptions_in(alloc, source)?;
    match first_touched(&descriptions, index) {
        Some(description) => complete_on(alloc, source.text, description, index),
        None => Ok(None),
    }
}

// The first description whose literal covers an index or ends there.
fn first_touched(descriptions: &[SourceDescription], index: usize) -> Option<&SourceDescription>
    ensures { option_map (λ found. found.now) result ≡ spec.first_touched descriptions.now index }
{
    for description in descriptions {
        if touches(description.piece, index) {
            return Some(description);
        }
    }
    None
}

fn touches(piece: PlacedToken, index: usize) -> bool
    ensures { result ≡ spec.touches piece index }
{
    piece.start <= index && index <= piece.end
}

// What may be written at an index of the document, where this description is.
#[tactic(auto, using(crate::proofs::EditorLemmas::CompletionLemmas::of_version, crate::proofs::EditorLemmas::CompletionLemmas::of_strftime))]
fn complete_on(
    alloc: Global,
    text: &str,
    description: &SourceDescription,
    index: usize,
) -> Result<Option<Completion>, AllocError>
    ensures { IfOk result (IsCompletedOn text.now description.now index) }
{
    match language_of(description.dialect) {
        Language::Version(version) => complete_in(alloc, text, description, version, index),
        Language::Strftime => Ok(None),
    }
}

#[tactic(auto, using(crate::proofs::EditorLemmas::CompletionLemmas::at_none, crate::proofs::EditorLemmas::CompletionLemmas::not_text, crate::proofs::EditorLemmas::CompletionLemmas::at_byte))]
fn complete_in(
    alloc: Global,
    text: &str,
    description: &SourceDescription,
    version: DescriptionVersion,
    index: usize,
) -> Result<Option<Completion>, AllocError>
    ensures { IfOk result (IsCompletedIn text.now description.now version index) }
{
    let Some(at) = bytes_before(description, index) else {
        return Ok(None);
    };
    match str::from_utf8(description.unescaped.text.as_slice()) {
        Ok(reported) => complete_over(alloc, text, description, version, reported, at, index),
        Err(_) => Ok(None),
    }
}

// What may be written where this many bytes of the description precede the cursor.
#[tactic(auto, using(crate::proofs::EditorLemmas::CompletionLemmas::between, crate::proofs::EditorLemmas::CompletionLemmas::within))]
fn complete_over(
    alloc: Global,
    text: &str,
    description: &SourceDescription,
    version: DescriptionVersion,
    reported: &str,
    at: usize,
    index: usize,
) -> Result<Option<Completion>, AllocError>
    ensures { IfOk result (IsCompletedOver text.now description.now version reported.now at index) }
{
    match reported.split_at_checked(at) {
        Some((front, after)) => {
            complete_from(alloc, text, description, version, front, after, index)
        }
        None => Ok(None),
    }
}

// What may be written between two parts of a description.
#[tactic(auto, using(crate::proofs::EditorLemmas::CompletionLemmas::known, crate::proofs::EditorLemmas::CompletionLemmas::unknown))]
fn complete_from(
    alloc: Global,
    text: &str,
    description: &SourceDescription,
    version: DescriptionVersion,
    front: &str,
    after: &str,
    index: usize,
) -> Result<Option<Completion>, AllocError>
    ensures { IfOk result (IsCompletedFrom text.now description.now version front.now after.now index) }
{
    let (before, word) = last_word(front);
    match open_slot(version, before) {
        Some(slot) => {
            let begun = Begun {
                version,
                slot,
                before,
                word,
                after,
            };
            let completion = completion_of(alloc, text, description, begun, index)?;
            Ok(Some(completion))
        }
        None => Ok(None),
    }
}

fn completion_of(
    alloc: Global,
    text: &str,
    description: &SourceDescription,
    begun: Begun<'_>,
    index: usize,
) -> Result<Completion, AllocError>
    ensures { IfOk result (IsCompletion text.now description.now (around begun.entry) index) }
{
    let start = index_in_source(description, begun.before.len());
    Ok(Completion {
        range: range_from(text, none_counted(text), start, index),
        slot: begun.slot,
        words: offered(alloc, begun)?,
    })
}
