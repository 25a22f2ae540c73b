//! A change of a document that an editor offers.

ghost use Rattle.std.specs.Prelude.{◌≡◌, OnOk, option_map, string_bytes};
ghost use Rattle.timefd_lint_lsp.specs.Editor.Edits.{AreBodyEdits, AreEdits, AreVersionEdits, IsArgumentEdit, IsDigitEdit, IsOneEdit};
ghost use Rattle.timefd_lint_lsp.specs.Editor.Edits as spec;
ghost use Rattle.timefd_lint_lsp.specs.Editor.Each.{Adds};
ghost use Rattle.timefd_lint_lsp.specs.Editor.Positions.{IsCounted};

use crate::editor::counter::range_from;
use crate::editor::finding::DocumentSpot;
use crate::editor::position::DocumentRange;
use std::alloc::{AllocError, Global};
use timefd_lint_scan::{VersionPosition, body_end, inside};

/// What an action is for.
#[derive(Clone, Copy)]
pub enum ActionKind {
    /// Fixes a fault in a way that is sure to be right.
    QuickFix,
    /// Fixes a fault by a guess.
    Guess,
    /// Writes a correct description in another way.
    Rewrite,
    /// Fixes all descriptions of a document that have a sure fix.
    FixAll,
}

/// Which actions are wanted.
#[derive(Clone, Copy)]
pub struct WantedActions {
    /// Fixes of the descriptions in a range.
    pub fixes: bool,
    /// Rewrites of the descriptions in a range.
    pub rewrites: bool,
    /// One action with all sure fixes of the document.
    pub fix_all: bool,
}

/// Replaces a range by another text. An empty range only inserts the text.
#[derive(Drop)]
pub struct Edit {
    pub range: DocumentRange,
    pub text: String,
}

/// An action that an editor offers.
#[derive(Drop)]
pub struct Action {
    /// The title: what the action does, in words.
    pub title: String,
    pub kind: ActionKind,
    /// All changes: of the number for a description's version, of the text between its quotes, or of both.
    /// They don't overlap.
    pub edits: Vec<Edit>,
}

/// Adds the edits that replace a description's version digit and the text in its literal.
#[tactic(auto, using(crate::proofs::EditorLemmas::EditLemmas::both))]
pub fn push_edits(
    alloc: Global,
    spot: DocumentSpot<'_>,
    digit: Option<u8>,
    body: Option<&str>,
    edits: &mut Vec<Edit>,
) -> Result<(), AllocError>
    requires { IsCounted spot.text.now spot.counter }
    ensures { OnOk result (Adds (AreEdits spot.entry.text.now spot.entry.description.now digit
        (option_map (λ text. text.now) body.entry)) edits.old.items edits.new.items) }
{
    push_version(alloc, spot, digit, edits)?;
    push_body(alloc, spot, body, edits)
}

#[tactic(auto, using(crate::proofs::EditorLemmas::EditLemmas::same_version, crate::proofs::EditorLemmas::EditLemmas::by_digit, crate::proofs::EditorLemmas::EditLemmas::by_argument, crate::proofs::EditorLemmas::EditLemmas::by_call, crate::proofs::EditorLemmas::EditLemmas::elsewhere))]
fn push_version(
    alloc: Global,
    spot: DocumentSpot<'_>,
    digit: Option<u8>,
    edits: &mut Vec<Edit>,
) -> Result<(), AllocError>
    requires { IsCounted spot.text.now spot.counter }
    ensures { OnOk result (Adds (AreVersionEdits spot.entry.text.now spot.entry.description.now digit)
        edits.old.items edits.new.items) }
{
    let Some(digit) = digit else {
        return Ok(());
    };
    match spot.description.version {
        VersionPosition::Digit(at) => push_digit(alloc, spot, at, digit, edits),
        VersionPosition::Unsaid => push_argument(alloc, spot, digit, edits),
        VersionPosition::Call => Ok(()),
        VersionPosition::Elsewhere => Ok(()),
    }
}

// Adds the edit that writes another digit at this index.
fn push_digit(
    alloc: Global,
    spot: DocumentSpot<'_>,
    at: usize,
    digit: u8,
    edits: &mut Vec<Edit>,
) -> Result<(), AllocError>
    requires { IsCounted spot.text.now spot.counter }
    ensures { OnOk result (Adds (IsDigitEdit spot.entry.text.now at digit)
        edits.old.items edits.new.items) }
{
    let text = String::from_str(alloc, digit_text(digit))?;
    push_edit(edits, spot, at, at.saturating_add(1), text)
}

// Adds the edit that inserts an argument with the version before a description's literal.
fn push_argument(
    alloc: Global,
    spot: DocumentSpot<'_>,
    digit: u8,
    edits: &mut Vec<Edit>,
) -> Result<(), AllocError>
    requires { IsCounted spot.text.now spot.counter }
    ensures { OnOk result (Adds (IsArgumentEdit spot.entry.text.now spot.entry.description.now.piece.start digit)
        edits.old.items edits.new.items) }
{
    let digit = digit_text(digit);
    let text = format!(in alloc; "version = {digit}, ")?;
    let start = spot.description.piece.start;
    push_edit(edits, spot, start, start, text)
}

// A version's digit, as a text.
fn digit_text(digit: u8) -> &'static str
    ensures { result.now ≡ spec.digit_text digit }
{
    if digit == b'1' {
        "1"
    } else if digit == b'2' {
        "2"
    } else {
        "3"
    }
}

#[tactic(auto, using(crate::proofs::EditorLemmas::EditLemmas::same_body))]
fn push_body(
    alloc: Global,
    spot: DocumentSpot<'_>,
    body: Option<&str>,
    edits: &mut Vec<Edit>,
) -> Result<(), AllocError>
    requires { IsCounted spot.text.now spot.counter }
    ensures { OnOk result (Adds (AreBodyEdits spot.entry.text.now spot.entry.description.now
        (option_map (λ text. text.now) body.entry)) edits.old.items edits.new.items) }
{
    let Some(body) = body else {
        return Ok(());
    };
    let end = body_end(spot.description.piece, spot.description.kind);
    let start = end.saturating_sub(inside_len(spot));
    let text = String::from_str(alloc, body)?;
    push_edit(edits, spot, start, end, text)
}

// How many bytes are between the quotes of a description's literal.
fn inside_len(spot: DocumentSpot<'_>) -> usize
    ensures { result ≡ spec.inside_len spot.entry.text.now spot.entry.description.now }
{
    match inside(spot.text, spot.description.piece, spot.description.kind) {
        Some(inside) => inside.len(),
        None => 0,
    }
}

fn push_edit(
    edits: &mut Vec<Edit>,
    spot: DocumentSpot<'_>,
    start: usize,
    end: usize,
    text: String,
) -> Result<(), AllocError>
    requires { IsCounted spot.text.now spot.counter }
    ensures { OnOk result (Adds (IsOneEdit spot.entry.text.now start end (string_bytes text))
        edits.old.items edits.new.items) }
{
    let range = range_from(spot.text, spot.counter, start, end);
    Ok(edits.push(Edit { range, text })?)
}
