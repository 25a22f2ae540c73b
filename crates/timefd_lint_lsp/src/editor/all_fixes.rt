//! One action that fixes all descriptions of a document.

ghost use Rattle.std.specs.Prelude.{IfOk, OnOk};
ghost use Rattle.timefd_lint_lsp.specs.Editor.AllFixes.{AreAsOneAction, AreFixes, AreFixesTo, IsFixAll};
ghost use Rattle.timefd_lint_lsp.specs.Editor.Each.{Adds, AreIf, AreOf};
ghost use Rattle.timefd_lint_lsp.specs.Editor.Positions.{IsCounted};

use crate::editor::action::{Action, ActionKind, Edit, push_edits};
use crate::editor::counter::{DocumentCounter, counted, none_counted};
use crate::editor::finding::DocumentSpot;
use std::alloc::{AllocError, Global};
use std::str;
use timefd_lint_rewrite::Fixes;
use timefd_lint_scan::SourceDescription;
use timefd_lint_scan::version::first_position;
use timefd_lint_sources::rewriting::{Answer, Change, NewParts, answer_to};

/// Adds the action that fixes all descriptions with a sure fix, if it is wanted and there are any. An `Err`
/// says that memory ran out.
#[tactic(auto, using(crate::proofs::EditorLemmas::EachLemmas::unwanted, crate::proofs::EditorLemmas::FixLemmas::all_fixed))]
pub fn push_fix_all(
    alloc: Global,
    text: &str,
    descriptions: &[SourceDescription],
    is_wanted: bool,
    actions: &mut Vec<Action>,
) -> Result<(), AllocError>
    ensures { OnOk result (Adds (AreIf is_wanted (IsFixAll text.now descriptions.now))
        actions.old.items actions.new.items) }
{
    if !is_wanted {
        return Ok(());
    }
    let mut edits = Vec::new(alloc);
    push_fixes(alloc, text, descriptions, &mut edits)?;
    push_as_one(alloc, edits, actions)?;
    Ok(())
}

// Adds some edits as one action, if there are any.
#[tactic(auto, using(crate::proofs::EditorLemmas::FixLemmas::no_edits, crate::proofs::EditorLemmas::FixLemmas::some_edits))]
fn push_as_one(alloc: Global, edits: Vec<Edit>, actions: &mut Vec<Action>) -> Result<(), AllocError>
    ensures { OnOk result (Adds (AreAsOneAction edits.items) actions.old.items actions.new.items) }
{
    if edits.is_empty() {
        return Ok(());
    }
    Ok(actions.push(Action {
        title: String::from_str(alloc, "Mend all format descriptions")?,
        kind: ActionKind::FixAll,
        edits,
    })?)
}

// Adds the edits of all sure fixes.
#[tactic(auto, using(crate::proofs::EditorLemmas::EachLemmas::at_first, crate::proofs::EditorLemmas::EachLemmas::at_last))]
fn push_fixes(
    alloc: Global,
    text: &str,
    descriptions: &[SourceDescription],
    edits: &mut Vec<Edit>,
) -> Result<(), AllocError>
    ensures { OnOk result (Adds (AreOf (AreFixes text.now) descriptions.now)
        edits.old.items edits.new.items) }
{
    let mut counter = none_counted(text);
    for description in descriptions {
        counter = push_counted(alloc, text, description, counter, edits)?;
    }
    Ok(())
}

// Adds the edits of a description's sure fix. Returns how far the document is counted then.
fn push_counted(
    alloc: Global,
    text: &str,
    description: &SourceDescription,
    counter: DocumentCounter,
    edits: &mut Vec<Edit>,
) -> Result<DocumentCounter, AllocError>
    requires { IsCounted text.now counter }
    ensures counted { IfOk result (λ next. IsCounted text.now next) }
    ensures fixed { OnOk result (Adds (AreFixes text.now description.now) edits.old.items edits.new.items) }
{
    let first = first_position(description.version, description.piece.start);
    let counter = counted(text, counter, first);
    let spot = DocumentSpot {
        text,
        description,
        counter,
    };
    push_fix(alloc, spot, edits)?;
    Ok(counter)
}

#[tactic(auto, using(crate::proofs::EditorLemmas::FixLemmas::stays, crate::proofs::EditorLemmas::FixLemmas::becomes))]
fn push_fix(alloc: Global, spot: DocumentSpot<'_>, edits: &mut Vec<Edit>) -> Result<(), AllocError>
    requires { IsCounted spot.text.now spot.counter }
    ensures { OnOk result (Adds (AreFixes spot.entry.text.now spot.entry.description.now)
        edits.old.items edits.new.items) }
{
    match answer_to(
        alloc,
        Change::Mended(Fixes::Sure),
        spot.text,
        spot.description,
    )? {
        Answer::Stays(_) => Ok(()),
        Answer::Becomes(rewritten) => {
            push_parts(alloc, spot, &rewritten, edits)?;
            Ok(())
        }
    }
}

// Adds the edits that write these parts of a description, if an editor can write them.
#[tactic(auto, using(crate::proofs::EditorLemmas::FixLemmas::same_body, crate::proofs::EditorLemmas::FixLemmas::other_body, crate::proofs::EditorLemmas::FixLemmas::no_body))]
fn push_parts(
    alloc: Global,
    spot: DocumentSpot<'_>,
    rewritten: &NewParts,
    edits: &mut Vec<Edit>,
) -> Result<(), AllocError>
    requires { IsCounted spot.text.now spot.counter }
    ensures { OnOk result (Adds (AreFixesTo spot.entry.text.now spot.entry.description.now rewritten.now)
        edits.old.items edits.new.items) }
{
    let Some(body) = &rewritten.body else {
        push_edits(alloc, spot, rewritten.digit, None, edits)?;
        return Ok(());
    };
    match str::from_utf8(body) {
        Ok(text) => {
            push_edits(alloc, spot, rewritten.digit, Some(text), edits)?;
            Ok(())
        }
        Err(_) => Ok(()),
    }
}
