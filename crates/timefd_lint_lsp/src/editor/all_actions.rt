//! What can be done to the descriptions of a source.

ghost use Rattle.std.specs.Prelude.{◌≡◌, IfOk, OnOk, option_map};
ghost use Rattle.timefd_lint_lsp.specs.Editor.Actions.{AreActionsIn, AreActionsOf, AreMends, AreOffers, AreRewrites, IsBecoming, IsOffer, IsOneAction};
ghost use Rattle.timefd_lint_lsp.specs.Editor.Actions as spec;
ghost use Rattle.timefd_lint_lsp.specs.Editor.Each.{Adds, AreIf, AreOf};
ghost use Rattle.timefd_lint_lsp.specs.Editor.Positions.{IsCounted};

use crate::editor::action::{Action, ActionKind, WantedActions, push_edits};
use crate::editor::all_fixes::push_fix_all;
use crate::editor::counter::{DocumentCounter, counted, none_counted};
use crate::editor::finding::DocumentSpot;
use std::alloc::{AllocError, Global};
use std::str;
use timefd_lint_rewrite::Fixes;
use timefd_lint_scan::version::first_position;
use timefd_lint_scan::{PlacedToken, SourceDescription, descriptions_of};
use timefd_lint_sources::rewriting::{Answer, Change, NewParts, answer_to};
use timefd_lint_sources::{Finder, SourceText};
use timefd_parse::DescriptionVersion;

/// What can be done to the descriptions that overlap or touch the bytes from `start` up to `end`, as far as it
/// is wanted. A description with a fault is fixed, by a sure fix or else by guesses. One of an older version is
/// rewritten in version 3. One more action fixes all descriptions of the document that have a sure fix. In files
/// with keys nothing is offered. An `Err` says that memory ran out.
#[tactic(auto, using(crate::proofs::EditorLemmas::ActionLemmas::by_rust, crate::proofs::EditorLemmas::ActionLemmas::by_keys))]
pub fn actions(
    alloc: Global,
    source: SourceText<'_>,
    wanted: WantedActions,
    start: usize,
    end: usize,
) -> Result<Vec<Action>, AllocError>
    ensures { IfOk result (λ actions. AreActionsOf wanted start end source.entry actions.items) }
{
    let mut actions = Vec::new(alloc);
    match source.finder {
        Finder::Keys(_, _) => Ok(actions),
        Finder::Rust(calls) => {
            let descriptions = descriptions_of(alloc, source.text, calls)?;
            let bytes = (start, end);
            push_all(
                alloc,
                source.text,
                &descriptions,
                wanted,
                bytes,
                &mut actions,
            )?;
            push_fix_all(
                alloc,
                source.text,
                &descriptions,
                wanted.fix_all,
                &mut actions,
            )?;
            Ok(actions)
        }
    }
}

// Adds what can be done to those of the descriptions that overlap or touch some bytes.
#[tactic(auto, using(crate::proofs::EditorLemmas::EachLemmas::at_first, crate::proofs::EditorLemmas::EachLemmas::at_last))]
fn push_all(
    alloc: Global,
    text: &str,
    descriptions: &[SourceDescription],
    wanted: WantedActions,
    bytes: (usize, usize),
    actions: &mut Vec<Action>,
) -> Result<(), AllocError>
    ensures { OnOk result (Adds (AreOf (AreActionsIn wanted text.now bytes.0 bytes.1) descriptions.now)
        actions.old.items actions.new.items) }
{
    let mut counter = none_counted(text);
    for description in descriptions {
        counter = push_in(alloc, text, description, counter, wanted, bytes, actions)?;
    }
    Ok(())
}

// Adds what can be done to a description, if it overlaps or touches some bytes. Returns how far the document
// is counted then.
#[tactic(auto, using(crate::proofs::EditorLemmas::ActionLemmas::apart, crate::proofs::EditorLemmas::ActionLemmas::within))]
fn push_in(
    alloc: Global,
    text: &str,
    description: &SourceDescription,
    counter: DocumentCounter,
    wanted: WantedActions,
    bytes: (usize, usize),
    actions: &mut Vec<Action>,
) -> Result<DocumentCounter, AllocError>
    requires { IsCounted text.now counter }
    ensures counted { IfOk result (λ next. IsCounted text.now next) }
    ensures offered { OnOk result (Adds (AreActionsIn wanted text.now bytes.0 bytes.1 description.now)
        actions.old.items actions.new.items) }
{
    if !overlaps(description.piece, bytes.0, bytes.1) {
        return Ok(counter);
    }
    let first = first_position(description.version, description.piece.start);
    let counter = counted(text, counter, first);
    let spot = DocumentSpot {
        text,
        description,
        counter,
    };
    push_offers(alloc, spot, wanted, actions)?;
    Ok(counter)
}

// Whether a literal overlaps or touches the bytes from `start` up to `end`.
fn overlaps(piece: PlacedToken, start: usize, end: usize) -> bool
    ensures { result ≡ spec.overlaps piece start end }
{
    piece.start <= end && start <= piece.end
}

// Adds what can be done to a description, as far as it is wanted.
#[tactic(auto, using(crate::proofs::EditorLemmas::ActionLemmas::mends_and_rewrites))]
fn push_offers(
    alloc: Global,
    spot: DocumentSpot<'_>,
    wanted: WantedActions,
    actions: &mut Vec<Action>,
) -> Result<(), AllocError>
    requires { IsCounted spot.text.now spot.counter }
    ensures { OnOk result (Adds (AreOffers wanted spot.entry.text.now spot.entry.description.now)
        actions.old.items actions.new.items) }
{
    push_mends_if(alloc, spot, wanted.fixes, actions)?;
    push_rewrite_if(alloc, spot, wanted.rewrites, actions)?;
    Ok(())
}

#[tactic(auto, using(crate::proofs::EditorLemmas::EachLemmas::unwanted, crate::proofs::EditorLemmas::EachLemmas::wanted))]
fn push_mends_if(
    alloc: Global,
    spot: DocumentSpot<'_>,
    is_wanted: bool,
    actions: &mut Vec<Action>,
) -> Result<(), AllocError>
    requires { IsCounted spot.text.now spot.counter }
    ensures { OnOk result (Adds (AreIf is_wanted (AreMends spot.entry.text.now spot.entry.description.now))
        actions.old.items actions.new.items) }
{
    if !is_wanted {
        return Ok(());
    }
    push_mends(alloc, spot, actions)?;
    Ok(())
}

#[tactic(auto, using(crate::proofs::EditorLemmas::EachLemmas::unwanted, crate::proofs::EditorLemmas::ActionLemmas::rewritten))]
fn push_rewrite_if(
    alloc: Global,
    spot: DocumentSpot<'_>,
    is_wanted: bool,
    actions: &mut Vec<Action>,
) -> Result<(), AllocError>
    requires { IsCounted spot.text.now spot.counter }
    ensures { OnOk result (Adds (AreIf is_wanted (AreRewrites spot.entry.text.now spot.entry.description.now))
        actions.old.items actions.new.items) }
{
    if !is_wanted {
        return Ok(());
    }
    let change = Change::Least(DescriptionVersion::Three);
    push_offer(alloc, spot, change, actions)?;
    Ok(())
}

// Adds the fix of a description: by guesses only if there is no sure fix.
#[tactic(auto, using(crate::proofs::EditorLemmas::ActionLemmas::surely, crate::proofs::EditorLemmas::ActionLemmas::by_guesses))]
fn push_mends(
    alloc: Global,
    spot: DocumentSpot<'_>,
    actions: &mut Vec<Action>,
) -> Result<(), AllocError>
    requires { IsCounted spot.text.now spot.counter }
    ensures { OnOk result (Adds (AreMends spot.entry.text.now spot.entry.description.now)
        actions.old.items actions.new.items) }
{
    if push_offer(alloc, spot, Change::Mended(Fixes::Sure), actions)? {
        return Ok(());
    }
    push_offer(alloc, spot, Change::Mended(Fixes::All), actions)?;
    Ok(())
}

// Adds this change of a description, if it changes anything. Returns whether it does.
#[tactic(auto, using(crate::proofs::EditorLemmas::ActionLemmas::stays, crate::proofs::EditorLemmas::ActionLemmas::becomes))]
fn push_offer(
    alloc: Global,
    spot: DocumentSpot<'_>,
    change: Change,
    actions: &mut Vec<Action>,
) -> Result<bool, AllocError>
    requires { IsCounted spot.text.now spot.counter }
    ensures { IfOk result (λ done. Adds (IsOffer change spot.entry.text.now spot.entry.description.now done)
        actions.old.items actions.new.items) }
{
    match answer_to(alloc, change, spot.text, spot.description)? {
        Answer::Stays(_) => Ok(false),
        Answer::Becomes(rewritten) => push_becoming(alloc, spot, change, &rewritten, actions),
    }
}

// Adds the new text of a description, if an editor can write it. Returns whether it can.
#[tactic(auto, using(crate::proofs::EditorLemmas::ActionLemmas::same_text, crate::proofs::EditorLemmas::ActionLemmas::other_text, crate::proofs::EditorLemmas::ActionLemmas::no_text))]
fn push_becoming(
    alloc: Global,
    spot: DocumentSpot<'_>,
    change: Change,
    rewritten: &NewParts,
    actions: &mut Vec<Action>,
) -> Result<bool, AllocError>
    requires { IsCounted spot.text.now spot.counter }
    ensures { IfOk result (λ done. Adds (IsBecoming change spot.entry.text.now spot.entry.description.now rewritten.now done)
        actions.old.items actions.new.items) }
{
    let Some(body) = &rewritten.body else {
        push_action(alloc, spot, change, rewritten.digit, None, actions)?;
        return Ok(true);
    };
    match str::from_utf8(body) {
        Ok(text) => {
            push_action(alloc, spot, change, rewritten.digit, Some(text), actions)?;
            Ok(true)
        }
        Err(_) => Ok(false),
    }
}

fn push_action(
    alloc: Global,
    spot: DocumentSpot<'_>,
    change: Change,
    digit: Option<u8>,
    body: Option<&str>,
    actions: &mut Vec<Action>,
) -> Result<(), AllocError>
    requires { IsCounted spot.text.now spot.counter }
    ensures { OnOk result (Adds (IsOneAction change spot.entry.text.now spot.entry.description.now digit
        (option_map (λ text. text.now) body.entry)) actions.old.items actions.new.items) }
{
    let mut edits = Vec::new(alloc);
    push_edits(alloc, spot, digit, body, &mut edits)?;
    Ok(actions.push(Action {
        title: String::from_str(alloc, title_of(change))?,
        kind: kind_of(change),
        edits,
    })?)
}

fn kind_of(change: Change) -> ActionKind
    ensures { result ≡ spec.kind_of change }
{
    match change {
        Change::Mended(Fixes::Sure) => ActionKind::QuickFix,
        Change::Mended(Fixes::All) => ActionKind::Guess,
        Change::Least(_) | Change::Normal => ActionKind::Rewrite,
    }
}

fn title_of(change: Change) -> &'static str
    ensures { result.now ≡ spec.title_of change }
{
    match change {
        Change::Mended(Fixes::Sure) => "Mend the format description",
        Change::Mended(Fixes::All) => "Mend the format description by a guess",
        Change::Least(_) | Change::Normal => "Rewrite the format description in version 3",
    }
}
