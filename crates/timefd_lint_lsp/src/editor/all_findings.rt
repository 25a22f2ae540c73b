//! All that is wrong in a document.

ghost use Rattle.std.specs.Prelude.{◌≡◌, ◌++◌, IfOk, OnOk, flat_map};
ghost use Rattle.timefd_lint_lsp.specs.Editor.Each.{Adds, AreOf};
ghost use Rattle.timefd_lint_lsp.specs.Editor.Findings.{AreBy, AreFindingsLeft, AreFindingsOf, AreLeftOn, AreOn, unless_allowed};
ghost use Rattle.timefd_lint_lsp.specs.Editor.Positions.{IsCounted};
ghost use Rattle.timefd_lint_sources.specs.Judged.{text_of};

use crate::editor::counter::{counted, none_counted};
use crate::editor::faults::push_faults;
use crate::editor::finding::{DocumentSpot, Finding};
use crate::editor::other::{push_refusal, push_traps};
use crate::editor::remarked::push_remarks;
use crate::editor::warned::{push_note, push_warnings};
use std::alloc::{AllocError, Global};
use std::str;
use timefd_lang_warnings::Levels;
use timefd_lint_scan::SourceDescription;
use timefd_lint_sources::allowances::allowances_in;
use timefd_lint_sources::{
    Finder, Judged, SourceText, TextJudgement, is_allowed, judge, judged_with_remarks, levels_of,
    place_of,
};

/// All that is wrong in a source, in order: the first fault of each description that its language refuses,
/// its further faults, a description that isn't UTF-8, and the warnings that `levels` asks for. Of a format of another
/// language or library it is the first part that is refused there, or else its traps if warnings are asked for. What the
/// comments of the source allow is left out, and what is wrong in comments comes last. An `Err` says that memory ran out.
#[tactic(auto, using(crate::proofs::EditorLemmas::LeftLemmas::of_source))]
pub fn findings(
    alloc: Global,
    source: SourceText<'_>,
    levels: Option<Levels>,
) -> Result<Vec<Finding>, AllocError>
    ensures { IfOk result (λ found. AreFindingsOf levels source.entry found.items) }
{
    let allowances = allowances_in(alloc, source.finder, source.text)?;
    let source = SourceText {
        file: source.file,
        finder: source.finder,
        text: source.text,
        allowances: &allowances,
    };
    findings_left(alloc, source, levels)
}

// All that is wrong in a source and that its comments don't allow, and what is wrong in these.
#[tactic(auto, using(crate::proofs::EditorLemmas::LeftLemmas::all_left))]
fn findings_left(
    alloc: Global,
    source: SourceText<'_>,
    levels: Option<Levels>,
) -> Result<Vec<Finding>, AllocError>
    ensures { IfOk result (λ found. AreFindingsLeft levels source.entry found.items) }
{
    let Judged {
        descriptions,
        remarks,
    } = judged_with_remarks(alloc, source)?;
    let mut found = Vec::new(alloc);
    push_all(alloc, source, levels, &descriptions, &mut found)?;
    push_remarks(alloc, source.text, &remarks, &mut found)?;
    Ok(found)
}

// Adds what is wrong with these descriptions of a document, one after another.
#[tactic(auto, using(crate::proofs::EditorLemmas::EachLemmas::at_first, crate::proofs::EditorLemmas::EachLemmas::at_last))]
fn push_all(
    alloc: Global,
    source: SourceText<'_>,
    levels: Option<Levels>,
    descriptions: &[SourceDescription],
    found: &mut Vec<Finding>,
) -> Result<(), AllocError>
    ensures { OnOk result (Adds (AreOf (AreLeftOn levels source.entry) descriptions.now)
        found.old.items found.new.items) }
{
    let text = source.text;
    let mut counter = none_counted(text);
    for description in descriptions {
        counter = counted(text, counter, description.piece.start);
        let spot = DocumentSpot {
            text,
            description,
            counter,
        };
        push_left(alloc, source, spot, levels, found)?;
    }
    Ok(())
}

// Adds what is wrong with a description and isn't allowed.
#[tactic(auto, using(crate::proofs::EditorLemmas::LeftLemmas::adds_left))]
fn push_left(
    alloc: Global,
    source: SourceText<'_>,
    spot: DocumentSpot<'_>,
    levels: Option<Levels>,
    found: &mut Vec<Finding>,
) -> Result<(), AllocError>
    requires counted { IsCounted spot.text.now spot.counter }
    requires text { spot.text.now ≡ source.text.now }
    ensures { OnOk result (Adds (AreLeftOn levels source.entry spot.entry.description.now)
        found.old.items found.new.items) }
{
    let mut all = Vec::new(alloc);
    push_on(alloc, source.finder, spot, levels, &mut all)?;
    push_unallowed(source, spot.description, all, found)
}

// Adds these findings on a description, but for those that are allowed.
fn push_unallowed(
    source: SourceText<'_>,
    description: &SourceDescription,
    all: Vec<Finding>,
    found: &mut Vec<Finding>,
) -> Result<(), AllocError>
    ensures { OnOk result (found.new.items
        ≡ found.old.items ++ flat_map (unless_allowed source.entry description.now) all.items) }
{
    for finding in all {
        push_unless_allowed(source, description, finding, found)?;
    }
    Ok(())
}

fn push_unless_allowed(
    source: SourceText<'_>,
    description: &SourceDescription,
    finding: Finding,
    found: &mut Vec<Finding>,
) -> Result<(), AllocError>
    ensures { OnOk result (found.new.items
        ≡ found.old.items ++ unless_allowed source.entry description.now finding) }
{
    if !is_allowed(source, description, finding.code) {
        found.push(finding)?;
    }
    Ok(())
}

// Adds what is wrong with a description.
fn push_on(
    alloc: Global,
    finder: Finder<'_>,
    spot: DocumentSpot<'_>,
    levels: Option<Levels>,
    found: &mut Vec<Finding>,
) -> Result<(), AllocError>
    requires { IsCounted spot.text.now spot.counter }
    ensures { OnOk result (Adds (AreOn levels finder.entry spot.entry.text.now spot.entry.description.now)
        found.old.items found.new.items) }
{
    match str::from_utf8(spot.description.unescaped.text.as_slice()) {
        Ok(text) => push_judged(alloc, finder, spot, levels, text, found),
        Err(_) => push_note(alloc, spot, found),
    }
}

// Adds what is wrong with a description that has this text.
#[tactic(auto, using(crate::proofs::EditorLemmas::FindingLemmas::with_judgement))]
fn push_judged(
    alloc: Global,
    finder: Finder<'_>,
    spot: DocumentSpot<'_>,
    levels: Option<Levels>,
    text: &str,
    found: &mut Vec<Finding>,
) -> Result<(), AllocError>
    requires counted { IsCounted spot.text.now spot.counter }
    requires text { text.now ≡ text_of spot.description.now }
    ensures { OnOk result (Adds (AreOn levels finder.entry spot.entry.text.now spot.entry.description.now)
        found.old.items found.new.items) }
{
    let place = place_of(finder, spot.description);
    let judgement = judge(alloc, place, levels, text)?;
    push_judgement(alloc, spot, &judgement, found)
}

// Adds what is wrong with a description.
#[tactic(auto, using(crate::proofs::EditorLemmas::FindingLemmas::by_faults, crate::proofs::EditorLemmas::FindingLemmas::by_traps))]
fn push_judgement(
    alloc: Global,
    spot: DocumentSpot<'_>,
    judgement: &TextJudgement,
    found: &mut Vec<Finding>,
) -> Result<(), AllocError>
    requires { IsCounted spot.text.now spot.counter }
    ensures { OnOk result (Adds (AreBy spot.entry.text.now spot.entry.description.now judgement.now)
        found.old.items found.new.items) }
{
    match judgement {
        TextJudgement::Accepted(_, warned) => push_warnings(alloc, spot, levels_of(*warned), found),
        TextJudgement::Faulty(faults) => push_faults(alloc, spot, faults, found),
        TextJudgement::Right(traps) => push_traps(alloc, spot, traps, found),
        TextJudgement::Refused(part) => push_refusal(alloc, spot, *part, found),
    }
}
