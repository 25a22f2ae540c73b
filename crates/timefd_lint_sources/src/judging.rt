//! What is wrong with a text where it stands: one judgement for lines, literals, values of keys and editors.

ghost use Rattle.std.specs.Prelude.{◌≡◌, ◌∷◌, ◌++◌, IfOk, IfSome, List, OnOk, Some, flat_map};
ghost use Rattle.timefd_parse.specs.Tree.{Tree};
ghost use Rattle.timefd_parse.specs.Faults.{fault_of};
ghost use Rattle.timefd_parse.specs.Placed.{IsPlaced};
ghost use Rattle.timefd_language.specs.Grammar.{nesting_limit};
ghost use Rattle.timefd_lint_diagnosis.specs.declared.diagnostic.Diagnostic as diagnostics;
ghost use Rattle.timefd_lint_diagnosis.specs.Further.{AreFurther, most_further, without};
ghost use Rattle.timefd_lint_sources.specs.declared.judgement.TextPlace.TheVariants.{Own, Other};
ghost use Rattle.timefd_lint_sources.specs.Judgements.{AreTrapsIf, IsAcceptedBy, IsJudgement, found_if, unless_item};
ghost use Rattle.timefd_lint_sources.specs.Judgements as spec;
ghost use Rattle.timefd_parse.specs.Language.{SpellsIn};

use crate::judgement::{RefusedParts, TextJudgement, TextPlace};
use crate::opening::is_of_item;
use crate::search::first_refusal;
use std::alloc::{AllocError, Global};
use timefd_lang_dialect::{Dialect, Found, traps};
use timefd_lang_warnings::Levels;
use timefd_lint_diagnosis::{Diagnostic, MOST_FURTHER, diagnose, further_faults};
use timefd_lint_scan::Items;
use timefd_lint_warnings::{found_at_once, found_in};
use timefd_parse::Language;

/// What is wrong with a text where it stands. Warnings and traps are looked for if they have levels. An `Err` says that
/// memory ran out.
#[tactic(auto, using(crate::proofs::JudgementLemmas::in_place))]
pub fn judge(
    alloc: Global,
    place: TextPlace,
    levels: Option<Levels>,
    text: &str,
) -> Result<TextJudgement, AllocError>
    ensures { IfOk result (IsJudgement place levels text.now) }
{
    match place {
        TextPlace::Own(language, items) => judge_own(alloc, language, items, levels, text),
        TextPlace::Other(dialect, parts) => judge_other(alloc, dialect, parts, levels, text),
    }
}

// What is wrong with a text of a language of `time`.
fn judge_own(
    alloc: Global,
    language: Language,
    items: Items,
    levels: Option<Levels>,
    text: &str,
) -> Result<TextJudgement, AllocError>
    ensures { IfOk result (IsJudgement (Own language items) levels text.now) }
{
    match warned_at_once(alloc, language, levels, text) {
        Some(found) => Ok(TextJudgement::Accepted(language, Some(found))),
        None => judge_step_by_step(alloc, language, items, levels, text),
    }
}

// The warnings of a text that its language accepts, if they are looked for: it is read once. `None` says nothing.
fn warned_at_once(
    alloc: Global,
    language: Language,
    levels: Option<Levels>,
    text: &str,
) -> Option<Levels>
    ensures { IfSome result (λ found. IsAcceptedBy language levels text.now (Some found)) }
{
    match levels {
        Some(levels) => found_at_once(alloc, language, text, levels),
        None => None,
    }
}

// What is wrong with a text of a language of `time`: first its faults, and if it has none, its warnings.
fn judge_step_by_step(
    alloc: Global,
    language: Language,
    items: Items,
    levels: Option<Levels>,
    text: &str,
) -> Result<TextJudgement, AllocError>
    ensures { IfOk result (IsJudgement (Own language items) levels text.now) }
{
    match diagnose(alloc, language, text)? {
        None => {
            let found = warnings_in(alloc, language, levels, text)?;
            Ok(TextJudgement::Accepted(language, found))
        }
        Some(first) => {
            let faults = faults_from(alloc, language, items, text, first)?;
            Ok(TextJudgement::Faulty(faults))
        }
    }
}

// The warnings of a text that its language accepts, if they are looked for.
fn warnings_in(
    alloc: Global,
    language: Language,
    levels: Option<Levels>,
    text: &str,
) -> Result<Option<Levels>, AllocError>
    ensures { (list : List Tree) → SpellsIn language nesting_limit text.now list
        → IfOk result (λ found. found ≡ found_if levels language list) }
{
    match levels {
        Some(levels) => {
            let found = found_in(alloc, language, text, levels)?;
            Ok(Some(found))
        }
        None => Ok(None),
    }
}

// The faults of a text from this first one on. Faults that only `parse` finds aren't among them, if the place takes such
// items.
fn faults_from(
    alloc: Global,
    language: Language,
    items: Items,
    text: &str,
    first: Diagnostic,
) -> Result<Vec<Diagnostic>, AllocError>
    requires { IsPlaced text.now (fault_of first.fault) }
    ensures { IfOk result (λ faults. (found : List diagnostics.Diagnostic)
        × AreFurther most_further language (without language text.now (fault_of first.fault)) found
        × (faults.items ≡ first ∷ flat_map (unless_item items) found)) }
{
    let further = further_faults(alloc, language, text, &first, MOST_FURTHER)?;
    all_from(alloc, items, first, further)
}

fn all_from(
    alloc: Global,
    items: Items,
    first: Diagnostic,
    further: Vec<Diagnostic>,
) -> Result<Vec<Diagnostic>, AllocError>
    ensures { IfOk result (λ faults. faults.items ≡ first ∷ flat_map (unless_item items) further.items) }
{
    let mut faults = Vec::new(alloc);
    faults.push(first)?;
    for diagnostic in further {
        push_unless_item(&mut faults, items, diagnostic)?;
    }
    Ok(faults)
}

fn push_unless_item(
    faults: &mut Vec<Diagnostic>,
    items: Items,
    diagnostic: Diagnostic,
) -> Result<(), AllocError>
    ensures { OnOk result (faults.new.items ≡ faults.old.items ++ unless_item items diagnostic) }
{
    if !is_left_out(items, &diagnostic) {
        faults.push(diagnostic)?;
    }
    Ok(())
}

// Whether a place takes what is at fault.
fn is_left_out(items: Items, diagnostic: &Diagnostic) -> bool
    ensures { result ≡ spec.is_left_out items diagnostic.now }
{
    match items {
        Items::Refused => false,
        Items::Taken => is_of_item(diagnostic.code),
    }
}

// What is wrong with a format of another language or library.
#[tactic(auto, using(crate::proofs::JudgementLemmas::is_right, crate::proofs::JudgementLemmas::is_refused))]
fn judge_other(
    alloc: Global,
    dialect: Dialect,
    parts: RefusedParts,
    levels: Option<Levels>,
    text: &str,
) -> Result<TextJudgement, AllocError>
    ensures { IfOk result (IsJudgement (Other dialect parts) levels text.now) }
{
    match first_refusal(alloc, parts, dialect, text)? {
        Some(part) => Ok(TextJudgement::Refused(part)),
        None => {
            let found = traps_if(alloc, levels.is_some(), dialect, text)?;
            Ok(TextJudgement::Right(found))
        }
    }
}

// The traps of a format, if they are looked for.
fn traps_if(
    alloc: Global,
    is_asked: bool,
    dialect: Dialect,
    text: &str,
) -> Result<Vec<Found>, AllocError>
    ensures { IfOk result (λ found. AreTrapsIf is_asked dialect text.now found.items) }
{
    if is_asked {
        Ok(traps(alloc, dialect, text)?)
    } else {
        Ok(Vec::new(alloc))
    }
}
