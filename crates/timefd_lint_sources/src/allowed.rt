//! What comments allow at a description.

ghost use Rattle.std.specs.Prelude.{◌≡◌, ◌&&◌, ◌++◌, OnOk, IfOk, flat_map, option_map};
ghost use Rattle.timefd_lang_dialect.specs.Reasons as reasons;
ghost use Rattle.timefd_lint_sources.specs.Allowances.Found as found;
ghost use Rattle.timefd_lint_sources.specs.Allowed as spec;

use crate::allowances::Allowance;
use crate::cut::between;
use crate::judgement::TextJudgement;
use crate::reported::{Reporting, SourceText};
use std::alloc::{AllocError, Global};
use timefd_lang_dialect::{Found, RefusedPart};
use timefd_lang_warnings::{Level, Levels, Warning};
use timefd_lint_diagnosis::{Diagnostic, code_of};
use timefd_lint_scan::SourceDescription;
use timefd_lint_scan::dialect::is;

fn covers(allowance: Allowance, at: usize) -> bool
    ensures { result ≡ found.covers allowance at }
{
    allowance.from <= at && at < allowance.to
}

fn allows_by(source: &[u8], at: usize, code: &str, allowance: Allowance) -> bool
    ensures { result ≡ found.allows_by source.now at code.now allowance }
{
    covers(allowance, at) && is(between(source, allowance.start, allowance.end), code)
}

// Whether one of these comments is about a position.
fn any_covers(allowances: &[Allowance], at: usize) -> bool
    ensures { result ≡ found.any_covers allowances.now at }
{
    let mut left = allowances;
    'comments: while let [allowance, rest @ ..] = left {
        if covers(*allowance, at) {
            return true;
        }
        left = rest;
    }
    false
}

// Whether one of these comments allows this code at a position.
fn any_allows(source: &[u8], allowances: &[Allowance], at: usize, code: &str) -> bool
    ensures { result ≡ found.any_allows source.now allowances.now at code.now }
{
    let mut left = allowances;
    'comments: while let [allowance, rest @ ..] = left {
        if allows_by(source, at, code, *allowance) {
            return true;
        }
        left = rest;
    }
    false
}

/// Whether comments count, and one is about a description.
pub fn is_covered(
    reporting: Reporting,
    source: SourceText<'_>,
    description: &SourceDescription,
) -> bool
    ensures { result ≡ spec.is_covered reporting source.entry description.now }
{
    reporting.allows && any_covers(source.allowances, description.piece.start)
}

/// Whether a comment allows this code of a description.
pub fn is_allowed(source: SourceText<'_>, description: &SourceDescription, code: &str) -> bool
    ensures { result ≡ spec.is_allowed source.entry description.now code.now }
{
    any_allows(
        source.text.as_bytes(),
        source.allowances,
        description.piece.start,
        code,
    )
}

fn level_left(
    source: SourceText<'_>,
    description: &SourceDescription,
    found: Levels,
    warning: Warning,
) -> Levels
    ensures { result ≡ spec.level_left source.entry description.now found warning }
{
    if is_allowed(source, description, warning.name()) {
        found.with(warning, Level::Allowed)
    } else {
        found
    }
}

// The levels of the warnings of a description that no comment allows.
fn levels_left(source: SourceText<'_>, description: &SourceDescription, found: Levels) -> Levels
    ensures { result ≡ spec.levels_left source.entry description.now found }
{
    let mut left = found;
    let mut warnings = Warning::all();
    'warnings: while let [warning, rest @ ..] = warnings {
        left = level_left(source, description, left, *warning);
        warnings = rest;
    }
    left
}

fn push_diagnostic(
    left: &mut Vec<Diagnostic>,
    source: SourceText<'_>,
    description: &SourceDescription,
    diagnostic: Diagnostic,
) -> Result<(), AllocError>
    ensures { OnOk result (left.new.items
        ≡ left.old.items ++ spec.unless_allowed source.entry description.now diagnostic) }
{
    if !is_allowed(source, description, code_of(&diagnostic)) {
        left.push(diagnostic)?;
    }
    Ok(())
}

// The faults of a description that no comment allows.
fn faults_left(
    alloc: Global,
    source: SourceText<'_>,
    description: &SourceDescription,
    faults: Vec<Diagnostic>,
) -> Result<Vec<Diagnostic>, AllocError>
    ensures { IfOk result (λ left. left.items
        ≡ flat_map (spec.unless_allowed source.entry description.now) faults.items) }
{
    let mut left = Vec::new(alloc);
    for diagnostic in faults {
        push_diagnostic(&mut left, source, description, diagnostic)?;
    }
    Ok(left)
}

fn push_trap(
    left: &mut Vec<Found>,
    source: SourceText<'_>,
    description: &SourceDescription,
    trap: Found,
) -> Result<(), AllocError>
    ensures { OnOk result (left.new.items
        ≡ left.old.items ++ spec.unless_trap source.entry description.now trap) }
{
    if !is_allowed(source, description, trap.trap.name()) {
        left.push(trap)?;
    }
    Ok(())
}

// The traps of a format that no comment allows.
fn traps_left(
    alloc: Global,
    source: SourceText<'_>,
    description: &SourceDescription,
    found: &[Found],
) -> Result<Vec<Found>, AllocError>
    ensures { IfOk result (λ left. left.items
        ≡ flat_map (spec.unless_trap source.entry description.now) found.now) }
{
    let mut left = Vec::new(alloc);
    for trap in found {
        push_trap(&mut left, source, description, *trap)?;
    }
    Ok(left)
}

fn warnings_left(
    source: SourceText<'_>,
    description: &SourceDescription,
    found: Option<Levels>,
) -> Option<Levels>
    ensures { result ≡ option_map (spec.levels_left source.entry description.now) found }
{
    match found {
        Some(levels) => Some(levels_left(source, description, levels)),
        None => None,
    }
}

#[tactic(auto, using(crate::proofs::JudgementLemmas::refusal_allowed))]
fn refusal_left(
    alloc: Global,
    source: SourceText<'_>,
    description: &SourceDescription,
    part: RefusedPart,
) -> TextJudgement
    ensures { spec.IsRefusalLeft (spec.is_allowed source.entry description.now (reasons.name part.reason)) part result }
{
    if is_allowed(source, description, part.reason.name()) {
        TextJudgement::Right(Vec::new(alloc))
    } else {
        TextJudgement::Refused(part)
    }
}

/// What is left of what is wrong with a description, without what comments allow. An `Err` says that memory ran out.
#[tactic(auto, using(crate::proofs::JudgementLemmas::faulty_left, crate::proofs::JudgementLemmas::traps_left))]
pub fn judgement_left(
    alloc: Global,
    source: SourceText<'_>,
    description: &SourceDescription,
    judgement: TextJudgement,
) -> Result<TextJudgement, AllocError>
    ensures { IfOk result (spec.IsLeftOf source.entry description.now judgement) }
{
    match judgement {
        TextJudgement::Accepted(language, found) => {
            let left = warnings_left(source, description, found);
            Ok(TextJudgement::Accepted(language, left))
        }
        TextJudgement::Faulty(faults) => {
            let left = faults_left(alloc, source, description, faults)?;
            Ok(TextJudgement::Faulty(left))
        }
        TextJudgement::Right(traps) => {
            let left = traps_left(alloc, source, description, &traps)?;
            Ok(TextJudgement::Right(left))
        }
        TextJudgement::Refused(part) => Ok(refusal_left(alloc, source, description, part)),
    }
}
