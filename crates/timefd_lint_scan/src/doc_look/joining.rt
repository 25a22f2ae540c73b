//! Descriptions of a source and of its examples, in order.

ghost use Rattle.std.specs.Prelude.{◌≡◌, ◌++◌, IfOk, OnOk, map};
ghost use Rattle.timefd_lint_scan.specs.declared.doc_look.joining.LookPart.TheVariants.{OfExample};
ghost use Rattle.timefd_lint_scan.specs.DocLooks.{AreJoined, IsEither, after_front, begins_before, by_position, front};

use crate::candidate::CandidateLiteral;
use crate::description::{SourceDescription, described_any, push_any};
use std::alloc::{AllocError, Global};

/// A literal of an example, or a description of the source itself.
#[derive(Drop)]
pub enum LookPart {
    OfExample(CandidateLiteral),
    OfSource(SourceDescription),
}

// Adds the literals that begin before a position. Returns the others.
fn push_before<'a>(
    parts: &mut Vec<LookPart>,
    candidates: &'a [CandidateLiteral],
    position: usize,
) -> Result<&'a [CandidateLiteral], AllocError>
    ensures pushed { OnOk result (parts.new.items ≡ parts.old.items ++ map OfExample (front (begins_before position) candidates.now)) }
    ensures left { IfOk result (λ left. left.now ≡ after_front (begins_before position) candidates.now) }
{
    let mut left = candidates;
    'candidates: while let [candidate, after @ ..] = left {
        if !(candidate.piece.start < position) {
            return Ok(left);
        }
        parts.push(LookPart::OfExample(*candidate))?;
        left = after;
    }
    Ok(left)
}

// Adds these literals.
fn push_all(parts: &mut Vec<LookPart>, candidates: &[CandidateLiteral]) -> Result<(), AllocError>
    ensures { OnOk result (parts.new.items ≡ parts.old.items ++ map OfExample candidates.now) }
{
    let mut left = candidates;
    'candidates: while let [candidate, after @ ..] = left {
        parts.push(LookPart::OfExample(*candidate))?;
        left = after;
    }
    Ok(())
}

/// These literals and descriptions, by where they begin. An `Err` says that memory ran out.
#[tactic(auto, using(crate::proofs::JoinLemmas::none_placed, crate::proofs::JoinLemmas::one_placed))]
pub fn parts_of(
    alloc: Global,
    candidates: &[CandidateLiteral],
    own: Vec<SourceDescription>,
) -> Result<Vec<LookPart>, AllocError>
    ensures { IfOk result (λ parts. parts.items ≡ by_position candidates.now own.items) }
{
    let mut parts = Vec::new(alloc);
    let mut left = candidates;
    for description in own {
        left = push_before(&mut parts, left, description.piece.start)?;
        parts.push(LookPart::OfSource(description))?;
    }
    push_all(&mut parts, left)?;
    Ok(parts)
}

fn described_part(
    alloc: Global,
    source: &str,
    part: LookPart,
) -> Result<Option<SourceDescription>, AllocError>
    ensures { IfOk result (IsEither source.now part) }
{
    match part {
        LookPart::OfExample(candidate) => described_any(alloc, source, Some(candidate)),
        LookPart::OfSource(description) => Ok(Some(description)),
    }
}

/// The descriptions among these, without those that begin inside of another one. An `Err` says that memory ran out.
#[tactic(auto, using(crate::proofs::JoinLemmas::at_first, crate::proofs::JoinLemmas::one_described, crate::proofs::JoinLemmas::at_last))]
pub fn described_parts(
    alloc: Global,
    source: &str,
    parts: Vec<LookPart>,
) -> Result<Vec<SourceDescription>, AllocError>
    ensures { IfOk result (λ found. AreJoined source.now 0 parts.items found.items) }
{
    let mut descriptions = Vec::new(alloc);
    let mut end = 0;
    for part in parts {
        let found = described_part(alloc, source, part)?;
        end = push_any(&mut descriptions, found, end)?;
    }
    Ok(descriptions)
}
