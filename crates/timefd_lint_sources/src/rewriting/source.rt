//! All descriptions of a source, rewritten.

ghost use Rattle.std.specs.Prelude.{◌≡◌, ◌≤◌, ◌-◌, ◌++◌, IfOk, IsTrue, OnOk, drop, length, take};
ghost use Rattle.timefd_lint_scan.specs.Found.{AllStandIn, AreInOrder, StandsIn, begin_of};
ghost use Rattle.timefd_lint_sources.specs.Rewriting.Written.{AddsRewritten, AreRewritten, IsSourceRewritten, Puts, Renumbers, Replaces, argument, is_sayable, items_of};

use crate::rewriting::answer::{Answer, NewParts, answer_to};
use crate::rewriting::change::Change;
use crate::rewriting::outcome::Outcome;
use std::alloc::{AllocError, Global};
use timefd_lint_scan::{
    OwnCall, SourceDescription, VersionPosition, body_end, descriptions_of, inside,
};

/// A source whose descriptions are rewritten.
#[derive(Drop)]
pub struct NewSource {
    /// The outcome of each description, in order.
    pub outcomes: Vec<Outcome>,
    /// The whole source with the new descriptions.
    pub bytes: Vec<u8>,
}

/// Fixes or converts the descriptions in a Rust source with these calls of its project, each in its language. Of those that change, it
/// rewrites what is between the quotes, and the numbers of their versions. An `Err` says that memory ran
/// out.
pub fn rewrite_source(
    alloc: Global,
    change: Change,
    source: &str,
    own: &[OwnCall],
) -> Result<NewSource, AllocError>
    ensures { IfOk result (IsSourceRewritten change source.now own.now) }
{
    let descriptions = descriptions_of(alloc, source, own)?;
    rewrite_all(alloc, change, source, &descriptions)
}

/// Rewrites these descriptions of a source, which are in order and don't overlap. An `Err` says that
/// memory ran out.
#[tactic(auto, using(crate::proofs::RewritingLemmas::SourceLemmas::at_first, crate::proofs::RewritingLemmas::SourceLemmas::at_last, crate::proofs::RewritingLemmas::SourceLemmas::next_after, crate::proofs::RewritingLemmas::SourceLemmas::one_more, crate::proofs::RewritingLemmas::SourceLemmas::stands_at))]
pub fn rewrite_all(
    alloc: Global,
    change: Change,
    source: &str,
    descriptions: &[SourceDescription],
) -> Result<NewSource, AllocError>
    requires stand { AllStandIn source.now descriptions.now }
    requires in_order { AreInOrder 0 descriptions.now }
    ensures { IfOk result (λ new. AreRewritten change source.now 0 descriptions.now
        new.outcomes.items new.bytes.items) }
{
    let mut outcomes = Vec::new(alloc);
    let mut bytes = Vec::new(alloc);
    let mut from = 0;
    for description in descriptions {
        from = push_rewritten(
            alloc,
            change,
            source,
            description,
            from,
            &mut outcomes,
            &mut bytes,
        )?;
    }
    bytes.extend_from_slice(&source.as_bytes()[from..])?;
    Ok(NewSource { outcomes, bytes })
}

// Adds the outcome of one more description and, if it changes, the new source up to it. Returns the
// position in the old source up to which everything is written.
#[tactic(auto, using(crate::proofs::RewritingLemmas::SourceLemmas::stays, crate::proofs::RewritingLemmas::SourceLemmas::becomes))]
fn push_rewritten(
    alloc: Global,
    change: Change,
    source: &str,
    description: &SourceDescription,
    from: usize,
    outcomes: &mut Vec<Outcome>,
    bytes: &mut Vec<u8>,
) -> Result<usize, AllocError>
    requires stands { StandsIn source.now description.now }
    requires after { from ≤ begin_of description.now }
    ensures { IfOk result (AddsRewritten change source.now description.now from outcomes.old.items
        bytes.old.items outcomes.new.items bytes.new.items) }
{
    match answer_to(alloc, change, source, description)? {
        Answer::Stays(outcome) => {
            outcomes.push(outcome)?;
            Ok(from)
        }
        Answer::Becomes(rewritten) => {
            outcomes.push(Outcome::Rewritten)?;
            put(source, description, from, &rewritten, bytes)
        }
    }
}

// Adds the source from a position on, with a description's new version and its literal's new body.
// Returns the position in the old source up to which everything is written.
#[tactic(auto, using(crate::proofs::RewritingLemmas::SourceLemmas::renumbered_alone, crate::proofs::RewritingLemmas::SourceLemmas::both_put))]
fn put(
    source: &str,
    description: &SourceDescription,
    from: usize,
    rewritten: &NewParts,
    bytes: &mut Vec<u8>,
) -> Result<usize, AllocError>
    requires stands { StandsIn source.now description.now }
    requires after { from ≤ begin_of description.now }
    requires sayable { IsTrue (is_sayable description.now.version rewritten.now.digit) }
    ensures { IfOk result (Puts source.now description.now from rewritten.now.digit (items_of rewritten.now.body)
        bytes.old.items bytes.new.items) }
{
    let from = renumber(source, description, from, rewritten.digit, bytes)?;
    match &rewritten.body {
        Some(body) => replace(source, description, from, body, bytes),
        None => Ok(from),
    }
}

// Adds the source from a position on up to where a description's version is said, with the new digit.
// Returns the position after that in the old source.
#[tactic(auto, using(crate::proofs::RewritingLemmas::SourceLemmas::same_version, crate::proofs::RewritingLemmas::SourceLemmas::digit_said, crate::proofs::RewritingLemmas::SourceLemmas::argument_said))]
fn renumber(
    source: &str,
    description: &SourceDescription,
    from: usize,
    digit: Option<u8>,
    bytes: &mut Vec<u8>,
) -> Result<usize, AllocError>
    requires stands { StandsIn source.now description.now }
    requires after { from ≤ begin_of description.now }
    requires sayable { IsTrue (is_sayable description.now.version digit) }
    ensures renumbers { IfOk result (Renumbers source.now description.now from digit
        bytes.old.items bytes.new.items) }
    ensures within { IfOk result (λ next. next ≤ description.now.piece.start) }
{
    let Some(digit) = digit else {
        return Ok(from);
    };
    match description.version {
        VersionPosition::Digit(at) => {
            copy(source, from, at, bytes)?;
            bytes.push(digit)?;
            Ok(at + 1)
        }
        VersionPosition::Unsaid => {
            copy(source, from, description.piece.start, bytes)?;
            push_argument(digit, bytes)?;
            Ok(description.piece.start)
        }
        VersionPosition::Call | VersionPosition::Elsewhere => unreachable!(),
    }
}

// Adds what is between two positions in a source.
fn copy(source: &str, from: usize, to: usize, bytes: &mut Vec<u8>) -> Result<(), AllocError>
    requires order { from ≤ to }
    requires within { to ≤ length source.now }
    ensures { OnOk result (bytes.new.items ≡ bytes.old.items ++ take (to - from) (drop from source.now)) }
{
    bytes.extend_from_slice(&source.as_bytes()[from..to])
}

// Adds the argument of a macro that says this version, for example `version = 3, `.
fn push_argument(digit: u8, bytes: &mut Vec<u8>) -> Result<(), AllocError>
    ensures { OnOk result (bytes.new.items ≡ bytes.old.items ++ argument digit) }
{
    bytes.extend_from_slice(b"version = ")?;
    bytes.push(digit)?;
    bytes.extend_from_slice(b", ")
}

// Adds the source from a position on up to the body of a literal, and then the new body. Returns the
// position of the closing quote in the old source.
#[tactic(auto, using(crate::proofs::RewritingLemmas::SourceLemmas::replaced))]
fn replace(
    source: &str,
    description: &SourceDescription,
    from: usize,
    body: &[u8],
    bytes: &mut Vec<u8>,
) -> Result<usize, AllocError>
    requires stands { StandsIn source.now description.now }
    requires after { from ≤ description.now.piece.start }
    ensures { IfOk result (Replaces source.now description.now from body.now bytes.old.items bytes.new.items) }
{
    match inside(source, description.piece, description.kind) {
        Some(old) => {
            let end = body_end(description.piece, description.kind);
            bytes.extend_from_slice(&source.as_bytes()[from..end - old.len()])?;
            bytes.extend_from_slice(body)?;
            Ok(end)
        }
        None => unreachable!(),
    }
}
