//! What is seen in a source and in the examples of its doc comments.

ghost use Rattle.std.specs.Prelude.{IfOk};
ghost use Rattle.timefd_lint_scan.specs.DocLooks.{AreDescriptionsOf, IsLook, IsTogether};
ghost use Rattle.timefd_lint_scan.specs.Found.{AllStandIn, AreInOrder};

mod example;
mod giving;
mod joining;
mod merging;
mod moving;

use crate::description::SourceDescription;
use crate::doc_look::example::{SeenExample, examples_in};
use crate::doc_look::giving::{calls_of, comments_of, longs_of, shorts_of};
use crate::doc_look::joining::{described_parts, parts_of};
use crate::doc_look::merging::merged;
use crate::look::{Look, blank, seen_alone};
use crate::names::{has_fence, may_describe};
use crate::own_call::OwnCall;
use std::alloc::{AllocError, Global};

/// What is seen in a source by itself and in its examples, as one. An `Err` says that memory ran out.
#[tactic(auto, using(crate::proofs::DocLookLemmas::are_together))]
fn together(
    alloc: Global,
    source: &str,
    alone: Look,
    examples: &[SeenExample],
) -> Result<Look, AllocError>
    ensures { IfOk result (IsTogether source.now alone examples.now) }
{
    let Look {
        descriptions,
        calls,
        comments,
    } = alone;
    let shorts = shorts_of(alloc, examples)?;
    let parts = parts_of(alloc, &shorts, descriptions)?;
    let unread = merged(
        alloc,
        calls_of(alloc, examples)?,
        &longs_of(alloc, examples)?,
    )?;
    Ok(Look {
        descriptions: described_parts(alloc, source, parts)?,
        calls: merged(alloc, calls, &unread)?,
        comments: merged(alloc, comments, &comments_of(alloc, examples)?)?,
    })
}

/// Looks for descriptions in a source and in the examples of its doc comments, with these calls of its project. An `Err`
/// says that memory ran out, or that the source has 4 GiB or more.
#[tactic(auto, using(crate::proofs::DocLookLemmas::without_examples))]
pub fn looked_at(alloc: Global, source: &str, own: &[OwnCall]) -> Result<Look, AllocError>
    ensures { IfOk result (IsLook source.now own.now) }
{
    if !may_describe(source.as_bytes(), own) {
        return Ok(blank(alloc));
    }
    let alone = seen_alone(alloc, source, own)?;
    if !has_fence(source.as_bytes()) {
        return Ok(alone);
    }
    let examples = examples_in(alloc, source, own)?;
    together(alloc, source, alone, &examples)
}

/// The descriptions in a source, in order: arguments of known calls and of these calls of its project, what such a call
/// gets by a name of the same file or example, and literals for which a comment names a language. An `Err` says that
/// memory ran out, or that the source has 4 GiB or more.
pub fn descriptions_of(
    alloc: Global,
    source: &str,
    own: &[OwnCall],
) -> Result<Vec<SourceDescription>, AllocError>
    ensures all { IfOk result (λ found. AreDescriptionsOf source.now own.now found.items) }
    ensures stand { IfOk result (λ found. AllStandIn source.now found.items) }
    ensures in_order { IfOk result (λ found. AreInOrder 0 found.items) }
{
    let seen = looked_at(alloc, source, own)?;
    Ok(seen.descriptions)
}
