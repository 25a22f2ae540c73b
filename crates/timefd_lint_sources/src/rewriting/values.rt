//! All values of keys in a file, rewritten.

ghost use Rattle.std.specs.Prelude.{IfOk};
ghost use Rattle.timefd_lint_sources.specs.Rewriting.Values as spec;

use crate::cut::{after, between};
use crate::rewriting::change::Change;
use crate::rewriting::outcome::Outcome;
use crate::rewriting::source::NewSource;
use crate::rewriting::value::{ValueAnswer, answer_for};
use std::alloc::{AllocError, Global};
use timefd_lint_scan::SourceDescription;
use timefd_lint_scan::keys::{DescriptionKey, FileFormat, descriptions_by, string_end};

/// Fixes or converts the values of keys in a file of this format, each in its language. The strings of those that change
/// are written again, and every other byte stays. An `Err` says that memory ran out.
pub fn rewrite_values(
    alloc: Global,
    change: Change,
    format: FileFormat,
    source: &str,
    keys: &[DescriptionKey<'_>],
) -> Result<NewSource, AllocError>
    ensures { IfOk result (spec.AreValuesRewritten change format source.now keys.now) }
{
    let values = descriptions_by(alloc, format, source, keys)?;
    rewrite_each(alloc, change, format, source, &values)
}

// Rewrites these values of a file, one after another.
#[tactic(auto, using(crate::proofs::RewritingLemmas::ValueLemmas::at_first, crate::proofs::RewritingLemmas::ValueLemmas::one_more, crate::proofs::RewritingLemmas::ValueLemmas::at_last))]
fn rewrite_each(
    alloc: Global,
    change: Change,
    format: FileFormat,
    source: &str,
    values: &[SourceDescription],
) -> Result<NewSource, AllocError>
    ensures { IfOk result (λ new. spec.AreRewritten change format source.now 0 values.now
        new.outcomes.items new.bytes.items) }
{
    let mut outcomes = Vec::new(alloc);
    let mut bytes = Vec::new(alloc);
    let mut from = 0;
    for value in values {
        from = push_rewritten(
            alloc,
            change,
            format,
            source,
            value,
            from,
            &mut outcomes,
            &mut bytes,
        )?;
    }
    bytes.extend_from_slice(after(source.as_bytes(), from))?;
    Ok(NewSource { outcomes, bytes })
}

// Adds the outcome of one more value and, if it changes, the new file up to its end. Returns the position in the old file
// up to which everything is written.
#[tactic(auto, using(crate::proofs::RewritingLemmas::ValueLemmas::stays, crate::proofs::RewritingLemmas::ValueLemmas::is_put))]
fn push_rewritten(
    alloc: Global,
    change: Change,
    format: FileFormat,
    source: &str,
    value: &SourceDescription,
    from: usize,
    outcomes: &mut Vec<Outcome>,
    bytes: &mut Vec<u8>,
) -> Result<usize, AllocError>
    ensures { IfOk result (spec.Adds change format source.now value.now from outcomes.old.items bytes.old.items
        outcomes.new.items bytes.new.items) }
{
    match answer_for(alloc, change, format, source, value)? {
        ValueAnswer::Stays(outcome) => {
            outcomes.push(outcome)?;
            Ok(from)
        }
        ValueAnswer::Becomes(string) => {
            outcomes.push(Outcome::Rewritten)?;
            bytes.extend_from_slice(between(source.as_bytes(), from, value.piece.start))?;
            bytes.extend_from_slice(&string)?;
            Ok(string_end(format, source, value.piece.start, value.piece.end))
        }
    }
}
