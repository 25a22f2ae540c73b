//! The text of a class of bytes.

ghost use Rattle.std.specs.Prelude.{◌≡◌, ◌≤◌, ◌<◌, ◌++◌, true, false, length, List, MatchOption, IfOk, ⊤};
ghost use Rattle.timefd_lint_files.specs.Classes as spec;
ghost use Rattle.timefd_lint_files.specs.Classes.{AreRanges, BeginsClass, IsClass, read_byte, read_range, read_rest};
ghost use Rattle.timefd_lint_files.specs.declared.class.ByteRange.{ByteRange};

use crate::class::{ByteClass, ByteRange};
use crate::token::{PatternToken, TokenStep};
use std::alloc::{AllocError, Global};

/// A byte, and what follows it.
#[derive(Clone, Copy)]
pub struct ByteStep<'a> {
    pub byte: u8,
    pub rest: &'a [u8],
}

/// A range, and what follows it.
#[derive(Clone, Copy)]
pub struct RangeStep<'a> {
    pub range: ByteRange,
    pub rest: &'a [u8],
}

/// The first byte as it is.
fn bare(text: &[u8]) -> Option<ByteStep<'_>>
    ensures read { read_byte result ≡ spec.bare text.now }
    ensures within { MatchOption result ⊤ (λ step. length step.rest.now < length text.now) }
{
    match text {
        [] => None,
        [byte, rest @ ..] => Some(ByteStep { byte: *byte, rest }),
    }
}

/// The first byte, or the one after it if it is a backslash.
fn first_byte(text: &[u8]) -> Option<ByteStep<'_>>
    ensures read { read_byte result ≡ spec.first_byte text.now }
    ensures within { MatchOption result ⊤ (λ step. length step.rest.now < length text.now) }
{
    match text {
        [b'\\', quoted @ ..] => bare(quoted),
        _ => bare(text),
    }
}

/// Whether the next byte exists and doesn't close the class.
fn goes_on(text: &[u8]) -> bool
    ensures { result ≡ spec.goes_on text.now }
{
    match text {
        [] | [b']', ..] => false,
        _ => true,
    }
}

/// The range from a byte up to the first byte of a text.
fn up_to(first: u8, text: &[u8]) -> Option<RangeStep<'_>>
    ensures read { read_range result ≡ spec.up_to first (spec.first_byte text.now) }
    ensures within { MatchOption result ⊤ (λ step. length step.rest.now ≤ length text.now) }
{
    let last = first_byte(text)?;
    Some(RangeStep {
        range: ByteRange {
            first,
            last: last.byte,
        },
        rest: last.rest,
    })
}

/// The range that begins with this byte.
fn range_from(first: u8, after: &[u8]) -> Option<RangeStep<'_>>
    ensures read { read_range result ≡ spec.range_from first after.now }
    ensures within { MatchOption result ⊤ (λ step. length step.rest.now ≤ length after.now) }
{
    match after {
        [b'-', text @ ..] if goes_on(text) => up_to(first, text),
        _ => Some(RangeStep {
            range: ByteRange { first, last: first },
            rest: after,
        }),
    }
}

/// Whether a colon comes right before the next closing bracket.
fn ends_in_colon(text: &[u8]) -> bool
    ensures { result ≡ spec.ends_in_colon false text.now }
{
    let mut is_colon = false;
    for byte in text {
        if *byte == b']' {
            return is_colon;
        }
        is_colon = *byte == b':';
    }
    false
}

/// Whether the name of a class between colons follows a bracket.
fn is_name(text: &[u8]) -> bool
    ensures { result ≡ spec.is_name text.now }
{
    match text {
        [b':', after @ ..] => ends_in_colon(after),
        _ => false,
    }
}

/// Whether no range begins with this byte.
fn begins_no_range(is_first: bool, byte: u8, after: &[u8]) -> bool
    ensures { result ≡ spec.begins_no_range is_first byte after.now }
{
    match byte {
        b']' => !is_first,
        b'[' => is_name(after),
        _ => false,
    }
}

/// The range that a text begins with. `is_first` says that it is the first of its class.
fn first_range(is_first: bool, text: &[u8]) -> Option<RangeStep<'_>>
    ensures read { read_range result ≡ spec.first_range is_first text.now }
    ensures within { MatchOption result ⊤ (λ step. length step.rest.now < length text.now) }
{
    match text {
        [byte, after @ ..] if !begins_no_range(is_first, *byte, after) => {
            let first = first_byte(text)?;
            range_from(first.byte, first.rest)
        }
        _ => None,
    }
}

/// What follows the bracket that closes a class. `None` if the next byte isn't that bracket.
fn after_closing(text: &[u8]) -> Option<&[u8]>
    ensures read { read_rest result ≡ spec.after_closing text.now }
    ensures within { MatchOption result ⊤ (λ rest. length rest.now ≤ length text.now) }
{
    match text {
        [b']', rest @ ..] => Some(rest),
        _ => None,
    }
}

/// Adds the ranges of a class, and returns what follows it. `None` if it isn't closed, or has a named class
/// in it.
#[tactic(auto, using(crate::proofs::ClassLemmas::at_first, crate::proofs::ClassLemmas::one_more, crate::proofs::ClassLemmas::at_last))]
fn push_ranges<'a>(
    ranges: &mut Vec<ByteRange>,
    text: &'a [u8],
) -> Result<Option<&'a [u8]>, AllocError>
    ensures ranges { IfOk result (λ after. (more : List ByteRange)
        × (ranges.new.items ≡ ranges.old.items ++ more) × AreRanges true text.now more (read_rest after)) }
    ensures within { IfOk result (λ after. MatchOption after ⊤ (λ rest. length rest.now ≤ length text.now)) }
{
    let mut is_first = true;
    let mut rest = text;
    'class: while let Some(step) = first_range(is_first, rest) {
        ranges.push(step.range)?;
        is_first = false;
        rest = step.rest;
    }
    Ok(after_closing(rest))
}

/// The class with the ranges at the front of a text.
fn class(alloc: Global, is_negated: bool, text: &[u8]) -> Result<TokenStep<'_>, AllocError>
    ensures begin { IfOk result (λ step. IsClass is_negated text.now step.token step.rest.now) }
    ensures within { IfOk result (λ step. length step.rest.now ≤ length text.now) }
{
    let mut ranges = Vec::new(alloc);
    match push_ranges(&mut ranges, text)? {
        Some(rest) => Ok(TokenStep {
            token: PatternToken::OneOf(ByteClass { is_negated, ranges }),
            rest,
        }),
        None => Ok(TokenStep {
            token: PatternToken::Nothing,
            rest: text,
        }),
    }
}

/// The class after an opening bracket. An `Err` says that memory ran out.
pub fn begin_class(alloc: Global, text: &[u8]) -> Result<TokenStep<'_>, AllocError>
    ensures begin { IfOk result (λ step. BeginsClass text.now step.token step.rest.now) }
    ensures within { IfOk result (λ step. length step.rest.now ≤ length text.now) }
{
    match text {
        [b'!' | b'^', after @ ..] => class(alloc, true, after),
        _ => class(alloc, false, text),
    }
}
