//! Which dialects read a text as a format.

ghost use Rattle.std.specs.Prelude.{◌≡◌, ◌==◌, ◌≤◌, ◌∷◌, ◌++◌, [], IfOk, OnOk, drop, false, length};
ghost use Rattle.std.specs.List.{filter};
ghost use Rattle.timefd_lang_dialect.specs.Readers as spec;

use crate::dialect::Dialect;
use crate::error::DialectError;
use crate::reading::to_version_three;
use std::alloc::{AllocError, Global};

/// The dialects that read a text as a format with at least one component. `yyyy-MM-dd` is read by
/// Java, and `YYYY-MM-DD` by moment.
///
/// An `Err` says that memory ran out.
pub fn readers(alloc: Global, text: &str) -> Result<Vec<Dialect>, AllocError>
    // All dialects that refuse no part of the text, in the order of `Dialect::all`.
    ensures { IfOk result (λ found. found.items ≡ spec.readers text.now) }
{
    let mut found = Vec::new(alloc);
    push_readers(alloc, &mut found, Dialect::all(), text)?;
    Ok(found)
}

/// Appends those of the dialects that read the text.
#[tactic(auto, using(crate::proofs::ReaderLemmas::one_more))]
fn push_readers(
    alloc: Global,
    found: &mut Vec<Dialect>,
    dialects: &[Dialect],
    text: &str,
) -> Result<(), AllocError>
    ensures { OnOk result (found.new.items
        ≡ found.old.items ++ filter (spec.reads text.now) dialects.now) }
{
    for dialect in dialects {
        push_if(alloc, found, *dialect, text)?;
    }
    Ok(())
}

/// Appends the dialect if it reads the text.
#[tactic(auto, using(crate::proofs::ReaderLemmas::one_kept, crate::proofs::ReaderLemmas::none_kept))]
fn push_if(
    alloc: Global,
    found: &mut Vec<Dialect>,
    dialect: Dialect,
    text: &str,
) -> Result<(), AllocError>
    ensures { OnOk result (found.new.items
        ≡ found.old.items ++ filter (spec.reads text.now) (dialect ∷ [])) }
{
    if reads(alloc, dialect, text)? {
        found.push(dialect)?;
    }
    Ok(())
}

/// Whether the dialect reads the text as a format with at least one component.
#[tactic(auto, using(crate::proofs::ReaderLemmas::converted_reads, crate::proofs::ReaderLemmas::refused_reads))]
fn reads(alloc: Global, dialect: Dialect, text: &str) -> Result<bool, AllocError>
    ensures { IfOk result (λ is. is ≡ spec.reads text.now dialect) }
{
    match to_version_three(alloc, dialect, text) {
        Ok(converted) => Ok(has_component(converted.text.as_bytes())),
        Err(DialectError::Refused(_)) => Ok(false),
        Err(DialectError::Memory(error)) => Err(error),
    }
}

/// Whether a text of version 3 has a component: a `[` that no backslash escapes.
fn has_component(text: &[u8]) -> bool
    ensures { result ≡ spec.has_component text.now }
{
    let mut rest = text;
    'bytes: while let [byte, after @ ..] = rest {
        if *byte == b'[' {
            return true;
        }
        rest = after_byte(*byte, after);
    }
    false
}

/// What follows a byte that is no `[`, and what it escapes.
#[tactic(auto, using(crate::proofs::ReaderLemmas::component_after, crate::proofs::ReaderLemmas::component_other, crate::proofs::ReaderLemmas::shorter_after))]
fn after_byte(byte: u8, after: &[u8]) -> &[u8]
    requires { (byte == 91) ≡ false }
    ensures component { spec.has_component (byte ∷ after.now) ≡ spec.has_component result.now }
    ensures shorter { length result.now ≤ length after.now }
{
    if byte == b'\\' {
        return after_first(after);
    }
    after
}

/// What follows the first byte.
fn after_first(bytes: &[u8]) -> &[u8]
    ensures { result.now ≡ drop 1 bytes.now }
{
    match bytes {
        [_, rest @ ..] => rest,
        [] => bytes,
    }
}
