//! Literals: why one has no text, and how one is printed.

ghost use Rattle.std.specs.Prelude.{◌≡◌, ◌++◌, OnOk, string_bytes};
ghost use Rattle.timefd_lang_convert.specs.Printing.Printed as spec;
ghost use Rattle.timefd_lang_convert.specs.Printing.Reasons as reasons;

use crate::printing::error::Unspelled;
use std::alloc::AllocError;
use timefd_language::DescriptionVersion;
use timefd_language::text::{cut_run, escaped};

/// Why no text has the literal, if there is a reason. `after_run` says whether a run of bytes
/// precedes it.
pub fn literal_reason(after_run: bool, literal: &str) -> Option<Unspelled>
    ensures { result ≡ reasons.literal_reason after_run literal.now }
{
    if literal.is_empty() {
        return Some(Unspelled::EmptyLiteral);
    }
    if is_escape(literal) {
        return None;
    }
    if !is_plain(literal) {
        return Some(Unspelled::MixedLiteral);
    }
    if after_run {
        Some(Unspelled::NeighbouringLiterals)
    } else {
        None
    }
}

/// Whether the literal is one byte that is escaped.
pub fn is_escape(literal: &str) -> bool
    ensures { result ≡ reasons.is_escape literal.now }
{
    match literal.as_bytes() {
        [b'['] => true,
        [b']'] => true,
        [b'\\'] => true,
        _ => false,
    }
}

/// Whether none of the literal's bytes is escaped.
#[tactic(auto, using(crate::proofs::PrintingLemmas::LiteralLemmas::cut_plain))]
fn is_plain(literal: &str) -> bool
    ensures { result ≡ reasons.is_plain literal.now }
{
    let (_, rest) = cut_run(DescriptionVersion::Three, literal);
    rest.is_empty()
}

/// Appends a literal, with a backslash before each `[`, `]` and backslash.
pub fn push_literal(text: &mut String, literal: &str) -> Result<(), AllocError>
    ensures { OnOk result (string_bytes text.new ≡ string_bytes text.old ++ spec.escaped
        literal.now) }
{
    let (plain, mut rest) = cut_run(DescriptionVersion::Three, literal);
    text.push_str(plain)?;
    while let Some((special, after)) = escaped(rest) {
        text.push_str("\\")?;
        text.push_str(special)?;
        let (plain, after) = cut_run(DescriptionVersion::Three, after);
        text.push_str(plain)?;
        rest = after;
    }
    Ok(())
}
