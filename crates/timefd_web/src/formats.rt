//! What a description of version 3 is as a format of another language.

ghost use Rattle.std.specs.Prelude.{◌≡◌, IfOk};
ghost use Rattle.timefd_web.specs.Conversions as spec;

use crate::converting::push_limits;
use std::alloc::{AllocError, Global};
use timefd_lang_dialect::{Converted, Dialect, NoFormatError, from_version_three};
use timefd_lint_drawing::json::{push_number, push_text};

/// The format by which a dialect writes what a description of version 3 writes, as a JSON object, or
/// why there is none. An `Err` says that memory ran out, and nothing about the description.
#[tactic(auto, using(crate::proofs::ConversionLemmas::format_said, crate::proofs::ConversionLemmas::lacking_said, crate::proofs::ConversionLemmas::merged_said))]
pub fn format_for(alloc: Global, dialect: Dialect, description: &str) -> Result<Vec<u8>, AllocError>
    ensures formats { IfOk result (λ object. spec.Formats dialect description.now object.items) }
{
    match from_version_three(alloc, dialect, description) {
        Ok(converted) => format_object(alloc, &converted),
        Err(NoFormatError::Lacking(index)) => lacking_object(alloc, index),
        Err(NoFormatError::Merged) => merged_object(alloc),
        Err(NoFormatError::Memory(error)) => Err(error),
    }
}

fn format_object(alloc: Global, converted: &Converted) -> Result<Vec<u8>, AllocError>
    ensures { IfOk result (λ object. object.items ≡ spec.format_object converted.now) }
{
    let mut out = Vec::new(alloc);
    push_text(&mut out, "{\"converted\":true,\"format\":", &converted.text)?;
    push_limits(alloc, &mut out, converted.limits)?;
    out.extend_from_slice(b"}")?;
    Ok(out)
}

fn lacking_object(alloc: Global, index: usize) -> Result<Vec<u8>, AllocError>
    ensures { IfOk result (λ object. object.items ≡ spec.lacking_object index) }
{
    let mut out = Vec::new(alloc);
    push_text(
        &mut out,
        "{\"converted\":false,\"message\":",
        "no directive writes this component",
    )?;
    push_number(alloc, &mut out, ",\"start\":", index as u64)?;
    out.extend_from_slice(b"}")?;
    Ok(out)
}

fn merged_object(alloc: Global) -> Result<Vec<u8>, AllocError>
    ensures { IfOk result (λ object. object.items ≡ spec.merged_object) }
{
    let mut out = Vec::new(alloc);
    push_text(
        &mut out,
        "{\"converted\":false,\"message\":",
        "parts side by side would mean something else",
    )?;
    out.extend_from_slice(b"}")?;
    Ok(out)
}
