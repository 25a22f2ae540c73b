//! What a format of another language is in version 3.

ghost use Rattle.std.specs.Prelude.{◌≡◌, ◌++◌, IfOk, OnOk};
ghost use Rattle.timefd_web.specs.Conversions as spec;

use crate::records::{Record, push_list, push_truth};
use std::alloc::{AllocError, Global};
use timefd_lang_dialect::{
    Converted, Dialect, DialectError, Found, Limits, Reason, RefusedPart, to_version_three, traps,
};
use timefd_lint_drawing::json::{push_number, push_text};

/// The text of version 3 that writes what a dialect writes by a format, as a JSON object, or why
/// there is none; and the traps of the format. An `Err` says that memory ran out, and nothing about
/// the format.
#[tactic(auto, using(crate::proofs::ConversionLemmas::converted_said, crate::proofs::ConversionLemmas::refused_said))]
pub fn conversion_of(alloc: Global, dialect: Dialect, format: &str) -> Result<Vec<u8>, AllocError>
    ensures converts { IfOk result (λ object. spec.Converts dialect format.now object.items) }
{
    let found = traps(alloc, dialect, format)?;
    match to_version_three(alloc, dialect, format) {
        Ok(converted) => converted_object(alloc, &converted, &found),
        Err(DialectError::Refused(refusal)) => refused_object(alloc, refusal, &found),
        Err(DialectError::Memory(error)) => Err(error),
    }
}

fn converted_object(
    alloc: Global,
    converted: &Converted,
    found: &[Found],
) -> Result<Vec<u8>, AllocError>
    ensures { IfOk result (λ object. object.items
        ≡ spec.converted_object converted.now found.now) }
{
    let mut out = Vec::new(alloc);
    push_text(
        &mut out,
        "{\"converted\":true,\"version_3\":",
        &converted.text,
    )?;
    push_limits(alloc, &mut out, converted.limits)?;
    push_list(alloc, &mut out, ",\"traps\":", found)?;
    out.extend_from_slice(b"}")?;
    Ok(out)
}

fn refused_object(
    alloc: Global,
    refusal: RefusedPart,
    found: &[Found],
) -> Result<Vec<u8>, AllocError>
    ensures { IfOk result (λ object. object.items ≡ spec.refused_object refusal found.now) }
{
    let mut out = Vec::new(alloc);
    push_reason(&mut out, refusal.reason)?;
    push_number(alloc, &mut out, ",\"start\":", refusal.index as u64)?;
    push_list(alloc, &mut out, ",\"traps\":", found)?;
    out.extend_from_slice(b"}")?;
    Ok(out)
}

// Appends the name of a reason, its sentence, and what to do about it.
fn push_reason(out: &mut Vec<u8>, reason: Reason) -> Result<(), AllocError>
    ensures { OnOk result (out.new.items ≡ out.old.items ++ spec.reason_fields reason) }
{
    push_text(out, "{\"converted\":false,\"reason\":", reason.name())?;
    push_text(out, ",\"message\":", reason.sentence())?;
    push_text(out, ",\"help\":", reason.cure())
}

/// Appends for which moments a text of version 3 writes the same as a format.
pub fn push_limits(alloc: Global, out: &mut Vec<u8>, limits: Limits) -> Result<(), AllocError>
    ensures { OnOk result (out.new.items ≡ out.old.items ++ spec.limit_fields limits) }
{
    push_number(alloc, out, ",\"first_year\":", u64::from(limits.first_year))?;
    push_truth(out, ",\"whole_minutes\":", limits.whole_minutes)
}

impl Record for Found {
    ghost object_text = { spec.trap_object };

    fn object(&self, alloc: Global) -> Result<Vec<u8>, AllocError> {
        trap_object(alloc, *self)
    }
}

fn trap_object(alloc: Global, found: Found) -> Result<Vec<u8>, AllocError>
    ensures { IfOk result (λ object. object.items ≡ spec.trap_object found) }
{
    let trap = found.trap;
    let mut out = Vec::new(alloc);
    push_text(&mut out, "{\"trap\":", trap.name())?;
    push_text(&mut out, ",\"message\":", trap.sentence())?;
    push_text(&mut out, ",\"help\":", trap.cure())?;
    push_number(alloc, &mut out, ",\"start\":", found.start as u64)?;
    push_number(alloc, &mut out, ",\"end\":", found.end as u64)?;
    out.extend_from_slice(b"}")?;
    Ok(out)
}
