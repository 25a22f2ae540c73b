//! What a text shows by a description.

ghost use Rattle.std.specs.Prelude.{◌≡◌, IfOk, string_bytes};
ghost use Rattle.timefd_web.specs.Readings as spec;
ghost use Rattle.timefd_web.specs.Readings.{Reads, Shows};

use std::alloc::{AllocError, Global};
use timefd_date_format::component_name;
use timefd_date_moment::Moment;
use timefd_date_moment::fields::{ReadError, UnreadReason};
use timefd_date_moment::reading::ValueError;
use timefd_description::{ReadTextError, read_text, reason_sentence};
use timefd_lint_drawing::json::{push_number, push_text};
use timefd_parse::Language;

/// The moment that a whole text shows by a description, as a JSON object, or why it shows none. An
/// `Err` says that memory ran out, and nothing about the texts.
#[tactic(auto, using(crate::proofs::ReadingLemmas::reading))]
pub fn reading_of(
    alloc: Global,
    language: Language,
    description: &str,
    text: &str,
) -> Result<Vec<u8>, AllocError>
    ensures reads { IfOk result (λ object. Reads language description.now text.now object.items) }
{
    let answer = read_text(alloc, language, description, text);
    reported(alloc, &answer)
}

fn reported(
    alloc: Global,
    answer: &Result<Moment, ReadTextError<'_>>,
) -> Result<Vec<u8>, AllocError>
    ensures { IfOk result (λ object. Shows answer.now object.items) }
{
    match answer {
        Ok(moment) => moment_object(alloc, *moment),
        Err(ReadTextError::Unread(error)) => unread_object(alloc, *error),
        Err(ReadTextError::Value(error)) => value_object(alloc, *error),
        Err(ReadTextError::Fault(_)) => no_description(alloc),
        Err(ReadTextError::Memory(_)) => Err(AllocError),
    }
}

fn moment_object(alloc: Global, moment: Moment) -> Result<Vec<u8>, AllocError>
    ensures { IfOk result (λ object. object.items ≡ spec.moment_object moment) }
{
    let text = format!(in alloc; "{moment}")?;
    let mut out = Vec::new(alloc);
    push_text(&mut out, "{\"read\":true,\"moment\":", &text)?;
    out.extend_from_slice(b"}")?;
    Ok(out)
}

fn unread_object(alloc: Global, error: ReadError) -> Result<Vec<u8>, AllocError>
    ensures { IfOk result (λ object. object.items ≡ spec.unread_object error) }
{
    let message = sentence_of(alloc, error.reason)?;
    let mut out = Vec::new(alloc);
    push_text(&mut out, "{\"read\":false,\"message\":", &message)?;
    push_text(&mut out, ",\"component\":", component_in(error.reason))?;
    push_number(alloc, &mut out, ",\"start\":", error.index as u64)?;
    out.extend_from_slice(b"}")?;
    Ok(out)
}

fn value_object(alloc: Global, error: ValueError) -> Result<Vec<u8>, AllocError>
    ensures { IfOk result (λ object. object.items ≡ spec.value_object error) }
{
    let message = format!(in alloc; "{error}")?;
    let mut out = Vec::new(alloc);
    push_text(&mut out, "{\"read\":false,\"message\":", &message)?;
    out.extend_from_slice(b"}")?;
    Ok(out)
}

fn no_description(alloc: Global) -> Result<Vec<u8>, AllocError>
    ensures { IfOk result (λ object. object.items ≡ spec.no_description) }
{
    let mut out = Vec::new(alloc);
    out.extend_from_slice(b"{\"read\":false}")?;
    Ok(out)
}

// Why a part of a text doesn't match. The page adds the position.
fn sentence_of(alloc: Global, reason: UnreadReason) -> Result<String, AllocError>
    ensures { IfOk result (λ text. string_bytes text ≡ spec.sentence_here reason) }
{
    let sentence = reason_sentence(alloc, reason)?;
    format!(in alloc; "{sentence} here")
}

// The name of the component that doesn't match, or an empty text if it is no component.
fn component_in(reason: UnreadReason) -> &'static str
    ensures { result.now ≡ spec.component_in reason }
{
    match reason {
        UnreadReason::Unread(component) | UnreadReason::Contradiction(component) => component_name(
            component,
        ),
        UnreadReason::Literal | UnreadReason::Trailing => "",
    }
}
