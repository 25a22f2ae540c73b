//! What the linter reports about all warnings of a text.

ghost use Rattle.std.specs.Prelude.{◌≡◌, ◌++◌, IfOk, OnOk};
ghost use Rattle.timefd_lint_warnings.specs.Messages as spec;

use crate::message::message;
use std::alloc::{AllocError, Global};
use timefd_lang_warnings::{Level, Levels, Warning};
use timefd_lint_diagnosis::Span;
use timefd_lint_drawing::{Origin, Style};

/// A message about each warning that isn't allowed, in the order of the codes. An `Err` says that
/// memory ran out.
pub fn messages(
    alloc: Global,
    style: Style,
    origin: Origin<'_>,
    text: &str,
    found: Levels,
) -> Result<Vec<u8>, AllocError>
    ensures { IfOk result (λ reported. reported.items ≡ spec.messages style origin.entry text.now found) }
{
    let span = Span {
        start: 0,
        end: text.len(),
    };
    messages_at(alloc, style, origin, text, span, text, 1, found)
}

/// A message about each warning that isn't allowed, in the order of the codes, on a text that is the part `span` of `whole`
/// and begins at this column of its line. An `Err` says that memory ran out.
pub fn messages_at(
    alloc: Global,
    style: Style,
    origin: Origin<'_>,
    whole: &str,
    span: Span,
    text: &str,
    column: usize,
    found: Levels,
) -> Result<Vec<u8>, AllocError>
    ensures { IfOk result (λ reported. reported.items
        ≡ spec.messages_at style origin.entry whole.now span text.now column found) }
{
    let mut out = Vec::new(alloc);
    push_all(
        alloc,
        &mut out,
        style,
        origin,
        whole,
        span,
        text,
        column,
        found,
        Warning::all(),
    )?;
    Ok(out)
}

fn push_all(
    alloc: Global,
    out: &mut Vec<u8>,
    style: Style,
    origin: Origin<'_>,
    whole: &str,
    span: Span,
    text: &str,
    column: usize,
    found: Levels,
    warnings: &[Warning],
) -> Result<(), AllocError>
    ensures { OnOk result (out.new.items
        ≡ out.old.items ++ spec.messages_on style origin.entry whole.now span text.now column found warnings.now) }
{
    for warning in warnings {
        push_one(
            alloc,
            out,
            style,
            origin,
            whole,
            span,
            text,
            column,
            found.level_of(*warning),
            *warning,
        )?;
    }
    Ok(())
}

// Adds the message about a warning, if it isn't allowed.
fn push_one(
    alloc: Global,
    out: &mut Vec<u8>,
    style: Style,
    origin: Origin<'_>,
    whole: &str,
    span: Span,
    text: &str,
    column: usize,
    level: Level,
    warning: Warning,
) -> Result<(), AllocError>
    ensures { OnOk result (out.new.items
        ≡ out.old.items ++ spec.reported_at style origin.entry whole.now span text.now column level warning) }
{
    match level {
        Level::Allowed => Ok(()),
        Level::Warned | Level::Denied => {
            let reported = message(
                alloc, style, origin, whole, span, text, column, level, warning,
            )?;
            out.extend_from_slice(&reported)
        }
    }
}
