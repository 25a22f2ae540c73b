//! The only way for messages to reach people, who read them at a terminal: the terminal obeys and hides
//! nothing of what they quote.

ghost use Rattle.std.specs.Prelude.{◌≡◌, chars, false, IfOk, OnErr, OnOk};
ghost use Rattle.timefd_lint_drawing.specs.People.{AllSeen, for_people};
ghost use Rattle.timefd_format.specs.Reports as spec;

use std::alloc::{AllocError, Global};
use timefd_bin_streams::{Failed, Sink};
use timefd_lint_diagnosis::Diagnostic;
use timefd_lint_drawing::people::show;
use timefd_lint_drawing::{Format, Origin, Style, drawn};

/// What became of a message.
#[derive(Clone, Copy)]
pub enum MessageFate {
    /// People see all of it.
    Seen,
    /// A write of it failed. That isn't reported, since it couldn't be written either.
    Failed,
}

/// Shows a message to people, without colours. An `Err` says that memory ran out.
pub fn report<E: Sink>(
    alloc: Global,
    errors: &mut E,
    message: &[u8],
) -> Result<MessageFate, AllocError>
    ensures seen { IfOk result (spec.ReachesPeople false message.now (E.contents errors.old)
        (E.contents errors.new) (E.has_failed errors.new)) }
    ensures untold { OnErr result (E.contents errors.new ≡ E.contents errors.old) }
    ensures gets { OnOk result (spec.Gets (for_people false message.now) (E.contents errors.old)
        (E.contents errors.new) (E.has_failed errors.old) (E.has_failed errors.new)) }
{
    report_drawn(alloc, false, errors, message)
}

/// Shows people a sentence in a line of its own, after the name of the program. An `Err` says that memory ran
/// out.
pub fn report_sentence<E: Sink>(
    alloc: Global,
    errors: &mut E,
    sentence: &str,
) -> Result<MessageFate, AllocError>
    ensures seen { IfOk result (spec.ReachesPeople false (spec.line_of sentence.now) (E.contents errors.old)
        (E.contents errors.new) (E.has_failed errors.new)) }
    ensures untold { OnErr result (E.contents errors.new ≡ E.contents errors.old) }
{
    let message = format!(in alloc; "timefd_format: {sentence}\n")?;
    report(alloc, errors, message.as_bytes())
}

/// Shows people a message as it is drawn, with its colours if `is_colored` is true. An `Err` says that memory
/// ran out.
#[tactic(auto, using(crate::proofs::ReportLemmas::gets_all, crate::proofs::ReportLemmas::gets_no_more))]
pub fn report_drawn<E: Sink>(
    alloc: Global,
    is_colored: bool,
    errors: &mut E,
    message: &[u8],
) -> Result<MessageFate, AllocError>
    ensures seen { IfOk result (spec.ReachesPeople is_colored message.now (E.contents errors.old)
        (E.contents errors.new) (E.has_failed errors.new)) }
    ensures untold { OnErr result (E.contents errors.new ≡ E.contents errors.old) }
    ensures gets { OnOk result (spec.Gets (for_people is_colored message.now) (E.contents errors.old)
        (E.contents errors.new) (E.has_failed errors.old) (E.has_failed errors.new)) }
{
    let shown = shown_to_people(alloc, is_colored, message)?;
    match errors.put_all(&shown) {
        Ok(()) => Ok(MessageFate::Seen),
        Err(Failed) => Ok(MessageFate::Failed),
    }
}

// The message as people see it. An `Err` says that memory ran out, since nothing else can fail.
fn shown_to_people(alloc: Global, is_colored: bool, message: &[u8]) -> Result<Vec<u8>, AllocError>
    ensures shown { IfOk result (λ shown. shown.items ≡ for_people is_colored message.now) }
    ensures seen { OnOk result (AllSeen is_colored (chars (for_people is_colored message.now))) }
{
    let mut shown = Vec::new(alloc);
    match show(alloc, is_colored, message, &mut shown) {
        Ok(()) => Ok(shown),
        Err(_) => Err(AllocError),
    }
}

/// Shows people the fault of a text, drawn as the linter does. `name` is what the text is called. An `Err`
/// says that memory ran out.
pub fn report_fault<E: Sink>(
    alloc: Global,
    is_colored: bool,
    name: &str,
    text: &str,
    diagnostic: &Diagnostic,
    errors: &mut E,
) -> Result<MessageFate, AllocError>
    ensures { IfOk result (spec.ReachesPeople is_colored
        (spec.fault_text is_colored name.entry text.now diagnostic.now) (E.contents errors.old)
        (E.contents errors.new) (E.has_failed errors.new)) }
{
    let style = Style {
        format: Format::Human,
        is_colored,
    };
    let origin = Origin {
        file: name,
        line: 1,
    };
    let drawing = drawn(alloc, style, origin, text, diagnostic)?;
    report_drawn(alloc, is_colored, errors, &drawing)
}
