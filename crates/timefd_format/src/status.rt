//! Exit statuses, and what people are shown with them.

ghost use Rattle.std.specs.Prelude.{codes, IsFalse};
ghost use Rattle.timefd_format.specs.Messages.{option_sentence};
ghost use Rattle.timefd_format.specs.Statuses as spec;

use crate::asked::CommandLineError;
use crate::guess_run::GuessEnd;
use crate::report::report_sentence;
use crate::usage;
use std::alloc::{AllocError, Global};
use std::io::Stderr;
use timefd_bin_streams::{Sink, ToWriter};

/// Something was refused: a description, a moment or a column.
pub(crate) const REFUSED: u8 = 1;

/// The arguments are wrong.
pub(crate) const WRONG_ARGUMENTS: u8 = 2;

/// Memory ran out.
pub(crate) const NO_MEMORY: u8 = 3;

/// A read or a write failed.
pub(crate) const FAILED: u8 = 4;

/// A word or a line isn't UTF-8.
pub(crate) const NOT_TEXT: u8 = 5;

// A terminal obeys and hides nothing of it.
const MEMORY_RAN_OUT: &str = "timefd_format: memory ran out\n";

const UNREAD: &str = "the standard input can't be read";

/// The standard error, where people are shown messages.
pub(crate) fn errors(rt: &HostRuntime) -> ToWriter<Stderr>
    ensures { IsFalse (⟦<ToWriter<Stderr> as Sink>⟧.has_failed result) }
{
    ToWriter::new(rt.stderr())
}

/// Shows people a sentence, and returns the status.
#[tactic(auto, using(crate::proofs::StatusLemmas::is_shown, crate::proofs::StatusLemmas::is_unshown))]
pub(crate) fn reported<E: Sink>(alloc: Global, errors: &mut E, status: u8, sentence: &str) -> u8
    ensures { spec.IsStatus status sentence.now (E.contents errors.old) (E.contents errors.new)
        (E.has_failed errors.new) result }
{
    match report_sentence(alloc, errors, sentence) {
        Ok(_) => status,
        Err(AllocError) => no_memory(errors),
    }
}

/// Reports that memory ran out, which takes none, and returns the status.
pub(crate) fn no_memory<E: Sink>(errors: &mut E) -> u8
    ensures { spec.IsNoMemory (E.contents errors.old) (E.contents errors.new) (E.has_failed errors.new) result }
{
    // A message that can't be written is left out.
    let _ = errors.put_all(MEMORY_RAN_OUT.as_bytes());
    NO_MEMORY
}

/// Reports that the output can't be written, and returns the status.
pub(crate) fn write_failed<E: Sink>(alloc: Global, errors: &mut E) -> u8
    ensures { spec.IsStatus 4 (codes "the standard output can't be written") (E.contents errors.old)
        (E.contents errors.new) (E.has_failed errors.new) result }
{
    reported(
        alloc,
        errors,
        FAILED,
        "the standard output can't be written",
    )
}

/// Reports what is wrong with the arguments, and returns the status.
#[tactic(auto, using(crate::proofs::StatusLemmas::in_words))]
pub(crate) fn wrong_arguments<E: Sink>(
    alloc: Global,
    errors: &mut E,
    error: CommandLineError<'_>,
) -> u8
    ensures { spec.IsStatus 2 (option_sentence error.entry) (E.contents errors.old) (E.contents errors.new)
        (E.has_failed errors.new) result }
{
    match usage::sentence(alloc, error) {
        Ok(sentence) => reported(alloc, errors, WRONG_ARGUMENTS, &sentence),
        Err(AllocError) => no_memory(errors),
    }
}

/// Writes a text to the output, and returns the status.
pub(crate) fn written<W: Sink, E: Sink>(
    alloc: Global,
    output: &mut W,
    errors: &mut E,
    text: &str,
) -> u8
    ensures { spec.IsWrittenStatus text.now (W.contents output.old) (W.contents output.new) (W.has_failed output.new)
        (E.contents errors.old) (E.contents errors.new) (E.has_failed errors.new) result }
{
    match output.put_all(text.as_bytes()) {
        Ok(()) => 0,
        Err(_) => write_failed(alloc, errors),
    }
}

/// Reports if the standard input wasn't read to its end, and returns the status.
pub(crate) fn end_status<E: Sink>(alloc: Global, errors: &mut E, status: u8) -> u8
    ensures { spec.IsEndStatus status (E.contents errors.old) (E.contents errors.new) (E.has_failed errors.new)
        result }
{
    if status == FAILED {
        reported(alloc, errors, FAILED, UNREAD)
    } else {
        status
    }
}

/// Reports why no description is found, if none is, and returns the status.
pub(crate) fn guess_status<E: Sink>(alloc: Global, errors: &mut E, end: GuessEnd) -> u8
    ensures { spec.IsGuessStatus end (E.contents errors.old) (E.contents errors.new) (E.has_failed errors.new) result }
{
    match end {
        GuessEnd::Found => 0,
        GuessEnd::NotFound => reported(
            alloc,
            errors,
            REFUSED,
            "no known description reads all texts",
        ),
        GuessEnd::NoText => reported(
            alloc,
            errors,
            REFUSED,
            "there is no text to find a description of",
        ),
        GuessEnd::NotText => reported(alloc, errors, NOT_TEXT, "a line isn't UTF-8"),
        GuessEnd::Memory => no_memory(errors),
        GuessEnd::Read => reported(alloc, errors, FAILED, UNREAD),
        GuessEnd::Write => write_failed(alloc, errors),
    }
}
