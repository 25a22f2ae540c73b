//! The descriptions that texts may be written by.

ghost use Rattle.std.specs.Prelude.{◌≡◌, IfErr, IfOk, string_bytes};
ghost use Rattle.timefd_description.specs.Guessing.Found.{texts};
ghost use Rattle.timefd_format.specs.Frames.{IsFailure};
ghost use Rattle.timefd_format.specs.Guessed as spec;

use crate::outcome::RunError;
use crate::report::report;
use std::alloc::{AllocError, Global};
use timefd_bin_streams::{Failed, Sink};
use timefd_description::guessing::{Guess, guesses};

/// Writes the descriptions that all the texts may be written by, one a line, and returns whether there is
/// any. Unless the run is quiet, `errors` gets a note on how many texts don't show which number is the day
/// and which is the month.
#[tactic(auto, using(crate::proofs::GuessLemmas::writes))]
pub fn write_guesses<W: Sink, E: Sink>(
    alloc: Global,
    is_quiet: bool,
    words: &[&str],
    output: &mut W,
    errors: &mut E,
) -> Result<bool, RunError>
    ensures guesses { IfOk result (spec.WritesGuesses (texts words.now) (W.contents output.old)
        (W.contents output.new)) }
    ensures error { IfErr result (IsFailure (W.has_failed output.new)) }
{
    let found = guesses(alloc, words)?;
    if !is_quiet {
        report_undecided(alloc, &found, words.len(), errors)?;
    }
    let lines = guess_lines(alloc, &found)?;
    match output.put_all(lines.as_bytes()) {
        Ok(()) => Ok(is_any(&found)),
        Err(Failed) => Err(RunError::Write),
    }
}

// Whether there is a description.
fn is_any(found: &[Guess]) -> bool
    ensures { result ≡ spec.is_any found.now }
{
    match found {
        [] => false,
        [_, ..] => true,
    }
}

// The text of the descriptions, one a line.
#[tactic(auto, using(crate::proofs::GuessLemmas::line_more, crate::proofs::GuessLemmas::lines_done))]
fn guess_lines(alloc: Global, found: &[Guess]) -> Result<String, AllocError>
    ensures { IfOk result (λ lines. string_bytes lines ≡ spec.guess_lines found.now) }
{
    let mut lines = String::new(alloc);
    let mut rest = found;
    'guesses: while let [guess, after @ ..] = rest {
        lines.push_str(guess.description)?;
        lines.push_str("\n")?;
        rest = after;
    }
    Ok(lines)
}

// Reports how many texts leave open which number is the day and which is the month, for the first description
// that has such texts.
fn report_undecided<E: Sink>(
    alloc: Global,
    found: &[Guess],
    count: usize,
    errors: &mut E,
) -> Result<(), AllocError> {
    'guesses: for at in 0..found.len() {
        let undecided = found[at].undecided;
        if undecided > 0 {
            let message = swapped_message(alloc, undecided, count)?;
            report(alloc, errors, message.as_bytes())?;
            return Ok(());
        }
    }
    Ok(())
}

fn swapped_message(alloc: Global, undecided: usize, count: usize) -> Result<String, AllocError>
    ensures { IfOk result (λ message. string_bytes message ≡ spec.swapped_message undecided count) }
{
    format!(in alloc;
        "timefd_format: day and month may be swapped: {undecided} of {count} texts leave it open\n"
    )
}
