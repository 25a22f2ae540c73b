//! The run that `--guess` asks for.

ghost use Rattle.std.specs.Prelude.{◌≡◌, ◌++◌, ◌∷◌, [], false, IfErr, IfOk, OnOk};
ghost use Rattle.timefd_lint_diagnosis.specs.Words.{texts};
ghost use Rattle.timefd_lint_rewrite.specs.Lines.{without_newline};
ghost use Rattle.timefd_bin_streams.specs.Words.{bytes_of};
ghost use Rattle.timefd_format.specs.Failures.{IsSourceAfterLine};
ghost use Rattle.timefd_format.specs.GuessRuns as spec;
ghost use Rattle.timefd_format.specs.Written.{IsRead};

use crate::asked::GuessRequest;
use crate::guessed::write_guesses;
use crate::lines::{LineRead, read_line};
use crate::outcome::RunError;
use std::alloc::{AllocError, Global};
use std::str;
use timefd_bin_streams::{BufferedSource, Failed, Sink, borrowed};
use timefd_lint_rewrite::without_newline;

/// How a run ends that looks for a description.
#[derive(Clone, Copy)]
pub enum GuessEnd {
    /// There is a description that all the texts may be written by.
    Found,
    /// There is no such description.
    NotFound,
    /// There is no text.
    NoText,
    /// A line isn't UTF-8.
    NotText,
    /// Memory ran out.
    Memory,
    /// The standard input can't be read.
    Read,
    /// The standard output can't be written.
    Write,
}

impl From<AllocError> for GuessEnd {
    ghost use Rattle.std.specs.Prelude.{◌≡◌};
    ghost use Rattle.timefd_format.specs.declared.guess_run.GuessEnd.{GuessEnd};

    ghost from_gives = { λ _ e. e ≡ GuessEnd.Memory };

    fn from(_: AllocError) -> GuessEnd {
        GuessEnd::Memory
    }
}

/// Writes the descriptions that the words may be written by. Without words, the lines of the input are the
/// texts.
#[tactic(auto, using(crate::proofs::GuessRunLemmas::of_words, crate::proofs::GuessRunLemmas::of_input, crate::proofs::GuessRunLemmas::output_alone, crate::proofs::GuessRunLemmas::input_alone))]
pub fn guess_end<I: BufferedSource, W: Sink, E: Sink>(
    alloc: Global,
    request: GuessRequest,
    words: &[&str],
    input: &mut I,
    output: &mut W,
    errors: &mut E,
) -> GuessEnd
    ensures run { spec.IsGuessRun (texts words.now) (I.remaining input.old) (W.contents output.old)
        (W.contents output.new) result }
    ensures failed { spec.FailsOnlyIf (I.has_failed input.new) (W.has_failed output.new) result }
{
    if !words.is_empty() {
        return end_of(alloc, request, words, output, errors);
    }
    match input_lines(alloc, input) {
        Ok(lines) => lines_end(alloc, request, &lines, output, errors),
        Err(end) => end,
    }
}

// Writes the descriptions that the lines of the input may be written by.
fn lines_end<W: Sink, E: Sink>(
    alloc: Global,
    request: GuessRequest,
    lines: &[String],
    output: &mut W,
    errors: &mut E,
) -> GuessEnd
    ensures guesses { spec.GuessesOver (bytes_of lines.now) (W.contents output.old) (W.contents output.new)
        result }
    ensures failed { spec.FailsOnlyIf false (W.has_failed output.new) result }
{
    match borrowed(alloc, lines) {
        Ok(words) => end_of(alloc, request, &words, output, errors),
        Err(AllocError) => GuessEnd::Memory,
    }
}

// The lines of the input, each without its newline.
fn input_lines<I: BufferedSource>(alloc: Global, input: &mut I) -> Result<Vec<String>, GuessEnd>
    ensures lines { IfOk result (λ texts. spec.AreTextsOf (I.remaining input.old) (bytes_of texts.items)) }
    ensures end { IfErr result (spec.IsUnreadEnd (I.remaining input.old)) }
    ensures failed { IfErr result (spec.FailsOnlyIf (I.has_failed input.new) false) }
{
    let mut texts = Vec::new(alloc);
    let mut bytes = Vec::new(alloc);
    'lines: loop {
        match next_line(input, &mut bytes)? {
            LineRead::Line => push_line(alloc, &bytes, &mut texts)?,
            LineRead::End => return Ok(texts),
            LineRead::Failed => return Err(GuessEnd::Read),
        }
    }
}

// Reads one more line instead of these bytes.
fn next_line<I: BufferedSource>(input: &mut I, bytes: &mut Vec<u8>) -> Result<LineRead, GuessEnd>
    ensures read { IfOk result (IsRead (I.remaining input.old) (I.remaining input.new)
        bytes.new.items) }
    ensures source { IfOk result (IsSourceAfterLine (I.calls_left input.old) (I.calls_left input.new)
        (I.has_failed input.new)) }
    ensures memory { IfErr result (λ end. end ≡ GuessEnd.Memory) }
{
    match read_line(input, bytes) {
        Ok(read) => Ok(read),
        Err(_) => Err(GuessEnd::Memory),
    }
}

// Appends the text of a line, which is without its newline.
fn push_line(alloc: Global, line: &[u8], texts: &mut Vec<String>) -> Result<(), GuessEnd>
    ensures pushed { OnOk result (bytes_of texts.new.items
        ≡ bytes_of texts.old.items ++ without_newline line.now ∷ []) }
    ensures end { IfErr result (spec.IsLineEnd line.now) }
{
    let Ok(text) = str::from_utf8(without_newline(line)) else {
        return Err(GuessEnd::NotText);
    };
    let text = String::from_str(alloc, text)?;
    match texts.push(text) {
        Ok(()) => Ok(()),
        Err(_) => Err(GuessEnd::Memory),
    }
}

// Writes the descriptions that the texts may be written by.
#[tactic(auto, using(crate::proofs::GuessRunLemmas::flushed, crate::proofs::GuessRunLemmas::no_texts))]
fn end_of<W: Sink, E: Sink>(
    alloc: Global,
    request: GuessRequest,
    words: &[&str],
    output: &mut W,
    errors: &mut E,
) -> GuessEnd
    ensures guesses { spec.GuessesOver (texts words.now) (W.contents output.old) (W.contents output.new) result }
    ensures failed { spec.FailsOnlyIf false (W.has_failed output.new) result }
{
    if words.is_empty() {
        return GuessEnd::NoText;
    }
    match write_guesses(alloc, request.is_quiet, words, output, errors) {
        Ok(is_found) => flushed_end(is_found, output),
        Err(RunError::Memory) => GuessEnd::Memory,
        Err(RunError::Write | RunError::Refused) => GuessEnd::Write,
    }
}

// How a run ends, once what it wrote is passed on.
fn flushed_end<W: Sink>(is_found: bool, output: &mut W) -> GuessEnd
    ensures end { spec.IsFlushedEnd is_found (W.contents output.old) (W.contents output.new) result }
    ensures failed { spec.FailsOnlyIf false (W.has_failed output.new) result }
{
    match output.flush() {
        Ok(()) => {
            if is_found {
                GuessEnd::Found
            } else {
                GuessEnd::NotFound
            }
        }
        Err(Failed) => GuessEnd::Write,
    }
}
