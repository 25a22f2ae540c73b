//! A run over the files of the system and the standard input.

ghost use Rattle.std.specs.Prelude.{◌≡◌, IfErr, IfOk, None, false};
ghost use Rattle.timefd_lint_drawing.specs.Forms.{is_log};
ghost use Rattle.timefd_lint.specs.Causes.{IsCausedBy};
ghost use Rattle.timefd_lint.specs.Rewriting.{rewriting_of};
ghost use Rattle.timefd_lint.specs.Parts.{AreRun, IsRunOfPart};

use crate::line::LintError;
use crate::log::write_log;
use crate::output::{Audience, errors};
use crate::parts::{RunPart, all_files, file_count};
use crate::progress::WatchedFiles;
use crate::rewriting::{Rewriting, rewriting_of};
use crate::rewritten::rewrite_files;
use crate::run::run;
use crate::source::{BUFFER, FileOpener};
use crate::tally::LintTally;
use std::alloc::Global;
use std::io::BufReader;
use timefd_bin_streams::{BufferedSource, FromBufReader, Sink, ToWriter, borrowed};
use timefd_lint_options::RunSettings;

/// Checks the files or rewrites them, and writes the report in the chosen format.
pub fn run_in_form<W: Sink>(
    rt: &HostRuntime,
    settings: RunSettings<'_>,
    is_colored: bool,
    parts: &[RunPart<'_>],
    audience: Audience,
    output: &mut W,
) -> Result<LintTally, LintError>
    // What is only checked, and not reported in a log, is reported text by text.
    ensures reported { is_log settings.entry.format ≡ false → rewriting_of settings.entry ≡ None
        → IfOk result (AreRun is_colored parts.now (W.contents output.old) (W.contents output.new)) }
    ensures unwritten { IfErr result (IsCausedBy (W.has_failed output.new)) }
{
    if settings.format.is_log() {
        run_logged(rt, settings, is_colored, parts, output)
    } else {
        run_and_rewrite(rt, settings, is_colored, parts, audience, output)
    }
}

// A run whose results are collected in a log.
fn run_logged<W: Sink>(
    rt: &HostRuntime,
    settings: RunSettings<'_>,
    is_colored: bool,
    parts: &[RunPart<'_>],
    output: &mut W,
) -> Result<LintTally, LintError>
    ensures unwritten { IfErr result (IsCausedBy (W.has_failed output.new)) }
{
    let mut results = ToWriter::new(Vec::new(rt.alloc()));
    match run_and_rewrite(
        rt,
        settings,
        is_colored,
        parts,
        Audience::Program,
        &mut results,
    ) {
        Ok(tally) => {
            write_log(rt.alloc(), &results.into_inner(), output)?;
            Ok(tally)
        }
        // The writer is in memory, so only memory can run out.
        Err(_) => Err(LintError::Memory),
    }
}

fn run_and_rewrite<W: Sink>(
    rt: &HostRuntime,
    settings: RunSettings<'_>,
    is_colored: bool,
    parts: &[RunPart<'_>],
    audience: Audience,
    output: &mut W,
) -> Result<LintTally, LintError>
    ensures reported { rewriting_of settings.entry ≡ None
        → IfOk result (AreRun is_colored parts.now (W.contents output.old) (W.contents output.new)) }
    ensures unwritten { IfErr result (IsCausedBy (W.has_failed output.new)) }
{
    match rewriting_of(settings) {
        Some(rewriting) => rewrite_parts(rt, rewriting, is_colored, parts, audience, output),
        None => check_parts(rt, is_colored, parts, output),
    }
}

// Rewrites the files of all parts in one go, so that a file with names in several parts is taken once. Of their settings nothing
// else counts but the calls, if there is one part.
fn rewrite_parts<W: Sink>(
    rt: &HostRuntime,
    rewriting: Rewriting,
    is_colored: bool,
    parts: &[RunPart<'_>],
    audience: Audience,
    output: &mut W,
) -> Result<LintTally, LintError>
    ensures unwritten { IfErr result (IsCausedBy (W.has_failed output.new)) }
{
    let [first, others @ ..] = parts else {
        return Ok(LintTally::new());
    };
    let files = all_files(rt.alloc(), parts)?;
    let options = first.options(is_colored, &files);
    let options = if others.is_empty() {
        options
    } else {
        options.without_calls()
    };
    let mut store = rt;
    let mut errors = errors(rt);
    rewrite_files(
        &mut store,
        rt.alloc(),
        options,
        rewriting,
        audience,
        &mut errors,
        output,
    )
}

fn check_parts<W: Sink>(
    rt: &HostRuntime,
    is_colored: bool,
    parts: &[RunPart<'_>],
    output: &mut W,
) -> Result<LintTally, LintError>
    ensures reported { IfOk result (AreRun is_colored parts.now (W.contents output.old) (W.contents output.new)) }
    ensures unwritten { IfErr result (IsCausedBy (W.has_failed output.new)) }
{
    let Ok(reader) = BufReader::with_capacity(rt.alloc(), BUFFER, rt.stdin()) else {
        return Err(LintError::Memory);
    };
    let mut input = FromBufReader::new(reader);
    let watched = WatchedFiles::new(rt, file_count(parts));
    let end = run_parts(&watched, rt.alloc(), is_colored, parts, &mut input, output);
    watched.end();
    end
}

// Checks the files of each part by its settings, one part after another.
#[tactic(auto, using(crate::proofs::PartLemmas::no_part, crate::proofs::PartLemmas::one_part, crate::proofs::PartLemmas::all_parts))]
fn run_parts<S: FileOpener, I: BufferedSource, W: Sink>(
    source: &S,
    alloc: Global,
    is_colored: bool,
    parts: &[RunPart<'_>],
    input: &mut I,
    output: &mut W,
) -> Result<LintTally, LintError>
    ensures reported { IfOk result (AreRun is_colored parts.now (W.contents output.old) (W.contents output.new)) }
    ensures unwritten { IfErr result (IsCausedBy (W.has_failed output.new)) }
{
    let mut tally = LintTally::new();
    let mut rest = parts;
    'parts: while let [part, after @ ..] = rest {
        tally = tally.and(run_part(source, alloc, is_colored, part, input, output)?);
        rest = after;
    }
    Ok(tally)
}

// Checks the files of a part. Without any nothing is read.
#[tactic(auto, using(crate::proofs::PartLemmas::no_file, crate::proofs::PartLemmas::some_files))]
fn run_part<S: FileOpener, I: BufferedSource, W: Sink>(
    source: &S,
    alloc: Global,
    is_colored: bool,
    part: &RunPart<'_>,
    input: &mut I,
    output: &mut W,
) -> Result<LintTally, LintError>
    ensures reported { IfOk result (IsRunOfPart is_colored part.now (W.contents output.old) (W.contents output.new)) }
    ensures unwritten { IfErr result (IsCausedBy (W.has_failed output.new)) }
{
    if part.is_empty() {
        return Ok(LintTally::new());
    }
    let files = borrowed(alloc, &part.files)?;
    run(
        source,
        alloc,
        part.options(is_colored, &files),
        input,
        output,
    )
}
