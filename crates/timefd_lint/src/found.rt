//! What is found in a file that is rewritten or mended, and its new bytes.

ghost use Rattle.std.specs.Prelude.{◌≡◌, Option, Some, [], IfErr, IfOk, IsFalse, false, string_bytes};
ghost use Rattle.timefd_parse.specs.Tree.{Text};
ghost use Rattle.timefd_lint.specs.Causes.{IsCausedBy};
ghost use Rattle.timefd_lint.specs.Limited.{AreNotesFor};
ghost use Rattle.timefd_lint.specs.Rewritten.{AreCounted, AreManualNotes, AreNotesOnLimits, IsFileNoted, IsFileRewritten};
ghost use Rattle.timefd_lint.specs.Sources.{IsRunOfSource};
ghost use Rattle.timefd_lint.specs.Sources as sources;
ghost use Rattle.timefd_lint.specs.Reported.{IsRunOver};
ghost use Rattle.timefd_lint_rewrite.specs.Rewriting.{AreRewritten};

use crate::limited::limit_notes;
use crate::line::LintError;
use crate::lines::lint_lines;
use crate::manual::notes;
use crate::options::RunOptions;
use crate::source_file::{finder_of, lint_source};
use crate::tally::LintTally;
use crate::value_notes::{limits_of_values, unwritable};
use std::alloc::{AllocError, Global};
use std::str;
use timefd_bin_streams::{InMemory, Sink};
use timefd_lint_rewrite::{Counts, LineChange, rewrite_lines};
use timefd_lint_scan::keys::descriptions_by;
use timefd_lint_sources::rewriting::{
    Change, Outcome, count_refused, count_rewritten, rewrite_found,
};
use timefd_lint_sources::{Finder, SourceText};

/// What is counted in a file: lines or descriptions.
#[derive(Clone, Copy)]
pub enum CountedUnit {
    /// The lines of a file.
    Line,
    /// The descriptions of a source.
    Description,
}

/// What is found in a file that may be rewritten.
#[derive(Drop)]
pub struct FoundInFile {
    pub tally: LintTally,
    pub unit: CountedUnit,
    /// How many lines or descriptions are rewritten, and how many are refused.
    pub counts: Counts,
    /// The bytes that replace the file's.
    pub bytes: Vec<u8>,
    /// The notes on descriptions that have to be changed manually, a line each.
    pub manual: String,
    /// The notes on formats that version 3 writes alike for some moments alone, a line each.
    pub limits: String,
}

/// Checks the lines of a file, and rewrites those that can be rewritten.
#[tactic(auto, using(crate::proofs::InMemoryLemmas::lines_of_bytes, crate::proofs::InMemoryLemmas::unfailing))]
pub fn looked_at<W: Sink>(
    alloc: Global,
    options: RunOptions<'_>,
    change: LineChange,
    name: &str,
    old: &[u8],
    writer: &mut W,
) -> Result<FoundInFile, LintError>
    ensures reported { IfOk result (λ found. (rest : Option Text)
        × IsRunOver options.entry.language options.entry.comment options.entry.reporting name.now
        (Some old.now) rest false (W.contents writer.old) (W.contents writer.new) found.tally) }
    // All lines are looked at: no read of bytes in memory fails.
    ensures whole { IfOk result (λ found. IsFalse found.tally.failed) }
    ensures rewritten { IfOk result (λ found. AreRewritten change options.entry.comment
        (Some old.now) (Some []) (Some found.bytes.items) found.counts) }
    ensures manual { IfOk result (λ found. string_bytes found.manual ≡ []) }
    ensures limits { IfOk result (λ found. AreNotesFor change options.entry.comment name.now old.now
        (string_bytes found.limits)) }
    ensures unwritten { IfErr result (IsCausedBy (W.has_failed writer.new)) }
{
    let mut reader = InMemory::new(old);
    let tally = lint_lines(alloc, options, name, &mut reader, writer)?;
    let mut lines = old;
    let mut bytes = Vec::new(alloc);
    let limits = limits_of(alloc, options, change, name, old)?;
    match rewrite_lines(alloc, options.comment, change, &mut lines, &mut bytes) {
        Ok(counts) => Ok(FoundInFile {
            tally,
            unit: CountedUnit::Line,
            counts,
            bytes,
            manual: String::new(alloc),
            limits,
        }),
        // The reader and the writer are both in memory, so only memory can run out.
        Err(_) => Err(LintError::Memory),
    }
}

/// Checks the descriptions of a source, literals of Rust or values of keys, and mends or converts those that can be
/// changed. A source that isn't UTF-8 has none.
pub fn source_looked_at<W: Sink>(
    alloc: Global,
    options: RunOptions<'_>,
    change: Change,
    name: &str,
    old: &[u8],
    writer: &mut W,
) -> Result<FoundInFile, LintError>
    ensures reported { IfOk result (λ found. (rest : Option Text)
        × IsRunOfSource (sources.finder_of options.entry name.now) options.entry.reporting name.now
        (Some old.now) rest false (W.contents writer.old) (W.contents writer.new) found.tally) }
    ensures rewritten { IfOk result (λ found. IsFileRewritten change (sources.finder_of options.entry name.now) old.now
        found.counts found.bytes.items) }
    ensures noted { IfOk result (λ found. IsFileNoted change (sources.finder_of options.entry name.now) name.now
        old.now (string_bytes found.manual) (string_bytes found.limits)) }
    ensures unwritten { IfErr result (IsCausedBy (W.has_failed writer.new)) }
{
    let tally = source_tally(alloc, options, name, old, writer)?;
    let unit = CountedUnit::Description;
    match str::from_utf8(old) {
        Ok(text) => {
            let source = SourceText {
                file: name,
                finder: finder_of(options, name),
                text,
                allowances: &[],
            };
            let new = rewrite_found(alloc, change, source)?;
            Ok(FoundInFile {
                tally,
                unit,
                counts: counts_of(&new.outcomes),
                manual: manual_in(alloc, change, source, &new.outcomes)?,
                limits: limits_in(alloc, change, source)?,
                bytes: new.bytes,
            })
        }
        Err(_) => Ok(FoundInFile {
            tally,
            unit,
            counts: counts_of(&[]),
            bytes: Vec::new(alloc),
            manual: String::new(alloc),
            limits: String::new(alloc),
        }),
    }
}

// Checks the descriptions of a source that is in memory, where no read fails.
#[tactic(auto, using(crate::proofs::InMemoryLemmas::source_of_bytes))]
fn source_tally<W: Sink>(
    alloc: Global,
    options: RunOptions<'_>,
    name: &str,
    old: &[u8],
    writer: &mut W,
) -> Result<LintTally, LintError>
    ensures reported { IfOk result (λ tally. (rest : Option Text)
        × IsRunOfSource (sources.finder_of options.entry name.now) options.entry.reporting name.now
        (Some old.now) rest false (W.contents writer.old) (W.contents writer.new) tally) }
    ensures unwritten { IfErr result (IsCausedBy (W.has_failed writer.new)) }
{
    let mut reader = InMemory::new(old);
    match lint_source(alloc, options, name, &mut reader, writer) {
        Ok(tally) => Ok(tally),
        Err(error) => Err(error),
    }
}

// The notes on formats of another language that version 3 writes alike for some moments alone.
fn limits_of(
    alloc: Global,
    options: RunOptions<'_>,
    change: LineChange,
    name: &str,
    old: &[u8],
) -> Result<String, AllocError>
    ensures { IfOk result (λ limits. AreNotesFor change options.entry.comment name.now old.now
        (string_bytes limits)) }
{
    match change {
        LineChange::Own(_) => Ok(String::new(alloc)),
        LineChange::Other(dialect) => limit_notes(alloc, options.comment, dialect, name, old),
    }
}

// The notes on what has to be changed manually in a source.
fn manual_in(
    alloc: Global,
    change: Change,
    source: SourceText<'_>,
    outcomes: &[Outcome],
) -> Result<String, AllocError>
    ensures { IfOk result (λ notes. AreManualNotes change source.entry.finder source.entry.file.now
        source.entry.text.now outcomes.now (string_bytes notes)) }
{
    match source.finder {
        Finder::Rust(calls) => notes(alloc, change, source.file, source.text, calls, outcomes),
        Finder::Keys(format, keys) => {
            let values = descriptions_by(alloc, format, source.text, keys)?;
            unwritable(alloc, source.file, source.text, &values, outcomes)
        }
    }
}

// The notes on values of keys that version 3 writes alike for some moments alone.
fn limits_in(alloc: Global, change: Change, source: SourceText<'_>) -> Result<String, AllocError>
    ensures { IfOk result (λ notes. AreNotesOnLimits change source.entry.finder source.entry.file.now
        source.entry.text.now (string_bytes notes)) }
{
    match source.finder {
        Finder::Rust(_) => Ok(String::new(alloc)),
        Finder::Keys(format, keys) => {
            let values = descriptions_by(alloc, format, source.text, keys)?;
            limits_of_values(alloc, change, source.file, source.text, &values)
        }
    }
}

fn counts_of(outcomes: &[Outcome]) -> Counts
    ensures { AreCounted outcomes.now result }
{
    Counts {
        lines: outcomes.len() as u64,
        rewritten: count_rewritten(outcomes) as u64,
        refused: count_refused(outcomes) as u64,
    }
}
