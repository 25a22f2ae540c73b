//! Sources of Rust, and files with keys.

ghost use Rattle.std.specs.Prelude.{◌≡◌, IfErr, IfOk, IsTrue, OnOk, string_bytes};
ghost use Rattle.std.specs.List.{list_all};
ghost use Rattle.timefd_lint.specs.Causes.{IsCausedBy};
ghost use Rattle.timefd_lint.specs.Sources.{IsNotText, IsReported, IsRunOfSource, IsSaid};
ghost use Rattle.timefd_lint_sources.specs.Allowances.Found.{AreAllowances};
ghost use Rattle.timefd_lint.specs.Sources as spec;

use crate::line::{LintError, TextEnd, write};
use crate::lines::read_error;
use crate::options::RunOptions;
use crate::tally::LintTally;
use std::alloc::Global;
use std::str;
use timefd_bin_streams::{BufferedError, BufferedSource, Sink};
use timefd_lint_drawing::{Origin, note};
use timefd_lint_scan::keys::format_named;
use timefd_lint_sources::allowances::allowances_in;
use timefd_lint_sources::{Finder, ItemEnd, SourceText};

/// Whether a file with this name is read as a source of Rust.
pub fn is_rust(options: RunOptions<'_>, name: &str) -> bool
    ensures { result ≡ spec.is_rust options.entry name.now }
{
    options.is_source || name.as_bytes().ends_with(b".rs")
}

/// Whether a file with this name is read for keys.
fn has_keys(options: RunOptions<'_>, name: &str) -> bool
    ensures { result ≡ spec.has_keys options.entry name.now }
{
    format_named(name).is_some() && !options.keys.is_empty()
}

/// Whether a file with this name is read as a source: of Rust, or with keys.
pub fn is_source(options: RunOptions<'_>, name: &str) -> bool
    ensures { result ≡ spec.is_source options.entry name.now }
{
    is_rust(options, name) || has_keys(options, name)
}

/// Whether all files with these names are read as sources.
pub fn are_sources(options: RunOptions<'_>, files: &[String]) -> bool
    ensures { result ≡ list_all (λ name. spec.is_source options.entry (string_bytes name)) files.now }
{
    files.iter().all(|name| is_source(options, name))
}

/// How the descriptions are found in a file with this name that is read as a source.
pub fn finder_of<'a>(options: RunOptions<'a>, name: &str) -> Finder<'a>
    ensures { result ≡ spec.finder_of options.entry name.now }
{
    if is_rust(options, name) {
        return Finder::Rust(options.calls);
    }
    match format_named(name) {
        Some(format) => Finder::Keys(format, options.keys),
        None => Finder::Rust(options.calls),
    }
}

/// Checks all bytes of a reader as a source, and writes what is wrong in it.
#[tactic(auto, using(crate::proofs::SourcesLemmas::source_read, crate::proofs::SourcesLemmas::source_unread))]
pub fn lint_source<R: BufferedSource, W: Sink>(
    alloc: Global,
    options: RunOptions<'_>,
    name: &str,
    reader: &mut R,
    writer: &mut W,
) -> Result<LintTally, LintError>
    ensures reported { IfOk result (IsRunOfSource (spec.finder_of options.entry name.now) options.entry.reporting name.now
        (R.remaining reader.old) (R.remaining reader.new) (R.has_failed reader.new)
        (W.contents writer.old) (W.contents writer.new)) }
    ensures stays { OnOk result (IsTrue (R.has_failed reader.old) → IsTrue (R.has_failed reader.new)) }
    ensures unwritten { IfErr result (IsCausedBy (W.has_failed writer.new)) }
{
    let mut bytes = Vec::new(alloc);
    match reader.read_to_end(&mut bytes) {
        Ok(_) => lint_bytes(alloc, options, name, &bytes, writer),
        Err(BufferedError::Memory) => Err(LintError::Memory),
        Err(BufferedError::Failed(kind)) => {
            let end = read_error(alloc, options, name, kind, writer)?;
            Ok(LintTally::of(end))
        }
    }
}

// Checks a source, and writes what is wrong in it.
#[tactic(auto, using(crate::proofs::SourcesLemmas::said_of_text, crate::proofs::SourcesLemmas::said_of_no_text))]
fn lint_bytes<W: Sink>(
    alloc: Global,
    options: RunOptions<'_>,
    name: &str,
    bytes: &[u8],
    writer: &mut W,
) -> Result<LintTally, LintError>
    ensures said { IfOk result (IsSaid (spec.finder_of options.entry name.now) options.entry.reporting name.now bytes.now
        (W.contents writer.old) (W.contents writer.new)) }
    ensures unwritten { IfErr result (IsCausedBy (W.has_failed writer.new)) }
{
    match str::from_utf8(bytes) {
        Ok(text) => {
            let finder = finder_of(options, name);
            let allowances = allowances_in(alloc, finder, text)?;
            let source = SourceText {
                file: name,
                finder,
                text,
                allowances: &allowances,
            };
            lint_text(alloc, options, source, writer)
        }
        Err(_) => not_text(alloc, options, name, writer),
    }
}

// Checks a source that is UTF-8.
#[tactic(auto, using(crate::proofs::SourcesLemmas::reported_source))]
fn lint_text<W: Sink>(
    alloc: Global,
    options: RunOptions<'_>,
    source: SourceText<'_>,
    writer: &mut W,
) -> Result<LintTally, LintError>
    requires allowed { AreAllowances source.finder source.text.now source.allowances.now }
    ensures reported { IfOk result (IsReported source.entry.finder options.entry.reporting source.entry.file.now
        source.entry.text.now (W.contents writer.old) (W.contents writer.new)) }
    ensures unwritten { IfErr result (IsCausedBy (W.has_failed writer.new)) }
{
    let report = timefd_lint_sources::lint_source(alloc, options.reporting, source)?;
    write(writer, &report.message)?;
    Ok(tally_of(&report.ends))
}

// Notes that a source isn't UTF-8.
fn not_text<W: Sink>(
    alloc: Global,
    options: RunOptions<'_>,
    name: &str,
    writer: &mut W,
) -> Result<LintTally, LintError>
    ensures noted { IfOk result (IsNotText options.entry.reporting name.now
        (W.contents writer.old) (W.contents writer.new)) }
    ensures unwritten { IfErr result (IsCausedBy (W.has_failed writer.new)) }
{
    let origin = Origin {
        file: name,
        line: 1,
    };
    let message = note(
        alloc,
        options.reporting.style,
        origin,
        "not-text",
        "the bytes aren't UTF-8",
    )?;
    write(writer, &message)?;
    Ok(LintTally::of(TextEnd::NotText))
}

// What was found in the descriptions of a source.
#[tactic(auto, using(crate::proofs::SourcesLemmas::none_found, crate::proofs::SourcesLemmas::one_found, crate::proofs::SourcesLemmas::all_found))]
fn tally_of(ends: &[ItemEnd]) -> LintTally
    ensures { result ≡ spec.tally_of_ends ends.now }
{
    let mut tally = LintTally::new();
    for end in ends {
        tally = tally.and(LintTally::of(text_end(*end)));
    }
    tally
}

// How the check of a description in a source ended, in the terms of one in a line.
fn text_end(end: ItemEnd) -> TextEnd
    ensures { result ≡ spec.text_end end }
{
    match end {
        ItemEnd::PassedOver => TextEnd::PassedOver,
        ItemEnd::Accepted(found) => TextEnd::Accepted(found),
        ItemEnd::Converted(traps) => TextEnd::Converted(traps),
        ItemEnd::Refused => TextEnd::Refused,
        ItemEnd::NotText => TextEnd::NotText,
        ItemEnd::Allowed(left) => TextEnd::Allowed(left),
        ItemEnd::UnreadCall => TextEnd::UnreadCall,
        ItemEnd::UnreadValue => TextEnd::UnreadValue,
        ItemEnd::WrongComment => TextEnd::WrongComment,
    }
}
