//! What becomes of a file that may be rewritten.

ghost use Rattle.std.specs.Prelude.{◌≡◌, [], Some, IfErr, IfOk, OnOk};
ghost use Rattle.timefd_lint_rewrite.specs.Diffs.{WritesDiff};
ghost use Rattle.timefd_lint.specs.Causes.{IsCausedBy};
ghost use Rattle.timefd_lint.specs.Fates as fates;
ghost use Rattle.timefd_lint.specs.Stores as stores;
ghost use Rattle.timefd_lint.specs.declared.line.LintError.TheVariants as errors;

use crate::fix::{FixError, Original};
use crate::found::FoundInFile;
use crate::line::{LintError, write};
use crate::lines::failed;
use crate::options::RunOptions;
use crate::output::{Audience, without_colors};
use crate::release::{end_of, head_of};
use crate::rewrite_report::{left_out, rewrote};
use crate::rewriting::Rewriting;
use crate::store::Store;
use crate::tally::LintTally;
use std::alloc::Global;
use timefd_bin_streams::Sink;
use timefd_lint_drawing::shown::safe;
use timefd_lint_rewrite::{Counts, write_diff};

// What becomes of a file.
#[derive(Clone, Copy)]
enum Fate {
    // Nothing in it is rewritten.
    Same,
    // Some of it is refused, so the whole file stays as it is.
    LeftOut,
    // It is replaced.
    Replaced,
    // The changes are shown.
    Shown,
}

// What becomes of a file in which so many lines or descriptions are rewritten or refused.
fn fate_of(rewriting: Rewriting, counts: Counts) -> Fate
    ensures { result ≡ fates.fate_of rewriting counts }
{
    if counts.rewritten == 0 {
        Fate::Same
    } else if counts.refused > 0 && !rewriting.is_partial {
        Fate::LeftOut
    } else if rewriting.writes {
        Fate::Replaced
    } else {
        Fate::Shown
    }
}

/// Shows what changes in a file in which this is found, or writes it back.
pub fn settle<S: Store, E: Sink, W: Sink>(
    store: &mut S,
    alloc: Global,
    options: RunOptions<'_>,
    rewriting: Rewriting,
    audience: Audience,
    name: &str,
    old: &Original<S::File>,
    found: &FoundInFile,
    errors: &mut E,
    output: &mut W,
) -> Result<LintTally, LintError>
    ensures settled { IfOk result (stores.IsSettled S.replaces S.refuses options.entry rewriting audience
        name.entry old.now.bytes.items found.now (fates.fate_of rewriting found.now.counts)
        (stores.stage store.old (E.contents errors.old) (E.has_failed errors.old) (W.contents output.old))
        (stores.stage store.new (E.contents errors.new) (E.has_failed errors.new) (W.contents output.new))) }
    ensures unwritten { IfErr result (IsCausedBy (W.has_failed output.new)) }
{
    let file = safe(alloc, name)?;
    match fate_of(rewriting, found.counts) {
        Fate::Same => Ok(tally_of(found)),
        Fate::LeftOut => {
            let message = left_out(alloc, rewriting.writes, &file, found.unit, found.counts)?;
            report(errors, &message);
            Ok(tally_of(found))
        }
        Fate::Replaced => {
            let end = end_of(options, rewriting, name);
            replace(
                store, alloc, options, name, &file, end, old, found, errors, output,
            )
        }
        Fate::Shown => {
            let head = head_of(options, rewriting, name);
            show_diff(
                alloc,
                audience,
                head,
                &file,
                &old.bytes,
                &found.bytes,
                output,
            )?;
            Ok(tally_of(found))
        }
    }
}

// Replaces a file by the bytes that are found for it, and reports that with this end, or notes why it stays.
fn replace<S: Store, E: Sink, W: Sink>(
    store: &mut S,
    alloc: Global,
    options: RunOptions<'_>,
    name: &str,
    file: &str,
    end: &str,
    old: &Original<S::File>,
    found: &FoundInFile,
    errors: &mut E,
    output: &mut W,
) -> Result<LintTally, LintError>
    ensures replaced { IfOk result (stores.IsReplaced S.replaces S.refuses options.entry name.entry file.now
        end.now found.now
        (stores.stage store.old (E.contents errors.old) (E.has_failed errors.old) (W.contents output.old))
        (stores.stage store.new (E.contents errors.new) (E.has_failed errors.new) (W.contents output.new))) }
    ensures unwritten { IfErr result (IsCausedBy (W.has_failed output.new)) }
{
    match store.replace(alloc, name, old, &found.bytes) {
        Ok(()) => {
            let message = rewrote(alloc, file, found.unit, found.counts, end)?;
            report(errors, &message);
            Ok(tally_of(found))
        }
        Err(error) => {
            let one = noted(alloc, options, name, error, output)?;
            Ok(tally_of(found).and(one))
        }
    }
}

/// Reports to people. A report that can't be written is left out.
pub fn report<E: Sink>(errors: &mut E, message: &str)
    ensures { fates.Reports (E.contents errors.old) (E.contents errors.new) (E.has_failed errors.new)
        message.now }
{
    let _ = errors.put_all(message.as_bytes());
}

// What is found in a file, and whether descriptions are left that have to be changed manually.
fn tally_of(found: &FoundInFile) -> LintTally
    ensures { result ≡ fates.tally_in found.now }
{
    let left = LintTally {
        is_left: !found.manual.is_empty(),
        ..LintTally::new()
    };
    found.tally.and(left)
}

/// Notes why a file is left as it was.
pub fn noted<W: Sink>(
    alloc: Global,
    options: RunOptions<'_>,
    name: &str,
    error: FixError,
    output: &mut W,
) -> Result<LintTally, LintError>
    ensures noted { IfOk result (fates.IsNoted options.entry name.entry error (W.contents output.old)
        (W.contents output.new)) }
    ensures unwritten { IfErr result (IsCausedBy (W.has_failed output.new)) }
{
    match error {
        FixError::Memory => Err(LintError::Memory),
        FixError::Failed(failure) => {
            let end = failed(alloc, options, name, failure, output)?;
            Ok(LintTally::of(end))
        }
    }
}

// Shows what changes in a file, after this text. A diff has no colours: an escape in it is one of the file.
#[tactic(auto, using(crate::proofs::FateLemmas::shows))]
fn show_diff<W: Sink>(
    alloc: Global,
    audience: Audience,
    head: &str,
    file: &str,
    old: &[u8],
    new: &[u8],
    output: &mut W,
) -> Result<(), LintError>
    ensures shown { OnOk result (fates.ShowsDiff audience head.now file.now old.now new.now
        (W.contents output.old) (W.contents output.new)) }
    ensures unwritten { IfErr result (IsCausedBy (W.has_failed output.new)) }
{
    let diff = diff_of(alloc, head, file, old, new)?;
    let shown = without_colors(alloc, audience, diff)?;
    write(output, &shown)
}

// What changes in a file, as a diff after this text.
#[tactic(auto, using(crate::proofs::FateLemmas::after_head))]
fn diff_of(
    alloc: Global,
    head: &str,
    file: &str,
    old: &[u8],
    new: &[u8],
) -> Result<Vec<u8>, LintError>
    ensures diff { IfOk result (λ diff. WritesDiff file.now old.now new.now (Some head.now) (Some diff.items)) }
    ensures memory { IfErr result (λ e. e ≡ errors.Memory) }
{
    let mut diff = Vec::new(alloc);
    diff.extend_from_slice(head.as_bytes())?;
    match write_diff(alloc, file, old, new, &mut diff) {
        Ok(()) => Ok(diff),
        // The writer is in memory, so only memory can run out.
        Err(_) => Err(LintError::Memory),
    }
}
