//! Rewrites the named files, one after another.

ghost use Rattle.std.specs.Prelude.{◌≡◌, [], IfErr, IfOk};
ghost use Rattle.timefd_lint.specs.Causes.{IsCausedBy};
ghost use Rattle.timefd_lint.specs.Fates as fates;
ghost use Rattle.timefd_lint.specs.Reported.{tally_of};
ghost use Rattle.timefd_lint.specs.Stores as stores;

use crate::fate::{noted, report, settle};
use crate::fix::Original;
use crate::found::{FoundInFile, looked_at, source_looked_at};
use crate::identity::{Identity, is_met, meet_any};
use crate::line::LintError;
use crate::options::RunOptions;
use crate::output::Audience;
use crate::rewriting::Rewriting;
use crate::source_file::is_source;
use crate::store::Store;
use crate::tally::LintTally;
use std::alloc::Global;
use timefd_bin_streams::Sink;

/// Checks each file in order, its lines or the descriptions of a source, and shows what changes in it or
/// writes it back. A file with several names is taken once. A file that can't be read or written back is
/// noted, and the others are still checked. Changes are shown to this audience. What people have to know
/// besides goes to `errors`.
#[tactic(auto, using(crate::proofs::StoreLemmas::all_names))]
pub fn rewrite_files<S: Store, E: Sink, W: Sink>(
    store: &mut S,
    alloc: Global,
    options: RunOptions<'_>,
    rewriting: Rewriting,
    audience: Audience,
    errors: &mut E,
    output: &mut W,
) -> Result<LintTally, LintError>
    ensures files { IfOk result (stores.AreRewritten S.leads
        (stores.IsFileDone S.holds S.fails S.replaces S.refuses options.entry rewriting audience)
        options.entry.files.now [] (tally_of [])
        (stores.stage store.old (E.contents errors.old) (E.has_failed errors.old) (W.contents output.old))
        (stores.stage store.new (E.contents errors.new) (E.has_failed errors.new) (W.contents output.new))) }
    ensures unwritten { IfErr result (IsCausedBy (W.has_failed output.new)) }
{
    let mut met = Vec::new(alloc);
    let mut tally = LintTally::new();
    let mut rest = options.files;
    'names: while let [name, after @ ..] = rest {
        let one = rewrite_named(
            store, alloc, options, rewriting, audience, name, &mut met, errors, output,
        )?;
        tally = tally.and(one);
        rest = after;
    }
    Ok(tally)
}

// Checks the file that a name leads to, and shows what changes in it or writes it back, unless it was met.
fn rewrite_named<S: Store, E: Sink, W: Sink>(
    store: &mut S,
    alloc: Global,
    options: RunOptions<'_>,
    rewriting: Rewriting,
    audience: Audience,
    name: &str,
    met: &mut Vec<Identity>,
    errors: &mut E,
    output: &mut W,
) -> Result<LintTally, LintError>
    ensures named { IfOk result (stores.IsNameDone S.leads
        (stores.IsFileDone S.holds S.fails S.replaces S.refuses options.entry rewriting audience)
        name.entry met.old.items met.new.items
        (stores.stage store.old (E.contents errors.old) (E.has_failed errors.old) (W.contents output.old))
        (stores.stage store.new (E.contents errors.new) (E.has_failed errors.new) (W.contents output.new))) }
    ensures unwritten { IfErr result (IsCausedBy (W.has_failed output.new)) }
{
    let identity = store.identity(name);
    if is_met(met, identity) {
        return Ok(LintTally::new());
    }
    meet_any(met, identity)?;
    let tally = rewrite_file(
        store, alloc, options, rewriting, audience, name, errors, output,
    )?;
    // Writing back creates another file with the same name.
    let later = store.identity(name);
    meet_any(met, later)?;
    Ok(tally)
}

// Checks a file, and shows what changes in it or writes it back.
fn rewrite_file<S: Store, E: Sink, W: Sink>(
    store: &mut S,
    alloc: Global,
    options: RunOptions<'_>,
    rewriting: Rewriting,
    audience: Audience,
    name: &str,
    errors: &mut E,
    output: &mut W,
) -> Result<LintTally, LintError>
    ensures done { IfOk result (stores.IsFileDone S.holds S.fails S.replaces S.refuses
        options.entry rewriting audience name.entry
        (stores.stage store.old (E.contents errors.old) (E.has_failed errors.old) (W.contents output.old))
        (stores.stage store.new (E.contents errors.new) (E.has_failed errors.new) (W.contents output.new))) }
    ensures unwritten { IfErr result (IsCausedBy (W.has_failed output.new)) }
{
    match store.read(alloc, name) {
        Ok(old) => rewrite_read(
            store, alloc, options, rewriting, audience, name, &old, errors, output,
        ),
        Err(error) => noted(alloc, options, name, error, output),
    }
}

// Checks a file that was read, and shows what changes in it or writes it back.
fn rewrite_read<S: Store, E: Sink, W: Sink>(
    store: &mut S,
    alloc: Global,
    options: RunOptions<'_>,
    rewriting: Rewriting,
    audience: Audience,
    name: &str,
    old: &Original<S::File>,
    errors: &mut E,
    output: &mut W,
) -> Result<LintTally, LintError>
    ensures done { IfOk result (stores.IsReadDone S.replaces S.refuses options.entry rewriting audience
        name.entry old.now.bytes.items
        (stores.stage store.old (E.contents errors.old) (E.has_failed errors.old) (W.contents output.old))
        (stores.stage store.new (E.contents errors.new) (E.has_failed errors.new) (W.contents output.new))) }
    ensures unwritten { IfErr result (IsCausedBy (W.has_failed output.new)) }
{
    let Some(found) = found_of(alloc, options, rewriting, name, &old.bytes, output)? else {
        return Ok(LintTally::new());
    };
    report(errors, &found.manual);
    report(errors, &found.limits);
    settle(
        store, alloc, options, rewriting, audience, name, old, &found, errors, output,
    )
}

// What is found in a file with these bytes. Files of lines were refused earlier if no conversion exists from
// their language.
#[tactic(auto, using(crate::proofs::FateLemmas::in_source, crate::proofs::FateLemmas::in_lines, crate::proofs::FateLemmas::in_nothing))]
fn found_of<W: Sink>(
    alloc: Global,
    options: RunOptions<'_>,
    rewriting: Rewriting,
    name: &str,
    old: &[u8],
    output: &mut W,
) -> Result<Option<FoundInFile>, LintError>
    ensures found { IfOk result (fates.IsFoundIn options.entry rewriting name.now old.now
        (W.contents output.old) (W.contents output.new)) }
    ensures unwritten { IfErr result (IsCausedBy (W.has_failed output.new)) }
{
    if is_source(options, name) {
        let found = source_looked_at(alloc, options, rewriting.sources, name, old, output)?;
        return Ok(Some(found));
    }
    match rewriting.lines {
        Some(change) => Ok(Some(looked_at(alloc, options, change, name, old, output)?)),
        None => Ok(None),
    }
}
