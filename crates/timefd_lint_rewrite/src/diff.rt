//! Shows how a text changes when its lines are rewritten, as a unified diff with three lines of context.

ghost use Rattle.std.specs.Prelude.{◌≡◌, ◌≤◌, ◌<◌, ◌-◌, [], IfOk, OnOk, codes, length, string_bytes};
ghost use Rattle.std.specs.Io.KnownBytes.{Appends};
ghost use Rattle.std.specs.List.{list_any};
ghost use Rattle.timefd_lint_rewrite.specs.Diffs as spec;

use crate::lines::ends_with;
use crate::pairs::{Pair, pairs_of};
use crate::rewrite::RewriteError;
use std::alloc::{AllocError, Global};
use std::io::Write;

// How many lines are shown around a change.
const CONTEXT: usize = 3;

impl From<AllocError> for RewriteError {
    ghost use Rattle.std.specs.Prelude.{◌≡◌};
    ghost use Rattle.timefd_lint_rewrite.specs.declared.rewrite.RewriteError.{RewriteError};

    ghost from_gives = { λ _ e. e ≡ RewriteError.Memory };

    fn from(_: AllocError) -> RewriteError {
        RewriteError::Memory
    }
}

/// Writes a diff between a text and another that has a line for each of its lines. Both are shown under the
/// same name.
#[tactic(auto, using(crate::proofs::DiffLemmas::whole))]
pub fn write_diff<W: Write>(
    alloc: Global,
    name: &str,
    old: &[u8],
    new: &[u8],
    writer: &mut W,
) -> Result<(), RewriteError>
    ensures { OnOk result (spec.WritesDiff name.now old.now new.now (W.contents writer.old)
        (W.contents writer.new)) }
{
    let pairs = pairs_of(alloc, old, new)?;
    write_names(alloc, name, writer)?;
    write_hunks(alloc, &pairs, writer)
}

// Writes the name of the text before and after.
fn write_names<W: Write>(alloc: Global, name: &str, writer: &mut W) -> Result<(), RewriteError>
    ensures { OnOk result (Appends (W.contents writer.old) (W.contents writer.new)
        (spec.file_header name.now)) }
{
    let names = format!(in alloc; "--- {name}\n+++ {name}\n")?;
    write(names.as_bytes(), writer)
}

// Writes each hunk.
#[tactic(auto, using(crate::proofs::DiffLemmas::all_left, crate::proofs::DiffLemmas::one_more, crate::proofs::DiffLemmas::none_left, crate::proofs::DiffLemmas::hunks_step, crate::proofs::DiffLemmas::hunks_end))]
fn write_hunks<W: Write>(
    alloc: Global,
    pairs: &[Pair<'_>],
    writer: &mut W,
) -> Result<(), RewriteError>
    ensures { OnOk result (Appends (W.contents writer.old) (W.contents writer.new)
        (spec.hunks_from (spec.lines_of pairs.now) (length pairs.now) 0)) }
{
    'lines: for at in 0..pairs.len() {
        write_hunk_at(alloc, pairs, at, writer)?;
    }
    Ok(())
}

// Writes the hunk that begins at a line, if one does.
#[tactic(auto, using(crate::proofs::DiffLemmas::no_hunk, crate::proofs::DiffLemmas::a_hunk))]
fn write_hunk_at<W: Write>(
    alloc: Global,
    pairs: &[Pair<'_>],
    at: usize,
    writer: &mut W,
) -> Result<(), RewriteError>
    requires { at < length pairs.now }
    ensures { OnOk result (Appends (W.contents writer.old) (W.contents writer.new)
        (spec.hunk_at (spec.lines_of pairs.now) at)) }
{
    if begins(pairs, at) {
        let end = end_from(pairs, at);
        write_hunk(alloc, at + 1, &pairs[at..end], writer)?;
        return Ok(());
    }
    Ok(())
}

// Whether a hunk begins at a line: it is shown, and the line before it isn't.
fn begins(pairs: &[Pair<'_>], at: usize) -> bool
    requires { at < length pairs.now }
    ensures { result ≡ spec.begins (spec.lines_of pairs.now) at }
{
    is_shown(pairs, at) && !(0 < at && is_shown(pairs, at - 1))
}

// Whether a line is shown: it changes, or a line near it does.
fn is_shown(pairs: &[Pair<'_>], at: usize) -> bool
    requires { at < length pairs.now }
    ensures { result ≡ spec.is_shown (spec.lines_of pairs.now) at }
{
    let from = at.saturating_sub(CONTEXT);
    let rest = &pairs[from..];
    let count = (at + CONTEXT + 1 - from).min(rest.len());
    any_changes(&rest[..count])
}

fn any_changes(pairs: &[Pair<'_>]) -> bool
    ensures { result ≡ list_any spec.changes (spec.lines_of pairs.now) }
{
    let mut rest = pairs;
    'pairs: while let [pair, more @ ..] = rest {
        if changes(*pair) {
            return true;
        }
        rest = more;
    }
    false
}

fn changes(pair: Pair<'_>) -> bool
    ensures { result ≡ spec.changes (spec.line_of pair.entry) }
{
    pair.old != pair.new
}

// The first line that isn't shown, from one on.
#[tactic(auto, using(crate::proofs::DiffLemmas::goes_on, crate::proofs::DiffLemmas::ends_here, crate::proofs::DiffLemmas::ends_last))]
fn end_from(pairs: &[Pair<'_>], from: usize) -> usize
    requires { from < length pairs.now }
    ensures end { result ≡ spec.end_from (spec.lines_of pairs.now) (length pairs.now - from) from }
    ensures least { from ≤ result }
    ensures most { result ≤ length pairs.now }
{
    'lines: for at in from..pairs.len() {
        if !is_shown(pairs, at) {
            return at;
        }
    }
    pairs.len()
}

// Writes a hunk whose first line has this number.
#[tactic(auto, using(crate::proofs::DiffLemmas::a_header))]
fn write_hunk<W: Write>(
    alloc: Global,
    first: usize,
    pairs: &[Pair<'_>],
    writer: &mut W,
) -> Result<(), RewriteError>
    ensures { OnOk result (Appends (W.contents writer.old) (W.contents writer.new)
        (spec.hunk first (spec.lines_of pairs.now))) }
{
    let range = range(alloc, first, pairs.len())?;
    write_header(alloc, &range, writer)?;
    write_body(pairs, writer)
}

// The range of a hunk. A single line is given by its number alone.
fn range(alloc: Global, first: usize, count: usize) -> Result<String, AllocError>
    ensures { IfOk result (λ text. string_bytes text ≡ spec.range first count) }
{
    if count == 1 {
        format!(in alloc; "{first}")
    } else {
        format!(in alloc; "{first},{count}")
    }
}

// Writes the range of a hunk, which is the same in both texts.
fn write_header<W: Write>(alloc: Global, range: &str, writer: &mut W) -> Result<(), RewriteError>
    ensures { OnOk result (Appends (W.contents writer.old) (W.contents writer.new)
        (spec.hunk_header range.now)) }
{
    let header = format!(in alloc; "@@ -{range} +{range} @@\n")?;
    write(header.as_bytes(), writer)
}

// Writes the lines of a hunk. Of lines in turn that change, first all are written as they were, and then their
// replacements.
#[tactic(auto, using(crate::proofs::DiffLemmas::all_left))]
fn write_body<W: Write>(pairs: &[Pair<'_>], writer: &mut W) -> Result<(), RewriteError>
    ensures { OnOk result (Appends (W.contents writer.old) (W.contents writer.new)
        (spec.body [] (spec.lines_of pairs.now))) }
{
    // Where the lines begin that change, but whose replacements aren't written yet.
    let mut from = 0;
    'lines: for at in 0..pairs.len() {
        if write_next(&pairs[from..at], pairs[at], writer)? {
            continue;
        }
        from = at + 1;
    }
    write_added(&pairs[from..], writer)?;
    Ok(())
}

// Writes a line as it was, after the replacements of those before it if it stays. Returns whether it changes.
#[tactic(auto, using(crate::proofs::DiffLemmas::in_turn, crate::proofs::DiffLemmas::changed_shown, crate::proofs::DiffLemmas::kept_shown))]
fn write_next<W: Write>(
    changed: &[Pair<'_>],
    pair: Pair<'_>,
    writer: &mut W,
) -> Result<bool, RewriteError>
    ensures is { IfOk result (λ is. is ≡ spec.changes (spec.line_of pair.entry)) }
    ensures written { OnOk result (Appends (W.contents writer.old) (W.contents writer.new)
        (spec.shown (spec.lines_of changed.now) (spec.line_of pair.entry))) }
{
    if changes(pair) {
        write_line(b"-", pair.old, writer)?;
        return Ok(true);
    }
    write_added(changed, writer)?;
    write_line(b" ", pair.old, writer)?;
    Ok(false)
}

// Writes the replacements of lines.
#[tactic(auto, using(crate::proofs::DiffLemmas::all_left, crate::proofs::DiffLemmas::one_more, crate::proofs::DiffLemmas::none_left, crate::proofs::DiffLemmas::added_more))]
fn write_added<W: Write>(pairs: &[Pair<'_>], writer: &mut W) -> Result<(), RewriteError>
    ensures { OnOk result (Appends (W.contents writer.old) (W.contents writer.new)
        (spec.added (spec.lines_of pairs.now))) }
{
    let mut rest = pairs;
    'pairs: while let [pair, more @ ..] = rest {
        write_line(b"+", pair.new, writer)?;
        rest = more;
    }
    Ok(())
}

#[tactic(auto, using(crate::proofs::DiffLemmas::in_turn))]
fn write_line<W: Write>(mark: &[u8], line: &[u8], writer: &mut W) -> Result<(), RewriteError>
    ensures { OnOk result (Appends (W.contents writer.old) (W.contents writer.new)
        (spec.marked mark.now line.now)) }
{
    write(mark, writer)?;
    write(line, writer)?;
    write(line_end(line), writer)
}

// What stands after a line without its newline.
fn line_end(line: &[u8]) -> &'static [u8]
    ensures { result.now ≡ spec.line_end line.now }
{
    if ends_with(line, b'\n') {
        b""
    } else {
        b"\n\\ No newline at end of file\n"
    }
}

fn write<W: Write>(bytes: &[u8], writer: &mut W) -> Result<(), RewriteError>
    ensures { OnOk result (Appends (W.contents writer.old) (W.contents writer.new) bytes.now) }
{
    match writer.write_all(bytes) {
        Ok(()) => Ok(()),
        Err(_) => Err(RewriteError::Write),
    }
}
