//! Notes on formats of other languages whose text of version 3 writes the same for some moments alone.

ghost use Rattle.std.specs.Prelude.{◌≡◌, ◌++◌, IfOk, OnOk, string_bytes};
ghost use Rattle.timefd_lint.specs.Limited as spec;

use std::alloc::{AllocError, Global};
use std::io::BufRead;
use std::str;
use timefd_lang_dialect::{Dialect, DialectError, Limits, to_version_three};
use timefd_lint_drawing::shown::safe;
use timefd_lint_rewrite::{is_passed_over, without_newline};

/// A line for each line of a file whose format and text of version 3 write the same for some moments alone: it says for
/// which. An `Err` says that memory ran out.
#[tactic(auto, using(crate::proofs::LimitedLemmas::none_yet, crate::proofs::LimitedLemmas::one_more, crate::proofs::LimitedLemmas::at_end))]
pub fn limit_notes(
    alloc: Global,
    comment: Option<&str>,
    dialect: Dialect,
    name: &str,
    bytes: &[u8],
) -> Result<String, AllocError>
    ensures { IfOk result (λ notes. spec.AreNotes comment.entry dialect name.now bytes.now
        (string_bytes notes)) }
{
    let file = safe(alloc, name)?;
    let mut notes = String::new(alloc);
    let mut reader = bytes;
    let mut line = Vec::new(alloc);
    'lines: for index in 0..u64::MAX {
        if !note_next(
            alloc,
            comment,
            dialect,
            &file,
            index + 1,
            &mut line,
            &mut reader,
            &mut notes,
        )? {
            return Ok(notes);
        }
    }
    Err(AllocError)
}

// Reads a line, with `line` as the buffer for it, and appends the note on it. Returns whether there was one. The reader is in
// memory, so only memory can run out.
#[tactic(auto, using(crate::proofs::LimitedLemmas::next_noted))]
fn note_next<R: BufRead>(
    alloc: Global,
    comment: Option<&str>,
    dialect: Dialect,
    file: &str,
    number: u64,
    line: &mut Vec<u8>,
    reader: &mut R,
    notes: &mut String,
) -> Result<bool, AllocError>
    ensures { IfOk result (spec.IsNextNoted comment.entry dialect file.now number (R.remaining reader.old)
        (R.remaining reader.new) (string_bytes notes.old) (string_bytes notes.new)) }
{
    line.clear();
    match reader.read_until(b'\n', line) {
        Ok(count) => {
            if count == 0 {
                return Ok(false);
            }
            push_note(alloc, comment, dialect, file, number, line, notes)?;
            Ok(true)
        }
        Err(_) => Err(AllocError),
    }
}

// Appends the note on a line, if there is one.
#[tactic(auto, using(crate::proofs::LimitedLemmas::passed_over, crate::proofs::LimitedLemmas::no_text))]
fn push_note(
    alloc: Global,
    comment: Option<&str>,
    dialect: Dialect,
    file: &str,
    number: u64,
    line: &[u8],
    notes: &mut String,
) -> Result<(), AllocError>
    ensures { OnOk result (spec.AddsNote comment.entry dialect file.now number line.now (string_bytes notes.old)
        (string_bytes notes.new)) }
{
    let text = without_newline(line);
    if is_passed_over(comment, text) {
        return Ok(());
    }
    match str::from_utf8(text) {
        Ok(text) => push_text_note(alloc, dialect, file, number, text, notes),
        Err(_) => Ok(()),
    }
}

/// Appends the note on a format, if there is one. An `Err` says that memory ran out.
#[tactic(auto, using(crate::proofs::LimitedLemmas::of_pieces, crate::proofs::LimitedLemmas::of_refusal))]
pub fn push_text_note(
    alloc: Global,
    dialect: Dialect,
    file: &str,
    number: u64,
    text: &str,
    notes: &mut String,
) -> Result<(), AllocError>
    ensures { OnOk result (spec.AddsTextNote dialect file.now number text.now (string_bytes notes.old)
        (string_bytes notes.new)) }
{
    match to_version_three(alloc, dialect, text) {
        Ok(converted) => push_limits(alloc, file, number, converted.limits, notes),
        Err(DialectError::Refused(_refusal)) => Ok(()),
        Err(DialectError::Memory(error)) => Err(error),
    }
}

// Appends the note on limits, if there are any.
fn push_limits(
    alloc: Global,
    file: &str,
    number: u64,
    limits: Limits,
    notes: &mut String,
) -> Result<(), AllocError>
    ensures { OnOk result (string_bytes notes.new ≡ string_bytes notes.old ++ spec.note file.now number limits) }
{
    if limits.first_year == 0 && !limits.whole_minutes {
        return Ok(());
    }
    let note = note(alloc, file, number, limits)?;
    notes.push_str(&note)
}

fn note(alloc: Global, file: &str, number: u64, limits: Limits) -> Result<String, AllocError>
    ensures { IfOk result (λ note. string_bytes note ≡ spec.note_on file.now number limits) }
{
    let year = from_year(alloc, limits.first_year)?;
    let offsets = offsets(limits.whole_minutes);
    format!(in alloc; "{file}:{number}: version 3 writes the same only{year}{offsets}\n")
}

fn from_year(alloc: Global, year: u16) -> Result<String, AllocError>
    ensures { IfOk result (λ text. string_bytes text ≡ spec.from_year year) }
{
    if year == 0 {
        return Ok(String::new(alloc));
    }
    format!(in alloc; " from the year {year} on")
}

fn offsets(whole_minutes: bool) -> &'static str
    ensures { result.now ≡ spec.offsets whole_minutes }
{
    if whole_minutes {
        " for offsets of whole minutes"
    } else {
        ""
    }
}
