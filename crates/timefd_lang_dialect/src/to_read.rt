//! Formats as texts of version 3 that read what the formats write.

ghost use Rattle.std.specs.Prelude.{◌≡◌, ◌<◌, ℕ, IfOk, List, MatchOption, MatchResult, length, string_bytes, None, Some};
ghost use Rattle.std.specs.Result.{IfErr};
ghost use Rattle.timefd_lang_dialect.specs.Answers.{IsMemory, IsRefusal};
ghost use Rattle.timefd_lang_dialect.specs.Reading.{Piece, text_of};
ghost use Rattle.timefd_lang_dialect.specs.Readings.{readings_of};
ghost use Rattle.timefd_lang_dialect.specs.Rows.{entries};
ghost use Rattle.timefd_lang_dialect.specs.Steps.{GivesStep};
ghost use Rattle.timefd_lang_dialect.specs.ToRead.{IsToRead, IsUnreadFor, ReadsBy, UnreadAt, front_to_read, named as row_named, row_option};
ghost use Rattle.timefd_lang_dialect.specs.declared.reason.Reason.{Reason};

use crate::dialect::Dialect;
use crate::error::{DialectError, RefusedPart};
use crate::front::{FrontStep, Stop, push_front};
use crate::limits::Limits;
use crate::reading::Converted;
use crate::row::{Row, Verdict};
use std::alloc::Global;

/// The text of version 3 that reads what the dialect writes by the format, and more where the
/// dialect reads more: numbers of fewer digits, names in any case.
///
/// The error is `Refused` with the first part of the format, from the left, that has no text of
/// version 3 or that says too little, such as a year of two digits, or `Memory` if memory ran out.
pub fn to_version_three_for_reading(
    alloc: Global,
    dialect: Dialect,
    format: &str,
) -> Result<Converted, DialectError>
    // The result is the text of the pieces that read what the format writes. What is refused has
    // none.
    ensures converted { IfOk result (IsToRead dialect format.now) }
    ensures fault { IfErr result (IsUnreadFor dialect format.now) }

    // A format whose texts some pieces read is converted, unless memory runs out. A format with a
    // part that can't be read is refused for that part, unless memory runs out first.
    ensures reads { (ps : List Piece) → ReadsBy dialect format.now ps
        → MatchResult result (λ answer. string_bytes answer.text ≡ text_of ps) IsMemory }
    ensures refused { (reason : Reason) (index : ℕ) → UnreadAt dialect format.now reason index
        → MatchResult result (λ _. ⊥) (IsRefusal reason index) }
{
    text_to_read(alloc, dialect, format)
}

/// Converts a format; the clauses of `to_version_three_for_reading` follow from those here.
fn text_to_read(alloc: Global, dialect: Dialect, format: &str) -> Result<Converted, DialectError>
    ensures converted { IfOk result (IsToRead dialect format.now) }
    ensures fault { IfErr result (IsUnreadFor dialect format.now) }
{
    let mut text = String::new(alloc);
    let mut limits = Limits::ALL;
    let mut rest = format;
    'pieces: while !rest.is_empty() {
        match push_front_to_read(alloc, &mut text, dialect, rest) {
            Ok(step) => {
                limits = limits.narrowed(step.range);
                rest = step.rest;
            }
            Err(Stop::Refused(reason)) => return Err(DialectError::Refused(RefusedPart {
                reason,
                index: format.len() - rest.len(),
            })),
            Err(Stop::Memory(error)) => return Err(DialectError::Memory(error)),
        }
    }
    Ok(Converted { text, limits })
}

/// Appends the text that reads what the piece at the front writes.
fn push_front_to_read<'a>(
    alloc: Global,
    answer: &mut String,
    dialect: Dialect,
    text: &'a str,
) -> Result<FrontStep<'a>, Stop>
    requires { 0 < length text.now }
    ensures { GivesStep (front_to_read dialect text.now) text.now (string_bytes answer.old)
        (string_bytes answer.new) result }
{
    let mut written = String::new(alloc);
    let step = push_front(&mut written, dialect, text)?;
    match row_named(dialect.readings(), &written) {
        None => {
            answer.push_str(&written)?;
            Ok(step)
        }
        Some(row) => match row.verdict {
            Verdict::Refused(reason) => Err(Stop::Refused(reason)),
            Verdict::Written(read, range) => {
                answer.push_str(read)?;
                Ok(FrontStep {
                    rest: step.rest,
                    range,
                })
            }
        },
    }
}

/// The row with this text.
fn row_named(rows: &'static [Row], text: &str) -> Option<Row>
    ensures { row_option result ≡ row_named (entries rows.now) text.now }
{
    let mut rest = rows;
    'rows: while let [row, after @ ..] = rest {
        if row.text.as_bytes() == text.as_bytes() {
            return Some(*row);
        }
        rest = after;
    }
    None
}
