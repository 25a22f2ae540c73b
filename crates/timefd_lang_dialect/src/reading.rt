//! Formats as texts of version 3.

ghost use Rattle.std.specs.Prelude.{◌≡◌, ℕ, IfOk, List, MatchResult, string_bytes};
ghost use Rattle.std.specs.Result.{IfErr};
ghost use Rattle.timefd_lang_dialect.specs.Answers.{IsConverted, IsMemory, IsRefusal, IsRefusedFor};
ghost use Rattle.timefd_lang_dialect.specs.Items.{IsSpelledBy};
ghost use Rattle.timefd_lang_dialect.specs.Reading.{Means, Piece, RefusedAt, text_of};
ghost use Rattle.timefd_lang_dialect.specs.declared.reason.Reason.{Reason};

use crate::dialect::Dialect;
use crate::error::{DialectError, RefusedPart};
use crate::front::{Stop, push_pieces};
use crate::limits::Limits;
use std::alloc::Global;

/// The result of a conversion, in either direction.
#[derive(Drop)]
pub struct Converted {
    /// The text of version 3, or the format.
    pub text: String,
    /// The moments for which both write the same.
    pub limits: Limits,
}

/// The text of version 3 that writes what the dialect writes by the format.
///
/// The error is `Refused` with the first part of the format, from the left, that has no text of
/// version 3, or `Memory` if memory ran out.
pub fn to_version_three(
    alloc: Global,
    dialect: Dialect,
    format: &str,
) -> Result<Converted, DialectError>
    // The result is the text of the pieces that the format means, and spells their items in version
    // 3. What is refused has no text of version 3.
    ensures converted { IfOk result (IsConverted dialect format.now) }
    ensures same_items { IfOk result (λ answer. IsSpelledBy dialect format.now
        (string_bytes answer.text)) }
    ensures fault { IfErr result (IsRefusedFor dialect format.now) }

    // A format that means something is converted, unless memory runs out. A format with a part that
    // has no text is refused for that part, unless memory runs out first.
    ensures means { (ps : List Piece) → Means dialect format.now ps
        → MatchResult result (λ answer. string_bytes answer.text ≡ text_of ps) IsMemory }
    ensures refused { (reason : Reason) (index : ℕ) → RefusedAt dialect format.now reason index
        → MatchResult result (λ _. ⊥) (IsRefusal reason index) }
{
    text_of_format(alloc, dialect, format)
}

/// Converts a format; the clauses of `to_version_three` follow from those here.
fn text_of_format(alloc: Global, dialect: Dialect, format: &str) -> Result<Converted, DialectError>
    ensures converted { IfOk result (IsConverted dialect format.now) }
    ensures same_items { IfOk result (λ answer. IsSpelledBy dialect format.now
        (string_bytes answer.text)) }
    ensures fault { IfErr result (IsRefusedFor dialect format.now) }
{
    let mut text = String::with_capacity(alloc, first_room(format))?;
    let mut limits = Limits::ALL;
    let mut rest = format;
    'pieces: while !rest.is_empty() {
        match push_pieces(&mut text, dialect, rest) {
            Ok(step) => {
                limits = limits.narrowed(step.range);
                rest = step.rest;
            }
            Err(Stop::Refused(reason)) => return Err(DialectError::Refused(RefusedPart {
                reason,
                index: format.len() - rest.len(),
            })),
            Err(Stop::Memory(error)) => return Err(DialectError::Memory(error)),
        }
    }
    Ok(Converted { text, limits })
}

/// How many bytes to reserve for the text of a format. Most formats of up to 64 bytes need no more.
fn first_room(format: &str) -> usize {
    8 * format.len().min(64)
}
