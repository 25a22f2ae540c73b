//! The messages about words that aren't written.

ghost use Rattle.std.specs.Prelude.{◌≡◌, IfOk, string_bytes};
ghost use Rattle.timefd_format.specs.Messages as spec;

use crate::absent::absent_sentence;
use crate::expected::expected_in;
use crate::header::HeaderError;
use crate::moment::{MomentError, OffsetConflict};
use crate::source::{MomentSource, source_leaves};
use std::alloc::{AllocError, Global};
use timefd_date_format::Unshown;
use timefd_date_moment::fields::{ReadError, UnreadReason};
use timefd_description::unread_sentence;
use timefd_lint_drawing::shown::safe;

/// How a run reports what is wrong with descriptions.
#[derive(Clone, Copy)]
pub struct Manner {
    /// Whether faults and warnings are drawn in colours.
    pub is_colored: bool,
    /// Whether to leave out warnings.
    pub is_quiet: bool,
}

/// The message for a line that isn't UTF-8.
pub const NOT_TEXT: &str = "timefd_format: a line isn't UTF-8\n";

// The reasons why a word isn't a moment.

const NO_LOCAL_ZONE: &str =
    "timefd_format: `now` is in the zone of TZ, which names none; set it, as in TZ=Europe/Berlin or \
    TZ=UTC\n";

const SECONDS: &str =
    "`@` is followed by whole seconds since 1970, as in @1700000000, of a year from -999999 to 999999";

const BRACKETS: &str = "brackets hold the name of one time zone and nothing else, as in \
    2026-11-23T05:36:07+01:00[Europe/Berlin]";

const NO_OFFSET: &str =
    "a time zone in brackets is checked against a time and an offset; write both, as in \
    2026-11-23T05:36:07+01:00[Europe/Berlin]";

const NO_ZONE: &str =
    "there is no time zone of the name in brackets; names look like Europe/Berlin";

const YEARS: &str = "offsets of time zones are known in the years -9999 to 9999";

const NO_INSTANT: &str =
    "`--zone` shows what has a date, a time and an offset, as 2026-11-23T05:36:07+01:00";

const NO_DATE: &str = "no date agrees with all that was read";

/// The message for a word that names or shows no moment, with the number of its line. An `Err` says
/// that memory ran out.
#[tactic(auto, using(crate::proofs::MessageLemmas::unread, crate::proofs::MessageLemmas::no_text))]
pub fn unread_message(
    alloc: Global,
    source: &MomentSource<'_>,
    line: Option<u64>,
    word: &str,
    error: MomentError,
) -> Result<String, AllocError>
    ensures { IfOk result (λ message. spec.IsUnreadMessage source.now line word.now error
        (string_bytes message)) }
{
    match error {
        MomentError::Clock => String::from_str(alloc, "timefd_format: the clock can't be read\n"),
        MomentError::LocalZone => String::from_str(alloc, NO_LOCAL_ZONE),
        MomentError::Seconds => no_moment(alloc, word, SECONDS),
        MomentError::Brackets => no_moment(alloc, word, BRACKETS),
        MomentError::NoOffset => no_moment(alloc, word, NO_OFFSET),
        MomentError::NoZone => no_moment(alloc, word, NO_ZONE),
        MomentError::Conflict(conflict) => conflicting(alloc, word, conflict),
        MomentError::Years => no_moment(alloc, word, YEARS),
        MomentError::NoInstant => no_moment(alloc, word, NO_INSTANT),
        MomentError::Memory => Err(AllocError),
        MomentError::Text(error) => {
            let reason = format!(in alloc; "{error}")?;
            no_moment(alloc, word, &reason)
        }
        MomentError::Absent(day) => {
            let sentence = absent_sentence(alloc, day)?;
            not_read(alloc, line, word, &sentence)
        }
        MomentError::Unread(error) => {
            let sentence = stop_sentence(alloc, source, word, error)?;
            not_read(alloc, line, word, &sentence)
        }
        MomentError::Value(error) => {
            let sentence = format!(in alloc; "{error}")?;
            not_read(alloc, line, word, &sentence)
        }
        MomentError::NoDate => not_read(alloc, line, word, NO_DATE),
    }
}

// Why a part of a word doesn't read. Names the literal that was expected, if it can be found.
#[tactic(auto, using(crate::proofs::MessageLemmas::plain))]
fn stop_sentence(
    alloc: Global,
    source: &MomentSource<'_>,
    word: &str,
    error: ReadError,
) -> Result<String, AllocError>
    ensures { IfOk result (λ text. spec.IsStopSentence source.now word.now error (string_bytes text)) }
{
    match error.reason {
        UnreadReason::Literal => literal_sentence(alloc, source, word, error),
        UnreadReason::Unread(_) | UnreadReason::Contradiction(_) | UnreadReason::Trailing => {
            unread_sentence(alloc, error)
        }
    }
}

#[tactic(auto, using(crate::proofs::MessageLemmas::plain, crate::proofs::MessageLemmas::named))]
fn literal_sentence(
    alloc: Global,
    source: &MomentSource<'_>,
    word: &str,
    error: ReadError,
) -> Result<String, AllocError>
    ensures { IfOk result (λ text. spec.IsStopSentence source.now word.now error (string_bytes text)) }
{
    let leaves = source_leaves(alloc, source)?;
    match expected_in(source, leaves.as_deref(), word) {
        Some(literal) => expected_sentence(alloc, literal, error.index),
        None => unread_sentence(alloc, error),
    }
}

fn expected_sentence(alloc: Global, literal: &str, index: usize) -> Result<String, AllocError>
    ensures { IfOk result (λ text. string_bytes text ≡ spec.expected_sentence literal.now index) }
{
    let literal = safe(alloc, literal)?;
    format!(in alloc; "`{literal}` was expected at byte {index}")
}

// The message for a word that isn't a moment, for this reason.
fn no_moment(alloc: Global, word: &str, reason: &str) -> Result<String, AllocError>
    ensures { IfOk result (λ message. string_bytes message ≡ spec.no_moment word.now reason.now) }
{
    let word = safe(alloc, word)?;
    format!(in alloc; "timefd_format: `{word}` isn't a moment: {reason}\n")
}

// The message for a word whose offset isn't the one that the time zone in brackets has.
fn conflicting(alloc: Global, word: &str, conflict: OffsetConflict) -> Result<String, AllocError>
    ensures { IfOk result (λ message. string_bytes message ≡ spec.conflicting word.now conflict) }
{
    let word = safe(alloc, word)?;
    let (written, zone) = (conflict.written, conflict.zone);
    format!(in alloc;
        "timefd_format: `{word}` isn't a moment: its offset is {written}, and the time zone in \
        brackets has {zone} then\n"
    )
}

fn not_read(
    alloc: Global,
    line: Option<u64>,
    word: &str,
    sentence: &str,
) -> Result<String, AllocError>
    ensures { IfOk result (λ message. string_bytes message
        ≡ spec.not_read line word.now sentence.now) }
{
    let word = safe(alloc, word)?;
    match line {
        Some(line) => {
            format!(in alloc; "timefd_format: line {line}: `{word}` is not read: {sentence}\n")
        }
        None => format!(in alloc; "timefd_format: `{word}` is not read: {sentence}\n"),
    }
}

/// The message for a moment that a component can't show. An `Err` says that memory ran out.
pub fn unshown_message(alloc: Global, word: &str, unshown: Unshown) -> Result<String, AllocError>
    ensures { IfOk result (λ message. string_bytes message
        ≡ spec.unshown_message word.now unshown) }
{
    let word = safe(alloc, word)?;
    format!(in alloc; "timefd_format: `{word}` is not written: {unshown}\n")
}

/// The message for a record without the column. An `Err` says that memory ran out.
pub fn no_field_message(alloc: Global, line: u64) -> Result<String, AllocError>
    ensures { IfOk result (λ message. string_bytes message ≡ spec.no_field_message line) }
{
    format!(in alloc; "timefd_format: line {line} has too few fields to have the column\n")
}

/// The message for quotes that aren't closed. An `Err` says that memory ran out.
pub fn open_message(alloc: Global, line: u64) -> Result<String, AllocError>
    ensures { IfOk result (λ message. string_bytes message ≡ spec.open_message line) }
{
    format!(in alloc;
        "timefd_format: line {line}: quotes begin and don't end; nothing is read from here on\n"
    )
}

/// The message for a table without a first record. An `Err` says that memory ran out.
pub fn no_header_message(alloc: Global, name: &str) -> Result<String, AllocError>
    ensures { IfOk result (λ message. string_bytes message ≡ spec.no_header_message name.now) }
{
    let name = safe(alloc, name)?;
    format!(in alloc; "timefd_format: there is no first line to name the column `{name}`\n")
}

/// The message for a table whose first record doesn't name the column. An `Err` says that memory
/// ran out.
pub fn unnamed_message(alloc: Global, name: &str, error: HeaderError) -> Result<String, AllocError>
    ensures { IfOk result (λ message. string_bytes message ≡ spec.unnamed_message name.now error) }
{
    let name = safe(alloc, name)?;
    match error {
        HeaderError::Missing => {
            format!(in alloc; "timefd_format: the first line names no column `{name}`\n")
        }
        HeaderError::Twice => {
            format!(in alloc;
                "timefd_format: the first line names two columns `{name}`; give the number of one\n"
            )
        }
    }
}
