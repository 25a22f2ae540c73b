//! The moments that words name, and why a word names none.

ghost use Rattle.timefd_format.specs.Moments.{IsChecked, IsNamed, IsWritten};

use crate::absent::AbsentDay;
use crate::bracket::{closes_once, ends_in_bracket, in_agreement};
use crate::from_jiff::{Annotated, Annotation, Error, read_annotated};
use crate::names::GivenNames;
use crate::seconds::{after_at, moment_at};
use jiff_tz::TimeZoneDatabase;
use timefd_date_moment::fields::ReadError;
use timefd_date_moment::reading::ValueError;
use timefd_date_moment::{Moment, UtcOffset};

/// The offset that is written, and the different one that the time zone in brackets has at that
/// moment.
#[derive(Clone, Copy)]
pub struct OffsetConflict {
    /// The offset before the brackets.
    pub written: UtcOffset,
    /// The offset of the time zone at that moment.
    pub zone: UtcOffset,
}

/// Why a word names no moment.
#[derive(Clone, Copy)]
pub enum MomentError {
    /// It is `now`, and the clock can't be read.
    Clock,
    /// It is `now`, and `TZ` names no time zone.
    LocalZone,
    /// The part after `@` is not a whole number of seconds, or its year is not from -999,999 to
    /// 999,999.
    Seconds,
    /// It ends with brackets that hold something other than the name of one time zone.
    Brackets,
    /// It has a time zone in brackets, but lacks a time or an offset to check it against.
    NoOffset,
    /// The time zone in its brackets is unknown.
    NoZone,
    /// Its offset isn't the one that the time zone in its brackets has at that instant.
    Conflict(OffsetConflict),
    /// Its year is outside of those in which the offsets of time zones are known.
    Years,
    /// It should be shown on the clock of a time zone, but is not an instant: its date, time or offset
    /// is missing.
    NoInstant,
    /// Memory ran out.
    Memory,
    /// It isn't a moment, and this is wrong with it.
    Text(Error),
    /// This part of it doesn't match the description.
    Unread(ReadError),
    /// It matches the description, but there is no such day.
    Absent(AbsentDay),
    /// It matches the description, but what was read isn't a moment.
    Value(ValueError),
    /// It matches the description, and gives part of a date, but no date agrees with that.
    NoDate,
}

/// The moment that a word names: `now`; `@` and a number of seconds since 1970 began in UTC; or a date,
/// which a time of day, an offset and a time zone in brackets may follow. That time zone must have this
/// offset at that instant.
pub fn moment_named(names: GivenNames<'_>, word: &str) -> Result<Moment, MomentError>
    ensures { IsNamed names.entry word.now result }
{
    if word == "now" {
        return names.now.moment();
    }
    match after_at(word) {
        Some(seconds) => moment_at(seconds),
        None => moment_written(names.zones, word),
    }
}

// The moment that a word spells out.
#[tactic(auto, using(crate::proofs::MomentLemmas::written_ok, crate::proofs::MomentLemmas::written_err))]
fn moment_written(zones: &TimeZoneDatabase, word: &str) -> Result<Moment, MomentError>
    ensures { IsWritten zones.now word.now result }
{
    match read_annotated(word) {
        Ok(annotated) => checked(zones, word, annotated),
        Err(error) => Err(MomentError::Text(error)),
    }
}

// The moment, if what is in brackets agrees with it. The grammar skips all annotations but a time zone,
// so a word with others is refused here.
fn checked(
    zones: &TimeZoneDatabase,
    word: &str,
    annotated: Annotated<'_>,
) -> Result<Moment, MomentError>
    ensures { IsChecked zones.now word.now annotated.entry result }
{
    match annotated.zone {
        None => {
            if ends_in_bracket(word) {
                return Err(MomentError::Brackets);
            }
            Ok(annotated.moment)
        }
        Some(Annotation::Named(name)) => {
            if closes_once(word) {
                in_agreement(zones, name, annotated.moment)
            } else {
                Err(MomentError::Brackets)
            }
        }
        Some(Annotation::Offset(_)) => Err(MomentError::Brackets),
    }
}
