//! Moments read from texts.

ghost use Rattle.std.specs.Prelude.{option_map};
ghost use Rattle.jiff_fmt.specs.Temporal.{parse_pieces, pieces_view, seconds_view, time_parts};
ghost use Rattle.timefd_format.specs.FromJiff.Read.{AreRead, IsOffsetRead, IsRead, IsTimeRead};

use crate::from_jiff::dates::plain_date;
use crate::from_jiff::times::{plain_offset, plain_time};
use jiff_core::Error;
use jiff_fmt::temporal::{self, Pieces};
use timefd_date_moment::{Moment, Time, UtcOffset};

/// Reads a date, with a time of day and an offset if they are written, as `jiff` does. That
/// includes the forms of RFC 3339. A second of 60 is read as 59. A zone in brackets is ignored. An
/// `Err` says what is wrong with the text.
#[tactic(auto, using(crate::proofs::JiffLemmas::ReadLemmas::reads))]
pub fn read_moment(text: &str) -> Result<Moment, Error>
    ensures { IsRead (parse_pieces text.now) result }
{
    match temporal::parse_pieces(text.as_bytes()) {
        Ok(pieces) => Ok(of_pieces(pieces)),
        Err(error) => Err(error),
    }
}

#[tactic(auto, using(crate::proofs::JiffLemmas::ReadLemmas::reads))]
pub(crate) fn of_pieces(pieces: Pieces<'_>) -> Moment
    ensures { AreRead (pieces_view pieces.entry) result }
{
    Moment {
        date: Some(plain_date(pieces.date)),
        time: time_of(pieces.time),
        offset: offset_of(pieces.to_numeric_offset()),
    }
}

fn time_of(time: Option<jiff_core::civil::Time>) -> Option<Time>
    ensures { IsTimeRead (option_map time_parts time) result }
{
    match time {
        Some(time) => Some(plain_time(time)),
        None => None,
    }
}

fn offset_of(offset: Option<jiff_core::Offset>) -> Option<UtcOffset>
    ensures { IsOffsetRead (seconds_view offset) result }
{
    match offset {
        Some(offset) => Some(plain_offset(offset)),
        None => None,
    }
}
