//! Moments of the dates and times of `jiff`.

ghost use Rattle.std.specs.Prelude.{◌≡◌, None};
ghost use Rattle.jiff.specs.Words.{plain_zoned};
ghost use Rattle.timefd_format.specs.FromJiff.Same.{HasDate, HasOffset, HasTime};

use crate::from_jiff::dates::date_from_jiff;
use crate::from_jiff::times::{offset_from_jiff, time_from_jiff};
use jiff::Zoned;
use jiff::civil::DateTime;
use timefd_date_moment::Moment;

/// The moment with this date and time of day, and without an offset.
pub fn moment_from_datetime(datetime: DateTime) -> Moment
    ensures date { HasDate datetime.date result.date }
    ensures time { HasTime datetime.time result.time }
    ensures offset { result.offset ≡ None }
{
    Moment {
        date: Some(date_from_jiff(datetime.date())),
        time: Some(time_from_jiff(datetime.time())),
        offset: None,
    }
}

/// The moment with the date and the time of day on the zone's clock, and with its offset.
pub fn moment_from_zoned(zoned: &Zoned<'_>) -> Moment
    ensures date { HasDate (plain_zoned zoned.now).datetime.date result.date }
    ensures time { HasTime (plain_zoned zoned.now).datetime.time result.time }
    ensures offset { HasOffset (plain_zoned zoned.now).offset result.offset }
{
    let mut moment = moment_from_datetime(zoned.datetime());
    moment.offset = Some(offset_from_jiff(zoned.offset()));
    moment
}
