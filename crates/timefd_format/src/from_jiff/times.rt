//! Conversions of times of day and of offsets from UTC.

ghost use Rattle.std.specs.Prelude.{◌≡◌};
ghost use Rattle.timefd_format.specs.FromJiff.Same.{IsSameOffset, IsSameTime};

use jiff::{civil, tz};
use timefd_date_moment::{Time, UtcOffset};

/// Converts a time of day from `jiff`.
pub fn time_from_jiff(time: civil::Time) -> Time
    ensures { IsSameTime time result }
{
    plain_time(time.to_plain())
}

/// Converts a plain time of day from `jiff_core`.
pub(crate) fn plain_time(time: jiff_core::civil::Time) -> Time
    ensures { IsSameTime time result }
{
    Time {
        hour: time.hour,
        minute: time.minute,
        second: time.second,
        nanosecond: time.subsec_nanosecond,
    }
}

/// Converts a time of day to `jiff`.
pub fn time_to_jiff(time: Time) -> civil::Time
    ensures { IsSameTime result time }
{
    civil::Time::from_plain(jiff_core::civil::Time {
        hour: time.hour,
        minute: time.minute,
        second: time.second,
        subsec_nanosecond: time.nanosecond,
    })
}

/// Converts an offset from `jiff`.
pub fn offset_from_jiff(offset: tz::Offset) -> UtcOffset
    ensures { IsSameOffset offset result }
{
    plain_offset(offset.to_plain())
}

/// Converts a plain offset from `jiff_core`.
pub(crate) fn plain_offset(offset: jiff_core::Offset) -> UtcOffset
    ensures { IsSameOffset offset result }
{
    UtcOffset {
        is_negative: offset.seconds < 0,
        seconds: offset.seconds.unsigned_abs(),
    }
}

/// Converts an offset to `jiff`.
#[tactic(auto, using(crate::proofs::JiffLemmas::SignedLemmas::offset_in))]
pub fn offset_to_jiff(offset: UtcOffset) -> tz::Offset
    ensures { IsSameOffset result offset }
{
    tz::Offset::from_plain(jiff_core::Offset {
        seconds: offset.whole_seconds(),
    })
}
