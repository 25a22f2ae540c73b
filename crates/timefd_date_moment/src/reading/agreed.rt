//! Compares the parts of a moment with what was read beside a timestamp.

ghost use Rattle.std.specs.Prelude.{◌≡◌};
ghost use Rattle.timefd_date_moment.specs.Reading.Shown.{first_false};
ghost use Rattle.timefd_date_moment.specs.Reading.Stamped as spec;

use crate::fields::{Fields, Fraction, unit};
use crate::reading::part::{DatePart, InstantPart, OffsetPart, Part, TimePart};
use crate::reading::shown::{date_has, is_count, is_flag, is_shown, offset_has};
use crate::{Date, Time, UnixTime, UtcOffset};

/// The first part of a moment that differs from what was read.
pub(crate) fn contradiction(
    fields: &Fields,
    date: Date,
    time: Time,
    offset: UtcOffset,
) -> Option<Part>
    ensures { result ≡ first_false (spec.moment_has fields.now date time offset) spec.moment_parts }
{
    first_of_moment(
        fields,
        date,
        time,
        offset,
        &[
            Part::Date(DatePart::Day),
            Part::Date(DatePart::Month),
            Part::Date(DatePart::Ordinal),
            Part::Date(DatePart::Weekday),
            Part::Date(DatePart::IsoWeek),
            Part::Date(DatePart::SundayWeek),
            Part::Date(DatePart::MondayWeek),
            Part::Date(DatePart::YearLastTwo),
            Part::Date(DatePart::Century),
            Part::Date(DatePart::Year),
            Part::Date(DatePart::IsoYearLastTwo),
            Part::Date(DatePart::IsoCentury),
            Part::Date(DatePart::IsoYear),
            Part::Time(TimePart::Hour),
            Part::Time(TimePart::Hour12),
            Part::Time(TimePart::Period),
            Part::Time(TimePart::Minute),
            Part::Time(TimePart::Second),
            Part::Time(TimePart::Subsecond),
            Part::Offset(OffsetPart::Hour),
            Part::Offset(OffsetPart::Minute),
            Part::Offset(OffsetPart::Second),
            Part::Instant(InstantPart::Second),
            Part::Instant(InstantPart::Millisecond),
            Part::Instant(InstantPart::Microsecond),
            Part::Instant(InstantPart::Nanosecond),
        ],
    )
}

fn first_of_moment(
    fields: &Fields,
    date: Date,
    time: Time,
    offset: UtcOffset,
    parts: &[Part],
) -> Option<Part>
    ensures { result ≡ first_false (spec.moment_has fields.now date time offset) parts.now }
{
    for part in parts {
        if !moment_has(fields, date, time, offset, *part) {
            return Some(*part);
        }
    }
    None
}

fn moment_has(fields: &Fields, date: Date, time: Time, offset: UtcOffset, part: Part) -> bool
    ensures { result ≡ spec.moment_has fields.now date time offset part }
{
    match part {
        Part::Date(part) => date_has(fields, date, part),
        Part::Time(part) => time_shows(fields, time, part),
        Part::Offset(part) => offset_has(fields, offset, part),
        Part::Instant(part) => stamp_has(fields, UnixTime::of(date, time, offset), part),
    }
}

fn time_shows(fields: &Fields, time: Time, part: TimePart) -> bool
    ensures { result ≡ spec.time_shows fields.now time part }
{
    match part {
        TimePart::Hour => is_count(fields.hour, time.hour as u32),
        TimePart::Hour12 => is_count(fields.hour_12, time.hour_of_twelve() as u32),
        TimePart::Period => is_flag(fields.is_afternoon, time.hour >= 12),
        TimePart::Minute => is_count(fields.minute, time.minute as u32),
        TimePart::Second => is_count(fields.second, time.second as u32),
        TimePart::Subsecond => has_digits(fields.subsecond, time.nanosecond),
    }
}

/// Whether the nanoseconds begin with the digits that were read.
fn has_digits(read: Option<Fraction>, nanosecond: u32) -> bool
    ensures { result ≡ spec.has_digits read nanosecond }
{
    match read {
        Some(fraction) => {
            let unit = unit(fraction.digits);
            fraction.nanosecond / unit == nanosecond as u128 / unit
        }
        None => true,
    }
}

fn stamp_has(fields: &Fields, unix: UnixTime, part: InstantPart) -> bool
    ensures { result ≡ spec.stamp_has fields.now unix part }
{
    let whole = unix.nanoseconds;
    match part {
        InstantPart::Second => is_shown(
            fields.unix_second,
            unix.is_negative,
            whole,
            whole_seconds(unix),
        ),
        InstantPart::Millisecond => is_shown(
            fields.unix_millisecond,
            unix.is_negative,
            whole,
            whole / 1_000_000,
        ),
        InstantPart::Microsecond => is_shown(
            fields.unix_microsecond,
            unix.is_negative,
            whole,
            whole / 1_000,
        ),
        InstantPart::Nanosecond => is_shown(fields.unix_nanosecond, unix.is_negative, whole, whole),
    }
}

/// Whole seconds, rounded down.
fn whole_seconds(unix: UnixTime) -> u128
    ensures { result ≡ spec.whole_seconds unix }
{
    let seconds = unix.nanoseconds / 1_000_000_000;
    if unix.is_negative && unix.nanoseconds % 1_000_000_000 > 0 {
        seconds + 1
    } else {
        seconds
    }
}
