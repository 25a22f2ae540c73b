//! Fields made of those that were read.

ghost use Rattle.std.specs.Prelude.{◌≡◌};
ghost use Rattle.timefd_date_moment.specs.Moments.{magnitude};
ghost use Rattle.timefd_format.specs.Completing.Filled as spec;

use timefd_date_moment::fields::{Fields, NO_FIELDS, Signed};

/// What was read, without a timestamp. Of the year, the month and the day, what wasn't read is as given; the
/// year is counted from the year -1,000,000.
pub(crate) fn filled(fields: &Fields, years: u32, month: u16, day: u16) -> Fields
    ensures { result ≡ spec.filled fields.now years month day }
{
    Fields {
        year: signed_or(fields.year, signed_year(years)),
        month: count_or(fields.month, month),
        day: count_or(fields.day, day),
        unix_second: None,
        unix_millisecond: None,
        unix_microsecond: None,
        unix_nanosecond: None,
        ..*fields
    }
}

/// What was read of the time of day and of the offset.
pub(crate) fn clock_fields(fields: &Fields) -> Fields
    ensures { result ≡ spec.clock_fields fields.now }
{
    Fields {
        hour: fields.hour,
        hour_12: fields.hour_12,
        is_afternoon: fields.is_afternoon,
        minute: fields.minute,
        second: fields.second,
        subsecond: fields.subsecond,
        offset_hour: fields.offset_hour,
        offset_minute: fields.offset_minute,
        offset_second: fields.offset_second,
        ..NO_FIELDS
    }
}

fn signed_year(years: u32) -> Signed
    ensures { result ≡ spec.signed_year years }
{
    Signed {
        is_negative: years < 1_000_000,
        magnitude: year_magnitude(years) as u128,
    }
}

/// The year without its sign, of a year counted from the year -1,000,000.
pub(crate) fn year_magnitude(years: u32) -> u32
    ensures { result ≡ magnitude years }
{
    if years < 1_000_000 {
        1_000_000 - years
    } else {
        years - 1_000_000
    }
}

fn signed_or(read: Option<Signed>, other: Signed) -> Option<Signed>
    ensures { result ≡ spec.read_or read other }
{
    match read {
        Some(read) => Some(read),
        None => Some(other),
    }
}

fn count_or(read: Option<u16>, other: u16) -> Option<u16>
    ensures { result ≡ spec.read_or read other }
{
    match read {
        Some(read) => Some(read),
        None => Some(other),
    }
}
