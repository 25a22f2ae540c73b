//! The years that a date with what was read is sought in, counted from the year -1,000,000.

ghost use Rattle.std.specs.Prelude.{◌≡◌, ◌≤◌, Some, min};
ghost use Rattle.timefd_date_moment.specs.Moments.{is_before_zero, magnitude};
ghost use Rattle.timefd_format.specs.Completing.Years as spec;
ghost use Rattle.timefd_date_moment.specs.Reading.Shown as shown;

use crate::completing::fields::year_magnitude;
use timefd_date_moment::fields::{Fields, Signed};

/// The first year: the one before the year or the century that was read. Without any it is 2000.
pub(crate) fn first_year(fields: &Fields) -> u32
    ensures value { result ≡ spec.first_year fields.now }
    ensures within { result ≤ 2000000 }
{
    match (
        fields.year,
        fields.century,
        fields.iso_year,
        fields.iso_century,
    ) {
        (Some(year), _, _, _) => before_those_of(year, 1),
        (None, Some(century), _, _) => before_those_of(century, 100),
        (None, None, Some(year), _) => before_those_of(year, 1),
        (None, None, None, Some(century)) => before_those_of(century, 100),
        (None, None, None, None) => 1_002_000,
    }
}

/// The year before those of a number of years or of centuries.
fn before_those_of(number: Signed, unit: u32) -> u32
    requires { unit ≤ 100 }
    ensures value { result ≡ spec.before_those_of number unit }
    ensures within { result ≤ 2000000 }
{
    let years = at_most_a_million(number.magnitude) * unit;
    if number.is_negative {
        1_000_000 - at_most_a_million((years + unit) as u128)
    } else {
        999_999 + at_most_a_million(years as u128)
    }
}

fn at_most_a_million(number: u128) -> u32
    ensures value { result ≡ min number 1000000 }
    ensures within { result ≤ 1000000 }
{
    if number < 1_000_000 {
        number as u32
    } else {
        1_000_000
    }
}

/// Whether the year has what was read of it.
pub(crate) fn fits(fields: &Fields, years: u32) -> bool
    ensures { result ≡ spec.fits fields.now years }
{
    is_year(fields.year, years)
        && is_century(fields.century, years)
        && is_last_two(fields.year_last_two, years)
}

fn is_year(read: Option<Signed>, years: u32) -> bool
    ensures { result ≡ shown.is_year read years }
{
    match read {
        Some(read) => is_signed(read, years, year_magnitude(years)),
        None => true,
    }
}

fn is_century(read: Option<Signed>, years: u32) -> bool
    ensures { result ≡ shown.is_century read years }
{
    match read {
        Some(read) => is_signed(read, years, year_magnitude(years) / 100),
        None => true,
    }
}

/// Whether a part of a year is the number, with the sign of the year. The year 0 may have either sign.
fn is_signed(read: Signed, years: u32, part: u32) -> bool
    ensures { result ≡ shown.is_shown (Some read) (is_before_zero years) (magnitude years) part }
{
    let has_sign = years == 1_000_000 || read.is_negative == (years < 1_000_000);
    read.magnitude == part as u128 && has_sign
}

fn is_last_two(read: Option<u16>, years: u32) -> bool
    ensures { result ≡ shown.is_last_two read years }
{
    match read {
        Some(read) => read as u32 == year_magnitude(years) % 100,
        None => true,
    }
}
