//! Conversions of dates. `jiff` has the years -9999 to 9999.

ghost use Rattle.std.specs.Prelude.{◌≡◌, ◌≤◌, ◌↔◌, IfErr, IfOk, IsOk};
ghost use Rattle.timefd_format.specs.FromJiff.Same.{IsSameDate};

use jiff::civil;
use jiff_core::Error;
use jiff_core::error::Bound;
use timefd_date_moment::Date;

/// Converts a date from `jiff`.
pub fn date_from_jiff(date: civil::Date) -> Date
    ensures { IsSameDate date result }
{
    plain_date(date.to_plain())
}

/// Converts a plain date from `jiff_core`.
#[tactic(auto, using(crate::proofs::JiffLemmas::LeapLemmas::day_in))]
pub(crate) fn plain_date(date: jiff_core::civil::Date) -> Date
    ensures { IsSameDate date result }
{
    Date {
        years: (date.year as i32 + 1_000_000) as u32,
        month: date.month,
        day: date.day,
    }
}

/// Converts a date to `jiff`. An `Err` says that its year is not from -9999 to 9999.
#[tactic(auto, using(crate::proofs::JiffLemmas::LeapLemmas::day_back))]
pub fn date_to_jiff(date: Date) -> Result<civil::Date, Error>
    ensures value { IfOk result (λ d. IsSameDate d date) }
    ensures succeeds { IsOk result ↔ ((990001 ≤ date.years) × (date.years ≤ 1009999)) }
    ensures bound { IfErr result (λ e. e ≡ Error.Range Bound.Year) }
{
    if date.years < 990_001 || date.years > 1_009_999 {
        return Err(Error::Range(Bound::Year));
    }
    Ok(civil::Date::from_plain(jiff_core::civil::Date {
        year: (date.years as i32 - 1_000_000) as i16,
        month: date.month,
        day: date.day,
    }))
}
