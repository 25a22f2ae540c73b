//! The date of a day that is counted from 1 January of the year -1,000,000 on.

ghost use Rattle.std.specs.Prelude.{◌≡◌, ◌+◌, ◌<◌, ◌≤◌};
ghost use Rattle.timefd_date_moment.specs.Calendar as spec;
ghost use Rattle.timefd_date_moment.specs.Moments.{day_number};

use crate::calendar::{days_before_year, days_in_month};
use crate::date::Date;

/// The date that is this many days after 1 January of the year -1,000,000.
#[tactic(auto, using(crate::proofs::CalendarLemmas::year_long))]
pub(crate) fn date_of_day(number: u32) -> Date
    requires first { 366 ≤ number }
    requires last { number ≤ 730484999 }
    ensures { day_number result ≡ number }
{
    let years = year_of_day(number);
    let ordinal = (number - days_before_year(years) + 1) as u16;
    let (month, day) = month_and_day(years, ordinal);
    Date { years, month, day }
}

/// The year that a day is in. The search begins at most a few years before it.
fn year_of_day(number: u32) -> u32
    requires first { 366 ≤ number }
    requires last { number ≤ 730484999 }
    ensures from { spec.days_of_years result ≤ number }
    ensures until { number < spec.days_of_years result + spec.days_in_year result }
    ensures first { 1 ≤ result }
    ensures last { result ≤ 1999999 }
{
    let mut year = (number as u64 * 400 / 146_097 - 1) as u32;
    'years: while days_before_year(year + 1) <= number {
        year += 1;
    }
    year
}

/// The month, and the day of the month, with this ordinal in the year.
fn month_and_day(year: u32, ordinal: u16) -> (u8, u8)
    requires first { 1 ≤ ordinal }
    requires last { ordinal ≤ spec.days_in_year year }
    ensures ordinal { spec.ordinal year result.0 result.1 ≡ ordinal }
    ensures month { (1 ≤ result.0) × (result.0 ≤ 12) }
    ensures day { (1 ≤ result.1) × (result.1 ≤ spec.days_in_month year result.0) }
{
    let mut month = 1;
    let mut day = ordinal;
    'months: while day > days_in_month(year, month) as u16 {
        day -= days_in_month(year, month) as u16;
        month += 1;
    }
    (month, day as u8)
}
