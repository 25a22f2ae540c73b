//! The date of a day. Days are counted from 1 January of the year -1,000,000.

ghost use Rattle.std.specs.Prelude.{◌≡◌, ◌≤◌};
ghost use Rattle.timefd_date_moment.specs.Calendar.{days_of_years};
ghost use Rattle.timefd_date_moment.specs.Moments.{day_number};
ghost use Rattle.timefd_date_moment.specs.Reading.Dates.{Selects};
ghost use Rattle.timefd_date_moment.specs.Reading.Days as spec;

use crate::{Date, Moment, UnixTime};

/// The number of days before a year.
#[tactic(auto, using(crate::proofs::CalendarLemmas::days_before))]
fn first_day(years: u32) -> u32
    requires { years ≤ 2000000 }
    ensures value { result ≡ days_of_years years }
    ensures within { result ≤ 740000000 }
{
    365 * years + (years + 3) / 4 + (years + 399) / 400 - (years + 99) / 100
}

/// The day with this number in the year, counted from 1.
pub(crate) fn ordinal_day(years: u32, ordinal: u16) -> u32
    requires { years ≤ 2000000 }
    ensures value { result ≡ spec.ordinal_day years ordinal }
    ensures within { result ≤ 800000000 }
{
    (first_day(years) + ordinal as u32).saturating_sub(1)
}

/// The day that is `weekday` days after the Monday of an ISO 8601 week.
pub(crate) fn iso_week_day(years: u32, week: u16, weekday: u16) -> u32
    requires { years ≤ 2000000 }
    ensures value { result ≡ spec.iso_week_day years week weekday }
    ensures within { result ≤ 800000000 }
{
    let fourth = first_day(years) + 3;
    let first_monday = fourth - (fourth + 5) % 7;
    (first_monday + 7 * week as u32 + weekday as u32).saturating_sub(7)
}

/// The day that is `weekday` days after Monday, in a week that begins on Sunday. The first Sunday
/// of the year begins week 1.
pub(crate) fn sunday_week_day(years: u32, week: u16, weekday: u16) -> u32
    requires { years ≤ 2000000 }
    ensures value { result ≡ spec.sunday_week_day years week weekday }
    ensures within { result ≤ 800000000 }
{
    let first = first_day(years);
    let first_sunday = first + 6 - (first + 5) % 7;
    (first_sunday + 7 * week as u32 + (weekday as u32 + 1) % 7).saturating_sub(7)
}

/// The day that is `weekday` days after Monday, in a week that begins on Monday. The first Monday
/// of the year begins week 1.
pub(crate) fn monday_week_day(years: u32, week: u16, weekday: u16) -> u32
    requires { years ≤ 2000000 }
    ensures value { result ≡ spec.monday_week_day years week weekday }
    ensures within { result ≤ 800000000 }
{
    let first = first_day(years);
    let first_monday = first + (7 - (first + 5) % 7) % 7;
    (first_monday + 7 * week as u32 + weekday as u32).saturating_sub(7)
}

/// The start of a day in UTC.
fn midnight(day: u32) -> UnixTime
    requires { day ≤ 800000000 }
    ensures { result ≡ spec.midnight day }
{
    const UNIX_DAY: u32 = 365_962_028;
    const DAY: u128 = 86_400 * 1_000_000_000;
    if day < UNIX_DAY {
        UnixTime {
            is_negative: true,
            nanoseconds: (UNIX_DAY - day) as u128 * DAY,
        }
    } else {
        UnixTime {
            is_negative: false,
            nanoseconds: (day - UNIX_DAY) as u128 * DAY,
        }
    }
}

/// The date of a day. `None` if its year is not from -999,999 to 999,999.
pub(crate) fn date_of_day(day: u32) -> Option<Date>
    requires { day ≤ 800000000 }
    ensures { Selects (λ d. day_number d ≡ day) result }
{
    match Moment::from_unix(midnight(day)) {
        Ok(moment) => moment.date,
        Err(_) => None,
    }
}
