//! The date that fields determine, alone and with the time of day.

ghost use Rattle.std.specs.Prelude.{◌≡◌, ◌≤◌, ◌+ℤ◌, pos, Ok};
ghost use Rattle.timefd_date_moment.specs.Reading.DateTimes.{IsDateTimeOf};
ghost use Rattle.timefd_date_moment.specs.Reading.Dates.{IsDateByParts, Selects};
ghost use Rattle.timefd_date_moment.specs.Reading.Values.{IsDateOf};
ghost use Rattle.timefd_date_moment.specs.Reading.Ways.{WayHas, date_way, way_years};
ghost use Rattle.timefd_date_moment.specs.declared.reading.way.DateWay.TheVariants as by;

use crate::fields::Fields;
use crate::reading::day::{
    date_of_day, iso_week_day, monday_week_day, ordinal_day, sunday_week_day,
};
use crate::reading::error::ValueError;
use crate::reading::fault::way_fault;
use crate::reading::part::Part;
use crate::reading::shown::date_contradiction;
use crate::reading::stamp::instant_read;
use crate::reading::stamped::of_stamp;
use crate::reading::times::time;
use crate::reading::way::{DateWay, date_way, has_way};
use crate::reading::year::at_most;
use crate::{Date, Time};

/// The date that agrees with all that was read. A date is determined by year, month and day; by
/// year and ordinal; by ISO year, ISO week and weekday; or by year, week from Sunday or from
/// Monday, and weekday. A century with the last two digits of a year counts as the year. With a
/// timestamp, the date is that of the [`moment`](crate::reading::moment).
///
/// An `Err` says which part was not read, or that no date agrees with all that was read.
/// Corresponds to `Date::try_from` for `Parsed` in `time`.
pub fn date(fields: &Fields) -> Result<Date, ValueError>
    ensures { IsDateOf fields.now result }
{
    match instant_read(fields) {
        Some(unix) => match of_stamp(fields, unix) {
            Ok(stamped) => Ok(stamped.date),
            Err(error) => Err(error),
        },
        None => date_by_parts(fields),
    }
}

/// The date and the time of day that agree with all that was read. An `Err` is that of the date, or
/// else that of the time. Corresponds to `PrimitiveDateTime::try_from` for `Parsed` in `time`.
pub fn date_time(fields: &Fields) -> Result<(Date, Time), ValueError>
    ensures { IsDateTimeOf fields.now result }
{
    match date(fields) {
        Ok(date) => match time(fields) {
            Ok(time) => Ok((date, time)),
            Err(error) => Err(error),
        },
        Err(error) => Err(error),
    }
}

/// The date that the date's own fields determine, without a timestamp.
pub(crate) fn date_by_parts(fields: &Fields) -> Result<Date, ValueError>
    ensures { IsDateByParts fields.now result }
{
    match date_way(fields) {
        Ok(way) => compared(fields, way),
        Err(part) => Err(ValueError::Missing(Part::Date(part))),
    }
}

fn compared(fields: &Fields, way: DateWay) -> Result<Date, ValueError>
    requires years { way_years way ≤ 2000000 }
    requires way { date_way fields.now ≡ Ok way }
    ensures { IsDateByParts fields.now result }
{
    match date_in(way) {
        Some(date) => match date_contradiction(fields, date) {
            None => Ok(date),
            Some(part) => {
                if has_way(way, date) {
                    Err(ValueError::Contradiction(Part::Date(part)))
                } else {
                    Err(ValueError::Contradiction(Part::Date(way_fault(fields, way))))
                }
            }
        },
        None => Err(ValueError::Contradiction(Part::Date(way_fault(fields, way)))),
    }
}

/// The date with the fields of a way. `None` if there is none.
fn date_in(way: DateWay) -> Option<Date>
    requires { way_years way ≤ 2000000 }
    ensures { Selects (WayHas way) result }
{
    match way {
        DateWay::Calendar { years, month, day } => calendar_date(years, month, day),
        DateWay::Ordinal { years, ordinal } => date_of_day(ordinal_day(years, ordinal)),
        DateWay::IsoWeek {
            years,
            week,
            weekday,
        } => date_of_day(iso_week_day(years, week, weekday)),
        DateWay::SundayWeek {
            years,
            week,
            weekday,
        } => date_of_day(sunday_week_day(years, week, weekday)),
        DateWay::MondayWeek {
            years,
            week,
            weekday,
        } => date_of_day(monday_week_day(years, week, weekday)),
    }
}

fn calendar_date(years: u32, month: u16, day: u16) -> Option<Date>
    requires { years ≤ 2000000 }
    ensures { Selects (WayHas (by.Calendar years month day)) result }
{
    let month = at_most(month as u128, 255) as u8;
    let day = at_most(day as u128, 255) as u8;
    match Date::from_calendar_date(signed_year(years), month, day) {
        Ok(date) => Some(date),
        Err(_) => None,
    }
}

fn signed_year(years: u32) -> i32
    requires { years ≤ 2000000 }
    ensures { result +ℤ pos 1000000 ≡ pos years }
{
    years as i32 - 1_000_000
}
