//! Dates that don't exist, such as 31 February.

ghost use Rattle.std.specs.Prelude.{◌≡◌, ◌≤◌, IfOk, string_bytes};
ghost use Rattle.timefd_format.specs.Absent as spec;

use std::alloc::{AllocError, Global};
use timefd_date_moment::fields::{Fields, Signed};
use timefd_date_moment::{ComponentRange, Date};

/// A day that its month doesn't have: day 31 of February 2026, for example.
#[derive(Clone, Copy)]
pub struct AbsentDay {
    /// The year. Years before the year 0 are negative.
    pub year: i32,
    /// The month, from 1.
    pub month: u8,
    /// The day.
    pub day: u8,
}

/// The date in the fields, if its month has no such day. `None` if the month has that day, or if year, month
/// and day weren't all read.
pub fn absent_day(fields: &Fields) -> Option<AbsentDay>
    ensures { result ≡ spec.absent_day fields.now }
{
    match (fields.year, fields.month, fields.day) {
        (Some(year), Some(month), Some(day)) => absent_of(year, month, day),
        _ => None,
    }
}

// The date of these numbers, if its month has no such day. `None` also if they are larger than those of any
// date.
fn absent_of(year: Signed, month: u16, day: u16) -> Option<AbsentDay>
    ensures { result ≡ spec.absent_of year month day }
{
    if year.magnitude > 999_999 || month > 255 || day > 255 {
        return None;
    }
    absent_if(signed_year(year), month as u8, day as u8)
}

fn signed_year(year: Signed) -> i32
    requires { year.magnitude ≤ 999999 }
    ensures { result ≡ spec.signed_year year }
{
    if year.is_negative {
        -(year.magnitude as i32)
    } else {
        year.magnitude as i32
    }
}

fn absent_if(year: i32, month: u8, day: u8) -> Option<AbsentDay>
    ensures { result ≡ spec.absent_if year month day }
{
    match Date::from_calendar_date(year, month, day) {
        Ok(_) => None,
        Err(fault) => match fault {
            ComponentRange::Day => Some(AbsentDay { year, month, day }),
            _ => None,
        },
    }
}

/// `February 2026 has no day 31`. An `Err` says that memory ran out.
pub fn absent_sentence(alloc: Global, absent: AbsentDay) -> Result<String, AllocError>
    ensures { IfOk result (λ text. string_bytes text ≡ spec.absent_sentence absent) }
{
    let (month, year, day) = (month_name(absent.month), absent.year, absent.day);
    format!(in alloc; "{month} {year} has no day {day}")
}

// The name of a month from 1.
fn month_name(month: u8) -> &'static str
    ensures { result.now ≡ spec.month_name month }
{
    match month {
        1 => "January",
        2 => "February",
        3 => "March",
        4 => "April",
        5 => "May",
        6 => "June",
        7 => "July",
        8 => "August",
        9 => "September",
        10 => "October",
        11 => "November",
        _ => "December",
    }
}
