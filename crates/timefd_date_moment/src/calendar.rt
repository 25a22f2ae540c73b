//! The lengths of months and years. Years are counted from the year -1,000,000, which begins a
//! period of 400 years.

ghost use Rattle.std.specs.Prelude.{◌≡◌, ◌-◌, ◌*◌, ◌≤◌};
ghost use Rattle.timefd_date_moment.specs.Calendar as spec;

pub(crate) fn is_leap(year: u32) -> bool
    ensures { result ≡ spec.is_leap year }
{
    year % 4 == 0 && (year % 100 != 0 || year % 400 == 0)
}

pub(crate) fn days_in_year(year: u32) -> u16
    ensures { result ≡ spec.days_in_year year }
{
    if is_leap(year) { 366 } else { 365 }
}

pub(crate) fn days_in_month(year: u32, month: u8) -> u8
    ensures { result ≡ spec.days_in_month year month }
{
    if month == 2 {
        if is_leap(year) { 29 } else { 28 }
    } else if month == 4 || month == 6 || month == 9 || month == 11 {
        30
    } else {
        31
    }
}

/// The number of days of the year before a month.
#[tactic(auto, unfolding(crate::specs::Calendar::days_of_months))]
pub(crate) fn days_before_month(year: u32, month: u8) -> u16
    requires first { 1 ≤ month }
    requires last { month ≤ 12 }
    ensures { result ≡ spec.days_of_months year (month - 1) }
{
    let mut days = 0u16;
    for earlier in 1..month {
        days += days_in_month(year, earlier) as u16;
    }
    days
}

/// The number of days before a year.
#[tactic(auto, using(crate::proofs::CalendarLemmas::days_before))]
pub(crate) fn days_before_year(year: u32) -> u32
    requires { year ≤ 2000000 }
    ensures value { result ≡ spec.days_of_years year }
    ensures within { result ≤ 366 * year }
{
    365 * year + (year + 3) / 4 + (year + 399) / 400 - (year + 99) / 100
}
