//! Days of the calendar.

ghost use Rattle.std.specs.Prelude.{◌≡◌, ◌≤◌, ◌+ℤ◌, pos, None, Some, IfErr, IfOk};
ghost use Rattle.timefd_date_moment.specs.Calendar.{IsDay, counted};
ghost use Rattle.timefd_date_moment.specs.Faults.{date_fault};

use crate::calendar::{days_before_month, days_before_year, days_in_month, days_in_year};
use crate::component_range::ComponentRange;
use crate::weekday::Weekday;

/// A day of the Gregorian calendar, in the years -999,999 to 999,999.
#[derive(Debug, Clone, Copy, PartialEq, Eq)]
pub struct Date {
    /// The number of years after the year -1,000,000.
    pub years: u32,
    /// The month, from 1.
    pub month: u8,
    /// The day of the month, from 1.
    pub day: u8,
    pub ghost exists: { IsDay years month day },
}

impl Date {
    ghost use Rattle.timefd_date_moment.specs.Moments as spec;
    ghost use Rattle.timefd_date_moment.specs.Weekdays.{days_after_monday};

    /// The date of these numbers. An `Err` names the first one that is out of range.
    #[inline(always)]
    pub fn from_calendar_date(year: i32, month: u8, day: u8) -> Result<Date, ComponentRange>
        ensures found { IfOk result (λ d. (d.years ≡ counted year) × (d.month ≡ month)
            × (d.day ≡ day)) }
        ensures in_range { IfOk result (λ d. date_fault year month day ≡ None) }
        ensures fault { IfErr result (λ e. date_fault year month day ≡ Some e) }
    {
        if year.unsigned_abs() > 999_999 {
            return Err(ComponentRange::Year);
        }
        if month == 0 || month > 12 {
            return Err(ComponentRange::Month);
        }
        let years = (year + 1_000_000) as u32;
        if day == 0 || day > days_in_month(years, month) {
            return Err(ComponentRange::Day);
        }
        Ok(Date { years, month, day })
    }

    /// The year. Years before the year 0 are negative.
    pub fn year(self) -> i32
        ensures { result +ℤ pos 1000000 ≡ pos self.years }
    {
        self.years as i32 - 1_000_000
    }

    /// The year without its sign.
    pub fn year_magnitude(self) -> u32
        ensures { result ≡ spec.magnitude self.years }
    {
        if self.years < 1_000_000 {
            1_000_000 - self.years
        } else {
            self.years - 1_000_000
        }
    }

    /// The number of the day in the year, from 1.
    #[tactic(auto, using(crate::proofs::CalendarLemmas::months_fit))]
    pub fn ordinal(self) -> u16
        ensures value { result ≡ spec.date_ordinal self }
        ensures first { 1 ≤ result }
        ensures last { result ≤ 366 }
    {
        days_before_month(self.years, self.month) + self.day as u16
    }

    /// The number of days from 1 January of the year -1,000,000 to this date.
    pub(crate) fn day_number(self) -> u32
        ensures value { result ≡ spec.day_number self }
        ensures within { result ≤ 740000000 }
    {
        days_before_year(self.years) + (self.ordinal() - 1) as u32
    }

    /// The number of days after a Monday, from 0.
    pub fn number_days_from_monday(self) -> u8
        ensures value { result ≡ spec.days_from_monday self }
        ensures within { result ≤ 6 }
    {
        ((self.day_number() + 5) % 7) as u8
    }

    /// The day of the week.
    pub fn weekday(self) -> Weekday
        ensures { days_after_monday result ≡ spec.days_from_monday self }
    {
        Weekday::after_monday(self.number_days_from_monday())
    }

    /// The number of days after a Sunday, from 0.
    pub fn number_days_from_sunday(self) -> u8
        ensures value { result ≡ spec.days_from_sunday self }
        ensures within { result ≤ 6 }
    {
        (self.number_days_from_monday() + 1) % 7
    }

    /// The ordinal of the week's Thursday, plus seven. It is counted in the year of this date, even
    /// if that Thursday is in another year.
    fn thursday(self) -> u16
        ensures value { result ≡ spec.thursday self }
        ensures low { 5 ≤ result }
        ensures high { result ≤ 376 }
    {
        self.ordinal() + 10 - self.number_days_from_monday() as u16
    }

    /// The ISO 8601 week-numbering year, counted from the year -1,000,000.
    pub fn iso_years(self) -> u32
        ensures { result ≡ spec.iso_years self }
    {
        let thursday = self.thursday();
        if thursday <= 7 {
            self.years - 1
        } else if days_in_year(self.years) + 7 < thursday {
            self.years + 1
        } else {
            self.years
        }
    }

    /// The week of ISO 8601, from 1.
    pub fn iso_week(self) -> u8
        ensures { result ≡ spec.iso_week self }
    {
        let thursday = self.thursday();
        if thursday <= 7 {
            ((thursday + days_in_year(self.years - 1) - 8) / 7 + 1) as u8
        } else if days_in_year(self.years) + 7 < thursday {
            1
        } else {
            ((thursday - 8) / 7 + 1) as u8
        }
    }

    /// The week of the year, from 0. Weeks begin on Sunday.
    pub fn sunday_based_week(self) -> u8
        ensures { result ≡ spec.sunday_week self }
    {
        ((self.ordinal() + 6 - self.number_days_from_sunday() as u16) / 7) as u8
    }

    /// The week of the year, from 0. Weeks begin on Monday.
    pub fn monday_based_week(self) -> u8
        ensures { result ≡ spec.monday_week self }
    {
        ((self.ordinal() + 6 - self.number_days_from_monday() as u16) / 7) as u8
    }
}
