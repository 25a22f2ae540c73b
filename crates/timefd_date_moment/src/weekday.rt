//! Days of the week.

ghost use Rattle.std.specs.Prelude.{◌≡◌, ◌≤◌, ◌+◌, ◌%◌};

use std::fmt;

/// A day of the week.
#[derive(Debug, Clone, Copy, PartialEq, Eq)]
pub enum Weekday {
    Monday,
    Tuesday,
    Wednesday,
    Thursday,
    Friday,
    Saturday,
    Sunday,
}

impl Weekday {
    ghost use Rattle.timefd_date_moment.specs.Weekdays as spec;

    /// The weekday this many days after Monday.
    pub(crate) fn after_monday(days: u8) -> Weekday
        requires { days ≤ 6 }
        ensures { spec.days_after_monday result ≡ days }
    {
        match days {
            0 => Weekday::Monday,
            1 => Weekday::Tuesday,
            2 => Weekday::Wednesday,
            3 => Weekday::Thursday,
            4 => Weekday::Friday,
            5 => Weekday::Saturday,
            _ => Weekday::Sunday,
        }
    }

    /// The number of days after Monday, from 0.
    pub fn number_days_from_monday(self) -> u8
        ensures value { result ≡ spec.days_after_monday self }
        ensures within { result ≤ 6 }
    {
        match self {
            Weekday::Monday => 0,
            Weekday::Tuesday => 1,
            Weekday::Wednesday => 2,
            Weekday::Thursday => 3,
            Weekday::Friday => 4,
            Weekday::Saturday => 5,
            Weekday::Sunday => 6,
        }
    }

    /// The number of days after Sunday, from 0.
    pub fn number_days_from_sunday(self) -> u8
        ensures value { result ≡ (spec.days_after_monday self + 1) % 7 }
        ensures within { result ≤ 6 }
    {
        (self.number_days_from_monday() + 1) % 7
    }

    /// The number of the day in the week. Monday is 1.
    pub fn number_from_monday(self) -> u8
        ensures { result ≡ spec.days_after_monday self + 1 }
    {
        self.number_days_from_monday() + 1
    }

    /// The number of the day in the week. Sunday is 1.
    pub fn number_from_sunday(self) -> u8
        ensures { result ≡ (spec.days_after_monday self + 1) % 7 + 1 }
    {
        self.number_days_from_sunday() + 1
    }

    /// The next day.
    pub fn next(self) -> Weekday
        ensures { spec.days_after_monday result ≡ (spec.days_after_monday self + 1) % 7 }
    {
        Weekday::after_monday((self.number_days_from_monday() + 1) % 7)
    }

    /// The day before.
    pub fn previous(self) -> Weekday
        ensures { spec.days_after_monday result ≡ (spec.days_after_monday self + 6) % 7 }
    {
        Weekday::after_monday((self.number_days_from_monday() + 6) % 7)
    }
}

impl fmt::Display for Weekday {
    ghost use Rattle.std.specs.Prelude.{Some};
    ghost use Rattle.timefd_date_moment.specs.Weekdays.{name};

    ghost output = { λ weekday. Some (name weekday) };

    fn fmt<W: fmt::Write>(&self, f: &mut fmt::Formatter<W>) -> fmt::Result {
        match self {
            Weekday::Monday => write!(f, "Monday"),
            Weekday::Tuesday => write!(f, "Tuesday"),
            Weekday::Wednesday => write!(f, "Wednesday"),
            Weekday::Thursday => write!(f, "Thursday"),
            Weekday::Friday => write!(f, "Friday"),
            Weekday::Saturday => write!(f, "Saturday"),
            Weekday::Sunday => write!(f, "Sunday"),
        }
    }
}
