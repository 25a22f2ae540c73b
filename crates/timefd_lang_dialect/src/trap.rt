//! What in a format often means something other than its writer believes.

ghost use Rattle.std.specs.Prelude.{◌≡◌};
ghost use Rattle.timefd_lang_dialect.specs.TrapWords as spec;

/// What in a format often means something other than its writer believes.
#[derive(Debug, Clone, Copy, PartialEq, Eq)]
pub enum Trap {
    /// The year of weeks beside a month, as in Java's `YYYY-MM-dd`.
    WeekYearBesideMonth,
    /// The day of the year beside a month, as in Java's `MM/DD` and moment's `MMM DDDD`.
    DayOfYearBesideMonth,
    /// An hour of twelve without AM or PM, as in Java's `hh:mm`.
    HourWithoutPeriod,
    /// A minute beside a day with no hour before it, as in Java's `yyyy-mm-dd`.
    MinuteBesideDay,
    /// A second right before a minute, as in Go's `05:04`.
    SecondBeforeMinute,
    /// A weekday of two letters, such as moment's `dd`.
    TwoLetterWeekday,
    /// A weekday's number, where 0 is Sunday, such as `%w`.
    WeekdayFromZero,
    /// What makes chrono panic when it writes, such as `%-b`.
    Panic,
    /// The last two digits of a year, and no century. It matters for reading.
    YearWithoutCentury,
}

impl Trap {
    /// The name of the trap, such as `week-year-beside-month`. It stays the same whatever the
    /// sentence says.
    pub fn name(self) -> &'static str
        ensures { result.now ≡ spec.name self }
    {
        match self {
            Trap::WeekYearBesideMonth => "week-year-beside-month",
            Trap::DayOfYearBesideMonth => "day-of-year-beside-month",
            Trap::HourWithoutPeriod => "hour-without-period",
            Trap::MinuteBesideDay => "minute-beside-day",
            Trap::SecondBeforeMinute => "second-before-minute",
            Trap::TwoLetterWeekday => "two-letter-weekday",
            Trap::WeekdayFromZero => "weekday-from-zero",
            Trap::Panic => "panic",
            Trap::YearWithoutCentury => "year-without-century",
        }
    }

    /// What is reported about the trap, as a sentence without a capital and a full stop.
    pub fn sentence(self) -> &'static str
        ensures { result.now ≡ spec.sentence self }
    {
        match self {
            Trap::WeekYearBesideMonth => "the year of weeks is another one around New Year",
            Trap::DayOfYearBesideMonth => "it counts the days of the year, and not of the month",
            Trap::HourWithoutPeriod => "the hour runs from 1 to 12, and nothing writes AM or PM",
            Trap::MinuteBesideDay => "it is the minute, and not the month",
            Trap::SecondBeforeMinute => "the second comes before the minute",
            Trap::TwoLetterWeekday => "it is a weekday of two letters, and not the day",
            Trap::WeekdayFromZero => "it counts weekdays from 0, which is Sunday",
            Trap::Panic => "chrono panics where it writes by this format",
            Trap::YearWithoutCentury => "nothing gives the century of the year",
        }
    }

    /// What to do about it, in a sentence.
    pub fn cure(self) -> &'static str
        ensures { result.now ≡ spec.cure self }
    {
        match self {
            Trap::WeekYearBesideMonth => "Write the year of the calendar.",
            Trap::DayOfYearBesideMonth => "Write the day of the month, or leave the month out.",
            Trap::HourWithoutPeriod => "Write the hour of 24, or add AM and PM.",
            Trap::MinuteBesideDay => "Write the month.",
            Trap::SecondBeforeMinute => "Write the minute before the second.",
            Trap::TwoLetterWeekday => "Write the day of the month in capitals, or the short name.",
            Trap::WeekdayFromZero => "Count from 0, or write the weekday from 1, which is Monday.",
            Trap::Panic => "Write a directive that chrono has.",
            Trap::YearWithoutCentury => "Write the year with four digits.",
        }
    }
}
