//! The warnings, by their codes.

ghost use Rattle.std.specs.Prelude.{◌≡◌};
ghost use Rattle.timefd_lang_warnings.specs.Codes as spec;

/// What looks like a mistake in a valid description.
#[derive(Debug, Clone, Copy, PartialEq, Eq)]
pub enum Warning {
    /// It has no component, so every moment is written the same.
    NoComponent,
    /// Another language reads a component where it has text.
    OtherLanguage,
    /// The next component after an hour is a month, and there is no minute.
    MonthForMinute,
    /// The next component after a year is a minute, and there is no month.
    MinuteForMonth,
    /// A 12-hour hour, and neither a period nor a 24-hour hour.
    HourWithoutPeriod,
    /// A period and a 24-hour hour, and no 12-hour hour.
    PeriodWithHour24,
    /// A fraction of a second, and no second.
    SubsecondWithoutSecond,
    /// An ISO week and a calendar year, and no ISO year.
    WeekWithCalendarYear,
    /// A month or a day and an ISO year, and no calendar year.
    DateWithIsoYear,
    /// Something is shown twice.
    ShownTwice,
    /// Parts of a date that don't determine one.
    UndeterminedDate,
    /// A number of varying width, and a digit may come next.
    UnsettledWidth,
    /// A year that may have more than four digits, and a digit may come next.
    UnsettledYear,
    /// A component that stands for another, more modern one.
    DeprecatedComponent,
}

impl Warning {
    /// The warning's name, for example `no-component`. It stays the same even if the sentence
    /// changes.
    pub fn name(self) -> &'static str
        ensures { result.now ≡ spec.name_of self }
    {
        match self {
            Warning::NoComponent => "no-component",
            Warning::OtherLanguage => "other-language",
            Warning::MonthForMinute => "month-for-minute",
            Warning::MinuteForMonth => "minute-for-month",
            Warning::HourWithoutPeriod => "hour-without-period",
            Warning::PeriodWithHour24 => "period-with-24-hours",
            Warning::SubsecondWithoutSecond => "subsecond-without-second",
            Warning::WeekWithCalendarYear => "week-with-calendar-year",
            Warning::DateWithIsoYear => "date-with-iso-year",
            Warning::ShownTwice => "shown-twice",
            Warning::UndeterminedDate => "undetermined-date",
            Warning::UnsettledWidth => "unsettled-width",
            Warning::UnsettledYear => "unsettled-year",
            Warning::DeprecatedComponent => "deprecated-component",
        }
    }

    /// The sentence that is reported about a description with this warning.
    pub fn sentence(self) -> &'static str
        ensures { result.now ≡ spec.sentence_of self }
    {
        match self {
            Warning::NoComponent => "no component: each moment is written alike",
            Warning::OtherLanguage => "text that another language reads as a component",
            Warning::MonthForMinute => "a month after an hour, and no minute",
            Warning::MinuteForMonth => "a minute after a year, and no month",
            Warning::HourWithoutPeriod => "an hour of twelve without AM or PM",
            Warning::PeriodWithHour24 => "AM or PM beside an hour of 24",
            Warning::SubsecondWithoutSecond => "a fraction of a second without the second",
            Warning::WeekWithCalendarYear => "an ISO week with the calendar's year",
            Warning::DateWithIsoYear => "a month or a day with the year of ISO weeks",
            Warning::ShownTwice => "the same is shown twice",
            Warning::UndeterminedDate => "parts of a date that determine none",
            Warning::UnsettledWidth => "a number of varying width touches a digit",
            Warning::UnsettledYear => "a year from 10,000 on touches a digit",
            Warning::DeprecatedComponent => "a deprecated component",
        }
    }

    /// The warning with a name, if there is one.
    pub fn named(name: &str) -> Option<Warning>
        ensures { result ≡ spec.named name.now }
    {
        match name {
            "no-component" => Some(Warning::NoComponent),
            "other-language" => Some(Warning::OtherLanguage),
            "month-for-minute" => Some(Warning::MonthForMinute),
            "minute-for-month" => Some(Warning::MinuteForMonth),
            "hour-without-period" => Some(Warning::HourWithoutPeriod),
            "period-with-24-hours" => Some(Warning::PeriodWithHour24),
            "subsecond-without-second" => Some(Warning::SubsecondWithoutSecond),
            "week-with-calendar-year" => Some(Warning::WeekWithCalendarYear),
            "date-with-iso-year" => Some(Warning::DateWithIsoYear),
            "shown-twice" => Some(Warning::ShownTwice),
            "undetermined-date" => Some(Warning::UndeterminedDate),
            "unsettled-width" => Some(Warning::UnsettledWidth),
            "unsettled-year" => Some(Warning::UnsettledYear),
            "deprecated-component" => Some(Warning::DeprecatedComponent),
            _ => None,
        }
    }

    /// All warnings, in the order in which they are reported.
    pub fn all() -> &'static [Warning]
        ensures { result.now ≡ spec.all }
    {
        &[
            Warning::NoComponent,
            Warning::OtherLanguage,
            Warning::MonthForMinute,
            Warning::MinuteForMonth,
            Warning::HourWithoutPeriod,
            Warning::PeriodWithHour24,
            Warning::SubsecondWithoutSecond,
            Warning::WeekWithCalendarYear,
            Warning::DateWithIsoYear,
            Warning::ShownTwice,
            Warning::UndeterminedDate,
            Warning::UnsettledWidth,
            Warning::UnsettledYear,
            Warning::DeprecatedComponent,
        ]
    }
}
