//! The level of each warning: ignored, reported, or an error.

ghost use Rattle.std.specs.Prelude.{◌≡◌};
ghost use Rattle.timefd_lang_warnings.specs.Levels as spec;
ghost use Rattle.timefd_lang_warnings.specs.Parts.{parts};

use crate::parts::ReadDescription;
use crate::warned::{LanguageStyle, warns};
use crate::warning::Warning;

/// How seriously a warning is taken.
#[derive(Debug, Clone, Copy, PartialEq, Eq)]
pub enum Level {
    /// It isn't reported.
    Allowed,
    /// It is reported.
    Warned,
    /// It is reported, and a description that has it doesn't pass.
    Denied,
}

/// A level for each warning.
#[derive(Clone, Copy)]
pub struct Levels {
    no_component: Level,
    other_language: Level,
    month_for_minute: Level,
    minute_for_month: Level,
    hour_without_period: Level,
    period_with_hour_24: Level,
    subsecond_without_second: Level,
    week_with_calendar_year: Level,
    date_with_iso_year: Level,
    shown_twice: Level,
    undetermined_date: Level,
    unsettled_width: Level,
    unsettled_year: Level,
    deprecated_component: Level,
}

impl Levels {
    /// One level for all warnings.
    pub fn all_at(level: Level) -> Levels
        ensures { result ≡ spec.all_at level }
    {
        Levels {
            no_component: level,
            other_language: level,
            month_for_minute: level,
            minute_for_month: level,
            hour_without_period: level,
            period_with_hour_24: level,
            subsecond_without_second: level,
            week_with_calendar_year: level,
            date_with_iso_year: level,
            shown_twice: level,
            undetermined_date: level,
            unsettled_width: level,
            unsettled_year: level,
            deprecated_component: level,
        }
    }

    /// The level of a warning.
    pub fn level_of(self, warning: Warning) -> Level
        ensures { result ≡ spec.level_of self warning }
    {
        match warning {
            Warning::NoComponent => self.no_component,
            Warning::OtherLanguage => self.other_language,
            Warning::MonthForMinute => self.month_for_minute,
            Warning::MinuteForMonth => self.minute_for_month,
            Warning::HourWithoutPeriod => self.hour_without_period,
            Warning::PeriodWithHour24 => self.period_with_hour_24,
            Warning::SubsecondWithoutSecond => self.subsecond_without_second,
            Warning::WeekWithCalendarYear => self.week_with_calendar_year,
            Warning::DateWithIsoYear => self.date_with_iso_year,
            Warning::ShownTwice => self.shown_twice,
            Warning::UndeterminedDate => self.undetermined_date,
            Warning::UnsettledWidth => self.unsettled_width,
            Warning::UnsettledYear => self.unsettled_year,
            Warning::DeprecatedComponent => self.deprecated_component,
        }
    }

    /// These levels, with another one for this warning.
    pub fn with(self, warning: Warning, level: Level) -> Levels
        ensures { result ≡ spec.with_level self warning level }
    {
        let mut levels = self;
        match warning {
            Warning::NoComponent => levels.no_component = level,
            Warning::OtherLanguage => levels.other_language = level,
            Warning::MonthForMinute => levels.month_for_minute = level,
            Warning::MinuteForMonth => levels.minute_for_month = level,
            Warning::HourWithoutPeriod => levels.hour_without_period = level,
            Warning::PeriodWithHour24 => levels.period_with_hour_24 = level,
            Warning::SubsecondWithoutSecond => levels.subsecond_without_second = level,
            Warning::WeekWithCalendarYear => levels.week_with_calendar_year = level,
            Warning::DateWithIsoYear => levels.date_with_iso_year = level,
            Warning::ShownTwice => levels.shown_twice = level,
            Warning::UndeterminedDate => levels.undetermined_date = level,
            Warning::UnsettledWidth => levels.unsettled_width = level,
            Warning::UnsettledYear => levels.unsettled_year = level,
            Warning::DeprecatedComponent => levels.deprecated_component = level,
        }
        levels
    }

    /// The levels of the warnings that a description has; every other warning is allowed. The style
    /// is the one of the language that the description was read in.
    pub fn found(self, style: LanguageStyle, description: ReadDescription<'_, '_>) -> Levels
        ensures { result ≡ spec.found self style (parts description.entry) }
    {
        Levels {
            no_component: self.found_at(style, description, Warning::NoComponent),
            other_language: self.found_at(style, description, Warning::OtherLanguage),
            month_for_minute: self.found_at(style, description, Warning::MonthForMinute),
            minute_for_month: self.found_at(style, description, Warning::MinuteForMonth),
            hour_without_period: self.found_at(style, description, Warning::HourWithoutPeriod),
            period_with_hour_24: self.found_at(style, description, Warning::PeriodWithHour24),
            subsecond_without_second: self.found_at(
                style,
                description,
                Warning::SubsecondWithoutSecond,
            ),
            week_with_calendar_year: self.found_at(
                style,
                description,
                Warning::WeekWithCalendarYear,
            ),
            date_with_iso_year: self.found_at(style, description, Warning::DateWithIsoYear),
            shown_twice: self.found_at(style, description, Warning::ShownTwice),
            undetermined_date: self.found_at(style, description, Warning::UndeterminedDate),
            unsettled_width: self.found_at(style, description, Warning::UnsettledWidth),
            unsettled_year: self.found_at(style, description, Warning::UnsettledYear),
            deprecated_component: self.found_at(style, description, Warning::DeprecatedComponent),
        }
    }

    // The level of a warning, if the description has it.
    fn found_at(
        self,
        style: LanguageStyle,
        description: ReadDescription<'_, '_>,
        warning: Warning,
    ) -> Level
        ensures { result ≡ spec.found_at self style (parts description.entry) warning }
    {
        if warns(style, description, warning) {
            self.level_of(warning)
        } else {
            Level::Allowed
        }
    }

    /// The number of warnings with this level.
    pub fn count(self, level: Level) -> u64
        ensures { result ≡ spec.count level self }
    {
        let mut count: u64 = 0;
        let mut left = Warning::all();
        'warnings: while let [warning, after @ ..] = left {
            if is_same(level, self.level_of(*warning)) {
                count = count.saturating_add(1);
            }
            left = after;
        }
        count
    }
}

fn is_same(level: Level, other: Level) -> bool
    ensures { result ≡ spec.is_same level other }
{
    match level {
        Level::Allowed => matches!(other, Level::Allowed),
        Level::Warned => matches!(other, Level::Warned),
        Level::Denied => matches!(other, Level::Denied),
    }
}
