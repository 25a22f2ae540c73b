//! The codes of what is refused and of traps.

ghost use Rattle.std.specs.Prelude.{◌≡◌};
ghost use Rattle.timefd_lint_warnings.specs.Dialects.Codes as spec;

use timefd_lang_dialect::{Reason, Trap};

/// All reasons, in the order of their codes.
pub fn all_reasons() -> &'static [Reason]
    ensures { result.now ≡ spec.all_reasons }
{
    &[
        Reason::Backslash,
        Reason::Capitals,
        Reason::DatetimeOnly,
        Reason::DayPeriod,
        Reason::Era,
        Reason::Flag,
        Reason::FractionWidth,
        Reason::GmtOffset,
        Reason::HourFrom0Or24,
        Reason::JulianDay,
        Reason::LocalTime,
        Reason::LocalWeek,
        Reason::Locale,
        Reason::NarrowName,
        Reason::OptionalPart,
        Reason::OrdinalSuffix,
        Reason::PadLetter,
        Reason::Platform,
        Reason::Quarter,
        Reason::ReadingOnly,
        Reason::Reserved,
        Reason::TooManyLetters,
        Reason::TwoDigitYear,
        Reason::TwoLetterName,
        Reason::UnclosedQuote,
        Reason::UnitOfDay,
        Reason::UnknownDirective,
        Reason::UnknownLetter,
        Reason::Unsupported,
        Reason::VariableFraction,
        Reason::VariableOffset,
        Reason::VariableWidth,
        Reason::WeekOfMonth,
        Reason::Width,
        Reason::ZForUtc,
        Reason::ZoneName,
    ]
}

/// All traps.
pub fn all_traps() -> &'static [Trap]
    ensures { result.now ≡ spec.all_traps }
{
    &[
        Trap::WeekYearBesideMonth,
        Trap::DayOfYearBesideMonth,
        Trap::HourWithoutPeriod,
        Trap::MinuteBesideDay,
        Trap::SecondBeforeMinute,
        Trap::TwoLetterWeekday,
        Trap::WeekdayFromZero,
        Trap::Panic,
        Trap::YearWithoutCentury,
    ]
}

/// The reason with this code. `None` if there is none.
pub fn reason_named(name: &str) -> Option<Reason>
    ensures { result ≡ spec.reason_named name.now }
{
    match name {
        "backslash" => Some(Reason::Backslash),
        "capitals" => Some(Reason::Capitals),
        "datetime-only" => Some(Reason::DatetimeOnly),
        "day-period" => Some(Reason::DayPeriod),
        "era" => Some(Reason::Era),
        "flag" => Some(Reason::Flag),
        "fraction-width" => Some(Reason::FractionWidth),
        "gmt-offset" => Some(Reason::GmtOffset),
        "hour-from-0-or-24" => Some(Reason::HourFrom0Or24),
        "julian-day" => Some(Reason::JulianDay),
        "local-time" => Some(Reason::LocalTime),
        "local-week" => Some(Reason::LocalWeek),
        "locale" => Some(Reason::Locale),
        "narrow-name" => Some(Reason::NarrowName),
        "optional-part" => Some(Reason::OptionalPart),
        "ordinal-suffix" => Some(Reason::OrdinalSuffix),
        "pad-letter" => Some(Reason::PadLetter),
        "platform" => Some(Reason::Platform),
        "quarter" => Some(Reason::Quarter),
        "reading-only" => Some(Reason::ReadingOnly),
        "reserved" => Some(Reason::Reserved),
        "too-many-letters" => Some(Reason::TooManyLetters),
        "two-digit-year" => Some(Reason::TwoDigitYear),
        "two-letter-name" => Some(Reason::TwoLetterName),
        "unclosed-quote" => Some(Reason::UnclosedQuote),
        "unit-of-day" => Some(Reason::UnitOfDay),
        "unknown-directive" => Some(Reason::UnknownDirective),
        "unknown-letter" => Some(Reason::UnknownLetter),
        "unsupported" => Some(Reason::Unsupported),
        "variable-fraction" => Some(Reason::VariableFraction),
        "variable-offset" => Some(Reason::VariableOffset),
        "variable-width" => Some(Reason::VariableWidth),
        "week-of-month" => Some(Reason::WeekOfMonth),
        "width" => Some(Reason::Width),
        "z-for-utc" => Some(Reason::ZForUtc),
        "zone-name" => Some(Reason::ZoneName),
        _ => None,
    }
}

/// The trap with this code. `None` if there is none.
pub fn trap_named(name: &str) -> Option<Trap>
    ensures { result ≡ spec.trap_named name.now }
{
    match name {
        "week-year-beside-month" => Some(Trap::WeekYearBesideMonth),
        "day-of-year-beside-month" => Some(Trap::DayOfYearBesideMonth),
        "hour-without-period" => Some(Trap::HourWithoutPeriod),
        "minute-beside-day" => Some(Trap::MinuteBesideDay),
        "second-before-minute" => Some(Trap::SecondBeforeMinute),
        "two-letter-weekday" => Some(Trap::TwoLetterWeekday),
        "weekday-from-zero" => Some(Trap::WeekdayFromZero),
        "panic" => Some(Trap::Panic),
        "year-without-century" => Some(Trap::YearWithoutCentury),
        _ => None,
    }
}

/// Each code is read back as its reason or its trap, so no two reasons share one, and no two traps.
pub fn names_are_read()
    ensures reasons { spec.ReasonsAreRead }
    ensures traps { spec.TrapsAreRead }
{}
