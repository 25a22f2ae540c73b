//! The number of each reason for C. `tables/write` writes them.

ghost use Rattle.std.specs.Prelude.{◌≡◌};
ghost use Rattle.timefd_c.specs.FormatReasons as spec;

use timefd_lang_dialect::Reason;

/// The number of a reason in `examples/timefd.h`.
pub fn reason_code(reason: Reason) -> u32
    ensures { result ≡ spec.reason_number reason }
{
    match reason {
        Reason::Backslash => 1,
        Reason::Capitals => 2,
        Reason::DatetimeOnly => 3,
        Reason::DayPeriod => 4,
        Reason::Era => 5,
        Reason::Flag => 6,
        Reason::FractionWidth => 7,
        Reason::GmtOffset => 8,
        Reason::HourFrom0Or24 => 9,
        Reason::JulianDay => 10,
        Reason::LocalTime => 11,
        Reason::LocalWeek => 12,
        Reason::Locale => 13,
        Reason::NarrowName => 14,
        Reason::OptionalPart => 15,
        Reason::OrdinalSuffix => 16,
        Reason::PadLetter => 17,
        Reason::Platform => 18,
        Reason::Quarter => 19,
        Reason::ReadingOnly => 20,
        Reason::Reserved => 21,
        Reason::TooManyLetters => 22,
        Reason::TwoDigitYear => 36,
        Reason::TwoLetterName => 23,
        Reason::UnclosedQuote => 24,
        Reason::UnitOfDay => 25,
        Reason::UnknownDirective => 26,
        Reason::UnknownLetter => 27,
        Reason::Unsupported => 28,
        Reason::VariableFraction => 29,
        Reason::VariableOffset => 30,
        Reason::VariableWidth => 31,
        Reason::WeekOfMonth => 32,
        Reason::Width => 33,
        Reason::ZForUtc => 34,
        Reason::ZoneName => 35,
    }
}
