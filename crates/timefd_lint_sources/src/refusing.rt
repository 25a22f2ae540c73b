//! Which formats of other languages and libraries are refused.

ghost use Rattle.std.specs.Prelude.{◌≡◌};
ghost use Rattle.timefd_lint_sources.specs.Refusing as spec;

use crate::judgement::RefusedParts;
use timefd_lang_dialect::{Dialect, Reason};

/// Whether a part is refused, where these parts are, that version 3 can't write for this reason.
pub fn is_refused(parts: RefusedParts, dialect: Dialect, reason: Reason) -> bool
    ensures { result ≡ spec.is_refused parts dialect reason }
{
    match parts {
        RefusedParts::Unknown => is_refused_in_rust(dialect, reason),
        RefusedParts::Unwritable => true,
    }
}

fn is_refused_in_rust(dialect: Dialect, reason: Reason) -> bool
    ensures { result ≡ spec.is_refused_in_rust dialect reason }
{
    match dialect {
        Dialect::Chrono => reason.is_unknown(),
        Dialect::Jiff => is_unknown_directive(reason),
        Dialect::Python
        | Dialect::C
        | Dialect::Gnu
        | Dialect::Ruby
        | Dialect::Java
        | Dialect::Go
        | Dialect::Moment => true,
    }
}

// Whether there is no such directive. Jiff takes each flag before each directive.
fn is_unknown_directive(reason: Reason) -> bool
    ensures { result ≡ spec.is_unknown_directive reason }
{
    match reason {
        Reason::UnknownDirective => true,
        Reason::Backslash
        | Reason::Capitals
        | Reason::DatetimeOnly
        | Reason::DayPeriod
        | Reason::Era
        | Reason::Flag
        | Reason::FractionWidth
        | Reason::GmtOffset
        | Reason::HourFrom0Or24
        | Reason::JulianDay
        | Reason::LocalTime
        | Reason::LocalWeek
        | Reason::Locale
        | Reason::NarrowName
        | Reason::OptionalPart
        | Reason::OrdinalSuffix
        | Reason::PadLetter
        | Reason::Platform
        | Reason::Quarter
        | Reason::ReadingOnly
        | Reason::Reserved
        | Reason::TooManyLetters
        | Reason::TwoDigitYear
        | Reason::TwoLetterName
        | Reason::UnclosedQuote
        | Reason::UnitOfDay
        | Reason::UnknownLetter
        | Reason::Unsupported
        | Reason::VariableFraction
        | Reason::VariableOffset
        | Reason::VariableWidth
        | Reason::WeekOfMonth
        | Reason::Width
        | Reason::ZForUtc
        | Reason::ZoneName => false,
    }
}
