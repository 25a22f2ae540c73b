//! Which warnings a description has.

ghost use Rattle.std.specs.Prelude.{◌≡◌};
ghost use Rattle.timefd_lang_warnings.specs.Parts.{parts};
ghost use Rattle.timefd_lang_warnings.specs.Warns as spec;

use crate::clock::{
    has_hour_without_period, has_minute_for_month, has_month_for_minute, has_period_with_hour_24,
    has_subsecond_without_second,
};
use crate::dates::{has_date_with_iso_year, has_undetermined_date, has_week_with_calendar_year};
use crate::mark::ComponentMark;
use crate::parts::{ReadDescription, has};
use crate::sought::Sought;
use crate::twice::shows_twice;
use crate::warning::Warning;
use crate::width::Width;

/// How the components of a language are written.
#[derive(Debug, Clone, Copy, PartialEq, Eq)]
pub enum LanguageStyle {
    /// In brackets: versions 1, 2 and 3.
    Brackets,
    /// After percent signs: strftime.
    Percents,
}

/// Whether a description has a warning. The style is the one of the language that the description
/// was read in. No memory is allocated, and the stack is only as deep as items are nested. The time
/// is at most about fifty walks over the parts.
pub fn warns(style: LanguageStyle, description: ReadDescription<'_, '_>, warning: Warning) -> bool
    ensures { result ≡ spec.warns style warning (parts description.entry) }
{
    match warning {
        Warning::NoComponent => !has(description, Sought::Component),
        Warning::OtherLanguage => has(description, Sought::Text(other_mark(style))),
        Warning::MonthForMinute => has_month_for_minute(description),
        Warning::MinuteForMonth => has_minute_for_month(description),
        Warning::HourWithoutPeriod => has_hour_without_period(description),
        Warning::PeriodWithHour24 => has_period_with_hour_24(description),
        Warning::SubsecondWithoutSecond => has_subsecond_without_second(description),
        Warning::WeekWithCalendarYear => has_week_with_calendar_year(description),
        Warning::DateWithIsoYear => has_date_with_iso_year(description),
        Warning::ShownTwice => shows_twice(description),
        Warning::UndeterminedDate => has_undetermined_date(description),
        Warning::UnsettledWidth => has(description, Sought::Touches(Width::Varies)),
        Warning::UnsettledYear => has(description, Sought::Touches(Width::Wider)),
        Warning::DeprecatedComponent => has(description, Sought::Deprecated),
    }
}

// What begins a component of the other style.
fn other_mark(style: LanguageStyle) -> ComponentMark
    ensures { result ≡ spec.other_mark style }
{
    match style {
        LanguageStyle::Brackets => ComponentMark::Percent,
        LanguageStyle::Percents => ComponentMark::Bracket,
    }
}
