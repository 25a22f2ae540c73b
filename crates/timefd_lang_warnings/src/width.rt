//! How many digits each component shows, and whether a digit may come first.

ghost use Rattle.std.specs.Prelude.{◌≡◌};
ghost use Rattle.timefd_lang_warnings.specs.Widths as spec;

use timefd_lang_component::Component;
use timefd_modifier::{Padding, SubsecondDigits};

/// Whether a number always has the same width.
#[derive(Clone, Copy, PartialEq, Eq)]
pub enum Width {
    /// It isn't a number, or always has the same width.
    Same,
    /// Only years from 10,000 on are wider.
    Wider,
    /// The width varies.
    Varies,
}

/// The outline of what a component shows.
#[derive(Clone, Copy)]
pub struct Outline {
    pub width: Width,
    /// Whether a digit may come first.
    pub may_begin_with_digit: bool,
}

/// The outline of what a component shows.
pub(crate) fn outline_of(component: Component) -> Outline
    ensures { result ≡ spec.outline_of component }
{
    modern_outline(component.modern())
}

fn modern_outline(component: Component) -> Outline
    ensures { result ≡ spec.modern_outline component }
{
    match component {
        Component::Day(m) => number(m.padding),
        Component::MonthShort(_) => no_number(),
        Component::MonthLong(_) => no_number(),
        Component::MonthNumerical(m) => number(m.padding),
        Component::Ordinal(m) => number(m.padding),
        Component::WeekdayShort(_) => no_number(),
        Component::WeekdayLong(_) => no_number(),
        Component::WeekdaySunday(_) => digit(),
        Component::WeekdayMonday(_) => digit(),
        Component::WeekNumberIso(m) => number(m.padding),
        Component::WeekNumberSunday(m) => number(m.padding),
        Component::WeekNumberMonday(m) => number(m.padding),
        Component::CalendarYearFullExtendedRange(m) => extended(m.padding, m.sign_is_mandatory),
        Component::CalendarYearFullStandardRange(m) => signed(m.padding, m.sign_is_mandatory),
        Component::CalendarYearCenturyExtendedRange(m) => extended(m.padding, m.sign_is_mandatory),
        Component::CalendarYearCenturyStandardRange(m) => signed(m.padding, m.sign_is_mandatory),
        Component::IsoYearFullExtendedRange(m) => extended(m.padding, m.sign_is_mandatory),
        Component::IsoYearFullStandardRange(m) => signed(m.padding, m.sign_is_mandatory),
        Component::IsoYearCenturyExtendedRange(m) => extended(m.padding, m.sign_is_mandatory),
        Component::IsoYearCenturyStandardRange(m) => signed(m.padding, m.sign_is_mandatory),
        Component::CalendarYearLastTwo(m) => number(m.padding),
        Component::IsoYearLastTwo(m) => number(m.padding),
        Component::Hour12(m) => number(m.padding),
        Component::Hour24(m) => number(m.padding),
        Component::Minute(m) => number(m.padding),
        Component::Period(_) => no_number(),
        Component::Second(m) => number(m.padding),
        Component::Subsecond(m) => fraction(m.digits),
        Component::OffsetHour(m) => signed(m.padding, m.sign_is_mandatory),
        Component::OffsetMinute(m) => number(m.padding),
        Component::OffsetSecond(m) => number(m.padding),
        Component::UnixTimestampSecond(m) => unfilled(m.sign_is_mandatory),
        Component::UnixTimestampMillisecond(m) => unfilled(m.sign_is_mandatory),
        Component::UnixTimestampMicrosecond(m) => unfilled(m.sign_is_mandatory),
        Component::UnixTimestampNanosecond(m) => unfilled(m.sign_is_mandatory),
        Component::Ignore(_) | Component::End(_) => no_number(),
        Component::Month(_)
        | Component::Weekday(_)
        | Component::WeekNumber(_)
        | Component::Hour(_)
        | Component::UnixTimestamp(_)
        | Component::Year(_) => no_number(),
    }
}

fn no_number() -> Outline
    ensures { result ≡ spec.no_number }
{
    Outline {
        width: Width::Same,
        may_begin_with_digit: false,
    }
}

fn digit() -> Outline
    ensures { result ≡ spec.digit }
{
    Outline {
        width: Width::Same,
        may_begin_with_digit: true,
    }
}

fn padded(padding: Padding) -> Width
    ensures { result ≡ spec.padded padding }
{
    match padding {
        Padding::Zero | Padding::Space => Width::Same,
        Padding::None => Width::Varies,
    }
}

fn number(padding: Padding) -> Outline
    ensures { result ≡ spec.number padding }
{
    Outline {
        width: padded(padding),
        may_begin_with_digit: true,
    }
}

fn signed(padding: Padding, is_mandatory: bool) -> Outline
    ensures { result ≡ spec.signed padding is_mandatory }
{
    Outline {
        width: padded(padding),
        may_begin_with_digit: !is_mandatory,
    }
}

/// A reader takes up to two more digits after a sign, so a year with a mandatory sign never has a
/// known end.
fn ranged(padding: Padding, is_mandatory: bool) -> Width
    ensures { result ≡ spec.ranged padding is_mandatory }
{
    match padded(padding) {
        Width::Same | Width::Wider => {
            if is_mandatory {
                Width::Varies
            } else {
                Width::Wider
            }
        }
        Width::Varies => Width::Varies,
    }
}

fn extended(padding: Padding, is_mandatory: bool) -> Outline
    ensures { result ≡ spec.extended padding is_mandatory }
{
    Outline {
        width: ranged(padding, is_mandatory),
        may_begin_with_digit: !is_mandatory,
    }
}

fn unfilled(is_mandatory: bool) -> Outline
    ensures { result ≡ spec.unfilled is_mandatory }
{
    Outline {
        width: Width::Varies,
        may_begin_with_digit: !is_mandatory,
    }
}

fn fraction(digits: SubsecondDigits) -> Outline
    ensures { result ≡ spec.fraction digits }
{
    match digits {
        SubsecondDigits::One
        | SubsecondDigits::Two
        | SubsecondDigits::Three
        | SubsecondDigits::Four
        | SubsecondDigits::Five
        | SubsecondDigits::Six
        | SubsecondDigits::Seven
        | SubsecondDigits::Eight
        | SubsecondDigits::Nine => digit(),
        SubsecondDigits::OneOrMore => unfilled(false),
    }
}
