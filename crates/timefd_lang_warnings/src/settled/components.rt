//! What has to follow each component, and what is known about its text.

ghost use Rattle.std.specs.Prelude.{◌≡◌};
ghost use Rattle.timefd_lang_component.specs.Tree as tree;
ghost use Rattle.timefd_lang_warnings.specs.Settling.Bounds as spec;
ghost use Rattle.timefd_lang_warnings.specs.Settling.Reached.{reached};
ghost use Rattle.timefd_lang_warnings.specs.Settling.Settled as begin;

use crate::settled::bound::Bound;
use timefd_lang_component::Component;
use timefd_modifier::{Padding, SubsecondDigits};

/// What is known about the text of a component and the text that follows it, given what is known
/// about the latter. `None` if that isn't enough for a reader to take the component's text and no
/// more.
pub(crate) fn before_component(component: Component, known: Bound) -> Option<Bound>
    ensures { result ≡ reached (tree.component component) known }
{
    let component = component.modern();
    if bound_of(component).is_met_by(known) {
        Some(begin_of(component, known))
    } else {
        None
    }
}

/// What has to follow a modern component.
fn bound_of(component: Component) -> Bound
    ensures { result ≡ spec.bound_of component }
{
    match component {
        Component::Day(shown) => number_bound(shown.padding),
        Component::MonthShort(_) => Bound::Anything,
        Component::MonthLong(_) => Bound::Anything,
        Component::MonthNumerical(shown) => number_bound(shown.padding),
        Component::Ordinal(shown) => number_bound(shown.padding),
        Component::WeekdayShort(_) => Bound::Anything,
        Component::WeekdayLong(_) => Bound::Anything,
        Component::WeekdaySunday(_) => Bound::Anything,
        Component::WeekdayMonday(_) => Bound::Anything,
        Component::WeekNumberIso(shown) => number_bound(shown.padding),
        Component::WeekNumberSunday(shown) => number_bound(shown.padding),
        Component::WeekNumberMonday(shown) => number_bound(shown.padding),
        Component::CalendarYearFullExtendedRange(_) => Bound::NoDigit,
        Component::CalendarYearFullStandardRange(shown) => number_bound(shown.padding),
        Component::CalendarYearCenturyExtendedRange(_) => Bound::NoDigit,
        Component::CalendarYearCenturyStandardRange(shown) => number_bound(shown.padding),
        Component::IsoYearFullExtendedRange(_) => Bound::NoDigit,
        Component::IsoYearFullStandardRange(shown) => number_bound(shown.padding),
        Component::IsoYearCenturyExtendedRange(_) => Bound::NoDigit,
        Component::IsoYearCenturyStandardRange(shown) => number_bound(shown.padding),
        Component::CalendarYearLastTwo(shown) => number_bound(shown.padding),
        Component::IsoYearLastTwo(shown) => number_bound(shown.padding),
        Component::Hour12(shown) => number_bound(shown.padding),
        Component::Hour24(shown) => number_bound(shown.padding),
        Component::Minute(shown) => number_bound(shown.padding),
        Component::Second(shown) => number_bound(shown.padding),
        Component::OffsetMinute(shown) => number_bound(shown.padding),
        Component::OffsetSecond(shown) => number_bound(shown.padding),
        Component::Period(_) => Bound::Anything,
        Component::Subsecond(shown) => fraction_bound(shown.digits),
        Component::OffsetHour(shown) => number_bound(shown.padding),
        Component::UnixTimestampSecond(_) => Bound::NoDigit,
        Component::UnixTimestampMillisecond(_) => Bound::NoDigit,
        Component::UnixTimestampMicrosecond(_) => Bound::NoDigit,
        Component::UnixTimestampNanosecond(_) => Bound::NoDigit,
        Component::Ignore(_) => Bound::Never,
        Component::End(_) => Bound::End,
        Component::Month(_)
        | Component::Weekday(_)
        | Component::WeekNumber(_)
        | Component::Hour(_)
        | Component::UnixTimestamp(_)
        | Component::Year(_) => Bound::Never,
    }
}

/// What is known about the text of a modern component, given what is known about the text that
/// follows.
fn begin_of(component: Component, known: Bound) -> Bound
    ensures { result ≡ begin.component_begin component known }
{
    match component {
        Component::Day(_) => Bound::Anything,
        Component::MonthShort(_) => Bound::NoDigit,
        Component::MonthLong(_) => Bound::NoDigit,
        Component::MonthNumerical(_) => Bound::Anything,
        Component::Ordinal(_) => Bound::Anything,
        Component::WeekdayShort(_) => Bound::NoDigit,
        Component::WeekdayLong(_) => Bound::NoDigit,
        Component::WeekdaySunday(_) => Bound::Anything,
        Component::WeekdayMonday(_) => Bound::Anything,
        Component::WeekNumberIso(_) => Bound::Anything,
        Component::WeekNumberSunday(_) => Bound::Anything,
        Component::WeekNumberMonday(_) => Bound::Anything,
        Component::CalendarYearFullExtendedRange(shown) => signed_begin(shown.sign_is_mandatory),
        Component::CalendarYearFullStandardRange(shown) => signed_begin(shown.sign_is_mandatory),
        Component::CalendarYearCenturyExtendedRange(shown) => signed_begin(shown.sign_is_mandatory),
        Component::CalendarYearCenturyStandardRange(shown) => signed_begin(shown.sign_is_mandatory),
        Component::IsoYearFullExtendedRange(shown) => signed_begin(shown.sign_is_mandatory),
        Component::IsoYearFullStandardRange(shown) => signed_begin(shown.sign_is_mandatory),
        Component::IsoYearCenturyExtendedRange(shown) => signed_begin(shown.sign_is_mandatory),
        Component::IsoYearCenturyStandardRange(shown) => signed_begin(shown.sign_is_mandatory),
        Component::CalendarYearLastTwo(_) => Bound::Anything,
        Component::IsoYearLastTwo(_) => Bound::Anything,
        Component::Hour12(_) => Bound::Anything,
        Component::Hour24(_) => Bound::Anything,
        Component::Minute(_) => Bound::Anything,
        Component::Second(_) => Bound::Anything,
        Component::OffsetMinute(_) => Bound::Anything,
        Component::OffsetSecond(_) => Bound::Anything,
        Component::Period(_) => Bound::NoDigit,
        Component::Subsecond(_) => Bound::Anything,
        Component::OffsetHour(shown) => signed_begin(shown.sign_is_mandatory),
        Component::UnixTimestampSecond(shown) => signed_begin(shown.sign_is_mandatory),
        Component::UnixTimestampMillisecond(shown) => signed_begin(shown.sign_is_mandatory),
        Component::UnixTimestampMicrosecond(shown) => signed_begin(shown.sign_is_mandatory),
        Component::UnixTimestampNanosecond(shown) => signed_begin(shown.sign_is_mandatory),
        Component::Ignore(_) => known,
        Component::End(_) => known,
        Component::Month(_)
        | Component::Weekday(_)
        | Component::WeekNumber(_)
        | Component::Hour(_)
        | Component::UnixTimestamp(_)
        | Component::Year(_) => known,
    }
}

/// A number that is padded to its width is read whatever follows. After a number without padding, no
/// digit may follow.
fn number_bound(padding: Padding) -> Bound
    ensures { result ≡ spec.number_bound padding }
{
    match padding {
        Padding::Zero | Padding::Space => Bound::Anything,
        Padding::None => Bound::NoDigit,
    }
}

fn fraction_bound(digits: SubsecondDigits) -> Bound
    ensures { result ≡ spec.fraction_bound digits }
{
    match digits {
        SubsecondDigits::OneOrMore => Bound::NoDigit,
        SubsecondDigits::One
        | SubsecondDigits::Two
        | SubsecondDigits::Three
        | SubsecondDigits::Four
        | SubsecondDigits::Five
        | SubsecondDigits::Six
        | SubsecondDigits::Seven
        | SubsecondDigits::Eight
        | SubsecondDigits::Nine => Bound::Anything,
    }
}

/// A number with a sign doesn't begin with a digit.
fn signed_begin(sign_is_mandatory: bool) -> Bound
    ensures { result ≡ begin.signed_begin sign_is_mandatory }
{
    if sign_is_mandatory {
        Bound::NoDigit
    } else {
        Bound::Anything
    }
}
