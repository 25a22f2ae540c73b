//! How each component is read.

ghost use Rattle.std.specs.Prelude.{◌≡◌};
ghost use Rattle.timefd_date_moment.specs.Fields.Rules as spec;
ghost use Rattle.timefd_date_moment.specs.Fields.Rules.{IsRule};

use crate::fields::fields::{Amount, Count};
use timefd_lang_component::Component;
use timefd_modifier::{Padding, SubsecondDigits, TrailingInput};

/// How a component is read.
#[derive(Clone, Copy)]
pub(crate) enum FieldRule {
    /// A number in a range, padded to a width or not at all.
    Number {
        field: Count,
        padding: Padding,
        width: usize,
        lowest: u16,
        highest: u16,
    },
    /// A digit for the weekday, which counts from Monday or Sunday, and from 1 or 0.
    Weekday {
        is_sunday_first: bool,
        is_one_indexed: bool,
    },
    /// A name. Its index in its list counts from `first`.
    Name {
        field: Count,
        names: NameList,
        is_case_sensitive: bool,
        first: u16,
    },
    /// AM or PM.
    Period {
        names: NameList,
        is_case_sensitive: bool,
    },
    /// A number with its sign.
    Signed {
        field: Amount,
        is_mandatory: bool,
        form: NumberForm,
    },
    /// The digits of a fraction of a second.
    Fraction(SubsecondDigits),
    /// This many bytes of any kind.
    Ignore(u16),
    /// The end of the text.
    End(TrailingInput),
    /// A component that isn't modern: it reads nothing.
    Deprecated,
}

/// A list of names.
#[derive(Clone, Copy)]
pub(crate) enum NameList {
    ShortMonths,
    LongMonths,
    ShortWeekdays,
    LongWeekdays,
    UpperPeriods,
    LowerPeriods,
}

/// How many digits a number with its sign has.
#[derive(Clone, Copy)]
pub(crate) struct NumberForm {
    pub padding: Padding,
    /// The width to which it is padded.
    pub width: usize,
    /// The most digits without a sign.
    pub most: usize,
    /// The most digits after a sign.
    pub most_signed: usize,
    /// The greatest magnitude.
    pub greatest: u128,
}

/// How a modern component is read.
#[inline(always)]
pub(crate) fn rule_of(component: Component) -> FieldRule
    ensures table { result ≡ spec.rule_of component }
    ensures bounds { IsRule result }
{
    match component {
        Component::Day(m) => number(Count::Day, m.padding, 2, 1, 31),
        Component::MonthShort(m) => name(Count::Month, NameList::ShortMonths, m.case_sensitive, 1),
        Component::MonthLong(m) => name(Count::Month, NameList::LongMonths, m.case_sensitive, 1),
        Component::MonthNumerical(m) => number(Count::Month, m.padding, 2, 1, 12),
        Component::Ordinal(m) => number(Count::Ordinal, m.padding, 3, 1, 366),
        Component::WeekdayShort(m) => {
            name(Count::Weekday, NameList::ShortWeekdays, m.case_sensitive, 0)
        }
        Component::WeekdayLong(m) => name(
            Count::Weekday,
            NameList::LongWeekdays,
            m.case_sensitive,
            0,
        ),
        Component::WeekdaySunday(m) => weekday(true, m.one_indexed),
        Component::WeekdayMonday(m) => weekday(false, m.one_indexed),
        Component::WeekNumberIso(m) => number(Count::IsoWeek, m.padding, 2, 1, 53),
        Component::WeekNumberSunday(m) => number(Count::SundayWeek, m.padding, 2, 0, 53),
        Component::WeekNumberMonday(m) => number(Count::MondayWeek, m.padding, 2, 0, 53),
        Component::CalendarYearFullExtendedRange(m) => {
            signed(Amount::Year, m.sign_is_mandatory, extended_year(m.padding))
        }
        Component::CalendarYearFullStandardRange(m) => {
            signed(Amount::Year, m.sign_is_mandatory, standard_year(m.padding))
        }
        Component::CalendarYearCenturyExtendedRange(m) => signed(
            Amount::Century,
            m.sign_is_mandatory,
            extended_century(m.padding),
        ),
        Component::CalendarYearCenturyStandardRange(m) => {
            signed(Amount::Century, m.sign_is_mandatory, two(m.padding, 99))
        }
        Component::IsoYearFullExtendedRange(m) => {
            signed(
                Amount::IsoYear,
                m.sign_is_mandatory,
                extended_year(m.padding),
            )
        }
        Component::IsoYearFullStandardRange(m) => {
            signed(
                Amount::IsoYear,
                m.sign_is_mandatory,
                standard_year(m.padding),
            )
        }
        Component::IsoYearCenturyExtendedRange(m) => signed(
            Amount::IsoCentury,
            m.sign_is_mandatory,
            extended_century(m.padding),
        ),
        Component::IsoYearCenturyStandardRange(m) => {
            signed(Amount::IsoCentury, m.sign_is_mandatory, two(m.padding, 99))
        }
        Component::CalendarYearLastTwo(m) => number(Count::YearLastTwo, m.padding, 2, 0, 99),
        Component::IsoYearLastTwo(m) => number(Count::IsoYearLastTwo, m.padding, 2, 0, 99),
        Component::Hour12(m) => number(Count::Hour12, m.padding, 2, 1, 12),
        Component::Hour24(m) => number(Count::Hour, m.padding, 2, 0, 23),
        Component::Minute(m) => number(Count::Minute, m.padding, 2, 0, 59),
        Component::Second(m) => number(Count::Second, m.padding, 2, 0, 59),
        Component::OffsetMinute(m) => number(Count::OffsetMinute, m.padding, 2, 0, 59),
        Component::OffsetSecond(m) => number(Count::OffsetSecond, m.padding, 2, 0, 59),
        Component::Period(m) => FieldRule::Period {
            names: periods(m.is_uppercase),
            is_case_sensitive: m.case_sensitive,
        },
        Component::Subsecond(m) => FieldRule::Fraction(m.digits),
        Component::OffsetHour(m) => {
            signed(Amount::OffsetHour, m.sign_is_mandatory, two(m.padding, 25))
        }
        Component::UnixTimestampSecond(m) => {
            signed(
                Amount::UnixSecond,
                m.sign_is_mandatory,
                stamp(14, 99_999_999_999_999),
            )
        }
        Component::UnixTimestampMillisecond(m) => signed(
            Amount::UnixMillisecond,
            m.sign_is_mandatory,
            stamp(17, 99_999_999_999_999_999),
        ),
        Component::UnixTimestampMicrosecond(m) => signed(
            Amount::UnixMicrosecond,
            m.sign_is_mandatory,
            stamp(20, 99_999_999_999_999_999_999),
        ),
        Component::UnixTimestampNanosecond(m) => signed(
            Amount::UnixNanosecond,
            m.sign_is_mandatory,
            stamp(23, 99_999_999_999_999_999_999_999),
        ),
        Component::Ignore(m) => FieldRule::Ignore(m.count.get()),
        Component::End(m) => FieldRule::End(m.trailing_input),
        Component::Month(_)
        | Component::Weekday(_)
        | Component::WeekNumber(_)
        | Component::Hour(_)
        | Component::UnixTimestamp(_)
        | Component::Year(_) => FieldRule::Deprecated,
    }
}

fn number(field: Count, padding: Padding, width: usize, lowest: u16, highest: u16) -> FieldRule
    ensures { result ≡ FieldRule.Number field padding width lowest highest }
{
    FieldRule::Number {
        field,
        padding,
        width,
        lowest,
        highest,
    }
}

fn weekday(is_sunday_first: bool, is_one_indexed: bool) -> FieldRule
    ensures { result ≡ FieldRule.Weekday is_sunday_first is_one_indexed }
{
    FieldRule::Weekday {
        is_sunday_first,
        is_one_indexed,
    }
}

fn name(field: Count, names: NameList, is_case_sensitive: bool, first: u16) -> FieldRule
    ensures { result ≡ FieldRule.Name field names is_case_sensitive first }
{
    FieldRule::Name {
        field,
        names,
        is_case_sensitive,
        first,
    }
}

fn periods(is_uppercase: bool) -> NameList
    ensures { result ≡ spec.period_names is_uppercase }
{
    if is_uppercase {
        NameList::UpperPeriods
    } else {
        NameList::LowerPeriods
    }
}

fn signed(field: Amount, is_mandatory: bool, form: NumberForm) -> FieldRule
    ensures { result ≡ FieldRule.Signed field is_mandatory form }
{
    FieldRule::Signed {
        field,
        is_mandatory,
        form,
    }
}

fn extended_year(padding: Padding) -> NumberForm
    ensures { result ≡ spec.extended_year padding }
{
    NumberForm {
        padding,
        width: 4,
        most: 4,
        most_signed: 6,
        greatest: 999_999,
    }
}

pub(crate) fn standard_year(padding: Padding) -> NumberForm
    ensures { result ≡ spec.standard_year padding }
{
    NumberForm {
        padding,
        width: 4,
        most: 4,
        most_signed: 4,
        greatest: 9_999,
    }
}

fn extended_century(padding: Padding) -> NumberForm
    ensures { result ≡ spec.extended_century padding }
{
    NumberForm {
        padding,
        width: 2,
        most: 2,
        most_signed: 4,
        greatest: 9_999,
    }
}

/// The form of two digits.
fn two(padding: Padding, greatest: u128) -> NumberForm
    ensures { result ≡ spec.two padding greatest }
{
    NumberForm {
        padding,
        width: 2,
        most: 2,
        most_signed: 2,
        greatest,
    }
}

/// The form of digits that aren't padded.
fn stamp(most: usize, greatest: u128) -> NumberForm
    ensures { result ≡ spec.stamp most greatest }
{
    NumberForm {
        padding: Padding::None,
        width: 1,
        most,
        most_signed: most,
        greatest,
    }
}
