//! The component of a node.

ghost use Rattle.std.specs.Prelude.{◌≡◌, ◌<◌};
ghost use Rattle.timefd_c_nodes.specs.Decoding as spec;

use crate::RawNode;
use crate::formatting::modifier::{count_of, digits_of, flag_of, padding_of, trailing_input_of};
use timefd_lang_component::Component;
use timefd_modifier::{
    CalendarYearCenturyExtendedRange, CalendarYearCenturyStandardRange,
    CalendarYearFullExtendedRange, CalendarYearFullStandardRange, CalendarYearLastTwo, Day, End,
    Hour12, Hour24, Ignore, IsoYearCenturyExtendedRange, IsoYearCenturyStandardRange,
    IsoYearFullExtendedRange, IsoYearFullStandardRange, IsoYearLastTwo, Minute, MonthLong,
    MonthNumerical, MonthShort, OffsetHour, OffsetMinute, OffsetSecond, Ordinal, Period, Second,
    Subsecond, UnixTimestampMicrosecond, UnixTimestampMillisecond, UnixTimestampNanosecond,
    UnixTimestampSecond, WeekNumberIso, WeekNumberMonday, WeekNumberSunday, WeekdayLong,
    WeekdayMonday, WeekdayShort, WeekdaySunday,
};

/// The component that the numbers of a node name. `None` says that a number that the component has
/// means nothing.
#[inline(always)]
pub(crate) fn component_of(node: &RawNode) -> Option<Component>
    ensures { result ≡ spec.component_of node.now }
{
    Some(match node.component {
        1 => Component::Day(Day {
            padding: padding_of(node.padding)?,
        }),
        2 => Component::MonthShort(MonthShort {
            case_sensitive: flag_of(node.case_sensitive)?,
        }),
        3 => Component::MonthLong(MonthLong {
            case_sensitive: flag_of(node.case_sensitive)?,
        }),
        4 => Component::MonthNumerical(MonthNumerical {
            padding: padding_of(node.padding)?,
        }),
        5 => Component::Ordinal(Ordinal {
            padding: padding_of(node.padding)?,
        }),
        6 => Component::WeekdayShort(WeekdayShort {
            case_sensitive: flag_of(node.case_sensitive)?,
        }),
        7 => Component::WeekdayLong(WeekdayLong {
            case_sensitive: flag_of(node.case_sensitive)?,
        }),
        8 => Component::WeekdaySunday(WeekdaySunday {
            one_indexed: flag_of(node.one_indexed)?,
        }),
        9 => Component::WeekdayMonday(WeekdayMonday {
            one_indexed: flag_of(node.one_indexed)?,
        }),
        10 => Component::WeekNumberIso(WeekNumberIso {
            padding: padding_of(node.padding)?,
        }),
        11 => Component::WeekNumberSunday(WeekNumberSunday {
            padding: padding_of(node.padding)?,
        }),
        12 => Component::WeekNumberMonday(WeekNumberMonday {
            padding: padding_of(node.padding)?,
        }),
        13 => Component::CalendarYearFullExtendedRange(CalendarYearFullExtendedRange {
            padding: padding_of(node.padding)?,
            sign_is_mandatory: flag_of(node.sign_is_mandatory)?,
        }),
        14 => Component::CalendarYearFullStandardRange(CalendarYearFullStandardRange {
            padding: padding_of(node.padding)?,
            sign_is_mandatory: flag_of(node.sign_is_mandatory)?,
        }),
        15 => Component::CalendarYearCenturyExtendedRange(CalendarYearCenturyExtendedRange {
            padding: padding_of(node.padding)?,
            sign_is_mandatory: flag_of(node.sign_is_mandatory)?,
        }),
        16 => Component::CalendarYearCenturyStandardRange(CalendarYearCenturyStandardRange {
            padding: padding_of(node.padding)?,
            sign_is_mandatory: flag_of(node.sign_is_mandatory)?,
        }),
        17 => Component::IsoYearFullExtendedRange(IsoYearFullExtendedRange {
            padding: padding_of(node.padding)?,
            sign_is_mandatory: flag_of(node.sign_is_mandatory)?,
        }),
        18 => Component::IsoYearFullStandardRange(IsoYearFullStandardRange {
            padding: padding_of(node.padding)?,
            sign_is_mandatory: flag_of(node.sign_is_mandatory)?,
        }),
        19 => Component::IsoYearCenturyExtendedRange(IsoYearCenturyExtendedRange {
            padding: padding_of(node.padding)?,
            sign_is_mandatory: flag_of(node.sign_is_mandatory)?,
        }),
        20 => Component::IsoYearCenturyStandardRange(IsoYearCenturyStandardRange {
            padding: padding_of(node.padding)?,
            sign_is_mandatory: flag_of(node.sign_is_mandatory)?,
        }),
        21 => Component::CalendarYearLastTwo(CalendarYearLastTwo {
            padding: padding_of(node.padding)?,
        }),
        22 => Component::IsoYearLastTwo(IsoYearLastTwo {
            padding: padding_of(node.padding)?,
        }),
        23 => Component::Hour12(Hour12 {
            padding: padding_of(node.padding)?,
        }),
        24 => Component::Hour24(Hour24 {
            padding: padding_of(node.padding)?,
        }),
        25 => Component::Minute(Minute {
            padding: padding_of(node.padding)?,
        }),
        26 => Component::Period(Period {
            is_uppercase: flag_of(node.is_uppercase)?,
            case_sensitive: flag_of(node.case_sensitive)?,
        }),
        27 => Component::Second(Second {
            padding: padding_of(node.padding)?,
        }),
        28 => Component::Subsecond(Subsecond {
            digits: digits_of(node.digits)?,
        }),
        29 => Component::OffsetHour(OffsetHour {
            padding: padding_of(node.padding)?,
            sign_is_mandatory: flag_of(node.sign_is_mandatory)?,
        }),
        30 => Component::OffsetMinute(OffsetMinute {
            padding: padding_of(node.padding)?,
        }),
        31 => Component::OffsetSecond(OffsetSecond {
            padding: padding_of(node.padding)?,
        }),
        32 => Component::Ignore(Ignore {
            count: count_of(node.ignored)?,
        }),
        33 => Component::UnixTimestampSecond(UnixTimestampSecond {
            sign_is_mandatory: flag_of(node.sign_is_mandatory)?,
        }),
        34 => Component::UnixTimestampMillisecond(UnixTimestampMillisecond {
            sign_is_mandatory: flag_of(node.sign_is_mandatory)?,
        }),
        35 => Component::UnixTimestampMicrosecond(UnixTimestampMicrosecond {
            sign_is_mandatory: flag_of(node.sign_is_mandatory)?,
        }),
        36 => Component::UnixTimestampNanosecond(UnixTimestampNanosecond {
            sign_is_mandatory: flag_of(node.sign_is_mandatory)?,
        }),
        37 => Component::End(End {
            trailing_input: trailing_input_of(node.trailing_input)?,
        }),
        _ => return None,
    })
}
