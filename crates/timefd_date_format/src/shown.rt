//! The field of a component.

ghost use Rattle.std.specs.Prelude.{◌≡◌, ◌≤◌, IfOk};
ghost use Rattle.timefd_date_format.specs.Fields as spec;
ghost use Rattle.timefd_date_format.specs.Fields.{IsField};

use crate::field::{Lack, WrittenField};
use crate::instant::{Unit, instant_field};
use crate::numbers::{plain, sign_of, signed};
use crate::parts::{date_of, offset_of, time_of};
use crate::years::{CENTURY, EXTENDED, FULL, STANDARD, last_two, year};
use timefd_date_moment::Moment;
use timefd_lang_component::Component;
use timefd_modifier::Padding;

/// What a modern component shows of a moment.
#[inline(always)]
pub fn field(moment: Moment, component: Component) -> Result<WrittenField, Lack>
    ensures table { result ≡ spec.field moment component }
    ensures field { IfOk result IsField }
{
    match component {
        Component::Day(m) => Ok(plain(m.padding, 2, date_of(moment)?.day as u64)),
        Component::MonthShort(_) => Ok(WrittenField::MonthShort(date_of(moment)?.month)),
        Component::MonthLong(_) => Ok(WrittenField::MonthLong(date_of(moment)?.month)),
        Component::MonthNumerical(m) => Ok(plain(m.padding, 2, date_of(moment)?.month as u64)),
        Component::Ordinal(m) => Ok(plain(m.padding, 3, date_of(moment)?.ordinal() as u64)),
        Component::WeekdayShort(_) => {
            Ok(WrittenField::WeekdayShort(date_of(moment)?.number_days_from_monday()))
        }
        Component::WeekdayLong(_) => {
            Ok(WrittenField::WeekdayLong(date_of(moment)?.number_days_from_monday()))
        }
        Component::WeekdaySunday(m) => {
            Ok(weekday(m.one_indexed, date_of(moment)?.number_days_from_sunday()))
        }
        Component::WeekdayMonday(m) => {
            Ok(weekday(m.one_indexed, date_of(moment)?.number_days_from_monday()))
        }
        Component::WeekNumberIso(m) => Ok(plain(m.padding, 2, date_of(moment)?.iso_week() as u64)),
        Component::WeekNumberSunday(m) => {
            Ok(plain(m.padding, 2, date_of(moment)?.sunday_based_week() as u64))
        }
        Component::WeekNumberMonday(m) => {
            Ok(plain(m.padding, 2, date_of(moment)?.monday_based_week() as u64))
        }
        Component::CalendarYearFullExtendedRange(m) => {
            let years = date_of(moment)?.years;
            year(EXTENDED, FULL, m.padding, m.sign_is_mandatory, years)
        }
        Component::CalendarYearFullStandardRange(m) => {
            let years = date_of(moment)?.years;
            year(STANDARD, FULL, m.padding, m.sign_is_mandatory, years)
        }
        Component::CalendarYearCenturyExtendedRange(m) => {
            let years = date_of(moment)?.years;
            year(EXTENDED, CENTURY, m.padding, m.sign_is_mandatory, years)
        }
        Component::CalendarYearCenturyStandardRange(m) => {
            let years = date_of(moment)?.years;
            year(STANDARD, CENTURY, m.padding, m.sign_is_mandatory, years)
        }
        Component::IsoYearFullExtendedRange(m) => {
            let years = date_of(moment)?.iso_years();
            year(EXTENDED, FULL, m.padding, m.sign_is_mandatory, years)
        }
        Component::IsoYearFullStandardRange(m) => {
            let years = date_of(moment)?.iso_years();
            year(STANDARD, FULL, m.padding, m.sign_is_mandatory, years)
        }
        Component::IsoYearCenturyExtendedRange(m) => {
            let years = date_of(moment)?.iso_years();
            year(EXTENDED, CENTURY, m.padding, m.sign_is_mandatory, years)
        }
        Component::IsoYearCenturyStandardRange(m) => {
            let years = date_of(moment)?.iso_years();
            year(STANDARD, CENTURY, m.padding, m.sign_is_mandatory, years)
        }
        Component::CalendarYearLastTwo(m) => Ok(last_two(m.padding, date_of(moment)?.years)),
        Component::IsoYearLastTwo(m) => Ok(last_two(m.padding, date_of(moment)?.iso_years())),
        Component::Hour12(m) => {
            Ok(plain(m.padding, 2, time_of(moment)?.hour_of_twelve() as u64))
        }
        Component::Hour24(m) => Ok(plain(m.padding, 2, time_of(moment)?.hour as u64)),
        Component::Minute(m) => Ok(plain(m.padding, 2, time_of(moment)?.minute as u64)),
        Component::Second(m) => Ok(plain(m.padding, 2, time_of(moment)?.second as u64)),
        Component::Period(m) => Ok(WrittenField::Period {
            is_uppercase: m.is_uppercase,
            is_afternoon: time_of(moment)?.hour >= 12,
        }),
        Component::Subsecond(m) => Ok(WrittenField::Fraction {
            digits: m.digits,
            nanosecond: time_of(moment)?.nanosecond,
        }),
        Component::OffsetHour(m) => {
            let offset = offset_of(moment)?;
            let sign = sign_of(offset.is_negative, m.sign_is_mandatory);
            Ok(signed(sign, m.padding, 2, (offset.seconds / 3_600) as u128))
        }
        Component::OffsetMinute(m) => {
            Ok(plain(m.padding, 2, (offset_of(moment)?.seconds / 60 % 60) as u64))
        }
        Component::OffsetSecond(m) => {
            Ok(plain(m.padding, 2, (offset_of(moment)?.seconds % 60) as u64))
        }
        Component::UnixTimestampSecond(m) => {
            instant_field(moment, Unit::Second, m.sign_is_mandatory)
        }
        Component::UnixTimestampMillisecond(m) => {
            instant_field(moment, Unit::Millisecond, m.sign_is_mandatory)
        }
        Component::UnixTimestampMicrosecond(m) => {
            instant_field(moment, Unit::Microsecond, m.sign_is_mandatory)
        }
        Component::UnixTimestampNanosecond(m) => {
            instant_field(moment, Unit::Nanosecond, m.sign_is_mandatory)
        }
        Component::Ignore(_)
        | Component::End(_)
        | Component::Month(_)
        | Component::Weekday(_)
        | Component::WeekNumber(_)
        | Component::Hour(_)
        | Component::UnixTimestamp(_)
        | Component::Year(_) => Ok(WrittenField::Nothing),
    }
}

fn weekday(one_indexed: bool, days: u8) -> WrittenField
    requires { days ≤ 6 }
    ensures { result ≡ spec.plain Padding.None 1 (spec.from_one one_indexed days) }
{
    let number = if one_indexed { days + 1 } else { days };
    plain(Padding::None, 1, number as u64)
}
