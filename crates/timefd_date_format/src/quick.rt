//! A quick way to append what most components show. All others go the slow way.

ghost use Rattle.std.specs.Prelude.{◌+◌, ◌≤◌, ◌<◌, ℕ, length, Ok};
ghost use Rattle.timefd_lang_component.specs.Texts.{filled};
ghost use Rattle.timefd_lang_component.specs.declared.component.Component.{Component as Shape};
ghost use Rattle.timefd_date_format.specs.Appends.{IsAppended, TriesToAppend};
ghost use Rattle.timefd_date_format.specs.Fields as spec;
ghost use Rattle.timefd_date_format.specs.Written.{shown, text_of};

use crate::append::{append_both, append_bytes, append_four, append_sign, append_two};
use crate::fraction::append_fraction;
use crate::names::{month_long, month_short, weekday_long, weekday_short};
use crate::slow::append_slowly;
use timefd_date_moment::Moment;
use timefd_lang_component::Component;
use timefd_modifier::Padding;

/// Appends what a component shows, and returns the position after it. `None` if it shows nothing; then the
/// bytes in front of `at` are as they were.
#[inline(always)]
pub fn append_component(
    moment: &Moment,
    component: &Component,
    room: &mut [u8],
    at: usize,
) -> Option<usize>
    requires { at + 32 ≤ length room.old }
    ensures { TriesToAppend (shown moment.now component.now) room.old at room.new result }
{
    match append_quickly(moment, component, room, at) {
        Some(end) => Some(end),
        None => append_slowly(moment, component, room, at),
    }
}

/// Appends what a component shows if that is a number of two digits, a year of four, a fraction or a name.
/// `None` for all others, and if the moment lacks a part; then the bytes in front of `at` are as they were.
#[inline(always)]
pub fn append_quickly(
    moment: &Moment,
    component: &Component,
    room: &mut [u8],
    at: usize,
) -> Option<usize>
    requires { at + 32 ≤ length room.old }
    ensures { TriesToAppend (shown moment.now component.now) room.old at room.new result }
{
    match *component {
        Component::CalendarYearFullExtendedRange(m) => {
            let date = moment.date?;
            append_year(m.padding, m.sign_is_mandatory, date.years, room, at)
        }
        Component::CalendarYearFullStandardRange(m) => {
            let date = moment.date?;
            append_year(m.padding, m.sign_is_mandatory, date.years, room, at)
        }
        Component::MonthNumerical(m) => {
            let date = moment.date?;
            Some(append_padded(m.padding, date.month as u32, room, at))
        }
        Component::Day(m) => {
            let date = moment.date?;
            Some(append_padded(m.padding, date.day as u32, room, at))
        }
        Component::MonthShort(_) => {
            let date = moment.date?;
            Some(append_bytes(month_short(date.month).as_bytes(), room, at))
        }
        Component::MonthLong(_) => {
            let date = moment.date?;
            Some(append_bytes(month_long(date.month).as_bytes(), room, at))
        }
        Component::WeekdayShort(_) => {
            let date = moment.date?;
            let day = date.number_days_from_monday();
            Some(append_bytes(weekday_short(day).as_bytes(), room, at))
        }
        Component::WeekdayLong(_) => {
            let date = moment.date?;
            let day = date.number_days_from_monday();
            Some(append_bytes(weekday_long(day).as_bytes(), room, at))
        }
        Component::Hour24(m) => {
            let time = moment.time?;
            Some(append_padded(m.padding, time.hour as u32, room, at))
        }
        Component::Minute(m) => {
            let time = moment.time?;
            Some(append_padded(m.padding, time.minute as u32, room, at))
        }
        Component::Second(m) => {
            let time = moment.time?;
            Some(append_padded(m.padding, time.second as u32, room, at))
        }
        Component::Subsecond(m) => {
            let time = moment.time?;
            Some(append_fraction(m.digits, time.nanosecond, room, at))
        }
        Component::OffsetHour(m) => {
            let offset = moment.offset?;
            Some(append_hours(
                m.padding,
                m.sign_is_mandatory,
                offset.is_negative,
                offset.seconds / 3_600,
                room,
                at,
            ))
        }
        Component::OffsetMinute(m) => {
            let offset = moment.offset?;
            Some(append_padded(m.padding, offset.seconds / 60 % 60, room, at))
        }
        Component::Ordinal(_)
        | Component::WeekdaySunday(_)
        | Component::WeekdayMonday(_)
        | Component::WeekNumberIso(_)
        | Component::WeekNumberSunday(_)
        | Component::WeekNumberMonday(_)
        | Component::CalendarYearCenturyExtendedRange(_)
        | Component::CalendarYearCenturyStandardRange(_)
        | Component::IsoYearFullExtendedRange(_)
        | Component::IsoYearFullStandardRange(_)
        | Component::IsoYearCenturyExtendedRange(_)
        | Component::IsoYearCenturyStandardRange(_)
        | Component::CalendarYearLastTwo(_)
        | Component::IsoYearLastTwo(_)
        | Component::Hour12(_)
        | Component::Period(_)
        | Component::OffsetSecond(_)
        | Component::Ignore(_)
        | Component::UnixTimestampSecond(_)
        | Component::UnixTimestampMillisecond(_)
        | Component::UnixTimestampMicrosecond(_)
        | Component::UnixTimestampNanosecond(_)
        | Component::End(_)
        | Component::Month(_)
        | Component::Weekday(_)
        | Component::WeekNumber(_)
        | Component::Hour(_)
        | Component::UnixTimestamp(_)
        | Component::Year(_) => None,
    }
}

/// Appends a number of at most two digits.
#[inline(always)]
#[tactic(auto, using(crate::proofs::DigitLemmas::two_filled))]
fn append_padded(padding: Padding, number: u32, room: &mut [u8], at: usize) -> usize
    requires short { number < 100 }
    requires there { at + 2 ≤ length room.old }
    ensures { IsAppended (filled padding 2 number) room.old at room.new result }
{
    match padding {
        Padding::Zero => append_two(number, room, at),
        Padding::Space => append_spaced(number, room, at),
        Padding::None => append_unfilled(number, room, at),
    }
}

#[inline(never)]
#[tactic(auto, using(crate::proofs::FilledLemmas::spaced_short, crate::proofs::FilledLemmas::spaced_full))]
fn append_spaced(number: u32, room: &mut [u8], at: usize) -> usize
    requires short { number < 100 }
    requires there { at + 2 ≤ length room.old }
    ensures { IsAppended (filled Padding.Space 2 number) room.old at room.new result }
{
    if number < 10 {
        return append_both(b' ', b'0' + number as u8, room, at);
    }
    append_two(number, room, at)
}

#[inline(never)]
#[tactic(auto, using(crate::proofs::FilledLemmas::unfilled_short, crate::proofs::FilledLemmas::unfilled_full))]
fn append_unfilled(number: u32, room: &mut [u8], at: usize) -> usize
    requires short { number < 100 }
    requires there { at + 2 ≤ length room.old }
    ensures { IsAppended (filled Padding.None 2 number) room.old at room.new result }
{
    if number < 10 {
        return append_bytes(&[b'0' + number as u8], room, at);
    }
    append_two(number, room, at)
}

/// Appends the hours of an offset after their sign.
#[inline(always)]
#[tactic(auto, using(crate::proofs::AppendLemmas::both_appended))]
fn append_hours(
    padding: Padding,
    is_mandatory: bool,
    is_negative: bool,
    hours: u32,
    room: &mut [u8],
    at: usize,
) -> usize
    requires short { hours < 100 }
    requires there { at + 3 ≤ length room.old }
    ensures { IsAppended (spec.field_text (spec.signed is_negative is_mandatory padding 2 hours))
        room.old at room.new result }
{
    let digits = append_sign(is_negative, is_mandatory, room, at);
    append_padded(padding, hours, room, digits)
}

/// Appends a year of four digits, if it is shown without a sign.
#[inline(always)]
#[tactic(auto, using(crate::proofs::QuickLemmas::year_appended))]
fn append_year(
    padding: Padding,
    is_mandatory: bool,
    years: u32,
    room: &mut [u8],
    at: usize,
) -> Option<usize>
    requires { at + 4 ≤ length room.old }
    ensures { (shape : Shape) (greatest : ℕ) → 9999 ≤ greatest → TriesToAppend
        (text_of shape (spec.year greatest 4 1 padding is_mandatory years)) room.old at room.new result }
{
    if is_mandatory || years < 1_000_000 || years >= 1_010_000 {
        return None;
    }
    match padding {
        Padding::Zero => Some(append_four(years - 1_000_000, room, at)),
        Padding::Space | Padding::None => None,
    }
}
