//! The time of day that fields determine.

ghost use Rattle.std.specs.Prelude.{◌≡◌, Ok, IfOk};
ghost use Rattle.timefd_date_moment.specs.Reading.Faults.{clock_fault, fault_of};
ghost use Rattle.timefd_date_moment.specs.Reading.Times as spec;
ghost use Rattle.timefd_date_moment.specs.Reading.Times.{IsTimeByParts, Selects};
ghost use Rattle.timefd_date_moment.specs.Reading.Values.{IsTimeOf};

use crate::Time;
use crate::fields::{Fields, Fraction};
use crate::reading::error::ValueError;
use crate::reading::part::{Part, TimePart};
use crate::reading::shown::time_contradiction;
use crate::reading::stamp::instant_read;
use crate::reading::stamped::of_stamp;

/// The numbers of a time of day.
#[derive(Clone, Copy)]
pub(crate) struct Clock {
    hour: u16,
    minute: u16,
    second: u16,
    nanosecond: u128,
}

/// The time of day that agrees with all that was read. It is determined by the hour, or by the hour of
/// twelve and the period. Minutes, seconds and a fraction that were not read are 0, but nothing finer
/// may have been read without them. With a timestamp, the time is that of the
/// [`moment`](crate::reading::moment).
///
/// An `Err` says which part was not read, or that no time agrees with all that was read. Corresponds to
/// `Time::try_from` for `Parsed` in `time`.
pub fn time(fields: &Fields) -> Result<Time, ValueError>
    ensures { IsTimeOf fields.now result }
{
    match instant_read(fields) {
        Some(unix) => match of_stamp(fields, unix) {
            Ok(stamped) => Ok(stamped.time),
            Err(error) => Err(error),
        },
        None => time_by_parts(fields),
    }
}

/// The time of day that its own fields determine, without a timestamp.
pub(crate) fn time_by_parts(fields: &Fields) -> Result<Time, ValueError>
    ensures { IsTimeByParts fields.now result }
{
    match clock_read(fields) {
        Ok(clock) => compared(fields, clock),
        Err(part) => Err(ValueError::Missing(Part::Time(part))),
    }
}

fn compared(fields: &Fields, clock: Clock) -> Result<Time, ValueError>
    requires { spec.clock_read fields.now ≡ Ok clock }
    ensures { IsTimeByParts fields.now result }
{
    match time_of(clock) {
        Ok(time) => match time_contradiction(fields, time) {
            None => Ok(time),
            Some(part) => Err(ValueError::Contradiction(Part::Time(part))),
        },
        Err(part) => Err(ValueError::Contradiction(Part::Time(part))),
    }
}

/// The time of day of these numbers. An `Err` is the first number that no time of day has.
fn time_of(clock: Clock) -> Result<Time, TimePart>
    ensures found { IfOk result (λ time. spec.ClockHas clock time) }
    ensures one { Selects (spec.ClockHas clock) result }
    ensures fault { clock_fault clock ≡ fault_of result }
{
    if clock.hour > 23 {
        return Err(TimePart::Hour);
    }
    if clock.minute > 59 {
        return Err(TimePart::Minute);
    }
    if clock.second > 59 {
        return Err(TimePart::Second);
    }
    if clock.nanosecond > 999_999_999 {
        return Err(TimePart::Subsecond);
    }
    Ok(Time {
        hour: clock.hour as u8,
        minute: clock.minute as u8,
        second: clock.second as u8,
        nanosecond: clock.nanosecond as u32,
    })
}

/// The numbers that were read. An `Err` is the part that was not read.
fn clock_read(fields: &Fields) -> Result<Clock, TimePart>
    ensures { result ≡ spec.clock_read fields.now }
{
    match hour(fields.hour, fields.hour_12, fields.is_afternoon) {
        Some(hour) => clock_from(fields, hour),
        None => Err(lack_of_hour(fields)),
    }
}

/// The hour, if it was read by either clock.
fn hour(hour: Option<u16>, hour_12: Option<u16>, is_afternoon: Option<bool>) -> Option<u16>
    ensures { result ≡ spec.hour_read hour hour_12 is_afternoon }
{
    match hour {
        Some(hour) => Some(hour),
        None => hour_by_period(hour_12, is_afternoon),
    }
}

fn hour_by_period(hour: Option<u16>, is_afternoon: Option<bool>) -> Option<u16>
    ensures { result ≡ spec.hour_by_period hour is_afternoon }
{
    match (hour, is_afternoon) {
        (Some(hour), Some(is_afternoon)) => { Some(hour % 12 + if is_afternoon { 12 } else { 0 }) }
        (None, _) | (Some(_), None) => None,
    }
}

fn lack_of_hour(fields: &Fields) -> TimePart
    ensures { result ≡ spec.lack_of_hour fields.now }
{
    if fields.hour_12.is_some() {
        TimePart::Period
    } else if fields.is_afternoon.is_some() {
        TimePart::Hour12
    } else {
        TimePart::Hour
    }
}

fn clock_from(fields: &Fields, hour: u16) -> Result<Clock, TimePart>
    ensures { result ≡ spec.clock_from fields.now hour }
{
    if is_left_out(fields.minute, has_second(fields)) {
        return Err(TimePart::Minute);
    }
    if is_left_out(fields.second, fields.subsecond.is_some()) {
        return Err(TimePart::Second);
    }
    Ok(Clock {
        hour,
        minute: number(fields.minute),
        second: number(fields.second),
        nanosecond: nanosecond(fields.subsecond),
    })
}

/// Whether the coarser part was not read, though the finer one was.
pub(crate) fn is_left_out(coarse: Option<u16>, is_finer_read: bool) -> bool
    ensures { result ≡ spec.is_left_out coarse is_finer_read }
{
    match coarse {
        Some(_) => false,
        None => is_finer_read,
    }
}

fn has_second(fields: &Fields) -> bool
    ensures { result ≡ spec.has_second fields.now }
{
    fields.second.is_some() || fields.subsecond.is_some()
}

pub(crate) fn number(read: Option<u16>) -> u16
    ensures { result ≡ spec.number read }
{
    match read {
        Some(number) => number,
        None => 0,
    }
}

pub(crate) fn nanosecond(read: Option<Fraction>) -> u128
    ensures { result ≡ spec.nanosecond_read read }
{
    match read {
        Some(fraction) => fraction.nanosecond,
        None => 0,
    }
}
