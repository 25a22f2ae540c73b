//! The moment of numbers that were read without fields. This is the fast way for common texts.

ghost use Rattle.std.specs.Prelude.{◌≡◌, ◌+◌, IfSome, Ok};
ghost use Rattle.timefd_date_moment.specs.Fields.Short.{fields_with};
ghost use Rattle.timefd_date_moment.specs.Reading.Times.{number};
ghost use Rattle.timefd_date_moment.specs.Reading.Values.{IsDateIn, IsMomentOf, IsTimeIn};

use crate::fields::Numbers;
use crate::reading::times::number;
use crate::{Date, Moment, Time};

/// The moment of a whole date, of a time from the hour on, or of both. `None` says nothing about
/// the numbers; the fields decide then.
#[inline(always)]
#[tactic(auto, using(crate::proofs::ReadingLemmas::NumberLemmas::both_known))]
pub fn moment_of_numbers(numbers: Numbers) -> Option<Moment>
    ensures { IfSome result (λ moment. IsMomentOf (fields_with numbers) (Ok moment)) }
{
    let date = date_shown(numbers)?;
    let time = time_shown(numbers)?;
    Some(Moment {
        date,
        time,
        offset: None,
    })
}

#[inline(always)]
#[tactic(auto, using(crate::proofs::ReadingLemmas::NumberLemmas::date_known, crate::proofs::ReadingLemmas::NumberLemmas::no_date))]
fn date_shown(numbers: Numbers) -> Option<Option<Date>>
    ensures { IfSome result (λ date. IsDateIn (fields_with numbers) (Ok date)) }
{
    match numbers.year {
        Some(year) => {
            let date = date_of(year, numbers.month?, numbers.day?)?;
            Some(Some(date))
        }
        None => match numbers.month {
            None => match numbers.day {
                None => Some(None),
                Some(_) => None,
            },
            Some(_) => None,
        },
    }
}

/// The date of these numbers.
#[inline(always)]
fn date_of(year: u16, month: u16, day: u16) -> Option<Date>
    ensures { IfSome result (λ date. (date.years ≡ year + 1000000) × (date.month ≡ month) × (date.day ≡ day)) }
{
    if month > 12 || day > 31 {
        return None;
    }
    match Date::from_calendar_date(year as i32, month as u8, day as u8) {
        Ok(date) => Some(date),
        Err(_) => None,
    }
}

#[inline(always)]
#[tactic(auto, using(crate::proofs::ReadingLemmas::NumberLemmas::time_known, crate::proofs::ReadingLemmas::NumberLemmas::no_time))]
fn time_shown(numbers: Numbers) -> Option<Option<Time>>
    ensures { IfSome result (λ time. IsTimeIn (fields_with numbers) (Ok time)) }
{
    match numbers.hour {
        Some(hour) => {
            let time = time_of(hour, numbers.minute?, numbers.second)?;
            Some(Some(time))
        }
        None => match numbers.minute {
            None => match numbers.second {
                None => Some(None),
                Some(_) => None,
            },
            Some(_) => None,
        },
    }
}

/// The time of day of these numbers. Seconds that were not read are 0.
#[inline(always)]
fn time_of(hour: u16, minute: u16, second: Option<u16>) -> Option<Time>
    ensures { IfSome result (λ time. (time.hour ≡ hour) × (time.minute ≡ minute) × (time.second ≡ number second)
        × (time.nanosecond ≡ 0)) }
{
    let second = number(second);
    if hour > 23 || minute > 59 || second > 59 {
        return None;
    }
    Some(Time {
        hour: hour as u8,
        minute: minute as u8,
        second: second as u8,
        nanosecond: 0,
    })
}
