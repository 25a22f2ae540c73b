//! What a clock shows at an instant.

ghost use Rattle.std.specs.Prelude.{◌≡◌, ◌≤◌, ◌*◌};
ghost use Rattle.timefd_date_moment.specs.Instants.{count};
ghost use Rattle.timefd_date_moment.specs.Reading.Locals as spec;
ghost use Rattle.timefd_date_moment.specs.Reading.Locals.{IsShownAt};

use crate::{Date, Moment, Time, UnixTime, UtcOffset};

// The start of 1970, in nanoseconds counted from about 28 hours before the year -1,000,000.
const UNIX_START: u128 = (365_962_028 * 86_400 + 100_000) * 1_000_000_000;

/// The date and the time that a clock at the offset shows at an instant. `None` if the year is not
/// from -999,999 to 999,999, on the clock or in UTC.
pub(crate) fn shown_at(unix: UnixTime, offset: UtcOffset) -> Option<(Date, Time)>
    ensures { IsShownAt unix offset result }
{
    if !unix.is_within() {
        return None;
    }
    match Moment::from_unix(on_clock(unix, offset)) {
        Ok(moment) => both_known(moment.date, moment.time),
        Err(_) => None,
    }
}

fn both_known(date: Option<Date>, time: Option<Time>) -> Option<(Date, Time)>
    ensures { result ≡ spec.both_known date time }
{
    match date {
        Some(date) => match time {
            Some(time) => Some((date, time)),
            None => None,
        },
        None => None,
    }
}

/// The instant at which a clock in UTC shows the same.
fn on_clock(unix: UnixTime, offset: UtcOffset) -> UnixTime
    requires { unix.nanoseconds ≤ 31619087596800000000000 }
    ensures { count result ≡ spec.on_clock offset (count unix) }
{
    let nanoseconds = offset.seconds as u128 * 1_000_000_000;
    if offset.is_negative {
        counted(count_of(unix) - nanoseconds)
    } else {
        counted(count_of(unix) + nanoseconds)
    }
}

fn count_of(unix: UnixTime) -> u128
    requires { unix.nanoseconds ≤ 31619087596800000000000 }
    ensures value { result ≡ count unix }
    ensures low { 31722400000000000 ≤ result }
    ensures high { result ≤ 64000000000000000000000 }
{
    if unix.is_negative {
        UNIX_START - unix.nanoseconds
    } else {
        UNIX_START + unix.nanoseconds
    }
}

/// The instant with this count of nanoseconds.
fn counted(nanoseconds: u128) -> UnixTime
    ensures { count result ≡ nanoseconds }
{
    if nanoseconds < UNIX_START {
        UnixTime {
            is_negative: true,
            nanoseconds: UNIX_START - nanoseconds,
        }
    } else {
        UnixTime {
            is_negative: false,
            nanoseconds: nanoseconds - UNIX_START,
        }
    }
}
