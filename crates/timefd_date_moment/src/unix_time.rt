//! Instants.

ghost use Rattle.std.specs.Prelude.{◌≡◌, ◌≤◌, ◌*ℤ◌, pos, IfErr, IfOk, IsFalse, IsTrue};

use crate::component_range::ComponentRange;
use crate::date::Date;
use crate::from_day::date_of_day;
use crate::offset::UtcOffset;
use crate::time::Time;

/// An instant, as its distance from the start of 1970 in UTC.
#[derive(Debug, Clone, Copy, PartialEq, Eq)]
pub struct UnixTime {
    /// Whether it is before the start of 1970.
    pub is_negative: bool,
    /// The distance in nanoseconds.
    pub nanoseconds: u128,
}

// The start of 1970, in the count that `UnixTime::of` uses.
const UNIX_START: u128 = (365_962_028 * 86_400 + 100_000) * 1_000_000_000;

impl UnixTime {
    ghost use Rattle.timefd_date_moment.specs.Instants.{count, is_within};
    ghost use Rattle.timefd_date_moment.specs.Moments as spec;
    ghost use Rattle.timefd_date_moment.specs.Signed.{signed};

    /// The instant of a date and time with an offset.
    pub fn of(date: Date, time: Time, offset: UtcOffset) -> UnixTime
        ensures { result ≡ spec.unix_time date time offset }
    {
        let local = date.day_number() as u64 * 86_400
            + time.hour as u64 * 3_600
            + time.minute as u64 * 60
            + time.second as u64
            + 100_000;
        let utc = if offset.is_negative {
            local + offset.seconds as u64
        } else {
            local - offset.seconds as u64
        };
        let nanoseconds = utc as u128 * 1_000_000_000 + time.nanosecond as u128;
        if nanoseconds < UNIX_START {
            UnixTime {
                is_negative: true,
                nanoseconds: UNIX_START - nanoseconds,
            }
        } else {
            UnixTime {
                is_negative: false,
                nanoseconds: nanoseconds - UNIX_START,
            }
        }
    }

    /// The instant this many nanoseconds after the start of 1970. Before 1970 the number is
    /// negative.
    pub fn from_nanoseconds(nanoseconds: i128) -> UnixTime
        ensures value { signed result.is_negative result.nanoseconds ≡ nanoseconds }
        ensures no_negative_zero { IsTrue result.is_negative → 1 ≤ result.nanoseconds }
    {
        UnixTime {
            is_negative: nanoseconds < 0,
            nanoseconds: nanoseconds.unsigned_abs(),
        }
    }

    /// The instant this many seconds after the start of 1970. Before 1970 the number is negative.
    pub fn from_seconds(seconds: i64) -> UnixTime
        ensures value { signed result.is_negative result.nanoseconds ≡ seconds *ℤ pos 1000000000 }
        ensures no_negative_zero { IsTrue result.is_negative → 1 ≤ result.nanoseconds }
    {
        UnixTime::from_nanoseconds(seconds as i128 * 1_000_000_000)
    }

    /// Whether its year in UTC is from -999,999 to 999,999.
    pub fn is_within(self) -> bool
        ensures { result ≡ is_within self }
    {
        const EARLIEST: u128 = 31_619_087_596_800 * 1_000_000_000;
        const END: u128 = 31_494_784_780_800 * 1_000_000_000;
        if self.is_negative {
            self.nanoseconds <= EARLIEST
        } else {
            self.nanoseconds < END
        }
    }

    /// The date and time in UTC. An `Err` says that the year is not from -999,999 to 999,999.
    pub(crate) fn date_and_time(self) -> Result<(Date, Time), ComponentRange>
        ensures found { IfOk result (λ r. spec.local_nanoseconds r.0 r.1 ≡ count self) }
        ensures in_range { IfOk result (λ r. IsTrue (is_within self)) }
        ensures fault { IfErr result (λ e. (e ≡ ComponentRange.Instant)
            × IsFalse (is_within self)) }
    {
        if !self.is_within() {
            return Err(ComponentRange::Instant);
        }
        let count = if self.is_negative {
            UNIX_START - self.nanoseconds
        } else {
            UNIX_START + self.nanoseconds
        };
        let seconds = (count / 1_000_000_000) as u64 - 100_000;
        let date = date_of_day((seconds / 86_400) as u32);
        let time = Time::of_second((seconds % 86_400) as u32, (count % 1_000_000_000) as u32);
        Ok((date, time))
    }
}
