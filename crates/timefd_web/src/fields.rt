//! The moment that the page passes.

ghost use Rattle.timefd_web.specs.Moments.{IsMomentOf};

use timefd_date_moment::{ComponentRange, Date, Moment, Time, UtcOffset};

/// A date, a time of day and an offset from UTC, in plain numbers.
#[repr(C)]
#[derive(Debug, Clone, Copy, PartialEq, Eq)]
pub struct MomentParts {
    /// The year, from -999,999 to 999,999.
    pub year: i32,
    /// The nanosecond of the second, below 1,000,000,000.
    pub nanosecond: u32,
    /// How many seconds the clock is ahead of UTC, or behind it if negative: less than 26 hours
    /// either way.
    pub offset_seconds: i32,
    /// The month, from 1.
    pub month: u8,
    /// The day of the month, from 1.
    pub day: u8,
    /// The hour, from 0 to 23.
    pub hour: u8,
    /// The minute, from 0 to 59.
    pub minute: u8,
    /// The second, from 0 to 59.
    pub second: u8,
}

// `web/timefd.mjs` expects this size.
const _: () = prove!(size_of::<MomentParts>() == 20);

impl MomentParts {
    /// The moment with these numbers. An `Err` names the first number that is out of its range.
    pub fn moment(&self) -> Result<Moment, ComponentRange>
        ensures moment { IsMomentOf self.now result }
    {
        let date = Date::from_calendar_date(self.year, self.month, self.day)?;
        let time = Time::from_hms_nano(self.hour, self.minute, self.second, self.nanosecond)?;
        let offset = UtcOffset::from_whole_seconds(self.offset_seconds)?;
        Ok(Moment {
            date: Some(date),
            time: Some(time),
            offset: Some(offset),
        })
    }
}
