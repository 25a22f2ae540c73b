//! The moment as C passes and receives it.

ghost use Rattle.std.specs.Prelude.{◌≡◌, ◌≤◌, None};
ghost use Rattle.timefd_c.specs.Moments as spec;
ghost use Rattle.timefd_c.specs.Moments.{AreNumbers, AreOfDate, AreOfTime, IsDate, IsMoment, IsMomentOf, IsOffset, IsPart, IsTime, date_range, offset_range, range_fault, time_range, unknown};

use timefd_date_moment::{ComponentRange, Date, Moment, Time, UtcOffset};

/// What is known of a value, in plain numbers.
#[repr(C)]
#[derive(Debug, Clone, Copy, PartialEq, Eq)]
pub struct MomentFields {
    /// Which parts are known: 1 for the date, 2 for the time of day, 4 for the offset, or the sum
    /// of these. The numbers of a part that isn't known are ignored.
    pub known: u32,
    /// The year, from -999,999 to 999,999.
    pub year: i32,
    /// The nanosecond of the second, below 1,000,000,000.
    pub nanosecond: u32,
    /// How many seconds the clock is ahead of UTC, or behind it if negative: less than 26 hours
    /// either way.
    pub offset_seconds: i32,
    /// The month, from 1.
    pub month: u8,
    /// The day of the month, from 1.
    pub day: u8,
    /// The hour, from 0 to 23.
    pub hour: u8,
    /// The minute, from 0 to 59.
    pub minute: u8,
    /// The second, from 0 to 59.
    pub second: u8,
}

// `examples/timefd.h` declares it with this size.
const _: () = prove!(size_of::<MomentFields>() == 24);

const _: () = prove!(align_of::<MomentFields>() == 4);

impl MomentFields {
    /// The numbers of a moment of which nothing is known.
    pub(crate) fn unknown() -> MomentFields
        ensures { result ≡ unknown }
    {
        MomentFields {
            known: 0,
            year: 0,
            nanosecond: 0,
            offset_seconds: 0,
            month: 0,
            day: 0,
            hour: 0,
            minute: 0,
            second: 0,
        }
    }

    /// The numbers of a moment. The numbers of a part that isn't known are 0.
    #[tactic(auto, using(crate::proofs::MomentLemmas::same, crate::proofs::MomentLemmas::in_range))]
    pub fn of(moment: Moment) -> MomentFields
        ensures numbers { AreNumbers moment result }

        // `moment` gives the same moment back.
        ensures same { IsMoment result moment }
        ensures in_range { range_fault result ≡ None }
    {
        MomentFields::with_numbers(moment)
    }

    fn with_numbers(moment: Moment) -> MomentFields
        ensures { AreNumbers moment result }
    {
        let (year, month, day) = date_numbers(moment.date);
        let (hour, minute, second, nanosecond) = time_numbers(moment.time);
        MomentFields {
            known: date_bit(moment.date) + time_bit(moment.time) + offset_bit(moment.offset),
            year,
            nanosecond,
            offset_seconds: offset_number(moment.offset),
            month,
            day,
            hour,
            minute,
            second,
        }
    }

    /// Whether the date is known.
    #[inline(always)]
    pub(crate) fn has_date(&self) -> bool
        ensures { result ≡ spec.has_date self.now }
    {
        self.known % 2 == 1
    }

    /// Whether the time of day is known.
    #[inline(always)]
    pub(crate) fn has_time(&self) -> bool
        ensures { result ≡ spec.has_time self.now }
    {
        self.known / 2 % 2 == 1
    }

    /// Whether the offset is known.
    #[inline(always)]
    pub(crate) fn has_offset(&self) -> bool
        ensures { result ≡ spec.has_offset self.now }
    {
        self.known / 4 % 2 == 1
    }

    /// The moment with these numbers. An `Err` names the first number that is out of its range.
    pub fn moment(&self) -> Result<Moment, ComponentRange>
        ensures { IsMomentOf self.now result }
    {
        Ok(Moment {
            date: self.date()?,
            time: self.time()?,
            offset: self.offset()?,
        })
    }

    fn date(&self) -> Result<Option<Date>, ComponentRange>
        ensures { IsPart (date_range self.now) (IsDate self.now) result }
    {
        if !self.has_date() {
            return Ok(None);
        }
        Ok(Some(Date::from_calendar_date(self.year, self.month, self.day)?))
    }

    fn time(&self) -> Result<Option<Time>, ComponentRange>
        ensures { IsPart (time_range self.now) (IsTime self.now) result }
    {
        if !self.has_time() {
            return Ok(None);
        }
        Ok(Some(Time::from_hms_nano(self.hour, self.minute, self.second, self.nanosecond)?))
    }

    fn offset(&self) -> Result<Option<UtcOffset>, ComponentRange>
        ensures { IsPart (offset_range self.now) (IsOffset self.now) result }
    {
        if !self.has_offset() {
            return Ok(None);
        }
        Ok(Some(UtcOffset::from_whole_seconds(self.offset_seconds)?))
    }
}

fn date_bit(date: Option<Date>) -> u32
    ensures bit { result ≡ spec.date_bit date }
    ensures most { result ≤ 1 }
{
    match date {
        Some(_) => 1,
        None => 0,
    }
}

fn time_bit(time: Option<Time>) -> u32
    ensures bit { result ≡ spec.time_bit time }
    ensures most { result ≤ 2 }
{
    match time {
        Some(_) => 2,
        None => 0,
    }
}

fn offset_bit(offset: Option<UtcOffset>) -> u32
    ensures bit { result ≡ spec.offset_bit offset }
    ensures most { result ≤ 4 }
{
    match offset {
        Some(_) => 4,
        None => 0,
    }
}

// The year, the month and the day.
fn date_numbers(date: Option<Date>) -> (i32, u8, u8)
    ensures { AreOfDate date result.0 result.1 result.2 }
{
    match date {
        Some(date) => (date.year(), date.month, date.day),
        None => (0, 0, 0),
    }
}

// The hour, the minute, the second and the nanosecond.
fn time_numbers(time: Option<Time>) -> (u8, u8, u8, u32)
    ensures { AreOfTime time result.0 result.1 result.2 result.3 }
{
    match time {
        Some(time) => (time.hour, time.minute, time.second, time.nanosecond),
        None => (0, 0, 0, 0),
    }
}

// How many seconds the clock is ahead of UTC.
fn offset_number(offset: Option<UtcOffset>) -> i32
    ensures { result ≡ spec.offset_number offset }
{
    match offset {
        Some(offset) => offset.whole_seconds(),
        None => 0,
    }
}
