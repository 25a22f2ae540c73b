//! What the toolchain's `jiff_strtime` writes and reads, in the types of `timefd_date_moment`.

use crate::fault::RowFault;
use jiff_core::Offset;
use jiff_strtime::{BrokenDownTime, Config, Locale, parse, to_string};
use std::alloc::Global;
use timefd_date_moment::{Date, Moment, Time, UtcOffset};

const NO_MOMENT: RowFault = RowFault::Field(
    "a moment that `jiff_strtime` can hold, with all its parts",
);

/// A moment of the years -9999 to 9999, as `jiff_strtime` has it.
fn broken_down(moment: Moment) -> Result<BrokenDownTime<'static>, RowFault> {
    let (Some(date), Some(time), Some(offset)) = (moment.date, moment.time, moment.offset) else {
        return Err(NO_MOMENT);
    };
    let offset = Offset::from_seconds(i64::from(offset.whole_seconds()));
    Ok(BrokenDownTime {
        year: Some(i16::try_from(date.year()).ok().ok_or(NO_MOMENT)?),
        month: Some(date.month),
        day: Some(date.day),
        hour: Some(time.hour),
        minute: Some(time.minute),
        second: Some(time.second),
        subsec: Some(time.nanosecond),
        offset: Some(offset.ok().ok_or(NO_MOMENT)?),
        ..BrokenDownTime::empty()
    })
}

/// What `jiff_strtime` writes by a text, in the POSIX locale.
pub fn written_by_jiff(alloc: Global, moment: Moment, by: &str) -> Result<String, RowFault> {
    let config = Config {
        locale: Locale::Posix,
        lenient: false,
    };
    match to_string(alloc, config, by.as_bytes(), &broken_down(moment)?) {
        Ok(text) => Ok(text),
        Err(_) => Err(RowFault::Field("a text by which `jiff_strtime` writes")),
    }
}

/// The date that `jiff_strtime` reads.
pub fn date_by_jiff(by: &str, text: &str) -> Option<Date> {
    let parts = parse(by.as_bytes(), text.as_bytes()).ok()?;
    let date = parts.to_date().ok()?;
    Date::from_calendar_date(i32::from(date.year), date.month, date.day).ok()
}

/// The time of day that `jiff_strtime` reads.
pub fn time_by_jiff(by: &str, text: &str) -> Option<Time> {
    let parts = parse(by.as_bytes(), text.as_bytes()).ok()?;
    let time = parts.to_time().ok()?;
    Time::from_hms_nano(time.hour, time.minute, time.second, time.subsec_nanosecond).ok()
}

/// The offset that `jiff_strtime` reads.
pub fn offset_by_jiff(by: &str, text: &str) -> Option<UtcOffset> {
    let parts = parse(by.as_bytes(), text.as_bytes()).ok()?;
    UtcOffset::from_whole_seconds(parts.offset?.seconds).ok()
}
