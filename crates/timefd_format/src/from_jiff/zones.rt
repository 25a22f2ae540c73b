//! What a clock in a time zone shows. `jiff` has instants in the years -9999 to 9999.

ghost use Rattle.timefd_format.specs.FromJiff.Zones.{IsOffsetAt, IsOnClock, IsShownIn};

use crate::from_jiff::dates::plain_date;
use crate::from_jiff::instants::unix_time_to_jiff;
use crate::from_jiff::times::{plain_offset, plain_time};
use jiff_core::Error;
use jiff_tz::TimeZone;
use timefd_date_moment::{Moment, UnixTime, UtcOffset};

/// The offset of the zone at an instant. An `Err` says that `jiff` has no such instant.
pub fn offset_in_zone(zone: &TimeZone<'_>, unix: UnixTime) -> Result<UtcOffset, Error>
    ensures { IsOffsetAt zone.now unix result }
{
    match unix_time_to_jiff(unix) {
        Ok(timestamp) => Ok(plain_offset(zone.to_offset(timestamp.to_plain()))),
        Err(error) => Err(error),
    }
}

/// The date and the time of day that a clock in the zone shows at an instant, with its offset. An `Err`
/// says that `jiff` has no such instant.
pub fn moment_in_zone(zone: &TimeZone<'_>, unix: UnixTime) -> Result<Moment, Error>
    ensures { IsShownIn zone.now unix result }
{
    match unix_time_to_jiff(unix) {
        Ok(timestamp) => Ok(moment_at(zone, timestamp.to_plain())),
        Err(error) => Err(error),
    }
}

fn moment_at(zone: &TimeZone<'_>, timestamp: jiff_core::Timestamp) -> Moment
    ensures { IsOnClock zone.now timestamp.nanosecond result }
{
    let datetime = zone.to_datetime(timestamp);
    Moment {
        date: Some(plain_date(datetime.date)),
        time: Some(plain_time(datetime.time)),
        offset: Some(plain_offset(zone.to_offset(timestamp))),
    }
}
