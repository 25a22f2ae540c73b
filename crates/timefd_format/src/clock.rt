//! The current moment.

ghost use Rattle.std.specs.Prelude.{IfSome};
ghost use Rattle.timefd_format.specs.FromJiff.Zones.{IsOnClock, instant};
ghost use Rattle.timefd_date_moment.specs.declared.unix_time.UnixTime.{UnixTime as Instant};

use crate::from_jiff::moment_in_zone;
use jiff_tz::TimeZone;
use std::time::{Clock, SystemTime};
use timefd_date_moment::{Moment, UnixTime};

/// What a clock in the zone shows now. `None` if the clock can't be read, or is set before 1970.
pub fn moment_now<C: Clock>(clock: &C, zone: &TimeZone<'_>) -> Option<Moment>
    ensures { IfSome result (λ moment. (known : Instant) × IsOnClock zone.now (instant known) moment) }
{
    let now = SystemTime::now(clock).ok()?;
    let since_1970 = now.duration_since(SystemTime::UNIX_EPOCH).ok()?;
    let unix = UnixTime {
        is_negative: false,
        nanoseconds: since_1970.as_nanos(),
    };
    shown_at(zone, unix)
}

// What a clock in the zone shows at an instant.
fn shown_at(zone: &TimeZone<'_>, unix: UnixTime) -> Option<Moment>
    ensures { IfSome result (λ moment. (known : Instant) × IsOnClock zone.now (instant known) moment) }
{
    match moment_in_zone(zone, unix) {
        Ok(moment) => Some(moment),
        Err(_) => None,
    }
}
