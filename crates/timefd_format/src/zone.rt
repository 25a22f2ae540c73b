//! Moments as the clock of a time zone shows them.

ghost use Rattle.std.specs.Prelude.{◌≡◌};
ghost use Rattle.timefd_format.specs.Zones as spec;
ghost use Rattle.timefd_format.specs.Zones.{IsInZone};

use crate::from_jiff::moment_in_zone;
use crate::moment::MomentError;
use jiff_tz::TimeZone;
use timefd_date_moment::{Moment, UnixTime};

/// The instant of a moment. `None` if its date, its time or its offset isn't known.
pub fn instant_of(moment: Moment) -> Option<UnixTime>
    ensures { result ≡ spec.instant_of moment }
{
    match (moment.date, moment.time, moment.offset) {
        (Some(date), Some(time), Some(offset)) => Some(UnixTime::of(date, time, offset)),
        _ => None,
    }
}

/// What a clock in the zone shows at the instant of a moment. An `Err` says that the moment isn't an
/// instant, or that its year is outside of those in which zones are known.
pub fn in_zone(zone: &TimeZone<'_>, moment: Moment) -> Result<Moment, MomentError>
    ensures { IsInZone zone.now moment result }
{
    let Some(instant) = instant_of(moment) else {
        return Err(MomentError::NoInstant);
    };
    match moment_in_zone(zone, instant) {
        Ok(moment) => Ok(moment),
        Err(_) => Err(MomentError::Years),
    }
}
