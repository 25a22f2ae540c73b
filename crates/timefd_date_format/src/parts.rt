//! The parts of a moment, each of which a component may need.

ghost use Rattle.std.specs.Prelude.{◌≡◌, IfErr, IfOk, None, Some};

use crate::field::Lack;
use timefd_date_moment::{Date, Moment, Time, UtcOffset};

/// The date of a moment.
#[inline(always)]
pub(crate) fn date_of(moment: Moment) -> Result<Date, Lack>
    ensures there { IfOk result (λ date. moment.date ≡ Some date) }
    ensures lacking { IfErr result (λ lack. (lack ≡ Lack.NoDate) × (moment.date ≡ None)) }
{
    moment.date.ok_or(Lack::NoDate)
}

/// The time of day of a moment.
#[inline(always)]
pub(crate) fn time_of(moment: Moment) -> Result<Time, Lack>
    ensures there { IfOk result (λ time. moment.time ≡ Some time) }
    ensures lacking { IfErr result (λ lack. (lack ≡ Lack.NoTime) × (moment.time ≡ None)) }
{
    moment.time.ok_or(Lack::NoTime)
}

/// The offset of a moment from UTC.
#[inline(always)]
pub(crate) fn offset_of(moment: Moment) -> Result<UtcOffset, Lack>
    ensures there { IfOk result (λ offset. moment.offset ≡ Some offset) }
    ensures lacking { IfErr result (λ lack. (lack ≡ Lack.NoOffset) × (moment.offset ≡ None)) }
{
    moment.offset.ok_or(Lack::NoOffset)
}
