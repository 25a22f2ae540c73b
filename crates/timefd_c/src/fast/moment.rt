//! The moment of numbers that are in their ranges.

ghost use Rattle.std.specs.Prelude.{◌≡◌, None, true};
ghost use Rattle.timefd_c.specs.Moments.{IsDate, IsMoment, IsOffset, IsTime, date_range, has_date, offset_range, range_fault, time_range};

use crate::moment::MomentFields;
use timefd_date_moment::{Date, Moment, Time, UtcOffset};

/// The moment with these numbers, of which the date is known. Only what is asked of the moment is looked at.
#[inline(always)]
#[tactic(auto, using(crate::proofs::FastLemmas::RangeLemmas::each_fits))]
pub(crate) fn moment_of(fields: &MomentFields) -> Moment
    requires date { has_date fields.now ≡ true }
    requires range { range_fault fields.now ≡ None }
    ensures { IsMoment fields.now result }
{
    Moment {
        date: Some(date_of(fields)),
        time: time_of(fields),
        offset: offset_of(fields),
    }
}

#[inline(always)]
#[tactic(auto, using(crate::proofs::FastLemmas::RangeLemmas::is_day))]
fn date_of(fields: &MomentFields) -> Date
    requires date { has_date fields.now ≡ true }
    requires range { date_range fields.now ≡ None }
    ensures { IsDate fields.now (Some result) }
{
    Date {
        years: (fields.year + 1_000_000) as u32,
        month: fields.month,
        day: fields.day,
    }
}

#[inline(always)]
#[tactic(auto, using(crate::proofs::FastLemmas::RangeLemmas::is_time_of_day))]
fn time_of(fields: &MomentFields) -> Option<Time>
    requires { time_range fields.now ≡ None }
    ensures { IsTime fields.now result }
{
    if !fields.has_time() {
        return None;
    }
    Some(Time {
        hour: fields.hour,
        minute: fields.minute,
        second: fields.second,
        nanosecond: fields.nanosecond,
    })
}

#[inline(always)]
#[tactic(auto, using(crate::proofs::FastLemmas::RangeLemmas::is_offset_of))]
fn offset_of(fields: &MomentFields) -> Option<UtcOffset>
    requires { offset_range fields.now ≡ None }
    ensures { IsOffset fields.now result }
{
    if !fields.has_offset() {
        return None;
    }
    Some(UtcOffset {
        is_negative: fields.offset_seconds < 0,
        seconds: fields.offset_seconds.unsigned_abs(),
    })
}
