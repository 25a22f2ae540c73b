//! The moment of a timestamp, compared with all else that was read.

ghost use Rattle.std.specs.Prelude.{◌≡◌, None, Ok};
ghost use Rattle.timefd_date_moment.specs.Reading.Faults.{shift_fault};
ghost use Rattle.timefd_date_moment.specs.Reading.Locals.{Shows};
ghost use Rattle.timefd_date_moment.specs.Reading.Offsets.{Selects, ShiftHas};
ghost use Rattle.timefd_date_moment.specs.Reading.Stamped as spec;
ghost use Rattle.timefd_date_moment.specs.Reading.Stamped.{IsStamped};

use crate::fields::Fields;
use crate::reading::agreed::contradiction;
use crate::reading::error::ValueError;
use crate::reading::known::has_offset;
use crate::reading::local::shown_at;
use crate::reading::offsets::{Shift, offset_of, shift_read};
use crate::reading::part::{OffsetPart, Part};
use crate::reading::stamp::finest;
use crate::{Date, Time, UnixTime, UtcOffset};

/// What a clock shows at an instant.
#[derive(Clone, Copy)]
pub(crate) struct Stamped {
    pub date: Date,
    pub time: Time,
    pub offset: UtcOffset,
}

/// What a clock at the offset that was read shows at the instant, if that agrees with all that was
/// read. Without an offset, the clock is in UTC.
pub(crate) fn of_stamp(fields: &Fields, unix: UnixTime) -> Result<Stamped, ValueError>
    ensures { IsStamped fields.now unix result }
{
    match zone_read(fields) {
        Ok(shift) => at_shift(fields, unix, shift),
        Err(part) => Err(ValueError::Missing(Part::Offset(part))),
    }
}

fn at_shift(fields: &Fields, unix: UnixTime, shift: Shift) -> Result<Stamped, ValueError>
    requires { spec.zone_read fields.now ≡ Ok shift }
    ensures { IsStamped fields.now unix result }
{
    match offset_of(shift) {
        Ok(offset) => at_offset(fields, unix, shift, offset),
        Err(part) => Err(ValueError::Contradiction(Part::Offset(part))),
    }
}

fn at_offset(
    fields: &Fields,
    unix: UnixTime,
    shift: Shift,
    offset: UtcOffset,
) -> Result<Stamped, ValueError>
    requires zone { spec.zone_read fields.now ≡ Ok shift }
    requires found { ShiftHas shift offset }
    requires one { Selects (ShiftHas shift) (Ok offset) }
    requires sound { shift_fault shift ≡ None }
    ensures { IsStamped fields.now unix result }
{
    match shown_at(unix, offset) {
        Some((date, time)) => compared(fields, unix, shift, date, time, offset),
        None => Err(ValueError::Contradiction(Part::Instant(finest(fields)))),
    }
}

fn compared(
    fields: &Fields,
    unix: UnixTime,
    shift: Shift,
    date: Date,
    time: Time,
    offset: UtcOffset,
) -> Result<Stamped, ValueError>
    requires zone { spec.zone_read fields.now ≡ Ok shift }
    requires found { ShiftHas shift offset }
    requires one { Selects (ShiftHas shift) (Ok offset) }
    requires shows { Shows unix offset date time }
    ensures { IsStamped fields.now unix result }
{
    match contradiction(fields, date, time, offset) {
        None => Ok(Stamped { date, time, offset }),
        Some(part) => Err(ValueError::Contradiction(part)),
    }
}

/// The numbers of the offset that was read. An `Err` is the part that was not read.
fn zone_read(fields: &Fields) -> Result<Shift, OffsetPart>
    ensures { result ≡ spec.zone_read fields.now }
{
    if has_offset(fields) {
        shift_read(fields)
    } else {
        Ok(Shift {
            is_negative: false,
            hour: 0,
            minute: 0,
            second: 0,
        })
    }
}
