//! The offset from UTC that fields determine.

ghost use Rattle.std.specs.Prelude.{◌≡◌, Ok, IfOk};
ghost use Rattle.timefd_date_moment.specs.Reading.Faults.{fault_of, shift_fault};
ghost use Rattle.timefd_date_moment.specs.Reading.Offsets as spec;
ghost use Rattle.timefd_date_moment.specs.Reading.Offsets.{IsOffsetOf, Selects};

use crate::UtcOffset;
use crate::fields::Fields;
use crate::reading::error::ValueError;
use crate::reading::part::{OffsetPart, Part};
use crate::reading::shown::offset_contradiction;
use crate::reading::times::{is_left_out, number};

/// The numbers of an offset.
#[derive(Clone, Copy)]
pub(crate) struct Shift {
    pub is_negative: bool,
    pub hour: u128,
    pub minute: u16,
    pub second: u16,
}

/// The offset that agrees with all that was read. It is determined by its hour, which also has its
/// sign. Minutes and seconds that were not read are 0. An `Err` says which part was not read, or
/// that no offset agrees with all that was read. Corresponds to `UtcOffset::try_from` for `Parsed`
/// in `time`.
pub fn offset(fields: &Fields) -> Result<UtcOffset, ValueError>
    ensures { IsOffsetOf fields.now result }
{
    match shift_read(fields) {
        Ok(shift) => compared(fields, shift),
        Err(part) => Err(ValueError::Missing(Part::Offset(part))),
    }
}

fn compared(fields: &Fields, shift: Shift) -> Result<UtcOffset, ValueError>
    requires { spec.shift_read fields.now ≡ Ok shift }
    ensures { IsOffsetOf fields.now result }
{
    match offset_of(shift) {
        Ok(offset) => match offset_contradiction(fields, offset) {
            None => Ok(offset),
            Some(part) => Err(ValueError::Contradiction(Part::Offset(part))),
        },
        Err(part) => Err(ValueError::Contradiction(Part::Offset(part))),
    }
}

/// The offset of these numbers. An `Err` is the first number that no offset has.
pub(crate) fn offset_of(shift: Shift) -> Result<UtcOffset, OffsetPart>
    ensures found { IfOk result (λ offset. spec.ShiftHas shift offset) }
    ensures one { Selects (spec.ShiftHas shift) result }
    ensures fault { shift_fault shift ≡ fault_of result }
{
    if shift.hour > 25 {
        return Err(OffsetPart::Hour);
    }
    if shift.minute > 59 {
        return Err(OffsetPart::Minute);
    }
    if shift.second > 59 {
        return Err(OffsetPart::Second);
    }
    let seconds = shift.hour as u32 * 3_600 + shift.minute as u32 * 60 + shift.second as u32;
    Ok(UtcOffset {
        is_negative: shift.is_negative && seconds > 0,
        seconds,
    })
}

/// The numbers that were read. An `Err` is the part that was not read.
pub(crate) fn shift_read(fields: &Fields) -> Result<Shift, OffsetPart>
    ensures { result ≡ spec.shift_read fields.now }
{
    match fields.offset_hour {
        Some(hour) => {
            if is_left_out(fields.offset_minute, fields.offset_second.is_some()) {
                return Err(OffsetPart::Minute);
            }
            Ok(Shift {
                is_negative: hour.is_negative,
                hour: hour.magnitude,
                minute: number(fields.offset_minute),
                second: number(fields.offset_second),
            })
        }
        None => Err(OffsetPart::Hour),
    }
}
