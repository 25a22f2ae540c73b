//! The field of a component that shows an instant.

ghost use Rattle.std.specs.Prelude.{◌≡◌, ◌≤◌, IfOk};
ghost use Rattle.timefd_date_format.specs.Fields as spec;
ghost use Rattle.timefd_date_format.specs.Fields.{IsField};

use crate::field::{Lack, WrittenField};
use crate::numbers::{sign_of, signed};
use crate::parts::{date_of, offset_of, time_of};
use timefd_date_moment::{Moment, UnixTime};
use timefd_modifier::Padding;

/// The unit that an instant is counted in.
#[derive(Clone, Copy)]
pub enum Unit {
    Second,
    Millisecond,
    Microsecond,
    Nanosecond,
}

/// What the timestamp in this unit shows of a moment.
pub(crate) fn instant_field(
    moment: Moment,
    unit: Unit,
    sign_is_mandatory: bool,
) -> Result<WrittenField, Lack>
    ensures table { result ≡ spec.field moment (spec.timestamp unit sign_is_mandatory) }
    ensures field { IfOk result IsField }
{
    let date = date_of(moment)?;
    let time = time_of(moment)?;
    let offset = offset_of(moment)?;
    let unix = UnixTime::of(date, time, offset);
    if unix.is_within() {
        Ok(stamp(sign_is_mandatory, unix, counted(unix, unit)))
    } else {
        Err(Lack::InstantOutOfRange)
    }
}

// How many units an instant is from the start of 1970.
fn counted(unix: UnixTime, unit: Unit) -> u128
    requires { unix.nanoseconds ≤ 31619087596800000000000 }
    ensures { result ≡ spec.counted unix unit }
{
    match unit {
        Unit::Second => whole_seconds(unix),
        Unit::Millisecond => unix.nanoseconds / 1_000_000,
        Unit::Microsecond => unix.nanoseconds / 1_000,
        Unit::Nanosecond => unix.nanoseconds,
    }
}

fn whole_seconds(unix: UnixTime) -> u128
    requires { unix.nanoseconds ≤ 31619087596800000000000 }
    ensures { result ≡ spec.whole_seconds unix }
{
    if unix.is_negative {
        (unix.nanoseconds + 999_999_999) / 1_000_000_000
    } else {
        unix.nanoseconds / 1_000_000_000
    }
}

fn stamp(sign_is_mandatory: bool, unix: UnixTime, value: u128) -> WrittenField
    ensures { result ≡ spec.stamp_of sign_is_mandatory unix value }
{
    signed(
        sign_of(unix.is_negative, sign_is_mandatory),
        Padding::None,
        1,
        value,
    )
}
