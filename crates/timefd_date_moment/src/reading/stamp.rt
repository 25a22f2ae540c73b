//! The instant that the timestamps of a text determine.

ghost use Rattle.std.specs.Prelude.{◌≡◌, ◌≤◌, min};
ghost use Rattle.timefd_date_moment.specs.Reading.Stamps as spec;

use crate::UnixTime;
use crate::fields::{Fields, Fraction, Signed};
use crate::reading::part::InstantPart;
use crate::reading::times::nanosecond;

const SECOND: u128 = 1_000_000_000;

/// The instant of the finest timestamp that was read. Digits of the second that it lacks are taken
/// from the fraction that was read, and are 0 without one.
pub(crate) fn instant_read(fields: &Fields) -> Option<UnixTime>
    ensures { result ≡ spec.instant_read fields.now }
{
    if let Some(stamp) = fields.unix_nanosecond {
        return Some(by_nanosecond(stamp));
    }
    if let Some(stamp) = fields.unix_microsecond {
        return Some(by_unit(fields.subsecond, 6, 1_000, stamp));
    }
    if let Some(stamp) = fields.unix_millisecond {
        return Some(by_unit(fields.subsecond, 3, 1_000_000, stamp));
    }
    match fields.unix_second {
        Some(stamp) => Some(by_second(fields.subsecond, stamp)),
        None => None,
    }
}

/// The finest timestamp that was read.
pub(crate) fn finest(fields: &Fields) -> InstantPart
    ensures { result ≡ spec.finest fields.now }
{
    if fields.unix_nanosecond.is_some() {
        InstantPart::Nanosecond
    } else if fields.unix_microsecond.is_some() {
        InstantPart::Microsecond
    } else if fields.unix_millisecond.is_some() {
        InstantPart::Millisecond
    } else {
        InstantPart::Second
    }
}

fn by_nanosecond(stamp: Signed) -> UnixTime
    ensures { result ≡ spec.by_nanosecond stamp }
{
    UnixTime {
        is_negative: stamp.is_negative,
        nanoseconds: magnitude(stamp),
    }
}

/// The instant of a timestamp in a unit smaller than a second: `digits` decimal digits of a second.
fn by_unit(fraction: Option<Fraction>, digits: u16, unit: u128, stamp: Signed) -> UnixTime
    requires { unit ≤ 1000000 }
    ensures { result ≡ spec.by_unit fraction digits unit stamp }
{
    let whole = magnitude(stamp) * unit;
    UnixTime {
        is_negative: stamp.is_negative,
        nanoseconds: if is_finer(fraction, digits) {
            within_second(stamp.is_negative, whole, fraction_read(fraction))
        } else {
            whole
        },
    }
}

/// Units smaller than a second are rounded towards 1970. A finer fraction replaces all that is
/// smaller than a second.
fn within_second(is_negative: bool, whole: u128, fraction: u128) -> u128
    requires whole { whole ≤ 100000000000000000000000000000 }
    requires fraction { fraction ≤ 1000000000 }
    ensures { result ≡ spec.within_second is_negative whole fraction }
{
    let seconds = whole / SECOND * SECOND;
    if is_negative {
        seconds + (SECOND - fraction) % SECOND
    } else {
        seconds + fraction
    }
}

/// Seconds are rounded down. So the fraction counts forward from them, before 1970 too.
fn by_second(fraction: Option<Fraction>, stamp: Signed) -> UnixTime
    ensures { result ≡ spec.by_second fraction stamp }
{
    let seconds = magnitude(stamp) * SECOND;
    let fraction = fraction_read(fraction);
    UnixTime {
        is_negative: stamp.is_negative,
        nanoseconds: if stamp.is_negative {
            seconds.saturating_sub(fraction)
        } else {
            seconds + fraction
        },
    }
}

/// The distance from 1970, capped. A timestamp beyond the cap is too far from 1970 for any moment
/// anyway.
fn magnitude(stamp: Signed) -> u128
    ensures value { result ≡ spec.stamp_magnitude stamp }
    ensures within { result ≤ 100000000000000000000000 }
{
    capped(stamp.magnitude, 100_000_000_000_000_000_000_000)
}

/// The nanoseconds of the fraction that was read, or 0.
fn fraction_read(fraction: Option<Fraction>) -> u128
    ensures value { result ≡ spec.fraction_read fraction }
    ensures within { result ≤ 1000000000 }
{
    capped(nanosecond(fraction), SECOND)
}

fn capped(number: u128, most: u128) -> u128
    ensures value { result ≡ min number most }
    ensures within { result ≤ most }
{
    if number < most { number } else { most }
}

/// Whether a fraction with more digits than these was read.
fn is_finer(fraction: Option<Fraction>, digits: u16) -> bool
    ensures { result ≡ spec.is_finer fraction digits }
{
    match fraction {
        Some(fraction) => digits < fraction.digits,
        None => false,
    }
}
