//! Time zones in brackets.

ghost use Rattle.std.specs.Prelude.{◌≡◌, ◌<◌, IfSome, codes, length, nat_eq};
ghost use Rattle.std.specs.List.{ends_with, position_from};
ghost use Rattle.timefd_format.specs.Brackets as spec;
ghost use Rattle.timefd_format.specs.Brackets.{HasOffsetOf, IsCompared, IsInAgreement};

use crate::from_jiff::{Error, offset_in_zone};
use crate::moment::{MomentError, OffsetConflict};
use crate::zone::instant_of;
use jiff_tz::{TimeZone, TimeZoneDatabase};
use timefd_date_moment::{Moment, UnixTime, UtcOffset};

/// Whether a word ends with a closing bracket.
pub fn ends_in_bracket(word: &str) -> bool
    ensures { result ≡ ends_with nat_eq word.now (codes "]") }
{
    word.as_bytes().ends_with(b"]")
}

/// Whether a word has a closing bracket at its end and nowhere before.
pub fn closes_once(word: &str) -> bool
    ensures { result ≡ spec.closes_once word.now }
{
    match first_closing(word) {
        Some(at) => at + 1 == word.len(),
        None => false,
    }
}

// The byte index of the first closing bracket.
fn first_closing(word: &str) -> Option<usize>
    ensures value { result ≡ position_from spec.is_closing 0 word.now }
    ensures within { IfSome result (λ at. at < length word.now) }
{
    word.as_bytes().iter().position(|byte| *byte == b']')
}

/// The moment, if its offset is the one that the named time zone has at that instant. An `Err` says that
/// the moment has no offset, that there is no such zone, that the zone's offset is a different one, that
/// the year is out of range, or that memory ran out.
#[tactic(auto, using(crate::proofs::MomentLemmas::not_stored))]
pub fn in_agreement(
    zones: &TimeZoneDatabase,
    name: &str,
    moment: Moment,
) -> Result<Moment, MomentError>
    ensures { IsInAgreement zones.now name.now moment result }
{
    let Some(instant) = instant_of(moment) else {
        return Err(MomentError::NoOffset);
    };
    match zones.get(name) {
        Ok(zone) => with_offset_of(&zone, instant, moment),
        Err(Error::TimeZoneNotFound) => Err(MomentError::NoZone),
        // The clause of `get` leaves no other error than this one.
        Err(_) => Err(MomentError::Memory),
    }
}

// The moment, if the zone has its offset at this instant.
fn with_offset_of(
    zone: &TimeZone<'_>,
    instant: UnixTime,
    moment: Moment,
) -> Result<Moment, MomentError>
    ensures { HasOffsetOf zone.now instant moment result }
{
    match offset_in_zone(zone, instant) {
        Ok(offset) => compared(moment, offset),
        Err(_) => Err(MomentError::Years),
    }
}

// The moment, if this is its offset.
fn compared(moment: Moment, offset: UtcOffset) -> Result<Moment, MomentError>
    ensures { IsCompared moment offset result }
{
    let Some(written) = moment.offset else {
        return Err(MomentError::NoOffset);
    };
    if written.whole_seconds() == offset.whole_seconds() {
        Ok(moment)
    } else {
        Err(MomentError::Conflict(OffsetConflict {
            written,
            zone: offset,
        }))
    }
}
