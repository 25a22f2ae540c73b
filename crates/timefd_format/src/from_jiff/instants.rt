//! Conversions of instants. `jiff` has those whose year is from -9999 to 9999 at every offset.

ghost use Rattle.std.specs.Prelude.{◌≡◌, ◌≤◌, ◌↔◌, IfErr, IfOk, IsOk, IsTrue};
ghost use Rattle.jiff_core.specs.Timestamp.{IsTimestampNanos};
ghost use Rattle.timefd_format.specs.FromJiff.Same.{IsSameInstant};
ghost use Rattle.timefd_date_moment.specs.Signed.{signed};

use jiff::Timestamp;
use jiff_core::Error;
use jiff_core::error::Bound;
use timefd_date_moment::UnixTime;

/// Converts an instant from `jiff`.
pub fn unix_time_from_jiff(timestamp: Timestamp) -> UnixTime
    ensures value { IsSameInstant timestamp result }
    ensures no_negative_zero { IsTrue result.is_negative → 1 ≤ result.nanoseconds }
{
    UnixTime::from_nanoseconds(timestamp.as_nanosecond())
}

/// Converts an instant to `jiff`. An `Err` says that `jiff` has no such instant.
#[tactic(auto, using(crate::proofs::JiffLemmas::SignedLemmas::instant_out))]
pub fn unix_time_to_jiff(unix: UnixTime) -> Result<Timestamp, Error>
    ensures value { IfOk result (λ t. IsSameInstant t unix) }
    ensures succeeds { IsOk result ↔ IsTimestampNanos (signed unix.is_negative unix.nanoseconds) }
    ensures bound { IfErr result (λ e. e ≡ Error.Range Bound.UnixEpochSeconds) }
{
    if unix.nanoseconds > 377_705_023_201_000_000_000 {
        return Err(Error::Range(Bound::UnixEpochSeconds));
    }
    match Timestamp::from_nanosecond(nanoseconds(unix)) {
        Ok(timestamp) => Ok(timestamp),
        Err(_) => Err(Error::Range(Bound::UnixEpochSeconds)),
    }
}

// The nanoseconds with their sign.
fn nanoseconds(unix: UnixTime) -> i128
    requires { unix.nanoseconds ≤ 377705023201000000000 }
    ensures { result ≡ signed unix.is_negative unix.nanoseconds }
{
    if unix.is_negative {
        -(unix.nanoseconds as i128)
    } else {
        unix.nanoseconds as i128
    }
}
