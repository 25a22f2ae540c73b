//! Moments named by their seconds of Unix time.

ghost use Rattle.timefd_format.specs.Seconds as spec;
ghost use Rattle.timefd_format.specs.Seconds.{IsAtSeconds, IsUnixTime, text_of};
ghost use Rattle.std.specs.Prelude.{◌≡◌};

use crate::moment::MomentError;
use timefd_date_moment::{Moment, UnixTime};

const NANOSECONDS: u128 = 1_000_000_000;

/// What follows the `@` at the start of a word. `None` if the word doesn't start with one.
#[tactic(auto, using(crate::proofs::SecondsLemmas::after))]
pub fn after_at(word: &str) -> Option<&str>
    ensures { text_of result ≡ spec.after_at word.now }
{
    word.strip_prefix('@')
}

/// The moment this many seconds after 1970 began in UTC. Before 1970 the number is negative.
pub fn moment_at(seconds: &str) -> Result<Moment, MomentError>
    ensures { IsAtSeconds seconds.now result }
{
    let Some(unix) = unix_time_in(seconds) else {
        return Err(MomentError::Seconds);
    };
    match Moment::from_unix(unix) {
        Ok(moment) => Ok(moment),
        Err(_) => Err(MomentError::Seconds),
    }
}

// The instant of these seconds. `None` if they aren't a whole number.
fn unix_time_in(seconds: &str) -> Option<UnixTime>
    ensures { IsUnixTime seconds.now result }
{
    let Ok(seconds) = seconds.parse::<i64>() else {
        return None;
    };
    Some(UnixTime {
        is_negative: seconds < 0,
        nanoseconds: seconds.unsigned_abs() as u128 * NANOSECONDS,
    })
}
