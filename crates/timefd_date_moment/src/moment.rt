//! The parts of a value that are known.

ghost use Rattle.std.specs.Prelude.{◌≡◌, Some, IfErr, IfOk, IsFalse, IsTrue};

use crate::component_range::ComponentRange;
use crate::date::Date;
use crate::offset::UtcOffset;
use crate::time::Time;
use crate::unix_time::UnixTime;

/// A date, a time of day and an offset from UTC, as far as each is known.
#[derive(Debug, Clone, Copy, PartialEq, Eq)]
pub struct Moment {
    pub date: Option<Date>,
    pub time: Option<Time>,
    pub offset: Option<UtcOffset>,
}

impl Moment {
    ghost use Rattle.timefd_date_moment.specs.Instants.{IsAt, is_within};

    /// The date and time of an instant in UTC, with UTC as the offset. An `Err` says that its year
    /// is not from -999,999 to 999,999.
    pub fn from_unix(unix: UnixTime) -> Result<Moment, ComponentRange>
        ensures found { IfOk result (λ m. IsAt m unix) }
        ensures in_range { IfOk result (λ m. IsTrue (is_within unix)) }
        ensures fault { IfErr result (λ e. (e ≡ ComponentRange.Instant)
            × IsFalse (is_within unix)) }
    {
        let (date, time) = unix.date_and_time()?;
        Ok(Moment {
            date: Some(date),
            time: Some(time),
            offset: Some(UtcOffset::utc()),
        })
    }
}
