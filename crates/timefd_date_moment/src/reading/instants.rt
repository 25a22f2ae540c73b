//! The instant that fields determine.

ghost use Rattle.timefd_date_moment.specs.Reading.Values.{IsInstantByParts, IsInstantOf};

use crate::UnixTime;
use crate::fields::Fields;
use crate::reading::dates::date_by_parts;
use crate::reading::error::ValueError;
use crate::reading::offsets::offset;
use crate::reading::stamp::instant_read;
use crate::reading::stamped::of_stamp;
use crate::reading::times::time_by_parts;

/// The instant that agrees with all that was read. It is determined by a timestamp, or by a date, a
/// time of day and an offset. An `Err` says which part was not read, or that no instant agrees with
/// all that was read.
pub fn instant(fields: &Fields) -> Result<UnixTime, ValueError>
    ensures { IsInstantOf fields.now result }
{
    match instant_read(fields) {
        Some(unix) => match of_stamp(fields, unix) {
            Ok(stamped) => Ok(UnixTime::of(stamped.date, stamped.time, stamped.offset)),
            Err(error) => Err(error),
        },
        None => instant_by_parts(fields),
    }
}

fn instant_by_parts(fields: &Fields) -> Result<UnixTime, ValueError>
    ensures { IsInstantByParts fields.now result }
{
    match date_by_parts(fields) {
        Ok(date) => match time_by_parts(fields) {
            Ok(time) => match offset(fields) {
                Ok(offset) => Ok(UnixTime::of(date, time, offset)),
                Err(error) => Err(error),
            },
            Err(error) => Err(error),
        },
        Err(error) => Err(error),
    }
}
