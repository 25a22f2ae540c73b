//! The moment that fields determine.

ghost use Rattle.timefd_date_moment.specs.Reading.Values.{IsDateIn, IsMomentByParts, IsMomentOf, IsOffsetIn, IsTimeIn};

use crate::fields::Fields;
use crate::reading::dates::date_by_parts;
use crate::reading::error::ValueError;
use crate::reading::known::{has_date, has_offset, has_time};
use crate::reading::offsets::offset;
use crate::reading::stamp::instant_read;
use crate::reading::stamped::of_stamp;
use crate::reading::times::time_by_parts;
use crate::{Date, Moment, Time, UtcOffset};

/// The moment that agrees with all that was read. A date, a time of day or an offset is `None` if
/// no part of it was read. With a timestamp all three are known: the moment is that instant, on a
/// clock at the offset that was read, or in UTC without one. The digits of a second that were not
/// read are 0.
///
/// An `Err` says which part was not read, or that no moment agrees with all that was read.
/// Corresponds to `OffsetDateTime::try_from` for `Parsed` in `time`, and to those of the types with
/// fewer parts.
pub fn moment(fields: &Fields) -> Result<Moment, ValueError>
    ensures { IsMomentOf fields.now result }
{
    match instant_read(fields) {
        Some(unix) => match of_stamp(fields, unix) {
            Ok(stamped) => Ok(Moment {
                date: Some(stamped.date),
                time: Some(stamped.time),
                offset: Some(stamped.offset),
            }),
            Err(error) => Err(error),
        },
        None => moment_by_parts(fields),
    }
}

fn moment_by_parts(fields: &Fields) -> Result<Moment, ValueError>
    ensures { IsMomentByParts fields.now result }
{
    match date_in(fields) {
        Ok(date) => match time_in(fields) {
            Ok(time) => match offset_in(fields) {
                Ok(offset) => Ok(Moment { date, time, offset }),
                Err(error) => Err(error),
            },
            Err(error) => Err(error),
        },
        Err(error) => Err(error),
    }
}

fn date_in(fields: &Fields) -> Result<Option<Date>, ValueError>
    ensures { IsDateIn fields.now result }
{
    if !has_date(fields) {
        return Ok(None);
    }
    match date_by_parts(fields) {
        Ok(date) => Ok(Some(date)),
        Err(error) => Err(error),
    }
}

fn time_in(fields: &Fields) -> Result<Option<Time>, ValueError>
    ensures { IsTimeIn fields.now result }
{
    if !has_time(fields) {
        return Ok(None);
    }
    match time_by_parts(fields) {
        Ok(time) => Ok(Some(time)),
        Err(error) => Err(error),
    }
}

fn offset_in(fields: &Fields) -> Result<Option<UtcOffset>, ValueError>
    ensures { IsOffsetIn fields.now result }
{
    if !has_offset(fields) {
        return Ok(None);
    }
    match offset(fields) {
        Ok(offset) => Ok(Some(offset)),
        Err(error) => Err(error),
    }
}
