//! The moment of fields that give part of a date.

ghost use Rattle.timefd_format.specs.Completing.Completed.{IsCompleted};
ghost use Rattle.timefd_date_moment.specs.Reading.Shown.{DateAgrees};

use crate::completing::fields::clock_fields;
use crate::completing::sought::agreeing_date;
use timefd_date_moment::fields::Fields;
use timefd_date_moment::reading::{ValueError, moment};
use timefd_date_moment::{Date, Moment};

/// Why fields that give part of a date have no moment.
#[derive(Debug, Clone, Copy, PartialEq, Eq)]
pub enum PartialError {
    /// No date agrees with all that was read of one.
    NoDate,
    /// What was read of the time of day or of the offset is no such value.
    Value(ValueError),
}

/// A moment whose date agrees with all that was read of a date, even if that doesn't determine one. Where several
/// dates agree, it may be any of them: use it only for descriptions whose components [`are_given`](crate::completing::are_given),
/// since these show the same of each. The time of day and the offset are those that were read, and `None` if none
/// was.
///
/// An `Err` says that no date agrees, or why there is no such time of day or offset.
pub fn completed(fields: &Fields) -> Result<Moment, PartialError>
    ensures { IsCompleted fields.now result }
{
    match agreeing_date(fields) {
        Some(date) => completed_with(fields, date),
        None => Err(PartialError::NoDate),
    }
}

#[tactic(auto, using(crate::proofs::CompletingLemmas::CompletedLemmas::no_rest))]
fn completed_with(fields: &Fields, date: Date) -> Result<Moment, PartialError>
    requires { DateAgrees fields.now date }
    ensures { IsCompleted fields.now result }
{
    match moment(&clock_fields(fields)) {
        Ok(rest) => Ok(Moment {
            date: Some(date),
            time: rest.time,
            offset: rest.offset,
        }),
        Err(error) => Err(PartialError::Value(error)),
    }
}
