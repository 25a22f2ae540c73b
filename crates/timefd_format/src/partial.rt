//! Texts that give part of a date, for descriptions that show no other part.

ghost use Rattle.std.specs.Prelude.{◌≡◌};
ghost use Rattle.timefd_format.specs.ReadBack as spec;
ghost use Rattle.timefd_format.specs.ReadBack.{IsOfPart, IsOfPartIf, now};

use crate::completing::{PartialError, are_given, completed};
use crate::description::borrowed;
use crate::moment::MomentError;
use timefd_date_moment::Moment;
use timefd_date_moment::fields::Fields;
use timefd_date_moment::reading::{Part, ValueError};
use timefd_parse::BorrowedOutput;

/// A moment that agrees with what was read, if the description to write by shows no other part of a date.
/// Otherwise an `Err` says that this part was not read; it is the first that a whole date lacks.
pub fn partial_moment(
    fields: &Fields,
    part: Part,
    written: Option<&BorrowedOutput<'_>>,
) -> Result<Moment, MomentError>
    ensures { IsOfPartIf (spec.is_enough (now written.entry) fields.now part) fields.now part result }
{
    if is_enough(fields, part, written) {
        completed_moment(fields)
    } else {
        Err(MomentError::Value(ValueError::Missing(part)))
    }
}

// Whether the description to write by shows only what was read of a date, so that this part isn't needed.
fn is_enough(fields: &Fields, part: Part, written: Option<&BorrowedOutput<'_>>) -> bool
    ensures { result ≡ spec.is_enough (now written.entry) fields.now part }
{
    match (part, written) {
        (Part::Date(_), Some(written)) => are_given(fields, borrowed(written)),
        (Part::Date(_), None) => false,
        (Part::Time(_) | Part::Offset(_) | Part::Instant(_), _) => false,
    }
}

fn completed_moment(fields: &Fields) -> Result<Moment, MomentError>
    ensures { IsOfPart fields.now result }
{
    match completed(fields) {
        Ok(moment) => Ok(moment),
        Err(PartialError::NoDate) => Err(MomentError::NoDate),
        Err(PartialError::Value(error)) => Err(MomentError::Value(error)),
    }
}
