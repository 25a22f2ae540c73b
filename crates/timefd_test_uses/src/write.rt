//! Writes a date by a description of version 3, or of any language.

ghost use Rattle.std.specs.Prelude.{◌≡◌, ◌≤◌, IfErr, length};
ghost use Rattle.timefd_parse.specs.Reserved.{reserve};
ghost use Rattle.timefd_date_format.specs.Answers.{IsAnswer};
ghost use Rattle.timefd_date_format.specs.Fronts.{IsFront};
ghost use Rattle.timefd_date_format.specs.Outcomes.{IsOutcome};
ghost use Rattle.timefd_date_format.specs.Written.{written};
ghost use Rattle.timefd_description.specs.Descriptions.{tree};
ghost use Rattle.timefd_items.specs.Description.{description_tree};
ghost use Rattle.timefd_test_uses.specs.Days.{day_alone};

use std::alloc::Global;
use timefd_date_format::{format, write_description};
use timefd_description::{Date, Description, FormatError, Moment, TextError};
use timefd_parse::FormatDescriptionV3;

/// The moment of which only the date is known.
pub fn day_alone(date: Date) -> Moment
    ensures { result ≡ day_alone date }
{
    Moment {
        date: Some(date),
        time: None,
        offset: None,
    }
}

/// The text that the description writes for the date. An `Err` names the first component that shows
/// nothing of the date, or says that memory ran out.
pub fn write_date(
    alloc: Global,
    date: Date,
    description: &FormatDescriptionV3<'_>,
) -> Result<String, TextError>
    ensures { IsAnswer (written (day_alone date) (description_tree description.now)) result }
{
    format(alloc, day_alone(date), description.view())
}

/// Writes the date at the end of the buffer, without taking memory, and returns the byte index where
/// the text begins. A buffer as long as the reserved bytes is never too short.
pub fn write_date_in(
    date: Date,
    description: &FormatDescriptionV3<'_>,
    buffer: &mut [u8],
) -> Result<usize, FormatError>
    ensures outcome { IsOutcome (written (day_alone date) (description_tree description.now))
        buffer.old buffer.new result }
    ensures enough { reserve (description_tree description.now) ≤ length buffer.old
        → IfErr result (λ error. ¬ (error ≡ FormatError.Room)) }
{
    write_description(day_alone(date), description.view(), buffer)
}

/// Writes the date by a description of any language over the front of the buffer, without taking memory, and
/// returns the length of the text in bytes. A buffer as long as the reserved bytes is never too short.
pub fn write_date_over(
    date: Date,
    description: &Description<'_>,
    buffer: &mut [u8],
) -> Result<usize, FormatError>
    ensures front { IsFront (written (day_alone date) (tree description.now)) buffer.old buffer.new
        result }
    ensures enough { reserve (tree description.now) ≤ length buffer.old
        → IfErr result (λ error. ¬ (error ≡ FormatError.Room)) }
{
    description.write(&day_alone(date), buffer)
}
