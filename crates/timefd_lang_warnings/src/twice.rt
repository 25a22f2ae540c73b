//! Finds what is shown twice.

ghost use Rattle.std.specs.Prelude.{◌≡◌};
ghost use Rattle.timefd_lang_warnings.specs.Parts.{parts};
ghost use Rattle.timefd_lang_warnings.specs.Twice as spec;

use crate::field::ShownField;
use crate::parts::{ReadDescription, amount};
use crate::sought::{HowMany, Sought};

fn fields() -> &'static [ShownField]
    ensures { result.now ≡ spec.fields }
{
    &[
        ShownField::Year,
        ShownField::Century,
        ShownField::YearLastTwo,
        ShownField::IsoYear,
        ShownField::IsoCentury,
        ShownField::IsoYearLastTwo,
        ShownField::MonthName,
        ShownField::MonthNumber,
        ShownField::Day,
        ShownField::Ordinal,
        ShownField::WeekdayName,
        ShownField::WeekdayNumber,
        ShownField::IsoWeek,
        ShownField::SundayWeek,
        ShownField::MondayWeek,
        ShownField::Hour24,
        ShownField::Hour12,
        ShownField::Period,
        ShownField::Minute,
        ShownField::Second,
        ShownField::Subsecond,
        ShownField::OffsetHour,
        ShownField::OffsetMinute,
        ShownField::OffsetSecond,
        ShownField::Timestamp,
    ]
}

pub(crate) fn shows_twice(description: ReadDescription<'_, '_>) -> bool
    ensures { result ≡ spec.shown_twice (parts description.entry) }
{
    shows_one_twice(description, fields())
}

// Whether one of the fields is shown twice.
fn shows_one_twice(description: ReadDescription<'_, '_>, fields: &[ShownField]) -> bool
    ensures { result ≡ spec.one_twice fields.now (parts description.entry) }
{
    let mut left = fields;
    'fields: while let [field, after @ ..] = left {
        if is_several(amount(description, Sought::Shows(*field))) {
            return true;
        }
        left = after;
    }
    false
}

fn is_several(amount: HowMany) -> bool
    ensures { result ≡ spec.is_several amount }
{
    match amount {
        HowMany::Absent | HowMany::Once => false,
        HowMany::Several => true,
    }
}
