//! The description that texts are read by.

ghost use Rattle.std.specs.Prelude.{◌≡◌, IfOk, string_bytes};
ghost use Rattle.std.specs.Result.{IfErr};
ghost use Rattle.timefd_format.specs.ToRead as spec;

use crate::converted::Described;
use crate::language::Wording;
use std::alloc::{AllocError, Global};
use timefd_lang_dialect::{DialectError, Limits, to_version_three_for_reading};

/// The description that texts are read by, in a language of `time`. A format of another language is
/// converted to a description that reads what the format writes.
///
/// An `Err` says that a part of the format can't be written in version 3, that it shows too little
/// to be read, or that memory ran out.
pub fn description_to_read<'a>(
    alloc: Global,
    wording: Wording,
    text: &'a str,
) -> Result<Described<'a>, DialectError>
    ensures found { IfOk result (spec.IsDescribedToRead wording text.now) }
    ensures fault { IfErr result (spec.IsUnreadIn wording text.now) }
{
    match wording {
        Wording::Own(language) => Ok(Described::Own(language, text)),
        Wording::Other(dialect) => match to_version_three_for_reading(alloc, dialect, text) {
            Ok(converted) => Ok(Described::Converted(converted)),
            Err(error) => Err(error),
        },
    }
}

/// A sentence that says which texts of a format are read. `None` if all of them are. An `Err` says
/// that memory ran out.
pub fn reading_limits_sentence(alloc: Global, limits: Limits) -> Result<Option<String>, AllocError>
    ensures { IfOk result (spec.IsReported (spec.reading_limits_sentence limits)) }
{
    if limits.first_year == 0 {
        return of_all_years(alloc, limits.whole_minutes);
    }
    Ok(Some(from_year(alloc, limits.first_year, limits.whole_minutes)?))
}

fn of_all_years(alloc: Global, whole_minutes: bool) -> Result<Option<String>, AllocError>
    ensures { IfOk result (spec.IsReported (spec.of_all_years whole_minutes)) }
{
    if whole_minutes {
        Ok(Some(String::from_str(
            alloc,
            "texts of the format are read where their offset has whole minutes",
        )?))
    } else {
        Ok(None)
    }
}

fn from_year(alloc: Global, year: u16, whole_minutes: bool) -> Result<String, AllocError>
    ensures { IfOk result (λ text. string_bytes text ≡ spec.from_year year whole_minutes) }
{
    if whole_minutes {
        format!(in alloc;
            "texts of the format are read from the year {year} on, where their offset has whole minutes"
        )
    } else {
        format!(in alloc; "texts of the format are read from the year {year} on")
    }
}
