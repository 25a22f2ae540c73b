//! Descriptions in a language of `time`: as given, or converted from a format of another language.

ghost use Rattle.std.specs.Prelude.{◌≡◌, ◌++◌, IfOk, OnOk, string_bytes};
ghost use Rattle.std.specs.Result.{IfErr};
ghost use Rattle.timefd_format.specs.Converted as spec;
ghost use Rattle.timefd_format.specs.ToRead.{IsReported};

use crate::language::Wording;
use std::alloc::{AllocError, Global};
use timefd_lang_dialect::{Converted, DialectError, Limits, Reason, RefusedPart, to_version_three};
use timefd_parse::{DescriptionVersion, Language};

/// A description in a language of `time`.
#[derive(Drop)]
pub enum Described<'a> {
    /// As given.
    Own(Language, &'a str),
    /// Converted from a format of another language.
    Converted(Converted),
}

impl<'a> Described<'a> {
    /// The language of its text.
    pub fn language(&self) -> Language
        ensures { result ≡ spec.language_of self.now }
    {
        match self {
            Described::Own(language, _) => *language,
            Described::Converted(_) => Language::Version(DescriptionVersion::Three),
        }
    }

    /// The text of the description.
    pub fn text(&self) -> &str
        ensures { result.now ≡ spec.text_of self.now }
    {
        match self {
            Described::Own(_, text) => text,
            Described::Converted(converted) => converted.text.as_str(),
        }
    }

    /// The moments of which it writes the same as what was given.
    pub fn limits(&self) -> Limits
        ensures { result ≡ spec.limits_of self.now }
    {
        match self {
            Described::Own(_, _) => Limits::ALL,
            Described::Converted(converted) => converted.limits,
        }
    }
}

/// The given description, in a language of `time`. A format of another language is converted.
///
/// An `Err` says that a part of the format can't be written in version 3, or that memory ran out.
pub fn own_description<'a>(
    alloc: Global,
    wording: Wording,
    text: &'a str,
) -> Result<Described<'a>, DialectError>
    ensures found { IfOk result (spec.IsDescribedFrom wording text.now) }
    ensures fault { IfErr result (spec.IsRefusedIn wording text.now) }
{
    match wording {
        Wording::Own(language) => Ok(Described::Own(language, text)),
        Wording::Other(dialect) => match to_version_three(alloc, dialect, text) {
            Ok(converted) => Ok(Described::Converted(converted)),
            Err(error) => Err(error),
        },
    }
}

/// A sentence that says why a format is refused, and what to do. An `Err` says that memory ran out.
pub fn refused_sentence(alloc: Global, refusal: RefusedPart) -> Result<String, AllocError>
    ensures { IfOk result (λ text. string_bytes text ≡ spec.refused_sentence refusal) }
{
    let mut text = at_index(alloc, refusal.index)?;
    push_why(&mut text, refusal.reason)?;
    Ok(text)
}

/// Says where a format is refused, as a byte index.
fn at_index(alloc: Global, index: usize) -> Result<String, AllocError>
    ensures { IfOk result (λ text. string_bytes text ≡ spec.at_index index) }
{
    format!(in alloc; "at byte {index} of the format: ")
}

/// Appends the sentence on a reason, and what to do.
fn push_why(text: &mut String, reason: Reason) -> Result<(), AllocError>
    ensures { OnOk result (string_bytes text.new ≡ string_bytes text.old ++ spec.why reason) }
{
    text.push_str(reason.sentence())?;
    text.push_str(". ")?;
    text.push_str(reason.cure())
}

/// A sentence that says for which moments a format writes the same as this text. `None` if for all
/// of them. An `Err` says that memory ran out.
pub fn limits_sentence(alloc: Global, limits: Limits) -> Result<Option<String>, AllocError>
    ensures { IfOk result (IsReported (spec.limits_sentence limits)) }
{
    if limits.first_year == 0 {
        return of_all_years(alloc, limits.whole_minutes);
    }
    Ok(Some(from_year(alloc, limits.first_year, limits.whole_minutes)?))
}

fn of_all_years(alloc: Global, whole_minutes: bool) -> Result<Option<String>, AllocError>
    ensures { IfOk result (IsReported (spec.of_all_years whole_minutes)) }
{
    if whole_minutes {
        Ok(Some(String::from_str(alloc, "the format writes this for offsets of whole minutes")?))
    } else {
        Ok(None)
    }
}

fn from_year(alloc: Global, year: u16, whole_minutes: bool) -> Result<String, AllocError>
    ensures { IfOk result (λ text. string_bytes text ≡ spec.from_year year whole_minutes) }
{
    if whole_minutes {
        format!(in alloc;
            "the format writes this from the year {year} on, for offsets of whole minutes"
        )
    } else {
        format!(in alloc; "the format writes this from the year {year} on")
    }
}
