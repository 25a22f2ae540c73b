//! The description that moments are written by.

ghost use Rattle.std.specs.Prelude.{◌≡◌, IfOk};
ghost use Rattle.timefd_lint_warnings.specs.Found.{output_parts};
ghost use Rattle.timefd_parse.specs.LanguageType.TheVariants as languages;
ghost use Rattle.timefd_lang_warnings.specs.Parts.{parts};
ghost use Rattle.timefd_format.specs.Descriptions.{IsDescribed, IsReading, IsSpelled};

use std::alloc::{AllocError, Global};
use timefd_lang_warnings::ReadDescription;
use timefd_lint_diagnosis::{Diagnostic, diagnose};
use timefd_parse::{
    BorrowedOutput, DescriptionVersion, Language, ParseError, StrftimeTables, parse_borrowed,
    parse_strftime_borrowed,
};

/// What reading a text as a description comes to.
#[derive(Drop)]
pub enum DescriptionReading<'a> {
    /// A description.
    Description(BorrowedOutput<'a>),
    /// The text isn't a description, and this is wrong with it.
    Refused(Diagnostic),
}

/// Reads a text of a language. An `Err` says that memory ran out; it says nothing about the text.
pub fn read<'a>(
    alloc: Global,
    language: Language,
    tables: &'a StrftimeTables<'a>,
    text: &'a str,
) -> Result<DescriptionReading<'a>, AllocError>
    ensures { IfOk result (IsReading language text.now) }
{
    match diagnose(alloc, language, text)? {
        Some(diagnostic) => Ok(DescriptionReading::Refused(diagnostic)),
        None => Ok(DescriptionReading::Description(described(alloc, language, tables, text)?)),
    }
}

// The description that a valid text spells.
fn described<'a>(
    alloc: Global,
    language: Language,
    tables: &'a StrftimeTables<'a>,
    text: &'a str,
) -> Result<BorrowedOutput<'a>, AllocError>
    requires { IsSpelled language text.now }
    ensures { IfOk result (IsDescribed language text.now) }
{
    match language {
        Language::Version(version) => of_version(alloc, version, text),
        Language::Strftime => of_strftime(alloc, tables, text),
    }
}

fn of_version<'a>(
    alloc: Global,
    version: DescriptionVersion,
    text: &'a str,
) -> Result<BorrowedOutput<'a>, AllocError>
    requires { IsSpelled (languages.Version version) text.now }
    ensures { IfOk result (IsDescribed (languages.Version version) text.now) }
{
    match parse_borrowed(alloc, version, text) {
        Ok(output) => Ok(output),
        Err(ParseError::Invalid(_)) => unreachable!(),
        Err(ParseError::Memory(error)) => Err(error),
    }
}

fn of_strftime<'a>(
    alloc: Global,
    tables: &'a StrftimeTables<'a>,
    text: &'a str,
) -> Result<BorrowedOutput<'a>, AllocError>
    requires { IsSpelled languages.Strftime text.now }
    ensures { IfOk result (IsDescribed languages.Strftime text.now) }
{
    match parse_strftime_borrowed(alloc, tables, text) {
        Ok(items) => Ok(BorrowedOutput::Items(items)),
        Err(ParseError::Invalid(_)) => unreachable!(),
        Err(ParseError::Memory(error)) => Err(error),
    }
}

/// A description that was read, borrowed for looking at its parts.
pub fn borrowed<'o, 'a>(output: &'o BorrowedOutput<'a>) -> ReadDescription<'o, 'a>
    ensures { parts result ≡ output_parts output.now }
{
    match output {
        BorrowedOutput::Items(items) => ReadDescription::Items(items),
        BorrowedOutput::Description(description) => ReadDescription::Version3(description.view()),
    }
}
