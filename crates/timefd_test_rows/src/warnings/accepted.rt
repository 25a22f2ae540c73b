//! Warnings of texts that are accepted.

use crate::fault::RowFault;
use crate::fields::one;
use crate::language::{fault_of, version_of};
use std::alloc::Global;
use timefd_lang_warnings::{LanguageStyle, ReadDescription, Warning, read_elsewhere, warns};
use timefd_parse::{
    BorrowedOutput, DescriptionVersion, StrftimeTables, parse_borrowed, parse_strftime_borrowed,
};

/// The languages that texts are read in.
#[derive(Clone, Copy)]
enum Language {
    Version(DescriptionVersion),
    EveryVersion,
    Strftime,
}

fn language_of(word: &str) -> Result<Language, RowFault> {
    match word {
        "every" => Ok(Language::EveryVersion),
        "strftime" => Ok(Language::Strftime),
        other => Ok(Language::Version(version_of(other)?)),
    }
}

/// Whether a text of a version has a warning.
fn has(
    alloc: Global,
    version: DescriptionVersion,
    warning: Warning,
    text: &str,
) -> Result<bool, RowFault> {
    match parse_borrowed(alloc, version, text) {
        Ok(BorrowedOutput::Description(description)) => {
            let seen = ReadDescription::Version3(description.view());
            Ok(warns(LanguageStyle::Brackets, seen, warning))
        }
        Ok(BorrowedOutput::Items(items)) => {
            Ok(warns(
                LanguageStyle::Brackets,
                ReadDescription::Items(&items),
                warning,
            ))
        }
        Err(error) => Err(fault_of(error)),
    }
}

/// Whether a text of strftime has a warning.
fn has_strftime(alloc: Global, warning: Warning, text: &str) -> Result<bool, RowFault> {
    let tables = StrftimeTables::new();
    match parse_strftime_borrowed(alloc, &tables, text) {
        Ok(items) => Ok(warns(
            LanguageStyle::Percents,
            ReadDescription::Items(&items),
            warning,
        )),
        Err(error) => Err(fault_of(error)),
    }
}

fn yes_or_no(is: bool) -> &'static str {
    if is { "yes" } else { "no" }
}

/// Whether a text has a warning in each version, in one word where they agree.
fn in_every_version(alloc: Global, warning: Warning, text: &str) -> Result<String, RowFault> {
    let first = has(alloc, DescriptionVersion::One, warning, text)?;
    let second = has(alloc, DescriptionVersion::Two, warning, text)?;
    let third = has(alloc, DescriptionVersion::Three, warning, text)?;
    if first == second && second == third {
        return Ok(String::from_str(alloc, yes_or_no(first))?);
    }
    Ok(format!(in alloc; "1: {first}, 2: {second}, 3: {third}")?)
}

/// Whether a text of a language has a warning.
fn answer(
    alloc: Global,
    language: Language,
    warning: Warning,
    text: &str,
) -> Result<String, RowFault> {
    let is = match language {
        Language::EveryVersion => return in_every_version(alloc, warning, text),
        Language::Version(version) => has(alloc, version, warning, text)?,
        Language::Strftime => has_strftime(alloc, warning, text)?,
    };
    Ok(String::from_str(alloc, yes_or_no(is))?)
}

/// Whether each text of a language has a warning.
pub fn warned(alloc: Global, fields: &[&str]) -> Result<String, RowFault> {
    let [language, name, texts @ ..] = fields else {
        return Err(RowFault::Fields("LANGUAGE WARNING TEXT.."));
    };
    let Some(warning) = Warning::named(name) else {
        return Err(RowFault::Field("the name of a warning"));
    };
    let language = language_of(language)?;
    let mut answers = String::new(alloc);
    for text in texts {
        if !answers.is_empty() {
            answers.push_str(" ")?;
        }
        answers.push_str(&answer(alloc, language, warning, text)?)?;
    }
    Ok(answers)
}

/// The language that a text without components was perhaps written in.
pub fn elsewhere(alloc: Global, fields: &[&str]) -> Result<String, RowFault> {
    let text = one(fields, "TEXT")?;
    match read_elsewhere(text) {
        Some(elsewhere) => Ok(String::from_str(alloc, elsewhere.name())?),
        None => Ok(String::from_str(alloc, "nothing")?),
    }
}
