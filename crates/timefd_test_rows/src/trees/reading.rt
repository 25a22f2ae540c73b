//! What the readers return, in print.

use crate::agreed::agreed;
use crate::fault::RowFault;
use crate::language::{language_of, version_of};
use std::alloc::Global;
use timefd_items::{BorrowedFormatItem, FormatDescriptionV3};
use timefd_parse::{
    BorrowedOutput, DescriptionVersion, Language, NESTING_LIMIT, ParseError, StrftimeTables, parse,
    parse_borrowed, parse_borrowed_within, parse_strftime_borrowed,
};

fn number_of(field: &str) -> Result<u8, RowFault> {
    field
        .parse::<u8>()
        .map_err(|_| RowFault::Field("a number below 256"))
}

/// The version of this number.
pub fn version(alloc: Global, number: &str) -> Result<String, RowFault> {
    match DescriptionVersion::from_number(number_of(number)?) {
        Some(version) => Ok(format!(in alloc; "{version:?}")?),
        None => Ok(String::from_str(alloc, "none")?),
    }
}

/// Reads the text in this language, or in every version, and prints the result.
pub fn tree(alloc: Global, language: &str, text: &str) -> Result<String, RowFault> {
    if language == "every" {
        return in_every_version(alloc, text);
    }
    match language_of(language)? {
        Language::Version(version) => in_version(alloc, version, text),
        Language::Strftime => in_strftime(alloc, text),
    }
}

fn in_every_version(alloc: Global, text: &str) -> Result<String, RowFault> {
    let one = in_version(alloc, DescriptionVersion::One, text)?;
    let two = in_version(alloc, DescriptionVersion::Two, text)?;
    let three = in_version(alloc, DescriptionVersion::Three, text)?;
    agreed(alloc, agreed(alloc, one, &two)?, &three)
}

/// Reads the text in a version. Version 1 has two calls, which have to agree.
fn in_version(alloc: Global, version: DescriptionVersion, text: &str) -> Result<String, RowFault> {
    let answer = output(alloc, parse_borrowed(alloc, version, text))?;
    if version != DescriptionVersion::One {
        return Ok(answer);
    }
    let items = items_or_fault(alloc, parse(alloc, text))?;
    agreed(alloc, answer, &items)
}

fn in_strftime(alloc: Global, text: &str) -> Result<String, RowFault> {
    let tables = StrftimeTables::new();
    items_or_fault(alloc, parse_strftime_borrowed(alloc, &tables, text))
}

/// Reads the text with this nesting limit, and prints the result.
pub fn tree_within(
    alloc: Global,
    limit: &str,
    version: &str,
    text: &str,
) -> Result<String, RowFault> {
    let limit = number_of(limit)?;
    if limit > NESTING_LIMIT {
        return Err(RowFault::Field("a nesting limit, which is at most 127"));
    }
    output(
        alloc,
        parse_borrowed_within(alloc, version_of(version)?, limit, text),
    )
}

fn output(
    alloc: Global,
    output: Result<BorrowedOutput<'_>, ParseError>,
) -> Result<String, RowFault> {
    match output {
        Ok(BorrowedOutput::Items(items)) => print_items(alloc, &items),
        Ok(BorrowedOutput::Description(description)) => print_description(alloc, &description),
        Err(error) => sentence(alloc, error),
    }
}

fn items_or_fault(
    alloc: Global,
    items: Result<Vec<BorrowedFormatItem<'_>>, ParseError>,
) -> Result<String, RowFault> {
    match items {
        Ok(items) => print_items(alloc, &items),
        Err(error) => sentence(alloc, error),
    }
}

/// The fault's sentence.
pub fn sentence(alloc: Global, error: ParseError) -> Result<String, RowFault> {
    match error {
        ParseError::Invalid(fault) => Ok(format!(in alloc; "{fault}")?),
        ParseError::Memory(_) => Err(RowFault::Memory),
    }
}

/// The number of bytes that a description reserves, and its tree, which prints alike as a view and
/// as a tree of its own.
fn print_description(
    alloc: Global,
    description: &FormatDescriptionV3<'_>,
) -> Result<String, RowFault> {
    let bytes = description.max_bytes_needed();
    let inner = description.to_inner(alloc)?;
    let looked_into = format!(in alloc; "{bytes} bytes: {inner:?}")?;
    let printed = format!(in alloc; "{bytes} bytes: {description:?}")?;
    agreed(alloc, printed, &looked_into)
}

/// The items in order, each literal in quotes, and a compound in brackets.
fn print_items(alloc: Global, items: &[BorrowedFormatItem<'_>]) -> Result<String, RowFault> {
    let mut printed = String::new(alloc);
    for item in items {
        if !printed.is_empty() {
            printed.push_str(", ")?;
        }
        match item {
            BorrowedFormatItem::Compound(members) => {
                let members = print_members(alloc, members)?;
                write!(printed, "[{members}]")?;
            }
            other => print_item(&mut printed, other)?,
        }
    }
    Ok(printed)
}

fn print_members(alloc: Global, members: &[BorrowedFormatItem<'_>]) -> Result<String, RowFault> {
    let mut printed = String::new(alloc);
    for member in members {
        if !printed.is_empty() {
            printed.push_str(", ")?;
        }
        print_item(&mut printed, member)?;
    }
    Ok(printed)
}

fn print_item(printed: &mut String, item: &BorrowedFormatItem<'_>) -> Result<(), RowFault> {
    match item {
        BorrowedFormatItem::StringLiteral(text) => write!(printed, "{text:?}")?,
        other => write!(printed, "{other:?}")?,
    }
    Ok(())
}

/// The description that version 3 reads the text as.
pub fn described(alloc: Global, text: &str) -> Result<FormatDescriptionV3<'_>, RowFault> {
    match parse_borrowed(alloc, DescriptionVersion::Three, text) {
        Ok(BorrowedOutput::Description(description)) => Ok(description),
        Ok(BorrowedOutput::Items(_)) | Err(ParseError::Invalid(_)) => {
            Err(RowFault::Field("a text that version 3 accepts"))
        }
        Err(ParseError::Memory(_)) => Err(RowFault::Memory),
    }
}
