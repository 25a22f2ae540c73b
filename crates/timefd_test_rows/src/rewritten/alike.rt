//! Whether a version reads the rewritten text as the version before it reads the text.

use super::owned;
use crate::fault::RowFault;
use crate::trees::reading::described;
use std::alloc::Global;
use timefd_items::{BorrowedFormatItem, FormatDescriptionV3, Shape};
use timefd_lift::{v1_to_v2, v2_to_v3};
use timefd_parse::{BorrowedOutput, DescriptionVersion, ParseError, parse_borrowed};

/// `alike`, or what both versions read.
pub fn reads_alike(alloc: Global, from: &str, text: &str) -> Result<String, RowFault> {
    match from {
        "1" => of_one(alloc, text),
        "2" => of_two(alloc, text),
        _ => Err(RowFault::Field("version 1 or 2")),
    }
}

/// Compares versions 1 and 2. Version 1 cuts literals where version 2 doesn't, so neighbouring literals count
/// as one.
fn of_one(alloc: Global, text: &str) -> Result<String, RowFault> {
    let rewritten = accepted(v1_to_v2(alloc, text))?;
    let before = joined(alloc, &items(alloc, DescriptionVersion::One, text)?)?;
    let after = joined(alloc, &items(alloc, DescriptionVersion::Two, &rewritten)?)?;
    alike(alloc, &before, &after)
}

fn of_two(alloc: Global, text: &str) -> Result<String, RowFault> {
    let rewritten = accepted(owned(alloc, v2_to_v3(alloc, text)))?;
    let before = in_turn(alloc, &items(alloc, DescriptionVersion::Two, text)?)?;
    let after = parts(alloc, &described(alloc, &rewritten)?)?;
    alike(alloc, &before, &after)
}

fn alike(alloc: Global, before: &str, after: &str) -> Result<String, RowFault> {
    if before == after {
        Ok(String::from_str(alloc, "alike")?)
    } else {
        Ok(format!(in alloc; "{before} before, and {after} after")?)
    }
}

const NOT_ACCEPTED: RowFault = RowFault::Field("a text that is accepted");

fn accepted<T: Drop>(answer: Result<T, ParseError>) -> Result<T, RowFault> {
    match answer {
        Ok(answer) => Ok(answer),
        Err(ParseError::Invalid(_)) => Err(NOT_ACCEPTED),
        Err(ParseError::Memory(_)) => Err(RowFault::Memory),
    }
}

/// The items that version 1 or 2 reads.
fn items(
    alloc: Global,
    version: DescriptionVersion,
    text: &str,
) -> Result<Vec<BorrowedFormatItem<'_>>, RowFault> {
    match accepted(parse_borrowed(alloc, version, text))? {
        BorrowedOutput::Items(items) => Ok(items),
        BorrowedOutput::Description(_) => Err(NOT_ACCEPTED),
    }
}

/// The items in print, with neighbouring literals as one. That one may be empty.
fn joined(alloc: Global, items: &[BorrowedFormatItem<'_>]) -> Result<String, RowFault> {
    let mut printed = String::new(alloc);
    let mut literal = String::new(alloc);
    for item in items {
        match item {
            BorrowedFormatItem::StringLiteral(text) => literal.push_str(text)?,
            other => {
                write!(printed, "{literal:?}, {other:?}, ")?;
                literal.clear();
            }
        }
    }
    write!(printed, "{literal:?}")?;
    Ok(printed)
}

/// The literals and components of the items in print.
fn in_turn(alloc: Global, items: &[BorrowedFormatItem<'_>]) -> Result<String, RowFault> {
    let mut printed = String::new(alloc);
    for item in items {
        match item {
            BorrowedFormatItem::StringLiteral(text) => write!(printed, "{text:?}; ")?,
            BorrowedFormatItem::Component(component) => write!(printed, "{component:?}; ")?,
            _ => printed.push_str("other; ")?,
        }
    }
    Ok(printed)
}

/// The literals and components of a description in print. The members of a compound are printed before it.
fn parts(alloc: Global, description: &FormatDescriptionV3<'_>) -> Result<String, RowFault> {
    let mut printed = String::new(alloc);
    for part in description.view().walk() {
        match part.shape() {
            Shape::Literal(text) => write!(printed, "{text:?}; ")?,
            Shape::Component(component) => write!(printed, "{component:?}; ")?,
            Shape::Compound(_) => {}
            Shape::Optional { .. } | Shape::First(_) => printed.push_str("other; ")?,
        }
    }
    Ok(printed)
}
