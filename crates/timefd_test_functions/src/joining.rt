//! Two texts read as one: the items of both, one after another, or the second text's fault further
//! on.

use super::printed::AMPLE;
use std::alloc::Global;
use std::process::Abort;
use timefd_items::{
    BorrowedFormatItem, FormatDescriptionV3, FormatDescriptionV3Inner, InvalidFormatDescription,
};
use timefd_parse::{
    BorrowedOutput, DescriptionVersion, ParseError, StrftimeTables, parse_borrowed,
    parse_strftime_borrowed,
};

const TEXTS: &[&str] = &[
    "[year]-[month]-[day]",
    "[[day]]",
    "\\[[day]]",
    "[",
    "[]",
    "[ ]",
    "[  ]",
    "[day \\]",
    "[foo",
    "[foo bar",
    "[foo]",
    "[day padding:]",
    "[day :zero]",
    "[day :]",
    "[day padding:zero:x]",
    "[day[x]]",
    "[foo [x]]",
    "[optional [a][b]]",
    "[first [a]b]",
    "[optional [a] format:false]",
    "[first [a][b]]",
    "[day [[foo]]]",
    "[a[",
    "[optional [[day\\]]]",
    "ab",
    "c[day]",
    "[YEAR]",
    "a[YEAR]",
    "[[",
    "[day]",
    "[[[day]",
    "\u{e9}\\\u{e9}",
    "\u{e9}\\",
    "%\u{e9}",
    "%",
    "%_",
    "%O",
    "%_Z",
    "%E",
    "%-d",
    "%_%",
    "%Y-%m-%d",
    "",
];

#[derive(Debug, Clone, Copy)]
enum Reader {
    Version(DescriptionVersion),
    Strftime,
}

/// Adds the item in print. What isn't a literal goes between two bytes 0, which no text here has,
/// so that neighbouring literals read as one.
fn add_item(rt: &impl Abort, printed: &mut String, item: &BorrowedFormatItem) {
    if let BorrowedFormatItem::StringLiteral(text) = item {
        printed.push_str(text).expect(rt, AMPLE);
        return;
    }
    write!(printed, "\0{item:?}\0").expect(rt, AMPLE);
}

fn add_items(rt: &impl Abort, printed: &mut String, items: &[BorrowedFormatItem]) {
    for item in items {
        add_item(rt, printed, item);
    }
}

/// Adds the tree in print, as `add_item` does.
fn add_tree(rt: &impl Abort, printed: &mut String, tree: &FormatDescriptionV3Inner) {
    if let FormatDescriptionV3Inner::BorrowedLiteral(text) = tree {
        printed.push_str(text).expect(rt, AMPLE);
        return;
    }
    write!(printed, "\0{tree:?}\0").expect(rt, AMPLE);
}

/// Adds the members of a compound, and any other tree alone.
fn add_description(
    rt: &impl Abort,
    alloc: Global,
    printed: &mut String,
    description: &FormatDescriptionV3,
) {
    let tree = description.to_inner(alloc).expect(rt, AMPLE);
    let FormatDescriptionV3Inner::OwnedCompound(members) = &tree else {
        return add_tree(rt, printed, &tree);
    };
    for member in members {
        add_tree(rt, printed, member);
    }
}

/// The fault of the error. The error isn't that memory ran out.
fn fault_of(rt: &impl Abort, error: ParseError) -> InvalidFormatDescription {
    match error {
        ParseError::Invalid(fault) => fault,
        ParseError::Memory(_) => rt.panic(AMPLE),
    }
}

/// Adds the text's items, or returns its fault.
fn add_of_version(
    rt: &impl Abort,
    alloc: Global,
    printed: &mut String,
    version: DescriptionVersion,
    text: &str,
) -> Option<InvalidFormatDescription> {
    match parse_borrowed(alloc, version, text) {
        Ok(BorrowedOutput::Items(items)) => add_items(rt, printed, &items),
        Ok(BorrowedOutput::Description(description)) => {
            add_description(rt, alloc, printed, &description)
        }
        Err(error) => return Some(fault_of(rt, error)),
    }
    None
}

/// Adds the items of the text of strftime, or returns its fault.
fn add_of_strftime(
    rt: &impl Abort,
    alloc: Global,
    printed: &mut String,
    text: &str,
) -> Option<InvalidFormatDescription> {
    let tables = StrftimeTables::new();
    match parse_strftime_borrowed(alloc, &tables, text) {
        Ok(items) => {
            add_items(rt, printed, &items);
            None
        }
        Err(error) => Some(fault_of(rt, error)),
    }
}

fn add(
    rt: &impl Abort,
    alloc: Global,
    printed: &mut String,
    reader: Reader,
    text: &str,
) -> Option<InvalidFormatDescription> {
    match reader {
        Reader::Version(version) => add_of_version(rt, alloc, printed, version, text),
        Reader::Strftime => add_of_strftime(rt, alloc, printed, text),
    }
}

/// Moves the fault this many bytes further on.
fn raise(fault: &mut InvalidFormatDescription, bytes: usize) {
    let index = match fault {
        InvalidFormatDescription::UnclosedOpeningBracket { index }
        | InvalidFormatDescription::InvalidComponentName { index, .. }
        | InvalidFormatDescription::InvalidModifier { index, .. }
        | InvalidFormatDescription::MissingComponentName { index }
        | InvalidFormatDescription::MissingRequiredModifier { index, .. }
        | InvalidFormatDescription::Expected { index, .. }
        | InvalidFormatDescription::NotSupported { index, .. }
        | InvalidFormatDescription::DuplicateModifier { index, .. }
        | InvalidFormatDescription::InvalidModifierCombination { index, .. } => index,
    };
    *index = index.wrapping_add(bytes);
}

/// Expects that the second text reads after the first as it does alone, if the first is accepted.
fn expect_pair(rt: &impl Abort, alloc: Global, reader: Reader, first: &str, second: &str) {
    let mut apart = String::new(alloc);
    if add(rt, alloc, &mut apart, reader, first).is_some() {
        return;
    }
    let alone = add(rt, alloc, &mut apart, reader, second);
    let text = format!(in alloc; "{first}{second}").expect(rt, AMPLE);
    let mut together = String::new(alloc);
    let after = add(rt, alloc, &mut together, reader, text.as_str());
    match (alone, after) {
        (None, None) => {
            assert_eq!(rt; together.as_str(), apart.as_str(), "{text}");
        }
        (Some(mut alone), Some(after)) => {
            raise(&mut alone, first.len());
            assert!(rt; after == alone, "{text}: {after}, not {alone}");
        }
        _ => assert!(rt; false, "{first} before {second} by {reader:?}"),
    }
}

/// Expects that each text reads after this one as it does alone.
fn expect_before_each(rt: &impl Abort, alloc: Global, reader: Reader, first: &str) {
    for second in TEXTS {
        expect_pair(rt, alloc, reader, first, second);
    }
}

const READERS: &[Reader] = &[
    Reader::Version(DescriptionVersion::One),
    Reader::Version(DescriptionVersion::Two),
    Reader::Version(DescriptionVersion::Three),
    Reader::Strftime,
];

#[test]
fn each_pair(rt: HostRuntime) {
    for reader in READERS {
        for first in TEXTS {
            expect_before_each(&rt, rt.alloc(), *reader, first);
        }
    }
}
