//! What a text is read as, in print, to compare it with what is expected.

use super::printed::AMPLE;
use std::alloc::Global;
use std::process::Abort;
use timefd_items::{BorrowedFormatItem, FormatDescriptionV3};
use timefd_parse::{BorrowedOutput, DescriptionVersion, ParseError, parse, parse_borrowed};

/// The item, a literal in quotes.
fn print_item(rt: &impl Abort, printed: &mut String, item: &BorrowedFormatItem) {
    match item {
        BorrowedFormatItem::StringLiteral(text) => write!(printed, "{text:?}"),
        other => write!(printed, "{other:?}"),
    }
    .expect(rt, AMPLE)
}

/// The items in order, each literal in quotes.
pub fn print_items(rt: &impl Abort, alloc: Global, items: &[BorrowedFormatItem]) -> String {
    let mut printed = String::new(alloc);
    for item in items {
        if !printed.is_empty() {
            printed.push_str(", ").expect(rt, AMPLE);
        }
        print_item(rt, &mut printed, item);
    }
    printed
}

/// The number of reserved bytes and the tree, which is looked at both as a view and as a tree of
/// its own.
fn print_description(rt: &impl Abort, alloc: Global, description: &FormatDescriptionV3) -> String {
    let bytes = description.max_bytes_needed();
    let inner = description.to_inner(alloc).expect(rt, AMPLE);
    let looked_at = format!(in alloc; "{bytes} bytes: {inner:?}").expect(rt, AMPLE);
    let printed = format!(in alloc; "{bytes} bytes: {description:?}").expect(rt, AMPLE);
    assert_eq!(rt; printed.as_str(), looked_at.as_str());
    printed
}

/// What is printed for a call that says that memory ran out.
pub const REFUSED: &str = "memory ran out";

/// The sentence of the fault, or that memory ran out.
pub fn print_error(rt: &impl Abort, alloc: Global, error: ParseError) -> String {
    match error {
        ParseError::Invalid(fault) => format!(in alloc; "{fault}"),
        ParseError::Memory(_) => String::from_str(alloc, REFUSED),
    }
    .expect(rt, AMPLE)
}

/// What the text is read as in this version, in print.
pub fn answer(rt: &impl Abort, alloc: Global, version: DescriptionVersion, text: &str) -> String {
    match parse_borrowed(alloc, version, text) {
        Ok(BorrowedOutput::Items(items)) => print_items(rt, alloc, &items),
        Ok(BorrowedOutput::Description(description)) => print_description(rt, alloc, &description),
        Err(error) => print_error(rt, alloc, error),
    }
}

/// What the call that reads only version 1 reads the text as, in print.
pub fn answer_of_parse(rt: &impl Abort, alloc: Global, text: &str) -> String {
    match parse(alloc, text) {
        Ok(items) => print_items(rt, alloc, &items),
        Err(error) => print_error(rt, alloc, error),
    }
}

/// Expects what each call that reads this version reads the text as.
pub fn expect(
    rt: &impl Abort,
    alloc: Global,
    version: DescriptionVersion,
    text: &str,
    expected: &str,
) {
    let printed = answer(rt, alloc, version, text);
    assert_eq!(rt; printed.as_str(), expected, "{text} in version {version:?}");
    if version == DescriptionVersion::One {
        let printed = answer_of_parse(rt, alloc, text);
        assert_eq!(rt; printed.as_str(), expected, "{text} by parse");
    }
}
