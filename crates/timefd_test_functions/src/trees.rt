//! Descriptions that several tests look at.

use super::printed::{AMPLE, expect_printed};
use std::alloc::Global;
use std::process::Abort;
use timefd_items::{FormatDescriptionV3, FormatDescriptionV3Inner};
use timefd_modifier::WeekdayLong;

pub const WEEKDAY: FormatDescriptionV3Inner<'static> = FormatDescriptionV3Inner::WeekdayLong(
    WeekdayLong {
        case_sensitive: true,
    },
);

/// The literal, its text owned.
pub fn literal(rt: &impl Abort, alloc: Global, text: &str) -> FormatDescriptionV3Inner<'static> {
    FormatDescriptionV3Inner::OwnedLiteral(String::from_str(alloc, text).expect(rt, AMPLE))
}

/// An optional part, owned.
pub fn optional<'a>(
    rt: &impl Abort,
    alloc: Global,
    format: bool,
    item: FormatDescriptionV3Inner<'a>,
) -> FormatDescriptionV3Inner<'a> {
    FormatDescriptionV3Inner::OwnedOptional {
        format,
        item: Box::new(alloc, item).expect(rt, AMPLE),
    }
}

/// The tree, borrowed from a block that is never freed.
pub fn lend(
    rt: &impl Abort,
    alloc: Global,
    tree: FormatDescriptionV3Inner<'static>,
) -> &'static FormatDescriptionV3Inner<'static> {
    Box::leak(Box::new(alloc, tree).expect(rt, AMPLE))
}

/// Two trees in order.
pub fn two<'a>(
    rt: &impl Abort,
    alloc: Global,
    first: FormatDescriptionV3Inner<'a>,
    second: FormatDescriptionV3Inner<'a>,
) -> Vec<FormatDescriptionV3Inner<'a>> {
    vec![in alloc; first, second].expect(rt, AMPLE)
}

/// Three trees in order.
pub fn three<'a>(
    rt: &impl Abort,
    alloc: Global,
    first: FormatDescriptionV3Inner<'a>,
    second: FormatDescriptionV3Inner<'a>,
    third: FormatDescriptionV3Inner<'a>,
) -> Vec<FormatDescriptionV3Inner<'a>> {
    vec![in alloc; first, second, third].expect(rt, AMPLE)
}

/// Two trees, borrowed from a block that is never freed.
pub fn lend_two(
    rt: &impl Abort,
    alloc: Global,
    first: FormatDescriptionV3Inner<'static>,
    second: FormatDescriptionV3Inner<'static>,
) -> &'static [FormatDescriptionV3Inner<'static>] {
    two(rt, alloc, first, second).leak()
}

/// Two borrowed literals of six bytes each.
pub fn two_literals(rt: &impl Abort, alloc: Global) -> FormatDescriptionV3Inner<'static> {
    let first = FormatDescriptionV3Inner::BorrowedLiteral("abcdef");
    let second = FormatDescriptionV3Inner::BorrowedLiteral("ghijkl");
    FormatDescriptionV3Inner::BorrowedCompound(lend_two(rt, alloc, first, second))
}

/// The description of a tree that reserves few bytes.
pub fn opaque<'a>(
    rt: &impl Abort,
    alloc: Global,
    tree: FormatDescriptionV3Inner<'a>,
) -> FormatDescriptionV3<'a> {
    tree.into_opaque(alloc)
        .expect(rt, "the bytes fit, and memory suffices")
}

/// Expects what the description prints, both opaque and as a tree of its own.
pub fn expect_description(
    rt: &impl Abort,
    alloc: Global,
    description: &FormatDescriptionV3,
    expected: &str,
) {
    expect_printed(rt, alloc, description, expected);
    let inner = description.to_inner(alloc).expect(rt, AMPLE);
    expect_printed(rt, alloc, &inner, expected);
}
