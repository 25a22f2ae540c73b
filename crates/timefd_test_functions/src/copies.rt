//! How trees and descriptions print, and their copies. Each call runs once, with ample memory.

use super::printed::{AMPLE, expect_printed};
use super::trees::{
    WEEKDAY, expect_description, lend, lend_two, literal, opaque, optional, three, two,
    two_literals,
};
use std::alloc::Global;
use std::process::Abort;
use timefd_items::{
    Component, FormatDescriptionV3, FormatDescriptionV3Inner, NotOpaque, OpaqueCause,
};
use timefd_modifier::{Day, Padding};
use timefd_parse::{BorrowedOutput, DescriptionVersion, parse_borrowed};

const DAY: FormatDescriptionV3Inner<'static> = FormatDescriptionV3Inner::Day(Day {
    padding: Padding::Zero,
});

/// `x[optional format:false [[weekday]]]`, whose literal is cut from a text that is gone by the
/// return.
fn outlives_its_text(rt: &impl Abort, alloc: Global) -> FormatDescriptionV3<'static> {
    let text = String::from_str(alloc, "x").expect(rt, AMPLE);
    let literal = FormatDescriptionV3Inner::BorrowedLiteral(text.as_str());
    let members = two(rt, alloc, literal, optional(rt, alloc, false, WEEKDAY));
    let description = opaque(rt, alloc, FormatDescriptionV3Inner::OwnedCompound(members));
    description.to_owned(alloc).expect(rt, AMPLE)
}

/// Expects that the description is that of `x[optional format:false [[weekday]]]`.
fn expect_x_and_optional(rt: &impl Abort, alloc: Global, description: &FormatDescriptionV3) {
    assert_eq!(rt; description.max_bytes_needed(), 1);
    let expected =
        "Compound([Literal(\"x\"), Optional { should_format: false, item: WeekdayLong { case_sensitive: true } }])";
    expect_description(rt, alloc, description, expected);
}

/// `x[optional format:false [[weekday]]]`, read from a text that is gone by the return.
fn read_and_copied(rt: &impl Abort, alloc: Global) -> FormatDescriptionV3<'static> {
    let text = "x[optional format:false [[weekday]]]";
    let text = String::from_str(alloc, text).expect(rt, AMPLE);
    match parse_borrowed(alloc, DescriptionVersion::Three, text.as_str()) {
        Ok(BorrowedOutput::Description(description)) => {
            description.to_owned(alloc).expect(rt, AMPLE)
        }
        _ => rt.panic("the text is a description"),
    }
}

/// Both are the description of `x[optional format:false [[weekday]]]`.
#[test]
fn owned_copies_outlive_their_texts(rt: HostRuntime) {
    let expected =
        "Compound([Literal(\"x\"), Optional { should_format: false, item: WeekdayLong { case_sensitive: true } }])";
    expect_bytes_and_print(
        &rt,
        rt.alloc(),
        &outlives_its_text(&rt, rt.alloc()),
        1,
        expected,
    );
    expect_bytes_and_print(
        &rt,
        rt.alloc(),
        &read_and_copied(&rt, rt.alloc()),
        1,
        expected,
    );
}

/// Expects how many bytes the description reserves, and what it prints.
fn expect_bytes_and_print(
    rt: &impl Abort,
    alloc: Global,
    description: &FormatDescriptionV3,
    bytes: usize,
    expected: &str,
) {
    assert_eq!(rt; description.max_bytes_needed(), bytes);
    expect_description(rt, alloc, description, expected);
}

/// Expects what a tree, its description and all copies of both print, and how many bytes the descriptions
/// reserve.
fn expect_copies(
    rt: &impl Abort,
    alloc: Global,
    tree: FormatDescriptionV3Inner<'static>,
    bytes: usize,
    expected: &str,
) {
    expect_printed(rt, alloc, &tree, expected);
    let copy = tree.clone(alloc).expect(rt, AMPLE);
    expect_printed(rt, alloc, &copy, expected);
    let description = opaque(rt, alloc, tree);
    expect_bytes_and_print(rt, alloc, &description, bytes, expected);
    let copy = description.clone(alloc).expect(rt, AMPLE);
    expect_bytes_and_print(rt, alloc, &copy, bytes, expected);
    let owned = description.to_owned(alloc).expect(rt, AMPLE);
    expect_bytes_and_print(rt, alloc, &owned, bytes, expected);
}

/// `x[optional format:false [[weekday]]][first [a] [bcd]]`, its parts owned except for `bcd`.
fn owned(rt: &impl Abort, alloc: Global) -> FormatDescriptionV3Inner<'static> {
    let second = FormatDescriptionV3Inner::BorrowedLiteral("bcd");
    let alternatives = two(rt, alloc, literal(rt, alloc, "a"), second);
    let first = FormatDescriptionV3Inner::OwnedFirst(alternatives);
    let skipped = optional(rt, alloc, false, WEEKDAY);
    let members = three(rt, alloc, literal(rt, alloc, "x"), skipped, first);
    FormatDescriptionV3Inner::OwnedCompound(members)
}

/// The tree of `owned`, its parts borrowed.
fn borrowed(rt: &impl Abort, alloc: Global) -> FormatDescriptionV3Inner<'static> {
    let first = FormatDescriptionV3Inner::BorrowedLiteral("a");
    let second = FormatDescriptionV3Inner::BorrowedLiteral("bcd");
    let first = FormatDescriptionV3Inner::BorrowedFirst(lend_two(rt, alloc, first, second));
    let literal = FormatDescriptionV3Inner::BorrowedLiteral("x");
    let skipped = FormatDescriptionV3Inner::BorrowedOptional {
        format: false,
        item: lend(rt, alloc, WEEKDAY),
    };
    let members = three(rt, alloc, literal, skipped, first);
    FormatDescriptionV3Inner::BorrowedCompound(members.leak())
}

const PRINTED: &str =
    "Compound([Literal(\"x\"), Optional { should_format: false, item: WeekdayLong { case_sensitive: true } }, First([Literal(\"a\"), Literal(\"bcd\")])])";

/// The tree prints alike with owned parts and with borrowed parts.
fn copies_of_owned_and_borrowed_parts(rt: &impl Abort, alloc: Global) {
    expect_copies(rt, alloc, owned(rt, alloc), 2, PRINTED);
    expect_copies(rt, alloc, borrowed(rt, alloc), 2, PRINTED);
}

fn copies_of_owned_parts(rt: &impl Abort, alloc: Global) {
    let alternatives = two(rt, alloc, literal(rt, alloc, "a"), DAY);
    let first = FormatDescriptionV3Inner::OwnedFirst(alternatives);
    let expected =
        "Optional { should_format: true, item: First([Literal(\"a\"), Day { padding: Zero }]) }";
    expect_copies(rt, alloc, optional(rt, alloc, true, first), 1, expected);
    let none = FormatDescriptionV3Inner::OwnedFirst(Vec::new(alloc));
    expect_copies(rt, alloc, none, 0, "First([])");
}

fn copies_of_borrowed_parts(rt: &impl Abort, alloc: Global) {
    let borrowed = FormatDescriptionV3Inner::BorrowedOptional {
        format: false,
        item: lend(rt, alloc, DAY),
    };
    let expected = "Optional { should_format: false, item: Day { padding: Zero } }";
    expect_copies(rt, alloc, borrowed, 0, expected);
    let borrowed = FormatDescriptionV3Inner::BorrowedOptional {
        format: true,
        item: lend(rt, alloc, two_literals(rt, alloc)),
    };
    let expected =
        "Optional { should_format: true, item: Compound([Literal(\"abcdef\"), Literal(\"ghijkl\")]) }";
    expect_copies(rt, alloc, borrowed, 12, expected);
    let alternative = FormatDescriptionV3Inner::BorrowedLiteral("a");
    let borrowed = FormatDescriptionV3Inner::BorrowedFirst(lend_two(rt, alloc, alternative, DAY));
    let expected = "First([Literal(\"a\"), Day { padding: Zero }])";
    expect_copies(rt, alloc, borrowed, 1, expected);
    let expected = "Compound([Literal(\"abcdef\"), Literal(\"ghijkl\")])";
    expect_copies(rt, alloc, two_literals(rt, alloc), 12, expected);
}

/// `a`, `[day]`, `b`, and an optional `c` that isn't formatted.
fn four(rt: &impl Abort, alloc: Global) -> Vec<FormatDescriptionV3Inner<'static>> {
    vec![in alloc;
        literal(rt, alloc, "a"),
        DAY,
        literal(rt, alloc, "b"),
        optional(rt, alloc, false, literal(rt, alloc, "c")),
    ]
    .expect(rt, AMPLE)
}

fn copies_of_longer_lists(rt: &impl Abort, alloc: Global) {
    let compound = FormatDescriptionV3Inner::OwnedCompound(four(rt, alloc));
    let expected =
        "Compound([Literal(\"a\"), Day { padding: Zero }, Literal(\"b\"), Optional { should_format: false, item: Literal(\"c\") }])";
    expect_copies(rt, alloc, compound, 4, expected);
    let first = FormatDescriptionV3Inner::OwnedFirst(four(rt, alloc));
    let expected =
        "First([Literal(\"a\"), Day { padding: Zero }, Literal(\"b\"), Optional { should_format: false, item: Literal(\"c\") }])";
    expect_copies(rt, alloc, first, 1, expected);
}

fn printed_refusal(rt: &impl Abort, alloc: Global) {
    let refused = NotOpaque {
        tree: FormatDescriptionV3Inner::from(Component::Day(Day::default())),
        cause: OpaqueCause::TooManyBytes,
    };
    let expected = "NotOpaque { tree: Day { padding: Zero }, cause: TooManyBytes }";
    expect_printed(rt, alloc, &refused, expected);
}

#[test]
fn trees_and_their_copies(rt: HostRuntime) {
    let alloc = rt.alloc();
    copies_of_owned_and_borrowed_parts(&rt, alloc);
    copies_of_owned_parts(&rt, alloc);
    copies_of_borrowed_parts(&rt, alloc);
    copies_of_longer_lists(&rt, alloc);
    printed_refusal(&rt, alloc);
}
