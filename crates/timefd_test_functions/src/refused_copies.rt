//! Copies made twice, where one allocation may be refused. `gate/memory` runs these tests once for
//! each allocation, and refuses that one. What is copied is unchanged, whatever is refused.

use super::printed::{AMPLE, expect_printed};
use super::trees::{expect_description, lend, literal, opaque, optional, three};
use std::alloc::{AllocError, Global};
use std::fmt::Debug;
use std::process::Abort;
use timefd_items::{FormatDescriptionV3Inner, InvalidFormatDescription, NotOpaque, OpaqueCause};
use timefd_modifier::{Day, Padding};

const DAY: FormatDescriptionV3Inner<'static> = FormatDescriptionV3Inner::Day(Day {
    padding: Padding::Zero,
});

/// What is printed for a call that says that memory ran out.
const REFUSED: &str = "memory ran out";

/// Expects that one call gave this answer, and that the other gave it too or was refused memory.
fn expect_one_at_least(rt: &impl Abort, first: &str, second: &str, expected: &str) {
    if first == REFUSED {
        assert_eq!(rt; second, expected, "behind a refusal");
        return;
    }
    assert_eq!(rt; first, expected);
    if second == REFUSED {
        return;
    }
    assert_eq!(rt; second, expected, "a second time");
}

/// The copy, in print, or that memory ran out.
fn print_copy<T: Debug>(rt: &impl Abort, alloc: Global, copy: &Result<T, AllocError>) -> String {
    match copy {
        Ok(copy) => format!(in alloc; "{copy:?}"),
        Err(AllocError) => String::from_str(alloc, REFUSED),
    }
    .expect(rt, AMPLE)
}

/// `x[optional [y]][first [a] [[day]] [c]]`, its parts owned except for `y` and `c`.
fn worked(rt: &impl Abort, alloc: Global) -> FormatDescriptionV3Inner<'static> {
    let third = FormatDescriptionV3Inner::BorrowedLiteral("c");
    let alternatives = three(rt, alloc, literal(rt, alloc, "a"), DAY, third);
    let first = FormatDescriptionV3Inner::OwnedFirst(alternatives);
    let skipped = FormatDescriptionV3Inner::BorrowedLiteral("y");
    let skipped = optional(rt, alloc, true, skipped);
    let members = three(rt, alloc, literal(rt, alloc, "x"), skipped, first);
    FormatDescriptionV3Inner::OwnedCompound(members)
}

const WORKED: &str =
    "Compound([Literal(\"x\"), Optional { should_format: true, item: Literal(\"y\") }, First([Literal(\"a\"), Day { padding: Zero }, Literal(\"c\")])])";

fn copies_of_a_description(rt: &impl Abort, alloc: Global) {
    let description = opaque(rt, alloc, worked(rt, alloc));
    let first = print_copy(rt, alloc, &description.to_owned(alloc));
    let second = print_copy(rt, alloc, &description.to_owned(alloc));
    expect_one_at_least(rt, first.as_str(), second.as_str(), WORKED);
    let first = print_copy(rt, alloc, &description.to_inner(alloc));
    let second = print_copy(rt, alloc, &description.to_inner(alloc));
    expect_one_at_least(rt, first.as_str(), second.as_str(), WORKED);
    let first = print_copy(rt, alloc, &description.clone(alloc));
    let second = print_copy(rt, alloc, &description.clone(alloc));
    expect_one_at_least(rt, first.as_str(), second.as_str(), WORKED);
    expect_description(rt, alloc, &description, WORKED);
}

fn copies_of_a_tree(rt: &impl Abort, alloc: Global) {
    let tree = worked(rt, alloc);
    let first = print_copy(rt, alloc, &tree.clone(alloc));
    let second = print_copy(rt, alloc, &tree.clone(alloc));
    expect_one_at_least(rt, first.as_str(), second.as_str(), WORKED);
    expect_printed(rt, alloc, &tree, WORKED);
}

fn copies_of_a_fault(rt: &impl Abort, alloc: Global) {
    let fault = InvalidFormatDescription::InvalidComponentName {
        name: String::from_str(alloc, "foo").expect(rt, AMPLE),
        index: 1,
    };
    let expected = "InvalidComponentName { name: \"foo\", index: 1 }";
    let first = print_copy(rt, alloc, &fault.clone(alloc));
    let second = print_copy(rt, alloc, &fault.clone(alloc));
    expect_one_at_least(rt, first.as_str(), second.as_str(), expected);
    expect_printed(rt, alloc, &fault, expected);
}

#[test]
fn copies(rt: HostRuntime) {
    copies_of_a_description(&rt, rt.alloc());
    copies_of_a_tree(&rt, rt.alloc());
    copies_of_a_fault(&rt, rt.alloc());
}

/// Expects the description of the tree, or that the tree comes back and a second try makes the
/// description.
fn expect_opaque(
    rt: &impl Abort,
    alloc: Global,
    tree: FormatDescriptionV3Inner<'static>,
    expected: &str,
) {
    match tree.into_opaque(alloc) {
        Ok(description) => expect_description(rt, alloc, &description, expected),
        Err(NotOpaque { tree, cause }) => {
            assert_eq!(rt; cause, OpaqueCause::Memory);
            expect_printed(rt, alloc, &tree, expected);
            let description = opaque(rt, alloc, tree);
            expect_description(rt, alloc, &description, expected);
        }
    }
}

/// `x[optional [y]][first [a] [b] [c]]`, its parts owned except for `y`, `b` and `c`.
fn optional_and_three(rt: &impl Abort, alloc: Global) -> FormatDescriptionV3Inner<'static> {
    let second = FormatDescriptionV3Inner::BorrowedLiteral("b");
    let third = FormatDescriptionV3Inner::BorrowedLiteral("c");
    let alternatives = three(rt, alloc, literal(rt, alloc, "a"), second, third);
    let first = FormatDescriptionV3Inner::OwnedFirst(alternatives);
    let skipped = FormatDescriptionV3Inner::BorrowedLiteral("y");
    let skipped = optional(rt, alloc, true, skipped);
    let members = three(rt, alloc, literal(rt, alloc, "x"), skipped, first);
    FormatDescriptionV3Inner::OwnedCompound(members)
}

#[test]
fn into_opaque(rt: HostRuntime) {
    expect_opaque(&rt, rt.alloc(), worked(&rt, rt.alloc()), WORKED);
    let borrowed = FormatDescriptionV3Inner::BorrowedOptional {
        format: false,
        item: lend(&rt, rt.alloc(), worked(&rt, rt.alloc())),
    };
    let expected =
        "Optional { should_format: false, item: Compound([Literal(\"x\"), Optional { should_format: true, item: Literal(\"y\") }, First([Literal(\"a\"), Day { padding: Zero }, Literal(\"c\")])]) }";
    expect_opaque(&rt, rt.alloc(), borrowed, expected);
    let expected =
        "Compound([Literal(\"x\"), Optional { should_format: true, item: Literal(\"y\") }, First([Literal(\"a\"), Literal(\"b\"), Literal(\"c\")])])";
    let tree = optional_and_three(&rt, rt.alloc());
    expect_opaque(&rt, rt.alloc(), tree, expected);
}
