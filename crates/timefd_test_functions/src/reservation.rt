//! How many bytes trees reserve that no text spells.

use super::printed::{AMPLE, expect_printed};
use super::trees::{lend, lend_two, two_literals};
use std::alloc::Global;
use std::process::Abort;
use timefd_items::{Component, FormatDescriptionV3Inner};
use timefd_modifier as modifier;

fn expect_within(
    rt: &impl Abort,
    tree: &FormatDescriptionV3Inner,
    limit: usize,
    bytes: Option<usize>,
) {
    let within = tree.bytes_within(limit);
    assert!(rt; within == bytes, "of {tree:?} within {limit}");
}

/// A list of no alternatives, which no text spells.
fn no_alternative(rt: &impl Abort, alloc: Global) {
    let none = FormatDescriptionV3Inner::OwnedFirst(Vec::new(alloc));
    expect_within(rt, &none, usize::MAX, Some(0));
    expect_within(rt, &none, 0, Some(0));
}

fn two_borrowed_literals(rt: &impl Abort, alloc: Global) {
    let tree = two_literals(rt, alloc);
    expect_within(rt, &tree, 11, None);
    expect_within(rt, &tree, 12, Some(12));
}

fn a_part_not_formatted_reserves_nothing(rt: &impl Abort, alloc: Global) {
    let literal = FormatDescriptionV3Inner::BorrowedLiteral("abcd");
    let tree = FormatDescriptionV3Inner::BorrowedOptional {
        format: false,
        item: lend(rt, alloc, literal),
    };
    expect_within(rt, &tree, 0, Some(0));
}

/// A compound of one literal of six bytes, then this many times a compound of two of the last one.
/// Its blocks are never freed.
fn doubled(rt: &impl Abort, alloc: Global, times: u8) -> FormatDescriptionV3Inner<'static> {
    let literal = FormatDescriptionV3Inner::BorrowedLiteral("abcdef");
    let literals = vec![in alloc; literal].expect(rt, AMPLE);
    let mut items: &'static [FormatDescriptionV3Inner<'static>] = literals.leak();
    for _ in 0..times {
        let first = FormatDescriptionV3Inner::BorrowedCompound(items);
        let second = FormatDescriptionV3Inner::BorrowedCompound(items);
        items = lend_two(rt, alloc, first, second);
    }
    FormatDescriptionV3Inner::BorrowedCompound(items)
}

/// How often a literal is doubled, a limit, and the bytes within it.
const WITHIN_A_LIMIT: &[(u8, usize, Option<usize>)] = &[
    (1, 11, None),
    (1, 12, Some(12)),
    (20, 6291455, None),
    (20, 6291456, Some(6291456)),
    // Far more than the limit, which bounds how much of the tree is read.
    (60, 1000, None),
];

fn borrowed_parts_count_each_time_they_stand(rt: &impl Abort, alloc: Global) {
    for (times, limit, bytes) in WITHIN_A_LIMIT {
        let tree = doubled(rt, alloc, *times);
        let within = tree.bytes_within(*limit);
        assert!(rt; within == *bytes, "doubled {times} times");
    }
}

fn leaf_of_a_deprecated_component(rt: &impl Abort, alloc: Global) {
    let timestamp = modifier::UnixTimestamp {
        precision: modifier::UnixTimestampPrecision::Millisecond,
        sign_is_mandatory: true,
    };
    let tree = FormatDescriptionV3Inner::from(Component::UnixTimestamp(timestamp));
    let expected = "UnixTimestampMillisecond { sign_is_mandatory: true }";
    expect_printed(rt, alloc, &tree, expected);
    expect_within(rt, &tree, usize::MAX, Some(18));
}

#[test]
fn bytes_within_a_limit(rt: HostRuntime) {
    let alloc = rt.alloc();
    no_alternative(&rt, alloc);
    two_borrowed_literals(&rt, alloc);
    a_part_not_formatted_reserves_nothing(&rt, alloc);
    borrowed_parts_count_each_time_they_stand(&rt, alloc);
    leaf_of_a_deprecated_component(&rt, alloc);
}
