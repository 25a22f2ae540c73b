//! How items and components print, which are equal, and what they become.

use super::borrowed::{lend, lend_one};
use super::printed::{AMPLE, expect_printed};
use std::alloc::Global;
use std::process::Abort;
use timefd_items::{BorrowedFormatItem, Component, DifferentVariant, FormatItem};
use timefd_modifier as modifier;

const DAY: FormatItem<'static> = BorrowedFormatItem::Component(Component::Day(modifier::Day {
    padding: modifier::Padding::Zero,
}));

const MONTH: FormatItem<'static> = BorrowedFormatItem::Component(Component::Month(
    modifier::Month {
        padding: modifier::Padding::Zero,
        repr: modifier::MonthRepr::Numerical,
        case_sensitive: true,
    },
));

const MODERN_MONTH: FormatItem<'static> = BorrowedFormatItem::Component(Component::MonthNumerical(
    modifier::MonthNumerical {
        padding: modifier::Padding::Zero,
    },
));

/// Expects what the item prints.
fn expect_item(rt: &impl Abort, alloc: Global, item: BorrowedFormatItem, expected: &str) {
    expect_printed(rt, alloc, &item, expected);
}

/// Expects what the item prints as an optional item.
fn expect_optional<'a>(
    rt: &impl Abort,
    alloc: Global,
    item: &'a BorrowedFormatItem<'a>,
    expected: &str,
) {
    let optional = BorrowedFormatItem::Optional(item);
    expect_printed(rt, alloc, &optional, expected);
}

fn printed_literals(rt: &impl Abort, alloc: Global) {
    expect_item(rt, alloc, BorrowedFormatItem::StringLiteral("ab"), "ab");
    expect_item(rt, alloc, BorrowedFormatItem::Literal(b"ab"), "ab");
    expect_item(
        rt,
        alloc,
        BorrowedFormatItem::Literal(b"\xc3\xa9"),
        "\u{e9}",
    );
    expect_item(rt, alloc, BorrowedFormatItem::Literal(b"\xff"), "\u{fffd}");
    expect_item(
        rt,
        alloc,
        BorrowedFormatItem::Literal(b"a\xc3\xa9\xffb"),
        "a\u{fffd}\u{fffd}\u{fffd}b",
    );
}

fn printed_lists(rt: &impl Abort, alloc: Global) {
    let members = vec![in alloc;
        BorrowedFormatItem::StringLiteral("a-\u{e9}"),
        DAY,
        BorrowedFormatItem::Literal(b"b\"c"),
    ];
    let members = lend(members.expect(rt, AMPLE));
    let compound = BorrowedFormatItem::Compound(members);
    let printed = "[a-\u{e9}, Day(Day { padding: Zero }), b\"c]";
    expect_item(rt, alloc, compound, printed);
    let optional = BorrowedFormatItem::Optional(lend_one(rt, alloc, compound));
    let printed = "Optional([a-\u{e9}, Day(Day { padding: Zero }), b\"c])";
    expect_item(rt, alloc, optional, printed);
    let printed = "First([a-\u{e9}, Day(Day { padding: Zero }), b\"c])";
    expect_item(rt, alloc, BorrowedFormatItem::First(members), printed);
}

fn printed_components(rt: &impl Abort, alloc: Global) {
    let day = DAY;
    expect_item(rt, alloc, day, "Day(Day { padding: Zero })");
    expect_optional(rt, alloc, &day, "Optional(Day(Day { padding: Zero }))");
}

fn printed_empty_lists(rt: &impl Abort, alloc: Global) {
    expect_item(rt, alloc, BorrowedFormatItem::Compound(&[]), "[]");
    expect_item(rt, alloc, BorrowedFormatItem::First(&[]), "First([])");
}

#[test]
fn printed_items(rt: HostRuntime) {
    let alloc = rt.alloc();
    printed_literals(&rt, alloc);
    printed_lists(&rt, alloc);
    printed_components(&rt, alloc);
    printed_empty_lists(&rt, alloc);
}

fn expect_answer(
    rt: &impl Abort,
    left: &BorrowedFormatItem,
    right: &BorrowedFormatItem,
    equal: bool,
) {
    assert_eq!(rt; *left == *right, equal, "{left:?} and {right:?}");
}

/// Expects that the items are equal, or that they are not, in both orders.
fn expect_equal(rt: &impl Abort, left: BorrowedFormatItem, right: BorrowedFormatItem, equal: bool) {
    expect_answer(rt, &left, &right, equal);
    expect_answer(rt, &right, &left, equal);
}

fn equal_literals_and_components(rt: &impl Abort) {
    let bytes = BorrowedFormatItem::Literal(b"ab");
    let month = MONTH;
    let optional = BorrowedFormatItem::Optional(&month);
    expect_equal(rt, bytes, BorrowedFormatItem::StringLiteral("ab"), true);
    expect_equal(rt, bytes, BorrowedFormatItem::StringLiteral("aB"), false);
    expect_equal(rt, optional, optional, true);
    expect_equal(rt, optional, month, false);
    expect_equal(rt, month, MODERN_MONTH, false);
}

fn equal_lists(rt: &impl Abort, alloc: Global) {
    let bytes = lend(vec![in alloc; BorrowedFormatItem::Literal(b"a")].expect(rt, AMPLE));
    let text = lend(vec![in alloc; BorrowedFormatItem::StringLiteral("a")].expect(rt, AMPLE));
    let more = vec![in alloc; BorrowedFormatItem::StringLiteral("a"), MONTH];
    let more = BorrowedFormatItem::Compound(lend(more.expect(rt, AMPLE)));
    let none = BorrowedFormatItem::Compound(&[]);
    let compound = BorrowedFormatItem::Compound(text);
    expect_equal(rt, none, BorrowedFormatItem::First(&[]), false);
    expect_equal(rt, BorrowedFormatItem::Compound(bytes), compound, true);
    expect_equal(rt, compound, more, false);
    expect_equal(rt, compound, BorrowedFormatItem::StringLiteral("a"), false);
    let first = BorrowedFormatItem::First(text);
    expect_equal(rt, BorrowedFormatItem::First(bytes), first, true);
}

fn conversions_of_a_component(rt: &impl Abort) {
    let month = Component::Month(modifier::Month::default());
    let modern = Component::MonthNumerical(modifier::MonthNumerical::default());
    let item = BorrowedFormatItem::from(month);
    assert!(rt; item.eq_component(&month));
    assert!(rt; !item.eq_component(&modern), "equality doesn't modernise");
    assert!(rt; Component::try_from(item) == Ok(month));
    assert!(rt; Component::try_from(BorrowedFormatItem::Optional(&item)) == Err(DifferentVariant));
    assert!(rt; item.into_items() == Err(DifferentVariant));
}

fn conversions_of_a_list(rt: &impl Abort) {
    let items = [BorrowedFormatItem::Literal(b"a"), MONTH];
    let same = [BorrowedFormatItem::StringLiteral("a"), MONTH];
    let compound = BorrowedFormatItem::from(items.as_slice());
    assert!(rt; compound.eq_items(&same));
    assert!(rt; !compound.eq_items(&[]));
    assert!(rt; !BorrowedFormatItem::First(&items).eq_items(&items));
    match compound.into_items() {
        Ok(members) => assert_eq!(rt; members.len(), 2),
        Err(DifferentVariant) => assert!(rt; false),
    }
}

#[test]
fn equal_and_converted_items(rt: HostRuntime) {
    equal_literals_and_components(&rt);
    equal_lists(&rt, rt.alloc());
    conversions_of_a_component(&rt);
    conversions_of_a_list(&rt);
}
