//! Long texts, texts that nest as deep as they may or deeper, and descriptions with many parts.

use super::answers::expect;
use super::printed::AMPLE;
use super::trees::opaque;
use std::alloc::Global;
use std::process::Abort;
use timefd_items::{FormatDescriptionV3Inner, Shape};
use timefd_modifier::{Day, Padding};
use timefd_parse::{BorrowedOutput, DescriptionVersion, parse_borrowed};

const TOO_DEEP: &str = "highly-nested format description is not supported at byte index 1407";

/// Adds this part to the text, this many times.
fn add(rt: &impl Abort, text: &mut String, times: usize, part: &str) {
    for _ in 0..times {
        text.push_str(part).expect(rt, AMPLE);
    }
}

/// The opening this many times, the middle part, and the closing as many times.
fn around(
    rt: &impl Abort,
    alloc: Global,
    times: usize,
    opening: &str,
    middle: &str,
    closing: &str,
) -> String {
    let mut text = String::new(alloc);
    add(rt, &mut text, times, opening);
    add(rt, &mut text, 1, middle);
    add(rt, &mut text, times, closing);
    text
}

fn times(rt: &impl Abort, alloc: Global, times: usize, part: &str) -> String {
    around(rt, alloc, times, part, "", "")
}

/// Expects what the text is read as in versions 1 and 2, and in version 3.
fn expect_both(rt: &impl Abort, alloc: Global, text: &str, items: &str, tree: &str) {
    expect(rt, alloc, DescriptionVersion::One, text, items);
    expect(rt, alloc, DescriptionVersion::Two, text, items);
    expect(rt, alloc, DescriptionVersion::Three, text, tree);
}

fn opening_brackets(rt: &impl Abort, alloc: Global) {
    let missing = "missing component name at byte index 0";
    let even = times(rt, alloc, 100_000, "[");
    let literals = around(rt, alloc, 49_999, "\"[\", ", "\"[\"", "");
    let text = even.as_str();
    expect(rt, alloc, DescriptionVersion::One, text, literals.as_str());
    expect(rt, alloc, DescriptionVersion::Two, text, missing);
    expect(rt, alloc, DescriptionVersion::Three, text, missing);
    let odd = times(rt, alloc, 100_001, "[");
    let after = "missing component name at byte index 100000";
    let text = odd.as_str();
    expect(rt, alloc, DescriptionVersion::One, text, after);
    expect(rt, alloc, DescriptionVersion::Two, text, missing);
    expect(rt, alloc, DescriptionVersion::Three, text, missing);
}

fn closing_brackets(rt: &impl Abort, alloc: Global) {
    let text = times(rt, alloc, 100_000, "]");
    let literals = around(rt, alloc, 99_999, "\"]\", ", "\"]\"", "");
    let unescaped = "expected right bracket to be escaped at byte index 0";
    expect_both(rt, alloc, text.as_str(), literals.as_str(), unescaped);
}

fn alternatives(rt: &impl Abort, alloc: Global) {
    let brackets = times(rt, alloc, 50_000, "[]");
    let text = format!(in alloc; "[first {brackets}]").expect(rt, AMPLE);
    let refused =
        "'first' item is not supported in runtime-parsed format descriptions at byte index 0";
    let compounds = around(rt, alloc, 49_999, "Compound([]), ", "Compound([])", "");
    let tree = format!(in alloc; "0 bytes: First([{compounds}])").expect(rt, AMPLE);
    expect_both(rt, alloc, text.as_str(), refused, tree.as_str());
}

fn openings_alone(rt: &impl Abort, alloc: Global) {
    let deepest = times(rt, alloc, 127, "[optional [");
    let unclosed = "unclosed opening bracket at byte index 0";
    expect_both(rt, alloc, deepest.as_str(), unclosed, unclosed);
    let deeper = times(rt, alloc, 100_000, "[optional [");
    expect_both(rt, alloc, deeper.as_str(), TOO_DEEP, TOO_DEEP);
}

/// Expects what this many nested descriptions are read as, if they aren't too many. The innermost
/// bracket, which closes first, is at this byte index.
fn expect_nested(rt: &impl Abort, alloc: Global, depth: usize, innermost: usize) {
    let text = around(rt, alloc, depth, "[optional [", "x", "]]");
    let refused = format!(in alloc;
        "optional item is not supported in runtime-parsed format descriptions at byte index {innermost}"
    ).expect(rt, AMPLE);
    let opening = "Optional { should_format: true, item: ";
    let tree = around(rt, alloc, depth, opening, "Literal(\"x\")", " }");
    let accepted = format!(in alloc; "1 bytes: {tree}").expect(rt, AMPLE);
    expect_both(
        rt,
        alloc,
        text.as_str(),
        refused.as_str(),
        accepted.as_str(),
    );
}

/// Expects that this many nested descriptions are too many.
fn expect_too_deep(rt: &impl Abort, alloc: Global, depth: usize) {
    let text = around(rt, alloc, depth, "[optional [", "x", "]]");
    expect_both(rt, alloc, text.as_str(), TOO_DEEP, TOO_DEEP);
}

fn nested_descriptions(rt: &impl Abort, alloc: Global) {
    expect_nested(rt, alloc, 126, 1375);
    expect_nested(rt, alloc, 127, 1386);
    expect_too_deep(rt, alloc, 128);
    expect_too_deep(rt, alloc, 129);
}

#[test]
fn long_and_deep_texts(rt: HostRuntime) {
    let alloc = rt.alloc();
    opening_brackets(&rt, alloc);
    closing_brackets(&rt, alloc);
    alternatives(&rt, alloc);
    openings_alone(&rt, alloc);
    nested_descriptions(&rt, alloc);
}

/// Looks at each of 50 000 alternatives without a copy, one by one and on a walk.
fn many_alternatives(rt: &impl Abort, alloc: Global) {
    let alternatives = times(rt, alloc, 50_000, "[]");
    let text = format!(in alloc; "[first {alternatives}]").expect(rt, AMPLE);
    let Ok(BorrowedOutput::Description(description)) = parse_borrowed(
        alloc,
        DescriptionVersion::Three,
        text.as_str(),
    ) else {
        rt.panic("the text is a description")
    };
    let Shape::First(members) = description.view().shape() else {
        rt.panic("the description has alternatives")
    };
    assert_eq!(rt; members.in_turn().count(), 50_000);
    let mut parts: usize = 0;
    for _ in description.view().walk() {
        parts = parts.saturating_add(1);
    }
    assert_eq!(rt; parts, 50_001);
}

const MANY: usize = 70_000;

/// A compound of many times `[day]`, owned.
fn many_days(rt: &impl Abort, alloc: Global) -> FormatDescriptionV3Inner<'static> {
    let mut days = Vec::with_capacity(alloc, MANY).expect(rt, AMPLE);
    'days: for _ in 0..MANY {
        let day = Day {
            padding: Padding::Zero,
        };
        days.push(FormatDescriptionV3Inner::Day(day))
            .expect(rt, AMPLE);
    }
    FormatDescriptionV3Inner::OwnedCompound(days)
}

/// With ample memory, no copy of many parts fails because memory ran out.
fn copies_of_many_parts(rt: &impl Abort, alloc: Global) {
    let tree = many_days(rt, alloc);
    let copy = tree.clone(alloc).expect(rt, AMPLE);
    let description = opaque(rt, alloc, copy);
    assert_eq!(rt; description.max_bytes_needed(), 140_000);
    assert_eq!(rt; description.view().part_count(), 70_001);
    let copy = description.clone(alloc).expect(rt, AMPLE);
    assert_eq!(rt; copy.view().part_count(), 70_001);
    let owned = copy.to_owned(alloc).expect(rt, AMPLE);
    assert_eq!(rt; owned.view().part_count(), 70_001);
    let tree = owned.to_inner(alloc).expect(rt, AMPLE);
    assert_eq!(rt; opaque(rt, alloc, tree).max_bytes_needed(), 140_000);
}

#[test]
fn many_parts(rt: HostRuntime) {
    many_alternatives(&rt, rt.alloc());
    copies_of_many_parts(&rt, rt.alloc());
}
