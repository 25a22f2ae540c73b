//! Components that no text spells: how they print, their modern form, and the leaf that they become.

use super::printed::expect_printed;
use super::trees::{expect_description, opaque};
use std::alloc::Global;
use std::process::Abort;
use timefd_items::{Component, FormatDescriptionV3Inner};
use timefd_modifier::*;

/// The deprecated components, which become the leaf of their modern form.
const DEPRECATED: [(Component, &str, &str); 6] = [
    (
        Component::Month(Month {
            padding: Padding::Space,
            repr: MonthRepr::Numerical,
            case_sensitive: false,
        }),
        "Month(Month { padding: Space, repr: Numerical, case_sensitive: false })",
        "MonthNumerical { padding: Space }",
    ),
    (
        Component::Weekday(Weekday {
            repr: WeekdayRepr::Monday,
            one_indexed: false,
            case_sensitive: false,
        }),
        "Weekday(Weekday { repr: Monday, one_indexed: false, case_sensitive: false })",
        "WeekdayMonday { one_indexed: false }",
    ),
    (
        Component::WeekNumber(WeekNumber {
            padding: Padding::None,
            repr: WeekNumberRepr::Sunday,
        }),
        "WeekNumber(WeekNumber { padding: None, repr: Sunday })",
        "WeekNumberSunday { padding: None }",
    ),
    (
        Component::Hour(Hour {
            padding: Padding::Space,
            is_12_hour_clock: true,
        }),
        "Hour(Hour { padding: Space, is_12_hour_clock: true })",
        "Hour12 { padding: Space }",
    ),
    (
        Component::UnixTimestamp(UnixTimestamp {
            precision: UnixTimestampPrecision::Nanosecond,
            sign_is_mandatory: true,
        }),
        "UnixTimestamp(UnixTimestamp { precision: Nanosecond, sign_is_mandatory: true })",
        "UnixTimestampNanosecond { sign_is_mandatory: true }",
    ),
    (
        Component::Year(Year {
            padding: Padding::None,
            repr: YearRepr::Century,
            range: YearRange::Standard,
            iso_week_based: true,
            sign_is_mandatory: true,
        }),
        "Year(Year { padding: None, repr: Century, range: Standard, iso_week_based: true, \
         sign_is_mandatory: true })",
        "IsoYearCenturyStandardRange { padding: None, sign_is_mandatory: true }",
    ),
];

/// Expects how the component prints, and the leaf that it becomes, also in a description.
fn expect_component(
    rt: &impl Abort,
    alloc: Global,
    component: Component,
    printed: &str,
    leaf: &str,
) {
    expect_printed(rt, alloc, &component, printed);
    let tree = FormatDescriptionV3Inner::from(component);
    expect_printed(rt, alloc, &tree, leaf);
    let description = opaque(rt, alloc, tree);
    expect_description(rt, alloc, &description, leaf);
}

fn expect_components(
    rt: &impl Abort,
    alloc: Global,
    rows: &[(Component, &'static str, &'static str)],
) {
    for (component, printed, leaf) in rows {
        expect_component(rt, alloc, *component, printed, leaf);
    }
}

/// Components, and what each is in modern form.
const MODERN: [(Component, Component); 4] = [
    (
        Component::Weekday(Weekday {
            repr: WeekdayRepr::Sunday,
            one_indexed: false,
            case_sensitive: false,
        }),
        Component::WeekdaySunday(WeekdaySunday { one_indexed: false }),
    ),
    (
        Component::Year(Year {
            padding: Padding::Space,
            repr: YearRepr::LastTwo,
            range: YearRange::Standard,
            iso_week_based: true,
            sign_is_mandatory: true,
        }),
        Component::IsoYearLastTwo(IsoYearLastTwo {
            padding: Padding::Space,
        }),
    ),
    (
        Component::UnixTimestamp(UnixTimestamp {
            precision: UnixTimestampPrecision::Millisecond,
            sign_is_mandatory: true,
        }),
        Component::UnixTimestampMillisecond(UnixTimestampMillisecond {
            sign_is_mandatory: true,
        }),
    ),
    (
        Component::Day(Day {
            padding: Padding::Zero,
        }),
        Component::Day(Day {
            padding: Padding::Zero,
        }),
    ),
];

fn modern_components(rt: &impl Abort) {
    let rows = MODERN;
    for at in 0..rows.len() {
        let (component, modern) = rows[at];
        assert!(rt; component.modern() == modern, "{component:?}");
    }
}

#[test]
fn deprecated_components(rt: HostRuntime) {
    let rows = DEPRECATED;
    expect_components(&rt, rt.alloc(), &rows);
    modern_components(&rt);
}
