//! Texts read and rewritten twice, where one allocation may be refused. `gate/memory` runs these tests once
//! for each allocation, and refuses that one. The call that asked for it says that memory ran out or answers
//! as it does with ample memory, and the other call answers as ever.

use super::answers::{REFUSED, answer, answer_of_parse, print_error, print_items};
use super::printed::AMPLE;
use std::alloc::Global;
use std::process::Abort;
use timefd_lift::{v1_to_v2, v2_to_v3};
use timefd_parse::{DescriptionVersion, ParseError, StrftimeTables, parse_strftime_borrowed};

/// What reads or rewrites a text.
#[derive(Clone, Copy, Debug)]
enum Call {
    Version(DescriptionVersion),
    Parse,
    Strftime,
    OneToTwo,
    TwoToThree,
}

/// What the text is read as or rewritten to, in print, or that memory ran out.
fn answer_of(rt: &impl Abort, alloc: Global, call: Call, text: &str) -> String {
    match call {
        Call::Version(version) => answer(rt, alloc, version, text),
        Call::Parse => answer_of_parse(rt, alloc, text),
        Call::Strftime => strftime_answer(rt, alloc, text),
        Call::OneToTwo => text_or_fault(rt, alloc, v1_to_v2(alloc, text)),
        Call::TwoToThree => match v2_to_v3(alloc, text) {
            Ok(text) => text,
            Err(error) => print_error(rt, alloc, error.into_owned(alloc)),
        },
    }
}

fn strftime_answer(rt: &impl Abort, alloc: Global, text: &str) -> String {
    let tables = StrftimeTables::new();
    match parse_strftime_borrowed(alloc, &tables, text) {
        Ok(items) => print_items(rt, alloc, &items),
        Err(error) => print_error(rt, alloc, error),
    }
}

fn text_or_fault(rt: &impl Abort, alloc: Global, text: Result<String, ParseError>) -> String {
    match text {
        Ok(text) => text,
        Err(error) => print_error(rt, alloc, error),
    }
}

/// Expects that one of two calls gives this answer, and that the other gives it too or is refused memory.
fn expect_twice(rt: &impl Abort, alloc: Global, call: Call, text: &str, expected: &str) {
    let first = answer_of(rt, alloc, call, text);
    let second = answer_of(rt, alloc, call, text);
    if first.as_str() == REFUSED {
        assert_eq!(rt;
            second.as_str(),
            expected,
            "{text} by {call:?} after a refusal"
        );
        return;
    }
    assert_eq!(rt; first.as_str(), expected, "{text} by {call:?}");
    if second.as_str() == REFUSED {
        return;
    }
    assert_eq!(rt;
        second.as_str(),
        expected,
        "{text} by {call:?} a second time"
    );
}

fn expect_rows(rt: &impl Abort, alloc: Global, call: Call, rows: &[(&'static str, &'static str)]) {
    for (text, expected) in rows {
        expect_twice(rt, alloc, call, text, expected);
    }
}

const IN_EVERY_VERSION: &[(&str, &str)] = &[
    (
        "[day[x]]",
        "expected whitespace before nested format description at byte index 4",
    ),
    (
        "[foo [x]]",
        "nested format descriptions is not supported in on this component at byte index 0",
    ),
    (
        "[optional [a][b]]",
        "more than one nested format description is not supported in `optional` components at byte index 10",
    ),
    ("[first [a]b]", "unclosed opening bracket at byte index 0"),
    (
        "[optional [a] format:false]",
        "unclosed opening bracket at byte index 0",
    ),
    (
        "[day [[foo]]]",
        "invalid component name `foo` at byte index 7",
    ),
    ("[a[", "unclosed opening bracket at byte index 0"),
    ("[foo]", "invalid component name `foo` at byte index 1"),
];

const IN_THE_THIRD: &[(&str, &str)] = &[
    ("", "0 bytes: Compound([])"),
    (
        "[year]-[month]-[day]",
        "11 bytes: Compound([CalendarYearFullStandardRange { padding: Zero, sign_is_mandatory: false }, Literal(\"-\"), MonthNumerical { padding: Zero }, Literal(\"-\"), Day { padding: Zero }])",
    ),
    (
        "[first [a][b]]",
        "1 bytes: First([Literal(\"a\"), Literal(\"b\")])",
    ),
    (
        "[optional [[day\\]]]",
        "unclosed opening bracket at byte index 0",
    ),
];

const OF_PARSE: &[(&str, &str)] = &[("[[day]]", "\"[\", \"day\", \"]\", \"]\"")];

const OF_STRFTIME: &[(&str, &str)] = &[
    ("%", "expected valid escape sequence at byte index 0"),
    ("%_", "expected valid escape sequence at byte index 2"),
    ("%O", "modifier is not supported at byte index 1"),
    ("%_Z", "component is not supported at byte index 2"),
    ("%E", "invalid component name `E` at byte index 1"),
    ("%-d", "Day(Day { padding: None })"),
    ("%_%", "\"%\""),
    (
        "%Y-%m-%d",
        "CalendarYearFullExtendedRange(CalendarYearFullExtendedRange { padding: Zero, sign_is_mandatory: false }), \"-\", MonthNumerical(MonthNumerical { padding: Zero }), \"-\", Day(Day { padding: Zero })",
    ),
];

/// Texts of version 1, and what they are rewritten to or the sentence of their fault.
const OF_ONE: &[(&str, &str)] = &[
    ("", ""),
    ("[[day]]", "\\[day\\]\\]"),
    ("[[[day]]\\", "\\[[day]\\]\\\\"),
    ("\u{e9}\\\u{e9}", "\u{e9}\\\\\u{e9}"),
    ("[YEAR Repr:Century]", "[YEAR Repr:Century]"),
    (
        "[optional [x]]",
        "optional item is not supported in runtime-parsed format descriptions at byte index 0",
    ),
    ("a[foo]", "invalid component name `foo` at byte index 2"),
];

/// Texts of version 2, and what they are rewritten to or the sentence of their fault.
const OF_TWO: &[(&str, &str)] = &[
    ("", ""),
    ("[YEAR]", "[year range:extended]"),
    ("a]b", "a\\]b"),
    ("[ignore count:65535]", "[ignore count:65535]"),
    ("a[foo]", "invalid component name `foo` at byte index 2"),
];

const ONE: Call = Call::Version(DescriptionVersion::One);

const TWO: Call = Call::Version(DescriptionVersion::Two);

const THREE: Call = Call::Version(DescriptionVersion::Three);

#[test]
fn texts(rt: HostRuntime) {
    let alloc = rt.alloc();
    expect_rows(&rt, alloc, ONE, IN_EVERY_VERSION);
    expect_rows(&rt, alloc, TWO, IN_EVERY_VERSION);
    expect_rows(&rt, alloc, THREE, IN_EVERY_VERSION);
    expect_rows(&rt, alloc, Call::Parse, IN_EVERY_VERSION);
    expect_rows(&rt, alloc, THREE, IN_THE_THIRD);
    expect_rows(&rt, alloc, Call::Parse, OF_PARSE);
    expect_rows(&rt, alloc, Call::Strftime, OF_STRFTIME);
    expect_rows(&rt, alloc, Call::OneToTwo, OF_ONE);
    expect_rows(&rt, alloc, Call::TwoToThree, OF_TWO);
}

/// The opening 127 times, the middle part, and the closing 127 times.
fn around(rt: &impl Abort, alloc: Global, opening: &str, middle: &str, closing: &str) -> String {
    let mut text = String::new(alloc);
    for _ in 0..127 {
        text.push_str(opening).expect(rt, AMPLE);
    }
    text.push_str(middle).expect(rt, AMPLE);
    for _ in 0..127 {
        text.push_str(closing).expect(rt, AMPLE);
    }
    text
}

#[test]
fn deepest_texts(rt: HostRuntime) {
    let alloc = rt.alloc();
    let text = around(&rt, alloc, "[optional [", "x", "]]");
    let opening = "Optional { should_format: true, item: ";
    let tree = around(&rt, alloc, opening, "Literal(\"x\")", " }");
    let accepted = format!(in alloc; "1 bytes: {tree}").expect(&rt, AMPLE);
    let refused =
        "optional item is not supported in runtime-parsed format descriptions at byte index 1386";
    expect_twice(&rt, alloc, THREE, &text, &accepted);
    expect_twice(&rt, alloc, ONE, &text, refused);
    expect_twice(&rt, alloc, TWO, &text, refused);
    expect_twice(&rt, alloc, Call::Parse, &text, refused);
}
