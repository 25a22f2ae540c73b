//! Descriptions put together part by part.

use super::printed::AMPLE;
use super::trees::expect_description;
use std::alloc::{AllocError, Global};
use std::process::Abort;
use timefd_items::{Component, DescriptionBuilder};
use timefd_modifier::Day;

/// A call of a builder.
#[derive(Clone, Copy)]
enum Step {
    Literal(&'static str),
    Day,
    Pack(usize),
    Optional(bool),
    First(usize),
}

fn call(
    rt: &impl Abort,
    builder: &mut DescriptionBuilder<'static>,
    step: Step,
) -> Result<(), AllocError> {
    match step {
        Step::Literal(text) => builder.literal(text),
        Step::Day => builder.component(Component::Day(Day::default())),
        Step::Pack(count) => {
            assert!(rt; count <= builder.len());
            assert!(rt; builder.fits(count));
            builder.pack(count)
        }
        Step::Optional(format) => {
            assert!(rt; 1 <= builder.len());
            builder.optional(format)
        }
        Step::First(count) => {
            assert!(rt; count <= builder.len());
            builder.first(count)
        }
    }
}

/// Calls, and calls once more if memory is refused. The refused call has changed nothing.
fn call_again(rt: &impl Abort, builder: &mut DescriptionBuilder<'static>, step: Step) {
    let len = builder.len();
    if call(rt, builder, step).is_err() {
        assert_eq!(rt; builder.len(), len);
        call(rt, builder, step).expect(rt, AMPLE);
    }
}

/// Makes these calls, one after another.
fn call_all(rt: &impl Abort, builder: &mut DescriptionBuilder<'static>, steps: &[Step]) {
    for at in 0..steps.len() {
        call_again(rt, builder, steps[at]);
    }
}

/// Expects how many bytes the finished description reserves, and what it prints.
fn expect_finished(
    rt: &impl Abort,
    alloc: Global,
    builder: DescriptionBuilder<'static>,
    bytes: usize,
    expected: &str,
) {
    assert!(rt; builder.fits(builder.len()));
    let description = builder.finish().expect(rt, AMPLE);
    assert_eq!(rt; description.max_bytes_needed(), bytes);
    expect_description(rt, alloc, &description, expected);
}

/// Expects that of the description that these calls put together.
fn expect_built(rt: &impl Abort, alloc: Global, steps: &[Step], bytes: usize, expected: &str) {
    let mut builder = DescriptionBuilder::new(alloc);
    call_all(rt, &mut builder, steps);
    expect_finished(rt, alloc, builder, bytes, expected);
}

const NONE: &[Step] = &[];

const IN_TURN: &[Step] = &[Step::Literal("ab"), Step::Day];

const ALTERNATIVES: &[Step] = &[
    Step::Literal("a"),
    Step::Pack(0),
    Step::First(2),
    Step::Optional(false),
];

/// Expects what some calls put together.
fn parts_put_together(rt: &impl Abort, alloc: Global) {
    let in_turn = "Compound([Literal(\"ab\"), Day { padding: Zero }])";
    let alternatives =
        "Optional { should_format: false, item: First([Literal(\"a\"), Compound([])]) }";
    expect_built(rt, alloc, NONE, 0, "Compound([])");
    expect_built(rt, alloc, IN_TURN, 4, in_turn);
    expect_built(rt, alloc, ALTERNATIVES, 0, alternatives);
}

const ALONE: &[Step] = &[Step::Day, Step::Pack(1), Step::Pack(1)];

const PACKED: &[Step] = &[
    Step::Literal("a"),
    Step::Day,
    Step::Literal("bcd"),
    Step::Pack(2),
    Step::Optional(true),
    Step::First(1),
];

fn packed_parts(rt: &impl Abort, alloc: Global) {
    let packed =
        "Compound([Literal(\"a\"), First([Optional { should_format: true, item: Compound([Day { padding: Zero }, Literal(\"bcd\")]) }])])";
    expect_built(rt, alloc, ALONE, 2, "Day { padding: Zero }");
    expect_built(rt, alloc, PACKED, 6, packed);
}

const FOUR: &[Step] = &[
    Step::Literal("a"),
    Step::Literal("b"),
    Step::Literal("c"),
    Step::Literal("d"),
];

/// Adds four literals, and then makes this call.
fn call_fifth(rt: &impl Abort, builder: &mut DescriptionBuilder<'static>, step: Step) {
    call_all(rt, builder, FOUR);
    call_again(rt, builder, step);
}

const FIVE_LITERALS: &str =
    "Compound([Literal(\"a\"), Literal(\"b\"), Literal(\"c\"), Literal(\"d\"), Literal(\"e\")])";

const DAY_AFTER: &str =
    "Compound([Literal(\"a\"), Literal(\"b\"), Literal(\"c\"), Literal(\"d\"), Day { padding: Zero }])";

const TWO_PACKED: &str =
    "Compound([Literal(\"a\"), Literal(\"b\"), Compound([Literal(\"c\"), Literal(\"d\")])])";

const LAST_OPTIONAL: &str =
    "Compound([Literal(\"a\"), Literal(\"b\"), Literal(\"c\"), Optional { should_format: false, item: Literal(\"d\") }])";

const FIRST_OF_THREE: &str =
    "Compound([Literal(\"a\"), First([Literal(\"b\"), Literal(\"c\"), Literal(\"d\")])])";

/// The first allocation has room for four parts, so each fifth call asks for more. What `rt try
/// --test --fail-alloc N` refuses, with N up to 10, is called once more.
#[test]
fn a_refused_call_changes_nothing(rt: HostRuntime) {
    let alloc = rt.alloc();
    let mut literal = DescriptionBuilder::new(alloc);
    call_fifth(&rt, &mut literal, Step::Literal("e"));
    let mut day = DescriptionBuilder::new(alloc);
    call_fifth(&rt, &mut day, Step::Day);
    let mut packed = DescriptionBuilder::new(alloc);
    call_fifth(&rt, &mut packed, Step::Pack(2));
    let mut optional = DescriptionBuilder::new(alloc);
    call_fifth(&rt, &mut optional, Step::Optional(false));
    let mut first = DescriptionBuilder::new(alloc);
    call_fifth(&rt, &mut first, Step::First(3));
    expect_finished(&rt, alloc, literal, 5, FIVE_LITERALS);
    expect_finished(&rt, alloc, day, 6, DAY_AFTER);
    expect_finished(&rt, alloc, packed, 4, TWO_PACKED);
    expect_finished(&rt, alloc, optional, 3, LAST_OPTIONAL);
    expect_finished(&rt, alloc, first, 2, FIRST_OF_THREE);
}

/// Reserved room is there, and each part takes one part of it.
fn room_for_parts(rt: &impl Abort, alloc: Global) {
    let mut builder = DescriptionBuilder::new(alloc);
    builder.reserve(3).expect(rt, AMPLE);
    assert!(rt; builder.room() >= 3);
    call_all(rt, &mut builder, IN_TURN);
    assert!(rt; builder.room() >= 1);
}

#[test]
fn parts(rt: HostRuntime) {
    parts_put_together(&rt, rt.alloc());
    packed_parts(&rt, rt.alloc());
    room_for_parts(&rt, rt.alloc());
}
