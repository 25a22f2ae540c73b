//! Copies of faults, and their equality.

use super::printed::AMPLE;
use std::alloc::Global;
use std::process::Abort;
use timefd_items::InvalidFormatDescription;
use timefd_parse::{
    DescriptionVersion, ParseError, StrftimeTables, parse_borrowed, parse_strftime_borrowed,
};

/// Texts of version 3, each with a different fault.
const REFUSED: &[&str] = &[
    "due [day",
    "[foo]",
    "[day padding:zero:x]",
    "[]",
    "[ignore]",
    "\u{e9}\\\u{e9}",
    "[foo [x]]",
    "[optional [a][b]]",
    "[hour repr:12 repr:24]",
    "[month repr:long padding:none]",
    "[year sign:mandatory repr:last_two range:standard]",
];

fn fault_of(rt: &impl Abort, error: Option<ParseError>) -> InvalidFormatDescription {
    match error {
        Some(ParseError::Invalid(fault)) => fault,
        Some(ParseError::Memory(_)) => rt.panic(AMPLE),
        None => rt.panic("the text is refused"),
    }
}

/// The fault of each of these texts, and of a text of strftime.
fn faults(rt: &impl Abort, alloc: Global) -> Vec<InvalidFormatDescription> {
    let mut faults = Vec::new(alloc);
    for text in REFUSED {
        let fault = parse_borrowed(alloc, DescriptionVersion::Three, text).err();
        faults.push(fault_of(rt, fault)).expect(rt, AMPLE);
    }
    let tables = StrftimeTables::new();
    let fault = parse_strftime_borrowed(alloc, &tables, "%O").err();
    faults.push(fault_of(rt, fault)).expect(rt, AMPLE);
    faults
}

/// Expects that a copy equals the fault at this index and no other.
fn expect_equal_at(
    rt: &impl Abort,
    faults: &[InvalidFormatDescription],
    at: usize,
    copy: &InvalidFormatDescription,
) {
    for other in 0..faults.len() {
        assert_eq!(rt; *copy == faults[other], at == other, "{at} and {other}");
    }
}

#[test]
fn copies_equal_their_source_and_no_other(rt: HostRuntime) {
    let faults = faults(&rt, rt.alloc());
    for at in 0..faults.len() {
        let copy = faults[at].clone(rt.alloc()).expect(&rt, AMPLE);
        expect_equal_at(&rt, &faults, at, &copy);
    }
}
