//! Trees that no text spells, and the reason why.

use super::printed::AMPLE;
use super::trees::{opaque, two};
use std::alloc::Global;
use std::process::Abort;
use timefd_items::FormatDescriptionV3Inner;
use timefd_lang_convert::printing::{PrintError, Unspelled, print_v3};

fn literal<'a>(text: &'a str) -> FormatDescriptionV3Inner<'a> {
    FormatDescriptionV3Inner::BorrowedLiteral(text)
}

/// Two trees in order, as a compound.
fn both<'a>(
    rt: &impl Abort,
    alloc: Global,
    first: FormatDescriptionV3Inner<'a>,
    second: FormatDescriptionV3Inner<'a>,
) -> FormatDescriptionV3Inner<'a> {
    FormatDescriptionV3Inner::OwnedCompound(two(rt, alloc, first, second))
}

/// A literal inside this many optional descriptions.
fn nested(rt: &impl Abort, alloc: Global, depth: usize) -> FormatDescriptionV3Inner<'static> {
    let mut tree = literal("x");
    for _ in 0..depth {
        tree = FormatDescriptionV3Inner::OwnedOptional {
            format: true,
            item: Box::new(alloc, tree).expect(rt, AMPLE),
        };
    }
    tree
}

/// Expects this reason why no text spells the tree.
fn expect_reason(
    rt: &impl Abort,
    alloc: Global,
    tree: FormatDescriptionV3Inner<'_>,
    expected: Unspelled,
) {
    match print_v3(alloc, opaque(rt, alloc, tree).view()) {
        Err(PrintError::Unspelled(reason)) => assert!(rt; reason == expected),
        Ok(_) | Err(PrintError::Memory(_)) => rt.panic("no text spells the tree"),
    }
}

#[test]
fn reasons(rt: HostRuntime) {
    let alloc = rt.alloc();
    expect_reason(&rt, alloc, literal(""), Unspelled::EmptyLiteral);
    expect_reason(&rt, alloc, literal("a[b"), Unspelled::MixedLiteral);
    expect_reason(&rt, alloc, literal("]]"), Unspelled::MixedLiteral);
    let runs = both(&rt, alloc, literal("a"), literal("b"));
    expect_reason(&rt, alloc, runs, Unspelled::NeighbouringLiterals);
    let inner = both(&rt, alloc, literal("["), literal("]"));
    let outer = both(&rt, alloc, literal("x"), inner);
    expect_reason(&rt, alloc, outer, Unspelled::InnerCompound);
    let none = FormatDescriptionV3Inner::OwnedFirst(Vec::new(alloc));
    expect_reason(&rt, alloc, none, Unspelled::NoAlternative);
    let alone = vec![in alloc; literal("x")].expect(&rt, AMPLE);
    let lone = FormatDescriptionV3Inner::OwnedCompound(alone);
    expect_reason(&rt, alloc, lone, Unspelled::LoneMember);
    expect_reason(&rt, alloc, nested(&rt, alloc, 128), Unspelled::TooDeep);
}
