//! Examples of doc comments, and what is seen in each.

ghost use Rattle.std.specs.Prelude.{IfOk};
ghost use Rattle.timefd_lint_scan.specs.DocLooks.{AreSeenExamples, AreSeenIn, IsLookOfCode};

use crate::doc_tests::{DocTest, doc_tests_of};
use crate::gathered::comments_of;
use crate::look::{Look, blank, look_of};
use crate::own_call::OwnCall;
use std::alloc::{AllocError, Global};
use std::str;

/// An example, and what is seen in it, at positions of its code.
#[derive(Drop)]
pub struct SeenExample {
    pub test: DocTest,
    pub look: Look,
}

/// Looks into the code of an example. It is UTF-8 as its source is; the test makes sure. An `Err` says that memory ran out, or that the
/// code has 4 GiB or more.
#[tactic(auto, using(crate::proofs::ExampleLemmas::as_source, crate::proofs::ExampleLemmas::no_source))]
fn look_of_code(alloc: Global, code: &[u8], own: &[OwnCall]) -> Result<Look, AllocError>
    ensures { IfOk result (IsLookOfCode code.now own.now) }
{
    match str::from_utf8(code) {
        Ok(code) => look_of(alloc, code, own),
        Err(_) => Ok(blank(alloc)),
    }
}

/// Looks into each of these examples.
#[tactic(auto, using(crate::proofs::ExampleLemmas::none_seen, crate::proofs::ExampleLemmas::one_seen))]
fn seen_in(
    alloc: Global,
    tests: Vec<DocTest>,
    own: &[OwnCall],
) -> Result<Vec<SeenExample>, AllocError>
    ensures { IfOk result (λ seen. AreSeenIn own.now tests.items seen.items) }
{
    let mut seen = Vec::new(alloc);
    for test in tests {
        let look = look_of_code(alloc, &test.code, own)?;
        seen.push(SeenExample { test, look })?;
    }
    Ok(seen)
}

/// The examples in a source, and what is seen in each, with these calls of its project. An `Err` says that memory ran out, or that an
/// example has 4 GiB or more.
#[tactic(auto, using(crate::proofs::ExampleLemmas::all_seen))]
pub fn examples_in(
    alloc: Global,
    source: &str,
    own: &[OwnCall],
) -> Result<Vec<SeenExample>, AllocError>
    ensures { IfOk result (λ seen. AreSeenExamples source.now own.now seen.items) }
{
    let comments = comments_of(alloc, source)?;
    let tests = doc_tests_of(alloc, source.as_bytes(), &comments)?;
    seen_in(alloc, tests, own)
}
