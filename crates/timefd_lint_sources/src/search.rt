//! The first part of a format of another language or library that is refused where the format stands.

ghost use Rattle.std.specs.Prelude.{◌≡◌, ◌<◌, IfOk, IfSome, None, length};
ghost use Rattle.timefd_lang_dialect.specs.Reading.{RefusedAt};
ghost use Rattle.timefd_lint_sources.specs.Search as spec;

use crate::cut::after_index;
use crate::judgement::RefusedParts;
use crate::refusing::is_refused;
use std::alloc::{AllocError, Global};
use timefd_lang_dialect::{Dialect, DialectError, RefusedPart, to_version_three};

/// The first part of a format that is refused. Parts that version 3 doesn't have, but that are right where the format stands,
/// are passed over: what follows the percent sign of such a part is read on. An `Err` says that memory ran out.
#[tactic(auto, using(crate::proofs::SearchLemmas::all_is_right, crate::proofs::SearchLemmas::is_found, crate::proofs::SearchLemmas::nothing_left, crate::proofs::SearchLemmas::none_passed, crate::proofs::SearchLemmas::has_passed_more))]
pub fn first_refusal(
    alloc: Global,
    parts: RefusedParts,
    dialect: Dialect,
    text: &str,
) -> Result<Option<RefusedPart>, AllocError>
    ensures { IfOk result (spec.IsSearched parts dialect text.now) }
{
    let mut rest = text;
    'parts: while !rest.is_empty() {
        let Some(refusal) = refusal_in(alloc, dialect, rest)? else {
            return Ok(None);
        };
        if is_refused(parts, dialect, refusal.reason) {
            return Ok(Some(moved(text.len(), rest.len(), refusal)));
        }
        rest = after_sign(rest, refusal.index);
    }
    Ok(None)
}

// A refusal in the last bytes of a text, with its index in the whole text.
fn moved(whole: usize, left: usize, refusal: RefusedPart) -> RefusedPart
    ensures { result ≡ spec.moved whole left refusal }
{
    RefusedPart {
        reason: refusal.reason,
        index: whole.saturating_sub(left.saturating_sub(refusal.index)),
    }
}

// The first part of a format for which version 3 has no text.
#[tactic(auto, using(crate::proofs::SearchLemmas::has_meaning))]
fn refusal_in(
    alloc: Global,
    dialect: Dialect,
    text: &str,
) -> Result<Option<RefusedPart>, AllocError>
    ensures none { IfOk result (λ found. found ≡ None → spec.MeansAny dialect text.now) }
    ensures found { IfOk result (λ found. IfSome found
        (λ refusal. RefusedAt dialect text.now refusal.reason refusal.index)) }
{
    match to_version_three(alloc, dialect, text) {
        Ok(_converted) => Ok(None),
        Err(DialectError::Refused(refusal)) => Ok(Some(refusal)),
        Err(DialectError::Memory(error)) => Err(error),
    }
}

// What follows the percent sign at an index.
#[tactic(auto, using(crate::proofs::SearchLemmas::is_shorter))]
fn after_sign(text: &str, index: usize) -> &str
    requires { 0 < length text.now }
    ensures after { result.now ≡ spec.after_sign index text.now }
    ensures shorter { length result.now < length text.now }
{
    after_index(after_index(text, index), 1)
}
