//! Mends a text, one fault after another.

ghost use Rattle.std.specs.Prelude.{◌≡◌, IfOk, IfSome, List, None, string_bytes};
ghost use Rattle.std.specs.Result.{IfErr};
ghost use Rattle.timefd_parse.specs.Tree.{Tree};
ghost use Rattle.timefd_parse.specs.Faults.{Fault};
ghost use Rattle.timefd_language.specs.Grammar.{nesting_limit};
ghost use Rattle.timefd_parse.specs.Reported.{MemoryAlone};
ghost use Rattle.timefd_parse.specs.Language.{FaultIn, IsAssignedIn, SpellsIn};
ghost use Rattle.timefd_lint_rewrite.specs.Chains.{IsFixed, IsLeftOf, IsMended, IsUnmendedOf};

use crate::cure::{Fixes, cured};
use std::alloc::Global;
use timefd_lint_diagnosis::diagnose;
use timefd_parse::{Language, NESTING_LIMIT, ParseError, amount_all_borrowed};

/// How many faults of a text are mended at most.
pub const FIX_LIMIT: usize = 1000;

/// Mends a text: writes the cure of one fault after another until the language accepts the text, and returns
/// it. A text that is already accepted is returned as it is.
///
/// The error is `Invalid` with the first fault that has no allowed fix, or with the fault that is left after
/// `FIX_LIMIT` cures; or `Memory` if memory ran out.
pub fn fixed(
    alloc: Global,
    language: Language,
    fixes: Fixes,
    text: &str,
) -> Result<String, ParseError>
    ensures fixed { IfOk result (λ answer.
        IsFixed language fixes text.now (string_bytes answer)) }

    // The returned text has no fault at all, whether where one was mended or elsewhere.
    ensures faultless { IfOk result (λ answer. (f : Fault)
        → FaultIn language nesting_limit (string_bytes answer) f → ⊥) }

    ensures left { IfErr result (IsLeftOf language fixes text.now) }
{
    let mut now = owned(alloc, text)?;
    'steps: for _step in 0..FIX_LIMIT {
        match one_more(alloc, language, fixes, &now)? {
            None => return Ok(now),
            Some(next) => now = next,
        }
    }
    accepted(alloc, language, now)
}

// A copy of a text.
fn owned(alloc: Global, text: &str) -> Result<String, ParseError>
    ensures same { IfOk result (λ copy. string_bytes copy ≡ text.now) }
    ensures memory { IfErr result MemoryAlone }
{
    match String::from_str(alloc, text) {
        Ok(copy) => Ok(copy),
        Err(error) => Err(ParseError::Memory(error)),
    }
}

// The text with the cure of its fault, or `None` if it has no fault. The error is a fault that has no allowed
// fix.
#[tactic(auto, using(crate::proofs::MendedLemmas::mended, crate::proofs::MendedLemmas::unmended))]
fn one_more(
    alloc: Global,
    language: Language,
    fixes: Fixes,
    text: &str,
) -> Result<Option<String>, ParseError>
    ensures accepted { IfOk result (λ next. next ≡ None
        → (list : List Tree) × SpellsIn language nesting_limit text.now list) }
    ensures mended { IfOk result (λ next. IfSome next (λ after.
        IsMended language fixes text.now (string_bytes after))) }
    ensures unmended { IfErr result (IsUnmendedOf language fixes text.now) }
{
    match diagnose(alloc, language, text) {
        Ok(None) => Ok(None),
        Ok(Some(diagnostic)) => match cured(alloc, language, fixes, text, &diagnostic) {
            Ok(Some(after)) => Ok(Some(after)),
            Ok(None) => Err(ParseError::Invalid(diagnostic.fault)),
            Err(error) => Err(ParseError::Memory(error)),
        },
        Err(error) => Err(ParseError::Memory(error)),
    }
}

// The text, if the language accepts it.
fn accepted(alloc: Global, language: Language, text: String) -> Result<String, ParseError>
    ensures same { IfOk result (λ answer. string_bytes answer ≡ string_bytes text) }
    ensures accepted { IfOk result (λ answer.
        (list : List Tree) × SpellsIn language nesting_limit (string_bytes answer) list) }
    ensures fault { IfErr result (IsAssignedIn language nesting_limit (string_bytes text)) }
{
    match amount_all_borrowed(alloc, language, NESTING_LIMIT, &text) {
        Ok(_) => Ok(text),
        Err(error) => Err(error.into_owned(alloc)),
    }
}
