//! How much a text of each language holds.

ghost use Rattle.std.specs.Prelude.{ℕ, ◌≡◌, ◌≤◌, [], List, IfOk, IsFalse, IsOk, MatchResult};
ghost use Rattle.std.specs.Result.{IfErr};
ghost use Rattle.timefd_lang_component.specs.Tree.{Tree};
ghost use Rattle.timefd_lang_fault.specs.Faults as spec;
ghost use Rattle.timefd_lang_fault.specs.BorrowedFaults.{HasShortFault, IsBorrowed, IsBorrowedOf, IsMemory, IsRefusal};
ghost use Rattle.timefd_lang_fault.specs.Placed.{IsPlaced};
ghost use Rattle.timefd_language.specs.Grammar.{nesting_limit};
ghost use Rattle.timefd_language.specs.Spans.{HasSpan};
ghost use Rattle.timefd_parse.specs.Language.{SpellsIn, FaultIn, amount, takes_memory, IsAmount};

use crate::counting::{count_bytes, count_items};
use std::alloc::Global;
use timefd_lang_fault::BorrowedParseError;
use timefd_language::Language;
use timefd_language::description_version::DescriptionVersion;
use timefd_language::strftime::count_strftime;

/// How much a text holds: how many items, or in version 3 how many bytes its description reserves.
/// Descriptions may be nested at most `limit` deep; strftime nests none.
///
/// The error is `Invalid` with the fault of the text, or `Memory` if memory ran out. A text that has
/// a fault is refused for it even then.
#[inline(always)]
pub fn amount_all_borrowed(
    alloc: Global,
    language: Language,
    limit: u8,
    text: &str,
) -> Result<usize, BorrowedParseError<'_>>
    requires { limit ≤ nesting_limit }

    // An accepted text spells the result. A refused one is refused for the fault that the rules
    // assign.
    ensures found { IfOk result (λ n.
        (list : List Tree) × SpellsIn language limit text.now list × (n ≡ amount language list)) }
    ensures fault { IfErr result (IsBorrowedOf (FaultIn language limit text.now)) }

    // A text that spells something is accepted unless memory runs out, and a text with a fault is
    // refused for it.
    ensures spelled { (list : List Tree) → SpellsIn language limit text.now list
        → MatchResult result (λ n. n ≡ amount language list) IsMemory }
    ensures refused { (f : spec.Fault) → FaultIn language limit text.now f
        → MatchResult result (λ _. ⊥) (IsBorrowed f) }

    // The fault's index lies in the text or at its end, between two characters. The words that it
    // quotes are short, so that its sentence can be written.
    ensures position { IfErr result (IsBorrowedOf (IsPlaced text.now)) }
    ensures words { IfErr result HasShortFault }

    // The fault ends after the name, the key, the value or the character at fault.
    ensures span { IfErr result (HasSpan language text.now) }

    // Versions 1 and 2 and strftime take no memory, and the empty text takes none in version 3.
    ensures memory { IsFalse (takes_memory language) → IfErr result IsRefusal }
    ensures empty { text.now ≡ [] → IsOk result }
{
    match language {
        Language::Version(version) => version_amount(alloc, version, limit, text),
        Language::Strftime => strftime_amount(text),
    }
}

/// How much a text of this version holds.
#[inline(never)]
fn version_amount(
    alloc: Global,
    version: DescriptionVersion,
    limit: u8,
    text: &str,
) -> Result<usize, BorrowedParseError<'_>>
    requires { limit ≤ nesting_limit }
    ensures { IsAmount (Language.Version version) limit text.now result }
{
    // Each version is a constant in its own loop over the pieces.
    match version {
        DescriptionVersion::One => count_items(alloc, DescriptionVersion::One, limit, text),
        DescriptionVersion::Two => count_items(alloc, DescriptionVersion::Two, limit, text),
        DescriptionVersion::Three => count_bytes(alloc, limit, text),
    }
}

/// How many items a text of strftime has.
#[inline(never)]
fn strftime_amount(text: &str) -> Result<usize, BorrowedParseError<'_>>
    ensures { (limit : ℕ) → IsAmount Language.Strftime limit text.now result }
{
    match count_strftime(text) {
        Ok(count) => Ok(count),
        Err(fault) => Err(BorrowedParseError::Invalid(fault)),
    }
}
