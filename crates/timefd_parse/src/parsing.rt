//! The public calls of versions 1, 2 and 3.

ghost use Rattle.std.specs.Prelude.{◌≡◌, ◌≤◌, [], List, length, IfOk, IsOk, IsFalse, MatchResult, map};
ghost use Rattle.std.specs.Result.{IfErr};
ghost use Rattle.timefd_lang_component.specs.Tree.{Tree, pack};
ghost use Rattle.timefd_lang_fault.specs.Faults as spec;
ghost use Rattle.timefd_items.specs.Description.{description_tree};
ghost use Rattle.timefd_lang_component.specs.Reserved.{reserve};
ghost use Rattle.timefd_language.specs.declared.description_version.DescriptionVersion.TheVariants.{One, Three};
ghost use Rattle.timefd_language.specs.Bytes.{is_version_three};
ghost use Rattle.timefd_language.specs.Grammar.{Spells, nesting_limit};
ghost use Rattle.timefd_language.specs.Broken.{FaultOf};
ghost use Rattle.timefd_language.specs.Spans.{HasSpanWithin};
ghost use Rattle.timefd_language.specs.declared.description_version.Language as spec_language;
ghost use Rattle.timefd_lang_fault.specs.Placed.{HasPlacedFault};
ghost use Rattle.timefd_parse.specs.Answers.{IsOutput, IsAssigned, ReservesAtMost, HasStrings};
ghost use Rattle.timefd_lang_fault.specs.Reported.{IsFaultOrMemory, MemoryAlone};
ghost use Rattle.timefd_language.specs.Strings.{AreItems};

use crate::borrowing::{parse_all_borrowed, parse_items};
use std::alloc::Global;
use timefd_items::{BorrowedFormatItem, FormatDescriptionV3};
use timefd_lang_fault::ParseError;
use timefd_language::description_version::DescriptionVersion;

/// How deep descriptions may be nested.
pub const NESTING_LIMIT: u8 = 127;

/// What a text is read as: the output of `time`'s `parse_borrowed`.
#[derive(Debug, Drop)]
pub enum BorrowedOutput<'a> {
    /// The items of versions 1 and 2.
    Items(Vec<BorrowedFormatItem<'a>>),
    /// The description of version 3.
    Description(FormatDescriptionV3<'a>),
}

/// Reads a text of a version, like `time`'s `parse_borrowed`. The result borrows its literals from
/// the text.
///
/// The error is `Invalid` with the fault of the text, or `Memory` if memory ran out. A fault that
/// quotes nothing of the text is reported even then.
#[inline(always)]
pub fn parse_borrowed<'a>(
    alloc: Global,
    version: DescriptionVersion,
    s: &'a str,
) -> Result<BorrowedOutput<'a>, ParseError>
    // An accepted text spells the result. A refused one is refused for the fault that the rules
    // assign.
    ensures found { IfOk result (λ output. (list : List Tree)
        × Spells version nesting_limit 0 s.now list × IsOutput version list output) }
    ensures fault { IfErr result (IsAssigned version nesting_limit s.now) }

    // A text that spells something is accepted unless memory runs out. A text with a fault is refused
    // for it, unless the fault quotes the text and there is no memory for the quote.
    ensures spelled { (list : List Tree) → Spells version nesting_limit 0 s.now list
        → MatchResult result (IsOutput version list) MemoryAlone }
    ensures refused { (f : spec.Fault) → FaultOf version nesting_limit s.now f
        → MatchResult result (λ _. ⊥) (IsFaultOrMemory f) }

    // The fault's index lies in the text or at its end, between two characters.
    ensures position { IfErr result (HasPlacedFault s.now) }

    // The bytes at fault, from that index on, lie in the text.
    ensures span { IfErr result (HasSpanWithin (spec_language.Language.Version version) s.now) }

    // No item is a literal of bytes, and a description reserves no more bytes than the text has.
    ensures strings { IfOk result HasStrings }
    ensures reserved { IfOk result (ReservesAtMost (length s.now)) }

    // The empty text takes no memory.
    ensures empty { s.now ≡ [] → IsOk result }
{
    parse_borrowed_within(alloc, version, NESTING_LIMIT, s)
}

/// Reads a text of a version as `parse_borrowed` does, with descriptions nested at most `limit` deep.
/// This call is this port's own.
///
/// The error is `Invalid` with the fault of the text, or `Memory` if memory ran out. A fault that
/// quotes nothing of the text is reported even then.
#[inline(always)]
pub fn parse_borrowed_within<'a>(
    alloc: Global,
    version: DescriptionVersion,
    limit: u8,
    s: &'a str,
) -> Result<BorrowedOutput<'a>, ParseError>
    requires { limit ≤ nesting_limit }

    // An accepted text spells the result. A refused one is refused for the fault that the rules
    // assign.
    ensures found { IfOk result (λ output. (list : List Tree)
        × Spells version limit 0 s.now list × IsOutput version list output) }
    ensures fault { IfErr result (IsAssigned version limit s.now) }

    // A text that spells something is accepted unless memory runs out. A text with a fault is refused
    // for it, unless the fault quotes the text and there is no memory for the quote.
    ensures spelled { (list : List Tree) → Spells version limit 0 s.now list
        → MatchResult result (IsOutput version list) MemoryAlone }
    ensures refused { (f : spec.Fault) → FaultOf version limit s.now f
        → MatchResult result (λ _. ⊥) (IsFaultOrMemory f) }

    // The fault's index lies in the text or at its end, between two characters.
    ensures position { IfErr result (HasPlacedFault s.now) }

    // The bytes at fault, from that index on, lie in the text.
    ensures span { IfErr result (HasSpanWithin (spec_language.Language.Version version) s.now) }

    // No item is a literal of bytes, and a description reserves no more bytes than the text has.
    ensures strings { IfOk result HasStrings }
    ensures reserved { IfOk result (ReservesAtMost (length s.now)) }

    // The empty text takes no memory.
    ensures empty { s.now ≡ [] → IsOk result }
{
    match parse_all_borrowed(alloc, version, limit, s) {
        Ok(output) => Ok(output),
        Err(error) => Err(error.into_owned(alloc)),
    }
}

/// Reads a text of version 1, like `time`'s `parse`.
///
/// The error is `Invalid` with the fault of the text, or `Memory` if memory ran out. A fault that
/// quotes nothing of the text is reported even then.
pub fn parse<'a>(alloc: Global, s: &'a str) -> Result<Vec<BorrowedFormatItem<'a>>, ParseError>
    // An accepted text spells the result. A refused one is refused for the fault that the rules
    // assign.
    ensures found { IfOk result (λ items. (list : List Tree)
        × Spells One nesting_limit 0 s.now list × AreItems items.items list) }
    ensures fault { IfErr result (IsAssigned One nesting_limit s.now) }

    // A text that spells something is accepted unless memory runs out. A text with a fault is refused
    // for it, unless the fault quotes the text and there is no memory for the quote.
    ensures spelled { (list : List Tree) → Spells One nesting_limit 0 s.now list
        → MatchResult result (λ items. AreItems items.items list) MemoryAlone }
    ensures refused { (f : spec.Fault) → FaultOf One nesting_limit s.now f
        → MatchResult result (λ _. ⊥) (IsFaultOrMemory f) }

    // The fault's index lies in the text or at its end, between two characters.
    ensures position { IfErr result (HasPlacedFault s.now) }

    // The bytes at fault, from that index on, lie in the text.
    ensures span { IfErr result (HasSpanWithin (spec_language.Language.Version One) s.now) }

    // The empty text takes no memory.
    ensures empty { s.now ≡ [] → IsOk result }
{
    match parse_items(alloc, DescriptionVersion::One, NESTING_LIMIT, s) {
        Ok(items) => Ok(items),
        Err(error) => Err(error.into_owned(alloc)),
    }
}
