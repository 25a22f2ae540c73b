//! The calls of `parsing`, with a fault that borrows what it quotes.

ghost use Rattle.std.specs.Prelude.{◌≡◌, ◌≤◌, [], List, length, IfOk, IsOk, IsFalse, MatchResult};
ghost use Rattle.std.specs.Result.{IfErr};
ghost use Rattle.timefd_lang_component.specs.Tree.{Tree, pack};
ghost use Rattle.timefd_lang_fault.specs.Faults as spec;
ghost use Rattle.timefd_items.specs.Description.{description_tree};
ghost use Rattle.timefd_lang_component.specs.Reserved.{reserve};
ghost use Rattle.timefd_language.specs.declared.description_version.DescriptionVersion.TheVariants.{Three};
ghost use Rattle.timefd_language.specs.declared.description_version.Language as spec_language;
ghost use Rattle.timefd_language.specs.Bytes.{is_version_three};
ghost use Rattle.timefd_language.specs.Spans.{HasSpan};
ghost use Rattle.timefd_language.specs.Grammar.{Spells, nesting_limit};
ghost use Rattle.timefd_language.specs.Broken.{FaultOf};
ghost use Rattle.timefd_language.specs.Strings.{AreItems};
ghost use Rattle.timefd_lang_fault.specs.BorrowedFaults.{HasShortFault, IsBorrowed, IsBorrowedOf, IsMemory};
ghost use Rattle.timefd_lang_fault.specs.Placed.{IsPlaced};
ghost use Rattle.timefd_parse.specs.Answers.{IsOutput, ReservesAtMost, HasStrings};
ghost use Rattle.timefd_parse.specs.Language.{IsRead};

use crate::counting::error_of;
use crate::parsing::BorrowedOutput;
use crate::read::{items, members, node_room};
use std::alloc::{AllocError, Global};
use timefd_items::{BorrowedFormatItem, DescriptionBuilder, FormatDescriptionV3};
use timefd_lang_fault::BorrowedParseError;
use timefd_lang_fault::read_error::ReadError;
use timefd_language::description_version::DescriptionVersion;

/// Reads a text of a version as `parse_borrowed_within` does, with a fault that borrows what it
/// quotes. This call is this port's own.
///
/// The error is `Invalid` with the fault of the text, or `Memory` if memory ran out. A text that has
/// a fault is refused for it even then.
pub fn parse_all_borrowed<'a>(
    alloc: Global,
    version: DescriptionVersion,
    limit: u8,
    s: &'a str,
) -> Result<BorrowedOutput<'a>, BorrowedParseError<'a>>
    requires { limit ≤ nesting_limit }

    // An accepted text spells the result. A refused one is refused for the fault that the rules
    // assign.
    ensures found { IfOk result (λ output. (list : List Tree)
        × Spells version limit 0 s.now list × IsOutput version list output) }
    ensures fault { IfErr result (IsBorrowedOf (FaultOf version limit s.now)) }

    // A text that spells something is accepted unless memory runs out, and a text with a fault is
    // refused for it.
    ensures spelled { (list : List Tree) → Spells version limit 0 s.now list
        → MatchResult result (IsOutput version list) IsMemory }
    ensures refused { (f : spec.Fault) → FaultOf version limit s.now f
        → MatchResult result (λ _. ⊥) (IsBorrowed f) }

    // The fault's index lies in the text or at its end, between two characters. The words that it
    // quotes are short, so that its sentence can be written.
    ensures position { IfErr result (IsBorrowedOf (IsPlaced s.now)) }
    ensures words { IfErr result HasShortFault }

    // The fault ends after the name, the key, the value or the character at fault.
    ensures span { IfErr result (HasSpan (spec_language.Language.Version version) s.now) }

    // No item is a literal of bytes, and a description reserves no more bytes than the text has.
    ensures strings { IfOk result HasStrings }
    ensures reserved { IfOk result (ReservesAtMost (length s.now)) }

    // The empty text takes no memory.
    ensures empty { s.now ≡ [] → IsOk result }
{
    if let DescriptionVersion::Three = version {
        return match parse_description(alloc, limit, s) {
            Ok(description) => Ok(BorrowedOutput::Description(description)),
            Err(error) => Err(error),
        };
    }
    match parse_items(alloc, version, limit, s) {
        Ok(items) => Ok(BorrowedOutput::Items(items)),
        Err(error) => Err(error),
    }
}

/// The items of a text of version 1 or 2.
pub fn parse_items<'a>(
    alloc: Global,
    version: DescriptionVersion,
    limit: u8,
    s: &'a str,
) -> Result<Vec<BorrowedFormatItem<'a>>, BorrowedParseError<'a>>
    requires { IsFalse (is_version_three version) }
    ensures { IsRead (spec_language.Language.Version version) limit s.now
        (λ list items. AreItems items.items list) result }
{
    match items(alloc, version, s, limit) {
        Ok(items) => Ok(items),
        Err(error) => Err(error_of(alloc, version, limit, s, error)),
    }
}

/// The description that a text of version 3 spells.
pub fn parse_description<'a>(
    alloc: Global,
    limit: u8,
    s: &'a str,
) -> Result<FormatDescriptionV3<'a>, BorrowedParseError<'a>>
    ensures read { IsRead (spec_language.Language.Version Three) limit s.now
        (λ list d. description_tree d ≡ pack list) result }
    ensures reserved { IfOk result (λ d. reserve (description_tree d) ≤ length s.now) }
{
    let version = DescriptionVersion::Three;
    let mut builder = match DescriptionBuilder::with_capacity(alloc, node_room(s)) {
        Ok(builder) => builder,
        Err(_) => return Err(error_of(alloc, version, limit, s, ReadError::Memory)),
    };
    match members::<true>(&mut builder, version, s, limit, 0) {
        Ok(_) => match builder.finish() {
            Ok(description) => Ok(description),
            Err(error) => Err(BorrowedParseError::Memory(error)),
        },
        Err(error) => Err(error_of(alloc, version, limit, s, error)),
    }
}
