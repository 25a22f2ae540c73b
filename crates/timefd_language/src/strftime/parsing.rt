//! The texts of strftime.

ghost use Rattle.std.specs.Prelude.{◌≡◌, ◌<◌, ◌≤◌, [], List, IfOk, IsOk, IsTrue, MatchResult, length};
ghost use Rattle.std.specs.Result.{IfErr};
ghost use Rattle.timefd_lang_fault.specs.Faults as spec;
ghost use Rattle.timefd_lang_node_list.specs.Item.Meaning.{item_trees};
ghost use Rattle.timefd_lang_component.specs.Tree.{Tree};
ghost use Rattle.timefd_lang_fault.specs.BorrowedFaults.{HasShortFault, IsBorrowed, IsBorrowedOf, IsMemory};
ghost use Rattle.timefd_lang_fault.specs.Placed.{HasPlacedFault, IsPlaced};
ghost use Rattle.timefd_lang_fault.specs.Reported.{IsFaultOrMemory, MemoryAlone};
ghost use Rattle.timefd_language.specs.Strftime.{SpellsStrftime, StrftimeFaultOf};
ghost use Rattle.timefd_language.specs.Directives.StrftimeAnswers.{IsStrftimeFault};
ghost use Rattle.timefd_lang_fault.specs.ReadErrors.{MemoryOr};
ghost use Rattle.timefd_language.specs.Directives.StrftimeReading.{IsStrftimeFaultIn};
ghost use Rattle.timefd_language.specs.Strings.{are_of_strings};
ghost use Rattle.timefd_language.specs.declared.description_version.Language.TheVariants.{Strftime};
ghost use Rattle.timefd_language.specs.Spans.{HasSpan, HasSpanWithin};

use crate::strftime::count::count_strftime;
use crate::strftime::piece::next_strftime_piece;
use crate::strftime::tables::StrftimeTables;
use std::alloc::{AllocError, Global};
use timefd_lang_fault::ParseError;
use timefd_lang_fault::borrowed_parse_error::{BorrowedParseError, borrowed};
use timefd_lang_fault::read_error::ReadError;
use timefd_lang_node_list::item::BorrowedFormatItem;

/// Reads a text of strftime, like `time`'s `parse_strftime_borrowed`. The items of composite letters
/// borrow the lists of `tables`.
///
/// The error is `Invalid` with the fault of the text, or `Memory` if memory ran out. A fault that quotes
/// nothing of the text is reported even then.
#[inline(always)]
pub fn parse_strftime_borrowed<'a>(
    alloc: Global,
    tables: &'a StrftimeTables<'a>,
    s: &'a str,
) -> Result<Vec<BorrowedFormatItem<'a>>, ParseError>
    // An accepted text spells the result. A refused one is refused for the fault that the rules assign.
    ensures found { IfOk result (λ items. SpellsStrftime s.now (item_trees items.items)) }
    ensures fault { IfErr result (IsStrftimeFault s.now) }

    // A text that spells something is accepted unless memory runs out. A text with a fault is refused for
    // it, unless the fault quotes the text and there is no memory for the quote.
    ensures spelled { (list : List Tree) → SpellsStrftime s.now list
        → MatchResult result (λ items. item_trees items.items ≡ list) MemoryAlone }
    ensures refused { (f : spec.Fault) → StrftimeFaultOf s.now f
        → MatchResult result (λ _. ⊥) (IsFaultOrMemory f) }

    // The fault's index lies in the text or at its end, between two characters.
    ensures position { IfErr result (HasPlacedFault s.now) }

    // The bytes at fault, from that index on, lie in the text.
    ensures span { IfErr result (HasSpanWithin Strftime s.now) }

    // No item is a literal of bytes, not even in the list of a composite letter.
    ensures strings { IfOk result (λ items. IsTrue (are_of_strings items.items)) }

    // The empty text takes no memory.
    ensures empty { s.now ≡ [] → IsOk result }
{
    match parse_strftime_all_borrowed(alloc, tables, s) {
        Ok(items) => Ok(items),
        Err(error) => Err(error.into_owned(alloc)),
    }
}

/// Reads a text of strftime as `parse_strftime_borrowed` does, with a fault that borrows what it
/// quotes. This call is this port's own.
///
/// The error is `Invalid` with the fault of the text, or `Memory` if memory ran out. A text that has a
/// fault is refused for it even then.
pub fn parse_strftime_all_borrowed<'a>(
    alloc: Global,
    tables: &'a StrftimeTables<'a>,
    s: &'a str,
) -> Result<Vec<BorrowedFormatItem<'a>>, BorrowedParseError<'a>>
    // An accepted text spells the result. A refused one is refused for the fault that the rules assign.
    ensures found { IfOk result (λ items. SpellsStrftime s.now (item_trees items.items)) }
    ensures fault { IfErr result (IsBorrowedOf (StrftimeFaultOf s.now)) }

    // A text that spells something is accepted unless memory runs out, and a text with a fault is refused
    // for it.
    ensures spelled { (list : List Tree) → SpellsStrftime s.now list
        → MatchResult result (λ items. item_trees items.items ≡ list) IsMemory }
    ensures refused { (f : spec.Fault) → StrftimeFaultOf s.now f
        → MatchResult result (λ _. ⊥) (IsBorrowed f) }

    // The fault's index lies in the text or at its end, between two characters. The words that it quotes
    // are short, so that its sentence can be written.
    ensures position { IfErr result (IsBorrowedOf (IsPlaced s.now)) }
    ensures words { IfErr result HasShortFault }

    // The fault ends after the character at fault.
    ensures span { IfErr result (HasSpan Strftime s.now) }

    // No item is a literal of bytes, not even in the list of a composite letter.
    ensures strings { IfOk result (λ items. IsTrue (are_of_strings items.items)) }

    // The empty text takes no memory.
    ensures empty { s.now ≡ [] → IsOk result }
{
    match items(alloc, tables, s) {
        Ok(items) => Ok(items),
        Err(error) => Err(strftime_error(error, s)),
    }
}

/// The error of a text of strftime that couldn't be read. A fault of the text is found even if memory ran
/// out, since that takes none.
pub fn strftime_error<'a>(error: ReadError<'a>, text: &'a str) -> BorrowedParseError<'a>
    requires { MemoryOr (IsStrftimeFaultIn text.now) error }
    ensures fault { IsBorrowedOf (StrftimeFaultOf text.now) result }
    ensures spelled { (list : List Tree) → SpellsStrftime text.now list → IsMemory result }
    ensures refused { (f : spec.Fault) → StrftimeFaultOf text.now f → IsBorrowed f result }
    ensures span { HasSpan Strftime text.now result }
{
    match error {
        ReadError::Memory => match count_strftime(text) {
            Ok(_) => BorrowedParseError::Memory(AllocError),
            Err(fault) => BorrowedParseError::Invalid(fault),
        },
        error => borrowed(error, text.len()),
    }
}

/// The items of a text.
fn items<'a>(
    alloc: Global,
    tables: &'a StrftimeTables<'a>,
    text: &'a str,
) -> Result<Vec<BorrowedFormatItem<'a>>, ReadError<'a>>
    ensures found { IfOk result (λ items. SpellsStrftime text.now (item_trees items.items)) }
    ensures fault { IfErr result (MemoryOr (IsStrftimeFaultIn text.now)) }
    ensures strings { IfOk result (λ items. IsTrue (are_of_strings items.items)) }
    ensures some { IfErr result (λ _. 0 < length text.now) }
{
    let mut items = Vec::with_capacity(alloc, first_room(text))?;
    let mut rest = text;
    'pieces: loop {
        let Some((piece, unread)) = next_strftime_piece(rest)? else {
            return Ok(items);
        };
        items.push(piece.into_item(tables))?;
        rest = unread;
    }
}

/// Room for the items of a text of usual length: one for every byte, and at most 16.
#[inline(always)]
fn first_room(text: &str) -> usize
    ensures empty { text.now ≡ [] → result ≡ 0 }
    ensures most { (result ≤ 16) × (result ≤ length text.now) }
{
    text.len().min(16)
}
