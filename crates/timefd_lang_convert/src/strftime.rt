//! Converts texts of strftime to version 3.

ghost use Rattle.std.specs.Prelude.{◌≡◌, ◌≤◌, ◌*◌, [], List, IfOk, IsOk, MatchResult, length, string_bytes};
ghost use Rattle.std.specs.Result.{IfErr};
ghost use Rattle.std.specs.String.{string_capacity};
ghost use Rattle.timefd_language.specs.declared.description_version.Language as spec_language;
ghost use Rattle.timefd_language.specs.Spans.{HasSpan};
ghost use Rattle.timefd_lang_fault.specs.BorrowedFaults.{HasShortFault, IsBorrowed, IsBorrowedOf, IsMemory};
ghost use Rattle.timefd_lang_fault.specs.Placed.{IsPlaced};
ghost use Rattle.timefd_lang_component.specs.Tree.{Tree, trees};
ghost use Rattle.timefd_lang_convert.specs.Answers.{HasStrftimeItems, IsPrintedOf};
ghost use Rattle.timefd_lang_convert.specs.Leaves.{AreShallowItems};
ghost use Rattle.timefd_lang_fault.specs.Faults as spec;
ghost use Rattle.timefd_lang_node_list.specs.Item.Meaning.{item_trees};
ghost use Rattle.timefd_language.specs.Strftime.{SpellsStrftime, StrftimeFaultOf};
ghost use Rattle.timefd_lang_convert.specs.Printing.Printed.{printed_all};

use crate::item::push_item;
use crate::laws::flattening;
use std::alloc::{AllocError, Global};
use timefd_items::BorrowedFormatItem;
use timefd_parse::{
    BorrowedParseError, StrftimeTables, count_strftime, parse_strftime_all_borrowed,
};

/// The text of version 3 that means the same as a text of strftime. Each letter becomes its exact
/// components in their normal form, with those of a composite letter one after another. A `[`, `]` or
/// `\` in a literal gets a `\` before it. Neighbouring literals become one literal.
///
/// The error is `Invalid` with the fault of the text, or `Memory` if memory ran out. A text that has a
/// fault is refused for it even then. This call is this port's own.
pub fn strftime_to_v3(alloc: Global, s: &str) -> Result<String, BorrowedParseError<'_>>
    // The result is printed from what strftime spells, and has the same items. A text that is refused
    // is refused for the fault that the rules of strftime assign.
    ensures printed { IfOk result (λ answer. IsPrintedOf s.now (string_bytes answer)) }
    ensures same_items { IfOk result (λ answer. HasStrftimeItems s.now (string_bytes answer)) }
    ensures fault { IfErr result (IsBorrowedOf (StrftimeFaultOf s.now)) }

    // What strftime spells is printed unless memory runs out, and a text with a fault is refused for
    // it.
    ensures spelled { (list : List Tree) → SpellsStrftime s.now list
        → MatchResult result (λ answer. string_bytes answer ≡ printed_all (trees list)) IsMemory }
    ensures refused { (f : spec.Fault) → StrftimeFaultOf s.now f
        → MatchResult result (λ _. ⊥) (IsBorrowed f) }

    // The fault's index lies in the text or at its end, between two characters. The words that it
    // quotes are short, so that its sentence can be written.
    ensures position { IfErr result (IsBorrowedOf (IsPlaced s.now)) }
    ensures words { IfErr result HasShortFault }

    // The fault ends after the name, the key, the value or the character at fault.
    ensures span { IfErr result (HasSpan (spec_language.Language.Strftime) s.now) }

    // The result has at most 53 times as many bytes as the text. `%c` gives the longest result for
    // its length.
    ensures within { IfOk result (λ answer. length (string_bytes answer) ≤ 53 * length s.now) }

    // The empty text takes no memory.
    ensures empty { s.now ≡ [] → IsOk result }
{
    // By this law version 3 spells the same items.
    flattening();
    let tables = StrftimeTables::new();
    match parse_strftime_all_borrowed(alloc, &tables, s) {
        Ok(items) => match printed(alloc, s, &items) {
            Ok(answer) => Ok(answer),
            Err(error) => Err(BorrowedParseError::Memory(error)),
        },
        Err(_) => Err(strftime_error(s)),
    }
}

/// Why a text was not read. The fault is looked for again, so that the error doesn't borrow the
/// tables.
fn strftime_error(text: &str) -> BorrowedParseError<'_>
    ensures fault { IsBorrowedOf (StrftimeFaultOf text.now) result }
    ensures spelled { (list : List Tree) → SpellsStrftime text.now list → IsMemory result }
    ensures refused { (f : spec.Fault) → StrftimeFaultOf text.now f → IsBorrowed f result }
    ensures position { IsBorrowedOf (IsPlaced text.now) result }
    ensures words { HasShortFault result }
    ensures span { HasSpan spec_language.Language.Strftime text.now result }
{
    match count_strftime(text) {
        Ok(_) => BorrowedParseError::Memory(AllocError),
        Err(fault) => BorrowedParseError::Invalid(fault),
    }
}

/// An empty text with room for at most as many bytes as this text has. An `Err` says that memory ran
/// out.
fn first_room(alloc: Global, text: &str) -> Result<String, AllocError>
    ensures bytes { IfOk result (λ answer. string_bytes answer ≡ []) }
    ensures most { IfOk result (λ answer. string_capacity answer ≤ length text.now) }
    ensures empty { text.now ≡ [] → IsOk result }
{
    String::with_capacity(alloc, text.len())
}

/// The text of the items, one after another. At first it has room for as many bytes as `text` has. An
/// `Err` says that memory ran out.
fn printed(
    alloc: Global,
    text: &str,
    items: &[BorrowedFormatItem<'_>],
) -> Result<String, AllocError>
    requires { AreShallowItems items.now }
    ensures printed { IfOk result (λ answer. string_bytes answer ≡ printed_all
        (trees (item_trees items.now))) }
    ensures empty { items.now ≡ [] → text.now ≡ [] → IsOk result }
{
    let mut answer = first_room(alloc, text)?;
    'items: for at in 0..items.len() {
        push_item(alloc, &mut answer, &items[at])?;
    }
    Ok(answer)
}
