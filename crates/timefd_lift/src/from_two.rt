//! Texts of version 2 as texts of version 3.

ghost use Rattle.std.specs.Prelude.{◌≡◌, [], List, IfOk, IsOk, MatchResult, string_bytes};
ghost use Rattle.std.specs.Result.{IfErr};
ghost use Rattle.timefd_language.specs.declared.description_version.Language as spec_language;
ghost use Rattle.timefd_language.specs.Spans.{HasSpan};
ghost use Rattle.timefd_lang_fault.specs.Faults as spec;
ghost use Rattle.timefd_lang_node_list.specs.Item.Meaning.{item_trees};
ghost use Rattle.timefd_lang_component.specs.Tree.{Tree};
ghost use Rattle.timefd_language.specs.declared.description_version.DescriptionVersion.TheVariants.{Two};
ghost use Rattle.timefd_language.specs.Grammar.{Spells, nesting_limit};
ghost use Rattle.timefd_language.specs.Broken.{FaultOf};
ghost use Rattle.timefd_lang_fault.specs.BorrowedFaults.{HasShortFault, IsBorrowed, IsBorrowedOf, IsMemory};
ghost use Rattle.timefd_lang_fault.specs.Placed.{IsPlaced};
ghost use Rattle.timefd_lift.specs.Modernized.{IsReadAlike, IsWrittenOf, KeepsItemsOf};
ghost use Rattle.timefd_lift.specs.Plain.{ArePlainItems};
ghost use Rattle.timefd_lift.specs.Written as text;

use crate::item::push_item;
use crate::laws::{read_alike, writing};
use std::alloc::{AllocError, Global};
use timefd_items::BorrowedFormatItem;
use timefd_parse::{
    BorrowedOutput, BorrowedParseError, DescriptionVersion, NESTING_LIMIT, parse_all_borrowed,
};

/// The text of version 3 that means what a text of version 2 means, written from its items. Each
/// component is in small letters, with its modifiers in a fixed order: only those that aren't version
/// 3's default, and the range of each year that has one. In literals, `[`, `]` and `\` get a `\` before
/// them. Versions 2 and 3 read the answer the same, and converting the answer again gives the answer.
///
/// The error is `Invalid` with the fault of the text, or `Memory` if memory ran out. A text that has a
/// fault is refused for it even then. This call is this port's own.
pub fn v2_to_v3(alloc: Global, s: &str) -> Result<String, BorrowedParseError<'_>>
    // The answer is the text rewritten, and has the same items. A text is refused for the fault that the
    // rules of version 2 assign.
    ensures rewritten { IfOk result (λ answer. IsWrittenOf s.now (string_bytes answer)) }
    ensures same_items { IfOk result (λ answer. KeepsItemsOf s.now (string_bytes answer)) }
    // Version 2 reads the answer the same, and the answer is rewritten to itself.
    ensures alike { IfOk result (λ answer. IsReadAlike s.now (string_bytes answer)) }
    ensures again { IfOk result (λ answer.
        IsWrittenOf (string_bytes answer) (string_bytes answer)) }
    ensures fault { IfErr result (IsBorrowedOf (FaultOf Two nesting_limit s.now)) }

    // A text that version 2 spells is rewritten, unless memory runs out. A text with a fault is refused
    // for it.
    ensures spelled { (list : List Tree) → Spells Two nesting_limit 0 s.now list
        → MatchResult result (λ answer. string_bytes answer ≡ text.written list) IsMemory }
    ensures refused { (f : spec.Fault) → FaultOf Two nesting_limit s.now f
        → MatchResult result (λ _. ⊥) (IsBorrowed f) }

    // The fault's index is in the text or at its end, on a character boundary. Its words are short, so
    // that its sentence can be written.
    ensures position { IfErr result (IsBorrowedOf (IsPlaced s.now)) }
    ensures words { IfErr result HasShortFault }

    // The fault ends after the name, the key, the value or the character at fault.
    ensures span { IfErr result (HasSpan (spec_language.Language.Version Two) s.now) }

    // The empty text allocates no memory.
    ensures empty { s.now ≡ [] → IsOk result }
{
    // The laws that version 3 spells the same items, and version 2 too.
    writing();
    read_alike();
    match parse_all_borrowed(alloc, DescriptionVersion::Two, NESTING_LIMIT, s) {
        Ok(BorrowedOutput::Items(items)) => match written(alloc, s.len(), &items) {
            Ok(answer) => Ok(answer),
            Err(error) => Err(BorrowedParseError::Memory(error)),
        },
        Ok(BorrowedOutput::Description(_)) => unreachable!(),
        Err(error) => Err(error),
    }
}

/// The text of the items, with room for `room` bytes at first.
fn written(
    alloc: Global,
    room: usize,
    items: &[BorrowedFormatItem<'_>],
) -> Result<String, AllocError>
    requires { ArePlainItems items.now }
    ensures written { IfOk result (λ answer. string_bytes answer ≡ text.written
        (item_trees items.now)) }
    ensures empty { items.now ≡ [] → room ≡ 0 → IsOk result }
{
    let mut answer = String::with_capacity(alloc, room)?;
    'items: for at in 0..items.len() {
        push_item(alloc, &mut answer, &items[at])?;
    }
    Ok(answer)
}
