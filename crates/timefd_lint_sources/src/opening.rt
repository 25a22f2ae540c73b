//! Texts of versions 1 and 2 as they are checked if `[optional [..]]` and `[first [..] [..]]` are taken: with
//! these items opened.

ghost use Rattle.std.specs.Prelude.{◌≡◌, ◌++◌, Bool, IfOk, IfSome, None, Some, length, string_bytes, true};
ghost use Rattle.std.specs.Str.{IsCharBoundary};
ghost use Rattle.timefd_parse.specs.Tree.{Text};
ghost use Rattle.timefd_parse.specs.Codes as codes;
ghost use Rattle.timefd_parse.specs.Faults.{Fault};
ghost use Rattle.timefd_language.specs.Grammar.{nesting_limit};
ghost use Rattle.timefd_parse.specs.Language.{FaultIn};
ghost use Rattle.timefd_language.specs.declared.description_version.Language as language;
ghost use Rattle.timefd_lint_sources.specs.Items.{IsAllOpened, IsItemFault, IsOpened, opened};
ghost use Rattle.timefd_lint_sources.specs.Items as spec;

use crate::item::{Item, item_of};
use std::alloc::{AllocError, Global};
use timefd_lint_diagnosis::Code;
use timefd_parse::{
    BorrowedParseError, DescriptionVersion, Language, NESTING_LIMIT, amount_all_borrowed,
};

/// A text with its items opened, one after another. An `Err` says that memory ran out.
#[tactic(auto, using(crate::proofs::OpeningLemmas::at_first, crate::proofs::OpeningLemmas::one_more, crate::proofs::OpeningLemmas::nothing_left, crate::proofs::OpeningLemmas::enough))]
pub fn opened_all(
    alloc: Global,
    version: DescriptionVersion,
    text: &str,
) -> Result<String, AllocError>
    ensures { IfOk result (λ all. IsAllOpened (length text.now) version text.now (string_bytes all)) }
{
    let mut left = String::from_str(alloc, text)?;
    'items: for count in 0..text.len() {
        let Some(next) = opened_once(alloc, version, &left)? else {
            return Ok(left);
        };
        left = next;
    }
    Ok(left)
}

/// A text with one item opened, if it has one that only `parse` refuses. An `Err` says that memory ran out.
#[tactic(auto, using(crate::proofs::OpeningLemmas::is_opened, crate::proofs::OpeningLemmas::no_fault))]
pub fn opened_once(
    alloc: Global,
    version: DescriptionVersion,
    text: &str,
) -> Result<Option<String>, AllocError>
    ensures found { IfOk result (λ next. IfSome next
        (λ next. IsOpened version text.now (string_bytes next))) }
    ensures none { IfOk result (λ found. found ≡ None
        → (next : Text) → IsOpened version text.now next → ⊥) }
{
    let Some(index) = item_index(alloc, version, text)? else {
        return Ok(None);
    };
    let (front, after) = text.split_at(index);
    match item_of(alloc, version, after) {
        Some(item) => Ok(Some(with_spaces(alloc, front, after, item)?)),
        None => Ok(None),
    }
}

/// Where the bracket begins that only `parse` refuses, if the first fault of the text is such a bracket. An `Err` says that
/// memory ran out.
pub fn item_index(
    alloc: Global,
    version: DescriptionVersion,
    text: &str,
) -> Result<Option<usize>, AllocError>
    ensures found { IfOk result (λ at. IfSome at (λ index. (f : Fault)
        × IsItemFault version text.now f × (index ≡ f.index))) }
    ensures all { (f : Fault) → IsItemFault version text.now f
        → IfOk result (λ at. at ≡ Some f.index) }
    ensures position { IfOk result (λ at. IfSome at (λ index. IsCharBoundary text.now index)) }
{
    match amount_all_borrowed(alloc, Language::Version(version), NESTING_LIMIT, text) {
        Ok(_) => Ok(None),
        Err(BorrowedParseError::Invalid(fault)) => {
            if is_of_item(Code::of(fault.rule)) {
                Ok(Some(fault.start))
            } else {
                Ok(None)
            }
        }
        Err(BorrowedParseError::Memory(error)) => Err(error),
    }
}

/// Whether this is a fault that only `parse` finds: `[optional ..]` or `[first ..]`.
pub fn is_of_item(code: Code) -> bool
    ensures { result ≡ spec.is_of_item code }
{
    match code {
        Code::OptionalItem | Code::FirstItem => true,
        Code::UnclosedBracket
        | Code::UnknownName
        | Code::InvalidModifier
        | Code::MissingName
        | Code::MissingModifier
        | Code::InvalidEscape
        | Code::UnescapedBracket
        | Code::MissingSpace
        | Code::MissingDescription
        | Code::MissingAlternative
        | Code::NestedTooDeep
        | Code::SeveralDescriptions
        | Code::UnsupportedFlag
        | Code::UnsupportedLetter
        | Code::NestedInComponent
        | Code::DuplicateModifier
        | Code::RefusedModifier => false,
    }
}

// The text `front`, and after it the text of an item, with spaces instead of everything but the item's first
// description.
fn with_spaces(alloc: Global, front: &str, text: &str, item: Item<'_>) -> Result<String, AllocError>
    ensures { IfOk result (λ next. string_bytes next
        ≡ front.now ++ opened text.now item.entry.first.now item.entry.after.now item.entry.rest.now) }
{
    let Item { first, after, rest } = item;
    let before = text
        .len()
        .saturating_sub(first.len())
        .saturating_sub(after.len())
        .saturating_sub(1);
    let closing = (after.len() + 1).saturating_sub(rest.len());
    let mut next = String::from_str(alloc, front)?;
    next.push_str(&" ".repeat(alloc, before)?)?;
    next.push_str(first)?;
    next.push_str(&" ".repeat(alloc, closing)?)?;
    next.push_str(rest)?;
    Ok(next)
}
