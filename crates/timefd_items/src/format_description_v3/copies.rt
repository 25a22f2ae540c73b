//! Copies of descriptions, with the same meaning.

ghost use Rattle.std.specs.Prelude.{◌≡◌, ◌+◌, IfOk, IsFalse, IsOk, map};
ghost use Rattle.timefd_items.specs.Content.{content_tree};
ghost use Rattle.timefd_items.specs.Meaning.{inner_tree, owned_parts, owns};
ghost use Rattle.timefd_lang_component.specs.Tree.{optional};

use super::content::Content;
use super::inner::FormatDescriptionV3Inner;
use std::alloc::{AllocError, Global};

impl<'a> FormatDescriptionV3Inner<'a> {
    /// A copy of the same meaning, which borrows what this one borrows and owns what it owns. An
    /// `Err` says that memory ran out. A component or a borrowed part takes none.
    #[cycle(clone)]
    pub fn clone(&self, alloc: Global) -> Result<Self, AllocError>
        ensures same { IfOk result (λ copy. inner_tree copy ≡ inner_tree self.now) }
        ensures owned { IfOk result (λ copy. owned_parts copy ≡ owned_parts self.now) }
        ensures no_memory { IsFalse (owns self.now) → IsOk result }
    {
        if let Some(content) = self.borrowed_content() {
            return Ok(Self::of_borrowed(content));
        }
        match self.owned_content() {
            Content::Component(_) => unreachable!(),
            Content::Literal(text) => {
                Ok(FormatDescriptionV3Inner::OwnedLiteral(String::from_str(alloc, text)?))
            }
            Content::Compound(items) => {
                Ok(FormatDescriptionV3Inner::OwnedCompound(Self::clone_all(items, alloc)?))
            }
            Content::Optional { format, item } => owned_optional(
                alloc,
                format,
                FormatDescriptionV3Inner::clone(item, alloc)?,
            ),
            Content::First(items) => {
                Ok(FormatDescriptionV3Inner::OwnedFirst(Self::clone_all(items, alloc)?))
            }
        }
    }

    #[cycle(clone)]
    fn clone_all(items: &[Self], alloc: Global) -> Result<Vec<Self>, AllocError>
        ensures same { IfOk result (λ copies. map inner_tree copies.items ≡ map inner_tree items.now) }
        ensures owned { IfOk result (λ copies. map owned_parts copies.items ≡ map owned_parts
            items.now) }
    {
        let mut copies = Vec::with_capacity(alloc, items.len())?;
        'items: for at in 0..items.len() {
            let copy = FormatDescriptionV3Inner::clone(&items[at], alloc)?;
            copies.push(copy)?;
        }
        Ok(copies)
    }

    // The borrowed part with this content.
    fn of_borrowed(content: Content<'a, 'a>) -> Self
        ensures same { inner_tree result ≡ content_tree content.entry }
        ensures borrowed { owned_parts result ≡ 0 }
    {
        match content {
            Content::Component(component) => FormatDescriptionV3Inner::from(component),
            Content::Literal(text) => FormatDescriptionV3Inner::BorrowedLiteral(text),
            Content::Compound(items) => FormatDescriptionV3Inner::BorrowedCompound(items),
            Content::Optional { format, item } => FormatDescriptionV3Inner::BorrowedOptional {
                format,
                item,
            },
            Content::First(items) => FormatDescriptionV3Inner::BorrowedFirst(items),
        }
    }
}

pub(super) fn owned_optional(
    alloc: Global,
    format: bool,
    item: FormatDescriptionV3Inner<'_>,
) -> Result<FormatDescriptionV3Inner<'_>, AllocError>
    ensures same { IfOk result (λ made. inner_tree made ≡ optional format (inner_tree item.entry)) }
    ensures owned { IfOk result (λ made. owned_parts made ≡ 1 + owned_parts item.entry) }
{
    Ok(FormatDescriptionV3Inner::OwnedOptional {
        format,
        item: Box::new(alloc, item)?,
    })
}
