//! What a piece of a text is.

ghost use Rattle.std.specs.Prelude.{◌≡◌, Bool, List, IsTrue};
ghost use Rattle.timefd_lang_component.specs.Modern.{modern};
ghost use Rattle.timefd_lang_component.specs.Tree as spec;
ghost use Rattle.timefd_lang_component.specs.Tree.{Tree};
ghost use Rattle.timefd_lang_node_list.specs.Item.Meaning.{item_tree};
ghost use Rattle.timefd_parse.specs.Pieces.{IsPiece};

use timefd_items::{BorrowedFormatItem, Component};
use timefd_lang_component::reserved::reserved_bytes;

/// A literal, or what a bracket means.
#[derive(Clone, Copy)]
pub enum Piece<'a> {
    Literal(&'a str),
    /// A component, and how many bytes it reserves. The number matters only if the reader builds.
    Component(Component, usize),
    /// A bracket with nested descriptions. In a reader that builds, it is the last tree that was
    /// built.
    Compound,
}

impl<'a> Piece<'a> {
    ghost use Rattle.timefd_parse.specs.Pieces.{IsLeaf, IsLeafTree};
    ghost use Rattle.timefd_language.specs.Strings.{is_of_strings};

    /// The piece as an item of versions 1 and 2, for which nothing is built.
    #[inline(always)]
    pub fn into_item(self) -> BorrowedFormatItem<'a>
        requires { IsLeaf self }
        ensures tree { IsLeafTree self.entry (item_tree result) }
        ensures string { IsTrue (is_of_strings result) }
    {
        match self {
            Piece::Literal(text) => BorrowedFormatItem::StringLiteral(text),
            Piece::Component(component, _) => BorrowedFormatItem::Component(component),
            Piece::Compound => unreachable!(),
        }
    }
}

/// A component as a piece. A reader that doesn't build doesn't need its bytes.
#[inline(always)]
pub fn component_piece<'a, const BUILDS: bool>(component: Component) -> Piece<'a>
    ensures { (strict : Bool) (old new : List Tree) → modern component ≡ component
        → (IsTrue BUILDS → new ≡ old)
        → IsPiece strict BUILDS old new result (spec.component component) }
{
    let bytes = if BUILDS { reserved_bytes(component) } else { 0 };
    Piece::Component(component, bytes)
}
