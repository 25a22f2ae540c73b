//! The items of versions 1 and 2 and of strftime, their equality, and the error of a conversion from an item.

ghost use Rattle.std.specs.Cmp.{on_equiv, on_per, partial_equiv_from_equiv};
ghost use Rattle.std.specs.Prelude.{◌≡◌, map};
ghost use Rattle.timefd_lang_node_list.specs.Item.Equality.{same_tree, same_trees};
ghost use Rattle.timefd_lang_node_list.specs.Item.Meaning.{item_tree};
ghost use Rattle.timefd_lang_component.specs.Tree.{trees};
ghost use Rattle.timefd_lang_node_list.specs.Item.TreeEquality.{same_tree_equiv};

mod conversions;
mod debug;

use timefd_lang_component::Component;

/// An item of a description, which borrows all that it holds. It mirrors the enum of the same name in
/// `time`.
#[derive(Clone, Copy)]
pub enum BorrowedFormatItem<'a> {
    /// Bytes as they are, which need not be UTF-8.
    Literal(&'a [u8]),
    /// Text as it is.
    StringLiteral(&'a str),
    /// A component, with its modifiers.
    Component(Component),
    /// Items one after another.
    Compound(&'a [Self]),
    /// An item that a parser may skip, and a formatter writes.
    Optional(&'a Self),
    /// Alternatives: a parser takes the first that matches, a formatter writes the first.
    First(&'a [Self]),
}

/// An item, by its name in earlier releases of `time`.
pub type FormatItem<'a> = BorrowedFormatItem<'a>;

/// A description of items that live as long as the program.
pub type StaticFormatDescription = &'static [BorrowedFormatItem<'static>];

/// The item has another variant than the one that was asked for. This struct mirrors the one of the
/// same name in `time`.
#[derive(Debug, Clone, Copy, PartialEq, Eq)]
pub struct DifferentVariant;

#[cycle(same)]
fn same<'a, 'b>(left: &BorrowedFormatItem<'a>, right: &BorrowedFormatItem<'b>) -> bool
    ensures { result ≡ same_tree (item_tree left.now) (item_tree right.now) }
{
    match (*left, *right) {
        (BorrowedFormatItem::Literal(a), BorrowedFormatItem::Literal(b)) => a == b,
        (BorrowedFormatItem::Literal(a), BorrowedFormatItem::StringLiteral(b)) => a == b.as_bytes(),
        (BorrowedFormatItem::StringLiteral(a), BorrowedFormatItem::Literal(b)) => a.as_bytes() == b,
        (BorrowedFormatItem::StringLiteral(a), BorrowedFormatItem::StringLiteral(b)) => a == b,
        (BorrowedFormatItem::Component(a), BorrowedFormatItem::Component(b)) => a == b,
        (BorrowedFormatItem::Compound(a), BorrowedFormatItem::Compound(b)) => same_all(a, b),
        (BorrowedFormatItem::Optional(a), BorrowedFormatItem::Optional(b)) => same(a, b),
        (BorrowedFormatItem::First(a), BorrowedFormatItem::First(b)) => same_all(a, b),
        _ => false,
    }
}

#[cycle(same)]
fn same_all<'a, 'b>(left: &[BorrowedFormatItem<'a>], right: &[BorrowedFormatItem<'b>]) -> bool
    ensures { result ≡ same_trees (trees (map item_tree left.now)) (trees (map item_tree right.now)) }
{
    if left.len() != right.len() {
        return false;
    }
    'items: for at in 0..left.len() {
        if !same(&left[at], &right[at]) {
            return false;
        }
    }
    true
}

impl PartialEq for BorrowedFormatItem<'_> {
    ghost eq = { λ a b. same_tree (item_tree a) (item_tree b) };

    ghost laws = { on_per item_tree (partial_equiv_from_equiv same_tree_equiv) };

    fn eq(&self, other: &Self) -> bool {
        same(self, other)
    }
}

impl Eq for BorrowedFormatItem<'_> {
    ghost laws = { on_equiv item_tree same_tree_equiv };
}
