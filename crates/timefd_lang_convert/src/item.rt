//! Prints the items of strftime in version 3.

ghost use Rattle.std.specs.Prelude.{◌≡◌, ◌++◌, IsTrue, OnOk, string_bytes};
ghost use Rattle.timefd_lang_component.specs.Tree.{trees};
ghost use Rattle.timefd_lang_convert.specs.Leaves.{AreLeaves, IsLeafItem, IsShallowItem};
ghost use Rattle.timefd_lang_node_list.specs.Item.Meaning.{item_tree, item_trees};
ghost use Rattle.timefd_language.specs.Strings.{are_of_strings};
ghost use Rattle.timefd_lang_convert.specs.Printing.Printed as spec;

use crate::printing::push_literal;
use std::alloc::{AllocError, Global};
use timefd_items::BorrowedFormatItem;
use timefd_lift::push_component;

/// Appends the text of an item in version 3. A compound becomes its members, one after another. An
/// `Err` says that memory ran out.
pub fn push_item(
    alloc: Global,
    text: &mut String,
    item: &BorrowedFormatItem<'_>,
) -> Result<(), AllocError>
    requires { IsShallowItem item.now }
    ensures { OnOk result (string_bytes text.new ≡ string_bytes text.old ++ spec.printed
        (item_tree item.now)) }
{
    match *item {
        BorrowedFormatItem::StringLiteral(_) => push_leaf(alloc, text, item),
        BorrowedFormatItem::Component(_) => push_leaf(alloc, text, item),
        BorrowedFormatItem::Compound(members) => push_members(alloc, text, members),
        BorrowedFormatItem::Literal(_)
        | BorrowedFormatItem::Optional(_)
        | BorrowedFormatItem::First(_) => unreachable!(),
    }
}

/// Appends the text of the members of a compound.
#[tactic(auto, using(crate::proofs::ItemLemmas::leaf_items))]
fn push_members(
    alloc: Global,
    text: &mut String,
    members: &[BorrowedFormatItem<'_>],
) -> Result<(), AllocError>
    requires leaves { AreLeaves (trees (item_trees members.now)) }
    requires strings { IsTrue (are_of_strings members.now) }
    ensures { OnOk result (string_bytes text.new ≡ string_bytes text.old ++ spec.printed_all
        (trees (item_trees members.now))) }
{
    'members: for at in 0..members.len() {
        push_leaf(alloc, text, &members[at])?;
    }
    Ok(())
}

/// Appends the text of a literal or a component.
fn push_leaf(
    alloc: Global,
    text: &mut String,
    item: &BorrowedFormatItem<'_>,
) -> Result<(), AllocError>
    requires { IsLeafItem item.now }
    ensures { OnOk result (string_bytes text.new ≡ string_bytes text.old ++ spec.printed
        (item_tree item.now)) }
{
    match *item {
        BorrowedFormatItem::StringLiteral(literal) => push_literal(text, literal),
        BorrowedFormatItem::Component(component) => push_component(alloc, text, component),
        BorrowedFormatItem::Literal(_)
        | BorrowedFormatItem::Compound(_)
        | BorrowedFormatItem::Optional(_)
        | BorrowedFormatItem::First(_) => unreachable!(),
    }
}
