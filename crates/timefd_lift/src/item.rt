//! Writes items in version 3.

ghost use Rattle.std.specs.Prelude.{◌≡◌, ◌++◌, OnOk, string_bytes};
ghost use Rattle.timefd_lang_node_list.specs.Item.Meaning.{item_tree};
ghost use Rattle.timefd_lift.specs.Plain.{IsPlainItem};
ghost use Rattle.timefd_lift.specs.Written as spec;

use crate::component::push_component;
use std::alloc::{AllocError, Global};
use timefd_items::BorrowedFormatItem;

/// Appends the text of a literal or a component: version 2 has no other items. An `Err` says that
/// memory ran out.
pub fn push_item(
    alloc: Global,
    text: &mut String,
    item: &BorrowedFormatItem<'_>,
) -> Result<(), AllocError>
    requires { IsPlainItem item.now }
    ensures { OnOk result (string_bytes text.new ≡ string_bytes text.old ++ spec.tree_text
        (item_tree item.now)) }
{
    match *item {
        BorrowedFormatItem::StringLiteral(literal) => push_literal(text, literal),
        BorrowedFormatItem::Component(component) => push_component(alloc, text, component),
        BorrowedFormatItem::Literal(_)
        | BorrowedFormatItem::Compound(_)
        | BorrowedFormatItem::Optional(_)
        | BorrowedFormatItem::First(_) => unreachable!(),
    }
}

fn push_literal(text: &mut String, literal: &str) -> Result<(), AllocError>
    ensures { OnOk result (string_bytes text.new ≡ string_bytes
        text.old ++ (spec.escape_before literal.now ++ literal.now)) }
{
    text.push_str(escape_before(literal))?;
    text.push_str(literal)
}

/// The escape before a literal of version 2. A literal that needs one is always a single byte.
fn escape_before(literal: &str) -> &'static str
    ensures { result.now ≡ spec.escape_before literal.now }
{
    match literal.as_bytes() {
        [b'['] => "\\",
        [b']'] => "\\",
        [b'\\'] => "\\",
        _ => "",
    }
}
