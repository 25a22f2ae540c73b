//! The lists of items that composite letters of strftime mean, as nodes.

ghost use Rattle.std.specs.Prelude.{◌≡◌, ◌∷◌, ◌++◌, [], IsTrue, OnOk};
ghost use Rattle.std.specs.List.{list_all};
ghost use Rattle.timefd_parse.specs.Tree.{compound, trees};
ghost use Rattle.timefd_description.specs.Modern.{is_leaf, modern_list, modern_tree};
ghost use Rattle.timefd_lang_node_list.specs.Item.Meaning.{item_tree, item_trees};
ghost use Rattle.timefd_items.specs.Builder.{built};
ghost use Rattle.timefd_language.specs.Strings.{are_of_strings, is_of_strings};
ghost use Rattle.timefd_language.specs.Directives.LetterMeaning.{composite_list};

use crate::nodes::pack_last;
use std::alloc::AllocError;
use timefd_items::DescriptionBuilder;
use timefd_lang_node_list::item::BorrowedFormatItem;
use timefd_language::strftime::{Composite, StrftimeTables};

/// Adds the list of a composite letter as one tree.
pub fn add_composite(
    builder: &mut DescriptionBuilder<'_>,
    composite: Composite,
) -> Result<(), AllocError>
    ensures { OnOk result (built builder.new ≡ built builder.old
        ++ modern_tree (compound (trees (composite_list composite))) ∷ []) }
{
    let tables = StrftimeTables::new();
    let items = tables.list(composite);
    add_items(builder, items)?;
    pack_last(builder, items.len())
}

fn add_items<'a>(
    builder: &mut DescriptionBuilder<'a>,
    items: &[BorrowedFormatItem<'a>],
) -> Result<(), AllocError>
    requires leaves { IsTrue (list_all is_leaf (item_trees items.now)) }
    requires strings { IsTrue (are_of_strings items.now) }
    ensures { OnOk result (built builder.new ≡ built builder.old ++ modern_list (item_trees items.now)) }
{
    'items: for item in items {
        add_item(builder, *item)?;
    }
    Ok(())
}

fn add_item<'a>(
    builder: &mut DescriptionBuilder<'a>,
    item: BorrowedFormatItem<'a>,
) -> Result<(), AllocError>
    requires leaf { IsTrue (is_leaf (item_tree item)) }
    requires string { IsTrue (is_of_strings item) }
    ensures { OnOk result (built builder.new ≡ built builder.old ++ modern_tree (item_tree item.entry) ∷ []) }
{
    match item {
        BorrowedFormatItem::StringLiteral(text) => builder.literal(text),
        BorrowedFormatItem::Component(component) => builder.component(component),
        BorrowedFormatItem::Literal(_) => unreachable!(),
        BorrowedFormatItem::Compound(_) => unreachable!(),
        BorrowedFormatItem::Optional(_) => unreachable!(),
        BorrowedFormatItem::First(_) => unreachable!(),
    }
}
