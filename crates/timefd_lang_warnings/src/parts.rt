//! The parts of a description that a formatter writes, walked from the last one to the first.

ghost use Rattle.std.specs.Prelude.{◌≡◌};
ghost use Rattle.timefd_lang_component.specs.Tree.{trees};
ghost use Rattle.timefd_lang_node_list.specs.Item.Meaning.{item_tree, item_trees};
ghost use Rattle.timefd_lang_node_list.specs.LeafMeaning.{leaf_tree};
ghost use Rattle.timefd_lang_node_list.specs.Leaves.{leaves, leaves_all};
ghost use Rattle.timefd_lang_node_list.specs.Views.{view_tree};
ghost use Rattle.timefd_lang_warnings.specs.Parts.{parts};
ghost use Rattle.timefd_lang_warnings.specs.Sought as spec;

use crate::field::ShownField;
use crate::sought::{HowMany, Scan, Sought};
use timefd_lang_node_list::item::BorrowedFormatItem;
use timefd_lang_node_list::{Leaf, View};

/// A description that was read, borrowed.
#[derive(Clone, Copy)]
pub enum ReadDescription<'v, 'a> {
    /// A description of version 3.
    Version3(View<'v, 'a>),
    /// Items of version 1 or 2, or of strftime.
    Items(&'v [BorrowedFormatItem<'a>]),
}

/// Whether a part of the description is what is sought.
pub(crate) fn has(description: ReadDescription<'_, '_>, sought: Sought) -> bool
    ensures { result ≡ spec.has sought (parts description.entry) }
{
    match amount(description, sought) {
        HowMany::Absent => false,
        HowMany::Once | HowMany::Several => true,
    }
}

/// Whether a part of the description shows this.
pub(crate) fn shows(description: ReadDescription<'_, '_>, field: ShownField) -> bool
    ensures { result ≡ spec.shows field (parts description.entry) }
{
    has(description, Sought::Shows(field))
}

/// How many parts of the description are what is sought.
pub(crate) fn amount(description: ReadDescription<'_, '_>, sought: Sought) -> HowMany
    ensures { result ≡ spec.amount_of sought (parts description.entry) }
{
    scan(description, sought).amount
}

#[tactic(auto, using(crate::proofs::ScanLemmas::scanned))]
fn scan(description: ReadDescription<'_, '_>, sought: Sought) -> Scan
    ensures { result ≡ spec.scan_of sought (parts description.entry) }
{
    match description {
        ReadDescription::Version3(view) => scan_view(sought, view),
        ReadDescription::Items(items) => scan_items(sought, items, Scan::start()),
    }
}

fn scan_view(sought: Sought, view: View<'_, '_>) -> Scan
    ensures { result ≡ spec.with_parts sought (leaves (view_tree view.entry)) spec.start }
{
    let mut scan = Scan::start();
    let mut left = view.leaves();
    'leaves: while let Some((front, leaf)) = left.split_last() {
        scan = scan_leaf(sought, leaf, scan);
        left = front;
    }
    scan
}

fn scan_leaf(sought: Sought, leaf: Leaf<'_>, scan: Scan) -> Scan
    ensures { result ≡ spec.with_part sought (leaf_tree leaf.entry) scan }
{
    match leaf {
        Leaf::Component(component) => scan.with_component(sought, component),
        Leaf::Literal(text) => scan.with_text(sought, text.as_bytes()),
    }
}

#[cycle(parts)]
fn scan_item(sought: Sought, item: &BorrowedFormatItem<'_>, scan: Scan) -> Scan
    ensures { result ≡ spec.with_parts sought (leaves (item_tree item.now)) scan }
{
    match *item {
        BorrowedFormatItem::Literal(bytes) => scan.with_text(sought, bytes),
        BorrowedFormatItem::StringLiteral(text) => scan.with_text(sought, text.as_bytes()),
        BorrowedFormatItem::Component(component) => scan.with_component(sought, component),
        BorrowedFormatItem::Compound(items) => scan_items(sought, items, scan),
        BorrowedFormatItem::Optional(item) => scan_item(sought, item, scan),
        BorrowedFormatItem::First(items) => match items {
            [] => scan,
            [first, ..] => scan_item(sought, first, scan),
        },
    }
}

#[cycle(parts)]
fn scan_items(sought: Sought, items: &[BorrowedFormatItem<'_>], scan: Scan) -> Scan
    ensures { result ≡ spec.with_parts sought (leaves_all (trees (item_trees items.now))) scan }
{
    let mut reached = scan;
    let mut left = items.len();
    'items: while left > 0 {
        left -= 1;
        reached = scan_item(sought, &items[left], reached);
    }
    reached
}
