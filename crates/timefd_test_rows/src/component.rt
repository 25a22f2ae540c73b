//! The one component that a description is.

use timefd_items::{BorrowedFormatItem, Component};

/// The component that the items are, if they are a single component.
pub fn component_alone(items: &[BorrowedFormatItem]) -> Option<Component> {
    match items {
        [item] => component_in(item),
        _ => None,
    }
}

fn component_in(item: &BorrowedFormatItem) -> Option<Component> {
    match item {
        BorrowedFormatItem::Component(component) => Some(*component),
        _ => None,
    }
}
