//! Items that are borrowed for good.

use super::printed::AMPLE;
use std::alloc::Global;
use std::process::Abort;
use timefd_items::{FormatItem, StaticFormatDescription};

/// The items, borrowed from a block that is never freed.
pub fn lend(items: Vec<FormatItem<'static>>) -> StaticFormatDescription {
    items.leak()
}

/// The item, borrowed from a block that is never freed.
pub fn lend_one(
    rt: &impl Abort,
    alloc: Global,
    item: FormatItem<'static>,
) -> &'static FormatItem<'static> {
    Box::leak(Box::new(alloc, item).expect(rt, AMPLE))
}
