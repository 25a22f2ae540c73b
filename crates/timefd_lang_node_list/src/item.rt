//! The items of versions 1 and 2 and of strftime, and the tree that an item means. Users take them
//! from `timefd_items`.

mod borrowed_format_item;
pub mod laws;

pub use borrowed_format_item::{
    BorrowedFormatItem, DifferentVariant, FormatItem, StaticFormatDescription,
};
