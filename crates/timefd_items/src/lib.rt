//! What format descriptions are made of: components, the items of versions 1 and 2 and of strftime,
//! the descriptions of version 3, and the faults of other texts. The components, the items, the
//! faults, and the lists of nodes that make up descriptions are in crates below.
#![tactic(auto)]

mod format_description_v3;
pub mod laws;
mod most_bytes;

pub use format_description_v3::FormatDescriptionV3;
pub use format_description_v3::builder::DescriptionBuilder;
pub use format_description_v3::inner::FormatDescriptionV3Inner;
pub use format_description_v3::opaque::{NotOpaque, OpaqueCause};
pub use most_bytes::{item_bytes, items_bytes};
pub use timefd_lang_component::Component;
pub use timefd_lang_fault::InvalidFormatDescription;
pub use timefd_lang_node_list::item::{
    BorrowedFormatItem, DifferentVariant, FormatItem, StaticFormatDescription,
};
pub use timefd_lang_node_list::{InTurn, Members, Shape, View, Walk};
pub use timefd_modifier as modifier;
