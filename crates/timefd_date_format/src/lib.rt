//! Writes dates and times by format descriptions, over the front of a buffer or at its end.
#![tactic(auto)]

mod append;
mod component;
mod cursor;
mod digits;
mod field;
mod forward;
mod forward_items;
mod fraction;
mod front;
mod instant;
mod item_text;
mod items;
pub mod laws;
mod leaves;
mod len;
mod long;
mod names;
mod naming;
mod numbers;
mod output;
mod parts;
mod put;
mod put_field;
mod quick;
mod resolve;
mod sentences;
mod shown;
mod slow;
mod text;
mod view;
mod write;
mod years;

pub use field::{Lack, Unshown};
pub use forward::{append_leaves, append_literal};
pub use front::write_front;
pub use item_text::{format_items, format_items_to};
pub use leaves::write_leaves;
pub use len::{component_len, len_of_both};
pub use naming::component_name;
pub use output::{OutputError, format_to};
pub use quick::{append_component, append_quickly};
pub use resolve::written_leaves;
pub use slow::append_slowly;
pub use text::{TextError, format};
pub use write::{FormatError, write_component, write_description, write_items};
