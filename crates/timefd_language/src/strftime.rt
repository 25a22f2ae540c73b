//! Reads the texts of strftime. Users import it from `timefd_parse`.

mod count;
mod directive;
mod first;
mod item;
mod letter;
mod parsing;
mod piece;
mod tables;
mod text;

pub use count::count_strftime;
pub use first::after_first_directive;
pub use letter::Composite;
pub use parsing::{parse_strftime_all_borrowed, parse_strftime_borrowed, strftime_error};
pub use piece::{StrftimePiece, next_strftime_piece};
pub use tables::StrftimeTables;
pub use timefd_lang_fault::ParseError;
pub use timefd_lang_node_list::item::BorrowedFormatItem;
