//! Reads format descriptions: the texts of versions 1, 2 and 3, and of strftime. `timefd_language` defines
//! what a text spells and which fault a refused text has; `laws` states what holds of that.
#![tactic(auto)]

// The public calls: of versions, of any language, of the first piece alone, of amounts without items.
mod borrowing;
mod counting;
mod language;
mod leading;
mod parsing;

// Quick readers for what most texts have, tried first.
mod fast;

// A bracket's head: its name, its modifiers and the positions of their keys, or its fault; what a head is by
// itself.
mod head;

// A bracket: its parts, and what it is once it is closed.
mod bracket;

// Pieces one after another, and the trees that version 3 builds from them.
mod building;
mod piece;
mod read;

pub use borrowing::parse_all_borrowed;
pub use bracket::{bracket_name, first_modifier, first_nested};
pub use counting::error_of;
pub use head::modifier::Modifier;
pub use language::amount_all_borrowed;
pub use leading::first_piece;
pub use parsing::{BorrowedOutput, NESTING_LIMIT, parse, parse_borrowed, parse_borrowed_within};
pub use piece::Piece;
pub use read::next_piece;
pub use timefd_items::{BorrowedFormatItem, FormatDescriptionV3, InvalidFormatDescription};
pub use timefd_lang_fault::{
    BorrowedFault, BorrowedParseError, Excerpt, FaultKind, ParseError, Rule,
};
pub use timefd_language::strftime::{
    StrftimeTables, count_strftime, parse_strftime_all_borrowed, parse_strftime_borrowed,
};
pub use timefd_language::{DescriptionVersion, Language, laws};
