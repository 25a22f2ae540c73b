//! Reads dates and times back by format descriptions: finds the fields that a text shows.

mod digits;
mod fault;
mod fields;
mod input;
mod items;
pub mod laws;
mod leaves;
mod names;
mod numbers;
mod padded;
mod part;
mod quick;
mod read;
mod reading;
mod rule;
mod short;
mod taken;
mod view;

pub use fault::{ReadError, UnreadReason};
pub use fields::{Fields, Fraction, NO_FIELDS, Signed};
pub use leaves::leaves_in_turn;
pub use padded::{take_padded_day, take_padded_month, take_padded_year};
pub use read::{fill_fields, fill_item_fields, fill_leaf_fields, read_fields, read_item_fields};
pub use reading::unit;
pub use short::{NO_NUMBERS, Numbers, numbers_shown, take_leaf, take_literal};
