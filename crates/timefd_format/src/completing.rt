//! Texts that give part of a date: whether a description shows only parts that were read, and a date that
//! agrees with all of them.

mod component;
mod fields;
mod given;
pub mod laws;
mod moments;
mod sought;
mod years;

pub use given::are_given;
pub use moments::{PartialError, completed};
pub use sought::agreeing_date;
