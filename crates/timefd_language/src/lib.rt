//! The languages of format descriptions: what a text of each version, or of strftime, spells, and
//! which fault any other text has. The laws of both are here too, and the tables of names, keys and
//! values with the code that looks them up, and the parser of strftime. That of the versions is in
//! `timefd_parse`, from which users take what they need.
#![tactic(auto)]

pub mod combination;
pub mod component;
pub mod description_version;
pub mod key;
pub mod laws;
pub mod name;
pub mod same;
pub mod search;
pub mod setting;
pub mod text;
pub mod value;

// The parser of strftime.
pub mod strftime;

pub use description_version::{DescriptionVersion, Language};
