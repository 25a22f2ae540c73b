//! Warnings about valid format descriptions that look like a mistake. Each has a code, and is
//! defined over the parts that a formatter writes.
#![tactic(auto)]

mod clock;
mod dates;
mod elsewhere;
mod explanation;
mod field;
pub mod laws;
mod levels;
mod mark;
mod parts;
mod sought;
mod twice;
mod warned;
mod warning;
mod width;

// Whether what a description writes is read back by it.
pub mod settled;

pub use elsewhere::{Elsewhere, read_elsewhere};
pub use levels::{Level, Levels};
pub use parts::ReadDescription;
pub use warned::{LanguageStyle, warns};
pub use warning::Warning;
