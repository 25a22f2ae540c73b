//! Converts texts of any language to a later version, and texts of version 3 to their normal form.
#![tactic(auto)]

mod conversion;
mod converting;
mod from_one;
mod item;
pub mod laws;
mod normal;
mod strftime;

// The normal form of a description of version 3.
pub mod printing;

pub use conversion::{Conversion, conversion_between};
pub use converting::{ConvertError, convert, convert_by};
pub use from_one::v1_to_v3;
pub use normal::normalize_v3;
pub use strftime::strftime_to_v3;
