//! String values of keys in files of TOML, JSON and YAML, as format descriptions.

mod bytes;
mod comment;
mod escape;
mod format;
mod found;
mod key;
mod letter;
mod lies;
mod name;
mod number;
mod passing;
mod reading;
mod scalar;
mod spelled;
mod spot;
mod step;
mod style;
mod visit;

pub use format::{FileFormat, format_named};
pub use found::{Values, descriptions_by, values_by};
pub use key::{DescriptionKey, KeyFault, dialect_of, key_fault, key_of};
pub use spelled::{string_end, string_for};
