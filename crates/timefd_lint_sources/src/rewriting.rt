//! Rewrites the descriptions in the string literals of a Rust source, or in the values of keys: fixed, or in another
//! version. Of a literal only what is between the quotes changes, and the number of its version; of a value its string.
//! Every other byte stays.

mod answer;
mod aside;
mod change;
mod found;
mod item;
mod outcome;
mod source;
mod text;
mod value;
mod values;

pub use answer::{Answer, NewParts, answer_to};
pub use change::{Change, layout_of, new_digit};
pub use found::rewrite_found;
pub use outcome::{Outcome, count_refused, count_rewritten};
pub use source::{NewSource, rewrite_all, rewrite_source};
pub use text::text_by;
pub use value::value_change;
pub use values::rewrite_values;
