//! What comments allow: errors and warnings of the descriptions in a line aren't reported then.

mod comment;
mod found;
mod keyed;
pub mod laws;
mod rust;

pub use comment::Allowance;
pub use found::allowances_in;
