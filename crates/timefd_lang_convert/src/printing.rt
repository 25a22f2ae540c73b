//! Prints descriptions as texts of version 3.

mod error;
pub mod laws;
mod literal;
mod print;
mod push;
mod reason;

pub use error::{PrintError, Unspelled};
pub use literal::push_literal;
pub use print::print_v3;
