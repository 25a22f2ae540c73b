//! Formats of other languages and libraries, and the texts of version 3 that mean the same.
#![tactic(auto)]

mod back;
mod character;
mod dialect;
mod error;
mod front;
pub mod laws;
mod limits;
mod longest;
mod plain;
mod quote;
mod quoted;
mod readable;
mod reading;
mod readings;
mod reason;
mod reversed;
mod role;
mod row;
mod rows;
mod spot;
mod tables;
mod to_read;
mod trap;
mod trapping;
mod writing;

pub use back::{NoFormatError, from_version_three};
pub use dialect::Dialect;
pub use error::{DialectError, RefusedPart};
pub use limits::Limits;
pub use readable::readers;
pub use reading::{Converted, to_version_three};
pub use reason::Reason;
pub use to_read::to_version_three_for_reading;
pub use trap::Trap;
pub use trapping::{Found, traps};
