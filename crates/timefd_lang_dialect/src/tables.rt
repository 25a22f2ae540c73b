//! The table of each dialect. `tables/write` writes this file.

pub mod c;
pub mod c_marked;
pub mod c_padded;
pub mod chrono;
pub mod gnu;
pub mod gnu_marked;
pub mod gnu_padded;
pub mod go;
pub mod java;
pub mod java_refused;
pub mod jiff;
pub mod jiff_marked;
pub mod jiff_padded;
pub mod moment;
pub mod moment_escaped;
pub mod python;
pub mod ruby;
pub mod ruby_marked;
pub mod ruby_padded;
pub mod strftime;
