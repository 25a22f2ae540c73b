//! Converts dates, times, offsets and instants of `jiff` to those of `timefd_date_moment`, and back. Also reads
//! dates in the forms of RFC 3339, and says what clocks in time zones show.

mod annotated;
mod dates;
mod instants;
pub mod laws;
mod moments;
mod reading;
mod times;
mod zones;

pub use annotated::{Annotated, Annotation, read_annotated};
pub use dates::{date_from_jiff, date_to_jiff};
pub use instants::{unix_time_from_jiff, unix_time_to_jiff};
pub use jiff_core::Error;
pub use moments::{moment_from_datetime, moment_from_zoned};
pub use reading::read_moment;
pub use times::{offset_from_jiff, offset_to_jiff, time_from_jiff, time_to_jiff};
pub use zones::{moment_in_zone, offset_in_zone};
