//! The date, the time of day, the offset from UTC and the instant that fields determine. The fields were
//! read from a text.

mod agreed;
mod dates;
mod day;
mod days;
mod error;
mod fault;
mod instants;
mod known;
pub mod laws;
mod local;
mod moments;
mod numbers;
mod offsets;
mod part;
mod shown;
mod stamp;
pub mod stamp_laws;
mod stamped;
mod times;
mod way;
mod year;

pub use dates::{date, date_time};
pub use error::ValueError;
pub use instants::instant;
pub use moments::moment;
pub use numbers::moment_of_numbers;
pub use offsets::offset;
pub use part::{DatePart, InstantPart, OffsetPart, Part, TimePart};
pub use times::time;
