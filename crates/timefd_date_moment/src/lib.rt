//! Dates, times of day, offsets from UTC, instants, and moments: the parts of a value that are
//! known. The reader of dates is here too.
#![tactic(auto)]

mod calendar;
mod component_range;
mod date;
mod display;
mod from_day;
pub mod laws;
mod moment;
mod offset;
mod time;
mod unix_time;
mod weekday;

// The reader of dates: which fields a text gives, by a description.
pub mod fields;

// The date, the time and the offset that fields determine.
pub mod reading;

pub use component_range::ComponentRange;
pub use date::Date;
pub use moment::Moment;
pub use offset::UtcOffset;
pub use time::Time;
pub use unix_time::UnixTime;
pub use weekday::Weekday;
