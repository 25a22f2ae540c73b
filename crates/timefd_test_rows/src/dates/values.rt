//! The values that fields determine, in print.

use crate::fault::RowFault;
use std::alloc::Global;
use std::fmt::Display;
use timefd_date_moment::fields::{Fields, ReadError};
use timefd_date_moment::reading::{ValueError, date, date_time, instant, moment, offset, time};

/// What fields determine.
#[derive(Clone, Copy)]
pub enum Value {
    Date,
    Time,
    Offset,
    /// A date and a time of day.
    DateTime,
    Moment,
    Instant,
}

/// What is printed instead of a value if there is none.
pub const REFUSED: &str = "refused";

/// The value, or the sentence that says why there is none.
pub fn value_text(alloc: Global, value: Value, fields: &Fields) -> Result<String, RowFault> {
    match value {
        Value::Date => shown(alloc, date(fields)),
        Value::Time => shown(alloc, time(fields)),
        Value::Offset => shown(alloc, offset(fields)),
        Value::DateTime => match date_time(fields) {
            Ok((date, time)) => Ok(format!(in alloc; "{date} {time}")?),
            Err(error) => Ok(error.to_string(alloc)?),
        },
        Value::Moment => shown(alloc, moment(fields)),
        Value::Instant => shown(alloc, instant(fields)),
    }
}

fn shown<V: Display + Drop>(
    alloc: Global,
    answer: Result<V, ValueError>,
) -> Result<String, RowFault> {
    match answer {
        Ok(value) => Ok(value.to_string(alloc)?),
        Err(error) => Ok(error.to_string(alloc)?),
    }
}

/// The value, or that there is none.
pub fn shown_or_refused<V: Display + Drop>(
    alloc: Global,
    found: Option<V>,
) -> Result<String, RowFault> {
    match found {
        Some(value) => Ok(value.to_string(alloc)?),
        None => Ok(String::from_str(alloc, REFUSED)?),
    }
}

/// The moment that a text shows, or that it is refused.
pub fn moment_or_refused(
    alloc: Global,
    read: Result<Fields, ReadError>,
) -> Result<String, RowFault> {
    match read {
        Ok(fields) => shown_or_refused(alloc, moment(&fields).ok()),
        Err(_) => Ok(String::from_str(alloc, REFUSED)?),
    }
}
