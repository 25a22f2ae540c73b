//! Fast ways for what most inputs have, tried before the exact ones.
//!
//! Lines, and records without quotes, are read and written many at once, straight from the reader's buffer
//! into one room. So a line needs no memory, and no call of the reader or the writer. A batch ends before the
//! first line that can't be read or written here. That says nothing about the line, and changes nothing: the
//! exact way looks at it next. Names in the usual forms are read at once, and fields without quotes are
//! searched for their comma.

mod batch;
mod day;
mod line;
mod moment;
pub mod plain;
mod plain_cell;
mod record;
mod record_batch;
mod spelled;
pub mod take;
pub mod take_records;
