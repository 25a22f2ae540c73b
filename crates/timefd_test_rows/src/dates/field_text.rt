//! The fields that a text shows, in print.

use crate::fault::RowFault;
use std::alloc::Global;
use timefd_date_moment::fields::{Fields, ReadError, Signed, UnreadReason};

/// The fields, or what doesn't read and where.
pub fn fields_text(alloc: Global, answer: Result<Fields, ReadError>) -> Result<String, RowFault> {
    match answer {
        Ok(fields) => {
            let mut text = String::new(alloc);
            push_date(&fields, &mut text)?;
            push_time(&fields, &mut text)?;
            push_offset(&fields, &mut text)?;
            Ok(text)
        }
        Err(error) => fault_text(alloc, error),
    }
}

fn fault_text(alloc: Global, error: ReadError) -> Result<String, RowFault> {
    let reason = match error.reason {
        UnreadReason::Unread(_) => "unread",
        UnreadReason::Contradiction(_) => "contradiction",
        UnreadReason::Literal => "literal",
        UnreadReason::Trailing => "trailing",
    };
    let index = error.index;
    Ok(format!(in alloc; " {reason} at {index}")?)
}

fn push_count(name: &str, value: Option<u16>, text: &mut String) -> Result<(), RowFault> {
    if let Some(number) = value {
        write!(text, " {name} {number}")?;
    }
    Ok(())
}

fn push_signed(name: &str, value: Option<Signed>, text: &mut String) -> Result<(), RowFault> {
    if let Some(number) = value {
        let sign = if number.is_negative { " -" } else { "" };
        let magnitude = number.magnitude;
        write!(text, "{sign} {name} {magnitude}")?;
    }
    Ok(())
}

fn push_date(fields: &Fields, text: &mut String) -> Result<(), RowFault> {
    push_signed("year", fields.year, text)?;
    push_signed("century", fields.century, text)?;
    push_count("last two", fields.year_last_two, text)?;
    push_signed("iso year", fields.iso_year, text)?;
    push_signed("iso century", fields.iso_century, text)?;
    push_count("iso last two", fields.iso_year_last_two, text)?;
    push_count("month", fields.month, text)?;
    push_count("day", fields.day, text)?;
    push_count("ordinal", fields.ordinal, text)?;
    push_count("iso week", fields.iso_week, text)?;
    push_count("sunday week", fields.sunday_week, text)?;
    push_count("monday week", fields.monday_week, text)?;
    push_count("weekday", fields.weekday, text)
}

fn push_time(fields: &Fields, text: &mut String) -> Result<(), RowFault> {
    push_count("hour", fields.hour, text)?;
    push_count("hour of twelve", fields.hour_12, text)?;
    if let Some(is_afternoon) = fields.is_afternoon {
        text.push_str(if is_afternoon { " pm" } else { " am" })?;
    }
    push_count("minute", fields.minute, text)?;
    push_count("second", fields.second, text)?;
    if let Some(fraction) = fields.subsecond {
        let nanosecond = fraction.nanosecond;
        write!(text, " nanosecond {nanosecond}")?;
    }
    Ok(())
}

fn push_offset(fields: &Fields, text: &mut String) -> Result<(), RowFault> {
    push_signed("offset", fields.offset_hour, text)?;
    push_count("offset minute", fields.offset_minute, text)?;
    push_count("offset second", fields.offset_second, text)?;
    push_signed("unix second", fields.unix_second, text)?;
    push_signed("unix millisecond", fields.unix_millisecond, text)?;
    push_signed("unix microsecond", fields.unix_microsecond, text)?;
    push_signed("unix nanosecond", fields.unix_nanosecond, text)
}
