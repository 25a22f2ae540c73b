//! What is written and read by letters of strftime, next to what `jiff_strtime` writes and reads.

use super::jiff::{date_by_jiff, offset_by_jiff, time_by_jiff, written_by_jiff};
use super::moments::{EARLY, LATE, MomentFields, moment_of};
use super::reading::{beside, read_by};
use super::values::shown_or_refused;
use crate::fault::RowFault;
use crate::language::fault_of;
use std::alloc::Global;
use timefd_date_format::format_items;
use timefd_date_moment::Moment;
use timefd_date_moment::fields::Fields;
use timefd_date_moment::reading::{date, offset, time};
use timefd_items::BorrowedFormatItem;
use timefd_parse::{Language, StrftimeTables, parse_strftime_borrowed};

/// What is asked of both.
#[derive(Clone, Copy)]
pub enum JiffAsk {
    /// `written-beside-jiff DESCRIPTION DATE TIME OFFSET`: what is written here, and what `jiff_strtime`
    /// writes if that differs.
    Written,
    /// `written-beside-jiff-at-each DESCRIPTION`: `same` if both write the same text for each moment of a
    /// list, otherwise both texts for the first moment where they differ.
    AtEach,
    /// `written-beside-jiff-late DESCRIPTION`: what `written-beside-jiff-at-each` answers for only the
    /// moments of the years 1 to 9999.
    Late,
    /// `date-beside-jiff DESCRIPTION TEXT`: the date that is read here, or `refused`, and what `jiff_strtime`
    /// reads if that differs.
    Date,
    /// `time-beside-jiff DESCRIPTION TEXT`: the time of day, in the same way.
    Time,
    /// `offset-beside-jiff DESCRIPTION TEXT`: the offset, in the same way.
    Offset,
}

impl JiffAsk {
    /// The ask that the word names.
    pub fn of_word(word: &str) -> Option<JiffAsk> {
        match word {
            "written-beside-jiff" => Some(JiffAsk::Written),
            "written-beside-jiff-at-each" => Some(JiffAsk::AtEach),
            "written-beside-jiff-late" => Some(JiffAsk::Late),
            "date-beside-jiff" => Some(JiffAsk::Date),
            "time-beside-jiff" => Some(JiffAsk::Time),
            "offset-beside-jiff" => Some(JiffAsk::Offset),
            _ => None,
        }
    }

    fn fields(self) -> &'static str {
        match self {
            JiffAsk::Written => "DESCRIPTION DATE TIME OFFSET",
            JiffAsk::AtEach | JiffAsk::Late => "DESCRIPTION",
            JiffAsk::Date | JiffAsk::Time | JiffAsk::Offset => "DESCRIPTION TEXT",
        }
    }
}

/// The answer to the ask.
pub fn answer(alloc: Global, ask: JiffAsk, fields: &[&str]) -> Result<String, RowFault> {
    match (ask, fields) {
        (JiffAsk::Written, [by, date, time, offset]) => {
            written(alloc, by, moment_of(alloc, date, time, offset)?)
        }
        (JiffAsk::AtEach, [by]) => match first_difference(alloc, by, LATE)? {
            Some(difference) => Ok(difference),
            None => same_or(alloc, first_difference(alloc, by, EARLY)?),
        },
        (JiffAsk::Late, [by]) => same_or(alloc, first_difference(alloc, by, LATE)?),
        (JiffAsk::Date, [by, text]) => date_beside(alloc, by, text),
        (JiffAsk::Time, [by, text]) => time_beside(alloc, by, text),
        (JiffAsk::Offset, [by, text]) => offset_beside(alloc, by, text),
        _ => Err(RowFault::Fields(ask.fields())),
    }
}

fn same_or(alloc: Global, difference: Option<String>) -> Result<String, RowFault> {
    match difference {
        Some(difference) => Ok(difference),
        None => Ok(String::from_str(alloc, "same")?),
    }
}

/// What is written here by a text of strftime.
fn written_here(alloc: Global, by: &str, moment: Moment) -> Result<String, RowFault> {
    let tables = StrftimeTables::new();
    match parse_strftime_borrowed(alloc, &tables, by) {
        Ok(items) => written_by_items(alloc, &items, moment),
        Err(error) => Err(fault_of(error)),
    }
}

fn written_by_items(
    alloc: Global,
    items: &[BorrowedFormatItem<'_>],
    moment: Moment,
) -> Result<String, RowFault> {
    match format_items(alloc, moment, items) {
        Ok(bytes) => match String::from_utf8(bytes) {
            Ok(text) => Ok(text),
            Err(_) => Err(RowFault::Field("a description that writes a text")),
        },
        Err(error) => Ok(error.to_string(alloc)?),
    }
}

fn written(alloc: Global, by: &str, moment: Moment) -> Result<String, RowFault> {
    let theirs = written_by_jiff(alloc, moment, by)?;
    beside(alloc, written_here(alloc, by, moment)?, "jiff", &theirs)
}

/// What both write for the first of these moments where they differ.
fn first_difference(
    alloc: Global,
    by: &str,
    moments: &[MomentFields],
) -> Result<Option<String>, RowFault> {
    for (date, time, offset) in moments {
        let moment = moment_of(alloc, date, time, offset)?;
        let ours = written_here(alloc, by, moment)?;
        let theirs = written_by_jiff(alloc, moment, by)?;
        if ours != theirs {
            return Ok(Some(format!(in alloc; "{date} {time}: {ours}, jiff: {theirs}")?));
        }
    }
    Ok(None)
}

/// The fields that a text shows by a text of strftime.
fn fields_here(alloc: Global, by: &str, text: &str) -> Result<Option<Fields>, RowFault> {
    Ok(read_by(alloc, Language::Strftime, by, text)?.ok())
}

fn date_beside(alloc: Global, by: &str, text: &str) -> Result<String, RowFault> {
    let ours = match fields_here(alloc, by, text)? {
        Some(fields) => date(&fields).ok(),
        None => None,
    };
    let theirs = shown_or_refused(alloc, date_by_jiff(by, text))?;
    beside(alloc, shown_or_refused(alloc, ours)?, "jiff", &theirs)
}

fn time_beside(alloc: Global, by: &str, text: &str) -> Result<String, RowFault> {
    let ours = match fields_here(alloc, by, text)? {
        Some(fields) => time(&fields).ok(),
        None => None,
    };
    let theirs = shown_or_refused(alloc, time_by_jiff(by, text))?;
    beside(alloc, shown_or_refused(alloc, ours)?, "jiff", &theirs)
}

fn offset_beside(alloc: Global, by: &str, text: &str) -> Result<String, RowFault> {
    let ours = match fields_here(alloc, by, text)? {
        Some(fields) => offset(&fields).ok(),
        None => None,
    };
    let theirs = shown_or_refused(alloc, offset_by_jiff(by, text))?;
    beside(alloc, shown_or_refused(alloc, ours)?, "jiff", &theirs)
}
