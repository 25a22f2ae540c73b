//! What the calendar says about dates, what is out of range, and how dates, times of day, offsets and
//! weekdays are printed.

use super::moments::{
    TimeNumbers, date_numbers, date_of, offset_of, offset_seconds, time_numbers, time_of,
};
use crate::fault::RowFault;
use std::alloc::Global;
use std::fmt::Display;
use timefd_date_moment::{ComponentRange, Date, Time, UtcOffset, Weekday};

/// What is asked about numbers.
#[derive(Clone, Copy)]
pub enum CalendarAsk {
    /// `calendar DATE`: its position in the year, in the week, and the number of its week.
    Positions,
    /// `date-fault DATE`: which number is out of range.
    DateFault,
    /// `time-fault TIME`: which number of a time of day is out of range.
    TimeFault,
    /// `offset-fault SECONDS`: whether an offset is out of range.
    OffsetFault,
    /// `date-sentence DATE`: the sentence about the number that is out of range.
    DateSentence,
    /// `date DATE`, as it is printed.
    Date,
    /// `time TIME`, as it is printed.
    Time,
    /// `offset SECONDS`, as it is printed.
    Offset,
    /// `weekday NAME`, as it is printed, its number in the week from Monday and from Sunday, and the days
    /// before and after it.
    Weekday,
}

impl CalendarAsk {
    /// The ask that the word names.
    pub fn of_word(word: &str) -> Option<CalendarAsk> {
        match word {
            "calendar" => Some(CalendarAsk::Positions),
            "date-fault" => Some(CalendarAsk::DateFault),
            "time-fault" => Some(CalendarAsk::TimeFault),
            "offset-fault" => Some(CalendarAsk::OffsetFault),
            "date-sentence" => Some(CalendarAsk::DateSentence),
            "date" => Some(CalendarAsk::Date),
            "time" => Some(CalendarAsk::Time),
            "offset" => Some(CalendarAsk::Offset),
            "weekday" => Some(CalendarAsk::Weekday),
            _ => None,
        }
    }

    fn fields(self) -> &'static str {
        match self {
            CalendarAsk::Positions
            | CalendarAsk::DateFault
            | CalendarAsk::DateSentence
            | CalendarAsk::Date => "DATE",
            CalendarAsk::TimeFault | CalendarAsk::Time => "TIME",
            CalendarAsk::OffsetFault | CalendarAsk::Offset => "SECONDS",
            CalendarAsk::Weekday => "NAME",
        }
    }
}

/// The answer to the ask.
pub fn answer(alloc: Global, ask: CalendarAsk, fields: &[&str]) -> Result<String, RowFault> {
    let [field] = fields else {
        return Err(RowFault::Fields(ask.fields()));
    };
    match ask {
        CalendarAsk::Positions => positions(alloc, field),
        CalendarAsk::DateFault => name_of(alloc, date_fault(alloc, field)),
        CalendarAsk::TimeFault => name_of(alloc, time_fault(alloc, field)),
        CalendarAsk::OffsetFault => name_of(alloc, offset_fault(field)),
        CalendarAsk::DateSentence => sentence_of(alloc, date_fault(alloc, field)),
        CalendarAsk::Date => printed(alloc, date_of(alloc, field)),
        CalendarAsk::Time => printed(alloc, time_of(alloc, field)),
        CalendarAsk::Offset => printed(alloc, offset_of(field)),
        CalendarAsk::Weekday => weekday_text(alloc, field),
    }
}

/// The value of a field, as it is printed.
pub fn printed<V: Display + Drop>(
    alloc: Global,
    read: Result<V, RowFault>,
) -> Result<String, RowFault> {
    match read {
        Ok(value) => Ok(value.to_string(alloc)?),
        Err(fault) => Err(fault),
    }
}

/// The position of a date in its year and in its week, and the number of its week in the year of ISO 8601 and
/// in years whose weeks begin on Sunday or Monday.
fn positions(alloc: Global, field: &str) -> Result<String, RowFault> {
    let date = date_of(alloc, field)?;
    let mut text = String::new(alloc);
    write!(text, "day {} of {}; ", date.ordinal(), date.year())?;
    write!(text, "{}, ", date.weekday())?;
    write!(text, "{} after Monday, ", date.number_days_from_monday())?;
    write!(text, "{} after Sunday; ", date.number_days_from_sunday())?;
    let iso_year = i64::from(date.iso_years()) - 1_000_000;
    write!(text, "week {} of {iso_year}, ", date.iso_week())?;
    write!(text, "{} from Sunday, ", date.sunday_based_week())?;
    write!(text, "{} from Monday", date.monday_based_week())?;
    Ok(text)
}

fn date_fault(alloc: Global, field: &str) -> Result<Option<ComponentRange>, RowFault> {
    let numbers = date_numbers(alloc, field)?;
    Ok(Date::from_calendar_date(numbers.year, numbers.month, numbers.day).err())
}

fn time_fault(alloc: Global, field: &str) -> Result<Option<ComponentRange>, RowFault> {
    let TimeNumbers {
        hour,
        minute,
        second,
        nanosecond,
    } = time_numbers(alloc, field)?;
    Ok(Time::from_hms_nano(hour, minute, second, nanosecond).err())
}

fn offset_fault(field: &str) -> Result<Option<ComponentRange>, RowFault> {
    Ok(UtcOffset::from_whole_seconds(offset_seconds(field)?).err())
}

/// The name of what is out of range.
fn name_of(
    alloc: Global,
    fault: Result<Option<ComponentRange>, RowFault>,
) -> Result<String, RowFault> {
    match fault? {
        Some(fault) => Ok(format!(in alloc; "{fault:?}")?),
        None => Ok(String::from_str(alloc, "none")?),
    }
}

/// The sentence about what is out of range.
fn sentence_of(
    alloc: Global,
    fault: Result<Option<ComponentRange>, RowFault>,
) -> Result<String, RowFault> {
    match fault? {
        Some(fault) => Ok(format!(in alloc; "{fault}")?),
        None => Ok(String::from_str(alloc, "none")?),
    }
}

fn weekday_of(name: &str) -> Result<Weekday, RowFault> {
    match name {
        "Monday" => Ok(Weekday::Monday),
        "Tuesday" => Ok(Weekday::Tuesday),
        "Wednesday" => Ok(Weekday::Wednesday),
        "Thursday" => Ok(Weekday::Thursday),
        "Friday" => Ok(Weekday::Friday),
        "Saturday" => Ok(Weekday::Saturday),
        "Sunday" => Ok(Weekday::Sunday),
        _ => Err(RowFault::Field("the name of a weekday")),
    }
}

fn weekday_text(alloc: Global, name: &str) -> Result<String, RowFault> {
    let weekday = weekday_of(name)?;
    let mut text = String::new(alloc);
    write!(
        text,
        "{weekday}, {} from Monday, ",
        weekday.number_from_monday()
    )?;
    write!(text, "{} from Sunday, ", weekday.number_from_sunday())?;
    write!(
        text,
        "after {}, before {}",
        weekday.previous(),
        weekday.next()
    )?;
    Ok(text)
}
