//! What `main` prints about each use.

ghost use Rattle.std.specs.Prelude.{◌≤◌};
ghost use Rattle.timefd_parse.specs.Grammar.{nesting_limit};

use crate::date::Date;
use crate::lint::lint;
use crate::read::{ReadError, read_date};
use crate::upgrade::upgrade;
use crate::write::{day_alone, write_date, write_date_in, write_date_over};
use std::alloc::Global;
use std::io;
use timefd_description::{
    BorrowedParseError, Description, DescriptionVersion, FormatTextError, Language, Moment,
    TextError, format_text, format_text_within,
};
use timefd_parse::{BorrowedOutput, FormatDescriptionV3, ParseError, parse, parse_borrowed};

/// The seventh of March 2026, a Saturday, written by texts of version 3 and of strftime, and by a
/// description.
pub fn written(rt: &impl Print, alloc: Global) -> io::Result<()> {
    let Ok(date) = timefd_description::Date::from_calendar_date(2026, 3, 7) else {
        return Ok(());
    };
    for text in [
        "[year]-[month]-[day]",
        "[day padding:none]. [month padding:none]. [year sign:mandatory]",
        "[optional format:false [on ]][first [[day]] [[month]]]",
        "[weekday]",
        "[hour]",
    ] {
        let language = Language::Version(DescriptionVersion::Three);
        print_written(rt, alloc, language, text, day_alone(date))?;
    }
    for text in ["%d/%m/%Y", "%F%n", "%A"] {
        print_written(rt, alloc, Language::Strftime, text, day_alone(date))?;
    }
    print_within(rt, alloc, 1, "[optional [[day]]]", day_alone(date))?;
    print_within(rt, alloc, 0, "[optional [[day]]]", day_alone(date))?;
    described(rt, alloc, date, "[weekday repr:short] [day padding:none]")?;
    for text in [
        "%d/%m/%Y",
        "%u%u%u%u%u%u%u%u%u%u%u%u%u%u%u%u%u%u%u%u%u%u%u%u%u%u",
        "%A, %d %B %Y, %F",
        "%d/%m, %H",
        "%A%",
    ] {
        opened(rt, alloc, date, text)?;
    }
    Ok(())
}

fn print_written(
    rt: &impl Print,
    alloc: Global,
    language: Language,
    text: &str,
    moment: Moment,
) -> io::Result<()> {
    match format_text(alloc, language, text, moment) {
        Ok(shown) => println!(rt;
            "{text} writes {:?}",
            str::from_utf8(&shown).unwrap_or("no text")
        ),
        Err(FormatTextError::Fault(_)) => println!(rt; "{text} is no description"),
        Err(FormatTextError::Unshown(unshown)) => println!(rt; "{text}: {unshown}"),
        Err(FormatTextError::Memory(error)) => Err(io::Error::from(error)),
    }
}

/// Writes by a text that may nest so many descriptions around one another.
fn print_within(
    rt: &impl Print,
    alloc: Global,
    limit: u8,
    text: &str,
    moment: Moment,
) -> io::Result<()>
    requires { limit ≤ nesting_limit }
{
    let language = Language::Version(DescriptionVersion::Three);
    match format_text_within(alloc, language, limit, text, moment) {
        Ok(shown) => println!(rt;
            "{text} within {limit} writes {:?}",
            str::from_utf8(&shown).unwrap_or("no text")
        ),
        Err(FormatTextError::Fault(_)) => println!(rt; "{text} within {limit} is no description"),
        Err(FormatTextError::Unshown(unshown)) => println!(rt; "{text}: {unshown}"),
        Err(FormatTextError::Memory(error)) => Err(io::Error::from(error)),
    }
}

/// Writes the date by a description that is read once: into a new string, and into a buffer.
fn described(
    rt: &impl Print,
    alloc: Global,
    date: timefd_date_moment::Date,
    text: &str,
) -> io::Result<()> {
    match parse_borrowed(alloc, DescriptionVersion::Three, text) {
        Ok(BorrowedOutput::Description(description)) => {
            print_description(rt, alloc, date, &description)
        }
        Ok(BorrowedOutput::Items(_)) | Err(ParseError::Invalid(_)) => {
            println!(rt; "{text} is no description of version 3")
        }
        Err(ParseError::Memory(error)) => Err(io::Error::from(error)),
    }
}

fn print_description(
    rt: &impl Print,
    alloc: Global,
    date: timefd_date_moment::Date,
    description: &FormatDescriptionV3<'_>,
) -> io::Result<()> {
    match write_date(alloc, date, description) {
        Ok(text) => println!(rt; "a description writes {text:?}")?,
        Err(TextError::Unshown(unshown)) => println!(rt; "{unshown}")?,
        Err(TextError::Memory(error)) => return Err(io::Error::from(error)),
    }
    let mut buffer = [b'.'; 16];
    match write_date_in(date, description, &mut buffer) {
        Ok(_) => println!(rt;
            "in a buffer {:?}",
            str::from_utf8(&buffer).unwrap_or("no text")
        ),
        Err(error) => println!(rt; "{error}"),
    }
}

/// Writes the date over the front of a buffer, by a text of strftime that is opened once.
fn opened(
    rt: &impl Print,
    alloc: Global,
    date: timefd_date_moment::Date,
    text: &str,
) -> io::Result<()> {
    match Description::parse(alloc, Language::Strftime, text) {
        Ok(description) => print_opened(rt, date, text, &description),
        Err(BorrowedParseError::Invalid(_)) => println!(rt; "{text} can't be opened"),
        Err(BorrowedParseError::Memory(error)) => Err(io::Error::from(error)),
    }
}

fn print_opened(
    rt: &impl Print,
    date: timefd_date_moment::Date,
    text: &str,
    description: &Description<'_>,
) -> io::Result<()> {
    let mut buffer = [b'.'; 32];
    match write_date_over(date, description, &mut buffer) {
        Ok(len) => println!(rt;
            "{text} over a buffer, {len} bytes: {:?}",
            str::from_utf8(&buffer).unwrap_or("no text")
        ),
        Err(error) => println!(rt;
            "{text} over a buffer: {error}: {:?}",
            str::from_utf8(&buffer).unwrap_or("no text")
        ),
    }
}

/// Reads dates by the items of descriptions of version 1.
pub fn read(rt: &impl Print, alloc: Global) -> io::Result<()> {
    for (text, input) in [
        ("[day].[month].[year]", "07.03.2026"),
        ("[[[day]] [month] [year]", "[07] 03 2026"),
        ("[day].[month].[year]", "07.03.2026 "),
        ("[day].[month].[year]", "32.03.2026"),
        ("[day].[month]", "07.03"),
        ("[day].[month repr:long]", "07.March"),
    ] {
        match parse(alloc, text) {
            Ok(items) => print_read(rt, text, input, read_date(&items, input))?,
            Err(_) => println!(rt; "{text} is no description")?,
        }
    }
    Ok(())
}

fn print_read(
    rt: &impl Print,
    text: &str,
    input: &str,
    answer: Result<Date, ReadError>,
) -> io::Result<()> {
    match answer {
        Ok(Date { year, month, day }) => {
            println!(rt; "{text} reads {input:?} as {year} {month} {day}")
        }
        Err(error) => println!(rt; "{text} reads {input:?} as {error:?}"),
    }
}

/// Checks a text with a fault in its second line, and a text with a fault at its start.
pub fn found(rt: &impl Print, alloc: Global) -> io::Result<()> {
    for text in ["[day]\nd\u{e9}b. [mnth], [year]\n", "[day"] {
        match lint(alloc, DescriptionVersion::Three, "formats", text)? {
            Some(message) => print!(rt; "{message}")?,
            None => println!(rt; "nothing found")?,
        }
    }
    Ok(())
}

/// Rewrites texts of version 1 as texts of version 2.
pub fn upgraded(rt: &impl Print, alloc: Global) -> io::Result<()> {
    for stored in ["[[[day]] \\ [month]", "[foo]"] {
        match upgrade(alloc, stored) {
            Ok(upgraded) => {
                let text = upgraded.text;
                let count = upgraded.count;
                println!(rt; "{stored} is {text} with {count} items in version 2")?
            }
            Err(ParseError::Invalid(fault)) => println!(rt; "{stored}: {fault}")?,
            Err(ParseError::Memory(error)) => return Err(io::Error::from(error)),
        }
    }
    Ok(())
}
