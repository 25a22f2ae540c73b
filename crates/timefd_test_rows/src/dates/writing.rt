//! What descriptions and components write for moments.

use super::answers::Answers;
use super::moments::{EACH, moment_of};
use crate::component::component_alone;
use crate::fault::RowFault;
use crate::language::{fault_of, language_of};
use std::alloc::Global;
use timefd_date_format::{
    FormatError, Lack, Unshown, format, write_component, write_description, write_items,
};
use timefd_date_moment::Moment;
use timefd_lang_component::Component;
use timefd_parse::{
    BorrowedOutput, DescriptionVersion, FormatDescriptionV3, Language, StrftimeTables, parse,
    parse_borrowed, parse_strftime_borrowed,
};

/// What is asked about a description.
#[derive(Clone, Copy)]
pub enum WritingAsk {
    /// `written LANGUAGE DESCRIPTION DATE TIME OFFSET`: what it writes for the moment, or why it writes
    /// nothing.
    Written,
    /// `written-at-each LANGUAGES DESCRIPTION`: what it writes for each moment of a list.
    AtEach,
    /// `written-within BYTES LANGUAGE DESCRIPTION DATE TIME OFFSET`: what it writes into a buffer of this
    /// many bytes, or which component shows nothing, and why.
    Within,
    /// `written-component BYTES DESCRIPTION DATE TIME OFFSET`: what its one component writes by itself into a
    /// buffer of this many bytes.
    Component,
    /// `written-in-memory DESCRIPTION DATE TIME OFFSET`: what a description of version 3 writes into a new
    /// string.
    InMemory,
}

impl WritingAsk {
    /// The ask that the word names.
    pub fn of_word(word: &str) -> Option<WritingAsk> {
        match word {
            "written" => Some(WritingAsk::Written),
            "written-at-each" => Some(WritingAsk::AtEach),
            "written-within" => Some(WritingAsk::Within),
            "written-component" => Some(WritingAsk::Component),
            "written-in-memory" => Some(WritingAsk::InMemory),
            _ => None,
        }
    }

    fn fields(self) -> &'static str {
        match self {
            WritingAsk::Written => "LANGUAGE DESCRIPTION DATE TIME OFFSET",
            WritingAsk::AtEach => "LANGUAGES DESCRIPTION",
            WritingAsk::Within => "BYTES LANGUAGE DESCRIPTION DATE TIME OFFSET",
            WritingAsk::Component => "BYTES DESCRIPTION DATE TIME OFFSET",
            WritingAsk::InMemory => "DESCRIPTION DATE TIME OFFSET",
        }
    }
}

/// The answer to the ask.
pub fn answer(alloc: Global, ask: WritingAsk, fields: &[&str]) -> Result<String, RowFault> {
    match (ask, fields) {
        (WritingAsk::Written, [language, by, date, time, offset]) => {
            let moment = moment_of(alloc, date, time, offset)?;
            written(alloc, language_of(language)?, by, moment)
        }
        (WritingAsk::AtEach, [languages, by]) => written_at_each(alloc, languages, by),
        (WritingAsk::Within, [bytes, language, by, date, time, offset]) => {
            let moment = moment_of(alloc, date, time, offset)?;
            written_within(alloc, bytes, language_of(language)?, by, moment)
        }
        (WritingAsk::Component, [bytes, by, date, time, offset]) => {
            let moment = moment_of(alloc, date, time, offset)?;
            written_component(alloc, bytes, by, moment)
        }
        (WritingAsk::InMemory, [by, date, time, offset]) => {
            written_in_memory(alloc, by, moment_of(alloc, date, time, offset)?)
        }
        _ => Err(RowFault::Fields(ask.fields())),
    }
}

/// Why a component shows nothing, in short.
fn lack_text(lack: Lack) -> &'static str {
    match lack {
        Lack::NoDate => "no date",
        Lack::NoTime => "no time",
        Lack::NoOffset => "no offset",
        Lack::YearTooLong => "too long",
        Lack::InstantOutOfRange => "out of range",
    }
}

const ROOM: usize = 64;

/// A buffer whose bytes show where nothing was written.
fn buffer(alloc: Global, bytes: usize) -> Result<Vec<u8>, RowFault> {
    Ok(vec![in alloc; b'#'; bytes]?)
}

/// The text at the end of a buffer. What is in front of it has to be untouched.
fn text_from(alloc: Global, buffer: &[u8], at: usize) -> Result<String, RowFault> {
    let (Some(front), Some(text)) = (buffer.get(..at), buffer.get(at..)) else {
        return Ok(format!(in alloc; "begins at byte {at} of {}", buffer.len())?);
    };
    if front.iter().any(|byte| *byte != b'#') {
        return Ok(format!(in alloc; "touched what is in front of byte {at}")?);
    }
    match std::str::from_utf8(text) {
        Ok(text) => Ok(String::from_str(alloc, text)?),
        Err(_) => Ok(format!(in alloc; "no text: {text:?}")?),
    }
}

/// Writes the moment by a description into the end of the buffer.
fn write_by(
    alloc: Global,
    language: Language,
    by: &str,
    moment: Moment,
    buffer: &mut [u8],
) -> Result<Result<usize, FormatError>, RowFault> {
    match language {
        Language::Version(DescriptionVersion::One) => match parse(alloc, by) {
            Ok(items) => Ok(write_items(moment, &items, buffer)),
            Err(error) => Err(fault_of(error)),
        },
        Language::Version(version) => match parse_borrowed(alloc, version, by) {
            Ok(BorrowedOutput::Items(items)) => Ok(write_items(moment, &items, buffer)),
            Ok(BorrowedOutput::Description(description)) => {
                Ok(write_description(moment, description.view(), buffer))
            }
            Err(error) => Err(fault_of(error)),
        },
        Language::Strftime => {
            let tables = StrftimeTables::new();
            match parse_strftime_borrowed(alloc, &tables, by) {
                Ok(items) => Ok(write_items(moment, &items, buffer)),
                Err(error) => Err(fault_of(error)),
            }
        }
    }
}

fn written(
    alloc: Global,
    language: Language,
    by: &str,
    moment: Moment,
) -> Result<String, RowFault> {
    let mut buffer = buffer(alloc, ROOM)?;
    match write_by(alloc, language, by, moment, &mut buffer)? {
        Ok(at) => text_from(alloc, &buffer, at),
        Err(FormatError::Unshown(unshown)) => Ok(String::from_str(alloc, lack_text(unshown.lack))?),
        Err(FormatError::Room) => Ok(String::from_str(alloc, "no room")?),
    }
}

/// What is written for each moment, with a bar between two.
fn cells(alloc: Global, language: Language, by: &str) -> Result<String, RowFault> {
    let mut cells = String::new(alloc);
    for (index, (date, time, offset)) in EACH.iter().enumerate() {
        if index > 0 {
            cells.push_str("|")?;
        }
        let moment = moment_of(alloc, date, time, offset)?;
        cells.push_str(written(alloc, language, by, moment)?.as_str())?;
    }
    Ok(cells)
}

fn written_at_each(alloc: Global, languages: &str, by: &str) -> Result<String, RowFault> {
    let mut answers = Answers::new(alloc);
    for language in languages.split(',') {
        let cells = cells(alloc, language_of(language)?, by)?;
        answers.push(language, cells)?;
    }
    answers.agreed()
}

/// The number of bytes that a field names.
fn bytes_of(field: &str) -> Result<usize, RowFault> {
    match field.parse::<usize>() {
        Ok(bytes) if bytes <= ROOM => Ok(bytes),
        _ => Err(RowFault::Field("a number of bytes up to 64")),
    }
}

/// The name of the variant in what `Debug` printed.
fn variant_in(printed: &str) -> &str {
    match printed.find('(') {
        Some(end) => printed.get(..end).unwrap_or(printed),
        None => printed,
    }
}

/// The component that shows nothing, by the name of its variant, and why.
fn unshown_text(alloc: Global, unshown: Unshown) -> Result<String, RowFault> {
    let component = unshown.component;
    let printed = format!(in alloc; "{component:?}")?;
    let lack = lack_text(unshown.lack);
    Ok(format!(in alloc; "{}: {lack}", variant_in(printed.as_str()))?)
}

fn written_within(
    alloc: Global,
    bytes: &str,
    language: Language,
    by: &str,
    moment: Moment,
) -> Result<String, RowFault> {
    let mut buffer = buffer(alloc, bytes_of(bytes)?)?;
    match write_by(alloc, language, by, moment, &mut buffer)? {
        Ok(at) => text_from(alloc, &buffer, at),
        Err(FormatError::Unshown(unshown)) => unshown_text(alloc, unshown),
        Err(FormatError::Room) => Ok(String::from_str(alloc, "no room")?),
    }
}

/// The component that a description of version 1 is.
fn component_of(alloc: Global, by: &str) -> Result<Component, RowFault> {
    let items = match parse(alloc, by) {
        Ok(items) => items,
        Err(error) => return Err(fault_of(error)),
    };
    component_alone(&items).ok_or(RowFault::Field("a description of one component"))
}

fn written_component(
    alloc: Global,
    bytes: &str,
    by: &str,
    moment: Moment,
) -> Result<String, RowFault> {
    let mut buffer = buffer(alloc, bytes_of(bytes)?)?;
    match write_component(moment, component_of(alloc, by)?, &mut buffer) {
        Ok(at) => text_from(alloc, &buffer, at),
        Err(FormatError::Unshown(unshown)) => Ok(String::from_str(alloc, lack_text(unshown.lack))?),
        Err(FormatError::Room) => Ok(String::from_str(alloc, "no room")?),
    }
}

/// A description of version 3.
pub fn description_of<'a>(alloc: Global, by: &'a str) -> Result<FormatDescriptionV3<'a>, RowFault> {
    match parse_borrowed(alloc, DescriptionVersion::Three, by) {
        Ok(BorrowedOutput::Description(description)) => Ok(description),
        Ok(BorrowedOutput::Items(_items)) => Err(RowFault::Field("a description of version 3")),
        Err(error) => Err(fault_of(error)),
    }
}

fn written_in_memory(alloc: Global, by: &str, moment: Moment) -> Result<String, RowFault> {
    let description = description_of(alloc, by)?;
    match format(alloc, moment, description.view()) {
        Ok(text) => Ok(text),
        Err(error) => Ok(format!(in alloc; "{error}")?),
    }
}
