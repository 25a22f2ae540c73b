//! What texts are read as by descriptions.

use super::answers::Answers;
use super::field_text::fields_text;
use super::values::{Value, moment_or_refused, value_text};
use super::writing::description_of;
use crate::fault::RowFault;
use crate::language::{fault_of, language_of};
use std::alloc::Global;
use timefd_date_moment::fields::{
    Fields, NO_FIELDS, ReadError, fill_leaf_fields, leaves_in_turn, read_fields, read_item_fields,
};
use timefd_parse::{
    BorrowedOutput, DescriptionVersion, Language, StrftimeTables, parse, parse_borrowed,
    parse_strftime_borrowed,
};

/// What is asked about a description and a text.
#[derive(Clone, Copy)]
pub enum ReadingAsk {
    /// `fields LANGUAGE DESCRIPTION TEXT`: each field that the text shows. A description of version 3 that is
    /// only components and literals in a row is also read part by part.
    Fields,
    /// `read-VALUE LANGUAGE DESCRIPTION TEXT`: the value that the text shows, or why it shows none.
    Value(Value),
    /// `read-beside-time LANGUAGE DESCRIPTION TEXT ANSWER`: the moment that the text shows, or `refused`, and
    /// the answer of `time` if it differs.
    BesideTime,
}

impl ReadingAsk {
    /// The ask that the word names.
    pub fn of_word(word: &str) -> Option<ReadingAsk> {
        match word {
            "fields" => Some(ReadingAsk::Fields),
            "read-date" => Some(ReadingAsk::Value(Value::Date)),
            "read-time" => Some(ReadingAsk::Value(Value::Time)),
            "read-offset" => Some(ReadingAsk::Value(Value::Offset)),
            "read-date-time" => Some(ReadingAsk::Value(Value::DateTime)),
            "read-moment" => Some(ReadingAsk::Value(Value::Moment)),
            "read-instant" => Some(ReadingAsk::Value(Value::Instant)),
            "read-beside-time" => Some(ReadingAsk::BesideTime),
            _ => None,
        }
    }

    fn fields(self) -> &'static str {
        match self {
            ReadingAsk::Fields | ReadingAsk::Value(_) => "LANGUAGE DESCRIPTION TEXT",
            ReadingAsk::BesideTime => "LANGUAGE DESCRIPTION TEXT ANSWER",
        }
    }
}

/// The answer to the ask.
pub fn answer(alloc: Global, ask: ReadingAsk, fields: &[&str]) -> Result<String, RowFault> {
    match (ask, fields) {
        (ReadingAsk::Fields, [language, by, text]) => all_fields(alloc, language, by, text),
        (ReadingAsk::Value(value), [language, by, text]) => {
            match read_by(alloc, language_of(language)?, by, text)? {
                Ok(fields) => value_text(alloc, value, &fields),
                Err(error) => fields_text(alloc, Err(error)),
            }
        }
        (ReadingAsk::BesideTime, [language, by, text, theirs]) => {
            let read = read_by(alloc, language_of(language)?, by, text)?;
            beside(alloc, moment_or_refused(alloc, read)?, "time", theirs)
        }
        _ => Err(RowFault::Fields(ask.fields())),
    }
}

/// An answer, with the answer of another program after it if that differs.
pub fn beside(
    alloc: Global,
    ours: String,
    program: &str,
    theirs: &str,
) -> Result<String, RowFault> {
    if ours.as_str() == theirs {
        Ok(ours)
    } else {
        Ok(format!(in alloc; "{ours}, {program}: {theirs}")?)
    }
}

/// The fields that a text shows, or what doesn't read.
pub fn read_by(
    alloc: Global,
    language: Language,
    by: &str,
    text: &str,
) -> Result<Result<Fields, ReadError>, RowFault> {
    match language {
        Language::Version(DescriptionVersion::One) => match parse(alloc, by) {
            Ok(items) => Ok(read_item_fields(&items, text)),
            Err(error) => Err(fault_of(error)),
        },
        Language::Version(version) => match parse_borrowed(alloc, version, by) {
            Ok(BorrowedOutput::Items(items)) => Ok(read_item_fields(&items, text)),
            Ok(BorrowedOutput::Description(description)) => {
                Ok(read_fields(description.view(), text))
            }
            Err(error) => Err(fault_of(error)),
        },
        Language::Strftime => {
            let tables = StrftimeTables::new();
            match parse_strftime_borrowed(alloc, &tables, by) {
                Ok(items) => Ok(read_item_fields(&items, text)),
                Err(error) => Err(fault_of(error)),
            }
        }
    }
}

fn all_fields(alloc: Global, word: &str, by: &str, text: &str) -> Result<String, RowFault> {
    let mut answers = Answers::new(alloc);
    let language = language_of(word)?;
    answers.push(
        word,
        fields_text(alloc, read_by(alloc, language, by, text)?)?,
    )?;
    if language == Language::Version(DescriptionVersion::Three) {
        add_by_leaves(alloc, by, text, &mut answers)?;
    }
    answers.agreed()
}

/// Reads the text component by component and literal by literal, if the description is nothing else.
fn add_by_leaves(
    alloc: Global,
    by: &str,
    text: &str,
    answers: &mut Answers,
) -> Result<(), RowFault> {
    let description = description_of(alloc, by)?;
    let Some(leaves) = leaves_in_turn(alloc, description.view())? else {
        return Ok(());
    };
    let mut fields = NO_FIELDS;
    let answer = match fill_leaf_fields(&leaves, text, &mut fields) {
        Ok(()) => Ok(fields),
        Err(error) => Err(error),
    };
    answers.push("in turn", fields_text(alloc, answer)?)
}
