//! Whether descriptions are settled: whether what they write is read back.

use super::answers::Answers;
use crate::fault::RowFault;
use crate::language::{fault_of, language_of};
use std::alloc::Global;
use timefd_lang_warnings::settled::{are_settled, is_settled};
use timefd_parse::{
    BorrowedOutput, Language, StrftimeTables, parse_borrowed, parse_strftime_borrowed,
};

/// The answer to `settled LANGUAGES DESCRIPTION`.
pub fn answer(alloc: Global, fields: &[&str]) -> Result<String, RowFault> {
    let [languages, by] = fields else {
        return Err(RowFault::Fields("LANGUAGES DESCRIPTION"));
    };
    let mut answers = Answers::new(alloc);
    for language in languages.split(',') {
        let text = match settles(alloc, language_of(language)?, by)? {
            true => "settled",
            false => "not settled",
        };
        answers.push(language, String::from_str(alloc, text)?)?;
    }
    answers.agreed()
}

fn settles(alloc: Global, language: Language, by: &str) -> Result<bool, RowFault> {
    match language {
        Language::Version(version) => match parse_borrowed(alloc, version, by) {
            Ok(BorrowedOutput::Description(description)) => Ok(is_settled(description.view())),
            Ok(BorrowedOutput::Items(items)) => Ok(are_settled(&items)),
            Err(error) => Err(fault_of(error)),
        },
        Language::Strftime => {
            let tables = StrftimeTables::new();
            match parse_strftime_borrowed(alloc, &tables, by) {
                Ok(items) => Ok(are_settled(&items)),
                Err(error) => Err(fault_of(error)),
            }
        }
    }
}
