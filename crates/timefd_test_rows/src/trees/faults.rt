//! The fault of a text, as a copy, by its index, and as `Debug` prints it.

use crate::agreed::agreed;
use crate::fault::RowFault;
use crate::language::language_of;
use std::alloc::Global;
use timefd_items::InvalidFormatDescription;
use timefd_parse::{Language, ParseError, StrftimeTables, parse_borrowed, parse_strftime_borrowed};

/// The sentence of the fault and of a copy of it.
pub fn sentence(alloc: Global, language: &str, text: &str) -> Result<String, RowFault> {
    let fault = fault_of(alloc, language, text)?;
    let copy = fault.clone(alloc)?;
    if copy != fault {
        return Ok(format!(in alloc; "a copy that isn't the same: {copy}")?);
    }
    let sentence = format!(in alloc; "{fault}")?;
    agreed(alloc, format!(in alloc; "{copy}")?, &sentence)
}

/// The index of the fault.
pub fn index(alloc: Global, language: &str, text: &str) -> Result<String, RowFault> {
    let index = fault_of(alloc, language, text)?.index();
    Ok(format!(in alloc; "{index}")?)
}

/// The fault as `Debug` prints it.
pub fn debug(alloc: Global, language: &str, text: &str) -> Result<String, RowFault> {
    let fault = fault_of(alloc, language, text)?;
    Ok(format!(in alloc; "{fault:?}")?)
}

/// The fault that the text is refused for.
fn fault_of(
    alloc: Global,
    language: &str,
    text: &str,
) -> Result<InvalidFormatDescription, RowFault> {
    match error_of(alloc, language_of(language)?, text) {
        Some(ParseError::Invalid(fault)) => Ok(fault),
        Some(ParseError::Memory(_)) => Err(RowFault::Memory),
        None => Err(RowFault::Field("a text that is refused")),
    }
}

fn error_of(alloc: Global, language: Language, text: &str) -> Option<ParseError> {
    match language {
        Language::Version(version) => parse_borrowed(alloc, version, text).err(),
        Language::Strftime => {
            let tables = StrftimeTables::new();
            parse_strftime_borrowed(alloc, &tables, text).err()
        }
    }
}
