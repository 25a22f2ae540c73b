//! The languages that a field names, and why a text of one has no answer.

use crate::fault::RowFault;
use timefd_parse::{DescriptionVersion, Language, ParseError};

/// The version that a field names.
pub fn version_of(field: &str) -> Result<DescriptionVersion, RowFault> {
    match field {
        "1" => Ok(DescriptionVersion::One),
        "2" => Ok(DescriptionVersion::Two),
        "3" => Ok(DescriptionVersion::Three),
        _ => Err(RowFault::Field("a version, 1, 2 or 3")),
    }
}

/// The language that a field names.
pub fn language_of(field: &str) -> Result<Language, RowFault> {
    match field {
        "1" => Ok(Language::Version(DescriptionVersion::One)),
        "2" => Ok(Language::Version(DescriptionVersion::Two)),
        "3" => Ok(Language::Version(DescriptionVersion::Three)),
        "strftime" => Ok(Language::Strftime),
        _ => Err(RowFault::Field("a language: 1, 2, 3 or strftime")),
    }
}

/// Why a refused description has no answer, if only an accepted one has an answer.
pub fn fault_of(error: ParseError) -> RowFault {
    match error {
        ParseError::Invalid(_fault) => RowFault::Field("a description of this language"),
        ParseError::Memory(_) => RowFault::Memory,
    }
}
