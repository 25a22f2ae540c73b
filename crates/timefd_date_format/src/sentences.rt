//! How the errors are displayed.

ghost use Rattle.std.specs.Prelude.{Some};
ghost use Rattle.timefd_date_format.specs.Sentences as spec;

use crate::field::{Lack, Unshown};
use crate::naming::component_name;
use crate::output::OutputError;
use crate::text::TextError;
use crate::write::FormatError;
use std::error::Error;
use std::fmt;

impl fmt::Display for Lack {
    ghost output = { λ lack. Some (spec.reason lack) };

    fn fmt<W: fmt::Write>(&self, f: &mut fmt::Formatter<W>) -> fmt::Result {
        match self {
            Lack::NoDate => write!(f, "the value has no date"),
            Lack::NoTime => write!(f, "the value has no time of day"),
            Lack::NoOffset => write!(f, "the value has no offset from UTC"),
            Lack::YearTooLong => write!(f, "the year has too many digits"),
            Lack::InstantOutOfRange => {
                write!(f, "the instant is in no year from -999999 to 999999 of UTC")
            }
        }
    }
}

impl fmt::Display for Unshown {
    ghost output = { λ unshown. Some (spec.unshown_sentence unshown) };

    fn fmt<W: fmt::Write>(&self, f: &mut fmt::Formatter<W>) -> fmt::Result {
        let name = component_name(self.component);
        write!(f, "the component `{name}` shows nothing: {}", self.lack)
    }
}

impl Error for Unshown {}

impl fmt::Display for FormatError {
    ghost output = { λ error. Some (spec.format_sentence error) };

    fn fmt<W: fmt::Write>(&self, f: &mut fmt::Formatter<W>) -> fmt::Result {
        match self {
            FormatError::Unshown(unshown) => write!(f, "{unshown}"),
            FormatError::Room => write!(f, "the buffer has no room for the text"),
        }
    }
}

impl Error for FormatError {}

impl fmt::Display for TextError {
    ghost output = { λ error. Some (spec.text_sentence error) };

    fn fmt<W: fmt::Write>(&self, f: &mut fmt::Formatter<W>) -> fmt::Result {
        match self {
            TextError::Unshown(unshown) => write!(f, "{unshown}"),
            TextError::Memory(_) => write!(f, "memory ran out"),
        }
    }
}

impl Error for TextError {}

impl fmt::Display for OutputError {
    ghost output = { λ error. spec.output_sentence error };

    fn fmt<W: fmt::Write>(&self, f: &mut fmt::Formatter<W>) -> fmt::Result {
        match self {
            OutputError::Unshown(unshown) => write!(f, "{unshown}"),
            OutputError::Memory(_) => write!(f, "memory ran out"),
            OutputError::Io(error) => write!(f, "{error}"),
        }
    }
}

impl Error for OutputError {}
