//! What a text becomes in another language, and in its normal form.

mod alike;

use crate::agreed::agreed;
use crate::fault::RowFault;
use crate::fields::{one, three, two};
use crate::language::language_of;
use crate::trees::reading::{described, sentence};
use std::alloc::Global;
use timefd_lang_convert::printing::{PrintError, print_v3};
use timefd_lang_convert::{ConvertError, convert, strftime_to_v3};
use timefd_lift::{v1_to_v2, v2_to_v3};
use timefd_parse::{BorrowedParseError, ParseError};

/// What is asked about a text. If the text is refused, the answer is the fault's sentence.
#[derive(Clone, Copy)]
pub enum RewriteAsk {
    /// `normal TEXT`: the text of version 3 in its normal form. The normal form of that is itself.
    Normal,
    /// `v1_to_v2 TEXT`: what this call returns.
    OneToTwo,
    /// `v2_to_v3 TEXT`: what this call returns.
    TwoToThree,
    /// `strftime_to_v3 TEXT`: what this call returns.
    StrftimeToThree,
    /// `convert FROM TO TEXT`: what this call returns between two languages.
    Convert,
    /// `reads_alike FROM TEXT`: whether the next version reads the output of `v1_to_v2` or `v2_to_v3` as this
    /// version reads the text.
    ReadsAlike,
}

impl RewriteAsk {
    /// The ask that the word names.
    pub fn of_word(word: &str) -> Option<RewriteAsk> {
        match word {
            "normal" => Some(RewriteAsk::Normal),
            "v1_to_v2" => Some(RewriteAsk::OneToTwo),
            "v2_to_v3" => Some(RewriteAsk::TwoToThree),
            "strftime_to_v3" => Some(RewriteAsk::StrftimeToThree),
            "convert" => Some(RewriteAsk::Convert),
            "reads_alike" => Some(RewriteAsk::ReadsAlike),
            _ => None,
        }
    }
}

/// The answer to the ask.
pub fn answer(alloc: Global, ask: RewriteAsk, fields: &[&str]) -> Result<String, RowFault> {
    match ask {
        RewriteAsk::Normal => normal(alloc, one(fields, "TEXT")?),
        RewriteAsk::OneToTwo => text_or_fault(alloc, v1_to_v2(alloc, one(fields, "TEXT")?)),
        RewriteAsk::TwoToThree => text_or_fault(
            alloc,
            owned(alloc, v2_to_v3(alloc, one(fields, "TEXT")?)),
        ),
        RewriteAsk::StrftimeToThree => {
            text_or_fault(
                alloc,
                owned(alloc, strftime_to_v3(alloc, one(fields, "TEXT")?)),
            )
        }
        RewriteAsk::Convert => {
            let (from, to, text) = three(fields, "FROM TO TEXT")?;
            converted(alloc, from, to, text)
        }
        RewriteAsk::ReadsAlike => {
            let (from, text) = two(fields, "FROM TEXT")?;
            alike::reads_alike(alloc, from, text)
        }
    }
}

/// The text, or the error with a copy of what its fault quotes.
pub fn owned(
    alloc: Global,
    text: Result<String, BorrowedParseError<'_>>,
) -> Result<String, ParseError> {
    match text {
        Ok(text) => Ok(text),
        Err(error) => Err(error.into_owned(alloc)),
    }
}

fn text_or_fault(alloc: Global, text: Result<String, ParseError>) -> Result<String, RowFault> {
    match text {
        Ok(text) => Ok(text),
        Err(error) => sentence(alloc, error),
    }
}

fn converted(alloc: Global, from: &str, to: &str, text: &str) -> Result<String, RowFault> {
    match convert(alloc, language_of(from)?, language_of(to)?, text) {
        Ok(text) => Ok(text),
        Err(ConvertError::Unsupported) => Ok(String::from_str(alloc, "unsupported")?),
        Err(ConvertError::Unconverted(error)) => sentence(alloc, error),
    }
}

fn normal(alloc: Global, text: &str) -> Result<String, RowFault> {
    let once = printed(alloc, text)?;
    let twice = printed(alloc, &once)?;
    agreed(alloc, once, &twice)
}

fn printed(alloc: Global, text: &str) -> Result<String, RowFault> {
    match print_v3(alloc, described(alloc, text)?.view()) {
        Ok(text) => Ok(text),
        Err(PrintError::Unspelled(reason)) => Ok(format!(in alloc; "{reason:?}")?),
        Err(PrintError::Memory(_)) => Err(RowFault::Memory),
    }
}
