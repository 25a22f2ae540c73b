//! The domains of the asks. Each domain has a module with its asks, one for each first word of a row, and
//! their answers.

use crate::dates::{self, DateAsk};
use crate::fault::RowFault;
use crate::rewritten::{self, RewriteAsk};
use crate::sources::{self, SourceAsk};
use crate::trees::{self, TreeAsk};
use crate::warnings::{self, WarningAsk};
use std::alloc::Global;

/// The answer of the domain whose ask the word is.
pub fn answer(alloc: Global, word: &str, fields: &[&str]) -> Result<String, RowFault> {
    if let Some(ask) = TreeAsk::of_word(word) {
        return trees::answer(alloc, ask, fields);
    }
    if let Some(ask) = RewriteAsk::of_word(word) {
        return rewritten::answer(alloc, ask, fields);
    }
    if let Some(ask) = DateAsk::of_word(word) {
        return dates::answer(alloc, ask, fields);
    }
    if let Some(ask) = SourceAsk::of_word(word) {
        return sources::answer(alloc, ask, fields);
    }
    if let Some(ask) = WarningAsk::of_word(word) {
        return warnings::answer(alloc, ask, fields);
    }
    Err(RowFault::NoAsk)
}
