//! A row and the line that answers it.

use crate::ask;
use crate::fault::RowFault;
use crate::literal::words_of;
use std::alloc::{AllocError, Global};
use timefd_bin_streams::borrowed;

/// The line that answers a row: its answer, or what is wrong with the row. Comments are copied.
pub fn answer(alloc: Global, row: &str) -> Result<String, AllocError> {
    if row.is_empty() || row.starts_with('#') {
        return String::from_str(alloc, row);
    }
    match answer_of_words(alloc, row) {
        Ok(answer) => one_line(alloc, answer),
        Err(RowFault::Memory) => Err(AllocError),
        Err(fault) => format!(in alloc; "error: {fault}"),
    }
}

fn answer_of_words(alloc: Global, row: &str) -> Result<String, RowFault> {
    let words = words_of(alloc, row)?;
    let words = borrowed(alloc, &words)?;
    let [word, fields @ ..] = words.as_slice() else {
        return Err(RowFault::NoAsk);
    };
    ask::answer(alloc, word, fields)
}

/// The answer as it is, or as a literal if it has characters that can't be in a line or that nobody would
/// see.
fn one_line(alloc: Global, answer: String) -> Result<String, AllocError> {
    if answer.chars().any(is_unseen) {
        format!(in alloc; "{answer:?}")
    } else {
        Ok(answer)
    }
}

fn is_unseen(character: char) -> bool {
    character != ' ' && (character.is_control() || character.is_whitespace())
}
