//! The one answer that all languages of a row give.

use crate::fault::RowFault;
use std::alloc::Global;

/// The answers of one row, which have to be the same answer.
#[derive(Drop)]
pub struct Answers {
    first: Option<String>,
    /// Each answer after the name of what gave it.
    all: String,
    differ: bool,
}

impl Answers {
    pub fn new(alloc: Global) -> Answers {
        Answers {
            first: None,
            all: String::new(alloc),
            differ: false,
        }
    }

    /// Adds the answer that a language, or another way to read, gave.
    pub fn push(&mut self, name: &str, answer: String) -> Result<(), RowFault> {
        if !self.all.is_empty() {
            self.all.push_str("; ")?;
        }
        write!(self.all, "{name}: {answer}")?;
        match &self.first {
            Some(first) => self.differ |= *first != answer,
            None => self.first = Some(answer),
        }
        Ok(())
    }

    /// The one answer if all agree, otherwise each answer by itself.
    pub fn agreed(self) -> Result<String, RowFault> {
        let Answers { first, all, differ } = self;
        if differ {
            return Ok(all);
        }
        match first {
            Some(first) => Ok(first),
            None => Ok(all),
        }
    }
}
