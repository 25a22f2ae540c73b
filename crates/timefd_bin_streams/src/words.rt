//! The words that a program is given.

ghost use Rattle.std.specs.Prelude.{◌≡◌, IfOk};
ghost use Rattle.timefd_bin_streams.specs.Words.{bytes_of, borrowed_bytes};
ghost use Rattle.timefd_bin_streams.specs.CommandLines as spec;

use std::alloc::{AllocError, Global};
use std::env;
use std::io::{self, ErrorKind};

/// Why the words aren't known.
#[derive(Clone, Copy)]
pub enum WordsError {
    /// Memory ran out.
    Memory,
    /// One of the words isn't UTF-8.
    NotText,
}

// Why the words aren't known, by the system's kind of error.
fn why(kind: ErrorKind) -> WordsError
    ensures { result ≡ spec.why kind }
{
    match kind {
        ErrorKind::OutOfMemory => WordsError::Memory,
        _ => WordsError::NotText,
    }
}

fn collected(alloc: Global, words: env::Args) -> Result<Vec<String>, WordsError>
    ensures { spec.AreCollected words result }
{
    match words.collect(alloc) {
        Ok(words) => Ok(words),
        Err(_) => Err(WordsError::Memory),
    }
}

/// The words of the command line, as the system answers them: the program's name, and after it the words that it is given.
pub fn words_of(alloc: Global, answer: io::Result<env::Args>) -> Result<Vec<String>, WordsError>
    ensures { spec.AreWords answer result }
{
    match answer {
        Ok(words) => collected(alloc, words),
        Err(error) => Err(why(error.kind())),
    }
}

/// The words, each borrowed. An `Err` says that memory ran out.
#[tactic(auto, using(crate::proofs::WordsLemmas::one_more, crate::proofs::WordsLemmas::at_last))]
pub fn borrowed<'a>(alloc: Global, words: &'a [String]) -> Result<Vec<&'a str>, AllocError>
    ensures { IfOk result (λ all. borrowed_bytes all.items ≡ bytes_of words.now) }
{
    let mut all = Vec::new(alloc);
    let mut rest = words;
    'words: while let [word, after @ ..] = rest {
        all.push(word.as_str())?;
        rest = after;
    }
    Ok(all)
}
