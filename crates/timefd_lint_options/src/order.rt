//! The arguments in order: first the options, each value a word of its own, and then the names of files.

ghost use Rattle.std.specs.Prelude.{◌≡◌, ◌∷◌, ◌++◌, [], codes, IfOk, OnOk};
ghost use Rattle.timefd_lint_diagnosis.specs.Words.{texts};
ghost use Rattle.timefd_lint_options.specs.Order as spec;
ghost use Rattle.timefd_lint_options.specs.Words.{word_of};

use crate::word::{Word, word_of};
use std::alloc::{AllocError, Global};

/// What the next word is, by the words before it.
#[derive(Clone, Copy)]
enum Next {
    /// An option, or the name of a file.
    Any,
    /// The value of an option.
    Value,
    /// The name of a file.
    Name,
}

fn after_word(word: Word) -> Next
    ensures { result ≡ spec.after_word word }
{
    match word {
        Word::Valued(_) => Next::Value,
        Word::End => Next::Name,
        Word::Flag(_) | Word::Help | Word::Version | Word::Unknown | Word::File => Next::Any,
    }
}

// What follows a word.
fn after(next: Next, word: &str) -> Next
    ensures { result ≡ spec.after next word.now }
{
    match next {
        Next::Any => after_word(word_of(word)),
        Next::Value => Next::Any,
        Next::Name => Next::Name,
    }
}

// Appends what a word adds to the options.
#[tactic(auto, using(crate::proofs::OrderLemmas::nothing))]
fn push_options<'a>(options: &mut Vec<&'a str>, next: Next, word: &'a str) -> Result<(), AllocError>
    ensures { OnOk result (texts options.new.items
        ≡ texts options.old.items ++ spec.options_at next word.now) }
{
    match next {
        Next::Any => push_word(options, word_of(word), word),
        Next::Value => push(options, word),
        Next::Name => Ok(()),
    }
}

#[tactic(auto, using(crate::proofs::OrderLemmas::nothing))]
fn push_word<'a>(options: &mut Vec<&'a str>, is: Word, word: &'a str) -> Result<(), AllocError>
    ensures { OnOk result (texts options.new.items
        ≡ texts options.old.items ++ spec.options_by is word.now) }
{
    match is {
        Word::Unknown => push_pair(options, word),
        Word::Flag(_) | Word::Valued(_) | Word::Help | Word::Version => push(options, word),
        Word::End | Word::File => Ok(()),
    }
}

// Appends a word that isn't an option: an option and its value, if an equals sign joins them.
fn push_pair<'a>(options: &mut Vec<&'a str>, word: &'a str) -> Result<(), AllocError>
    ensures { OnOk result (texts options.new.items
        ≡ texts options.old.items ++ spec.pair_in word.now) }
{
    match word.split_once('=') {
        Some((option, value)) => push_parts(options, word, option, value),
        None => push(options, word),
    }
}

fn push_parts<'a>(
    options: &mut Vec<&'a str>,
    word: &'a str,
    option: &'a str,
    value: &'a str,
) -> Result<(), AllocError>
    ensures { OnOk result (texts options.new.items
        ≡ texts options.old.items ++ spec.parts (word_of option.now) word.now option.now value.now) }
{
    match word_of(option) {
        Word::Valued(_) => push_two(options, option, value),
        Word::Flag(_) | Word::Help | Word::Version | Word::End | Word::Unknown | Word::File => {
            push(options, word)
        }
    }
}

// Appends what a word adds to the names of files.
#[tactic(auto, using(crate::proofs::OrderLemmas::nothing))]
fn push_names<'a>(names: &mut Vec<&'a str>, next: Next, word: &'a str) -> Result<(), AllocError>
    ensures { OnOk result (texts names.new.items
        ≡ texts names.old.items ++ spec.names_at next word.now) }
{
    match next {
        Next::Any => push_file(names, word_of(word), word),
        Next::Value => Ok(()),
        Next::Name => push(names, word),
    }
}

#[tactic(auto, using(crate::proofs::OrderLemmas::nothing))]
fn push_file<'a>(names: &mut Vec<&'a str>, is: Word, word: &'a str) -> Result<(), AllocError>
    ensures { OnOk result (texts names.new.items
        ≡ texts names.old.items ++ spec.names_by is word.now) }
{
    match is {
        Word::File => push(names, word),
        Word::Flag(_) | Word::Valued(_) | Word::Help | Word::Version | Word::End | Word::Unknown =>
            Ok(()),
    }
}

#[tactic(auto, using(crate::proofs::OrderLemmas::pushed))]
fn push<'a>(words: &mut Vec<&'a str>, word: &'a str) -> Result<(), AllocError>
    ensures { OnOk result (texts words.new.items ≡ texts words.old.items ++ word.now ∷ []) }
{
    words.push(word)?;
    Ok(())
}

#[tactic(auto, using(crate::proofs::OrderLemmas::pushed_two))]
fn push_two<'a>(words: &mut Vec<&'a str>, first: &'a str, second: &'a str) -> Result<(), AllocError>
    ensures { OnOk result (texts words.new.items
        ≡ texts words.old.items ++ first.now ∷ second.now ∷ []) }
{
    push(words, first)?;
    push(words, second)
}

// The options, and after them the names of files; without these if the last option still wants its value.
#[tactic(auto, using(crate::proofs::OrderLemmas::alone))]
fn joined<'a>(
    next: Next,
    options: Vec<&'a str>,
    names: &[&'a str],
) -> Result<Vec<&'a str>, AllocError>
    ensures { IfOk result (λ all. texts all.items
        ≡ texts options.entry.items ++ spec.end_by next (texts names.now)) }
{
    match next {
        Next::Any | Next::Name => with_names(options, names),
        Next::Value => Ok(options),
    }
}

// The options, and after them the names of files.
#[tactic(auto, using(crate::proofs::OrderLemmas::joined))]
fn with_names<'a>(options: Vec<&'a str>, names: &[&'a str]) -> Result<Vec<&'a str>, AllocError>
    ensures { IfOk result (λ all. texts all.items
        ≡ texts options.entry.items ++ codes "--" ∷ texts names.now) }
{
    let mut all = options;
    all.push("--")?;
    all.extend_from_slice(names)?;
    Ok(all)
}

/// The arguments in order: first the options, each value a word of its own, then `--` and the names of files. So
/// an option may stand after the name of a file, and an equals sign may join it to its value. An option
/// whose value is missing stays the last word. An `Err` says that memory ran out.
#[tactic(auto, using(crate::proofs::OrderLemmas::one_more, crate::proofs::OrderLemmas::at_last))]
pub fn ordered<'a>(alloc: Global, words: &[&'a str]) -> Result<Vec<&'a str>, AllocError>
    ensures { IfOk result (λ all. texts all.items ≡ spec.ordered (texts words.now)) }
{
    let mut options = Vec::new(alloc);
    let mut names = Vec::new(alloc);
    let mut next = Next::Any;
    let mut rest = words;
    'words: while let [word, more @ ..] = rest {
        push_options(&mut options, next, word)?;
        push_names(&mut names, next, word)?;
        next = after(next, word);
        rest = more;
    }
    joined(next, options, &names)
}
