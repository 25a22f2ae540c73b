//! The keys that the arguments name, one after another.

ghost use Rattle.std.specs.Prelude.{◌≡◌, ◌++◌, IfOk, OnOk};
ghost use Rattle.timefd_lint_scan.specs.Keys.Keys.{keys_in, named_all};
ghost use Rattle.timefd_lint_options.specs.KeyWords as spec;

use crate::word::{Valued, Word, word_of};
use std::alloc::{AllocError, Global};
use timefd_lint_scan::keys::{DescriptionKey, key_of};

/// What kind of word is expected, by the words before it.
#[derive(Clone, Copy)]
enum Expected {
    /// One that may be an option.
    Any,
    /// The value of another option than `--key`.
    Value,
    /// The value of `--key`.
    Key,
    /// Only names of files from here on.
    Name,
}

fn after_option(option: Valued) -> Expected
    ensures { result ≡ spec.after_option option }
{
    match option {
        Valued::Key => Expected::Key,
        Valued::Language
        | Valued::Format
        | Valued::Color
        | Valued::Comment
        | Valued::To
        | Valued::Deny
        | Valued::Allow => Expected::Value,
    }
}

// What is expected after a word.
fn after(expected: Expected, word: &str) -> Expected
    ensures { result ≡ spec.after expected word.now }
{
    match expected {
        Expected::Any => after_word(word_of(word)),
        Expected::Value | Expected::Key => Expected::Any,
        Expected::Name => Expected::Name,
    }
}

fn after_word(word: Word) -> Expected
    ensures { result ≡ spec.after_word word }
{
    match word {
        Word::Flag(_) => Expected::Any,
        Word::Valued(option) => after_option(option),
        Word::Help | Word::Version | Word::End | Word::Unknown | Word::File => Expected::Name,
    }
}

// Adds the key that a word names, if a key is expected.
#[tactic(auto, using(crate::proofs::KeyWordLemmas::no_key))]
fn push_key<'a>(
    keys: &mut Vec<DescriptionKey<'a>>,
    expected: Expected,
    word: &'a str,
) -> Result<(), AllocError>
    ensures { OnOk result (named_all keys.new.items
        ≡ named_all keys.old.items ++ spec.keys_at expected word.now) }
{
    match expected {
        Expected::Key => push_named(keys, word),
        Expected::Any | Expected::Value | Expected::Name => Ok(()),
    }
}

#[tactic(auto, using(crate::proofs::KeyWordLemmas::is_key, crate::proofs::KeyWordLemmas::is_none))]
fn push_named<'a>(keys: &mut Vec<DescriptionKey<'a>>, word: &'a str) -> Result<(), AllocError>
    ensures { OnOk result (named_all keys.new.items
        ≡ named_all keys.old.items ++ keys_in word.now) }
{
    match key_of(word) {
        Ok(key) => {
            keys.push(key)?;
            Ok(())
        }
        Err(_) => Ok(()),
    }
}

/// The keys that the arguments name by `--key`, in order. An `Err` says that memory ran out.
#[tactic(auto, using(crate::proofs::KeyWordLemmas::one_more, crate::proofs::KeyWordLemmas::at_last))]
pub fn keys_of<'a>(alloc: Global, words: &[&'a str]) -> Result<Vec<DescriptionKey<'a>>, AllocError>
    ensures { IfOk result (λ keys. named_all keys.items ≡ spec.keys_of words.now) }
{
    let mut keys = Vec::new(alloc);
    let mut expected = Expected::Any;
    let mut rest = words;
    'words: while let [word, more @ ..] = rest {
        push_key(&mut keys, expected, word)?;
        expected = after(expected, word);
        rest = more;
    }
    Ok(keys)
}
