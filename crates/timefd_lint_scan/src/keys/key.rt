//! Keys whose strings are descriptions.

ghost use Rattle.std.specs.Prelude.{◌≡◌};
ghost use Rattle.timefd_lint_scan.specs.Keys.Keys as spec;

use crate::FormatLanguage;
use crate::dialect::dialect_named;

/// A key whose strings are descriptions in this language.
#[derive(Clone, Copy)]
pub struct DescriptionKey<'a> {
    pub name: &'a str,
    pub dialect: FormatLanguage,
}

/// The language of the first of these keys with this name.
pub fn dialect_of(keys: &[DescriptionKey<'_>], name: &[u8]) -> Option<FormatLanguage>
    ensures { result ≡ spec.dialect_of keys.now name.now }
{
    let mut rest = keys;
    'keys: while let [key, after @ ..] = rest {
        if key.name.as_bytes() == name {
            return Some(key.dialect);
        }
        rest = after;
    }
    None
}

/// Why a word isn't a `KEY=LANGUAGE`.
#[derive(Clone, Copy, Debug, PartialEq, Eq)]
pub enum KeyFault {
    /// It has no equals sign.
    NoEqualsSign,
    /// Nothing precedes the equals sign.
    EmptyName,
    /// What follows the equals sign isn't a language.
    UnknownLanguage,
}

// The key with this name and the word for its language.
fn answer_of<'a>(name: &'a str, language: &str) -> Result<DescriptionKey<'a>, KeyFault>
    ensures { spec.seen result ≡ spec.answer_of name.now language.now }
{
    if name.is_empty() {
        return Err(KeyFault::EmptyName);
    }
    match dialect_named(language) {
        Some(dialect) => Ok(DescriptionKey { name, dialect }),
        None => Err(KeyFault::UnknownLanguage),
    }
}

/// The key in a word like `time_format=3`, split at the first equals sign; or why there is none.
pub fn key_of(word: &str) -> Result<DescriptionKey<'_>, KeyFault>
    ensures { spec.seen result ≡ spec.key_of word.now }
{
    match word.split_once('=') {
        Some((name, language)) => answer_of(name, language),
        None => Err(KeyFault::NoEqualsSign),
    }
}

/// Why a word isn't a `KEY=LANGUAGE`; `None` if it is one.
pub fn key_fault(word: &str) -> Option<KeyFault>
    ensures { result ≡ spec.key_fault word.now }
{
    match key_of(word) {
        Ok(_) => None,
        Err(fault) => Some(fault),
    }
}
