//! What a text may be written in: a language of `time`, or the formats of another language or library.

ghost use Rattle.std.specs.Prelude.{◌≡◌};
ghost use Rattle.timefd_lint_options.specs.Values as spec;

use crate::values::language_named;
use timefd_lang_dialect::Dialect;
use timefd_parse::Language;

/// What a text is written in.
#[derive(Clone, Copy)]
pub enum LineLanguage {
    /// In a language of `time`.
    Own(Language),
    /// As a format of another language or library.
    Other(Dialect),
}

impl LineLanguage {
    /// The language, if it is one of `time`.
    pub fn language(self) -> Option<Language>
        ensures { result ≡ spec.language_of self }
    {
        match self {
            LineLanguage::Own(language) => Some(language),
            LineLanguage::Other(_) => None,
        }
    }
}

/// The wording that a word names.
pub fn wording_named(word: &str) -> Option<LineLanguage>
    ensures { result ≡ spec.wording_named word.now }
{
    match language_named(word) {
        Some(language) => Some(LineLanguage::Own(language)),
        None => dialect_named(word),
    }
}

fn dialect_named(word: &str) -> Option<LineLanguage>
    ensures { result ≡ spec.dialect_named word.now }
{
    match Dialect::named(word) {
        Some(dialect) => Some(LineLanguage::Other(dialect)),
        None => None,
    }
}
