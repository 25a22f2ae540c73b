//! The languages that `--language` and `--to-language` name.

ghost use Rattle.std.specs.Prelude.{◌≡◌};
ghost use Rattle.timefd_format.specs.Words as spec;

use timefd_lang_dialect::Dialect;
use timefd_parse::{DescriptionVersion, Language};

/// How a description is written.
#[derive(Clone, Copy)]
pub enum Wording {
    /// In a language of `time`.
    Own(Language),
    /// As a format of another language.
    Other(Dialect),
}

/// The wordings of both descriptions.
#[derive(Clone, Copy)]
pub struct Wordings {
    /// The wording of the description that moments are read by.
    pub read: Wording,
    /// The wording of the description that moments are written by.
    pub written: Wording,
}

/// The languages of both descriptions.
#[derive(Clone, Copy)]
pub struct Languages {
    /// The language of the description that moments are read by.
    pub read: Language,
    /// The language of the description that moments are written by.
    pub written: Language,
}

/// The wording of a description if no option names one.
pub fn default_wording() -> Wording
    ensures { result ≡ spec.default_wording }
{
    Wording::Own(Language::Version(DescriptionVersion::Three))
}

/// The wording that a word names.
pub fn wording_named(word: &str) -> Option<Wording>
    ensures { result ≡ spec.wording_named word.now }
{
    match language_named(word) {
        Some(language) => Some(Wording::Own(language)),
        None => dialect_named(word),
    }
}

fn dialect_named(word: &str) -> Option<Wording>
    ensures { result ≡ spec.dialect_named word.now }
{
    match Dialect::named(word) {
        Some(dialect) => Some(Wording::Other(dialect)),
        None => None,
    }
}

/// The language of `time` that a word names.
fn language_named(word: &str) -> Option<Language>
    ensures { result ≡ spec.language_named word.now }
{
    match word {
        "1" => Some(Language::Version(DescriptionVersion::One)),
        "2" => Some(Language::Version(DescriptionVersion::Two)),
        "3" => Some(Language::Version(DescriptionVersion::Three)),
        "strftime" => Some(Language::Strftime),
        _ => None,
    }
}
