//! What descriptions in sources are checked in: a language of `time`, or formats of another language or library.

ghost use Rattle.std.specs.Prelude.{◌≡◌};
ghost use Rattle.timefd_lint_sources.specs.Judged as spec;

use timefd_lang_dialect::Dialect as Other;
use timefd_lint_scan::{FormatLanguage, is_of_chrono, is_of_jiff};
use timefd_parse::{DescriptionVersion, Language};

/// The other language or library whose formats these are; `None` if they are of `time`.
pub fn other_of(dialect: FormatLanguage) -> Option<Other>
    ensures { result ≡ spec.other_of dialect }
{
    match dialect {
        FormatLanguage::One
        | FormatLanguage::Two
        | FormatLanguage::Three
        | FormatLanguage::Strftime => None,
        FormatLanguage::Python => Some(Other::Python),
        FormatLanguage::C => Some(Other::C),
        FormatLanguage::Gnu => Some(Other::Gnu),
        FormatLanguage::Chrono => Some(Other::Chrono),
        FormatLanguage::Jiff => Some(Other::Jiff),
        FormatLanguage::Ruby => Some(Other::Ruby),
        FormatLanguage::Java => Some(Other::Java),
        FormatLanguage::Go => Some(Other::Go),
        FormatLanguage::Moment => Some(Other::Moment),
    }
}

/// The language of `time` that descriptions are checked in. What formats of chrono and jiff have in common with `time` an
/// editor explains as strftime, and it is mended so; for all other formats that aren't of `time` the answer has no meaning.
pub fn language_of(dialect: FormatLanguage) -> Language
    ensures { result ≡ spec.language_of dialect }
{
    match dialect {
        FormatLanguage::One => Language::Version(DescriptionVersion::One),
        FormatLanguage::Two => Language::Version(DescriptionVersion::Two),
        FormatLanguage::Three => Language::Version(DescriptionVersion::Three),
        FormatLanguage::Strftime
        | FormatLanguage::Python
        | FormatLanguage::C
        | FormatLanguage::Gnu
        | FormatLanguage::Chrono
        | FormatLanguage::Jiff
        | FormatLanguage::Ruby
        | FormatLanguage::Java
        | FormatLanguage::Go
        | FormatLanguage::Moment => Language::Strftime,
    }
}

/// Whether an editor doesn't explain a text, and whether it isn't mended: one of another language or library, unless it is
/// of chrono or jiff and has no directive that only these know.
pub fn is_passed_over(dialect: FormatLanguage, text: &[u8]) -> bool
    ensures { result ≡ spec.is_passed_over dialect text.now }
{
    match dialect {
        FormatLanguage::Chrono => is_of_chrono(text),
        FormatLanguage::Jiff => is_of_jiff(text),
        FormatLanguage::One
        | FormatLanguage::Two
        | FormatLanguage::Three
        | FormatLanguage::Strftime => false,
        FormatLanguage::Python
        | FormatLanguage::C
        | FormatLanguage::Gnu
        | FormatLanguage::Ruby
        | FormatLanguage::Java
        | FormatLanguage::Go
        | FormatLanguage::Moment => true,
    }
}
