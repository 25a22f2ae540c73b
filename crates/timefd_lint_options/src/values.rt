//! The values of options.

ghost use Rattle.std.specs.Prelude.{◌≡◌};
ghost use Rattle.timefd_lint_options.specs.Values as spec;

use crate::settings::Color;
use timefd_parse::{DescriptionVersion, Language};

/// The language that a word names.
pub fn language_named(word: &str) -> Option<Language>
    ensures { result ≡ spec.language_named word.now }
{
    match word {
        "1" => Some(Language::Version(DescriptionVersion::One)),
        "2" => Some(Language::Version(DescriptionVersion::Two)),
        "3" => Some(Language::Version(DescriptionVersion::Three)),
        "strftime" => Some(Language::Strftime),
        _ => None,
    }
}

/// When a word asks for colour.
pub fn color_named(word: &str) -> Option<Color>
    ensures { result ≡ spec.color_named word.now }
{
    match word {
        "always" => Some(Color::Always),
        "never" => Some(Color::Never),
        "auto" => Some(Color::Auto),
        _ => None,
    }
}

/// The later version that a word names.
pub fn version_named(word: &str) -> Option<DescriptionVersion>
    ensures { result ≡ spec.version_named word.now }
{
    match word {
        "2" => Some(DescriptionVersion::Two),
        "3" => Some(DescriptionVersion::Three),
        _ => None,
    }
}
