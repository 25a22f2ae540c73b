//! The languages that the program reads, and the arguments that name them.

ghost use Rattle.std.specs.Prelude.{◌≡◌, ◌≤◌, IfSome, map, string_bytes};
ghost use Rattle.timefd_parse.specs.Grammar.{nesting_limit};
ghost use Rattle.timefd.specs.Arguments as spec;
ghost use Rattle.timefd.specs.Kinds.{language_of};

use timefd_parse::{DescriptionVersion, Language, NESTING_LIMIT};

/// The language of a text.
#[derive(Debug, Clone, Copy, PartialEq, Eq)]
pub enum Kind {
    /// Version 1 of the format descriptions.
    One,
    /// Version 2 of the format descriptions.
    Two,
    /// Version 3 of the format descriptions.
    Three,
    /// The conversion specifications of C's `strftime`.
    Strftime,
}

/// The most digits of a limit.
const LIMIT_DIGITS: usize = 3;

impl Kind {
    /// The language of this kind.
    pub fn language(self) -> Language
        ensures { result ≡ language_of self }
    {
        match self {
            Kind::One => Language::Version(DescriptionVersion::One),
            Kind::Two => Language::Version(DescriptionVersion::Two),
            Kind::Three => Language::Version(DescriptionVersion::Three),
            Kind::Strftime => Language::Strftime,
        }
    }

    // The kind that an argument names.
    fn named(word: &str) -> Option<Kind>
        ensures { result ≡ spec.kind_named word.now }
    {
        match word {
            "1" => Some(Kind::One),
            "2" => Some(Kind::Two),
            "3" => Some(Kind::Three),
            "strftime" => Some(Kind::Strftime),
            _ => None,
        }
    }
}

// The limit that an argument names: digits alone, though Rust also reads a plus sign.
fn limit_named(word: &str) -> Option<u8>
    ensures { result ≡ spec.limit_named word.now }
{
    if word.len() > LIMIT_DIGITS {
        return None;
    }
    if word.starts_with('+') {
        return None;
    }
    let limit = word.parse::<u8>().ok()?;
    if limit <= NESTING_LIMIT {
        Some(limit)
    } else {
        None
    }
}

/// The kind, and how many nested descriptions there may be around one another, by the words after
/// the program's name. `None` if they aren't arguments of the program.
pub fn arguments(words: &[String]) -> Option<(Kind, u8)>
    ensures exact { result ≡ spec.arguments (map string_bytes words.now) }
    ensures within { IfSome result (λ x. x.1 ≤ nesting_limit) }
{
    match words {
        [word] => Some((Kind::named(word)?, NESTING_LIMIT)),
        [word, limit] => match Kind::named(word)? {
            Kind::Strftime => None,
            kind => Some((kind, limit_named(limit)?)),
        },
        _ => None,
    }
}
