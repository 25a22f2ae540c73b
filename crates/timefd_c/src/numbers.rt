//! The numbers that name the languages and the dialects, and those that limit nesting.

ghost use Rattle.std.specs.Prelude.{◌≡◌, min};
ghost use Rattle.timefd_language.specs.Grammar.{nesting_limit};
ghost use Rattle.timefd_c.specs.FormatConversions.{dialect_of};
ghost use Rattle.timefd_c.specs.Languages.{language_of};

use timefd_lang_dialect::Dialect;
use timefd_parse::{DescriptionVersion, Language, NESTING_LIMIT};

/// The language with a number: each version has its own, strftime has 4, and no other number has
/// one.
#[inline(always)]
pub fn from_number(number: u32) -> Option<Language>
    ensures { result ≡ language_of number }
{
    match number {
        1 => Some(Language::Version(DescriptionVersion::One)),
        2 => Some(Language::Version(DescriptionVersion::Two)),
        3 => Some(Language::Version(DescriptionVersion::Three)),
        4 => Some(Language::Strftime),
        _ => None,
    }
}

/// The dialect with a number. No dialect has the number of a language.
#[inline(always)]
pub fn dialect_from(number: u32) -> Option<Dialect>
    ensures { result ≡ dialect_of number }
{
    match number {
        101 => Some(Dialect::Python),
        102 => Some(Dialect::C),
        103 => Some(Dialect::Gnu),
        104 => Some(Dialect::Chrono),
        105 => Some(Dialect::Jiff),
        106 => Some(Dialect::Ruby),
        107 => Some(Dialect::Java),
        108 => Some(Dialect::Go),
        109 => Some(Dialect::Moment),
        _ => None,
    }
}

/// The limit on nesting that a number means. A number above `NESTING_LIMIT` counts as
/// `NESTING_LIMIT`.
#[inline(always)]
pub fn limit_from(number: u32) -> u8
    ensures { result ≡ min number nesting_limit }
{
    match u8::try_from(number) {
        Ok(limit) => limit.min(NESTING_LIMIT),
        Err(_) => NESTING_LIMIT,
    }
}
