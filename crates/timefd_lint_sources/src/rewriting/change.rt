//! How the descriptions of a source are changed.

ghost use Rattle.std.specs.Prelude.{◌≡◌};
ghost use Rattle.timefd_lint_sources.specs.Rewriting.Changes as spec;
ghost use Rattle.timefd_lint_sources.specs.declared.rewriting.change.Change.TheVariants as variants;

use crate::{is_passed_over, language_of};
use timefd_lang_convert::{Conversion, conversion_between};
use timefd_lint_rewrite::{Fixes, Layout};
use timefd_lint_scan::{FormatLanguage, digit_of};
use timefd_parse::{DescriptionVersion, Language};

/// How the descriptions of a source are changed.
#[derive(Clone, Copy)]
pub enum Change {
    /// Faults are fixed with these kinds of fixes.
    Mended(Fixes),
    /// Descriptions are converted to this version if there is a conversion from theirs, with as few
    /// changes as possible.
    Least(DescriptionVersion),
    /// Descriptions of all versions are written in the normal form of version 3.
    Normal,
}

/// How a description is laid out. `None` if it stays as it is: because only another language or library knows
/// it, or because there is no conversion from its version, as for strftime.
pub fn layout_of(change: Change, dialect: FormatLanguage, text: &[u8]) -> Option<Layout>
    ensures { result ≡ spec.layout_of change dialect text.now }
{
    match change {
        Change::Mended(fixes) => mending(fixes, dialect, text),
        Change::Least(version) => match conversion_to(dialect, version) {
            Some(conversion) => Some(Layout::Least(conversion)),
            None => None,
        },
        Change::Normal => match conversion_to(dialect, DescriptionVersion::Three) {
            Some(conversion) => Some(Layout::Normal(conversion)),
            None => None,
        },
    }
}

fn mending(fixes: Fixes, dialect: FormatLanguage, text: &[u8]) -> Option<Layout>
    ensures { result ≡ spec.layout_of (variants.Mended fixes) dialect text.now }
{
    if is_passed_over(dialect, text) {
        None
    } else {
        Some(Layout::Fixed(language_of(dialect), fixes))
    }
}

// The conversion of a description to a version, if there is one.
fn conversion_to(dialect: FormatLanguage, version: DescriptionVersion) -> Option<Conversion>
    ensures { result ≡ spec.conversion_to dialect version }
{
    match dialect {
        FormatLanguage::One | FormatLanguage::Two | FormatLanguage::Three => {
            conversion_between(language_of(dialect), Language::Version(version))
        }
        FormatLanguage::Strftime
        | FormatLanguage::Python
        | FormatLanguage::C
        | FormatLanguage::Gnu
        | FormatLanguage::Chrono
        | FormatLanguage::Jiff
        | FormatLanguage::Ruby
        | FormatLanguage::Java
        | FormatLanguage::Go
        | FormatLanguage::Moment => None,
    }
}

/// The new digit of a description's version; `None` if the version stays.
pub fn new_digit(change: Change, dialect: FormatLanguage) -> Option<u8>
    ensures { result ≡ spec.new_digit change dialect }
{
    match change {
        Change::Mended(_) => None,
        Change::Least(version) => other_digit(digit_of(dialect), digit_in(version)),
        Change::Normal => other_digit(digit_of(dialect), digit_in(DescriptionVersion::Three)),
    }
}

fn digit_in(version: DescriptionVersion) -> u8
    ensures { result ≡ spec.digit_in version }
{
    match version {
        DescriptionVersion::One => b'1',
        DescriptionVersion::Two => b'2',
        DescriptionVersion::Three => b'3',
    }
}

// The new digit, if the old one is different.
fn other_digit(old: Option<u8>, new: u8) -> Option<u8>
    ensures { result ≡ spec.other_digit old new }
{
    match old {
        Some(old) if old == new => None,
        Some(_) => Some(new),
        None => Some(new),
    }
}
