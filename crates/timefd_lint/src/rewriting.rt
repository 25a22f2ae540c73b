//! How the named files are rewritten: to a later version of the language, to the normal form of version 3, or
//! mended. The result is shown as changes or written back.

ghost use Rattle.std.specs.Prelude.{◌≡◌};
ghost use Rattle.timefd_lint.specs.Rewriting as spec;

use timefd_lang_convert::conversion_between;
use timefd_lang_dialect::Dialect;
use timefd_lint_options::{LineLanguage, RunSettings, target};
use timefd_lint_rewrite::{Fixes, Layout, LineChange};
use timefd_lint_sources::rewriting::Change;
use timefd_parse::{DescriptionVersion, Language};

/// How files are rewritten.
#[derive(Clone, Copy)]
pub struct Rewriting {
    /// How lines are changed. `None` if no conversion exists from their language.
    pub lines: Option<LineChange>,
    /// What happens to the descriptions of sources.
    pub sources: Change,
    /// Whether the files are written back, instead of shown as changes.
    pub writes: bool,
    /// Whether a file is rewritten even if some of its lines or descriptions are refused.
    pub is_partial: bool,
}

// Which fixes may be made.
fn fixes_of(settings: RunSettings<'_>) -> Fixes
    ensures { result ≡ spec.fixes_of settings.entry }
{
    if settings.is_unsafe {
        Fixes::All
    } else {
        Fixes::Sure
    }
}

// How lines are changed to a version. `None` if no conversion leads to it.
fn lines_to(settings: RunSettings<'_>, version: DescriptionVersion) -> Option<LineChange>
    ensures { result ≡ spec.lines_to settings.entry version }
{
    match settings.language {
        LineLanguage::Own(language) => own_change(settings.is_normal, language, version),
        LineLanguage::Other(dialect) => other_change(dialect, version),
    }
}

fn own_change(
    is_normal: bool,
    language: Language,
    version: DescriptionVersion,
) -> Option<LineChange>
    ensures { result ≡ spec.own_change is_normal language version }
{
    match conversion_between(language, Language::Version(version)) {
        Some(conversion) if is_normal => Some(LineChange::Own(Layout::Normal(conversion))),
        Some(conversion) => Some(LineChange::Own(Layout::Least(conversion))),
        None => None,
    }
}

// Formats of other languages become texts of version 3.
fn other_change(dialect: Dialect, version: DescriptionVersion) -> Option<LineChange>
    ensures { result ≡ spec.other_change dialect version }
{
    match version {
        DescriptionVersion::One | DescriptionVersion::Two => None,
        DescriptionVersion::Three => Some(LineChange::Other(dialect)),
    }
}

// What happens to the descriptions of sources that are converted.
fn change_to(settings: RunSettings<'_>, version: DescriptionVersion) -> Change
    ensures { result ≡ spec.change_to settings.entry version }
{
    if settings.is_normal {
        Change::Normal
    } else {
        Change::Least(version)
    }
}

// How lines are mended. `None` if their language isn't one of `time`.
fn mended(language: Option<Language>, fixes: Fixes) -> Option<LineChange>
    ensures { result ≡ spec.mended language fixes }
{
    match language {
        Some(language) => Some(LineChange::Own(Layout::Fixed(language, fixes))),
        None => None,
    }
}

// How files are mended.
fn mending(settings: RunSettings<'_>) -> Rewriting
    ensures { result ≡ spec.mending settings.entry }
{
    let fixes = fixes_of(settings);
    Rewriting {
        lines: mended(settings.language.language(), fixes),
        sources: Change::Mended(fixes),
        writes: settings.writes,
        is_partial: settings.is_partial,
    }
}

// How files are converted.
fn converting(settings: RunSettings<'_>, version: DescriptionVersion) -> Rewriting
    ensures { result ≡ spec.converting settings.entry version }
{
    Rewriting {
        lines: lines_to(settings, version),
        sources: change_to(settings, version),
        writes: settings.writes,
        is_partial: settings.is_partial,
    }
}

/// How files are rewritten. `None` if they aren't.
pub fn rewriting_of(settings: RunSettings<'_>) -> Option<Rewriting>
    ensures { result ≡ spec.rewriting_of settings.entry }
{
    if settings.fixes {
        return Some(mending(settings));
    }
    match target(settings) {
        Some(version) => Some(converting(settings, version)),
        None => None,
    }
}
