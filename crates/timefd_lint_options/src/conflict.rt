//! Settings that conflict.

ghost use Rattle.std.specs.Prelude.{◌≡◌};
ghost use Rattle.timefd_lint_options.specs.Conflicts as spec;

use crate::error::Conflict;
use crate::names::NamedFiles;
use crate::settings::{RunSettings, target};
use crate::wording::LineLanguage;
use timefd_parse::{DescriptionVersion, Language};

/// The conflict between the settings of a run over these files, if there is one.
pub fn conflict(settings: RunSettings<'_>, names: NamedFiles) -> Option<Conflict>
    ensures { result ≡ spec.conflict settings.entry names }
{
    if settings.serves {
        return serving_conflict(settings, names);
    }
    if settings.explains && !settings.format.is_drawn() {
        return Some(Conflict::ExplainUndrawn);
    }
    if settings.is_partial && !settings.writes {
        return Some(Conflict::PartialWithoutWrite);
    }
    if settings.is_unsafe && !settings.fixes {
        return Some(Conflict::UnsafeWithoutFix);
    }
    if settings.format.is_log() && (settings.fixes || target(settings).is_some()) {
        return Some(Conflict::LogRewritten);
    }
    if settings.fixes {
        return fixing_conflict(settings, names);
    }
    match target(settings) {
        Some(version) => rewriting_conflict(settings, version, names),
        None if settings.writes => Some(Conflict::WriteWithoutVersion),
        None => None,
    }
}

// Why an editor can't be served.
fn serving_conflict(settings: RunSettings<'_>, names: NamedFiles) -> Option<Conflict>
    ensures { result ≡ spec.serving_conflict settings.entry names }
{
    if names.count != 0 {
        return Some(Conflict::ServesFiles);
    }
    if looks_at_files(settings) || rewrites(settings) {
        return Some(Conflict::ServesAlone);
    }
    None
}

// Whether the settings say how files are checked.
fn looks_at_files(settings: RunSettings<'_>) -> bool
    ensures { result ≡ spec.looks_at_files settings.entry }
{
    settings.is_whole
        || settings.is_source
        || settings.explains
        || settings.comment.is_some()
        || !settings.format.is_drawn()
}

// Whether the settings say how files are rewritten.
fn rewrites(settings: RunSettings<'_>) -> bool
    ensures { result ≡ spec.rewrites settings.entry }
{
    settings.fixes
        || settings.is_unsafe
        || settings.writes
        || settings.is_partial
        || target(settings).is_some()
}

// Why files can't be mended.
fn fixing_conflict(settings: RunSettings<'_>, names: NamedFiles) -> Option<Conflict>
    ensures { result ≡ spec.fixing_conflict settings.entry names }
{
    if target(settings).is_some() {
        return Some(Conflict::FixesRewritten);
    }
    if settings.is_whole {
        return Some(Conflict::FixesWhole);
    }
    match names.count {
        0 => Some(Conflict::FixesNoFile),
        _ if names.has_input => Some(Conflict::FixesInput),
        _ => None,
    }
}

// Why files can't be rewritten in a version.
fn rewriting_conflict(
    settings: RunSettings<'_>,
    version: DescriptionVersion,
    names: NamedFiles,
) -> Option<Conflict>
    ensures { result ≡ spec.rewriting_conflict settings.entry version names }
{
    if settings.is_normal && !is_three(version) {
        return Some(Conflict::NormalOfAnother);
    }
    if settings.warns {
        return Some(Conflict::RewritesWarned);
    }
    if settings.is_whole {
        return Some(Conflict::RewritesWhole);
    }
    if names.count == 0 {
        return Some(Conflict::RewritesNoFile);
    }
    if names.has_input {
        return Some(Conflict::RewritesInput);
    }
    None
}

/// Why lines can't be looked at or rewritten as the options ask, if some files aren't sources: no conversion exists from
/// their language to the version, or it is no language of `time`.
pub fn lines_conflict(settings: RunSettings<'_>) -> Option<Conflict>
    ensures { result ≡ spec.lines_conflict settings.entry }
{
    match settings.language {
        LineLanguage::Own(language) => own_conflict(settings, language),
        LineLanguage::Other(_) => other_conflict(settings),
    }
}

// Why lines in a language of `time` can't be rewritten.
fn own_conflict(settings: RunSettings<'_>, language: Language) -> Option<Conflict>
    ensures { result ≡ spec.own_conflict settings.entry language }
{
    match target(settings) {
        Some(version) if !settings.is_normal => conversion_conflict(language, version),
        Some(_) | None => None,
    }
}

// What can't be done with formats of other languages. They are rewritten in version 3 alone, and not in its normal form.
fn other_conflict(settings: RunSettings<'_>) -> Option<Conflict>
    ensures { result ≡ spec.other_conflict settings.entry }
{
    if settings.explains {
        return Some(Conflict::ExplainsOther);
    }
    if settings.fixes {
        return Some(Conflict::FixesOther);
    }
    match target(settings) {
        Some(version) if settings.is_normal || !is_three(version) => Some(Conflict::NoConversion),
        Some(_) | None => None,
    }
}

fn conversion_conflict(language: Language, version: DescriptionVersion) -> Option<Conflict>
    ensures { result ≡ spec.conversion_conflict language version }
{
    if is_rewritten(language, version) {
        None
    } else {
        Some(Conflict::NoConversion)
    }
}

fn is_three(version: DescriptionVersion) -> bool
    ensures { result ≡ spec.is_three version }
{
    match version {
        DescriptionVersion::One | DescriptionVersion::Two => false,
        DescriptionVersion::Three => true,
    }
}

// Whether descriptions of a language are rewritten in a version, and something may change.
fn is_rewritten(language: Language, version: DescriptionVersion) -> bool
    ensures { result ≡ spec.is_rewritten language version }
{
    match version {
        DescriptionVersion::One => false,
        DescriptionVersion::Two => matches!(language, Language::Version(DescriptionVersion::One)),
        DescriptionVersion::Three => matches!(
            language,
            Language::Version(DescriptionVersion::One | DescriptionVersion::Two)
                | Language::Strftime
        ),
    }
}
