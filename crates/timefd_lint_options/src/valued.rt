//! What an option with a value sets.

ghost use Rattle.std.specs.Prelude.{◌≡◌};
ghost use Rattle.timefd_lint_options.specs.Settings as spec;

use crate::error::OptionError;
use crate::settings::RunSettings;
use crate::values::{color_named, version_named};
use crate::word::Valued;
use crate::wording::wording_named;
use timefd_lang_warnings::{Level, Warning};
use timefd_lint_drawing::Format;
use timefd_lint_scan::keys::key_fault;

/// The settings with the value of an option. `NotAValue` or `NotAKey` if the option doesn't take the value.
pub fn with_value<'a>(
    settings: RunSettings<'a>,
    option: Valued,
    value: &'a str,
) -> Result<RunSettings<'a>, OptionError<'a>>
    ensures { result ≡ spec.with_value settings.entry option value.entry }
{
    let set = match option {
        Valued::Language => with_language(settings, value),
        Valued::Format => with_format(settings, value),
        Valued::Color => with_color(settings, value),
        Valued::Comment => with_comment(settings, value),
        Valued::Key => with_key(settings, value),
        Valued::To => with_version(settings, value),
        Valued::Deny => with_warning(settings, value, Level::Denied),
        Valued::Allow => with_warning(settings, value, Level::Allowed),
    };
    match set {
        Some(settings) => Ok(settings),
        None => Err(refused(option, value)),
    }
}

fn with_language<'a>(settings: RunSettings<'a>, value: &str) -> Option<RunSettings<'a>>
    ensures { result ≡ spec.with_language settings.entry value.now }
{
    match wording_named(value) {
        Some(language) => Some(RunSettings {
            language,
            ..settings
        }),
        None => None,
    }
}

fn with_format<'a>(settings: RunSettings<'a>, value: &str) -> Option<RunSettings<'a>>
    ensures { result ≡ spec.with_format settings.entry value.now }
{
    match Format::named(value) {
        Some(format) => Some(RunSettings { format, ..settings }),
        None => None,
    }
}

fn with_color<'a>(settings: RunSettings<'a>, value: &str) -> Option<RunSettings<'a>>
    ensures { result ≡ spec.with_color settings.entry value.now }
{
    match color_named(value) {
        Some(color) => Some(RunSettings { color, ..settings }),
        None => None,
    }
}

// An empty mark would pass over every line.
fn with_comment<'a>(settings: RunSettings<'a>, value: &'a str) -> Option<RunSettings<'a>>
    ensures { result ≡ spec.with_comment settings.entry value.entry }
{
    if value.is_empty() {
        return None;
    }
    Some(RunSettings {
        comment: Some(value),
        ..settings
    })
}

fn with_key<'a>(settings: RunSettings<'a>, value: &str) -> Option<RunSettings<'a>>
    ensures { result ≡ spec.with_key settings.entry value.now }
{
    match key_fault(value) {
        Some(_) => None,
        None => Some(settings),
    }
}

// Why an option doesn't take a value.
fn refused<'a>(option: Valued, value: &'a str) -> OptionError<'a>
    ensures { result ≡ spec.refused option value.entry }
{
    match option {
        Valued::Key => key_refused(value),
        Valued::Language
        | Valued::Format
        | Valued::Color
        | Valued::Comment
        | Valued::To
        | Valued::Deny
        | Valued::Allow => OptionError::NotAValue(option, value),
    }
}

fn key_refused<'a>(value: &'a str) -> OptionError<'a>
    ensures { result ≡ spec.key_refused value.entry }
{
    match key_fault(value) {
        Some(fault) => OptionError::NotAKey(fault, value),
        None => OptionError::NotAValue(Valued::Key, value),
    }
}

fn with_version<'a>(settings: RunSettings<'a>, value: &str) -> Option<RunSettings<'a>>
    ensures { result ≡ spec.with_version settings.entry value.now }
{
    match version_named(value) {
        Some(version) => Some(RunSettings {
            to: Some(version),
            ..settings
        }),
        None => None,
    }
}

// Setting the level of one warning also turns on the reports of all others.
fn with_warning<'a>(settings: RunSettings<'a>, value: &str, level: Level) -> Option<RunSettings<'a>>
    ensures { result ≡ spec.with_warning settings.entry value.now level }
{
    match Warning::named(value) {
        Some(warning) => Some(RunSettings {
            warns: true,
            levels: settings.levels.with(warning, level),
            ..settings
        }),
        None => None,
    }
}
