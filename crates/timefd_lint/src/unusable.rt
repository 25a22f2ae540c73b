//! Why a file of settings can't be used, in words.

ghost use Rattle.std.specs.Prelude.{◌≡◌, IfOk, string_bytes};
ghost use Rattle.timefd_lint.specs.Unusable as words;

use crate::config::ConfigFailure;
use crate::no_code::{no_level_sentence, no_warning_sentence};
use std::alloc::{AllocError, Global};
use std::io::ErrorKind;
use timefd_lang_warnings::Warning;
use timefd_lint_drawing::shown::safe;
use timefd_lint_files::{WalkError, WalkReason};
use timefd_lint_options::config::ConfigError;
use toml::de;

/// Why no file of settings is found.
#[tactic(auto, using(crate::proofs::UnusableLemmas::says))]
pub fn unfound(alloc: Global, error: WalkError) -> ConfigFailure
    ensures { words.IsUnfound error result }
{
    match error {
        WalkError::Memory => ConfigFailure::Memory,
        WalkError::Failed { path, reason } => reported(wrong(alloc, &path, unreadable(reason))),
    }
}

/// What is reported of a file of settings.
pub fn reported(sentence: Result<String, AllocError>) -> ConfigFailure
    ensures { result ≡ words.reported sentence }
{
    match sentence {
        Ok(sentence) => ConfigFailure::Wrong(sentence),
        Err(AllocError) => ConfigFailure::Memory,
    }
}

fn unreadable(reason: WalkReason) -> &'static str
    ensures { result.now ≡ words.unreadable reason }
{
    match reason {
        WalkReason::Unread(kind) => unread(kind),
        WalkReason::TooDeep => "the file can't be read",
    }
}

fn unread(kind: ErrorKind) -> &'static str
    ensures { result.now ≡ words.unread kind }
{
    match kind {
        ErrorKind::IsADirectory => "the file can't be read: it is a folder",
        ErrorKind::PermissionDenied => "the file can't be read: permission denied",
        _ => "the file can't be read",
    }
}

/// What is wrong with a file. An `Err` says that memory ran out.
pub fn wrong(alloc: Global, file: &str, what: &str) -> Result<String, AllocError>
    ensures { IfOk result (λ sentence. string_bytes sentence ≡ words.wrong file.now what.now) }
{
    format!(in alloc; "`{file}`: {what}")
}

// What is wrong with the entry of this name.
fn about(alloc: Global, file: &str, name: &str, what: &str) -> Result<String, AllocError>
    ensures { IfOk result (λ sentence. string_bytes sentence ≡ words.about file.now name.now what.now) }
{
    let name = safe(alloc, name)?;
    format!(in alloc; "`{file}`: `{name}` {what}")
}

/// What is wrong with the text of a file, in a sentence. An `Err` says that memory ran out.
pub fn fault_sentence(
    alloc: Global,
    file: &str,
    text: &str,
    error: ConfigError,
) -> Result<String, AllocError>
    ensures { IfOk result (λ sentence. words.IsSaidFor file.now text.now error (string_bytes sentence)) }
{
    match error {
        ConfigError::Memory => Err(AllocError),
        ConfigError::NotToml(error) => not_toml(alloc, file, text, error),
        ConfigError::UnknownName(name) => about(
            alloc,
            file,
            &name,
            "means nothing here: the settings are `exclude`, `[keys]`, `[levels]` and `[calls]`",
        ),
        ConfigError::KeysNotATable => wrong(alloc, file, "`keys` isn't a table"),
        ConfigError::LevelsNotATable => wrong(alloc, file, "`levels` isn't a table"),
        ConfigError::CallsNotATable => wrong(alloc, file, "`calls` isn't a table"),
        ConfigError::NotACall(key) => about(
            alloc,
            file,
            &key,
            "isn't the name of a call: write one like `parse_date` or `DateBased::new`",
        ),
        ConfigError::NoArgument(key) => about(
            alloc,
            file,
            &key,
            "has no string like \"chrono:1\": the language of its format, and which argument that is, counted from 0",
        ),
        ConfigError::UnknownCallLanguage(key) => about(
            alloc,
            file,
            &key,
            "has no language before its colon: it is one of 1, 2, 3, strftime, python, c, gnu, chrono, jiff, ruby, java, go, moment",
        ),
        ConfigError::NoNumber(key) => about(
            alloc,
            file,
            &key,
            "has no number from 0 to 9 after its colon: write which argument the format is, counted from 0",
        ),
        ConfigError::NotAList => wrong(alloc, file, "`exclude` isn't a list"),
        ConfigError::NotAPattern => wrong(
            alloc,
            file,
            "`exclude` has a pattern that isn't a string",
        ),
        ConfigError::UnknownWarning(name) => no_warning(alloc, file, &name),
        ConfigError::NoLevel(warning) => about(
            alloc,
            file,
            warning.name(),
            "has no string for its level: it is one of \"allow\", \"warn\", \"deny\"",
        ),
        ConfigError::UnknownLevel(warning, word) => no_level(alloc, file, warning, &word),
        ConfigError::EmptyName => wrong(alloc, file, "a key has no name"),
        ConfigError::WrongType(name) => about(
            alloc,
            file,
            &name,
            "has neither a number nor a string for its language",
        ),
        ConfigError::UnknownLanguage(name) => about(
            alloc,
            file,
            &name,
            "has no language: it is one of 1, 2, 3, \"strftime\", \"python\", \"c\", \"gnu\", \"chrono\", \"jiff\", \"ruby\", \"java\", \"go\", \"moment\"",
        ),
    }
}

// What is wrong with a file whose levels name no warning.
fn no_warning(alloc: Global, file: &str, name: &str) -> Result<String, AllocError>
    ensures { IfOk result (λ sentence. words.IsOnWarning file.now name.now (string_bytes sentence)) }
{
    let why = no_warning_sentence(alloc, name)?;
    wrong(alloc, file, &why)
}

// What is wrong with a file in which a warning has no level that there is.
fn no_level(alloc: Global, file: &str, warning: Warning, word: &str) -> Result<String, AllocError>
    ensures { IfOk result (λ sentence. words.IsOnLevel file.now warning word.now (string_bytes sentence)) }
{
    let why = no_level_sentence(alloc, warning, word)?;
    wrong(alloc, file, &why)
}

// The line of a text in which the byte of this index is, or its last one, counted from 1.
fn line_at(text: &str, index: usize) -> usize
    ensures { words.IsLineIn text.now result }
{
    let before = &text.as_bytes()[..index.min(text.len())];
    1 + before.iter().filter(|byte| **byte == b'\n').count()
}

// Why the text isn't TOML, and in which line.
fn not_toml(alloc: Global, file: &str, text: &str, error: de::Error) -> Result<String, AllocError>
    ensures { IfOk result (λ sentence. words.IsNotToml file.now text.now (string_bytes sentence)) }
{
    let line = line_at(text, error.span().map_or(0, |span| span.start));
    let reason = error.message();
    format!(in alloc; "`{file}`: line {line} isn't TOML: {reason}")
}
