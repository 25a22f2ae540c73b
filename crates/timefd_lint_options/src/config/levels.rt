//! The table of levels.

ghost use Rattle.std.specs.Prelude.{◌≡◌, IfOk, IfErr, IfSome, Ok, Err, string_bytes};
ghost use Rattle.toml.specs.View.{view, table_view};
ghost use Rattle.timefd_lint_options.specs.Config.Faults as faults;
ghost use Rattle.timefd_lint_options.specs.Config.Levels as spec;

use crate::config::error::ConfigError;
use timefd_lang_warnings::{Level, Levels, Warning};
use toml::{Table, Value};

// The level that a word names.
fn level_named(word: &str) -> Option<Level>
    ensures { result ≡ spec.level_named word.now }
{
    match word {
        "allow" => Some(Level::Allowed),
        "warn" => Some(Level::Warned),
        "deny" => Some(Level::Denied),
        _ => None,
    }
}

// The level that a word names for a warning.
fn level_in(warning: Warning, word: &String) -> Result<Level, ConfigError>
    ensures level { IfOk result (λ level. spec.level_in warning (string_bytes word.now) ≡ Ok level) }
    ensures error { IfErr result (λ error. IfSome (faults.fault error) (λ fault.
        spec.level_in warning (string_bytes word.now) ≡ Err fault)) }
{
    match level_named(word.as_str()) {
        Some(level) => Ok(level),
        None => Err(ConfigError::UnknownLevel(warning, word.clone()?)),
    }
}

// The level that a value names for a warning.
fn level_valued(warning: Warning, value: &Value) -> Result<Level, ConfigError>
    ensures level { IfOk result (λ level. spec.level_valued warning (view value.now) ≡ Ok level) }
    ensures error { IfErr result (λ error. IfSome (faults.fault error) (λ fault.
        spec.level_valued warning (view value.now) ≡ Err fault)) }
{
    match value {
        Value::String(word) => level_in(warning, word),
        Value::Integer(_)
        | Value::Float(_)
        | Value::Boolean(_)
        | Value::Datetime(_)
        | Value::Array(_)
        | Value::Table(_) => Err(ConfigError::NoLevel(warning)),
    }
}

// The levels with that of one more entry, whose name is the code of a warning.
fn with_entry(levels: Levels, name: &String, value: &Value) -> Result<Levels, ConfigError>
    ensures levels { IfOk result (λ more.
        spec.with_entry levels (string_bytes name.now) (view value.now) ≡ Ok more) }
    ensures error { IfErr result (λ error. IfSome (faults.fault error) (λ fault.
        spec.with_entry levels (string_bytes name.now) (view value.now) ≡ Err fault)) }
{
    match Warning::named(name.as_str()) {
        Some(warning) => {
            let level = level_valued(warning, value)?;
            Ok(levels.with(warning, level))
        }
        None => Err(ConfigError::UnknownWarning(name.clone()?)),
    }
}

/// The levels in a table: each entry sets that of a warning, and all others are reported. An `Err` says what is
/// wrong with the first entry that sets none, or that memory ran out.
pub fn levels_in(table: &Table) -> Result<Levels, ConfigError>
    ensures levels { IfOk result (λ levels. spec.levels_in (table_view table.now) ≡ Ok levels) }
    ensures error { IfErr result (λ error. IfSome (faults.fault error) (λ fault.
        spec.levels_in (table_view table.now) ≡ Err fault)) }
{
    let mut levels = Levels::all_at(Level::Warned);
    'levels: for (name, value) in table.iter() {
        levels = with_entry(levels, name, value)?;
    }
    Ok(levels)
}
