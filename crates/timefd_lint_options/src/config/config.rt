//! The text of a file of settings.

ghost use Rattle.std.specs.Prelude.{◌≡◌, IfOk, IfErr, IfSome, Ok, Err, codes, option_map, string_bytes};
ghost use Rattle.toml.specs.Data.{get_member};
ghost use Rattle.toml.specs.View.{view, table_view};
ghost use Rattle.timefd_lint_options.specs.Config.Calls as called;
ghost use Rattle.timefd_lint_options.specs.Config.Config as spec;
ghost use Rattle.timefd_lint_options.specs.Config.Faults as faults;

use crate::config::calls::calls_in;
use crate::config::error::ConfigError;
use crate::config::exclude::patterns_in;
use crate::config::keys::{OwnedKey, keys_in};
use crate::config::levels::levels_in;
use std::alloc::Global;
use timefd_lang_warnings::Levels;
use timefd_lint_scan::OwnCall;
use toml::{Table, Value, table_from_str};

// The tables of the file.
const KEYS: &str = "keys";

const LEVELS: &str = "levels";

const CALLS: &str = "calls";

// The one list.
const EXCLUDE: &str = "exclude";

/// What a file of settings says.
#[derive(Drop)]
pub struct Config {
    /// The keys of its table `keys`, sorted by name.
    pub keys: Vec<OwnedKey>,
    /// What is passed over below folders: the patterns of its list `exclude`, each followed by a line feed.
    pub exclude: String,
    /// The level of each warning, if there is a table `levels`.
    pub levels: Option<Levels>,
    /// The calls of its table `calls`, sorted by key.
    pub calls: Vec<OwnCall>,
}

fn is_known(name: &str) -> bool
    ensures { result ≡ spec.is_known name.now }
{
    name == KEYS || name == EXCLUDE || name == LEVELS || name == CALLS
}

// The first name in a document that has no meaning here.
fn unknown_name(document: &Table) -> Option<&String>
    ensures { option_map (λ name. string_bytes name.now) result ≡ spec.unknown_name (table_view document.now) }
{
    'names: for (name, _value) in document.iter() {
        if !is_known(name.as_str()) {
            return Some(name);
        }
    }
    None
}

// The value of `keys` in a document.
fn value_of_keys(document: &Table) -> Option<&Value>
    ensures { option_map (λ v. view v.now) result ≡ get_member (codes "keys") (table_view document.now) }
{
    document.get(KEYS)
}

// The keys in that value, or none if there is no value.
fn keys_at(alloc: Global, value: Option<&Value>) -> Result<Vec<OwnedKey>, ConfigError>
    ensures keys { IfOk result (λ keys.
        spec.keys_at (option_map (λ v. view v.now) value.entry) ≡ Ok (spec.named_all keys.items)) }
    ensures error { IfErr result (λ error. IfSome (faults.fault error) (λ fault.
        spec.keys_at (option_map (λ v. view v.now) value.entry) ≡ Err fault)) }
{
    match value {
        Some(Value::Table(table)) => keys_in(alloc, table),
        Some(
            Value::String(_)
            | Value::Integer(_)
            | Value::Float(_)
            | Value::Boolean(_)
            | Value::Datetime(_)
            | Value::Array(_),
        ) => Err(ConfigError::KeysNotATable),
        None => Ok(Vec::new(alloc)),
    }
}

// The value of `exclude` in a document.
fn value_of_exclude(document: &Table) -> Option<&Value>
    ensures { option_map (λ v. view v.now) result ≡ get_member (codes "exclude") (table_view document.now) }
{
    document.get(EXCLUDE)
}

// The patterns in that value, or none if there is no value.
fn exclude_at(alloc: Global, value: Option<&Value>) -> Result<String, ConfigError>
    ensures patterns { IfOk result (λ text.
        spec.exclude_at (option_map (λ v. view v.now) value.entry) ≡ Ok (string_bytes text)) }
    ensures error { IfErr result (λ error. IfSome (faults.fault error) (λ fault.
        spec.exclude_at (option_map (λ v. view v.now) value.entry) ≡ Err fault)) }
{
    match value {
        Some(Value::Array(values)) => patterns_in(alloc, values),
        Some(
            Value::String(_)
            | Value::Integer(_)
            | Value::Float(_)
            | Value::Boolean(_)
            | Value::Datetime(_)
            | Value::Table(_),
        ) => Err(ConfigError::NotAList),
        None => Ok(String::new(alloc)),
    }
}

// The value of `levels` in a document.
fn value_of_levels(document: &Table) -> Option<&Value>
    ensures { option_map (λ v. view v.now) result ≡ get_member (codes "levels") (table_view document.now) }
{
    document.get(LEVELS)
}

// The levels in that value, if there is one.
fn levels_at(value: Option<&Value>) -> Result<Option<Levels>, ConfigError>
    ensures levels { IfOk result (λ levels.
        spec.levels_at (option_map (λ v. view v.now) value.entry) ≡ Ok levels) }
    ensures error { IfErr result (λ error. IfSome (faults.fault error) (λ fault.
        spec.levels_at (option_map (λ v. view v.now) value.entry) ≡ Err fault)) }
{
    match value {
        Some(Value::Table(table)) => Ok(Some(levels_in(table)?)),
        Some(
            Value::String(_)
            | Value::Integer(_)
            | Value::Float(_)
            | Value::Boolean(_)
            | Value::Datetime(_)
            | Value::Array(_),
        ) => Err(ConfigError::LevelsNotATable),
        None => Ok(None),
    }
}

// The value of `calls` in a document.
fn value_of_calls(document: &Table) -> Option<&Value>
    ensures { option_map (λ v. view v.now) result ≡ get_member (codes "calls") (table_view document.now) }
{
    document.get(CALLS)
}

// The calls in that value, or none if there is no value.
fn calls_at(alloc: Global, value: Option<&Value>) -> Result<Vec<OwnCall>, ConfigError>
    ensures calls { IfOk result (λ calls.
        spec.calls_at (option_map (λ v. view v.now) value.entry) ≡ Ok (called.called_all calls.items)) }
    ensures error { IfErr result (λ error. IfSome (faults.fault error) (λ fault.
        spec.calls_at (option_map (λ v. view v.now) value.entry) ≡ Err fault)) }
{
    match value {
        Some(Value::Table(table)) => calls_in(alloc, table),
        Some(
            Value::String(_)
            | Value::Integer(_)
            | Value::Float(_)
            | Value::Boolean(_)
            | Value::Datetime(_)
            | Value::Array(_),
        ) => Err(ConfigError::CallsNotATable),
        None => Ok(Vec::new(alloc)),
    }
}

// What a document says.
fn config_of_document(alloc: Global, document: &Table) -> Result<Config, ConfigError>
    ensures config { IfOk result (λ config.
        spec.config_of_document (table_view document.now) ≡ Ok (spec.said config)) }
    ensures error { IfErr result (λ error. IfSome (faults.fault error) (λ fault.
        spec.config_of_document (table_view document.now) ≡ Err fault)) }
{
    if let Some(name) = unknown_name(document) {
        return Err(ConfigError::UnknownName(name.clone()?));
    }
    let keys = keys_at(alloc, value_of_keys(document))?;
    let exclude = exclude_at(alloc, value_of_exclude(document))?;
    let levels = levels_at(value_of_levels(document))?;
    let calls = calls_at(alloc, value_of_calls(document))?;
    Ok(Config {
        keys,
        exclude,
        levels,
        calls,
    })
}

/// What the text of a file of settings says. An `Err` says what is wrong with it, or that memory ran out.
pub fn config_of(alloc: Global, text: &str) -> Result<Config, ConfigError>
    ensures config { IfOk result (λ config.
        spec.config_of text.now ≡ Ok (spec.said config)) }
    ensures error { IfErr result (λ error. IfSome (faults.fault error) (λ fault.
        spec.config_of text.now ≡ Err fault)) }
{
    match table_from_str(alloc, text) {
        Ok(document) => config_of_document(alloc, &document),
        Err(error) if error.is_memory() => Err(ConfigError::Memory),
        Err(error) => Err(ConfigError::NotToml(error)),
    }
}
