//! The table of keys.

ghost use Rattle.std.specs.Prelude.{◌≡◌, IfOk, IfErr, IfSome, Ok, Err, string_bytes};
ghost use Rattle.toml.specs.View.{view, table_view};
ghost use Rattle.timefd_lint_options.specs.Config.Config as spec;
ghost use Rattle.timefd_lint_options.specs.Config.Faults as faults;

use crate::config::error::ConfigError;
use crate::config::language::{ValueFault, dialect_valued};
use std::alloc::{AllocError, Global};
use timefd_lint_scan::FormatLanguage;
use toml::{Table, Value};

/// A key whose strings are descriptions in a language.
#[derive(Drop)]
pub struct OwnedKey {
    pub name: String,
    pub dialect: FormatLanguage,
}

// The key with this name and value.
fn key_of(name: &String, value: &Value) -> Result<OwnedKey, ConfigError>
    ensures key { IfOk result (λ key.
        spec.key_of (string_bytes name.now) (view value.now) ≡ Ok (spec.named key)) }
    ensures error { IfErr result (λ error. IfSome (faults.fault error) (λ fault.
        spec.key_of (string_bytes name.now) (view value.now) ≡ Err fault)) }
{
    if name.is_empty() {
        return Err(ConfigError::EmptyName);
    }
    let copy = name.clone()?;
    match dialect_valued(value) {
        Ok(dialect) => Ok(OwnedKey {
            name: copy,
            dialect,
        }),
        Err(ValueFault::WrongType) => Err(ConfigError::WrongType(copy)),
        Err(ValueFault::UnknownLanguage) => Err(ConfigError::UnknownLanguage(copy)),
    }
}

/// The keys of a table, sorted by name. An `Err` says what is wrong with the first entry that isn't a key, or
/// that memory ran out.
pub fn keys_in(alloc: Global, table: &Table) -> Result<Vec<OwnedKey>, ConfigError>
    ensures keys { IfOk result (λ keys.
        spec.keys_in (table_view table.now) ≡ Ok (spec.named_all keys.items)) }
    ensures error { IfErr result (λ error. IfSome (faults.fault error) (λ fault.
        spec.keys_in (table_view table.now) ≡ Err fault)) }
{
    let mut keys = Vec::new(alloc);
    'keys: for (name, value) in table.iter() {
        let key = key_of(name, value)?;
        keys.push(key).map_err(AllocError::from)?;
    }
    Ok(keys)
}
