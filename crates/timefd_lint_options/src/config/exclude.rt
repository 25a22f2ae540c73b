//! The list of what is passed over.

ghost use Rattle.std.specs.Prelude.{◌≡◌, ◌++◌, IfOk, IfErr, IfSome, OnOk, Ok, Err, Some, string_bytes};
ghost use Rattle.toml.specs.View.{items_view, view};
ghost use Rattle.timefd_lint_options.specs.Config.Config as spec;
ghost use Rattle.timefd_lint_options.specs.Config.Faults as faults;

use crate::config::error::ConfigError;
use std::alloc::Global;
use toml::Value;

// Appends a pattern, and a line feed.
fn push_pattern(text: &mut String, value: &Value) -> Result<(), ConfigError>
    ensures pushed { OnOk result (spec.pushed (string_bytes text.old) (spec.pattern_line (view value.now))
        ≡ Some (string_bytes text.new)) }
    ensures error { IfErr result (λ error. IfSome (faults.fault error) (λ fault.
        spec.with_line (spec.pattern_line (view value.now)) (Ok (string_bytes text.old)) ≡ Err fault)) }
{
    match value {
        Value::String(pattern) => {
            text.push_str(pattern.as_str())?;
            Ok(text.push('\n')?)
        }
        Value::Integer(_)
        | Value::Float(_)
        | Value::Boolean(_)
        | Value::Datetime(_)
        | Value::Array(_)
        | Value::Table(_) => Err(ConfigError::NotAPattern),
    }
}

/// The patterns of a list, each followed by a line feed. An `Err` says that an item isn't a string, or that
/// memory ran out.
pub fn patterns_in(alloc: Global, values: &[Value]) -> Result<String, ConfigError>
    ensures patterns { IfOk result (λ text.
        spec.patterns_in (items_view values.now) ≡ Ok (string_bytes text)) }
    ensures error { IfErr result (λ error. IfSome (faults.fault error) (λ fault.
        spec.patterns_in (items_view values.now) ≡ Err fault)) }
{
    let mut text = String::new(alloc);
    let mut rest = values;
    'values: while let [value, after @ ..] = rest {
        push_pattern(&mut text, value)?;
        rest = after;
    }
    Ok(text)
}
