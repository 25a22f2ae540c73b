//! Languages as values of TOML.

ghost use Rattle.std.specs.Prelude.{◌≡◌};
ghost use Rattle.toml.specs.View.{view};
ghost use Rattle.timefd_lint_options.specs.Config.Config as spec;

use timefd_lint_scan::FormatLanguage;
use timefd_lint_scan::dialect::dialect_named;
use toml::Value;

/// Why a value isn't a language.
#[derive(Clone, Copy)]
pub enum ValueFault {
    /// It is neither a number nor a string.
    WrongType,
    /// It is a number or a string, but not a language.
    UnknownLanguage,
}

// The language that a number names.
fn dialect_numbered(number: i64) -> Option<FormatLanguage>
    ensures { result ≡ spec.dialect_numbered number }
{
    match number {
        1 => Some(FormatLanguage::One),
        2 => Some(FormatLanguage::Two),
        3 => Some(FormatLanguage::Three),
        _ => None,
    }
}

/// The language that a value names: `1`, `2`, `3` as a number or a string, or a name like `"strftime"` or
/// `"java"`. An `Err` says why it names none.
pub fn dialect_valued(value: &Value) -> Result<FormatLanguage, ValueFault>
    ensures { result ≡ spec.dialect_valued (view value.now) }
{
    match value {
        Value::Integer(number) => known(dialect_numbered(*number)),
        Value::String(word) => known(dialect_named(word.as_str())),
        Value::Float(_)
        | Value::Boolean(_)
        | Value::Datetime(_)
        | Value::Array(_)
        | Value::Table(_) => Err(ValueFault::WrongType),
    }
}

fn known(dialect: Option<FormatLanguage>) -> Result<FormatLanguage, ValueFault>
    ensures { result ≡ spec.known dialect }
{
    dialect.ok_or(ValueFault::UnknownLanguage)
}
