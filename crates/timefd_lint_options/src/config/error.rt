//! Why a text isn't a file of settings.

ghost use Rattle.std.specs.Prelude.{◌≡◌};
ghost use Rattle.timefd_lint_options.specs.declared.config.error.ConfigError.TheVariants.{Memory};

use std::alloc::AllocError;
use timefd_lang_warnings::Warning;
use toml::de;

/// Why a text isn't a file of settings.
#[derive(Drop)]
pub enum ConfigError {
    /// Memory ran out.
    Memory,
    /// It isn't TOML, for this reason.
    NotToml(de::Error),
    /// A table or a key of this name has no meaning here.
    UnknownName(String),
    /// `keys` isn't a table.
    KeysNotATable,
    /// A key has no name.
    EmptyName,
    /// The value of the key with this name is neither a number nor a string.
    WrongType(String),
    /// The value of the key with this name is a number or a string, but not a language.
    UnknownLanguage(String),
    /// `exclude` isn't a list.
    NotAList,
    /// The list `exclude` has an item that isn't a string.
    NotAPattern,
    /// `levels` isn't a table.
    LevelsNotATable,
    /// No warning has this code.
    UnknownWarning(String),
    /// The level of this warning isn't a string.
    NoLevel(Warning),
    /// The level of this warning is a string, but this one names no level.
    UnknownLevel(Warning, String),
    /// `calls` isn't a table.
    CallsNotATable,
    /// This key of `calls` isn't the name of a call.
    NotACall(String),
    /// The value of the call with this key isn't a string with a colon.
    NoArgument(String),
    /// What precedes the colon in the value of the call with this key isn't a language.
    UnknownCallLanguage(String),
    /// What follows the colon in the value of the call with this key isn't a number with one digit.
    NoNumber(String),
}

impl From<AllocError> for ConfigError {
    ghost from_gives = { λ _ error. error ≡ Memory };

    fn from(_: AllocError) -> Self {
        ConfigError::Memory
    }
}
